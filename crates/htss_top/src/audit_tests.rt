// Audits of the report of the stored script, changed in one place, cut, or as a run has made it.
use crate::run_tests::{
    Answer, Given, HEADER, LOADED, RUNS, STORED, STORED_REPORT, add, done, file, files_with,
    is_answered,
};
use outside::MemSink;
use std::alloc::Global;
use std::process::Abort;
use std::sync::Wait;
use std::test::Fail;
use std::thread::Threads;

// What is put in place of a text that stands in the report, and the first line at fault then: none where it is 0.
#[derive(Clone, Copy, Drop)]
struct Change {
    old: &'static str,
    new: &'static str,
    line: u64,
}

const CHANGES: [Change; 24] = [
    Change {
        old: "end\n",
        new: "end\n",
        line: 0,
    },
    Change {
        old: "hit 1 2,3 ethanol",
        new: "hit 1 1,3 ethanol",
        line: 7,
    },
    // an event is at fault before any line of a block
    Change {
        old: "event 3 withdraw 1 1",
        new: "event 3 withdraw 1 3",
        line: 20,
    },
    Change {
        old: "searchers 1",
        new: "searchers 0",
        line: 1,
    },
    Change {
        old: "log 8",
        new: "log 2",
        line: 17,
    },
    Change {
        old: "event 1 publish 1 3 2 ethanol",
        new: "event 1 publish 1 4 2 ethanol",
        line: 3,
    },
    Change {
        old: "event 1 publish 1 3 2 ethanol",
        new: "event 1 publish 1 3 2 ethanal",
        line: 3,
    },
    Change {
        old: "event 1 publish 1 3 2 ethanol",
        new: "event 1 publish 2 3 2 ethanol",
        line: 18,
    },
    Change {
        old: "published 1 ethanol\npublished 2 ether",
        new: "published 2 ethanol\npublished 1 ether",
        line: 3,
    },
    Change {
        old: "published 2 ether",
        new: "published 1 ether",
        line: 4,
    },
    Change {
        old: "hits 2 rows 4 records 2",
        new: "hits 2 rows 4 records 3",
        line: 9,
    },
    // how many rows were loaded is free
    Change {
        old: "hits 2 rows 4 records 2",
        new: "hits 2 rows 77 records 2",
        line: 0,
    },
    Change {
        old: "hit 1 2,3 ethanol\nhit 2 1,2 ether\nhits 2",
        new: "hit 2 1,2 ether\nhits 1",
        line: 7,
    },
    Change {
        old: "hit 1 2,3 ethanol\nhit 2 1,2 ether\nhits 2",
        new: "hit 1 2,3 ethanol\nhits 1",
        line: 8,
    },
    Change {
        old: "budget 100",
        new: "budget 5",
        line: 9,
    },
    Change {
        old: "hit 1 2,3 ethanol\nhit 2 1,2 ether\nhits 2 rows 4 records 2",
        new: "overbudget 100",
        line: 7,
    },
    // a later front of a search is a mark for the groups after it
    Change {
        old: "search 3 co.mol front 2\nhit 1 2,3 ethanol\nhit 2 1,2 ether\nhits 2 rows 4 records 2",
        new: "search 3 co.mol front 3\nhit 2 1,2 ether\nhits 1 rows 4 records 1",
        line: 9,
    },
    Change {
        old: "withdraw 7 0 Unknown 3",
        new: "withdraw 7 0 Unknown 2",
        line: 12,
    },
    Change {
        old: "withdraw 7 0 Unknown 3\n",
        new: "",
        line: 12,
    },
    // the last group
    Change {
        old: "hit 2 1,2 ether\nhits 1 rows 4 records 1",
        new: "hits 0 rows 4 records 1",
        line: 15,
    },
    Change {
        old: "withdraw 5 1 at 3",
        new: "withdraw 5 2 at 3",
        line: 10,
    },
    // what no report has there
    Change {
        old: "loaded 2",
        new: "loaded 3",
        line: 5,
    },
    Change {
        old: "end\n",
        new: "end\nend\n",
        line: 22,
    },
    Change {
        old: "end\n",
        new: "end",
        line: 21,
    },
];

const AUDIT: Answer = Answer {
    words: &["audit", "s.txt", "r.txt"],
    failing: 0,
    room: 10000,
    status: 0,
    events: None,
};

// The report, given in parts, is audited with this script.
pub(crate) fn is_audited<R: Threads + Wait + Sync + Abort>(
    rt: &R,
    alloc: Global,
    script: &str,
    report: &[&str],
    line: u64,
    whole: &str,
) -> Result<(), Fail> {
    let mut files = files_with(rt, alloc, script)?;
    let report = Given {
        name: "r.txt",
        parts: report,
    };
    add(rt, &mut files, file(alloc, &report)?)?;
    if line == 0 {
        return is_answered(rt, alloc, files, &AUDIT, whole.as_bytes());
    }
    let text = format!(in alloc; "differs {line}\n")?;
    let answer = Answer { status: 1, ..AUDIT };
    is_answered(rt, alloc, files, &answer, text.as_bytes())
}

#[test]
fn changed_reports_differ(rt: HostRuntime) -> Result<(), Fail> {
    for change in &CHANGES {
        let Some((before, after)) = STORED_REPORT.split_once(change.old) else {
            return Err("a text that does not stand in the report".into());
        };
        let parts = [before, change.new, after];
        is_audited(
            &rt,
            rt.alloc(),
            STORED,
            &parts,
            change.line,
            "audit 3 events 2 searches\n",
        )?;
    }
    Ok(())
}

#[test]
fn cut_reports_differ(rt: HostRuntime) -> Result<(), Fail> {
    let alloc = rt.alloc();
    let mut front = String::new(alloc);
    let mut line: u64 = 1;
    for text in STORED_REPORT.lines() {
        is_audited(&rt, alloc, STORED, &[&front], line, "")?;
        line = line.saturating_add(1);
        front.push_str(text)?;
        front.push('\n')?;
    }
    Ok(())
}

// A script, its report in parts, and the text of the audit.
#[derive(Clone, Copy, Drop)]
struct Audited {
    script: &'static str,
    report: &'static [&'static str],
    status: u8,
    text: &'static str,
}

const LOG_OF_TWO: &str = "log 2\nevent 1 publish 1 3 2 ethanol\nevent 2 publish 1 3 2 ether\nend\n";

const AUDITS: [Audited; 7] = [
    Audited {
        script: "load a.sdf\nsettle\nsearch co.mol 17",
        report: &[
            HEADER,
            LOADED,
            "search 3 co.mol front 2\noverbudget 17\n",
            LOG_OF_TWO,
        ],
        status: 0,
        text: "audit 2 events 1 searches\n",
    },
    // the work is 18
    Audited {
        script: "load a.sdf\nsettle\nsearch co.mol 18",
        report: &[
            HEADER,
            LOADED,
            "search 3 co.mol front 2\noverbudget 18\n",
            LOG_OF_TWO,
        ],
        status: 1,
        text: "differs 7\n",
    },
    // the budget of the line, not that of the header
    Audited {
        script: "load a.sdf\nsettle\nsearch co.mol 17",
        report: &[
            HEADER,
            LOADED,
            "search 3 co.mol front 2\noverbudget 16\n",
            LOG_OF_TWO,
        ],
        status: 1,
        text: "differs 7\n",
    },
    Audited {
        script: "",
        report: &[HEADER, "log 0\nend\n"],
        status: 0,
        text: "audit 0 events 0 searches\n",
    },
    // all files are read before the report is looked at
    Audited {
        script: "load none.sdf",
        report: &["no report"],
        status: 7,
        text: "stop 7 absent none.sdf\n",
    },
    Audited {
        script: "load a.sdf",
        report: &["no report"],
        status: 1,
        text: "differs 1\n",
    },
    Audited {
        script: "load a.sdf\nserch co.mol",
        report: &["no report"],
        status: 3,
        text: "stop 3 script 2\n",
    },
];

#[test]
fn reports_are_audited(rt: HostRuntime) -> Result<(), Fail> {
    let alloc = rt.alloc();
    for audited in &AUDITS {
        let mut files = files_with(&rt, alloc, audited.script)?;
        let report = Given {
            name: "r.txt",
            parts: audited.report,
        };
        add(&rt, &mut files, file(alloc, &report)?)?;
        let answer = Answer {
            status: audited.status,
            ..AUDIT
        };
        is_answered(&rt, alloc, files, &answer, audited.text.as_bytes())?;
    }
    Ok(())
}

const NO_REPORT: Answer = Answer {
    words: &["audit", "s.txt", "none.txt"],
    failing: 0,
    room: 10000,
    status: 7,
    events: None,
};

#[test]
fn reports_that_are_absent_stop_an_audit(rt: HostRuntime) -> Result<(), Fail> {
    let alloc = rt.alloc();
    let files = files_with(&rt, alloc, STORED)?;
    is_answered(&rt, alloc, files, &NO_REPORT, b"stop 7 absent none.txt\n")?;
    let files = files_with(&rt, alloc, STORED)?;
    let failing = Answer {
        failing: 3,
        status: 4,
        ..NO_REPORT
    };
    is_answered(&rt, alloc, files, &failing, b"stop 4 read none.txt\n")
}

#[test]
fn what_a_run_reports_holds(rt: HostRuntime) -> Result<(), Fail> {
    let alloc = rt.alloc();
    for case in &RUNS {
        let mut out = MemSink::new(alloc, 10000, 10000, vec![in alloc]?, vec![in alloc]?)?;
        let files = files_with(&rt, alloc, case.script)?;
        let ended = done(&rt, alloc, files, &case.answer, &mut out)?;
        assert_eq!(rt; ended, (case.answer.status, case.answer.events));
        let report = str::from_utf8(out.bytes())?;
        let parts = [report];
        let given = Given {
            name: "r.txt",
            parts: &parts,
        };
        let mut files = files_with(&rt, alloc, case.script)?;
        add(&rt, &mut files, file(alloc, &given)?)?;
        let mut audit = MemSink::new(alloc, 10000, 10000, vec![in alloc]?, vec![in alloc]?)?;
        let ended = done(&rt, alloc, files, &AUDIT, &mut audit)?;
        assert_eq!(rt; ended, (0, None), "{:?}", str::from_utf8(audit.bytes())?);
    }
    Ok(())
}
