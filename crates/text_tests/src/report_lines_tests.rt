// Lines of a report as they are read.
use crate::made::padded;
use htss_defs::{Hit, OutOfMemory, Shape};
use report_lines::{Line, read_line};
use report_text::{LoadLine, LogLine, WithdrawLine};
use std::test::Fail;

// What a line tells: its form, its numbers in their order and then zeros, and its text.
type Told<'a> = (&'a str, [u64; 4], &'a [u8]);

fn told(line: &Line) -> Told<'_> {
    match line {
        Line::Load { line, file } => ("load", [*line as u64, 0, 0, 0], file.text().as_bytes()),
        Line::Answer { answer } => told_answer(answer),
        Line::Loaded { count } => ("loaded", [*count as u64, 0, 0, 0], b""),
        Line::Withdraw {
            line,
            number,
            answer,
        } => told_withdrawal(*line, *number, *answer),
        Line::Log { count } => ("log", [*count as u64, 0, 0, 0], b""),
        Line::Event { number, event } => told_event(*number, event),
        Line::End => ("end", [0; 4], b""),
        other => told_search(other),
    }
}

fn told_search(line: &Line) -> Told<'_> {
    match line {
        Line::Search { line, file, front } => {
            let numbers = [*line as u64, *front as u64, 0, 0];
            ("search", numbers, file.text().as_bytes())
        }
        Line::NotRead {
            line,
            file,
            at,
            code,
        } => {
            let numbers = [*line as u64, *at, *code as u64, 0];
            ("search refused", numbers, file.text().as_bytes())
        }
        Line::OneHit { hit } => told_hit(hit),
        Line::HitsEnd {
            count,
            rows,
            records,
        } => ("hits", [*count as u64, *rows, *records as u64, 0], b""),
        Line::OverBudget { budget } => ("over budget", [*budget, 0, 0, 0], b""),
        _ => ("told elsewhere", [0; 4], b""),
    }
}

fn told_answer(answer: &LoadLine) -> Told<'_> {
    match answer {
        LoadLine::Published { number, name } => {
            ("published", [*number as u64, 0, 0, 0], name.bytes())
        }
        LoadLine::Refused { place, line, code } => {
            ("refused", [*place as u64, *line, *code as u64, 0], b"")
        }
        LoadLine::DataFull { place, left, need } => {
            let numbers = [*place as u64, *left as u64, *need as u64, 0];
            ("data full", numbers, b"")
        }
        LoadLine::NoPage { place } => ("no page", [*place as u64, 0, 0, 0], b""),
        LoadLine::ChainFull { place, pages } => {
            ("chain full", [*place as u64, *pages as u64, 0, 0], b"")
        }
        LoadLine::LogFull { place, front } => {
            ("log full", [*place as u64, *front as u64, 0, 0], b"")
        }
    }
}

fn told_withdrawal(line: u32, number: u32, answer: WithdrawLine) -> Told<'static> {
    let (form, told) = match answer {
        WithdrawLine::At { event } => ("withdrawn", event),
        WithdrawLine::Unknown { front } => ("unknown", front),
        WithdrawLine::Gone { at } => ("gone", at),
        WithdrawLine::LogFull { front } => ("withdrawal log full", front),
    };
    (form, [line as u64, number as u64, told as u64, 0], b"")
}

fn told_event(number: u32, event: &LogLine) -> Told<'_> {
    match event {
        LogLine::Publish {
            loader,
            atoms,
            bonds,
            name,
        } => {
            let numbers = [number as u64, *loader as u64, *atoms as u64, *bonds as u64];
            ("publish", numbers, name.bytes())
        }
        LogLine::Withdraw {
            loader,
            number: target,
        } => {
            let numbers = [number as u64, *loader as u64, *target as u64, 0];
            ("withdraw", numbers, b"")
        }
    }
}

fn told_hit(hit: &Hit) -> Told<'_> {
    let number = hit.number as u64;
    match hit.map.as_slice() {
        [place] => ("hit at 1", [number, *place as u64, 0, 0], hit.name.bytes()),
        [place, next] => {
            let numbers = [number, *place as u64, *next as u64, 0];
            ("hit at 2", numbers, hit.name.bytes())
        }
        _ => ("hit at others", [number, 0, 0, 0], hit.name.bytes()),
    }
}

// Lines, and what each tells: its form, its numbers and its text.
const LINES: &[(&str, &str, [u64; 4], &str)] = &[
    (
        "load 4294967295 a.sdf",
        "load",
        [4294967295, 0, 0, 0],
        "a.sdf",
    ),
    ("load 1 ~!a", "load", [1, 0, 0, 0], "~!a"),
    ("published 1 ethanol", "published", [1, 0, 0, 0], "ethanol"),
    ("published 0", "published", [0, 0, 0, 0], ""),
    ("published 7 1  a", "published", [7, 0, 0, 0], "1  a"),
    (
        "refused 2 18446744073709551615 5 Symbol",
        "refused",
        [2, 18446744073709551615, 5, 0],
        "",
    ),
    ("refused 1 4 20 TooLarge", "refused", [1, 4, 20, 0], ""),
    (
        "unpublished 3 DataFull 4 24",
        "data full",
        [3, 4, 24, 0],
        "",
    ),
    ("unpublished 3 NoPage", "no page", [3, 0, 0, 0], ""),
    ("unpublished 3 ChainFull 9", "chain full", [3, 9, 0, 0], ""),
    ("unpublished 3 LogFull 8", "log full", [3, 8, 0, 0], ""),
    ("loaded 0", "loaded", [0, 0, 0, 0], ""),
    ("withdraw 5 1 at 3", "withdrawn", [5, 1, 3, 0], ""),
    ("withdraw 5 1 Unknown 0", "unknown", [5, 1, 0, 0], ""),
    ("withdraw 5 1 Gone 3", "gone", [5, 1, 3, 0], ""),
    (
        "withdraw 5 1 LogFull 8",
        "withdrawal log full",
        [5, 1, 8, 0],
        "",
    ),
    ("search 3 co.mol front 2", "search", [3, 2, 0, 0], "co.mol"),
    (
        "search 3 front refused 7 22 Topology",
        "search refused",
        [3, 7, 22, 0],
        "front",
    ),
    ("hit 1 2,3 ethanol", "hit at 2", [1, 2, 3, 0], "ethanol"),
    ("hit 1 65535", "hit at 1", [1, 65535, 0, 0], ""),
    ("hits 2 rows 4 records 3", "hits", [2, 4, 3, 0], ""),
    ("overbudget 100", "over budget", [100, 0, 0, 0], ""),
    ("log 3", "log", [3, 0, 0, 0], ""),
    (
        "event 1 publish 255 65535 0 a",
        "publish",
        [1, 255, 65535, 0],
        "a",
    ),
    ("event 1 publish 1 1 0", "publish", [1, 1, 1, 0], ""),
    ("event 3 withdraw 1 2", "withdraw", [3, 1, 2, 0], ""),
    ("end", "end", [0, 0, 0, 0], ""),
];

#[test]
fn lines_are_read(rt: HostRuntime) -> Result<(), Fail> {
    for (text, form, numbers, name) in LINES {
        let line = read_line(rt.alloc(), text.as_bytes())?.ok_or("no line")?;
        assert!(rt; told(&line) == (*form, *numbers, name.as_bytes()), "{text}");
    }
    Ok(())
}

// First lines, the shape of each, and its budget.
const HEADERS: &[(&str, Shape, u64)] = &[
    (
        "htss 1 loaders 1 searchers 2 pages 16 room 100 log 8 chain 65535 budget 18446744073709551615",
        Shape {
            loaders: 1,
            searchers: 2,
            pages: 16,
            room: 100,
            log: 8,
            chain: 65535,
        },
        18446744073709551615,
    ),
    (
        "htss 1 loaders 255 searchers 0 pages 0 room 4294967295 log 1 chain 2 budget 0",
        Shape {
            loaders: 255,
            searchers: 0,
            pages: 0,
            room: 4294967295,
            log: 1,
            chain: 2,
        },
        0,
    ),
];

// Whether the line is a first one with this shape and budget.
fn is_header(line: &Line, want: Shape, most: u64) -> bool {
    match line {
        Line::Header { shape, budget } => *shape == want && *budget == most,
        _ => false,
    }
}

#[test]
fn first_lines_are_read(rt: HostRuntime) -> Result<(), Fail> {
    for (text, want, most) in HEADERS {
        let line = read_line(rt.alloc(), text.as_bytes())?.ok_or("no line")?;
        assert!(rt; is_header(&line, *want, *most), "{text}");
    }
    Ok(())
}

// Lines with faults in numbers, and then in words.
const FAULTS: &[&str] = &[
    "loaded 01",
    "loaded 00",
    "loaded +1",
    "loaded -0",
    "loaded 1a",
    "loaded",
    "loaded ",
    "loaded  1",
    "loaded 1 ",
    "loaded 1\r",
    "loaded 1 1",
    "loaded 4294967296",
    "log 4294967296",
    "overbudget 18446744073709551616",
    "overbudget 018446744073709551615",
    "htss 1 loaders 256 searchers 1 pages 16 room 100 log 8 chain 2 budget 1",
    "htss 1 loaders 1 searchers 256 pages 16 room 100 log 8 chain 2 budget 1",
    "htss 1 loaders 1 searchers 1 pages 4294967296 room 100 log 8 chain 2 budget 1",
    "htss 1 loaders 1 searchers 1 pages 16 room 100 log 8 chain 2 budget 18446744073709551616",
    "event 1 publish 256 1 0",
    "event 1 publish 1 65536 0",
    "event 1 publish 1 1 65536",
    "event 1 withdraw 256 1",
    "refused 1 18446744073709551616 5 Symbol",
    "hits 1 rows 18446744073709551616 records 1",
    "hit 1 0",
    "hit 1 65536",
    "hit 1 02",
    "",
    " ",
    "End",
    "end ",
    "end\r",
    " end",
    "loads 1",
    "hello",
    "htss 2 loaders 1 searchers 1 pages 16 room 100 log 8 chain 2 budget 1",
    "htss 1 searchers 1 loaders 1 pages 16 room 100 log 8 chain 2 budget 1",
    "htss 1 loaders 1 searchers 1 pages 16 room 100 log 8 chain 2 budget 1 ",
    "load 1",
    "load 1 ",
    "load 1 a b",
    "load 1 a ",
    "load 1  a",
    "published 1 ",
    "published 1  a",
    "published 1 a ",
    "published 1 a\r",
    "published  1",
    "published a",
    "refused 1 4 15 Counts",
    "refused 1 4 19 ",
    "refused 1 4 0 ",
    "refused 1 4 0",
    "refused 1 4 23 Topology",
    "refused 1 4 5 Charge",
    "refused 1 4 5 symbol",
    "refused 1 4 5",
    "refused 1 4 5 Symbol ",
    "unpublished 1 NoPage 1",
    "unpublished 1 DataFull 4",
    "unpublished 1 PageFull",
    "withdraw 5 1 at",
    "withdraw 5 1 At 3",
    "withdraw 5 at 3",
    "search 3 front 2",
    "search 3 co.mol refused 2",
    "search 3 co.mol back 2",
    "hit 1",
    "hit 1 ",
    "hit 1 ,",
    "hit 1 1,",
    "hit 1 ,1",
    "hit 1 1,,2",
    "hit 1 1, 2",
    "hit 1  a",
    "hit 1 1 ",
    "hits 1",
    "hits 1 rows 1 record 1",
    "overbudget 1 1",
    "event 1 publish 1 1",
    "event 1 amend 1 1",
    "log 1 end",
];

#[test]
fn lines_at_fault_are_none(rt: HostRuntime) -> Result<(), OutOfMemory> {
    for text in FAULTS {
        assert!(rt; read_line(rt.alloc(), text.as_bytes())?.is_none(), "{text}");
    }
    Ok(())
}

// Fronts of lines, what comes after each, how often, and whether that is a line.
const LENGTHS: &[(&str, &str, usize, bool)] = &[
    ("published 1 ", "a", 80, true),
    ("published 1 ", "a", 81, false),
    ("event 1 publish 1 1 0 ", "a", 80, true),
    ("event 1 publish 1 1 0 ", "a", 81, false),
    ("load 1 ", "a", 4096, true),
    ("load 1 ", "a", 4097, false),
    ("hit 1 1", ",2", 63, true),
    ("hit 1 1", ",2", 64, false),
];

#[test]
fn lengths_end_at_their_limits(rt: HostRuntime) -> Result<(), OutOfMemory> {
    for (front, more, count, want) in LENGTHS {
        let text = padded(rt.alloc(), front.as_bytes(), more.as_bytes(), *count)?;
        assert!(rt;
            read_line(rt.alloc(), text.as_slice())?.is_some() == *want,
            "{front}"
        );
    }
    Ok(())
}
