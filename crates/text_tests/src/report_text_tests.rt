// Reports and their parts, as they are written.
use crate::made::name;
use arrayvec::ArrayVec;
use htss_defs::{FileName, Hit, Places, Shape};
use report_text::{
    Block, Blocks, Hits, LoadLine, LoadLines, LogLine, LogLines, Report, SearchLine, WithdrawLine,
    write_block, write_header, write_log, write_report,
};
use std::alloc::Global;
use std::test::Fail;

// What became of a record, in plain values.
enum Record {
    Published(u32, &'static str),
    Refused(u32, u64, u8),
    DataFull(u32, u32, u32),
    NoPage(u32),
    ChainFull(u32, u32),
    LogFull(u32, u32),
}

// A hit, in plain values: the number of the record, its places and its name.
type Found = (u32, &'static [u16], &'static str);

// A block, in plain values: the line of the job, and the rest in the order of the text.
enum Told {
    Load(u32, &'static [Record]),
    Withdraw(u32, u32, WithdrawLine),
    Search(u32, u32, &'static [Found], u64, u32),
    OverBudget(u32, u32, u64),
    Refused(u32, u64, u8),
}

// An event, in plain values: the loader, and the rest in the order of the text.
enum Happened {
    Publish(u8, u16, u16, &'static str),
    Withdraw(u8, u32),
}

fn answer_of(record: &Record) -> Result<LoadLine, Fail> {
    match *record {
        Record::Published(number, text) => Ok(LoadLine::Published {
            number,
            name: name(text)?,
        }),
        Record::Refused(place, line, code) => Ok(LoadLine::Refused { place, line, code }),
        Record::DataFull(place, left, need) => Ok(LoadLine::DataFull { place, left, need }),
        Record::NoPage(place) => Ok(LoadLine::NoPage { place }),
        Record::ChainFull(place, pages) => Ok(LoadLine::ChainFull { place, pages }),
        Record::LogFull(place, front) => Ok(LoadLine::LogFull { place, front }),
    }
}

fn answers_of(alloc: Global, records: &[Record]) -> Result<LoadLines, Fail> {
    let mut answers = Vec::new(alloc);
    for record in records {
        answers.push(answer_of(record)?)?;
    }
    Ok(LoadLines::new(answers))
}

// The first 64 of these places.
fn places_of(map: &[u16]) -> Places {
    let mut places = ArrayVec::new();
    for place in map {
        if places.len() < 64 {
            places.push(*place);
        }
    }
    Places::new(places)
}

fn hits_of(alloc: Global, found: &[Found]) -> Result<Hits, Fail> {
    let mut hits = Vec::new(alloc);
    for (number, map, text) in found {
        hits.push(Hit {
            number: *number,
            name: name(text)?,
            map: places_of(map),
        })?;
    }
    Ok(Hits::new(hits))
}

fn file_of(alloc: Global, text: &str) -> Result<FileName, Fail> {
    let Some(file) = FileName::new(String::from_str(alloc, text)?) else {
        return Err("no name of a file".into());
    };
    Ok(file)
}

fn search_of(alloc: Global, line: u32, answer: SearchLine) -> Result<Block, Fail> {
    Ok(Block::Search {
        line,
        file: file_of(alloc, "co.mol")?,
        answer,
    })
}

fn block_of(alloc: Global, told: &Told) -> Result<Block, Fail> {
    match *told {
        Told::Load(line, records) => Ok(Block::Load {
            line,
            file: file_of(alloc, "a.sdf")?,
            answers: answers_of(alloc, records)?,
        }),
        Told::Withdraw(line, number, answer) => Ok(Block::Withdraw {
            line,
            number,
            answer,
        }),
        Told::Search(line, front, found, rows, records) => {
            let hits = hits_of(alloc, found)?;
            let answer = SearchLine::Hits {
                front,
                hits,
                rows,
                records,
            };
            search_of(alloc, line, answer)
        }
        Told::OverBudget(line, front, budget) => {
            search_of(alloc, line, SearchLine::OverBudget { front, budget })
        }
        Told::Refused(job, line, code) => search_of(alloc, job, SearchLine::Refused { line, code }),
    }
}

fn blocks_of(alloc: Global, told: &[Told]) -> Result<Vec<Block>, Fail> {
    let mut blocks = Vec::new(alloc);
    for told in told {
        blocks.push(block_of(alloc, told)?)?;
    }
    Ok(blocks)
}

fn events_of(alloc: Global, happened: &[Happened]) -> Result<Vec<LogLine>, Fail> {
    let mut events = Vec::new(alloc);
    for happened in happened {
        events.push(match *happened {
            Happened::Publish(loader, atoms, bonds, text) => LogLine::Publish {
                loader,
                atoms,
                bonds,
                name: name(text)?,
            },
            Happened::Withdraw(loader, number) => LogLine::Withdraw { loader, number },
        })?;
    }
    Ok(events)
}

const SHAPE: Shape = Shape {
    loaders: 1,
    searchers: 1,
    pages: 16,
    room: 100,
    log: 8,
    chain: 65535,
};

const BLOCKS: &[Told] = &[
    Told::Load(
        1,
        &[
            Record::Published(1, "ethanol"),
            Record::Published(2, "ether"),
        ],
    ),
    Told::Search(
        3,
        2,
        &[(1, &[2, 3], "ethanol"), (2, &[1, 2], "ether")],
        4,
        2,
    ),
    Told::Withdraw(5, 1, WithdrawLine::At { event: 3 }),
    Told::Withdraw(6, 1, WithdrawLine::Gone { at: 3 }),
    Told::Withdraw(7, 0, WithdrawLine::Unknown { front: 3 }),
    Told::Withdraw(8, 3, WithdrawLine::Unknown { front: 3 }),
    Told::Search(10, 3, &[(2, &[1, 2], "ether")], 4, 1),
];

const EVENTS: &[Happened] = &[
    Happened::Publish(1, 3, 2, "ethanol"),
    Happened::Publish(1, 3, 2, "ether"),
    Happened::Withdraw(1, 1),
];

const REPORT: &[u8] =
    b"htss 1 loaders 1 searchers 1 pages 16 room 100 log 8 chain 65535 budget 100\nload 1 a.sdf\npublished 1 ethanol\npublished 2 ether\nloaded 2\nsearch 3 co.mol front 2\nhit 1 2,3 ethanol\nhit 2 1,2 ether\nhits 2 rows 4 records 2\nwithdraw 5 1 at 3\nwithdraw 6 1 Gone 3\nwithdraw 7 0 Unknown 3\nwithdraw 8 3 Unknown 3\nsearch 10 co.mol front 3\nhit 2 1,2 ether\nhits 1 rows 4 records 1\nlog 3\nevent 1 publish 1 3 2 ethanol\nevent 2 publish 1 3 2 ether\nevent 3 withdraw 1 1\nend\n";

#[test]
fn report_is_written(rt: HostRuntime) -> Result<(), Fail> {
    let alloc = rt.alloc();
    let blocks = blocks_of(alloc, BLOCKS)?;
    let report = Report {
        shape: SHAPE,
        budget: 100,
        events: LogLines::new(events_of(alloc, EVENTS)?),
        blocks: Blocks::new(blocks),
    };
    let mut text = Vec::new(alloc);
    write_report(&report, &mut text)?;
    assert_eq!(rt; text.as_slice(), REPORT);
    Ok(())
}

// Appends these blocks.
fn write_told(alloc: Global, told: &[Told], text: &mut Vec<u8>) -> Result<(), Fail> {
    for told in told {
        let block = block_of(alloc, told)?;
        write_block(&block, text)?;
    }
    Ok(())
}

#[test]
fn parts_make_the_report(rt: HostRuntime) -> Result<(), Fail> {
    let events = events_of(rt.alloc(), EVENTS)?;
    let mut text = Vec::new(rt.alloc());
    write_header(&SHAPE, 100, &mut text)?;
    write_told(rt.alloc(), BLOCKS, &mut text)?;
    write_log(events.as_slice(), &mut text)?;
    assert_eq!(rt; text.as_slice(), REPORT);
    Ok(())
}

const REFUSED_LOADS: &[Told] = &[
    Told::Load(
        12,
        &[
            Record::Published(4294967295, ""),
            Record::Refused(2, 18446744073709551615, 5),
            Record::DataFull(3, 4, 24),
            Record::NoPage(4),
            Record::ChainFull(5, 2),
            Record::LogFull(6, 8),
            Record::Published(9, "a b"),
        ],
    ),
    Told::Load(13, &[]),
];

const LOADS_TEXT: &[u8] =
    b"before\nload 12 a.sdf\npublished 4294967295\nrefused 2 18446744073709551615 5 Symbol\nunpublished 3 DataFull 4 24\nunpublished 4 NoPage\nunpublished 5 ChainFull 2\nunpublished 6 LogFull 8\npublished 9 a b\nloaded 2\nload 13 a.sdf\nloaded 0\n";

const OTHER_ANSWERS: &[Told] = &[
    Told::OverBudget(1, 0, 18446744073709551615),
    Told::Refused(2, 4, 20),
    Told::Search(3, 7, &[(3, &[65535], "")], 0, 4294967295),
    Told::Search(4, 0, &[], 0, 0),
    Told::Withdraw(5, 1, WithdrawLine::LogFull { front: 8 }),
];

const OTHERS_TEXT: &[u8] =
    b"search 1 co.mol front 0\noverbudget 18446744073709551615\nsearch 2 co.mol refused 4 20 TooLarge\nsearch 3 co.mol front 7\nhit 3 65535\nhits 1 rows 0 records 4294967295\nsearch 4 co.mol front 0\nhits 0 rows 0 records 0\nwithdraw 5 1 LogFull 8\n";

// What stands before, the blocks, and the whole text.
const APPENDED: &[(&[u8], &[Told], &[u8])] = &[
    (b"before\n", REFUSED_LOADS, LOADS_TEXT),
    (b"", OTHER_ANSWERS, OTHERS_TEXT),
];

#[test]
fn other_answers_are_written(rt: HostRuntime) -> Result<(), Fail> {
    for (before, told, want) in APPENDED {
        let mut text = Vec::from_slice(rt.alloc(), before)?;
        write_told(rt.alloc(), told, &mut text)?;
        assert!(rt; text.as_slice() == *want);
    }
    Ok(())
}

const NAMELESS_EVENTS: &[Happened] = &[
    Happened::Publish(255, 999, 65535, ""),
    Happened::Withdraw(16, 4294967295),
];

#[test]
fn logs_of_nameless_records_are_written(rt: HostRuntime) -> Result<(), Fail> {
    let events = events_of(rt.alloc(), NAMELESS_EVENTS)?;
    let mut text = Vec::new(rt.alloc());
    write_log(&[], &mut text)?;
    write_log(events.as_slice(), &mut text)?;
    assert_eq!(rt;
        text.as_slice(),
        b"log 0\nend\nlog 2\nevent 1 publish 255 999 65535\nevent 2 withdraw 16 4294967295\nend\n".as_slice()
    );
    Ok(())
}
