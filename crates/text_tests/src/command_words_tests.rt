// Command lines as they are read.
use command_words::{Command, read_words};
use htss_defs::OutOfMemory;
use std::alloc::Global;
use std::test::Fail;

// What a command asks for: its word, its files, its numbers in their order and then zeros.
type Told<'a> = (&'a str, &'a str, &'a str, [u64; 7]);

fn told<'a>(command: &Command<'a>) -> Told<'a> {
    match *command {
        Command::Find { sdf, query, budget } => ("find", sdf, query, [budget, 0, 0, 0, 0, 0, 0]),
        Command::Check { sdf } => ("check", sdf, "", [0; 7]),
        Command::Codes { mol } => ("codes", mol, "", [0; 7]),
        Command::Make {
            count,
            seed,
            summary,
        } => {
            let word = if summary { "make a summary" } else { "make" };
            (word, "", "", [count as u64, seed, 0, 0, 0, 0, 0])
        }
        Command::Run {
            script,
            shape,
            budget,
        } => {
            let (loaders, searchers) = (shape.loaders as u64, shape.searchers as u64);
            let (pages, room) = (shape.pages as u64, shape.room as u64);
            let (log, chain) = (shape.log as u64, shape.chain as u64);
            let numbers = [loaders, searchers, pages, room, log, chain, budget];
            ("run", script, "", numbers)
        }
        Command::Audit { script, report } => ("audit", script, report, [0; 7]),
    }
}

// The words of a line, which are parted by single spaces.
fn words_of(alloc: Global, line: &str) -> Result<Vec<String>, OutOfMemory> {
    let mut words = Vec::new(alloc);
    for word in line.split(' ') {
        words.push(String::from_str(alloc, word)?)?;
    }
    Ok(words)
}

// Command lines, and what each asks for.
const COMMANDS: &[(&str, Told<'static>)] = &[
    (
        "find a.sdf co.mol",
        ("find", "a.sdf", "co.mol", [10000000000, 0, 0, 0, 0, 0, 0]),
    ),
    (
        "find --budget=18 a.sdf co.mol",
        ("find", "a.sdf", "co.mol", [18, 0, 0, 0, 0, 0, 0]),
    ),
    (
        "find a.sdf --budget 18 co.mol",
        ("find", "a.sdf", "co.mol", [18, 0, 0, 0, 0, 0, 0]),
    ),
    (
        "find a.sdf co.mol --budget 018",
        ("find", "a.sdf", "co.mol", [18, 0, 0, 0, 0, 0, 0]),
    ),
    (
        "find a.sdf co.mol --budget 18446744073709551615",
        (
            "find",
            "a.sdf",
            "co.mol",
            [18446744073709551615, 0, 0, 0, 0, 0, 0],
        ),
    ),
    ("check a", ("check", "a", "", [0, 0, 0, 0, 0, 0, 0])),
    ("check help", ("check", "help", "", [0, 0, 0, 0, 0, 0, 0])),
    (
        "codes co.mol",
        ("codes", "co.mol", "", [0, 0, 0, 0, 0, 0, 0]),
    ),
    (
        "make 2000 7 --summary",
        ("make a summary", "", "", [2000, 7, 0, 0, 0, 0, 0]),
    ),
    (
        "make --summary 2000 7",
        ("make a summary", "", "", [2000, 7, 0, 0, 0, 0, 0]),
    ),
    (
        "make 100000 0",
        ("make", "", "", [100000, 0, 0, 0, 0, 0, 0]),
    ),
    (
        "make 1 18446744073709551615",
        ("make", "", "", [1, 18446744073709551615, 0, 0, 0, 0, 0]),
    ),
    (
        "run s.txt",
        (
            "run",
            "s.txt",
            "",
            [2, 2, 1048576, 4194304, 1048576, 65535, 10000000000],
        ),
    ),
    (
        "run s.txt --loaders 1 --searchers 3 --pages 16 --room 10 --log 4 --chain 2 --budget 5",
        ("run", "s.txt", "", [1, 3, 16, 10, 4, 2, 5]),
    ),
    (
        "run --budget=0 --chain=65535 --log=1048576 --room=16777216 --pages=4194304 --searchers=16 --loaders=15 s.txt",
        (
            "run",
            "s.txt",
            "",
            [15, 16, 4194304, 16777216, 1048576, 65535, 0],
        ),
    ),
    (
        "audit a.txt report.txt",
        ("audit", "a.txt", "report.txt", [0; 7]),
    ),
];

#[test]
fn commands_are_read(rt: HostRuntime) -> Result<(), Fail> {
    for (line, want) in COMMANDS {
        let words = words_of(rt.alloc(), line)?;
        let command = read_words(rt.alloc(), words.as_slice())?.ok_or("no command")?;
        assert!(rt; told(&command) == *want, "{line}");
    }
    Ok(())
}

// Lines that are no command lines.
const OTHERS: &[&str] = &[
    "find a.sdf co.mol --budget 18446744073709551616",
    "find a.sdf co.mol --budget 000000000000000000001",
    "find a.sdf co.mol --budget -1",
    "find a.sdf co.mol --budget=-1",
    "find a.sdf co.mol --budget=",
    "find a.sdf co.mol --budget",
    "find a.sdf co.mol --budget 5 --budget 5",
    "find a.sdf co.mol --budget=5 --budget 6",
    "find a.sdf co.mol --budg 5",
    "find a.sdf co.mol -b 5",
    "find a.sdf co.mol --pages 16",
    "--budget 5 find a.sdf co.mol",
    "find a.sdf",
    "find a.sdf co.mol x",
    "find a.sdf -",
    "find",
    "check -- a",
    "check ",
    "check a b",
    "check a --budget 5",
    "codes",
    "make 0 7",
    "make 100001 7",
    "make 2000 7 --summary=1",
    "make 2000 7 --summary --summary",
    "make 2000",
    "make two 7",
    "--help",
    "check --help",
    "help",
    "Find a.sdf co.mol",
    "",
    "run s.txt --pages 15",
    "run s.txt --pages 4194305",
    "run s.txt --loaders 0",
    "run s.txt --loaders 17",
    "run s.txt --searchers 17",
    "run s.txt --room 9",
    "run s.txt --log 1048577",
    "run s.txt --chain 1",
    "run s.txt --chain 65536",
    "run s.txt --summary",
    "run s.txt t.txt",
    "run --pages 16",
];

#[test]
fn other_lines_are_no_commands(rt: HostRuntime) -> Result<(), OutOfMemory> {
    for line in OTHERS {
        let words = words_of(rt.alloc(), line)?;
        assert!(rt;
            read_words(rt.alloc(), words.as_slice())?.is_none(),
            "{line}"
        );
    }
    assert!(rt; read_words(rt.alloc(), &[])?.is_none());
    Ok(())
}
