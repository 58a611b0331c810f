// Boards as small as they may be.
use crate::made::{Given, is_right};
use std::test::Fail;

const TWO: Given<'static> = Given {
    name: "s.txt",
    parts: &["load two.sdf\n"],
};

const FRONT: &str =
    "x\n\n\n  1  0  0  0  0  0  0  0  0  0999 V2000\n    0.0000    0.0000    0.0000 ";

const END: &str = " 0  0\nM  END\n$$$$\n";

const SMALLEST: &[&str] = &[
    "run",
    "s.txt",
    "--loaders=1",
    "--searchers=1",
    "--pages=16",
    "--room=10",
    "--log=1",
    "--chain=2",
    "--budget=0",
];

// The smallest board of all holds one record of one atom, whose block takes the ten words of the region.
#[test]
fn the_smallest_board_holds_one_carbon(rt: HostRuntime) -> Result<(), Fail> {
    let text =
        "htss 1 loaders 1 searchers 1 pages 16 room 10 log 1 chain 2 budget 0\nload 1 two.sdf\npublished 1 c\nunpublished 2 DataFull 0 10\nloaded 1\nlog 1\nevent 1 publish 1 1 0 c\nend\n";
    is_right(&rt, rt.alloc(), &TWO, SMALLEST, (0, text))
}

// One step below each least value, and one above each greatest, of each option.
const OUTSIDE: [&str; 13] = [
    "--loaders=0",
    "--loaders=17",
    "--searchers=0",
    "--searchers=17",
    "--pages=15",
    "--pages=4194305",
    "--room=9",
    "--room=16777217",
    "--log=0",
    "--log=1048577",
    "--chain=1",
    "--chain=65536",
    "--budget=18446744073709551616",
];

#[test]
fn boards_beyond_the_limits_are_no_command_line(rt: HostRuntime) -> Result<(), Fail> {
    for option in OUTSIDE {
        let words = ["run", "s.txt", option];
        is_right(&rt, rt.alloc(), &TWO, &words, (2, "stop 2 usage\n"))?;
    }
    Ok(())
}

// As many callers as there may be, each a thread of its own, on the smallest board.
#[test]
fn all_callers_share_the_smallest_board(rt: HostRuntime) -> Result<(), Fail> {
    let words = [
        "run",
        "s.txt",
        "--loaders=16",
        "--searchers=16",
        "--pages=16",
        "--room=10",
        "--log=1",
        "--chain=2",
        "--budget=0",
    ];
    let text =
        "htss 1 loaders 16 searchers 16 pages 16 room 10 log 1 chain 2 budget 0\nload 1 two.sdf\npublished 1 c\nunpublished 2 DataFull 0 10\nloaded 1\nwithdraw 3 1 LogFull 1\nlog 1\nevent 1 publish 1 1 0 c\nend\n";
    let script = Given {
        name: "s.txt",
        parts: &["load two.sdf\nsettle\nwithdraw 1\n"],
    };
    is_right(&rt, rt.alloc(), &script, &words, (0, text))
}

const ELEMENTS: [&str; 15] = [
    "H  ", "He ", "Li ", "Be ", "B  ", "C  ", "N  ", "O  ", "F  ", "Ne ", "Na ", "Mg ", "Al ",
    "Si ", "P  ",
];

// Records of one atom each, of the first fifteen elements: the root and the next page of its chain have fourteen codes.
#[test]
fn a_chain_of_two_inner_pages_is_full(rt: HostRuntime) -> Result<(), Fail> {
    let alloc = rt.alloc();
    let mut sdf = String::new(alloc);
    for element in ELEMENTS {
        sdf.push_str(FRONT)?;
        sdf.push_str(element)?;
        sdf.push_str(END)?;
    }
    let file = Given {
        name: "fifteen.sdf",
        parts: &[&sdf],
    };
    let mut text = String::from_str(
        alloc,
        "htss 1 loaders 1 searchers 2 pages 32 room 4194304 log 1048576 chain 2 budget 10000000000\nload 1 fifteen.sdf\n",
    )?;
    for number in 1..15 {
        text.push_str(&format!(in alloc; "published {number} x\n")?)?;
    }
    text.push_str("unpublished 15 ChainFull 2\nloaded 14\nlog 14\n")?;
    for number in 1..15 {
        text.push_str(&format!(in alloc; "event {number} publish 1 1 0 x\n")?)?;
    }
    text.push_str("end\n")?;
    let words = [
        "run",
        "fifteen.txt",
        "--loaders=1",
        "--pages=32",
        "--chain=2",
    ];
    is_right(&rt, alloc, &file, &words, (0, &text))
}
