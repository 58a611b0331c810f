// A query that is refused leaves the SDfile unread.
ghost use Rattle.std.specs.Prelude.{Some};

use crate::made::{Given, shelf, words};
use outside::{MemShelf, MemSink, Shelf, ShelfError};
use std::test::Fail;
use tool_commands::htss_tool;

const CARBON: &str =
    "c\n\n\n  1  0  0  0  0  0  0  0  0  0999 V2000\n    0.0000    0.0000    0.0000 C   0  0\nM  END\n$$$$\n";

const FILES: [Given<'static>; 3] = [
    Given {
        name: "c.sdf",
        parts: &[CARBON],
    },
    Given {
        name: "c.mol",
        parts: &[CARBON],
    },
    Given {
        name: "blank.mol",
        parts: &["\n\n"],
    },
];

const SDF: &str = "c.sdf";

// A shelf that counts how often it was asked for the SDfile.
#[derive(Drop)]
struct Watched {
    shelf: MemShelf,
    asked: u64,
}

impl Shelf for Watched {
    ghost told = { λ s. Some s.shelf.files };

    ghost absent = { λ s. s.shelf.absent };

    ghost faults = { λ s. s.shelf.faults };

    fn read_at(&mut self, name: &str, offset: u64, into: &mut [u8]) -> Result<usize, ShelfError> {
        if name == SDF {
            self.asked = self.asked.saturating_add(1);
        }
        self.shelf.read_at(name, offset, into)
    }
}

// The query, how often the shelf is asked for the SDfile, and the text.
const QUERIES: [(&str, u64, &str); 2] = [
    ("c.mol", 2, "hit 1 1 c\nhits 1\n"),
    ("blank.mol", 0, "query refused 3 12 NoEnd\n"),
];

#[test]
fn a_query_that_is_refused_leaves_the_sdfile_unread(rt: HostRuntime) -> Result<(), Fail> {
    for (query, asked, text) in &QUERIES {
        let words = words(rt.alloc(), &["find", SDF, query])?;
        let mut watched = Watched {
            shelf: shelf(&rt, rt.alloc(), &FILES, 0)?,
            asked: 0,
        };
        let mut out = MemSink::new(
            rt.alloc(),
            200,
            200,
            vec![in rt.alloc()]?,
            vec![in rt.alloc()]?,
        )?;
        assert_eq!(rt; htss_tool(rt.alloc(), &words, &mut watched, &mut out), 0);
        assert_eq!(rt; str::from_utf8(out.bytes())?, *text);
        assert_eq!(rt; watched.asked, *asked);
    }
    Ok(())
}
