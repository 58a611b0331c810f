// What a drawn query may ask, by the text of `find`.
use crate::made::{Case, Given, is_right};
use std::test::Fail;

const C: &str = "    0.0000    0.0000    0.0000 C   0  0\n";

const N: &str = "    0.0000    0.0000    0.0000 N   0  0\n";

const N_PLUS: &str = "    0.0000    0.0000    0.0000 N   0  3\n";

const O: &str = "    0.0000    0.0000    0.0000 O   0  0\n";

const H: &str = "    0.0000    0.0000    0.0000 H   0  0\n";

const D: &str = "    0.0000    0.0000    0.0000 D   0  0\n";

const LISTED: &str = "    0.0000    0.0000    0.0000 L   0  0\n";

const ANY: &str = "    0.0000    0.0000    0.0000 *   0  0\n";

const NO_HYDROGEN: &str = "    0.0000    0.0000    0.0000 A   0  0\n";

const HETERO: &str = "    0.0000    0.0000    0.0000 Q   0  0\n";

// The header, and the line of the counts.
const ONE: &str = "\n\n\n  1  0  0  0  0  0  0  0  0  0999 V2000\n";

const ONE_LISTED: &str = "\n\n\n  1  0  1  0  0  0  0  0  0  0999 V2000\n";

const PAIR: &str = "\n\n\n  2  1  0  0  0  0  0  0  0  0999 V2000\n";

const THREE: &str = "\n\n\n  3  2  0  0  0  0  0  0  0  0999 V2000\n";

const END: &str = "M  END\n";

const RING: &[&str] = &[
    "\n\n\n  6  6  0  0  0  0  0  0  0  0999 V2000\n",
    C,
    C,
    C,
    C,
    C,
    C,
    "  1  2  1  0\n",
    "  2  3  2  0\n",
    "  3  4  1  0\n",
    "  4  5  2  0\n",
    "  5  6  1  0\n",
    "  6  1  2  0\n",
    END,
    "$$$$\n",
];

const TAILED_RING: &[&str] = &[
    "\n\n\n  4  4  0  0  0  0  0  0  0  0999 V2000\n",
    C,
    C,
    C,
    C,
    "  1  2  1  0\n",
    "  2  3  1  0\n",
    "  1  3  1  0\n",
    "  3  4  1  0\n",
    END,
    "$$$$\n",
];

const ETHANOL: &[&str] = &[
    THREE,
    C,
    C,
    O,
    "  1  2  1  0\n",
    "  2  3  1  0\n",
    END,
    "$$$$\n",
];

const WATER_CARBON: &[&str] = &[
    THREE,
    H,
    C,
    O,
    "  1  2  1  0\n",
    "  2  3  1  0\n",
    END,
    "$$$$\n",
];

const CHARGED: &[&str] = &[
    PAIR,
    N_PLUS,
    O,
    "  1  2  1  0\n",
    "M  CHG  1   2  -1\n",
    END,
    "$$$$\n",
];

const HEAVY: &[&str] = &[ONE, D, END, "$$$$\n"];

// The record, the query, and the text of `find`.
const FOUND: [(&[&str], &[&str], &str); 24] = [
    (
        RING,
        &[PAIR, C, C, "  1  2  5  0\n", END],
        "hit 1 1,2\nhits 1\n",
    ),
    (RING, &[PAIR, C, C, "  1  2  4  0\n", END], "hits 0\n"),
    (
        TAILED_RING,
        &[PAIR, C, C, "  1  2  1  0  0  1\n", END],
        "hit 1 1,2\nhits 1\n",
    ),
    (
        TAILED_RING,
        &[PAIR, C, C, "  1  2  1  0  0  2\n", END],
        "hit 1 3,4\nhits 1\n",
    ),
    (
        TAILED_RING,
        &[PAIR, C, C, "  1  2  1  0  0  0\n", END],
        "hit 1 1,2\nhits 1\n",
    ),
    (
        ETHANOL,
        &[
            ONE_LISTED,
            LISTED,
            "  1 F    1   6\n",
            "M  ALS   1  2 F N   O   \n",
            END,
        ],
        "hit 1 3\nhits 1\n",
    ),
    (
        ETHANOL,
        &[
            ONE_LISTED,
            LISTED,
            "  1 F    1   6\n",
            "M  ALS   1  2 T N   O   \n",
            END,
        ],
        "hit 1 1\nhits 1\n",
    ),
    (WATER_CARBON, &[ONE, ANY, END], "hit 1 1\nhits 1\n"),
    (WATER_CARBON, &[ONE, NO_HYDROGEN, END], "hit 1 2\nhits 1\n"),
    (WATER_CARBON, &[ONE, HETERO, END], "hit 1 3\nhits 1\n"),
    (
        CHARGED,
        &[ONE, O, "M  CHG  1   1  -1\n", END],
        "hit 1 2\nhits 1\n",
    ),
    (CHARGED, &[ONE, O, END], "hit 1 2\nhits 1\n"),
    (CHARGED, &[ONE, N_PLUS, END], "hits 0\n"),
    (CHARGED, &[ONE, N, END], "hit 1 1\nhits 1\n"),
    (HEAVY, &[ONE, H, END], "hit 1 1\nhits 1\n"),
    (
        HEAVY,
        &[ONE, H, "M  ISO  1   1   2\n", END],
        "hit 1 1\nhits 1\n",
    ),
    (HEAVY, &[ONE, H, "M  ISO  1   1   3\n", END], "hits 0\n"),
    (ETHANOL, &[ONE, O, END], "hit 1 3\nhits 1\n"),
    (WATER_CARBON, &[ONE, H, END], "hit 1 1\nhits 1\n"),
    (WATER_CARBON, &[ONE, N, END], "hits 0\n"),
    (
        ETHANOL,
        &["\n\n\n 65  0  0  0  0  0  0  0  0  0999 V2000\n"],
        "query refused 4 20 TooLarge\n",
    ),
    (ETHANOL, &[ONE, LISTED, END], "query refused 6 21 List\n"),
    (
        ETHANOL,
        &[PAIR, C, C, "  1  2  1  0  0  3\n", END],
        "query refused 7 22 Topology\n",
    ),
    (ETHANOL, &["\n\n\n"], "query refused 4 12 NoEnd\n"),
];

#[test]
fn a_query_finds_what_it_asks_for(rt: HostRuntime) -> Result<(), Fail> {
    for (record, query, text) in &FOUND {
        let files = [
            Given {
                name: "r.sdf",
                parts: record,
            },
            Given {
                name: "q.mol",
                parts: query,
            },
        ];
        let case = Case {
            words: &["find", "r.sdf", "q.mol"],
            failing: 0,
            zero: 0,
            status: 0,
            text,
        };
        is_right(&rt, rt.alloc(), &files, &case)?;
    }
    Ok(())
}
