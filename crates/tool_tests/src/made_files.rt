// Made files: how long they are, and the front and the back of one.
use outside::MemSink;
use std::test::Fail;
use tool_commands::make;

// From the seed 0: the header, the ring and the first three atoms of the tree.
const FRONT: &[u8] =
    b"made 1\n\n\n 25 25  0  0  0  0  0  0  0  0999 V2000\n    0.0000    0.0000    0.0000 C   0  0\n    0.0000    0.0000    0.0000 C   0  0\n    0.0000    0.0000    0.0000 C   0  0\n    0.0000    0.0000    0.0000 C   0  0\n    0.0000    0.0000    0.0000 C   0  0\n    0.0000    0.0000    0.0000 C   0  0\n    0.0000    0.0000    0.0000 O   0  0\n    0.0000    0.0000    0.0000 C   0  0\n    0.0000    0.0000    0.0000 O   0  0\n";

// The bonds of the tree, and the end of the record.
const BACK: &[u8] =
    b"  6  7  1  0\n  7  8  1  0\n  8  9  1  0\n  8 10  1  0\n  9 11  1  0\n 10 12  1  0\n 12 13  1  0\n 12 14  1  0\n 14 15  1  0\n 15 16  1  0\n 15 17  1  0\n 16 18  1  0\n 18 19  1  0\n 18 20  1  0\n 19 21  1  0\n 21 22  1  0\n 22 23  1  0\n 23 24  1  0\n 23 25  1  0\nM  END\n$$$$\n";

// A file from the seed 0.
#[derive(Clone, Copy, Drop)]
struct Case {
    count: u32,
    // the room of the sink
    room: usize,
    // the call of the sink that takes nothing, 0 for none
    zero: u64,
    status: u8,
    // how much is written, and what stands at its end
    size: usize,
    back: &'static [u8],
}

const CASES: [Case; 3] = [
    Case {
        count: 1,
        room: 2000,
        zero: 0,
        status: 0,
        size: 1386,
        back: BACK,
    },
    Case {
        count: 4,
        room: 10000,
        zero: 3,
        status: 5,
        size: 2772,
        back: b"M  END\n$$$$\n",
    },
    Case {
        count: 2,
        room: 1000,
        zero: 0,
        status: 5,
        size: 1000,
        back: b"",
    },
];

// The sink takes a record at a call.
#[test]
fn a_file_is_made_as_far_as_the_sink_takes_it(rt: HostRuntime) -> Result<(), Fail> {
    let alloc = rt.alloc();
    for case in CASES {
        let zero = vec![in alloc; case.zero]?;
        let mut out = MemSink::new(alloc, case.room, 2000, vec![in alloc]?, zero)?;
        assert!(rt; case.count <= 100000);
        assert_eq!(rt; make(alloc, case.count, 0, &mut out), case.status);
        assert_eq!(rt; out.bytes().len(), case.size);
        assert!(rt; out.bytes().starts_with(FRONT));
        assert!(rt; out.bytes().ends_with(case.back));
    }
    Ok(())
}
