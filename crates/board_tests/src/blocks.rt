// Blocks, and what is read from them. The words that are wanted were worked out by hand.
ghost use Rattle.std.specs.Prelude.{◌≡◌, ◌≤◌, length, slice_index};
ghost use Rattle.board_core.specs.Blocks.{block_size, molecule_in, name_in};
ghost use Rattle.board_core.specs.Records.{ShowsRecord};
ghost use Rattle.block_words.specs.Writing.{size_of};

use crate::made::{CARBON, molecule, named};
use block_words::{BlockWriter, read_mol, read_name};
use env_code::Coder;
use htss_defs::{Atom, Bond};
use std::process::Abort;
use std::test::Fail;

// A record, the size of its block, and some words of it by their places.
#[derive(Clone, Copy, Drop)]
struct Case {
    name: &'static [u8],
    atoms: &'static [Atom],
    bonds: &'static [Bond],
    size: u32,
    words: &'static [(u32, u64)],
}

const ETHANOL_ATOMS: &[Atom] = &[
    CARBON,
    CARBON,
    Atom {
        element: 8,
        ..CARBON
    },
];

const ETHANOL_BONDS: &[Bond] = &[
    Bond {
        first: 1,
        second: 2,
        kind: 1,
        ring: false,
    },
    Bond {
        first: 2,
        second: 3,
        kind: 1,
        ring: false,
    },
];

const ETHANOL: Case = Case {
    name: b"ethanol",
    atoms: ETHANOL_ATOMS,
    bonds: ETHANOL_BONDS,
    size: 24,
    words: &[
        // 3 + 2^10 * 2 + 2^20 * 7, and the two marks
        (0, 7_342_083),
        (1, 0),
        (2, 0),
        (3, 0x006c_6f6e_6168_7465),
        // 6 + 2^8 * 128, and 8 + 2^8 * 128
        (4, 32_774),
        (5, 32_774),
        (6, 32_776),
        (7, 0x106),
        (8, 0x2_0202),
        (9, 0x1_0002_0303),
        (10, 0x1_0002_0303),
        (11, 0x1_0002_0303),
        (12, 0x206),
        (13, 0x1_0002_0303),
        (14, 0x1_0002_0303),
        (15, 0x1_0002_0303),
        (16, 0x1_0002_0303),
        (17, 0x108),
        (18, 0x1_0001_0202),
        (19, 0x1_0002_0303),
        (20, 0x1_0002_0303),
        (21, 0x1_0002_0303),
        // 1 + 2^16 * 2 + 2^32, and 2 + 2^16 * 3 + 2^32
        (22, 4_295_098_369),
        (23, 4_295_163_906),
    ],
};

// The first atom word stands where the name would.
const UNNAMED: Case = Case {
    name: b"",
    atoms: ETHANOL_ATOMS,
    bonds: ETHANOL_BONDS,
    size: 23,
    words: &[
        (0, 2_051),
        (3, 32_774),
        // code 1 of the second atom, then code 1 of the first one
        (12, 0x1_0002_0303),
        (7, 0x2_0202),
    ],
};

// A charge of -15, a mass, a bond of type 4, and a name of nine bytes.
const OTHER_FIELDS: Case = Case {
    name: b"nine byte",
    atoms: &[NITROGEN, NITROGEN],
    bonds: &[Bond {
        first: 2,
        second: 1,
        kind: 4,
        ring: true,
    }],
    size: 18,
    words: &[
        // the letter e alone
        (4, 0x65),
        // 7 + 2^8 * 113 + 2^16 * 999
        (5, 65_499_399),
        // 2 + 2^16 + 2^32 * 4: it is in no ring
        (17, 17_179_934_722),
    ],
};

const NITROGEN: Atom = Atom {
    element: 7,
    charge: -15,
    mass: 999,
};

// Asks for words in any order.
fn check_words<R: Abort>(rt: &R, writer: &mut BlockWriter, wanted: &[(u32, u64)])
    ensures { writer.new ≡ writer.old }
{
    let size = writer.size();
    for (place, word) in wanted {
        assert!(rt; *place < size);
        assert_eq!(rt; writer.word(*place), *word);
    }
}

// Writes a whole block: it is a record that shows the name and the molecule.
fn write_all(words: &mut [u64], writer: &mut BlockWriter)
    requires size { length words.old ≡ size_of writer.old.name writer.old.mol }
    ensures whole { block_size (slice_index words.new 0) ≤ length words.new }
    ensures valid { ShowsRecord (slice_index words.new) }
    ensures name { name_in (slice_index words.new) ≡ writer.old.name }
    ensures molecule { molecule_in (slice_index words.new) ≡ writer.old.mol }
{
    let size = writer.size();
    for index in 0..size {
        words[index as usize] = writer.word(index);
    }
}

#[test]
fn writes_and_reads_blocks(rt: HostRuntime) -> Result<(), Fail> {
    let mut coder = Coder::new();
    for case in [ETHANOL, UNNAMED, OTHER_FIELDS] {
        let name = named(case.name)?;
        let mol = molecule(rt.alloc(), case.atoms, case.bonds)?;
        coder.load(&mol);
        let mut writer = BlockWriter::new(&mut coder, &name, &mol);
        let size = writer.size();
        assert_eq!(rt; size, case.size);
        check_words(&rt, &mut writer, case.words);
        let mut words = vec![in rt.alloc(); 0u64; size as usize]?;
        write_all(&mut words, &mut writer);
        assert_eq!(rt; read_name(&words).bytes(), case.name);
        let read = read_mol(rt.alloc(), &words)?;
        assert_eq!(rt; read.atoms(), mol.atoms());
        assert_eq!(rt; read.bonds(), mol.bonds());
    }
    Ok(())
}
