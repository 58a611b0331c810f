// The places that the first word of a block gives.
ghost use Rattle.std.specs.Prelude.{◌≡◌, ◌≤◌};
ghost use Rattle.board_core.specs.Blocks.{code_words_at, bond_words_at, block_size};

// The place of the first code word.
pub(crate) fn codes_at(head: u64) -> u32
    ensures value { result ≡ code_words_at head }
    ensures most { result ≤ 1042 }
{
    let bytes = (head / (1 << 20) % (1 << 7)) as u32;
    let atoms = (head % (1 << 10)) as u32;
    3 + (bytes + 7) / 8 + atoms
}

// The place of the first bond word.
pub(crate) fn bonds_at(head: u64) -> u32
    ensures value { result ≡ bond_words_at head }
    ensures most { result ≤ 6157 }
{
    let atoms = (head % (1 << 10)) as u32;
    codes_at(head) + 5 * atoms
}

// The number of words.
pub(crate) fn size_of(head: u64) -> u32
    ensures value { result ≡ block_size head }
    ensures most { result ≤ 7180 }
{
    let bonds = (head / (1 << 10) % (1 << 10)) as u32;
    bonds_at(head) + bonds
}
