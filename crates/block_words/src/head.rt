// The first word of a block, and the places that it gives.
ghost use Rattle.std.specs.Prelude.{◌≡◌, ◌≤◌};
ghost use Rattle.board_core.specs.Blocks.{atoms_in, bonds_in, bytes_in, atom_words_at, bond_words_at};

/// The number of atoms, at most 1023.
pub fn atoms_in(head: u64) -> usize
    ensures value { result ≡ atoms_in head }
    ensures most { result ≤ 1023 }
{
    (head % (1 << 10)) as usize
}

/// The number of bonds, at most 1023.
pub fn bonds_in(head: u64) -> usize
    ensures value { result ≡ bonds_in head }
    ensures most { result ≤ 1023 }
{
    (head / (1 << 10) % (1 << 10)) as usize
}

/// The number of bytes of the name, at most 127.
pub fn bytes_in(head: u64) -> usize
    ensures value { result ≡ bytes_in head }
    ensures most { result ≤ 127 }
{
    (head / (1 << 20) % (1 << 7)) as usize
}

/// The place of the first atom word.
pub fn atom_words_at(head: u64) -> usize
    ensures value { result ≡ atom_words_at head }
    ensures most { result ≤ 19 }
{
    3 + (bytes_in(head) + 7) / 8
}

/// The place of the first bond word.
pub fn bond_words_at(head: u64) -> usize
    ensures value { result ≡ bond_words_at head }
    ensures most { result ≤ 6157 }
{
    atom_words_at(head) + 6 * atoms_in(head)
}
