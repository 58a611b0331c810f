// The rows of a full leaf by their next code.
ghost use Rattle.std.specs.Prelude.{◌≡◌, ◌≢◌, ℕ, ◌<◌, ◌≤◌, slice_index};
ghost use Rattle.leaf_split.specs.Groups.{entry_of, AreRows, AreGroups};

/// The 14 rows of a leaf by their next code.
#[derive(Drop)]
pub struct Groups {
    /// How many different codes there are.
    pub count: usize,
    /// The codes, from the front.
    pub codes: [u64; 14],
    /// How many rows each code has.
    pub held: [usize; 14],
    /// The rows, 14 places for each code.
    pub entries: [u64; 196],
}

/// Puts the 14 rows of a leaf into groups by their next code.
pub fn group(rows: &[u64; 14], nexts: &[u64; 14]) -> Groups
    requires { AreRows (slice_index rows.now) (slice_index nexts.now) }
    ensures { AreGroups (slice_index rows.now) (slice_index nexts.now) 14 result.count (slice_index result.codes)
        (slice_index result.held) (entry_of result.entries) }
{
    let mut count = 0;
    let mut codes = [0; 14];
    let mut held = [0; 14];
    let mut entries = [0; 196];
    for a in 0..14 {
        let code = nexts[a];
        let j = find(&codes, count, code);
        codes[j] = code;
        entries[14 * j + held[j]] = rows[a];
        held[j] += 1;
        count = count.max(j + 1);
    }
    Groups {
        count,
        codes,
        held,
        entries,
    }
}

// The place of the code among the first `count`, or else `count`.
fn find(codes: &[u64; 14], count: usize, code: u64) -> usize
    requires { count ≤ 14 }
    ensures within { result ≤ count }
    ensures found { result < count → slice_index codes.now result ≡ code }
    ensures before { (i : ℕ) → i < result → slice_index codes.now i ≢ code }
{
    for i in 0..count {
        if codes[i] == code {
            return i;
        }
    }
    count
}
