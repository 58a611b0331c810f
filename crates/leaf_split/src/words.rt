// The words of the pages that take a full leaf's place.
ghost use Rattle.std.specs.Prelude.{◌≡◌, ◌+◌, ◌*◌, ◌<◌, ◌≤◌, length, slice_index};
ghost use Rattle.leaf_split.specs.Groups.{entry_of};
ghost use Rattle.leaf_split.specs.Pages.{pages_of, inner_word, leaf_word, word_of};

use crate::groups::Groups;

impl Groups {
    /// How many pages the groups need: a leaf for each code, and an inner page for seven of them.
    pub fn pages(&self) -> usize
        requires { self.now.count ≤ 14 }
        ensures { result ≡ pages_of self.now.count }
    {
        self.count + (self.count + 6) / 7
    }

    /// The word at this place of a page that takes the place of a leaf of this depth. `numbers` are the numbers of the
    /// pages.
    pub fn word(&self, depth: u64, numbers: &[u32], page: usize, place: usize) -> u64
        requires few { self.now.count ≤ 14 }
        requires depth { depth < 5 }
        requires numbers { pages_of self.now.count ≤ length numbers.now }
        requires page { page < pages_of self.now.count }
        requires place { place < 16 }
        ensures { result ≡ word_of depth self.now.count (slice_index self.now.codes) (entry_of self.now.entries)
            (slice_index numbers.now) page place }
    {
        if page % 8 == 0 {
            self.inner_word(depth, numbers, page / 8, place)
        } else {
            self.leaf_word(depth, 7 * (page / 8) + (page % 8 - 1), place)
        }
    }

    // A word of the inner page of this rank.
    fn inner_word(&self, depth: u64, numbers: &[u32], rank: usize, place: usize) -> u64
        requires few { self.now.count ≤ 14 }
        requires depth { depth < 5 }
        requires numbers { pages_of self.now.count ≤ length numbers.now }
        requires rank { 7 * rank < self.now.count }
        requires place { place < 16 }
        ensures { result ≡ inner_word depth self.now.count (slice_index self.now.codes)
            (slice_index numbers.now) rank place }
    {
        if place == 0 {
            return 2 + 4 * depth + 32 * rank as u64;
        }
        if place == 1 {
            return if 7 * (rank + 1) < self.count {
                numbers[8 * (rank + 1)] as u64
            } else {
                0
            };
        }
        let slot = (place - 2) / 2;
        if 7 * rank + slot >= self.count {
            return 0;
        }
        if place % 2 == 0 {
            self.codes[7 * rank + slot]
        } else {
            numbers[8 * rank + 1 + slot] as u64
        }
    }

    // A word of the leaf of this code.
    fn leaf_word(&self, depth: u64, code: usize, place: usize) -> u64
        requires code { code < 14 }
        requires depth { depth < 5 }
        requires place { place < 16 }
        ensures { result ≡ leaf_word depth (entry_of self.now.entries) code place }
    {
        if place == 0 {
            return 5 + 4 * depth;
        }
        if place == 1 {
            return 0;
        }
        self.entries[14 * code + (place - 2)]
    }
}
