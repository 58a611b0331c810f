// A set of places of a molecule, a bit for each.
ghost use Rattle.std.specs.Prelude.{◌≡◌, ◌≢◌, ℕ, ◌<◌, ◌≤◌, ◌==◌, IfSome, IfNone};
ghost use Rattle.embed.specs.Places.{place_bit, IsNextBit};

/// Places below 1,024.
#[derive(Drop)]
pub struct PlaceSet {
    words: [u64; 16],
}

impl PlaceSet {
    /// No place.
    pub fn new() -> PlaceSet
        ensures { (n : ℕ) → place_bit result.words n ≡ 0 }
    {
        PlaceSet { words: [0; 16] }
    }

    /// Adds a place.
    pub fn insert(&mut self, p: u16)
        requires { p < 1024 }
        ensures added { place_bit self.new.words p ≡ 1 }
        ensures others { (n : ℕ) → n ≢ p → place_bit self.new.words n ≡ place_bit self.old.words n }
    {
        self.words[p as usize / 64] |= 1u64 << (p % 64);
    }

    /// Takes a place out.
    pub fn remove(&mut self, p: u16)
        requires { p < 1024 }
        ensures removed { place_bit self.new.words p ≡ 0 }
        ensures others { (n : ℕ) → n ≢ p → place_bit self.new.words n ≡ place_bit self.old.words n }
    {
        self.words[p as usize / 64] &= !(1u64 << (p % 64));
    }

    /// Whether the place is in the set.
    pub fn has(&self, p: u16) -> bool
        requires { p < 1024 }
        ensures { result ≡ (place_bit self.now.words p == 1) }
    {
        (self.words[p as usize / 64] >> (p % 64)) & 1 == 1
    }

    /// The least place after this one, up to a last one.
    pub fn next(&self, after: u16, last: u16) -> Option<u16>
        requires { last < 1024 }
        ensures some { IfSome result (λ p. IsNextBit self.now.words after p) }
        ensures none { IfNone result ((p : ℕ) → after < p → p ≤ last → place_bit self.now.words p ≡ 0) }
    {
        let mut from = after as usize + 1;
        while from <= last as usize {
            let rest = self.words[from / 64] >> (from % 64);
            if rest != 0 {
                return Some((from + rest.trailing_zeros() as usize) as u16);
            }
            from = (from / 64 + 1) * 64;
        }
        None
    }
}
