ghost use Rattle.std.specs.Prelude.{◌≡◌, ℕ, ◌≤◌, ◌<◌, ◌↔◌, IsTrue, IsSome, IfSome, List, All, length, slice_get};
ghost use Rattle.htss_defs.specs.Name.{IsName, IsVisible};

use arrayvec::ArrayVec;
use std::marker::Model;

/// The name of a record: at most 80 bytes, each 32 to 126, with no space first or last. Contracts see its bytes.
#[derive(Debug, Drop)]
pub struct Name {
    text: ArrayVec<u8, 80>,
}

impl Model for Name {
    ghost Value = { List ℕ };

    ghost view = { λ n. n.text.items };

    ghost invariant = { λ n. IsName n.text.items };
}

impl Name {
    /// The name of these bytes, or `None` exactly where they break a rule of names. It takes no memory.
    pub fn new(bytes: &[u8]) -> Option<Name>
        ensures valid { IsSome result ↔ IsName bytes.now }
        ensures value { IfSome result (λ n. n ≡ bytes.now) }
    {
        if !is_name(bytes) {
            return None;
        }
        let mut text = ArrayVec::new();
        for byte in bytes {
            text.push(*byte);
        }
        Some(Name { text })
    }

    /// The bytes of the name.
    pub fn bytes(&self) -> &[u8]
        ensures items { result.now ≡ self.now }
        ensures valid { IsName self.now }
    {
        self.text.as_slice()
    }
}

fn is_name(bytes: &[u8]) -> bool
    ensures { IsTrue result ↔ IsName bytes.now }
{
    bytes.len() <= 80
        && bytes.iter().all(|byte| 32 <= *byte && *byte <= 126)
        && bytes.first() != Some(&32)
        && bytes.last() != Some(&32)
}
