// The names of the files that a script names.
ghost use Rattle.std.specs.Prelude.{◌≡◌, ℕ, ◌≤◌, ◌↔◌, IsTrue, IsSome, IfSome, List, All, length, string_bytes};
ghost use Rattle.htss_defs.specs.FileName.{IsFileName};

use std::marker::Model;

/// The name of a file: 1 to 4,096 bytes, each 33 to 126. Contracts see its bytes.
#[derive(Debug, Drop)]
pub struct FileName {
    text: String,
}

impl Model for FileName {
    ghost Value = { List ℕ };

    ghost view = { λ n. string_bytes n.text };

    ghost invariant = { λ n. IsFileName (string_bytes n.text) };
}

impl FileName {
    /// The name of this text, or `None` exactly where it breaks a rule of file names. It takes no memory.
    pub fn new(text: String) -> Option<FileName>
        ensures valid { IsSome result ↔ IsFileName (string_bytes text) }
        ensures value { IfSome result (λ n. n ≡ string_bytes text) }
    {
        if is_file_name(text.as_str()) {
            Some(FileName { text })
        } else {
            None
        }
    }

    /// The text of the name.
    pub fn text(&self) -> &str
        ensures items { result.now ≡ self.now }
        ensures valid { IsFileName self.now }
    {
        self.text.as_str()
    }
}

fn is_file_name(text: &str) -> bool
    ensures { IsTrue result ↔ IsFileName text.now }
{
    let bytes = text.as_bytes();
    !bytes.is_empty() && bytes.len() <= 4096 && bytes.iter().all(|byte| 33 <= *byte && *byte <= 126)
}
