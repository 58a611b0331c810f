// Small types over std's collections, for public fields: contracts see each as a list.
ghost use Rattle.std.specs.Prelude.{◌≡◌, ℕ, ◌≤◌, List, length, string_bytes};

use arrayvec::ArrayVec;
use std::marker::Model;

/// A text: contracts see its bytes.
#[derive(Debug, Drop)]
pub struct Text {
    text: String,
}

impl Model for Text {
    ghost Value = { List ℕ };

    ghost view = { λ t. string_bytes t.text };
}

impl Text {
    /// The text of this string. It takes no memory.
    pub fn new(text: String) -> Text
        ensures { result ≡ string_bytes text }
    {
        Text { text }
    }

    /// The text.
    pub fn as_str(&self) -> &str
        ensures { result.now ≡ self.now }
    {
        self.text.as_str()
    }
}

/// Bytes: contracts see them as a list.
#[derive(Debug, Drop)]
pub struct Bytes {
    bytes: Vec<u8>,
}

impl Model for Bytes {
    ghost Value = { List ℕ };

    ghost view = { λ b. b.bytes.items };
}

impl Bytes {
    /// The bytes of this vector. It takes no memory.
    pub fn new(bytes: Vec<u8>) -> Bytes
        ensures { result ≡ bytes.items }
    {
        Bytes { bytes }
    }

    /// The bytes.
    pub fn as_slice(&self) -> &[u8]
        ensures { result.now ≡ self.now }
    {
        self.bytes.as_slice()
    }
}

/// The places of an embedding, one per atom of the query: contracts see them as a list.
#[derive(Debug, Drop)]
pub struct Places {
    places: ArrayVec<u16, 64>,
}

impl Model for Places {
    ghost Value = { List ℕ };

    ghost view = { λ p. p.places.items };
}

impl Places {
    /// The places of this vector.
    pub fn new(places: ArrayVec<u16, 64>) -> Places
        ensures { result ≡ places.items }
    {
        Places { places }
    }

    /// The places: 64 at most.
    pub fn as_slice(&self) -> &[u16]
        ensures list { result.now ≡ self.now }
        ensures few { length result.now ≤ 64 }
    {
        self.places.as_slice()
    }
}
