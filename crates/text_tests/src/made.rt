// What the tests are made of.
use htss_defs::{Name, OutOfMemory};
use std::alloc::Global;
use std::test::Fail;

/// The name of this text.
pub fn name(text: &str) -> Result<Name, Fail> {
    let Some(name) = Name::new(text.as_bytes()) else {
        return Err("no name".into());
    };
    Ok(name)
}

/// The front, and so many of what comes after it.
pub fn padded(
    alloc: Global,
    front: &[u8],
    more: &[u8],
    count: usize,
) -> Result<Vec<u8>, OutOfMemory> {
    let mut bytes = Vec::from_slice(alloc, front)?;
    for _ in 0..count {
        bytes.extend_from_slice(more)?;
    }
    Ok(bytes)
}
