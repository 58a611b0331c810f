// What a shelf in memory reads.
ghost use Rattle.std.specs.Prelude.{◌≡◌, ◌-◌, min, length};
ghost use Rattle.std.specs.Option.{option_copied};
ghost use Rattle.outside.specs.Files.{bytes_of, Gives};
ghost use Rattle.outside.specs.Memory.{files_of};

use crate::NamedBytes;

/// The bytes of the first file with this name.
pub fn find<'a>(files: &'a [NamedBytes], name: &str) -> Option<&'a [u8]>
    ensures { option_copied result ≡ bytes_of (files_of files.now) name.now }
{
    for file in files {
        if file.name.as_str() == name {
            return Some(file.bytes.as_slice());
        }
    }
    None
}

/// Reads as many bytes from the offset on as there are and fit: how many.
pub fn copy_from(bytes: &[u8], offset: u64, into: &mut [u8]) -> usize
    ensures count { result ≡ min (length into.new) (length bytes.now - offset) }
    ensures gives { Gives bytes.now offset into.new result }
{
    if offset >= bytes.len() as u64 {
        return 0;
    }
    let rest = &bytes[offset as usize..];
    let count = rest.len().min(into.len());
    into[..count].copy_from_slice(&rest[..count]);
    count
}
