// Copies of what a report takes from the script and a list of hits.
ghost use Rattle.std.specs.Prelude.{◌≡◌, length, IfOk};

use arrayvec::ArrayVec;
use htss_defs::{FileName, Hit, Name, OutOfMemory, Places};
use std::alloc::Global;

/// A copy of the name.
pub fn copied_name(name: &Name) -> Name
    ensures { result ≡ name.now }
{
    Name::new(name.bytes()).unwrap()
}

/// A copy of the file name. An `Err` is want of memory.
pub fn copied_file(alloc: Global, file: &FileName) -> Result<FileName, OutOfMemory>
    ensures { IfOk result (λ copy. copy ≡ file.now) }
{
    let text = String::from_str(alloc, file.text())?;
    Ok(FileName::new(text).unwrap())
}

// A copy of the places.
fn copied_places(places: &Places) -> Places
    ensures { result ≡ places.now }
{
    let mut copy = ArrayVec::new();
    for place in places.as_slice() {
        copy.push(*place);
    }
    Places::new(copy)
}

/// A copy of the hits. An `Err` is want of memory.
pub fn copied_hits(alloc: Global, hits: &[Hit]) -> Result<Vec<Hit>, OutOfMemory>
    ensures { IfOk result (λ copy. copy.items ≡ hits.now) }
{
    let mut copy = Vec::with_capacity(alloc, hits.len())?;
    for hit in hits {
        copy.push(Hit {
            number: hit.number,
            name: copied_name(&hit.name),
            map: copied_places(&hit.map),
        })?;
    }
    Ok(copy)
}
