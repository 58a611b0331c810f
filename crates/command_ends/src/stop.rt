// Why a command stopped, and the line that says so.
ghost use Rattle.std.specs.Prelude.{◌≡◌, ◌≢◌, ℕ, ◌≤◌, ◌++◌, ◌∷◌, [], OnOk, OnErr, codes, decimal};
ghost use Rattle.std.specs.Io.KnownBytes.{append_known};
ghost use Rattle.outside.specs.Causes.{Rose};
ghost use Rattle.outside.specs.Written.{GrewByFront};
ghost use Rattle.command_ends.specs.declared.stop.Stop.TheVariants.{Memory};
ghost use Rattle.command_ends.specs.Outcomes.{fault_line, line, read_why, status_why, stop_why};

use htss_defs::OutOfMemory;
use itoa::Buffer;
use outside::{Failed, ReadStop, Sink, write_whole};

/// Why a command stopped. The name is that of the file.
#[derive(Clone, Copy, Debug)]
pub enum Stop<'a> {
    /// The words are no command line.
    Usage,
    /// Memory ran out.
    Memory,
    /// The script is at fault at the line of this number.
    Script(u64),
    /// A read failed.
    Failed(&'a str),
    /// There is no such file.
    Absent(&'a str),
    /// The file has more bytes than a file may have.
    TooLarge(&'a str),
}

impl<'a> From<OutOfMemory> for Stop<'a> {
    ghost from_gives = { λ _ stop. stop ≡ Memory };

    fn from(_: OutOfMemory) -> Self {
        Stop::Memory
    }
}

/// Why a read of the file with this name stopped.
pub fn read_stop(stop: ReadStop, name: &str) -> Stop<'_>
    ensures { stop_why result ≡ read_why stop name.now }
{
    match stop {
        ReadStop::Absent => Stop::Absent(name),
        ReadStop::Failed => Stop::Failed(name),
        ReadStop::TooLarge => Stop::TooLarge(name),
        ReadStop::OutOfMemory => Stop::Memory,
    }
}

/// The status of a stop: 2, 3, 4, 6, 7 or 8.
pub fn status(stop: Stop<'_>) -> u8
    ensures { result ≡ status_why (stop_why stop.entry) }
{
    match stop {
        Stop::Usage => 2,
        Stop::Script(_) => 3,
        Stop::Failed(_) => 4,
        Stop::Memory => 6,
        Stop::Absent(_) => 7,
        Stop::TooLarge(_) => 8,
    }
}

/// Writes the line of a stop. It takes no memory.
pub fn write_stop<K: Sink>(out: &mut K, stop: Stop<'_>) -> Result<(), Failed>
    ensures ok { OnOk result (K.written out.new
        ≡ append_known (K.written out.old) (fault_line (stop_why stop.entry))) }
    ensures err { OnErr result (GrewByFront (K.written out.old) (K.written out.new)
        (fault_line (stop_why stop.entry))) }
    ensures failed { OnErr result (Rose (K.faults out.old) (K.faults out.new)) }
    ensures later { K.faults out.old ≤ K.faults out.new }
{
    match stop {
        Stop::Usage => write_whole(out, b"stop 2 usage\n"),
        Stop::Memory => write_whole(out, b"stop 6 memory\n"),
        Stop::Script(line) => write_numbered(out, b"stop 3 script ", line),
        Stop::Failed(name) => write_named(out, b"stop 4 read ", name),
        Stop::Absent(name) => write_named(out, b"stop 7 absent ", name),
        Stop::TooLarge(name) => write_named(out, b"stop 8 large ", name),
    }
}

// Writes a line that ends with a name.
fn write_named<K: Sink>(out: &mut K, lead: &[u8], name: &str) -> Result<(), Failed>
    ensures ok { OnOk result (K.written out.new
        ≡ append_known (K.written out.old) (line (lead.now ++ name.now))) }
    ensures err { OnErr result (GrewByFront (K.written out.old) (K.written out.new)
        (line (lead.now ++ name.now))) }
    ensures failed { OnErr result (Rose (K.faults out.old) (K.faults out.new)) }
    ensures later { K.faults out.old ≤ K.faults out.new }
{
    match write_whole(out, lead) {
        Ok(()) => {}
        Err(failed) => return Err(failed),
    }
    match write_whole(out, name.as_bytes()) {
        Ok(()) => {}
        Err(failed) => return Err(failed),
    }
    write_whole(out, b"\n")
}

/// Writes a line that ends with a number. It takes no memory.
pub(crate) fn write_numbered<K: Sink>(out: &mut K, lead: &[u8], at: u64) -> Result<(), Failed>
    ensures ok { OnOk result (K.written out.new
        ≡ append_known (K.written out.old) (line (lead.now ++ decimal at))) }
    ensures err { OnErr result (GrewByFront (K.written out.old) (K.written out.new)
        (line (lead.now ++ decimal at))) }
    ensures failed { OnErr result (Rose (K.faults out.old) (K.faults out.new)) }
    ensures later { K.faults out.old ≤ K.faults out.new }
{
    let mut digits = Buffer::new();
    write_named(out, lead, digits.format(at))
}
