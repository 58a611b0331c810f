// A text written to a standard output that takes a few bytes at a time.
use outside::{OutSink, write_whole};
use std::cell::Cell;
use std::fmt::Display;
use std::io;
use std::test::Fail;

// It takes at most three bytes at a time, and keeps how many it took and the last one.
#[derive(Drop)]
struct Narrow {
    taken: Cell<usize>,
    last: Cell<u8>,
}

impl Print for Narrow {
    fn print<D: Display + Drop>(&self, _value: D) -> io::Result<()> {
        Ok(())
    }

    fn println<D: Display + Drop>(&self, _value: D) -> io::Result<()> {
        Ok(())
    }

    fn write_all(&self, _bytes: &[u8]) -> io::Result<()> {
        Ok(())
    }

    fn write_some(&self, bytes: &[u8]) -> io::Result<usize> {
        let part = &bytes[..bytes.len().min(3)];
        if let Some(last) = part.last() {
            self.last.set(*last);
        }
        self.taken.set(self.taken.get().saturating_add(part.len()));
        Ok(part.len())
    }
}

#[test]
fn a_text_goes_out_in_parts(rt: HostRuntime) -> Result<(), Fail> {
    let narrow = Narrow {
        taken: Cell::new(0),
        last: Cell::new(0),
    };
    let mut out = OutSink::new(&narrow);
    assert_eq!(rt; write_whole(&mut out, b"hello world".as_slice()), Ok(()));
    assert_eq!(rt; narrow.taken.get(), 11);
    assert_eq!(rt; narrow.last.get(), b'd');
    Ok(())
}
