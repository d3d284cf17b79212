//! Bytes that several writers write behind one another.

use std::alloc::{AllocError, Global};
use std::cell::Cell;
use std::io;
use std::io::Write;
use std::rc::Rc;
use std::string::FromUtf8Error;

/// A writer whose bytes stand behind those of the others that were made from it.
#[derive(Drop)]
pub(super) struct Tape {
    alloc: Global,
    bytes: Rc<Cell<Vec<u8>>>,
}

impl Tape {
    /// Nothing is written.
    pub(super) fn new(alloc: Global) -> Result<Tape, AllocError> {
        let bytes = Rc::new(alloc, Cell::new(Vec::new(alloc)))?;
        Ok(Tape { alloc, bytes })
    }

    /// Another writer to the same bytes.
    pub(super) fn another(&self) -> Result<Tape, AllocError> {
        let bytes = self.bytes.clone()?;
        Ok(Tape {
            alloc: self.alloc,
            bytes,
        })
    }

    /// What was written; then nothing is.
    pub(super) fn text(&self) -> Result<String, FromUtf8Error> {
        String::from_utf8(self.bytes.replace(Vec::new(self.alloc)))
    }
}

impl Write for Tape {
    fn write(&mut self, buf: &[u8]) -> io::Result<usize> {
        let mut bytes = self.bytes.replace(Vec::new(self.alloc));
        let added = bytes.extend_from_slice(buf);
        self.bytes.set(bytes);
        added?;
        Ok(buf.len())
    }

    fn flush(&mut self) -> io::Result<()> {
        Ok(())
    }
}
