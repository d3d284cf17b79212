//! What a server tells beside its lines.

use super::tape::Tape;
use std::io;
use std::io::Write;

/// A writer of what is told beside the lines: each line stands behind a mark on a tape, or nowhere where there is none.
#[derive(Drop)]
pub(super) struct Aside {
    pub(super) tape: Option<Tape>,
}

/// What such a line stands behind.
const MARK: &[u8] = b"! ";

impl Write for Aside {
    fn write(&mut self, buf: &[u8]) -> io::Result<usize> {
        if let Some(tape) = &mut self.tape {
            tape.write_all(MARK)?;
            tape.write_all(buf)?;
        }
        Ok(buf.len())
    }

    fn flush(&mut self) -> io::Result<()> {
        Ok(())
    }
}
