//! A reader and a writer of single bytes, of which one call may fail. Calls after that one would work again.

use std::alloc::Global;
use std::io::{Error, ErrorKind, Read, Result, Write};

/// A countdown to the call that fails; none does where it starts at its largest number.
fn is_now(left: &mut usize) -> bool {
    let now = *left == 0;
    *left = if now { usize::MAX } else { *left - 1 };
    now
}

/// Gives one byte in each read.
#[derive(Drop)]
pub(crate) struct Bytewise<'a> {
    rest: &'a [u8],
    left: usize,
    kind: ErrorKind,
}

impl<'a> Bytewise<'a> {
    /// No read fails.
    pub(crate) fn whole(rest: &'a [u8]) -> Bytewise<'a> {
        Bytewise::failing(rest, usize::MAX, ErrorKind::Other)
    }

    /// The read after this number of bytes fails with an error of this kind.
    pub(crate) fn failing(rest: &'a [u8], left: usize, kind: ErrorKind) -> Bytewise<'a> {
        Bytewise { rest, left, kind }
    }
}

impl Read for Bytewise<'_> {
    fn read(&mut self, buf: &mut [u8]) -> Result<usize> {
        if is_now(&mut self.left) {
            return Err(Error::from(self.kind));
        }
        let count = self.rest.len().min(buf.len()).min(1);
        buf[..count].copy_from_slice(&self.rest[..count]);
        self.rest = &self.rest[count..];
        Ok(count)
    }
}

/// Takes one byte in each write.
#[derive(Drop)]
pub(crate) struct Taking {
    out: Vec<u8>,
    left: usize,
    kind: Option<ErrorKind>,
}

impl Taking {
    /// No write fails.
    pub(crate) fn all(alloc: Global) -> Taking {
        Taking::failing(alloc, usize::MAX, None)
    }

    /// The write after this number of bytes fails with an error of this kind, or takes nothing.
    pub(crate) fn failing(alloc: Global, left: usize, kind: Option<ErrorKind>) -> Taking {
        Taking {
            out: Vec::new(alloc),
            left,
            kind,
        }
    }

    /// Whether these bytes were written.
    pub(crate) fn has(&self, due: &[u8]) -> bool {
        self.out.as_slice() == due
    }
}

impl Write for Taking {
    fn write(&mut self, buf: &[u8]) -> Result<usize> {
        if is_now(&mut self.left) {
            return match self.kind {
                Some(kind) => Err(Error::from(kind)),
                None => Ok(0),
            };
        }
        let count = buf.len().min(1);
        self.out.extend_from_slice(&buf[..count])?;
        Ok(count)
    }

    fn flush(&mut self) -> Result<()> {
        Ok(())
    }
}
