//! A reader and a writer that behave as real ones never do.

use std::alloc::Global;
use std::io::{Error, ErrorKind, Read, Result, Write};

/// Each read fails with an error of this kind.
#[derive(Drop)]
pub struct Failing {
    pub kind: ErrorKind,
}

impl Read for Failing {
    fn read(&mut self, _buf: &mut [u8]) -> Result<usize> {
        Err(Error::from(self.kind))
    }
}

/// Takes at most `size` bytes in a write, or nothing where writes have an error; flushes may have one too, and are counted.
#[derive(Drop)]
pub struct Slow {
    pub out: Vec<u8>,
    pub size: usize,
    pub write_error: Option<ErrorKind>,
    pub flush_error: Option<ErrorKind>,
    pub flushed: usize,
}

impl Slow {
    /// Takes at most `size` bytes in a write. Each write and each flush has the error that is given for it.
    pub fn new(
        alloc: Global,
        size: usize,
        write_error: Option<ErrorKind>,
        flush_error: Option<ErrorKind>,
    ) -> Slow {
        Slow {
            out: Vec::new(alloc),
            size,
            write_error,
            flush_error,
            flushed: 0,
        }
    }

    /// Whether these bytes were written, and the output was flushed once if it has any.
    pub fn has(&self, owed: &[u8]) -> bool {
        self.out.as_slice() == owed && self.flushed == usize::from(!owed.is_empty())
    }
}

impl Write for Slow {
    fn write(&mut self, buf: &[u8]) -> Result<usize> {
        if let Some(kind) = self.write_error {
            return Err(Error::from(kind));
        }
        let count = buf.len().min(self.size);
        self.out.extend_from_slice(&buf[..count])?;
        Ok(count)
    }

    fn flush(&mut self) -> Result<()> {
        self.flushed = self.flushed.wrapping_add(1);
        match self.flush_error {
            Some(kind) => Err(Error::from(kind)),
            None => Ok(()),
        }
    }
}
