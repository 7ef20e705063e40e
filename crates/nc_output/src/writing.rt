//! Writing all of the given bytes to a writer, and a writer that reports whether its reader is gone.

ghost use Rattle.std.specs.Prelude.{◌≡◌, ℕ, OnOk, OnErr, take, ◌↔◌, true, false};
ghost use Rattle.std.specs.Io.KnownBytes.{Appends, Keeps, WriteAppends};
ghost use Rattle.std.specs.Io.{WritesAtMost};
ghost use Rattle.std.specs.IoError.{error_kind};
ghost use Rattle.nc_output.specs.PipeWriter.{TellsClosed};

use std::io::{self, Error, ErrorKind, Write};

/// The writer failed, or accepted none of the bytes offered.
#[derive(Clone, Copy, Debug, PartialEq, Eq)]
pub struct WriteFailed;

/// Writes all of the bytes. Any error, or a write of zero bytes, is a failure, after which a prefix of them has been written.
pub fn write_out<W: Write>(writer: &mut W, bytes: &[u8]) -> Result<(), WriteFailed>
    ensures all { OnOk result (Appends (W.contents writer.old) (W.contents writer.new) bytes.now) }
    ensures front { OnErr result ((n : ℕ) × Appends (W.contents writer.old) (W.contents writer.new) (take n bytes.now)) }
{
    let mut rest = bytes;
    while !rest.is_empty() {
        let count = match writer.write(rest) {
            Ok(count) => count,
            Err(_) => return Err(WriteFailed),
        };
        if count == 0 {
            return Err(WriteFailed);
        }
        rest = &rest[count..];
    }
    Ok(())
}

/// Passes bytes on to a writer, and reports whether that failed because nobody reads them any more, as with a closed pipe
/// (`EPIPE`).
#[derive(Drop)]
pub struct PipeWriter<W> {
    writer: W,
    is_closed: bool,
}

impl<W> PipeWriter<W> {
    /// Wraps a writer that has not failed yet.
    pub fn new(writer: W) -> PipeWriter<W>
        ensures writer { result.writer ≡ writer }
        ensures open { result.is_closed ≡ false }
    {
        PipeWriter {
            writer,
            is_closed: false,
        }
    }

    /// Whether the last error was that the reader is gone; false before the first error.
    pub fn is_closed(&self) -> bool
        ensures { result ≡ self.now.is_closed }
    {
        self.is_closed
    }
}

/// Whether an error says that the reader is gone.
fn is_of_pipe(error: &Error) -> bool
    ensures { (result ≡ true) ↔ (error_kind error.now ≡ ErrorKind.BrokenPipe) }
{
    error.kind() == ErrorKind::BrokenPipe
}

impl<W: Write> Write for PipeWriter<W> {
    ghost contents = { λ p. W.contents p.writer };

    fn write(&mut self, buf: &[u8]) -> io::Result<usize>
        ensures bound { WritesAtMost result buf.now }
        ensures bytes { WriteAppends (W.contents self.old.writer) (W.contents self.new.writer) result buf.now }
        ensures closed { TellsClosed result self.old.is_closed self.new.is_closed }
    {
        match self.writer.write(buf) {
            Ok(count) => Ok(count),
            Err(error) => {
                self.is_closed = is_of_pipe(&error);
                Err(error)
            }
        }
    }

    fn flush(&mut self) -> io::Result<()>
        ensures bytes { Keeps (W.contents self.old.writer) (W.contents self.new.writer) }
        ensures closed { TellsClosed result self.old.is_closed self.new.is_closed }
    {
        match self.writer.flush() {
            Ok(()) => Ok(()),
            Err(error) => {
                self.is_closed = is_of_pipe(&error);
                Err(error)
            }
        }
    }
}
