//! A reader that explains bad lines.

ghost use Rattle.std.specs.Io.{ReadsAtMost};
ghost use Rattle.std.specs.Io.KnownBytes.{ReadConsumes};

use crate::explaining::following::Following;
use crate::explaining::mistakes::{Mistake, mistake_in};
use nc_command::ReplayRequest;
use nc_lines::LINE_LIMIT;
use std::alloc::Global;
use std::io::{Read, Result};

/// The lines of a request as they are read.
#[derive(Drop)]
struct Lines<'r, E> {
    rt: &'r E,
    request: ReplayRequest,
    line: Following,
}

impl<'r, E: Eprint> Lines<'r, E> {
    /// Explains the line at hand if it is bad, and goes on to the next one. If nothing can be printed, nothing is lost.
    fn explain(&mut self) {
        let mistake = match self.line.kept() {
            Some(line) => mistake_in(self.request, line),
            None => None,
        };
        if let Some(Mistake { word, text, digits }) = mistake {
            let _ = eprintln!(self.rt; "line {}: {word}{text}{digits}", self.line.number());
        }
        self.line.go_on();
    }

    /// Follows what was read: some bytes, or the end of the input.
    fn follow(&mut self, bytes: &[u8]) {
        if bytes.is_empty() && self.line.has_begun() {
            self.explain();
        }
        for byte in bytes {
            if self.line.ends_with(*byte) {
                self.explain();
            }
        }
    }
}

/// Passes on the bytes of a reader, and says what is wrong with each line of a request that gets the reply `bad line`.
///
/// A read gives one byte. So whoever replies to each line as it ends has replied to all lines before the one that is explained.
#[derive(Drop)]
pub struct ExplainedInput<'r, R, E> {
    reader: R,
    lines: Lines<'r, E>,
}

impl<'r, R: Read, E: Eprint> ExplainedInput<'r, R, E> {
    /// Passes on the bytes of this reader. A read of it should be cheap, as that of a `BufReader` is.
    pub fn new(
        rt: &'r E,
        alloc: Global,
        reader: R,
        request: ReplayRequest,
    ) -> ExplainedInput<'r, R, E> {
        let line = Following::new(alloc, LINE_LIMIT + 1);
        ExplainedInput {
            reader,
            lines: Lines { rt, request, line },
        }
    }
}

impl<'r, R: Read, E: Eprint> Read for ExplainedInput<'r, R, E> {
    ghost remaining = { λ i. R.remaining i.reader };

    fn read(&mut self, buf: &mut [u8]) -> Result<usize>
        ensures bound { ReadsAtMost result buf.new }
        ensures bytes { ReadConsumes (R.remaining self.old.reader) (R.remaining self.new.reader) result buf.new }
    {
        if buf.is_empty() {
            return self.reader.read(buf);
        }
        let count = self.reader.read(&mut buf[..1])?;
        self.lines.follow(&buf[..count]);
        Ok(count)
    }
}
