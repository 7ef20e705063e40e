//! A writer that explains refusals, and counts bad lines.

ghost use Rattle.std.specs.Io.{WritesAtMost};
ghost use Rattle.std.specs.Io.KnownBytes.{Keeps, WriteAppends};

use crate::explaining::following::Following;
use crate::explaining::refusals::refusal_in;
use std::alloc::Global;
use std::io::{Result, Write};

/// The most bytes of a reply that are kept. No refusal and no `bad line` is as long.
const MOST_KEPT: usize = 64;

/// Follows replies as they are written, explains those that are refusals, and counts bad lines.
#[derive(Drop)]
struct Explainer<'r, E> {
    rt: &'r E,
    is_wanted: bool,
    reply: Following,
    bad: u64,
}

impl<'r, E: Eprint> Explainer<'r, E> {
    /// Explains the reply at hand if it is a refusal, and goes on to the next one. If nothing can be printed, nothing is lost.
    fn explain(&mut self) {
        let reply = self.reply.kept().unwrap_or(&[]);
        if reply == b"bad line".as_slice() {
            self.bad = self.bad.saturating_add(1);
        } else if let Some((before, address, after)) = refusal_in(reply) {
            if self.is_wanted {
                let _ = eprintln!(self.rt;
                    "line {}: {before}{address}{after}",
                    self.reply.number()
                );
            }
        }
        self.reply.go_on();
    }

    /// Follows what was written.
    fn follow(&mut self, bytes: &[u8]) {
        for byte in bytes {
            if self.reply.ends_with(*byte) {
                self.explain();
            }
        }
    }
}

/// Passes replies on to a writer, says why each refusal among them came if that is wanted, and counts the bad lines.
#[derive(Drop)]
pub struct ExplainedOutput<'r, 'w, W, E> {
    writer: &'w mut W,
    replies: Explainer<'r, E>,
}

impl<'r, 'w, W: Write, E: Eprint> ExplainedOutput<'r, 'w, W, E> {
    /// Passes replies on to this writer.
    pub fn new(
        rt: &'r E,
        alloc: Global,
        writer: &'w mut W,
        is_wanted: bool,
    ) -> ExplainedOutput<'r, 'w, W, E> {
        let reply = Following::new(alloc, MOST_KEPT);
        ExplainedOutput {
            writer,
            replies: Explainer {
                rt,
                is_wanted,
                reply,
                bad: 0,
            },
        }
    }

    /// The number of replies `bad line`.
    pub fn bad_lines(&self) -> u64 {
        self.replies.bad
    }
}

impl<'r, 'w, W: Write, E: Eprint> Write for ExplainedOutput<'r, 'w, W, E> {
    ghost contents = { λ o. W.contents o.writer.now };

    fn write(&mut self, buf: &[u8]) -> Result<usize>
        ensures bound { WritesAtMost result buf.now }
        ensures bytes { WriteAppends (W.contents self.old.writer.now) (W.contents self.new.writer.now) result buf.now }
    {
        let count = self.writer.write(buf)?;
        self.replies.follow(&buf[..count]);
        Ok(count)
    }

    fn flush(&mut self) -> Result<()>
        ensures bytes { Keeps (W.contents self.old.writer.now) (W.contents self.new.writer.now) }
    {
        self.writer.flush()
    }
}
