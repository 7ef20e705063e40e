//! The lines of a reader, each with its reply, one after another.

ghost use Rattle.std.specs.Prelude.{◌≡◌, [], ◌++◌, ℕ, List, OnOk};
ghost use Rattle.nc_lines.specs.Replying.{HasRepliedToAll};
ghost use Rattle.nc_lines.specs.machinery.Progress.{FinishesLine};
ghost use Rattle.nc_lines.specs.Lines.{kept_of};

use crate::fault::ReplayFault;
use crate::lines::{feed, reply_to_line};
use crate::replies::Replies;
use std::alloc::{AllocError, Global};
use std::io::{Read, Write};

/// Replies to lines one at a time, and may change its state with each.
pub trait Responder {
    /// From the old state this may be the reply to the line, and the new state is the one after it.
    ghost replies: { Self → List ℕ → List ℕ → Self → Type 0 };

    /// Adds the reply to a line, with its line end, to `out`, given the kept part of the line. After an error nothing is
    /// promised about the state.
    fn reply(&mut self, kept: &[u8], out: &mut Vec<u8>) -> Result<(), AllocError>
        ensures { OnOk result ((line : List ℕ) → kept.now ≡ kept_of line → (reply : List ℕ)
            × (out.new.items ≡ out.old.items ++ reply) × replies self.old line reply self.new) };
}

/// Replies to the last line, if it has no line end.
fn reply_to_rest<S: Responder, W: Write>(
    responder: &mut S,
    writer: &mut W,
    replies: &mut Replies,
    line: &[u8],
) -> Result<(), ReplayFault>
    requires { replies.old.held.items ≡ [] }
    ensures finishes { FinishesLine S.replies responder.old (W.contents writer.old) replies.old.held.items line.now
        responder.new (W.contents writer.new) result }
    ensures most { replies.new.held.most ≡ replies.old.held.most }
{
    if line.is_empty() {
        return Ok(());
    }
    match reply_to_line(responder, writer, replies, line) {
        Ok(()) => {}
        Err(fault) => return Err(fault),
    }
    match replies.held.write_all(writer) {
        Ok(()) => Ok(()),
        Err(_) => Err(ReplayFault::WriteFailed),
    }
}

/// Replies to the last line, if it has no line end, and flushes.
fn finish<S: Responder, W: Write>(
    responder: &mut S,
    writer: &mut W,
    replies: &mut Replies,
    line: &[u8],
) -> Result<(), ReplayFault>
    requires { replies.old.held.items ≡ [] }
    ensures finishes { FinishesLine S.replies responder.old (W.contents writer.old) replies.old.held.items line.now
        responder.new (W.contents writer.new) result }
    ensures most { replies.new.held.most ≡ replies.old.held.most }
{
    match reply_to_rest(responder, writer, replies, line) {
        Ok(()) => {}
        Err(fault) => return Err(fault),
    }
    match writer.flush() {
        Ok(()) => Ok(()),
        Err(_) => Err(ReplayFault::WriteFailed),
    }
}

/// Reads all lines and replies to each as soon as its line end has been read. Each reply is a write of its own, unless the writer
/// takes only a part.
pub fn reply_to_all<S: Responder, R: Read, W: Write>(
    alloc: Global,
    responder: &mut S,
    reader: &mut R,
    writer: &mut W,
) -> Result<(), ReplayFault>
    ensures { HasRepliedToAll S.replies responder.old responder.new (R.remaining reader.old) (R.remaining reader.new)
        (W.contents writer.old) (W.contents writer.new) result }
{
    reply_gathered(alloc, responder, reader, writer, 0)
}

/// Reads all lines and replies to each, as [`reply_to_all`], but holds back at most `most` bytes of replies. Held replies are written
/// together: before more is read, before a reply with which they would be too many, and as the call returns, unless the writer
/// has failed.
///
/// It is for a responder that neither waits nor writes elsewhere, and for a writer that takes all of a write, or as much of it as
/// it has room for. A pipe that doesn't block takes a write of at most 4,096 bytes whole or not at all. With such a writer less may
/// have gone out at a failed write than by [`reply_to_all`].
pub fn reply_gathered<S: Responder, R: Read, W: Write>(
    alloc: Global,
    responder: &mut S,
    reader: &mut R,
    writer: &mut W,
    most: usize,
) -> Result<(), ReplayFault>
    ensures { HasRepliedToAll S.replies responder.old responder.new (R.remaining reader.old) (R.remaining reader.new)
        (W.contents writer.old) (W.contents writer.new) result }
{
    let mut line = Vec::new(alloc);
    let mut replies = Replies::new(alloc, most);
    let mut piece = [0u8; 4096];
    for _ in 0..u64::MAX {
        let count = match reader.read(&mut piece) {
            Ok(count) => count,
            Err(_) => return Err(ReplayFault::ReadFailed),
        };
        if count == 0 {
            return finish(responder, writer, &mut replies, line.as_slice());
        }
        match feed(responder, writer, &mut replies, &mut line, &piece[..count]) {
            Ok(()) => {}
            Err(fault) => return Err(fault),
        }
    }
    Err(ReplayFault::ReadFailed)
}
