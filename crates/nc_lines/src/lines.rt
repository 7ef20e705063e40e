//! Bytes gathered into lines. Each line gets its reply as soon as it ends. A line is kept up to the first byte beyond the limit.

ghost use Rattle.std.specs.Prelude.{◌≡◌, ◌++◌, ◌<◌, ◌≤◌, [], ℕ, List, Option, OnOk, IfOk, length, take, slice_index};
ghost use Rattle.std.specs.Vec.{vec_capacity};
ghost use Rattle.nc_lines.specs.Lines.{kept_of};
ghost use Rattle.nc_lines.specs.machinery.Progress.{RepliesToKept, IsOpen, KeepsUp, FeedsPart, FeedsPiece};

use crate::fault::ReplayFault;
use crate::replies::Replies;
use crate::stream::Responder;
use memchr::memchr;
use std::alloc::AllocError;
use std::io::Write;

/// The most bytes that a line may have, without its line end.
pub const LINE_LIMIT: usize = 1_048_576;

/// Replies to a line, given its kept part, and holds back the reply.
pub(crate) fn reply_to_line<S: Responder, W: Write>(
    responder: &mut S,
    writer: &mut W,
    replies: &mut Replies,
    kept: &[u8],
) -> Result<(), ReplayFault>
    ensures replies { (part : List ℕ) → kept.now ≡ kept_of part →
        RepliesToKept S.replies responder.old responder.new (W.contents writer.old) (W.contents writer.new)
        replies.old.held.items replies.new.held.items part result }
    ensures most { replies.new.held.most ≡ replies.old.held.most }
    ensures room { OnOk result (vec_capacity replies.new.reply ≤ 65_536) }
{
    // The buffer is empty already, but no clause of the callers says so.
    replies.clear_reply();
    match responder.reply(kept, &mut replies.reply) {
        Ok(()) => {}
        Err(_) => return Err(replies.held.end_early(writer)),
    }
    match replies.held.hold(writer, replies.reply.as_slice()) {
        Ok(()) => {}
        Err(_) => return Err(ReplayFault::WriteFailed),
    }
    // The memory of a long reply isn't kept while more is read.
    replies.clear_reply();
    Ok(())
}

/// The position of the first line end, or the number of bytes if there is none.
fn first_end(bytes: &[u8]) -> usize
    ensures within { result ≤ length bytes.now }
    ensures open { IsOpen (take result bytes.now) }
    ensures end { result < length bytes.now → slice_index bytes.now result ≡ 10 }
{
    match memchr(b'\n', bytes) {
        Some(end) => end,
        None => bytes.len(),
    }
}

/// Adds more bytes of a line, as far as they are to be kept.
fn keep(line: &mut Vec<u8>, part: &[u8]) -> Result<(), AllocError>
    ensures { OnOk result ((whole : List ℕ) → line.old.items ≡ kept_of whole → line.new.items ≡ kept_of (whole ++ part.now)) }
{
    let room = (LINE_LIMIT + 1).saturating_sub(line.len());
    let count = room.min(part.len());
    line.extend_from_slice(&part[..count])
}

/// Replies to a line of which all but these last bytes are in `line`. If no others are, the line is taken from where it stands.
fn reply_to_last<S: Responder, W: Write>(
    responder: &mut S,
    writer: &mut W,
    replies: &mut Replies,
    line: &mut Vec<u8>,
    last: &[u8],
) -> Result<(), ReplayFault>
    ensures replies { (part : List ℕ) → line.old.items ≡ kept_of part →
        RepliesToKept S.replies responder.old responder.new (W.contents writer.old) (W.contents writer.new)
        replies.old.held.items replies.new.held.items (part ++ last.now) result }
    ensures none { OnOk result (line.new.items ≡ []) }
    ensures most { replies.new.held.most ≡ replies.old.held.most }
{
    if line.is_empty() {
        let count = last.len().min(LINE_LIMIT + 1);
        return reply_to_line(responder, writer, replies, &last[..count]);
    }
    match keep(line, last) {
        Ok(()) => {}
        Err(_) => return Err(replies.held.end_early(writer)),
    }
    match reply_to_line(responder, writer, replies, line.as_slice()) {
        Ok(()) => {
            line.clear();
            Ok(())
        }
        Err(fault) => Err(fault),
    }
}

/// Takes the next bytes up to the first line end, or all of them, and replies to the line if it has ended. Returns the number
/// of bytes taken.
fn feed_part<S: Responder, W: Write>(
    responder: &mut S,
    writer: &mut W,
    replies: &mut Replies,
    line: &mut Vec<u8>,
    rest: &[u8],
) -> Result<usize, ReplayFault>
    requires { 0 < length rest.now }
    ensures count { IfOk result (λ count. (0 < count) × (count ≤ length rest.now)) }
    ensures feeds { (start : S) (before : Option (List ℕ)) (bytes : List ℕ)
        → KeepsUp S.replies start before bytes responder.old (W.contents writer.old) replies.old.held.items line.old.items
        → FeedsPart S.replies start before bytes rest.now responder.new (W.contents writer.new) replies.new.held.items line.new.items
        result }
    ensures most { replies.new.held.most ≡ replies.old.held.most }
{
    let end = first_end(rest);
    if end == rest.len() {
        return match keep(line, rest) {
            Ok(()) => Ok(end),
            Err(_) => Err(replies.held.end_early(writer)),
        };
    }
    match reply_to_last(responder, writer, replies, line, &rest[..end]) {
        Ok(()) => Ok(end + 1),
        Err(fault) => Err(fault),
    }
}

/// Takes the next bytes, and replies to each line as soon as it ends.
fn feed_parts<S: Responder, W: Write>(
    responder: &mut S,
    writer: &mut W,
    replies: &mut Replies,
    line: &mut Vec<u8>,
    piece: &[u8],
) -> Result<(), ReplayFault>
    ensures most { replies.new.held.most ≡ replies.old.held.most }
    ensures feeds { FeedsPiece S.replies responder.old (W.contents writer.old) replies.old.held.items line.old.items piece.now
        responder.new (W.contents writer.new) replies.new.held.items line.new.items result }
{
    let mut rest = piece;
    while !rest.is_empty() {
        match feed_part(responder, writer, replies, line, rest) {
            Ok(count) => rest = &rest[count..],
            Err(fault) => return Err(fault),
        }
    }
    Ok(())
}

/// Takes the next bytes, replies to each line as soon as it ends, and then writes the replies that were held back.
pub(crate) fn feed<S: Responder, W: Write>(
    responder: &mut S,
    writer: &mut W,
    replies: &mut Replies,
    line: &mut Vec<u8>,
    piece: &[u8],
) -> Result<(), ReplayFault>
    ensures feeds { FeedsPiece S.replies responder.old (W.contents writer.old) replies.old.held.items line.old.items piece.now
        responder.new (W.contents writer.new) replies.new.held.items line.new.items result }
    ensures written { OnOk result (replies.new.held.items ≡ []) }
    ensures most { replies.new.held.most ≡ replies.old.held.most }
{
    match feed_parts(responder, writer, replies, line, piece) {
        Ok(()) => {}
        Err(fault) => return Err(fault),
    }
    match replies.held.write_all(writer) {
        Ok(()) => Ok(()),
        Err(_) => Err(ReplayFault::WriteFailed),
    }
}
