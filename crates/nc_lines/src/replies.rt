//! Replies held back until more lines are to be read.

ghost use Rattle.std.specs.Prelude.{◌≡◌, ◌++◌, ◌≤◌, [], OnOk, OnErr, if◌then◌else◌};
ghost use Rattle.std.specs.Io.KnownBytes.{Appends};
ghost use Rattle.std.specs.Vec.{vec_capacity};
ghost use Rattle.nc_lines.specs.machinery.Progress.{EndsEarly, HoldsRest, WritesFront};

use crate::fault::ReplayFault;
use nc_output::{WriteFailed, write_out};
use std::alloc::Global;
use std::io::Write;
use std::marker::Model;

/// The most bytes of memory that are kept for the reply to the next line.
const KEPT_ROOM: usize = 65_536;

/// Replies that are held back, at most `most` bytes in all. A reply with which there would be more is written at once, after
/// those before it; so is every reply where `most` is 0.
#[derive(Drop)]
pub(crate) struct HeldReplies {
    bytes: Vec<u8>,
    most: usize,
}

impl Model for HeldReplies {
    ghost use Rattle.std.specs.Prelude.{◌≤◌, length};
    ghost use Rattle.nc_lines.specs.machinery.Progress.{HeldBytes};

    ghost Value = { HeldBytes };

    ghost view = { λ h. record { items = h.bytes.items; most = h.most } };

    ghost invariant = { λ h. length h.bytes.items ≤ h.most };
}

impl HeldReplies {
    /// No replies, of which at most this many bytes are to be held back.
    pub fn new(alloc: Global, most: usize) -> HeldReplies
        ensures none { result.items ≡ [] }
        ensures most { result.most ≡ most }
    {
        HeldReplies {
            bytes: Vec::new(alloc),
            most,
        }
    }

    /// Writes what is held back.
    pub fn write_all<W: Write>(&mut self, writer: &mut W) -> Result<(), WriteFailed>
        ensures all { OnOk result (Appends (W.contents writer.old) (W.contents writer.new) self.old.items) }
        ensures none { OnOk result (self.new.items ≡ []) }
        ensures front { OnErr result (WritesFront (W.contents writer.old) (W.contents writer.new) self.old.items) }
        ensures most { self.new.most ≡ self.old.most }
    {
        match write_out(writer, self.bytes.as_slice()) {
            Ok(()) => {
                self.bytes.clear();
                Ok(())
            }
            Err(fault) => Err(fault),
        }
    }

    /// Holds back a reply if there are not too many bytes and there is memory for them; returns whether it did.
    fn has_taken(&mut self, reply: &[u8]) -> bool
        ensures bytes { self.new.items ≡ (if result then self.old.items ++ reply.now else self.old.items) }
        ensures most { self.new.most ≡ self.old.most }
    {
        reply.len() <= self.most - self.bytes.len() && self.bytes.extend_from_slice(reply).is_ok()
    }

    /// Holds back a reply. If there would be too many bytes, or there is no memory for them, all are written instead.
    pub fn hold<W: Write>(&mut self, writer: &mut W, reply: &[u8]) -> Result<(), WriteFailed>
        ensures ok { OnOk result (HoldsRest (W.contents writer.old) (W.contents writer.new) (self.old.items ++ reply.now) self.new.items) }
        ensures front { OnErr result (WritesFront (W.contents writer.old) (W.contents writer.new) (self.old.items ++ reply.now)) }
        ensures most { self.new.most ≡ self.old.most }
    {
        if self.has_taken(reply) {
            return Ok(());
        }
        match self.write_all(writer) {
            Ok(()) => {}
            Err(fault) => return Err(fault),
        }
        write_out(writer, reply)
    }

    /// Writes what is held back as a run ends that lacks memory; returns why it ends.
    pub fn end_early<W: Write>(&mut self, writer: &mut W) -> ReplayFault
        ensures ends { EndsEarly (W.contents writer.old) (W.contents writer.new) self.old.items result }
        ensures most { self.new.most ≡ self.old.most }
    {
        match self.write_all(writer) {
            Ok(()) => ReplayFault::OutOfMemory,
            Err(_) => ReplayFault::WriteFailed,
        }
    }
}

/// The reply to the line at hand, and those before it that are held back.
#[derive(Drop)]
pub(crate) struct Replies {
    alloc: Global,
    pub reply: Vec<u8>,
    pub held: HeldReplies,
}

impl Replies {
    /// No replies, of which at most this many bytes are to be held back.
    pub fn new(alloc: Global, most: usize) -> Replies
        ensures none { result.held.items ≡ [] }
        ensures most { result.held.most ≡ most }
    {
        Replies {
            alloc,
            reply: Vec::new(alloc),
            held: HeldReplies::new(alloc, most),
        }
    }

    /// Makes room for the reply to the next line. The memory of a long reply is given back.
    pub fn clear_reply(&mut self)
        ensures reply { self.new.reply.items ≡ [] }
        ensures room { vec_capacity self.new.reply ≤ 65_536 }
        ensures held { self.new.held ≡ self.old.held }
    {
        if self.reply.capacity() > KEPT_ROOM {
            self.reply = Vec::new(self.alloc);
        } else {
            self.reply.clear();
        }
    }
}
