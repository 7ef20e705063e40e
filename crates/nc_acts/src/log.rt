//! A log that only clauses read.

ghost use Rattle.std.specs.Prelude.{◌≡◌, List, [], ◌++◌};
ghost use Rattle.std.specs.Borrow.{ftrue};
ghost use Rattle.nc_acts.specs.declared.acts.Entry.{Entry};

use crate::acts::Entry;
use nc_text::Text;
use std::marker::Model;

/// The entries of a log. A value has no bytes, and its methods do nothing when they run.
///
/// By itself a log says nothing about a text, since its holder notes what it likes. An `Acts` has one as a private field, and
/// the contract of each of its methods says both what the method does and what it notes.
#[derive(Drop)]
pub struct Log {
    pub ghost entries: { List Entry },
}

impl Model for Log {
    ghost also_owns = { λ _. ftrue };
}

// A log owns nothing.
unsafe impl Send for Log {}

// A log owns nothing.
unsafe impl Sync for Log {}

/// Entries that are noted at once.
#[derive(Clone, Copy, Drop)]
pub enum Note<'a> {
    /// One entry.
    One(Entry),
    /// The entries of a creation of this code at this base.
    Creation(u32, &'a [u8]),
    /// The entries of the stops over a span of this length, whose marks are those of this text.
    Stops(u32, u32, &'a Text),
}

impl Log {
    ghost use Rattle.nc_acts.specs.Noted.{noted};

    /// A log without an entry.
    pub fn new() -> Log
        ensures { result.entries ≡ [] }
    {
        Log {}
    }

    /// Appends these entries.
    #[inline(always)]
    pub fn note(&mut self, _note: &Note<'_>)
        ensures { self.new.entries ≡ self.old.entries ++ noted _note.now }
    {}
}
