//! A text: the bytes of a region and their marks.

ghost use Rattle.std.specs.Prelude.{◌≡◌, ◌+◌, ◌%◌, ◌-◌, ◌≤◌, ◌<◌, ℕ, true, false, List, length, replicate, slice_index};
ghost use Rattle.std.specs.Prelude.{IfOk, IfErr, IsTrue, All, ◌↔◌, ◌⊎◌};
ghost use Rattle.std.specs.Int.{bit_at};
ghost use Rattle.nc_decode.specs.Bundles.{IsBundleStart, IsLawfulLimit, limit_after};
ghost use Rattle.nc_decode.specs.Bits.{mark_bit, marks_in};
ghost use Rattle.nc_text.specs.Marks.{IsClosed, mark_at};
ghost use Rattle.nc_text.specs.Places.{InRegion, SpanInRegion, byte_at, limit_of};
ghost use Rattle.nc_text.specs.MarkedText.{MarkedText, IsText, with_byte, with_chunk, with_stops, with_marks, without_marks, unused_text, NamesRegister};
ghost use Rattle.nc_text.specs.MarkedText.{KeepsMarks, AreStops};
ghost use Rattle.nc_text.specs.Puts.{ClosedThroughout, HasPutInTurn, is_start, is_inside, is_marked_at, is_unmarked_at};
ghost use Rattle.nc_text.specs.Ready.{TextState, IsReady, AreReady, GetsReady, unmade_pages};

use crate::change::{PutBundles, Stops};
use crate::page::{PAGE, Page};
use crate::table;
use nc_decode::{Bundle, MAX_BUNDLES, Mark, START};
use std::alloc::Global;
use std::marker::Model;
use thiserror::Error;

/// Why no text was created, or pages weren't allocated.
#[derive(Clone, Copy, Debug, PartialEq, Eq, Error)]
pub enum TextFault {
    /// The number of bundles doesn't give a lawful limit.
    #[error("bad size")]
    BadSize,
    /// An allocation was refused.
    #[error("out of memory")]
    OutOfMemory,
}

/// The bytes of a code region, from 00010000 to its limit, and a mark for each of them.
///
/// A mark admits states of a thread at its place: `Plain` any, whatever was masked before, `After(r)` only those with r just
/// masked, `Unmarked` none. A text is *closed* if every bundle start is `Plain`, every state that a mark admits is safe, and
/// each step from such a state leads again to such a state or to a bundle start below 00010000. A `Text` is closed at every
/// moment, also between two calls: the contract of each call that changes it requires that the result is closed. Therefore a
/// thread in a state that a mark admits executes only permitted instructions, and leaves the region only to a bundle start
/// below 00010000 (`law_of_closed`). This is the order of puts of Ansel et al. 2011, "Language-independent sandboxing of
/// just-in-time compilation and self-modifying code", as one condition on each put.
///
/// A text consists of pages of 4096 places. A page is allocated on first need, by `ready`, and stays; a place is *ready* if
/// its page is allocated. A page that isn't allocated reads as F4, with only its bundle starts marked.
///
/// Nothing is promised about threads in other states, and a `Text` executes nothing.
#[derive(Drop)]
pub struct Text {
    alloc: Global,
    size: usize,
    pages: Vec<Option<Box<Page>>>,
}

impl Model for Text {
    ghost use Rattle.std.specs.Prelude.{◌≡◌, ◌+◌, ◌/◌, length};
    ghost use Rattle.nc_text.specs.MarkedText.{IsText};
    ghost use Rattle.nc_text.specs.Ready.{TextState};
    ghost use Rattle.nc_text.specs.machinery.Pages.{text_of};

    ghost Value = { TextState };

    ghost view = { λ t. text_of t.pages.items t.size };

    ghost invariant = { λ t. IsText (text_of t.pages.items t.size).marked × (length t.pages.items ≡ (t.size + 4095) / 4096) };
}

impl Text {
    /// A text of `bundles` bundles of 32 bytes: all F4, with exactly the bundle starts `Plain`. Its limit is 00010000 plus
    /// 32 times `bundles`. No page is allocated. Besides this call, only `ready` allocates memory.
    ///
    /// # Errors
    ///
    /// `BadSize` exactly if that limit isn't lawful, before any allocation; `OutOfMemory` only if an allocation was refused.
    pub fn new(alloc: Global, bundles: u32) -> Result<Self, TextFault>
        ensures size { (result ≡ Err TextFault.BadSize) ↔ ¬ IsLawfulLimit (limit_after bundles) }
        ensures marked { IfOk result (λ t. t.marked ≡ unused_text (limit_after bundles)) }
        ensures made { IfOk result (λ t. t.made ≡ unmade_pages (limit_after bundles)) }
        ensures whole { IfOk result (λ t. IsText t.marked) }
    {
        if bundles < 2 || bundles > MAX_BUNDLES {
            return Err(TextFault::BadSize);
        }
        let size = bundles as usize * 32;
        let Ok(pages) = table::empty(alloc, size.div_ceil(PAGE)) else {
            return Err(TextFault::OutOfMemory);
        };
        Ok(Text { alloc, size, pages })
    }

    /// Allocates every page that overlaps the span of `len` places from `at` on and isn't allocated. No byte and no mark
    /// changes, no page is lost, and no other page is allocated. An empty span overlaps no page, wherever `at` is.
    ///
    /// # Errors
    ///
    /// `OutOfMemory` only if an allocation was refused. Some of the pages may then be allocated.
    pub fn ready(&mut self, at: u32, len: u32) -> Result<(), TextFault>
        requires inside { SpanInRegion self.old.marked.bytes at len }
        ensures ready { IfOk result (λ _. AreReady self.new.made at len) }
        ensures only { GetsReady self.old.made self.new.made at len }
        ensures marked { self.new.marked ≡ self.old.marked }
        ensures fault { IfErr result (λ fault. fault ≡ TextFault.OutOfMemory) }
        ensures whole { IsText self.new.marked }
    {
        // Names a field, so that the early return is checked against the fields and not the whole.
        let _open = &self.pages;
        if len == 0 {
            return Ok(());
        }
        let start = (at - START) as usize;
        let end = (start + len as usize).div_ceil(PAGE);
        let Ok(()) = table::make(self.alloc, &mut self.pages, start / PAGE, end) else {
            return Err(TextFault::OutOfMemory);
        };
        Ok(())
    }

    /// Whether every place of the span of `len` places from `at` on is ready. An empty span always is. It allocates nothing.
    pub fn is_ready(&self, at: u32, len: u32) -> bool
        requires inside { SpanInRegion self.now.marked.bytes at len }
        ensures { IsTrue result ↔ AreReady self.now.made at len }
    {
        if len == 0 {
            return true;
        }
        let start = (at - START) as usize;
        let end = (start + len as usize).div_ceil(PAGE);
        table::are_made(&self.pages, start / PAGE, end)
    }

    /// The address after the last byte: a multiple of 32.
    pub fn limit(&self) -> u32
        ensures limit { result ≡ limit_of self.now.marked.bytes }
        ensures whole { IsText self.now.marked }
    {
        START + self.size as u32
    }

    /// The byte at an address of the region.
    pub fn byte(&self, at: u32) -> u8
        requires { InRegion self.now.marked.bytes at }
        ensures { result ≡ byte_at self.now.marked.bytes at }
    {
        table::byte(&self.pages, (at - START) as usize)
    }

    /// Reads the `len` bytes from an address of the region on, which are in one bundle. They are the first ones of the result; the
    /// others mean nothing.
    #[inline(always)]
    pub fn read_run(&self, at: u32, len: u32) -> [u8; 32]
        requires inside { InRegion self.now.marked.bytes at }
        requires one_bundle { at % 32 + len ≤ 32 }
        ensures { (k : ℕ) → k < len → slice_index result k ≡ byte_at self.now.marked.bytes (at + k) }
    {
        table::read_run(&self.pages, (at - START) as usize, len as usize)
    }

    /// The mark at an address of the region.
    pub fn mark(&self, at: u32) -> Mark
        requires { InRegion self.now.marked.bytes at }
        ensures { result ≡ mark_at self.now.marked.marks at }
    {
        table::mark(&self.pages, (at - START) as usize)
    }

    /// Which of the 32 places of a bundle are marked: a bit for each of them, the lowest for the bundle start.
    pub fn marked_places(&self, at: u32) -> u32
        requires inside { InRegion self.now.marked.bytes at }
        requires start { IsBundleStart at }
        ensures { (k : ℕ) → k < 32 → bit_at result k ≡ mark_bit (mark_at self.now.marked.marks (at + k)) }
    {
        table::marked(&self.pages, (at - START) as usize)
    }

    /// Puts one byte at an address of the region. No mark and no other byte changes.
    ///
    /// The conditions are that the place is ready, and that the text with that byte is closed under the same marks. The byte
    /// may equal the one already there.
    pub fn put(&mut self, at: u32, byte: u8)
        requires inside { InRegion self.old.marked.bytes at }
        requires ready { IsReady self.old.made at }
        requires closed { IsClosed (with_byte self.old.marked at byte).bytes self.old.marked.marks }
        ensures marked { self.new.marked ≡ with_byte self.old.marked at byte }
        ensures made { self.new.made ≡ self.old.made }
        ensures whole { IsText self.new.marked }
    {
        table::put(&mut self.pages, (at - START) as usize, byte);
    }

    /// Puts the bytes of code, and sets their marks by the bits of its bundles, as vetting finds them. The span consists of whole
    /// bundles from a bundle start on; a bundle without bits has only its start marked. No other byte and no other mark changes. An
    /// empty span changes nothing, wherever `at` is.
    ///
    /// It stands for single calls: puts of the bytes that aren't bundle starts, a `mark_span`, and puts of the bundle starts, each in
    /// ascending order. It asks for what each of these calls asks for, and leaves what they leave. But it finds each page only once, and
    /// may store several bytes at once and in any order, so it isn't for memory that threads execute.
    pub fn put_bundles(&mut self, at: u32, code: &[u8], bundles: &[Bundle])
        requires inside { SpanInRegion self.old.marked.bytes at (length code.now) }
        requires start { IsBundleStart at }
        requires whole { length code.now % 32 ≡ 0 }
        requires ready { AreReady self.old.made at (length code.now) }
        requires keeps { KeepsMarks self.old.marked.marks (with_chunk self.old.marked at code.now (marks_in code.now bundles.now)).marks }
        requires closed { ClosedThroughout is_inside is_start at code.now self.old.marked
            (with_chunk self.old.marked at code.now (marks_in code.now bundles.now)).marks }
        ensures put { HasPutInTurn is_inside is_start at code.now self.old.marked.bytes self.new.marked.bytes }
        ensures marked { self.new.marked ≡ with_chunk self.old.marked at code.now (marks_in code.now bundles.now) }
        ensures made { self.new.made ≡ self.old.made }
        ensures whole { IsText self.new.marked }
    {
        // Names a field, so that the early return is checked against the fields and not the whole.
        let _open = &self.pages;
        if code.is_empty() {
            return;
        }
        let puts = PutBundles { code, bundles };
        table::change(&mut self.pages, (at - START) as usize, &puts);
    }

    /// Puts F4 at every place of a span of `len` bytes, which consists of whole bundles from a bundle start on. No other byte and no
    /// mark changes. An empty span changes nothing, wherever `at` is.
    ///
    /// It stands for single puts, at the marked places and then at the others, each in ascending order. It asks for what they ask for
    /// and stores as `put_bundles` does, so it isn't for memory that threads execute either.
    pub fn stop_span(&mut self, at: u32, len: u32)
        requires inside { SpanInRegion self.old.marked.bytes at len }
        requires start { IsBundleStart at }
        requires whole { len % 32 ≡ 0 }
        requires ready { AreReady self.old.made at len }
        requires closed { ClosedThroughout (is_marked_at self.old.marked.marks) (is_unmarked_at self.old.marked.marks) at
            (replicate len 0xF4) self.old.marked self.old.marked.marks }
        ensures put { HasPutInTurn (is_marked_at self.old.marked.marks) (is_unmarked_at self.old.marked.marks) at
            (replicate len 0xF4) self.old.marked.bytes self.new.marked.bytes }
        ensures marked { self.new.marked ≡ with_stops self.old.marked at len }
        ensures made { self.new.made ≡ self.old.made }
        ensures whole { IsText self.new.marked }
    {
        // Names a field, so that the early return is checked against the fields and not the whole.
        let _open = &self.pages;
        if len == 0 {
            return;
        }
        let stops = Stops { len: len as usize };
        table::change(&mut self.pages, (at - START) as usize, &stops);
    }

    /// Sets the marks of the span that begins at `at` and is as long as `marks`. No byte changes, and no mark outside the
    /// span. An empty span changes nothing, wherever `at` is.
    ///
    /// The conditions are that the span is in the region, that its places are ready, that the registers given are 0 to 7, and
    /// that the result is closed. Each marked place must also keep its mark or become `Plain`, so that the state of every thread
    /// stays admitted.
    pub fn mark_span(&mut self, at: u32, marks: &[Mark])
        requires inside { SpanInRegion self.old.marked.bytes at (length marks.now) }
        requires ready { AreReady self.old.made at (length marks.now) }
        requires registers { All NamesRegister marks.now }
        requires keeps { KeepsMarks self.old.marked.marks (with_marks self.old.marked at marks.now).marks }
        requires closed { IsClosed self.old.marked.bytes (with_marks self.old.marked at marks.now).marks }
        ensures marked { self.new.marked ≡ with_marks self.old.marked at marks.now }
        ensures made { self.new.made ≡ self.old.made }
        ensures whole { IsText self.new.marked }
    {
        // Names a field, so that the early return is checked against the fields and not the whole.
        let _open = &self.pages;
        if marks.is_empty() {
            return;
        }
        table::set_span(&mut self.pages, (at - START) as usize, marks);
    }

    /// Makes every place except bundle starts `Unmarked` in the span of `len` bytes from `at` on. No byte changes, and no mark
    /// outside the span. An empty span changes nothing, wherever `at` is.
    ///
    /// The conditions are that the span is in the region, that every byte of it is F4, and that the result is closed. They
    /// don't include that no thread is in the span: the caller has to know that.
    pub fn unmark_span(&mut self, at: u32, len: u32)
        requires inside { SpanInRegion self.old.marked.bytes at len }
        requires stops { AreStops self.old.marked.bytes at len }
        requires closed { IsClosed self.old.marked.bytes (without_marks self.old.marked at len).marks }
        ensures marked { self.new.marked ≡ without_marks self.old.marked at len }
        ensures made { self.new.made ≡ self.old.made }
        ensures whole { IsText self.new.marked }
    {
        // Names a field, so that the early return is checked against the fields and not the whole.
        let _open = &self.pages;
        if len == 0 {
            return;
        }
        table::unmark(&mut self.pages, (at - START) as usize, len as usize);
    }
}
