//! The acts through which a region uses its text and its generations.

ghost use Rattle.std.specs.Prelude.{◌≡◌, ◌+◌, ◌%◌, ◌^◌, ◌<◌, ◌≤◌, ◌↔◌, ℕ, List, [], ◌∷◌, length, replicate, All, IsOk, IfOk, IfErr};
ghost use Rattle.std.specs.Prelude.{IsTrue, OnOk, OnErr, Bool, true, false};
ghost use Rattle.std.specs.Int.{bit_at};
ghost use Rattle.nc_decode.specs.declared.instruction.Mark.{Mark};
ghost use Rattle.nc_decode.specs.Bits.{mark_bit, marks_in};
ghost use Rattle.nc_decode.specs.Bundles.{IsBundleStart};
ghost use Rattle.nc_text.specs.Marks.{IsClosed, mark_at};
ghost use Rattle.nc_text.specs.Places.{InRegion, SpanInRegion, byte_at, limit_of};
ghost use Rattle.nc_text.specs.MarkedText.{MarkedText, IsText, with_byte, with_chunk, with_stops, with_marks, without_marks, NamesRegister};
ghost use Rattle.nc_text.specs.MarkedText.{KeepsMarks, AreStops};
ghost use Rattle.nc_text.specs.Puts.{HasPut, ClosedAfterEach};
ghost use Rattle.nc_text.specs.Ready.{IsReady, AreReady, GetsReady};
ghost use Rattle.nc_gens.specs.Seen.{HasRaised, KeeperState, HasLooked, HasMet, least_number};
ghost use Rattle.nc_acts.specs.declared.acts.Act.{Act};
ghost use Rattle.nc_acts.specs.declared.acts.Entry.{Entry};
ghost use Rattle.nc_acts.specs.Acts.{puts_where, starts_if, marked_if, is_marked_at};
ghost use Rattle.nc_acts.specs.Chunks.{HasGoodSpan, IsClosedChunk, IsUnused};
ghost use Rattle.nc_acts.specs.Log.{Logs, only_acts, log_of_create, log_of_stops};

use nc_decode::{Bundle, Mark, STOP, mark_bit};
use nc_gens::{GensFull, Pass};
use nc_text::TextFault;

/// One atomic change that a region makes, or one look at its generations.
#[derive(Clone, Copy, Debug, PartialEq, Eq)]
pub enum Act {
    /// This byte was put at this address.
    Put(u32, u8),
    /// The span of this many places from this address on was marked.
    MarkSpan(u32, u32),
    /// The span of this many places from this address on was unmarked.
    UnmarkSpan(u32, u32),
    /// The generation was raised by one.
    Bump,
    /// The seats' words were loaded.
    Look,
}

/// One entry of a log: an act, or a serialization between two acts.
#[derive(Clone, Copy, Debug, PartialEq, Eq)]
pub enum Entry {
    /// This act was done.
    Did(Act),
    /// The region serialized.
    Serialized,
}

/// The operations that a region is built on: those of a text, changed one act at a time, and of the keeper of a table of
/// generations.
///
/// The contracts are those of `nc_text::Text` and `nc_gens::Gens`; an act on the text leaves the keeper unchanged, and vice
/// versa. Every value logs its puts, spans marked and unmarked, bumps, looks and serializations. Each is appended to `logged`, which
/// only clauses read. An implementer hands its acts on to one that logs, or notes them in a [`Log`](crate::Log), which
/// has no bytes. The acts that a value has told are those of its log, without the serializations.
pub trait Acts {
    /// Bytes and marks.
    ghost marked: { Self → MarkedText };

    /// Which pages are made.
    ghost made: { Self → List Bool };

    /// The keeper.
    ghost keeper: { Self → KeeperState };

    /// The acts so far, with the serializations among them.
    ghost logged: { Self → List Entry };

    /// Makes the pages of a span. This isn't an act and isn't logged. The only refusal is `OutOfMemory`; some of the pages may then
    /// have been made.
    fn ready(&mut self, at: u32, len: u32) -> Result<(), TextFault>
        requires inside { SpanInRegion (marked self.old).bytes at len }
        ensures ready { IfOk result (λ _. AreReady (made self.new) at len) }
        ensures only { GetsReady (made self.old) (made self.new) at len }
        ensures fault { IfErr result (λ fault. fault ≡ TextFault.OutOfMemory) }
        ensures marked { marked self.new ≡ marked self.old }
        ensures whole { IsText (marked self.new) }
        ensures keeper { keeper self.new ≡ keeper self.old }
        ensures logged { logged self.new ≡ logged self.old };

    /// Whether every place of a span is ready.
    fn is_ready(&self, at: u32, len: u32) -> bool
        requires { SpanInRegion (marked self.now).bytes at len }
        ensures { IsTrue result ↔ AreReady (made self.now) at len };

    /// Puts one byte.
    fn put(&mut self, at: u32, byte: u8)
        requires inside { InRegion (marked self.old).bytes at }
        requires ready { IsReady (made self.old) at }
        requires closed { IsClosed (with_byte (marked self.old) at byte).bytes (marked self.old).marks }
        ensures marked { marked self.new ≡ with_byte (marked self.old) at byte }
        ensures made { made self.new ≡ made self.old }
        ensures whole { IsText (marked self.new) }
        ensures keeper { keeper self.new ≡ keeper self.old }
        ensures logged { Logs (logged self.old) (logged self.new) (Entry.Did (Act.Put at byte) ∷ []) };

    /// Puts the bytes of a span that are at bundle starts, or those that aren't, in ascending order. Each is a put of its own, and is
    /// logged as one. The span consists of whole bundles. The text is closed after each put. An empty span changes nothing, wherever
    /// `at` is.
    ///
    /// This default calls `put` for each byte, as that of `stop_where` does. An implementation of its own must store the bytes one at
    /// a time and in this order too, and nothing else, in memory that threads execute.
    fn put_where(&mut self, at: u32, code: &[u8], at_starts: bool)
        requires inside { SpanInRegion (marked self.old).bytes at (length code.now) }
        requires start { IsBundleStart at }
        requires whole { length code.now % 32 ≡ 0 }
        requires ready { AreReady (made self.old) at (length code.now) }
        requires closed { ClosedAfterEach (starts_if at_starts) at code.now (marked self.old).bytes (marked self.old).marks }
        ensures bytes { HasPut (starts_if at_starts) at code.now (length code.now) (marked self.old).bytes (marked self.new).bytes }
        ensures marks { (marked self.new).marks ≡ (marked self.old).marks }
        ensures made { made self.new ≡ made self.old }
        ensures whole { IsText (marked self.new) }
        ensures keeper { keeper self.new ≡ keeper self.old }
        ensures logged { Logs (logged self.old) (logged self.new) (only_acts (puts_where (starts_if at_starts) at code.now)) }
    {
        // Called for its postconditions.
        let _facts = self.limit();
        for i in 0..code.len() {
            let place = at + i as u32;
            if (place % 32 == 0) == at_starts {
                self.put(place, code[i]);
            }
        }
    }

    /// Puts F4 at the marked places of a span of `len` places, or at those that aren't marked, under the conditions of `put_where` and
    /// like it. For unmarked places it also requires that the marked places of the span already have F4.
    fn stop_where(&mut self, at: u32, len: u32, at_marked: bool)
        requires inside { SpanInRegion (marked self.old).bytes at len }
        requires start { IsBundleStart at }
        requires whole { len % 32 ≡ 0 }
        requires ready { AreReady (made self.old) at len }
        requires stopped { at_marked ≡ false → (k : ℕ) → at ≤ k → k < at + len → is_marked_at (marked self.old).marks k ≡ true
            → byte_at (marked self.old).bytes k ≡ 0xF4 }
        requires closed { ClosedAfterEach (marked_if at_marked (marked self.old).marks) at (replicate len 0xF4) (marked self.old).bytes
            (marked self.old).marks }
        ensures bytes { HasPut (marked_if at_marked (marked self.old).marks) at (replicate len 0xF4) len (marked self.old).bytes
            (marked self.new).bytes }
        ensures marks { (marked self.new).marks ≡ (marked self.old).marks }
        ensures made { made self.new ≡ made self.old }
        ensures whole { IsText (marked self.new) }
        ensures keeper { keeper self.new ≡ keeper self.old }
        ensures logged { Logs (logged self.old) (logged self.new)
            (only_acts (puts_where (marked_if at_marked (marked self.old).marks) at (replicate len 0xF4))) }
    {
        // Called for its postconditions.
        let _facts = self.limit();
        for i in 0..len {
            let place = at + i;
            if (mark_bit(self.mark(place)) == 1) == at_marked {
                self.put(place, STOP);
            }
        }
    }

    /// Puts F4 at every place of a chunk's span: at the marked places, and, once the region has serialized, at the others. The text is
    /// closed after each put.
    ///
    /// This default calls `stop_where` and `serialize`. An implementation over a text that no thread executes is faster if it overrides
    /// it. In memory that threads execute, it must make each store by itself, in the order of the entries, and serialize at `Serialized`.
    fn stop_span(&mut self, at: u32, len: u32)
        requires placed { HasGoodSpan at (limit_of (marked self.old).bytes) len }
        requires ready { AreReady (made self.old) at len }
        ensures marked { marked self.new ≡ with_stops (marked self.old) at len }
        ensures made { made self.new ≡ made self.old }
        ensures whole { IsText (marked self.new) }
        ensures keeper { keeper self.new ≡ keeper self.old }
        ensures logged { Logs (logged self.old) (logged self.new) (log_of_stops (marked self.old).marks at len) }
    {
        // Called for its postconditions.
        let _facts = self.limit();
        self.stop_where(at, len, true);
        self.serialize();
        self.stop_where(at, len, false);
    }

    /// Makes every processor fetch anew: once it has returned, no byte is executed that was overwritten before the call. It
    /// changes no byte, no mark and no number. It is logged, but isn't an act.
    fn serialize(&mut self)
        ensures logged { Logs (logged self.old) (logged self.new) (Entry.Serialized ∷ []) }
        ensures marked { marked self.new ≡ marked self.old }
        ensures made { made self.new ≡ made self.old }
        ensures whole { IsText (marked self.new) }
        ensures keeper { keeper self.new ≡ keeper self.old };

    /// Sets the marks of a span.
    fn mark_span(&mut self, at: u32, marks: &[Mark])
        requires inside { SpanInRegion (marked self.old).bytes at (length marks.now) }
        requires ready { AreReady (made self.old) at (length marks.now) }
        requires registers { All NamesRegister marks.now }
        requires keeps { KeepsMarks (marked self.old).marks (with_marks (marked self.old) at marks.now).marks }
        requires closed { IsClosed (marked self.old).bytes (with_marks (marked self.old) at marks.now).marks }
        ensures marked { marked self.new ≡ with_marks (marked self.old) at marks.now }
        ensures made { made self.new ≡ made self.old }
        ensures whole { IsText (marked self.new) }
        ensures keeper { keeper self.new ≡ keeper self.old }
        ensures logged { Logs (logged self.old) (logged self.new) (Entry.Did (Act.MarkSpan at (length marks.now)) ∷ []) };

    /// Creates a chunk from the bits of its bundles and returns true, or does nothing and returns false. If it returns false, the region
    /// makes the creation's acts by `put_where`, `serialize` and `mark_span`. The entries logged are the same. The text is closed after
    /// each of these acts, since the chunk is closed by itself and its span is unused.
    ///
    /// This default does nothing. An implementation that keeps marks as bits, over a text that no thread executes, is faster if it
    /// overrides it. In memory that threads execute, it must make each store by itself, in the order of the entries, and serialize at
    /// `Serialized`.
    fn put_bundles(&mut self, at: u32, code: &[u8], bundles: &[Bundle]) -> bool
        requires chunk { IsClosedChunk at (limit_of (marked self.old).bytes) code.now (marks_in code.now bundles.now) }
        requires unused { IsUnused (marked self.old) at (length code.now) }
        requires ready { AreReady (made self.old) at (length code.now) }
        ensures marked { IsTrue result → marked self.new ≡ with_chunk (marked self.old) at code.now (marks_in code.now bundles.now) }
        ensures logged { IsTrue result → Logs (logged self.old) (logged self.new) (log_of_create at code.now) }
        ensures unchanged { result ≡ false → (marked self.new ≡ marked self.old)
            × (logged self.new ≡ logged self.old) }
        ensures made { made self.new ≡ made self.old }
        ensures whole { IsText (marked self.new) }
        ensures keeper { keeper self.new ≡ keeper self.old }
    {
        // Called for its postconditions.
        let _facts = self.limit();
        false
    }

    /// Unmarks a span, except for its bundle starts.
    fn unmark_span(&mut self, at: u32, len: u32)
        requires inside { SpanInRegion (marked self.old).bytes at len }
        requires stops { AreStops (marked self.old).bytes at len }
        requires closed { IsClosed (marked self.old).bytes (without_marks (marked self.old) at len).marks }
        ensures marked { marked self.new ≡ without_marks (marked self.old) at len }
        ensures made { made self.new ≡ made self.old }
        ensures whole { IsText (marked self.new) }
        ensures keeper { keeper self.new ≡ keeper self.old }
        ensures logged { Logs (logged self.old) (logged self.new) (Entry.Did (Act.UnmarkSpan at len) ∷ []) };

    /// The byte at an address.
    fn byte(&self, at: u32) -> u8
        requires { InRegion (marked self.now).bytes at }
        ensures { result ≡ byte_at (marked self.now).bytes at };

    /// The address after the last byte.
    fn limit(&self) -> u32
        ensures limit { result ≡ limit_of (marked self.now).bytes }
        ensures whole { IsText (marked self.now) };

    /// The mark at an address.
    fn mark(&self, at: u32) -> Mark
        requires { InRegion (marked self.now).bytes at }
        ensures { result ≡ mark_at (marked self.now).marks at };

    /// The marked places of a bundle: a bit for each of its 32 places, the lowest for the bundle start.
    ///
    /// This default reads each mark. An implementation that keeps marks as bits may be faster.
    fn marked_places(&self, at: u32) -> u32
        requires inside { InRegion (marked self.now).bytes at }
        requires start { IsBundleStart at }
        ensures { (k : ℕ) → k < 32 → bit_at result k ≡ mark_bit (mark_at (marked self.now).marks (at + k)) }
    {
        // Called for its postconditions.
        let _facts = self.limit();
        let mut places = 0;
        for n in 0..32 {
            places = 2 * places + mark_bit(self.mark(at + (31 - n)));
        }
        places
    }

    /// Adds one to the generation and returns the new one. It is refused exactly if the generation is 2^62, and then changes and logs
    /// nothing.
    fn bump(&mut self) -> Result<u64, GensFull>
        ensures room { IsOk result ↔ ((keeper self.old).numbers.generation < 2 ^ 62) }
        ensures stamp { IfOk result (λ n. n ≡ (keeper self.old).numbers.generation + 1) }
        ensures raised { OnOk result (HasRaised (keeper self.old) (keeper self.new)) }
        ensures logged { OnOk result (Logs (logged self.old) (logged self.new) (Entry.Did Act.Bump ∷ [])) }
        ensures marked { marked self.new ≡ marked self.old }
        ensures made { made self.new ≡ made self.old }
        ensures full { OnErr result (((keeper self.old).numbers.generation ≡ 2 ^ 62) × (keeper self.new ≡ keeper self.old)) }
        ensures unlogged { OnErr result (logged self.new ≡ logged self.old) };

    /// Loads each seat's word. Returns the least bound of the seats that haven't been found to have left, or the generation if
    /// there are none, as `Gens::look` does.
    fn look(&mut self) -> u64
        ensures looked { HasLooked (keeper self.old) (keeper self.new) }
        ensures least { result ≡ least_number (keeper self.new).numbers }
        ensures marked { marked self.new ≡ marked self.old }
        ensures made { made self.new ≡ made self.old }
        ensures logged { Logs (logged self.old) (logged self.new) (Entry.Did Act.Look ∷ []) };

    /// A pass and the keeper meet: the pass sees the generation, and the keeper the pass's word. This isn't an act and isn't
    /// logged.
    fn meet(&mut self, pass: &mut Pass)
        requires { pass.old.table ≡ (keeper self.old).table }
        ensures met { HasMet pass.old (keeper self.old) pass.new (keeper self.new) }
        ensures marked { marked self.new ≡ marked self.old }
        ensures made { made self.new ≡ made self.old }
        ensures logged { logged self.new ≡ logged self.old };

    /// The generation.
    fn generation(&self) -> u64
        ensures generation { result ≡ (keeper self.now).numbers.generation }
        ensures in_range { result ≤ 2 ^ 62 };
}
