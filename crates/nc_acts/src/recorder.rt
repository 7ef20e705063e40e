//! A recorder of acts, for tests and for observing the order of single puts.

ghost use Rattle.std.specs.Prelude.{◌≡◌, ◌↔◌, ◌+◌, ◌%◌, ◌<◌, ◌≤◌, [], ◌∷◌, IfOk, IfErr, IfSome, IsNone, IsOk, OnOk, OnErr, ◌^◌, length, All};
ghost use Rattle.std.specs.Prelude.{IsTrue, true, false};
ghost use Rattle.std.specs.Vec.{vec_len, vec_capacity};
ghost use Rattle.nc_decode.specs.Bits.{marks_in};
ghost use Rattle.nc_decode.specs.Bundles.{IsBundleStart};
ghost use Rattle.nc_text.specs.MarkedText.{IsText, with_byte, with_marks, without_marks, NamesRegister, KeepsMarks, AreStops};
ghost use Rattle.nc_text.specs.Marks.{IsClosed};
ghost use Rattle.nc_text.specs.Ready.{IsReady, AreReady, GetsReady};
ghost use Rattle.nc_text.specs.Places.{InRegion, SpanInRegion};
ghost use Rattle.nc_acts.specs.declared.acts.Act.{Act};
ghost use Rattle.nc_acts.specs.declared.acts.Entry.{Entry};
ghost use Rattle.nc_gens.specs.Seen.{HasRaised, HasLooked, HasMet, least_number};
ghost use Rattle.nc_acts.specs.Log.{Logs};

use crate::acts::{Act, Acts, Entry};
use crate::log::{Log, Note};
use nc_decode::{Bundle, Mark};
use nc_gens::{GensFull, Pass};
use nc_text::TextFault;
use std::alloc::{AllocError, Global};

/// Acts that are recorded. Each is appended to a list as it is done, and so is each serialization.
///
/// The list's room is allocated when the recorder is made. From the first entry for which there is no room, the recorder has no
/// list, for good; the acts themselves are still done. The clause `goes_on` of each act says this. As long as there is room, the
/// list is exactly what is logged.
#[derive(Drop)]
pub struct Recorder<A: Acts + Drop> {
    acts: A,
    entries: Vec<Entry>,
    full: bool,
    log: Log,
    ghost kept: { full ≡ false → entries.items ≡ log.entries },
}

impl<A: Acts + Drop> Recorder<A> {
    /// A recorder with room for this number of entries, each an act or a serialization. It is refused if there is no memory for the room.
    pub fn new(alloc: Global, acts: A, room: usize) -> Result<Recorder<A>, AllocError>
        ensures acts { IfOk result (λ r. r.acts ≡ acts) }
        ensures logged { IfOk result (λ r. (r.log.entries ≡ []) × (r.entries.items ≡ []) × (r.full ≡ false)) }
        ensures room { IfOk result (λ r. vec_len r.entries + room ≤ vec_capacity r.entries) }
    {
        let mut entries = Vec::new(alloc);
        entries.reserve(room)?;
        Ok(Recorder {
            acts,
            entries,
            full: false,
            log: Log::new(),
        })
    }

    /// The acts so far with the serializations among them, first to last, as long as there was room.
    pub fn entries(&self) -> Option<&[Entry]>
        ensures entries { IfSome result (λ entries. entries.now ≡ ⟦<Recorder<A> as Acts>⟧.logged self.now) }
        ensures room { IsNone result ↔ (self.now.full ≡ true) }
    {
        if self.full { None } else { Some(&self.entries) }
    }

    fn record(&mut self, entry: Entry)
        ensures acts { self.new.acts ≡ self.old.acts }
        ensures logged { Logs self.old.log.entries self.new.log.entries (entry ∷ []) }
        // The recorder goes on exactly if it did before and there was room.
        ensures goes_on { (self.new.full ≡ false) ↔ ((self.old.full ≡ false)
            × (vec_len self.old.entries < vec_capacity self.old.entries)) }
    {
        self.log.note(&Note::One(entry));
        if self.full || self.entries.len() == self.entries.capacity() {
            self.full = true;
            return;
        }
        if self.entries.push(entry).is_err() {
            self.full = true;
        }
    }
}

impl<A: Acts + Drop> Acts for Recorder<A> {
    ghost marked = { λ r. A.marked r.acts };

    ghost made = { λ r. A.made r.acts };

    ghost keeper = { λ r. A.keeper r.acts };

    ghost logged = { λ r. r.log.entries };

    fn ready(&mut self, at: u32, len: u32) -> Result<(), TextFault>
        requires inside { SpanInRegion (A.marked self.old.acts).bytes at len }
        ensures ready { IfOk result (λ _. AreReady (A.made self.new.acts) at len) }
        ensures only { GetsReady (A.made self.old.acts) (A.made self.new.acts) at len }
        ensures fault { IfErr result (λ fault. fault ≡ TextFault.OutOfMemory) }
        ensures marked { A.marked self.new.acts ≡ A.marked self.old.acts }
        ensures whole { IsText (A.marked self.new.acts) }
        ensures keeper { A.keeper self.new.acts ≡ A.keeper self.old.acts }
        ensures logged { self.new.log.entries ≡ self.old.log.entries }
        ensures none_handed_on { A.logged self.new.acts ≡ A.logged self.old.acts }
        ensures stays { (self.new.full ≡ self.old.full) × (self.new.entries ≡ self.old.entries) }
    {
        self.acts.ready(at, len)
    }

    fn is_ready(&self, at: u32, len: u32) -> bool {
        self.acts.is_ready(at, len)
    }

    fn put(&mut self, at: u32, byte: u8)
        requires inside { InRegion (A.marked self.old.acts).bytes at }
        requires ready { IsReady (A.made self.old.acts) at }
        requires closed { IsClosed (with_byte (A.marked self.old.acts) at byte).bytes (A.marked self.old.acts).marks }
        ensures marked { A.marked self.new.acts ≡ with_byte (A.marked self.old.acts) at byte }
        ensures made { A.made self.new.acts ≡ A.made self.old.acts }
        ensures whole { IsText (A.marked self.new.acts) }
        ensures keeper { A.keeper self.new.acts ≡ A.keeper self.old.acts }
        ensures logged { Logs self.old.log.entries self.new.log.entries (Entry.Did (Act.Put at byte) ∷ []) }
        ensures handed_on { Logs (A.logged self.old.acts) (A.logged self.new.acts) (Entry.Did (Act.Put at byte) ∷ []) }
        ensures goes_on { (self.new.full ≡ false) ↔ ((self.old.full ≡ false)
            × (vec_len self.old.entries < vec_capacity self.old.entries)) }
    {
        self.acts.put(at, byte);
        self.record(Entry::Did(Act::Put(at, byte)));
    }

    fn serialize(&mut self)
        ensures logged { Logs self.old.log.entries self.new.log.entries (Entry.Serialized ∷ []) }
        ensures goes_on { (self.new.full ≡ false) ↔ ((self.old.full ≡ false)
            × (vec_len self.old.entries < vec_capacity self.old.entries)) }
        ensures marked { A.marked self.new.acts ≡ A.marked self.old.acts }
        ensures made { A.made self.new.acts ≡ A.made self.old.acts }
        ensures whole { IsText (A.marked self.new.acts) }
        ensures keeper { A.keeper self.new.acts ≡ A.keeper self.old.acts }
        ensures handed_on { Logs (A.logged self.old.acts) (A.logged self.new.acts) (Entry.Serialized ∷ []) }
    {
        self.acts.serialize();
        self.record(Entry::Serialized);
    }

    fn mark_span(&mut self, at: u32, marks: &[Mark])
        requires inside { SpanInRegion (A.marked self.old.acts).bytes at (length marks.now) }
        requires ready { AreReady (A.made self.old.acts) at (length marks.now) }
        requires registers { All NamesRegister marks.now }
        requires keeps { KeepsMarks (A.marked self.old.acts).marks (with_marks (A.marked self.old.acts) at marks.now).marks }
        requires closed { IsClosed (A.marked self.old.acts).bytes (with_marks (A.marked self.old.acts) at marks.now).marks }
        ensures marked { A.marked self.new.acts ≡ with_marks (A.marked self.old.acts) at marks.now }
        ensures made { A.made self.new.acts ≡ A.made self.old.acts }
        ensures whole { IsText (A.marked self.new.acts) }
        ensures keeper { A.keeper self.new.acts ≡ A.keeper self.old.acts }
        ensures logged { Logs self.old.log.entries self.new.log.entries (Entry.Did (Act.MarkSpan at (length marks.now)) ∷ []) }
        ensures handed_on { Logs (A.logged self.old.acts) (A.logged self.new.acts) (Entry.Did (Act.MarkSpan at (length marks.now)) ∷ []) }
        ensures goes_on { (self.new.full ≡ false) ↔ ((self.old.full ≡ false)
            × (vec_len self.old.entries < vec_capacity self.old.entries)) }
    {
        self.acts.mark_span(at, marks);
        self.record(Entry::Did(Act::MarkSpan(at, marks.len() as u32)));
    }

    fn unmark_span(&mut self, at: u32, len: u32)
        requires inside { SpanInRegion (A.marked self.old.acts).bytes at len }
        requires stops { AreStops (A.marked self.old.acts).bytes at len }
        requires closed { IsClosed (A.marked self.old.acts).bytes (without_marks (A.marked self.old.acts) at len).marks }
        ensures marked { A.marked self.new.acts ≡ without_marks (A.marked self.old.acts) at len }
        ensures made { A.made self.new.acts ≡ A.made self.old.acts }
        ensures whole { IsText (A.marked self.new.acts) }
        ensures keeper { A.keeper self.new.acts ≡ A.keeper self.old.acts }
        ensures logged { Logs self.old.log.entries self.new.log.entries (Entry.Did (Act.UnmarkSpan at len) ∷ []) }
        ensures handed_on { Logs (A.logged self.old.acts) (A.logged self.new.acts) (Entry.Did (Act.UnmarkSpan at len) ∷ []) }
        ensures goes_on { (self.new.full ≡ false) ↔ ((self.old.full ≡ false)
            × (vec_len self.old.entries < vec_capacity self.old.entries)) }
    {
        self.acts.unmark_span(at, len);
        self.record(Entry::Did(Act::UnmarkSpan(at, len)));
    }

    fn byte(&self, at: u32) -> u8 {
        self.acts.byte(at)
    }

    fn limit(&self) -> u32 {
        self.acts.limit()
    }

    fn mark(&self, at: u32) -> Mark {
        self.acts.mark(at)
    }

    fn marked_places(&self, at: u32) -> u32 {
        self.acts.marked_places(at)
    }

    fn bump(&mut self) -> Result<u64, GensFull>
        ensures room { IsOk result ↔ ((A.keeper self.old.acts).numbers.generation < 2 ^ 62) }
        ensures stamp { IfOk result (λ n. n ≡ (A.keeper self.old.acts).numbers.generation + 1) }
        ensures raised { OnOk result (HasRaised (A.keeper self.old.acts) (A.keeper self.new.acts)) }
        ensures logged { OnOk result (Logs self.old.log.entries self.new.log.entries (Entry.Did Act.Bump ∷ [])) }
        ensures handed_on { OnOk result (Logs (A.logged self.old.acts) (A.logged self.new.acts) (Entry.Did Act.Bump ∷ [])) }
        ensures goes_on { OnOk result ((self.new.full ≡ false) ↔ ((self.old.full ≡ false)
            × (vec_len self.old.entries < vec_capacity self.old.entries))) }
        ensures marked { A.marked self.new.acts ≡ A.marked self.old.acts }
        ensures made { A.made self.new.acts ≡ A.made self.old.acts }
        ensures full { OnErr result (((A.keeper self.old.acts).numbers.generation ≡ 2 ^ 62)
            × (A.keeper self.new.acts ≡ A.keeper self.old.acts)) }
        ensures unlogged { OnErr result ((self.new.full ≡ self.old.full)
            × (self.new.entries.items ≡ self.old.entries.items) × (self.new.log.entries ≡ self.old.log.entries)) }
        ensures none_handed_on { OnErr result (A.logged self.new.acts ≡ A.logged self.old.acts) }
    {
        let drawn = self.acts.bump();
        if drawn.is_ok() {
            self.record(Entry::Did(Act::Bump));
        }
        drawn
    }

    fn look(&mut self) -> u64
        ensures looked { HasLooked (A.keeper self.old.acts) (A.keeper self.new.acts) }
        ensures least { result ≡ least_number (A.keeper self.new.acts).numbers }
        ensures marked { A.marked self.new.acts ≡ A.marked self.old.acts }
        ensures made { A.made self.new.acts ≡ A.made self.old.acts }
        ensures logged { Logs self.old.log.entries self.new.log.entries (Entry.Did Act.Look ∷ []) }
        ensures handed_on { Logs (A.logged self.old.acts) (A.logged self.new.acts) (Entry.Did Act.Look ∷ []) }
        ensures goes_on { (self.new.full ≡ false) ↔ ((self.old.full ≡ false)
            × (vec_len self.old.entries < vec_capacity self.old.entries)) }
    {
        let least = self.acts.look();
        self.record(Entry::Did(Act::Look));
        least
    }

    fn meet(&mut self, pass: &mut Pass)
        requires { pass.old.table ≡ (A.keeper self.old.acts).table }
        ensures met { HasMet pass.old (A.keeper self.old.acts) pass.new (A.keeper self.new.acts) }
        ensures marked { A.marked self.new.acts ≡ A.marked self.old.acts }
        ensures made { A.made self.new.acts ≡ A.made self.old.acts }
        ensures logged { self.new.log.entries ≡ self.old.log.entries }
        ensures none_handed_on { A.logged self.new.acts ≡ A.logged self.old.acts }
        ensures stays { (self.new.full ≡ self.old.full) × (self.new.entries ≡ self.old.entries) }
    {
        self.acts.meet(pass);
    }

    fn generation(&self) -> u64 {
        self.acts.generation()
    }
}
