//! The calls that change a region that owns everything it needs, with the acts of each change.

ghost use Rattle.std.specs.Prelude.{◌≡◌, ◌+◌, ◌*◌, ◌^◌, ◌<◌, ◌≤◌, ◌↔◌, ℕ, List, IfOk, IfErr, IfSome, IsNone, IsTrue, OnOk, OnErr, OnSome, None, length, slice_index};
ghost use Rattle.nc_text.specs.Places.{limit_of};
ghost use Rattle.nc_vet.specs.Chunk.{MarkedChunk, Piece};
ghost use Rattle.nc_vet.specs.Faults.{HasGoodSpan};
ghost use Rattle.nc_acts.specs.Log.{Logs, log_of_create, log_of_delete};
ghost use Rattle.nc_region.specs.Patch.{AreBytesOf, IsPatched, IsPatch, log_of_patch};
ghost use Rattle.nc_region.specs.Region.{IsCreated, Meets, IsRegion};
ghost use Rattle.nc_histories.specs.Calls.{no_details};
ghost use Rattle.nc_histories.specs.Histories.{LogsCall};
ghost use Rattle.nc_host_acts.specs.Standing.{AreBytesAt};
ghost use Rattle.nc_host_handles.specs.RegionHandle.{IsLiveAt, IsShort, IsShortForPatch, HasBegunDeletion, HasEndedDeletion, IsNotLoaded, MayRefuseBegin, MayRefuseLoad, MayRefuseHandlePatch};
ghost use Rattle.nc_host_handles.specs.Pending.{ReportsPending, DoesItself};
ghost use Rattle.nc_host_handles.specs.Lent.{IsReported, bytes_of_span};
ghost use Rattle.nc_host_handles.specs.machinery.Window.{HoldsText};

use crate::fault::{LoadFault, PatchFault, RetireFault};
use crate::region_handle::{HandleActs, RegionHandle};
use crate::span::Span;
use nc_decode::START;
use nc_gens::LAST_GENERATION;
use nc_host_acts::{NcAct, write_creation, write_deletion, write_patch};
use nc_region::{Acts, Chunk, DeleteFault, RegionOf};
use nc_vet::Vetted;

/// Whether a buffer is lent and has less room than this.
fn is_short(room: usize, wanted: usize) -> bool
    ensures { IsTrue result ↔ IsShort room wanted }
{
    0 < room && room < wanted
}

/// Whether the buffer for a patch of at most 32 bytes has less room than three acts for each new byte.
fn is_short_for_patch(room: usize, len: usize) -> bool
    ensures { IsTrue result ↔ IsShortForPatch room len }
{
    len <= 32 && room < 3 * len
}

/// How many bytes of the text a patch of this many bytes has to know from before it. One of more than 32 bytes is refused.
fn bytes_before(len: usize) -> u32
    ensures most { result ≤ 32 }
    ensures all { len ≤ 32 → result ≡ len }
{
    if len > 32 { 0 } else { len as u32 }
}

/// Writes the acts of a patch. Returns the number written.
fn report_patch(acts: &mut [NcAct], at: u32, before: &[u8], new: &[u8]) -> usize
    requires long { length new.now ≤ length before.now }
    requires high { at + length before.now < 2 ^ 32 }
    requires room { 3 * length new.now ≤ length acts.old }
    ensures { (text : List ℕ) (news : List Piece) → AreBytesAt text at before.now → AreBytesOf new.now news
        → IsReported acts.old acts.new result (log_of_patch text at news) }
{
    write_patch(acts, 0, at, before, 0, new)
}

/// Writes the acts of the creation of the chunk in a span if a buffer is lent. Returns the number written.
fn report_creation(acts: &mut [NcAct], span: &Span) -> usize
    requires room { ¬ IsShort (length acts.old) (span.now.length + 2) }
    ensures { IsReported acts.old acts.new result
        (log_of_create span.now.base (bytes_of_span span.now.region.now.marked.bytes span.now.base span.now.length)) }
{
    if acts.is_empty() {
        return 0;
    }
    write_creation(acts, span.base, span);
    span.length as usize + 2
}

/// Writes the acts of the deletion of the chunk in a span if a buffer is lent. Returns the number written.
fn report_deletion(acts: &mut [NcAct], span: &Span) -> usize
    requires room { ¬ IsShort (length acts.old) (span.now.length + 2) }
    ensures { IsReported acts.old acts.new result (log_of_delete span.now.region.now.marked.marks span.now.base span.now.length) }
{
    if acts.is_empty() {
        return 0;
    }
    write_deletion(acts, span.base, span);
    span.length as usize + 2
}

/// The checks made before a region is changed.
impl RegionHandle {
    /// Checks that no deletion is under way, and that a lent buffer has room for the acts of this chunk's creation.
    fn check_load(&self, vetted: &Vetted, room: usize) -> Result<(), LoadFault>
        ensures allowed { OnOk result ((self.now.begun ≡ None) × ¬ IsShort room (length vetted.now.code + 2)) }
        ensures refused { IfErr result (λ fault. MayRefuseLoad self.now vetted.now room fault × IsNotLoaded self.now self.now vetted.now fault) }
    {
        let wanted = vetted.code().len() + 2;
        if self.begun.is_some() {
            return Err(LoadFault::Underway);
        }
        if is_short(room, wanted) {
            return Err(LoadFault::NoRoom(wanted));
        }
        Ok(())
    }

    /// Checks that no deletion is under way, and that the buffer has room for the acts of a patch with these bytes, at any address.
    fn check_patch(&self, new: &[u8], room: usize) -> Result<(), PatchFault>
        ensures allowed { OnOk result ((self.now.begun ≡ None) × ¬ IsShortForPatch room (length new.now)) }
        ensures refused { IfErr result (λ fault. (at : ℕ) → MayRefuseHandlePatch self.now at new.now room fault) }
    {
        if self.begun.is_some() {
            return Err(PatchFault::Underway);
        }
        if is_short_for_patch(room, new.len()) {
            return Err(PatchFault::NoRoom(3 * new.len()));
        }
        Ok(())
    }

    /// The live chunk with this base, if no deletion is under way, a stamp is left, and a lent buffer has room for its acts.
    fn check_begin(&self, base: u32, room: usize) -> Result<Chunk, RetireFault>
        ensures live { IfOk result (IsLiveAt self.now.region.chunks base) }
        ensures placed { IfOk result (λ c. HasGoodSpan c.base (limit_of self.now.region.marked.bytes) c.length) }
        ensures stamp { OnOk result (self.now.region.keeper.numbers.generation < 2 ^ 62) }
        ensures none { OnOk result (self.now.begun ≡ None) }
        ensures allowed { IfOk result (λ c. ¬ IsShort room (c.length + 2)) }
        ensures refused { IfErr result (MayRefuseBegin self.now base room) }
    {
        if self.begun.is_some() {
            return Err(RetireFault::Underway);
        }
        let Some(chunk) = self.region.live_at(base) else {
            return Err(RetireFault::Refused(DeleteFault::NoChunk));
        };
        if self.generation() >= LAST_GENERATION {
            return Err(RetireFault::Refused(DeleteFault::GensFull));
        }
        let wanted = chunk.length as usize + 2;
        if is_short(room, wanted) {
            return Err(RetireFault::NoRoom(wanted));
        }
        Ok(chunk)
    }
}

impl RegionHandle {
    /// `RegionOf::create`, which also writes its acts into the buffer, with the serialization among them: two more than the chunk
    /// has bytes. An empty buffer counts as none. Returns the number of acts written.
    ///
    /// A refusal returns the chunk and changes nothing, except that a lack of memory may leave pages of the chunk's span
    /// allocated.
    pub fn create(
        &mut self,
        vetted: Vetted,
        acts: &mut [NcAct],
    ) -> Result<usize, (Vetted, LoadFault)>
        // The span holds the chunk's code and marks, and the chunk is in the list; all else is as before.
        ensures created { OnOk result (IsCreated self.old.region self.new.region vetted) }
        ensures others { OnOk result (self.new ≡ record self.old { region = self.new.region }) }
        // No deletion was under way, and a lent buffer had room for the acts.
        ensures allowed { OnOk result ((self.old.begun ≡ None) × ¬ IsShort (length acts.old) (length vetted.code + 2)) }
        // The chunk was vetted for this region's limit, and its span overlapped no chunk.
        ensures free { OnOk result ((vetted.limit ≡ limit_of self.old.region.marked.bytes)
            × ¬ Meets vetted.base (length vetted.code) self.old.region.chunks) }
        // The acts written are those of a creation, with the serialization.
        ensures reported { IfOk result (λ count. IsReported acts.old acts.new count (log_of_create vetted.base vetted.code)) }
        // So are those logged, and they are a call of a history, in which the span gets the chunk's marks.
        ensures log { OnOk result (Logs self.old.region.logged self.new.region.logged (log_of_create vetted.base vetted.code)) }
        ensures call { (seats : ℕ) → OnOk result
            (LogsCall seats (record no_details { marks = vetted.marks }) self.old.region self.new.region) }
        // The acts in the buffer are then pending.
        ensures pending { IfOk result (ReportsPending self.old self.new vetted acts.old acts.new) }
        // The chunk is returned, and the buffer is as it was.
        ensures unchanged { IfErr result (λ e. (e.0 ≡ vetted) × IsNotLoaded self.old self.new vetted e.1) }
        ensures untouched { OnErr result (acts.new ≡ acts.old) }
        // Each refusal is returned exactly when it is due.
        ensures refused { IfErr result (λ e. MayRefuseLoad self.old vetted (length acts.old) e.1) }
    {
        if let Err(fault) = self.check_load(&vetted, acts.len()) {
            return Err((vetted, fault));
        }
        let base = vetted.base();
        let length = vetted.code().len() as u32;
        if let Err((vetted, fault)) = nc_histories::create(&mut self.region, vetted) {
            return Err((vetted, LoadFault::Refused(fault)));
        }
        let span = Span {
            region: &self.region,
            base,
            length,
        };
        Ok(report_creation(acts, &span))
    }

    /// `RegionOf::modify`, which also writes its acts into the buffer, with the serializations among them: at most three for each
    /// new byte. Since no other call writes them, an empty buffer is too short. Returns the number of acts written. It takes no
    /// memory, and a refusal changes nothing.
    pub fn patch(&mut self, at: u32, new: &[u8], acts: &mut [NcAct]) -> Result<usize, PatchFault>
        // The new bytes are in place; all else is as before.
        ensures patched { OnOk result (IsPatched self.old.region self.new.region at new.now) }
        ensures others { OnOk result (self.new ≡ record self.old { region = self.new.region }) }
        // Only lawful patches are made.
        ensures lawful { OnOk result (IsPatch self.old.region at new.now) }
        // No deletion was under way, and a buffer was lent, with room for three acts for each byte.
        ensures allowed { OnOk result ((self.old.begun ≡ None) × ¬ IsShortForPatch (length acts.old) (length new.now)) }
        ensures lent { OnOk result (0 < length acts.old) }
        // The acts written are those of a patch of the region's own bytes, with the serializations.
        ensures reported { IfOk result (λ count. (news : List Piece) → AreBytesOf new.now news
            → IsReported acts.old acts.new count (log_of_patch self.old.region.marked.bytes at news)) }
        // So are those logged, and they are a call of a history.
        ensures log { OnOk result ((news : List Piece) → AreBytesOf new.now news
            → Logs self.old.region.logged self.new.region.logged (log_of_patch self.old.region.marked.bytes at news)) }
        ensures call { (seats : ℕ) → OnOk result (LogsCall seats no_details self.old.region self.new.region) }
        // The acts in the buffer are then pending.
        ensures pending { (v : MarkedChunk) → IfOk result (ReportsPending self.old self.new v acts.old acts.new) }
        ensures unchanged { OnErr result (self.new ≡ self.old) }
        ensures untouched { OnErr result (acts.new ≡ acts.old) }
        // Each refusal is returned exactly when it is due.
        ensures refused { IfErr result (MayRefuseHandlePatch self.old at new.now (length acts.old)) }
    {
        if let Err(fault) = self.check_patch(new, acts.len()) {
            return Err(fault);
        }
        let before = read_window(&self.region, at, bytes_before(new.len()));
        if let Err(fault) = nc_histories::patch(&mut self.region, at, new) {
            return Err(PatchFault::Refused(fault));
        }
        Ok(report_patch(acts, at, &before[..new.len()], new))
    }

    /// The last call of a deletion: it deletes the chunk, as `RegionOf::delete` does, and returns the stamp. If no deletion is under
    /// way, it returns none and changes nothing. It takes no memory.
    pub fn end_delete(&mut self) -> Option<u64>
        // While a deletion is under way, it is never refused. The acts of the deletion are logged now, the stamp last.
        ensures ended { IfSome result (HasEndedDeletion self.old self.new) }
        // Only the stamp is pending, which the library draws itself.
        ensures pending { (seats : ℕ) → OnSome result (DoesItself seats self.old self.new) }
        ensures none { IsNone result ↔ (self.old.begun ≡ None) }
        ensures unchanged { IsNone result → self.new ≡ self.old }
    {
        let Some(chunk) = self.begun else {
            return None;
        };
        // Called for its postconditions.
        let _facts = self.chunk_count();
        match nc_histories::delete(&mut self.region, chunk.base) {
            Ok(stamp) => {
                self.begun = None;
                Some(stamp)
            }
            Err(_) => unreachable!(),
        }
    }

    /// The first call of a deletion: writes its acts, which are the stops, the serialization among them and the stamp, two more
    /// than the chunk has bytes. Nothing else changes. The host makes them, and then `end_delete` draws the stamp; until then
    /// every call that changes the region is refused. An empty buffer counts as none. Returns the chunk and the number of acts
    /// written. It takes no memory.
    pub fn begin_delete(
        &mut self,
        base: u32,
        acts: &mut [NcAct],
    ) -> Result<(Chunk, usize), RetireFault>
        ensures begun { IfOk result (λ r. HasBegunDeletion self.old self.new base r.0) }
        // A lent buffer had room for the acts.
        ensures allowed { IfOk result (λ r. ¬ IsShort (length acts.old) (r.0.length + 2)) }
        // The acts written are those of a deletion, by the region's own marks, with the serialization.
        ensures reported { IfOk result (λ r. IsReported acts.old acts.new r.1 (log_of_delete self.old.region.marked.marks base r.0.length)) }
        // The acts in the buffer, up to the stamp, are then pending.
        ensures pending { (v : MarkedChunk) → IfOk result (λ r. ReportsPending self.old self.new v acts.old acts.new r.1) }
        ensures unchanged { OnErr result (self.new ≡ self.old) }
        ensures untouched { OnErr result (acts.new ≡ acts.old) }
        // Each refusal is returned exactly when it is due.
        ensures refused { IfErr result (MayRefuseBegin self.old base (length acts.old)) }
    {
        let chunk = match self.check_begin(base, acts.len()) {
            Ok(chunk) => chunk,
            Err(fault) => return Err(fault),
        };
        self.begun = Some(chunk);
        let span = Span {
            region: &self.region,
            base,
            length: chunk.length,
        };
        Ok((chunk, report_deletion(acts, &span)))
    }
}

/// The region's first `count` bytes from an address on, and then 0; also 0 after its end, and all 0 where the address is
/// outside.
pub(crate) fn read_window(region: &RegionOf<HandleActs>, at: u32, count: u32) -> [u8; 32]
    requires { count ≤ 32 }
    ensures read { HoldsText region.now.marked.bytes at result count }
    ensures region { IsRegion region.now.marked region.now.chunks }
{
    let mut bytes = [0; 32];
    let limit = region.limit();
    if at < START || at >= limit {
        return bytes;
    }
    for i in 0..count {
        if i < limit - at {
            bytes[i as usize] = region.byte(at + i);
        }
    }
    bytes
}
