//! Putting a chunk into a text while threads run in it.

ghost use Rattle.std.specs.Prelude.{◌≡◌, ◌≢◌, ◌<◌, ◌≤◌, [], ◌∷◌, length, take, vec_capacity, All, IsTrue, false};
ghost use Rattle.std.specs.Prelude.{IfOk, IfErr, OnOk, OnErr};
ghost use Rattle.nc_decode.specs.declared.instruction.Mark.{Mark};
ghost use Rattle.nc_text.specs.Marks.{IsClosed};
ghost use Rattle.nc_text.specs.Places.{limit_of};
ghost use Rattle.nc_text.specs.Ready.{AreReady, GetsReady};
ghost use Rattle.nc_text.specs.MarkedText.{IsText, with_marks, KeepsMarks, NamesRegister};
ghost use Rattle.nc_acts.specs.declared.acts.Act.{Act};
ghost use Rattle.nc_acts.specs.declared.acts.Entry.{Entry};
ghost use Rattle.nc_acts.specs.Log.{Logs, log_of_create};
ghost use Rattle.nc_acts.specs.Chunks.{HasGoodSpan, with_chunk};
ghost use Rattle.nc_region.specs.declared.fault.CreateFault.{CreateFault};
ghost use Rattle.nc_region.specs.Region.{IsRegion, MayRefuse};
ghost use Rattle.nc_region.specs.machinery.Between.{HasRoom};
ghost use Rattle.nc_region.specs.machinery.Creating.{CanPutChunk, HasPutChunk};

use crate::fault::CreateFault;
use crate::listing::free_place;
use nc_acts::Acts;
use nc_decode::Mark;
use nc_list::ChunkList;
use nc_vet::Vetted;
use std::alloc::{AllocError, Global};

/// The length in bytes up to which a chunk is small: its marks are listed in an array, not on the heap.
const SMALL: usize = 512;

/// Prepares the creation of a chunk: finds that its span is free, allocates room for a list of its marks if they are more than
/// `SMALL`, makes every place of its span ready, and enters the chunk in the list.
pub(crate) fn make_room<A: Acts>(
    acts: &mut A,
    chunks: &mut ChunkList,
    vetted: &Vetted,
) -> Result<Vec<Mark>, CreateFault>
    requires region { IsRegion (A.marked acts.old) chunks.old }
    ensures room { OnOk result (HasRoom (A.marked acts.old) (A.made acts.new) chunks.old chunks.new vetted.now) }
    ensures marks { IfOk result (λ room. (room.items ≡ []) × (512 < length vetted.now.code → length vetted.now.code ≤ vec_capacity room)) }
    ensures only { GetsReady (A.made acts.old) (A.made acts.new) vetted.now.base (length vetted.now.code) }
    ensures others { (A.marked acts.new ≡ A.marked acts.old) × (A.keeper acts.new ≡ A.keeper acts.old)
        × (A.logged acts.new ≡ A.logged acts.old) }
    ensures unlisted { OnErr result (chunks.new ≡ chunks.old) }
    // A refusal other than `OutOfMemory` leaves the pages unchanged too.
    ensures made { IfErr result (λ fault. fault ≢ CreateFault.OutOfMemory → A.made acts.new ≡ A.made acts.old) }
    ensures refused { IfErr result (λ fault. MayRefuse
        (record {
          marked = A.marked acts.old;
          made = A.made acts.old;
          chunks = chunks.old;
          keeper = A.keeper acts.old;
          logged = A.logged acts.old;
        }) vetted.now fault) }
{
    if vetted.limit() != acts.limit() {
        return Err(CreateFault::WrongLimit);
    }
    let base = vetted.base();
    let length = vetted.code().len() as u32;
    let Some(place) = free_place(chunks, base, length) else {
        return Err(CreateFault::Occupied);
    };
    let Ok(room) = list_room(chunks.allocator(), length as usize) else {
        return Err(CreateFault::OutOfMemory);
    };
    if acts.ready(base, length).is_err() {
        return Err(CreateFault::OutOfMemory);
    }
    if chunks.insert(base, length, place).is_err() {
        return Err(CreateFault::OutOfMemory);
    }
    Ok(room)
}

/// Room for a list of this many marks, or none if they are at most `SMALL`.
fn list_room(alloc: Global, length: usize) -> Result<Vec<Mark>, AllocError>
    ensures room { IfOk result (λ room. (room.items ≡ []) × (512 < length → length ≤ vec_capacity room)) }
    // A small chunk takes no room on the heap.
    ensures none { IfOk result (λ room. length ≤ 512 → vec_capacity room ≡ 0) }
{
    if length <= SMALL {
        return Ok(Vec::new(alloc));
    }
    Vec::with_capacity(alloc, length)
}

/// Creates a chunk that is closed by itself in an unused span: from bits if both sides keep them, otherwise act by act. `room` is for
/// a list of more than `SMALL` marks. From bits (`put_by_bits`, `put_bundles`, `change` of `nc_text`) whole spans are copied in no order,
/// since nobody executes that text. The order of bytes is that of the log of acts (`Acts::put_bundles`).
pub(crate) fn put_chunk<A: Acts>(
    acts: &mut A,
    base: u32,
    code: &[u8],
    vetted: &Vetted,
    room: Vec<Mark>,
)
    requires can { CanPutChunk (A.marked acts.old) (A.made acts.old) base code.now vetted.now.marks }
    requires code { code.now ≡ vetted.now.code }
    requires room { (room.items ≡ []) × (512 < length code.now → length code.now ≤ vec_capacity room) }
    requires registers { All NamesRegister vetted.now.marks }
    ensures put { HasPutChunk (A.marked acts.old) (A.marked acts.new) (A.logged acts.old) (A.logged acts.new) base code.now
        vetted.now.marks }
    ensures made { A.made acts.new ≡ A.made acts.old }
    ensures keeper { A.keeper acts.new ≡ A.keeper acts.old }
{
    if put_by_bits(acts, base, code, vetted) {
        return;
    }
    put_listed(acts, base, code, vetted, room);
}

/// Creates a chunk from bits if both sides keep them, and returns whether they do.
fn put_by_bits<A: Acts>(acts: &mut A, base: u32, code: &[u8], vetted: &Vetted) -> bool
    requires can { CanPutChunk (A.marked acts.old) (A.made acts.old) base code.now vetted.now.marks }
    requires code { code.now ≡ vetted.now.code }
    ensures marked { IsTrue result → A.marked acts.new ≡ with_chunk (A.marked acts.old) base code.now vetted.now.marks }
    ensures log { IsTrue result → Logs (A.logged acts.old) (A.logged acts.new) (log_of_create base code.now) }
    ensures unchanged { result ≡ false → (A.marked acts.new ≡ A.marked acts.old)
        × (A.logged acts.new ≡ A.logged acts.old) }
    ensures made { A.made acts.new ≡ A.made acts.old }
    ensures whole { IsText (A.marked acts.new) }
    ensures keeper { A.keeper acts.new ≡ A.keeper acts.old }
{
    match vetted.bundles() {
        Some(bundles) => acts.put_bundles(base, code, bundles),
        None => false,
    }
}

/// Creates a chunk act by act, with its marks from a list. It isn't inlined, so that it costs nothing where chunks are put from bits.
#[inline(never)]
fn put_listed<A: Acts>(acts: &mut A, base: u32, code: &[u8], vetted: &Vetted, room: Vec<Mark>)
    requires can { CanPutChunk (A.marked acts.old) (A.made acts.old) base code.now vetted.now.marks }
    requires code { code.now ≡ vetted.now.code }
    requires room { (room.items ≡ []) × (512 < length code.now → length code.now ≤ vec_capacity room) }
    requires registers { All NamesRegister vetted.now.marks }
    ensures put { HasPutChunk (A.marked acts.old) (A.marked acts.new) (A.logged acts.old) (A.logged acts.new) base code.now
        vetted.now.marks }
    ensures made { A.made acts.new ≡ A.made acts.old }
    ensures keeper { A.keeper acts.new ≡ A.keeper acts.old }
{
    acts.put_where(base, code, false);
    acts.serialize();
    mark_listed(acts, base, vetted, room);
    acts.put_where(base, code, true);
}

/// Sets the marks of a chunk's span from a list: in an array if they are at most `SMALL`, otherwise in the room for them.
fn mark_listed<A: Acts>(acts: &mut A, base: u32, vetted: &Vetted, room: Vec<Mark>)
    requires room { (room.items ≡ []) × (512 < length vetted.now.code → length vetted.now.code ≤ vec_capacity room) }
    requires whole { IsText (A.marked acts.old) }
    requires placed { HasGoodSpan base (limit_of (A.marked acts.old).bytes) (length vetted.now.code) }
    requires as_long { length vetted.now.marks ≡ length vetted.now.code }
    requires ready { AreReady (A.made acts.old) base (length vetted.now.code) }
    requires registers { All NamesRegister vetted.now.marks }
    requires keeps { KeepsMarks (A.marked acts.old).marks (with_marks (A.marked acts.old) base vetted.now.marks).marks }
    requires closed { IsClosed (A.marked acts.old).bytes (with_marks (A.marked acts.old) base vetted.now.marks).marks }
    ensures marked { A.marked acts.new ≡ with_marks (A.marked acts.old) base vetted.now.marks }
    ensures made { A.made acts.new ≡ A.made acts.old }
    ensures whole { IsText (A.marked acts.new) }
    ensures keeper { A.keeper acts.new ≡ A.keeper acts.old }
    ensures logged { Logs (A.logged acts.old) (A.logged acts.new) (Entry.Did (Act.MarkSpan base (length vetted.now.code)) ∷ []) }
{
    let length = vetted.code().len();
    if length <= SMALL {
        let mut marks = [Mark::Unmarked; SMALL];
        list_into(&mut marks, vetted);
        acts.mark_span(base, &marks[..length]);
        return;
    }
    let marks = listed(vetted, room);
    acts.mark_span(base, &marks);
}

/// Writes the marks of a chunk over the first elements of a slice that is no shorter.
fn list_into(marks: &mut [Mark], vetted: &Vetted)
    requires fits { length vetted.now.code ≤ length marks.old }
    requires as_long { length vetted.now.marks ≡ length vetted.now.code }
    ensures listed { take (length vetted.now.code) marks.new ≡ vetted.now.marks }
    ensures as_long { length marks.new ≡ length marks.old }
{
    for i in 0..vetted.code().len() {
        marks[i] = vetted.mark(i);
    }
}

/// The marks of a chunk, in a list that has room for them.
fn listed(vetted: &Vetted, room: Vec<Mark>) -> Vec<Mark>
    requires room { (room.items ≡ []) × (length vetted.now.code ≤ vec_capacity room) }
    requires as_long { length vetted.now.marks ≡ length vetted.now.code }
    ensures { result.items ≡ vetted.now.marks }
{
    let mut marks = room;
    for i in 0..vetted.code().len() {
        marks.push_reserved(vetted.mark(i));
    }
    marks
}
