//! A region: a text, changed by acts, and the list of its chunks.

ghost use Rattle.std.specs.Prelude.{◌≡◌, ◌↔◌, ◌++◌, List, length, [], None, OnOk, OnErr, IfOk, IfErr, IfSome, IsNone, Contains, slice_get};
ghost use Rattle.nc_text.specs.Machine.{IsConfined};
ghost use Rattle.nc_text.specs.Marks.{mark_at};
ghost use Rattle.nc_text.specs.Places.{InRegion, byte_at, limit_of};
ghost use Rattle.nc_decode.specs.Bundles.{IsLawfulLimit, limit_after};
ghost use Rattle.nc_text.specs.MarkedText.{unused_text};
ghost use Rattle.nc_text.specs.Ready.{unmade_pages};
ghost use Rattle.nc_list.specs.declared.chunk.ChunkState.{ChunkState};
ghost use Rattle.nc_acts.specs.Acts.{acts_of_create};
ghost use Rattle.nc_acts.specs.Log.{Logs, log_of_create};
ghost use Rattle.nc_gens.specs.Seen.{HasMet};
ghost use Rattle.nc_region.specs.Quiet.{AreQuiet};
ghost use Rattle.nc_region.specs.Deletion.{HasLive, IsDeleted, MayRefuseDelete, IsReclaimed, HasProgressed};
ghost use Rattle.nc_vet.specs.Faults.{HasGoodSpan};
ghost use Rattle.nc_region.specs.Region.{Region, IsRegion, AreChunksReady, IsNew, IsAboveAll, IsNextChunk, IsCreated, IsRefused, MayRefuse, Meets, told};
ghost use Rattle.nc_vet.specs.Chunk.{Piece};
ghost use Rattle.nc_region.specs.Patch.{IsPatch, MayRefusePatch, IsPatched, AreBytesOf, acts_of_patch, log_of_patch};
ghost use Rattle.nc_region.specs.Trace.{IsTrace, IsOnlyTrace, IsSafeWalk, IsWalkStart, MayRefuseWalk};

use crate::create::{make_room, put_chunk};
use crate::delete::put_stops;
use crate::fault::{CreateFault, DeleteFault, ModifyFault, RegionFault, WalkFault};
use crate::listing::{holder, live_at, live_place};
use crate::patch::{is_patch_span, mark_within, patch};
use crate::reclaim::free_due;
use crate::trace::Trace;
use crate::walk::walk_from;
use nc_acts::{Acts, Plain};
use nc_decode::{BUNDLE, Mark, START};
use nc_gens::{Gens, Keeper, LAST_GENERATION, Pass};
use nc_list::{Chunk, ChunkList};
use nc_text::{Text, TextFault};
use nc_vet::Vetted;
use std::alloc::{AllocError, Global};
use std::marker::Model;

/// A region over a text of its own and a borrowed table of generations.
pub type Region<'g> = RegionOf<Plain<'g>>;

/// A region of code from 00010000 to its limit, reached only through `A`.
///
/// Every value of the type is confined: each path through its text that begins at a bundle start has only safe states. A
/// live chunk's bytes and marks are those of a valid chunk; all other bytes are F4, and outside chunks only bundle starts
/// are marked. Chunks are listed by ascending base and never overlap.
#[derive(Drop)]
pub struct RegionOf<A: Acts + Drop> {
    acts: A,
    chunks: ChunkList,
}

impl<A: Acts + Drop> Model for RegionOf<A> {
    ghost use Rattle.nc_region.specs.Region.{Region, IsRegion, AreChunksReady};

    ghost Value = { Region };

    ghost view = { λ r. record {
      marked = A.marked r.acts;
      made = A.made r.acts;
      chunks = r.chunks;
      keeper = A.keeper r.acts;
      logged = A.logged r.acts;
    } };

    ghost invariant = { λ r. IsRegion (A.marked r.acts) r.chunks × AreChunksReady (A.made r.acts) r.chunks };
}

impl<'g> RegionOf<Plain<'g>> {
    /// A region of this many bundles over a table of generations, without a chunk. Its last bundle is the guard, which no chunk
    /// may use. A refusal gives the keeper back. It is `BadSize` exactly if the size isn't lawful, and otherwise
    /// `OutOfMemory`.
    pub fn new(
        alloc: Global,
        bundles: u32,
        gens: &'g Gens,
        keeper: Keeper,
    ) -> Result<Region<'g>, (Keeper, RegionFault)>
        requires { keeper.table ≡ gens.now }
        // The size is refused exactly if it is unlawful.
        ensures lawful { OnOk result (IsLawfulLimit (limit_after bundles)) }
        ensures size { IfErr result (λ e. (e.1 ≡ RegionFault.BadSize) ↔ ¬ IsLawfulLimit (limit_after bundles)) }
        ensures given_back { IfErr result (λ e. e.0 ≡ keeper) }
        ensures region { IfOk result (λ r. r
            ≡ record {
              marked = unused_text (limit_after bundles);
              made = unmade_pages (limit_after bundles);
              chunks = [];
              keeper = keeper;
              logged = [];
            }) }
        ensures confined { IfOk result (λ r. IsConfined r.marked.bytes) }
    {
        match Text::new(alloc, bundles) {
            Ok(text) => Ok(RegionOf::over(alloc, Plain::new(text, gens, keeper))),
            Err(TextFault::BadSize) => Err((keeper, RegionFault::BadSize)),
            Err(TextFault::OutOfMemory) => Err((keeper, RegionFault::OutOfMemory)),
        }
    }

    /// The table of generations.
    pub(crate) fn gens(&self) -> &'g Gens
        ensures { result.now ≡ self.now.keeper.table }
    {
        let acts = &self.acts;
        acts.gens()
    }
}

impl<A: Acts + Drop> RegionOf<A> {
    /// A region over a new text, without a chunk. No memory is allocated.
    pub fn over(alloc: Global, acts: A) -> RegionOf<A>
        requires { IsNew (A.marked acts) }
        ensures { result ≡ record {
          marked = A.marked acts;
          made = A.made acts;
          chunks = [];
          keeper = A.keeper acts;
          logged = A.logged acts;
        } }
    {
        RegionOf {
            acts,
            chunks: ChunkList::new(alloc),
        }
    }

    /// The `Acts` behind this region, for example to read the entries of a `Recorder`.
    pub fn acts(&self) -> &A
        ensures marked { A.marked result.now ≡ self.now.marked }
        ensures made { A.made result.now ≡ self.now.made }
        ensures keeper { A.keeper result.now ≡ self.now.keeper }
        ensures logged { A.logged result.now ≡ self.now.logged }
    {
        &self.acts
    }

    /// The address after the region's last byte.
    pub fn limit(&self) -> u32
        ensures limit { result ≡ limit_of self.now.marked.bytes }
        ensures region { IsRegion self.now.marked self.now.chunks }
    {
        self.acts.limit()
    }

    /// The byte at an address of the region.
    pub fn byte(&self, at: u32) -> u8
        requires { InRegion self.now.marked.bytes at }
        ensures { result ≡ byte_at self.now.marked.bytes at }
    {
        self.acts.byte(at)
    }

    /// The mark at an address of the region.
    pub fn mark(&self, at: u32) -> Mark
        requires { InRegion self.now.marked.bytes at }
        ensures { result ≡ mark_at self.now.marked.marks at }
    {
        self.acts.mark(at)
    }

    /// The number of chunks, live and retired. Every path through the text is safe, and every retired span is quiet: its bytes
    /// are stops, and no thread outside can enter it except at a bundle start. Every place of a chunk is ready.
    pub fn chunk_count(&self) -> usize
        ensures count { result ≡ length self.now.chunks }
        ensures confined { IsConfined self.now.marked.bytes }
        ensures quiet { AreQuiet self.now.marked self.now.chunks }
        ensures ready { AreChunksReady self.now.made self.now.chunks }
        ensures region { IsRegion self.now.marked self.now.chunks }
    {
        self.chunks.len()
    }

    /// The chunk at an index of the list, if there is one.
    pub fn chunk(&self, i: usize) -> Option<Chunk>
        ensures { result ≡ slice_get self.now.chunks i }
    {
        self.chunks.get(i)
    }

    /// The chunk, live or retired, that has this address, or else the first one above it, if there is one.
    pub fn chunk_at(&self, at: u32) -> Option<Chunk>
        ensures found { IfSome result (IsNextChunk self.now.chunks at) }
        // Each chunk ends at or below the address.
        ensures none { IsNone result → IsAboveAll at self.now.chunks }
        // The chunk's span is whole bundles of the region.
        ensures placed { IfSome result (λ c. HasGoodSpan c.base (limit_of self.now.marked.bytes) c.length) }
    {
        // Names a field, so that the first return is checked against the fields and not the whole.
        let _open = &self.acts;
        self.chunks.chunk_at(at)
    }

    /// The live chunk of this base, if there is one, by binary search.
    pub fn live_at(&self, base: u32) -> Option<Chunk>
        ensures found { IfSome result (λ c. Contains self.now.chunks c × (c.state ≡ ChunkState.Live) × (c.base ≡ base)) }
        ensures none { IsNone result → ¬ HasLive self.now.chunks base }
        // The chunk's span is whole bundles of the region.
        ensures placed { IfSome result (λ c. HasGoodSpan c.base (limit_of self.now.marked.bytes) c.length) }
    {
        live_at(&self.chunks, base)
    }

    /// Creates a chunk while threads may be running: makes the pages of its span, puts its bytes that aren't at bundle starts,
    /// serializes, sets its marks, then puts its bytes at bundle starts. A refusal gives the chunk back and leaves the region as
    /// it was, except that if memory ran out some of these pages may have been made.
    pub fn create(&mut self, vetted: Vetted) -> Result<(), (Vetted, CreateFault)>
        // The span holds the chunk's code and marks, and the chunk is in the list; all else is as before.
        ensures created { OnOk result (IsCreated self.old self.new vetted) }
        // Exactly the acts of a creation are told.
        ensures acts { OnOk result (told self.new ≡ told self.old ++ acts_of_create vetted.base vetted.code) }
        // The region serialized once, before the marks were set.
        ensures log { OnOk result (Logs self.old.logged self.new.logged (log_of_create vetted.base vetted.code)) }
        // The chunk was vetted for this region's limit, and no chunk was in its span.
        ensures free { OnOk result ((vetted.limit ≡ limit_of self.old.marked.bytes)
            × ¬ Meets vetted.base (length vetted.code) self.old.chunks) }
        // Text, marks, chunks and acts are as before, and the chunk is given back.
        ensures unchanged { IfErr result (λ e. (e.0 ≡ vetted) × IsRefused self.old self.new vetted e.1) }
        // Each refusal is returned only if it applies.
        ensures refused { IfErr result (λ e. MayRefuse self.old vetted e.1) }
        ensures confined { IsConfined self.new.marked.bytes }
    {
        let room = match make_room(&mut self.acts, &mut self.chunks, &vetted) {
            Ok(room) => room,
            Err(fault) => return Err((vetted, fault)),
        };
        put_chunk(&mut self.acts, vetted.base(), vetted.code(), &vetted, room);
        Ok(())
    }

    /// Replaces instructions of a live chunk with others of the same lengths while threads may be running, one after the other
    /// in ascending order. An instruction whose bytes stay the same gets no put, and one of a single byte gets one. For a
    /// longer one a stop is put at its first byte, then its further bytes are put, then its first byte; the region serializes
    /// before and after the further bytes. A refusal changes nothing. No memory is allocated.
    ///
    /// The new bytes must be instructions in one bundle, each as long as the one it replaces, and their direct transfers must
    /// follow the rule of a valid chunk. The mask of an indirect transfer keeps its bytes, and a new instruction is an indirect
    /// transfer exactly if the old one is, and on the same register: a masked jump may become a masked call, and vice versa.
    pub fn modify(&mut self, at: u32, new: &[u8]) -> Result<(), ModifyFault>
        // The new bytes are in their place; all else is as before.
        ensures modified { OnOk result (IsPatched self.old self.new at new.now) }
        // Exactly the acts of a patch are told.
        ensures acts { OnOk result ((news : List Piece) → AreBytesOf new.now news
            → told self.new ≡ told self.old ++ acts_of_patch self.old.marked.bytes at news) }
        // The region serialized twice for each instruction of more than one byte that was replaced.
        ensures log { OnOk result ((news : List Piece) → AreBytesOf new.now news
            → Logs self.old.logged self.new.logged (log_of_patch self.old.marked.bytes at news)) }
        // Only lawful patches are made.
        ensures lawful { OnOk result (IsPatch self.old at new.now) }
        // Text, marks, chunks and acts are as before.
        ensures unchanged { IfErr result (λ e. self.new ≡ self.old) }
        // Each refusal is returned exactly if it applies.
        ensures refused { IfErr result (MayRefusePatch self.old at new.now) }
        ensures confined { IsConfined self.new.marked.bytes }
    {
        // Names a field, so that the first return is checked against the fields and not the whole.
        let _open = &self.chunks;
        if !is_patch_span(at, new.len()) {
            return Err(ModifyFault::BadSpan);
        }
        // The mark is read before the search for the chunk, so that both wait for memory at the same time.
        let mark = mark_within(&self.acts, at);
        let Some(chunk) = holder(&self.chunks, at) else {
            return Err(ModifyFault::NotLive);
        };
        if let Err(fault) = patch(&mut self.acts, chunk, at, mark, new) {
            return Err(fault);
        }
        Ok(())
    }

    /// Deletes the live chunk with this base: puts stops at its marked places, serializes, puts stops at its other places, each in
    /// ascending order, then draws a stamp and returns it. The chunk stays in the list, retired with that stamp, and keeps its
    /// marks until `reclaim` frees it, which needs every seat to have checked in since or left. A refusal changes nothing. No
    /// memory is allocated.
    pub fn delete(&mut self, base: u32) -> Result<u64, DeleteFault>
        // The chunk's bytes are stops, and it is retired with the returned stamp; all else is as before. Exactly the acts of a
        // deletion are told and logged.
        ensures deleted { IfOk result (IsDeleted self.old self.new base) }
        // Text, marks, chunks, keeper and acts are as before.
        ensures unchanged { OnErr result (self.new ≡ self.old) }
        // Each refusal is returned exactly if it applies.
        ensures refused { IfErr result (MayRefuseDelete self.old base) }
        ensures confined { IsConfined self.new.marked.bytes }
    {
        let Some((chunk, place)) = live_place(&self.chunks, base) else {
            return Err(DeleteFault::NoChunk);
        };
        if self.acts.generation() >= LAST_GENERATION {
            return Err(DeleteFault::GensFull);
        }
        let stamp = put_stops(&mut self.acts, base, chunk.length);
        self.chunks.retire(base, stamp, place);
        Ok(stamp)
    }

    /// Looks at the seats' words, as `Gens::look` does. Unmarks every retired chunk with a stamp of at most the number that the look
    /// returns, in ascending order, removes these chunks from the list, and returns their number. Their spans may be used
    /// again. No memory is allocated, and the call can't fail.
    ///
    /// Not promised: that a seat ever checks in or leaves. Until then it holds back every later stamp.
    pub fn reclaim(&mut self) -> u32
        // Exactly the chunks that are due have been removed; the keeper has looked, and all else is as before. Exactly the acts
        // of a reclaim are told and logged.
        ensures reclaimed { IsReclaimed self.old self.new result }
        // A chunk is freed if each seat had checked in since its stamp, or had left, at some moment before the look.
        ensures progress { HasProgressed self.new }
        ensures confined { IsConfined self.new.marked.bytes }
    {
        // Called for its postconditions.
        let _facts = self.acts.generation();
        let least = self.acts.look();
        free_due(&mut self.acts, &mut self.chunks, least)
    }

    /// A pass and the region's keeper meet, as by `Gens::meet`: the pass sees the generation, and the keeper the pass's word.
    /// No memory is allocated, and nothing else changes.
    pub fn meet(&mut self, pass: &mut Pass)
        requires { pass.old.table ≡ self.old.keeper.table }
        ensures met { HasMet pass.old self.old.keeper pass.new self.new.keeper }
        ensures others { self.new ≡ record self.old { keeper = self.new.keeper } }
    {
        self.acts.meet(pass);
    }

    /// Walks from a bundle start of the region, with the steps that these choices pick, and returns the places that the walk visits
    /// and its end.
    ///
    /// At a branch the choice 0 falls through, and any other goes to the target. An indirect transfer goes to the choice with
    /// its low five bits cleared, if that is below the limit. Every other step uses up a choice too. The walk ends below the
    /// region, at an instruction that goes nowhere, when no choice is left, or by an indirect transfer to the limit or above
    /// it; remaining choices are ignored. Memory is allocated only for the places, and the region is unchanged.
    ///
    /// Nothing is executed: the choices stand in for data and flags. `NotBundle` is returned exactly if the walk wouldn't begin at a
    /// bundle start of the region, before anything is allocated; `OutOfMemory` only if an allocation was refused.
    pub fn walk(&self, start: u32, choices: &[u32]) -> Result<Trace, WalkFault>
        // The places are those of a walk of the machine, and the end is the first that applies.
        ensures trace { IfOk result (λ t. IsTrace self.now.marked.bytes start choices.now t.places.items t.end) }
        // The start and the choices determine places and end.
        ensures only { IfOk result (λ t. IsOnlyTrace self.now.marked.bytes start choices.now t.places.items t.end) }
        // Each state of the walk is safe.
        ensures safe { IfOk result (λ t. IsSafeWalk self.now.marked.bytes start choices.now t.end) }
        ensures begins { OnOk result (IsWalkStart self.now.marked.bytes start) }
        // Each refusal is returned only if it applies.
        ensures refused { IfErr result (MayRefuseWalk self.now.marked.bytes start) }
    {
        if start < START || start >= self.acts.limit() || start % BUNDLE != 0 {
            return Err(WalkFault::NotBundle);
        }
        match walk_from(self.chunks.allocator(), &self.acts, start, choices) {
            Ok(trace) => Ok(trace),
            Err(AllocError) => Err(WalkFault::OutOfMemory),
        }
    }
}
