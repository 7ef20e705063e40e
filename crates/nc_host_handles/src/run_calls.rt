//! The acts of a creation and of a deletion as runs, computed from the region's present bytes and marks.

ghost use Rattle.std.specs.Prelude.{◌≡◌, ◌≤◌, Some, IfOk, IfErr, OnErr, length};
ghost use Rattle.nc_list.specs.declared.chunk.Chunk.{Chunk};
ghost use Rattle.nc_acts.specs.Log.{log_of_create, log_of_delete};
ghost use Rattle.nc_host_acts.specs.Runs.{runs_of_create, runs_of_delete, HasRuns};
ghost use Rattle.nc_host_handles.specs.RegionHandle.{IsLiveAt};
ghost use Rattle.nc_host_handles.specs.RunCalls.{runs_of, AreCreationRuns, AreDeletionRuns, MayRefuseCreationRuns, MayRefuseDeletionRuns};
ghost use Rattle.nc_host_handles.specs.Lent.{bytes_of_span};

use crate::fault::RunsFault;
use crate::region_handle::RegionHandle;
use crate::span::Span;
use nc_host_acts::{NcAct, write_creation_runs, write_deletion_runs};

/// The number of runs for a chunk of this many bytes.
fn runs_of(length: u32) -> usize
    ensures { result ≡ runs_of length }
{
    2 * (length as usize / 32) + 2
}

/// Writes the runs of the creation of the chunk in a span.
fn report_creation_runs(acts: &mut [NcAct], span: &Span)
    requires { runs_of span.now.length ≤ length acts.old }
    ensures { HasRuns acts.old acts.new (runs_of span.now.length) span.now.base
        (bytes_of_span span.now.region.now.marked.bytes span.now.base span.now.length)
        (runs_of_create span.now.base (bytes_of_span span.now.region.now.marked.bytes span.now.base span.now.length))
        (log_of_create span.now.base (bytes_of_span span.now.region.now.marked.bytes span.now.base span.now.length)) }
{
    write_creation_runs(acts, span.base, span);
}

/// Writes the runs of the deletion of the chunk in a span.
fn report_deletion_runs(acts: &mut [NcAct], span: &Span)
    requires { runs_of span.now.length ≤ length acts.old }
    ensures { HasRuns acts.old acts.new (runs_of span.now.length) span.now.base
        (bytes_of_span span.now.region.now.marked.bytes span.now.base span.now.length)
        (runs_of_delete span.now.region.now.marked.marks span.now.base span.now.length)
        (log_of_delete span.now.region.now.marked.marks span.now.base span.now.length) }
{
    write_deletion_runs(acts, span.base, span);
}

impl RegionHandle {
    /// Writes into the buffer, as runs, the acts that would create this live chunk with its present bytes: two for each of its
    /// bundles, and two more. Directly after `create` these are the acts of that call. Returns their number. A refusal writes
    /// nothing.
    pub fn creation_runs(&self, base: u32, acts: &mut [NcAct]) -> Result<usize, RunsFault>
        // The runs of a creation of the chunk's bytes, which stand for its acts, with the serialization.
        ensures reported { IfOk result (λ count. (c : Chunk) × IsLiveAt self.now.region.chunks base c
            × AreCreationRuns self.now c acts.old acts.new count) }
        ensures untouched { OnErr result (acts.new ≡ acts.old) }
        // Each refusal is returned exactly when it is due.
        ensures refused { IfErr result (MayRefuseCreationRuns self.now base (length acts.old)) }
    {
        let Some(chunk) = self.region.live_at(base) else {
            return Err(RunsFault::NoChunk);
        };
        let wanted = runs_of(chunk.length);
        if acts.len() < wanted {
            return Err(RunsFault::NoRoom(wanted));
        }
        let span = Span {
            region: &self.region,
            base,
            length: chunk.length,
        };
        report_creation_runs(acts, &span);
        Ok(wanted)
    }

    /// Writes into the buffer, as runs, the acts of the deletion that is under way: two for each bundle of its chunk, and two more.
    /// Returns their number. A refusal writes nothing.
    pub fn deletion_runs(&self, acts: &mut [NcAct]) -> Result<usize, RunsFault>
        // The runs of a deletion by the region's own marks, which stand for its acts, with the serialization.
        ensures reported { IfOk result (λ count. (c : Chunk) × (self.now.begun ≡ Some c)
            × AreDeletionRuns self.now c acts.old acts.new count) }
        ensures untouched { OnErr result (acts.new ≡ acts.old) }
        // Each refusal is returned exactly when it is due.
        ensures refused { IfErr result (MayRefuseDeletionRuns self.now (length acts.old)) }
    {
        let Some(chunk) = self.begun else {
            return Err(RunsFault::NoChunk);
        };
        let wanted = runs_of(chunk.length);
        if acts.len() < wanted {
            return Err(RunsFault::NoRoom(wanted));
        }
        // Called for its postconditions.
        let _facts = self.chunk_count();
        let span = Span {
            region: &self.region,
            base: chunk.base,
            length: chunk.length,
        };
        report_deletion_runs(acts, &span);
        Ok(wanted)
    }
}
