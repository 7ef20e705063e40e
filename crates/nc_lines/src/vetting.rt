//! Lines of chunks, vetted by workers.

ghost use Rattle.std.specs.Prelude.{◌≡◌, ◌≢◌, ◌↔◌, ◌⊎◌, [], OnOk, IfErr, IfSome, IsErrOf};
ghost use Rattle.std.specs.Io.KnownBytes.{IsAtEnd};
ghost use Rattle.nc_decode.specs.Bundles.{IsRegionSize, limit_after};
ghost use Rattle.nc_work.specs.Verdicts.{AreWorkers};
ghost use Rattle.nc_lines.specs.Lines.{lines_of};
ghost use Rattle.nc_lines.specs.Vetting.{HasVetted, HasBegunVetted};
ghost use Rattle.nc_lines.specs.machinery.Batch.{HasGathered};

use crate::batch::Batch;
use crate::fault::ReplayFault;
use crate::stream::reply_to_all;
use crate::verdicts::push_verdicts;
use nc_decode::{is_region_size, limit_after};
use nc_output::write_out;
use nc_work::{Gate, vet_all};
use std::alloc::Global;
use std::io::{Read, Write};
use std::sync::Wait;
use std::thread::Threads;

/// Vets the chunks that lines name, by several workers, for a region of this many bundles.
///
/// Each line is an address and bytes, as after `create` in a script. All lines are read before any chunk is vetted, and all
/// chunks are vetted before any byte is written. The reply to each line, in order, is `ok`, `refused` with the chunk's fault,
/// or `bad line`. The promises about bytes hold for a reader and a writer whose bytes are known; nothing is promised about
/// when a device fails.
pub fn vet_lines<R: Read, W: Write, G: Gate, T: Threads + Wait + Sync>(
    rt: &T,
    alloc: Global,
    reader: &mut R,
    writer: &mut W,
    bundles: u32,
    workers: u32,
    gate: &G,
) -> Result<(), ReplayFault>
    // The two numbers are checked first, in this order, before anything is read or written.
    ensures bad_size { IsErrOf result ReplayFault.BadSize ↔ ¬ IsRegionSize bundles }
    ensures bad_workers { IsErrOf result ReplayFault.BadWorkers ↔ (IsRegionSize bundles × ¬ AreWorkers workers) }
    ensures no_seats { IfErr result (λ fault. fault ≢ ReplayFault.BadSeats) }
    ensures untouched { ¬ (IsRegionSize bundles × AreWorkers workers) → (reader.new ≡ reader.old) × (writer.new ≡ writer.old) }

    // The whole input was read, and exactly the replies to its lines were written.
    ensures ok { OnOk result (IfSome (R.remaining reader.old) (λ input.
        HasVetted (limit_after bundles) (W.contents writer.old) (W.contents writer.new) (lines_of input))) }
    ensures read { OnOk result (IsAtEnd (R.remaining reader.new)) }

    // A prefix of the replies was written.
    ensures write_failed { IsErrOf result ReplayFault.WriteFailed → IfSome (R.remaining reader.old) (λ input.
        HasBegunVetted (limit_after bundles) (W.contents writer.old) (W.contents writer.new) (lines_of input)) }

    // On any other fault nothing was written.
    ensures unwritten { IfErr result (λ fault. fault ≢ ReplayFault.WriteFailed → writer.new ≡ writer.old) }
{
    if !is_region_size(bundles) {
        return Err(ReplayFault::BadSize);
    }
    if !(1..=16).contains(&workers) {
        return Err(ReplayFault::BadWorkers);
    }
    let batch = Batch::new(alloc, limit_after(bundles));
    vet_and_write(rt, batch, reader, writer, workers, gate)
}

/// Gathers all lines into an empty batch, vets the chunks that they name for its limit, and writes the verdicts.
fn vet_and_write<R: Read, W: Write, G: Gate, T: Threads + Wait + Sync>(
    rt: &T,
    mut batch: Batch,
    reader: &mut R,
    writer: &mut W,
    workers: u32,
    gate: &G,
) -> Result<(), ReplayFault>
    requires empty { (batch.named.items ≡ []) × (batch.jobs.items ≡ []) }
    ensures ok { OnOk result (IfSome (R.remaining reader.old) (λ input.
        HasVetted batch.limit (W.contents writer.old) (W.contents writer.new) (lines_of input))) }
    ensures read { OnOk result (IsAtEnd (R.remaining reader.new)) }
    ensures write_failed { IsErrOf result ReplayFault.WriteFailed → IfSome (R.remaining reader.old) (λ input.
        HasBegunVetted batch.limit (W.contents writer.old) (W.contents writer.new) (lines_of input)) }
    ensures unwritten { IfErr result (λ fault. fault ≢ ReplayFault.WriteFailed → writer.new ≡ writer.old) }
    ensures faults { IfErr result (λ fault. (fault ≢ ReplayFault.BadSize) × (fault ≢ ReplayFault.BadSeats)
        × (fault ≢ ReplayFault.BadWorkers)) }
{
    let alloc = batch.alloc;
    match gather(alloc, &mut batch, reader) {
        Ok(()) => {}
        Err(fault) => return Err(fault),
    }
    let Batch { named, jobs, .. } = batch;
    let verdicts = match vet_all(rt, jobs, workers, gate) {
        Ok(verdicts) => verdicts,
        Err(_) => return Err(ReplayFault::OutOfMemory),
    };
    let mut out = Vec::new(alloc);
    match push_verdicts(&mut out, named, verdicts) {
        Ok(()) => {}
        Err(_) => return Err(ReplayFault::OutOfMemory),
    }
    match write_out(writer, out.as_slice()) {
        Ok(()) => {}
        Err(_) => return Err(ReplayFault::WriteFailed),
    }
    match writer.flush() {
        Ok(()) => Ok(()),
        Err(_) => Err(ReplayFault::WriteFailed),
    }
}

/// Gathers all lines of a reader.
fn gather<R: Read>(alloc: Global, batch: &mut Batch, reader: &mut R) -> Result<(), ReplayFault>
    ensures ok { OnOk result (IfSome (R.remaining reader.old) (λ input. HasGathered batch.old batch.new (lines_of input))) }
    ensures read { OnOk result (IsAtEnd (R.remaining reader.new)) }
    ensures faults { IfErr result (λ fault. (fault ≡ ReplayFault.ReadFailed) ⊎ (fault ≡ ReplayFault.OutOfMemory)) }
{
    // nothing is written here: a gathered line has no reply
    let mut nowhere = Vec::new(alloc);
    match reply_to_all(alloc, batch, reader, &mut nowhere) {
        Ok(()) => Ok(()),
        Err(ReplayFault::ReadFailed) => Err(ReplayFault::ReadFailed),
        Err(_) => Err(ReplayFault::OutOfMemory),
    }
}
