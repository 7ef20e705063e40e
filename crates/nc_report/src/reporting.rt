//! Vetting a source, and reporting on it.

ghost use Rattle.std.specs.Prelude.{◌≡◌, ◌↔◌, Bool, IfOk, IsErrOf};
ghost use Rattle.nc_decode.specs.Bundles.{IsRegionSize, limit_after};
ghost use Rattle.nc_report.specs.Report.{Reports, HasWritten, HasBegun};

use crate::fault::ReportFault;
use crate::source::Source;
use crate::source_report::vet_and_report;
use nc_decode::{is_region_size, limit_after};
use nc_output::Style;
use std::alloc::Global;
use std::io::Write;

/// Vets a source as a chunk at this base in a region of `bundles` bundles, and writes the report on it. Returns whether it is
/// refused.
///
/// As text, an accepted source has a line with its name, `ok`, and the numbers of its bytes and of its instructions. A refused
/// source first has a line with its name and the reply of `vet_lines` to a chunk with its fault. Further lines begin with two
/// spaces, and `style.detail` says which they are. The name of the source is written unchanged, names of labels without control
/// bytes. As JSON the source has one object on a line of its own, in which names are escaped. In brief nothing is written about
/// an accepted source, and nothing about a refused one but its verdict.
///
/// The source is vetted before any byte is written. The promises about bytes hold for a writer whose bytes are known;
/// nothing is promised about when a device fails, or about the words on a fault.
pub fn report<W: Write>(
    alloc: Global,
    source: Source,
    base: u32,
    bundles: u32,
    style: Style,
    writer: &mut W,
) -> Result<bool, ReportFault>
    // The number of bundles is checked first, before anything is written.
    ensures bad_size { IsErrOf result ReportFault.BadSize ↔ ¬ IsRegionSize bundles }
    ensures untouched { ¬ IsRegionSize bundles → writer.new ≡ writer.old }

    // Exactly the report on the source was written, and the result says whether the source is refused.
    ensures ok { IfOk result (λ refused. HasWritten
        (Reports base (limit_after bundles) style source.name.items source.code.items refused)
        (W.contents writer.old) (W.contents writer.new)) }

    // If the writer fails or memory runs out, nothing was written, or a prefix of a report on the source.
    ensures write_failed { IsErrOf result ReportFault.WriteFailed → HasBegun
        (λ text. (refused : Bool) × Reports base (limit_after bundles) style source.name.items source.code.items refused text)
        (W.contents writer.old) (W.contents writer.new) }
    ensures out_of_memory { IsErrOf result ReportFault.OutOfMemory → HasBegun
        (λ text. (refused : Bool) × Reports base (limit_after bundles) style source.name.items source.code.items refused text)
        (W.contents writer.old) (W.contents writer.new) }
{
    if !is_region_size(bundles) {
        return Err(ReportFault::BadSize);
    }
    vet_and_report(alloc, source, base, limit_after(bundles), style, writer)
}
