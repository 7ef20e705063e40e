//! Words that are shown: as a line of details, or as a member.

ghost use Rattle.std.specs.Prelude.{◌∷◌, [], OnOk};
ghost use Rattle.nc_report.specs.Report.{Shows};
ghost use Rattle.nc_output.specs.Adds.{Adds};

use crate::json::{no_members, push_members, with_string};
use nc_output::{Format, push_detail};
use std::alloc::AllocError;

/// Adds words as a member with this name.
fn push_member(out: &mut Vec<u8>, name: &'static [u8], words: &[u8]) -> Result<(), AllocError>
    ensures { OnOk result (Adds out.old.items out.new.items (Shows (name.now ∷ []) Format.Json)) }
{
    let members = with_string(no_members(*out.allocator()), name, words)?;
    push_members(out, members)
}

/// Adds words: as a line of details, or as a member with this name.
pub(crate) fn push_said(
    out: &mut Vec<u8>,
    name: &'static [u8],
    words: &[u8],
    format: Format,
) -> Result<(), AllocError>
    ensures { OnOk result (Adds out.old.items out.new.items (Shows (name.now ∷ []) format)) }
{
    match format {
        Format::Text => push_detail(out, &[words]),
        Format::Json => push_member(out, name, words),
    }
}
