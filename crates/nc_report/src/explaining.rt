//! The lines about a fault: the name of its address, its bundle, the target of a refused transfer, and what the fault means.

ghost use Rattle.std.specs.Prelude.{◌≡◌, ◌++◌, IfOk, OnOk, string_bytes};
ghost use Rattle.nc_output.specs.Shown.{AreDetails};
ghost use Rattle.nc_output.specs.Adds.{Adds};
ghost use Rattle.nc_report.specs.Labels.{label_of};
ghost use Rattle.nc_report.specs.machinery.Members.{label_line, offset_text, target_line};

use crate::finding::Finding;
use crate::labels::Labels;
use crate::lines::push_words;
use crate::listing::push_listing;
use crate::numbers::address_digits;
use crate::targets::Target;
use nc_output::push_detail;
use std::alloc::{AllocError, Global};

/// The offset of an address from its label, as text.
pub(crate) fn offset_words(alloc: Global, offset: u32) -> Result<String, AllocError>
    ensures { IfOk result (λ text. string_bytes text ≡ offset_text offset) }
{
    if offset == 0 {
        return Ok(String::new(alloc));
    }
    format!(in alloc; "+0x{offset:x}")
}

/// Adds the line that names an address, if it has a label.
fn push_label(out: &mut Vec<u8>, labels: &Labels, at: u32) -> Result<(), AllocError>
    ensures exact { OnOk result (out.new.items ≡ out.old.items ++ label_line (label_of labels.now at) at) }
    ensures details { OnOk result (Adds out.old.items out.new.items AreDetails) }
{
    let Some(label) = labels.of(at) else {
        return Ok(());
    };
    let offset = offset_words(*out.allocator(), at.saturating_sub(label.address))?;
    push_detail(
        out,
        &[
            &address_digits(at),
            b" <",
            &label.name,
            offset.as_bytes(),
            b">",
        ],
    )
}

/// Adds the line about the target of a refused direct transfer.
fn push_target(out: &mut Vec<u8>, target: Option<Target>) -> Result<(), AllocError>
    ensures exact { OnOk result (out.new.items ≡ out.old.items ++ target_line target) }
    ensures details { OnOk result (Adds out.old.items out.new.items AreDetails) }
{
    let Some(target) = target else {
        return Ok(());
    };
    let to = address_digits(target.to);
    match target.named {
        None => push_detail(out, &[b"-> ", &to, b": ", target.words]),
        Some(at) => push_detail(
            out,
            &[b"-> ", &to, b": ", target.words, &address_digits(at)],
        ),
    }
}

/// Adds the lines about a fault.
pub(crate) fn push_finding(
    out: &mut Vec<u8>,
    labels: &Labels,
    finding: &Finding<'_>,
) -> Result<(), AllocError>
    ensures { OnOk result (Adds out.old.items out.new.items AreDetails) }
{
    push_label(out, labels, finding.at)?;
    push_listing(out, finding)?;
    push_target(out, finding.target)?;
    push_words(out, finding.meaning)
}
