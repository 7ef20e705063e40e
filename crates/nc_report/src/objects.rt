//! Verdicts as JSON objects, each on a line of its own. `docs/nc_check.schema.json` describes them; a new member goes there, too.

ghost use Rattle.std.specs.Prelude.{◌≡◌, ◌≢◌, ◌<◌, ◌++◌, ℕ, List, codes, IfOk, OnOk};
ghost use Rattle.nc_vet.specs.declared.fault.VetFault.TheVariants as vet;
ghost use Rattle.nc_output.specs.Verdicts.{with_line_end, address_digits, place_of};
ghost use Rattle.nc_report.specs.Objects.{InObject, InArray, IsJson, AreMembers, file_member, string_member, at_member, accepted_members, refused_members, fault_object, file_object};
ghost use Rattle.nc_report.specs.Labels.{label_of};
ghost use Rattle.nc_report.specs.Report.{about_fault, ShowsOne};
ghost use Rattle.nc_report.specs.machinery.Members.{reason_text, symbol_member, target_members};
ghost use Rattle.nc_output.specs.Adds.{Adds};

use crate::explaining::offset_words;
use crate::finding::Finding;
use crate::json::{no_elements, no_members, push_members, with_array, with_object, with_string};
use crate::labels::Labels;
use crate::listing::{address_of, is_start, push_named};
use crate::numbers::{address_digits, push_all, push_text};
use crate::targets::Target;
use nc_output::{Format, fault_name, place_of, push_between};
use nc_vet::VetFault;
use std::alloc::{AllocError, Global};

/// Adds the first two members of the object for a source: its name and its address.
fn push_front(out: &mut Vec<u8>, name: &[u8], base: u32) -> Result<(), AllocError>
    ensures { OnOk result (out.new.items
        ≡ out.old.items ++ (file_member name.now ++ string_member (codes "address") (address_digits base))) }
{
    push_between(out, b"{\"file\":\"", name, b"\",\"address\":\"")?;
    push_between(out, b"", &address_digits(base), b"\"")
}

/// Adds the last member, which says what a fault means.
fn push_meaning(out: &mut Vec<u8>, words: &[u8]) -> Result<(), AllocError>
    ensures { OnOk result (out.new.items ≡ out.old.items ++ string_member (codes "meaning") words.now) }
{
    push_between(out, b",\"meaning\":\"", words, b"\"")
}

/// Adds the first members of the object for an accepted source.
pub(crate) fn push_accepted_members(
    out: &mut Vec<u8>,
    name: &[u8],
    base: u32,
    bytes: usize,
    instructions: usize,
) -> Result<(), AllocError>
    ensures { OnOk result (out.new.items ≡ out.old.items ++ accepted_members base name.now bytes instructions) }
{
    let counts = format!(in *out.allocator(); "{bytes},\"instructions\":{instructions}")?;
    push_front(out, name, base)?;
    push_all(out, &[b",\"verdict\":\"ok\",\"bytes\":", counts.as_bytes()])
}

/// Adds the member for an address, if there is one.
fn push_at(out: &mut Vec<u8>, at: Option<u32>) -> Result<(), AllocError>
    ensures { OnOk result (out.new.items ≡ out.old.items ++ at_member at) }
{
    match at {
        Some(at) => push_between(out, b",\"at\":\"", &address_digits(at), b"\""),
        None => Ok(()),
    }
}

/// Adds the first members of the object for a refused source. Lack of memory is not a verdict: it is returned as an error.
pub(crate) fn push_refused_members(
    out: &mut Vec<u8>,
    name: &[u8],
    base: u32,
    fault: VetFault,
) -> Result<(), AllocError>
    ensures { OnOk result ((fault ≢ vet.OutOfMemory) × (out.new.items ≡ out.old.items ++ refused_members base name.now fault)) }
{
    let named = fault_name(fault)?;
    push_front(out, name, base)?;
    push_between(out, b",\"verdict\":\"refused\",\"fault\":\"", named, b"\"")?;
    push_at(out, place_of(fault))
}

/// The members with one more that names an address, if it has a label.
fn with_symbol(
    alloc: Global,
    members: Vec<u8>,
    labels: &Labels,
    at: u32,
) -> Result<Vec<u8>, AllocError>
    ensures { IfOk result (λ all. all.items ≡ members.items ++ symbol_member (label_of labels.now at) at) }
{
    let Some(label) = labels.of(at) else {
        return Ok(members);
    };
    let offset = offset_words(alloc, at.saturating_sub(label.address))?;
    let mut name = Vec::from_slice(alloc, &label.name)?;
    name.extend_from_slice(offset.as_bytes())?;
    with_string(members, b"symbol", &name)
}

/// Why the target of a refused direct transfer is not allowed, in words.
fn reason(alloc: Global, target: Target) -> Result<Vec<u8>, AllocError>
    ensures { IfOk result (λ why. why.items ≡ reason_text target) }
{
    let mut why = Vec::from_slice(alloc, target.words)?;
    if let Some(at) = target.named {
        why.extend_from_slice(&address_digits(at))?;
    }
    Ok(why)
}

/// The members with two more about the target of a refused direct transfer: where it goes, and why that is not allowed.
fn with_target(
    alloc: Global,
    members: Vec<u8>,
    target: Option<Target>,
) -> Result<Vec<u8>, AllocError>
    ensures { IfOk result (λ all. all.items ≡ members.items ++ target_members target) }
{
    let Some(target) = target else {
        return Ok(members);
    };
    let why = reason(alloc, target)?;
    let targeted = with_string(members, b"target", &address_digits(target.to))?;
    with_string(targeted, b"why", &why)
}

/// The members of the object for the instruction that begins at a place of the bundle: its address, and its name if it is permitted.
fn start_members(alloc: Global, finding: &Finding<'_>, k: usize) -> Result<Vec<u8>, AllocError>
    requires { k < 32 }
    ensures { IfOk result (λ all. (names : List (List ℕ)) × IsJson (InObject names) all.items) }
{
    let mut name = Vec::new(alloc);
    push_named(&mut name, finding, k)?;
    let start = with_string(
        no_members(alloc),
        b"at",
        &address_digits(address_of(finding, k)),
    )?;
    if name.is_empty() {
        return Ok(start);
    }
    with_string(start, b"name", &name)
}

/// The elements with one more for the instruction that begins at a place of the bundle, if one does.
fn with_start(
    alloc: Global,
    starts: Vec<u8>,
    finding: &Finding<'_>,
    k: usize,
) -> Result<Vec<u8>, AllocError>
    requires within { k < 32 }
    requires starts { IsJson InArray starts.items }
    ensures { IfOk result (λ all. IsJson InArray all.items) }
{
    if !is_start(finding, k) {
        return Ok(starts);
    }
    let start = start_members(alloc, finding, k)?;
    with_object(starts, start)
}

/// An element for each instruction that begins in the bundle of a fault.
fn starts_of(alloc: Global, finding: &Finding<'_>) -> Result<Vec<u8>, AllocError>
    ensures { IfOk result (λ all. IsJson InArray all.items) }
{
    let mut starts = no_elements(alloc);
    for k in 0..32 {
        starts = with_start(alloc, starts, finding, k)?;
    }
    Ok(starts)
}

/// The bytes of a bundle as hexadecimal digits.
fn bundle_digits(bundle: [u8; 32]) -> [u8; 64] {
    let mut digits = [0u8; 64];
    hex::encode_to_slice(bundle, &mut digits).unwrap();
    digits
}

/// The members about a fault: the name of its address, if that has a label; what the fault means; the target of a refused
/// transfer; and the bundle, by its bytes and by the instructions that begin in it.
pub(crate) fn finding_members(
    alloc: Global,
    labels: &Labels,
    finding: &Finding<'_>,
) -> Result<Vec<u8>, AllocError>
    ensures { IfOk result (λ all. AreMembers about_fault all.items) }
{
    let starts = starts_of(alloc, finding)?;
    let named = with_symbol(alloc, no_members(alloc), labels, finding.at)?;
    let explained = with_string(named, b"meaning", finding.meaning)?;
    let targeted = with_target(alloc, explained, finding.target)?;
    let shown = with_string(targeted, b"bundle", &bundle_digits(finding.bundle))?;
    with_array(shown, b"starts", starts)
}

/// Adds the object for one of several faults, after this text. Lack of memory is not a verdict: it is returned as an error.
pub(crate) fn push_fault_object(
    out: &mut Vec<u8>,
    before: &'static [u8],
    labels: &Labels,
    fault: VetFault,
    finding: &Finding<'_>,
) -> Result<(), AllocError>
    ensures { OnOk result (Adds out.old.items out.new.items
        (λ text. (words : List ℕ) × ShowsOne Format.Json words × (text ≡ before.now ++ (fault_object fault ++ words)))) }
{
    let members = finding_members(*out.allocator(), labels, finding)?;
    push_text(out, before)?;
    push_between(out, b"{\"fault\":\"", fault_name(fault)?, b"\"")?;
    push_at(out, place_of(fault))?;
    push_members(out, members)?;
    push_text(out, b"}")
}

/// Adds the object for a file that is refused before any of it is judged, for a fault with this name and this meaning, and its
/// line end.
pub fn push_file_object(
    out: &mut Vec<u8>,
    name: &[u8],
    fault: &[u8],
    meaning: &[u8],
) -> Result<(), AllocError>
    ensures { OnOk result (out.new.items ≡ out.old.items ++ with_line_end (file_object name.now fault.now meaning.now)) }
{
    push_between(
        out,
        b"{\"file\":\"",
        name,
        b"\",\"verdict\":\"refused\",\"fault\":\"",
    )?;
    push_between(out, b"", fault, b"\"")?;
    push_meaning(out, meaning)?;
    push_text(out, b"}\n")
}
