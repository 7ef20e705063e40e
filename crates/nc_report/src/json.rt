//! Members of JSON objects and elements of arrays, put together part after part.

ghost use Rattle.std.specs.Prelude.{◌≡◌, ◌++◌, [], codes, drop, IfOk, OnOk};
ghost use Rattle.nc_report.specs.Objects.{array_of, member, object_of, string_member};

use crate::numbers::push_text;
use nc_output::push_between;
use std::alloc::{AllocError, Global};

/// The text without its first byte, if it has one: parts without the comma before the first.
pub(crate) fn after_first(text: &[u8]) -> &[u8]
    ensures { result.now ≡ drop 1 text.now }
{
    if text.is_empty() {
        return text;
    }
    &text[1..]
}

/// No members of an object. Each will have a comma before it.
pub(crate) fn no_members(alloc: Global) -> Vec<u8>
    ensures { result.items ≡ [] }
{
    Vec::new(alloc)
}

/// No elements of an array. Each will have a comma before it.
pub(crate) fn no_elements(alloc: Global) -> Vec<u8>
    ensures { result.items ≡ [] }
{
    Vec::new(alloc)
}

/// These members, and one more whose value is a string.
pub(crate) fn with_string(
    members: Vec<u8>,
    name: &'static [u8],
    value: &[u8],
) -> Result<Vec<u8>, AllocError>
    ensures { IfOk result (λ all. all.items ≡ members.items ++ string_member name.now value.now) }
{
    let mut text = members;
    push_between(&mut text, b",\"", name, b"\":")?;
    push_between(&mut text, b"\"", value, b"\"")?;
    Ok(text)
}

/// These members, and one more whose value is an array.
pub(crate) fn with_array(
    members: Vec<u8>,
    name: &'static [u8],
    elements: Vec<u8>,
) -> Result<Vec<u8>, AllocError>
    ensures { IfOk result (λ all. all.items ≡ members.items ++ member name.now (array_of elements.items)) }
{
    let mut text = members;
    push_between(&mut text, b",\"", name, b"\":[")?;
    push_text(&mut text, after_first(&elements))?;
    push_text(&mut text, b"]")?;
    Ok(text)
}

/// These elements, and one more that is an object.
pub(crate) fn with_object(elements: Vec<u8>, members: Vec<u8>) -> Result<Vec<u8>, AllocError>
    ensures { IfOk result (λ all. all.items ≡ elements.items ++ (codes "," ++ object_of members.items)) }
{
    let mut text = elements;
    push_text(&mut text, b",{")?;
    push_text(&mut text, after_first(&members))?;
    push_text(&mut text, b"}")?;
    Ok(text)
}

/// Adds members to the text of an object.
pub(crate) fn push_members(out: &mut Vec<u8>, members: Vec<u8>) -> Result<(), AllocError>
    ensures { OnOk result (out.new.items ≡ out.old.items ++ members.items) }
{
    push_text(out, &members)
}
