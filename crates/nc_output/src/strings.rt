//! Strings of JSON.

ghost use Rattle.std.specs.Prelude.{◌≡◌, ◌++◌, OnOk};
ghost use Rattle.std.specs.List.{flat_map};
ghost use Rattle.nc_output.specs.Strings.{escaped};

use crate::verdict::push_byte;
use std::alloc::AllocError;

/// Adds a byte of a string, escaped if it is a quotation mark, a backslash or a control byte. So UTF-8 stays UTF-8.
fn push_escaped(out: &mut Vec<u8>, byte: u8) -> Result<(), AllocError>
    ensures { OnOk result (out.new.items ≡ out.old.items ++ escaped byte) }
{
    if byte == b'"' || byte == b'\\' {
        out.extend_from_slice(&[b'\\', byte])
    } else if byte < 0x20 || byte == 0x7f {
        out.extend_from_slice(b"\\u00")?;
        push_byte(out, byte)
    } else {
        out.extend_from_slice(&[byte])
    }
}

/// Adds the bytes of a string, without the quotation marks.
fn push_inner(out: &mut Vec<u8>, bytes: &[u8]) -> Result<(), AllocError>
    ensures { OnOk result (out.new.items ≡ out.old.items ++ flat_map escaped bytes.now) }
{
    for byte in bytes {
        push_escaped(out, *byte)?;
    }
    Ok(())
}

/// Adds the bytes of a string of JSON, escaped, between two texts, which have the quotation marks.
///
/// The only refusal is that of memory. Part of the text may then have been added.
pub fn push_between(
    out: &mut Vec<u8>,
    before: &[u8],
    bytes: &[u8],
    after: &[u8],
) -> Result<(), AllocError>
    ensures { OnOk result (out.new.items ≡ out.old.items ++ (before.now ++ (flat_map escaped bytes.now ++ after.now))) }
{
    out.extend_from_slice(before)?;
    push_inner(out, bytes)?;
    out.extend_from_slice(after)
}
