//! A line of details that stands in a text of fixed length, or in any text.

ghost use Rattle.std.specs.Prelude.{◌≡◌, ◌≤◌, ◌<◌, true, OnOk};
ghost use Rattle.std.specs.List.{list_all};
ghost use Rattle.nc_disasm.specs.Names.{is_printable};
ghost use Rattle.nc_output.specs.Shown.{is_shown, AreDetails};
ghost use Rattle.nc_output.specs.Adds.{Adds};

use crate::numbers::push_text;
use nc_output::push_detail;
use std::alloc::AllocError;

/// All bytes of the text are printable characters of ASCII, as in nearly every line. No branches, so that many bytes are tested at once;
/// LLVM takes fewer steps for one range than for all bytes but the control bytes.
#[inline(always)]
fn are_printable(text: &[u8]) -> bool
    ensures { result ≡ list_all is_printable text.now }
{
    let mut all = true;
    for byte in text {
        all &= (*byte >= 0x20) & (*byte < 0x7f);
    }
    all
}

/// Adds a line of details that has no control byte.
#[inline(always)]
fn push_shown(out: &mut Vec<u8>, line: &[u8]) -> Result<(), AllocError>
    requires { list_all is_shown line.now ≡ true }
    ensures { OnOk result (Adds out.old.items out.new.items AreDetails) }
{
    push_text(out, b"  ")?;
    out.extend_from_slice(line)?;
    out.push(b'\n')?;
    Ok(())
}

/// Adds a line of details, as [`push_detail`] does.
pub(crate) fn push_words(out: &mut Vec<u8>, line: &[u8]) -> Result<(), AllocError>
    ensures { OnOk result (Adds out.old.items out.new.items AreDetails) }
{
    if are_printable(line) {
        push_shown(out, line)
    } else {
        push_detail(out, &[line])
    }
}

/// Adds a line of details, as [`push_detail`] does. These first bytes of the text are two spaces and the line. The byte after them is
/// overwritten by the line's end, so that all is added at once.
///
/// All of the text is tested, since for a fixed length LLVM needs neither a loop nor a rest that is tested byte by byte.
pub(crate) fn push_line(
    out: &mut Vec<u8>,
    text: &mut [u8; 128],
    len: usize,
) -> Result<(), AllocError>
    requires spaces { 2 ≤ len }
    requires room { len < 128 }
    ensures { OnOk result (Adds out.old.items out.new.items AreDetails) }
{
    if are_printable(text) && text[0] == b' ' && text[1] == b' ' {
        text[len] = b'\n';
        push_text(out, &text[..len + 1])
    } else {
        push_detail(out, &[&text[2..len]])
    }
}
