//! Text without control bytes, and lines of details.

ghost use Rattle.std.specs.Prelude.{◌≡◌, ◌++◌, ◌∷◌, [], OnOk};
ghost use Rattle.std.specs.List.{list_all};
ghost use Rattle.nc_output.specs.Shown.{is_shown, byte_shown, text_shown, texts_shown, detail_line, AreDetails};
ghost use Rattle.nc_output.specs.Adds.{Adds};

use std::alloc::AllocError;

/// A byte that isn't a control byte. A control byte could end the line, or be a command to a terminal. No branches, so that many
/// bytes are tested at once.
#[inline(always)]
fn is_shown(byte: u8) -> bool
    ensures { result ≡ is_shown byte }
{
    (byte >= 0x20) & (byte != 0x7f)
}

/// No byte of the text is a control byte.
fn are_shown(text: &[u8]) -> bool
    ensures { result ≡ list_all is_shown text.now }
{
    let mut all = true;
    for byte in text {
        all &= is_shown(*byte);
    }
    all
}

/// A byte as it is shown: a question mark in place of a control byte.
fn shown(byte: u8) -> u8
    ensures { byte_shown byte ≡ result ∷ [] }
{
    if is_shown(byte) { byte } else { b'?' }
}

/// Adds a byte as it is shown.
fn push_one(out: &mut Vec<u8>, byte: u8) -> Result<(), AllocError>
    ensures { OnOk result (out.new.items ≡ out.old.items ++ byte_shown byte) }
{
    out.extend_from_slice(&[shown(byte)])
}

/// Adds text, byte by byte, as it is shown.
fn push_replaced(out: &mut Vec<u8>, text: &[u8]) -> Result<(), AllocError>
    ensures { OnOk result (out.new.items ≡ out.old.items ++ text_shown text.now) }
{
    for byte in text {
        push_one(out, *byte)?;
    }
    Ok(())
}

/// Adds text as it is shown.
fn push_shown(out: &mut Vec<u8>, text: &[u8]) -> Result<(), AllocError>
    ensures { OnOk result (out.new.items ≡ out.old.items ++ text_shown text.now) }
{
    if are_shown(text) {
        out.extend_from_slice(text)
    } else {
        push_replaced(out, text)
    }
}

/// Adds texts, one after the other, each as it is shown.
fn push_all_shown(out: &mut Vec<u8>, texts: &[&[u8]]) -> Result<(), AllocError>
    ensures { OnOk result (out.new.items ≡ out.old.items ++ texts_shown texts.now) }
{
    for text in texts {
        push_shown(out, text)?;
    }
    Ok(())
}

/// Adds a line of details: two spaces, these texts, one after the other, and the end of the line. A control byte is shown as a
/// question mark, so no text can end a line or be a command to a terminal.
///
/// The only refusal is that of memory. Part of the line may then have been added.
pub fn push_detail(out: &mut Vec<u8>, texts: &[&[u8]]) -> Result<(), AllocError>
    ensures exact { OnOk result (out.new.items ≡ out.old.items ++ detail_line (texts_shown texts.now)) }
    ensures details { OnOk result (Adds out.old.items out.new.items AreDetails) }
{
    out.extend_from_slice(b"  ")?;
    push_all_shown(out, texts)?;
    out.push(b'\n')?;
    Ok(())
}
