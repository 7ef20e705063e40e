//! Adding text, and numbers and bytes as text.

ghost use Rattle.std.specs.Prelude.{◌≡◌, ◌++◌, if◌then◌else◌, OnOk};
ghost use Rattle.nc_output.specs.Verdicts.{address_digits};
ghost use Rattle.nc_report.specs.machinery.Texts.{texts_joined};

use std::alloc::AllocError;

/// Adds text.
pub(crate) fn push_text(out: &mut Vec<u8>, text: &[u8]) -> Result<(), AllocError>
    ensures { OnOk result (out.new.items ≡ out.old.items ++ text.now) }
{
    out.extend_from_slice(text)
}

/// Adds texts, one after the other.
pub(crate) fn push_all(out: &mut Vec<u8>, texts: &[&[u8]]) -> Result<(), AllocError>
    ensures { OnOk result (out.new.items ≡ out.old.items ++ texts_joined texts.now) }
{
    for text in texts {
        out.extend_from_slice(text)?;
    }
    Ok(())
}

/// One of two texts: the first if the test holds.
pub(crate) fn choose(holds: bool, yes: &'static [u8], no: &'static [u8]) -> &'static [u8]
    ensures { result.now ≡ (if holds then yes.now else no.now) }
{
    if holds { yes } else { no }
}

/// An address as eight hexadecimal digits.
pub(crate) fn address_digits(at: u32) -> [u8; 8]
    ensures { result ≡ address_digits at }
{
    let mut digits = [0u8; 8];
    hex::encode_to_slice(at.to_be_bytes(), &mut digits).unwrap();
    digits
}
