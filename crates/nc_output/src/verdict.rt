//! The verdict on a chunk that has a fault, as text.

ghost use Rattle.std.specs.Prelude.{◌≡◌, ◌≢◌, ◌++◌, ◌∷◌, [], IfOk, OnOk, OnErr};
ghost use Rattle.hex.specs.Hex.{encode_lower};
ghost use Rattle.nc_vet.specs.declared.fault.VetFault.TheVariants as vet;
ghost use Rattle.nc_output.specs.Verdicts.{address_digits, fault_name, place_of, address_after, fault_words, refused_words};
ghost use Rattle.nc_output.specs.Verdicts.{with_line_end};

use nc_vet::VetFault;
use std::alloc::AllocError;

/// Adds a byte as two hexadecimal digits.
pub fn push_byte(out: &mut Vec<u8>, byte: u8) -> Result<(), AllocError>
    ensures { OnOk result (out.new.items ≡ out.old.items ++ encode_lower (byte ∷ [])) }
{
    let mut digits = [0u8; 2];
    hex::encode_to_slice([byte], &mut digits).unwrap();
    out.extend_from_slice(&digits)
}

/// Adds an address as eight hexadecimal digits.
pub fn push_address(out: &mut Vec<u8>, at: u32) -> Result<(), AllocError>
    ensures { OnOk result (out.new.items ≡ out.old.items ++ address_digits at) }
{
    let mut digits = [0u8; 8];
    hex::encode_to_slice(at.to_be_bytes(), &mut digits).unwrap();
    out.extend_from_slice(&digits)
}

/// A fault's name. Lack of memory is not a verdict: it is returned as an error.
pub fn fault_name(fault: VetFault) -> Result<&'static [u8], AllocError>
    ensures named { IfOk result (λ name. (fault ≢ vet.OutOfMemory) × (name.now ≡ fault_name fault)) }
    ensures unnamed { OnErr result (fault ≡ vet.OutOfMemory) }
{
    match fault {
        VetFault::BadBase => Ok(b"BadBase"),
        VetFault::BadLength => Ok(b"BadLength"),
        VetFault::OutOfRange => Ok(b"OutOfRange"),
        VetFault::NotPermitted { .. } => Ok(b"NotPermitted"),
        VetFault::Crosses { .. } => Ok(b"Crosses"),
        VetFault::Bare { .. } => Ok(b"Bare"),
        VetFault::BadTarget { .. } => Ok(b"BadTarget"),
        VetFault::OutOfMemory => Err(AllocError),
    }
}

/// The address of a fault, if it has one.
pub fn place_of(fault: VetFault) -> Option<u32>
    ensures { result ≡ place_of fault }
{
    match fault {
        VetFault::NotPermitted { at } => Some(at),
        VetFault::Crosses { at } => Some(at),
        VetFault::Bare { at } => Some(at),
        VetFault::BadTarget { at } => Some(at),
        _ => None,
    }
}

/// Adds a space and the address, if there is one.
fn push_after(out: &mut Vec<u8>, at: Option<u32>) -> Result<(), AllocError>
    ensures { OnOk result (out.new.items ≡ out.old.items ++ address_after at) }
{
    let Some(at) = at else {
        return Ok(());
    };
    out.push(b' ')?;
    push_address(out, at)
}

/// Adds a fault's name, followed by its address if it has one. Lack of memory is not a verdict: it is returned as an error.
pub fn push_name(out: &mut Vec<u8>, fault: VetFault) -> Result<(), AllocError>
    ensures { OnOk result ((fault ≢ vet.OutOfMemory) × (out.new.items ≡ out.old.items ++ fault_words fault)) }
{
    out.extend_from_slice(fault_name(fault)?)?;
    push_after(out, place_of(fault))
}

/// Adds the refusal of a chunk for this fault, with its line end. Lack of memory is not a verdict: it is returned as an error.
pub fn push_fault(out: &mut Vec<u8>, fault: VetFault) -> Result<(), AllocError>
    ensures { OnOk result ((fault ≢ vet.OutOfMemory) × (out.new.items ≡ out.old.items ++ with_line_end (refused_words (fault_words fault)))) }
{
    out.extend_from_slice(b"refused ")?;
    push_name(out, fault)?;
    out.push(b'\n')?;
    Ok(())
}
