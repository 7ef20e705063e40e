//! The names of the instructions of some code, one on each line after its address.

use nc_decode::decode;
use nc_disasm::push_instruction;
use nc_output::push_address;
use std::alloc::{AllocError, Global};

/// Adds the line of an instruction.
fn push_line(text: &mut Vec<u8>, at: u32, bytes: &[u8]) -> Result<(), AllocError> {
    push_address(text, at)?;
    text.push(b' ')?;
    push_instruction(text, at, bytes)?;
    text.push(b'\n')?;
    Ok(())
}

/// The lines of the instructions of code that stands at an address, up to the first that isn't permitted.
pub fn lines_of(alloc: Global, at: u32, code: &[u8]) -> Result<Vec<u8>, AllocError> {
    let mut text = Vec::new(alloc);
    let mut at = at;
    let mut rest = code;
    for _ in code {
        let Ok(instr) = decode(rest) else {
            break;
        };
        let (bytes, after) = rest.split_at(usize::from(instr.len));
        push_line(&mut text, at, bytes)?;
        at = at.wrapping_add(u32::from(instr.len));
        rest = after;
    }
    Ok(text)
}
