//! A script that is cut short.

use crate::hostile::script::{REPLIES, SCRIPT, line_ends, replies_to};
use crate::lower::rows::right;
use nc_lines::ReplayFault;
use nc_script::run;
use std::alloc::Global;
use std::io::{Read, Write};
use std::test::Fail;

/// Runs a script for a region of four bundles with one seat. The function has no clause, so that proofs of its callers don't deal
/// with the contract of `run`.
fn replay<R: Read, W: Write>(
    alloc: Global,
    reader: &mut R,
    writer: &mut W,
) -> Result<(), ReplayFault> {
    run(alloc, reader, writer, 4, 1)
}

/// Whether these are the replies to the lines that end in the first bytes of the script, and one line more if bytes are left over.
fn are_replies(written: &[u8], front: &[u8]) -> bool {
    let due = replies_to(front);
    let more = !front.is_empty() && !front.ends_with(b"\n");
    let Some(rest) = written.strip_prefix(due) else {
        return false;
    };
    if more {
        rest.ends_with(b"\n") && line_ends(rest) == 1
    } else {
        rest.is_empty()
    }
}

/// Whether the first bytes of the script get their replies.
fn gets_replies(alloc: Global, front: &[u8]) -> bool {
    let mut written = Vec::new(alloc);
    let mut reader = front;
    let end = replay(alloc, &mut reader, &mut written);
    end.is_ok() && are_replies(&written, front)
}

/// Whether the whole script gets its replies.
fn is_whole(alloc: Global) -> bool {
    let mut written = Vec::new(alloc);
    let mut reader = SCRIPT;
    let end = replay(alloc, &mut reader, &mut written);
    end.is_ok() && written.as_slice() == REPLIES
}

/// The first bytes of a script get the replies to its whole lines, and one more if bytes are left over.
#[test]
fn cuts(rt: HostRuntime) -> Result<(), Fail> {
    right(is_whole(rt.alloc()), SCRIPT.len() as u32)?;
    for k in 0..SCRIPT.len() {
        right(gets_replies(rt.alloc(), &SCRIPT[..k]), k as u32)?;
    }
    Ok(())
}
