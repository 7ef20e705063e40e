//! One read or one write fails, at each place in turn and with errors of several kinds.

use crate::hostile::devices::{Bytewise, Taking};
use crate::hostile::script::{CHUNKS, REPLIES, SCRIPT, VERDICTS, replies_to};
use crate::lower::rows::right;
use nc_lines::{ReplayFault, vet_lines};
use nc_script::run;
use nc_work::Open;
use std::alloc::Global;
use std::io::{ErrorKind, Read, Write};
use std::sync::Wait;
use std::test::Fail;
use std::thread::Threads;

/// How a call ends.
type End = Result<(), ReplayFault>;

/// Kinds of error, also those that elsewhere mean that a call is to be made again, that memory is out, or that all was read.
#[rattlefmt::skip]
static KINDS: [ErrorKind; 8] = [
    ErrorKind::Interrupted,
    ErrorKind::WouldBlock,
    ErrorKind::OutOfMemory,
    ErrorKind::UnexpectedEof,
    ErrorKind::WriteZero,
    ErrorKind::BrokenPipe,
    ErrorKind::TimedOut,
    ErrorKind::Other,
];

/// What is run over a reader and a writer.
#[derive(Clone, Copy)]
enum Input {
    /// A script.
    Script,
    /// Lines of chunks.
    Chunks,
}

impl Input {
    /// The bytes that are read.
    fn bytes(self) -> &'static [u8] {
        match self {
            Input::Script => SCRIPT,
            Input::Chunks => CHUNKS,
        }
    }

    /// The bytes that are written.
    fn output(self) -> &'static [u8] {
        match self {
            Input::Script => REPLIES,
            Input::Chunks => VERDICTS,
        }
    }

    /// The bytes that are written where the read after these first bytes fails: the replies to the lines of a script that ended, and
    /// nothing of lines of chunks.
    fn output_of(self, front: &[u8]) -> &'static [u8] {
        match self {
            Input::Script => replies_to(front),
            Input::Chunks => b"",
        }
    }

    /// Runs a script with one seat, or lines of chunks with two workers, for a region of four bundles. The function has no clause,
    /// so that proofs of its callers don't deal with the contracts of `run` and `vet_lines`.
    fn run<T: Threads + Wait + Sync, R: Read, W: Write>(
        self,
        rt: &T,
        alloc: Global,
        reader: &mut R,
        writer: &mut W,
    ) -> End {
        match self {
            Input::Script => run(alloc, reader, writer, 4, 1),
            Input::Chunks => vet_lines(rt, alloc, reader, writer, 4, 2, &Open),
        }
    }
}

/// Whether a failed read after this number of bytes leaves what it should.
fn is_read_failed<T: Threads + Wait + Sync>(
    rt: &T,
    alloc: Global,
    input: Input,
    place: usize,
    kind: ErrorKind,
) -> bool {
    let mut reader = Bytewise::failing(input.bytes(), place, kind);
    let mut writer = Taking::all(alloc);
    let end = input.run(rt, alloc, &mut reader, &mut writer);
    let front = input.bytes().get(..place).unwrap_or(b"");
    end == Err(ReplayFault::ReadFailed) && writer.has(input.output_of(front))
}

/// Tries each read in turn, also the one after the last byte.
fn try_reads<T: Threads + Wait + Sync>(
    rt: &T,
    alloc: Global,
    input: Input,
    kind: ErrorKind,
) -> Result<(), Fail> {
    let mut row = 0u32;
    for place in 0..=input.bytes().len() {
        right(is_read_failed(rt, alloc, input, place, kind), row)?;
        row = row.wrapping_add(1);
    }
    Ok(())
}

/// Whether a failed write after this number of bytes leaves them alone. A write without an error takes nothing.
fn is_write_failed<T: Threads + Wait + Sync>(
    rt: &T,
    alloc: Global,
    input: Input,
    place: usize,
    kind: Option<ErrorKind>,
) -> bool {
    let mut reader = input.bytes();
    let mut writer = Taking::failing(alloc, place, kind);
    let end = input.run(rt, alloc, &mut reader, &mut writer);
    end == Err(ReplayFault::WriteFailed) && writer.has(input.output().get(..place).unwrap_or(b""))
}

/// Tries each write in turn.
fn try_writes<T: Threads + Wait + Sync>(
    rt: &T,
    alloc: Global,
    input: Input,
    kind: Option<ErrorKind>,
) -> Result<(), Fail> {
    let mut row = 0u32;
    for place in 0..input.output().len() {
        right(is_write_failed(rt, alloc, input, place, kind), row)?;
        row = row.wrapping_add(1);
    }
    Ok(())
}

/// Whether a reader and a writer of single bytes that don't fail get everything.
fn is_whole<T: Threads + Wait + Sync>(rt: &T, alloc: Global, input: Input) -> bool {
    let mut reader = Bytewise::whole(input.bytes());
    let mut writer = Taking::all(alloc);
    let end = input.run(rt, alloc, &mut reader, &mut writer);
    end.is_ok() && writer.has(input.output())
}

/// Tries each read and each write of this input in turn.
fn try_input<T: Threads + Wait + Sync>(rt: &T, alloc: Global, input: Input) -> Result<(), Fail> {
    right(is_whole(rt, alloc, input), 0)?;
    for kind in &KINDS {
        try_reads(rt, alloc, input, *kind)?;
        try_writes(rt, alloc, input, Some(*kind))?;
    }
    try_writes(rt, alloc, input, None)
}

/// Whether a script whose second line isn't read to its end gets the reply to its first one; lines of chunks get none.
fn is_begun<T: Threads + Wait + Sync>(rt: &T, alloc: Global, input: Input, output: &[u8]) -> bool {
    let begun = b"dump\nrecl";
    let mut reader = Bytewise::failing(begun, begun.len(), ErrorKind::Other);
    let mut writer = Taking::all(alloc);
    let end = input.run(rt, alloc, &mut reader, &mut writer);
    end == Err(ReplayFault::ReadFailed) && writer.has(output)
}

/// After a failed read or write, exactly what came before it was written.
#[test]
fn one_fault(rt: HostRuntime) -> Result<(), Fail> {
    try_input(&rt, rt.alloc(), Input::Script)?;
    try_input(&rt, rt.alloc(), Input::Chunks)?;
    right(is_begun(&rt, rt.alloc(), Input::Script, b"dump\n"), 1)?;
    right(is_begun(&rt, rt.alloc(), Input::Chunks, b""), 2)
}
