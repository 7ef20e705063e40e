//! The addresses outside a chunk that its direct transfers target.

ghost use Rattle.std.specs.Prelude.{◌≡◌, ◌++◌, ◌+◌, ◌<◌, ◌^◌, List, codes, length, IfOk, OnOk};
ghost use Rattle.std.specs.List.Sorted.{IsNonDecreasing};
ghost use Rattle.nc_vet.specs.Chunk.{Piece, code_of, AreSpelled};
ghost use Rattle.nc_report.specs.Outside.{sent_outside, row_words, row_object, row_text};
ghost use Rattle.nc_output.specs.Shown.{detail_line};
ghost use Rattle.nc_report.specs.machinery.Found.{AddsRows, AddsCalls};
ghost use Rattle.nc_report.specs.machinery.Runs.{IsSent, BeginsWithRun, AddsCounts};

use crate::json::after_first;
use crate::numbers::{address_digits, choose, push_all, push_text};
use nc_decode::{Instr, decode};
use nc_output::{Detail, Format, push_between};
use std::alloc::{AllocError, Global};

/// Adds the target of the instruction at this address, if it is a direct transfer to an address outside the code.
fn push_sent(
    sent: &mut Vec<u32>,
    base: u32,
    length: usize,
    at: u32,
    instr: &Instr,
) -> Result<(), AllocError>
    requires { at + instr.now.len < 2 ^ 32 }
    ensures { OnOk result (sent.new.items ≡ sent.old.items ++ sent_outside base length instr.now at) }
{
    if !instr.flow.is_direct() {
        return Ok(());
    }
    let to = instr.target(at);
    if to < base || (to - base) as usize >= length {
        sent.push(to)?;
    }
    Ok(())
}

/// The addresses outside the code that its direct transfers target, in the order of the instructions.
fn all_sent(alloc: Global, base: u32, code: &[u8]) -> Result<Vec<u32>, AllocError>
    requires { base + length code.now < 2 ^ 32 }
    ensures { IfOk result (λ sent. IsSent base code.now sent.items) }
{
    let mut sent = Vec::new(alloc);
    let mut at = 0;
    while at < code.len() {
        let Ok(instr) = decode(&code[at..]) else {
            break;
        };
        push_sent(&mut sent, base, code.len(), base + at as u32, &instr)?;
        at += usize::from(instr.len);
    }
    Ok(sent)
}

/// The length of the run of equal numbers at the front.
fn run_of(numbers: &[u32]) -> usize
    requires { 0 < length numbers.now }
    ensures { BeginsWithRun numbers.now result }
{
    let mut count = 1;
    while count < numbers.len() && numbers[count] == numbers[0] {
        count += 1;
    }
    count
}

/// Adds the line about an address and the number of transfers to it.
fn push_line(out: &mut Vec<u8>, to: u32, times: usize) -> Result<(), AllocError>
    ensures { OnOk result (out.new.items ≡ out.old.items ++ detail_line (row_words (record { to = to; times = times }))) }
{
    let count = times.to_string(*out.allocator())?;
    push_all(
        out,
        &[
            b"  -> ",
            &address_digits(to),
            b": ",
            count.as_bytes(),
            choose(times == 1, b" transfer", b" transfers"),
            b"\n",
        ],
    )
}

/// Adds the object for an address and the number of transfers to it, after a comma.
fn push_object(out: &mut Vec<u8>, to: u32, times: usize) -> Result<(), AllocError>
    ensures { OnOk result (out.new.items ≡ out.old.items ++ (codes "," ++ row_object (record { to = to; times = times }))) }
{
    let count = times.to_string(*out.allocator())?;
    push_between(
        out,
        b",{\"to\":\"",
        &address_digits(to),
        b"\",\"transfers\":",
    )?;
    push_text(out, count.as_bytes())?;
    push_text(out, b"}")
}

/// Adds the row of an address and the number of transfers to it.
fn push_row(out: &mut Vec<u8>, to: u32, times: usize, format: Format) -> Result<(), AllocError>
    ensures { OnOk result (out.new.items ≡ out.old.items ++ row_text format (record { to = to; times = times })) }
{
    match format {
        Format::Text => push_line(out, to, times),
        Format::Json => push_object(out, to, times),
    }
}

/// Adds a row for each distinct one of these numbers, which are in ascending order, with the number of its occurrences.
fn push_counts(out: &mut Vec<u8>, numbers: &[u32], format: Format) -> Result<(), AllocError>
    requires { IsNonDecreasing numbers.now }
    ensures { OnOk result (AddsCounts format numbers.now out.old.items out.new.items) }
{
    let mut rest = numbers;
    while !rest.is_empty() {
        let times = run_of(rest);
        push_row(out, rest[0], times, format)?;
        rest = &rest[times..];
    }
    Ok(())
}

/// Adds the rows about the addresses outside some code that its direct transfers target.
fn push_rows(out: &mut Vec<u8>, base: u32, code: &[u8], format: Format) -> Result<(), AllocError>
    requires { base + length code.now < 2 ^ 32 }
    ensures { OnOk result ((pieces : List Piece) → AreSpelled pieces → code.now ≡ code_of pieces
        → AddsRows format out.old.items out.new.items base pieces) }
{
    let mut sent = all_sent(*out.allocator(), base, code)?;
    sent.sort_unstable();
    push_counts(out, &sent, format)
}

/// Adds the rows as lines, or as a member that is an array.
pub(crate) fn push_calls(
    out: &mut Vec<u8>,
    base: u32,
    code: &[u8],
    format: Format,
) -> Result<(), AllocError>
    requires { base + length code.now < 2 ^ 32 }
    ensures { OnOk result ((pieces : List Piece) → AreSpelled pieces → code.now ≡ code_of pieces
        → AddsCalls Detail.Calls format out.old.items out.new.items base pieces) }
{
    match format {
        Format::Text => push_rows(out, base, code, Format::Text),
        Format::Json => {
            let mut rows = Vec::new(*out.allocator());
            push_rows(&mut rows, base, code, Format::Json)?;
            push_text(out, b",\"calls\":[")?;
            push_text(out, after_first(&rows))?;
            push_text(out, b"]")
        }
    }
}
