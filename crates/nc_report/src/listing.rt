//! The bundle of a fault, read as code: a line for each instruction, with its address, its bytes and its name.

ghost use Rattle.std.specs.Prelude.{◌≡◌, ◌≤◌, ◌<◌, ◌+◌, ◌-◌, true, length, IfSome, OnOk};
ghost use Rattle.nc_disasm.specs.Names.{IsName};
ghost use Rattle.nc_output.specs.Shown.{AreDetails};
ghost use Rattle.nc_output.specs.Adds.{Adds};

use crate::finding::Finding;
use crate::hexadecimal::{put_address, put_byte};
use crate::lines::push_line;
use crate::numbers::choose;
use nc_decode::BUNDLE;
use nc_disasm::{Name, front_name};
use nc_output::push_detail;
use std::alloc::AllocError;

/// The number of bytes in a bundle.
const SIZE: usize = BUNDLE as usize;

/// The most bytes in a line.
const ROW: usize = 8;

/// The length of what stands before the bytes: two spaces, the mark, the address and the colon.
const HEAD: usize = 13;

/// Where what follows the bytes begins, unless they take more.
const COLUMN: usize = 38;

/// The address of a place of the bundle.
pub(crate) fn address_of(finding: &Finding<'_>, k: usize) -> u32
    requires { k < 32 }
{
    (finding.at - finding.at % BUNDLE).wrapping_add(k as u32)
}

/// An instruction begins at a place of the bundle.
pub(crate) fn is_start(finding: &Finding<'_>, k: usize) -> bool
    requires { k < 32 }
{
    finding.starts >> k & 1 == 1
}

/// The name and the bytes of the permitted instruction that begins at a place of the bundle, also if it ends after the bundle. None
/// if there is no such instruction.
fn named_at<'a>(finding: &Finding<'a>, k: usize) -> Option<(Name, &'a [u8])>
    requires { k < 32 }
    ensures { IfSome result (λ named. IsName named.0) }
{
    if !is_start(finding, k) {
        return None;
    }
    let rest = finding.rest.get(k..).unwrap_or(&[]);
    match front_name(address_of(finding, k), rest) {
        Some((name, len)) => Some((name, &rest[..len])),
        None => None,
    }
}

/// Adds the name and the operands of the permitted instruction that begins at a place of the bundle, if there is one.
pub(crate) fn push_named(
    out: &mut Vec<u8>,
    finding: &Finding<'_>,
    k: usize,
) -> Result<(), AllocError>
    requires { k < 32 }
{
    match named_at(finding, k) {
        Some((name, _)) => out.extend_from_slice(&name.text[..name.len]),
        None => Ok(()),
    }
}

/// Puts a row of bytes into some text, in hexadecimal, with a bar before the byte at `bar`. Returns the length of the text.
fn put_bytes(text: &mut [u8], bytes: &[u8], bar: u32) -> usize
    requires few { length bytes.now ≤ 8 }
    requires room { length text.old ≡ 44 }
    ensures within { result ≤ 40 }
    ensures long { length text.new ≡ 44 }
{
    let mut len = 0;
    for n in 0..bytes.len() {
        if n as u32 == bar {
            text[len + 1] = b'|';
            len += 2;
        }
        put_byte(text, len, bytes[n]);
        len += 3;
    }
    len
}

/// Puts a line into some text, after its two spaces: an address, with a mark if it is that of the fault, the bytes there, with a bar at
/// the end of the bundle, and their name. Returns the length of the text so far.
fn put_row(
    text: &mut [u8],
    finding: &Finding<'_>,
    at: u32,
    bytes: &[u8],
    name: Option<&Name>,
) -> usize
    requires few { length bytes.now ≤ 8 }
    requires room { length text.old ≡ 128 }
    requires named { IfSome name (λ n. IsName n.now) }
    ensures some { 2 ≤ result }
    ensures within { result < 128 }
    ensures long { length text.new ≡ 128 }
{
    let end = (finding.at - finding.at % BUNDLE).wrapping_add(BUNDLE);
    if at == finding.at {
        text[2] = b'>';
    }
    put_address(&mut text[4..12], at);
    text[12] = b':';
    let len = HEAD + put_bytes(&mut text[HEAD..HEAD + 44], bytes, end.wrapping_sub(at));
    match name {
        Some(name) => {
            let start = len.max(COLUMN) + 1;
            text[start..start + 64].copy_from_slice(&name.text);
            start + name.len
        }
        None => len,
    }
}

/// Adds a line, and that what it shows stands there this many times.
fn push_times(
    out: &mut Vec<u8>,
    line: &[u8],
    gap: &'static [u8],
    times: usize,
) -> Result<(), AllocError>
    ensures { OnOk result (Adds out.old.items out.new.items AreDetails) }
{
    let digits = [b'0' + (times / 10 % 10) as u8, b'0' + (times % 10) as u8];
    let first = if times < 10 { 1 } else { 0 };
    push_detail(out, &[line, gap, &digits[first..], b" times"])
}

/// Adds a line: an address, with a mark if it is that of the fault, the bytes there, with a bar at the end of the bundle, their name,
/// and the number of times that they stand there, if it isn't 1.
fn push_row(
    out: &mut Vec<u8>,
    finding: &Finding<'_>,
    at: u32,
    bytes: &[u8],
    name: Option<&Name>,
    times: usize,
) -> Result<(), AllocError>
    requires few { length bytes.now ≤ 8 }
    requires named { IfSome name (λ n. IsName n.now) }
    ensures { OnOk result (Adds out.old.items out.new.items AreDetails) }
{
    let mut text = [b' '; 128];
    let len = put_row(&mut text, finding, at, bytes, name);
    if times <= 1 {
        push_line(out, &mut text, len)
    } else {
        let gap = choose(name.is_some(), b"  # ", b" # ");
        push_times(out, &text[2..len.max(COLUMN)], gap, times)
    }
}

/// Adds lines with bytes alone, the first of which are at this address.
fn push_later(
    out: &mut Vec<u8>,
    finding: &Finding<'_>,
    at: u32,
    bytes: &[u8],
) -> Result<(), AllocError>
    ensures { OnOk result (Adds out.old.items out.new.items AreDetails) }
{
    let mut rest = bytes;
    let mut at = at;
    while !rest.is_empty() {
        let len = rest.len().min(ROW);
        push_row(out, finding, at, &rest[..len], None, 1)?;
        at = at.wrapping_add(len as u32);
        rest = &rest[len..];
    }
    Ok(())
}

/// Adds the lines with some bytes, the first of which are at this address. Only the first line has the name and the number of times.
fn push_bytes(
    out: &mut Vec<u8>,
    finding: &Finding<'_>,
    at: u32,
    bytes: &[u8],
    name: Option<&Name>,
    times: usize,
) -> Result<(), AllocError>
    requires { IfSome name (λ n. IsName n.now) }
    ensures { OnOk result (Adds out.old.items out.new.items AreDetails) }
{
    let len = bytes.len().min(ROW);
    push_row(out, finding, at, &bytes[..len], name, times)?;
    push_later(out, finding, at.wrapping_add(len as u32), &bytes[len..])
}

/// The end of what begins at a place of a bundle: the next place where an instruction begins, or the bundle's end.
fn end_of(starts: u32, k: usize) -> usize
    requires { k < 32 }
    ensures above { k < result }
    ensures within { result ≤ 32 }
{
    let after = (starts >> k) >> 1;
    SIZE.min(k + 1 + after.trailing_zeros() as usize)
}

/// The instruction in `first..end` stands once more at a later place. The fault is at neither.
fn is_again(finding: &Finding<'_>, first: usize, end: usize, at: usize) -> bool
    requires some { first < end }
    requires within { end ≤ 32 }
    ensures { result ≡ true → at + (end - first) ≤ 32 }
{
    let len = end - first;
    // Most instructions differ from the one before in their first bytes.
    if SIZE - len < at || finding.bundle[first] != finding.bundle[at] {
        return false;
    }
    let fault = finding.at as usize % SIZE;
    is_start(finding, first)
        && is_start(finding, at)
        && end_of(finding.starts, at) == at + len
        && fault != first
        && fault != at
        && finding.bundle[at..].starts_with(&finding.bundle[first..end])
}

/// The end of a run of equal instructions, the first of which is in `first..end`.
fn run_end(finding: &Finding<'_>, first: usize, end: usize) -> usize
    requires some { first < end }
    requires within { end ≤ 32 }
    ensures low { end ≤ result }
    ensures within { result ≤ 32 }
{
    let mut last = end;
    while is_again(finding, first, end, last) {
        last += end - first;
    }
    last
}

/// Adds the lines about what is in `first..end`, and the equal instructions after it up to `last`.
fn push_run(
    out: &mut Vec<u8>,
    finding: &Finding<'_>,
    first: usize,
    end: usize,
    last: usize,
) -> Result<(), AllocError>
    requires some { first < end }
    requires within { end ≤ 32 }
    ensures { OnOk result (Adds out.old.items out.new.items AreDetails) }
{
    let times = if last == end {
        1
    } else {
        last.saturating_sub(first) / (end - first)
    };
    let at = address_of(finding, first);
    match named_at(finding, first) {
        Some((name, bytes)) => push_bytes(out, finding, at, bytes, Some(&name), times),
        None => push_bytes(out, finding, at, &finding.bundle[first..end], None, times),
    }
}

/// Adds the lines that show the bundle of a fault.
pub(crate) fn push_listing(out: &mut Vec<u8>, finding: &Finding<'_>) -> Result<(), AllocError>
    ensures { OnOk result (Adds out.old.items out.new.items AreDetails) }
{
    let mut k = 0;
    while k < SIZE {
        let end = end_of(finding.starts, k);
        let last = run_end(finding, k, end);
        push_run(out, finding, k, end, last)?;
        k = last;
    }
    Ok(())
}
