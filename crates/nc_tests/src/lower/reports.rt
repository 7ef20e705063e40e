//! Sources and reports in cases that the built program doesn't show: names and labels that no file has, and a flush that fails.

use crate::lower::devices::Slow;
use crate::lower::rows::right;
use nc_output::{Detail, Format, Style};
use nc_report::{Label, Labels, ReportFault, Source, report};
use std::alloc::Global;
use std::io::{ErrorKind, Write};
use std::test::Fail;

/// An address and its name.
type Named = (u32, &'static [u8]);

/// A return before nops.
const RETURN: &[u8] =
    b"\xc3\x90\x90\x90\x90\x90\x90\x90\x90\x90\x90\x90\x90\x90\x90\x90\x90\x90\x90\x90\x90\x90\x90\x90\x90\x90\x90\x90\x90\x90\x90\x90";

/// A return, three instructions of ten bytes, and a nop.
const LONG: &[u8] =
    b"\xc3\xc7\x80\x78\x56\x34\x12\x78\x56\x34\x12\xc7\x80\x78\x56\x34\x12\x78\x56\x34\x12\xc7\x80\x78\x56\x34\x12\x78\x56\x34\x12\x90";

/// Nops.
const NOPS: &[u8] = &[0x90; 64];

/// A source's name, its code at 00010000, its labels, the level of detail, the form, the error of a flush, the answer, and the output.
type Row = (
    &'static [u8],
    &'static [u8],
    &'static [Named],
    Detail,
    Format,
    Option<ErrorKind>,
    Result<bool, ReportFault>,
    &'static [u8],
);

#[rattlefmt::skip]
static ROWS: [Row; 10] = [
    // The label of an address may lie below the code; offsets of one digit and of more.
    (b"a", RETURN, &[(0xFFFF, b"f")], Detail::Usual, Format::Text, None, Ok(true),
        b"a: refused NotPermitted 00010000\n\
        \x20 00010000 <f+0x1>\n\
        \x20 > 00010000: c3\n\
        \x20   00010001: 90                       nop  # 31 times\n\
        \x20 a return (ret): compile with nc-cc, or pop the address into a register, mask it, and jump through it; see docs/GUIDE.md\n"),
    (b"a", RETURN, &[(0, b"zero"), (0xFFFF_FFFF, b"top")], Detail::Usual, Format::Text, None, Ok(true),
        b"a: refused NotPermitted 00010000\n\
        \x20 00010000 <zero+0x10000>\n\
        \x20 > 00010000: c3\n\
        \x20   00010001: 90                       nop  # 31 times\n\
        \x20 a return (ret): compile with nc-cc, or pop the address into a register, mask it, and jump through it; see docs/GUIDE.md\n"),
    // Bytes that would end the line, or control a terminal; a space, and bytes of UTF-8; an empty name.
    (b"a", RETURN, &[(0x1_0000, b"\x00a\nb\x1b[1m\x1f \x7e\x7f\x80\xc3\xa9\xff")], Detail::Usual, Format::Text, None, Ok(true),
        b"a: refused NotPermitted 00010000\n\
        \x20 00010000 <?a?b?[1m? ~?\x80\xc3\xa9\xff>\n\
        \x20 > 00010000: c3\n\
        \x20   00010001: 90                       nop  # 31 times\n\
        \x20 a return (ret): compile with nc-cc, or pop the address into a register, mask it, and jump through it; see docs/GUIDE.md\n"),
    (b"a", RETURN, &[(0xFFFF, b"")], Detail::Usual, Format::Text, None, Ok(true),
        b"a: refused NotPermitted 00010000\n\
        \x20 00010000 <+0x1>\n\
        \x20 > 00010000: c3\n\
        \x20   00010001: 90                       nop  # 31 times\n\
        \x20 a return (ret): compile with nc-cc, or pop the address into a register, mask it, and jump through it; see docs/GUIDE.md\n"),
    (b"a", LONG, &[(0xFFFF, b"\"\\\n\x7f\xc3\xa9")], Detail::Usual, Format::Json, None, Ok(true),
        b"{\"file\":\"a\",\"address\":\"00010000\",\"verdict\":\"refused\",\"fault\":\"NotPermitted\",\"at\":\"00010000\",\
        \"symbol\":\"\\\"\\\\\\u000a\\u007f\xc3\xa9+0x1\",\"meaning\":\
        \"a return (ret): compile with nc-cc, or pop the address into a register, mask it, and jump through it; see docs/GUIDE.md\",\
        \"bundle\":\"c3c7807856341278563412c7807856341278563412c780785634127856341290\",\"starts\":[{\"at\":\"00010000\"},\
        {\"at\":\"00010001\",\"name\":\"movl $0x12345678,0x12345678(%eax)\"},\
        {\"at\":\"0001000b\",\"name\":\"movl $0x12345678,0x12345678(%eax)\"},\
        {\"at\":\"00010015\",\"name\":\"movl $0x12345678,0x12345678(%eax)\"},{\"at\":\"0001001f\",\"name\":\"nop\"}]}\n"),
    // A name with each byte that JSON requires to be escaped, and an empty name.
    (b"a\"b\\c/\x00\x0a\x1f ~\x7f\x80\xc3\xa9\xff", NOPS, &[], Detail::Usual, Format::Json, None, Ok(false),
        b"{\"file\":\"a\\\"b\\\\c/\\u0000\\u000a\\u001f ~\\u007f\x80\xc3\xa9\xff\",\"address\":\"00010000\",\
        \"verdict\":\"ok\",\"bytes\":64,\"instructions\":64}\n"),
    (b"", NOPS, &[], Detail::Usual, Format::Json, None, Ok(false),
        b"{\"file\":\"\",\"address\":\"00010000\",\"verdict\":\"ok\",\"bytes\":64,\"instructions\":64}\n"),
    // A flush that fails after everything was taken is a failed write.
    (b"a", NOPS, &[], Detail::Usual, Format::Text, Some(ErrorKind::Other), Err(ReportFault::WriteFailed), b"a: ok, 64 bytes, 64 instructions\n"),
    (b"a", NOPS, &[], Detail::All, Format::Text, Some(ErrorKind::Other), Err(ReportFault::WriteFailed), b"a: ok, 64 bytes, 64 instructions\n"),
    (b"a", NOPS, &[], Detail::Usual, Format::Json, Some(ErrorKind::Other), Err(ReportFault::WriteFailed),
        b"{\"file\":\"a\",\"address\":\"00010000\",\"verdict\":\"ok\",\"bytes\":64,\"instructions\":64}\n"),
];

/// A copy of these bytes. Where there is no memory for it, it is empty, and the test fails by the output.
fn copied(alloc: Global, bytes: &[u8]) -> Vec<u8> {
    let mut copy = Vec::new(alloc);
    let _is_whole = copy.extend_from_slice(bytes);
    copy
}

/// Labels with these addresses and names.
fn list(alloc: Global, rows: &[Named]) -> Vec<Label> {
    let mut list = Vec::new(alloc);
    for (address, name) in rows {
        let _is_there = list.push(Label {
            address: *address,
            name: copied(alloc, name),
        });
    }
    list
}

/// A source with this name, code and labels.
fn only(alloc: Global, name: &[u8], code: &[u8], labels: Labels) -> Source {
    Source {
        name: copied(alloc, name),
        code: copied(alloc, code),
        labels,
    }
}

/// Writes the report on a source in a region of five bundles. The function has no clause, so that proofs of its callers don't deal
/// with the contract of `report`.
fn write_report<W: Write>(
    alloc: Global,
    source: Source,
    style: Style,
    writer: &mut W,
) -> Result<bool, ReportFault> {
    report(alloc, source, 0x10000, 5, style, writer)
}

/// Whether the report on a source is as its row says. The output is flushed once.
fn is_reported(alloc: Global, row: &Row) -> bool {
    let (name, code, named, detail, format, flush_error, due, owed) = *row;
    let Some(labels) = Labels::new(list(alloc, named)) else {
        return false;
    };
    let source = only(alloc, name, code, labels);
    let mut writer = Slow::new(alloc, 7, None, flush_error);
    write_report(alloc, source, Style { detail, format }, &mut writer) == due && writer.has(owed)
}

/// Tries each row.
fn try_rows(alloc: Global, rows: &[Row]) -> Result<(), Fail> {
    let mut number = 0u32;
    for row in rows {
        number = number.wrapping_add(1);
        right(is_reported(alloc, row), number)?;
    }
    Ok(())
}

#[test]
fn reports(rt: HostRuntime) -> Result<(), Fail> {
    try_rows(rt.alloc(), &ROWS)
}

/// Whether these are accepted as labels.
fn are_labels(alloc: Global, named: &[Named]) -> bool {
    Labels::new(list(alloc, named)).is_some()
}

/// Addresses that don't ascend aren't accepted as labels, wherever the descent is.
#[test]
fn descending(rt: HostRuntime) -> Result<(), Fail> {
    let alloc = rt.alloc();
    let are_right = are_labels(alloc, &[(1, b"a"), (1, b"b"), (2, b"c")])
        && !are_labels(alloc, &[(2, b"a"), (1, b"b")])
        && !are_labels(alloc, &[(1, b"a"), (1, b"b"), (0, b"c")])
        && !are_labels(alloc, &[(1, b"a"), (3, b"b"), (2, b"c"), (4, b"d")]);
    right(are_right, 1)
}
