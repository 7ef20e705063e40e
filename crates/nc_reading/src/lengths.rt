//! The length of an instruction, whether or not it is permitted: for a reading that continues after a refused one.
//!
//! Lengths are those of the Intel 64 and IA-32 Architectures Software Developer's Manual (SDM), volume 2, chapter 2 and
//! appendix A, and for 3DNow, SSE4a and XOP those of AMD's manual, volumes 3 to 5.

ghost use Rattle.std.specs.Prelude.{◌≡◌, ◌≤◌, ◌+◌, length, take, get_or, slice_index, IfSome};
ghost use Rattle.std.specs.List.{prefix_len};
ghost use Rattle.nc_decode.specs.Barred.{leading, among};
ghost use Rattle.nc_decode.specs.Spelling.{operand_len};
ghost use Rattle.nc_reading.specs.declared.lengths.Form.TheVariants.{Unknown};
ghost use Rattle.nc_reading.specs.Lengths.{longest, has, sized, number_size, short_operand_len, operand_size, tail_len, vector_form, evex_form, xop_form, escaped_head, head_of, at_most, known_length};

/// The greatest length of an instruction, in bytes.
const LONGEST: usize = 15;

/// The number after an opcode and its operand: an immediate, a displacement or an address.
#[derive(Clone, Copy)]
pub(crate) enum Number {
    /// None.
    Absent,
    /// One byte.
    Byte,
    /// Two bytes.
    Word,
    /// Three bytes: two for the size of a frame, and one for its nesting level.
    Frame,
    /// Four bytes, or two after the prefix 66.
    Sized,
    /// A selector after an offset of four bytes, or of two after the prefix 66.
    Far,
    /// The address of a memory operand: four bytes, or two after the prefix 67.
    Offset,
    /// `Byte` where ModRM's reg field is 0 or 1, else `Absent`.
    TestByte,
    /// `Sized` where ModRM's reg field is 0 or 1, else `Absent`.
    TestSized,
    /// Two single bytes after the prefix 66 or F2, else `Absent`.
    Field,
}

/// What follows an opcode.
#[derive(Clone, Copy)]
pub(crate) enum Form {
    /// The opcode is not known.
    Unknown,
    /// A number.
    Alone(Number),
    /// ModRM with its SIB and displacement, and a number.
    Operand(Number),
    /// ModRM, which names registers whatever its mod field is.
    Registers,
}

/// The number of bytes up to the last one of the opcode, and the form of what follows.
#[derive(Clone, Copy)]
pub(crate) struct Head {
    pub len: usize,
    pub form: Form,
}

// Short names for the tables: an unknown opcode, an opcode by itself, an opcode with a number, and an opcode with ModRM.
const NO: Form = Form::Unknown;

const OP: Form = Form::Alone(Number::Absent);

const IB: Form = Form::Alone(Number::Byte);

const IW: Form = Form::Alone(Number::Word);

const FR: Form = Form::Alone(Number::Frame);

const IZ: Form = Form::Alone(Number::Sized);

const FA: Form = Form::Alone(Number::Far);

const AD: Form = Form::Alone(Number::Offset);

const RM: Form = Form::Operand(Number::Absent);

const MB: Form = Form::Operand(Number::Byte);

const MZ: Form = Form::Operand(Number::Sized);

const TB: Form = Form::Operand(Number::TestByte);

const TZ: Form = Form::Operand(Number::TestSized);

const MF: Form = Form::Operand(Number::Field);

const RR: Form = Form::Registers;

/// The one-byte opcodes. Prefixes, and the byte 0F of a two-byte opcode, are `NO`; C4, C5, 62 and 8F have the form that they
/// have outside AVX and XOP.
#[rattlefmt::skip]
pub(crate) static ONE_BYTE: [Form; 256] = [
    //      0   1   2   3   4   5   6   7   8   9   A   B   C   D   E   F
    /* 0 */ RM, RM, RM, RM, IB, IZ, OP, OP, RM, RM, RM, RM, IB, IZ, OP, NO,
    /* 1 */ RM, RM, RM, RM, IB, IZ, OP, OP, RM, RM, RM, RM, IB, IZ, OP, OP,
    /* 2 */ RM, RM, RM, RM, IB, IZ, NO, OP, RM, RM, RM, RM, IB, IZ, NO, OP,
    /* 3 */ RM, RM, RM, RM, IB, IZ, NO, OP, RM, RM, RM, RM, IB, IZ, NO, OP,
    /* 4 */ OP, OP, OP, OP, OP, OP, OP, OP, OP, OP, OP, OP, OP, OP, OP, OP,
    /* 5 */ OP, OP, OP, OP, OP, OP, OP, OP, OP, OP, OP, OP, OP, OP, OP, OP,
    /* 6 */ OP, OP, RM, RM, NO, NO, NO, NO, IZ, MZ, IB, MB, OP, OP, OP, OP,
    /* 7 */ IB, IB, IB, IB, IB, IB, IB, IB, IB, IB, IB, IB, IB, IB, IB, IB,
    /* 8 */ MB, MZ, MB, MB, RM, RM, RM, RM, RM, RM, RM, RM, RM, RM, RM, RM,
    /* 9 */ OP, OP, OP, OP, OP, OP, OP, OP, OP, OP, FA, OP, OP, OP, OP, OP,
    /* A */ AD, AD, AD, AD, OP, OP, OP, OP, IB, IZ, OP, OP, OP, OP, OP, OP,
    /* B */ IB, IB, IB, IB, IB, IB, IB, IB, IZ, IZ, IZ, IZ, IZ, IZ, IZ, IZ,
    /* C */ MB, MB, IW, OP, RM, RM, MB, MZ, FR, OP, IW, OP, OP, IB, OP, OP,
    /* D */ RM, RM, RM, RM, IB, IB, NO, OP, RM, RM, RM, RM, RM, RM, RM, RM,
    /* E */ IB, IB, IB, IB, IB, IB, IB, IB, IZ, IZ, FA, IB, OP, OP, OP, OP,
    /* F */ NO, OP, NO, NO, OP, OP, TB, TZ, OP, OP, OP, OP, OP, OP, RM, RM,
];

/// The opcodes after the byte 0F. 38 and 3A, which begin three-byte opcodes, are `NO`.
#[rattlefmt::skip]
pub(crate) static TWO_BYTE: [Form; 256] = [
    //      0   1   2   3   4   5   6   7   8   9   A   B   C   D   E   F
    /* 0 */ RM, RM, RM, RM, NO, OP, OP, OP, OP, OP, NO, OP, NO, RM, OP, MB,
    /* 1 */ RM, RM, RM, RM, RM, RM, RM, RM, RM, RM, RM, RM, RM, RM, RM, RM,
    /* 2 */ RR, RR, RR, RR, NO, NO, NO, NO, RM, RM, RM, RM, RM, RM, RM, RM,
    /* 3 */ OP, OP, OP, OP, OP, OP, NO, OP, NO, NO, NO, NO, NO, NO, NO, NO,
    /* 4 */ RM, RM, RM, RM, RM, RM, RM, RM, RM, RM, RM, RM, RM, RM, RM, RM,
    /* 5 */ RM, RM, RM, RM, RM, RM, RM, RM, RM, RM, RM, RM, RM, RM, RM, RM,
    /* 6 */ RM, RM, RM, RM, RM, RM, RM, RM, RM, RM, RM, RM, RM, RM, RM, RM,
    /* 7 */ MB, MB, MB, MB, RM, RM, RM, OP, MF, RM, NO, NO, RM, RM, RM, RM,
    /* 8 */ IZ, IZ, IZ, IZ, IZ, IZ, IZ, IZ, IZ, IZ, IZ, IZ, IZ, IZ, IZ, IZ,
    /* 9 */ RM, RM, RM, RM, RM, RM, RM, RM, RM, RM, RM, RM, RM, RM, RM, RM,
    /* A */ OP, OP, OP, RM, MB, RM, NO, NO, OP, OP, OP, RM, MB, RM, RM, RM,
    /* B */ RM, RM, RM, RM, RM, RM, RM, RM, RM, RM, MB, RM, RM, RM, RM, RM,
    /* C */ RM, RM, MB, RM, MB, MB, MB, RM, OP, OP, OP, OP, OP, OP, OP, OP,
    /* D */ RM, RM, RM, RM, RM, RM, RM, RM, RM, RM, RM, RM, RM, RM, RM, RM,
    /* E */ RM, RM, RM, RM, RM, RM, RM, RM, RM, RM, RM, RM, RM, RM, RM, RM,
    /* F */ RM, RM, RM, RM, RM, RM, RM, RM, RM, RM, RM, RM, RM, RM, RM, RM,
];

/// The byte at `k`, or 0 after the last.
fn byte_at(bytes: &[u8], k: usize) -> u8
    ensures { result ≡ slice_index bytes.now k }
{
    if k < bytes.len() { bytes[k] } else { 0 }
}

/// The first 15 bytes, or all if there are fewer: an instruction at the front has no others.
fn front(bytes: &[u8]) -> &[u8]
    ensures value { result.now ≡ take longest bytes.now }
    ensures small { length result.now ≤ longest }
    ensures within { length result.now ≤ length bytes.now }
{
    if bytes.len() <= LONGEST {
        return bytes;
    }
    &bytes[..LONGEST]
}

/// Any prefix, permitted or not.
fn is_prefix(byte: u8) -> bool
    ensures { result ≡ among leading byte }
{
    matches!(
        byte,
        0x66 | 0x67 | 0xF0 | 0xF2 | 0xF3 | 0x26 | 0x2E | 0x36 | 0x3E | 0x64 | 0x65
    )
}

/// The number of prefixes at the front.
fn count_prefixes(bytes: &[u8]) -> usize
    ensures value { result ≡ prefix_len (among leading) bytes.now }
    ensures within { result ≤ length bytes.now }
{
    for count in 0..bytes.len() {
        if !is_prefix(bytes[count]) {
            return count;
        }
    }
    bytes.len()
}

/// The byte is one of these prefixes.
fn has(before: &[u8], byte: u8) -> bool
    ensures { result ≡ has byte before.now }
{
    before.contains(&byte)
}

/// The length of a number whose size depends on the prefix 66.
fn sized(before: &[u8]) -> usize
    ensures value { result ≡ sized before.now }
    ensures small { result ≤ 4 }
{
    if has(before, 0x66) { 2 } else { 4 }
}

/// The length of a number after these prefixes, and after this ModRM if there is one.
fn number_len(number: Number, before: &[u8], modrm: u8) -> usize
    ensures value { result ≡ number_size number before.now modrm }
    ensures small { result ≤ 6 }
{
    match number {
        Number::Absent => 0,
        Number::Byte => 1,
        Number::Word => 2,
        Number::Frame => 3,
        Number::Sized => sized(before),
        Number::Far => sized(before) + 2,
        Number::Offset if has(before, 0x67) => 2,
        Number::Offset => 4,
        Number::TestByte if modrm / 8 % 8 < 2 => 1,
        Number::TestByte => 0,
        Number::TestSized if modrm / 8 % 8 < 2 => sized(before),
        Number::TestSized => 0,
        Number::Field if has(before, 0x66) || has(before, 0xF2) => 2,
        Number::Field => 0,
    }
}

/// The length of ModRM, SIB and displacement with 32-bit addresses.
fn operand_len(modrm: u8, sib: u8) -> usize
    ensures value { result ≡ operand_len modrm sib }
    ensures small { result ≤ 6 }
{
    let with_sib = if modrm % 8 == 4 && modrm / 64 < 3 {
        2
    } else {
        1
    };
    let baseless = modrm % 8 == 5 || (modrm % 8 == 4 && sib % 8 == 5);
    let displacement = match modrm / 64 {
        1 => 1,
        2 => 4,
        0 if baseless => 4,
        _ => 0,
    };
    with_sib + displacement
}

/// The length of ModRM and its displacement with 16-bit addresses.
fn short_operand_len(modrm: u8) -> usize
    ensures value { result ≡ short_operand_len modrm }
    ensures small { result ≤ 3 }
{
    match modrm / 64 {
        1 => 2,
        2 => 3,
        0 if modrm % 8 == 6 => 3,
        _ => 1,
    }
}

/// The length of ModRM, SIB and displacement after these prefixes.
fn operand_size(before: &[u8], modrm: u8, sib: u8) -> usize
    ensures value { result ≡ operand_size before.now modrm sib }
    ensures small { result ≤ 6 }
{
    if has(before, 0x67) {
        return short_operand_len(modrm);
    }
    operand_len(modrm, sib)
}

/// The number of bytes after an opcode of this form, if it is known; the first two of them are `modrm` and `sib`.
fn tail_len(form: Form, before: &[u8], modrm: u8, sib: u8) -> Option<usize>
    ensures value { result ≡ tail_len form before.now modrm sib }
    ensures small { IfSome result (λ n. n ≤ 12) }
{
    match form {
        Form::Unknown => None,
        Form::Alone(number) => Some(number_len(number, before, modrm)),
        Form::Operand(number) => {
            Some(operand_size(before, modrm, sib) + number_len(number, before, modrm))
        }
        Form::Registers => Some(1),
    }
}

/// The form of an opcode in a table.
fn form_in(table: &[Form], opcode: u8) -> Form
    ensures { result ≡ get_or table.now opcode Unknown }
{
    let k = usize::from(opcode);
    if k < table.len() {
        table[k]
    } else {
        Form::Unknown
    }
}

/// The form of an AVX opcode after VEX or EVEX, by the number of its map.
fn vector_form(map: u8, opcode: u8) -> Form
    ensures { result ≡ vector_form map opcode }
{
    match map {
        1 if opcode == 0x77 => OP,
        1
            if matches!(
                opcode,
                0x70 | 0x71 | 0x72 | 0x73 | 0xC2 | 0xC4 | 0xC5 | 0xC6
            ) => MB,
        1 | 2 => RM,
        3 => MB,
        _ => NO,
    }
}

/// The form of an opcode after EVEX, which has maps 5 and 6 besides those of VEX.
fn evex_form(map: u8, opcode: u8) -> Form
    ensures { result ≡ evex_form map opcode }
{
    if map == 5 || map == 6 {
        return RM;
    }
    vector_form(map, opcode)
}

/// The form of an XOP opcode, by the number of its map.
fn xop_form(map: u8) -> Form
    ensures { result ≡ xop_form map }
{
    match map {
        8 => MB,
        9 => RM,
        10 => MZ,
        _ => NO,
    }
}

/// The head of an instruction that begins with 0F and this byte.
fn escaped_head(second: u8) -> Head
    ensures value { result ≡ escaped_head second }
    ensures some { 1 ≤ result.len }
    ensures small { result.len ≤ 3 }
{
    match second {
        0x38 => Head { len: 3, form: RM },
        0x3A => Head { len: 3, form: MB },
        _ => Head {
            len: 2,
            form: form_in(&TWO_BYTE, second),
        },
    }
}

/// The head of the instruction at the front, after its prefixes.
fn head_of(rest: &[u8]) -> Head
    ensures value { result ≡ head_of rest.now }
    ensures some { 1 ≤ result.len }
    ensures small { result.len ≤ 5 }
{
    let second = byte_at(rest, 1);
    match byte_at(rest, 0) {
        0x0F => escaped_head(second),
        0xC5 if second >= 0xC0 => Head {
            len: 3,
            form: vector_form(1, byte_at(rest, 2)),
        },
        0xC4 if second >= 0xC0 => Head {
            len: 4,
            form: vector_form(second % 32, byte_at(rest, 3)),
        },
        0x62 if second >= 0xC0 => Head {
            len: 5,
            form: evex_form(second % 16, byte_at(rest, 4)),
        },
        0x8F if second % 32 >= 8 => Head {
            len: 4,
            form: xop_form(second % 32),
        },
        first => Head {
            len: 1,
            form: form_in(&ONE_BYTE, first),
        },
    }
}

/// A length, if it is at most `room`.
fn at_most(room: usize, whole: usize) -> Option<usize>
    ensures value { result ≡ at_most room whole }
    ensures kept { IfSome result (λ n. n ≡ whole) }
    ensures within { IfSome result (λ n. n ≤ room) }
{
    if whole <= room { Some(whole) } else { None }
}

/// The length of the instruction at the front of these bytes, whether or not it is permitted, if it is known.
///
/// It isn't known if the bytes end before the instruction does, if the instruction would have more than 15 bytes, or if its
/// opcode isn't in the manual's maps. A length does not mean that a processor executes the instruction: an existing opcode
/// has a length with any operand and any prefixes.
pub(crate) fn known_len(bytes: &[u8]) -> Option<usize>
    ensures value { result ≡ known_length bytes.now }
    ensures within { IfSome result (λ n. (1 ≤ n) × (n ≤ longest) × (n ≤ length bytes.now)) }
{
    let room = front(bytes);
    let (before, rest) = room.split_at(count_prefixes(room));
    let head = head_of(rest);
    let (modrm, sib) = (byte_at(rest, head.len), byte_at(rest, head.len + 1));
    let tail = tail_len(head.form, before, modrm, sib)?;
    at_most(room.len(), before.len() + head.len + tail)
}
