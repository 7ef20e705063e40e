//! Files that aren't raw code, known by their first bytes.

ghost use Rattle.std.specs.Prelude.{◌≡◌};
ghost use Rattle.nc_report.specs.Forms.{is_blank, is_of_digits, is_hexadecimal};

use crate::words::*;
use nc_decode::BUNDLE;

/// A form of file, by its first bytes, and the words about it.
struct Form {
    first: &'static [u8],
    words: &'static [u8],
}

/// The forms whose first bytes are always the same. Mach-O has two sizes and two orders of bytes, and files for several processors.
#[rattlefmt::skip]
static FORMS: [Form; 9] = [
    Form { first: b"\x7fELF", words: ELF_FILE },
    Form { first: b"!<arch>\n", words: ARCHIVE },
    Form { first: b"\0asm", words: WEB_ASSEMBLY },
    Form { first: b"\x1f\x8b", words: GZIP },
    Form { first: b"\xce\xfa\xed\xfe", words: MACH_O },
    Form { first: b"\xcf\xfa\xed\xfe", words: MACH_O },
    Form { first: b"\xfe\xed\xfa\xce", words: MACH_O },
    Form { first: b"\xfe\xed\xfa\xcf", words: MACH_O },
    Form { first: b"\xca\xfe\xba\xbe", words: MACH_O },
];

/// The place of the number in a PE file that says where its header is.
const PE_PLACE: usize = 0x3C;

/// The code is a PE file, for Windows: its header of DOS leads to the signature.
fn is_windows(code: &[u8]) -> bool {
    if !code.starts_with(b"MZ") || code.len() < PE_PLACE + 4 {
        return false;
    }
    let mut place = [0u8; 4];
    place.copy_from_slice(&code[PE_PLACE..PE_PLACE + 4]);
    match code.get(u32::from_le_bytes(place) as usize..) {
        Some(rest) => rest.starts_with(b"PE\0\0"),
        None => false,
    }
}

/// A space, a tab, or the end of a line.
fn is_blank(byte: u8) -> bool
    ensures { result ≡ is_blank byte }
{
    byte == b' ' || byte == b'\t' || byte == b'\n' || byte == b'\r'
}

/// A byte of ASCII text: a printable character, or a blank.
fn is_of_text(byte: u8) -> bool {
    (byte >= 0x20 && byte < 0x7F) || is_blank(byte)
}

/// A byte of hexadecimal text: a digit, or a blank.
fn is_of_digits(byte: u8) -> bool
    ensures { result ≡ is_of_digits byte }
{
    byte.is_ascii_hexdigit() || is_blank(byte)
}

/// The first 32 bytes, or all if there are fewer.
fn first_bundle(code: &[u8]) -> &[u8] {
    if code.len() < BUNDLE as usize {
        return code;
    }
    &code[..BUNDLE as usize]
}

/// Whether there is code, and all of it is hexadecimal text, as `xxd -p` writes it.
pub fn is_hexadecimal(code: &[u8]) -> bool
    ensures { result ≡ is_hexadecimal code.now }
{
    for byte in code {
        if !is_of_digits(*byte) {
            return false;
        }
    }
    !code.is_empty()
}

/// There is code, and its first 32 bytes, or all if there are fewer, are text.
fn is_text(code: &[u8]) -> bool {
    for byte in first_bundle(code) {
        if !is_of_text(*byte) {
            return false;
        }
    }
    !code.is_empty()
}

/// The words about the first of these forms whose first bytes are those of the code, if there is one.
fn words_in(forms: &[Form], code: &[u8]) -> Option<&'static [u8]> {
    for form in forms {
        if code.starts_with(form.first) {
            return Some(form.words);
        }
    }
    None
}

/// The words about a file that isn't raw code, if it is known by its bytes.
pub(crate) fn form_words(code: &[u8]) -> Option<&'static [u8]> {
    let known = words_in(&FORMS, code);
    if known.is_some() {
        return known;
    }
    if is_windows(code) {
        Some(WINDOWS)
    } else if is_hexadecimal(code) {
        Some(HEXADECIMAL)
    } else if is_text(code) {
        Some(TEXT)
    } else {
        None
    }
}
