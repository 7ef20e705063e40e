//! The words of a line: addresses and bytes in hexadecimal.

ghost use Rattle.std.specs.Prelude.{◌≡◌, ◌<◌, IfOk, IfSome, length, map, ◌*◌, Some, None, if◌then◌else◌};
ghost use Rattle.std.specs.Option.{option_copied, option_map};
ghost use Rattle.nc_lines.specs.Lines.{words_in};
ghost use Rattle.nc_lines.specs.Words.{address_in, bytes_in, chunk_in, placed_in, address_and_bytes, first_address_in, words_after};
ghost use Rattle.std.specs.Result.{result_ok};
ghost use Rattle.hex.specs.Hex.{decode_of};
ghost use Rattle.nc_lines.specs.machinery.Digits.{lane_value, AreDigitValues, IsDecodedTo};

use crate::lines::LINE_LIMIT;
use memchr::memchr;
use std::alloc::{AllocError, Global};
use std::simd::prelude::*;

/// The words of a line, separated by single spaces; two adjacent spaces have an empty word between them.
pub fn words_of(alloc: Global, line: &[u8]) -> Result<Vec<&[u8]>, AllocError>
    ensures { IfOk result (λ words. map (λ word. word.now) words.items ≡ words_in line.now) }
{
    line.split(|b| *b == b' ').collect(alloc)
}

/// The address, or the choice of a walk, that a word denotes by exactly eight hexadecimal digits, in either case. Any other word
/// denotes none.
pub fn address_of(word: &[u8]) -> Option<u32>
    ensures { result ≡ address_in word.now }
{
    if word.len() != 8 {
        return None;
    }
    let mut bytes = [0u8; 4];
    if decode(word, &mut bytes) {
        Some(u32::from_be_bytes(bytes))
    } else {
        None
    }
}

/// The address that a text's first word denotes, and the text after the space that follows it, if there is one.
pub fn first_address_of(text: &[u8]) -> Option<(u32, Option<&[u8]>)>
    ensures value { option_map (λ found. (found.0, words_after (option_copied found.1))) result ≡ first_address_in (words_in text.now) }
    ensures shorter { IfSome result (λ found. IfSome found.1 (λ rest. length rest.now < length text.now)) }
{
    // An address has eight digits.
    if text.len() <= 8 {
        return match address_of(text) {
            Some(at) => Some((at, None)),
            None => None,
        };
    }
    if text[8] != b' ' {
        return None;
    }
    match address_of(&text[..8]) {
        Some(at) => Some((at, Some(&text[9..]))),
        None => None,
    }
}

/// One or more bytes of two hexadecimal digits each, or `-` for no bytes.
fn bytes_of(alloc: Global, word: &[u8]) -> Result<Option<Vec<u8>>, AllocError>
    ensures { IfOk result (λ found. option_map (λ bytes. bytes.items) found ≡ bytes_in word.now) }
{
    if word.len() == 0 {
        return Ok(None);
    }
    if word.len() == 1 && word[0] == b'-' {
        return Ok(Some(Vec::new(alloc)));
    }
    if word.len() % 2 != 0 {
        return Ok(None);
    }
    let mut bytes = vec![in alloc; 0u8; word.len() / 2]?;
    if decode(word, bytes.as_mut_slice()) {
        Ok(Some(bytes))
    } else {
        Ok(None)
    }
}

/// The address and the bytes that two words denote.
pub fn placed_of(alloc: Global, words: &[&[u8]]) -> Result<Option<(u32, Vec<u8>)>, AllocError>
    ensures { IfOk result (λ found. option_map address_and_bytes found ≡ placed_in (map (λ word. word.now) words.now)) }
{
    match words {
        [at, bytes] => {
            let Some(at) = address_of(at) else {
                return Ok(None);
            };
            match bytes_of(alloc, bytes)? {
                Some(bytes) => Ok(Some((at, bytes))),
                None => Ok(None),
            }
        }
        _ => Ok(None),
    }
}

/// The address and the bytes that the two words of a text denote. Memory is asked for only if there are two words.
pub fn placed_at(alloc: Global, text: &[u8]) -> Result<Option<(u32, Vec<u8>)>, AllocError>
    ensures { IfOk result (λ found. option_map address_and_bytes found ≡ placed_in (words_in text.now)) }
{
    let Some((at, Some(rest))) = first_address_of(text) else {
        return Ok(None);
    };
    if memchr(b' ', rest).is_some() {
        return Ok(None);
    }
    match bytes_of(alloc, rest)? {
        Some(code) => Ok(Some((at, code))),
        None => Ok(None),
    }
}

/// The address and bytes of a line that names a chunk to be vetted, or nothing if it is a bad line.
pub(crate) fn placed_in_line(
    alloc: Global,
    line: &[u8],
) -> Result<Option<(u32, Vec<u8>)>, AllocError>
    ensures { IfOk result (λ found. option_map address_and_bytes found ≡ chunk_in line.now) }
{
    if line.len() > LINE_LIMIT {
        return Ok(None);
    }
    placed_at(alloc, line)
}

/// The entry of a byte that is no digit: with another entry it never makes the value of a byte.
const X: u16 = 256;

/// The value of each byte as a hexadecimal digit, in either case: a row for the byte's first digit, a column for the second.
#[rattlefmt::skip]
static VALUES: [u16; 256] = [
    //       0   1   2   3   4   5   6   7   8   9   A   B   C   D   E   F
    /* 0 */  X,  X,  X,  X,  X,  X,  X,  X,  X,  X,  X,  X,  X,  X,  X,  X,
    /* 1 */  X,  X,  X,  X,  X,  X,  X,  X,  X,  X,  X,  X,  X,  X,  X,  X,
    /* 2 */  X,  X,  X,  X,  X,  X,  X,  X,  X,  X,  X,  X,  X,  X,  X,  X,
    /* 3 */  0,  1,  2,  3,  4,  5,  6,  7,  8,  9,  X,  X,  X,  X,  X,  X,
    /* 4 */  X, 10, 11, 12, 13, 14, 15,  X,  X,  X,  X,  X,  X,  X,  X,  X,
    /* 5 */  X,  X,  X,  X,  X,  X,  X,  X,  X,  X,  X,  X,  X,  X,  X,  X,
    /* 6 */  X, 10, 11, 12, 13, 14, 15,  X,  X,  X,  X,  X,  X,  X,  X,  X,
    /* 7 */  X,  X,  X,  X,  X,  X,  X,  X,  X,  X,  X,  X,  X,  X,  X,  X,
    /* 8 */  X,  X,  X,  X,  X,  X,  X,  X,  X,  X,  X,  X,  X,  X,  X,  X,
    /* 9 */  X,  X,  X,  X,  X,  X,  X,  X,  X,  X,  X,  X,  X,  X,  X,  X,
    /* A */  X,  X,  X,  X,  X,  X,  X,  X,  X,  X,  X,  X,  X,  X,  X,  X,
    /* B */  X,  X,  X,  X,  X,  X,  X,  X,  X,  X,  X,  X,  X,  X,  X,  X,
    /* C */  X,  X,  X,  X,  X,  X,  X,  X,  X,  X,  X,  X,  X,  X,  X,  X,
    /* D */  X,  X,  X,  X,  X,  X,  X,  X,  X,  X,  X,  X,  X,  X,  X,  X,
    /* E */  X,  X,  X,  X,  X,  X,  X,  X,  X,  X,  X,  X,  X,  X,  X,  X,
    /* F */  X,  X,  X,  X,  X,  X,  X,  X,  X,  X,  X,  X,  X,  X,  X,  X,
];

/// The number of pairs of digits in a run: a vector has as many lanes.
const RUN: usize = 16;

/// Decodes pairs of digits into as many bytes; returns whether all of them are digits. If not, the bytes mean nothing.
pub(crate) fn decode(digits: &[u8], bytes: &mut [u8]) -> bool
    requires { length digits.now ≡ 2 * length bytes.old }
    ensures { (if result then Some bytes.new else None) ≡ result_ok (decode_of digits.now) }
{
    let done = decode_runs(digits, bytes);
    decode_rest(&VALUES, digits, bytes, done)
}

/// Decodes pairs of digits run by run, up to a run that isn't whole or has a byte that is no digit. Returns how many pairs are
/// decoded.
fn decode_runs(digits: &[u8], bytes: &mut [u8]) -> usize
    requires { length digits.now ≡ 2 * length bytes.old }
    ensures len { length bytes.new ≡ length bytes.old }
    ensures decoded { IsDecodedTo digits.now bytes.new result }
{
    let mut done = 0;
    while bytes.len() - done >= RUN {
        let first = u8x16::from_slice(&digits[2 * done..]);
        let second = u8x16::from_slice(&digits[2 * done + RUN..]);
        let (high, low) = first.deinterleave(second);
        let high = values_of(high);
        let low = values_of(low);
        if (high | low).simd_gt(u8x16::splat(15)).to_bitmask() != 0 {
            break;
        }
        (high * u8x16::splat(16) + low).copy_to_slice(&mut bytes[done..]);
        done += RUN;
    }
    done
}

/// The value of each byte as a digit, in either case; more than 15 for a byte that is none.
#[inline(always)]
fn values_of(digits: u8x16) -> u8x16
    requires { length digits ≡ 16 }
    ensures { result ≡ map lane_value digits }
{
    let decimal = digits - u8x16::splat(b'0');
    // The bit 0x20 makes upper case lower case, and no letter of a byte that is none.
    let letter = (digits | u8x16::splat(0x20)) - u8x16::splat(b'a');
    // At most 255, so the sum doesn't wrap.
    let from_ten = letter.simd_min(u8x16::splat(245)) + u8x16::splat(10);
    decimal.simd_lt(u8x16::splat(10)).select(decimal, from_ten)
}

/// Decodes the pairs after those that are decoded, by a table of the digits' values. Returns whether all of them are digits.
fn decode_rest(values: &[u16; 256], digits: &[u8], bytes: &mut [u8], done: usize) -> bool
    requires values { AreDigitValues values.now }
    requires pairs { length digits.now ≡ 2 * length bytes.old }
    requires decoded { IsDecodedTo digits.now bytes.old done }
    ensures { (if result then Some bytes.new else None) ≡ result_ok (decode_of digits.now) }
{
    for i in done..bytes.len() {
        let high = values[digits[2 * i] as usize];
        let low = values[digits[2 * i + 1] as usize];
        let byte = high * 16 + low;
        if byte > 255 {
            return false;
        }
        bytes[i] = byte as u8;
    }
    true
}
