//! The request that a line makes.

ghost use Rattle.std.specs.Prelude.{◌≡◌, ◌≤◌, ◌&&◌, Bool, IfOk, [], ◌∷◌, codes, ◌*◌, ◌<◌, ℕ, IfSome};
ghost use Rattle.std.specs.Option.{option_copied, option_map};
ghost use Rattle.nc_lines.specs.Lines.{words_in};
ghost use Rattle.nc_lines.specs.Words.{words_after};
ghost use Rattle.nc_script.specs.Requests.{request_in, create_in, modify_in, delete_in, of_seat_in, walk_in, addresses_in, chunk_at_in, digit_in, next_digit, seat_in};
ghost use Rattle.nc_script.specs.Queries as spelling;
ghost use Rattle.nc_script.specs.Requests as spec;
ghost use Rattle.nc_script.specs.machinery.Shown.{shown};
ghost use Rattle.nc_script.specs.Queries.{is_word};

use crate::query::{Query, query_of};
use memchr::memchr;
use nc_lines::{LINE_LIMIT, address_of, first_address_of, placed_at};
use std::alloc::{AllocError, Global};

/// A request that a line makes.
#[derive(Drop)]
pub(crate) enum Request {
    /// Creates a chunk of these bytes at this address.
    Create { at: u32, bytes: Vec<u8> },
    /// Replaces instructions at this address by those of these bytes.
    Modify { at: u32, bytes: Vec<u8> },
    /// Deletes the chunk at this base.
    Delete { base: u32 },
    /// Checks in this seat's thread.
    CheckIn { seat: u32 },
    /// Lets this seat's thread leave for good.
    Leave { seat: u32 },
    /// Frees the spans of deleted chunks, as far as every seat has checked in since or has left.
    Reclaim,
    /// Walks from this address, using up one choice at each instruction.
    Walk { start: u32, choices: Vec<u32> },
    /// Makes a query, which changes nothing.
    Query { query: Query },
}

/// The request made by the text after `create`.
fn create_of(alloc: Global, text: &[u8]) -> Result<Option<Request>, AllocError>
    ensures { IfOk result (λ found. option_map shown found ≡ create_in (words_in text.now)) }
{
    match placed_at(alloc, text)? {
        Some((at, bytes)) => Ok(Some(Request::Create { at, bytes })),
        None => Ok(None),
    }
}

/// The request made by the text after `modify`.
fn modify_of(alloc: Global, text: &[u8]) -> Result<Option<Request>, AllocError>
    ensures { IfOk result (λ found. option_map shown found ≡ modify_in (words_in text.now)) }
{
    match placed_at(alloc, text)? {
        Some((at, bytes)) => Ok(Some(Request::Modify { at, bytes })),
        None => Ok(None),
    }
}

/// The request made by the text after `delete`.
fn delete_of(text: &[u8]) -> Option<Request>
    ensures { option_map shown result ≡ delete_in (words_in text.now) }
{
    match address_of(text) {
        Some(base) => Some(Request::Delete { base }),
        None => None,
    }
}

/// The request made by the text after `checkin`.
fn check_in_of(text: &[u8]) -> Option<Request>
    ensures { option_map shown result ≡ of_seat_in spec.CheckIn (words_in text.now) }
{
    match seat_of(text) {
        Some(seat) => Some(Request::CheckIn { seat }),
        None => None,
    }
}

/// The request made by the text after `leave`.
fn leave_of(text: &[u8]) -> Option<Request>
    ensures { option_map shown result ≡ of_seat_in spec.Leave (words_in text.now) }
{
    match seat_of(text) {
        Some(seat) => Some(Request::Leave { seat }),
        None => None,
    }
}

/// The request made by the text after `chunk`.
fn chunk_of(text: &[u8]) -> Option<Request>
    ensures { option_map shown result ≡ chunk_at_in (words_in text.now) }
{
    match address_of(text) {
        Some(at) => Some(Request::Query {
            query: Query::ChunkAt { at },
        }),
        None => None,
    }
}

/// The most addresses for which room is made before any is read.
const FIRST_ROOM: usize = 64;

/// The number of addresses for which room is made: as many as the text may hold, each with a space after it, or the most.
fn first_room(rest: Option<&[u8]>) -> usize
    ensures { result ≤ 64 }
{
    match rest {
        Some(text) => (text.len() / 9 + 1).min(FIRST_ROOM),
        None => 0,
    }
}

/// The addresses that the words of a text denote, if each denotes one.
fn addresses_of(alloc: Global, rest: Option<&[u8]>) -> Result<Option<Vec<u32>>, AllocError>
    ensures { IfOk result (λ found. option_map (λ choices. choices.items) found ≡ addresses_in (words_after (option_copied rest.entry))) }
{
    let mut choices = Vec::with_capacity(alloc, first_room(rest))?;
    let mut left = rest;
    while let Some(text) = left {
        match first_address_of(text) {
            Some((choice, after)) => {
                choices.push(choice)?;
                left = after;
            }
            None => return Ok(None),
        }
    }
    Ok(Some(choices))
}

/// The request made by the text after `walk`.
fn walk_of(alloc: Global, text: &[u8]) -> Result<Option<Request>, AllocError>
    ensures { IfOk result (λ found. option_map shown found ≡ walk_in (words_in text.now)) }
{
    let Some((start, choices)) = first_address_of(text) else {
        return Ok(None);
    };
    match addresses_of(alloc, choices)? {
        Some(choices) => Ok(Some(Request::Walk { start, choices })),
        None => Ok(None),
    }
}

/// The request made by a line, or nothing if it is a bad line, as one with `chunk` is unless `queries` are taken.
pub(crate) fn request_of(
    alloc: Global,
    line: &[u8],
    queries: bool,
) -> Result<Option<Request>, AllocError>
    ensures { IfOk result (λ found. option_map shown found ≡ request_in queries line.now) }
{
    if line.len() > LINE_LIMIT {
        return Ok(None);
    }
    match memchr(b' ', line) {
        Some(end) => request_by(alloc, &line[..end], Some(&line[end + 1..]), queries),
        None => request_by(alloc, line, None, queries),
    }
}

/// The request made by the first word of a line and the text after it, or nothing if they make none.
fn request_by(
    alloc: Global,
    key: &[u8],
    rest: Option<&[u8]>,
    queries: bool,
) -> Result<Option<Request>, AllocError>
    ensures { IfOk result (λ found. option_map shown found ≡ spec.request_of queries (key.now ∷ words_after (option_copied rest.entry))) }
{
    match rest {
        Some(text) => request_with(alloc, key, text, queries),
        None => Ok(request_alone(key)),
    }
}

/// The request made by the only word of a line.
fn request_alone(key: &[u8]) -> Option<Request>
    ensures { (queries : Bool) → option_map shown result ≡ spec.request_of queries (key.now ∷ []) }
{
    if is_word(key, b"reclaim") {
        return Some(Request::Reclaim);
    }
    let query = query_of(key)?;
    Some(Request::Query { query })
}

/// Whether a word begins the lines of a query, and these are taken.
fn begins_query(key: &[u8], queries: bool) -> bool
    ensures { result ≡ (queries && spelling.is_word key.now (codes "chunk")) }
{
    queries && is_word(key, b"chunk")
}

/// The request made by the first word of a line and the text after it.
fn request_with(
    alloc: Global,
    key: &[u8],
    text: &[u8],
    queries: bool,
) -> Result<Option<Request>, AllocError>
    ensures { IfOk result (λ found. option_map shown found ≡ spec.request_of queries (key.now ∷ words_in text.now)) }
{
    if is_word(key, b"create") {
        return create_of(alloc, text);
    }
    if is_word(key, b"modify") {
        return modify_of(alloc, text);
    }
    if is_word(key, b"delete") {
        return Ok(delete_of(text));
    }
    if is_word(key, b"checkin") {
        return Ok(check_in_of(text));
    }
    if is_word(key, b"leave") {
        return Ok(leave_of(text));
    }
    if is_word(key, b"walk") {
        return walk_of(alloc, text);
    }
    if begins_query(key, queries) {
        return Ok(chunk_of(text));
    }
    Ok(None)
}

/// Whether a word has this spelling.
#[inline(always)]
pub(crate) fn is_word(word: &[u8], spelling: &[u8]) -> bool
    ensures { result ≡ is_word word.now spelling.now }
{
    word == spelling
}

/// The value of a decimal digit.
fn digit_of(byte: u8) -> Option<u32>
    ensures value { result ≡ digit_in byte }
    ensures small { IfSome result (λ digit. digit < 10) }
{
    if b'0' <= byte && byte <= b'9' {
        Some(u32::from(byte - b'0'))
    } else {
        None
    }
}

/// The value of decimal digits, from the value of all but the last one, and the last one.
fn next_digit(value: Option<u32>, byte: u8) -> Option<u32>
    requires { IfSome value (λ high. high < 100) }
    ensures value { result ≡ next_digit value byte }
    ensures small { (n : ℕ) → IfSome value (λ high. high < n) → IfSome result (λ all. all < 10 * n) }
{
    let high = value?;
    let low = digit_of(byte)?;
    Some(10 * high + low)
}

/// The seat that a word denotes: one to three decimal digits.
pub(crate) fn seat_of(word: &[u8]) -> Option<u32>
    ensures { result ≡ seat_in word.now }
{
    match word {
        [a] => digit_of(*a),
        [a, b] => next_digit(digit_of(*a), *b),
        [a, b, c] => next_digit(next_digit(digit_of(*a), *b), *c),
        _ => None,
    }
}
