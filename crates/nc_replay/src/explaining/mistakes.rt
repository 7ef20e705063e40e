//! What is wrong with a line that gets the reply `bad line`.

use crate::explaining::shapes::{CHUNK, Form, Shape, request_of};
use nc_command::{Ask, ReplayRequest};
use nc_lines::LINE_LIMIT;

/// What is wrong with a line: a sentence that may begin with what a word is, and may end with a number of digits.
#[derive(Clone, Copy)]
pub(crate) struct Mistake {
    /// What the word is, or nothing if the sentence is about the line.
    pub word: &'static str,
    /// The sentence, or the part of it between the others.
    pub text: &'static str,
    /// A number of digits, or nothing.
    pub digits: &'static str,
}

/// A sentence about a line.
fn of_line(text: &'static str) -> Option<Mistake> {
    Some(Mistake {
        word: "",
        text,
        digits: "",
    })
}

/// A sentence about a word of this form.
fn of_word(form: Form, text: &'static str) -> Option<Mistake> {
    Some(Mistake {
        word: form.name(),
        text,
        digits: "",
    })
}

/// A sentence about the length of a word of this form.
fn of_length(form: Form, digits: usize) -> Option<Mistake> {
    Some(Mistake {
        word: form.name(),
        text: " has eight hexadecimal digits; this one has ",
        digits: number_word(digits),
    })
}

/// Small numbers in words.
const NUMBERS: [&str; 13] = [
    "none", "one", "two", "three", "four", "five", "six", "seven", "eight", "nine", "ten",
    "eleven", "twelve",
];

/// A number of digits in a word, if it is small.
fn number_word(count: usize) -> &'static str {
    match NUMBERS.get(count) {
        Some(word) => word,
        None => "more than twelve",
    }
}

/// Whether a word has hexadecimal digits alone.
fn is_hexadecimal(word: &[u8]) -> bool {
    word.iter().all(|byte| byte.is_ascii_hexdigit())
}

/// What is wrong with the digits of a word.
fn mistake_in_digits(form: Form, word: &[u8]) -> Option<Mistake> {
    if is_hexadecimal(word) {
        None
    } else if word.starts_with(b"0x") || word.starts_with(b"0X") {
        of_word(form, " has hexadecimal digits alone, without 0x")
    } else {
        of_word(
            form,
            " has hexadecimal digits alone; this one has another character",
        )
    }
}

/// What is wrong with a word of an address or of a choice.
fn mistake_in_address(form: Form, word: &[u8]) -> Option<Mistake> {
    match mistake_in_digits(form, word) {
        None if word.len() != 8 => of_length(form, word.len()),
        mistake => mistake,
    }
}

/// What is wrong with a word of bytes.
fn mistake_in_bytes(word: &[u8]) -> Option<Mistake> {
    if word == b"-".as_slice() {
        return None;
    }
    match mistake_in_digits(Form::Bytes, word) {
        None if word.len() % 2 != 0 => {
            of_line("bytes have two hexadecimal digits each; one of these has only one")
        },
        mistake => mistake,
    }
}

/// What is wrong with the word of a seat.
fn mistake_in_seat(word: &[u8]) -> Option<Mistake> {
    if (1..=3).contains(&word.len()) && word.iter().all(|byte| byte.is_ascii_digit()) {
        None
    } else {
        of_line("a seat has one to three decimal digits")
    }
}

/// What is wrong with a word of this form.
fn mistake_in_word(form: Form, word: &[u8]) -> Option<Mistake> {
    match form {
        Form::Address | Form::Choice => mistake_in_address(form, word),
        Form::Bytes => mistake_in_bytes(word),
        Form::Seat => mistake_in_seat(word),
    }
}

/// What is wrong with the words of a text that has this shape, separated by single spaces; `None` stands for a text without a word.
fn mistake_in_words(shape: Shape, text: Option<&[u8]>) -> Option<Mistake> {
    let mut count: usize = 0;
    if let Some(text) = text {
        for word in text.split(|byte| *byte == b' ') {
            let Some(form) = shape.form(count) else {
                return of_line("the line has a word too many");
            };
            match mistake_in_word(form, word) {
                None => count = count.saturating_add(1),
                mistake => return mistake,
            }
        }
    }
    match shape.forms.get(count) {
        Some(form) => of_word(*form, " is missing"),
        None => None,
    }
}

/// What is wrong with the bytes of a line as a whole.
fn mistake_in_bytes_of(line: &[u8]) -> Option<Mistake> {
    if line.len() > LINE_LIMIT {
        of_line("a line has at most 1048576 bytes, and this one has more")
    } else if line.is_empty() {
        of_line("the line is empty")
    } else if line.ends_with(b"\r") {
        of_line("the line ends with a carriage return; a line feed alone ends a line")
    } else if line.starts_with(b"#") {
        of_line("a line can't be a comment")
    } else if line.contains(&b'\t') {
        of_line("a tab can't separate words; one space does")
    } else if line.split(|byte| *byte == b' ').any(|word| word.is_empty()) {
        of_line(
            "exactly one space separates two words, and a line neither begins nor ends with one",
        )
    } else {
        None
    }
}

/// What is said of a line that begins with no request.
const UNKNOWN: &str =
    "a request begins with create, modify, delete, checkin, leave, reclaim, walk or dump, in lower case";

/// What is said of a line that begins with no request, where queries are taken.
const UNKNOWN_QUERY: &str =
    "a request begins with create, modify, delete, checkin, leave, reclaim, walk, dump or chunk, in lower case";

/// What is wrong with a line of a script, whose words are separated by single spaces.
fn mistake_in_request(line: &[u8], queries: bool) -> Option<Mistake> {
    let (word, rest) = match line.iter().position(|byte| *byte == b' ') {
        Some(end) => (&line[..end], Some(&line[end + 1..])),
        None => (line, None),
    };
    match request_of(word) {
        Some(request) if request.is_query && !queries => {
            of_line("a chunk line is answered only with --queries")
        }
        Some(request) => mistake_in_words(request.words, rest),
        None => of_line(if queries { UNKNOWN_QUERY } else { UNKNOWN }),
    }
}

/// What is wrong with a line of `vet`, whose words are separated by single spaces.
fn mistake_in_chunk(line: &[u8]) -> Option<Mistake> {
    let first = line.split(|byte| *byte == b' ').next();
    if first.is_some_and(|word| request_of(word).is_some()) {
        return of_line("a line of vet has an address and bytes, and no word before them");
    }
    mistake_in_words(CHUNK, Some(line))
}

/// What is wrong with a line for this request, if it gets the reply `bad line`.
pub(crate) fn mistake_in(request: ReplayRequest, line: &[u8]) -> Option<Mistake> {
    match mistake_in_bytes_of(line) {
        None => match request.work {
            Ask::Replay { .. } => mistake_in_request(line, request.queries),
            Ask::Vet { .. } => mistake_in_chunk(line),
        },
        mistake => mistake,
    }
}
