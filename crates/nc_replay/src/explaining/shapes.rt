//! The shapes of lines: their first words, and the forms of the words after it.

/// The form of a word.
#[derive(Clone, Copy, Debug, PartialEq, Eq)]
pub(crate) enum Form {
    Address,
    Choice,
    Bytes,
    Seat,
}

impl Form {
    /// What a word of this form is.
    pub fn name(self) -> &'static str {
        match self {
            Form::Address => "an address",
            Form::Choice => "a choice",
            Form::Bytes => "a word of bytes",
            Form::Seat => "a seat",
        }
    }
}

/// A request of a script.
pub(crate) struct Request {
    /// The first word of its lines.
    pub word: &'static [u8],
    /// The words after it.
    pub words: Shape,
    /// Whether its lines are taken only where queries are.
    pub is_query: bool,
}

/// The forms of words.
#[derive(Clone, Copy)]
pub(crate) struct Shape {
    pub forms: &'static [Form],
    /// Whether any number of choices may follow.
    pub has_choices: bool,
}

impl Shape {
    /// The form of a word by its place, if a word may stand there.
    pub fn form(&self, place: usize) -> Option<Form> {
        match self.forms.get(place) {
            Some(form) => Some(*form),
            None if self.has_choices => Some(Form::Choice),
            None => None,
        }
    }
}

/// No words.
const NONE: Shape = Shape {
    forms: &[],
    has_choices: false,
};

/// An address, and no more words.
const PLACE: Shape = Shape {
    forms: &[Form::Address],
    ..NONE
};

/// A seat, and no more words.
const SEAT: Shape = Shape {
    forms: &[Form::Seat],
    ..NONE
};

/// An address, and any number of choices.
const WALK: Shape = Shape {
    has_choices: true,
    ..PLACE
};

/// The words that name a chunk, also a whole line of `vet`.
pub(crate) const CHUNK: Shape = Shape {
    forms: &[Form::Address, Form::Bytes],
    ..NONE
};

/// All requests of a script.
#[rattlefmt::skip]
pub(crate) static REQUESTS: [Request; 9] = [
    Request { word: b"create", words: CHUNK, is_query: false },
    Request { word: b"modify", words: CHUNK, is_query: false },
    Request { word: b"delete", words: PLACE, is_query: false },
    Request { word: b"checkin", words: SEAT, is_query: false },
    Request { word: b"leave", words: SEAT, is_query: false },
    Request { word: b"reclaim", words: NONE, is_query: false },
    Request { word: b"walk", words: WALK, is_query: false },
    Request { word: b"dump", words: NONE, is_query: false },
    Request { word: b"chunk", words: PLACE, is_query: true },
];

/// The request of a script whose lines begin with this word.
pub(crate) fn request_of(word: &[u8]) -> Option<&'static Request> {
    REQUESTS.iter().find(|request| request.word == word)
}
