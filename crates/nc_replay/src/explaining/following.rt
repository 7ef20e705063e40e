//! The line at hand in a stream of bytes.

use std::alloc::Global;

/// The line end.
const LINE_END: u8 = b'\n';

/// The number of the line at hand, and its bytes up to a limit.
#[derive(Drop)]
pub(crate) struct Following {
    number: u64,
    bytes: Vec<u8>,
    most: usize,
    is_whole: bool,
}

impl Following {
    /// Before the first line. At most `most` bytes of a line are kept.
    pub fn new(alloc: Global, most: usize) -> Following {
        Following {
            number: 1,
            bytes: Vec::new(alloc),
            most,
            is_whole: true,
        }
    }

    /// Whether the line at hand has a byte.
    pub fn has_begun(&self) -> bool {
        !self.bytes.is_empty()
    }

    /// The number of the line at hand, from 1 on.
    pub fn number(&self) -> u64 {
        self.number
    }

    /// The bytes of the line at hand that are kept, without its end; none if there was no memory for one of them.
    pub fn kept(&self) -> Option<&[u8]> {
        if self.is_whole {
            Some(self.bytes.as_slice())
        } else {
            None
        }
    }

    /// Takes the next byte, and returns whether it ends the line at hand.
    pub fn ends_with(&mut self, byte: u8) -> bool {
        if byte == LINE_END {
            return true;
        }
        if self.bytes.len() < self.most && self.bytes.push(byte).is_err() {
            self.is_whole = false;
        }
        false
    }

    /// Goes on to the next line.
    pub fn go_on(&mut self) {
        self.number = self.number.saturating_add(1);
        self.bytes.clear();
        self.is_whole = true;
    }
}
