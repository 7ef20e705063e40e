//! `vet`, while it is refused an allocation.

use crate::growths::marks::{begin, end};
use crate::lower::rows::right;
use nc_vet::{Mark, VetFault, Vetted, vet};
use std::alloc::{AllocError, Global};
use std::test::Fail;

const BASE: u32 = 0x10000;

const LIMIT: u32 = 0x10080;

/// A chunk: the bytes at its beginning and at its end, the number of nops between them, and three of its marks.
struct Row {
    front: &'static [u8],
    nops: usize,
    back: &'static [u8],
    marks: [(usize, Mark); 3],
}

/// A masked jump at the end of a bundle, and two jumps to each other.
#[rattlefmt::skip]
static ROWS: [Row; 2] = [
    Row {
        front: &[],
        nops: 27,
        back: &[0x83, 0xE0, 0xE0, 0xFF, 0xE0],
        marks: [(27, Mark::Plain), (28, Mark::Unmarked), (30, Mark::After(0))],
    },
    Row {
        front: &[0xEB, 0x3C],
        nops: 60,
        back: &[0xEB, 0xC0],
        marks: [(0, Mark::Plain), (1, Mark::Unmarked), (62, Mark::Plain)],
    },
];

/// The result of `vet`, without its contract.
fn vetted(code: Vec<u8>) -> Result<Vetted, (Vec<u8>, VetFault)> {
    vet(BASE, LIMIT, code)
}

/// Whether a chunk has this mark at this place.
fn has_mark(chunk: &Vetted, place: usize, mark: Mark) -> bool {
    place < chunk.code().len() && chunk.mark(place) == mark
}

impl Row {
    /// The chunk's bytes.
    fn code(&self, alloc: Global) -> Result<Vec<u8>, AllocError> {
        let mut code = Vec::new(alloc);
        code.extend_from_slice(self.front)?;
        code.resize(self.front.len().saturating_add(self.nops), 0x90)?;
        code.extend_from_slice(self.back)?;
        Ok(code)
    }

    /// Whether the vetted chunk is this one.
    fn is_vetted(&self, chunk: &Vetted) -> bool {
        for (place, mark) in &self.marks {
            if !has_mark(chunk, *place, *mark) {
                return false;
            }
        }
        true
    }

    /// Whether the code is accepted as this chunk.
    fn is_accepted(&self, code: Vec<u8>) -> bool {
        match vetted(code) {
            Ok(chunk) => self.is_vetted(&chunk),
            Err(_) => false,
        }
    }

    /// Whether the code is accepted, or is given back for lack of memory, and then accepted.
    fn is_accepted_at_last(&self, code: Vec<u8>) -> bool {
        match vetted(code) {
            Ok(chunk) => self.is_vetted(&chunk),
            Err((code, VetFault::OutOfMemory)) => self.is_accepted(code),
            Err(_) => false,
        }
    }
}

/// `vet` refuses for lack of memory and gives the code back, or accepts it.
#[test]
fn each_growth_refused(rt: HostRuntime) -> Result<(), Fail> {
    let [first, second] = &ROWS;
    let (first_code, second_code) = (first.code(rt.alloc())?, second.code(rt.alloc())?);
    begin(&rt)?;
    let is_first = first.is_accepted_at_last(first_code);
    let is_second = second.is_accepted_at_last(second_code);
    end(&rt)?;
    right(is_first, 1)?;
    right(is_second, 2)
}
