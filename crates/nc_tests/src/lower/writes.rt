//! How often replies are written: each by itself, or several together.

ghost use Rattle.std.specs.Prelude.{⊤};

use crate::hostile::devices::Bytewise;
use crate::lower::rows::right;
use nc_lines::{Responder, reply_gathered, reply_to_all};
use std::alloc::{AllocError, Global};
use std::io::{self, Read, Write};
use std::test::Fail;

/// Takes all bytes of each write, and counts bytes and writes, and the bytes of the longest write.
#[derive(Drop)]
pub struct Counting {
    pub bytes: usize,
    pub writes: usize,
    pub longest: usize,
}

impl Counting {
    pub fn new() -> Counting {
        Counting {
            bytes: 0,
            writes: 0,
            longest: 0,
        }
    }
}

impl Write for Counting {
    fn write(&mut self, buf: &[u8]) -> io::Result<usize> {
        self.bytes = self.bytes.wrapping_add(buf.len());
        self.writes = self.writes.wrapping_add(1);
        self.longest = self.longest.max(buf.len());
        Ok(buf.len())
    }

    fn flush(&mut self) -> io::Result<()> {
        Ok(())
    }
}

/// Replies to each line alike.
#[derive(Drop)]
struct Agreeing {}

impl Responder for Agreeing {
    ghost replies = { λ _ _ _ _. ⊤ };

    fn reply(&mut self, _kept: &[u8], out: &mut Vec<u8>) -> Result<(), AllocError> {
        out.extend_from_slice(b"ok\n")
    }
}

/// Four lines, of which the last has no line end; their replies have 12 bytes.
const LINES: &[u8] = b"a\nb\nc\nd";

/// Whether replying to each line by itself makes four writes.
fn are_apart(alloc: Global) -> bool {
    let mut reader = LINES;
    let mut writer = Counting::new();
    let end = reply_to_all(alloc, &mut Agreeing {}, &mut reader, &mut writer);
    end.is_ok() && writer.bytes == 12 && writer.writes == 4
}

#[test]
fn apart(rt: HostRuntime) -> Result<(), Fail> {
    right(are_apart(rt.alloc()), 1)
}

/// The most bytes that are held back, and the number of writes. What is held back is written before a reply with which there
/// would be more, which is then written by itself; before the second read; and at the end.
type Gathering = (usize, usize);

#[rattlefmt::skip]
static GATHERINGS: [Gathering; 6] = [
    (0, 4),
    (3, 4),
    (6, 3),
    (8, 3),
    (9, 2),
    (65_536, 2),
];

/// Whether replies make the row's number of writes, if at most its number of bytes are held back.
fn are_written<R: Read>(alloc: Global, reader: &mut R, row: &Gathering) -> bool {
    let (most, writes) = *row;
    let mut writer = Counting::new();
    let end = reply_gathered(alloc, &mut Agreeing {}, reader, &mut writer, most);
    end.is_ok() && writer.bytes == 12 && writer.writes == writes
}

#[test]
fn together(rt: HostRuntime) -> Result<(), Fail> {
    let mut number = 0u32;
    for row in &GATHERINGS {
        number = number.wrapping_add(1);
        let mut reader = LINES;
        right(are_written(rt.alloc(), &mut reader, row), number)?;
    }
    Ok(())
}

/// The most bytes that are held back, and the number of writes, where each read gives one byte: no reply is held back over a read.
#[rattlefmt::skip]
static SINGLE_READS: [Gathering; 3] = [
    (0, 4),
    (6, 4),
    (65_536, 4),
];

#[test]
fn one_byte_a_read(rt: HostRuntime) -> Result<(), Fail> {
    let mut number = 0u32;
    for row in &SINGLE_READS {
        number = number.wrapping_add(1);
        let mut reader = Bytewise::whole(LINES);
        right(are_written(rt.alloc(), &mut reader, row), number)?;
    }
    Ok(())
}
