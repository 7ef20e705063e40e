//! Words of `nc_replay`, what `ask` makes of them, and what `start` does.

use crate::hostile::script::{CHUNKS, REPLIES, SCRIPT, VERDICTS};
use crate::lower::rows::right;
use nc_command::{Ask, Halt, ask, start};
use std::alloc::Global;
use std::io::{self, Write};
use std::sync::Wait;
use std::test::Fail;
use std::thread::Threads;

/// Keeps what is written, and counts the writes.
#[derive(Drop)]
struct Keeping {
    text: Vec<u8>,
    writes: usize,
}

impl Write for Keeping {
    fn write(&mut self, buf: &[u8]) -> io::Result<usize> {
        self.text.extend_from_slice(buf)?;
        self.writes = self.writes.wrapping_add(1);
        Ok(buf.len())
    }

    fn flush(&mut self) -> io::Result<()> {
        Ok(())
    }
}

/// A command line, what is read, what is written, in how many writes, and the exit status.
#[derive(Drop)]
struct Start {
    words: &'static [&'static str],
    input: &'static [u8],
    output: &'static [u8],
    writes: usize,
    status: u8,
}

/// Starts with these words. The function has no clause, so that proofs of its callers don't deal with the contract of `start`.
fn started<T: Threads + Wait + Sync>(
    rt: &T,
    alloc: Global,
    words: &'static [&'static str],
    reader: &mut &'static [u8],
    writer: &mut Keeping,
) -> Result<(), Halt> {
    start(rt, alloc, words, reader, writer)
}

/// The exit status of a start.
fn status_of(end: Result<(), Halt>) -> u8 {
    match end {
        Ok(()) => 0,
        Err(halt) => halt.status(),
    }
}

impl Start {
    /// Whether the words do what they should. Words that can't be carried out leave all input.
    fn is_right<T: Threads + Wait + Sync>(&self, rt: &T, alloc: Global) -> bool {
        let mut rest = self.input;
        let mut writer = Keeping {
            text: Vec::new(alloc),
            writes: 0,
        };
        let end = started(rt, alloc, self.words, &mut rest, &mut writer);
        let unread = if self.writes == 0 {
            self.input.len()
        } else {
            0
        };
        status_of(end) == self.status
            && rest.len() == unread
            && writer.text.as_slice() == self.output
            && writer.writes == self.writes
    }
}

/// A chunk at the second bundle, and one at the third.
const SECOND: &[u8] =
    b"create 00010020 9090909090909090909090909090909090909090909090909090909090909090";

const THIRD: &[u8] = b"00010040 9090909090909090909090909090909090909090909090909090909090909090";

/// Words that are refused, before anything is read.
fn refused(words: &'static [&'static str], status: u8) -> Start {
    Start {
        words,
        input: b"dump\n",
        output: b"",
        writes: 0,
        status,
    }
}

/// Words that are carried out.
fn done(
    words: &'static [&'static str],
    input: &'static [u8],
    output: &'static [u8],
    writes: usize,
) -> Start {
    Start {
        words,
        input,
        output,
        writes,
        status: 0,
    }
}

/// Each reply to a script's line is a write of its own, and a line with `chunk` is a bad line. The last bundle of a region is no
/// place for a chunk. Flags beside the work are refused.
fn starts() -> [Start; 12] {
    [
        done(
            &["replay", "--bundles", "4", "--seats", "1"],
            SCRIPT,
            REPLIES,
            16,
        ),
        done(
            &["replay"],
            b"chunk 00010000\ncheckin 4\n",
            b"bad line\nrefused NoSeat\n",
            2,
        ),
        done(
            &["replay", "--bundles", "2"],
            SECOND,
            b"refused OutOfRange\n",
            1,
        ),
        done(&["vet", "--workers", "2"], CHUNKS, VERDICTS, 1),
        done(
            &["vet", "--bundles", "3", "--workers", "2"],
            THIRD,
            b"refused OutOfRange\n",
            1,
        ),
        done(&["vet"], THIRD, b"ok\n", 1),
        refused(&[], 2),
        refused(&["replay", "--bundles", "1"], 2),
        refused(&["replay", "--queries"], 2),
        refused(&["replay", "--explain"], 2),
        refused(&["vet", "--strict"], 2),
        refused(&["--help"], 0),
    ]
}

#[test]
fn started_by_words(rt: HostRuntime) -> Result<(), Fail> {
    let mut number = 0u32;
    for row in &starts() {
        number = number.wrapping_add(1);
        right(row.is_right(&rt, rt.alloc()), number)?;
    }
    Ok(())
}

/// A command line, and the work that it asks for, if it asks for work alone.
type Asked = (&'static [&'static str], Option<Ask>);

/// The request to run a script.
fn replay(bundles: u32, seats: u32) -> Option<Ask> {
    Some(Ask::Replay { bundles, seats })
}

/// The request to vet lines of chunks.
fn vet(bundles: u32, workers: u32) -> Option<Ask> {
    Some(Ask::Vet { bundles, workers })
}

fn requests() -> [Asked; 8] {
    [
        (&["replay"], replay(2048, 4)),
        (
            &["replay", "--bundles", "2097152", "--seats", "256"],
            replay(2_097_152, 256),
        ),
        (&["vet"], vet(2048, 4)),
        (&["vet", "--workers=16", "--bundles=2"], vet(2, 16)),
        (&["vet", "--bundles", "3", "--workers", "2"], vet(3, 2)),
        (&["replay", "--seats", "257"], None),
        (&["vet", "--workers", "17"], None),
        (&["replay", "--queries"], None),
    ]
}

#[test]
fn asked_by_words(rt: HostRuntime) -> Result<(), Fail> {
    let mut number = 0u32;
    for (words, work) in &requests() {
        number = number.wrapping_add(1);
        right(ask(rt.alloc(), words).ok() == *work, number)?;
    }
    Ok(())
}
