//! Files that several workers judge, each into a report of its own. One worker does all of a file, from its reading on.

ghost use Rattle.std.specs.Prelude.{◌<◌, IfOk, IfSome, length, ◌≡◌, ◌+◌, ◌≤◌, [], Some, IfErr, vec_len};
ghost use Rattle.std.specs.List.{AllZip};
ghost use Rattle.nc_files.specs.Places.{FitsReport};
ghost use Rattle.nc_files.specs.Reports.{ReportsOn, FitsFile};
ghost use Rattle.std.specs.IoError.{error_kind};
ghost use Rattle.std.specs.Io.{WritesAtMost};
ghost use Rattle.std.specs.Io.KnownBytes.{Keeps, WriteAppends};

use crate::judging::judge_file;
use crate::request::Request;
use nc_work::for_places;
use std::alloc::{AllocError, Global};
use std::fs;
use std::io::{self, Error, ErrorKind, Input, Write};
use std::rt::Files;
use std::thread::Threads;

/// A writer with room for a number of bytes. A write that doesn't fit fails, and leaves the text as it was.
#[derive(Drop)]
pub struct BufferedReport {
    text: Vec<u8>,
    room: usize,
    ghost fits: { vec_len text ≤ room },
}

impl BufferedReport {
    /// An empty report.
    pub fn new(alloc: Global, room: usize) -> BufferedReport
        ensures { (result.text.items ≡ []) × (result.room ≡ room) }
    {
        BufferedReport {
            text: Vec::new(alloc),
            room,
        }
    }

    /// The text that was written.
    pub fn into_text(self) -> Vec<u8>
        ensures text { result ≡ self.text }
        ensures fits { vec_len result ≤ self.room }
    {
        self.text
    }
}

impl Write for BufferedReport {
    ghost contents = { λ p. Some p.text.items };

    fn write(&mut self, buf: &[u8]) -> io::Result<usize>
        ensures bound { WritesAtMost result buf.now }
        ensures bytes { WriteAppends (Some self.old.text.items) (Some self.new.text.items) result buf.now }
        ensures room { self.new.room ≡ self.old.room }
        // All of what fits is written, unless there is no memory for it.
        ensures all { IfOk result (λ count. count ≡ length buf.now) }
        ensures fits { vec_len self.old.text + length buf.now ≤ self.old.room
            → IfErr result (λ error. error_kind error ≡ ErrorKind.OutOfMemory) }
    {
        if self.room - self.text.len() < buf.len() {
            return Err(Error::from(ErrorKind::StorageFull));
        }
        self.text.extend_from_slice(buf)?;
        Ok(buf.len())
    }

    fn flush(&mut self) -> io::Result<()>
        ensures bytes { Keeps (Some self.old.text.items) (Some self.new.text.items) }
        ensures unchanged { self.new ≡ self.old }
    {
        Ok(())
    }
}

/// A file with more bytes is left to the caller, so that one such file is in memory at a time.
const MOST_BYTES: u64 = 8 << 20;

/// The most bytes of text that a worker keeps.
const ROOM: usize = 4 << 20;

/// The report on a file, to be printed later.
#[derive(Drop)]
pub struct Report {
    pub text: Vec<u8>,
    pub is_refused: bool,
}

/// Judges a file, and keeps the report on it, if there is room for that.
fn report_on<R: AllocGlobal + Input + Files>(
    rt: &R,
    request: &Request<'_>,
    file: &str,
    room: usize,
) -> Option<Report>
    ensures { IfSome result (ReportsOn request.now file.now) }
{
    let mut buffered = BufferedReport::new(rt.alloc(), room);
    match judge_file(rt, request, file, &mut buffered) {
        Ok(is_refused) => Some(Report {
            text: buffered.into_text(),
            is_refused,
        }),
        Err(_) => None,
    }
}

/// Whether workers judge a file. Several devices or pipes must be read one after another, and only one large file at a time is to be in
/// memory.
fn is_for_workers<R: Files>(rt: &R, file: &str) -> bool {
    if file == "-" {
        return false;
    }
    match fs::metadata(rt, file) {
        Ok(metadata) => metadata.is_file() && metadata.len() <= MOST_BYTES,
        Err(_) => false,
    }
}

/// Judges a file for a worker, which leaves the file to the caller unless all goes well.
fn judge_one<R: AllocGlobal + Input + Files>(
    rt: &R,
    request: &Request<'_>,
    file: &str,
    room: usize,
) -> Option<Report>
    ensures { IfSome result (ReportsOn request.now file.now) }
{
    if !is_for_workers(rt, file) {
        return None;
    }
    report_on(rt, request, file, room)
}

/// Judges the file of this number for a worker, and takes the text of the report from the worker's room.
fn judge_next<R: AllocGlobal + Input + Files>(
    rt: &R,
    request: &Request<'_>,
    files: &[&str],
    number: usize,
    room: &mut usize,
) -> Option<Report>
    requires { number < length files.now }
    ensures { FitsReport request.now files.now number result }
{
    match judge_one(rt, request, files[number], *room) {
        Some(report) => {
            *room = room.saturating_sub(report.text.len());
            Some(report)
        }
        None => None,
    }
}

/// Judges files by the number of workers that is asked for; the caller is one of them. The place of each file has the report on
/// it, or nothing if the caller must judge it alone: standard input, a device or a pipe, since several of these must be read
/// one after another; a large file; a file that can't be read; and a file whose report is too long.
pub fn judge_files<R: Threads + Sync + AllocGlobal + Input + Files>(
    rt: &R,
    request: &Request<'_>,
    files: &[&str],
) -> Result<Vec<Option<Report>>, AllocError>
where
    R::File: Send + Sync,
    R::Dir: Send + Sync,
    R::Reader: Send + Sync,
    // There is a place for each file, in the files' order, and what is in it is the report on that file.
    ensures { IfOk result (λ places. AllZip (λ file place. FitsFile request.now file.now place) files.now places.items) }
{
    let places = for_places(
        rt,
        rt.alloc(),
        files.len(),
        request.workers as usize,
        ROOM,
        &|number: usize, room: &mut usize|
            requires { number < length files.now }
            ensures { FitsReport request.entry.now files.entry.now number result }
        { judge_next(rt, request, files, number, room) },
    )?;
    Ok(places)
}
