//! Opening files, and reading them to their end.

ghost use Rattle.std.specs.Prelude.{◌≡◌, [], IfOk, ◌≤◌, ◌<◌, ℕ, List, length, vec_len, Err, OnOk, IfSome, IsErrOf};
ghost use Rattle.std.specs.Io.KnownBytes.{Consumes, IsAtEnd};

use nc_report::{Labels, Source};
use std::alloc::Global;
use std::fs;
use std::fs::{File, OpenFile};
use std::io::{ErrorKind, Input, Read};
use std::rt::Files;

/// Why a file isn't judged.
#[derive(Clone, Copy, Drop)]
pub enum Unread {
    /// No file has this name.
    Missing,
    /// This user isn't permitted to read it.
    Denied,
    /// It is a directory.
    Directory,
    /// Its device or the system failed.
    Failed,
    /// It is longer than the largest region.
    TooLong,
    /// There is no memory for it.
    OutOfMemory,
}

impl Unread {
    /// The reason in words.
    pub fn text(self) -> &'static str {
        match self {
            Unread::Missing => "cannot be read: no such file",
            Unread::Denied => "cannot be read: permission denied",
            Unread::Directory => "cannot be read: it is a directory",
            Unread::Failed => "cannot be read",
            Unread::TooLong => "longer than the largest region, 67108864 bytes",
            Unread::OutOfMemory => "out of memory",
        }
    }
}

/// Why a file wasn't opened.
fn not_opened(kind: ErrorKind) -> Unread {
    match kind {
        ErrorKind::NotFound => Unread::Missing,
        ErrorKind::PermissionDenied => Unread::Denied,
        ErrorKind::IsADirectory => Unread::Directory,
        _ => Unread::Failed,
    }
}

/// Why a file that was opened wasn't read to its end.
fn not_read(fault: SourceFault) -> Unread {
    match fault {
        SourceFault::TooLong => Unread::TooLong,
        SourceFault::OutOfMemory => Unread::OutOfMemory,
        _ => Unread::Failed,
    }
}

/// The length that a file has before it is read, or 0 if the system doesn't say; a directory isn't read.
fn len_of<F: OpenFile>(opened: &F) -> Result<usize, Unread> {
    match opened.metadata() {
        Ok(metadata) if metadata.is_dir() => Err(Unread::Directory),
        Ok(metadata) => Ok(metadata.len() as usize),
        Err(_) => Ok(0),
    }
}

/// Reads a file that has been opened.
fn read_opened<F: OpenFile + Read + Drop>(
    alloc: Global,
    name: Vec<u8>,
    mut opened: F,
) -> Result<Source, Unread>
    ensures name { IfOk result (λ source. source.name ≡ name) }
    ensures labels { IfOk result (λ source. source.labels ≡ []) }
{
    match len_of(&opened) {
        Ok(expected) => read_source(alloc, name, &mut opened, expected).map_err(not_read),
        Err(unread) => Err(unread),
    }
}

/// Reads a file, or standard input if its name is `-`.
pub fn read_file<R: Files + Input + AllocGlobal>(rt: &R, file: &str) -> Result<Source, Unread>
    ensures name { IfOk result (λ source. source.name.items ≡ file.now) }
    ensures labels { IfOk result (λ source. source.labels ≡ []) }
{
    let Ok(name) = Vec::from_slice(rt.alloc(), file.as_bytes()) else {
        return Err(Unread::OutOfMemory);
    };
    if file == "-" {
        return read_source(rt.alloc(), name, &mut rt.reader(), 0).map_err(not_read);
    }
    match File::open(rt, file) {
        Ok(opened) => read_opened(rt.alloc(), name, opened),
        Err(error) => Err(not_opened(error.kind())),
    }
}

/// The most bytes that a source may have: the size of the largest region.
const MOST_BYTES: usize = 67_108_864;

/// Why a source isn't read.
#[derive(Clone, Copy, Drop)]
pub enum SourceFault {
    /// The reader failed.
    ReadFailed,
    /// The reader gave more bytes than the largest region has.
    TooLong,
    /// There was no memory for the bytes.
    OutOfMemory,
}

/// Reads a source to its end. Memory for `expected` bytes, but at most [`MOST_BYTES`], is allocated first; that number is only a
/// guess.
///
/// A reader that gives more than [`MOST_BYTES`] bytes isn't read further, so an endless device is refused at that point with
/// `TooLong`. Nothing is promised about when a reader fails.
pub fn read_source<R: Read>(
    alloc: Global,
    name: Vec<u8>,
    reader: &mut R,
    expected: usize,
) -> Result<Source, SourceFault>
    // The source has all bytes that the reader had, this name, and no labels.
    ensures name { IfOk result (λ source. source.name ≡ name) }
    ensures code { IfOk result (λ source. IfSome (R.remaining reader.old) (λ input. source.code.items ≡ input)) }
    ensures labels { IfOk result (λ source. source.labels ≡ []) }
    ensures read { OnOk result (IsAtEnd (R.remaining reader.new)) }
    ensures fits { IfOk result (λ source. vec_len source.code ≤ MOST_BYTES) }

    // The reader gave more bytes than a source may have.
    ensures too_long { IsErrOf result SourceFault.TooLong → (front : List ℕ)
        × Consumes (R.remaining reader.old) (R.remaining reader.new) front × (MOST_BYTES < length front) }

    // The reader gave no more than `MOST_BYTES` bytes, and it failed, or there was no memory.
    ensures read_failed { IsErrOf result SourceFault.ReadFailed → (front : List ℕ)
        × Consumes (R.remaining reader.old) (R.remaining reader.new) front × (length front ≤ MOST_BYTES) }
    ensures out_of_memory { IsErrOf result SourceFault.OutOfMemory → (front : List ℕ)
        × Consumes (R.remaining reader.old) (R.remaining reader.new) front × (length front ≤ MOST_BYTES) }
{
    let Ok(mut code) = Vec::with_capacity(alloc, expected.min(MOST_BYTES)) else {
        return Err(SourceFault::OutOfMemory);
    };
    match read_pieces(&mut code, reader) {
        Ok(()) => {}
        Err(fault) => return Err(fault),
    }
    let labels = Labels::none(alloc);
    Ok(Source { name, code, labels })
}

/// Reads all bytes of a reader into an empty vector.
fn read_pieces<R: Read>(code: &mut Vec<u8>, reader: &mut R) -> Result<(), SourceFault>
    requires { code.old.items ≡ [] }
    ensures code { OnOk result (IfSome (R.remaining reader.old) (λ input. code.new.items ≡ input)) }
    ensures read { OnOk result (IsAtEnd (R.remaining reader.new)) }
    ensures fits { OnOk result (vec_len code.new ≤ MOST_BYTES) }
    ensures too_long { IsErrOf result SourceFault.TooLong → (front : List ℕ)
        × Consumes (R.remaining reader.old) (R.remaining reader.new) front × (MOST_BYTES < length front) }
    ensures read_failed { IsErrOf result SourceFault.ReadFailed → (front : List ℕ)
        × Consumes (R.remaining reader.old) (R.remaining reader.new) front × (length front ≤ MOST_BYTES) }
    ensures out_of_memory { IsErrOf result SourceFault.OutOfMemory → (front : List ℕ)
        × Consumes (R.remaining reader.old) (R.remaining reader.new) front × (length front ≤ MOST_BYTES) }
{
    let mut piece = [0u8; 32768];
    // Each read but the last gives at least one byte.
    for _ in 0..=MOST_BYTES {
        let count = match reader.read(&mut piece) {
            Ok(count) => count,
            Err(_) => return Err(SourceFault::ReadFailed),
        };
        if count == 0 {
            return Ok(());
        }
        if MOST_BYTES - code.len() < count {
            return Err(SourceFault::TooLong);
        }
        match code.extend_from_slice(&piece[..count]) {
            Ok(()) => {}
            Err(_) => return Err(SourceFault::OutOfMemory),
        }
    }
    Err(SourceFault::TooLong)
}
