//! How judging the files ends.

ghost use Rattle.std.specs.Prelude.{◌≡◌, ◌↔◌, true, false, IfSome, IsNone, codes};
ghost use Rattle.nc_files.specs.Files.{exit_status};

/// Why the files are not all judged.
#[derive(Clone, Copy, Drop)]
pub enum Failure {
    /// There is no memory.
    OutOfMemory,
    /// A report can't be written.
    WriteFailed,
    /// The reader of the output is gone, as with a closed pipe: a write failed, and nothing is printed about it.
    OutputClosed,
}

impl Failure {
    /// A write failed, perhaps because the reader of the output is gone.
    pub fn of_writing(is_closed: bool) -> Failure
        ensures closed { (result ≡ Failure.OutputClosed) ↔ (is_closed ≡ true) }
        ensures failed { (result ≡ Failure.WriteFailed) ↔ (is_closed ≡ false) }
    {
        if is_closed {
            Failure::OutputClosed
        } else {
            Failure::WriteFailed
        }
    }

    /// The reason in words, if anything is printed about it.
    pub fn text(self) -> Option<&'static str>
        ensures none { IsNone result ↔ (self ≡ Failure.OutputClosed) }
        ensures memory { self ≡ Failure.OutOfMemory → IfSome result (λ text. text.now ≡ codes "out of memory") }
        ensures write { self ≡ Failure.WriteFailed → IfSome result (λ text. text.now ≡ codes "write failed") }
    {
        match self {
            Failure::OutOfMemory => Some("out of memory"),
            Failure::WriteFailed => Some("write failed"),
            Failure::OutputClosed => None,
        }
    }
}

/// The findings about the files so far.
#[derive(Clone, Copy, Drop)]
pub struct Outcome {
    /// A file wasn't judged, since it couldn't be read or was too long.
    pub is_faulty: bool,
    /// A file was refused.
    pub is_refused: bool,
}

impl Outcome {
    /// The exit status after the program has been through its files.
    pub fn status(self) -> u8
        ensures { result ≡ exit_status self.is_faulty self.is_refused }
    {
        if self.is_faulty {
            2
        } else if self.is_refused {
            1
        } else {
            0
        }
    }
}
