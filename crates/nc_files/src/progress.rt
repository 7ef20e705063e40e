//! The progress of the program, shown on standard error if that is a terminal.

/// Enough spaces to wipe the line.
const BLANK: &str = "                                                ";

/// The most times that the line is written, if other output doesn't wipe it.
const TIMES: usize = 256;

/// A line that is rewritten after each round of files.
#[derive(Drop)]
pub struct Progress {
    all: usize,
    shown: usize,
    is_wanted: bool,
    is_shared: bool,
    is_shown: bool,
}

impl Progress {
    /// The progress through `all` files, with no line shown yet. A line is wanted if standard error is a terminal; if standard
    /// output is one too, the line can't stay while something else is written.
    pub fn new(all: usize, is_wanted: bool, is_shared: bool) -> Progress {
        Progress {
            all,
            shown: 0,
            is_wanted,
            is_shared,
            is_shown: false,
        }
    }

    /// Shows the number of files that are done. If it can't be written, nothing is lost.
    pub(crate) fn show<R: Eprint>(&mut self, rt: &R, done: usize) {
        let is_due = self.is_shared || done.saturating_sub(self.shown) > self.all / TIMES;
        if self.is_wanted && is_due && done < self.all {
            let _ = eprint!(rt; "\r{done} of {} files", self.all);
            self.shown = done;
            self.is_shown = true;
        }
    }

    /// Removes the line before anything is written to standard output.
    pub(crate) fn yield_output<R: Eprint>(&mut self, rt: &R) {
        if self.is_shared {
            self.wipe(rt);
        }
    }

    /// Removes the line before anything else is written to standard error, and at the end.
    pub(crate) fn wipe<R: Eprint>(&mut self, rt: &R) {
        if self.is_shown {
            let _ = eprint!(rt; "\r{BLANK}\r");
            self.is_shown = false;
        }
    }
}
