//! Why the work isn't done.

ghost use Rattle.std.specs.Prelude.{◌≡◌};
ghost use Rattle.nc_command.specs.Status.{status_of};

use clap::error::ErrorKind;
use nc_lines::ReplayFault;

/// Why the program stops before its work is done.
#[derive(Drop)]
pub enum Halt {
    /// The words of the command line can't be carried out, or ask for help or the version.
    Words(clap::Error),
    /// The replies to a script or to lines of chunks could not be completed.
    Fault(ReplayFault),
}

impl Halt {
    /// The exit status: 0 after help or the version, 2 for a fault of the command line, and 1 for any other fault, also for lack of
    /// memory.
    pub fn status(&self) -> u8
        ensures { result ≡ status_of self.now }
    {
        match self {
            Halt::Words(error) => match error.kind() {
                ErrorKind::DisplayHelp | ErrorKind::DisplayVersion => 0,
                ErrorKind::OutOfMemory => 1,
                _ => 2,
            },
            Halt::Fault(_) => 1,
        }
    }
}
