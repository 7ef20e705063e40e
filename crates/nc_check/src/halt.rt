//! Why the program stops, and its exit status then.

ghost use Rattle.std.specs.Prelude.{◌≡◌};
ghost use Rattle.nc_check.specs.Status.{halt_status};

use clap::error::ErrorKind;
use nc_files::Failure;

/// Why the program stops before it has been through its files.
#[derive(Drop)]
pub enum Halt {
    /// The words of the command line can't be carried out, or ask for help or the version.
    Words(clap::Error),
    /// The files are not all judged.
    Files(Failure),
}

impl Halt {
    /// The exit status: 0 after help or the version, otherwise 2.
    pub fn status(&self) -> u8
        ensures { result ≡ halt_status self.now }
    {
        match self {
            Halt::Words(error) => match error.kind() {
                ErrorKind::DisplayHelp | ErrorKind::DisplayVersion => 0,
                _ => 2,
            },
            Halt::Files(_) => 2,
        }
    }
}
