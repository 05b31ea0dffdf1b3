//! How the program ends if it met no failure.
ghost use Rattle.std.specs.Prelude.{◌≡◌, string_bytes};
ghost use Rattle.ftl_command.specs.Faults.{end_status};
ghost use Rattle.ftl_command.specs.Reported.{EndsOf};

use ftl_files::Reported;

/// How a command ended that met no fault.
#[derive(Debug, PartialEq, Eq, Drop)]
pub enum Ended {
    /// All that was asked for is done.
    Done,
    /// All is done, and what was found in the sources makes the status 1.
    Found,
    /// All is done, and these are the lines of what went wrong in a text or was found in files, if
    /// that isn't written already.
    Incomplete { errors: String },
    /// A path stands for no file, and these are the lines of that and of what was found.
    NoFile { errors: String },
    /// Files could not be read or written, and these are the lines of that and of the rest.
    Partial { errors: String },
    /// Memory ran out for sources, or they nest too deep, and these are the lines of that and of
    /// the rest.
    OutOfMemory { errors: String },
}

impl Ended {
    /// The end of files of which these errors are reported, and in which something was found or
    /// not. What is worst counts.
    pub(crate) fn of_files(reported: Reported, has_found: bool, errors: String) -> Ended
        ensures { EndsOf reported has_found (string_bytes errors) result }
    {
        if reported.out_of_memory {
            Ended::OutOfMemory { errors }
        } else if reported.failure {
            Ended::Partial { errors }
        } else if reported.no_file {
            Ended::NoFile { errors }
        } else if has_found {
            Ended::Incomplete { errors }
        } else {
            Ended::Done
        }
    }

    /// The status that the program ends with.
    pub fn status(&self) -> u8
        ensures { result ≡ end_status self.now }
    {
        match self {
            Ended::Done => 0,
            Ended::Found | Ended::Incomplete { .. } => 1,
            Ended::NoFile { .. } => 2,
            Ended::Partial { .. } => 3,
            Ended::OutOfMemory { .. } => 4,
        }
    }
}
