//! Which kinds of errors are reported of files.
ghost use Rattle.std.specs.Prelude.{◌≡◌};
ghost use Rattle.ftl_files.specs.Reported.{both, none_reported};

/// Which kinds of errors are reported of files, whatever their sources are.
#[derive(Clone, Copy, Debug, PartialEq, Eq)]
pub struct Reported {
    /// A path stands for no file.
    pub no_file: bool,
    /// A file could not be read or written, or isn't UTF-8.
    pub failure: bool,
    /// Memory ran out for a source, or it nests too deep.
    pub out_of_memory: bool,
}

impl Reported {
    /// No error.
    pub fn none() -> Reported
        ensures { result ≡ none_reported }
    {
        Reported {
            no_file: false,
            failure: false,
            out_of_memory: false,
        }
    }

    /// The errors that are reported of these files or of others.
    pub fn or(self, other: Reported) -> Reported
        ensures { result ≡ both self other }
    {
        Reported {
            no_file: self.no_file || other.no_file,
            failure: self.failure || other.failure,
            out_of_memory: self.out_of_memory || other.out_of_memory,
        }
    }
}
