//! The failures that end the program before the end of its input.
ghost use Rattle.std.specs.Prelude.{◌≡◌, ◌++◌, IfOk, Some, string_bytes};
ghost use Rattle.ftl_command.specs.Faults.{status_of, fault_text, run_fault, import_fault, project_fault};
ghost use Rattle.ftl_command.specs.Faults.{reason_of, return_reason, unreadable_reason};
ghost use Rattle.ftl_command.specs.declared.fault.Fault.TheVariants.{Memory};

use fluent_serve::serve::RunError;
use fluent_tidy::ImportError;
use ftl_project::ProjectError;
use std::alloc::{AllocError, AllocFailed, Global};
use std::fmt;
use thiserror::Error;

/// Why the program stops, as it is reported on standard error: see `docs/reference/protocol.md`.
#[derive(Debug, PartialEq, Eq, Drop, Error)]
pub enum Fault<'words> {
    /// A source holds a carriage return, here.
    CarriageReturn {
        place: Option<FilePlace<'words>>,
    },
    /// The source has no normal text, as this report says.
    NotNormal {
        report: Option<String>,
    },
    /// No tree has the JSON value.
    NotTree,
    /// The file's text isn't JSON, or is nested too deep.
    NotJson,
    /// The message that is asked for has no such value or attribute, or there is none. The line
    /// asks what may be meant.
    NoMessage {
        meant: Option<String>,
    },
    /// The command-line arguments aren't a command, as this line says.
    CommandLine {
        advice: Option<String>,
    },
    /// Something is wrong with a project, as this says.
    Project {
        text: String,
    },
    /// The locale is no tag of a language.
    UnknownLocale {
        tag: &'words str,
    },
    /// The file could not be opened, or a read of it failed; and maybe why, and what may be meant
    /// by its name.
    FileUnreadable {
        file: &'words str,
        why: Option<&'static str>,
        meant: Meant,
    },
    /// The file's bytes aren't UTF-8, from this line on.
    FileNotUtf8 {
        file: &'words str,
        row: usize,
    },
    /// A read of standard input failed, or it did not end.
    Input,
    /// A write to standard output failed, or took nothing.
    Output,
    /// Memory ran out, or a source or a request nests deeper than the budget of the stack.
    Memory,
}

/// A line of a file, by its number.
#[derive(Clone, Copy, Debug, PartialEq, Eq)]
pub struct FilePlace<'words> {
    /// The name of the file.
    pub file: &'words str,
    /// The number of the line, from 1.
    pub row: usize,
}

/// A guess at what was meant by the name of a file that is missing.
#[derive(Clone, Copy, Debug, PartialEq, Eq)]
pub enum Meant {
    /// Nothing else.
    Nothing,
    /// A value for `--argument`.
    Argument,
    /// A message, which comes before the files.
    Order,
}

impl<'words> Fault<'words> {
    /// The status that the program ends with.
    pub fn status(&self) -> u8
        ensures { result ≡ status_of self.now }
    {
        match self {
            Fault::CarriageReturn { .. }
            | Fault::NotNormal { .. }
            | Fault::NotTree
            | Fault::NotJson
            | Fault::NoMessage { .. } => 1,
            Fault::CommandLine { .. } | Fault::Project { .. } | Fault::UnknownLocale { .. } => 2,
            Fault::FileUnreadable { .. }
            | Fault::FileNotUtf8 { .. }
            | Fault::Input
            | Fault::Output => 3,
            Fault::Memory => 4,
        }
    }

    /// The name of the locale or the file that is at fault, what is wrong with a project, or
    /// otherwise an empty text; and what follows it.
    pub(crate) fn parts(&self) -> (&str, &'static str)
        ensures { result.0.now ++ result.1.now ≡ fault_text self.now }
    {
        match self {
            Fault::CarriageReturn { .. } => ("", "carriage return"),
            Fault::NotNormal { .. } => ("", "not normal"),
            Fault::NotTree => ("", "not a tree"),
            Fault::NotJson => ("", "not JSON"),
            Fault::NoMessage { .. } => ("", "no such message"),
            Fault::CommandLine { .. } => ("", "bad command line"),
            Fault::Project { text } => (text.as_str(), ""),
            Fault::UnknownLocale { tag } => (*tag, ": unknown locale"),
            Fault::FileUnreadable { file, .. } => (*file, ": cannot read"),
            Fault::FileNotUtf8 { file, .. } => (*file, ": not UTF-8"),
            Fault::Input => ("", "standard input: cannot read"),
            Fault::Output => ("", "standard output: cannot write"),
            Fault::Memory => ("", "out of memory"),
        }
    }

    /// The lines that say why it came, if that is known.
    ///
    /// # Errors
    /// [`AllocError`] if memory runs out; nothing is kept.
    pub fn reason(&self, alloc: Global) -> Result<String, AllocError>
        ensures { IfOk result (λ text. string_bytes text ≡ reason_of self.now) }
    {
        match self {
            Fault::CarriageReturn { place: Some(place) } => return_reason(alloc, *place),
            Fault::NotNormal { report: Some(text) }
            | Fault::NoMessage { meant: Some(text) }
            | Fault::CommandLine { advice: Some(text) } => String::from_str(alloc, text.as_str()),
            Fault::FileUnreadable {
                file,
                why: Some(why),
                meant,
            } => unreadable_reason(alloc, file, why, *meant),
            Fault::FileNotUtf8 { file, row } => {
                format!(in alloc; "ftl: {file}:{row}: a byte that isn't UTF-8\n")
            }
            _ => Ok(String::new(alloc)),
        }
    }
}

/// The line that says where a carriage return is.
fn return_reason(alloc: Global, place: FilePlace<'_>) -> Result<String, AllocError>
    ensures { IfOk result (λ text. string_bytes text ≡ return_reason (Some place.entry)) }
{
    let FilePlace { file, row } = place;
    format!(in alloc;
        "ftl: {file}:{row}: a carriage return; `ftl tidy` makes line feeds of Windows line ends\n"
    )
}

/// The lines that say why a file can't be read, and what may be meant by its name.
fn unreadable_reason(
    alloc: Global,
    file: &str,
    why: &str,
    meant: Meant,
) -> Result<String, AllocError>
    ensures { IfOk result (λ text. string_bytes text
        ≡ unreadable_reason file.entry (Some why.entry) meant) }
{
    let mut lines = format!(in alloc; "ftl: {file}: {why}\n")?;
    match meant {
        Meant::Nothing => {}
        Meant::Argument => writeln!(lines, "ftl: did you mean --argument {file}?")?,
        Meant::Order => lines.push_str(
            "ftl: the message comes first, and then the files: ftl format ID FILE..\n",
        )?,
    }
    Ok(lines)
}

/// The text of `docs/reference/protocol.md`, without `ftl: `.
impl fmt::Display for Fault<'_> {
    ghost output = { λ fault. Some (fault_text fault) };

    fn fmt<W: fmt::Write>(&self, f: &mut fmt::Formatter<W>) -> fmt::Result {
        let (name, text) = self.parts();
        write!(f, "{name}{text}")
    }
}

impl From<AllocError> for Fault<'_> {
    ghost from_gives = { λ _ fault. fault ≡ Memory };

    fn from(_error: AllocError) -> Self {
        Fault::Memory
    }
}

impl<T: Drop> From<AllocFailed<T>> for Fault<'_> {
    ghost from_gives = { λ _ fault. fault ≡ Memory };

    fn from(_error: AllocFailed<T>) -> Self {
        Fault::Memory
    }
}

/// The program's reader is standard input, and its writer standard output.
impl From<RunError> for Fault<'_> {
    ghost from_gives = { λ error fault. fault ≡ run_fault error };

    fn from(error: RunError) -> Self {
        match error {
            RunError::Memory => Fault::Memory,
            RunError::Read => Fault::Input,
            RunError::Write => Fault::Output,
        }
    }
}

impl From<ProjectError> for Fault<'_> {
    ghost from_gives = { λ error fault. fault ≡ project_fault error };

    fn from(error: ProjectError) -> Self {
        match error {
            ProjectError::Memory => Fault::Memory,
            ProjectError::Wrong { text } => Fault::Project { text },
        }
    }
}

impl From<ImportError> for Fault<'_> {
    ghost from_gives = { λ error fault. fault ≡ import_fault error };

    fn from(error: ImportError) -> Self {
        match error {
            ImportError::Memory => Fault::Memory,
            ImportError::NotNormal => Fault::NotNormal { report: None },
            ImportError::Shape => Fault::NotTree,
        }
    }
}
