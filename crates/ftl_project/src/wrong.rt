//! What is wrong with a project.
ghost use Rattle.std.specs.Prelude.{◌≡◌};
ghost use Rattle.ftl_project.specs.declared.wrong.ProjectError.TheVariants as error;

use crate::loading::Loaded;
use fluent_project::{Fault, FileError, Place, line_of, push_fault};
use std::alloc::{AllocError, AllocFailed, Global};

/// Why there is no project.
#[derive(Debug, PartialEq, Eq, Drop)]
pub enum ProjectError {
    /// Memory ran out.
    Memory,
    /// Something is wrong with its file, or with the words that name it, as this says:
    /// `l10n.toml:7: [[paths]] lacks 'l10n'`.
    Wrong { text: String },
}

impl From<AllocError> for ProjectError {
    ghost from_gives = { λ _ e. e ≡ error.Memory };

    fn from(_error: AllocError) -> Self {
        ProjectError::Memory
    }
}

impl<T: Drop> From<AllocFailed<T>> for ProjectError {
    ghost from_gives = { λ _ e. e ≡ error.Memory };

    fn from(_error: AllocFailed<T>) -> Self {
        ProjectError::Memory
    }
}

impl ProjectError {
    /// What is wrong on a line of a file.
    pub(crate) fn at(alloc: Global, name: &str, line: usize, what: &str) -> ProjectError {
        ProjectError::of(format!(in alloc; "{name}:{line}: {what}"))
    }

    /// What is wrong at a place of a file.
    pub(crate) fn in_file(alloc: Global, file: &Loaded, place: Place<'_>, what: &str) -> Self {
        match line_of(alloc, file.text.as_str(), place) {
            Ok(line) => ProjectError::at(alloc, file.name.as_str(), line, what),
            Err(AllocError) => ProjectError::Memory,
        }
    }

    /// What is wrong, if there is memory for its text.
    pub(crate) fn of(text: Result<String, AllocError>) -> ProjectError {
        match text {
            Ok(text) => ProjectError::Wrong { text },
            Err(_) => ProjectError::Memory,
        }
    }

    /// The error of a file, of which this is the text.
    pub(crate) fn of_file(
        alloc: Global,
        name: &str,
        text: &str,
        error: FileError<'_>,
    ) -> ProjectError {
        match error {
            FileError::Memory => ProjectError::Memory,
            FileError::Fault(fault) => ProjectError::of(fault_text(alloc, name, text, fault)),
        }
    }
}

/// What is wrong with a file, and on which line.
fn fault_text(
    alloc: Global,
    name: &str,
    text: &str,
    fault: Fault<'_>,
) -> Result<String, AllocError> {
    let line = line_of(alloc, text, fault.place)?;
    let mut told = format!(in alloc; "{name}:{line}: ")?;
    push_fault(&mut told, fault)?;
    Ok(told)
}
