//! What may be wrong with the file of a project.
ghost use Rattle.std.specs.Prelude.{◌≡◌};
ghost use Rattle.fluent_project.specs.declared.faults.FileError.TheVariants as file_error;

use crate::places::Place;
use std::alloc::{AllocError, AllocFailed};

/// What is wrong with the value of a key, or with a table.
#[derive(Clone, Copy)]
pub enum FaultKind {
    /// Not a text, or an empty one.
    NoText,
    /// Neither a text nor a list of texts with one at least.
    NoTexts,
    /// Not a list of different tags of languages.
    NoLanguages,
    /// Not a list of texts.
    NoList,
    /// None of `ignore`, `warning` and `error`.
    NoAction,
    /// Not a table: `[name]`.
    NoTable,
    /// Not a list of tables: `[[name]]`.
    NoTables,
    /// The table lacks the key.
    Missing,
    /// The table takes no such key.
    Unknown,
    /// The text holds a variable that isn't there.
    NoVariable,
    /// The variable holds itself, directly or by others.
    HoldsItself,
    /// The variable holds a wildcard.
    HasWildcard,
    /// The pattern of translations has other wildcards than that of the reference.
    OtherWildcards,
    /// The pattern of the reference holds `{locale}`.
    LocaleInReference,
    /// The pattern of translations lacks `{locale}`, and isn't of one language.
    NoLocale,
    /// The key of messages is no regular expression.
    NoExpression,
    /// The path is none of one file: it holds a wildcard or `{locale}`.
    NoPath,
}

/// What is wrong with the file of a project, and where.
#[derive(Clone, Copy)]
pub struct Fault<'f> {
    /// Where it is: [`line_of`](crate::line_of) has its line.
    pub place: Place<'f>,
    /// What it is.
    pub kind: FaultKind,
}

/// Why a file tells no project.
#[derive(Clone, Copy)]
pub enum FileError<'f> {
    /// Memory ran out.
    Memory,
    /// This is wrong with it.
    Fault(Fault<'f>),
}

impl From<AllocError> for FileError<'_> {
    ghost from_gives = { λ _ error. error ≡ file_error.Memory };

    fn from(_error: AllocError) -> Self {
        FileError::Memory
    }
}

impl<T: Drop> From<AllocFailed<T>> for FileError<'_> {
    ghost from_gives = { λ _ error. error ≡ file_error.Memory };

    fn from(_error: AllocFailed<T>) -> Self {
        FileError::Memory
    }
}
