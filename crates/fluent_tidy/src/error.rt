//! Why a source or a tree isn't tidied.

ghost use Rattle.std.specs.Prelude.{◌≡◌, Some};
ghost use Rattle.fluent_tidy.specs.Messages.{clean_message, normalize_message, import_message};
ghost use Rattle.fluent_tidy.specs.Errors.{as_normalize, as_import};
ghost use Rattle.fluent_tidy.specs.declared.error.CleanError.TheVariants as clean;
ghost use Rattle.fluent_tidy.specs.declared.error.NormalizeError.TheVariants as normalize;
ghost use Rattle.fluent_tidy.specs.declared.error.ImportError.TheVariants as import;

use fluent_json::FromValueError;
use std::alloc::AllocError;
use std::fmt;

/// Why [`clean`](crate::clean), [`join`](crate::join) or [`export`](crate::export) gave nothing.
///
/// ```no_run
/// match clean(alloc, "a = b\r\n") {
///     Ok(text) => print!(rt; "{text}")?,
///     Err(CleanError::CarriageReturn) => println!(rt; "convert the line ends first")?,
///     Err(CleanError::Memory) => bail!("out of memory"),
/// }
/// ```
#[derive(Clone, Copy, Debug, PartialEq, Eq)]
pub enum CleanError {
    /// Memory ran out, and the same call may succeed later; or what is read nests deeper than the
    /// budget of the stack.
    Memory = 1,
    /// A source holds a carriage return.
    CarriageReturn = 2,
}

/// Why [`normalize`](crate::normalize) gave no text.
///
/// ```no_run
/// match normalize(alloc, "a = { b }\n") {
///     Ok(text) => print!(rt; "{text}")?, // a = { b }
///     Err(NormalizeError::NotNormal) => println!(rt; "it has no normal text")?,
///     Err(error) => bail!("{error}"),
/// }
/// ```
#[derive(Clone, Copy, Debug, PartialEq, Eq)]
pub enum NormalizeError {
    /// Memory ran out, and the same call may succeed later; or what is read nests deeper than the
    /// budget of the stack.
    Memory = 1,
    /// The source holds a carriage return.
    CarriageReturn = 2,
    /// The source has no normal text: what is written of its tree isn't read back as that tree.
    NotNormal = 3,
}

/// Why [`import`](crate::import) gave no text.
///
/// ```no_run
/// let tree = export(alloc, "a = b\n")?;
/// match import(alloc, &tree) {
///     Ok(text) => print!(rt; "{text}")?, // a = b
///     Err(ImportError::Shape) => println!(rt; "no tree has this value")?,
///     Err(error) => bail!("{error}"),
/// }
/// ```
#[derive(Clone, Copy, Debug, PartialEq, Eq)]
pub enum ImportError {
    /// Memory ran out, and the same call may succeed later; or what is read nests deeper than the
    /// budget of the stack.
    Memory = 1,
    /// What is written of the tree isn't read back as that tree.
    NotNormal = 3,
    /// No tree has the value.
    Shape = 4,
}

impl fmt::Display for CleanError {
    ghost output = { λ error. Some (clean_message error) };

    fn fmt<W: fmt::Write>(&self, f: &mut fmt::Formatter<W>) -> fmt::Result {
        f.write_str(match self {
            CleanError::Memory => "out of memory",
            CleanError::CarriageReturn => "carriage return",
        })
    }
}

impl fmt::Display for NormalizeError {
    ghost output = { λ error. Some (normalize_message error) };

    fn fmt<W: fmt::Write>(&self, f: &mut fmt::Formatter<W>) -> fmt::Result {
        f.write_str(match self {
            NormalizeError::Memory => "out of memory",
            NormalizeError::CarriageReturn => "carriage return",
            NormalizeError::NotNormal => "not normal",
        })
    }
}

impl fmt::Display for ImportError {
    ghost output = { λ error. Some (import_message error) };

    fn fmt<W: fmt::Write>(&self, f: &mut fmt::Formatter<W>) -> fmt::Result {
        f.write_str(match self {
            ImportError::Memory => "out of memory",
            ImportError::NotNormal => "not normal",
            ImportError::Shape => "not a tree",
        })
    }
}

impl From<AllocError> for CleanError {
    ghost from_gives = { λ _ e. e ≡ clean.Memory };

    fn from(_error: AllocError) -> Self {
        CleanError::Memory
    }
}

impl From<AllocError> for NormalizeError {
    ghost from_gives = { λ _ e. e ≡ normalize.Memory };

    fn from(_error: AllocError) -> Self {
        NormalizeError::Memory
    }
}

impl From<AllocError> for ImportError {
    ghost from_gives = { λ _ e. e ≡ import.Memory };

    fn from(_error: AllocError) -> Self {
        ImportError::Memory
    }
}

impl From<CleanError> for NormalizeError {
    ghost from_gives = { λ from e. e ≡ as_normalize from };

    fn from(error: CleanError) -> Self {
        match error {
            CleanError::Memory => NormalizeError::Memory,
            CleanError::CarriageReturn => NormalizeError::CarriageReturn,
        }
    }
}

impl From<FromValueError> for ImportError {
    ghost from_gives = { λ from e. e ≡ as_import from };

    fn from(error: FromValueError) -> Self {
        match error {
            FromValueError::Memory => ImportError::Memory,
            FromValueError::Shape => ImportError::Shape,
        }
    }
}

impl std::error::Error for CleanError {}

impl std::error::Error for NormalizeError {}

impl std::error::Error for ImportError {}
