//! What a bundle reports.

ghost use Rattle.std.specs.Prelude.{◌≡◌, IfOk, Some};
ghost use Rattle.fluent_errors.specs.declared.bundle.FluentError.TheVariants.{ParserError as OfParser, ResolverError as OfResolver};
ghost use Rattle.fluent_errors.specs.Texts.{bundle_text};
ghost use Rattle.fluent_errors.specs.View.{bundle_view};

use crate::entry::EntryKind;
use crate::resolver::ResolverError;
use fluent_parsed::ParserError;
use std::alloc::{AllocError, Global};
use std::fmt;

/// What a bundle reports: while entries are added to it, or while it resolves a pattern.
///
/// ```
/// for error in errors.iter() {
///     println!(rt; "{error}")?; // Resolver error: Unknown variable: $count
/// }
/// ```
#[derive(Debug, PartialEq, Eq, Drop)]
pub enum FluentError {
    /// An entry of this kind was to be added under an id that stands for another one already.
    Overriding { kind: EntryKind, id: String },
    /// A source is damaged.
    ParserError(ParserError),
    /// A pattern could not be resolved as it stands.
    ResolverError(ResolverError),
}

impl FluentError {
    /// The same error.
    ///
    /// # Errors
    /// [`AllocError`] if memory runs out; nothing is kept.
    pub fn try_clone(&self, alloc: Global) -> Result<Self, AllocError>
        ensures { IfOk result (λ copy. bundle_view copy ≡ bundle_view self.now) }
    {
        Ok(match self {
            FluentError::Overriding { kind, id } => FluentError::Overriding {
                kind: *kind,
                id: String::from_str(alloc, id.as_str())?,
            },
            FluentError::ParserError(error) => FluentError::ParserError(error.try_clone(alloc)?),
            FluentError::ResolverError(error) => FluentError::ResolverError(error.try_clone(
                alloc,
            )?),
        })
    }
}

impl From<ParserError> for FluentError {
    ghost from_gives = { λ error made. made ≡ OfParser error };

    fn from(error: ParserError) -> Self {
        Self::ParserError(error)
    }
}

impl From<ResolverError> for FluentError {
    ghost from_gives = { λ error made. made ≡ OfResolver error };

    fn from(error: ResolverError) -> Self {
        Self::ResolverError(error)
    }
}

/// The text of `docs/reference/errors.md`.
impl fmt::Display for FluentError {
    ghost output = { λ error. Some (bundle_text (bundle_view error)) };

    fn fmt<W: fmt::Write>(&self, f: &mut fmt::Formatter<W>) -> fmt::Result {
        match self {
            FluentError::Overriding { kind, id } => {
                write!(f, "Attempt to override an existing {kind}: \"{id}\".")
            }
            FluentError::ParserError(error) => write!(f, "Parser error: {error}"),
            FluentError::ResolverError(error) => write!(f, "Resolver error: {error}"),
        }
    }
}

impl std::error::Error for FluentError {}
