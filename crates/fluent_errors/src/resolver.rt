//! What goes wrong while a pattern is resolved.

ghost use Rattle.std.specs.Prelude.{◌≡◌, IfOk, Some};
ghost use Rattle.fluent_errors.specs.Texts.{resolver_text};
ghost use Rattle.fluent_errors.specs.View.{resolver_view};

use crate::reference::ReferenceKind;
use std::alloc::{AllocError, Global};
use std::fmt;

/// What went wrong while a pattern was resolved. The pattern has a text all the same.
///
/// ```
/// if let FluentError::ResolverError(
///     ResolverError::Reference(ReferenceKind::Variable { id }),
/// ) = error
/// {
///     println!(rt; "missing: {id}")?; // missing: count
/// }
/// ```
#[derive(Debug, PartialEq, Eq, Drop)]
pub enum ResolverError {
    /// What an expression refers to isn't there.
    Reference(ReferenceKind),
    /// The message of this id has no value.
    NoValue(String),
    /// None of the variants of a select was chosen, and none is the default.
    MissingDefault,
    /// A pattern refers to itself, by itself or through others.
    Cyclic,
    /// One placeable more than a pattern may hold was to be opened, those of the patterns that it
    /// refers to included.
    TooManyPlaceables,
}

impl ResolverError {
    /// The same error.
    ///
    /// # Errors
    /// [`AllocError`] if memory runs out; nothing is kept.
    pub fn try_clone(&self, alloc: Global) -> Result<Self, AllocError>
        ensures { IfOk result (λ copy. resolver_view copy ≡ resolver_view self.now) }
    {
        Ok(match self {
            ResolverError::Reference(kind) => ResolverError::Reference(kind.try_clone(alloc)?),
            ResolverError::NoValue(id) => ResolverError::NoValue(String::from_str(
                alloc,
                id.as_str(),
            )?),
            ResolverError::MissingDefault => ResolverError::MissingDefault,
            ResolverError::Cyclic => ResolverError::Cyclic,
            ResolverError::TooManyPlaceables => ResolverError::TooManyPlaceables,
        })
    }
}

/// The text of `docs/reference/errors.md`.
impl fmt::Display for ResolverError {
    ghost output = { λ error. Some (resolver_text (resolver_view error)) };

    fn fmt<W: fmt::Write>(&self, f: &mut fmt::Formatter<W>) -> fmt::Result {
        match self {
            ResolverError::Reference(kind) => match kind {
                ReferenceKind::Function { id } => write!(f, "Unknown function: {id}()"),
                ReferenceKind::Message {
                    id,
                    attribute: None,
                } => { write!(f, "Unknown message: {id}") }
                ReferenceKind::Message {
                    id,
                    attribute: Some(name),
                } => { write!(f, "Unknown attribute: {id}.{name}") }
                ReferenceKind::Term {
                    id,
                    attribute: None,
                } => write!(f, "Unknown term: -{id}"),
                ReferenceKind::Term {
                    id,
                    attribute: Some(name),
                } => { write!(f, "Unknown attribute: -{id}.{name}") }
                ReferenceKind::Variable { id } => write!(f, "Unknown variable: ${id}"),
            },
            ResolverError::NoValue(id) => write!(f, "No value: {id}"),
            ResolverError::MissingDefault => f.write_str("No default"),
            ResolverError::Cyclic => f.write_str("Cyclical dependency detected"),
            ResolverError::TooManyPlaceables => f.write_str("Too many placeables"),
        }
    }
}

impl std::error::Error for ResolverError {}
