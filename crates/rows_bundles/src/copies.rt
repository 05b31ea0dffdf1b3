//! Copies of errors.

use fluent_errors::{FluentError, ReferenceKind, ResolverError};
use fluent_parser::{Error, parse};
use rows_common::{Tally, Trial, is_right_again};
use std::alloc::{AllocError, Global};

/// A source with one error.
const DAMAGED: &str = "\nkey1 = Value 1\n\ng@Rb@ge = #2y ds\n\nkey2 = Value 2\n\n";

/// An error that must equal its copy.
#[derive(Clone, Copy)]
enum Copied {
    /// The one error of a source, by itself and as an error of a bundle.
    OfSource,
    /// That a variable isn't there, by itself and as an error of a bundle.
    OfVariable,
}

impl Trial for Copied {
    fn is_right(self, alloc: Global) -> Result<bool, AllocError> {
        match self {
            Copied::OfSource => is_copied_of_source(alloc),
            Copied::OfVariable => is_copied_of_variable(alloc),
        }
    }
}

/// Tries both.
pub fn try_copies(alloc: Global) -> Tally {
    let mut tally = Tally::new();
    tally.add(is_right_again(alloc, Copied::OfSource));
    tally.add(is_right_again(alloc, Copied::OfVariable));
    tally
}

fn is_copied_of_source(alloc: Global) -> Result<bool, AllocError> {
    let mut errors = match parse(alloc, DAMAGED) {
        Ok(_tree) => Vec::new(alloc),
        Err(Error::Broken(_tree, errors)) => errors,
        Err(Error::Memory) => return Err(AllocError),
    };
    match errors.pop() {
        Some(error) => {
            let copy = error.try_clone(alloc)?;
            Ok(errors.is_empty() && copy == error && is_copied(alloc, FluentError::from(error))?)
        }
        None => Ok(false),
    }
}

fn is_copied_of_variable(alloc: Global) -> Result<bool, AllocError> {
    let id = String::from_str(alloc, "x")?;
    let error = ResolverError::Reference(ReferenceKind::Variable { id });
    let copy = error.try_clone(alloc)?;
    Ok(copy == error && is_copied(alloc, FluentError::from(error))?)
}

/// Whether an error of a bundle equals its copy.
fn is_copied(alloc: Global, error: FluentError) -> Result<bool, AllocError> {
    let copy = error.try_clone(alloc)?;
    Ok(copy == error)
}
