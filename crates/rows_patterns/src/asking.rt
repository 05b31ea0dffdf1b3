//! Asking a bundle for what a pattern gives, by each of its calls.

use crate::bundle::Bundle;
use crate::own::Args;
use crate::wanted::Wanted;
use fluent_ast::Pattern;
use fluent_bundle::FluentError;
use std::alloc::{AllocError, Global};

/// A pattern that a bundle is asked for, and the arguments that it is asked with.
#[derive(Clone, Copy)]
pub struct Asked<'b, 'r, 's, 'a> {
    pub bundle: &'b Bundle<'r, 's>,
    pub pattern: &'r Pattern<&'s str>,
    pub arguments: Option<&'b Args<'a>>,
}

impl Asked<'_, '_, '_, '_> {
    /// Whether the pattern gives what it must, by each call. The only error is that memory runs
    /// out.
    pub fn gives(self, alloc: Global, wanted: Wanted<'_>) -> Result<bool, AllocError> {
        Ok(self.is_formatted(alloc, wanted)? && self.is_written(alloc, wanted)?)
    }

    /// Whether `format_pattern` gives the text, and tells the errors. Where memory is refused, it
    /// must have told the first of them.
    fn is_formatted(self, alloc: Global, wanted: Wanted<'_>) -> Result<bool, AllocError> {
        let mut errors = Vec::new(alloc);
        match self.is_text(&mut errors, wanted.text) {
            Ok(is_text) => Ok(is_text && wanted.are_all(alloc, &errors)?),
            Err(AllocError) => {
                if wanted.are_first(alloc, &errors)? {
                    return Err(AllocError);
                }
                Ok(false)
            }
        }
    }

    /// Whether `format_pattern` gives this text.
    fn is_text(self, errors: &mut Vec<FluentError>, text: &str) -> Result<bool, AllocError> {
        let given = self
            .bundle
            .format_pattern(self.pattern, self.arguments, errors)?;
        Ok(given.as_str() == text)
    }
}
