//! A pattern that no source reads as: a select without variants.

use crate::bundle::Plain;
use fluent_ast::{Expression, InlineExpression, Pattern, PatternElement};
use fluent_bundle::resolver::ResolverError;
use fluent_bundle::{EnglishPlurals, FluentError};
use rows_common::{Tally, Trial, is_right_again};
use std::alloc::{AllocError, Global};

#[derive(Clone, Copy)]
struct NoVariants;

impl Trial for NoVariants {
    fn is_right(self, alloc: Global) -> Result<bool, AllocError> {
        let mut elements = Vec::new(alloc);
        elements.push(PatternElement::Placeable {
            expression: Expression::Select {
                selector: InlineExpression::StringLiteral { value: "k" },
                variants: Vec::new(alloc),
            },
        })?;
        has_no_default(alloc, &Pattern { elements })
    }
}

/// Tries the pattern.
pub fn try_made(alloc: Global) -> Tally {
    let mut tally = Tally::new();
    tally.add(is_right_again(alloc, NoVariants));
    tally
}

/// Whether a pattern gives nothing, and one error: that there is no default.
fn has_no_default(alloc: Global, pattern: &Pattern<&str>) -> Result<bool, AllocError> {
    let mut errors = Vec::new(alloc);
    let is_empty = is_empty(alloc, pattern, &mut errors)?;
    Ok(
        is_empty
            && matches!(
                errors.as_slice(),
                [FluentError::ResolverError(ResolverError::MissingDefault)]
            ),
    )
}

/// Whether a pattern gives nothing.
fn is_empty(
    alloc: Global,
    pattern: &Pattern<&str>,
    errors: &mut Vec<FluentError>,
) -> Result<bool, AllocError> {
    let bundle = Plain::new(alloc, Vec::new(alloc), EnglishPlurals);
    let text = bundle.format_pattern(pattern, None, errors)?;
    Ok(text.as_str().is_empty())
}
