//! Which entry of a source has no tidy text.

ghost use Rattle.std.specs.Prelude.{◌≡◌, ◌↔◌, IsTrue, IfOk};
ghost use Rattle.fluent_tidy.specs.Reasons.{IsFirstShape, IsShape, TellsShape};

use crate::tidy_error::TidyError;
use crate::tidying::{Laid, lay_tidy};
use fluent_text::stack::StackBudget;
use std::alloc::{AllocError, Global};

/// Where the first part of a source begins that has no tidy text by itself, if the parts begin at
/// these offsets; 0 if each has one.
///
/// # Errors
/// [`AllocError`] if memory runs out; nothing is kept.
pub fn shape_offset(
    alloc: Global,
    source: &str,
    starts: &[usize],
    budget: StackBudget,
) -> Result<usize, AllocError>
    ensures { IfOk result (IsFirstShape source.now starts.now) }
{
    let mut left = starts;
    while let Some((&start, more)) = left.split_first() {
        let end = more.first().copied().unwrap_or(source.len());
        if is_shape_between(alloc, source, start, end, budget)? {
            return Ok(start);
        }
        left = more;
    }
    Ok(0)
}

/// Whether the part of a source between two offsets can be read, and has no tidy text.
fn is_shape_between(
    alloc: Global,
    source: &str,
    start: usize,
    end: usize,
    budget: StackBudget,
) -> Result<bool, AllocError>
    ensures { IfOk result (TellsShape source.now start end) }
{
    match source.get(start..end) {
        Some(part) => is_shape(alloc, part, budget),
        None => Ok(false),
    }
}

/// Whether a part of a source can be read, and has no tidy text.
fn is_shape(alloc: Global, part: &str, budget: StackBudget) -> Result<bool, AllocError>
    ensures { IfOk result (λ is. IsTrue is ↔ IsShape part.now) }
{
    match lay_tidy(alloc, part, budget) {
        Ok(Laid::Tidy(_)) | Err(TidyError::Damaged(_)) => Ok(false),
        Ok(Laid::Shaped(_)) => Ok(true),
        Err(_) => Err(AllocError),
    }
}
