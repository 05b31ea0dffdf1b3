//! What is tried, and tried once more where memory is refused.

use std::alloc::{AllocError, Global};

/// What can turn out right or wrong.
pub trait Trial: Copy {
    /// Whether it is right.
    ///
    /// # Errors
    /// [`AllocError`] if memory runs out; nothing is kept.
    fn is_right(self, alloc: Global) -> Result<bool, AllocError>;
}

/// Whether it is right. Where memory is refused, it is tried once more: with one allocation refused
/// each answer must be right, or that memory ran out.
pub fn is_right_again<T: Trial>(alloc: Global, trial: T) -> bool {
    match trial.is_right(alloc) {
        Ok(is_right) => is_right,
        Err(AllocError) => trial.is_right(alloc).unwrap_or(false),
    }
}
