//! Functions that a program brings.

ghost use Rattle.std.specs.Prelude.{ℕ, List, IfOk};
ghost use Rattle.fluent_value.specs.CallResult.{IsCallResult};
ghost use Rattle.fluent_value.specs.Value.{Value, error};

use crate::args::FluentArgs;
use crate::custom::FluentType;
use crate::value::FluentValue;
use std::alloc::{AllocError, Global};

/// A function that messages may call.
///
/// ```
/// impl FluentFunction<Day> for IsOpen {
///     ghost gives = { λ _ values _. is_open values };
/// ..
///         Ok(FluentValue::String(CowStr::Borrowed(answer(*day))))
///     }
/// }
/// ```
pub trait FluentFunction<C: FluentType> {
    /// What it gives for positional values and named arguments.
    ghost gives: { Self → List (Value C.Meaning) → List (List ℕ × Value C.Meaning)
        → Value C.Meaning };

    /// What it gives for these values, [`Error`](FluentValue::Error) if it has no answer.
    ///
    /// # Errors
    /// [`AllocError`] if memory runs out; nothing is kept.
    fn call<'a, 'n>(
        &self,
        alloc: Global,
        positional: &[FluentValue<'a, C>],
        named: &FluentArgs<'n, C>,
    ) -> Result<FluentValue<'a, C>, AllocError>
        ensures { IfOk result (IsCallResult C.meaning (gives self.now) positional.now named.now) };
}

/// The type that stands in for a program without functions of its own. Its one value gives an
/// error.
///
/// ```
/// type Bundle<'r, 's> = FluentBundle<'r, 's, EnglishPlurals, NoCustom, NoFunction, Hidden>;
/// ```
#[derive(Clone, Copy, Debug, PartialEq, Eq)]
pub struct NoFunction;

impl<C: FluentType> FluentFunction<C> for NoFunction {
    ghost gives = { λ _ _ _. error };

    fn call<'a, 'n>(
        &self,
        _alloc: Global,
        _positional: &[FluentValue<'a, C>],
        _named: &FluentArgs<'n, C>,
    ) -> Result<FluentValue<'a, C>, AllocError> {
        Ok(FluentValue::Error)
    }
}
