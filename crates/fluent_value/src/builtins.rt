//! The functions that every program may have.

ghost use Rattle.std.specs.Prelude.{IfOk};
ghost use Rattle.fluent_value.specs.Builtins.{number_called};
ghost use Rattle.fluent_value.specs.CallResult.{IsCallResult};

use crate::args::FluentArgs;
use crate::custom::FluentType;
use crate::value::FluentValue;
use std::alloc::{AllocError, Global};

/// The first of the values, if it is a number, with the options that the named ones set; otherwise
/// [`Error`](FluentValue::Error).
///
/// # Errors
/// [`AllocError`] if memory runs out; nothing is kept.
pub fn NUMBER<'a, 'n, C: FluentType + Drop>(
    alloc: Global,
    positional: &[FluentValue<'a, C>],
    named: &FluentArgs<'n, C>,
) -> Result<FluentValue<'a, C>, AllocError>
    ensures { IfOk result (IsCallResult C.meaning number_called positional.now named.now) }
{
    let Some(FluentValue::Number(number)) = positional.first() else {
        return Ok(FluentValue::Error);
    };
    let mut number = number.try_clone(alloc)?;
    number.options.merge(alloc, named)?;
    Ok(FluentValue::Number(number))
}
