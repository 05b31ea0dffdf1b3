//! The function `DATETIME`.

ghost use Rattle.std.specs.Prelude.{IfOk};
ghost use Rattle.fluent_dates.specs.Called.{date_called};
ghost use Rattle.fluent_value.specs.CallResult.{IsCallResult};

use crate::merging::merge_named;
use crate::value::DateTimeValue;
use fluent_value::{FluentArgs, FluentFunction, FluentValue};
use std::alloc::{AllocError, Global};

/// The first of the values, if it is a date, with the options that the named ones set; otherwise
/// [`Error`](FluentValue::Error). An option that isn't there changes nothing, and neither does a
/// value that an option doesn't have.
///
/// # Errors
/// [`AllocError`] if memory runs out; nothing is kept.
pub fn DATETIME<'a, 'n>(
    _alloc: Global,
    positional: &[FluentValue<'a, DateTimeValue>],
    named: &FluentArgs<'n, DateTimeValue>,
) -> Result<FluentValue<'a, DateTimeValue>, AllocError>
    ensures { IfOk result (IsCallResult (λ c. c.0) date_called positional.now named.now) }
{
    let Some(FluentValue::Custom(date)) = positional.first() else {
        return Ok(FluentValue::Error);
    };
    let mut date = date.0;
    merge_named(&mut date.options, named);
    Ok(FluentValue::Custom(DateTimeValue(date)))
}

/// The function that a bundle calls as `DATETIME`.
///
/// ```no_run
/// bundle.add_function("DATETIME", DateTimeFunction)?;
/// ```
#[derive(Clone, Copy, Debug, PartialEq, Eq)]
pub struct DateTimeFunction;

impl FluentFunction<DateTimeValue> for DateTimeFunction {
    ghost gives = { λ _. date_called };

    fn call<'a, 'n>(
        &self,
        alloc: Global,
        positional: &[FluentValue<'a, DateTimeValue>],
        named: &FluentArgs<'n, DateTimeValue>,
    ) -> Result<FluentValue<'a, DateTimeValue>, AllocError> {
        DATETIME(alloc, positional, named)
    }
}
