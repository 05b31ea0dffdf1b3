//! Values that are written.

ghost use Rattle.fluent_meaning.specs.Environment.{value_text};
ghost use Rattle.fluent_progress.specs.Resolves.{Appends};
ghost use Rattle.fluent_progress.specs.Results.{result_text};
ghost use Rattle.fluent_value.specs.Value.{number_or_text};
ghost use Rattle.fluent_value.specs.View.{value_view};

use crate::context::Context;
use fluent_value::{FluentType, FluentValue};
use std::alloc::AllocError;

/// Writes the text of a value.
///
/// # Errors
/// [`AllocError`] if memory runs out; `out` may hold a part of the text.
pub fn write_value<C: FluentType, F, E: Context<C, F>>(
    out: &mut String,
    context: &E,
    value: &FluentValue<'_, C>,
) -> Result<(), AllocError>
    ensures { Appends result out.old out.new
        (value_text (E.environment context.now) (value_view C.meaning value.now)) }
{
    value.append_to(out, context)
}

/// Writes what a number literal stands for.
///
/// # Errors
/// [`AllocError`] if memory runs out; `out` may hold a part of the text.
pub fn write_number<C: FluentType + Drop, F, E: Context<C, F>>(
    out: &mut String,
    context: &E,
    digits: &str,
) -> Result<(), AllocError>
    ensures { Appends result out.old out.new
        (value_text (E.environment context.now) (number_or_text digits.now)) }
{
    let value: FluentValue<'_, C> = FluentValue::try_number(digits);
    write_value(out, context, &value)
}

/// Writes the result of a function of this name: an error as a call without arguments.
///
/// # Errors
/// [`AllocError`] if memory runs out; `out` may hold a part of the text.
pub fn write_result<C: FluentType, F, E: Context<C, F>>(
    out: &mut String,
    context: &E,
    id: &str,
    value: &FluentValue<'_, C>,
) -> Result<(), AllocError>
    ensures { Appends result out.old out.new
        (result_text C.meaning (E.environment context.now) id.now value.now) }
{
    if let FluentValue::Error = value {
        out.push_str(id)?;
        return out.push_str("()");
    }
    write_value(out, context, value)
}
