//! A call as a text.

ghost use Rattle.std.specs.Prelude.{◌≡◌, IfOk, map, string_bytes};
ghost use Rattle.serde_json.specs.Data.{no_members, object, string};
ghost use Rattle.serde_json.specs.View.{items_view, members_view, view};
ghost use Rattle.fluent_calls.specs.Calls.{all_put, call_data, call_text, three, value_data};
ghost use Rattle.fluent_run.specs.Dated.{dated_view as table_of};
ghost use Rattle.fluent_calls.specs.CallValues.{items_data, plain, plain_all};

use fluent_dates::DateTimeValue;
use fluent_value::{FluentArgs, FluentValue};
use serde_json::{Map, Value};
use std::alloc::{AllocError, Global};

/// The text of a call of a function of this name: an array of JSON with the name, the positional
/// arguments, and an object of the named ones.
///
/// # Errors
/// [`AllocError`] if memory runs out; nothing is kept.
pub(crate) fn call_text(
    alloc: Global,
    name: &str,
    positional: &[FluentValue<'_, DateTimeValue>],
    named: &FluentArgs<'_, DateTimeValue>,
) -> Result<String, AllocError>
    ensures { IfOk result (λ text. string_bytes text
        ≡ call_text name.now (plain_all positional.now) (table_of named.now)) }
{
    call_value(alloc, name, positional, named)?.to_string(alloc)
}

/// The call of a function of this name as a value of JSON: an array with the name, the positional
/// arguments, and an object of the named ones.
fn call_value(
    alloc: Global,
    name: &str,
    positional: &[FluentValue<'_, DateTimeValue>],
    named: &FluentArgs<'_, DateTimeValue>,
) -> Result<Value, AllocError>
    ensures { IfOk result (λ value. view value
        ≡ call_data name.now (plain_all positional.now) (table_of named.now)) }
{
    let mut items = Vec::with_capacity(alloc, 3)?;
    items.push(Value::try_from_str(alloc, name)?)?;
    let values = positional_values(alloc, positional)?;
    items.push(Value::Array(values))?;
    items.push(named_value(alloc, named)?)?;
    Ok(Value::Array(items))
}

/// Values of JSON for positional arguments.
fn positional_values(
    alloc: Global,
    positional: &[FluentValue<'_, DateTimeValue>],
) -> Result<Vec<Value>, AllocError>
    ensures { IfOk result (λ values. items_view values.items ≡ items_data (plain_all positional.now)) }
{
    let mut values = Vec::with_capacity(alloc, positional.len())?;
    for value in positional {
        values.push(value_of(alloc, value)?)?;
    }
    Ok(values)
}

/// An object of named values.
fn named_value(alloc: Global, named: &FluentArgs<'_, DateTimeValue>) -> Result<Value, AllocError>
    ensures { IfOk result (λ value. view value ≡ object (all_put no_members (table_of named.now))) }
{
    let mut members = Map::new(alloc);
    for (name, value) in named.iter() {
        let value = value_of(alloc, value)?;
        serde_json::put(&mut members, alloc, name, value)?;
    }
    Ok(Value::Object(members))
}

/// A value of JSON for an argument.
fn value_of(alloc: Global, value: &FluentValue<'_, DateTimeValue>) -> Result<Value, AllocError>
    ensures { IfOk result (λ made. view made ≡ value_data (plain value.now)) }
{
    match value {
        FluentValue::String(text) => Value::try_from_str(alloc, text.as_str()),
        FluentValue::Number(number) => {
            let mut members = Map::new(alloc);
            let text = Value::String(number.as_string(alloc)?);
            serde_json::put(&mut members, alloc, "number", text)?;
            Ok(Value::Object(members))
        }
        FluentValue::Custom(date) => {
            let mut members = Map::new(alloc);
            let text = Value::String(date.0.as_iso_string(alloc)?);
            serde_json::put(&mut members, alloc, "date", text)?;
            Ok(Value::Object(members))
        }
        FluentValue::None | FluentValue::Error => Ok(Value::Null),
    }
}
