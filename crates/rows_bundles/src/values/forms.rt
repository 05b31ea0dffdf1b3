//! How values hold what they hold.
//!
//! A row says how a value is got: it is `made`, `copied`, made `owned`, `shown`, or `handed` to
//! what shows it; or its text is `lent` to it. It is `borrowed` or `owned` then with its text, a
//! `number`, a `count`, `none` or `error`.

use crate::values::count::Value;
use crate::values::made::value_of;
use crate::values::scope::Plain;
use fluent_value::FluentValue;
use rows_common::Row;
use std::alloc::Global;
use std::borrow::CowStr;

/// Whether a value has the form of its row.
pub fn is_right(alloc: Global, row: Row<'_>) -> Option<bool> {
    if row.by == "lent" {
        return is_lent(alloc, row);
    }
    let value = got(alloc, value_of(alloc, row.subject)?, row.by)?;
    Some(has_form(&value, row.wanted))
}

fn is_lent(alloc: Global, row: Row<'_>) -> Option<bool> {
    let text = String::from_str(alloc, row.subject).ok()?;
    Some(has_form(&Value::from(&text), row.wanted))
}

/// What is got from a value.
fn got<'r>(alloc: Global, value: Value<'r>, by: &str) -> Option<Value<'r>> {
    match by {
        "made" => Some(value),
        "copied" => value.try_clone(alloc).ok(),
        "owned" => value.into_owned(alloc).ok(),
        "shown" => Some(Value::from(value.as_string(&Plain(alloc)).ok()?)),
        "handed" => Some(Value::from(value.into_string(&Plain(alloc)).ok()?)),
        _ => None,
    }
}

/// Whether a value has this form.
fn has_form(value: &Value<'_>, wanted: &str) -> bool {
    let (form, text) = wanted.split_once(' ').unwrap_or((wanted, ""));
    match value {
        FluentValue::String(CowStr::Borrowed(it)) => form == "borrowed" && *it == text,
        FluentValue::String(CowStr::Owned(it)) => form == "owned" && it.as_str() == text,
        FluentValue::Number(_) => form == "number",
        FluentValue::Custom(_) => form == "count",
        FluentValue::None => form == "none",
        FluentValue::Error => form == "error",
    }
}
