//! Values, as rows write them: what a value is made of, and after a space its text.
//!
//! `text` and `cow` are borrowed texts, `own` is one of its own, and `some` one that may be absent,
//! as `absent` is. `read` is what a text is read as, and `place` the same as a place in an order.
//! `i32` is an integer, and `some_u8` is one that may be absent; `number` is a `FluentNumber`.
//! `count` is a value of the program's own, and there are `none` and `error`.

use crate::values::count::{Count, Value};
use fluent_number::{FluentNumber, FluentNumberType};
use fluent_value::FluentValue;
use std::alloc::Global;
use std::borrow::CowStr;

/// The value of these words.
pub fn value_of<'r>(alloc: Global, words: &'r str) -> Option<Value<'r>> {
    let (kind, text) = words.split_once(' ').unwrap_or((words, ""));
    match kind {
        "text" => Some(Value::from(text)),
        "cow" => Some(Value::from(CowStr::Borrowed(text))),
        "own" => Some(Value::from(String::from_str(alloc, text).ok()?)),
        "some" => Some(Value::from(Some(text))),
        "read" => Some(Value::try_number(text)),
        "place" => place_of(text),
        _ => other_of(kind, text),
    }
}

/// A value that is no text.
fn other_of<'r>(kind: &str, text: &str) -> Option<Value<'r>> {
    match kind {
        "absent" => Some(absent()),
        "none" => Some(Value::None),
        "error" => Some(Value::Error),
        "count" => Some(Value::Custom(Count(text.parse::<u32>().ok()?))),
        "some_u8" => Some(Value::from(Some(text.parse::<u8>().ok()?))),
        "number" => Some(Value::from(FluentNumber::from(text.parse::<i32>().ok()?))),
        "i32" => Some(Value::from(text.parse::<i32>().ok()?)),
        _ => None,
    }
}

fn absent<'r>() -> Value<'r> {
    let absent: Option<&'r str> = None;
    Value::from(absent)
}

/// What a text is read as, which must be a number, as a place in an order.
fn place_of(text: &str) -> Option<Value<'_>> {
    match Value::try_number(text) {
        FluentValue::Number(mut number) => {
            number.options.number_type = FluentNumberType::Ordinal;
            Some(Value::Number(number))
        }
        _ => None,
    }
}
