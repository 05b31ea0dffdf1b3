//! Values, as rows write them.

use crate::own::{Args, Token, Value};
use serde_json::Value as Json;
use std::alloc::{AllocError, Global};
use std::borrow::CowStr;

/// The arguments that an object is, if there is one. The only error is that memory runs out.
pub fn arguments_of(alloc: Global, json: Option<&Json>) -> Result<Option<Args<'_>>, AllocError> {
    let Some(Json::Object(members)) = json else {
        return Ok(None);
    };
    let mut arguments = Args::new(alloc);
    for (name, json) in members.iter() {
        set(&mut arguments, name.as_str(), json)?;
    }
    Ok(Some(arguments))
}

/// Sets a value. Where memory is refused, it is set once more in the same arguments, which must be
/// as they were.
fn set<'row>(
    arguments: &mut Args<'row>,
    name: &'row str,
    json: &'row Json,
) -> Result<(), AllocError> {
    match arguments.set(CowStr::Borrowed(name), value_of(json)) {
        Ok(()) => Ok(()),
        Err(AllocError) => arguments.set(CowStr::Borrowed(name), value_of(json)),
    }
}

/// A value: a text, which is read as a number where it is one, a text in a list, which is not,
/// `true` for the program's own value, `false` for `Error`, and `null` for none.
pub fn value_of(json: &Json) -> Value<'_> {
    match json {
        Json::String(text) => Value::try_number(text.as_str()),
        Json::Array(texts) => Value::from(texts.first().and_then(Json::as_str)),
        Json::Bool(true) => Value::Custom(Token),
        Json::Bool(false) => Value::Error,
        _ => Value::None,
    }
}
