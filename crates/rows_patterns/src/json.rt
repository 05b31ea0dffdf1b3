//! The members of objects.

use serde_json::Value as Json;

/// The text under a name.
pub fn text_in<'row>(json: &'row Json, name: &str) -> Option<&'row str> {
    json.get(name)?.as_str()
}

/// Whether a setting is on, which a row may leave out.
pub fn is_set(json: &Json, name: &str, usual: bool) -> bool {
    match json.get(name) {
        Some(Json::Bool(is_on)) => *is_on,
        _ => usual,
    }
}

/// The values of a list under a name, none where there is no list.
pub fn list_in<'row>(json: &'row Json, name: &str) -> &'row [Json] {
    match json.get(name) {
        Some(Json::Array(list)) => list,
        _ => &[],
    }
}
