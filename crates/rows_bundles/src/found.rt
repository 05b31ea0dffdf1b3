//! What an id of a bundle stands for.

use crate::bundle::{Bundle, Function};
use fluent_ast::{Pattern, PatternElement};
use fluent_bundle::{FunctionRef, GetEntry};

/// What an id stands for. Messages and terms are told by the first text of their value.
#[derive(Clone, Copy, Debug, PartialEq, Eq)]
pub enum Found<'s> {
    Nothing,
    Message(&'s str),
    Term(&'s str),
    Own(Function),
    Number,
}

/// Whether an id stands for this, by each call that tells.
pub fn is_found(bundle: &Bundle<'_, '_>, id: &str, what: Found<'_>) -> bool {
    let is_message = matches!(what, Found::Message(_));
    what_is(bundle, id) == what
        && bundle.has_message(id) == is_message
        && has_value(bundle, id, what)
}

/// What an id stands for.
fn what_is<'s>(bundle: &Bundle<'_, 's>, id: &str) -> Found<'s> {
    if let Some(message) = bundle.get_entry_message(id) {
        return Found::Message(first_text(message.value.as_ref()));
    }
    if let Some(term) = bundle.get_entry_term(id) {
        return Found::Term(first_text(Some(&term.value)));
    }
    match bundle.get_entry_function(id) {
        Some(FunctionRef::Own(function)) => Found::Own(*function),
        Some(FunctionRef::Number) => Found::Number,
        None => Found::Nothing,
    }
}

/// Whether the message that a program gets has the value that is asked for.
fn has_value(bundle: &Bundle<'_, '_>, id: &str, what: Found<'_>) -> bool {
    match (bundle.get_message(id), what) {
        (Some(message), Found::Message(text)) => first_text(message.value()) == text,
        (Some(_), _) => false,
        (None, what) => !matches!(what, Found::Message(_)),
    }
}

/// The text that a pattern begins with.
pub fn first_text<'s>(pattern: Option<&Pattern<&'s str>>) -> &'s str {
    let Some(pattern) = pattern else {
        return "";
    };
    match pattern.elements.first() {
        Some(PatternElement::TextElement { value }) => *value,
        _ => "",
    }
}
