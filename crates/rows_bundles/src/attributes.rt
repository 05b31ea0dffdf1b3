//! Messages with attributes.

use crate::bundle::{Bundle, read};
use crate::found::first_text;
use fluent_bundle::{EnglishPlurals, FluentMessage, FluentResource};
use rows_common::Tally;
use std::alloc::Global;

/// Tries a message of two attributes of one name.
pub fn try_attributes(alloc: Global) -> Tally {
    let mut tally = Tally::new();
    match read(alloc, "m =\n    .t = 1\n    .t = 2\n") {
        Some(resource) => tally.add(is_added(alloc, &resource)),
        None => tally.add(false),
    }
    tally
}

/// Whether the message of the resource is as it must be, in a bundle.
fn is_added(alloc: Global, resource: &FluentResource<'static>) -> bool {
    let mut bundle = Bundle::new(alloc, Vec::new(alloc), EnglishPlurals);
    let is_added = bundle.add_resource(resource).is_ok() || bundle.add_resource(resource).is_ok();
    is_added && is_found(&bundle)
}

/// Whether the message is found in the bundle.
fn is_found(bundle: &Bundle<'_, '_>) -> bool {
    match bundle.get_message("m") {
        Some(message) => has_both(&message),
        None => false,
    }
}

/// Whether a message has no value, both attributes, and the first of them by its name.
fn has_both(message: &FluentMessage<'_, '_>) -> bool {
    message.value().is_none()
        && message.attributes().count() == 2
        && is_first(message)
        && message.get_attribute("u").is_none()
}

/// Whether the attribute of the name is the first.
fn is_first(message: &FluentMessage<'_, '_>) -> bool {
    match message.get_attribute("t") {
        Some(attribute) => attribute.id() == "t" && first_text(Some(attribute.value())) == "1",
        None => false,
    }
}
