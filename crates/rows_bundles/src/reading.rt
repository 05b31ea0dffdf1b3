//! What a source is read as.

use crate::bundle::read;
use fluent_ast::Entry;
use fluent_bundle::{FluentResource, ResourceError};
use rows_common::Tally;
use std::alloc::Global;

const KEYS: &str = "\nkey1 = Value 1\n\ng@Rb@ge = #2y ds\n\nkey2 = Value 2\n\n";

/// Tries a source with junk, one without, and the empty one.
pub fn try_reading(alloc: Global) -> Tally {
    let mut tally = Tally::new();
    tally.add(has_one_error(alloc) || has_one_error(alloc));
    tally.add(is_read(alloc, KEYS, Shape::Junk));
    tally.add(is_read(alloc, "", Shape::Empty));
    tally.add(is_read(alloc, "a = b\n-c = d\n", Shape::Both));
    tally
}

/// What is to be read of a source.
#[derive(Clone, Copy)]
enum Shape {
    /// Junk between two messages.
    Junk,
    /// Nothing.
    Empty,
    /// A message and a term.
    Both,
}

/// Whether a source is read as this.
fn is_read(alloc: Global, source: &'static str, shape: Shape) -> bool {
    match read(alloc, source) {
        Some(resource) => has(&resource, shape),
        None => false,
    }
}

/// Whether a resource is this.
fn has(resource: &FluentResource<'_>, shape: Shape) -> bool {
    match shape {
        Shape::Junk => has_junk(resource),
        Shape::Empty => resource.get_entry(0).is_none(),
        Shape::Both => has_both(resource),
    }
}

/// Whether a source with one junk is broken, with one error.
fn has_one_error(alloc: Global) -> bool {
    match FluentResource::try_new(alloc, KEYS) {
        Err(ResourceError::Broken(_, errors)) => errors.len() == 1,
        _ => false,
    }
}

/// Whether the junk stands between two messages, and the source is as it was.
fn has_junk(keys: &FluentResource<'_>) -> bool {
    matches!(keys.get_entry(0), Some(Entry::Message(_)))
        && matches!(
            keys.get_entry(1),
            Some(Entry::Junk {
                content: "g@Rb@ge = #2y ds\n\n"
            })
        )
        && matches!(keys.get_entry(2), Some(Entry::Message(_)))
        && keys.get_entry(3).is_none()
        && keys.source() == KEYS
}

/// Whether a message comes first, then a term, and no more.
fn has_both(both: &FluentResource<'_>) -> bool {
    let mut entries = both.entries();
    matches!(entries.next(), Some(Entry::Message(_)))
        && matches!(entries.next(), Some(Entry::Term(_)))
        && entries.next().is_none()
}
