//! Guesses at what was meant by words of `format` that name no file, or no message.

use crate::fault::Meant;
use fluent_ast::{Entry, Message};
use fluent_resource::{FluentResource, parse_sources};
use fluent_run::StackBudget;
use ftl_arguments::Format;
use std::alloc::{AllocError, Global};
use strsim::osa_distance;

/// A guess at what was meant by the name of a file that can't be read for this reason.
pub(crate) fn meant_by_file(format: &Format<'_>, file: &str, why: Option<&str>) -> Meant {
    if why != Some("no such file") || file.ends_with(".ftl") {
        Meant::Nothing
    } else if file.contains('=') {
        Meant::Argument
    } else if is_file_first(format) {
        Meant::Order
    } else {
        Meant::Nothing
    }
}

/// Which message of these sources may have been meant, on a line, if there is none as the command
/// names it. `None` if memory runs out, too.
pub(crate) fn meant_by_message(
    alloc: Global,
    format: &Format<'_>,
    sources: &[&str],
) -> Option<String> {
    let resources = parse_sources(alloc, sources, StackBudget::PROGRAM).ok()?;
    meant_among(alloc, format, &resources).ok()?
}

/// The line on the message that may have been meant among those of these resources.
fn meant_among(
    alloc: Global,
    format: &Format<'_>,
    resources: &[FluentResource<'_>],
) -> Result<Option<String>, AllocError> {
    match message_named(resources, format) {
        Some(message) => near_part(alloc, format, message),
        None => match near_id(alloc, resources, format.id)? {
            Some(near) => meant(alloc, near, format.attribute),
            None => order(alloc, format),
        },
    }
}

/// Whether a file is in the place of the message.
fn is_file_first(format: &Format<'_>) -> bool {
    let last = format.attribute.unwrap_or(format.id);
    last == "ftl" || last.ends_with(".ftl")
}

/// The order of the words, on a line, if a file is in the place of the message.
fn order(alloc: Global, format: &Format<'_>) -> Result<Option<String>, AllocError> {
    if !is_file_first(format) {
        return Ok(None);
    }
    let line = "ftl: the message comes first, and then the files: ftl format ID FILE..\n";
    Ok(Some(String::from_str(alloc, line)?))
}

/// The line that asks whether a message was meant, or its attribute.
fn meant(alloc: Global, id: &str, attribute: Option<&str>) -> Result<Option<String>, AllocError> {
    let line = match attribute {
        Some(attribute) => format!(in alloc; "ftl: did you mean '{id}.{attribute}'?\n")?,
        None => format!(in alloc; "ftl: did you mean '{id}'?\n")?,
    };
    Ok(Some(line))
}

/// The message of the id that is asked for, if there is one.
fn message_named<'r, 's>(
    resources: &'r [FluentResource<'s>],
    format: &Format,
) -> Option<&'r Message<&'s str>> {
    let mut named = None;
    for resource in resources {
        for entry in resource.entries() {
            if let Entry::Message(message) = entry {
                if message.id.name == format.id && (named.is_none() || format.overriding) {
                    named = Some(message);
                }
            }
        }
    }
    named
}

/// The first id of a message that is a slip away from this one.
fn near_id<'s>(
    alloc: Global,
    resources: &[FluentResource<'s>],
    id: &str,
) -> Result<Option<&'s str>, AllocError> {
    for resource in resources {
        for entry in resource.entries() {
            if let Entry::Message(message) = entry {
                if is_slip(alloc, id, message.id.name)? {
                    return Ok(Some(message.id.name));
                }
            }
        }
    }
    Ok(None)
}

/// The part of a message that may be meant, if it lacks the one that is asked for.
fn near_part(
    alloc: Global,
    format: &Format,
    message: &Message<&str>,
) -> Result<Option<String>, AllocError> {
    match format.attribute {
        Some(name) => near_attribute(alloc, format.id, name, message),
        None if message.value.is_some() => Ok(None),
        None => match message.attributes.first() {
            Some(attribute) => meant(alloc, format.id, Some(attribute.id.name)),
            None => Ok(None),
        },
    }
}

/// The first attribute of a message that is a slip away from a name, if none has the name.
fn near_attribute(
    alloc: Global,
    id: &str,
    name: &str,
    message: &Message<&str>,
) -> Result<Option<String>, AllocError> {
    if message
        .attributes
        .iter()
        .any(|attribute| attribute.id.name == name)
    {
        return Ok(None);
    }
    for attribute in &message.attributes {
        if is_slip(alloc, name, attribute.id.name)? {
            return meant(alloc, id, Some(attribute.id.name));
        }
    }
    Ok(None)
}

/// Whether a name is one slip of the keyboard away from a known one, as for the hints of `lint`:
/// two neighbouring characters are swapped, or one is left out, replaced or added. A name of fewer
/// than 3 or more than 64 characters is not.
fn is_slip(alloc: Global, name: &str, known: &str) -> Result<bool, AllocError> {
    let (length, other) = (name.len(), known.len());
    if !(3..=64).contains(&length) || length.abs_diff(other) > 1 {
        return Ok(false);
    }
    Ok(osa_distance(alloc, name, known)? == 1)
}
