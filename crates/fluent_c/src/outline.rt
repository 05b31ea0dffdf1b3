//! The messages, the terms and the attributes of a source by their names, in lines.

ghost use Rattle.std.specs.Prelude.{◌≡◌, ◌≢◌, IfOk, string_bytes};
ghost use Rattle.fluent_syntax.specs.Tiling.{runtime_errors, runtime_tree};
ghost use Rattle.fluent_syntax.specs.View.{attributes_view, entry_view, message_view, term_view};
ghost use Rattle.fluent_c.specs.Counts.{Counted, HasEntries, Text, plain, text_of};
ghost use Rattle.fluent_c.specs.Made.{Holds};
ghost use Rattle.fluent_c.specs.Outline.{Adds, attribute_lines, entry_lines, message_line, outline_lines, term_line};
ghost use Rattle.fluent_c.specs.Statuses.{ReadsSource};
ghost use Rattle.fluent_c.specs.declared.TheConstants.{FLUENT_READ};

use crate::counts::FluentCounts;
use crate::text::FluentText;
use crate::{FLUENT_NO_MEMORY, FLUENT_NOT_UTF8, FLUENT_READ};
use fluent_syntax::ast::{Attribute, Entry, Message, Resource, Term};
use fluent_syntax::parser::{Error, parse_runtime_within};
use fluent_text::stack::StackBudget;
use simdutf8::basic::from_utf8;
use std::alloc::{AllocError, Global};

/// The lines of a source, and its counts.
struct Outline {
    lines: FluentText,
    counts: FluentCounts,
}

impl Outline {
    /// That of a tree with this many errors.
    ///
    /// # Errors
    /// [`AllocError`] if memory runs out; nothing is kept.
    fn of(alloc: Global, resource: &Resource<&str>, errors: usize) -> Result<Self, AllocError>
        ensures lines { IfOk result (λ outline. Holds outline.lines (outline_lines (plain resource.now))) }
        ensures entries { IfOk result (λ outline. HasEntries outline.counts (plain resource.now)) }
        ensures errors { IfOk result (λ outline. outline.counts.errors ≡ errors) }
    {
        let lines = lines_of(alloc, resource)?;
        let lines = FluentText::of(alloc, lines.into_bytes())?;
        let counts = FluentCounts::of(resource, errors);
        Ok(Outline { lines, counts })
    }

    /// That of a source that is read for use at run time, with or without errors.
    ///
    /// # Errors
    /// [`AllocError`] if memory runs out, or the source nests too deep; nothing is kept.
    fn of_source(alloc: Global, text: &str) -> Result<Self, AllocError>
        ensures lines { IfOk result (λ outline. Holds outline.lines (outline_lines (runtime_tree text.now))) }
        ensures counts { IfOk result (λ outline. Counted outline.counts (runtime_tree text.now)
            (runtime_errors text.now)) }
    {
        match parse_runtime_within(alloc, text, StackBudget::THREAD) {
            Ok(resource) => Outline::of(alloc, &resource, 0),
            Err(Error::Broken(resource, errors)) => Outline::of(alloc, &resource, errors.len()),
            Err(Error::Memory) => Err(AllocError),
        }
    }
}

/// Appends the line of a message.
fn push_message(text: &mut String, message: &Message<&str>) -> Result<(), AllocError>
    ensures { Adds result text.old text.new (message_line (message_view Text text_of message.now)) }
{
    text.push_str(message.id.name)?;
    match message.value {
        Some(_) => text.push_str(" =\n"),
        None => text.push_str("\n"),
    }
}

/// Appends the line of a term.
fn push_term(text: &mut String, term: &Term<&str>) -> Result<(), AllocError>
    ensures { Adds result text.old text.new (term_line (term_view Text text_of term.now)) }
{
    text.push_str("-")?;
    text.push_str(term.id.name)?;
    text.push_str(" =\n")
}

/// Appends a line for each attribute.
fn push_attributes(text: &mut String, attributes: &[Attribute<&str>]) -> Result<(), AllocError>
    ensures { Adds result text.old text.new (attribute_lines (attributes_view Text text_of attributes.now)) }
{
    for attribute in attributes {
        text.push_str(".")?;
        text.push_str(attribute.id.name)?;
        text.push_str("\n")?;
    }
    Ok(())
}

/// Appends the lines of an entry, which has some if it is a message or a term.
fn push_entry(text: &mut String, entry: &Entry<&str>) -> Result<(), AllocError>
    ensures { Adds result text.old text.new (entry_lines (entry_view Text text_of entry.now)) }
{
    match entry {
        Entry::Message(message) => {
            push_message(text, message)?;
            push_attributes(text, &message.attributes)
        }
        Entry::Term(term) => {
            push_term(text, term)?;
            push_attributes(text, &term.attributes)
        }
        _ => Ok(()),
    }
}

/// The lines of the entries of a tree.
fn lines_of(alloc: Global, resource: &Resource<&str>) -> Result<String, AllocError>
    ensures { IfOk result (λ text. string_bytes text ≡ outline_lines (plain resource.now)) }
{
    let mut text = String::new(alloc);
    for entry in &resource.body {
        push_entry(&mut text, entry)?;
    }
    Ok(text)
}

/// Lists the messages and the terms of a source, and their attributes, by their names, and counts
/// its entries and errors as [`fluent_parse_runtime`](crate::counts::fluent_parse_runtime) does.
/// The source is read once, for use at run time.
///
/// `text` is the source's bytes. `made` then holds a line for each message and each term, in their
/// order, and after it a line for each of its attributes, in their order; each line is ended by a
/// line feed. The line of a message is its id, and that of a term `-` and its id; ` =` follows if
/// there is a value, which a term always has. The line of an attribute is a dot and its name. An id
/// that the source has twice is there twice.
///
/// The call returns [`FLUENT_READ`], also if the source has errors: then what `made` held before is
/// freed. It returns [`FLUENT_NOT_UTF8`] or [`FLUENT_NO_MEMORY`] otherwise, and `made` and `counts`
/// are unchanged then. All other memory is freed when it returns.
#[unsafe(no_mangle)]
pub extern "C" fn fluent_outline(
    alloc: Global,
    text: &[u8],
    made: &mut FluentText,
    counts: &mut FluentCounts,
) -> u32
    ensures status { ReadsSource text.now result }
    ensures outlined { result ≡ FLUENT_READ
        → Holds made.new (outline_lines (runtime_tree text.now)) }
    ensures counted { result ≡ FLUENT_READ
        → Counted counts.new (runtime_tree text.now) (runtime_errors text.now) }
    ensures unchanged { result ≢ FLUENT_READ
        → (made.new ≡ made.old) × (counts.new ≡ counts.old) }
{
    let Ok(text) = from_utf8(text) else {
        return FLUENT_NOT_UTF8;
    };
    match Outline::of_source(alloc, text) {
        Ok(
            Outline {
                lines,
                counts: found,
            },
        ) => {
            made.put(alloc, lines);
            *counts = found;
            FLUENT_READ
        }
        Err(_) => FLUENT_NO_MEMORY,
    }
}
