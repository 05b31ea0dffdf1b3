//! The rest of a source after an entry.
#![tactic(auto)]

ghost use Rattle.std.specs.Prelude.{IfOk, option_map};
ghost use Rattle.fluent_ast.specs.Borrowed.{attributes_of, elements_of, message_of, term_of};
ghost use Rattle.lint_entries.specs.AttributePlaces.{AreAttributes, AreAttributesAt, IsEntryAt, LeavesRest, value_elements};
ghost use Rattle.lint_entries.specs.Added.{LeavesAfter};
ghost use Rattle.fluent_grammar.specs.Tree as t;
ghost use Rattle.lint_nodes.specs.OccurrenceView.{IsPatternAt};

use crate::text::{after_equals, skip_blank_block, skip_spaces};
use fluent_ast::{Attribute, Message, Pattern, Term};
use lint_nodes::{empty_pattern_rest, pattern_occurrences, skip};
use std::alloc::{AllocError, Global};

/// The rest after a message. The text is the source from the message on.
///
/// # Errors
/// [`AllocError`] if memory runs out; nothing is kept.
pub fn message_rest<'t>(
    alloc: Global,
    message: &Message<&str>,
    text: &'t [u8],
) -> Result<&'t [u8], AllocError>
    requires { IsEntryAt (t.message (message_of message.now)) text.now }
    ensures { IfOk result (λ rest. LeavesRest (t.message (message_of message.now)) text.now rest.now) }
{
    let value = after_equals(text);
    let rest = value_rest(alloc, &message.value, value)?;
    let attributes = skip_blank_block(rest);
    let rest = attributes_rest(alloc, &message.attributes, attributes)?;
    Ok(rest)
}

/// The rest after a term. The text is the source from the term on, with its minus.
///
/// # Errors
/// [`AllocError`] if memory runs out; nothing is kept.
pub fn term_rest<'t>(
    alloc: Global,
    term: &Term<&str>,
    text: &'t [u8],
) -> Result<&'t [u8], AllocError>
    requires { IsEntryAt (t.term (term_of term.now)) text.now }
    ensures { IfOk result (λ rest. LeavesRest (t.term (term_of term.now)) text.now rest.now) }
{
    let value = after_equals(skip(text, 1));
    let rest = pattern_rest(alloc, &term.value, value)?;
    let attributes = skip_blank_block(rest);
    let rest = attributes_rest(alloc, &term.attributes, attributes)?;
    Ok(rest)
}

/// The rest after the value of a message, which may have none. The text is the source from the
/// value on.
fn value_rest<'t>(
    alloc: Global,
    value: &Option<Pattern<&str>>,
    text: &'t [u8],
) -> Result<&'t [u8], AllocError>
    requires { IsPatternAt text.now (value_elements (option_map elements_of value.now)) }
    ensures { IfOk result (λ rest.
        LeavesAfter (value_elements (option_map elements_of value.now)) text.now rest.now) }
{
    match value {
        Some(pattern) => pattern_rest(alloc, pattern, text),
        None => Ok(empty_pattern_rest(text)),
    }
}

/// The rest after the attributes of an entry. The text is the source from the line of the first one
/// on.
fn attributes_rest<'t>(
    alloc: Global,
    attributes: &[Attribute<&str>],
    text: &'t [u8],
) -> Result<&'t [u8], AllocError>
    requires { AreAttributes (attributes_of attributes.now) text.now }
    ensures { IfOk result (λ rest. AreAttributesAt (attributes_of attributes.now) text.now rest.now) }
{
    let mut rest = text;
    for attribute in attributes {
        let at = skip_spaces(rest);
        let value = after_equals(skip(at, 1));
        rest = pattern_rest(alloc, &attribute.value, value)?;
    }
    Ok(rest)
}

/// The rest after a pattern. The text is the source from the pattern on.
fn pattern_rest<'t>(
    alloc: Global,
    pattern: &Pattern<&str>,
    text: &'t [u8],
) -> Result<&'t [u8], AllocError>
    requires { IsPatternAt text.now (elements_of pattern.now) }
    ensures { IfOk result (λ rest. LeavesAfter (elements_of pattern.now) text.now rest.now) }
{
    // The occurrences aren't needed here, but a walk that doesn't list them would be a second copy
    // of this one.
    let found = pattern_occurrences(alloc, pattern, text)?;
    Ok(found.rest)
}
