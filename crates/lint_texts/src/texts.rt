//! What is said of the texts of a message beside those of the message of the reference.
#![tactic(auto)]

ghost use Rattle.std.specs.Prelude.{◌≡◌, IfOk, None, OnOk, Some, option_map};
ghost use Rattle.fluent_ast.specs.Borrowed.{attributes_of, elements_of, message_of};
ghost use Rattle.fluent_meaning.specs.Same.{same_elements};
ghost use Rattle.lint_findings.specs.Pairs as p;
ghost use Rattle.lint_markup.specs.InCode.{Adds, AddsBeside, AddsOfPair, AddsOfPatterns, AreRunsOf, AreSaid};
ghost use Rattle.lint_texts.specs.OfMessages.{access_key_said, beside_first, on_attribute_in, on_values};

use crate::addresses::push_changed_url;
use crate::doubled::push_doubled_word;
use crate::ends::push_final_signs;
use crate::lengths::{is_blank, push_empty_text, push_long_text};
use crate::numbers::push_changed_number;
use crate::own::text_of;
use crate::placeholders::push_changed_placeholders;
use crate::quotes::{push_straight_quotes, push_three_dots, push_unpaired_quotes};
use crate::spaces::{push_double_space, push_edge_spaces};
use fluent_ast::laws::equal_nodes;
use fluent_ast::{Attribute, Message, Pattern};
use lint_markup::{
    Key, Pair, Spotted, pattern_runs, push_broken_entities, push_changed_style, push_long_key,
    push_markup, push_outside_label,
};
use std::alloc::{AllocError, Global};

/// What is said of the value of a message, beside that of the reference.
///
/// # Errors
/// [`AllocError`] if memory runs out; nothing is kept.
pub fn value_doubts<'s>(
    alloc: Global,
    message: &Message<&'s str>,
    other: &Message<&'s str>,
) -> Result<Vec<Spotted>, AllocError>
    ensures { IfOk result (AreSaid (on_values message.now other.now)) }
{
    match (&message.value, &other.value) {
        (Some(pattern), Some(other)) => pair_doubts(alloc, pattern, other),
        _ => Ok(Vec::new(alloc)),
    }
}

/// What is said of a value, beside that of the reference.
fn pair_doubts<'s>(
    alloc: Global,
    pattern: &Pattern<&'s str>,
    other: &Pattern<&'s str>,
) -> Result<Vec<Spotted>, AllocError>
    ensures { IfOk result (AreSaid (p.on_pair None (elements_of pattern.now) (elements_of other.now))) }
{
    let mut found = Vec::new(alloc);
    push_value(alloc, pattern, other, &mut found)?;
    Ok(found)
}

fn push_value<'s>(
    alloc: Global,
    pattern: &Pattern<&'s str>,
    other: &Pattern<&'s str>,
    found: &mut Vec<Spotted>,
) -> Result<(), AllocError>
    ensures { OnOk result (AddsOfPatterns (p.on_pair None) pattern.now other.now found.old found.new) }
{
    if is_same(pattern, other) {
        Ok(())
    } else {
        push_words(alloc, pattern, other, found)
    }
}

/// What is said of an attribute of a message, beside the first of its name in the reference.
///
/// # Errors
/// [`AllocError`] if memory runs out; nothing is kept.
pub fn attribute_doubts<'s>(
    alloc: Global,
    message: &Message<&'s str>,
    other: &Message<&'s str>,
    attribute: &Attribute<&'s str>,
) -> Result<Vec<Spotted>, AllocError>
    ensures { IfOk result (AreSaid (on_attribute_in message.now other.now attribute.now)) }
{
    let mut found = Vec::new(alloc);
    push_attribute(alloc, attribute, &other.attributes, &mut found)?;
    push_key(alloc, attribute.id.name, message, other, &mut found)?;
    Ok(found)
}

/// Adds what is said of an attribute beside the first of its name.
fn push_attribute<'s>(
    alloc: Global,
    attribute: &Attribute<&'s str>,
    others: &[Attribute<&'s str>],
    found: &mut Vec<Spotted>,
) -> Result<(), AllocError>
    ensures { OnOk result (Adds found.old found.new (beside_first attribute.now others.now)) }
{
    match attribute_of(attribute.id.name, others) {
        Some(other) => push_pair(alloc, attribute.id.name, &attribute.value, other, found),
        None => Ok(()),
    }
}

/// Adds what is said of an attribute beside that of the reference.
fn push_pair<'s>(
    alloc: Global,
    name: &str,
    pattern: &Pattern<&'s str>,
    other: &Pattern<&'s str>,
    found: &mut Vec<Spotted>,
) -> Result<(), AllocError>
    ensures { OnOk result (AddsOfPatterns (p.on_pair (Some name.now)) pattern.now other.now found.old found.new) }
{
    if is_same(pattern, other) {
        Ok(())
    } else {
        push_named(alloc, name, pattern, other, found)
    }
}

/// Adds that the label of a message hasn't its access key, if this is the name of that.
fn push_key<'s>(
    alloc: Global,
    name: &str,
    message: &Message<&'s str>,
    other: &Message<&'s str>,
    found: &mut Vec<Spotted>,
) -> Result<(), AllocError>
    ensures { OnOk result (Adds found.old found.new
        (access_key_said message.now other.now name.now)) }
{
    if name == "accesskey" {
        push_outside_label(alloc, message, other, found)
    } else {
        Ok(())
    }
}

fn is_same<'s>(pattern: &Pattern<&'s str>, other: &Pattern<&'s str>) -> bool
    ensures { result ≡ same_elements (elements_of pattern.now) (elements_of other.now) }
{
    equal_nodes::<&'s str>();
    *pattern == *other
}

/// The value of the first attribute of a name.
fn attribute_of<'a, 's>(
    name: &str,
    attributes: &'a [Attribute<&'s str>],
) -> Option<&'a Pattern<&'s str>>
    ensures { option_map (λ p. elements_of p.now) result ≡ p.attribute_of name.now (attributes_of attributes.now) }
{
    for attribute in attributes {
        if attribute.id.name == name {
            return Some(&attribute.value);
        }
    }
    None
}

/// Adds what is said of an attribute that differs.
fn push_named<'s>(
    alloc: Global,
    name: &str,
    pattern: &Pattern<&'s str>,
    other: &Pattern<&'s str>,
    found: &mut Vec<Spotted>,
) -> Result<(), AllocError>
    ensures { OnOk result (AddsOfPatterns (p.on_named (Some name.now)) pattern.now other.now found.old found.new) }
{
    if name == "accesskey" {
        push_long_key(alloc, Key::Access, pattern, other, found)
    } else if name == "key" {
        push_long_key(alloc, Key::Command, pattern, other, found)
    } else if name == "style" {
        push_changed_style(alloc, pattern, other, found)
    } else {
        push_words(alloc, pattern, other, found)
    }
}

/// Adds what is said of a text that people read.
fn push_words<'s>(
    alloc: Global,
    pattern: &Pattern<&'s str>,
    other: &Pattern<&'s str>,
    found: &mut Vec<Spotted>,
) -> Result<(), AllocError>
    ensures { OnOk result (AddsOfPatterns p.on_words pattern.now other.now found.old found.new) }
{
    let runs = pattern_runs(alloc, pattern)?;
    let others = pattern_runs(alloc, other)?;
    let pair = Pair {
        pattern,
        other,
        runs: &runs,
        others: &others,
    };
    push_markup(alloc, &pair, found)?;
    push_broken_entities(alloc, &runs, &others, found)?;
    push_doubts(alloc, &pair, found)
}

/// Adds the notes that are only shown if they are asked for.
fn push_doubts(
    alloc: Global,
    pair: &Pair<'_, '_, '_, '_>,
    found: &mut Vec<Spotted>,
) -> Result<(), AllocError>
    requires { AreRunsOf pair.now }
    ensures { OnOk result (AddsOfPair p.doubts pair.now found.old found.new) }
{
    push_empty_text(alloc, pair, found)?;
    if is_blank(text_of(pair)) {
        return Ok(());
    }
    push_text_doubts(alloc, pair.runs, pair.others, found)?;
    push_edge_spaces(alloc, pair, found)?;
    push_final_signs(alloc, pair, found)?;
    push_long_text(alloc, pair, found)
}

fn push_text_doubts(
    alloc: Global,
    texts: &[String],
    others: &[String],
    found: &mut Vec<Spotted>,
) -> Result<(), AllocError>
    ensures { OnOk result (AddsBeside p.text_doubts texts.now others.now found.old found.new) }
{
    push_changed_url(alloc, texts, others, found)?;
    push_changed_placeholders(alloc, texts, others, found)?;
    push_changed_number(alloc, texts, others, found)?;
    push_double_space(alloc, texts, others, found)?;
    push_doubled_word(alloc, texts, others, found)?;
    push_three_dots(alloc, texts, others, found)?;
    push_straight_quotes(alloc, texts, others, found)?;
    push_unpaired_quotes(alloc, texts, others, found)
}
