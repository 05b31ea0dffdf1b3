//! Words in patterns.
#![tactic(auto)]

ghost use Rattle.std.specs.Prelude.{◌≡◌, ◌&&◌, IfOk, OnOk, not};
ghost use Rattle.fluent_ast.specs.Borrowed.{attributes_of, elements_of, expression_of, message_of, variants_of};
ghost use Rattle.lint_comparison.specs.WordView.{AddsTexts, attributes_have, element_texts, elements_in, value_has};
ghost use Rattle.lint_nodes.specs.HasNames.{texts};
ghost use Rattle.lint_findings.specs.Losses as l;
ghost use Rattle.lint_findings.specs.WrittenTexts as w;

use fluent_ast::{Attribute, Expression, Message, Pattern, PatternElement, Variant};
use std::alloc::{AllocError, Global};

/// Whether a text of a message has a word.
pub fn message_has(message: &Message<&str>, word: &str) -> bool
    ensures { result ≡ l.message_has (message_of message.now) word.now }
{
    value_has(&message.value, word) || attributes_have(&message.attributes, word)
}

fn value_has(value: &Option<Pattern<&str>>, word: &str) -> bool
    ensures { result ≡ value_has value.now word.now }
{
    match value {
        Some(pattern) => pattern_has(pattern, word),
        None => false,
    }
}

fn attributes_have(attributes: &[Attribute<&str>], word: &str) -> bool
    ensures { result ≡ attributes_have (attributes_of attributes.now) word.now }
{
    for attribute in attributes {
        if pattern_has(&attribute.value, word) {
            return true;
        }
    }
    false
}

#[cycle(words)]
fn pattern_has(pattern: &Pattern<&str>, word: &str) -> bool
    ensures { result ≡ w.elements_have word.now (elements_of pattern.now) }
{
    for element in &pattern.elements {
        let found = match element {
            PatternElement::TextElement { value } => has_word(value, word),
            PatternElement::Placeable { expression } => expression_has(expression, word),
        };
        if found {
            return true;
        }
    }
    false
}

#[cycle(words)]
fn expression_has(expression: &Expression<&str>, word: &str) -> bool
    ensures { result ≡ w.expression_has word.now (expression_of expression.now) }
{
    match expression {
        Expression::Select { variants, .. } => variants_have(variants, word),
        Expression::Inline(_) => false,
    }
}

#[cycle(words)]
fn variants_have(variants: &[Variant<&str>], word: &str) -> bool
    ensures { result ≡ w.variants_have word.now (variants_of variants.now) }
{
    for variant in variants {
        if pattern_has(&variant.value, word) {
            return true;
        }
    }
    false
}

/// Whether a text has a word, with no letter before or after it.
fn has_word(text: &str, word: &str) -> bool
    ensures { result ≡ w.has_word word.now text.now }
{
    let mut rest = text.as_bytes();
    let mut before = false;
    while let Some((&byte, more)) = rest.split_first() {
        if begins_word(before, rest, word.as_bytes()) {
            return true;
        }
        before = letter_after(before, byte);
        rest = more;
    }
    false
}

/// Whether a word begins at the front of a text, if a letter stands before it or not.
fn begins_word(before: bool, text: &[u8], word: &[u8]) -> bool
    ensures { result ≡ (not before && w.is_word_at word.now text.now) }
{
    !before && is_word_at(text, word)
}

/// Whether a word is at the front, and no letter follows it.
fn is_word_at(text: &[u8], word: &[u8]) -> bool
    ensures { result ≡ w.is_word_at word.now text.now }
{
    match text.strip_prefix(word) {
        Some([byte, ..]) => !begins_letter(*byte),
        Some([]) => true,
        None => false,
    }
}

/// Whether a letter stands before what follows this byte, if one did before it.
fn letter_after(before: bool, byte: u8) -> bool
    ensures { result ≡ w.letter_after before byte }
{
    if (0x80..=0xBF).contains(&byte) {
        before
    } else {
        begins_letter(byte)
    }
}

/// Whether a byte begins a letter or a digit.
fn begins_letter(byte: u8) -> bool
    ensures { result ≡ w.begins_letter byte }
{
    byte.is_ascii_alphanumeric() || byte > 0xBF && !(byte == 0xC2 || byte == 0xE2)
}

/// The texts that a pattern may be as a whole: its own, or those of its variants if it is nothing
/// but a select.
///
/// # Errors
/// [`AllocError`] if memory runs out; nothing is kept.
pub fn plain_texts<'s>(
    alloc: Global,
    pattern: &Pattern<&'s str>,
) -> Result<Vec<&'s str>, AllocError>
    ensures { IfOk result (λ found. texts found.items ≡ w.plain_texts (elements_of pattern.now)) }
{
    let mut texts = Vec::new(alloc);
    push_plain(&pattern.elements, &mut texts)?;
    Ok(texts)
}

#[cycle(plain)]
fn push_plain<'s>(
    elements: &[PatternElement<&'s str>],
    texts: &mut Vec<&'s str>,
) -> Result<(), AllocError>
    ensures { OnOk result (AddsTexts texts.old texts.new (w.plain_texts (elements_in elements.now))) }
{
    match elements {
        [] => Ok(()),
        [element, more @ ..] => match more {
            [] => push_element(element, texts),
            [_, ..] => Ok(()),
        },
    }
}

#[cycle(plain)]
fn push_element<'s>(
    element: &PatternElement<&'s str>,
    texts: &mut Vec<&'s str>,
) -> Result<(), AllocError>
    ensures { OnOk result (AddsTexts texts.old texts.new (element_texts element.now)) }
{
    match element {
        PatternElement::TextElement { value } => Ok(texts.push(*value)?),
        PatternElement::Placeable { expression } => match expression {
            Expression::Select { variants, .. } => push_variants(variants, texts),
            Expression::Inline(_) => Ok(()),
        },
    }
}

#[cycle(plain)]
fn push_variants<'s>(
    variants: &[Variant<&'s str>],
    texts: &mut Vec<&'s str>,
) -> Result<(), AllocError>
    ensures { OnOk result (AddsTexts texts.old texts.new (w.variants_texts (variants_of variants.now))) }
{
    for variant in variants {
        push_plain(&variant.value.elements, texts)?;
    }
    Ok(())
}
