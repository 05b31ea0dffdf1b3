//! Texts that are empty or much longer than those of the reference.
#![tactic(auto)]

ghost use Rattle.std.specs.Prelude.{◌≡◌, ◌*◌, nat_le, ◌&&◌, OnOk};
ghost use Rattle.std.specs.List.{list_all};
ghost use Rattle.fluent_ast.specs.Borrowed.{elements_of, variants_of};
ghost use Rattle.lint_findings.specs.Doubts as d;
ghost use Rattle.lint_findings.specs.Keys.{characters};
ghost use Rattle.lint_findings.specs.Lengths as l;
ghost use Rattle.lint_findings.specs.Tags.{is_blank_byte};
ghost use Rattle.lint_markup.specs.InCode.{AddsOfPair, AreRunsOf, texts_of};
ghost use Rattle.lint_texts.specs.Beside.{AddsOne, element_may_be_blank, is_long_beside};

use crate::own::text_of;
use crate::spotting::push_note;
use fluent_ast::{Expression, Pattern, PatternElement, Variant};
use lint_markup::{Pair, Spotted, characters, is_blank_byte, placeable_text};
use std::alloc::{AllocError, Global};

/// Whether a text has nothing but blanks.
pub fn is_blank(text: &str) -> bool
    ensures { result ≡ l.is_blank text.now }
{
    are_blanks(text.as_bytes())
}

fn are_blanks(text: &[u8]) -> bool
    ensures { result ≡ list_all is_blank_byte text.now }
{
    text.iter().all(|&byte| is_blank_byte(byte))
}

/// Adds that a text may be empty, and that of the reference may not.
///
/// # Errors
/// [`AllocError`] if memory runs out; nothing is added then.
pub fn push_empty_text(
    alloc: Global,
    pair: &Pair<'_, '_, '_, '_>,
    found: &mut Vec<Spotted>,
) -> Result<(), AllocError>
    requires { AreRunsOf pair.now }
    ensures { OnOk result (AddsOfPair l.empty_beside pair.now found.old found.new) }
{
    if !may_be_blank(pair.pattern) || may_be_blank(pair.other) {
        return Ok(());
    }
    if is_blank(text_of(pair)) {
        push_text_is_empty(alloc, found)
    } else {
        push_variant_is_empty(alloc, found)
    }
}

fn push_text_is_empty(alloc: Global, found: &mut Vec<Spotted>) -> Result<(), AllocError>
    ensures { OnOk result (AddsOne d.empty_text found.old found.new) }
{
    push_note(alloc, "empty-text", "the text is empty", found)
}

fn push_variant_is_empty(alloc: Global, found: &mut Vec<Spotted>) -> Result<(), AllocError>
    ensures { OnOk result (AddsOne d.empty_variant found.old found.new) }
{
    push_note(alloc, "empty-text", "a variant is empty", found)
}

/// Whether a pattern may be nothing but blanks, by some variants.
#[cycle(blank)]
fn may_be_blank(pattern: &Pattern<&str>) -> bool
    ensures { result ≡ l.may_be_blank (elements_of pattern.now) }
{
    for element in &pattern.elements {
        if !element_may_be_blank(element) {
            return false;
        }
    }
    true
}

#[cycle(blank)]
fn element_may_be_blank(element: &PatternElement<&str>) -> bool
    ensures { result ≡ element_may_be_blank element.now }
{
    match element {
        PatternElement::TextElement { value } => is_blank(value),
        PatternElement::Placeable {
            expression: Expression::Select { variants, .. },
        } => some_blank(variants),
        PatternElement::Placeable { expression } => is_blank(placeable_text(expression)),
    }
}

#[cycle(blank)]
fn some_blank(variants: &[Variant<&str>]) -> bool
    ensures { result ≡ l.some_blank (variants_of variants.now) }
{
    for variant in variants {
        if may_be_blank(&variant.value) {
            return true;
        }
    }
    false
}

/// Adds that a text is at least five times as long as that of the reference, and long.
///
/// # Errors
/// [`AllocError`] if memory runs out; nothing is added then.
pub fn push_long_text(
    alloc: Global,
    pair: &Pair<'_, '_, '_, '_>,
    found: &mut Vec<Spotted>,
) -> Result<(), AllocError>
    requires { AreRunsOf pair.now }
    ensures { OnOk result (AddsOfPair l.long_beside pair.now found.old found.new) }
{
    if is_long(text_of(pair), pair.others) {
        push_is_long(alloc, found)
    } else {
        Ok(())
    }
}

fn push_is_long(alloc: Global, found: &mut Vec<Spotted>) -> Result<(), AllocError>
    ensures { OnOk result (AddsOne d.long_text found.old found.new) }
{
    push_note(
        alloc,
        "long-text",
        "five times as long as the reference",
        found,
    )
}

/// Whether a text is long, and at least five times as long as others are together.
fn is_long(text: &str, others: &[String]) -> bool
    ensures { result ≡ is_long_beside others.now text.now }
{
    let len = characters(text);
    len >= 120 && have_at_most(others, len / 5)
}

/// Whether some texts have at most so many characters together.
fn have_at_most(texts: &[String], count: usize) -> bool
    ensures { result ≡ nat_le (l.characters_of (texts_of texts.now)) count }
{
    let mut left = count;
    for text in texts {
        let len = characters(text.as_str());
        if len > left {
            return false;
        }
        left -= len;
    }
    true
}
