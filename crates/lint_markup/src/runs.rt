//! The texts of a pattern: its own, and those of the variants in it.
#![tactic(auto)]

ghost use Rattle.std.specs.Prelude.{◌≡◌, ◌++◌, IfOk, OnOk, string_bytes};
ghost use Rattle.fluent_ast.specs.Borrowed.{elements_of, expression_of, variants_of};
ghost use Rattle.lint_findings.specs.Runs as r;
ghost use Rattle.lint_markup.specs.InCode.{AddsRuns, texts_of};
ghost use Rattle.lint_markup.specs.Pieces.{element_text};
ghost use Rattle.lint_flaws.specs.FactsBy as by;

use fluent_ast::{Expression, InlineExpression, Pattern, PatternElement, Variant};
use std::alloc::{AllocError, Global};

/// U+FFFC, which stands for a placeable in a text.
pub const OBJECT_SIGN: &str = "\u{FFFC}";

/// The texts of a pattern: its own comes first, then those of the variants in it, in the order in
/// which they are written. In a text U+FFFC stands for a placeable, but for a literal without
/// escapes, which is its text.
///
/// # Errors
/// [`AllocError`] if memory runs out; nothing is kept.
pub fn pattern_runs(alloc: Global, pattern: &Pattern<&str>) -> Result<Vec<String>, AllocError>
    ensures { IfOk result (λ runs. texts_of runs.items ≡ r.runs (elements_of pattern.now)) }
{
    let mut runs = Vec::new(alloc);
    push_runs(alloc, pattern, &mut runs)?;
    Ok(runs)
}

#[cycle(runs)]
fn push_runs(
    alloc: Global,
    pattern: &Pattern<&str>,
    runs: &mut Vec<String>,
) -> Result<(), AllocError>
    ensures { OnOk result (AddsRuns runs.old runs.new (r.runs (elements_of pattern.now))) }
{
    runs.push(own_text(alloc, pattern)?)?;
    for element in &pattern.elements {
        if let PatternElement::Placeable {
            expression: Expression::Select { variants, .. },
        } = element
        {
            push_variants(alloc, variants, runs)?;
        }
    }
    Ok(())
}

#[cycle(runs)]
fn push_variants(
    alloc: Global,
    variants: &[Variant<&str>],
    runs: &mut Vec<String>,
) -> Result<(), AllocError>
    ensures { OnOk result (AddsRuns runs.old runs.new (r.variants_texts (variants_of variants.now))) }
{
    for variant in variants {
        push_runs(alloc, &variant.value, runs)?;
    }
    Ok(())
}

/// The own text of a pattern.
///
/// # Errors
/// [`AllocError`] if memory runs out; nothing is kept.
pub fn own_text(alloc: Global, pattern: &Pattern<&str>) -> Result<String, AllocError>
    ensures { IfOk result (λ text. string_bytes text ≡ r.own_text (elements_of pattern.now)) }
{
    let mut text = String::new(alloc);
    push_elements(&pattern.elements, &mut text)?;
    Ok(text)
}

fn push_elements(elements: &[PatternElement<&str>], text: &mut String) -> Result<(), AllocError>
    ensures { OnOk result (string_bytes text.new ≡ string_bytes text.old ++ r.own_text (by.elements_of elements.now)) }
{
    for element in elements {
        text.push_str(element_text(element))?;
    }
    Ok(())
}

/// What an element is in the own text of its pattern.
pub fn element_text<'s>(element: &PatternElement<&'s str>) -> &'s str
    ensures { result.now ≡ element_text element.now }
{
    match element {
        PatternElement::TextElement { value } => *value,
        PatternElement::Placeable { expression } => placeable_text(expression),
    }
}

/// What a placeable is there.
pub fn placeable_text<'s>(expression: &Expression<&'s str>) -> &'s str
    ensures { result.now ≡ r.placeable_text (expression_of expression.now) }
{
    match expression {
        Expression::Inline(InlineExpression::StringLiteral { value }) => literal_text(*value),
        _ => OBJECT_SIGN,
    }
}

/// A literal with an escape isn't read.
fn literal_text(raw: &str) -> &str
    ensures { result.now ≡ r.literal_text raw.now }
{
    if raw.as_bytes().contains(&b'\\') {
        OBJECT_SIGN
    } else {
        raw
    }
}
