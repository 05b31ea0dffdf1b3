//! The signs that end texts beside those of the reference.
#![tactic(auto)]

ghost use Rattle.std.specs.Prelude.{◌≡◌, ◌∷◌, [], IfOk, OnOk, Some, None, if◌then◌else◌, nat_eq, option_map, string_bytes};
ghost use Rattle.std.specs.List.{ends_with, list_all};
ghost use Rattle.fluent_ast.specs.Borrowed.{elements_of, variants_of};
ghost use Rattle.lint_findings.specs.Doubts as d;
ghost use Rattle.lint_findings.specs.Edges as e;
ghost use Rattle.lint_findings.specs.Runs as r;
ghost use Rattle.lint_markup.specs.InCode.{Adds, AddsOfPair, AddsRuns, texts_of};
ghost use Rattle.lint_texts.specs.Beside.{common_sign, lost_sign};
ghost use Rattle.lint_texts.specs.InCode.{sign_view};

use crate::parts::untagged;
use crate::spotting::push_note;
use fluent_ast::{Expression, Pattern, PatternElement, Variant};
use lint_markup::{OBJECT_SIGN, Pair, Spotted, own_text};
use memchr::memchr;
use std::alloc::{AllocError, Global};

/// The sign at the end of a text.
#[derive(Clone, Copy)]
pub enum Sign {
    Ellipsis,
    Colon,
    FullStop,
}

/// Adds that all ends of the reference have the same sign, and those of the text none.
///
/// # Errors
/// [`AllocError`] if memory runs out; nothing is added then.
pub fn push_final_signs(
    alloc: Global,
    pair: &Pair<'_, '_, '_, '_>,
    found: &mut Vec<Spotted>,
) -> Result<(), AllocError>
    ensures { OnOk result (AddsOfPair e.final_signs pair.now found.old found.new) }
{
    let theirs = ends(alloc, pair.other)?;
    match common_sign(alloc, &theirs)? {
        Some(sign) => push_if_lost(alloc, pair.pattern, sign, found),
        None => Ok(()),
    }
}

/// Adds that this sign is lost, if no end of a pattern has a sign.
fn push_if_lost(
    alloc: Global,
    pattern: &Pattern<&str>,
    sign: Sign,
    found: &mut Vec<Spotted>,
) -> Result<(), AllocError>
    ensures { OnOk result (Adds found.old found.new (lost_sign pattern.now sign)) }
{
    let mine = ends(alloc, pattern)?;
    if are_signless(alloc, &mine)? {
        push_note(alloc, "final-punctuation", sign_words(sign), found)
    } else {
        Ok(())
    }
}

fn are_signless(alloc: Global, texts: &[String]) -> Result<bool, AllocError>
    ensures { IfOk result (λ are. are ≡ list_all e.is_signless (texts_of texts.now)) }
{
    for text in texts {
        if !is_signless(alloc, text.as_str())? {
            return Ok(false);
        }
    }
    Ok(true)
}

fn sign_words(sign: Sign) -> &'static str
    ensures { result.now ≡ d.sign_words (sign_view sign) }
{
    match sign {
        Sign::Ellipsis => "the reference ends with an ellipsis",
        Sign::Colon => "the reference ends with a colon",
        Sign::FullStop => "the reference ends with a full stop",
    }
}

/// The sign that all of some texts end with.
fn common_sign(alloc: Global, texts: &[String]) -> Result<Option<Sign>, AllocError>
    ensures { IfOk result (λ sign. option_map sign_view sign ≡ e.common_sign (texts_of texts.now)) }
{
    match texts {
        [first, rest @ ..] => match last_sign(alloc, first.as_str())? {
            Some(sign) => if_all_have(alloc, sign, rest),
            None => Ok(None),
        },
        [] => Ok(None),
    }
}

/// A sign, if all of some texts end with it.
fn if_all_have(alloc: Global, sign: Sign, texts: &[String]) -> Result<Option<Sign>, AllocError>
    ensures { IfOk result (λ common. option_map sign_view common ≡ common_sign sign texts.now) }
{
    for text in texts {
        if !has_sign(alloc, sign, text.as_str())? {
            return Ok(None);
        }
    }
    Ok(Some(sign))
}

fn has_sign(alloc: Global, sign: Sign, text: &str) -> Result<bool, AllocError>
    ensures { IfOk result (λ has. has ≡ e.has_sign (sign_view sign) text.now) }
{
    match last_sign(alloc, text)? {
        Some(last) => Ok(is_same(last, sign)),
        None => Ok(false),
    }
}

fn is_same(sign: Sign, other: Sign) -> bool
    ensures { result ≡ e.same_sign (sign_view sign) (sign_view other) }
{
    matches!(
        (sign, other),
        (Sign::Ellipsis, Sign::Ellipsis)
            | (Sign::Colon, Sign::Colon)
            | (Sign::FullStop, Sign::FullStop)
    )
}

/// Whether a text ends with nothing that may stand for a sign.
fn is_signless(alloc: Global, text: &str) -> Result<bool, AllocError>
    ensures { IfOk result (λ is. is ≡ e.is_signless text.now) }
{
    let end = bare_end(alloc, text)?;
    Ok(sign_of(end.as_str()).is_none() && !ends_with_other(end.as_str()))
}

fn last_sign(alloc: Global, text: &str) -> Result<Option<Sign>, AllocError>
    ensures { IfOk result (λ sign. option_map sign_view sign ≡ e.last_sign text.now) }
{
    let end = bare_end(alloc, text)?;
    Ok(sign_of(end.as_str()))
}

/// A text without tags, and without white space at its end.
fn bare_end(alloc: Global, text: &str) -> Result<String, AllocError>
    ensures { IfOk result (λ end. string_bytes end ≡ e.bare_end text.now) }
{
    match memchr(b'<', text.as_bytes()) {
        Some(_) => end_between_tags(alloc, text),
        None => String::from_str(alloc, text.trim_end()),
    }
}

fn end_between_tags(alloc: Global, text: &str) -> Result<String, AllocError>
    ensures { IfOk result (λ end. string_bytes end ≡ e.bare_end text.now) }
{
    let plain = untagged(alloc, text)?;
    String::from_str(alloc, plain.as_str().trim_end())
}

fn sign_of(text: &str) -> Option<Sign>
    ensures { option_map sign_view result ≡ e.sign_of text.now }
{
    if ends_with_ellipsis(text) {
        Some(Sign::Ellipsis)
    } else if ends_with_colon(text) {
        Some(Sign::Colon)
    } else if ends_with_full_stop(text) {
        Some(Sign::FullStop)
    } else {
        None
    }
}

fn ends_with_ellipsis(text: &str) -> bool
    ensures { result ≡ e.ends_with_one e.ellipses text.now }
{
    ends_with(text, "…")
        || (ends_with(text, "...") || (ends_with(text, "⋯") || ends_with(text, "。。。")))
}

fn ends_with_colon(text: &str) -> bool
    ensures { result ≡ e.ends_with_one e.colons text.now }
{
    ends_with(text, ":") || (ends_with(text, "：") || ends_with(text, "\u{05C3}"))
}

fn ends_with_full_stop(text: &str) -> bool
    ensures { result ≡ e.ends_with_one e.full_stops text.now }
{
    ends_with(text, ".")
        || (ends_with(text, "。")
            || (ends_with(text, "．")
                || (ends_with(text, "\u{06D4}") || ends_with_other_full_stop(text))))
}

/// Those of Hindi, Armenian, Amharic, Khmer and Burmese.
fn ends_with_other_full_stop(text: &str) -> bool
    ensures { result ≡ e.ends_with_one e.other_full_stops text.now }
{
    ends_with(text, "।")
        || (ends_with(text, "։")
            || (ends_with(text, "።") || (ends_with(text, "។") || ends_with(text, "။"))))
}

/// Whether a text ends with another sign, or with a placeable.
fn ends_with_other(text: &str) -> bool
    ensures { result ≡ e.ends_with_one e.others_last text.now }
{
    ends_with(text, "?")
        || (ends_with(text, "!")
            || (ends_with(text, "\u{061F}")
                || (ends_with(text, "！")
                    || (ends_with(text, "？") || ends_with(text, OBJECT_SIGN)))))
}

fn ends_with(text: &str, sign: &str) -> bool
    ensures { result ≡ ends_with nat_eq text.now sign.now }
{
    text.as_bytes().ends_with(sign.as_bytes())
}

/// The texts that may end a pattern: those of the variants, if a select is last.
fn ends(alloc: Global, pattern: &Pattern<&str>) -> Result<Vec<String>, AllocError>
    ensures { IfOk result (λ ends. texts_of ends.items ≡ r.ends (elements_of pattern.now)) }
{
    let mut ends = Vec::new(alloc);
    push_ends(alloc, pattern, &mut ends)?;
    Ok(ends)
}

#[cycle(ends)]
fn push_ends(
    alloc: Global,
    pattern: &Pattern<&str>,
    ends: &mut Vec<String>,
) -> Result<(), AllocError>
    ensures { OnOk result (AddsRuns ends.old ends.new (r.ends (elements_of pattern.now))) }
{
    match pattern.elements.last() {
        Some(
            PatternElement::Placeable {
                expression: Expression::Select { variants, .. },
            },
        ) => push_variants(alloc, variants, ends),
        Some(
            PatternElement::Placeable {
                expression: Expression::Inline(_),
            },
        ) => push_own(alloc, pattern, ends),
        Some(PatternElement::TextElement { .. }) => push_own(alloc, pattern, ends),
        None => push_own(alloc, pattern, ends),
    }
}

/// Adds the own text of a pattern.
fn push_own(
    alloc: Global,
    pattern: &Pattern<&str>,
    ends: &mut Vec<String>,
) -> Result<(), AllocError>
    ensures { OnOk result (AddsRuns ends.old ends.new (r.own_text (elements_of pattern.now) ∷ [])) }
{
    Ok(ends.push(own_text(alloc, pattern)?)?)
}

#[cycle(ends)]
fn push_variants(
    alloc: Global,
    variants: &[Variant<&str>],
    ends: &mut Vec<String>,
) -> Result<(), AllocError>
    ensures { OnOk result (AddsRuns ends.old ends.new (r.variants_ends (variants_of variants.now))) }
{
    for variant in variants {
        push_ends(alloc, &variant.value, ends)?;
    }
    Ok(())
}
