//! Dots and quotes in texts beside those of the reference.
#![tactic(auto, using(fluent_tokens::proofs::Counted::cuts))]

ghost use Rattle.std.specs.Prelude.{◌≡◌, ◌∷◌, [], IfOk, OnOk, codes, map, option_map, take, true};
ghost use Rattle.std.specs.List.{flat_map, list_all, list_any};
ghost use Rattle.fluent_grammar.specs.Words.{quote};
ghost use Rattle.lint_findings.specs.Doubts as d;
ghost use Rattle.lint_findings.specs.Letters.{begins_three};
ghost use Rattle.lint_findings.specs.Typing as t;
ghost use Rattle.lint_markup.specs.InCode.{Adds, AddsBeside, IsOn, texts_of};
ghost use Rattle.lint_texts.specs.Beside.{first_said};
ghost use Rattle.lint_texts.specs.Quotes.{AddsTexts, begins_character, begins_inches, has_ellipsis, if_curly};

use crate::parts::plain_parts;
use crate::spotting::push_note_at;
use lint_findings::Remark;
use lint_markup::{Spotted, push_spotted};
use lint_nodes::skip;
use memchr::{memchr, memmem};
use std::alloc::{AllocError, Global};

/// The first byte of curly quotes, and of an ellipsis.
const FIRST: u8 = 0xE2;

/// Adds that a text has three dots, where the reference has an ellipsis.
///
/// # Errors
/// [`AllocError`] if memory runs out; nothing is added then.
pub fn push_three_dots(
    alloc: Global,
    texts: &[String],
    others: &[String],
    found: &mut Vec<Spotted>,
) -> Result<(), AllocError>
    ensures { OnOk result (AddsBeside t.dots_beside texts.now others.now found.old found.new) }
{
    if have_ellipsis(others) && !have(others, "...") {
        push_first_dots(alloc, texts, found)
    } else {
        Ok(())
    }
}

fn push_first_dots(
    alloc: Global,
    texts: &[String],
    found: &mut Vec<Spotted>,
) -> Result<(), AllocError>
    ensures { OnOk result (Adds found.old found.new
        (first_said d.three_dots (t.from_text (codes "...")) texts.now)) }
{
    match first_from(texts, "...") {
        Some(at) => push_note_at(alloc, at, "three-dots", "the reference has `…`", found),
        None => Ok(()),
    }
}

fn have_ellipsis(texts: &[String]) -> bool
    ensures { result ≡ list_any has_ellipsis (texts_of texts.now) }
{
    for text in texts {
        if has_ellipsis(text.as_str()) {
            return true;
        }
    }
    false
}

/// Whether a text has an ellipsis. Most lack even its first byte.
fn has_ellipsis(text: &str) -> bool
    ensures { result ≡ has_ellipsis text.now }
{
    match memchr(FIRST, text.as_bytes()) {
        Some(_) => from_text("…", text).is_some(),
        None => false,
    }
}

/// Whether some text has a part.
fn have(texts: &[String], part: &str) -> bool
    requires { begins_character part.now ≡ true }
    ensures { result ≡ list_any (t.has_text part.now) (texts_of texts.now) }
{
    for text in texts {
        if from_text(part, text.as_str()).is_some() {
            return true;
        }
    }
    false
}

/// The end of the first text with a part, from this part on.
fn first_from<'t>(texts: &'t [String], part: &str) -> Option<&'t str>
    requires { begins_character part.now ≡ true }
    ensures { option_map (λ s. s.now) result ≡ t.first_found (t.from_text part.now) (texts_of texts.now) }
{
    for text in texts {
        if let Some(at) = from_text(part, text.as_str()) {
            return Some(at);
        }
    }
    None
}

/// The end of a text from a part on.
fn from_text<'t>(part: &str, text: &'t str) -> Option<&'t str>
    requires { begins_character part.now ≡ true }
    ensures { option_map (λ s. s.now) result ≡ t.from_text part.now text.now }
{
    match memmem::find(text.as_bytes(), part.as_bytes()) {
        Some(place) => Some(&text[place..]),
        None => None,
    }
}

/// Adds that a text has a straight quote outside of tags, where the reference has curly ones alone.
///
/// # Errors
/// [`AllocError`] if memory runs out; nothing is added then.
pub fn push_straight_quotes(
    alloc: Global,
    texts: &[String],
    others: &[String],
    found: &mut Vec<Spotted>,
) -> Result<(), AllocError>
    ensures { OnOk result (AddsBeside t.straight_quotes texts.now others.now found.old found.new) }
{
    if have_curly(others) && !have_straight(alloc, others)? {
        push_first_straight(alloc, texts, found)
    } else {
        Ok(())
    }
}

/// Whether some text has a straight quote outside of tags.
fn have_straight(alloc: Global, texts: &[String]) -> Result<bool, AllocError>
    ensures { IfOk result (λ have. have ≡ list_any t.has_quote (texts_of texts.now)) }
{
    let first = first_quote(alloc, texts)?;
    Ok(first.is_some())
}

fn push_first_straight(
    alloc: Global,
    texts: &[String],
    found: &mut Vec<Spotted>,
) -> Result<(), AllocError>
    ensures { OnOk result (Adds found.old found.new
        (first_said d.straight_quote t.quote_in texts.now)) }
{
    match first_quote(alloc, texts)? {
        Some(at) => push_note_at(alloc, at, "straight-quote", "the reference has `“`", found),
        None => Ok(()),
    }
}

/// Whether some text has a curly quote.
fn have_curly(texts: &[String]) -> bool
    ensures { result ≡ list_any t.has_curly (texts_of texts.now) }
{
    for text in texts {
        if has_curly(text.as_str()) {
            return true;
        }
    }
    false
}

/// Whether a text has a curly quote. Most lack even its first byte.
fn has_curly(text: &str) -> bool
    ensures { result ≡ t.has_curly text.now }
{
    match memchr(FIRST, text.as_bytes()) {
        Some(_) => from_text("“", text).is_some() || from_text("”", text).is_some(),
        None => false,
    }
}

/// From the first straight quote outside of tags on, up to the next tag.
fn first_quote(alloc: Global, texts: &[String]) -> Result<Option<&str>, AllocError>
    ensures { IfOk result (λ at. option_map (λ s. s.now) at ≡ t.first_found t.quote_in (texts_of texts.now)) }
{
    for text in texts {
        let parts = plain_parts(alloc, text.as_str())?;
        if let Some(at) = quote_among(&parts) {
            return Ok(Some(at));
        }
    }
    Ok(None)
}

/// From the first straight quote of some texts on.
fn quote_among<'t>(parts: &[&'t str]) -> Option<&'t str>
    ensures { option_map (λ s. s.now) result ≡ t.first_found (t.from_text (quote ∷ [])) (map (λ s. s.now) parts.now) }
{
    for part in parts {
        if let Some(at) = from_text("\"", part) {
            return Some(at);
        }
    }
    None
}

/// Adds that a quote of a text has no partner, if each text of the reference has an even number of
/// quotes.
///
/// # Errors
/// [`AllocError`] if memory runs out; nothing is added then.
pub fn push_unpaired_quotes(
    alloc: Global,
    texts: &[String],
    others: &[String],
    found: &mut Vec<Spotted>,
) -> Result<(), AllocError>
    ensures { OnOk result (AddsBeside t.unpaired_quotes texts.now others.now found.old found.new) }
{
    if !are_paired(alloc, others)? {
        return Ok(());
    }
    match first_odd(alloc, texts)? {
        Some(at) => push_unpaired(alloc, at, found),
        None => Ok(()),
    }
}

/// Whether each text has an even number of quotes.
fn are_paired(alloc: Global, texts: &[String]) -> Result<bool, AllocError>
    ensures { IfOk result (λ are. are ≡ list_all t.is_paired (texts_of texts.now)) }
{
    for text in texts {
        if !is_even(curly_ends(alloc, text.as_str())?.len()) {
            return Ok(false);
        }
    }
    Ok(true)
}

fn is_even(count: usize) -> bool
    ensures { result ≡ t.is_even count }
{
    count % 2 == 0
}

/// From the first quote of the first text on that has an odd number of them.
fn first_odd(alloc: Global, texts: &[String]) -> Result<Option<&str>, AllocError>
    ensures { IfOk result (λ at. option_map (λ s. s.now) at ≡ t.first_found t.odd_quote (texts_of texts.now)) }
{
    for text in texts {
        if let Some(at) = odd_quote(alloc, text.as_str())? {
            return Ok(Some(at));
        }
    }
    Ok(None)
}

/// From the first quote of a text on, if it has an odd number of them, and no inches.
fn odd_quote(alloc: Global, text: &str) -> Result<Option<&str>, AllocError>
    ensures { IfOk result (λ at. option_map (λ s. s.now) at ≡ t.odd_quote text.now) }
{
    let ends = curly_ends(alloc, text)?;
    if is_even(ends.len()) || has_inches(text.as_bytes()) {
        return Ok(None);
    }
    Ok(first_of(&ends))
}

fn first_of<'t>(ends: &[&'t str]) -> Option<&'t str>
    ensures { option_map (λ s. s.now) result ≡ t.first_of (map (λ s. s.now) ends.now) }
{
    match ends {
        [first, ..] => Some(*first),
        [] => None,
    }
}

/// Adds that the quote at the front has no partner.
fn push_unpaired(alloc: Global, at: &str, found: &mut Vec<Spotted>) -> Result<(), AllocError>
    requires { t.curly_at at.now ≡ true }
    ensures { OnOk result (Adds found.old found.new (t.unpaired_at at.now ∷ [])) }
{
    let remark = unpaired_remark(alloc, quote_at(at.as_bytes()))?;
    push_spotted(Spotted::at(alloc, at, remark)?, found)
}

fn unpaired_remark(alloc: Global, quote: &str) -> Result<Remark, AllocError>
    ensures { IfOk result (IsOn (d.unpaired_quote quote.now)) }
{
    let text = format!(in alloc; "`{quote}` has no partner")?;
    Ok(Remark::note("unpaired-quote", text))
}

/// The curly quote at the front.
fn quote_at(text: &[u8]) -> &'static str
    requires { t.curly_at text.now ≡ true }
    ensures { result.now ≡ take 3 text.now }
{
    if begins_three(text, 0x9C) {
        "“"
    } else if begins_three(text, 0x9D) {
        "”"
    } else {
        "„"
    }
}

/// The ends of a text that begin with a curly quote outside of tags, each up to the next tag.
fn curly_ends(alloc: Global, text: &str) -> Result<Vec<&str>, AllocError>
    ensures { IfOk result (λ ends. map (λ s. s.now) ends.items ≡ t.curly_ends text.now) }
{
    match memchr(FIRST, text.as_bytes()) {
        Some(_) => ends_of_parts(alloc, text),
        None => Ok(Vec::new(alloc)),
    }
}

fn ends_of_parts(alloc: Global, text: &str) -> Result<Vec<&str>, AllocError>
    ensures { IfOk result (λ ends. map (λ s. s.now) ends.items ≡ t.curly_ends text.now) }
{
    let parts = plain_parts(alloc, text)?;
    let mut ends = Vec::new(alloc);
    push_ends(&parts, &mut ends)?;
    Ok(ends)
}

fn push_ends<'t>(parts: &[&'t str], ends: &mut Vec<&'t str>) -> Result<(), AllocError>
    ensures { OnOk result (AddsTexts ends.old ends.new (flat_map t.curly_from (map (λ s. s.now) parts.now))) }
{
    for part in parts {
        push_curly(part, ends)?;
    }
    Ok(())
}

/// Adds the ends of a text that begin with a curly quote.
fn push_curly<'t>(text: &'t str, ends: &mut Vec<&'t str>) -> Result<(), AllocError>
    ensures { OnOk result (AddsTexts ends.old ends.new (t.curly_from text.now)) }
{
    let mut place = 0;
    while let Some(next) = memchr(FIRST, skip(text.as_bytes(), place)) {
        let at = place + next;
        push_if_curly(&text[at..], ends)?;
        place = at + 1;
    }
    Ok(())
}

fn push_if_curly<'t>(text: &'t str, ends: &mut Vec<&'t str>) -> Result<(), AllocError>
    ensures { OnOk result (AddsTexts ends.old ends.new (if_curly text.now)) }
{
    if is_curly_at(text.as_bytes()) {
        ends.push(text)?;
    }
    Ok(())
}

fn is_curly_at(text: &[u8]) -> bool
    ensures { result ≡ t.curly_at text.now }
{
    begins_three(text, 0x9C) || (begins_three(text, 0x9D) || begins_three(text, 0x9E))
}

/// Whether a sign of U+2000 to U+203F with this last byte is at the front.
fn begins_three(text: &[u8], last: u8) -> bool
    ensures { result ≡ begins_three 0xE2 0x80 last text.now }
{
    match text {
        [0xE2, 0x80, byte, ..] => *byte == last,
        _ => false,
    }
}

/// Whether a text has inches, `12”`.
fn has_inches(text: &[u8]) -> bool
    ensures { result ≡ t.has_inches text.now }
{
    for place in 0..text.len() {
        if begins_inches(skip(text, place)) {
            return true;
        }
    }
    false
}

fn begins_inches(text: &[u8]) -> bool
    ensures { result ≡ begins_inches text.now }
{
    match text {
        [b'0'..=b'9', rest @ ..] => begins_three(rest, 0x9D),
        _ => false,
    }
}
