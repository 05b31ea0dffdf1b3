//! Placeholders of other formats beside those of the reference.
#![tactic(auto)]

ghost use Rattle.std.specs.Prelude.{◌≡◌, ◌+◌, ◌<◌, ◌^◌, ◌==◌, ◌||◌, if◌then◌else◌, IfOk, OnOk, length, map, not};
ghost use Rattle.std.specs.List.{flat_map, list_any, prefix_len};
ghost use Rattle.fluent_grammar.specs.Words.{begins, dollar, is_among};
ghost use Rattle.fluent_tokens.specs.Counted.{Cuts};
ghost use Rattle.lint_nodes.specs.HasNames.{HasNames, texts};
ghost use Rattle.lint_findings.specs.Doubts as d;
ghost use Rattle.lint_findings.specs.Placeholders as p;
ghost use Rattle.lint_markup.specs.InCode.{Adds, AddsBeside, AreNames, IsOn, texts_in, texts_of};
ghost use Rattle.lint_texts.specs.Beside.{AddsIfNew, if_gone, lost_placeholders, new_at, new_beside};
ghost use Rattle.lint_texts.specs.InCode.{AddsPlaceholders, placeholder_view};

use crate::numbers::digits_len;
use fluent_tokens::{begins_with, begins_with_letter};
use lint_findings::Remark;
use lint_markup::{Spotted, push_spotted};
use lint_nodes::{Names, skip};
use memchr::memchr2;
use std::alloc::{AllocError, Global};

/// A placeholder, and the text from it on.
#[derive(Clone, Copy)]
pub struct Placeholder<'t> {
    name: &'t str,
    at: &'t str,
}

/// Adds which placeholders some texts lack of the others, and which they have and the others
/// haven't.
///
/// # Errors
/// [`AllocError`] if memory runs out; some may be added then.
pub fn push_changed_placeholders<'t>(
    alloc: Global,
    texts: &'t [String],
    others: &'t [String],
    found: &mut Vec<Spotted>,
) -> Result<(), AllocError>
    ensures { OnOk result (AddsBeside p.changed_placeholders texts.now others.now found.old found.new) }
{
    let mine = placeholders(alloc, texts)?;
    let theirs = placeholders(alloc, others)?;
    let mut known = names_of(alloc, &theirs)?;
    push_gone(alloc, &mine, &known, found)?;
    push_new(alloc, have_sign(others), &mine, &mut known, found)
}

/// Adds the placeholders that aren't known, each once. Not all count if it isn't known what a
/// percent sign is for.
fn push_new<'t>(
    alloc: Global,
    all: bool,
    mine: &[Placeholder<'t>],
    known: &mut Names<'t>,
    found: &mut Vec<Spotted>,
) -> Result<(), AllocError>
    requires { AreNames known.old }
    ensures { OnOk result (Adds found.old found.new
        (new_beside all known.old mine.now)) }
{
    for placeholder in mine {
        push_if_new(alloc, all, placeholder, known, found)?;
    }
    Ok(())
}

fn push_if_new<'t>(
    alloc: Global,
    all: bool,
    placeholder: &Placeholder<'t>,
    known: &mut Names<'t>,
    found: &mut Vec<Spotted>,
) -> Result<(), AllocError>
    requires { AreNames known.old }
    ensures { OnOk result (AddsIfNew all placeholder.now known.old known.new found.old found.new) }
{
    if is_passed(all, placeholder.name, known) {
        return Ok(());
    }
    push_at(alloc, placeholder, found)?;
    known.add(placeholder.name)
}

/// Whether nothing is said of a placeholder: it is known, or it doesn't count.
fn is_passed(all: bool, name: &str, known: &Names<'_>) -> bool
    requires { AreNames known.now }
    ensures { result ≡ (is_among name.now (texts_in known.now) || not (all || p.is_certain name.now)) }
{
    known.has(name) || !(all || is_certain(name))
}

fn push_at(
    alloc: Global,
    placeholder: &Placeholder<'_>,
    found: &mut Vec<Spotted>,
) -> Result<(), AllocError>
    ensures { OnOk result (Adds found.old found.new (new_at placeholder.now)) }
{
    let remark = new_remark(alloc, placeholder.name)?;
    push_spotted(Spotted::at(alloc, placeholder.at, remark)?, found)
}

/// Adds the placeholders that are gone.
fn push_gone(
    alloc: Global,
    mine: &[Placeholder<'_>],
    known: &Names<'_>,
    found: &mut Vec<Spotted>,
) -> Result<(), AllocError>
    requires { AreNames known.now }
    ensures { OnOk result (Adds found.old found.new (lost_placeholders mine.now known.now)) }
{
    let names = names_of(alloc, mine)?;
    push_each_gone(alloc, &known.list, &names, found)
}

fn push_each_gone(
    alloc: Global,
    known: &[&str],
    names: &Names<'_>,
    found: &mut Vec<Spotted>,
) -> Result<(), AllocError>
    requires { AreNames names.now }
    ensures { OnOk result (Adds found.old found.new (flat_map (if_gone names.now) (texts known.now))) }
{
    for name in known {
        push_if_gone(alloc, name, names, found)?;
    }
    Ok(())
}

fn push_if_gone(
    alloc: Global,
    name: &str,
    names: &Names<'_>,
    found: &mut Vec<Spotted>,
) -> Result<(), AllocError>
    requires { AreNames names.now }
    ensures { OnOk result (Adds found.old found.new (if_gone names.now name.now)) }
{
    if names.has(name) {
        return Ok(());
    }
    push_spotted(Spotted::on_text(alloc, gone_remark(alloc, name)?), found)
}

fn gone_remark(alloc: Global, name: &str) -> Result<Remark, AllocError>
    ensures { IfOk result (IsOn (d.lost_placeholder name.now)) }
{
    let text = format!(in alloc; "the reference has `{name}`")?;
    Ok(Remark::note("changed-placeholder", text))
}

fn new_remark(alloc: Global, name: &str) -> Result<Remark, AllocError>
    ensures { IfOk result (IsOn (d.new_placeholder name.now)) }
{
    let text = format!(in alloc; "the reference has no `{name}`")?;
    Ok(Remark::note("changed-placeholder", text))
}

/// Whether some text has a percent sign or a brace: then it is known what they are for.
fn have_sign(texts: &[String]) -> bool
    ensures { result ≡ list_any p.has_percent (texts_of texts.now) }
{
    for text in texts {
        if has_sign(text.as_bytes()) {
            return true;
        }
    }
    false
}

fn has_sign(text: &[u8]) -> bool
    ensures { result ≡ p.has_percent text.now }
{
    text.iter().any(|&byte| byte == b'%' || byte == b'{')
}

/// Whether a placeholder is that of a text, or has a place: otherwise it may be a percent sign
/// before a word.
fn is_certain(name: &str) -> bool
    ensures { result ≡ p.is_certain name.now }
{
    has_text_kind(name.as_bytes())
}

fn has_text_kind(name: &[u8]) -> bool
    ensures { result ≡ list_any (λ c. c == dollar || p.is_text_kind c) name.now }
{
    name.iter().any(|&byte| byte == b'$' || is_text_kind(byte))
}

fn names_of<'t>(alloc: Global, placeholders: &[Placeholder<'t>]) -> Result<Names<'t>, AllocError>
    ensures { IfOk result (λ names. HasNames names (p.names (map placeholder_view placeholders.now))) }
{
    let mut names = Names::new(alloc);
    for placeholder in placeholders {
        names.add(placeholder.name)?;
    }
    Ok(names)
}

fn placeholders(alloc: Global, texts: &[String]) -> Result<Vec<Placeholder<'_>>, AllocError>
    ensures { IfOk result (λ found. map placeholder_view found.items ≡ p.placeholders (texts_of texts.now)) }
{
    let mut found = Vec::new(alloc);
    for text in texts {
        push_placeholders(text.as_str(), &mut found)?;
    }
    Ok(found)
}

#[tactic(auto, using(fluent_tokens::proofs::Counted::cuts))]
fn push_placeholders<'t>(text: &'t str, found: &mut Vec<Placeholder<'t>>) -> Result<(), AllocError>
    ensures { OnOk result (AddsPlaceholders found.old found.new (p.placeholders_in text.now)) }
{
    let mut rest = text;
    while let Some(place) = memchr2(b'%', b'{', rest.as_bytes()) {
        let at = &rest[place..];
        push_first(at, found)?;
        rest = &at[1..];
    }
    Ok(())
}

/// Adds the placeholder at the front, if one is there.
#[tactic(auto, using(fluent_tokens::proofs::Counted::cuts))]
fn push_first<'t>(text: &'t str, found: &mut Vec<Placeholder<'t>>) -> Result<(), AllocError>
    ensures { OnOk result (AddsPlaceholders found.old found.new
        (p.placeholder_at text.now (p.placeholder_len text.now))) }
{
    let len = placeholder_len(text.as_bytes());
    if len > 0 {
        found.push(Placeholder {
            name: &text[..len],
            at: text,
        })?;
    }
    Ok(())
}

/// The length of the placeholder at the front, 0 if there is none.
#[tactic(auto, using(fluent_tokens::proofs::Counted::cuts))]
fn placeholder_len(text: &[u8]) -> usize
    ensures value { result ≡ p.placeholder_len text.now }
    ensures cuts { Cuts text.now result }
{
    if begins_with(text, b'%') {
        after(1, kind_len(skip(text, 1)))
    } else if begins_with(text, b'{') {
        braces_len(text, digits_len(skip(text, 1)))
    } else {
        0
    }
}

/// So many bytes after those, or 0 if there are none.
#[tactic(auto, using(fluent_tokens::proofs::Counted::cuts))]
fn after(before: usize, len: usize) -> usize
    requires { before + len < 2 ^ 64 }
    ensures { result ≡ (if len == 0 then 0 else before + len) }
{
    if len == 0 { 0 } else { before + len }
}

/// The length of so many digits in braces.
#[tactic(auto, using(fluent_tokens::proofs::Counted::cuts))]
fn braces_len(text: &[u8], len: usize) -> usize
    requires { len < length text.now }
    ensures { result ≡ p.braces_len len text.now }
{
    if len != 0 && begins_with(skip(text, 1 + len), b'}') {
        2 + len
    } else {
        0
    }
}

/// The length of what follows a percent sign, 0 if that is no placeholder.
#[tactic(auto, using(fluent_tokens::proofs::Counted::cuts))]
fn kind_len(text: &[u8]) -> usize
    ensures { result ≡ p.kind_len text.now }
{
    if is_plain_kind(text) {
        1
    } else if is_placed(text) {
        3
    } else if begins_with(text, b'(') {
        named_len(text, word_len(skip(text, 1)))
    } else {
        0
    }
}

/// A kind without a letter after it.
fn is_plain_kind(text: &[u8]) -> bool
    ensures { result ≡ p.is_plain_kind text.now }
{
    begins_kind(text) && !begins_with_letter(skip(text, 1))
}

fn begins_kind(text: &[u8]) -> bool
    ensures { result ≡ begins p.is_kind text.now }
{
    match text {
        [byte, ..] => is_kind(*byte),
        [] => false,
    }
}

/// `1$s`
fn is_placed(text: &[u8]) -> bool
    ensures { result ≡ p.is_placed text.now }
{
    matches!(text, [b'1'..=b'9', ..])
        && (begins_with(skip(text, 1), b'$') && begins_place_kind(skip(text, 2)))
}

fn begins_place_kind(text: &[u8]) -> bool
    ensures { result ≡ begins p.is_place_kind text.now }
{
    match text {
        [byte, ..] => is_place_kind(*byte),
        [] => false,
    }
}

fn word_len(text: &[u8]) -> usize
    ensures { result ≡ prefix_len p.is_word_byte text.now }
{
    text.iter()
        .take_while(|byte| byte.is_ascii_lowercase() || **byte == b'_')
        .count()
}

/// The length of a name of this length, its parentheses and the kind of its value.
#[tactic(auto, using(fluent_tokens::proofs::Counted::cuts))]
fn named_len(text: &[u8], len: usize) -> usize
    requires { len < length text.now }
    ensures { result ≡ p.named_len len text.now }
{
    if len != 0 && (begins_with(skip(text, 1 + len), b')') && begins_value(skip(text, 2 + len))) {
        3 + len
    } else {
        0
    }
}

fn begins_value(text: &[u8]) -> bool
    ensures { result ≡ begins (λ c. c == 115 || c == 100) text.now }
{
    matches!(text, [b's' | b'd', ..])
}

fn is_text_kind(byte: u8) -> bool
    ensures { result ≡ p.is_text_kind byte }
{
    matches!(byte, b's' | b'S')
}

fn is_place_kind(byte: u8) -> bool
    ensures { result ≡ p.is_place_kind byte }
{
    is_text_kind(byte) || matches!(byte, b'd' | b'i' | b'u')
}

fn is_kind(byte: u8) -> bool
    ensures { result ≡ p.is_kind byte }
{
    is_place_kind(byte) || matches!(byte, b'x' | b'f' | b'g' | b'c' | b'@')
}
