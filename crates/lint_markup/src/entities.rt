//! Entities without the `;` that ends them.
#![tactic(auto, using(fluent_tokens::proofs::Counted::cuts))]

ghost use Rattle.std.specs.Prelude.{◌≡◌, ◌+◌, ◌<◌, ◌^◌, ◌==◌, ◌||◌, if◌then◌else◌, ◌∷◌, [], IfOk, OnOk, drop, option_map};
ghost use Rattle.lint_findings.specs.Doubts as d;
ghost use Rattle.lint_findings.specs.Entities as e;
ghost use Rattle.lint_markup.specs.InCode.{Adds, AddsBeside, AreNames, IsHint, IsOn, texts_in, texts_of, unended_view};
ghost use Rattle.std.specs.List.{flat_map, prefix_len};
ghost use Rattle.lint_nodes.specs.HasNames.{HasNames};
ghost use Rattle.lint_findings.specs.Comparison.{union};
ghost use Rattle.fluent_grammar.specs.Words.{begins_with, is_digit, is_hex_digit, is_letter};
ghost use Rattle.lint_markup.specs.Beside.{AddsDoubt, first_unended_in, unended_said};
ghost use Rattle.lint_markup.specs.Pieces.{AddsNames, ended_after, unended_after};

use crate::spotted::{Spotted, push_spotted};
use fluent_tokens::begins_with;
use lint_findings::Remark;
use lint_nodes::{Names, skip};
use memchr::memchr;
use std::alloc::{AllocError, Global};

/// An entity that isn't ended: its name, and the text from its sign on.
#[derive(Clone, Copy)]
pub struct Unended<'t> {
    pub name: &'t str,
    pub at: &'t str,
}

/// Adds the first entity of some texts that isn't ended, if the others have entities. Otherwise `&`
/// may mark an access key.
///
/// # Errors
/// [`AllocError`] if memory runs out; nothing is added then.
pub fn push_broken_entities(
    alloc: Global,
    texts: &[String],
    others: &[String],
    found: &mut Vec<Spotted>,
) -> Result<(), AllocError>
    ensures { OnOk result (AddsBeside e.broken_entities texts.now others.now found.old found.new) }
{
    let known = known_entities(alloc, others)?;
    if known.list.is_empty() {
        return Ok(());
    }
    push_unended(alloc, texts, &known, found)
}

/// Adds the first entity of some texts that isn't ended, beside known ones.
fn push_unended(
    alloc: Global,
    texts: &[String],
    known: &Names<'_>,
    found: &mut Vec<Spotted>,
) -> Result<(), AllocError>
    requires known { AreNames known.now }
    ensures { OnOk result (Adds found.old found.new
        (unended_said (texts_in known.now) (first_unended_in texts.now))) }
{
    match first_unended(texts) {
        Some(entity) => push_entity(alloc, known, entity.name, entity.at, found),
        None => Ok(()),
    }
}

/// Adds that an entity of this name isn't ended, at its sign.
fn push_entity(
    alloc: Global,
    known: &Names<'_>,
    name: &str,
    at: &str,
    found: &mut Vec<Spotted>,
) -> Result<(), AllocError>
    requires known { AreNames known.now }
    ensures { OnOk result
        (AddsDoubt at.now (d.broken_entity (texts_in known.now) name.now) found.old found.new) }
{
    let remark = entity_remark(alloc, known, name)?;
    push_spotted(Spotted::at(alloc, at, remark)?, found)
}

/// The names of the entities of some texts, each once.
fn known_entities(alloc: Global, texts: &[String]) -> Result<Names<'_>, AllocError>
    ensures { IfOk result (λ names. HasNames names (union [] (flat_map e.entities_in (texts_of texts.now)))) }
{
    let mut names = Names::new(alloc);
    for text in texts {
        add_entities(text.as_str(), &mut names)?;
    }
    Ok(names)
}

/// Adds the names of the entities of a text.
fn add_entities<'t>(text: &'t str, names: &mut Names<'t>) -> Result<(), AllocError>
    ensures { OnOk result (AddsNames names.old names.new (e.entities_in text.now)) }
{
    let mut rest = text;
    while let Some(place) = memchr(b'&', rest.as_bytes()) {
        rest = &rest[place + 1..];
        add_entity(rest, names)?;
    }
    Ok(())
}

/// Adds the name at the front, if it is that of an entity that is ended.
fn add_entity<'t>(text: &'t str, names: &mut Names<'t>) -> Result<(), AllocError>
    ensures { OnOk result (AddsNames names.old names.new (ended_after text.now)) }
{
    let len = entity_len(text.as_bytes());
    if len > 0 && is_ended(text.as_bytes(), len) {
        names.add(&text[..len])?;
    }
    Ok(())
}

/// Whether a semicolon stands after so many bytes.
fn is_ended(text: &[u8], len: usize) -> bool
    ensures { result ≡ begins_with e.semicolon (drop len text.now) }
{
    begins_with(skip(text, len), b';')
}

fn first_unended(texts: &[String]) -> Option<Unended<'_>>
    ensures { option_map unended_view result ≡ e.first_unended (texts_of texts.now) }
{
    for text in texts {
        if let Some(entity) = unended_in(text.as_str()) {
            return Some(entity);
        }
    }
    None
}

fn unended_in(text: &str) -> Option<Unended<'_>>
    ensures { option_map unended_view result ≡ e.unended_in text.now }
{
    let mut rest = text;
    while let Some(place) = memchr(b'&', rest.as_bytes()) {
        let at = &rest[place..];
        rest = &at[1..];
        if let Some(name) = unended_name(rest) {
            return Some(Unended { name, at });
        }
    }
    None
}

/// The name at the front, if it is that of an entity that isn't ended.
fn unended_name(text: &str) -> Option<&str>
    ensures { option_map (λ s. s.now) result ≡ unended_after text.now }
{
    let len = entity_len(text.as_bytes());
    if len > 0 && !is_ended(text.as_bytes(), len) {
        Some(&text[..len])
    } else {
        None
    }
}

/// The length of the name of an entity at the front: letters and digits, or a number after its
/// sign.
fn entity_len(text: &[u8]) -> usize
    ensures { result ≡ e.entity_len text.now }
{
    match text {
        [b'#', b'x' | b'X', number @ ..] => after(2, hex_len(number)),
        [b'#', number @ ..] => after(1, digits_len(number)),
        [first, ..] if first.is_ascii_alphabetic() => word_len(text),
        _ => 0,
    }
}

/// So many bytes after those, or 0 if there are none.
fn after(before: usize, len: usize) -> usize
    requires { before + len < 2 ^ 64 }
    ensures { result ≡ (if len == 0 then 0 else before + len) }
{
    if len == 0 { 0 } else { before + len }
}

fn digits_len(text: &[u8]) -> usize
    ensures { result ≡ prefix_len is_digit text.now }
{
    text.iter().take_while(|byte| byte.is_ascii_digit()).count()
}

fn hex_len(text: &[u8]) -> usize
    ensures { result ≡ prefix_len is_hex_digit text.now }
{
    text.iter()
        .take_while(|byte| byte.is_ascii_hexdigit())
        .count()
}

fn word_len(text: &[u8]) -> usize
    ensures { result ≡ prefix_len (λ c. is_letter c || is_digit c) text.now }
{
    text.iter()
        .take_while(|byte| byte.is_ascii_alphanumeric())
        .count()
}

fn entity_remark(alloc: Global, known: &Names<'_>, name: &str) -> Result<Remark, AllocError>
    requires known { AreNames known.now }
    ensures { IfOk result (IsOn (d.broken_entity (texts_in known.now) name.now)) }
{
    let text = format!(in alloc; "`&{name}` has no `;`")?;
    let hint = entity_hint(alloc, known, name)?;
    Ok(Remark::warning("broken-entity", text).with_hint(hint))
}

fn entity_hint(alloc: Global, known: &Names<'_>, name: &str) -> Result<Option<String>, AllocError>
    requires known { AreNames known.now }
    ensures { IfOk result (IsHint (d.entity_hint (texts_in known.now) name.now)) }
{
    if known.has(name) {
        Ok(Some(format!(in alloc; "did you mean `&{name};`?")?))
    } else {
        Ok(None)
    }
}
