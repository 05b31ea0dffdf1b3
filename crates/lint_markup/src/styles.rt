//! Attributes `.style` beside those of the reference.
#![tactic(auto, using(fluent_tokens::proofs::Counted::cuts, crate::proofs::Cuts::cuts))]

ghost use Rattle.std.specs.Prelude.{◌≡◌, ◌==◌, Some, IfOk, OnOk, map, option_map};
ghost use Rattle.std.specs.List.{list_any, prefix_len, slice_split};
ghost use Rattle.std.specs.Str.{bytes_eq};
ghost use Rattle.fluent_value.specs.Matching.{same_option};
ghost use Rattle.lint_findings.specs.Doubts as d;
ghost use Rattle.lint_findings.specs.Entities.{semicolon};
ghost use Rattle.lint_findings.specs.Styles as s;
ghost use Rattle.lint_markup.specs.InCode.{Adds, AddsOfPatterns, AddsProperty, IsOn, properties_in, property_view};
ghost use Rattle.lint_markup.specs.Pieces.{if_value, value_after};
ghost use Rattle.fluent_grammar.specs.Words.{is_name_byte};

use crate::names::skip_blanks;
use crate::spotted::{Spotted, push_spotted};
use fluent_ast::Pattern;
use lint_findings::Remark;
use lint_flaws::only_text;
use std::alloc::{AllocError, Global};

/// A property, and the unit of its value if that is a number.
#[derive(Clone, Copy)]
pub struct Property<'t> {
    pub name: &'t str,
    pub unit: Option<&'t str>,
}

/// Adds that a style doesn't set the properties of the reference's in the same units.
///
/// # Errors
/// [`AllocError`] if memory runs out; nothing is added then.
pub fn push_changed_style(
    alloc: Global,
    pattern: &Pattern<&str>,
    other: &Pattern<&str>,
    found: &mut Vec<Spotted>,
) -> Result<(), AllocError>
    ensures { OnOk result (AddsOfPatterns s.style_beside pattern.now other.now found.old found.new) }
{
    match (only_text(pattern), only_text(other)) {
        (Some(text), Some(other)) => push_if_other(alloc, text, other, found),
        _ => Ok(()),
    }
}

fn push_if_other(
    alloc: Global,
    text: &str,
    other: &str,
    found: &mut Vec<Spotted>,
) -> Result<(), AllocError>
    ensures { OnOk result (Adds found.old found.new (s.styles_beside (Some text.now) (Some other.now))) }
{
    if differs(alloc, text, other)? {
        let remark = changed_remark(alloc, other)?;
        push_spotted(Spotted::on_text(alloc, remark), found)
    } else {
        Ok(())
    }
}

fn changed_remark(alloc: Global, other: &str) -> Result<Remark, AllocError>
    ensures { IfOk result (IsOn (d.changed_style other.now)) }
{
    let words = format!(in alloc; "the reference has `{other}`")?;
    Ok(Remark::warning("changed-style", words))
}

/// Whether a style is another than that of the reference, if that can be read.
fn differs(alloc: Global, text: &str, other: &str) -> Result<bool, AllocError>
    ensures { IfOk result (λ is. is ≡ s.differs (s.style_of text.now) (s.style_of other.now)) }
{
    let Some(theirs) = style_of(alloc, other)? else {
        return Ok(false);
    };
    match style_of(alloc, text)? {
        Some(mine) => Ok(!is_same_style(&mine, &theirs)),
        None => Ok(true),
    }
}

fn is_same_style(mine: &[Property<'_>], theirs: &[Property<'_>]) -> bool
    ensures { result ≡ s.same_style (map property_view mine.now) (map property_view theirs.now) }
{
    mine.len() == theirs.len() && are_among(mine, theirs) && are_among(theirs, mine)
}

fn are_among(mine: &[Property<'_>], theirs: &[Property<'_>]) -> bool
    ensures { result ≡ s.all_among (map property_view mine.now) (map property_view theirs.now) }
{
    for property in mine {
        if !is_among(property, theirs) {
            return false;
        }
    }
    true
}

fn is_among(property: &Property<'_>, properties: &[Property<'_>]) -> bool
    ensures { result ≡ list_any (s.same_property (property_view property.now)) (map property_view properties.now) }
{
    for other in properties {
        if is_same_property(property, other) {
            return true;
        }
    }
    false
}

fn is_same_property(property: &Property<'_>, other: &Property<'_>) -> bool
    ensures { result ≡ s.same_property (property_view property.now) (property_view other.now) }
{
    property.name == other.name && is_same_unit(property.unit, other.unit)
}

fn is_same_unit(unit: Option<&str>, other: Option<&str>) -> bool
    ensures { result ≡ same_option bytes_eq (option_map (λ s. s.now) unit.entry) (option_map (λ s. s.now) other.entry) }
{
    match (unit, other) {
        (Some(unit), Some(other)) => unit == other,
        (None, None) => true,
        _ => false,
    }
}

/// The properties of a style, if all of it can be read.
fn style_of(alloc: Global, text: &str) -> Result<Option<Vec<Property<'_>>>, AllocError>
    ensures { IfOk result (λ style. properties_in style ≡ s.style_of text.now) }
{
    let parts = parts_of(alloc, text)?;
    properties_of(alloc, &parts)
}

/// What semicolons part.
fn parts_of(alloc: Global, text: &str) -> Result<Vec<&str>, AllocError>
    ensures { IfOk result (λ parts. map (λ s. s.now) parts.items ≡ slice_split (λ c. c == semicolon) text.now) }
{
    text.split(';').collect(alloc)
}

/// The properties that are set by parts, if each of these can be read or is blank.
fn properties_of<'t>(
    alloc: Global,
    parts: &[&'t str],
) -> Result<Option<Vec<Property<'t>>>, AllocError>
    ensures { IfOk result (λ style. properties_in style ≡ s.properties_of (map (λ s. s.now) parts.now)) }
{
    let mut properties = Vec::new(alloc);
    for part in parts {
        if !push_property(skip_blanks(part), &mut properties)? {
            return Ok(None);
        }
    }
    Ok(Some(properties))
}

/// Adds the property of a part that isn't empty, and returns whether it can be read.
fn push_property<'t>(part: &'t str, properties: &mut Vec<Property<'t>>) -> Result<bool, AllocError>
    ensures { IfOk result (AddsProperty properties.old properties.new part.now) }
{
    if part.is_empty() {
        return Ok(true);
    }
    match property_of(part) {
        Some(property) => {
            properties.push(property)?;
            Ok(true)
        }
        None => Ok(false),
    }
}

/// The property that is at the front.
fn property_of(text: &str) -> Option<Property<'_>>
    ensures { option_map property_view result ≡ s.property_of text.now }
{
    let len = name_len(text.as_bytes());
    if len == 0 {
        return None;
    }
    match value_after(skip_blanks(&text[len..])) {
        Some(value) => Some(Property {
            name: &text[..len],
            unit: unit_of(value),
        }),
        None => None,
    }
}

/// The value after the colon at the front, if one is there.
fn value_after(text: &str) -> Option<&str>
    ensures { option_map (λ s. s.now) result ≡ value_after text.now }
{
    match text.as_bytes() {
        [b':', ..] => if_value(skip_blanks(&text[1..])),
        _ => None,
    }
}

/// A text, if it isn't empty and has no colon.
fn if_value(text: &str) -> Option<&str>
    ensures { option_map (λ s. s.now) result ≡ if_value text.now }
{
    if text.is_empty() || text.as_bytes().contains(&b':') {
        None
    } else {
        Some(text)
    }
}

fn name_len(text: &[u8]) -> usize
    ensures { result ≡ prefix_len is_name_byte text.now }
{
    text.iter().take_while(|byte| is_name_byte(**byte)).count()
}

fn is_name_byte(byte: u8) -> bool
    ensures { result ≡ is_name_byte byte }
{
    byte.is_ascii_alphanumeric() || byte == b'-' || byte == b'_'
}

/// The unit of a value, if that is a number: the empty text if it has none.
fn unit_of(value: &str) -> Option<&str>
    ensures { option_map (λ s. s.now) result ≡ s.unit_of value.now }
{
    let text = skip_sign(value);
    match number_len(text.as_bytes()) {
        0 => None,
        len => last_unit(&text[len..]),
    }
}

fn skip_sign(value: &str) -> &str
    ensures { result.now ≡ s.skip_sign value.now }
{
    match value.as_bytes() {
        [b'+' | b'-', ..] => &value[1..],
        _ => value,
    }
}

fn number_len(text: &[u8]) -> usize
    ensures { result ≡ prefix_len s.is_number_byte text.now }
{
    text.iter()
        .take_while(|byte| byte.is_ascii_digit() || **byte == b'.')
        .count()
}

/// The unit at the front, if nothing but blanks follow it.
fn last_unit(text: &str) -> Option<&str>
    ensures { option_map (λ s. s.now) result ≡ s.last_unit text.now }
{
    let len = unit_len(text.as_bytes());
    if skip_blanks(&text[len..]).is_empty() {
        Some(&text[..len])
    } else {
        None
    }
}

fn unit_len(text: &[u8]) -> usize
    ensures { result ≡ prefix_len s.is_unit_byte text.now }
{
    text.iter()
        .take_while(|byte| byte.is_ascii_alphabetic() || **byte == b'%')
        .count()
}
