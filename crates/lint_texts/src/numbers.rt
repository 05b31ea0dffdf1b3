//! Numbers in texts beside those of the reference.
#![tactic(auto)]

ghost use Rattle.std.specs.Prelude.{◌≡◌, ◌==◌, false, IfOk, OnOk, drop, map, not, option_map};
ghost use Rattle.std.specs.List.{flat_map, list_any, prefix_len};
ghost use Rattle.fluent_grammar.specs.Words.{is_digit};
ghost use Rattle.lint_nodes.specs.HasNames.{HasNames, texts};
ghost use Rattle.lint_findings.specs.Comparison.{without};
ghost use Rattle.lint_findings.specs.Doubts as d;
ghost use Rattle.lint_findings.specs.Numbers as n;
ghost use Rattle.lint_findings.specs.Tags.{is_blank_byte};
ghost use Rattle.lint_markup.specs.InCode.{Adds, AddsBeside, AreNames, IsOn, texts_in, texts_of};
ghost use Rattle.lint_texts.specs.InCode.{AddsNumbers, number_view};
ghost use Rattle.lint_texts.specs.NumberParts.{first_gone_in, if_number, numbers_beside, numbers_changed, passed_len, zeros_len};

use crate::addresses::scheme_len;
use crate::parts::plain_parts;
use crate::spotting::push_at_new;
use lint_findings::Remark;
use lint_markup::{Spotted, is_blank_byte};
use lint_nodes::{Names, skip};
use std::alloc::{AllocError, Global};

/// A number: its digits without zeros at the front, and the text from it on.
#[derive(Clone, Copy)]
pub struct Number<'t> {
    digits: &'t str,
    at: &'t str,
}

/// Adds that some texts have other numbers than the others, if as many are gone as are new, and one
/// that is gone is above 2.
///
/// # Errors
/// [`AllocError`] if memory runs out; nothing is added then.
pub fn push_changed_number(
    alloc: Global,
    texts: &[String],
    others: &[String],
    found: &mut Vec<Spotted>,
) -> Result<(), AllocError>
    ensures { OnOk result (AddsBeside n.numbers_beside texts.now others.now found.old found.new) }
{
    let theirs = numbers(alloc, others)?;
    if theirs.is_empty() {
        return Ok(());
    }
    let mine = numbers(alloc, texts)?;
    push_changed(alloc, &mine, &theirs, found)
}

fn push_changed(
    alloc: Global,
    mine: &[Number<'_>],
    theirs: &[Number<'_>],
    found: &mut Vec<Spotted>,
) -> Result<(), AllocError>
    ensures { OnOk result (Adds found.old found.new (numbers_changed mine.now theirs.now)) }
{
    let digits = digits_of(alloc, mine)?;
    let known = digits_of(alloc, theirs)?;
    push_beside(alloc, mine, &digits, &known, found)
}

/// Adds that numbers have other digits than those that are known.
fn push_beside(
    alloc: Global,
    mine: &[Number<'_>],
    digits: &Names<'_>,
    known: &Names<'_>,
    found: &mut Vec<Spotted>,
) -> Result<(), AllocError>
    requires digits { AreNames digits.now }
    requires known { AreNames known.now }
    ensures { OnOk result (Adds found.old found.new (numbers_beside mine.now digits.now known.now)) }
{
    let gone = without(alloc, &known.list, digits)?;
    let new = without(alloc, &digits.list, known)?;
    if are_changed(&gone, &new) {
        push_first_gone(alloc, &gone, known, mine, found)
    } else {
        Ok(())
    }
}

/// Whether as many are gone as are new, and one that is gone is above 2.
fn are_changed(gone: &[&str], new: &[&str]) -> bool
    ensures { result ≡ n.are_changed (texts gone.now) (texts new.now) }
{
    gone.len() == new.len() && any_great(gone)
}

fn any_great(numbers: &[&str]) -> bool
    ensures { result ≡ list_any n.is_great (texts numbers.now) }
{
    for number in numbers {
        if is_great(number) {
            return true;
        }
    }
    false
}

/// Adds the first of some numbers that are gone, at a new one.
fn push_first_gone(
    alloc: Global,
    gone: &[&str],
    known: &Names<'_>,
    mine: &[Number<'_>],
    found: &mut Vec<Spotted>,
) -> Result<(), AllocError>
    requires { AreNames known.now }
    ensures { OnOk result (Adds found.old found.new (first_gone_in known.now mine.now (texts gone.now))) }
{
    match gone {
        [first, ..] => {
            let remark = number_remark(alloc, first)?;
            push_at_new(alloc, first_new(known, mine), remark, found)
        }
        [] => Ok(()),
    }
}

fn first_new<'t>(known: &Names<'_>, mine: &[Number<'t>]) -> Option<&'t str>
    requires { AreNames known.now }
    ensures { option_map (λ s. s.now) result ≡ n.first_new (texts_in known.now) (map number_view mine.now) }
{
    for number in mine {
        if !known.has(number.digits) {
            return Some(number.at);
        }
    }
    None
}

fn number_remark(alloc: Global, digits: &str) -> Result<Remark, AllocError>
    ensures { IfOk result (IsOn (d.changed_number digits.now)) }
{
    let text = format!(in alloc; "the reference has `{digits}`")?;
    Ok(Remark::note("changed-number", text))
}

/// Those of some names that aren't among others.
fn without<'n>(
    alloc: Global,
    names: &[&'n str],
    others: &Names<'_>,
) -> Result<Vec<&'n str>, AllocError>
    requires { AreNames others.now }
    ensures { IfOk result (λ left. texts left.items ≡ without (texts names.now) (texts_in others.now)) }
{
    let mut left = Vec::new(alloc);
    for name in names {
        if !others.has(name) {
            left.push(*name)?;
        }
    }
    Ok(left)
}

/// Whether a number is above 2: smaller ones are often words.
fn is_great(digits: &str) -> bool
    ensures { result ≡ n.is_great digits.now }
{
    is_above_two(digits.as_bytes())
}

fn is_above_two(digits: &[u8]) -> bool
    ensures { result ≡ n.is_great digits.now }
{
    match digits {
        [] => false,
        [digit] => *digit > b'2',
        _ => true,
    }
}

fn digits_of<'t>(alloc: Global, numbers: &[Number<'t>]) -> Result<Names<'t>, AllocError>
    ensures { IfOk result (λ names. HasNames names (n.digits_of (map number_view numbers.now))) }
{
    let mut names = Names::new(alloc);
    for number in numbers {
        names.add(number.digits)?;
    }
    Ok(names)
}

fn numbers(alloc: Global, texts: &[String]) -> Result<Vec<Number<'_>>, AllocError>
    ensures { IfOk result (λ found. map number_view found.items ≡ n.numbers (texts_of texts.now)) }
{
    let mut found = Vec::new(alloc);
    for text in texts {
        push_numbers(alloc, text.as_str(), &mut found)?;
    }
    Ok(found)
}

/// Adds the numbers of a text.
fn push_numbers<'t>(
    alloc: Global,
    text: &'t str,
    found: &mut Vec<Number<'t>>,
) -> Result<(), AllocError>
    ensures { OnOk result (AddsNumbers found.old found.new (n.numbers_in text.now)) }
{
    if !has_digit(text.as_bytes()) {
        return Ok(());
    }
    let parts = plain_parts(alloc, text)?;
    push_each(&parts, found)
}

fn has_digit(text: &[u8]) -> bool
    ensures { result ≡ list_any is_digit text.now }
{
    for byte in text {
        if byte.is_ascii_digit() {
            return true;
        }
    }
    false
}

fn push_each<'t>(parts: &[&'t str], found: &mut Vec<Number<'t>>) -> Result<(), AllocError>
    ensures { OnOk result (AddsNumbers found.old found.new (flat_map (n.numbers_from false 0) (texts parts.now))) }
{
    for part in parts {
        push_part(part, found)?;
    }
    Ok(())
}

/// Adds the numbers of what stands between tags.
fn push_part<'t>(part: &'t str, found: &mut Vec<Number<'t>>) -> Result<(), AllocError>
    ensures { OnOk result (AddsNumbers found.old found.new (n.numbers_from false 0 part.now)) }
{
    let bytes = part.as_bytes();
    let mut place = 0;
    while place < bytes.len() {
        push_if_number(part, place, found)?;
        place += passed_len(skip(bytes, place));
    }
    Ok(())
}

/// Adds the number after so many bytes, if one is there.
#[tactic(auto, using(fluent_tokens::proofs::Counted::cuts))]
fn push_if_number<'t>(
    part: &'t str,
    place: usize,
    found: &mut Vec<Number<'t>>,
) -> Result<(), AllocError>
    ensures { OnOk result (AddsNumbers found.old found.new (if_number (drop place part.now))) }
{
    let len = digits_len(skip(part.as_bytes(), place));
    if len > 0 {
        let at = &part[place..];
        found.push(Number {
            digits: without_zeros(&at[..len]),
            at,
        })?;
    }
    Ok(())
}

/// How many bytes are passed: digits, an address, or else one byte.
fn passed_len(text: &[u8]) -> usize
    ensures { result ≡ passed_len text.now }
{
    let len = digits_len(text);
    if len > 0 {
        len
    } else {
        address_len(text).max(1)
    }
}

/// How many digits are at the front.
pub fn digits_len(text: &[u8]) -> usize
    ensures { result ≡ prefix_len is_digit text.now }
{
    text.iter().take_while(|byte| byte.is_ascii_digit()).count()
}

/// How many bytes of the address of a page are at the front.
fn address_len(text: &[u8]) -> usize
    ensures { result ≡ n.address_len text.now }
{
    if scheme_len(text) == 0 {
        0
    } else {
        word_len(text)
    }
}

fn word_len(text: &[u8]) -> usize
    ensures { result ≡ prefix_len (λ c. not (is_blank_byte c)) text.now }
{
    text.iter()
        .take_while(|byte| !is_blank_byte(**byte))
        .count()
}

/// Digits without the zeros at the front, but for the last one.
#[tactic(auto, using(fluent_tokens::proofs::Counted::cuts))]
fn without_zeros(digits: &str) -> &str
    ensures { result.now ≡ n.without_zeros digits.now }
{
    &digits[zeros_len(digits.as_bytes())..]
}

fn zeros_len(digits: &[u8]) -> usize
    ensures { result ≡ zeros_len digits.now }
{
    first_zeros_len(digits).min(digits.len().saturating_sub(1))
}

fn first_zeros_len(digits: &[u8]) -> usize
    ensures { result ≡ prefix_len (λ c. c == 48) digits.now }
{
    digits.iter().take_while(|byte| **byte == b'0').count()
}
