//! Writes the parts of a number's text.
ghost use Rattle.std.specs.Prelude.{◌≡◌, ◌+◌, ◌-◌, ◌*◌, ◌/◌, ◌%◌, ◌^◌, ◌<◌, ◌≤◌, replicate, decimal};
ghost use Rattle.fluent_numerals.specs.Written.{Adds, IsText};
ghost use Rattle.fluent_numerals.specs.Views.{forms_view, form_view, pattern_view};
ghost use Rattle.fluent_numerals.specs.Text.{piece_text, affix_text, native, grouped, closes_group, integer_text, padded, fraction_text, fraction_digits, natives, whole_text};

use crate::currency::{begins_with_sign, ends_with_sign};
use crate::forms::{Form, Forms};
use crate::pattern::{Pattern, Piece};
use crate::rounding::first_digit;
use itoa::Buffer;
use std::alloc::{AllocError, Global};

/// Writes what stands before or after the digits.
pub(crate) fn push_affix(
    text: &mut String,
    pieces: &[Piece],
    forms: &Forms,
    symbol: &str,
) -> Result<(), AllocError>
    ensures { Adds result text.old text.new (affix_text (forms_view forms.now) symbol.now pieces.now) }
{
    for piece in pieces {
        push_piece(text, piece, forms, symbol)?;
    }
    Ok(())
}

/// Writes a piece of what stands before or after the digits.
fn push_piece(
    text: &mut String,
    piece: &Piece,
    forms: &Forms,
    symbol: &str,
) -> Result<(), AllocError>
    ensures { Adds result text.old text.new (piece_text (forms_view forms.now) symbol.now piece.now) }
{
    match *piece {
        Piece::Nothing => Ok(()),
        Piece::Literal(character) => text.push(character),
        Piece::Minus => text.push_str(forms.minus),
        Piece::PercentSign => text.push_str(forms.percent_sign),
        Piece::Currency => text.push_str(symbol),
        Piece::CurrencyBeforeDigits => {
            text.push_str(symbol)?;
            if !ends_with_sign(symbol) {
                text.push('\u{a0}')?;
            }
            Ok(())
        }
        Piece::CurrencyAfterDigits => {
            if !begins_with_sign(symbol) {
                text.push('\u{a0}')?;
            }
            text.push_str(symbol)
        }
    }
}

/// Writes what stands before the point, with zeros before it up to a least count of digits.
#[tactic(auto, using(crate::proofs::Steps::padded_enough))]
pub(crate) fn push_whole(
    text: &mut String,
    alloc: Global,
    whole: u128,
    least: usize,
    grouping: bool,
    forms: &Forms,
    form: &Form,
) -> Result<(), AllocError>
    ensures { Adds result text.old text.new
        (whole_text (forms_view forms.now) (form_view form.now) grouping least whole) }
{
    let mut buffer = Buffer::new();
    let digits = buffer.format(whole);
    if least <= digits.len() {
        return push_integer(text, digits.as_bytes(), grouping, forms, form);
    }
    let padded = padded_digits(alloc, digits, least)?;
    push_integer(text, padded.as_bytes(), grouping, forms, form)
}

/// Writes the digits before the point.
fn push_integer(
    text: &mut String,
    digits: &[u8],
    grouping: bool,
    forms: &Forms,
    form: &Form,
) -> Result<(), AllocError>
    ensures { Adds result text.old text.new (integer_text (forms_view forms.now) (form_view form.now) grouping digits.now) }
{
    let pattern = form.pattern.pattern();
    let enough = usize::from(pattern.primary) + usize::from(forms.least_grouped);
    let is_grouped = grouping && digits.len() >= enough;
    push_grouped(
        text,
        digits,
        is_grouped,
        form.group,
        &pattern,
        &forms.digits,
    )
}

/// Digits with zeros before them up to a least count.
fn padded_digits(alloc: Global, digits: &str, least: usize) -> Result<String, AllocError>
    ensures { IsText result (padded least digits.now) }
{
    let mut text = String::with_capacity(alloc, digits.len().max(least))?;
    push_zeros(&mut text, least.saturating_sub(digits.len()))?;
    text.push_str(digits)?;
    Ok(text)
}

/// Writes this many zeros.
fn push_zeros(text: &mut String, count: usize) -> Result<(), AllocError>
    ensures { Adds result text.old text.new (replicate count 48) }
{
    for _ in 0..count {
        text.push('0')?;
    }
    Ok(())
}

/// Writes digits with a sign between groups of them.
fn push_grouped(
    text: &mut String,
    digits: &[u8],
    is_grouped: bool,
    group: char,
    pattern: &Pattern,
    glyphs: &[char; 10],
) -> Result<(), AllocError>
    ensures { Adds result text.old text.new (grouped glyphs.now is_grouped group (pattern_view pattern.now) digits.now) }
{
    for (place, &digit) in digits.iter().enumerate() {
        push_digit(text, digit, glyphs)?;
        if is_grouped && closes_group(pattern, digits.len() - place - 1) {
            text.push(group)?;
        }
    }
    Ok(())
}

/// Whether a group ends before the last digits, of which there are this many.
fn closes_group(pattern: &Pattern, rest: usize) -> bool
    ensures { result ≡ closes_group (pattern_view pattern.now) rest }
{
    let primary = usize::from(pattern.primary);
    let secondary = usize::from(pattern.secondary);
    secondary > 0 && rest >= primary && (rest - primary) % secondary == 0
}

/// Writes a digit, an ASCII byte, as the locale writes it.
fn push_digit(text: &mut String, digit: u8, glyphs: &[char; 10]) -> Result<(), AllocError>
    ensures { Adds result text.old text.new (native glyphs.now digit) }
{
    match glyphs.get(usize::from(digit.saturating_sub(b'0'))) {
        Some(native) => text.push(*native),
        None => text.push(char::from(digit)),
    }
}

/// Writes the point and the digits after it, if there are any.
pub(crate) fn push_fraction(
    text: &mut String,
    units: u64,
    places: usize,
    least: usize,
    forms: &Forms,
    form: &Form,
) -> Result<(), AllocError>
    requires few { places ≤ 18 }
    requires below { units < 10 ^ places }
    ensures { Adds result text.old text.new (fraction_text (forms_view forms.now) (form_view form.now) places least units) }
{
    if units == 0 && least == 0 {
        return Ok(());
    }
    text.push(form.decimal)?;
    push_fraction_digits(text, units, places, least, &forms.digits)
}

/// Writes the digits after the point, down to the last that isn't zero, and at least so many.
fn push_fraction_digits(
    text: &mut String,
    fraction: u64,
    places: usize,
    least: usize,
    glyphs: &[char; 10],
) -> Result<(), AllocError>
    requires few { places ≤ 18 }
    requires below { fraction < 10 ^ places }
    ensures { Adds result text.old text.new (natives glyphs.now (fraction_digits places least fraction)) }
{
    if fraction == 0 {
        return push_native_zeros(text, least, glyphs);
    }
    let (digit, rest) = first_digit(fraction, places);
    push_digit(text, digit, glyphs)?;
    push_fraction_digits(text, rest, places - 1, least.saturating_sub(1), glyphs)
}

/// Writes this many zeros as the locale writes them.
fn push_native_zeros(text: &mut String, count: usize, glyphs: &[char; 10]) -> Result<(), AllocError>
    ensures { Adds result text.old text.new (natives glyphs.now (replicate count 48)) }
{
    for _ in 0..count {
        push_digit(text, b'0', glyphs)?;
    }
    Ok(())
}
