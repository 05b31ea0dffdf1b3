//! Characters that come of UTF-8 which was read as Windows-1252.
#![tactic(auto)]

ghost use Rattle.std.specs.Prelude.{◌≡◌, IfOk, IfSome, OnOk, Some, option_map};
ghost use Rattle.std.specs.Char.{encode_utf8};
ghost use Rattle.lint_findings.specs.View.{remark_view};
ghost use Rattle.lint_findings.specs.Encodings as e;
ghost use Rattle.lint_flaws.specs.Letters.{AddsRemarks, IsCharacter, IsFirstSpelled, IsSpelled, single_view, spelled_view};

use fluent_tokens::begins_with;
use lint_findings::Remark;
use lint_nodes::skip;
use memchr::memchr;
use std::alloc::{AllocError, Global};

/// The byte that Windows-1252 has for a character, and how many bytes the character has.
#[derive(Clone, Copy)]
pub struct Single {
    byte: u32,
    len: u8,
}

/// The bytes that a character is in UTF-8, of which the last may be missing, and how many bytes of
/// the text spell them.
#[derive(Clone, Copy)]
pub struct Spelled {
    first: u32,
    second: u32,
    third: Option<u32>,
    len: usize,
}

/// Adds the first characters of a text that spell another character in a wrong encoding.
///
/// # Errors
/// [`AllocError`] if memory runs out; nothing is added then.
pub fn push_wrong_encoding(
    alloc: Global,
    text: &[u8],
    found: &mut Vec<Remark>,
) -> Result<(), AllocError>
    ensures { OnOk result (AddsRemarks found.old found.new (e.wrong_encodings text.now)) }
{
    match first_spelled(text) {
        Some((place, spelled)) => push_spelled(alloc, place, spelled, found),
        None => Ok(()),
    }
}

/// Adds that these characters spell another one, after so many bytes.
fn push_spelled(
    alloc: Global,
    place: usize,
    spelled: Spelled,
    found: &mut Vec<Remark>,
) -> Result<(), AllocError>
    requires { IsCharacter spelled }
    ensures { OnOk result (AddsRemarks found.old found.new (e.said place (Some (spelled_view spelled)))) }
{
    let remark = spelled_remark(alloc, spelled)?;
    Ok(found.push(remark.within(place))?)
}

/// The first characters of a text that spell another one, and how many bytes stand before them.
fn first_spelled(text: &[u8]) -> Option<(usize, Spelled)>
    ensures first { IsFirstSpelled text.now result }
    ensures is_character { IfSome result (λ found. IsCharacter found.1) }
{
    let mut place = 0;
    while let Some(next) = memchr(0xC3, skip(text, place)) {
        let at = place + next;
        if let Some(spelled) = spelled_at(skip(text, at)) {
            return Some((at, spelled));
        }
        place = at + 1;
    }
    None
}

fn spelled_remark(alloc: Global, spelled: Spelled) -> Result<Remark, AllocError>
    requires { IsCharacter spelled }
    ensures { IfOk result (λ said. remark_view said ≡ e.spelled_remark (spelled_view spelled)) }
{
    let character = character_of(spelled);
    let words = format!(in alloc; "`{character}` is in a wrong encoding")?;
    Ok(Remark::warning("wrong-encoding", words))
}

/// The character of these bytes.
fn character_of(spelled: Spelled) -> char
    requires { IsCharacter spelled }
    ensures { encode_utf8 result ≡ (spelled_view spelled).bytes }
{
    let (first, second) = (spelled.first, spelled.second);
    let number = match spelled.third {
        None => first % 32 * 64 + second % 64,
        Some(third) => first % 16 * 4096 + second % 64 * 64 + third % 64,
    };
    char::from_u32(number).unwrap_or('\u{FFFD}')
}

/// The character that those at the front spell in a wrong encoding, by its bytes.
fn spelled_at(text: &[u8]) -> Option<Spelled>
    ensures { option_map spelled_view result ≡ e.spelled_at text.now }
{
    if !begins_with(text, 0xC3) {
        return None;
    }
    let Some(first) = single_at(text) else {
        return None;
    };
    let rest = skip(text, usize::from(first.len));
    let Some(second) = single_at(rest) else {
        return None;
    };
    if first.byte != 0xE2 {
        return letter_of(first, second);
    }
    match single_at(skip(rest, usize::from(second.len))) {
        Some(third) => sign_of(first, second, third),
        None => None,
    }
}

/// The character of U+00A0 to U+017F whose UTF-8 these bytes are, if there is one.
fn letter_of(first: Single, second: Single) -> Option<Spelled>
    ensures { option_map spelled_view result ≡ e.letter_of (single_view first) (single_view second) }
{
    match (first.byte, second.byte) {
        (0xC2, 0xA0..=0xBF) | (0xC3..=0xC5, 0x80..=0xBF) => Some(Spelled {
            first: first.byte,
            second: second.byte,
            third: None,
            len: usize::from(first.len) + usize::from(second.len),
        }),
        _ => None,
    }
}

/// The character of U+2000 to U+206F, U+20AC or U+2122 whose UTF-8 these bytes are, if there is
/// one.
fn sign_of(first: Single, second: Single, third: Single) -> Option<Spelled>
    ensures { IsSpelled (e.sign_of (single_view first) (single_view second)
        (Some (single_view third))) result }
{
    match (second.byte, third.byte) {
        (0x80, 0x80..=0xBF) | (0x81, 0x80..=0xAF) | (0x82, 0xAC) | (0x84, 0xA2) => Some(Spelled {
            first: first.byte,
            second: second.byte,
            third: Some(third.byte),
            len: usize::from(first.len) + usize::from(second.len) + usize::from(third.len),
        }),
        _ => None,
    }
}

/// The byte of the character at the front, if it has one above 0x7F.
fn single_at(text: &[u8]) -> Option<Single>
    ensures { option_map single_view result ≡ e.single_at text.now }
{
    match text {
        [first @ 0..=0xDF, second, ..] => of_two(*first, *second),
        [0xE2, second, third, ..] => of_three(*second, *third),
        _ => None,
    }
}

fn of_two(first: u8, second: u8) -> Option<Single>
    ensures { option_map single_view result ≡ e.of_two first second }
{
    match first {
        0xC2 => Some(made_of(u32::from(second), 2)),
        0xC3 => Some(made_of(u32::from(second) + 64, 2)),
        0xC5 => of_letter(second),
        0xC6 if second == 0x92 => Some(made_of(0x83, 2)),
        0xCB if second == 0x86 => Some(made_of(0x88, 2)),
        0xCB if second == 0x9C => Some(made_of(0x98, 2)),
        _ => None,
    }
}

/// The byte of a character of U+0140 to U+017F, by the last byte of its UTF-8.
fn of_letter(last: u8) -> Option<Single>
    ensures { option_map single_view result ≡ e.of_two 0xC5 last }
{
    match last {
        0x92 => Some(made_of(0x8C, 2)),
        0x93 => Some(made_of(0x9C, 2)),
        0xA0 => Some(made_of(0x8A, 2)),
        0xA1 => Some(made_of(0x9A, 2)),
        0xB8 => Some(made_of(0x9F, 2)),
        0xBD => Some(made_of(0x8E, 2)),
        0xBE => Some(made_of(0x9E, 2)),
        _ => None,
    }
}

/// The byte of a character whose UTF-8 has these two bytes after 0xE2.
fn of_three(second: u8, third: u8) -> Option<Single>
    ensures { option_map single_view result ≡ e.of_three 0xE2 second third }
{
    match (second, third) {
        (0x80, last) => of_sign(last),
        (0x82, 0xAC) => Some(made_of(0x80, 3)),
        (0x84, 0xA2) => Some(made_of(0x99, 3)),
        _ => None,
    }
}

/// The byte of a character of U+2000 to U+203F, by the last byte of its UTF-8.
fn of_sign(last: u8) -> Option<Single>
    ensures { option_map single_view result ≡ e.of_sign last }
{
    match last {
        0x93 => Some(made_of(0x96, 3)),
        0x94 => Some(made_of(0x97, 3)),
        0x98 => Some(made_of(0x91, 3)),
        0x99 => Some(made_of(0x92, 3)),
        0x9A => Some(made_of(0x82, 3)),
        0x9C => Some(made_of(0x93, 3)),
        0x9D => Some(made_of(0x94, 3)),
        0x9E => Some(made_of(0x84, 3)),
        0xA0 => Some(made_of(0x86, 3)),
        0xA1 => Some(made_of(0x87, 3)),
        0xA2 => Some(made_of(0x95, 3)),
        0xA6 => Some(made_of(0x85, 3)),
        0xB0 => Some(made_of(0x89, 3)),
        0xB9 => Some(made_of(0x8B, 3)),
        0xBA => Some(made_of(0x9B, 3)),
        _ => None,
    }
}

fn made_of(byte: u32, len: u8) -> Single
    ensures { single_view result ≡ record { byte = byte; len = len } }
{
    Single { byte, len }
}
