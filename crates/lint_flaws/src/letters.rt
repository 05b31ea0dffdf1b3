//! Remarks on the characters of a text.
#![tactic(auto)]

ghost use Rattle.std.specs.Prelude.{◌≡◌, IfOk, OnOk, map, option_map};
ghost use Rattle.lint_findings.specs.View.{remark_view};
ghost use Rattle.lint_findings.specs.Letters as l;
ghost use Rattle.lint_flaws.specs.Said.{AddsPlaced, IsSaid};
ghost use Rattle.lint_flaws.specs.Special.{has_special, is_plain, is_special};

use crate::adding::push_remark;
use crate::characters::{
    begins_spaceless, closes, is_control_byte, is_end, is_later_control, is_lost, is_mark,
    is_word_joiner, is_zero_width_space, opens, turns,
};
use crate::marks::{depth_after, is_left_open};
use lint_findings::Remark;
use lint_nodes::skip;
use std::alloc::{AllocError, Global};

/// The remarks on the characters of a text, as it is in a source. Each has its place in the
/// text.
///
/// # Errors
/// [`AllocError`] if memory runs out; nothing is kept.
pub fn letter_remarks(alloc: Global, text: &[u8]) -> Result<Vec<Remark>, AllocError>
    ensures { IfOk result (λ found. map remark_view found.items ≡ l.letters text.now) }
{
    if has_special(text) {
        special_remarks(alloc, text)
    } else {
        Ok(Vec::new(alloc))
    }
}

/// Whether a text has a character of which something may be said. Few texts have one.
fn has_special(text: &[u8]) -> bool
    ensures { result ≡ has_special text.now }
{
    for place in 0..text.len() {
        if !is_plain(text[place]) && is_special(skip(text, place)) {
            return true;
        }
    }
    false
}

/// Whether a byte begins no character of which something may be said.
fn is_plain(byte: u8) -> bool
    ensures { result ≡ is_plain byte }
{
    !(byte < 32 || (byte == 127 || (byte == 0xC2 || (byte == 0xE2 || byte == 0xEF))))
}

/// Whether something may be said of the character at the front.
fn is_special(text: &[u8]) -> bool
    ensures { result ≡ is_special text.now }
{
    is_later_control(text)
        || (is_control_byte(text)
            || (is_lost(text)
                || (is_zero_width_space(text)
                    || (is_word_joiner(text) || (is_mark(text) || (opens(text) || closes(text)))))))
}

/// The remarks on the characters of a text that may have one of which something may be said.
fn special_remarks(alloc: Global, text: &[u8]) -> Result<Vec<Remark>, AllocError>
    ensures { IfOk result (λ found. map remark_view found.items ≡ l.letters text.now) }
{
    let mut found = Vec::new(alloc);
    let mut begins = true;
    let mut depth = 0;
    for place in 0..text.len() {
        let rest = skip(text, place);
        push_placed(alloc, begins, depth, rest, place, &mut found)?;
        begins = begins_after(begins, text[place]);
        depth = depth_after(depth, rest);
    }
    Ok(found)
}

/// Adds what is said of the character at the front of a text, at its place.
fn push_placed(
    alloc: Global,
    begins: bool,
    depth: usize,
    text: &[u8],
    place: usize,
    found: &mut Vec<Remark>,
) -> Result<(), AllocError>
    ensures { OnOk result (AddsPlaced place (l.letter_at begins depth text.now)
        found.old found.new) }
{
    match letter_at(alloc, begins, depth, text)? {
        Some(remark) => push_remark(remark.within(place), found),
        None => Ok(()),
    }
}

/// Whether a text begins after a byte, if it does so before it or hasn't begun.
fn begins_after(before: bool, byte: u8) -> bool
    ensures { result ≡ l.begins_after before byte }
{
    byte == b'\n' || (byte == b']' || (byte == b'"' || (before && byte == b' ')))
}

/// The remark on the character at the front of a text, if there is one.
fn letter_at(
    alloc: Global,
    begins: bool,
    depth: usize,
    text: &[u8],
) -> Result<Option<Remark>, AllocError>
    ensures { IfOk result (IsSaid (l.letter_at begins depth text.now)) }
{
    if let Some(byte) = control_of(text) {
        return Ok(Some(control_remark(alloc, byte)?));
    }
    if is_lost(text) {
        return Ok(Some(lost_remark(alloc)?));
    }
    if let Some(name) = unseen_name(begins, text) {
        return Ok(Some(unseen_remark(alloc, name)?));
    }
    match direction_words(begins, depth, text) {
        Some(words) => Ok(Some(direction_remark(alloc, words)?)),
        None => Ok(None),
    }
}

/// The last byte of the number of the control character at the front, if one is there.
fn control_of(text: &[u8]) -> Option<u8>
    ensures { result ≡ l.control_of text.now }
{
    if is_later_control(text) {
        second_byte(text)
    } else if is_control_byte(text) {
        first_byte(text)
    } else {
        None
    }
}

fn second_byte(text: &[u8]) -> Option<u8>
    ensures { result ≡ l.second_byte text.now }
{
    match text {
        [_, byte, ..] => Some(*byte),
        _ => None,
    }
}

fn first_byte(text: &[u8]) -> Option<u8>
    ensures { result ≡ l.first_byte text.now }
{
    match text {
        [byte, ..] => Some(*byte),
        [] => None,
    }
}

fn control_remark(alloc: Global, byte: u8) -> Result<Remark, AllocError>
    ensures { IfOk result (λ said. remark_view said ≡ l.control_remark byte) }
{
    let text = format!(in alloc; "U+00{byte:02X} is a control character")?;
    Ok(Remark::warning("control-character", text))
}

fn lost_remark(alloc: Global) -> Result<Remark, AllocError>
    ensures { IfOk result (λ said. remark_view said ≡ l.lost_remark) }
{
    let text = format!(in alloc; "U+FFFD stands for a character that was lost")?;
    Ok(Remark::warning("replacement-character", text))
}

fn unseen_remark(alloc: Global, name: &str) -> Result<Remark, AllocError>
    ensures { IfOk result (λ said. remark_view said ≡ l.unseen_remark name.now) }
{
    let text = format!(in alloc; "{name} isn't seen")?;
    Ok(Remark::warning("zero-width", text))
}

fn direction_remark(alloc: Global, words: &str) -> Result<Remark, AllocError>
    ensures { IfOk result (λ said. remark_view said ≡ l.direction_remark words.now) }
{
    let text = String::from_str(alloc, words)?;
    Ok(Remark::warning("unbalanced-direction", text))
}

/// The name of a character without width that is inside of a text, if one is at the front.
fn unseen_name(begins: bool, text: &[u8]) -> Option<&'static str>
    ensures { option_map (λ s. s.now) result ≡ l.unseen_name begins text.now }
{
    if begins || is_end(skip(text, 3)) {
        None
    } else {
        zero_width_name(text)
    }
}

/// The name of the character without width at the front, if one is there that doesn't belong to
/// spelling.
fn zero_width_name(text: &[u8]) -> Option<&'static str>
    ensures { option_map (λ s. s.now) result ≡ l.zero_width_name text.now }
{
    if is_zero_width_space(text) && !begins_spaceless(skip(text, 3)) {
        Some("U+200B ZERO WIDTH SPACE")
    } else if is_word_joiner(text) {
        Some("U+2060 WORD JOINER")
    } else if is_mark(text) {
        Some("U+FEFF ZERO WIDTH NO-BREAK SPACE")
    } else {
        None
    }
}

/// The mistake in the mark of direction at the front, in words, if there is one.
fn direction_words(begins: bool, depth: usize, text: &[u8]) -> Option<&'static str>
    ensures { option_map (λ s. s.now) result ≡ l.direction_words begins depth text.now }
{
    if turns(text) {
        Some("this mark turns round what follows")
    } else if opens(text) && (!begins && is_left_open(depth, text)) {
        Some("nothing ends this mark of direction")
    } else if closes(text) && depth == 0 {
        Some("this mark of direction ends nothing")
    } else {
        None
    }
}
