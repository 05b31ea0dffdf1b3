//! Words with letters of two scripts.
#![tactic(auto)]

ghost use Rattle.std.specs.Prelude.{◌≡◌, ◌+◌, ◌<◌, ◌^◌, IfOk, OnOk, drop, false, is_some, length, map, not, option_map};
ghost use Rattle.std.specs.List.{list_any, prefix_len};
ghost use Rattle.fluent_grammar.specs.Words.{is_letter};
ghost use Rattle.lint_findings.specs.View.{remark_view};
ghost use Rattle.lint_findings.specs.Scripts as s;
ghost use Rattle.lint_flaws.specs.Special.{begins_other};
ghost use Rattle.lint_flaws.specs.Letters.{AddsRemarks, AreWithin, IsFirstLetter, first_in, letter_view, mixed_in, script_view, word_if_begins};

use lint_findings::Remark;
use lint_nodes::skip;
use std::alloc::{AllocError, Global};

/// A script whose letters look like those of the others.
#[derive(Clone, Copy)]
pub enum Script {
    Latin,
    Greek,
    Cyrillic,
}

/// A letter with its number, and how many bytes of the word stand before it.
#[derive(Clone, Copy)]
pub struct Letter {
    script: Script,
    number: u16,
    before: usize,
}

/// Adds the words of a text that have letters of two scripts, of Latin, Greek and Cyrillic.
///
/// # Errors
/// [`AllocError`] if memory runs out; some may be added then.
pub fn push_mixed_words(
    alloc: Global,
    text: &[u8],
    found: &mut Vec<Remark>,
) -> Result<(), AllocError>
    ensures { OnOk result (AddsRemarks found.old found.new (s.mixed_words text.now)) }
{
    if has_other_script(text) {
        push_words(alloc, text, found)
    } else {
        Ok(())
    }
}

/// Whether a text may have letters that are Greek or Cyrillic.
fn has_other_script(text: &[u8]) -> bool
    ensures { result ≡ list_any begins_other text.now }
{
    for byte in text {
        if matches!(*byte, 0xCD..=0xD4) {
            return true;
        }
    }
    false
}

fn push_words(alloc: Global, text: &[u8], found: &mut Vec<Remark>) -> Result<(), AllocError>
    ensures { OnOk result (AddsRemarks found.old found.new (s.words_from 0 false text.now)) }
{
    let mut within = false;
    for place in 0..text.len() {
        let rest = skip(text, place);
        push_if_begins(alloc, within, place, rest, found)?;
        within = goes_on(within, rest);
    }
    Ok(())
}

/// Adds what is said of the word at the front, which this many bytes stand before, if it begins
/// there.
fn push_if_begins(
    alloc: Global,
    within: bool,
    place: usize,
    text: &[u8],
    found: &mut Vec<Remark>,
) -> Result<(), AllocError>
    requires { place + length text.now < 2 ^ 64 }
    ensures { OnOk result (AddsRemarks found.old found.new (word_if_begins within place text.now)) }
{
    if within || is_ascii_word(text) {
        return Ok(());
    }
    push_word(alloc, place, text, found)
}

/// Whether all letters of the word at the front are ASCII.
fn is_ascii_word(text: &[u8]) -> bool
    ensures { result ≡ not (is_some (s.script_at (drop (prefix_len is_letter text.now) text.now))) }
{
    script_at(skip(text, letters_len(text))).is_none()
}

fn letters_len(text: &[u8]) -> usize
    ensures { result ≡ prefix_len is_letter text.now }
{
    text.iter()
        .take_while(|byte| byte.is_ascii_alphabetic())
        .count()
}

/// Whether a word goes on after the byte at the front.
fn goes_on(within: bool, text: &[u8]) -> bool
    ensures { result ≡ s.goes_on within text.now }
{
    match text {
        [0x80..=0xBF, ..] => within,
        _ => script_at(text).is_some(),
    }
}

/// The script of the letter at the front.
fn script_at(text: &[u8]) -> Option<Script>
    ensures { option_map script_view result ≡ s.script_at text.now }
{
    match text {
        [letter, ..] if letter.is_ascii_alphabetic() => Some(Script::Latin),
        [first, second, ..] => pair_script(*first, *second),
        _ => None,
    }
}

/// The script of the letter of these two bytes, if it is one.
fn pair_script(first: u8, second: u8) -> Option<Script>
    ensures { option_map script_view result ≡ s.pair_script first second }
{
    if is_later_latin(first, second) {
        Some(Script::Latin)
    } else if is_greek(first, second) {
        Some(Script::Greek)
    } else if is_cyrillic(first, second) {
        Some(Script::Cyrillic)
    } else {
        None
    }
}

/// Whether these bytes are a letter of U+00C0 to U+024F: not the signs of times and divided.
fn is_later_latin(first: u8, second: u8) -> bool
    ensures { result ≡ s.is_later_latin first second }
{
    match first {
        0xC3 => !matches!(second, 0x97 | 0xB7),
        0xC4..=0xC8 => true,
        0xC9 => second <= 0x8F,
        _ => false,
    }
}

/// Whether these bytes are one of U+0370 to U+03FF, but for marks.
fn is_greek(first: u8, second: u8) -> bool
    ensures { result ≡ s.is_greek first second }
{
    match first {
        0xCD => second >= 0xB0 && second != 0xBE,
        0xCE => !matches!(second, 0x84..=0x87),
        0xCF => true,
        _ => false,
    }
}

/// Whether these bytes are one of U+0400 to U+052F, but for marks.
fn is_cyrillic(first: u8, second: u8) -> bool
    ensures { result ≡ s.is_cyrillic first second }
{
    match first {
        0xD2 => !matches!(second, 0x82..=0x89),
        0xD0 | 0xD1 | 0xD3 => true,
        0xD4 => second <= 0xAF,
        _ => false,
    }
}

/// Adds what is said of the word at the front, which this many bytes stand before.
fn push_word(
    alloc: Global,
    place: usize,
    text: &[u8],
    found: &mut Vec<Remark>,
) -> Result<(), AllocError>
    requires { place + length text.now < 2 ^ 64 }
    ensures { OnOk result (AddsRemarks found.old found.new (s.word_remarks place (s.letters_at 0 text.now))) }
{
    let letters = letters_of(alloc, text)?;
    push_mixed(
        alloc,
        place,
        Script::Cyrillic,
        Script::Latin,
        &letters,
        found,
    )?;
    push_mixed(alloc, place, Script::Greek, Script::Latin, &letters, found)?;
    push_mixed(
        alloc,
        place,
        Script::Cyrillic,
        Script::Greek,
        &letters,
        found,
    )
}

/// The letters of the word at the front.
fn letters_of(alloc: Global, text: &[u8]) -> Result<Vec<Letter>, AllocError>
    ensures { IfOk result (λ letters. map letter_view letters.items ≡ s.letters_at 0 text.now) }
{
    let mut letters = Vec::new(alloc);
    let mut before = 0;
    while let Some((letter, len)) = letter_at(before, skip(text, before)) {
        letters.push(letter)?;
        before += len;
    }
    Ok(letters)
}

/// The letter at the front, which this many bytes of the word stand before, and how many it has.
fn letter_at(before: usize, text: &[u8]) -> Option<(Letter, usize)>
    ensures { IsFirstLetter before text.now result }
{
    match text {
        [first, ..] if first.is_ascii_alphabetic() => {
            let letter = Letter {
                script: Script::Latin,
                number: u16::from(*first),
                before,
            };
            Some((letter, 1))
        }
        [first, second, ..] => match pair_script(*first, *second) {
            Some(script) => {
                let number = pair_number(*first, *second);
                let letter = Letter {
                    script,
                    number,
                    before,
                };
                Some((letter, 2))
            }
            None => None,
        },
        _ => None,
    }
}

/// The number of the letter of these two bytes.
fn pair_number(first: u8, second: u8) -> u16
    ensures { result ≡ s.pair_number first second }
{
    u16::from(first % 32) * 64 + u16::from(second % 64)
}

/// Adds the remark on a word that has letters of both scripts: at the first letter of the rarer
/// one.
fn push_mixed(
    alloc: Global,
    place: usize,
    one: Script,
    other: Script,
    letters: &[Letter],
    found: &mut Vec<Remark>,
) -> Result<(), AllocError>
    requires { AreWithin place letters.now }
    ensures { OnOk result (AddsRemarks found.old found.new (mixed_in place one other letters.now)) }
{
    let (ones, others) = (count(one, letters), count(other, letters));
    if ones == 0 || others == 0 {
        return Ok(());
    }
    if ones <= others {
        push_first(alloc, place, one, other, letters, found)
    } else {
        push_first(alloc, place, other, one, letters, found)
    }
}

/// Adds that the first letter of a script stands in a word of another.
fn push_first(
    alloc: Global,
    place: usize,
    rare: Script,
    other: Script,
    letters: &[Letter],
    found: &mut Vec<Remark>,
) -> Result<(), AllocError>
    requires { AreWithin place letters.now }
    ensures { OnOk result (AddsRemarks found.old found.new (first_in place rare other letters.now)) }
{
    match first_letter(rare, letters) {
        Some(letter) => {
            let remark = letter_remark(alloc, letter, other)?;
            Ok(found.push(remark.within(place + letter.before))?)
        }
        None => Ok(()),
    }
}

fn count(script: Script, letters: &[Letter]) -> usize
    ensures { result ≡ s.count (script_view script) (map letter_view letters.now) }
{
    let mut count = 0;
    for letter in letters {
        if is_same(script, letter.script) {
            count += 1;
        }
    }
    count
}

fn first_letter(script: Script, letters: &[Letter]) -> Option<Letter>
    ensures { option_map letter_view result ≡ s.first_letter (script_view script) (map letter_view letters.now) }
{
    for letter in letters {
        if is_same(script, letter.script) {
            return Some(*letter);
        }
    }
    None
}

fn is_same(script: Script, other: Script) -> bool
    ensures { result ≡ s.is_same (script_view script) (script_view other) }
{
    matches!(
        (script, other),
        (Script::Latin, Script::Latin)
            | (Script::Greek, Script::Greek)
            | (Script::Cyrillic, Script::Cyrillic)
    )
}

/// The remark that a letter is in a word of another script.
fn letter_remark(alloc: Global, letter: Letter, other: Script) -> Result<Remark, AllocError>
    ensures { IfOk result (λ said. remark_view said ≡ s.letter_remark (letter_view letter) (script_view other)) }
{
    let (high, low) = (letter.number / 256, letter.number % 256);
    let (script, other) = (script_words(letter.script), script_words(other));
    let text = format!(in alloc; "U+{high:02X}{low:02X} is a {script} letter in a {other} word")?;
    Ok(Remark::warning("mixed-scripts", text))
}

fn script_words(script: Script) -> &'static str
    ensures { result.now ≡ s.script_words (script_view script) }
{
    match script {
        Script::Latin => "Latin",
        Script::Greek => "Greek",
        Script::Cyrillic => "Cyrillic",
    }
}
