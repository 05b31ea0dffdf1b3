//! Words that stand twice in a row in texts beside those of the reference.
#![tactic(auto, using(fluent_tokens::proofs::Counted::cuts))]

ghost use Rattle.std.specs.Prelude.{◌≡◌, ◌<◌, OnOk, Some, drop, length, map, option_map, take, true};
ghost use Rattle.std.specs.List.{list_any};
ghost use Rattle.std.specs.Str.{str_eq_ignore_ascii_case};
ghost use Rattle.fluent_grammar.specs.Words as w;
ghost use Rattle.lint_findings.specs.Doubled as t;
ghost use Rattle.lint_findings.specs.Typing.{first_found};
ghost use Rattle.lint_markup.specs.InCode.{Adds, AddsBeside, texts_of};

use crate::spotting::push_note_at;
use fluent_tokens::begins_with;
use lint_markup::{Spotted, is_blank_byte};
use lint_nodes::skip;
use memchr::memchr;
use std::alloc::{AllocError, Global};

/// Words that some languages rightly say twice.
const SAID_TWICE: [&str; 15] = [
    "das", "dat", "dem", "den", "der", "det", "die", "do", "je", "nous", "que", "se", "sie",
    "that", "vous",
];

/// Adds that a word of a text stands there twice, if no word of the reference does.
///
/// # Errors
/// [`AllocError`] if memory runs out; nothing is added then.
pub fn push_doubled_word(
    alloc: Global,
    texts: &[String],
    others: &[String],
    found: &mut Vec<Spotted>,
) -> Result<(), AllocError>
    ensures { OnOk result (AddsBeside t.doubled_words texts.now others.now found.old found.new) }
{
    match first_doubled(texts) {
        Some(at) => push_unless_doubled(alloc, at, others, found),
        None => Ok(()),
    }
}

/// Adds the note at a word that stands twice, if no text of the reference has such a word.
fn push_unless_doubled(
    alloc: Global,
    at: &str,
    others: &[String],
    found: &mut Vec<Spotted>,
) -> Result<(), AllocError>
    ensures { OnOk result (Adds found.old found.new
        (t.unless_doubled (texts_of others.now) (Some at.now))) }
{
    if have_doubled(others) {
        Ok(())
    } else {
        push_note_at(alloc, at, "doubled-word", "a word stands here twice", found)
    }
}

fn have_doubled(texts: &[String]) -> bool
    ensures { result ≡ list_any t.has_doubled (texts_of texts.now) }
{
    for text in texts {
        if doubled_in(text.as_str()).is_some() {
            return true;
        }
    }
    false
}

/// From the first word on that stands twice in one of some texts.
fn first_doubled(texts: &[String]) -> Option<&str>
    ensures { option_map (λ s. s.now) result ≡ first_found t.doubled_in (texts_of texts.now) }
{
    for text in texts {
        if let Some(at) = doubled_in(text.as_str()) {
            return Some(at);
        }
    }
    None
}

/// From the first word of a text on that stands twice.
fn doubled_in(text: &str) -> Option<&str>
    ensures { option_map (λ s. s.now) result ≡ t.doubled_in text.now }
{
    if is_doubled(text.as_bytes()) {
        Some(text)
    } else {
        doubled_later(text)
    }
}

/// The same of words after a space.
fn doubled_later(text: &str) -> Option<&str>
    ensures { option_map (λ s. s.now) result ≡ t.doubled_later text.now }
{
    let mut rest = text;
    while let Some(place) = memchr(b' ', rest.as_bytes()) {
        rest = after_space(&rest[place..]);
        if is_doubled(rest.as_bytes()) {
            return Some(rest);
        }
    }
    None
}

/// What follows the space at the front.
fn after_space(text: &str) -> &str
    requires { w.begins_with w.space text.now ≡ true }
    ensures rest { result.now ≡ drop 1 text.now }
    ensures shorter { length result.now < length text.now }
{
    &text[1..]
}

/// Whether the word at the front stands there twice.
fn is_doubled(text: &[u8]) -> bool
    ensures { result ≡ t.is_doubled text.now }
{
    let len = word_len(text);
    goes_on_with(first(text, len), skip(text, len))
}

/// The first bytes of a text, or all if there are fewer.
fn first(text: &[u8], count: usize) -> &[u8]
    ensures { result.now ≡ take count text.now }
{
    &text[..count.min(text.len())]
}

fn word_len(text: &[u8]) -> usize
    ensures { result ≡ t.word_len text.now }
{
    text.iter().take_while(|byte| is_word_byte(**byte)).count()
}

/// Whether a byte is a letter, or belongs to a character beyond ASCII that is mostly no sign.
fn is_word_byte(byte: u8) -> bool
    ensures { result ≡ t.is_word_byte byte }
{
    byte.is_ascii_alphabetic() || matches!(byte, 0x80..=0xC1 | 0xC3..=0xE1 | 0xE3..=0xEE)
}

/// Whether after a word and one space the word is there again.
fn goes_on_with(word: &[u8], rest: &[u8]) -> bool
    ensures { result ≡ t.goes_on_with word.now rest.now }
{
    begins_with(rest, b' ') && (is_again(word, skip(rest, 1)) && counts_twice(word))
}

/// Whether a word is at the front, in capital or small letters, and nothing of it goes on.
fn is_again(word: &[u8], text: &[u8]) -> bool
    ensures { result ≡ t.is_again word.now text.now }
{
    first(text, word.len()).eq_ignore_ascii_case(word) && ends_word(skip(text, word.len()))
}

/// Whether a blank or a sign is at the front, or nothing.
fn ends_word(text: &[u8]) -> bool
    ensures { result ≡ t.ends_word text.now }
{
    match text {
        [byte, ..] => is_blank_byte(*byte) || is_sign(*byte),
        [] => true,
    }
}

fn is_sign(byte: u8) -> bool
    ensures { result ≡ t.is_sign byte }
{
    matches!(byte, b'!' | b')' | b',' | b'.' | b':' | b';' | b'?')
}

/// Whether a word has two characters or more, and isn't one that may stand twice.
fn counts_twice(word: &[u8]) -> bool
    ensures { result ≡ t.counts_twice word.now }
{
    is_long(word) && !may_stand_twice(word)
}

fn is_long(word: &[u8]) -> bool
    ensures { result ≡ t.is_long word.now }
{
    match word {
        [] | [_] => false,
        [first, _] => first.is_ascii(),
        _ => true,
    }
}

fn may_stand_twice(word: &[u8]) -> bool
    ensures { result ≡ list_any (str_eq_ignore_ascii_case word.now) t.said_twice }
{
    is_one_of(word, said_twice())
}

/// Whether a word is one of some, in capital or small letters.
fn is_one_of(word: &[u8], others: &[&str]) -> bool
    ensures { result ≡ list_any (str_eq_ignore_ascii_case word.now) (map (λ s. s.now) others.now) }
{
    for other in others {
        if is_same_word(word, other) {
            return true;
        }
    }
    false
}

fn is_same_word(word: &[u8], other: &str) -> bool
    ensures { result ≡ str_eq_ignore_ascii_case word.now other.now }
{
    word.eq_ignore_ascii_case(other.as_bytes())
}

fn said_twice() -> &'static [&'static str]
    ensures { map (λ s. s.now) result.now ≡ t.said_twice }
{
    &SAID_TWICE
}
