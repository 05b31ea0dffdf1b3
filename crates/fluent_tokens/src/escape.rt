//! One escape of a string literal.
#![tactic(auto, using(crate::proofs::Counted::cuts))]

ghost use Rattle.std.specs.Prelude.{◌≡◌, ◌<◌, encode_utf8};
ghost use Rattle.std.specs.List.{list_all};
ghost use Rattle.fluent_grammar.specs.Words.{is_hex_digit};
ghost use Rattle.fluent_tokens.specs.Counted.{Cuts};
ghost use Rattle.fluent_grammar.specs.Escapes.{escape_at, unicode_escape, digits_len, character_of};

use crate::char_len;

/// What an escape stands for, and how many bytes of it follow its backslash.
#[derive(Drop)]
pub(crate) struct Escape {
    pub character: char,
    pub len: usize,
}

/// The escape whose backslash stands before a text. U+FFFD stands for one that has no meaning.
pub(crate) fn escape_at(text: &str) -> Escape
    ensures character { encode_utf8 result.character ≡ (escape_at text.now).stands_for }
    ensures len { result.len ≡ (escape_at text.now).len }
    ensures cuts { Cuts text.now result.len }
{
    match text.as_bytes() {
        [b'\\', ..] => Escape {
            character: '\\',
            len: 1,
        },
        [b'"', ..] => Escape {
            character: '"',
            len: 1,
        },
        [b'u', ..] => unicode_escape(&text[1..], 4),
        [b'U', ..] => unicode_escape(&text[1..], 6),
        bytes => Escape {
            character: char::REPLACEMENT_CHARACTER,
            len: char_len(bytes),
        },
    }
}

/// An escape of this many hex digits, which the text begins with. The sign before them counts in
/// its length.
fn unicode_escape(text: &str, count: usize) -> Escape
    requires { 0 < count }
    ensures character { encode_utf8 result.character ≡ (unicode_escape count text.now).stands_for }
    ensures len { result.len ≡ (unicode_escape count text.now).len }
    ensures cuts { Cuts text.now (digits_len count text.now) }
{
    let end = digits_len(text, count);
    Escape {
        character: character_of(&text[..end], count),
        len: end + 1,
    }
}

/// How many bytes the digits of an escape take: this many, at most to the end of the text, and
/// whole characters.
fn digits_len(text: &str, count: usize) -> usize
    ensures value { result ≡ digits_len count text.now }
    ensures cuts { Cuts text.now result }
{
    text.ceil_char_boundary(count.min(text.len()))
}

/// The character of exactly this many hex digits of a scalar value, and U+FFFD for any other text.
fn character_of(digits: &str, count: usize) -> char
    requires { 0 < count }
    ensures { encode_utf8 result ≡ character_of count digits.now }
{
    if digits.len() != count || !is_hex(digits) {
        return char::REPLACEMENT_CHARACTER;
    }
    match u32::from_str_radix(digits, 16) {
        Ok(code) => char::from_u32(code).unwrap_or(char::REPLACEMENT_CHARACTER),
        Err(_) => char::REPLACEMENT_CHARACTER,
    }
}

/// Whether a text is hex digits alone.
fn is_hex(text: &str) -> bool
    ensures { result ≡ list_all is_hex_digit text.now }
{
    text.as_bytes().iter().all(|byte| matches!(*byte, b'0'..=b'9' | b'a'..=b'f' | b'A'..=b'F'))
}
