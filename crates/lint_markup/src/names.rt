//! The names that tags give to elements.
#![tactic(auto, using(fluent_tokens::proofs::Counted::cuts, crate::proofs::Cuts::cuts))]

ghost use Rattle.std.specs.Prelude.{◌≡◌, ◌<◌, ◌==◌, not, option_map, take};
ghost use Rattle.std.specs.List.{prefix_len};
ghost use Rattle.lint_findings.specs.Tags as t;
ghost use Rattle.lint_markup.specs.InCode.{tag_view};
ghost use Rattle.lint_markup.specs.Pieces.{name_after};
ghost use Rattle.memchr.specs.Find.{IsFirstByte};

use crate::tags::{Tag, is_blank_byte};
use memchr::memchr;

/// The attribute that gives an element a name.
const NAMING: &str = "data-l10n-name";

/// The first name in a tag.
pub fn tag_name<'t>(tag: &Tag<'t>) -> Option<&'t str>
    ensures { option_map (λ s. s.now) result ≡ t.tag_name (tag_view tag.now) }
{
    name_in(tag.inside)
}

fn name_in(inside: &str) -> Option<&str>
    ensures { option_map (λ s. s.now) result ≡ t.name_in inside.now }
{
    let mut rest = inside;
    while let Some(place) = first_blank(rest.as_bytes()) {
        rest = &rest[place + 1..];
        if let Some(name) = name_after(rest) {
            return Some(name);
        }
    }
    None
}

fn first_blank(text: &[u8]) -> Option<usize>
    ensures { IsFirstByte t.is_blank_byte text.now result }
{
    text.iter().position(|&byte| is_blank_byte(byte))
}

/// The value of the attribute, if it is at the front.
fn name_after(text: &str) -> Option<&str>
    ensures { option_map (λ s. s.now) result ≡ name_after text.now }
{
    match text.strip_prefix(NAMING) {
        Some(rest) => value_at(skip_blanks(rest)),
        None => None,
    }
}

fn value_at(text: &str) -> Option<&str>
    ensures { option_map (λ s. s.now) result ≡ t.value_at text.now }
{
    match text.as_bytes() {
        [b'=', ..] => within_quotes(skip_blanks(&text[1..])),
        _ => None,
    }
}

/// What follows the blanks at the front.
pub fn skip_blanks(text: &str) -> &str
    ensures { result.now ≡ t.skip_blanks text.now }
{
    &text[blanks_len(text.as_bytes())..]
}

fn blanks_len(text: &[u8]) -> usize
    ensures { result ≡ prefix_len t.is_blank_byte text.now }
{
    text.iter().take_while(|byte| is_blank_byte(**byte)).count()
}

/// The text between the quote at the front and the next one.
fn within_quotes(text: &str) -> Option<&str>
    ensures { option_map (λ s. s.now) result ≡ t.within_quotes text.now }
{
    match text.as_bytes() {
        [b'"', ..] => Some(before_quote(b'"', &text[1..])),
        [b'\'', ..] => Some(before_quote(b'\'', &text[1..])),
        _ => None,
    }
}

/// What stands before the next quote, or the text if none follows.
fn before_quote(quote: u8, text: &str) -> &str
    requires { quote < 128 }
    ensures { result.now ≡ take (prefix_len (λ c. not (c == quote)) text.now) text.now }
{
    match memchr(quote, text.as_bytes()) {
        Some(place) => &text[..place],
        None => text,
    }
}
