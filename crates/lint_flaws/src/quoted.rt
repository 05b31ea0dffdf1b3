//! A placeable that is written inside of a string literal.
#![tactic(auto, using(fluent_tokens::proofs::Counted::cuts))]

ghost use Rattle.std.specs.Prelude.{◌≡◌, ◌<◌, Some, drop, length, option_map, true};
ghost use Rattle.lint_findings.specs.Quoted as q;
ghost use Rattle.lint_flaws.specs.QuotedView.{quoted_view, reference_text};
ghost use Rattle.fluent_grammar.specs.Words as w;

use fluent_tokens::{begins_with, blank_inline_len, identifier_len};
use memchr::memchr;
use std::fmt;

/// The name of a variable or of a term, after its sign.
#[derive(Clone, Copy)]
pub struct Reference<'s> {
    sign: &'static str,
    name: &'s str,
}

impl fmt::Display for Reference<'_> {
    ghost output = { λ reference. Some (reference_text reference) };

    fn fmt<W: fmt::Write>(&self, f: &mut fmt::Formatter<W>) -> fmt::Result {
        write!(f, "{}{}", self.sign, self.name)
    }
}

/// The variable or the term that a placeable of a literal is.
#[derive(Clone, Copy)]
pub struct Quoted<'s> {
    /// How many bytes of the literal stand before its brace, with the quote.
    pub inside: usize,
    /// Its name, with its sign.
    pub reference: Reference<'s>,
}

/// The first placeable of a variable or a term that a raw text has.
pub fn first_quoted(raw: &str) -> Option<Quoted<'_>>
    ensures { option_map quoted_view result ≡ q.quoted raw.now }
{
    let mut rest = raw;
    while let Some(place) = memchr(b'{', rest.as_bytes()) {
        let text = &rest[place..];
        rest = after_brace(text);
        if let Some(reference) = reference_in_braces(text) {
            let inside = raw.len().saturating_sub(rest.len());
            return Some(Quoted { inside, reference });
        }
    }
    None
}

/// The rest after the brace at the front.
fn after_brace(text: &str) -> &str
    requires { w.begins_with w.open_brace text.now ≡ true }
    ensures rest { result.now ≡ drop 1 text.now }
    ensures shorter { length result.now < length text.now }
{
    &text[1..]
}

/// The variable or the term that the placeable at the front is, if it is one.
fn reference_in_braces(text: &str) -> Option<Reference<'_>>
    requires { w.begins_with w.open_brace text.now ≡ true }
    ensures { option_map reference_text result ≡ q.reference_in_braces text.now }
{
    closed_reference(after_spaces(after_brace(text)))
}

/// The rest after the spaces at the front.
fn after_spaces(text: &str) -> &str
    ensures { result.now ≡ w.skip_spaces text.now }
{
    &text[blank_inline_len(text.as_bytes())..]
}

/// The variable or the term at the front, if nothing but spaces and a brace that closes follow it.
fn closed_reference(text: &str) -> Option<Reference<'_>>
    ensures { option_map reference_text result ≡ q.closed_reference text.now }
{
    if begins_with(text.as_bytes(), b'$') {
        closed_name("$", &text[1..])
    } else if begins_with(text.as_bytes(), b'-') {
        closed_name("-", &text[1..])
    } else {
        None
    }
}

/// The identifier at the front after this sign, if nothing but spaces and a brace that closes
/// follow it.
fn closed_name<'s>(sign: &'static str, text: &'s str) -> Option<Reference<'s>>
    ensures { option_map reference_text result ≡ q.closed_name sign.now text.now }
{
    let len = identifier_len(text.as_bytes());
    if len == 0 || !is_closed(&text[len..]) {
        return None;
    }
    Some(Reference {
        sign,
        name: &text[..len],
    })
}

/// Whether spaces and a brace that closes are at the front.
fn is_closed(text: &str) -> bool
    ensures { result ≡ w.begins_with w.close_brace (w.skip_spaces text.now) }
{
    let bytes = text.as_bytes();
    begins_with(&bytes[blank_inline_len(bytes)..], b'}')
}
