//! Spaces in texts beside those of the reference: at their edges, and two at once.
#![tactic(auto, using(fluent_tokens::proofs::Counted::cuts))]

ghost use Rattle.std.specs.Prelude.{◌≡◌, OnOk, false, not, option_map};
ghost use Rattle.std.specs.List.{list_any};
ghost use Rattle.fluent_grammar.specs.Words.{begins, is_between};
ghost use Rattle.lint_findings.specs.Doubts as d;
ghost use Rattle.lint_findings.specs.Edges as e;
ghost use Rattle.lint_findings.specs.Tags.{is_blank_byte};
ghost use Rattle.lint_findings.specs.Typing as t;
ghost use Rattle.lint_markup.specs.InCode.{Adds, AddsBeside, AddsOfPair, AreRunsOf, texts_of};
ghost use Rattle.lint_texts.specs.Beside.{AddsOne, first_said};
ghost use Rattle.lint_texts.specs.InCode.{edge_view};
ghost use Rattle.lint_texts.specs.Spaces.{has_two_spaces};

use crate::own::{reference_of, text_of};
use crate::spotting::{push_note, push_note_at};
use fluent_tokens::{begins_with, blank_inline_len};
use lint_markup::{Pair, Spotted, is_blank_byte};
use lint_nodes::skip;
use std::alloc::{AllocError, Global};

/// An edge of a text at which a space is lost, or is new.
#[derive(Clone, Copy)]
pub enum Edge {
    LostFirst,
    NewFirst,
    LostLast,
    NewLast,
}

/// Adds that the text begins or ends with a space, and that of the reference doesn't, or the other
/// way round.
///
/// # Errors
/// [`AllocError`] if memory runs out; some may be added then.
pub fn push_edge_spaces(
    alloc: Global,
    pair: &Pair<'_, '_, '_, '_>,
    found: &mut Vec<Spotted>,
) -> Result<(), AllocError>
    requires { AreRunsOf pair.now }
    ensures { OnOk result (AddsOfPair e.edge_spaces pair.now found.old found.new) }
{
    let mine = text_of(pair).as_bytes();
    let theirs = reference_of(pair).as_bytes();
    push_edge(alloc, Edge::LostFirst, Edge::NewFirst, mine, theirs, found)?;
    push_edge(
        alloc,
        Edge::LostLast,
        Edge::NewLast,
        last_character(mine),
        last_character(theirs),
        found,
    )
}

/// Adds that an edge of a text, beside that of the reference, lost a space or has a new one.
fn push_edge(
    alloc: Global,
    lost: Edge,
    new: Edge,
    mine: &[u8],
    theirs: &[u8],
    found: &mut Vec<Spotted>,
) -> Result<(), AllocError>
    ensures { OnOk result (Adds found.old found.new
        (e.edge_beside (edge_view lost) (edge_view new) mine.now theirs.now)) }
{
    if begins_with(theirs, b' ') {
        if is_open(mine) {
            Ok(())
        } else {
            push_space(alloc, lost, found)
        }
    } else if begins_with(mine, b' ') {
        push_space(alloc, new, found)
    } else {
        Ok(())
    }
}

fn push_space(alloc: Global, edge: Edge, found: &mut Vec<Spotted>) -> Result<(), AllocError>
    ensures { OnOk result (AddsOne (d.edge_space (edge_view edge)) found.old found.new) }
{
    push_note(alloc, "edge-space", edge_words(edge), found)
}

fn edge_words(edge: Edge) -> &'static str
    ensures { result.now ≡ d.edge_words (edge_view edge) }
{
    match edge {
        Edge::LostFirst => "the reference begins with a space",
        Edge::NewFirst => "the text begins with a space",
        Edge::LostLast => "the reference ends with a space",
        Edge::NewLast => "the text ends with a space",
    }
}

/// The last character of a text.
fn last_character(text: &[u8]) -> &[u8]
    ensures { result.now ≡ e.last_character text.now }
{
    let mut place = text.len();
    while place > 0 {
        place -= 1;
        if !continues(text[place]) {
            return skip(text, place);
        }
    }
    text
}

/// Whether a byte belongs to the character before it.
fn continues(byte: u8) -> bool
    ensures { result ≡ is_between 0x80 0xBF byte }
{
    matches!(byte, 0x80..=0xBF)
}

/// Whether a blank is at the front, or a character that may be as wide as two.
fn is_open(text: &[u8]) -> bool
    ensures { result ≡ e.is_open text.now }
{
    begins_blank(text)
        || (begins_two(text, 0xC2, 0xA0)
            || (begins_two(text, 0xE2, 0x80)
                || (begins_wide(text) || begins_two(text, 0xEF, 0xBC))))
}

fn begins_blank(text: &[u8]) -> bool
    ensures { result ≡ begins is_blank_byte text.now }
{
    match text {
        [byte, ..] => is_blank_byte(*byte),
        [] => false,
    }
}

fn begins_wide(text: &[u8]) -> bool
    ensures { result ≡ begins (is_between 0xE3 0xED) text.now }
{
    matches!(text, [0xE3..=0xED, ..])
}

fn begins_two(text: &[u8], one: u8, two: u8) -> bool
    ensures { result ≡ e.begins_two one two text.now }
{
    begins_with(text, one) && begins_with(skip(text, 1), two)
}

/// Adds that a text has two spaces within a sentence, if no text of the reference has two.
///
/// # Errors
/// [`AllocError`] if memory runs out; nothing is added then.
pub fn push_double_space(
    alloc: Global,
    texts: &[String],
    others: &[String],
    found: &mut Vec<Spotted>,
) -> Result<(), AllocError>
    ensures { OnOk result (AddsBeside t.spaces_beside texts.now others.now found.old found.new) }
{
    if have_spaces(others) {
        Ok(())
    } else {
        push_first_spaces(alloc, texts, found)
    }
}

fn push_first_spaces(
    alloc: Global,
    texts: &[String],
    found: &mut Vec<Spotted>,
) -> Result<(), AllocError>
    ensures { OnOk result (Adds found.old found.new
        (first_said d.double_space t.two_spaces texts.now)) }
{
    match first_spaces(texts) {
        Some(at) => push_note_at(alloc, at, "double-space", "two spaces", found),
        None => Ok(()),
    }
}

/// Whether some text has two spaces.
fn have_spaces(texts: &[String]) -> bool
    ensures { result ≡ list_any t.has_spaces (texts_of texts.now) }
{
    for text in texts {
        if first_double(true, text.as_str()).is_some() {
            return true;
        }
    }
    false
}

fn first_spaces(texts: &[String]) -> Option<&str>
    ensures { option_map (λ s. s.now) result ≡ t.first_found t.two_spaces (texts_of texts.now) }
{
    for text in texts {
        if let Some(at) = first_double(false, text.as_str()) {
            return Some(at);
        }
    }
    None
}

/// The text from the first two spaces on that something stands before, and something follows. If
/// not all count, it is nothing that ends a sentence.
fn first_double(all: bool, text: &str) -> Option<&str>
    ensures { option_map (λ s. s.now) result ≡ t.spaces_after (t.counts all) false text.now }
{
    if has_two_spaces(text.as_bytes()) {
        double_within(all, text)
    } else {
        None
    }
}

/// Whether two spaces stand somewhere in a text, which is rare.
fn has_two_spaces(text: &[u8]) -> bool
    ensures { result ≡ has_two_spaces false text.now }
{
    let mut before = false;
    for byte in text {
        let is_space = *byte == b' ';
        if before && is_space {
            return true;
        }
        before = is_space;
    }
    false
}

fn double_within(all: bool, text: &str) -> Option<&str>
    ensures { option_map (λ s. s.now) result ≡ t.spaces_after (t.counts all) false text.now }
{
    let bytes = text.as_bytes();
    let mut before = false;
    for place in 0..bytes.len() {
        if before && begins_spaces(skip(bytes, place)) {
            return Some(&text[place..]);
        }
        before = counts(all, bytes[place]);
    }
    None
}

/// What may stand before two spaces, of which not all counts within a sentence.
fn counts(all: bool, byte: u8) -> bool
    ensures { result ≡ t.counts all byte }
{
    !is_blank_byte(byte) && (all || !ends_sentence(byte))
}

fn ends_sentence(byte: u8) -> bool
    ensures { result ≡ t.ends_sentence byte }
{
    matches!(byte, b'.' | b'!' | b'?' | b':')
}

/// Whether two spaces are at the front, and after the last one no blank.
fn begins_spaces(text: &[u8]) -> bool
    ensures { result ≡ t.begins_spaces text.now }
{
    begins_with(text, b' ')
        && (begins_with(skip(text, 1), b' ') && begins_text(skip(text, blank_inline_len(text))))
}

/// Whether something is at the front that is no blank.
fn begins_text(text: &[u8]) -> bool
    ensures { result ≡ begins (λ c. not (is_blank_byte c)) text.now }
{
    match text {
        [byte, ..] => !is_blank_byte(*byte),
        [] => false,
    }
}
