//! Tags in a text.
#![tactic(auto, using(fluent_tokens::proofs::Counted::cuts, crate::proofs::Cuts::cuts))]

ghost use Rattle.std.specs.Prelude.{◌≡◌, if◌then◌else◌, IfOk, OnOk, option_map};
ghost use Rattle.std.specs.List.{prefix_len};
ghost use Rattle.std.specs.Option.{option_to_list};
ghost use Rattle.fluent_tokens.specs.Counted.{Cuts};
ghost use Rattle.lint_findings.specs.Tags as t;
ghost use Rattle.lint_markup.specs.InCode.{AddsTags, tag_view, tags_of, texts_of};
ghost use Rattle.lint_markup.specs.Pieces.{after_tag, breaks, quote_after};

use memchr::memchr;
use std::alloc::{AllocError, Global};

/// A tag: `<`, perhaps `/`, the name of an element, perhaps a blank and more, and `>`.
#[derive(Clone, Copy)]
pub struct Tag<'t> {
    /// Whether it closes an element.
    pub closes: bool,
    pub element: &'t str,
    /// What stands between the name and `>`.
    pub inside: &'t str,
    /// The text from its `<` on.
    pub at: &'t str,
}

impl<'t> Tag<'t> {
    /// How many bytes of the tag are signs: `<`, `>` and perhaps `/`.
    fn signs(&self) -> usize
        ensures { result ≡ (if self.now.closes then 3 else 2) }
    {
        if self.closes { 3 } else { 2 }
    }

    /// Whether it is that of an element without content, `<br/>`.
    pub fn is_lone(&self) -> bool
        ensures { result ≡ t.is_lone (tag_view self.now) }
    {
        self.inside.ends_with('/')
    }
}

/// The tags of texts.
///
/// # Errors
/// [`AllocError`] if memory runs out; nothing is kept.
pub fn tags(alloc: Global, texts: &[String]) -> Result<Vec<Tag<'_>>, AllocError>
    ensures { IfOk result (λ tags. tags_of tags.items ≡ t.tags (texts_of texts.now)) }
{
    let mut tags = Vec::new(alloc);
    for text in texts {
        push_tags(text.as_str(), &mut tags)?;
    }
    Ok(tags)
}

/// The tags of a text.
///
/// # Errors
/// [`AllocError`] if memory runs out; nothing is kept.
pub fn tags_in(alloc: Global, text: &str) -> Result<Vec<Tag<'_>>, AllocError>
    ensures { IfOk result (λ tags. tags_of tags.items ≡ t.tags_in text.now) }
{
    let mut tags = Vec::new(alloc);
    push_tags(text, &mut tags)?;
    Ok(tags)
}

fn push_tags<'t>(text: &'t str, tags: &mut Vec<Tag<'t>>) -> Result<(), AllocError>
    ensures { OnOk result (AddsTags tags.old tags.new (t.tags_in text.now)) }
{
    let mut rest = text;
    while let Some(place) = memchr(b'<', rest.as_bytes()) {
        let at = &rest[place..];
        push_first(at, tags)?;
        rest = &at[1..];
    }
    Ok(())
}

/// Adds the tag at the front of a text, if one is there.
fn push_first<'t>(text: &'t str, tags: &mut Vec<Tag<'t>>) -> Result<(), AllocError>
    ensures { OnOk result (AddsTags tags.old tags.new (option_to_list (t.tag_at text.now))) }
{
    if let Some(tag) = tag_at(text) {
        tags.push(tag)?;
    }
    Ok(())
}

/// What follows the tag at the front, if one is there.
pub fn after_tag(text: &str) -> Option<&str>
    ensures { option_map (λ s. s.now) result ≡ after_tag text.now }
{
    match tag_at(text) {
        Some(tag) => Some(&text[tag.element.len() + tag.inside.len() + tag.signs()..]),
        None => None,
    }
}

/// The tag at the front of a text, if one is there.
pub fn tag_at(text: &str) -> Option<Tag<'_>>
    ensures { option_map tag_view result ≡ t.tag_at text.now }
{
    match text.as_bytes() {
        [b'<', b'/', ..] => tag_named(text, true, &text[2..]),
        [b'<', ..] => tag_named(text, false, &text[1..]),
        _ => None,
    }
}

fn tag_named<'t>(at: &'t str, closes: bool, text: &'t str) -> Option<Tag<'t>>
    ensures { option_map tag_view result ≡ t.tag_named at.now closes text.now (t.element_len text.now) }
{
    let len = element_len(text.as_bytes());
    let rest = &text[len..];
    if len == 0 || !goes_on(rest.as_bytes()) {
        return None;
    }
    let Some(inside) = inside_len(rest.as_bytes()) else {
        return None;
    };
    Some(Tag {
        closes,
        element: &text[..len],
        inside: &rest[..inside],
        at,
    })
}

/// The length of the name of an element at the front, 0 if there is none.
pub fn element_len(text: &[u8]) -> usize
    ensures value { result ≡ t.element_len text.now }
    ensures cuts { Cuts text.now result }
{
    match text {
        [first, ..] if first.is_ascii_alphabetic() => name_len(text),
        _ => 0,
    }
}

fn name_len(text: &[u8]) -> usize
    ensures { result ≡ prefix_len t.is_element_byte text.now }
{
    text.iter()
        .take_while(|byte| is_element_byte(**byte))
        .count()
}

fn is_element_byte(byte: u8) -> bool
    ensures { result ≡ t.is_element_byte byte }
{
    byte.is_ascii_alphanumeric() || byte == b'-' || byte == b':'
}

/// Whether a byte is a space, a tab or of a line end.
pub fn is_blank_byte(byte: u8) -> bool
    ensures { result ≡ t.is_blank_byte byte }
{
    matches!(byte, b' ' | b'\t' | b'\n' | b'\r')
}

/// Whether a tag goes on after its name: by `>`, `/>` or a blank.
fn goes_on(text: &[u8]) -> bool
    ensures { result ≡ t.goes_on text.now }
{
    match text {
        [b'>', ..] | [b'/', b'>', ..] => true,
        [byte, ..] => is_blank_byte(*byte),
        [] => false,
    }
}

/// How many bytes stand before the `>` that ends a tag, outside of quotes.
fn inside_len(text: &[u8]) -> Option<usize>
    ensures { result ≡ t.inside_len None text.now }
{
    let mut quote = None;
    for (place, byte) in text.iter().enumerate() {
        if breaks(quote, *byte) {
            return None;
        }
        if *byte == b'>' {
            return Some(place);
        }
        quote = quote_after(quote, *byte);
    }
    None
}

/// Whether no tag goes on over a byte, in a quote that this one ends or in none.
fn breaks(quote: Option<u8>, byte: u8) -> bool
    ensures { result ≡ breaks quote byte }
{
    byte == b'<' || (byte == b'>' && quote.is_some())
}

/// What ends the quote after a byte, if one goes on.
fn quote_after(quote: Option<u8>, byte: u8) -> Option<u8>
    ensures { result ≡ quote_after quote byte }
{
    match quote {
        None => quoted_by(byte),
        Some(end) if byte == end => None,
        Some(_) => quote,
    }
}

/// What ends the quote that a byte begins.
fn quoted_by(byte: u8) -> Option<u8>
    ensures { result ≡ t.quoted_by byte }
{
    match byte {
        b'"' | b'\'' => Some(byte),
        _ => None,
    }
}
