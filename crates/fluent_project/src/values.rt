//! What values of TOML tell a project.
ghost use Rattle.std.specs.Prelude.{◌≡◌, ◌&&◌, ◌∷◌, [], IfOk, option_and_then, option_map};
ghost use Rattle.std.specs.List.{list_all};
ghost use Rattle.toml.specs.View.{items_view, view};
ghost use Rattle.fluent_project.specs.FileValues.{all_texts, are_different, if_any, if_filled, is_among, is_sign, is_tag, languages_of, list_of, tag_on, text_of, texts_of};
ghost use Rattle.fluent_project.specs.PlaceViews.{texts};
ghost use Rattle.fluent_project.specs.FileViews.{maybe_texts};

use crate::matching::is_none;
use crate::reading::is_same;
use std::alloc::{AllocError, Global};
use toml::Value;

/// A text that isn't empty.
pub(crate) fn text_of(value: &Value) -> Option<&str>
    ensures { option_map (λ text. text.now) result ≡ text_of (view value.now) }
{
    if_any(value.as_str()?)
}

/// The text, if it isn't empty.
fn if_any(text: &str) -> Option<&str>
    ensures { option_map (λ text. text.now) result ≡ if_any text.now }
{
    if is_none(text.as_bytes()) {
        None
    } else {
        Some(text)
    }
}

/// A list of texts.
pub(crate) fn list_of<'f>(
    alloc: Global,
    value: &'f Value,
) -> Result<Option<Vec<&'f str>>, AllocError>
    ensures { IfOk result (λ list. maybe_texts list ≡ list_of (view value.now)) }
{
    match value.as_array() {
        None => Ok(None),
        Some(values) => all_texts(alloc, values),
    }
}

/// The texts that values are, if each is one.
fn all_texts<'f>(alloc: Global, values: &'f [Value]) -> Result<Option<Vec<&'f str>>, AllocError>
    ensures { IfOk result (λ list. maybe_texts list ≡ all_texts (items_view values.now)) }
{
    let mut texts = Vec::new(alloc);
    for value in values {
        match text_of(value) {
            None => return Ok(None),
            Some(text) => texts.push(text)?,
        }
    }
    Ok(Some(texts))
}

/// One text, or a list of one at least.
pub(crate) fn texts_of<'f>(
    alloc: Global,
    value: &'f Value,
) -> Result<Option<Vec<&'f str>>, AllocError>
    ensures { IfOk result (λ list. maybe_texts list ≡ texts_of (view value.now)) }
{
    match value.as_str() {
        Some(text) => one_text(alloc, text),
        None => some_texts(alloc, value),
    }
}

/// A list of this text, if it isn't empty.
fn one_text<'f>(alloc: Global, text: &'f str) -> Result<Option<Vec<&'f str>>, AllocError>
    ensures { IfOk result (λ list. maybe_texts list
        ≡ option_map (λ text. text ∷ []) (if_any text.now)) }
{
    match if_any(text) {
        None => Ok(None),
        Some(text) => {
            let mut texts = Vec::new(alloc);
            texts.push(text)?;
            Ok(Some(texts))
        }
    }
}

/// A list of one text at least.
fn some_texts<'f>(alloc: Global, value: &'f Value) -> Result<Option<Vec<&'f str>>, AllocError>
    ensures { IfOk result (λ list. maybe_texts list
        ≡ option_and_then if_filled (list_of (view value.now))) }
{
    match list_of(alloc, value)? {
        Some(texts) if !texts.is_empty() => Ok(Some(texts)),
        _ => Ok(None),
    }
}

/// Different tags of languages.
pub(crate) fn languages_of<'f>(
    alloc: Global,
    value: &'f Value,
) -> Result<Option<Vec<&'f str>>, AllocError>
    ensures { IfOk result (λ list. maybe_texts list ≡ languages_of (view value.now)) }
{
    match list_of(alloc, value)? {
        Some(tags) if are_languages(&tags) => Ok(Some(tags)),
        _ => Ok(None),
    }
}

/// Whether these are different tags of languages.
fn are_languages(tags: &[&str]) -> bool
    ensures { result ≡ (list_all is_tag (texts tags.now) && are_different (texts tags.now)) }
{
    are_tags(tags) && are_different(tags)
}

/// Whether these are tags of languages.
fn are_tags(tags: &[&str]) -> bool
    ensures { result ≡ list_all is_tag (texts tags.now) }
{
    match tags {
        [] => true,
        [tag, others @ ..] => is_tag(tag) && are_tags(others),
    }
}

/// Whether this is the tag of a language, as projects write them: letters and digits, and between
/// them `-`, `.`, `@` and `_`.
pub fn is_tag(text: &str) -> bool
    ensures { result ≡ is_tag text.now }
{
    tag_on(true, text.as_bytes())
}

/// Whether this may follow in a tag, where a part of it begins or goes on.
fn tag_on(begins: bool, text: &[u8]) -> bool
    ensures { result ≡ tag_on begins text.now }
{
    match text {
        [] => !begins,
        [byte, rest @ ..] => {
            if byte.is_ascii_alphanumeric() {
                tag_on(false, rest)
            } else {
                !begins && is_sign(*byte) && tag_on(true, rest)
            }
        }
    }
}

/// Whether a byte may be between the parts of a tag.
fn is_sign(byte: u8) -> bool
    ensures { result ≡ is_sign byte }
{
    byte == b'-' || byte == b'.' || byte == b'@' || byte == b'_'
}

/// Whether no two of these texts are the same.
fn are_different(list: &[&str]) -> bool
    ensures { result ≡ are_different (texts list.now) }
{
    match list {
        [] => true,
        [text, others @ ..] => !is_among(text, others) && are_different(others),
    }
}

/// Whether a text is among others.
pub(crate) fn is_among(text: &str, others: &[&str]) -> bool
    ensures { result ≡ is_among text.now (texts others.now) }
{
    match others {
        [] => false,
        [other, others @ ..] => {
            is_same(text.as_bytes(), other.as_bytes()) || is_among(text, others)
        }
    }
}
