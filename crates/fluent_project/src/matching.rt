//! Whether a path is one of a pattern, and what its wildcards stand for there.
ghost use Rattle.std.specs.Prelude.{◌≡◌, ◌≤◌, ◌++◌, ◌∷◌, IfOk, IfSome, OnOk, length, option_map, false, true};
ghost use Rattle.fluent_project.specs.Patterns.{AreLongest, Matches};
ghost use Rattle.fluent_project.specs.Taking.{after, goes_on, is_none, longest, may_end, taken, takes};
ghost use Rattle.fluent_project.specs.Views.{FindsLongest, FindsTaken, plain};

use crate::part::{Part, Wildcard};
use std::alloc::{AllocError, Global};

/// Whether a path is one of those that a pattern stands for, for a language.
pub fn is_match(pattern: &[Part], locale: &[u8], path: &[u8]) -> bool
    ensures found { result ≡ true → Matches locale.now pattern.now path.now }
    ensures none { result ≡ false → ¬ Matches locale.now pattern.now path.now }
{
    takes(pattern, locale, path)
}

/// What the wildcards of a pattern stand for in a path, if it is one of the pattern for this
/// language. Earlier wildcards take as much as they can.
///
/// # Errors
/// [`AllocError`] if memory runs out.
pub fn texts_in<'path>(
    alloc: Global,
    pattern: &[Part],
    locale: &[u8],
    path: &'path [u8],
) -> Result<Option<Vec<&'path [u8]>>, AllocError>
    ensures longest { IfOk result (FindsLongest locale.now pattern.now path.now) }
    ensures taken { IfOk result (FindsTaken locale.now pattern.now path.now) }
{
    if takes(pattern, locale, path) {
        let mut texts = Vec::new(alloc);
        push_texts(&mut texts, pattern, locale, path)?;
        Ok(Some(texts))
    } else {
        Ok(None)
    }
}

/// Appends what the wildcards take of a path that the pattern takes.
#[cycle(texts)]
fn push_texts<'path>(
    texts: &mut Vec<&'path [u8]>,
    pattern: &[Part],
    locale: &[u8],
    path: &'path [u8],
) -> Result<(), AllocError>
    ensures { OnOk result (plain texts.new.items
        ≡ plain texts.old.items ++ taken locale.now pattern.now path.now) }
{
    match pattern {
        [] => Ok(()),
        [part, parts @ ..] => push_texts_from(texts, *part, parts, locale, path),
    }
}

/// Appends what the wildcards take, if the pattern is this part and those.
#[cycle(texts)]
fn push_texts_from<'path>(
    texts: &mut Vec<&'path [u8]>,
    part: Part,
    parts: &[Part],
    locale: &[u8],
    path: &'path [u8],
) -> Result<(), AllocError>
    ensures { OnOk result (plain texts.new.items
        ≡ plain texts.old.items ++ taken locale.now (part ∷ parts.now) path.now) }
{
    match part {
        Part::Byte(_) => match path {
            [] => Ok(()),
            [_, rest @ ..] => push_texts(texts, parts, locale, rest),
        },
        Part::Locale => match after(locale, path) {
            None => Ok(()),
            Some(rest) => push_texts(texts, parts, locale, rest),
        },
        Part::Wildcard(wildcard) => match longest(wildcard, parts, locale, true, path) {
            None => Ok(()),
            Some(len) => {
                texts.push(&path[..len])?;
                push_texts(texts, parts, locale, &path[len..])
            }
        },
    }
}

/// Whether a pattern takes a path as a whole.
#[cycle(matching)]
pub(crate) fn takes(pattern: &[Part], locale: &[u8], path: &[u8]) -> bool
    ensures { result ≡ takes locale.now pattern.now path.now }
{
    match pattern {
        [] => is_none(path),
        [part, parts @ ..] => takes_from(*part, parts, locale, path),
    }
}

/// Whether the pattern of this part and those takes a path as a whole.
#[cycle(matching)]
fn takes_from(part: Part, parts: &[Part], locale: &[u8], path: &[u8]) -> bool
    ensures { result ≡ takes locale.now (part ∷ parts.now) path.now }
{
    match part {
        Part::Byte(byte) => match path {
            [] => false,
            [first, rest @ ..] => *first == byte && takes(parts, locale, rest),
        },
        Part::Locale => match after(locale, path) {
            None => false,
            Some(rest) => takes(parts, locale, rest),
        },
        Part::Wildcard(wildcard) => longest(wildcard, parts, locale, true, path).is_some(),
    }
}

/// The most bytes of a path that a wildcard may stand for, so that the rest of the pattern takes
/// the rest of the path. `ends` says whether it may stand for nothing.
#[cycle(matching)]
fn longest(
    wildcard: Wildcard,
    parts: &[Part],
    locale: &[u8],
    ends: bool,
    path: &[u8],
) -> Option<usize>
    ensures len { result ≡ longest wildcard (takes locale.now parts.now) ends path.now }
    ensures within { IfSome result (λ len. len ≤ length path.now) }
{
    if let [byte, rest @ ..] = path {
        if goes_on(wildcard, *byte) {
            let ends = may_end(wildcard, *byte);
            if let Some(len) = longest(wildcard, parts, locale, ends, rest) {
                return Some(len + 1);
            }
        }
    }
    if ends && takes(parts, locale, path) {
        Some(0)
    } else {
        None
    }
}

/// Whether a text has no byte.
pub fn is_none(text: &[u8]) -> bool
    ensures { result ≡ is_none text.now }
{
    match text {
        [] => true,
        [_, ..] => false,
    }
}

/// What follows a text at the start of a path.
pub fn after<'path>(text: &[u8], path: &'path [u8]) -> Option<&'path [u8]>
    ensures rest { option_map (λ rest. rest.now) result ≡ after text.now path.now }
    ensures shorter { IfSome result (λ rest. length rest.now ≤ length path.now) }
{
    match text {
        [] => Some(path),
        [byte, text @ ..] => match path {
            [] => None,
            [first, rest @ ..] => {
                if *first == *byte {
                    after(text, rest)
                } else {
                    None
                }
            }
        },
    }
}

/// Whether a wildcard may go on over a byte.
fn goes_on(wildcard: Wildcard, byte: u8) -> bool
    ensures { result ≡ goes_on wildcard byte }
{
    match wildcard {
        Wildcard::Star => byte != b'/',
        Wildcard::Folders | Wildcard::Rest => true,
    }
}

/// Whether a wildcard may end after a byte.
fn may_end(wildcard: Wildcard, byte: u8) -> bool
    ensures { result ≡ may_end wildcard byte }
{
    match wildcard {
        Wildcard::Star | Wildcard::Rest => true,
        Wildcard::Folders => byte == b'/',
    }
}
