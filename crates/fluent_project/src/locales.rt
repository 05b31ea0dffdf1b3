//! The languages that files are of, by a pattern.
ghost use Rattle.std.specs.Prelude.{◌≡◌, ◌<◌, IfOk, IfSome, None, length};
ghost use Rattle.fluent_project.specs.Locales.{HasNoTag, IsLocaleIn, starred, wildcards_before, with_star};

use crate::matching::{is_match, texts_in};
use crate::part::{Part, Wildcard};
use std::alloc::{AllocError, Global};

/// The text that `{locale}` stands for in a path of a pattern, if it is one. It has no slash. If
/// it may be several texts, it is the longest, by what `*` takes in its place.
///
/// # Errors
/// [`AllocError`] if memory runs out; nothing is kept.
pub fn locale_in<'path>(
    alloc: Global,
    pattern: &[Part],
    path: &'path str,
) -> Result<Option<&'path str>, AllocError>
    ensures found { IfOk result (λ locale. IfSome locale (λ tag. IsLocaleIn pattern.now path.now tag.now)) }
    ensures none { IfOk result (λ locale. locale ≡ None → HasNoTag pattern.now path.now) }
{
    let Some(before) = wildcards_before(pattern) else {
        return Ok(None);
    };
    let whole = with_star(alloc, pattern)?;
    let Some(texts) = texts_in(alloc, &whole, b"", path.as_bytes())? else {
        return Ok(None);
    };
    let Some(text) = texts.get(before) else {
        return Ok(None);
    };
    let Ok(locale) = std::str::from_utf8(text) else {
        return Ok(None);
    };
    if is_match(pattern, locale.as_bytes(), path.as_bytes()) {
        Ok(Some(locale))
    } else {
        Ok(None)
    }
}

/// How many wildcards come before `{locale}`, if that is there.
fn wildcards_before(pattern: &[Part]) -> Option<usize>
    ensures count { result ≡ wildcards_before pattern.now }
    ensures within { IfSome result (λ count. count < length pattern.now) }
{
    match pattern {
        [] => None,
        [Part::Locale, ..] => Some(0),
        [Part::Byte(_), rest @ ..] => wildcards_before(rest),
        [Part::Wildcard(_), rest @ ..] => match wildcards_before(rest) {
            Some(count) => Some(count + 1),
            None => None,
        },
    }
}

/// A pattern with `*` in the place of `{locale}`.
///
/// # Errors
/// [`AllocError`] if memory runs out; nothing is kept.
pub fn with_star(alloc: Global, pattern: &[Part]) -> Result<Vec<Part>, AllocError>
    ensures { IfOk result (λ made. made.items ≡ with_star pattern.now) }
{
    pattern.iter().map(|part| starred(*part)).collect(alloc)
}

/// `*` for `{locale}`, and any other part as it is.
fn starred(part: Part) -> Part
    ensures { result ≡ starred part }
{
    match part {
        Part::Locale => Part::Wildcard(Wildcard::Star),
        _ => part,
    }
}
