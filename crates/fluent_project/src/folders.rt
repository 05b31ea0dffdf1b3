//! Where the files of a pattern lie.

ghost use Rattle.std.specs.Prelude.{◌≡◌, ◌++◌, ◌<◌, ◌≤◌, IfOk, IfSome, OnOk, length, take};
ghost use Rattle.fluent_project.specs.Folders.{before_slash, folder, front, if_slash, last_slash};

use crate::checks::has_no_wildcard;
use crate::part::Part;
use crate::putting::path_of;
use std::alloc::{AllocError, Global};

/// The folder that has all files of a pattern for a language below it: what comes before the first
/// wildcard, up to its last slash. Without a wildcard it is the one file of the pattern.
///
/// # Errors
/// [`AllocError`] if memory runs out; nothing is kept.
pub fn folder_of(alloc: Global, pattern: &[Part], locale: &[u8]) -> Result<Vec<u8>, AllocError>
    ensures { IfOk result (λ path. path.items ≡ folder locale.now pattern.now) }
{
    if has_no_wildcard(pattern) {
        return path_of(alloc, pattern, locale, &[]);
    }
    let mut path = Vec::new(alloc);
    push_front(&mut path, pattern, locale)?;
    path.truncate(folder_len(&path));
    Ok(path)
}

/// Appends what comes before the first wildcard.
fn push_front(path: &mut Vec<u8>, pattern: &[Part], locale: &[u8]) -> Result<(), AllocError>
    ensures { OnOk result (path.new.items ≡ path.old.items ++ front locale.now pattern.now) }
{
    match pattern {
        [] | [Part::Wildcard(_), ..] => Ok(()),
        [Part::Byte(byte), parts @ ..] => {
            path.push(*byte)?;
            push_front(path, parts, locale)
        }
        [Part::Locale, parts @ ..] => {
            path.extend_from_slice(locale)?;
            push_front(path, parts, locale)
        }
    }
}

/// How many bytes come before the last slash. Without one, none.
pub(crate) fn folder_len(path: &[u8]) -> usize
    ensures cut { take result path.now ≡ before_slash path.now }
    ensures within { result ≤ length path.now }
{
    slash_at(path).unwrap_or(0)
}

/// Where the last slash of a path is, if it has one.
fn slash_at(path: &[u8]) -> Option<usize>
    ensures place { result ≡ last_slash path.now }
    ensures within { IfSome result (λ place. place < length path.now) }
{
    match path {
        [] => None,
        [byte, rest @ ..] => match slash_at(rest) {
            Some(place) => Some(place + 1),
            None => if_slash(*byte),
        },
    }
}

/// The first place, if a slash is there.
fn if_slash(byte: u8) -> Option<usize>
    ensures place { result ≡ if_slash byte }
    ensures first { IfSome result (λ place. place ≡ 0) }
{
    if byte == b'/' { Some(0) } else { None }
}
