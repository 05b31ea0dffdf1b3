//! The path of a pattern with its wildcards filled.
ghost use Rattle.std.specs.Prelude.{◌≡◌, ◌++◌, IfOk, OnOk};
ghost use Rattle.fluent_project.specs.Patterns.{filled};
ghost use Rattle.fluent_project.specs.Views.{plain};

use crate::part::Part;
use std::alloc::{AllocError, Global};

/// The path that a pattern gives for a language, with texts in the place of its wildcards, in their
/// order. Where a text is missing, nothing is put.
///
/// # Errors
/// [`AllocError`] if memory runs out.
pub fn path_of(
    alloc: Global,
    pattern: &[Part],
    locale: &[u8],
    texts: &[&[u8]],
) -> Result<Vec<u8>, AllocError>
    ensures { IfOk result (λ path. path.items ≡ filled locale.now pattern.now (plain texts.now)) }
{
    let mut path = Vec::new(alloc);
    push_filled(&mut path, pattern, locale, texts)?;
    Ok(path)
}

/// Appends the path of a pattern.
fn push_filled(
    path: &mut Vec<u8>,
    pattern: &[Part],
    locale: &[u8],
    texts: &[&[u8]],
) -> Result<(), AllocError>
    ensures { OnOk result (path.new.items
        ≡ path.old.items ++ filled locale.now pattern.now (plain texts.now)) }
{
    match pattern {
        [] => Ok(()),
        [Part::Byte(byte), parts @ ..] => {
            path.push(*byte)?;
            push_filled(path, parts, locale, texts)
        }
        [Part::Locale, parts @ ..] => {
            path.extend_from_slice(locale)?;
            push_filled(path, parts, locale, texts)
        }
        [Part::Wildcard(_), parts @ ..] => match texts {
            [] => push_filled(path, parts, locale, texts),
            [text, others @ ..] => {
                path.extend_from_slice(text)?;
                push_filled(path, parts, locale, others)
            }
        },
    }
}
