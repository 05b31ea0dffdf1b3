//! Calls of `fluent_numerals`.

ghost use Rattle.std.specs.Prelude.{◌≡◌, IfOk, option_map, string_bytes};
ghost use Rattle.fluent_number.specs.Number.{number_of};
ghost use Rattle.fluent_numerals.specs.Written.{text_in};

use fluent_number::FluentNumber;
use fluent_numerals::LocaleNumerals;
use std::alloc::{AllocError, Global};

/// A number as the locale of a tag writes it, or `None` if CLDR doesn't know the locale.
///
/// # Errors
/// [`AllocError`] if memory runs out; nothing is kept.
pub fn number_in(
    alloc: Global,
    tag: &str,
    number: &FluentNumber,
) -> Result<Option<String>, AllocError>
    ensures { IfOk result (λ text. option_map string_bytes text ≡ text_in tag.now (number_of number.now)) }
{
    match LocaleNumerals::for_tag(tag) {
        Some(numerals) => Ok(Some(numerals.text_of(alloc, number)?)),
        None => Ok(None),
    }
}
