//! The locales of a program that has set none, and whether a locale has plural rules of its own.

ghost use Rattle.std.specs.Prelude.{◌≡◌};
ghost use Rattle.fluent_languages.specs.Tags.{same_text};
ghost use Rattle.fluent_c.specs.Locales.{folded, has_rules, is_named, is_posix};

use fluent_plurals::{LanguagePlurals, is_tag};

/// Whether the language of a locale has plural rules of its own.
///
/// For a tag such as `oc` it hasn't, so every number is `other`. It hasn't for a text that is no
/// tag, for which a bundle can't be made. `C` and `POSIX` have those of `und`.
#[unsafe(no_mangle)]
pub extern "C" fn fluent_has_plural_rules(locale: &[u8]) -> bool
    ensures { result ≡ has_rules locale.now }
{
    names_posix(locale) || (is_tag(locale) && LanguagePlurals::has_own_rules(locale))
}

/// Whether a locale is that of a program that has set none: `C` or `POSIX`, also with UTF-8.
pub(crate) fn names_posix(locale: &[u8]) -> bool
    ensures { result ≡ is_posix locale.now }
{
    // A name of a locale has at most 255 bytes.
    locale.len() <= 255 && (is_named(b"c", locale) || is_named(b"posix", locale))
}

/// Whether a locale has this name in letters of any case, alone or with UTF-8 as its codeset.
fn is_named(name: &[u8], locale: &[u8]) -> bool
    ensures { result ≡ is_named name.now locale.now }
{
    match name {
        [] => match locale {
            [] => true,
            [byte, codeset @ ..] => *byte == b'.' && is_codeset(b"utf8", codeset),
        },
        [letter, name @ ..] => match locale {
            [] => false,
            [byte, locale @ ..] => {
                byte.to_ascii_lowercase() == *letter && is_named(name, locale)
            }
        },
    }
}

/// Whether a codeset has this name in letters of any case, wherever it has a `-`.
fn is_codeset(name: &[u8], codeset: &[u8]) -> bool
    ensures { result ≡ same_text (folded codeset.now) name.now }
{
    match codeset {
        [] => match name {
            [] => true,
            [_, ..] => false,
        },
        [byte, codeset @ ..] => {
            if *byte == b'-' {
                return is_codeset(name, codeset);
            }
            match name {
                [] => false,
                [letter, name @ ..] => {
                    byte.to_ascii_lowercase() == *letter && is_codeset(name, codeset)
                }
            }
        }
    }
}
