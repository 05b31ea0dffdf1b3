//! The languages, and how one is found by a tag.
ghost use Rattle.std.specs.Prelude.{◌≡◌};
ghost use Rattle.fluent_plurals.specs.Lookup.{folded, ends_here, begins_with_tag, first_of, entries_of, entry_found};

use crate::sets::{Cardinal, Ordinal};

/// A language: its tag, in small letters with `-` between the parts, and its rules for counts and
/// for places in an order.
#[derive(Clone, Copy, Debug, PartialEq, Eq)]
pub(crate) struct Language(
    pub(crate) &'static str,
    pub(crate) Cardinal,
    pub(crate) Ordinal,
);

/// The first of the languages whose tag a text begins with.
pub(crate) fn first_fitting(languages: &[Language], text: &[u8]) -> Option<Language>
    ensures { entry_found result ≡ first_of (entries_of languages.now) text.now }
{
    for language in languages {
        if begins_with_tag(language.0.as_bytes(), text) {
            return Some(*language);
        }
    }
    None
}

/// Whether a text begins with a tag, and no letter or digit follows, as
/// [`LanguagePlurals::for_tag`] finds languages.
///
/// The tag is in small letters, with `-` between its parts. Letters of the text count in either
/// case, and `_` counts as `-`.
///
/// ```no_run
/// begins_with_tag(b"pt-pt", b"pt_PT.UTF-8")
/// ```
///
/// [`LanguagePlurals::for_tag`]: crate::LanguagePlurals::for_tag
pub fn begins_with_tag(tag: &[u8], text: &[u8]) -> bool
    ensures { result ≡ begins_with_tag tag.now text.now }
{
    match tag {
        [] => ends(text),
        [byte, tag @ ..] => match text {
            [] => false,
            [other, text @ ..] => *byte == fold(*other) && begins_with_tag(tag, text),
        },
    }
}

/// Whether a part of a tag ends before this text.
fn ends(rest: &[u8]) -> bool
    ensures { result ≡ ends_here rest.now }
{
    match rest {
        [] => true,
        [byte, ..] => !byte.is_ascii_alphanumeric(),
    }
}

/// A byte of a tag as the table writes it.
fn fold(byte: u8) -> u8
    ensures { result ≡ folded byte }
{
    if byte == b'_' {
        b'-'
    } else {
        byte.to_ascii_lowercase()
    }
}
