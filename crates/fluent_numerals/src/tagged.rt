//! Texts for tags, and how one is found.
ghost use Rattle.std.specs.Prelude.{◌≡◌};
ghost use Rattle.fluent_numerals.specs.Tagged.{entries_of, entry_found, first_of, or_else};

use fluent_plurals::begins_with_tag;

/// A text for a tag, which is in small letters with `-` between its parts.
#[derive(Clone, Copy)]
pub(crate) struct Tagged(pub(crate) &'static str, pub(crate) &'static str);

/// Texts for tags: `texts!["de" "$", "fr" "$US"]`.
macro_rules! texts {
    ($($tag:literal $text:literal),* $(,)?) => {
        [$(Tagged($tag, $text)),*]
    };
}

pub(crate) use texts;

/// The first of the entries whose tag a text begins with.
pub(crate) fn first_fitting(entries: &[Tagged], text: &[u8]) -> Option<Tagged>
    ensures { entry_found result ≡ first_of (entries_of entries.now) text.now }
{
    for entry in entries {
        if begins_with_tag(entry.0.as_bytes(), text) {
            return Some(*entry);
        }
    }
    None
}

/// The first of two that is there.
pub(crate) fn first_entry(first: Option<Tagged>, second: Option<Tagged>) -> Option<Tagged>
    ensures { entry_found result ≡ or_else (entry_found first) (entry_found second) }
{
    match first {
        Some(entry) => Some(entry),
        None => second,
    }
}
