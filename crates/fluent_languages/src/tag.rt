//! Language tags.
ghost use Rattle.std.specs.Prelude.{◌≡◌, option_map};
ghost use Rattle.fluent_languages.specs.Tags.{folded, named, or_else, read_tag, same_tag, same_text, same_texts, small, more_parts, tag_of, variants_left};
ghost use Rattle.fluent_languages.specs.Steps.{maximized, modern};
ghost use Rattle.std.specs.Prelude.{map};
ghost use Rattle.std.specs.Char.{to_ascii_lowercase};

use crate::likely::{find_alias, find_subtags};
use crate::parts::{
    are_variants, fold, language_fits, split_part, split_region, split_script, text_of,
};
use crate::variants::Variants;

/// A language tag, such as `de`, `zh-Hant-TW` or `ca-ES-valencia`: a language, and a script, a
/// region and variants if they are named. Letters may be in either case, and `_` is the same as
/// `-`.
///
/// It borrows the text that it is read from.
#[derive(Clone, Copy, Debug)]
pub struct LanguageTag<'t> {
    pub(crate) language: &'t str,
    pub(crate) script: &'t str,
    pub(crate) region: &'t str,
    pub(crate) variants: Variants<'t>,
}

impl<'t> LanguageTag<'t> {
    /// The tag that a text is, or `None` if it is none. A text of more than 255 bytes is none.
    pub fn parse(text: &'t str) -> Option<Self>
        ensures { option_map tag_of result ≡ read_tag text.now }
    {
        Self::parse_bytes(text.as_bytes())
    }

    /// The same for bytes.
    pub fn parse_bytes(text: &'t [u8]) -> Option<Self>
        ensures { option_map tag_of result ≡ read_tag text.now }
    {
        // What follows calls itself for each byte, so a text of any length would take any amount of
        // stack.
        if text.len() > 255 {
            return None;
        }
        let language = split_part(text);
        let script = split_script(language.rest);
        let region = split_region(script.rest);
        if language_fits(language.part) && are_variants(region.rest) {
            Some(LanguageTag {
                language: text_of(language.part),
                script: text_of(script.part),
                region: text_of(region.part),
                variants: Variants {
                    rest: text_of(region.rest),
                },
            })
        } else {
            None
        }
    }

    /// The language, such as `zh`. Like the other parts it is as it was written, in either case.
    pub fn language(&self) -> &'t str
        ensures { small result.now ≡ (tag_of self.now).language }
    {
        self.language
    }

    /// The script, such as `Hant`, if one is named.
    pub fn script(&self) -> Option<&'t str>
        ensures { option_map (λ part. small part.now) result ≡ named (tag_of self.now).script }
    {
        named(self.script)
    }

    /// The region, such as `TW` or `419`, if one is named.
    pub fn region(&self) -> Option<&'t str>
        ensures { option_map (λ part. small part.now) result ≡ named (tag_of self.now).region }
    {
        named(self.region)
    }

    /// The variants, such as `valencia`.
    pub fn variants(&self) -> Variants<'t>
        ensures { map small (variants_left result) ≡ (tag_of self.now).variants }
    {
        self.variants
    }

    /// The tag with the script and the region that its language likely has, such as `zh-Hant-TW`
    /// for `zh-TW`.
    #[tactic(auto, unfolding(crate::specs::Steps::maximized))]
    pub fn maximize(&self) -> Self
        ensures { tag_of result ≡ maximized (tag_of self.now) }
    {
        let likely = find_subtags(self);
        LanguageTag {
            language: self.language,
            script: part_or(self.script, likely.script),
            region: part_or(self.region, likely.region),
            variants: self.variants,
        }
    }

    /// The tag by the newer code of its language, such as `he` for `iw` and `no` for `nb`.
    #[tactic(auto, unfolding(crate::specs::Steps::modern))]
    pub(crate) fn modernize(&self) -> Self
        ensures { tag_of result ≡ modern (tag_of self.now) }
    {
        let Some(row) = find_alias(self.language) else {
            return *self;
        };
        LanguageTag {
            language: part_or("", row.language),
            script: part_or(self.script, row.script),
            region: self.region,
            variants: self.variants,
        }
    }

    /// Whether two tags are the same but for case and separators.
    pub fn is_same(&self, other: &LanguageTag<'_>) -> bool
        ensures { result ≡ same_tag (tag_of self.now) (tag_of other.now) }
    {
        is_same_part(self.language, other.language)
            && is_same_part(self.script, other.script)
            && is_same_part(self.region, other.region)
            && are_same_variants(
                self.variants.rest.as_bytes(),
                other.variants.rest.as_bytes(),
            )
    }
}

/// A part, unless it is left out.
fn named(part: &str) -> Option<&str>
    ensures { option_map (λ part. small part.now) result ≡ named (small part.now) }
{
    if part.is_empty() { None } else { Some(part) }
}

/// The first of two parts that is there.
fn part_or<'t>(part: &'t str, other: &'static str) -> &'t str
    ensures { small result.now ≡ or_else (small part.now) (small other.now) }
{
    if part.is_empty() { other } else { part }
}

/// Whether two parts are the same but for case.
pub(crate) fn is_same_part(a: &str, b: &str) -> bool
    ensures { result ≡ same_text (small a.now) (small b.now) }
{
    are_same_bytes(a.as_bytes(), b.as_bytes())
}

pub(crate) fn are_same_bytes(a: &[u8], b: &[u8]) -> bool
    ensures { result ≡ same_text (small a.now) (small b.now) }
{
    match a {
        [] => match b {
            [] => true,
            [_, ..] => false,
        },
        [x, a @ ..] => match b {
            [] => false,
            [y, b @ ..] => {
                x.to_ascii_lowercase() == y.to_ascii_lowercase() && are_same_bytes(a, b)
            }
        },
    }
}

/// Whether the variants of two tags are the same, in the same order.
pub(crate) fn are_same_variants(a: &[u8], b: &[u8]) -> bool
    ensures { result ≡ same_texts (map small (more_parts a.now)) (map small (more_parts b.now)) }
{
    match a {
        [] => match b {
            [] => true,
            [_, ..] => false,
        },
        [_, a @ ..] => match b {
            [] => false,
            [_, b @ ..] => are_same_folded(a, b),
        },
    }
}

/// Whether two texts are the same but for case and separators.
fn are_same_folded(a: &[u8], b: &[u8]) -> bool
    ensures { result ≡ same_text (map folded a.now) (map folded b.now) }
{
    match a {
        [] => match b {
            [] => true,
            [_, ..] => false,
        },
        [x, a @ ..] => match b {
            [] => false,
            [y, b @ ..] => fold(*x) == fold(*y) && are_same_folded(a, b),
        },
    }
}
