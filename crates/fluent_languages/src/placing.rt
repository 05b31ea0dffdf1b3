//! The locale of a tag, and the request for one.
ghost use Rattle.std.specs.Prelude.{◌≡◌, option_map};
ghost use Rattle.fluent_languages.specs.Locales.{place_of};
ghost use Rattle.fluent_languages.specs.Tags.{read_tag, tag_of};
ghost use Rattle.fluent_languages.specs.Steps.{is_apart, main_of, place_of_tag};

use crate::likely::lists;
use crate::locale::{Locale, Request};
use crate::table::GROUPS;
use crate::tag::LanguageTag;
use crate::variants::Variants;

impl<'t> Locale<'t> {
    pub(crate) fn of(written: LanguageTag<'t>) -> Self
        ensures { place_of result ≡ place_of_tag (tag_of written.entry) }
    {
        let tag = written.modernize();
        let full = tag.maximize();
        Locale {
            written,
            tag,
            full,
            apart: is_apart(&full),
        }
    }

    /// The locale that a text names, if it is a tag.
    pub(crate) fn parse(text: &'t [u8]) -> Option<Self>
        ensures { option_map place_of result ≡ option_map place_of_tag (read_tag text.now) }
    {
        match LanguageTag::parse_bytes(text) {
            None => None,
            Some(tag) => Some(Locale::of(tag)),
        }
    }
}

/// Whether a region is in the group that is listed for its language.
#[tactic(auto, unfolding(crate::specs::Steps::is_apart))]
fn is_apart(tag: &LanguageTag<'_>) -> bool
    ensures { result ≡ is_apart (tag_of tag.now) }
{
    lists(&GROUPS, tag.language, tag.region)
}

impl<'t> Request<'t> {
    #[tactic(auto, unfolding(crate::specs::Steps::main_of))]
    pub(crate) fn of(locale: Locale<'t>) -> Self
        ensures { result.locale ≡ locale.entry }
    {
        let general = LanguageTag {
            language: locale.full.language,
            script: locale.full.script,
            region: "",
            variants: Variants { rest: "" },
        };
        Request {
            locale,
            main: general.maximize(),
        }
    }
}
