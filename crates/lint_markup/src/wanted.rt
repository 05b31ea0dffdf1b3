//! Tags that a text may have.
#![tactic(auto, using(fluent_tokens::proofs::Counted::cuts))]

ghost use Rattle.std.specs.Prelude.{◌≡◌};
ghost use Rattle.lint_findings.specs.Tags as t;
ghost use Rattle.lint_markup.specs.InCode.{tag_view};
ghost use Rattle.lint_markup.specs.Wanted as w;

use crate::names::tag_name;
use crate::tags::{Tag, tag_at};
use memchr::memchr;

/// A tag that is looked for.
#[derive(Clone, Copy)]
pub enum Wanted<'n> {
    /// One that opens this element.
    Opening(&'n str),
    /// One with this name.
    Named(&'n str),
}

impl Wanted<'_> {
    /// Whether a text has such a tag.
    pub fn is_in(&self, text: &str) -> bool
        ensures { result ≡ w.is_wanted self.now text.now }
    {
        let mut rest = text;
        while let Some(place) = memchr(b'<', rest.as_bytes()) {
            let at = &rest[place..];
            if self.is_at(at) {
                return true;
            }
            rest = &at[1..];
        }
        false
    }

    fn is_at(&self, text: &str) -> bool
        ensures { result ≡ w.is_found self.now (t.tag_at text.now) }
    {
        match tag_at(text) {
            Some(tag) => self.is(&tag),
            None => false,
        }
    }

    fn is(&self, tag: &Tag<'_>) -> bool
        ensures { result ≡ w.is_tag self.now (tag_view tag.now) }
    {
        match self {
            Wanted::Opening(element) => !tag.closes && tag.element == *element,
            Wanted::Named(name) => has_name(tag, name),
        }
    }
}

fn has_name(tag: &Tag<'_>, name: &str) -> bool
    ensures { result ≡ w.is_named name.now (tag_view tag.now) }
{
    match tag_name(tag) {
        Some(other) => other == name,
        None => false,
    }
}
