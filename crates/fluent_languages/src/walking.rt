//! The variants of a tag, one after the other.
ghost use Rattle.std.specs.Iterator.{YieldsFirstRef, item_count};
ghost use Rattle.fluent_languages.specs.Tags.{variants_left};

use crate::parts::{split_part, text_of};
use crate::variants::Variants;

impl<'t> Iterator for Variants<'t> {
    type Item = &'t str;

    ghost next_gives = { YieldsFirstRef variants_left };

    ghost remaining = { item_count variants_left };

    fn next(&mut self) -> Option<&'t str> {
        match self.rest.as_bytes() {
            [] => None,
            [_, more @ ..] => {
                let split = split_part(more);
                *self = Variants {
                    rest: text_of(split.rest),
                };
                Some(text_of(split.part))
            }
        }
    }
}
