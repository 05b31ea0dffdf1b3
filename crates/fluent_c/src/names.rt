//! The id of a message and the name of an attribute.

ghost use Rattle.std.specs.Prelude.{MatchOption};
ghost use Rattle.fluent_c.specs.Bundles.{AreNamed, AreNames};

use crate::utf8::text_in;

/// An id, and the name of an attribute unless it is empty, if both are UTF-8.
pub(crate) fn names_of<'a>(id: &'a [u8], attribute: &'a [u8]) -> Option<(&'a str, Option<&'a str>)>
    ensures { MatchOption result (¬ (AreNames id.now attribute.now))
        (AreNamed id.now attribute.now) }
{
    let id = text_in(id)?;
    let name = text_in(attribute)?;
    if name.is_empty() {
        return Some((id, None));
    }
    Some((id, Some(name)))
}
