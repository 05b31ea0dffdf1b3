//! The variables that a message of a bundle is shown with.

ghost use Rattle.std.specs.Prelude.{◌≡◌, ◌≢◌, IsSomeAnd};
ghost use Rattle.fluent_c.specs.Bundles.{KeepsSame};
ghost use Rattle.fluent_c.specs.Listing.{ListsOfMessage, variables_in};
ghost use Rattle.fluent_c.specs.Made.{Holds, HoldsSame};
ghost use Rattle.fluent_c.specs.declared.TheConstants.{FLUENT_READ};

use crate::listing::put_names;
use crate::text::FluentText;
use crate::{FLUENT_NO_BUNDLE, FLUENT_NO_MEMORY, FLUENT_NO_MESSAGE, FLUENT_NOT_UTF8};
use fluent_kept::{Answer, FluentBundle, Question};
use std::alloc::Global;
use std::str::from_utf8;

/// Lists the variables that a message is shown with: `text` then holds their names, each ended by a
/// line feed.
///
/// They are those of the message and those of the messages that it refers to, directly or not, in
/// values and in attributes alike. First come those of the message, in the order in which it has
/// them, then those of the messages that it names, in that order, and then those of the messages
/// that these name. Each is there once, also if messages refer to each other or to themselves. Of a
/// term nothing is there: its variables are its own arguments. An empty text says that there is no
/// variable.
///
/// A call takes time in proportion to what the message refers to: so to ask for each message of a
/// long chain of references takes time in proportion to the square of its length.
///
/// The call returns [`FLUENT_READ`], [`FLUENT_NO_MESSAGE`] if there is no message of the id,
/// [`FLUENT_NOT_UTF8`] if the id isn't UTF-8, [`FLUENT_NO_BUNDLE`] if there is no bundle, or
/// [`FLUENT_NO_MEMORY`]. If it isn't [`FLUENT_READ`], `text` holds what it held, at the same
/// address.
#[unsafe(no_mangle)]
pub extern "C" fn fluent_bundle_variables<'a>(
    alloc: Global,
    bundle: &mut FluentBundle,
    id: &'a [u8],
    text: &mut FluentText,
) -> u32
    ensures status { ListsOfMessage bundle.old id.now result }
    ensures listed { result ≡ FLUENT_READ
        → IsSomeAnd (variables_in bundle.old id.now) (Holds text.new) }
    ensures kept { KeepsSame bundle.new bundle.old }
    ensures unchanged { result ≢ FLUENT_READ → HoldsSame text.new text.old }
{
    let Ok(id) = from_utf8(id) else {
        return FLUENT_NOT_UTF8;
    };
    match bundle.ask(alloc, &Question::Variables { id }) {
        Some(Answer::Names(names)) => put_names(alloc, names, text),
        Some(Answer::NoMessage) => FLUENT_NO_MESSAGE,
        Some(_) => FLUENT_NO_MEMORY,
        None => FLUENT_NO_BUNDLE,
    }
}
