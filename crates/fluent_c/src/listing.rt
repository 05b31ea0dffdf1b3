//! What a bundle has: the ids of its messages, and the names of a message's attributes.

ghost use Rattle.std.specs.Prelude.{◌≡◌, ◌≢◌, ◌∷◌, [], IsSomeAnd, string_bytes};
ghost use Rattle.fluent_c.specs.Bundles.{KeepsSame};
ghost use Rattle.fluent_c.specs.Listing.{ListsMessages, ListsOfMessage, attributes_in, messages_in};
ghost use Rattle.fluent_c.specs.Made.{Holds, HoldsSame};
ghost use Rattle.fluent_c.specs.Statuses.{IsOneOf};
ghost use Rattle.fluent_c.specs.declared.TheConstants.{FLUENT_READ, FLUENT_NO_MEMORY};

use crate::filling::fill;
use crate::text::FluentText;
use crate::{FLUENT_NO_BUNDLE, FLUENT_NO_MEMORY, FLUENT_NO_MESSAGE, FLUENT_NOT_UTF8, FLUENT_READ};
use fluent_kept::{Answer, FluentBundle, Question};
use std::alloc::Global;
use std::str::from_utf8;

/// Lists the messages of a bundle: `text` then holds their ids, each ended by a line feed.
///
/// They are in the order of the first entries of the ids in the sources, and each is there once. An
/// id is there if what counts of it is a message: not if it is a term or the function `NUMBER`. An
/// empty text says that there is no message.
///
/// The call returns [`FLUENT_READ`], [`FLUENT_NO_BUNDLE`] if there is no bundle, or
/// [`FLUENT_NO_MEMORY`]. If it isn't [`FLUENT_READ`], `text` holds what it held, at the same
/// address.
#[unsafe(no_mangle)]
pub extern "C" fn fluent_bundle_messages(
    alloc: Global,
    bundle: &mut FluentBundle,
    text: &mut FluentText,
) -> u32
    ensures status { ListsMessages bundle.old result }
    ensures listed { result ≡ FLUENT_READ → Holds text.new (messages_in bundle.old) }
    ensures kept { KeepsSame bundle.new bundle.old }
    ensures unchanged { result ≢ FLUENT_READ → HoldsSame text.new text.old }
{
    match bundle.ask(alloc, &Question::Messages) {
        Some(Answer::Names(names)) => put_names(alloc, names, text),
        Some(_) => FLUENT_NO_MEMORY,
        None => FLUENT_NO_BUNDLE,
    }
}

/// Lists the attributes of a message: `text` then holds their names, each ended by a line feed.
///
/// They are in the order of the message. A name that the message has twice is there twice: of such
/// a name the first attribute is the one that is formatted. An empty text says that the message has
/// no attribute.
///
/// The call returns [`FLUENT_READ`], [`FLUENT_NO_MESSAGE`] if there is no message of the id,
/// [`FLUENT_NOT_UTF8`] if the id isn't UTF-8, [`FLUENT_NO_BUNDLE`] if there is no bundle, or
/// [`FLUENT_NO_MEMORY`]. If it isn't [`FLUENT_READ`], `text` holds what it held, at the same
/// address.
#[unsafe(no_mangle)]
pub extern "C" fn fluent_bundle_attributes<'a>(
    alloc: Global,
    bundle: &mut FluentBundle,
    id: &'a [u8],
    text: &mut FluentText,
) -> u32
    ensures status { ListsOfMessage bundle.old id.now result }
    ensures listed { result ≡ FLUENT_READ
        → IsSomeAnd (attributes_in bundle.old id.now) (Holds text.new) }
    ensures kept { KeepsSame bundle.new bundle.old }
    ensures unchanged { result ≢ FLUENT_READ → HoldsSame text.new text.old }
{
    let Ok(id) = from_utf8(id) else {
        return FLUENT_NOT_UTF8;
    };
    match bundle.ask(alloc, &Question::Attributes { id }) {
        Some(Answer::Names(names)) => put_names(alloc, names, text),
        Some(Answer::NoMessage) => FLUENT_NO_MESSAGE,
        Some(_) => FLUENT_NO_MEMORY,
        None => FLUENT_NO_BUNDLE,
    }
}

/// Puts the lines of names into the text of the caller.
pub(crate) fn put_names(alloc: Global, names: String, text: &mut FluentText) -> u32
    ensures decided { IsOneOf result (FLUENT_READ ∷ FLUENT_NO_MEMORY ∷ []) }
    ensures put { result ≡ FLUENT_READ → Holds text.new (string_bytes names) }
    ensures unchanged { result ≢ FLUENT_READ → HoldsSame text.new text.old }
{
    match fill(text, alloc, names.into_bytes()) {
        Ok(()) => FLUENT_READ,
        Err(_) => FLUENT_NO_MEMORY,
    }
}
