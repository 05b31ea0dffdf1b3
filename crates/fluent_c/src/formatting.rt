//! The text of a message, from a bundle that is kept.

ghost use Rattle.std.specs.Prelude.{◌≡◌, ◌≢◌, IfOk, OnErr, OnOk};
ghost use Rattle.fluent_run.specs.ReplyView.{reply_view};
ghost use Rattle.fluent_c.specs.Bundles.{HoldReply, HoldsLines, KeepsSame, Replies};
ghost use Rattle.fluent_c.specs.Made.{HoldsSame};
ghost use Rattle.fluent_c.specs.Statuses.{Formats};
ghost use Rattle.fluent_c.specs.declared.TheConstants.{FLUENT_READ};

use crate::arguments::{ArgumentRefusal, arguments_of};
use crate::filling::{fill, take_spare};
use crate::names::names_of;
use crate::text::FluentText;
use crate::{
    FLUENT_BAD_ARGUMENT, FLUENT_NO_BUNDLE, FLUENT_NO_MEMORY, FLUENT_NO_MESSAGE, FLUENT_NO_PATTERN,
    FLUENT_NOT_UTF8, FLUENT_READ,
};
use fluent_kept::{Answer, FluentArgument, FluentBundle, Question};
use fluent_run::Reply;
use std::alloc::{AllocError, Global};
use std::cell::Cell;

/// A line for each error of a reply, or no text if there are none.
///
/// # Errors
/// [`AllocError`] if memory runs out; nothing is kept.
pub(crate) fn error_lines(alloc: Global, reply: &Reply) -> Result<FluentText, AllocError>
    ensures { IfOk result (λ made. HoldsLines made (reply_view reply.now).errors) }
{
    if reply.errors.is_empty() {
        return Ok(FluentText::none());
    }
    let lines = reply.errors_text(alloc)?;
    FluentText::of(alloc, lines.into_bytes())
}

/// Puts a reply into the texts of the caller.
///
/// # Errors
/// [`AllocError`] if memory runs out; the texts hold what they held.
pub(crate) fn hand_out(
    alloc: Global,
    reply: Reply,
    text: &mut FluentText,
    errors: &mut FluentText,
) -> Result<(), AllocError>
    ensures answered { OnOk result (HoldReply text.new errors.new (reply_view reply)) }
    ensures unchanged { OnErr result
        (HoldsSame text.new text.old × HoldsSame errors.new errors.old) }
{
    let lines = error_lines(alloc, &reply)?;
    match fill(text, alloc, reply.text.into_bytes()) {
        Ok(()) => {
            errors.put(alloc, lines);
            Ok(())
        }
        Err(error) => {
            let _freed = lines.into_bytes(alloc);
            Err(error)
        }
    }
}

/// Formats a message of a bundle with these arguments: its value if `attribute` is empty, and
/// otherwise its first attribute of that name.
///
/// The call returns [`FLUENT_READ`] also if there are errors: then `text` holds the text and
/// `errors` a line for each error, or no text if there are none, and what `errors` held before is
/// freed. The memory of what `text` held is kept with the new text, and the next answer is written
/// into it: an answer allocates nothing for its text if that suffices.
///
/// It returns [`FLUENT_NOT_UTF8`] if the id, a name or a text isn't UTF-8, [`FLUENT_BAD_ARGUMENT`]
/// if an argument's kind isn't known, or its text is no decimal or no date,
/// [`FLUENT_NO_MESSAGE`] if there is no message of the id, [`FLUENT_NO_PATTERN`] if the message
/// lacks the value or the attribute, [`FLUENT_NO_BUNDLE`] if there is no bundle, and
/// [`FLUENT_NO_MEMORY`] otherwise: then both texts hold what they held, at the same address. The
/// bundle is as it was in each case.
#[unsafe(no_mangle)]
pub extern "C" fn fluent_bundle_format<'a>(
    alloc: Global,
    bundle: &mut FluentBundle,
    id: &'a [u8],
    attribute: &'a [u8],
    arguments: &[FluentArgument<'a>],
    text: &mut FluentText,
    errors: &mut FluentText,
) -> u32
    ensures status { Formats bundle.old id.now attribute.now arguments.now result }
    ensures answered { result ≡ FLUENT_READ
        → Replies bundle.old id.now attribute.now arguments.now text.new errors.new }
    ensures kept { KeepsSame bundle.new bundle.old }
    ensures unchanged { result ≢ FLUENT_READ
        → HoldsSame text.new text.old × HoldsSame errors.new errors.old }
{
    let Some((id, attribute)) = names_of(id, attribute) else {
        return FLUENT_NOT_UTF8;
    };
    let arguments = match arguments_of(alloc, arguments) {
        Ok(arguments) => arguments,
        Err(ArgumentRefusal::NotUtf8) => return FLUENT_NOT_UTF8,
        Err(ArgumentRefusal::NoValue) => return FLUENT_BAD_ARGUMENT,
        Err(ArgumentRefusal::Memory) => return FLUENT_NO_MEMORY,
    };
    let question = Question::Format {
        id,
        attribute,
        arguments,
        spare: Cell::new(take_spare(text, alloc)),
    };
    match bundle.ask(alloc, &question) {
        Some(Answer::Reply(reply)) => match hand_out(alloc, reply, text, errors) {
            Ok(()) => FLUENT_READ,
            Err(_) => FLUENT_NO_MEMORY,
        },
        Some(Answer::NoMessage) => FLUENT_NO_MESSAGE,
        Some(Answer::NoPattern) => FLUENT_NO_PATTERN,
        Some(_) => FLUENT_NO_MEMORY,
        None => FLUENT_NO_BUNDLE,
    }
}
