//! Bundles whose messages call functions of the program.

ghost use Rattle.std.specs.Prelude.{◌≡◌, ◌≢◌, IfOk, map, string_bytes};
ghost use Rattle.fluent_c.specs.Answering.{texts_of};
ghost use Rattle.fluent_c.specs.Bundles.{KeepsSame};
ghost use Rattle.fluent_c.specs.Calling.{Calls, GivesOnRead, HoldsMissing, KeepsCalling, MakesCalling, refused_status};
ghost use Rattle.fluent_c.specs.Made.{HoldsSame};
ghost use Rattle.fluent_c.specs.declared.TheConstants.{FLUENT_CALL, FLUENT_READ};

use crate::answering::{FluentSource, Refusal, are_utf8, checked_texts};
use crate::arguments::{ArgumentRefusal, arguments_of};
use crate::bundles::copied;
use crate::filling::{fill, take_spare};
use crate::formatting::hand_out;
use crate::names::names_of;
use crate::options::{FluentBundleOptions, keep_by};
use crate::text::FluentText;
use crate::{
    FLUENT_BAD_ARGUMENT, FLUENT_BUNDLE_OPTIONS_SIZE, FLUENT_CALL, FLUENT_NO_BUNDLE,
    FLUENT_NO_MEMORY, FLUENT_NO_MESSAGE, FLUENT_NO_PATTERN, FLUENT_NOT_UTF8, FLUENT_READ,
};
use fluent_kept::{Answer, FluentArgument, FluentBundle, Question};
use std::alloc::Global;
use std::cell::Cell;

/// Copies of the names of functions that are UTF-8.
///
/// # Errors
/// [`Refusal::Memory`] if memory runs out; nothing is kept.
fn copied_names(alloc: Global, functions: &[FluentSource<'_>]) -> Result<Vec<String>, Refusal>
    ensures { IfOk result (λ names. map string_bytes names.items ≡ texts_of functions.now) }
{
    let borrowed = checked_texts(alloc, functions)?;
    Ok(copied(alloc, &borrowed)?)
}

/// As [`fluent_bundle_new_with`](crate::fluent_bundle_new_with), for messages that call functions
/// of these names: they are formatted by [`fluent_bundle_call`].
///
/// A name that is the id of a message or a term of the sources, or `NUMBER`, is no function. A
/// function `DATETIME` takes the place of the one that is there. The names are copied. The call
/// returns [`FLUENT_NOT_UTF8`], too, if a name isn't UTF-8.
#[unsafe(no_mangle)]
pub extern "C" fn fluent_bundle_new_calling(
    alloc: Global,
    sources: &[FluentSource<'_>],
    options: &FluentBundleOptions<'_>,
    functions: &[FluentSource<'_>],
    made: &mut FluentBundle,
) -> u32
    ensures status { MakesCalling options.now sources.now functions.now result }
    ensures made { result ≡ FLUENT_READ
        → KeepsCalling functions.now options.now sources.now made.new }
    ensures unchanged { result ≢ FLUENT_READ → made.new ≡ made.old }
{
    if options.size != FLUENT_BUNDLE_OPTIONS_SIZE {
        return FLUENT_BAD_ARGUMENT;
    }
    if !are_utf8(functions) {
        return FLUENT_NOT_UTF8;
    }
    match copied_names(alloc, functions) {
        Ok(names) => keep_by(alloc, sources, options, Some(names), made),
        Err(_) => FLUENT_NO_MEMORY,
    }
}

/// Formats a message of a bundle whose messages call functions, with these arguments and these
/// answers to calls.
///
/// An answer is an argument whose name is the text of its call. As long as the message meets a call
/// that has no answer, the call returns [`FLUENT_CALL`], and `call` holds the text of the first of
/// them: answer it, and call again with that answer too. Then `text` and `errors` hold what they
/// held. Of answers to one call the last counts, and answers to calls that aren't met do nothing.
///
/// Otherwise it returns what [`fluent_bundle_format`](crate::fluent_bundle_format) does, and `call`
/// holds what it held; it is [`FLUENT_NOT_UTF8`] or [`FLUENT_BAD_ARGUMENT`], too, for an answer
/// that isn't taken. Of a bundle that another call than [`fluent_bundle_new_calling`] made it is
/// the same call, whatever the answers are.
#[unsafe(no_mangle)]
pub extern "C" fn fluent_bundle_call<'a>(
    alloc: Global,
    bundle: &mut FluentBundle,
    id: &'a [u8],
    attribute: &'a [u8],
    arguments: &[FluentArgument<'a>],
    answers: &[FluentArgument<'a>],
    text: &mut FluentText,
    errors: &mut FluentText,
    call: &mut FluentText,
) -> u32
    ensures status { Calls bundle.old id.now attribute.now arguments.now answers.now result }
    ensures answered { GivesOnRead result bundle.old id.now attribute.now arguments.now answers.now
        text.new errors.new }
    ensures missing { result ≡ FLUENT_CALL → HoldsMissing bundle.old answers.now call.new }
    ensures kept { KeepsSame bundle.new bundle.old }
    ensures unchanged { result ≢ FLUENT_READ
        → HoldsSame text.new text.old × HoldsSame errors.new errors.old }
    ensures no_call { result ≢ FLUENT_CALL → HoldsSame call.new call.old }
{
    let Some((id, attribute)) = names_of(id, attribute) else {
        return FLUENT_NOT_UTF8;
    };
    let arguments = match arguments_of(alloc, arguments) {
        Ok(arguments) => arguments,
        Err(refusal) => return status_of(refusal),
    };
    let answers = match arguments_of(alloc, answers) {
        Ok(answers) => answers,
        Err(refusal) => return status_of(refusal),
    };
    let question = Question::Call {
        id,
        attribute,
        arguments,
        answers,
        spare: Cell::new(take_spare(text, alloc)),
    };
    match bundle.ask(alloc, &question) {
        Some(Answer::Reply(reply)) => match hand_out(alloc, reply, text, errors) {
            Ok(()) => FLUENT_READ,
            Err(_) => FLUENT_NO_MEMORY,
        },
        Some(Answer::Call(missing)) => match fill(call, alloc, missing.into_bytes()) {
            Ok(()) => FLUENT_CALL,
            Err(_) => FLUENT_NO_MEMORY,
        },
        Some(Answer::NoMessage) => FLUENT_NO_MESSAGE,
        Some(Answer::NoPattern) => FLUENT_NO_PATTERN,
        Some(_) => FLUENT_NO_MEMORY,
        None => FLUENT_NO_BUNDLE,
    }
}

/// What a call returns whose arguments or answers aren't taken.
pub(crate) fn status_of(refusal: ArgumentRefusal) -> u32
    ensures { result ≡ refused_status refusal }
{
    match refusal {
        ArgumentRefusal::NotUtf8 => FLUENT_NOT_UTF8,
        ArgumentRefusal::NoValue => FLUENT_BAD_ARGUMENT,
        ArgumentRefusal::Memory => FLUENT_NO_MEMORY,
    }
}
