//! The calls that a message of a bundle meets, several at once.

ghost use Rattle.std.specs.Prelude.{◌≡◌, ◌≢◌};
ghost use Rattle.fluent_c.specs.Bundles.{KeepsSame};
ghost use Rattle.fluent_c.specs.Calling.{Calls, HoldsCalls};
ghost use Rattle.fluent_c.specs.Made.{HoldsSame};
ghost use Rattle.fluent_c.specs.declared.TheConstants.{FLUENT_CALL, FLUENT_READ};

use crate::arguments::arguments_of;
use crate::calling::status_of;
use crate::listing::put_names;
use crate::names::names_of;
use crate::text::FluentText;
use crate::{
    FLUENT_NO_BUNDLE, FLUENT_NO_MEMORY, FLUENT_NO_MESSAGE, FLUENT_NO_PATTERN, FLUENT_NOT_UTF8,
};
use fluent_kept::{Answer, FluentArgument, FluentBundle, Question};
use std::alloc::Global;

/// Lists calls that have no answer and that a message meets whatever any of them gives: `calls`
/// then holds the text of each, ended by a line feed.
///
/// [`fluent_bundle_call`](crate::fluent_bundle_call) gives the first of them alone. To answer all
/// of them before the message is formatted again takes fewer rounds. They are those of the
/// message's own placeables, in their order, and one that it has twice is there twice. A call among
/// whose arguments is one without an answer isn't there yet. The list ends at the first call of a
/// placeable that holds anything but literals, variables and calls of these, such as a select or a
/// term: what comes after it may depend on its answer. An empty text says that each call that is
/// met has an answer.
///
/// The call returns [`FLUENT_READ`], or else what [`fluent_bundle_call`](crate::fluent_bundle_call)
/// does; then `calls` holds what it held. Of a bundle that another call than
/// [`fluent_bundle_new_calling`](crate::fluent_bundle_new_calling) made the text is empty.
#[unsafe(no_mangle)]
pub extern "C" fn fluent_bundle_calls<'a>(
    alloc: Global,
    bundle: &mut FluentBundle,
    id: &'a [u8],
    attribute: &'a [u8],
    arguments: &[FluentArgument<'a>],
    answers: &[FluentArgument<'a>],
    calls: &mut FluentText,
) -> u32
    ensures status { Calls bundle.old id.now attribute.now arguments.now answers.now result }
    ensures no_call { result ≢ FLUENT_CALL }
    ensures listed { result ≡ FLUENT_READ
        → HoldsCalls bundle.old id.now attribute.now arguments.now answers.now calls.new }
    ensures kept { KeepsSame bundle.new bundle.old }
    ensures unchanged { result ≢ FLUENT_READ → HoldsSame calls.new calls.old }
{
    let Some((id, attribute)) = names_of(id, attribute) else {
        return FLUENT_NOT_UTF8;
    };
    let arguments = match arguments_of(alloc, arguments) {
        Ok(arguments) => arguments,
        Err(refusal) => return status_of(refusal),
    };
    let answers = match arguments_of(alloc, answers) {
        Ok(answers) => answers,
        Err(refusal) => return status_of(refusal),
    };
    let question = Question::Calls {
        id,
        attribute,
        arguments,
        answers,
    };
    match bundle.ask(alloc, &question) {
        Some(Answer::Names(names)) => put_names(alloc, names, calls),
        Some(Answer::NoMessage) => FLUENT_NO_MESSAGE,
        Some(Answer::NoPattern) => FLUENT_NO_PATTERN,
        Some(_) => FLUENT_NO_MEMORY,
        None => FLUENT_NO_BUNDLE,
    }
}
