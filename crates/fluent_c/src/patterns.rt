//! Patterns that are looked up once, and whose texts are written into memory of the caller.

ghost use Rattle.std.specs.Prelude.{◌≡◌, ◌≢◌, IfErr, IfOk, OnErr, OnOk};
ghost use Rattle.fluent_c.specs.Bundles.{AreNamed, AreNames, KeepsSame};
ghost use Rattle.fluent_c.specs.Made.{HoldsSame};
ghost use Rattle.fluent_c.specs.Arguments.{AreRefusedFor, AreTaken};
ghost use Rattle.fluent_c.specs.Patterns.{ArePromised, Exceeds, HasNoLen, IsAnswerTo, IsUnwrittenFor, Returns, Writes, WritesIn};
ghost use Rattle.fluent_c.specs.Statuses.{LooksFor};
ghost use Rattle.fluent_c.specs.declared.TheConstants.{FLUENT_NO_ROOM, FLUENT_READ};
ghost use Rattle.fluent_run.specs.ReplyView.{reply_view};

use crate::arguments::{ArgumentRefusal, FEW, arguments_of};
use crate::calling::status_of;
use crate::formatting::error_lines;
use crate::names::names_of;
use crate::promised::check_values;
use crate::text::FluentText;
use crate::{
    FLUENT_CALL, FLUENT_NO_BUNDLE, FLUENT_NO_MEMORY, FLUENT_NO_MESSAGE, FLUENT_NO_PATTERN,
    FLUENT_NO_ROOM, FLUENT_NOT_UTF8, FLUENT_READ,
};
use fluent_kept::{Answer, FluentArgument, FluentBundle, Given, Question};
use fluent_run::Reply;
use fluent_value::FluentArgs;
use std::alloc::Global;
use std::cell::Cell;
use std::str::from_utf8_unchecked;

/// A pattern: a message's value if `attribute` is empty, and otherwise its first attribute of that
/// name.
///
/// ```c
/// struct FluentPattern welcome = {.id = bytes_of("welcome"), .id_len = strlen("welcome"), .attribute = bytes_of("")};
/// ```
#[repr(C)]
#[derive(Clone, Copy)]
pub struct FluentPattern<'a> {
    pub id: &'a [u8],
    pub attribute: &'a [u8],
    /// What [`fluent_bundle_find`] gave, or any number.
    pub number: usize,
}

/// Looks a pattern up, and gives it a number, by which [`fluent_bundle_write`] finds it from then
/// on.
///
/// The call returns what [`fluent_bundle_has`](crate::fluent_bundle_has) does. If it isn't
/// [`FLUENT_READ`], `number` is unchanged. A message that is looked up again has the number that it
/// had, and takes no memory; if memory runs out, the number is that of no message.
#[unsafe(no_mangle)]
pub extern "C" fn fluent_bundle_find<'a>(
    alloc: Global,
    bundle: &mut FluentBundle,
    id: &'a [u8],
    attribute: &'a [u8],
    number: &mut usize,
) -> u32
    ensures status { LooksFor bundle.old id.now attribute.now result }
    ensures kept { KeepsSame bundle.new bundle.old }
    ensures unchanged { result ≢ FLUENT_READ → number.new ≡ number.old }
{
    let Some((id, attribute)) = names_of(id, attribute) else {
        return FLUENT_NOT_UTF8;
    };
    let place = Cell::new(*number);
    let question = Question::Find {
        id,
        attribute,
        place: &place,
    };
    match bundle.ask(alloc, &question) {
        Some(Answer::Found) => {
            *number = place.get();
            FLUENT_READ
        }
        Some(Answer::NoMessage) => FLUENT_NO_MESSAGE,
        Some(Answer::NoPattern) => FLUENT_NO_PATTERN,
        Some(
            Answer::Memory
            | Answer::Reply(_)
            | Answer::Call(_)
            | Answer::Names(_)
            | Answer::Report(_),
        ) => unreachable!(),
        None => FLUENT_NO_BUNDLE,
    }
}

/// The id and the attribute of a pattern, which are UTF-8.
fn named<'a>(pattern: &FluentPattern<'a>) -> (&'a str, Option<&'a str>)
    requires { AreNames pattern.now.id.now pattern.now.attribute.now }
    ensures { AreNamed pattern.now.id.now pattern.now.attribute.now result }
{
    let id = unsafe { from_utf8_unchecked(pattern.id) };
    if pattern.attribute.is_empty() {
        return (id, None);
    }
    (id, Some(unsafe { from_utf8_unchecked(pattern.attribute) }))
}

/// What a bundle answers for a pattern with these arguments, which stay where they are unless they
/// are many.
///
/// # Errors
/// [`ArgumentRefusal::NoValue`] if one of them has no value, and [`ArgumentRefusal::Memory`] if
/// memory runs out for many.
fn answer_to<'a>(
    alloc: Global,
    bundle: &mut FluentBundle,
    pattern: &FluentPattern<'a>,
    arguments: &[FluentArgument<'a>],
) -> Result<Option<Answer>, ArgumentRefusal>
    requires { ArePromised pattern.now arguments.now }
    ensures answer { IfOk result (IsAnswerTo bundle.old pattern.now arguments.now) }
    ensures kept { KeepsSame bundle.new bundle.old }
    ensures taken { OnOk result (AreTaken arguments.now) }
    ensures refused { IfErr result (AreRefusedFor arguments.now) }
{
    if arguments.len() > FEW {
        return answer_to_many(alloc, bundle, pattern, arguments);
    }
    check_values(arguments)?;
    let (id, attribute) = named(pattern);
    let question = Question::Write {
        place: pattern.number,
        id,
        attribute,
        arguments: Given::new(arguments),
    };
    Ok(bundle.ask(alloc, &question))
}

/// What a bundle answers for a pattern with many arguments, which are put in the order of their
/// names.
///
/// # Errors
/// Those of [`answer_to`].
fn answer_to_many<'a>(
    alloc: Global,
    bundle: &mut FluentBundle,
    pattern: &FluentPattern<'a>,
    arguments: &[FluentArgument<'a>],
) -> Result<Option<Answer>, ArgumentRefusal>
    requires { ArePromised pattern.now arguments.now }
    ensures answer { IfOk result (IsAnswerTo bundle.old pattern.now arguments.now) }
    ensures kept { KeepsSame bundle.new bundle.old }
    ensures taken { OnOk result (AreTaken arguments.now) }
    ensures refused { IfErr result (AreRefusedFor arguments.now) }
{
    let (id, attribute) = named(pattern);
    let question = Question::Call {
        id,
        attribute,
        arguments: arguments_of(alloc, arguments)?,
        answers: FluentArgs::new(alloc),
        spare: Cell::new(String::new(alloc)),
    };
    Ok(bundle.ask(alloc, &question))
}

/// Why the text of a reply isn't written.
#[derive(Clone, Copy)]
enum Unwritten {
    /// Memory ran out.
    Memory = 1,
    /// There is no room for it.
    NoRoom = 2,
}

/// Writes the text of a reply into memory of the caller.
///
/// # Errors
/// [`Unwritten::NoRoom`] if it has no room for it, and [`Unwritten::Memory`] if memory runs out for
/// the lines of errors.
fn write_out(
    alloc: Global,
    reply: &Reply,
    room: &mut [u8],
    len: &mut usize,
    errors: &mut FluentText,
) -> Result<(), Unwritten>
    ensures written { OnOk result
        (WritesIn (reply_view reply.now) room.old room.new len.new errors.new) }
    ensures unwritten { IfErr result
        (λ why. IsUnwrittenFor why (reply_view reply.now) room.old len.old len.new) }
    ensures unchanged { OnErr result ((room.new ≡ room.old) × HoldsSame errors.new errors.old) }
{
    let text = reply.text.as_bytes();
    if text.len() > room.len() {
        *len = text.len();
        return Err(Unwritten::NoRoom);
    }
    let Ok(lines) = error_lines(alloc, reply) else {
        return Err(Unwritten::Memory);
    };
    room[..text.len()].copy_from_slice(text);
    *len = text.len();
    errors.put(alloc, lines);
    Ok(())
}

/// Writes the text of a pattern with these arguments into `room`, and how many bytes it has into
/// `len`. No byte 0 is after it.
///
/// The id, the attribute, and the names and texts of the arguments have to be UTF-8. That isn't
/// checked: a byte that isn't leads to undefined behaviour. Those that
/// [`fluent_bundle_find`] took are.
///
/// The text, its errors and the status are those of
/// [`fluent_bundle_call`](crate::fluent_bundle_call) without answers, whatever the number is: a
/// number of another bundle, or of one that was made anew, is passed over, and the message is
/// looked up by its id. So for a bundle that another call than
/// [`fluent_bundle_new_calling`](crate::fluent_bundle_new_calling) made they are those of
/// [`fluent_bundle_format`](crate::fluent_bundle_format). If [`FLUENT_CALL`] is returned, the
/// pattern calls a function, and [`fluent_bundle_call`](crate::fluent_bundle_call) says which.
///
/// If `room` is too small for the text, the call returns [`FLUENT_NO_ROOM`], and `len` says how
/// many bytes suffice. Unless it returns [`FLUENT_READ`], `room` and `errors` hold what they held,
/// and unless it is one of the two, `len` does.
#[unsafe(no_mangle)]
pub extern "C" fn fluent_bundle_write<'a>(
    alloc: Global,
    bundle: &mut FluentBundle,
    pattern: &FluentPattern<'a>,
    arguments: &[FluentArgument<'a>],
    room: &mut [u8],
    len: &mut usize,
    errors: &mut FluentText,
) -> u32
    requires utf8 { ArePromised pattern.now arguments.now }
    ensures status { Returns bundle.old pattern.now arguments.now result }
    ensures text { result ≡ FLUENT_READ
        → Writes bundle.old pattern.now arguments.now room.old room.new len.new errors.new }
    ensures no_room { result ≡ FLUENT_NO_ROOM
        → Exceeds bundle.old pattern.now arguments.now room.old len.new }
    ensures kept { KeepsSame bundle.new bundle.old }
    ensures unchanged { result ≢ FLUENT_READ
        → (room.new ≡ room.old) × HoldsSame errors.new errors.old }
    ensures same_len { HasNoLen result → len.new ≡ len.old }
{
    let answer = match answer_to(alloc, bundle, pattern, arguments) {
        Ok(answer) => answer,
        Err(refusal) => return status_of(refusal),
    };
    match answer {
        Some(Answer::Reply(reply)) => match write_out(alloc, &reply, room, len, errors) {
            Ok(()) => FLUENT_READ,
            Err(Unwritten::NoRoom) => FLUENT_NO_ROOM,
            Err(Unwritten::Memory) => FLUENT_NO_MEMORY,
        },
        Some(Answer::Call(_)) => FLUENT_CALL,
        Some(Answer::NoMessage) => FLUENT_NO_MESSAGE,
        Some(Answer::NoPattern) => FLUENT_NO_PATTERN,
        Some(_) => FLUENT_NO_MEMORY,
        None => FLUENT_NO_BUNDLE,
    }
}
