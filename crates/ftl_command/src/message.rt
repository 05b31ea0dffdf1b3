//! The text of a message, from sources.

ghost use Rattle.std.specs.Prelude.{IfOk, option_map};
ghost use Rattle.fluent_run.specs.ReplyView.{reply_view};
ghost use Rattle.ftl_command.specs.FormatView.{IsReply, IsWritten, IsWrittenAs};

use crate::message_errors::error_lines;
use fluent_resource::parse_sources;
use fluent_run::{Desk, Reply, Settings, StackBudget, valued_arguments};
use fluent_value::{FluentArgs, MemoizerKind, NoCustom};
use std::alloc::{AllocError, Global};

/// The output for a message.
#[derive(Debug, Drop)]
pub struct Formatted {
    /// Its text, and a line feed.
    pub text: String,
    /// A line for each error that came up, and nothing if none did.
    pub errors: String,
}

/// The text of a message of `sources`, or of its first attribute of a name. `None` if there is no
/// such message, value or attribute. An argument whose text is a number is that number.
///
/// # Errors
/// [`AllocError`] if memory runs out; nothing is kept.
pub fn format_message<M: MemoizerKind>(
    alloc: Global,
    sources: &[&str],
    settings: Settings,
    plurals: &M,
    id: &str,
    attribute: Option<&str>,
    arguments: &[(&str, &str)],
) -> Result<Option<Formatted>, AllocError>
    ensures { IfOk result (IsWritten M.MemoizerKind plurals.now settings sources.now
        id.now attribute.entry arguments.now) }
{
    let arguments = valued_arguments(alloc, arguments)?;
    let reply = reply(alloc, sources, settings, plurals, id, attribute, &arguments)?;
    written(alloc, reply)
}

/// The reply of a message of the sources to these arguments, if they have the message.
fn reply<M: MemoizerKind>(
    alloc: Global,
    sources: &[&str],
    settings: Settings,
    plurals: &M,
    id: &str,
    attribute: Option<&str>,
    arguments: &FluentArgs<'_, NoCustom>,
) -> Result<Option<Reply>, AllocError>
    ensures { IfOk result (IsReply M.MemoizerKind plurals.now settings sources.now
        id.now attribute.entry arguments.now) }
{
    let stack = StackBudget::PROGRAM;
    let resources = parse_sources(alloc, sources, stack)?;
    let desk = Desk::new(alloc, &resources, settings, plurals, stack)?;
    desk.format(alloc, id, attribute, arguments)
}

/// The output for a reply, if there is one.
pub(crate) fn written(alloc: Global, reply: Option<Reply>) -> Result<Option<Formatted>, AllocError>
    ensures { IfOk result (IsWrittenAs (option_map reply_view reply)) }
{
    let Some(mut reply) = reply else {
        return Ok(None);
    };
    reply.text.push('\n')?;
    let errors = error_lines(alloc, &reply.errors)?;
    Ok(Some(Formatted {
        text: reply.text,
        errors,
    }))
}
