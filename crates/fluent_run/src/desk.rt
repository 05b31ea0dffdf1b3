//! Answers request lines from the messages and terms of sources.

ghost use Rattle.std.specs.Prelude.{◌≡◌, [], IfOk, OnOk, is_some, option_copied, option_map, string_bytes};
ghost use Rattle.fluent_answers.specs.Answers.{pattern_asked};
ghost use Rattle.fluent_meaning.specs.Ids.{attribute_named, find};
ghost use Rattle.fluent_ids.specs.Found.{message_in};
ghost use Rattle.fluent_ids.specs.MessageView.{message_of};
ghost use Rattle.fluent_serve.specs.Frames.{none, ok};
ghost use Rattle.fluent_run.specs.DeskView.{IsFormatted, IsMadeFrom, IsMadeOf, answer_in, attributes_in, desk_ids, elements_found, frame_asked, line_frame, messages_in, plain_ids, reply_frame, reply_to};
ghost use Rattle.fluent_run.specs.ReplyView.{IsDone, reply_of, reply_view};
ghost use Rattle.fluent_serve.specs.AnswerView.{Adds};
ghost use Rattle.fluent_serve.specs.Exchange.{IsFrontOf};

use crate::arguments::{are_arguments, read_valued};
use crate::caller::{Asking, Caller, NoCaller};
use crate::catalog::ids_of;
use crate::listing::{message_lines, name_lines};
use crate::reply::{ErrorLine, Reply, push_text, resolve};
use crate::settings::Settings;
use fluent_ast::Pattern;
use fluent_ids::laws::attributes_agree;
use fluent_ids::{FluentIds, FluentMessage};
use fluent_progress::Surroundings;
use fluent_resolver::answer::lone_text;
use fluent_resource::FluentResource;
use fluent_serve::answer::Answer;
use fluent_serve::request::Asked;
use fluent_serve::serve::Engine;
use fluent_text::stack::StackBudget;
use fluent_value::{FluentArgs, MemoizerKind, NoCustom, NoFunction};
use std::alloc::{AllocError, Global};

/// An engine that formats messages: resources and their ids, the plural source, the settings, and
/// how much of the machine's stack an answer may take. Functions are values of the type `F` among
/// the ids.
///
/// A desk without functions answers request lines.
#[derive(Drop)]
pub struct Desk<'b, 'r, 's, M, F = NoFunction> {
    resources: &'r [FluentResource<'s>],
    /// The ids, with what they stand for.
    pub ids: FluentIds<'r, 's, F>,
    /// The plural source.
    pub plurals: &'b M,
    /// How answers are made.
    pub settings: Settings,
    /// How much of the machine's stack an answer may take.
    pub stack: StackBudget,
}

impl<'b, 'r, 's, M: MemoizerKind, F: Drop> Desk<'b, 'r, 's, M, F> {
    /// A desk that answers from resources by these ids, within a budget of the machine's stack for
    /// each answer.
    pub fn of(
        ids: FluentIds<'r, 's, F>,
        resources: &'r [FluentResource<'s>],
        settings: Settings,
        plurals: &'b M,
        stack: StackBudget,
    ) -> Self
        ensures { IsMadeOf (plain_ids ids.entry) resources.now settings plurals.now stack result }
    {
        Desk {
            resources,
            ids,
            plurals,
            settings,
            stack,
        }
    }

    /// The pattern of a message's value, or of its first attribute of a name.
    pub fn pattern_named(&self, id: &str, attribute: Option<&str>) -> Option<&'r Pattern<&'s str>>
        ensures { elements_found result
            ≡ pattern_asked (option_copied attribute.entry) (find (desk_ids self.now) id.now) }
    {
        let message = self.ids.get_message(id)?;
        match attribute {
            None => message.value(),
            Some(name) => attribute_value(&message, name),
        }
    }

    /// Whether an id is that of a message.
    pub fn has_message(&self, id: &str) -> bool
        ensures { result ≡ is_some (message_in (find (desk_ids self.now) id.now)) }
    {
        self.ids.has_message(id)
    }

    /// Whether a message has a value, or an attribute of a name.
    pub fn has(&self, id: &str, attribute: Option<&str>) -> bool
        ensures { result ≡ is_some
            (pattern_asked (option_copied attribute.entry) (find (desk_ids self.now) id.now)) }
    {
        self.pattern_named(id, attribute).is_some()
    }

    /// The ids of its messages, terms and functions, with what they stand for.
    pub fn ids(&self) -> &FluentIds<'r, 's, F>
        ensures { plain_ids result.now ≡ desk_ids self.now }
    {
        &self.ids
    }

    /// The ids of the messages, each in a line that ends in LF, in the order of their first entries
    /// in the resources. An id is there if what counts of it is a message.
    ///
    /// # Errors
    /// [`AllocError`] if memory runs out; nothing is kept.
    pub fn messages(&self, alloc: Global) -> Result<String, AllocError>
        ensures { IfOk result (λ text. string_bytes text ≡ messages_in self.now) }
    {
        message_lines(alloc, &self.ids, self.resources)
    }

    /// The names of a message's attributes, each in a line that ends in LF, in their order. A name
    /// that the message has twice is there twice. `None` if there is no message of the id.
    ///
    /// # Errors
    /// [`AllocError`] if memory runs out; nothing is kept.
    pub fn attributes(&self, alloc: Global, id: &str) -> Result<Option<String>, AllocError>
        ensures { IfOk result (λ text. option_map string_bytes text ≡ attributes_in self.now id.now) }
    {
        let Some(message) = self.ids.get_message(id) else {
            return Ok(None);
        };
        Ok(Some(name_lines(alloc, &message)?))
    }

    /// Formats a pattern with these arguments and a caller of its functions. The text is written
    /// into the memory of `text`, whose old bytes are lost.
    ///
    /// # Errors
    /// [`AllocError`] if memory runs out, if the pattern nests too deep for the desk's budget of
    /// the machine's stack, or if a call of a function ends resolving; nothing is kept.
    pub fn resolve<'x, L: Caller<NoCustom, F>>(
        &'x self,
        alloc: Global,
        caller: &'x L,
        pattern: &'r Pattern<&'s str>,
        arguments: &'x FluentArgs<'_, NoCustom>,
        text: String,
    ) -> Result<Reply, AllocError>
        ensures { IfOk result (IsDone
            (answer_in M.MemoizerKind (L.gives caller.now) self.now arguments.now pattern.now)) }
    {
        let context = Asking {
            desk: self,
            caller,
            alloc,
        };
        let locals: Option<&'x FluentArgs<'s, NoCustom>> = None;
        let place = Surroundings {
            ids: &self.ids,
            context: &context,
            arguments: Some(arguments),
            locals,
        };
        resolve(&place, pattern, text, self.stack)
    }
}

impl<'b, 'r, 's, M: MemoizerKind> Desk<'b, 'r, 's, M> {
    /// A desk that answers from resources, in their order, within a budget of the machine's stack
    /// for each answer.
    ///
    /// # Errors
    /// [`AllocError`] if memory runs out; nothing is kept.
    pub fn new(
        alloc: Global,
        resources: &'r [FluentResource<'s>],
        settings: Settings,
        plurals: &'b M,
        stack: StackBudget,
    ) -> Result<Self, AllocError>
        ensures { IfOk result (IsMadeFrom resources.now settings plurals.now stack) }
    {
        let ids = ids_of(alloc, resources, settings.overriding)?;
        Ok(Desk::of(ids, resources, settings, plurals, stack))
    }

    /// Formats a message with these arguments: its value, or its first attribute of a name. `None`
    /// if there is no such message, value or attribute.
    ///
    /// ```no_run
    /// let desk = Desk::new(alloc, resources, settings, &plurals, StackBudget::PROGRAM)?;
    /// let reply = desk
    ///     .format(alloc, "a", None, &FluentArgs::new(alloc))?
    ///     .context("no such message")?;
    /// ```
    ///
    /// # Errors
    /// [`AllocError`] if memory runs out, or if calls and placeables nest so deep, over all
    /// messages that are entered, that they would take more of the machine's stack than the desk's
    /// budget; nothing is kept.
    pub fn format(
        &self,
        alloc: Global,
        id: &str,
        attribute: Option<&str>,
        arguments: &FluentArgs<'_, NoCustom>,
    ) -> Result<Option<Reply>, AllocError>
        ensures { IfOk result (IsFormatted M.category_of M.stringified self.now id.now attribute.entry arguments.now) }
    {
        self.format_into(alloc, id, attribute, arguments, String::new(alloc))
    }

    /// Formats a message as [`Desk::format`] does, into the memory of `text`, whose old bytes are
    /// lost.
    ///
    /// # Errors
    /// Those of [`Desk::format`].
    pub fn format_into(
        &self,
        alloc: Global,
        id: &str,
        attribute: Option<&str>,
        arguments: &FluentArgs<'_, NoCustom>,
        text: String,
    ) -> Result<Option<Reply>, AllocError>
        ensures { IfOk result (IsFormatted M.category_of M.stringified self.now id.now attribute.entry arguments.now) }
    {
        let Some(pattern) = self.pattern_named(id, attribute) else {
            return Ok(None);
        };
        Ok(Some(self.reply_to(alloc, pattern, arguments, text)?))
    }

    /// Formats a pattern with these arguments. The text is written into the memory of `text`, whose
    /// old bytes are lost.
    fn reply_to(
        &self,
        alloc: Global,
        pattern: &'r Pattern<&'s str>,
        arguments: &FluentArgs<'_, NoCustom>,
        text: String,
    ) -> Result<Reply, AllocError>
        ensures { IfOk result (λ reply. reply_view reply
            ≡ reply_to M.MemoizerKind self.now arguments.now pattern.now) }
    {
        self.resolve(alloc, &NoCaller, pattern, arguments, text)
    }

    /// Appends the answer to a request that asks for a pattern, with these arguments after its
    /// line's first tab. After an error `out` may end in a beginning of it.
    fn push_reply(
        &self,
        alloc: Global,
        arguments: Option<&str>,
        pattern: &'r Pattern<&'s str>,
        out: &mut Vec<u8>,
    ) -> Result<(), AllocError>
        ensures ok { OnOk result (Adds out.old out.new
            (reply_frame M.MemoizerKind self.now arguments.entry pattern.now)) }
        ensures front { IsFrontOf out.old.items out.new.items }
    {
        if let Some(text) = lone_text(pattern) {
            return push_lone(alloc, text, arguments, out);
        }
        let Some(values) = read_valued(alloc, arguments)? else {
            return Answer::<ErrorLine<'_>>::Bad.push_to(alloc, out);
        };
        let reply = self.reply_to(alloc, pattern, &values, String::new(alloc))?;
        reply.push_to(out)
    }

    /// Appends what is written for `line`. After an error `out` may end in a beginning of it.
    fn push_answer(&self, alloc: Global, line: &[u8], out: &mut Vec<u8>) -> Result<(), AllocError>
        ensures ok { OnOk result (Adds out.old out.new
            (line_frame M.MemoizerKind self.now line.now)) }
        ensures front { IsFrontOf out.old.items out.new.items }
    {
        let Some(asked) = Asked::of(line) else {
            return Answer::<ErrorLine<'_>>::Bad.push_to(alloc, out);
        };
        match self.pattern_named(asked.id, asked.attribute) {
            Some(pattern) => self.push_reply(alloc, asked.arguments, pattern, out),
            None => push_nothing(alloc, asked.arguments, out),
        }
    }
}

/// Appends the answer of a text that no argument changes, to a request with these arguments.
fn push_lone(
    alloc: Global,
    text: &str,
    arguments: Option<&str>,
    out: &mut Vec<u8>,
) -> Result<(), AllocError>
    ensures ok { OnOk result (Adds out.old out.new (frame_asked (λ _. ok (reply_of text.now [])) arguments.entry)) }
    ensures front { IsFrontOf out.old.items out.new.items }
{
    if are_arguments(arguments) {
        push_text(alloc, text, out)
    } else {
        Answer::<ErrorLine<'_>>::Bad.push_to(alloc, out)
    }
}

/// Appends the answer to a request with these arguments that asks for nothing that is there.
fn push_nothing(alloc: Global, arguments: Option<&str>, out: &mut Vec<u8>) -> Result<(), AllocError>
    ensures ok { OnOk result (Adds out.old out.new (frame_asked (λ _. none) arguments.entry)) }
    ensures front { IsFrontOf out.old.items out.new.items }
{
    if are_arguments(arguments) {
        Answer::<ErrorLine<'_>>::Nothing.push_to(alloc, out)
    } else {
        Answer::<ErrorLine<'_>>::Bad.push_to(alloc, out)
    }
}

/// The value of the first attribute of a name.
fn attribute_value<'r, 's>(
    message: &FluentMessage<'r, 's>,
    name: &str,
) -> Option<&'r Pattern<&'s str>>
    ensures { elements_found result ≡ attribute_named name.now (message_of message.now).attributes }
{
    attributes_agree();
    let attribute = message.get_attribute(name)?;
    Some(attribute.value())
}

impl<'b, 'r, 's: 'r, M: MemoizerKind> Engine for Desk<'b, 'r, 's, M> {
    ghost use Rattle.fluent_answers.specs.Answers.{line_from as from};
    ghost use Rattle.fluent_run.specs.DeskView.{environment_in as inside};

    ghost reply = { λ desk. from (inside M.category_of M.stringified desk) };

    fn reply(&self, alloc: Global, line: &[u8], out: &mut Vec<u8>) -> Result<(), AllocError> {
        let len = out.len();
        let outcome = self.push_answer(alloc, line, out);
        if outcome.is_err() {
            out.truncate(len);
        }
        outcome
    }
}
