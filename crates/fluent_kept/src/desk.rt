//! What answers questions, from what is read of sources.

ghost use Rattle.std.specs.Prelude.{◌≡◌, IfOk, IfSome, option_copied, string_bytes};
ghost use Rattle.fluent_check.specs.Report.{report_text};
ghost use Rattle.fluent_run.specs.ResourceIds.{all_by_id};
ghost use Rattle.fluent_kept.specs.Catalogs.{AreDesksFor, CallsFor, ForIts, HasEntriesFor, HasIdsFor, IsDeskFor, IsPlainFor, IsPlainOf, StaysDesk, StaysPlain, catalog_entries, catalog_environment, catalog_ids, catalog_of, plain_environment};
ghost use Rattle.fluent_kept.specs.Answers.{AnswersAsIts, AreAttributes, AreCallsOf, AreMessages, AreMetBy, AreNone, AreVariables, IsCallOf, IsCalledTo, IsFormatOf, IsFoundBy, IsReplyTo, found};

use crate::found::Found;
use crate::loose::RawBox;
use crate::question::{Answer, Question};
use crate::resources::Resources;
use crate::sources::{Sources, borrow_texts};
use crate::variables::variable_names;
use fluent_calls::{FunctionDesk, Outcome, Unanswered};
use fluent_check::check_text;
use fluent_dates::DateTimeValue;
use fluent_plurals::LanguagePlurals;
use fluent_progress::Lookup;
use fluent_value::FluentArgs;
use std::alloc::{AllocError, Global};

/// What answers questions. It refers to what was read, and to the sources.
#[derive(Drop)]
pub(crate) struct KeptDesk<'r, 's> {
    read: &'r Resources<'s>,
    pub(crate) desks: Desks<'r, 's>,
    pub(crate) found: Found<'r, 's>,
}

/// What answers from the ids of the messages and terms.
#[derive(Drop)]
pub(crate) enum Desks<'r, 's> {
    /// Messages call no functions of the program.
    Plain(FunctionDesk<'s, 'r, 's, LanguagePlurals>),
    /// Messages call functions of the program, which are among the ids. To what asks as if there
    /// were none, another desk answers: the first such question makes it.
    Calling(
        FunctionDesk<'s, 'r, 's, LanguagePlurals>,
        Option<FunctionDesk<'s, 'r, 's, LanguagePlurals>>,
    ),
}

impl<'r, 's> Desks<'r, 's> {
    /// What answers from what was read.
    ///
    /// # Errors
    /// [`AllocError`] if memory runs out; nothing is kept.
    fn new(alloc: Global, read: &'r Resources<'s>) -> Result<Self, AllocError>
        ensures { IfOk result (AreDesksFor read.now) }
    {
        let sources = read.sources;
        match &sources.functions {
            Some(names) => {
                let desk = function_desk(alloc, read, names)?;
                Ok(Desks::Calling(desk, None))
            }
            None => {
                let desk = plain_desk(alloc, read)?;
                Ok(Desks::Plain(desk))
            }
        }
    }
}

impl<'r, 's> KeptDesk<'r, 's> {
    /// What answers from what was read.
    ///
    /// # Errors
    /// [`AllocError`] if memory runs out; nothing is kept.
    fn new(alloc: Global, read: &'r Resources<'s>) -> Result<Self, AllocError>
        ensures { IfOk result (IsDeskFor read.now) }
    {
        let desks = Desks::new(alloc, read)?;
        let found = Found::new(alloc);
        Ok(KeptDesk { read, desks, found })
    }

    /// Makes what answers as if there were no functions, unless it is there, or memory runs out.
    fn make_plain(&mut self, alloc: Global)
        ensures { StaysDesk self.old self.new }
    {
        match &mut self.desks {
            Desks::Plain(_) => {}
            Desks::Calling(_, plain) => keep_plain(alloc, self.read, plain),
        }
    }

    /// What answers as if there were no functions, if it is there.
    fn plain(&self) -> Option<&FunctionDesk<'s, 'r, 's, LanguagePlurals>>
        ensures { ForIts self.now (λ catalog. IfSome result (λ desk. IsPlainOf catalog desk.now)) }
    {
        match &self.desks {
            Desks::Plain(desk) => Some(desk),
            Desks::Calling(_, plain) => plain.as_ref(),
        }
    }

    /// What a message gives for these arguments, as if there were no functions. The text is written
    /// into the memory of `spare`.
    fn format(
        &self,
        alloc: Global,
        id: &str,
        attribute: Option<&str>,
        arguments: &FluentArgs<'_, DateTimeValue>,
        spare: String,
    ) -> Answer
        ensures { IsFormatOf self.now id.now attribute.entry arguments.now result }
    {
        match self.plain() {
            Some(desk) => formatted(desk, alloc, id, attribute, arguments, spare),
            None => Answer::Memory,
        }
    }

    /// What a message that may call functions gives for these arguments, with these answers to
    /// calls. The text is written into the memory of `spare`.
    fn call(
        &self,
        alloc: Global,
        id: &str,
        attribute: Option<&str>,
        arguments: &FluentArgs<'_, DateTimeValue>,
        answers: &FluentArgs<'_, DateTimeValue>,
        spare: String,
    ) -> Answer
        ensures { IsCallOf self.now id.now attribute.entry arguments.now answers.now result }
    {
        match &self.desks {
            Desks::Plain(desk) => formatted(desk, alloc, id, attribute, arguments, spare),
            Desks::Calling(desk, _) => called(
                desk, alloc, id, attribute, arguments, answers, spare,
            ),
        }
    }

    /// The calls without an answer that a message meets whatever any of them gives.
    fn calls(
        &self,
        alloc: Global,
        id: &str,
        attribute: Option<&str>,
        arguments: &FluentArgs<'_, DateTimeValue>,
        answers: &FluentArgs<'_, DateTimeValue>,
    ) -> Answer
        ensures { AreCallsOf self.now id.now attribute.entry arguments.now answers.now result }
    {
        match &self.desks {
            Desks::Plain(desk) => no_calls(desk, alloc, id, attribute),
            Desks::Calling(desk, _) => calls_met(desk, alloc, id, attribute, arguments, answers),
        }
    }

    /// Whether a message has a value, or an attribute of a name. It doesn't allocate.
    fn has(&self, id: &str, attribute: Option<&str>) -> Answer
        ensures { IsFoundBy self.now id.now attribute.entry result }
    {
        match &self.desks {
            Desks::Plain(made) => found(made.desk.has(id, attribute), made.desk.has_message(id)),
            Desks::Calling(made, _) => {
                found(made.desk.has(id, attribute), made.desk.has_message(id))
            }
        }
    }

    /// The ids of the messages.
    fn messages(&self, alloc: Global) -> Answer
        ensures { ForIts self.now (λ catalog. AreMessages (catalog_environment catalog)
            (catalog_entries catalog) result) }
    {
        match self.plain() {
            Some(desk) => messages_of(desk, alloc),
            None => Answer::Memory,
        }
    }

    /// The names of a message's attributes.
    fn attributes(&self, alloc: Global, id: &str) -> Answer
        ensures { ForIts self.now (λ catalog. AreAttributes (catalog_environment catalog) id.now result) }
    {
        match self.plain() {
            Some(desk) => attributes_of(desk, alloc, id),
            None => Answer::Memory,
        }
    }

    /// The variables that a message is shown with.
    fn variables(&self, alloc: Global, id: &str) -> Answer
        ensures { ForIts self.now (λ catalog. AreVariables (catalog_ids catalog) id.now result) }
    {
        match self.plain() {
            Some(made) => variable_names(alloc, made.desk.ids(), id),
            None => Answer::Memory,
        }
    }

    /// What a check of the sources reports. It reads them whole, within the budget of the stack.
    ///
    /// # Errors
    /// [`AllocError`] if memory runs out, or the budget does; nothing is kept.
    fn report(&self, alloc: Global) -> Result<String, AllocError>
        ensures { IfOk result (λ text. string_bytes text
            ≡ report_text (catalog_of self.now.read.now.sources.now).sources) }
    {
        let sources = self.read.sources;
        let texts = borrow_texts(alloc, &sources.texts)?;
        check_text(alloc, &texts, sources.stack)
    }

    /// The answer to a question.
    fn answer(&mut self, alloc: Global, question: &Question<'_>) -> Answer
        ensures { AnswersAsIts self.old self.new question.now result }
    {
        match question {
            Question::Format {
                id,
                attribute,
                arguments,
                spare,
            } => {
                self.make_plain(alloc);
                let spare = spare.replace(String::new(alloc));
                self.format(alloc, *id, *attribute, arguments, spare)
            }
            Question::Call {
                id,
                attribute,
                arguments,
                answers,
                spare,
            } => {
                let spare = spare.replace(String::new(alloc));
                self.call(alloc, *id, *attribute, arguments, answers, spare)
            }
            Question::Calls {
                id,
                attribute,
                arguments,
                answers,
            } => self.calls(alloc, *id, *attribute, arguments, answers),
            Question::Has { id, attribute } => self.has(*id, *attribute),
            Question::Find {
                id,
                attribute,
                place,
            } => self.find(*id, *attribute, place),
            Question::Write {
                place,
                id,
                attribute,
                arguments,
            } => self.write(alloc, *place, *id, *attribute, arguments),
            Question::Messages => {
                self.make_plain(alloc);
                self.messages(alloc)
            }
            Question::Attributes { id } => {
                self.make_plain(alloc);
                self.attributes(alloc, *id)
            }
            Question::Variables { id } => {
                self.make_plain(alloc);
                self.variables(alloc, *id)
            }
            Question::Report => match self.report(alloc) {
                Ok(text) => Answer::Report(text),
                Err(_) => Answer::Memory,
            },
        }
    }
}

/// What answers as if there were no functions.
///
/// # Errors
/// [`AllocError`] if memory runs out; nothing is kept.
fn plain_desk<'r, 's>(
    alloc: Global,
    read: &'r Resources<'s>,
) -> Result<FunctionDesk<'s, 'r, 's, LanguagePlurals>, AllocError>
    ensures { IfOk result (IsPlainFor read.now) }
{
    let made = function_desk(alloc, read, &[])?;
    Ok(made)
}

/// Makes what answers as if there were no functions, unless it is there, or memory runs out.
fn keep_plain<'r, 's>(
    alloc: Global,
    read: &'r Resources<'s>,
    plain: &mut Option<FunctionDesk<'s, 'r, 's, LanguagePlurals>>,
)
    ensures { StaysPlain read.now plain.old plain.new }
{
    if plain.is_some() {
        return;
    }
    if let Ok(desk) = plain_desk(alloc, read) {
        *plain = Some(desk);
    }
}

/// What answers if messages call functions of these names.
///
/// # Errors
/// [`AllocError`] if memory runs out; nothing is kept.
fn function_desk<'r, 's>(
    alloc: Global,
    read: &'r Resources<'s>,
    names: &'s [String],
) -> Result<FunctionDesk<'s, 'r, 's, LanguagePlurals>, AllocError>
    ensures calls { IfOk result (CallsFor read.now names.now) }
    ensures ids { IfOk result (HasIdsFor read.now names.now) }
    ensures entries { IfOk result (HasEntriesFor read.now) }
    ensures stack { IfOk result (λ made. made.desk.stack ≡ read.now.sources.now.stack) }
{
    let sources = read.sources;
    let desk = FunctionDesk::new(
        alloc,
        &read.list,
        names,
        sources.settings(),
        sources.dates(),
        &sources.plurals,
        sources.stack,
    )?;
    Ok(desk)
}

/// What a message gives for these arguments. The text is written into the memory of `spare`.
fn formatted(
    made: &FunctionDesk<'_, '_, '_, LanguagePlurals>,
    alloc: Global,
    id: &str,
    attribute: Option<&str>,
    arguments: &FluentArgs<'_, DateTimeValue>,
    spare: String,
) -> Answer
    ensures { IsReplyTo (plain_environment made.now) id.now attribute.entry arguments.now result }
{
    match made.reply::<Unanswered>(alloc, id, attribute, arguments, spare) {
        Ok(Some(reply)) => Answer::Reply(reply),
        Ok(None) if made.desk.has_message(id) => Answer::NoPattern,
        Ok(None) => Answer::NoMessage,
        Err(_) => Answer::Memory,
    }
}

/// The ids of the messages of a desk.
fn messages_of(made: &FunctionDesk<'_, '_, '_, LanguagePlurals>, alloc: Global) -> Answer
    ensures { AreMessages (plain_environment made.now) (all_by_id made.now.desk.resources.now) result }
{
    match made.desk.messages(alloc) {
        Ok(text) => Answer::Names(text),
        Err(_) => Answer::Memory,
    }
}

/// The names of the attributes of a message of a desk.
fn attributes_of(
    made: &FunctionDesk<'_, '_, '_, LanguagePlurals>,
    alloc: Global,
    id: &str,
) -> Answer
    ensures { AreAttributes (plain_environment made.now) id.now result }
{
    match made.desk.attributes(alloc, id) {
        Ok(Some(text)) => Answer::Names(text),
        Ok(None) => Answer::NoMessage,
        Err(_) => Answer::Memory,
    }
}

/// What a message that may call functions gives for these arguments, with these answers to calls.
pub(crate) fn called<A: Lookup<DateTimeValue>>(
    made: &FunctionDesk<'_, '_, '_, LanguagePlurals>,
    alloc: Global,
    id: &str,
    attribute: Option<&str>,
    arguments: &A,
    answers: &FluentArgs<'_, DateTimeValue>,
    spare: String,
) -> Answer
    ensures { IsCalledTo made.now id.now attribute.entry (A.arguments arguments.now) answers.now result }
{
    match made.format::<Unanswered, A>(alloc, id, attribute, arguments, answers, spare) {
        Ok(Some(Outcome::Text(reply))) => Answer::Reply(reply),
        Ok(Some(Outcome::Call(call))) => Answer::Call(call),
        Ok(None) if made.desk.has_message(id) => Answer::NoPattern,
        Ok(None) => Answer::NoMessage,
        Err(_) => Answer::Memory,
    }
}

/// The calls without an answer that a message meets whatever any of them gives.
fn calls_met(
    made: &FunctionDesk<'_, '_, '_, LanguagePlurals>,
    alloc: Global,
    id: &str,
    attribute: Option<&str>,
    arguments: &FluentArgs<'_, DateTimeValue>,
    answers: &FluentArgs<'_, DateTimeValue>,
) -> Answer
    ensures { AreMetBy made.now id.now attribute.entry arguments.now answers.now result }
{
    match made.calls::<Unanswered>(alloc, id, attribute, arguments, answers) {
        Ok(Some(calls)) => Answer::Names(calls),
        Ok(None) if made.desk.has_message(id) => Answer::NoPattern,
        Ok(None) => Answer::NoMessage,
        Err(_) => Answer::Memory,
    }
}

/// The calls of a message where there are no functions: none.
fn no_calls(
    made: &FunctionDesk<'_, '_, '_, LanguagePlurals>,
    alloc: Global,
    id: &str,
    attribute: Option<&str>,
) -> Answer
    ensures { AreNone (plain_environment made.now) id.now (option_copied attribute.entry) result }
{
    if made.desk.has(id, attribute) {
        Answer::Names(String::new(alloc))
    } else if made.desk.has_message(id) {
        Answer::NoPattern
    } else {
        Answer::NoMessage
    }
}

/// Whether there is what was asked for, by whether there is that and whether there is the message.
fn found(has_pattern: bool, has_message: bool) -> Answer
    ensures { result ≡ found has_pattern has_message }
{
    if has_pattern {
        Answer::Found
    } else if has_message {
        Answer::NoPattern
    } else {
        Answer::NoMessage
    }
}

/// What answers from what was read, in a box.
///
/// # Errors
/// [`AllocError`] if memory runs out; nothing is kept.
fn try_lay<'r, 's>(
    alloc: Global,
    read: &'r Resources<'s>,
) -> Result<Box<KeptDesk<'r, 's>>, AllocError>
    ensures { IfOk result (λ desk. IsDeskFor read.now desk.value) }
{
    let desk = KeptDesk::new(alloc, read)?;
    Ok(Box::new(alloc, desk)?)
}

/// What answers from what was read, or `None` if memory runs out.
pub(crate) fn lay_out<'r, 's>(
    alloc: Global,
    read: &'r Resources<'s>,
) -> Option<RawBox<KeptDesk<'r, 's>, Global>>
    ensures { IfSome result (λ desk. IsDeskFor read.now desk.value) }
{
    match try_lay(alloc, read) {
        Ok(desk) => Some(RawBox::of(desk)),
        Err(_) => None,
    }
}

/// The answer to a question, of whatever catalog the desk is one.
pub(crate) fn asked<'r, 's>(
    desk: &mut KeptDesk<'r, 's>,
    alloc: Global,
    question: &Question<'_>,
) -> Answer
    ensures { AnswersAsIts desk.old desk.new question.now result }
{
    desk.answer(alloc, question)
}

/// Frees a desk.
pub(crate) fn discard_desk<'r, 's>(desk: RawBox<KeptDesk<'r, 's>, Global>) {
    let _ = desk.into_box();
}
