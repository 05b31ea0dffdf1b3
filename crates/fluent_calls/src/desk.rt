//! Formats messages with dates that may call functions, with answers to their calls.

ghost use Rattle.std.specs.Prelude.{IfOk};
ghost use Rattle.fluent_ast.specs.Borrowed.{elements_of};
ghost use Rattle.fluent_calls.specs.CallsView.{IsMadeWith};
ghost use Rattle.fluent_calls.specs.Outcomes.{Formats, Lists, ListsOf, Replies, Resolves, Writes};

use crate::callee::Callee;
use crate::calls::Calls;
use crate::catalog::ids_with;
use crate::gathering::gather_pattern;
use crate::otherwise::Otherwise;
use fluent_ast::Pattern;
use fluent_dates::{DateTimeValue, LocaleDates};
use fluent_progress::{Lookup, Surroundings, WithArguments};
use fluent_resource::FluentResource;
use fluent_run::{Dating, Desk, Reply, Settings, resolve};
use fluent_text::stack::StackBudget;
use fluent_value::{FluentArgs, MemoizerKind};
use std::alloc::{AllocError, Global};
use std::cell::Cell;
use std::marker::PhantomData;

/// The outcome of formatting a message that may call functions.
#[derive(Debug, Drop)]
pub enum Outcome {
    /// The text: each call that it met has an answer.
    Text(Reply),
    /// The first call that has no answer: a line of JSON, an array of the function's name, an array
    /// of the positional arguments, and an object of the named ones. A text is a text there, a
    /// number `{"number":"1.50"}`, a date `{"date":"2026-11-28"}` as ISO 8601 has it, without its
    /// options, and no value `null`.
    Call(String),
}

/// An engine that formats messages that may call functions: a desk in which a function of the
/// program is its place among the functions' names. `DATETIME` is there, too.
#[derive(Drop)]
pub struct FunctionDesk<'b, 'r, 's, M> {
    /// The messages and terms, and the functions among their ids.
    pub desk: Desk<'b, 'r, 's, M, Callee>,
    functions: &'b [String],
    dates: Option<LocaleDates>,
}

impl<'b, 'r, 's, M: MemoizerKind> FunctionDesk<'b, 'r, 's, M> {
    /// Formats from resources, in their order, which may call functions of these names. A name
    /// counts only if it isn't the id of a message or a term, nor `NUMBER`; if it is `DATETIME`, it
    /// counts before the function that is there. `dates` is how dates are written, `None` if as ISO
    /// 8601 has them.
    ///
    /// # Errors
    /// [`AllocError`] if memory runs out; nothing is kept.
    pub fn new(
        alloc: Global,
        resources: &'r [FluentResource<'s>],
        functions: &'b [String],
        settings: Settings,
        dates: Option<LocaleDates>,
        plurals: &'b M,
        stack: StackBudget,
    ) -> Result<Self, AllocError>
        ensures { IfOk result (IsMadeWith functions.now resources.now settings dates plurals.now stack) }
    {
        let ids = ids_with(alloc, resources, settings.overriding, functions)?;
        let desk = Desk::of(ids, resources, settings, plurals, stack);
        Ok(FunctionDesk {
            desk,
            functions,
            dates,
        })
    }

    /// Formats a message with these arguments, and with these answers by the calls' texts: its
    /// value, or its first attribute of a name. `None` if there is no such message, value or
    /// attribute. The text is written into the memory of `text`, whose old bytes are lost.
    ///
    /// A text is the one that the message has if functions return these answers, and for other
    /// calls what `K` says, whatever that is.
    ///
    /// # Errors
    /// [`AllocError`] if memory runs out, or if calls and placeables nest so deep, over all
    /// messages that are entered, that they would take more of the machine's stack than the desk's
    /// budget; nothing is kept.
    pub fn format<K: Otherwise, A: Lookup<DateTimeValue>>(
        &self,
        alloc: Global,
        id: &str,
        attribute: Option<&str>,
        arguments: &A,
        answers: &FluentArgs<'_, DateTimeValue>,
        text: String,
    ) -> Result<Option<Outcome>, AllocError>
        ensures { IfOk result
            (Formats M.category_of K.otherwise self.now id.now attribute.entry
            (A.arguments arguments.now) answers.now) }
    {
        let Some(pattern) = self.desk.pattern_named(id, attribute) else {
            return Ok(None);
        };
        let outcome = self.outcome_of::<K, A>(alloc, pattern, arguments, answers, text)?;
        Ok(Some(outcome))
    }

    /// The calls without an answer that a message meets whatever any of them gives, a line for
    /// each: those of its value, or of its first attribute of a name. `None` if there is no such
    /// message, value or attribute.
    ///
    /// They are the calls of the message's own placeables that are plain: literals, variables and
    /// calls of these. A call among whose arguments another one has no answer comes once that has
    /// one, and one that the message has twice has two lines. What isn't plain is resolved. If a
    /// call in it has no answer, that is the last line: what comes after it may depend on it.
    ///
    /// # Errors
    /// Those of [`format`](Self::format).
    pub fn calls<K: Otherwise>(
        &self,
        alloc: Global,
        id: &str,
        attribute: Option<&str>,
        arguments: &FluentArgs<'_, DateTimeValue>,
        answers: &FluentArgs<'_, DateTimeValue>,
    ) -> Result<Option<String>, AllocError>
        ensures { IfOk result
            (ListsOf M.category_of K.otherwise self.now id.now attribute.entry arguments.now answers.now) }
    {
        match self.desk.pattern_named(id, attribute) {
            Some(pattern) => Ok(Some(self.calls_of::<K>(alloc, pattern, arguments, answers)?)),
            None => Ok(None),
        }
    }

    /// Formats a message with these arguments, if it meets no call of a function of the program:
    /// its value, or its first attribute of a name. `None` if there is no such message, value or
    /// attribute. The text is written into the memory of `text`, whose old bytes are lost.
    ///
    /// # Errors
    /// Those of [`format`](Self::format), and [`AllocError`] if it meets such a call.
    pub fn reply<K: Otherwise>(
        &self,
        alloc: Global,
        id: &str,
        attribute: Option<&str>,
        arguments: &FluentArgs<'_, DateTimeValue>,
        text: String,
    ) -> Result<Option<Reply>, AllocError>
        ensures { IfOk result
            (Replies M.category_of K.otherwise self.now id.now attribute.entry arguments.now) }
    {
        let found = self.desk.pattern_named(id, attribute);
        let Some(pattern) = found else {
            return Ok(None);
        };
        Ok(Some(self.write::<K, FluentArgs<'_, DateTimeValue>>(alloc, pattern, arguments, text)?))
    }

    /// Formats a pattern with these arguments, if it meets no call of a function of the program.
    /// The text is written into the memory of `text`, whose old bytes are lost.
    ///
    /// # Errors
    /// Those of [`format`](Self::format), and [`AllocError`] if it meets such a call.
    pub fn write<K: Otherwise, A: Lookup<DateTimeValue>>(
        &self,
        alloc: Global,
        pattern: &'r Pattern<&'s str>,
        arguments: &A,
        text: String,
    ) -> Result<Reply, AllocError>
        ensures { IfOk result
            (Writes M.category_of K.otherwise self.now (A.arguments arguments.now) pattern.now) }
    {
        let answers = FluentArgs::new(alloc);
        match self.outcome_of::<K, A>(alloc, pattern, arguments, &answers, text)? {
            Outcome::Text(reply) => Ok(reply),
            Outcome::Call(_) => Err(AllocError),
        }
    }

    /// A line for each call that is gathered of a pattern with these arguments and answers.
    fn calls_of<'x, K: Otherwise>(
        &'x self,
        alloc: Global,
        pattern: &'r Pattern<&'s str>,
        arguments: &'x FluentArgs<'_, DateTimeValue>,
        answers: &'x FluentArgs<'_, DateTimeValue>,
    ) -> Result<String, AllocError>
        ensures { IfOk result
            (Lists M.category_of K.otherwise self.now arguments.now answers.now (elements_of pattern.now)) }
    {
        let calls: Calls<'_, '_, K> = Calls {
            functions: self.functions,
            answers,
            missing: Cell::new(None),
            otherwise: PhantomData,
        };
        let context = Dating {
            settings: self.desk.settings,
            dates: self.dates,
            plurals: self.desk.plurals,
            caller: &calls,
            stack: self.desk.stack,
            alloc,
        };
        let locals: Option<&'x FluentArgs<'s, DateTimeValue>> = None;
        let arguments = Some(arguments);
        let place = Surroundings {
            ids: &self.desk.ids,
            context: &context,
            arguments,
            locals,
        };
        gather_pattern(&place, &calls, pattern, self.desk.stack)
    }

    /// The outcome of formatting a pattern with these arguments and these answers.
    fn outcome_of<'x, K: Otherwise, A: Lookup<DateTimeValue>>(
        &'x self,
        alloc: Global,
        pattern: &'r Pattern<&'s str>,
        given: &'x A,
        answers: &'x FluentArgs<'_, DateTimeValue>,
        text: String,
    ) -> Result<Outcome, AllocError>
        ensures { IfOk result
            (Resolves M.category_of K.otherwise self.now (A.arguments given.now) answers.now pattern.now) }
    {
        let calls: Calls<'_, '_, K> = Calls {
            functions: self.functions,
            answers,
            missing: Cell::new(None),
            otherwise: PhantomData,
        };
        let dating = Dating {
            settings: self.desk.settings,
            dates: self.dates,
            plurals: self.desk.plurals,
            caller: &calls,
            stack: self.desk.stack,
            alloc,
        };
        let context = WithArguments {
            context: &dating,
            arguments: given,
        };
        let none: Option<&'x FluentArgs<'s, DateTimeValue>> = None;
        let place = Surroundings {
            ids: &self.desk.ids,
            context: &context,
            arguments: none,
            locals: none,
        };
        match resolve(&place, pattern, text, self.desk.stack) {
            Ok(reply) => Ok(Outcome::Text(reply)),
            Err(AllocError) => Ok(Outcome::Call(calls.left(&self.desk.ids)?)),
        }
    }
}
