//! Functions that are answered by the texts of their calls.

ghost use Rattle.std.specs.Prelude.{◌≡◌, IfOk};
ghost use Rattle.fluent_calls.specs.CallsView.{IsLeft, answers_of, own_of};
ghost use Rattle.fluent_calls.specs.Functions.{is_program};
ghost use Rattle.fluent_meaning.specs.Ids.{find};
ghost use Rattle.fluent_run.specs.DeskView.{plain_ids};
ghost use Rattle.fluent_value.specs.CallResult.{IsCallResult};

use crate::call::call_text;
use crate::callee::Callee;
use crate::otherwise::Otherwise;
use crate::text::CallText;
use fluent_dates::{DATETIME, DateTimeValue};
use fluent_ids::{Entry, FluentIds};
use fluent_run::Caller;
use fluent_value::{FluentArgs, FluentValue};
use std::alloc::{AllocError, Global};
use std::cell::Cell;
use std::marker::PhantomData;

/// The functions' names, and the answers to their calls.
///
/// A call that has no answer ends resolving, and is left in `missing`.
#[derive(Drop)]
pub(crate) struct Calls<'b, 't, K> {
    pub(crate) functions: &'b [String],
    pub(crate) answers: &'b FluentArgs<'t, DateTimeValue>,
    pub(crate) missing: Cell<Option<CallText>>,
    pub(crate) otherwise: PhantomData<K>,
}

impl<'b, 't, K: Otherwise> Caller<DateTimeValue, Callee> for Calls<'b, 't, K> {
    ghost gives = { answers_of K.otherwise };

    fn call<'a, 'n>(
        &self,
        alloc: Global,
        callee: &Callee,
        positional: &[FluentValue<'a, DateTimeValue>],
        named: &FluentArgs<'n, DateTimeValue>,
    ) -> Result<FluentValue<'a, DateTimeValue>, AllocError> {
        match *callee {
            Callee::Program(place) => self.answer(alloc, place, positional, named),
            Callee::DateTime => DATETIME(alloc, positional, named),
        }
    }
}

impl<'b, 't, K: Otherwise> Calls<'b, 't, K> {
    /// The answer to a call of the program's function at a place among the names. If it has none,
    /// the call is left in `missing`.
    ///
    /// # Errors
    /// [`AllocError`] if memory runs out, or if the call has no answer.
    fn answer<'a, 'n>(
        &self,
        alloc: Global,
        place: usize,
        positional: &[FluentValue<'a, DateTimeValue>],
        named: &FluentArgs<'n, DateTimeValue>,
    ) -> Result<FluentValue<'a, DateTimeValue>, AllocError>
        ensures { IfOk result (IsCallResult (λ c. c.0) (own_of K.otherwise self.now place)
            positional.now named.now) }
    {
        let Some(name) = self.functions.get(place) else {
            return Err(AllocError);
        };
        let call = call_text(alloc, name, positional, named)?;
        match self.answers.get(call.as_str()) {
            Some(answer) => answer.into_owned(alloc),
            None => {
                self.missing.set(Some(CallText::of(alloc, name, call)?));
                Err(AllocError)
            }
        }
    }

    /// The call that ended resolving, by what ids stand for.
    ///
    /// # Errors
    /// [`AllocError`] if there is none.
    pub(crate) fn left(&self, ids: &FluentIds<'_, '_, Callee>) -> Result<String, AllocError>
        ensures { IfOk result (IsLeft ids.now self.now) }
    {
        // No contract says what a cell holds, so the ids and the answers are asked again.
        match self.missing.replace(None) {
            Some(call)
                if is_program(ids, call.name()) && self.answers.get(call.as_str()).is_none() => {
                Ok(call.into_string())
            }
            _ => Err(AllocError),
        }
    }
}

/// Whether an id stands for a function of the program.
fn is_program(ids: &FluentIds<'_, '_, Callee>, id: &str) -> bool
    ensures { result ≡ is_program (find (plain_ids ids.now) id.now) }
{
    match ids.get(id) {
        Some(Entry::Function(Callee::Program(_))) => true,
        _ => false,
    }
}
