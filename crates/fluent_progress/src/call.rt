//! Calls of functions.

ghost use Rattle.fluent_progress.specs.Results.{GivesCall};

use crate::context::Context;
use crate::place::Surroundings;
use fluent_ids::{Entry, FunctionRef};
use fluent_value::{FluentArgs, FluentType, FluentValue};
use std::alloc::AllocError;

impl<'b, 'r, 's, 'a, C: FluentType, F, E: Context<C, F>> Surroundings<'b, 'r, 's, 'a, C, F, E> {
    /// What the function of an id gives for these values, if the id stands for one.
    ///
    /// # Errors
    /// [`AllocError`] if memory runs out; nothing is kept.
    pub fn call<'v, 'n>(
        &self,
        id: &str,
        positional: &[FluentValue<'v, C>],
        named: &FluentArgs<'n, C>,
    ) -> Result<Option<FluentValue<'v, C>>, AllocError>
        ensures { GivesCall result self.now id.now positional.now named.now }
    {
        let function = match self.ids.get(id) {
            Some(Entry::Function(function)) => FunctionRef::Own(function),
            Some(Entry::Number) => FunctionRef::Number,
            _ => return Ok(None),
        };
        Ok(Some(self.context.call(&function, positional, named)?))
    }
}
