//! Variables.

ghost use Rattle.std.specs.Prelude.{◌≡◌, ◌∷◌, is_some, IfOk, OnErr};
ghost use Rattle.fluent_grammar.specs.Words.{dollar};
ghost use Rattle.fluent_meaning.specs.Fallback.{braced};
ghost use Rattle.fluent_progress.specs.Resolves.{Appends, TellsOnErr, Writes};
ghost use Rattle.fluent_progress.specs.Variables.{Copies, FindsVariable, ReportsMissing, argument_of, variable_of, variable_step, variable_text, variable_value_step};
ghost use Rattle.fluent_progress.specs.Views.{state};

use crate::context::Context;
use crate::lookup::{Lookup, write_named};
use crate::place::Surroundings;
use crate::progress::Progress;
use fluent_ast::Identifier;
use fluent_errors::{ReferenceKind, ResolverError};
use fluent_value::{FluentArgs, FluentType, FluentValue};
use std::alloc::{AllocError, Global};

/// Writes the name of a variable in braces.
fn write_name(out: &mut String, id: &str) -> Result<(), AllocError>
    ensures { Appends result out.old out.new (braced (dollar ∷ id.now)) }
{
    out.push_str("{$")?;
    out.push_str(id)?;
    out.push_str("}")
}

/// A copy of the argument of this name, in which a borrowed text stays borrowed.
fn copied<'v, C: FluentType>(
    alloc: Global,
    arguments: &FluentArgs<'v, C>,
    id: &str,
) -> Result<Option<FluentValue<'v, C>>, AllocError>
    ensures { Copies C.meaning result (argument_of C.meaning arguments.now id.now) }
{
    match arguments.get(id) {
        Some(value) => Ok(Some(value.try_clone(alloc)?)),
        None => Ok(None),
    }
}

impl<'b, 'r, 's, 'a, C: FluentType, F, E: Context<C, F>> Surroundings<'b, 'r, 's, 'a, C, F, E> {
    /// Writes the value of a variable if it has one, inside a term that of one of its arguments,
    /// else that of one of the request's, and answers whether it has one.
    fn write_given(&self, out: &mut String, id: &str) -> Result<bool, AllocError>
        ensures given { IfOk result (λ is_given. is_given ≡ is_some (variable_of self.now id.now)) }
        ensures text { Appends result out.old out.new (variable_text self.now id.now) }
    {
        match (self.locals, self.arguments) {
            (Some(locals), _) => write_named(out, self.context, locals, id),
            (None, Some(arguments)) => write_named(out, self.context, arguments, id),
            (None, None) => self.context.write_given(out, id),
        }
    }

    /// A copy of the value of a variable: inside a term of one of its arguments, else of one of the
    /// request's, which then borrows nothing.
    fn variable_copy(&self, id: &str) -> Result<Option<FluentValue<'s, C>>, AllocError>
        ensures { Copies C.meaning result (variable_of self.now id.now) }
    {
        let alloc = self.context.alloc();
        match (self.locals, self.arguments) {
            (Some(locals), _) => copied(alloc, locals, id),
            (None, Some(arguments)) => arguments.argument_copy(alloc, id),
            (None, None) => self.context.given_copy(id),
        }
    }

    /// Reports that a variable is missing, outside terms alone.
    fn tell_missing(&self, progress: &mut Progress<'r, 's>, id: &str) -> Result<(), AllocError>
        ensures told { ReportsMissing result self.now progress.old progress.new id.now }
        ensures refused { OnErr result (state progress.new ≡ state progress.old) }
        ensures path { progress.new.path ≡ progress.old.path }
        ensures stack { progress.new.stack ≡ progress.old.stack }
    {
        if self.locals.is_some() {
            return Ok(());
        }
        let id = String::from_str(self.context.alloc(), id)?;
        progress.add_error(ResolverError::Reference(ReferenceKind::Variable { id }))
    }

    /// Writes the value of a variable, or its name in braces.
    ///
    /// # Errors
    /// [`AllocError`] if memory runs out; the path is unchanged, and a missing variable may be
    /// reported.
    pub fn write_variable(
        &self,
        out: &mut String,
        progress: &mut Progress<'r, 's>,
        id: &Identifier<&str>,
    ) -> Result<(), AllocError>
        ensures wrote { Writes result out.old out.new progress.old progress.new (variable_step self.now id.now) }
        ensures refused { TellsOnErr result progress.old progress.new (variable_step self.now id.now) }
        ensures path { progress.new.path ≡ progress.old.path }
        ensures stack { progress.new.stack ≡ progress.old.stack }
    {
        if self.write_given(out, id.name)? {
            return Ok(());
        }
        self.tell_missing(progress, id.name)?;
        write_name(out, id.name)
    }

    /// The value of a variable, as a selector or an argument.
    ///
    /// # Errors
    /// [`AllocError`] if memory runs out; the progress is unchanged.
    pub fn variable_value(
        &self,
        progress: &mut Progress<'r, 's>,
        id: &Identifier<&str>,
    ) -> Result<FluentValue<'s, C>, AllocError>
        ensures found { FindsVariable result self.now progress.old progress.new id.now }
        ensures refused { TellsOnErr result progress.old progress.new (variable_value_step self.now id.now) }
        ensures path { progress.new.path ≡ progress.old.path }
        ensures stack { progress.new.stack ≡ progress.old.stack }
    {
        match self.variable_copy(id.name)? {
            Some(value) => Ok(value),
            None => {
                self.tell_missing(progress, id.name)?;
                Ok(FluentValue::Error)
            }
        }
    }
}
