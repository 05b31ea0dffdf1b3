//! Arguments of a request, whatever keeps them.

ghost use Rattle.std.specs.Prelude.{◌≡◌, ◌++◌, List, IfOk, OnOk, is_some, option_map, string_bytes};
ghost use Rattle.fluent_grammar.specs.Words.{Text};
ghost use Rattle.fluent_meaning.specs.Environment.{value_text};
ghost use Rattle.fluent_progress.specs.Given.{given_text};
ghost use Rattle.fluent_value.specs.Args.{argument};
ghost use Rattle.fluent_value.specs.ArgsView.{args_view};
ghost use Rattle.fluent_value.specs.Shown.{shown_text};
ghost use Rattle.fluent_value.specs.Value.{Value};
ghost use Rattle.fluent_value.specs.View.{value_view};

use crate::context::Context;
use fluent_value::{FluentArgs, FluentType, FluentValue, ValueScope};
use std::alloc::{AllocError, Global};

/// What has the arguments of a request, and finds them by their names. Who has them in a form of
/// its own implements it, so that none has to be copied.
pub trait Lookup<C: FluentType> {
    /// The arguments, in the order of their names.
    ghost arguments: { Self → List (Text × Value C.Meaning) };

    /// Appends the text of the argument of a name, if there is one, and says whether there is.
    ///
    /// # Errors
    /// [`AllocError`] if memory runs out; `out` may hold a part of the text.
    fn write_argument<S: ValueScope<C>>(
        &self,
        out: &mut String,
        scope: &S,
        name: &str,
    ) -> Result<bool, AllocError>
        ensures found { IfOk result (λ is_there. is_there
            ≡ is_some (argument name.now (arguments self.now))) }
        ensures text { OnOk result (string_bytes out.new ≡ string_bytes out.old ++
            given_text (shown_text (S.formatted scope.now) (S.shown scope.now))
            (argument name.now (arguments self.now))) };

    /// A copy of the argument of a name, which borrows nothing.
    ///
    /// # Errors
    /// [`AllocError`] if memory runs out; nothing is kept.
    fn argument_copy<'v>(
        &self,
        alloc: Global,
        name: &str,
    ) -> Result<Option<FluentValue<'v, C>>, AllocError>
        ensures { IfOk result (λ copy. option_map (value_view C.meaning) copy
            ≡ argument name.now (arguments self.now)) };
}

/// Appends the text that an argument of a name has in a context, if there is one, and says whether
/// there is.
///
/// # Errors
/// [`AllocError`] if memory runs out; `out` may hold a part of the text.
pub(crate) fn write_named<C: FluentType, F, E: Context<C, F>, A: Lookup<C>>(
    out: &mut String,
    context: &E,
    arguments: &A,
    name: &str,
) -> Result<bool, AllocError>
    ensures found { IfOk result (λ is_there. is_there
        ≡ is_some (argument name.now (A.arguments arguments.now))) }
    ensures text { OnOk result (string_bytes out.new ≡ string_bytes out.old ++
        given_text (value_text (E.environment context.now))
        (argument name.now (A.arguments arguments.now))) }
{
    arguments.write_argument(out, context, name)
}

impl<'a, C: FluentType> Lookup<C> for FluentArgs<'a, C> {
    ghost arguments = { args_view C.meaning };

    fn write_argument<S: ValueScope<C>>(
        &self,
        out: &mut String,
        scope: &S,
        name: &str,
    ) -> Result<bool, AllocError> {
        match self.get(name) {
            Some(value) => {
                value.append_to(out, scope)?;
                Ok(true)
            }
            None => Ok(false),
        }
    }

    fn argument_copy<'v>(
        &self,
        alloc: Global,
        name: &str,
    ) -> Result<Option<FluentValue<'v, C>>, AllocError> {
        match self.get(name) {
            Some(value) => Ok(Some(value.into_owned(alloc)?)),
            None => Ok(None),
        }
    }
}
