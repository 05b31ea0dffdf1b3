//! The arguments of calls, and what calls give.

ghost use Rattle.fluent_resolver.specs.Finds.{Calls, CallsNested, FindsNamed, FindsOwn, FindsValues};

use crate::value::value_of;
use fluent_ast::{CallArguments, Identifier, InlineExpression, NamedArgument};
use fluent_progress::{Context, Progress, Surroundings};
use fluent_text::stack::resolving;
use fluent_value::{FluentArgs, FluentType, FluentValue};
use std::alloc::AllocError;
use std::borrow::CowStr;

/// What the function of an id gives for these arguments, if it is known. Arguments are resolved in
/// all cases.
#[cycle(resolving)]
pub(crate) fn call_result<'b, 'r, 's, 'a, C: FluentType + Drop, F, E: Context<C, F>>(
    place: &Surroundings<'b, 'r, 's, 'a, C, F, E>,
    progress: &mut Progress<'r, 's>,
    id: &'r Identifier<&'s str>,
    arguments: &'r CallArguments<&'s str>,
) -> Result<Option<FluentValue<'s, C>>, AllocError>
    ensures { Calls result place.now progress.old progress.new id.now arguments.now }
{
    let positional = positional_values(place, progress, &arguments.positional)?;
    let named = named_values(place, progress, &arguments.named)?;
    place.call(id.name, &positional, &named)
}

/// What a call that is a value gives, as [`call_result`] does. What such calls in each other take
/// of the machine's stack is counted.
#[cycle(resolving)]
pub(crate) fn nested_call<'b, 'r, 's, 'a, C: FluentType + Drop, F, E: Context<C, F>>(
    place: &Surroundings<'b, 'r, 's, 'a, C, F, E>,
    progress: &mut Progress<'r, 's>,
    id: &'r Identifier<&'s str>,
    arguments: &'r CallArguments<&'s str>,
) -> Result<Option<FluentValue<'s, C>>, AllocError>
    ensures { CallsNested result place.now progress.old progress.new id.now arguments.now }
{
    progress.open_frames(resolving::CALL)?;
    let result = call_result(place, progress, id, arguments)?;
    progress.close_frames(resolving::CALL);
    Ok(result)
}

/// The named arguments of a term reference. Its positional ones are resolved and dropped.
#[cycle(resolving)]
pub(crate) fn own_arguments<'b, 'r, 's, 'a, C: FluentType + Drop, F, E: Context<C, F>>(
    place: &Surroundings<'b, 'r, 's, 'a, C, F, E>,
    progress: &mut Progress<'r, 's>,
    arguments: &'r Option<CallArguments<&'s str>>,
) -> Result<FluentArgs<'s, C>, AllocError>
    ensures { FindsOwn result place.now progress.old progress.new arguments.now }
{
    match arguments {
        Some(arguments) => {
            drop(positional_values(place, progress, &arguments.positional)?);
            named_values(place, progress, &arguments.named)
        }
        None => Ok(FluentArgs::new(place.context.alloc())),
    }
}

/// The values of positional arguments.
///
/// # Errors
/// [`AllocError`] if memory runs out; the first of the errors are reported.
#[cycle(resolving)]
pub fn positional_values<'b, 'r, 's, 'a, C: FluentType + Drop, F, E: Context<C, F>>(
    place: &Surroundings<'b, 'r, 's, 'a, C, F, E>,
    progress: &mut Progress<'r, 's>,
    arguments: &'r Vec<InlineExpression<&'s str>>,
) -> Result<Vec<FluentValue<'s, C>>, AllocError>
    ensures { FindsValues result place.now progress.old progress.new arguments.now }
{
    let mut values = Vec::with_capacity(place.context.alloc(), arguments.len())?;
    for argument in arguments {
        values.push(value_of(place, progress, argument)?)?;
    }
    Ok(values)
}

/// The values of named arguments: of a name that comes twice the last one.
///
/// # Errors
/// [`AllocError`] if memory runs out; the first of the errors are reported.
#[cycle(resolving)]
pub fn named_values<'b, 'r, 's, 'a, C: FluentType + Drop, F, E: Context<C, F>>(
    place: &Surroundings<'b, 'r, 's, 'a, C, F, E>,
    progress: &mut Progress<'r, 's>,
    arguments: &'r Vec<NamedArgument<&'s str>>,
) -> Result<FluentArgs<'s, C>, AllocError>
    ensures { FindsNamed result place.now progress.old progress.new arguments.now }
{
    let mut values = FluentArgs::new(place.context.alloc());
    for argument in arguments {
        let value = value_of(place, progress, &argument.value)?;
        values.set_value(CowStr::Borrowed(argument.name.name), value)?;
    }
    Ok(values)
}
