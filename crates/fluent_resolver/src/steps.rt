//! The arguments of a call, for programs that call functions themselves.

ghost use Rattle.std.specs.Prelude.{◌≡◌, OnOk};
ghost use Rattle.fluent_resolver.specs.Called.{FindsArguments, called_of, no_arguments};
ghost use Rattle.fluent_progress.specs.Resolves.{TellsOnErr};
ghost use Rattle.fluent_resolver.specs.Steps.{arguments_step};
ghost use Rattle.fluent_progress.specs.Depth.{open_in};

use crate::arguments::{named_values, positional_values};
use fluent_ast::CallArguments;
use fluent_progress::{Context, Progress, Surroundings};
use fluent_value::{FluentArgs, FluentType, FluentValue};
use std::alloc::{AllocError, Global};

/// The values of a call's arguments, positional ones first.
///
/// # Errors
/// [`AllocError`] if memory runs out; the first of the errors are reported.
pub fn values<'b, 'r, 's, 'a, C: FluentType + Drop, F, E: Context<C, F>>(
    place: &Surroundings<'b, 'r, 's, 'a, C, F, E>,
    progress: &mut Progress<'r, 's>,
    arguments: &'r CallArguments<&'s str>,
) -> Result<(Vec<FluentValue<'s, C>>, FluentArgs<'s, C>), AllocError>
    ensures found { FindsArguments result place.now progress.old progress.new arguments.now }
    ensures refused { TellsOnErr result progress.old progress.new (arguments_step place.now arguments.now) }
    ensures stack { OnOk result (open_in progress.new.stack ≡ open_in progress.old.stack) }
{
    let positional = positional_values(place, progress, &arguments.positional)?;
    let named = named_values(place, progress, &arguments.named)?;
    Ok((positional, named))
}

/// The values of arguments that aren't there.
pub fn none_given<'s, C: FluentType>(alloc: Global) -> (Vec<FluentValue<'s, C>>, FluentArgs<'s, C>)
    ensures { called_of C.meaning result ≡ no_arguments }
{
    (Vec::new(alloc), FluentArgs::new(alloc))
}
