//! The ids of sources that were read, and of functions.

ghost use Rattle.std.specs.Prelude.{◌≡◌, IfOk};
ghost use Rattle.fluent_run.specs.DeskView.{plain_ids};
ghost use Rattle.fluent_calls.specs.CallsView.{ids_with};

use crate::callee::Callee;
use fluent_ids::FluentIds;
use fluent_resource::FluentResource;
use fluent_run::ids_of;
use std::alloc::{AllocError, Global};

/// The ids of resources, with what they stand for, then the names of functions, each of which is
/// its place among the names, and then `DATETIME`. First comes `NUMBER`, and then the messages and
/// terms of the resources, in their order. Of an id the first entry counts, or the last with
/// `overriding`; a function counts only if its name stands for nothing.
///
/// # Errors
/// [`AllocError`] if memory runs out; nothing is kept.
pub(crate) fn ids_with<'r, 's>(
    alloc: Global,
    resources: &'r [FluentResource<'s>],
    overriding: bool,
    functions: &[String],
) -> Result<FluentIds<'r, 's, Callee>, AllocError>
    ensures { IfOk result (λ ids. plain_ids ids ≡ ids_with functions.now overriding resources.now) }
{
    let mut ids = ids_of(alloc, resources, overriding)?;
    for (place, name) in functions.iter().enumerate() {
        ids.add_function_silently(name, Callee::Program(place))?;
    }
    ids.add_function_silently("DATETIME", Callee::DateTime)?;
    Ok(ids)
}
