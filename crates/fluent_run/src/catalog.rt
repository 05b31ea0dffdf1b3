//! The ids of sources that were read.

ghost use Rattle.std.specs.Prelude.{◌≡◌, IfOk, OnOk};
ghost use Rattle.fluent_run.specs.ResourceIds.{by_id};
ghost use Rattle.fluent_meaning.specs.Ids.{with_ids};
ghost use Rattle.fluent_run.specs.DeskView.{ids_added, plain_ids};

use fluent_ids::FluentIds;
use fluent_resource::FluentResource;
use std::alloc::{AllocError, Global};

/// The ids of resources, with what they stand for: first comes `NUMBER`, and then the messages and
/// terms of the resources, in their order. Of an id the first entry counts, or the last with
/// `overriding`.
///
/// # Errors
/// [`AllocError`] if memory runs out; nothing is kept.
pub fn ids_of<'r, 's, F: Drop>(
    alloc: Global,
    resources: &'r [FluentResource<'s>],
    overriding: bool,
) -> Result<FluentIds<'r, 's, F>, AllocError>
    ensures { IfOk result (λ ids. plain_ids ids ≡ ids_added overriding resources.now) }
{
    let mut ids = FluentIds::new(alloc);
    ids.add_builtins_silently()?;
    for resource in resources {
        add(&mut ids, resource, overriding)?;
    }
    Ok(ids)
}

/// Adds the messages and terms of a resource.
fn add<'r, 's, F: Drop>(
    ids: &mut FluentIds<'r, 's, F>,
    resource: &'r FluentResource<'s>,
    overriding: bool,
) -> Result<(), AllocError>
    ensures { OnOk result (plain_ids ids.new
        ≡ with_ids overriding (plain_ids ids.old) (by_id resource.now)) }
{
    if overriding {
        return ids.add_resource_overriding(resource.tree());
    }
    ids.add_resource_silently(resource.tree())
}
