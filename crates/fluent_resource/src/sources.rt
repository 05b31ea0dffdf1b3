//! Sources, parsed for run time.

ghost use Rattle.std.specs.Prelude.{◌≡◌, IfOk, map};
ghost use Rattle.fluent_resource.specs.Sources.{texts};
ghost use Rattle.fluent_grammar.specs.Tiling.{runtime_tree};
ghost use Rattle.fluent_resource.specs.ResourceView.{entries_view};

use crate::error::ResourceError;
use crate::resource::FluentResource;
use fluent_parser::StackBudget;
use std::alloc::{AllocError, Global};

/// The resource of each source, in their order, within this budget of the machine's stack for each
/// message and term. What is no entry is passed over: a resource has it as junk.
///
/// # Errors
/// [`AllocError`] if memory runs out; nothing is kept. It also means that placeables, calls and
/// selects of a source are nested so deep that reading them would take more than the budget.
pub fn parse_sources<'s>(
    alloc: Global,
    sources: &[&'s str],
    budget: StackBudget,
) -> Result<Vec<FluentResource<'s>>, AllocError>
    ensures { IfOk result (λ read. map entries_view read.items
        ≡ map runtime_tree (texts sources.now)) }
{
    let mut resources = Vec::new(alloc);
    for source in sources {
        resources.push(parse_source(alloc, source, budget)?)?;
    }
    Ok(resources)
}

/// The resource of a source, errors aside.
fn parse_source<'s>(
    alloc: Global,
    source: &'s str,
    budget: StackBudget,
) -> Result<FluentResource<'s>, AllocError>
    ensures { IfOk result (λ read. entries_view read ≡ runtime_tree source.now) }
{
    match FluentResource::try_new_within(alloc, source, budget) {
        Ok(resource) => Ok(resource),
        Err(ResourceError::Broken(resource, _)) => Ok(resource),
        Err(ResourceError::Memory) => Err(AllocError),
    }
}
