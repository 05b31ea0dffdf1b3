//! What the ids of a catalog stand for.
#![tactic(auto)]

ghost use Rattle.std.specs.Prelude.{◌≡◌, ◌++◌, [], ◌∷◌, false, OnOk};
ghost use Rattle.fluent_ids.specs.IdsView.{ids_view};
ghost use Rattle.fluent_lint.specs.Known.{AddsFunctions, IsIdsOf, trees_by_id};
ghost use Rattle.fluent_meaning.specs.Ids.{function, number_pair, with_id};
ghost use Rattle.fluent_resource.specs.Sources.{texts};

use fluent_ast::Resource;
use fluent_ids::AddFunctionError;
use lint_findings::CatalogIds;
use std::alloc::AllocError;

/// Adds to no ids what the ids of a catalog stand for: the functions that are known, and then the
/// entries of these trees. The first of an id stays.
///
/// # Errors
/// [`AllocError`] if memory runs out; some may be added then.
pub fn add_ids<'r, 's>(
    ids: &mut CatalogIds<'r, 's>,
    functions: &[&str],
    called: &[&str],
    trees: &'r [Resource<&'s str>],
) -> Result<(), AllocError>
    requires { ids_view _ ids.old ≡ [] }
    ensures { OnOk result (IsIdsOf ids.new (texts functions.now ++ texts called.now) (trees_by_id trees.now)) }
{
    add_known_functions(ids, functions, called)?;
    for tree in trees {
        ids.add_resource_silently(tree)?;
    }
    Ok(())
}

/// Adds the functions that are known to no ids: `NUMBER`, these functions, and then those that the
/// reference calls. The first of an id stays.
///
/// # Errors
/// [`AllocError`] if memory runs out; some may be added then.
pub fn add_known_functions(
    ids: &mut CatalogIds<'_, '_>,
    functions: &[&str],
    called: &[&str],
) -> Result<(), AllocError>
    requires { ids_view _ ids.old ≡ [] }
    ensures { OnOk result (IsIdsOf ids.new (texts functions.now ++ texts called.now) []) }
{
    add_number(ids)?;
    add_functions(ids, functions)?;
    add_functions(ids, called)
}

/// Adds `NUMBER` to no ids.
fn add_number(ids: &mut CatalogIds<'_, '_>) -> Result<(), AllocError>
    requires { ids_view _ ids.old ≡ [] }
    ensures { OnOk result (ids_view _ ids.new ≡ number_pair ∷ []) }
{
    match ids.add_builtins() {
        Ok(()) => Ok(()),
        Err(AddFunctionError::Overriding(_)) => Ok(()),
        Err(AddFunctionError::Memory) => Err(AllocError),
    }
}

/// Adds these functions, each unless its id is taken.
fn add_functions(ids: &mut CatalogIds<'_, '_>, functions: &[&str]) -> Result<(), AllocError>
    ensures { OnOk result (AddsFunctions functions.now ids.old ids.new) }
{
    for id in functions {
        add_function(ids, id)?;
    }
    Ok(())
}

/// Adds a function, unless its id is taken.
fn add_function(ids: &mut CatalogIds<'_, '_>, id: &str) -> Result<(), AllocError>
    ensures { OnOk result (ids_view _ ids.new ≡ with_id false (ids_view _ ids.old) (id.now, function tt)) }
{
    match ids.add_function(id, ()) {
        Ok(()) => Ok(()),
        Err(AddFunctionError::Overriding(_)) => Ok(()),
        Err(AddFunctionError::Memory) => Err(AllocError),
    }
}
