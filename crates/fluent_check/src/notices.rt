//! The notices of entries whose id was there.

ghost use Rattle.std.specs.Prelude.{◌≡◌, ◌++◌, [], ◌∷◌, false, IfOk, OnOk};
ghost use Rattle.fluent_check.specs.ReportView.{notices_view};
ghost use Rattle.fluent_check.specs.Added.{tree_by_id, trees_by_id, ids_in, notices_in};
ghost use Rattle.fluent_meaning.specs.Ids.{notices, number_pair, with_ids};

use fluent_ast::Resource;
use fluent_errors::FluentError;
use fluent_ids::{AddResourceError, FluentIds};
use fluent_value::NoFunction;
use std::alloc::{AllocError, Global};

/// The ids that were added, and the notices that came.
#[derive(Drop)]
struct NoticeList<'r, 's> {
    ids: FluentIds<'r, 's, NoFunction>,
    notices: Vec<FluentError>,
}

impl<'r, 's> NoticeList<'r, 's> {
    /// `NUMBER` alone.
    fn new(alloc: Global) -> Result<Self, AllocError>
        ensures { IfOk result (λ added. (ids_in added ≡ number_pair ∷ [])
            × (notices_in added ≡ [])) }
    {
        let mut ids = FluentIds::new(alloc);
        ids.add_builtins_silently()?;
        Ok(NoticeList {
            ids,
            notices: Vec::new(alloc),
        })
    }

    /// Adds a tree, with its notices after those that came before.
    fn add(&mut self, tree: &'r Resource<&'s str>) -> Result<(), AllocError>
        ensures ids { OnOk result (ids_in self.new
            ≡ with_ids false (ids_in self.old) (tree_by_id tree.now)) }
        ensures notices { OnOk result (notices_in self.new
            ≡ notices_in self.old ++ notices (ids_in self.old) (tree_by_id tree.now)) }
    {
        match self.ids.add_resource(tree) {
            Ok(()) => Ok(()),
            Err(AddResourceError::Overriding(mut notices)) => self.notices.append(&mut notices),
            Err(AddResourceError::Memory) => Err(AllocError),
        }
    }
}

/// The notices of the entries of all trees, the first entry of an id staying.
pub(crate) fn notices_of_trees(
    alloc: Global,
    trees: &[Resource<&str>],
) -> Result<Vec<FluentError>, AllocError>
    ensures { IfOk result (λ found. notices_view found
        ≡ notices (number_pair ∷ []) (trees_by_id trees.now)) }
{
    let mut added = NoticeList::new(alloc)?;
    for tree in trees {
        added.add(tree)?;
    }
    Ok(added.notices)
}
