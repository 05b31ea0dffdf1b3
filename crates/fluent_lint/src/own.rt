//! Files with the ids of their own.
#![tactic(auto)]

ghost use Rattle.std.specs.Prelude.{◌≡◌, ◌<◌, IfOk, get_or, length, map};
ghost use Rattle.fluent_ids.specs.IdsView.{ids_view};
ghost use Rattle.fluent_lint.specs.FileTiles.{files_of, files_view};
ghost use Rattle.fluent_lint.specs.Own.{AreOwn, AreOwnIds, AreWideIds, IsOwn, IsWideIn, ids_of_tree, ids_views};
ghost use Rattle.fluent_lint.specs.Reading.{IsRead};

use crate::pairs::OwnFile;
use crate::read::ReadFiles;
use crate::refers::wide_ids;
use crate::tiles::{FileTiles, tiles_of_files};
use fluent_ast::Resource;
use fluent_ids::FluentIds;
use lint_findings::CatalogIds;
use std::alloc::{AllocError, Global};

/// Files with their tiles, and at the index of each what its own messages and terms stand for.
#[derive(Drop)]
pub struct OwnFiles<'r, 's> {
    pub tiles: Vec<FileTiles<'r, 's>>,
    pub ids: Vec<CatalogIds<'r, 's>>,
    /// Those of all files after its own, for a file whose messages refer to some of others.
    pub wide: Vec<Option<CatalogIds<'r, 's>>>,
}

/// The files that were read.
///
/// # Errors
/// [`AllocError`] if memory runs out; nothing is kept.
pub fn own_files<'r, 's>(
    alloc: Global,
    read: &'r ReadFiles<'_, 's>,
) -> Result<OwnFiles<'r, 's>, AllocError>
    requires { IsRead read.now }
    ensures files { IfOk result (λ own. files_of own.tiles.items ≡ read.now.files.now) }
    ensures own { IfOk result AreOwn }
{
    let tiles = tiles_of_files(alloc, read)?;
    let ids = ids_by_file(alloc, &read.trees)?;
    let wide = wide_by_file(alloc, &ids, &read.trees)?;
    Ok(OwnFiles { tiles, ids, wide })
}

impl<'r, 's> OwnFiles<'r, 's> {
    /// The file at this index.
    pub fn file(&self, index: usize) -> OwnFile<'_, 'r, 's>
        requires own { AreOwn self.now }
        requires within { index < length self.now.tiles.items }
        ensures own { IsOwn result }
        ensures wide { IsWideIn (files_view (files_of self.now.tiles.items)) result }
        ensures tiles { result.tiles.now ≡ get_or self.now.tiles.items index result.tiles.now }
    {
        OwnFile {
            tiles: &self.tiles[index],
            ids: &self.ids[index],
            wide: self.wide[index].as_ref(),
        }
    }
}

/// What the messages and terms of each of these trees stand for, as if there were no other tree.
fn ids_by_file<'r, 's>(
    alloc: Global,
    trees: &'r [Resource<&'s str>],
) -> Result<Vec<CatalogIds<'r, 's>>, AllocError>
    ensures { IfOk result (AreOwnIds trees.now) }
{
    let mut all = Vec::with_capacity(alloc, trees.len())?;
    for tree in trees {
        let ids = ids_of_tree(alloc, tree)?;
        all.push(ids)?;
    }
    Ok(all)
}

/// What the messages and terms of a tree stand for.
fn ids_of_tree<'r, 's>(
    alloc: Global,
    tree: &'r Resource<&'s str>,
) -> Result<CatalogIds<'r, 's>, AllocError>
    ensures { IfOk result (λ ids. ids_view _ ids ≡ ids_of_tree tree.now) }
{
    let mut ids = FluentIds::new(alloc);
    ids.add_resource_silently(tree)?;
    Ok(ids)
}

/// Those of each of these trees and then of all others, if a message of the tree refers to one of
/// another.
fn wide_by_file<'r, 's>(
    alloc: Global,
    own: &[CatalogIds<'r, 's>],
    trees: &'r [Resource<&'s str>],
) -> Result<Vec<Option<CatalogIds<'r, 's>>>, AllocError>
    requires { ids_views own.now ≡ map ids_of_tree trees.now }
    ensures { IfOk result (AreWideIds trees.now) }
{
    let mut all = Vec::with_capacity(alloc, trees.len())?;
    for (index, tree) in trees.iter().enumerate() {
        let ids = wide_ids(alloc, &own[index], tree, trees)?;
        all.push(ids)?;
    }
    Ok(all)
}
