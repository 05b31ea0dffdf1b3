//! The tiles of files.
#![tactic(auto)]

ghost use Rattle.std.specs.Prelude.{◌≡◌, All, IfOk, map};
ghost use Rattle.fluent_ast.specs.Borrowed.{entries_of};
ghost use Rattle.fluent_lint.specs.FileTiles.{AreTilesOf, files_of};
ghost use Rattle.fluent_lint.specs.Reading.{IsRead, bare_tree};
ghost use Rattle.lint_entries.specs.TileView.{AreErrorsOf};

use crate::read::ReadFiles;
use fluent_ast::Resource;
use fluent_parser::ParserError;
use lint_entries::{Tile, source_tiles};
use lint_findings::File;
use std::alloc::{AllocError, Global};

/// A file with its tiles and the errors of its junk.
#[derive(Drop)]
pub struct FileTiles<'r, 's> {
    pub file: File<'s>,
    pub tiles: Vec<Tile<'r, 's>>,
    pub errors: &'r [ParserError],
}

/// The tiles of files, by what was read of them.
///
/// # Errors
/// [`AllocError`] if memory runs out; nothing is kept.
pub fn tiles_of_files<'r, 's>(
    alloc: Global,
    read: &'r ReadFiles<'_, 's>,
) -> Result<Vec<FileTiles<'r, 's>>, AllocError>
    requires { IsRead read.now }
    ensures files { IfOk result (λ tiled. files_of tiled.items ≡ read.now.files.now) }
    ensures tiles { IfOk result (λ tiled. All AreTilesOf tiled.items) }
{
    let files = read.files;
    let mut tiled = Vec::with_capacity(alloc, files.len())?;
    for (index, file) in files.iter().enumerate() {
        let tiles = tiles_of_file(alloc, *file, &read.trees[index], &read.errors[index])?;
        tiled.push(tiles)?;
    }
    Ok(tiled)
}

/// The tiles of a file with this tree and these errors.
fn tiles_of_file<'r, 's>(
    alloc: Global,
    file: File<'s>,
    tree: &'r Resource<&'s str>,
    errors: &'r [ParserError],
) -> Result<FileTiles<'r, 's>, AllocError>
    requires tree { entries_of tree.now ≡ bare_tree file.source.now }
    requires errors { AreErrorsOf file.source.now errors.now }
    ensures file { IfOk result (λ tiled. tiled.file ≡ file.entry) }
    ensures tiles { IfOk result (λ tiled. AreTilesOf tiled) }
{
    let tiles = source_tiles(alloc, file.source, tree, errors)?;
    Ok(FileTiles {
        file,
        tiles,
        errors,
    })
}
