//! The tiles of a source that are no comments.
#![tactic(auto)]

ghost use Rattle.std.specs.Prelude.{◌≡◌, All, IfOk, map};
ghost use Rattle.fluent_ast.specs.Borrowed.{entries_of};
ghost use Rattle.lint_entries.specs.Kept.{parts};
ghost use Rattle.lint_entries.specs.TileView.{AreErrorsOf, CountsEntries, CountsMessages, IsReadPart, IsTreeOf, is_entry_part, is_message_part, tile_view};

use crate::walk::Walk;
use fluent_ast::{Entry, Resource};
use fluent_parsed::ParserError;
use std::alloc::{AllocError, Global};

/// A message or a term, or junk. Comments are none: nothing is found in them.
#[derive(Clone, Copy)]
pub enum Tile<'r, 's> {
    /// A message or a term, and the source from there on, without the comment above it.
    Entry(&'r Entry<&'s str>, &'s [u8]),
    /// A stretch that is no entry.
    Junk,
}

/// The messages, the terms and the junk of a source, in their order. The tree and the errors are
/// those that `fluent_parser::parse` gives of the source; comments of the tree make no difference.
///
/// # Errors
/// [`AllocError`] if memory runs out; nothing is kept.
pub fn source_tiles<'r, 's>(
    alloc: Global,
    source: &'s str,
    tree: &'r Resource<&'s str>,
    errors: &[ParserError],
) -> Result<Vec<Tile<'r, 's>>, AllocError>
    requires tree { IsTreeOf source.now (entries_of tree.now) }
    requires errors { AreErrorsOf source.now errors.now }
    ensures tiles { IfOk result (λ tiles. map tile_view tiles.items ≡ parts source.now) }
    ensures read { IfOk result (λ tiles. All IsReadPart (map tile_view tiles.items)) }
{
    let mut tiles = Vec::with_capacity(alloc, tree.body.len())?;
    let mut walk = Walk::new(source, errors);
    for entry in &tree.body {
        if let Some(tile) = walk.next(alloc, entry)? {
            tiles.push(tile)?;
        }
    }
    Ok(tiles)
}

/// How many of the tiles of a source are messages.
pub fn message_count(tiles: &[Tile]) -> usize
    ensures { CountsMessages tiles.now result }
{
    tiles.iter().filter(|tile| is_message(tile)).count()
}

/// How many of the tiles of a source are messages or terms.
pub fn entry_count(tiles: &[Tile]) -> usize
    ensures { CountsEntries tiles.now result }
{
    tiles.iter().filter(|tile| is_entry(tile)).count()
}

/// Whether a tile is a message or a term.
fn is_entry(tile: &Tile) -> bool
    ensures { result ≡ is_entry_part (tile_view tile.now) }
{
    matches!(tile, Tile::Entry(Entry::Message(_) | Entry::Term(_), _))
}

/// Whether a tile is a message.
fn is_message(tile: &Tile) -> bool
    ensures { result ≡ is_message_part (tile_view tile.now) }
{
    matches!(tile, Tile::Entry(Entry::Message(_), _))
}
