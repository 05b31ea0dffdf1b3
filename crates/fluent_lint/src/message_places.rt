//! Where the messages of a file are.
#![tactic(auto)]

ghost use Rattle.std.specs.Prelude.{◌≡◌, [], IfOk, OnOk, is_some, map};
ghost use Rattle.lint_nodes.specs.HasNames.{HasNames};
ghost use Rattle.lint_entries.specs.TileView.{tile_view};
ghost use Rattle.lint_findings.specs.View.{file_view};
ghost use Rattle.fluent_lint.specs.FileTiles.{AreTilesOf};
ghost use Rattle.fluent_lint.specs.MessagePlaces.{GetsIds, GetsPlace, GetsPlaces, HasPlaces, first_place_of, places_of_tiles};
ghost use Rattle.fluent_lint.specs.Pairs.{id_of_part, ids_of_parts, message_ids, message_place, message_places};

use crate::tiles::FileTiles;
use fluent_ast::Entry;
use lint_entries::Tile;
use lint_findings::File;
use lint_nodes::Names;
use std::alloc::{AllocError, Global};
use std::collections::HashMap;

/// The offset of the first message of each id.
#[derive(Drop)]
pub struct MessagePlaces<'s> {
    first: HashMap<&'s str, usize>,
}

impl<'s> MessagePlaces<'s> {
    /// No places. It doesn't allocate.
    fn new(alloc: Global) -> Self
        ensures { HasPlaces result [] }
    {
        MessagePlaces {
            first: HashMap::new(alloc),
        }
    }

    /// The places in a file.
    ///
    /// # Errors
    /// [`AllocError`] if memory runs out; nothing is kept.
    pub fn of_file(alloc: Global, file: &FileTiles<'_, 's>) -> Result<Self, AllocError>
        requires { AreTilesOf file.now }
        ensures { IfOk result (λ places. HasPlaces places (message_places (file_view file.now.file))) }
    {
        let mut places = MessagePlaces::new(alloc);
        places.add_tiles(file.file, &file.tiles)?;
        Ok(places)
    }

    /// The offset of the first message of an id.
    pub fn first(&self, id: &str) -> Option<usize>
        ensures { result ≡ first_place_of self.now id.now }
    {
        self.first.get(id).copied()
    }

    /// Whether there is a message of an id.
    pub fn has(&self, id: &str) -> bool
        ensures { result ≡ is_some (first_place_of self.now id.now) }
    {
        self.first(id).is_some()
    }

    /// Adds the places of tiles of a file.
    fn add_tiles(&mut self, file: File<'_>, tiles: &[Tile<'_, 's>]) -> Result<(), AllocError>
        ensures { OnOk result
            (GetsPlaces self.old (places_of_tiles file.entry tiles.now) self.new) }
    {
        for tile in tiles {
            self.add_tile(file, tile)?;
        }
        Ok(())
    }

    /// Adds the place of a tile of a file, if it is a message.
    fn add_tile(&mut self, file: File<'_>, tile: &Tile<'_, 's>) -> Result<(), AllocError>
        ensures { OnOk result (GetsPlaces self.old
            (message_place (file_view file.entry) (tile_view tile.now)) self.new) }
    {
        match tile {
            Tile::Entry(entry, text) => match entry {
                Entry::Message(message) => {
                    let at = file.source.len().saturating_sub(text.len());
                    self.add(message.id.name, at)
                }
                _ => Ok(()),
            },
            Tile::Junk => Ok(()),
        }
    }

    /// Adds the place of a message. If its id has an earlier one, that one stays.
    fn add(&mut self, id: &'s str, at: usize) -> Result<(), AllocError>
        ensures { OnOk result (GetsPlace self.old id.now at self.new) }
    {
        self.first.entry(id)?.or_insert(at);
        Ok(())
    }
}

/// The ids of the messages of a file, each once.
///
/// # Errors
/// [`AllocError`] if memory runs out; nothing is kept.
pub fn message_ids<'s>(alloc: Global, file: &FileTiles<'_, 's>) -> Result<Names<'s>, AllocError>
    requires { AreTilesOf file.now }
    ensures { IfOk result (λ ids. HasNames ids (message_ids (file_view file.now.file))) }
{
    let mut ids = Names::new(alloc);
    push_ids(&file.tiles, &mut ids)?;
    Ok(ids)
}

/// Adds the ids of tiles that are messages.
fn push_ids<'s>(tiles: &[Tile<'_, 's>], ids: &mut Names<'s>) -> Result<(), AllocError>
    ensures { OnOk result (GetsIds ids.old (ids_of_parts (map tile_view tiles.now)) ids.new) }
{
    for tile in tiles {
        push_id(tile, ids)?;
    }
    Ok(())
}

/// Adds the id of a tile, if it is a message.
fn push_id<'s>(tile: &Tile<'_, 's>, ids: &mut Names<'s>) -> Result<(), AllocError>
    ensures { OnOk result (GetsIds ids.old (id_of_part (tile_view tile.now)) ids.new) }
{
    match tile {
        Tile::Entry(entry, _) => match entry {
            Entry::Message(message) => ids.add(message.id.name),
            _ => Ok(()),
        },
        Tile::Junk => Ok(()),
    }
}
