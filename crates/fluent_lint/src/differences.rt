//! How the messages of a file differ from those that they are translated from.
#![tactic(auto)]

ghost use Rattle.std.specs.Prelude.{◌≡◌, IfOk, OnOk, option_map};
ghost use Rattle.fluent_ids.specs.IdsView.{ids_view};
ghost use Rattle.fluent_lint.specs.Own.{AddsDifferences, AddsIfFirst, GetsTile, IsFirstTile, IsOwn, compared_in, shown_view};
ghost use Rattle.fluent_lint.specs.Shown.{either_ids, part_id};
ghost use Rattle.lint_entries.specs.Made.{Adds};
ghost use Rattle.lint_entries.specs.TileView.{IsReadPart, tile_view};

use crate::pairs::OwnFile;
use fluent_ast::Entry;
use fluent_plurals::LanguagePlurals;
use lint_comparison::Reference;
use lint_entries::Tile;
use lint_findings::{CatalogIds, Finding};
use lint_nodes::{Names, declared_id};
use std::alloc::{AllocError, Global};

/// Adds how the messages of a file differ from those of the file that it is translated from. A
/// message that both have is shown with the variables of all messages that it refers to, in any
/// file of its language. One whose id is taken in the file doesn't count. What it loses is found by
/// the plural rules of the language, if plurals are looked at.
///
/// # Errors
/// [`AllocError`] if memory runs out; some may be added then.
pub fn push_differences<'s>(
    alloc: Global,
    plurals: Option<LanguagePlurals>,
    file: OwnFile<'_, '_, 's>,
    original: OwnFile<'_, '_, 's>,
    findings: &mut Vec<Finding>,
) -> Result<(), AllocError>
    requires file { IsOwn file }
    requires original { IsOwn original }
    ensures { OnOk result (AddsDifferences plurals file.entry original.entry findings.old findings.new) }
{
    let mut ids = Names::new(alloc);
    for tile in &file.tiles.tiles {
        push_if_first(alloc, plurals, file, original, tile, &mut ids, findings)?;
    }
    Ok(())
}

/// Adds how a tile of a file differs, if it is the first of its id.
fn push_if_first<'s>(
    alloc: Global,
    plurals: Option<LanguagePlurals>,
    file: OwnFile<'_, '_, 's>,
    original: OwnFile<'_, '_, 's>,
    tile: &Tile<'_, 's>,
    ids: &mut Names<'s>,
    findings: &mut Vec<Finding>,
) -> Result<(), AllocError>
    requires { IsReadPart (tile_view tile.now) }
    ensures ids { OnOk result (GetsTile ids.old tile.now ids.new) }
    ensures added { OnOk result
        (AddsIfFirst plurals file.entry original.entry tile.now ids.old findings.old findings.new) }
{
    if is_first(tile, ids)? {
        push_difference(alloc, plurals, file, original, tile, findings)
    } else {
        Ok(())
    }
}

/// Whether a tile is the first of its id, which is one of these then.
fn is_first<'s>(tile: &Tile<'_, 's>, ids: &mut Names<'s>) -> Result<bool, AllocError>
    ensures ids { OnOk result (GetsTile ids.old tile.now ids.new) }
    ensures first { IfOk result (IsFirstTile tile.now ids.old) }
{
    match tile_id(tile) {
        Some(id) => {
            let is_first = !ids.has(id);
            ids.add(id)?;
            Ok(is_first)
        }
        None => Ok(false),
    }
}

/// The id of a tile, if it has one.
fn tile_id<'s>(tile: &Tile<'_, 's>) -> Option<&'s str>
    ensures { option_map (λ s. s.now) result ≡ part_id (tile_view tile.now) }
{
    match tile {
        Tile::Entry(entry, _) => declared_id(entry),
        Tile::Junk => None,
    }
}

/// Adds how a tile of a file differs, if it is a message.
fn push_difference<'s>(
    alloc: Global,
    plurals: Option<LanguagePlurals>,
    file: OwnFile<'_, '_, 's>,
    original: OwnFile<'_, '_, 's>,
    tile: &Tile<'_, 's>,
    findings: &mut Vec<Finding>,
) -> Result<(), AllocError>
    requires { IsReadPart (tile_view tile.now) }
    ensures { OnOk result (Adds findings.old findings.new
        (compared_in plurals file.entry original.entry (tile_view tile.now))) }
{
    match tile {
        Tile::Entry(entry, text) => match entry {
            Entry::Message(message) => {
                let tiles = file.tiles;
                let ids = original.ids;
                let is_both = ids.has_message(message.id.name);
                let reference = Reference {
                    ids: file.compared_ids(is_both),
                    reference: original.compared_ids(is_both),
                    plurals,
                };
                reference.compare_message(alloc, tiles.file.source, message, text, findings)
            }
            _ => Ok(()),
        },
        Tile::Junk => Ok(()),
    }
}

impl<'c, 'r, 's> OwnFile<'c, 'r, 's> {
    /// The ids that a message of the file is compared by: those that it is shown with, if both
    /// files have it.
    fn compared_ids(self, is_both: bool) -> &'c CatalogIds<'r, 's>
        ensures { ids_view _ result.now ≡ either_ids is_both (shown_view self.entry) (ids_view _ self.entry.ids.now) }
    {
        if is_both {
            self.wide.unwrap_or(self.ids)
        } else {
            self.ids
        }
    }
}
