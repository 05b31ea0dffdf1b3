//! The messages that the reference has and the catalog hasn't.
#![tactic(auto)]

ghost use Rattle.std.specs.Prelude.{◌≡◌, IfOk, OnOk, map};
ghost use Rattle.lint_entries.specs.Made.{Adds};
ghost use Rattle.lint_findings.specs.View.{finding_view};
ghost use Rattle.fluent_ids.specs.IdsView.{ids_view};
ghost use Rattle.lint_comparison.specs.Missing.{missing_in, missing_of_part};
ghost use Rattle.lint_entries.specs.Kept.{parts};
ghost use Rattle.lint_entries.specs.TileView.{tile_view};
ghost use Rattle.lint_flaws.specs.Said.{known};

use crate::missing_finding;
use fluent_ast::Entry;
use lint_entries::{Tile, push_found};
use lint_findings::{CatalogIds, Finding};
use std::alloc::{AllocError, Global};

/// The findings of the messages of a source of the reference that a catalog with these ids hasn't.
/// The tiles are those of the source.
///
/// # Errors
/// [`AllocError`] if memory runs out; nothing is kept.
pub fn missing_findings(
    alloc: Global,
    ids: &CatalogIds<'_, '_>,
    source: &str,
    tiles: &[Tile<'_, '_>],
) -> Result<Vec<Finding>, AllocError>
    requires { map tile_view tiles.now ≡ parts source.now }
    ensures { IfOk result (λ found. map finding_view found.items ≡ missing_in (ids_view _ ids.now) source.now) }
{
    let mut found = Vec::new(alloc);
    for tile in tiles {
        push_missing(alloc, ids, source, tile, &mut found)?;
    }
    Ok(found)
}

/// Adds that of a tile, if it is a message that the catalog hasn't.
fn push_missing(
    alloc: Global,
    ids: &CatalogIds<'_, '_>,
    source: &str,
    tile: &Tile<'_, '_>,
    found: &mut Vec<Finding>,
) -> Result<(), AllocError>
    ensures { OnOk result (Adds found.old found.new
        (missing_of_part (known ids.now) source.now (tile_view tile.now))) }
{
    match tile {
        Tile::Entry(entry, text) => match entry {
            Entry::Message(message) => {
                let missing = missing_finding(alloc, ids, source, message, text)?;
                push_found(missing, found)
            }
            _ => Ok(()),
        },
        Tile::Junk => Ok(()),
    }
}
