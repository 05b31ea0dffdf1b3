//! The findings of a file.
#![tactic(auto)]

ghost use Rattle.std.specs.Prelude.{All, IfOk, OnOk, map};
ghost use Rattle.lint_files.specs.Pushes.{AddsSyntax, AddsTile, AddsTiles, DeclaresTile, DeclaresTiles, IsAt, IsCursorIn, IsFoundAfter, MovesTo, StaysIn, found_so_far};
ghost use Rattle.lint_files.specs.RulesView.{rules_view};
ghost use Rattle.lint_entries.specs.TileView.{IsReadPart, tile_view};

use crate::entry::{PlacedEntry, push_entry};
use crate::rules::Rules;
use lint_entries::{Declarations, Tile};
use lint_findings::{File, Finding, SourcePosition};
use std::alloc::{AllocError, Global};
use std::vec;

/// The findings of a file with these tiles and syntax findings, after the declarations of other
/// files. Its own declarations are added to those.
///
/// # Errors
/// [`AllocError`] if memory runs out; some declarations may be added then.
pub fn file_findings<'s>(
    alloc: Global,
    rules: &Rules<'_, '_, 's>,
    file: File<'s>,
    tiles: &[Tile<'_, 's>],
    syntax: Vec<Finding>,
    declarations: &mut Declarations<'s>,
) -> Result<Vec<Finding>, AllocError>
    requires read { All IsReadPart (map tile_view tiles.now) }
    ensures declared { OnOk result (DeclaresTiles declarations.old declarations.new file.entry tiles.now) }
    ensures findings { IfOk result (IsFoundAfter (rules_view rules.now) declarations.old file.entry
        tiles.now syntax) }
{
    let mut findings = Vec::new(alloc);
    let cursor = Cursor {
        file,
        place: SourcePosition::start(),
        syntax: syntax.into_iter(),
    };
    push_tiles(alloc, rules, cursor, tiles, declarations, &mut findings)?;
    Ok(findings)
}

/// A place in a file, and the syntax findings that are left there.
#[derive(Drop)]
struct Cursor<'s> {
    file: File<'s>,
    place: SourcePosition,
    syntax: vec::IntoIter<Finding>,
}

impl<'s> Cursor<'s> {
    /// Moves to where only this text is left of the source.
    fn move_to(&mut self, text: &[u8])
        requires { IsCursorIn self.old }
        ensures place { IsAt self.new text.now }
        ensures others { MovesTo self.old self.new }
    {
        let source = self.file.source;
        let offset = source.len().saturating_sub(text.len());
        self.place = self.place.moved_to(source, offset);
    }

    /// Adds the next syntax finding.
    fn push_syntax(&mut self, findings: &mut Vec<Finding>) -> Result<(), AllocError>
        ensures { OnOk result (AddsSyntax self.old self.new findings.old findings.new) }
    {
        match self.syntax.next() {
            Some(finding) => {
                findings.push(finding)?;
                Ok(())
            }
            None => Ok(()),
        }
    }

    /// Adds the findings of the next tile.
    fn push_tile(
        &mut self,
        alloc: Global,
        rules: &Rules<'_, '_, 's>,
        tile: &Tile<'_, 's>,
        declarations: &mut Declarations<'s>,
        findings: &mut Vec<Finding>,
    ) -> Result<(), AllocError>
        requires read { IsReadPart (tile_view tile.now) }
        requires place { IsCursorIn self.old }
        ensures cursor { OnOk result (StaysIn self.old self.new) }
        ensures declared { OnOk result (DeclaresTile declarations.old declarations.new self.old.file tile.now) }
        ensures findings { OnOk result (AddsTile (rules_view rules.now) declarations.old tile.now
            (found_so_far self.old findings.old) (found_so_far self.new findings.new)) }
    {
        match tile {
            Tile::Entry(entry, text) => {
                self.move_to(text);
                let placed = PlacedEntry {
                    file: self.file,
                    place: self.place,
                    entry,
                    text,
                };
                push_entry(alloc, rules, &placed, declarations, findings)
            }
            Tile::Junk => self.push_syntax(findings),
        }
    }
}

/// Adds the findings of tiles.
fn push_tiles<'s>(
    alloc: Global,
    rules: &Rules<'_, '_, 's>,
    start: Cursor<'s>,
    tiles: &[Tile<'_, 's>],
    declarations: &mut Declarations<'s>,
    findings: &mut Vec<Finding>,
) -> Result<(), AllocError>
    requires read { All IsReadPart (map tile_view tiles.now) }
    requires place { IsCursorIn start }
    ensures declared { OnOk result (DeclaresTiles declarations.old declarations.new start.entry.file tiles.now) }
    ensures findings { OnOk result (AddsTiles rules.now start.entry tiles.now
        declarations.old findings.old findings.new) }
{
    let mut cursor = start;
    for tile in tiles {
        cursor.push_tile(alloc, rules, tile, declarations, findings)?;
    }
    Ok(())
}
