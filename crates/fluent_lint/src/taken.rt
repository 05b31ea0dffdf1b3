//! Ids that several files of a language have.
#![tactic(auto)]

ghost use Rattle.std.specs.Prelude.{◌≡◌, ◌≤◌, OnOk, length};
ghost use Rattle.fluent_ast.specs.Borrowed.{entry_of};
ghost use Rattle.fluent_lint.specs.FileTiles.{AreTilesOf};
ghost use Rattle.fluent_lint.specs.Taken.{is_looked_up};
ghost use Rattle.fluent_lint.specs.TakenView.{AddsAt, AddsTaken, CountsBy, DeclaresAt, Finds, FindsTile, GetsDeclared, MeetsEntry, MeetsTile, of_looked};
ghost use Rattle.lint_findings.specs.PlaceView.{IsPlaceIn};

use crate::tiles::FileTiles;
use fluent_ast::Entry;
use fluent_ids::FluentIds;
use lint_entries::{Declarations, Location, Tile, push_found};
use lint_findings::{CatalogIds, File, Finding, SourcePosition};
use lint_nodes::{Names, declared_id};
use std::alloc::{AllocError, Global};

/// Adds the findings of the entries of a file whose ids an earlier file of the language has as
/// well, and then declares the file's own. That counts only for entries that are looked up: those
/// that the original of the file has, if it has one, and all terms.
///
/// # Errors
/// [`AllocError`] if memory runs out; some may be added then.
pub fn push_taken<'s>(
    alloc: Global,
    original: Option<&CatalogIds<'_, 's>>,
    file: &FileTiles<'_, 's>,
    others: &mut Declarations<'s>,
    findings: &mut Vec<Finding>,
) -> Result<(), AllocError>
    requires { AreTilesOf file.now }
    ensures added { OnOk result (AddsTaken original.entry file.now others.old findings.old findings.new) }
    ensures declared { OnOk result (GetsDeclared original.entry file.now others.old others.new) }
{
    let looked = Looked {
        alloc,
        original,
        file: file.file,
    };
    let mut seen = Seen {
        ids: Names::new(alloc),
        place: SourcePosition::start(),
    };
    for tile in &file.tiles {
        seen.add_tile(looked, tile, others, findings)?;
    }
    Ok(())
}

/// A file, and what the entries of the file stand for that it is translated from.
#[derive(Clone, Copy)]
struct Looked<'c, 'o, 's> {
    alloc: Global,
    original: Option<&'c CatalogIds<'o, 's>>,
    file: File<'s>,
}

impl Looked<'_, '_, '_> {
    /// Whether an entry is looked up in the file.
    fn has(self, entry: &Entry<&str>) -> bool
        ensures { result ≡ is_looked_up (of_looked self.entry) (entry_of entry.now) }
    {
        match entry {
            Entry::Message(message) => match self.original {
                Some(original) => original.has_message(message.id.name),
                None => true,
            },
            _ => true,
        }
    }
}

/// The ids of a file so far, and the place of the last entry that counts.
#[derive(Drop)]
struct Seen<'s> {
    ids: Names<'s>,
    place: SourcePosition,
}

impl<'s> Seen<'s> {
    /// Adds a tile of the file.
    fn add_tile(
        &mut self,
        looked: Looked<'_, '_, 's>,
        tile: &Tile<'_, 's>,
        others: &mut Declarations<'s>,
        findings: &mut Vec<Finding>,
    ) -> Result<(), AllocError>
        requires { IsPlaceIn looked.file.source.now self.old.place }
        ensures place { OnOk result (IsPlaceIn looked.entry.file.source.now self.new.place) }
        ensures met { OnOk result (MeetsTile looked.entry tile.now self.old others.old self.new others.new) }
        ensures found { OnOk result (FindsTile looked.entry tile.now self.old others.old findings.old findings.new) }
    {
        match tile {
            Tile::Entry(entry, text) => match declared_id(entry) {
                Some(id) => {
                    let offset = looked.file.source.len().saturating_sub(text.len());
                    self.add(looked, entry, id, offset, others, findings)
                }
                None => Ok(()),
            },
            Tile::Junk => Ok(()),
        }
    }

    /// Adds an entry of an id at an offset.
    fn add(
        &mut self,
        looked: Looked<'_, '_, 's>,
        entry: &Entry<&'s str>,
        id: &'s str,
        offset: usize,
        others: &mut Declarations<'s>,
        findings: &mut Vec<Finding>,
    ) -> Result<(), AllocError>
        requires place { IsPlaceIn looked.file.source.now self.old.place }
        requires within { offset ≤ length looked.file.source.now }
        ensures place { OnOk result (IsPlaceIn looked.entry.file.source.now self.new.place) }
        ensures met { OnOk result
            (MeetsEntry looked.entry offset entry.now id.now self.old others.old self.new others.new) }
        ensures found { OnOk result
            (Finds looked.entry offset entry.now id.now self.old others.old findings.old findings.new) }
    {
        let counts = self.counts(looked, entry, id);
        self.ids.add(id)?;
        if !counts {
            return Ok(());
        }
        self.place = self.place.moved_to(looked.file.source, offset);
        declare(looked, entry, id, self.place, others, findings)
    }

    /// Whether an entry of an id counts.
    fn counts(&self, looked: Looked<'_, '_, 's>, entry: &Entry<&'s str>, id: &str) -> bool
        ensures { CountsBy looked.entry self.now (entry_of entry.now) id.now result }
    {
        !self.ids.has(id) && looked.has(entry)
    }
}

/// Adds that the id of an entry at a place is taken, if it is, and declares the entry.
fn declare<'s>(
    looked: Looked<'_, '_, 's>,
    entry: &Entry<&'s str>,
    id: &'s str,
    place: SourcePosition,
    others: &mut Declarations<'s>,
    findings: &mut Vec<Finding>,
) -> Result<(), AllocError>
    requires { IsPlaceIn looked.file.source.now place }
    ensures added { OnOk result (AddsAt others.old entry.now place id.now findings.old findings.new) }
    ensures declared { OnOk result (DeclaresAt looked.entry entry.now place id.now others.old others.new) }
{
    let none = FluentIds::new(looked.alloc);
    let taken = others.finding(&none, entry, id, place.offset())?;
    push_found(taken, findings)?;
    others.add(id, Location::new(looked.file, place))?;
    Ok(())
}
