//! The findings of a catalog.
#![tactic(auto)]

ghost use Rattle.std.specs.Prelude.{◌≡◌, All, IfOk, OnOk};
ghost use Rattle.lint_files.specs.RulesView.{rules_view};
ghost use Rattle.fluent_lint.specs.FileTiles.{AreTilesOf, files_of};
ghost use Rattle.fluent_lint.specs.ReferenceView.{named_by};
ghost use Rattle.fluent_lint.specs.Found.{AreAllFound, AreFoundIn, DeclaresFile, IsOrderedInFile};

use crate::looked::Looked;
use crate::missing::push_missing_messages;
use crate::reported::order;
use crate::silence::hear;
use crate::tiles::FileTiles;
use lint_entries::Declarations;
use lint_files::{Rules, file_findings, syntax_findings};
use lint_findings::{FileFindings, Finding};
use std::alloc::{AllocError, Global};

/// All findings by these rules: those of the files of a catalog, and then the messages of its
/// reference that it hasn't. What comments leave out isn't found.
///
/// # Errors
/// [`AllocError`] if memory runs out; nothing is kept.
pub fn all_findings<'s>(
    alloc: Global,
    rules: &Rules<'_, '_, 's>,
    looked: Looked,
    references: &[FileTiles<'_, 's>],
    files: &[FileTiles<'_, 's>],
) -> Result<Vec<FileFindings<'s>>, AllocError>
    requires references { All AreTilesOf references.now }
    requires files { All AreTilesOf files.now }
    ensures { IfOk result (AreAllFound (rules_view rules.now) looked references.now files.now) }
{
    let mut found = catalog_findings(alloc, rules, Some(looked), files)?;
    push_missing_messages(alloc, rules.catalog.endless.ids, references, &mut found)?;
    Ok(found)
}

/// The findings of the files of a catalog, by these rules. Comments leave some out, if it is known
/// what is looked for.
///
/// # Errors
/// [`AllocError`] if memory runs out; nothing is kept.
pub fn catalog_findings<'s>(
    alloc: Global,
    rules: &Rules<'_, '_, 's>,
    looked: Option<Looked>,
    files: &[FileTiles<'_, 's>],
) -> Result<Vec<FileFindings<'s>>, AllocError>
    requires tiles { All AreTilesOf files.now }
    ensures found { IfOk result (AreFoundIn (rules_view rules.now) looked files.now) }
    ensures files { IfOk result (λ found. named_by found.items ≡ files_of files.now) }
{
    let mut declarations = Declarations::new(alloc);
    let mut found = Vec::new(alloc);
    for file in files {
        let mut findings = findings_of_file(alloc, rules, file, &mut declarations)?;
        hear(alloc, looked, file.file.source, &mut findings)?;
        found.push(FileFindings {
            file: file.file,
            findings,
        })?;
    }
    Ok(found)
}

/// The findings of a file in the order of their offsets, after the declarations of others. Its own
/// declarations are added to those.
fn findings_of_file<'s>(
    alloc: Global,
    rules: &Rules<'_, '_, 's>,
    file: &FileTiles<'_, 's>,
    declarations: &mut Declarations<'s>,
) -> Result<Vec<Finding>, AllocError>
    requires tiles { AreTilesOf file.now }
    ensures declared { OnOk result (DeclaresFile declarations.old declarations.new file.now.file) }
    ensures findings { IfOk result
        (IsOrderedInFile (rules_view rules.now) declarations.old file.now.file) }
{
    let syntax = syntax_findings(alloc, file.file.source, file.errors)?;
    let mut findings = file_findings(alloc, rules, file.file, &file.tiles, syntax, declarations)?;
    order(&mut findings)?;
    Ok(findings)
}
