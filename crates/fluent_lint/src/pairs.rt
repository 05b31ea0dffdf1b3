//! What is found in a file of a language.
#![tactic(auto)]

ghost use Rattle.std.specs.Prelude.{IfOk};
ghost use Rattle.lint_files.specs.RulesView.{rules_view};
ghost use Rattle.fluent_lint.specs.FileTiles.{AreTilesOf};
ghost use Rattle.fluent_lint.specs.Translated.{AreFoundInFile, IsFoundAloneOfAll, IsFoundInPairOfAll, IsFoundObsoleteOfAll};
ghost use Rattle.fluent_lint.specs.Own.{IsOwn};

use crate::alike::keep_new;
use crate::differences::push_differences;
use crate::gaps::push_gaps;
use crate::lone::obsolete_file;
use crate::message_places::message_ids;
use crate::original::Messages;
use crate::reported::order;
use crate::taken::push_taken;
use crate::tiles::FileTiles;
use lint_entries::Declarations;
use lint_files::{Rules, file_findings, syntax_findings};
use lint_findings::{CatalogIds, Finding};
use std::alloc::{AllocError, Global};

/// A file with what its own messages and terms stand for.
#[derive(Clone, Copy)]
pub struct OwnFile<'c, 'r, 's> {
    pub tiles: &'c FileTiles<'r, 's>,
    pub ids: &'c CatalogIds<'r, 's>,
    /// Those of all files after its own, if its messages refer to some of others.
    pub wide: Option<&'c CatalogIds<'r, 's>>,
}

/// A file that another is translated from.
#[derive(Clone, Copy)]
pub struct OriginalFile<'c, 'r, 's> {
    pub file: OwnFile<'c, 'r, 's>,
    /// What is found in it, in the catalog of the reference.
    pub known: &'c [Finding],
}

/// The findings of a file of a language, in the order of their offsets, and its numbers of
/// messages.
#[derive(Drop)]
pub struct Found {
    pub findings: Vec<Finding>,
    pub messages: Messages,
}

/// What is found in a file that is translated from another: by these rules of its language, and by
/// the messages of both files. Left out is what the other has as well. The ids of earlier files of
/// the language are taken.
///
/// # Errors
/// [`AllocError`] if memory runs out; nothing is kept.
pub fn found_in_pair<'s>(
    alloc: Global,
    rules: &Rules<'_, '_, 's>,
    file: OwnFile<'_, '_, 's>,
    original: OriginalFile<'_, '_, 's>,
    others: &mut Declarations<'s>,
) -> Result<Found, AllocError>
    requires file { IsOwn file }
    requires original { IsOwn original.file }
    ensures { IfOk result (IsFoundInPairOfAll (rules_view rules.now) file.entry original.entry others.old others.new) }
{
    let mut findings = found_in_file(alloc, rules, file.tiles)?;
    push_taken(
        alloc,
        Some(original.file.ids),
        file.tiles,
        others,
        &mut findings,
    )?;
    keep_new(&mut findings, original.known);
    push_differences(
        alloc,
        rules.catalog.plurals,
        file,
        original.file,
        &mut findings,
    )?;
    let translated = push_gaps(alloc, file.tiles, original.file.tiles, &mut findings)?;
    order(&mut findings)?;
    Ok(Found {
        findings,
        messages: Messages {
            translated,
            lacking: 0,
            alone: 0,
        },
    })
}

/// What is found in a file by itself.
///
/// # Errors
/// [`AllocError`] if memory runs out; nothing is kept.
pub fn found_alone<'s>(
    alloc: Global,
    rules: &Rules<'_, '_, 's>,
    file: &FileTiles<'_, 's>,
    others: &mut Declarations<'s>,
) -> Result<Found, AllocError>
    requires { AreTilesOf file.now }
    ensures { IfOk result (IsFoundAloneOfAll (rules_view rules.now) file.now others.old others.new) }
{
    let mut findings = found_in_file(alloc, rules, file)?;
    push_taken(alloc, None, file, others, &mut findings)?;
    order(&mut findings)?;
    Ok(Found {
        findings,
        messages: Messages::none(),
    })
}

/// What is found in a file that the reference hasn't.
///
/// # Errors
/// [`AllocError`] if memory runs out; nothing is kept.
pub fn found_obsolete<'s>(
    alloc: Global,
    rules: &Rules<'_, '_, 's>,
    file: &FileTiles<'_, 's>,
    others: &mut Declarations<'s>,
) -> Result<Found, AllocError>
    requires { AreTilesOf file.now }
    ensures { IfOk result (IsFoundObsoleteOfAll (rules_view rules.now) file.now others.old others.new) }
{
    let ids = message_ids(alloc, file)?;
    let alone = ids.list.len();
    let mut findings = found_in_file(alloc, rules, file)?;
    push_taken(alloc, None, file, others, &mut findings)?;
    let obsolete = obsolete_file(alloc, alone)?;
    findings.push(obsolete)?;
    order(&mut findings)?;
    Ok(Found {
        findings,
        messages: Messages {
            translated: 0,
            lacking: 0,
            alone,
        },
    })
}

/// The findings of a file by these rules, as if no other declared anything.
fn found_in_file<'s>(
    alloc: Global,
    rules: &Rules<'_, '_, 's>,
    file: &FileTiles<'_, 's>,
) -> Result<Vec<Finding>, AllocError>
    requires { AreTilesOf file.now }
    ensures { IfOk result (AreFoundInFile (rules_view rules.now) file.now) }
{
    let syntax = syntax_findings(alloc, file.file.source, file.errors)?;
    let mut declarations = Declarations::new(alloc);
    file_findings(
        alloc,
        rules,
        file.file,
        &file.tiles,
        syntax,
        &mut declarations,
    )
}
