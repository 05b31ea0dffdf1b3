//! The findings of a language.
#![tactic(auto)]

ghost use Rattle.std.specs.Prelude.{IfOk};
ghost use Rattle.lint_files.specs.RulesView.{rules_view};
ghost use Rattle.fluent_lint.specs.Languages.{AreFoundIn, AreFoundInLanguage, IsFoundForAll};
ghost use Rattle.fluent_lint.specs.Own.{AreOwn, IsOwn};
ghost use Rattle.fluent_lint.specs.Reading.{IsRead};
ghost use Rattle.fluent_lint.specs.ReferenceView.{IsReference};

use crate::known::Known;
use crate::looked::Looked;
use crate::original::{LanguageFindings, Original};
use crate::own::{OwnFiles, own_files};
use crate::pairs::{Found, OwnFile, found_alone, found_in_pair, found_obsolete};
use crate::read::ReadFiles;
use crate::reference::ReferenceCatalog;
use crate::reports::Options;
use crate::silence::hear;
use crate::terms::terms_of;
use fluent_plurals::LanguagePlurals;
use lint_entries::{Catalog, Declarations};
use lint_files::Rules;
use lint_findings::FileFindings;
use lint_flaws::CommonCategories;
use lint_nodes::EndlessPatterns;
use std::alloc::{AllocError, Global};

/// What is found in the files of a language, which may have plural rules, by what was read of them.
/// Each is translated from what is at its index, and one beyond the last of these is looked at by
/// itself. Messages are compared with those of the file that theirs is translated from, and
/// references are looked up in all files of the language. What is found in that file of the
/// reference as well is left out, and so is what comments leave out.
///
/// # Errors
/// [`AllocError`] if memory runs out; nothing is kept.
pub fn language_findings<'m, 'r: 'm, 's: 'r>(
    alloc: Global,
    reference: &ReferenceCatalog<'_, '_, 'r, 's>,
    plurals: Option<LanguagePlurals>,
    files: &'m ReadFiles<'_, 's>,
    originals: &[Original],
) -> Result<LanguageFindings<'s>, AllocError>
    requires reference { IsReference reference.now }
    requires files { IsRead files.now }
    ensures { IfOk result
        (AreFoundInLanguage reference.now plurals originals.now files.now.files.now) }
{
    let options = Options {
        functions: reference.options.functions,
        plurals,
    };
    let known = Known::of(alloc, &options, reference.read, files)?;
    let endless = EndlessPatterns::new(alloc, &known.ids, &files.trees)?;
    let terms = terms_of(alloc, files)?;
    let common = CommonCategories::of(plurals);
    let catalog = Catalog {
        endless: &endless,
        reference: &known.reference,
        plurals,
        common,
    };
    let rules = Rules {
        functions: &known.functions,
        catalog,
        terms: &terms,
        reference: known.no_comparison(),
    };
    let own = own_files(alloc, files)?;
    found_in_files(alloc, &rules, reference, &own, originals)
}

/// What is found in each of these files.
fn found_in_files<'m, 's>(
    alloc: Global,
    rules: &Rules<'_, 'm, 's>,
    reference: &ReferenceCatalog<'_, '_, '_, 's>,
    own: &OwnFiles<'m, 's>,
    originals: &[Original],
) -> Result<LanguageFindings<'s>, AllocError>
    requires reference { IsReference reference.now }
    requires own { AreOwn own.now }
    ensures { IfOk result
        (AreFoundIn (rules_view rules.now) reference.now originals.now own.now) }
{
    let mut files = Vec::with_capacity(alloc, own.tiles.len())?;
    let mut messages = Vec::with_capacity(alloc, own.tiles.len())?;
    let mut others = Declarations::new(alloc);
    for (index, tiles) in own.tiles.iter().enumerate() {
        let original = originals.get(index).copied().unwrap_or(Original::Unasked);
        let mut found = found_for(
            alloc,
            rules,
            reference,
            own.file(index),
            original,
            &mut others,
        )?;
        let looked = Looked::in_language(rules.catalog.plurals, original);
        hear(alloc, Some(looked), tiles.file.source, &mut found.findings)?;
        files.push(FileFindings {
            file: tiles.file,
            findings: found.findings,
        })?;
        messages.push(found.messages)?;
    }
    Ok(LanguageFindings { files, messages })
}

/// What is found in a file, by what it is translated from.
fn found_for<'m, 's>(
    alloc: Global,
    rules: &Rules<'_, 'm, 's>,
    reference: &ReferenceCatalog<'_, '_, '_, 's>,
    file: OwnFile<'_, 'm, 's>,
    original: Original,
    others: &mut Declarations<'s>,
) -> Result<Found, AllocError>
    requires reference { IsReference reference.now }
    requires own { IsOwn file }
    ensures { IfOk result (IsFoundForAll (rules_view rules.now) reference.now
        file.entry original others.old others.new) }
{
    match original {
        Original::File(index) => match reference.file(index) {
            Some(other) => found_in_pair(alloc, rules, file, other, others),
            None => found_alone(alloc, rules, file.tiles, others),
        },
        Original::Lacking => found_obsolete(alloc, rules, file.tiles, others),
        Original::Unasked => found_alone(alloc, rules, file.tiles, others),
    }
}
