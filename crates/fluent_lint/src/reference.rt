//! A reference that many languages are translated from.
#![tactic(auto)]

ghost use Rattle.std.specs.Prelude.{◌≡◌, All, IfOk, IfSome};
ghost use Rattle.fluent_lint.specs.FileTiles.{files_view};
ghost use Rattle.fluent_lint.specs.Own.{IsOwn, IsWideIn};
ghost use Rattle.fluent_lint.specs.Reading.{IsRead};
ghost use Rattle.fluent_lint.specs.ReferenceView.{AreFoundAlone, IsFileAt, IsReference, counted_at, ids_at};
ghost use Rattle.lint_nodes.specs.HasNames.{texts};

use crate::findings::catalog_findings;
use crate::known::Known;
use crate::message_places::message_ids;
use crate::own::{OwnFiles, own_files};
use crate::pairs::OriginalFile;
use crate::read::ReadFiles;
use crate::reports::Options;
use crate::terms::terms_of;
use crate::tiles::tiles_of_files;
use lint_entries::Catalog;
use lint_files::Rules;
use lint_findings::FileFindings;
use lint_flaws::CommonCategories;
use lint_nodes::EndlessPatterns;
use std::alloc::{AllocError, Global};

/// What is known of the files of a reference, once for all languages.
#[derive(Drop)]
pub struct ReferenceCatalog<'o, 'f, 'r, 's> {
    /// What is known of the program, and of the reference's own language.
    pub(crate) options: Options<'o>,
    pub(crate) read: &'r ReadFiles<'f, 's>,
    own: OwnFiles<'r, 's>,
    /// The findings of the files, as a catalog by itself.
    pub(crate) found: Vec<FileFindings<'s>>,
}

impl<'o, 'f, 'r, 's> ReferenceCatalog<'o, 'f, 'r, 's> {
    /// The reference of these files. The plural rules of the options are those of its own language.
    ///
    /// # Errors
    /// [`AllocError`] if memory runs out; nothing is kept.
    pub fn new(
        alloc: Global,
        options: Options<'o>,
        read: &'r ReadFiles<'f, 's>,
    ) -> Result<Self, AllocError>
        requires { IsRead read.now }
        ensures right { IfOk result IsReference }
        ensures options { IfOk result (λ reference. reference.options ≡ options.entry) }
        ensures files { IfOk result (λ reference. reference.read.now.files.now ≡ read.now.files.now) }
    {
        let own = own_files(alloc, read)?;
        let found = found_in_catalog(alloc, &options, read)?;
        Ok(ReferenceCatalog {
            options,
            read,
            own,
            found,
        })
    }

    /// The findings of its files, as a catalog by itself.
    pub fn findings(&self) -> &[FileFindings<'s>]
        requires { IsReference self.now }
        ensures { AreFoundAlone self.now.options self.now.read.now.files.now result.now }
    {
        &self.found
    }

    /// The same findings, to be reported together with those of languages.
    pub fn into_findings(self) -> Vec<FileFindings<'s>>
        requires { IsReference self }
        ensures { AreFoundAlone self.entry.options self.entry.read.now.files.now result.items }
    {
        self.found
    }

    /// How many messages the file at this index has, each id once. Beyond the last there are none.
    ///
    /// # Errors
    /// [`AllocError`] if memory runs out.
    pub fn message_count(&self, alloc: Global, index: usize) -> Result<usize, AllocError>
        requires { IsReference self.now }
        ensures { IfOk result (λ count. count
            ≡ counted_at (files_view self.now.read.now.files.now) index) }
    {
        match self.own.tiles.get(index) {
            Some(tiles) => {
                let ids = message_ids(alloc, tiles)?;
                Ok(ids.list.len())
            }
            None => Ok(0),
        }
    }

    /// The ids of the messages of the file at this index, each once. Beyond the last there are
    /// none.
    ///
    /// # Errors
    /// [`AllocError`] if memory runs out.
    pub fn message_ids(&self, alloc: Global, index: usize) -> Result<Vec<&'s str>, AllocError>
        requires { IsReference self.now }
        ensures { IfOk result (λ ids. texts ids.items
            ≡ ids_at (files_view self.now.read.now.files.now) index) }
    {
        match self.own.tiles.get(index) {
            Some(tiles) => {
                let ids = message_ids(alloc, tiles)?;
                Ok(ids.list)
            }
            None => Ok(Vec::new(alloc)),
        }
    }

    /// The file at this index, if there is one.
    pub(crate) fn file(&self, index: usize) -> Option<OriginalFile<'_, 'r, 's>>
        requires { IsReference self.now }
        ensures found { IsFileAt self.now.found.items index result }
        ensures own { IfSome result (λ found. IsOwn found.file) }
        ensures wide { IfSome result
            (λ found. IsWideIn (files_view self.now.read.now.files.now) found.file) }
    {
        let found = self.found.get(index)?;
        Some(OriginalFile {
            file: self.own.file(index),
            known: &found.findings,
        })
    }
}

/// The findings of files that are one catalog by itself.
fn found_in_catalog<'r, 's: 'r>(
    alloc: Global,
    options: &Options,
    files: &'r ReadFiles<'_, 's>,
) -> Result<Vec<FileFindings<'s>>, AllocError>
    requires { IsRead files.now }
    ensures { IfOk result (λ found. AreFoundAlone options.now files.now.files.now found.items) }
{
    let known = Known::alone(alloc, options, files)?;
    let endless = EndlessPatterns::new(alloc, &known.ids, &files.trees)?;
    let terms = terms_of(alloc, files)?;
    let common = CommonCategories::of(options.plurals);
    let catalog = Catalog {
        endless: &endless,
        reference: &known.reference,
        plurals: options.plurals,
        common,
    };
    let rules = Rules {
        functions: &known.functions,
        catalog,
        terms: &terms,
        reference: known.no_comparison(),
    };
    let tiles = tiles_of_files(alloc, files)?;
    let found = catalog_findings(alloc, &rules, None, &tiles)?;
    Ok(found)
}
