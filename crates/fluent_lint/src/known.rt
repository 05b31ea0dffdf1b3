//! What is known of a catalog and its reference.
#![tactic(auto)]

ghost use Rattle.std.specs.Prelude.{◌≡◌, [], IfOk, None, OnOk};
ghost use Rattle.fluent_ids.specs.IdsView.{ids_view};
ghost use Rattle.fluent_lint.specs.KnownIds.{AreCalledBy, IsKnownOf, compared};
ghost use Rattle.fluent_lint.specs.Reading.{IsRead};
ghost use Rattle.lint_files.specs.RulesView.{compare_with};

use crate::ids::{add_ids, add_known_functions};
use crate::read::ReadFiles;
use crate::reports::Options;
use fluent_ids::FluentIds;
use fluent_plurals::LanguagePlurals;
use lint_comparison::{Reference, called_functions};
use lint_findings::CatalogIds;
use std::alloc::{AllocError, Global};

/// What ids stand for: those of the functions that are known, those of a catalog, and those of its
/// reference. Each has the functions.
#[derive(Drop)]
pub struct Known<'r, 's> {
    pub functions: CatalogIds<'r, 's>,
    pub ids: CatalogIds<'r, 's>,
    pub reference: CatalogIds<'r, 's>,
}

impl<'r, 's> Known<'r, 's> {
    /// Nothing. It doesn't allocate.
    fn new(alloc: Global) -> Self
        ensures functions { ids_view _ result.functions ≡ [] }
        ensures ids { ids_view _ result.ids ≡ [] }
        ensures reference { ids_view _ result.reference ≡ [] }
    {
        Known {
            functions: FluentIds::new(alloc),
            ids: FluentIds::new(alloc),
            reference: FluentIds::new(alloc),
        }
    }

    /// What is known of the files of a catalog and of its reference, which has none if there is no
    /// reference. The functions that the reference calls are known, too.
    ///
    /// # Errors
    /// [`AllocError`] if memory runs out; nothing is kept.
    pub fn of(
        alloc: Global,
        options: &Options,
        references: &'r ReadFiles<'_, 's>,
        files: &'r ReadFiles<'_, 's>,
    ) -> Result<Self, AllocError>
        requires references { IsRead references.now }
        requires files { IsRead files.now }
        ensures { IfOk result (IsKnownOf options.now references.now.files.now files.now.files.now) }
    {
        let called = called_functions(alloc, &references.trees)?;
        let mut known = Known::new(alloc);
        known.add(options, &called, references, files)?;
        Ok(known)
    }

    /// What is known of the files of a catalog without a reference.
    ///
    /// # Errors
    /// [`AllocError`] if memory runs out; nothing is kept.
    pub fn alone(
        alloc: Global,
        options: &Options,
        files: &'r ReadFiles<'_, 's>,
    ) -> Result<Self, AllocError>
        requires { IsRead files.now }
        ensures { IfOk result (IsKnownOf options.now [] files.now.files.now) }
    {
        let mut known = Known::new(alloc);
        add_known_functions(&mut known.functions, options.functions, &[])?;
        add_ids(&mut known.ids, options.functions, &[], &files.trees)?;
        add_known_functions(&mut known.reference, options.functions, &[])?;
        Ok(known)
    }

    /// Adds it to nothing, with the functions that the reference calls.
    fn add(
        &mut self,
        options: &Options,
        called: &[&str],
        references: &'r ReadFiles<'_, 's>,
        files: &'r ReadFiles<'_, 's>,
    ) -> Result<(), AllocError>
        requires called { AreCalledBy references.now.files.now called.now }
        requires references { IsRead references.now }
        requires files { IsRead files.now }
        requires no_functions { ids_view _ self.old.functions ≡ [] }
        requires no_ids { ids_view _ self.old.ids ≡ [] }
        requires no_reference { ids_view _ self.old.reference ≡ [] }
        ensures { OnOk result
            (IsKnownOf options.now references.now.files.now files.now.files.now self.new) }
    {
        add_known_functions(&mut self.functions, options.functions, called)?;
        add_ids(&mut self.ids, options.functions, called, &files.trees)?;
        add_ids(
            &mut self.reference,
            options.functions,
            called,
            &references.trees,
        )
    }

    /// That entries aren't compared.
    pub fn no_comparison<'c>(&'c self) -> Option<Reference<'c, 'r, 's>>
        ensures { result ≡ None }
    {
        None
    }

    /// What entries of the catalog are compared with: the reference, if it has files.
    pub fn comparison<'c>(
        &'c self,
        plurals: Option<LanguagePlurals>,
        references: &'r ReadFiles<'_, 's>,
    ) -> Option<Reference<'c, 'r, 's>>
        ensures { compare_with result ≡ compared self.now plurals references.now.files.now }
    {
        match references.files {
            [] => None,
            [_, ..] => Some(Reference {
                ids: &self.ids,
                reference: &self.reference,
                plurals,
            }),
        }
    }
}
