//! The first declaration of each id.
#![tactic(auto)]

ghost use Rattle.std.specs.Prelude.{[], IfOk, OnErr, OnOk, option_map};
ghost use Rattle.fluent_ast.specs.Borrowed.{entry_of};
ghost use Rattle.lint_entries.specs.DuplicateText.{duplicate_text};
ghost use Rattle.lint_entries.specs.First.{AreFirst, GetsDeclaration, HasDuplicateFinding, IsDuplicateAfter, IsSame};
ghost use Rattle.fluent_ids.specs.IdsView.{ids_view};

use crate::duplicate::Duplicate;
use crate::entries::label;
use crate::location::Location;
use fluent_ast::Entry;
use lint_findings::{CatalogIds, Finding, Severity};
use std::alloc::{AllocError, Global};
use std::collections::HashMap;

/// The first declaration of each id, among the entries of a catalog so far.
///
/// ```no_run
/// let mut declarations = Declarations::new(alloc);
/// for (offset, entry) in entries {
///     place = place.moved_to(file.source, offset);
///     let Some(id) = declared_id(entry) else { continue };
///     if let Some(finding) = declarations.finding(&functions, entry, id, offset)? {
///         findings.push(finding)?;
///     }
///     declarations.add(id, Location::new(file, place))?;
/// }
/// ```
#[derive(Drop)]
pub struct Declarations<'a> {
    first: HashMap<&'a str, Location<'a>>,
    alloc: Global,
}

impl<'a> Declarations<'a> {
    /// No declarations. It doesn't allocate.
    pub fn new(alloc: Global) -> Self
        ensures { AreFirst result [] }
    {
        Declarations {
            first: HashMap::new(alloc),
            alloc,
        }
    }

    /// Adds the declaration of an id at this location. If an earlier one has the id, that one
    /// stays.
    ///
    /// # Errors
    /// [`AllocError`] if memory runs out; the declarations are unchanged.
    pub fn add(&mut self, id: &'a str, location: Location<'a>) -> Result<(), AllocError>
        ensures added { OnOk result (GetsDeclaration self.old id.now location.entry self.new) }
        ensures refused { OnErr result (IsSame self.old self.new) }
    {
        self.first.entry(id)?.or_insert(location);
        Ok(())
    }

    /// The finding of an entry with this id at an offset: that an earlier entry has the id, or that
    /// one of these functions has it.
    ///
    /// # Errors
    /// [`AllocError`] if memory runs out; nothing is kept.
    pub fn finding(
        &self,
        functions: &CatalogIds<'_, '_>,
        entry: &Entry<&str>,
        id: &str,
        offset: usize,
    ) -> Result<Option<Finding>, AllocError>
        ensures { IfOk result (HasDuplicateFinding self.now (ids_view _ functions.now)
            (entry_of entry.now) offset id.now) }
    {
        let Some(duplicate) = self.duplicate(functions, id) else {
            return Ok(None);
        };
        let entry = label(self.alloc, entry)?;
        let text = duplicate.to_string(self.alloc)?;
        Ok(Some(Finding {
            offset,
            code: "duplicate-id",
            severity: Severity::Error,
            entry: Some(entry),
            text,
            hint: None,
        }))
    }

    /// The entry or function that has this id already.
    fn duplicate<'b>(&'b self, functions: &CatalogIds<'_, '_>, id: &'b str) -> Option<Duplicate<'b>>
        ensures { IsDuplicateAfter (ids_view _ functions.now) self.now id.now
            (option_map duplicate_text result) }
    {
        if let Some(location) = self.first.get(id) {
            return Some(Duplicate::Entry(*location));
        }
        if functions.get(id).is_some() {
            return Some(Duplicate::Function(id));
        }
        None
    }
}
