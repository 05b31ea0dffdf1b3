//! The terms that a catalog refers to, and those that it doesn't.
#![tactic(auto)]

ghost use Rattle.std.specs.Prelude.{[], IfOk, OnOk, Some};
ghost use Rattle.fluent_ast.specs.Borrowed.{entry_of};
ghost use Rattle.lint_nodes.specs.HasNames.{texts};
ghost use Rattle.lint_entries.specs.Terms.{AreTermsOf, GetsTerm, IsUnusedFinding};

use crate::entries::label;
use fluent_ast::Entry;
use lint_findings::{Finding, Remark};
use std::alloc::{AllocError, Global};
use std::collections::HashSet;

/// The terms that a catalog refers to.
#[derive(Drop)]
pub struct ReferredTerms<'s> {
    ids: HashSet<&'s str>,
    alloc: Global,
}

impl<'s> ReferredTerms<'s> {
    /// No terms. It doesn't allocate.
    fn new(alloc: Global) -> Self
        ensures { AreTermsOf result [] }
    {
        ReferredTerms {
            ids: HashSet::new(alloc),
            alloc,
        }
    }

    /// The terms of these ids. An id may come more than once.
    ///
    /// # Errors
    /// [`AllocError`] if memory runs out; nothing is kept.
    pub fn of(alloc: Global, ids: &[&'s str]) -> Result<Self, AllocError>
        ensures { IfOk result (λ terms. AreTermsOf terms (texts ids.now)) }
    {
        let mut terms = ReferredTerms::new(alloc);
        for id in ids {
            terms.add(id)?;
        }
        Ok(terms)
    }

    /// Adds the term of an id.
    fn add(&mut self, id: &'s str) -> Result<(), AllocError>
        ensures { OnOk result (GetsTerm self.old id.now self.new) }
    {
        self.ids.insert(id)?;
        Ok(())
    }

    /// The finding of an entry at an offset: that it is a term, and that the catalog doesn't refer
    /// to it.
    ///
    /// # Errors
    /// [`AllocError`] if memory runs out; nothing is kept.
    pub fn unused(&self, entry: &Entry<&str>, offset: usize) -> Result<Option<Finding>, AllocError>
        ensures { IfOk result (IsUnusedFinding self.now (entry_of entry.now) offset) }
    {
        match entry {
            Entry::Term(term) if !self.ids.contains(term.id.name) => {
                let entry = label(self.alloc, entry)?;
                let text = format!(in self.alloc; "no entry refers to this term")?;
                Ok(Some(Remark::note("unused-term", text).at(offset, entry)))
            }
            _ => Ok(None),
        }
    }
}
