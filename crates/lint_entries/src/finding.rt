//! How findings are made.
#![tactic(auto)]

ghost use Rattle.std.specs.Prelude.{◌≡◌, ◌-◌, IfOk, OnOk, drop, length, map, option_to_list};
ghost use Rattle.lint_entries.specs.Made.{Adds, made_of};
ghost use Rattle.lint_findings.specs.View.{finding_view, remark_view};

use crate::label::Label;
use lint_findings::{Finding, Remark};
use lint_nodes::skip;
use std::alloc::{AllocError, Global};

/// A place in an entry or in one of its attributes: the source from there on.
#[derive(Clone, Copy)]
pub struct EntryPoint<'p, 't, 's> {
    pub source: &'p str,
    pub at: &'t [u8],
    pub label: Label<'s>,
}

impl EntryPoint<'_, '_, '_> {
    /// The finding of a remark at the place.
    ///
    /// # Errors
    /// [`AllocError`] if memory runs out; nothing is kept.
    pub fn finding(&self, alloc: Global, remark: Remark) -> Result<Finding, AllocError>
        ensures { IfOk result (λ made. finding_view made ≡ made_of self.now (remark_view remark)) }
    {
        let entry = self.label.to_string(alloc)?;
        let offset = self.offset(remark.inside);
        Ok(remark.at(offset, entry))
    }

    /// How many bytes of the source stand before what follows this many bytes of the place.
    fn offset(&self, inside: usize) -> usize
        ensures { result ≡ length self.now.source.now - length (drop inside self.now.at.now) }
    {
        self.source
            .len()
            .saturating_sub(skip(self.at, inside).len())
    }
}

/// Adds a finding, if there is one.
///
/// # Errors
/// [`AllocError`] if memory runs out; nothing is added then.
pub fn push_found(found: Option<Finding>, findings: &mut Vec<Finding>) -> Result<(), AllocError>
    ensures { OnOk result (Adds findings.old findings.new (map finding_view (option_to_list found))) }
{
    match found {
        Some(finding) => {
            findings.push(finding)?;
            Ok(())
        }
        None => Ok(()),
    }
}
