//! What one of two messages has, and the other lacks.
#![tactic(auto)]

ghost use Rattle.std.specs.Prelude.{◌≡◌, OnOk};
ghost use Rattle.lint_comparison.specs.Lacks.{AddsIfLacking, AddsLacking, lack_of};
ghost use Rattle.lint_nodes.specs.HasNames.{texts};
ghost use Rattle.lint_findings.specs.DifferenceView.{difference_view};

use crate::shown::message_shows;
use fluent_ast::Message;
use lint_findings::Difference;
use lint_nodes::Names;
use std::alloc::AllocError;

/// A kind of names that one of two messages lacks.
#[derive(Clone, Copy)]
pub enum Lack<'m, 's> {
    MissingAttribute,
    ObsoleteAttribute,
    UnknownVariable,
    /// A variable of the message of the reference.
    LostVariable {
        /// The message of the catalog has a variable that may be meant.
        has_unknown: bool,
        /// The message of the reference.
        other: &'m Message<&'s str>,
    },
}

impl Lack<'_, '_> {
    /// The difference that a name of this kind makes.
    fn of<'n>(self, name: &'n str) -> Difference<'n>
        ensures { difference_view result ≡ lack_of self.entry name.now }
    {
        match self {
            Lack::MissingAttribute => Difference::MissingAttribute(name),
            Lack::ObsoleteAttribute => Difference::ObsoleteAttribute(name),
            Lack::UnknownVariable => Difference::UnknownVariable(name),
            Lack::LostVariable { has_unknown, other } => {
                if !has_unknown && message_shows(other, name) {
                    Difference::MissingVariable(name)
                } else {
                    Difference::UnusedVariable(name)
                }
            }
        }
    }

    /// Adds the difference that a name makes, if it is none of the others.
    ///
    /// # Errors
    /// [`AllocError`] if memory runs out; nothing is added then.
    pub fn push_if_new<'s>(
        self,
        name: &'s str,
        others: &Names<'_>,
        found: &mut Vec<Difference<'s>>,
    ) -> Result<(), AllocError>
        ensures { OnOk result (AddsIfLacking self.entry name.now others.now found.old found.new) }
    {
        if !others.has(name) {
            found.push(self.of(name))?;
        }
        Ok(())
    }

    /// Adds the differences that those of some names make that are none of the others.
    ///
    /// # Errors
    /// [`AllocError`] if memory runs out; some may be added then.
    pub fn push_new<'s>(
        self,
        names: &[&'s str],
        others: &Names<'_>,
        found: &mut Vec<Difference<'s>>,
    ) -> Result<(), AllocError>
        ensures { OnOk result (AddsLacking self.entry (texts names.now) others.now found.old found.new) }
    {
        for name in names {
            self.push_if_new(name, others, found)?;
        }
        Ok(())
    }
}
