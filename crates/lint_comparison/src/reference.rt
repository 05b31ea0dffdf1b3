//! The comparison of a catalog with its reference.
#![tactic(auto)]

ghost use Rattle.std.specs.Prelude.{OnOk};
ghost use Rattle.fluent_ast.specs.Borrowed.{message_of};
ghost use Rattle.fluent_grammar.specs.Tree as t;
ghost use Rattle.lint_comparison.specs.ComparedBy.{compared_by, found_by, message_compared};
ghost use Rattle.lint_entries.specs.AttributePlaces.{IsEntryAt, bare_entry};
ghost use Rattle.lint_entries.specs.Made.{Adds};

use crate::findings::difference_findings;
use crate::losses::push_loss_findings;
use crate::texts::push_text_findings;
use fluent_ast::{Entry, Message};
use fluent_ids::GetEntry;
use fluent_plurals::LanguagePlurals;
use lint_findings::{CatalogIds, Finding};
use std::alloc::{AllocError, Global};

/// What the ids of a catalog stand for, and what those of its reference do.
#[derive(Clone, Copy)]
pub struct Reference<'c, 'r, 's> {
    pub ids: &'c CatalogIds<'r, 's>,
    pub reference: &'c CatalogIds<'r, 's>,
    /// The plural rules of the catalog's language, if plurals are looked at.
    pub plurals: Option<LanguagePlurals>,
}

impl<'s> Reference<'_, '_, 's> {
    /// Adds how an entry of a source of the catalog differs from the reference. The text is the
    /// source from the entry on.
    ///
    /// # Errors
    /// [`AllocError`] if memory runs out; some may be added then.
    pub fn compare(
        &self,
        alloc: Global,
        source: &str,
        entry: &Entry<&'s str>,
        text: &[u8],
        findings: &mut Vec<Finding>,
    ) -> Result<(), AllocError>
        requires { IsEntryAt (bare_entry entry.now) text.now }
        ensures { OnOk result (Adds findings.old findings.new
            (compared_by self.now source.now (bare_entry entry.now) text.now)) }
    {
        match entry {
            Entry::Message(message) => {
                self.compare_message(alloc, source, message, text, findings)
            }
            _ => Ok(()),
        }
    }

    /// Adds how a message of a source of the catalog differs from that of the reference, and what
    /// it loses of it, and what is said of its texts. The text is the source from the message on.
    ///
    /// # Errors
    /// [`AllocError`] if memory runs out; some may be added then.
    pub fn compare_message(
        &self,
        alloc: Global,
        source: &str,
        message: &Message<&'s str>,
        text: &[u8],
        findings: &mut Vec<Finding>,
    ) -> Result<(), AllocError>
        requires { IsEntryAt (t.message (message_of message.now)) text.now }
        ensures { OnOk result (Adds findings.old findings.new
            (message_compared self.now source.now message.now text.now)) }
    {
        let other = self.reference.get_entry_message(message.id.name);
        let mut found = difference_findings(
            alloc,
            self.ids,
            self.reference,
            source,
            message,
            other,
            text,
        )?;
        findings.append(&mut found)?;
        match other {
            Some(other) => self.push_beside(alloc, source, message, other, text, findings),
            None => Ok(()),
        }
    }

    /// Adds what a message loses of that of the reference, and what is said of its texts beside
    /// those of that.
    fn push_beside(
        &self,
        alloc: Global,
        source: &str,
        message: &Message<&'s str>,
        other: &Message<&'s str>,
        text: &[u8],
        findings: &mut Vec<Finding>,
    ) -> Result<(), AllocError>
        requires { IsEntryAt (t.message (message_of message.now)) text.now }
        ensures { OnOk result (Adds findings.old findings.new
            (found_by self.now source.now message.now other.now text.now)) }
    {
        let offset = source.len().saturating_sub(text.len());
        push_loss_findings(
            alloc,
            self.reference,
            self.plurals,
            message,
            other,
            offset,
            findings,
        )?;
        push_text_findings(alloc, source, message, other, text, findings)
    }
}
