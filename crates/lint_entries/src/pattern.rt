//! The findings of a pattern.
#![tactic(auto)]

ghost use Rattle.std.specs.Prelude.{◌≡◌, IfOk, OnOk};
ghost use Rattle.fluent_ast.specs.Borrowed.{elements_of};
ghost use Rattle.lint_entries.specs.Added.{AddsLetters, AddsPattern, LeavesAfter, endless_among};
ghost use Rattle.lint_entries.specs.CatalogView.{ids_in};
ghost use Rattle.lint_entries.specs.FirstEndless.{goes_on_remark};
ghost use Rattle.lint_entries.specs.Labels.{label_text};
ghost use Rattle.lint_entries.specs.Made.{Adds, made_of};
ghost use Rattle.lint_findings.specs.View.{finding_view};
ghost use Rattle.lint_nodes.specs.OccurrenceView.{IsPatternAt};

use crate::catalog::Catalog;
use crate::endless::first_entered;
use crate::finding::EntryPoint;
use crate::label::Label;
use crate::nodes::{push_occurrences, push_remarks};
use fluent_ast::Pattern;
use fluent_tokens::front;
use lint_findings::{Finding, Remark};
use lint_flaws::{letter_remarks, word_remarks};
use lint_nodes::{Occurrence, pattern_occurrences};
use std::alloc::{AllocError, Global};

/// Adds the findings of a pattern: whether its references end, at the name that it has, and then
/// those of its nodes and of its characters. The text is the source from the pattern on. Returns
/// what follows the pattern.
///
/// # Errors
/// [`AllocError`] if memory runs out; `findings` then holds its old findings and some of these.
pub fn push_pattern<'s, 't>(
    alloc: Global,
    catalog: &Catalog<'_, '_, 's>,
    name: &EntryPoint<'_, '_, 's>,
    pattern: &Pattern<&'s str>,
    text: &'t [u8],
    findings: &mut Vec<Finding>,
) -> Result<&'t [u8], AllocError>
    requires { IsPatternAt text.now (elements_of pattern.now) }
    ensures rest { IfOk result (λ rest. LeavesAfter (elements_of pattern.now) text.now rest.now) }
    ensures added { OnOk result
        (AddsPattern catalog.now name.now text.now pattern.now findings.old findings.new) }
{
    let found = pattern_occurrences(alloc, pattern, text)?;
    push_endless(alloc, catalog, name, &found.occurrences, findings)?;
    push_occurrences(
        alloc,
        catalog,
        name.source,
        name.label,
        &found.occurrences,
        findings,
    )?;
    push_letters(alloc, name, text, found.rest, findings)?;
    Ok(found.rest)
}

/// Adds the findings of the characters of a pattern, which stand before this rest.
fn push_letters(
    alloc: Global,
    name: &EntryPoint<'_, '_, '_>,
    text: &[u8],
    rest: &[u8],
    findings: &mut Vec<Finding>,
) -> Result<(), AllocError>
    ensures { OnOk result (AddsLetters name.now text.now rest.now findings.old findings.new) }
{
    let len = text.len().saturating_sub(rest.len());
    let place = EntryPoint {
        source: name.source,
        at: text,
        label: name.label,
    };
    let written = front(text, len);
    push_remarks(alloc, &place, letter_remarks(alloc, written)?, findings)?;
    push_remarks(alloc, &place, word_remarks(alloc, written)?, findings)
}

/// Adds the finding that the references of a pattern with these occurrences never end, if they
/// don't.
fn push_endless<'s>(
    alloc: Global,
    catalog: &Catalog<'_, '_, 's>,
    name: &EntryPoint<'_, '_, 's>,
    occurrences: &[Occurrence<'_, 's, '_>],
    findings: &mut Vec<Finding>,
) -> Result<(), AllocError>
    ensures { OnOk result (Adds findings.old findings.new
        (endless_among (ids_in catalog.now) name.now occurrences.now)) }
{
    if let Some(reference) = first_entered(catalog.endless, occurrences) {
        findings.push(endless_finding(alloc, name, reference)?)?;
    }
    Ok(())
}

/// The finding that references never end, and go on at this one.
fn endless_finding(
    alloc: Global,
    name: &EntryPoint<'_, '_, '_>,
    reference: Label<'_>,
) -> Result<Finding, AllocError>
    ensures { IfOk result (λ made. finding_view made
        ≡ made_of name.now (goes_on_remark (label_text reference.entry))) }
{
    let text = format!(in alloc; "the references never end")?;
    let hint = format!(in alloc; "they go on at `{reference}`")?;
    let remark = Remark::error("cyclic-reference", text).with_hint(Some(hint));
    name.finding(alloc, remark)
}
