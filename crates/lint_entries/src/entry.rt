//! The findings of an entry.
#![tactic(auto)]

ghost use Rattle.std.specs.Prelude.{◌≡◌, IfOk, OnOk};
ghost use Rattle.fluent_ast.specs.Borrowed.{attributes_of};
ghost use Rattle.lint_entries.specs.Added.{AddsAttributes, AddsValue, LeavesAfter};
ghost use Rattle.lint_entries.specs.AttributePlaces.{AreAttributes, IsEntryAt, bare_entry, value_elements};
ghost use Rattle.lint_entries.specs.AttributesFound.{AddsIfTaken, place_of_attribute};
ghost use Rattle.lint_entries.specs.Found.{IsFoundIn};
ghost use Rattle.lint_entries.specs.HasNames.{GetsName};
ghost use Rattle.lint_entries.specs.Made.{made_of};
ghost use Rattle.lint_findings.specs.View.{finding_view};
ghost use Rattle.lint_findings.specs.EntryFindings.{taken_remark};
ghost use Rattle.lint_entries.specs.PartsView.{AreFoundOf, AreReadAt, value_of};
ghost use Rattle.lint_nodes.specs.OccurrenceView.{IsPatternAt};

use crate::catalog::Catalog;
use crate::entry_parts::EntryParts;
use crate::finding::EntryPoint;
use crate::label::Label;
use crate::names::Names;
use crate::pattern::push_pattern;
use crate::text::{after_equals, skip_blank_block, skip_spaces};
use fluent_ast::{Attribute, Entry, Pattern};
use lint_findings::{Finding, Remark};
use lint_nodes::{empty_pattern_rest, skip};
use std::alloc::{AllocError, Global};

/// The findings of a message or a term, but for its id; of other entries there are none. The text
/// is the source from the entry on.
///
/// # Errors
/// [`AllocError`] if memory runs out; nothing is kept.
pub fn entry_findings<'s>(
    alloc: Global,
    catalog: &Catalog<'_, '_, 's>,
    source: &str,
    entry: &Entry<&'s str>,
    text: &[u8],
) -> Result<Vec<Finding>, AllocError>
    requires { IsEntryAt (bare_entry entry.now) text.now }
    ensures { IfOk result (IsFoundIn catalog.now source.now (bare_entry entry.now) text.now) }
{
    match EntryParts::of(entry) {
        Some(parts) => parts_findings(alloc, catalog, source, &parts, text),
        None => Ok(Vec::new(alloc)),
    }
}

/// The findings of the parts of an entry.
fn parts_findings<'s>(
    alloc: Global,
    catalog: &Catalog<'_, '_, 's>,
    source: &str,
    parts: &EntryParts<'_, 's>,
    text: &[u8],
) -> Result<Vec<Finding>, AllocError>
    requires { AreReadAt parts.now text.now }
    ensures { IfOk result (AreFoundOf catalog.now source.now parts.now text.now) }
{
    let entry = EntryPoint {
        source,
        at: text,
        label: Label {
            sign: parts.sign,
            id: parts.id,
            attribute: None,
        },
    };
    let mut findings = Vec::new(alloc);
    let value = after_equals(skip(text, parts.sign.len()));
    let rest = push_value(alloc, catalog, &entry, parts.value, value, &mut findings)?;
    let attributes = skip_blank_block(rest);
    push_attributes(
        alloc,
        catalog,
        &entry,
        parts.attributes,
        attributes,
        &mut findings,
    )?;
    Ok(findings)
}

/// Adds the findings of the value of an entry, which may have none. The text is the source from the
/// value on. Returns what follows it.
fn push_value<'s, 't>(
    alloc: Global,
    catalog: &Catalog<'_, '_, 's>,
    entry: &EntryPoint<'_, '_, 's>,
    value: Option<&Pattern<&'s str>>,
    text: &'t [u8],
    findings: &mut Vec<Finding>,
) -> Result<&'t [u8], AllocError>
    requires { IsPatternAt text.now (value_elements (value_of value)) }
    ensures rest { IfOk result (λ rest. LeavesAfter (value_elements (value_of value.entry)) text.now rest.now) }
    ensures added { OnOk result
        (AddsValue catalog.now entry.now text.now (value_of value.entry) findings.old findings.new) }
{
    match value {
        Some(pattern) => push_pattern(alloc, catalog, entry, pattern, text, findings),
        None => Ok(empty_pattern_rest(text)),
    }
}

/// Adds the findings of the attributes of an entry. The text is the source from the line of the
/// first one on.
fn push_attributes<'s>(
    alloc: Global,
    catalog: &Catalog<'_, '_, 's>,
    entry: &EntryPoint<'_, '_, 's>,
    attributes: &[Attribute<&'s str>],
    text: &[u8],
    findings: &mut Vec<Finding>,
) -> Result<(), AllocError>
    requires { AreAttributes (attributes_of attributes.now) text.now }
    ensures { OnOk result
        (AddsAttributes catalog.now entry.now attributes.now text.now findings.old findings.new) }
{
    let mut names = Names::new(alloc);
    let mut rest = text;
    for attribute in attributes {
        let at = skip_spaces(rest);
        let place = attribute_place(entry, attribute.id.name, at);
        push_if_taken(alloc, &place, attribute.id.name, &mut names, findings)?;
        let value = after_equals(skip(at, 1));
        rest = push_pattern(alloc, catalog, &place, &attribute.value, value, findings)?;
    }
    Ok(())
}

/// The place of an attribute of an entry.
fn attribute_place<'p, 't, 's>(
    entry: &EntryPoint<'p, '_, 's>,
    name: &'s str,
    at: &'t [u8],
) -> EntryPoint<'p, 't, 's>
    ensures { result ≡ place_of_attribute entry.now name.entry at.entry }
{
    EntryPoint {
        source: entry.source,
        at,
        label: Label {
            sign: entry.label.sign,
            id: entry.label.id,
            attribute: Some(name),
        },
    }
}

/// Adds the finding that the name of an attribute is that of an earlier one, if it is.
fn push_if_taken<'s>(
    alloc: Global,
    place: &EntryPoint<'_, '_, 's>,
    name: &'s str,
    names: &mut Names<'s>,
    findings: &mut Vec<Finding>,
) -> Result<(), AllocError>
    ensures names { OnOk result (GetsName names.old name.now names.new) }
    ensures added { OnOk result (AddsIfTaken names.old name.now place.now findings.old findings.new) }
{
    if !names.insert(name)? {
        findings.push(taken_finding(alloc, place)?)?;
    }
    Ok(())
}

fn taken_finding(alloc: Global, place: &EntryPoint<'_, '_, '_>) -> Result<Finding, AllocError>
    ensures { IfOk result (λ made. finding_view made ≡ made_of place.now taken_remark) }
{
    let text = format!(in alloc; "an earlier attribute has this name, so this one is never shown")?;
    place.finding(alloc, Remark::warning("duplicate-attribute", text))
}
