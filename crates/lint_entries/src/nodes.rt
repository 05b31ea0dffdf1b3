//! The findings of nodes.
#![tactic(auto)]

ghost use Rattle.std.specs.Prelude.{OnOk};
ghost use Rattle.lint_entries.specs.Added.{AddsNode, AddsOccurrences, AddsRemarks};

use crate::catalog::Catalog;
use crate::finding::EntryPoint;
use crate::label::Label;
use lint_findings::{Finding, Remark};
use lint_flaws::node_remarks;
use lint_nodes::{Node, Occurrence};
use std::alloc::{AllocError, Global};

/// Adds the findings of occurrences in a source.
///
/// # Errors
/// [`AllocError`] if memory runs out; `findings` then holds its old findings and some of these.
pub fn push_occurrences<'s>(
    alloc: Global,
    catalog: &Catalog<'_, '_, 's>,
    source: &str,
    label: Label<'s>,
    occurrences: &[Occurrence<'_, 's, '_>],
    findings: &mut Vec<Finding>,
) -> Result<(), AllocError>
    ensures { OnOk result (AddsOccurrences catalog.now source.now label.entry occurrences.now
        findings.old findings.new) }
{
    for occurrence in occurrences {
        let place = EntryPoint {
            source,
            at: occurrence.at,
            label,
        };
        push_node(alloc, catalog, &place, occurrence.node, findings)?;
    }
    Ok(())
}

/// Adds the findings of a node at a place.
fn push_node<'s>(
    alloc: Global,
    catalog: &Catalog<'_, '_, 's>,
    place: &EntryPoint<'_, '_, 's>,
    node: Node<'_, 's>,
    findings: &mut Vec<Finding>,
) -> Result<(), AllocError>
    ensures { OnOk result (AddsNode catalog.now place.now node.entry findings.old findings.new) }
{
    let remarks = node_remarks(
        alloc,
        catalog.endless.ids,
        catalog.reference,
        catalog.plurals,
        &catalog.common,
        node,
    )?;
    push_remarks(alloc, place, remarks, findings)
}

/// Adds the findings of remarks at a place.
///
/// # Errors
/// [`AllocError`] if memory runs out; `findings` then holds its old findings and some of these.
pub fn push_remarks(
    alloc: Global,
    place: &EntryPoint<'_, '_, '_>,
    remarks: Vec<Remark>,
    findings: &mut Vec<Finding>,
) -> Result<(), AllocError>
    ensures { OnOk result (AddsRemarks place.now remarks.items findings.old findings.new) }
{
    for remark in remarks {
        findings.push(place.finding(alloc, remark)?)?;
    }
    Ok(())
}
