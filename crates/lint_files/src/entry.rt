//! The findings of a message or a term.
#![tactic(auto)]

ghost use Rattle.std.specs.Prelude.{◌≡◌, IfOk, OnOk, codes, map, true};
ghost use Rattle.std.specs.Str.{bytes_eq};
ghost use Rattle.fluent_ast.specs.Borrowed.{message_of};
ghost use Rattle.fluent_grammar.specs.Tree as t;
ghost use Rattle.fluent_ids.specs.IdsView.{ids_view};
ghost use Rattle.lint_entries.specs.AttributePlaces.{bare_entry};
ghost use Rattle.lint_files.specs.Pushes.{AddsComparison, AddsIfFirst, AddsOwn, AddsPlaced, AddsUnused, AreUnquoted, DeclaresPlaced, IsCatalogFor, IsPlaced};
ghost use Rattle.lint_files.specs.RulesView.{rules_view};
ghost use Rattle.lint_findings.specs.Findings.{is_copy, is_quoted, unless_quoted};
ghost use Rattle.lint_findings.specs.View.{finding_view};

use crate::rules::Rules;
use fluent_ast::{Entry, Message};
use fluent_ids::GetEntry;
use lint_comparison::{has_quoted, is_same_message};
use lint_entries::{Catalog, Declarations, Location, entry_findings, push_found};
use lint_findings::{CatalogIds, File, Finding, SourcePosition};
use lint_nodes::declared_id;
use std::alloc::{AllocError, Global};

/// A message or a term, where it is in a file, and the source from there on.
#[derive(Drop)]
pub struct PlacedEntry<'r, 's> {
    pub file: File<'s>,
    pub place: SourcePosition,
    pub entry: &'r Entry<&'s str>,
    pub text: &'s [u8],
}

/// Adds the findings of an entry, after these declarations: first of its id, then of its patterns,
/// and if the id is new, whether it is an unused term, and how it differs from the reference. Its
/// own declaration is added, too.
///
/// # Errors
/// [`AllocError`] if memory runs out; some findings may be added then.
pub fn push_entry<'s>(
    alloc: Global,
    rules: &Rules<'_, '_, 's>,
    placed: &PlacedEntry<'_, 's>,
    declarations: &mut Declarations<'s>,
    findings: &mut Vec<Finding>,
) -> Result<(), AllocError>
    requires placed { IsPlaced placed.now }
    ensures declared { OnOk result (DeclaresPlaced declarations.old declarations.new placed.now) }
    ensures findings { OnOk result (AddsPlaced rules.now placed.now declarations.old
        findings.old findings.new) }
{
    let Some(id) = declared_id(placed.entry) else {
        return Ok(());
    };
    let duplicate = declarations.finding(rules.functions, placed.entry, id, placed.place.offset())?;
    let is_new = duplicate.is_none();
    push_found(duplicate, findings)?;
    push_own(alloc, rules, placed, findings)?;
    push_if_first(alloc, rules, placed, is_new, findings)?;
    declarations.add(id, Location::new(placed.file, placed.place))?;
    Ok(())
}

/// Adds the findings of the patterns of an entry.
fn push_own<'s>(
    alloc: Global,
    rules: &Rules<'_, '_, 's>,
    placed: &PlacedEntry<'_, 's>,
    findings: &mut Vec<Finding>,
) -> Result<(), AllocError>
    requires placed { IsPlaced placed.now }
    ensures { OnOk result (AddsOwn (rules_view rules.now) placed.now findings.old findings.new) }
{
    let catalog = catalog_for(&rules.catalog, placed.entry);
    let mut found = entry_findings(
        alloc,
        &catalog,
        placed.file.source,
        placed.entry,
        placed.text,
    )?;
    leave_quoted(alloc, rules.catalog.reference, placed.entry, &mut found)?;
    findings.append(&mut found)
}

/// Leaves out the findings of an entry that are of placeables in quotes, if its message of the
/// reference has one, too.
fn leave_quoted<'s>(
    alloc: Global,
    reference: &CatalogIds<'_, 's>,
    entry: &Entry<&'s str>,
    found: &mut Vec<Finding>,
) -> Result<(), AllocError>
    ensures { OnOk result (AreUnquoted reference.now (bare_entry entry.now) found.old found.new) }
{
    if found.is_empty() {
        return Ok(());
    }
    if is_quoted(alloc, reference, entry)? {
        keep_unquoted(found);
    }
    Ok(())
}

/// Leaves out the findings of placeables in quotes.
fn keep_unquoted(found: &mut Vec<Finding>)
    ensures { map finding_view found.new.items ≡ unless_quoted true (map finding_view found.old.items) }
{
    found.retain(|finding| !is_of_quoted(finding));
}

/// Whether a finding is of a placeable in quotes.
fn is_of_quoted(finding: &Finding) -> bool
    ensures { result ≡ bytes_eq (finding_view finding.now).code (codes "placeable-in-literal") }
{
    finding.code == "placeable-in-literal"
}

/// Whether the message of the reference has a placeable in quotes.
fn is_quoted<'s>(
    alloc: Global,
    reference: &CatalogIds<'_, 's>,
    entry: &Entry<&'s str>,
) -> Result<bool, AllocError>
    ensures { IfOk result (λ is. is ≡ is_quoted (ids_view _ reference.now) (bare_entry entry.now)) }
{
    match entry {
        Entry::Message(message) => match reference.get_entry_message(message.id.name) {
            Some(other) => has_quoted(alloc, other),
            None => Ok(false),
        },
        _ => Ok(false),
    }
}

/// The catalog of an entry, but without plural rules if the entry is a copy of the reference's
/// message, whose plural categories are those of the reference.
fn catalog_for<'c, 'r, 's>(
    catalog: &Catalog<'c, 'r, 's>,
    entry: &Entry<&'s str>,
) -> Catalog<'c, 'r, 's>
    ensures { IsCatalogFor catalog.now (bare_entry entry.now) result }
{
    match catalog.plurals {
        Some(_) => catalog_unless_copy(catalog, entry),
        None => *catalog,
    }
}

fn catalog_unless_copy<'c, 'r, 's>(
    catalog: &Catalog<'c, 'r, 's>,
    entry: &Entry<&'s str>,
) -> Catalog<'c, 'r, 's>
    ensures { IsCatalogFor catalog.now (bare_entry entry.now) result }
{
    if is_copy(catalog.reference, entry) {
        Catalog {
            endless: catalog.endless,
            reference: catalog.reference,
            plurals: None,
            common: catalog.common,
        }
    } else {
        *catalog
    }
}

/// Whether an entry is a message that is the same in the reference.
fn is_copy<'s>(reference: &CatalogIds<'_, 's>, entry: &Entry<&'s str>) -> bool
    ensures { result ≡ is_copy (ids_view _ reference.now) (bare_entry entry.now) }
{
    match entry {
        Entry::Message(message) => is_copied(reference, message),
        _ => false,
    }
}

fn is_copied<'s>(reference: &CatalogIds<'_, 's>, message: &Message<&'s str>) -> bool
    ensures { result ≡ is_copy (ids_view _ reference.now) (t.message (message_of message.now)) }
{
    match reference.get_entry_message(message.id.name) {
        Some(other) => is_same_message(message, other),
        None => false,
    }
}

/// Adds what is found of an entry only if its id is new.
fn push_if_first<'s>(
    alloc: Global,
    rules: &Rules<'_, '_, 's>,
    placed: &PlacedEntry<'_, 's>,
    is_new: bool,
    findings: &mut Vec<Finding>,
) -> Result<(), AllocError>
    requires { IsPlaced placed.now }
    ensures { OnOk result (AddsIfFirst (rules_view rules.now) placed.now is_new
        findings.old findings.new) }
{
    if !is_new {
        return Ok(());
    }
    push_unused(rules, placed, findings)?;
    push_comparison(alloc, rules, placed, findings)
}

/// Adds that an entry is a term to which the catalog doesn't refer, if it is one.
fn push_unused<'s>(
    rules: &Rules<'_, '_, 's>,
    placed: &PlacedEntry<'_, 's>,
    findings: &mut Vec<Finding>,
) -> Result<(), AllocError>
    requires { IsPlaced placed.now }
    ensures { OnOk result (AddsUnused (rules_view rules.now) placed.now findings.old findings.new) }
{
    let unused = rules.terms.unused(placed.entry, placed.place.offset())?;
    push_found(unused, findings)
}

/// Adds how an entry differs from the reference, if there is one.
fn push_comparison<'s>(
    alloc: Global,
    rules: &Rules<'_, '_, 's>,
    placed: &PlacedEntry<'_, 's>,
    findings: &mut Vec<Finding>,
) -> Result<(), AllocError>
    requires { IsPlaced placed.now }
    ensures { OnOk result (AddsComparison (rules_view rules.now) placed.now
        findings.old findings.new) }
{
    match &rules.reference {
        Some(reference) => reference.compare(
            alloc,
            placed.file.source,
            placed.entry,
            placed.text,
            findings,
        ),
        None => Ok(()),
    }
}
