//! The remarks on a node.
#![tactic(auto)]

ghost use Rattle.std.specs.Prelude.{◌≡◌, IfOk, OnOk, map};
ghost use Rattle.lint_findings.specs.View.{remark_view, severity_view};
ghost use Rattle.lint_findings.specs.EntryFindings as e;
ghost use Rattle.lint_flaws.specs.Common.{AreCommonBy};
ghost use Rattle.lint_flaws.specs.Said.{AddsCategories, AddsFlaw, AddsRemarks, AreOnNode};
ghost use Rattle.lint_nodes.specs.NodeView.{node_view};

use crate::common::CommonCategories;
use crate::escape_nodes::node_escapes;
use crate::facts::push_facts;
use crate::missing::node_categories;
use crate::misuses::push_misuses;
use crate::nodes::node_flaw;
use crate::rules::category_text;
use crate::shown::shows_number;
use fluent_number::PluralCategory;
use fluent_plurals::LanguagePlurals;
use lint_findings::{CatalogIds, Remark, Severity};
use lint_nodes::Node;
use std::alloc::{AllocError, Global};

/// All that is said of a node, in a catalog with these ids, whose reference has those: its flaw,
/// the plural categories that it lacks by the rules of a language, in which these are common, its
/// invalid escapes, the named arguments that a function of the library makes nothing of, and its
/// facts.
///
/// # Errors
/// [`AllocError`] if memory runs out; nothing is kept.
pub fn node_remarks<'s>(
    alloc: Global,
    ids: &CatalogIds<'_, 's>,
    reference: &CatalogIds<'_, 's>,
    plurals: Option<LanguagePlurals>,
    common: &CommonCategories,
    node: Node<'_, 's>,
) -> Result<Vec<Remark>, AllocError>
    requires { AreCommonBy plurals common.now }
    ensures { IfOk result (AreOnNode ids.now reference.now plurals (node_view node.entry)) }
{
    let mut found = Vec::new(alloc);
    push_flaw(alloc, ids, reference, node, &mut found)?;
    push_categories(alloc, plurals, common, node, &mut found)?;
    push_escapes(alloc, node, &mut found)?;
    push_misuses(alloc, node, &mut found)?;
    push_facts(alloc, ids, plurals, node, &mut found)?;
    Ok(found)
}

fn push_flaw<'s>(
    alloc: Global,
    ids: &CatalogIds<'_, 's>,
    reference: &CatalogIds<'_, 's>,
    node: Node<'_, 's>,
    found: &mut Vec<Remark>,
) -> Result<(), AllocError>
    ensures { OnOk result (AddsFlaw ids.now reference.now (node_view node.entry) found.old found.new) }
{
    if let Some(flaw) = node_flaw(ids, node) {
        found.push(flaw.remark(alloc, ids, reference)?)?;
    }
    Ok(())
}

fn push_categories(
    alloc: Global,
    plurals: Option<LanguagePlurals>,
    common: &CommonCategories,
    node: Node<'_, '_>,
    found: &mut Vec<Remark>,
) -> Result<(), AllocError>
    requires { AreCommonBy plurals common.now }
    ensures { OnOk result (AddsCategories plurals (node_view node.entry) found.old found.new) }
{
    let categories = node_categories(alloc, plurals, common, node)?;
    push_missing(alloc, shows_number(node), &categories, found)
}

/// Adds the remarks on categories that a select lacks, which may show its number.
fn push_missing(
    alloc: Global,
    is_shown: bool,
    categories: &[PluralCategory],
    found: &mut Vec<Remark>,
) -> Result<(), AllocError>
    ensures { OnOk result (AddsRemarks found.old found.new
        (map (e.category_remark is_shown) categories.now)) }
{
    for category in categories {
        found.push(category_remark(alloc, is_shown, *category)?)?;
    }
    Ok(())
}

/// The remark on a select that lacks a category, and may show its number.
fn category_remark(
    alloc: Global,
    is_shown: bool,
    category: PluralCategory,
) -> Result<Remark, AllocError>
    ensures { IfOk result (λ said. remark_view said ≡ e.category_remark is_shown category) }
{
    let name = category_text(category);
    let text = format!(in alloc; "there is no variant for the plural category `{name}`")?;
    Ok(Remark::new(
        category_severity(is_shown, category),
        "missing-category",
        text,
    ))
}

fn category_severity(is_shown: bool, category: PluralCategory) -> Severity
    ensures { severity_view result ≡ e.category_severity is_shown category }
{
    if is_shown {
        return Severity::Warning;
    }
    match category {
        PluralCategory::FEW | PluralCategory::MANY => Severity::Note,
        PluralCategory::ZERO | PluralCategory::ONE | PluralCategory::TWO | PluralCategory::OTHER =>
            Severity::Warning,
    }
}

fn push_escapes(
    alloc: Global,
    node: Node<'_, '_>,
    found: &mut Vec<Remark>,
) -> Result<(), AllocError>
    ensures { OnOk result (AddsRemarks found.old found.new
        (map e.escape_remark (e.node_escapes (node_view node.entry)))) }
{
    let escapes = node_escapes(alloc, node)?;
    for escape in &escapes {
        found.push(escape_remark(alloc, *escape)?)?;
    }
    Ok(())
}

fn escape_remark(alloc: Global, escape: &str) -> Result<Remark, AllocError>
    ensures { IfOk result (λ said. remark_view said ≡ e.escape_remark escape.now) }
{
    let text = format!(in alloc; "`{escape}` isn't a character, and is shown as U+FFFD")?;
    Ok(Remark::warning("invalid-escape", text))
}
