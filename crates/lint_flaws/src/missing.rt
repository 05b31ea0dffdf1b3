//! The categories that a select lacks.
#![tactic(auto)]

ghost use Rattle.std.specs.Prelude.{◌≡◌, filter, IfOk};
ghost use Rattle.std.specs.List.{list_any};
ghost use Rattle.fluent_ast.specs.Borrowed.{key_of, variants_of};
ghost use Rattle.lint_flaws.specs.Common.{AreCommonBy};
ghost use Rattle.lint_flaws.specs.MissingAmong.{AreMissing, is_lacking, missing_in};
ghost use Rattle.lint_findings.specs.EntryFindings as e;
ghost use Rattle.lint_findings.specs.MissingCategories as m;
ghost use Rattle.lint_nodes.specs.NodeView.{node_view};

use crate::common::CommonCategories;
use crate::rules::{category_text, selector_rule};
use fluent_ast::{InlineExpression, Variant, VariantKey};
use fluent_number::{PluralCategory, PluralRuleType};
use fluent_plurals::LanguagePlurals;
use lint_nodes::Node;
use std::alloc::{AllocError, Global};

/// The categories that can be missing. `other` never is, since each select has a default variant.
pub const CATEGORIES: [PluralCategory; 5] = [
    PluralCategory::ZERO,
    PluralCategory::ONE,
    PluralCategory::TWO,
    PluralCategory::FEW,
    PluralCategory::MANY,
];

/// The plural categories that a node lacks by the rules of a language, in which these are common:
/// none if it is no select, or if the rules aren't known.
///
/// # Errors
/// [`AllocError`] if memory runs out; nothing is kept.
pub fn node_categories(
    alloc: Global,
    plurals: Option<LanguagePlurals>,
    common: &CommonCategories,
    node: Node<'_, '_>,
) -> Result<Vec<PluralCategory>, AllocError>
    requires { AreCommonBy plurals common.now }
    ensures { IfOk result (λ missing. missing.items
        ≡ e.node_categories plurals (node_view node.entry)) }
{
    match (plurals, node) {
        (Some(_), Node::Select { selector, variants }) => {
            missing_categories(alloc, common, selector, variants)
        }
        _ => Ok(Vec::new(alloc)),
    }
}

/// The categories that a select lacks: if it has a variant for one, those that it should have and
/// has none for.
fn missing_categories(
    alloc: Global,
    common: &CommonCategories,
    selector: &InlineExpression<&str>,
    variants: &[Variant<&str>],
) -> Result<Vec<PluralCategory>, AllocError>
    ensures { AreMissing result common.now selector.now variants.now }
{
    missing_among(alloc, &CATEGORIES, common, selector, variants)
}

/// The categories, of these, that a select lacks: if it has a variant for one, those that it should
/// have and has none for.
fn missing_among(
    alloc: Global,
    categories: &[PluralCategory],
    common: &CommonCategories,
    selector: &InlineExpression<&str>,
    variants: &[Variant<&str>],
) -> Result<Vec<PluralCategory>, AllocError>
    ensures { IfOk result (λ missing. missing.items
        ≡ missing_in categories.now common.now selector.now variants.now) }
{
    let rule = selector_rule(alloc, selector)?;
    if !has_any(variants, categories) {
        return Ok(Vec::new(alloc));
    }
    lacking(alloc, categories, common, rule, variants)
}

/// The categories, of these, that a select should have and that no variant is for.
fn lacking(
    alloc: Global,
    categories: &[PluralCategory],
    common: &CommonCategories,
    rule: PluralRuleType,
    variants: &[Variant<&str>],
) -> Result<Vec<PluralCategory>, AllocError>
    ensures { IfOk result (λ missing. missing.items
        ≡ filter (is_lacking common.now rule variants.now) categories.now) }
{
    categories
        .iter()
        .copied()
        .filter(|category| !has_variant(variants, *category) && common.asks(rule, *category))
        .collect(alloc)
}

/// Whether one of these variants is for one of these categories.
pub fn has_any(variants: &[Variant<&str>], categories: &[PluralCategory]) -> bool
    ensures { result ≡ list_any (m.has_category (m.variant_keys (variants_of variants.now)))
        categories.now }
{
    categories
        .iter()
        .any(|category| has_variant(variants, *category))
}

/// Whether one of these variants is for a category.
fn has_variant(variants: &[Variant<&str>], category: PluralCategory) -> bool
    ensures { result ≡ m.has_category (m.variant_keys (variants_of variants.now)) category }
{
    for variant in variants {
        if is_key_of(category, &variant.key) {
            return true;
        }
    }
    false
}

/// Whether a key names a category.
fn is_key_of(category: PluralCategory, key: &VariantKey<&str>) -> bool
    ensures { result ≡ m.is_key_of category (key_of key.now) }
{
    match key {
        VariantKey::Identifier { name } => category_text(category) == *name,
        VariantKey::NumberLiteral { .. } => false,
    }
}
