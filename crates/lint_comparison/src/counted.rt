//! Selects by numbers.
#![tactic(auto)]

ghost use Rattle.std.specs.Prelude.{◌≡◌};
ghost use Rattle.std.specs.List.{list_all, list_any};
ghost use Rattle.fluent_ast.specs.Borrowed.{key_of, variants_of};
ghost use Rattle.lint_findings.specs.Losses as l;
ghost use Rattle.lint_findings.specs.MissingCategories.{variant_keys};

use fluent_ast::{Variant, VariantKey};
use lint_flaws::category_named;

/// Whether variants are chosen by a number: each key is a plural category or a number, and one
/// isn't `other`.
pub fn are_counting(variants: &[Variant<&str>]) -> bool
    ensures { result ≡ l.are_counting (variant_keys (variants_of variants.now)) }
{
    have_plural_keys(variants) && has_counting(variants)
}

/// Whether each key is a plural category, and one isn't `other`.
pub fn are_categories(variants: &[Variant<&str>]) -> bool
    ensures { result ≡ l.are_categories (variant_keys (variants_of variants.now)) }
{
    have_category_keys(variants) && has_counting(variants)
}

fn have_plural_keys(variants: &[Variant<&str>]) -> bool
    ensures { result ≡ list_all l.is_plural_key (variant_keys (variants_of variants.now)) }
{
    variants.iter().all(|variant| is_plural_key(&variant.key))
}

fn have_category_keys(variants: &[Variant<&str>]) -> bool
    ensures { result ≡ list_all l.is_category_key (variant_keys (variants_of variants.now)) }
{
    variants.iter().all(|variant| is_category_key(&variant.key))
}

fn has_counting(variants: &[Variant<&str>]) -> bool
    ensures { result ≡ list_any l.is_counting_key (variant_keys (variants_of variants.now)) }
{
    variants.iter().any(|variant| is_counting_key(&variant.key))
}

fn is_plural_key(key: &VariantKey<&str>) -> bool
    ensures { result ≡ l.is_plural_key (key_of key.now) }
{
    match key {
        VariantKey::Identifier { name } => category_named(*name).is_some(),
        VariantKey::NumberLiteral { .. } => true,
    }
}

fn is_category_key(key: &VariantKey<&str>) -> bool
    ensures { result ≡ l.is_category_key (key_of key.now) }
{
    match key {
        VariantKey::Identifier { name } => category_named(*name).is_some(),
        VariantKey::NumberLiteral { .. } => false,
    }
}

fn is_counting_key(key: &VariantKey<&str>) -> bool
    ensures { result ≡ l.is_counting_key (key_of key.now) }
{
    match key {
        VariantKey::Identifier { name } => category_named(*name).is_some() && *name != "other",
        VariantKey::NumberLiteral { .. } => true,
    }
}
