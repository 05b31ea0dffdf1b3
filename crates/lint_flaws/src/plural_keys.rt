//! Keys that name plural categories, or nearly do.
#![tactic(auto)]

ghost use Rattle.std.specs.Prelude.{◌≡◌, ◌∷◌, IfOk, OnOk, filter, map, string_bytes};
ghost use Rattle.std.specs.List.{list_all, list_any};
ghost use Rattle.fluent_ast.specs.Borrowed.{inline_of, key_of, positional_of, variants_of};
ghost use Rattle.fluent_number.specs.Reading.{read_number};
ghost use Rattle.lint_findings.specs.View.{remark_view};
ghost use Rattle.lint_findings.specs.Facts as f;
ghost use Rattle.lint_findings.specs.MissingCategories as m;
ghost use Rattle.lint_flaws.specs.FactsBy as by;
ghost use Rattle.lint_flaws.specs.FactsBy.{IsOnFact};
ghost use Rattle.lint_flaws.specs.Said.{AddsFacts};

use crate::adding::push_remark;
use crate::builtins::returns_number;
use crate::hint::near_hint;
use crate::missing::{CATEGORIES, has_any};
use crate::near::{KnownNames, nearest};
use crate::rules::{category_text, is_taken, selector_rule};
use fluent_ast::{InlineExpression, Variant, VariantKey};
use fluent_number::{PluralCategory, PluralRuleType};
use fluent_plurals::LanguagePlurals;
use lint_findings::Remark;
use std::alloc::{AllocError, Global};

/// Adds what is said of the keys of a select, by the rules of a language, if the select is one by
/// plural categories.
///
/// # Errors
/// [`AllocError`] if memory runs out; `found` then holds its old remarks and some of these.
pub fn push_select(
    alloc: Global,
    plurals: &LanguagePlurals,
    selector: &InlineExpression<&str>,
    variants: &[Variant<&str>],
    found: &mut Vec<Remark>,
) -> Result<(), AllocError>
    ensures { OnOk result (AddsFacts (by.select_facts plurals.now selector.now variants.now)
        found.old found.new) }
{
    if !counts(selector) || !are_plural(alloc, variants)? {
        return Ok(());
    }
    let rule = selector_rule(alloc, selector)?;
    push_variants(alloc, plurals, rule, variants, found)
}

/// Whether the plural category of a selector counts: that of a variable, or of one that a function
/// makes a number of.
fn counts(selector: &InlineExpression<&str>) -> bool
    ensures { result ≡ f.counts (inline_of selector.now) }
{
    match selector {
        InlineExpression::VariableReference { .. } => true,
        InlineExpression::FunctionReference { id, arguments } => {
            returns_number(id.name) && is_first_variable(&arguments.positional)
        }
        _ => false,
    }
}

fn is_first_variable(arguments: &[InlineExpression<&str>]) -> bool
    ensures { result ≡ f.is_first_variable (positional_of arguments.now) }
{
    matches!(
        arguments.first(),
        Some(InlineExpression::VariableReference { .. })
    )
}

/// Whether a variant is for a category other than `other`, or each key is nearly a category.
fn are_plural(alloc: Global, variants: &[Variant<&str>]) -> Result<bool, AllocError>
    ensures { IfOk result (λ are. are ≡ f.are_plural (m.variant_keys (variants_of variants.now))) }
{
    if has_any(variants, &CATEGORIES) {
        return Ok(true);
    }
    Ok(all_may_be(alloc, variants)? && has_slip(alloc, variants)?)
}

fn all_may_be(alloc: Global, variants: &[Variant<&str>]) -> Result<bool, AllocError>
    ensures { IfOk result (λ all. all
        ≡ list_all f.may_be_category (m.variant_keys (variants_of variants.now))) }
{
    for variant in variants {
        if !may_be_category(alloc, &variant.key)? {
            return Ok(false);
        }
    }
    Ok(true)
}

fn may_be_category(alloc: Global, key: &VariantKey<&str>) -> Result<bool, AllocError>
    ensures { IfOk result (λ may_be. may_be ≡ f.may_be_category (key_of key.now)) }
{
    match key {
        VariantKey::Identifier { name } => Ok(*name == "other" || is_near_category(alloc, *name)?),
        VariantKey::NumberLiteral { .. } => Ok(false),
    }
}

fn has_slip(alloc: Global, variants: &[Variant<&str>]) -> Result<bool, AllocError>
    ensures { IfOk result (λ found. found
        ≡ list_any f.is_slip (m.variant_keys (variants_of variants.now))) }
{
    for variant in variants {
        if is_slip(alloc, &variant.key)? {
            return Ok(true);
        }
    }
    Ok(false)
}

fn is_slip(alloc: Global, key: &VariantKey<&str>) -> Result<bool, AllocError>
    ensures { IfOk result (λ is_slip. is_slip ≡ f.is_slip (key_of key.now)) }
{
    match key {
        VariantKey::Identifier { name } => is_near_category(alloc, *name),
        VariantKey::NumberLiteral { .. } => Ok(false),
    }
}

fn is_near_category(alloc: Global, name: &str) -> Result<bool, AllocError>
    ensures { IfOk result (λ is_near. is_near ≡ f.is_near_category name.now) }
{
    Ok(matches!(nearest(alloc, &CategoryNames, name)?, Some(_)))
}

/// Adds what is said of the keys of variants.
fn push_variants(
    alloc: Global,
    plurals: &LanguagePlurals,
    rule: PluralRuleType,
    variants: &[Variant<&str>],
    found: &mut Vec<Remark>,
) -> Result<(), AllocError>
    ensures { OnOk result (AddsFacts (f.variants_facts plurals.now rule
        (variants_of variants.now)) found.old found.new) }
{
    for variant in variants {
        push_key(alloc, plurals, rule, &variant.key, found)?;
    }
    Ok(())
}

fn push_key(
    alloc: Global,
    plurals: &LanguagePlurals,
    rule: PluralRuleType,
    key: &VariantKey<&str>,
    found: &mut Vec<Remark>,
) -> Result<(), AllocError>
    ensures { OnOk result (AddsFacts (f.key_facts plurals.now rule (key_of key.now))
        found.old found.new) }
{
    match key {
        VariantKey::Identifier { name } => push_word(alloc, plurals, rule, *name, found),
        VariantKey::NumberLiteral { .. } => Ok(()),
    }
}

fn push_word(
    alloc: Global,
    plurals: &LanguagePlurals,
    rule: PluralRuleType,
    word: &str,
    found: &mut Vec<Remark>,
) -> Result<(), AllocError>
    ensures { OnOk result (AddsFacts (by.word_facts plurals.now rule word.now)
        found.old found.new) }
{
    match category_named(word) {
        Some(category) => push_category(alloc, plurals, rule, category, found),
        None => push_near(alloc, word, found),
    }
}

/// Adds that the language has no such category, if it hasn't.
fn push_category(
    alloc: Global,
    plurals: &LanguagePlurals,
    rule: PluralRuleType,
    category: PluralCategory,
    found: &mut Vec<Remark>,
) -> Result<(), AllocError>
    ensures { OnOk result (AddsFacts (f.category_facts plurals.now rule category)
        found.old found.new) }
{
    if matches!(category, PluralCategory::OTHER) || is_taken(plurals, rule, category) {
        return Ok(());
    }
    let categories = categories_of(alloc, plurals, rule)?;
    push_remark(lacking_remark(alloc, &categories, category)?, found)
}

/// The categories that a language has, but `other`.
fn categories_of(
    alloc: Global,
    plurals: &LanguagePlurals,
    rule: PluralRuleType,
) -> Result<Vec<PluralCategory>, AllocError>
    ensures { IfOk result (λ found. found.items ≡ f.categories_of plurals.now rule) }
{
    CATEGORIES
        .iter()
        .copied()
        .filter(|category| is_taken(plurals, rule, *category))
        .collect(alloc)
}

/// The remark on a category that a language with these, and `other`, doesn't have.
fn lacking_remark(
    alloc: Global,
    categories: &[PluralCategory],
    category: PluralCategory,
) -> Result<Remark, AllocError>
    ensures { IfOk result (λ said. remark_view said ≡ f.lacking_remark categories.now category) }
{
    let name = category_text(category);
    let text = format!(in alloc; "the language has no category `{name}`")?;
    if categories.is_empty() && matches!(category, PluralCategory::ONE) {
        return Ok(Remark::note("unused-category", text));
    }
    let hint = category_hint(alloc, categories)?;
    Ok(Remark::warning("unknown-category", text).with_hint(Some(hint)))
}

/// The hint that a language has these categories, and `other`.
fn category_hint(alloc: Global, categories: &[PluralCategory]) -> Result<String, AllocError>
    ensures { IfOk result (λ hint. string_bytes hint ≡ f.category_hint categories.now) }
{
    let mut hint = String::from_str(alloc, "it has ")?;
    for category in categories {
        hint.push_str("`")?;
        hint.push_str(category_text(*category))?;
        hint.push_str("`, ")?;
    }
    hint.push_str("`other`")?;
    Ok(hint)
}

/// Adds that a word is no category, if it is nearly one.
fn push_near(alloc: Global, word: &str, found: &mut Vec<Remark>) -> Result<(), AllocError>
    ensures { OnOk result (AddsFacts (f.near_facts word.now) found.old found.new) }
{
    if is_near_category(alloc, word)? {
        push_remark(near_remark(alloc, word)?, found)
    } else {
        Ok(())
    }
}

fn near_remark(alloc: Global, word: &str) -> Result<Remark, AllocError>
    ensures { IfOk result (IsOnFact (f.nearly_category word.now)) }
{
    let hint = near_hint(alloc, "", &CategoryNames, word)?;
    let text = format!(in alloc; "`{word}` is no plural category")?;
    Ok(Remark::warning("unknown-category", text).with_hint(hint))
}

/// The category that a text names.
pub fn category_named(text: &str) -> Option<PluralCategory>
    ensures { result ≡ m.category_named text.now }
{
    match text {
        "zero" => Some(PluralCategory::ZERO),
        "one" => Some(PluralCategory::ONE),
        "two" => Some(PluralCategory::TWO),
        "few" => Some(PluralCategory::FEW),
        "many" => Some(PluralCategory::MANY),
        "other" => Some(PluralCategory::OTHER),
        _ => None,
    }
}

/// The names of plural categories.
#[derive(Clone, Copy)]
struct CategoryNames;

impl KnownNames for CategoryNames {
    ghost knows = { λ names. m.is_category_name };

    fn has_name(&self, name: &str) -> bool {
        category_named(name).is_some()
    }
}
