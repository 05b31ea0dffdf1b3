//! The categories of a language.
#![tactic(auto)]

ghost use Rattle.std.specs.Prelude.{◌≡◌, ◌&&◌, IfOk};
ghost use Rattle.std.specs.List.{list_any, range_with_len};
ghost use Rattle.fluent_number.specs.Reading.{read_number};
ghost use Rattle.fluent_ast.specs.Borrowed.{inline_of, named_of};
ghost use Rattle.lint_findings.specs.Losses as l;
ghost use Rattle.lint_findings.specs.MissingCategories as m;
ghost use Rattle.lint_findings.specs.MissingCategories.{same_category, whole_category};
ghost use Rattle.fluent_value.specs.Matching as v;

use crate::builtins::returns_number;
use fluent_ast::{InlineExpression, NamedArgument};
use fluent_number::{FluentNumber, PluralCategory, PluralOperands, PluralRuleType};
use fluent_plurals::LanguagePlurals;
use fluent_tokens::unicode::unescape_unicode_to_string;
use fluent_value::MemoizerKind;
use std::alloc::{AllocError, Global};

/// Numbers below this one are common: larger ones hardly ever get a variant of their own.
const COMMON: u16 = 1000;

/// The key that names a category.
pub fn category_text(category: PluralCategory) -> &'static str
    ensures { result.now ≡ v.category_text category }
{
    match category {
        PluralCategory::ZERO => "zero",
        PluralCategory::ONE => "one",
        PluralCategory::TWO => "two",
        PluralCategory::FEW => "few",
        PluralCategory::MANY => "many",
        PluralCategory::OTHER => "other",
    }
}

/// Whether some whole number below 1,000 has the category. Each of them is tried, up to the first
/// that has it.
#[tactic(auto, unfolding(lint_findings::specs::MissingCategories::is_common))]
pub fn is_common(plurals: &LanguagePlurals, rule: PluralRuleType, category: PluralCategory) -> bool
    ensures { result ≡ m.is_common plurals.now rule category }
{
    has_category_below(plurals, rule, category, COMMON)
}

/// Whether some whole number below a limit has the category.
fn has_category_below(
    plurals: &LanguagePlurals,
    rule: PluralRuleType,
    category: PluralCategory,
    limit: u16,
) -> bool
    ensures { result ≡ list_any
        (λ n. same_category (whole_category plurals.now rule n) category)
        (range_with_len 0 limit) }
{
    (0..limit).any(|n| has_category(plurals, rule, category, n))
}

/// Whether a whole number has the category.
fn has_category(
    plurals: &LanguagePlurals,
    rule: PluralRuleType,
    category: PluralCategory,
    n: u16,
) -> bool
    ensures { result ≡ same_category (whole_category plurals.now rule n) category }
{
    let number = FluentNumber::from(n);
    let found = plurals.category(rule, &PluralOperands::from(&number));
    category_text(found) == category_text(category)
}

/// Whether some whole number below 10 has another category than 1.
#[tactic(auto, unfolding(lint_findings::specs::Losses::has_forms))]
pub fn has_forms(plurals: &LanguagePlurals) -> bool
    ensures { result ≡ l.has_forms plurals.now }
{
    let one = FluentNumber::from(1u16);
    let category = plurals.category(PluralRuleType::CARDINAL, &PluralOperands::from(&one));
    (0..10u16).any(|n| !has_category(plurals, PluralRuleType::CARDINAL, category, n))
}

/// Whether a language has a category: some whole number below 1,000 has it, or a million, or one
/// and a half.
pub fn is_taken(plurals: &LanguagePlurals, rule: PluralRuleType, category: PluralCategory) -> bool
    ensures { result ≡ m.is_taken plurals.now rule category }
{
    is_common(plurals, rule, category)
        || (is_category_of(plurals, rule, category, "1000000")
            || is_category_of(plurals, rule, category, "1.5"))
}

/// Whether the number that a text is has the category.
fn is_category_of(
    plurals: &LanguagePlurals,
    rule: PluralRuleType,
    category: PluralCategory,
    text: &str,
) -> bool
    ensures { result ≡ m.is_category_of plurals.now rule category (read_number text.now) }
{
    match text.parse::<FluentNumber>() {
        Ok(number) => {
            let found = plurals.category(rule, &PluralOperands::from(&number));
            category_text(found) == category_text(category)
        }
        Err(_) => false,
    }
}

/// The rules that a select with this selector chooses by: those for ordinals if it is a call of a
/// function of the library that returns a number, with `type: "ordinal"`, and otherwise those for
/// counts.
///
/// # Errors
/// [`AllocError`] if memory runs out; nothing is kept.
pub fn selector_rule(
    alloc: Global,
    selector: &InlineExpression<&str>,
) -> Result<PluralRuleType, AllocError>
    ensures { IfOk result (λ rule. rule ≡ m.selector_rule (inline_of selector.now)) }
{
    if let InlineExpression::FunctionReference { id, arguments } = selector {
        if returns_number(id.name) && has_ordinal_type(alloc, &arguments.named)? {
            return Ok(PluralRuleType::ORDINAL);
        }
    }
    Ok(PluralRuleType::CARDINAL)
}

/// Whether one of these arguments is `type: "ordinal"`.
fn has_ordinal_type(alloc: Global, named: &[NamedArgument<&str>]) -> Result<bool, AllocError>
    ensures { IfOk result (λ found. found ≡ m.has_ordinal_type (named_of named.now)) }
{
    for argument in named {
        if argument.name.name == "type" && is_ordinal_text(alloc, &argument.value)? {
            return Ok(true);
        }
    }
    Ok(false)
}

/// Whether an expression is a string literal that stands for `ordinal`.
fn is_ordinal_text(alloc: Global, value: &InlineExpression<&str>) -> Result<bool, AllocError>
    ensures { IfOk result (λ is_ordinal. is_ordinal ≡ m.is_ordinal_text (inline_of value.now)) }
{
    let InlineExpression::StringLiteral { value } = value else {
        return Ok(false);
    };
    let text = unescape_unicode_to_string(alloc, value)?;
    Ok(text.as_str() == "ordinal")
}
