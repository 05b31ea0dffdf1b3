//! Which variant of a select is chosen.

ghost use Rattle.std.specs.Prelude.{◌≡◌};
ghost use Rattle.fluent_ast.specs.Borrowed.{key_of, variants_of};
ghost use Rattle.fluent_meaning.specs.Choice.{first_default, key_value};
ghost use Rattle.fluent_progress.specs.Results.{choice_of, found_elements, match_of};
ghost use Rattle.fluent_value.specs.View.{value_view};

use crate::context::Context;
use fluent_ast::{Pattern, Variant, VariantKey};
use fluent_value::{FluentType, FluentValue, ValueScope};
use std::borrow::CowStr;

/// What a variant's key stands for.
fn key_value<'s, C: FluentType>(key: &VariantKey<&'s str>) -> FluentValue<'s, C>
    ensures { value_view C.meaning result ≡ key_value (key_of key.now) }
{
    match key {
        VariantKey::Identifier { name } => FluentValue::String(CowStr::Borrowed(*name)),
        VariantKey::NumberLiteral { value } => FluentValue::try_number(*value),
    }
}

/// The pattern of the first variant whose key matches a value.
fn first_match<'r, 's, C: FluentType + Drop, V: ValueScope<C>>(
    scope: &V,
    value: &FluentValue<'_, C>,
    variants: &'r [Variant<&'s str>],
) -> Option<&'r Pattern<&'s str>>
    ensures { found_elements result
        ≡ match_of C.meaning (V.plurals scope.now) value.now variants.now }
{
    for variant in variants {
        let key: FluentValue<'_, C> = key_value(&variant.key);
        if key.matches(value, scope) {
            return Some(&variant.value);
        }
    }
    None
}

/// The pattern of the first default variant.
fn first_default<'r, 's>(variants: &'r [Variant<&'s str>]) -> Option<&'r Pattern<&'s str>>
    ensures { found_elements result ≡ first_default (variants_of variants.now) }
{
    for variant in variants {
        if variant.default {
            return Some(&variant.value);
        }
    }
    None
}

/// The pattern of the variant that a value chooses: the first whose key matches a text or a number,
/// or else the first default.
pub fn chosen<'r, 's, C: FluentType + Drop, F, E: Context<C, F>>(
    context: &E,
    value: &FluentValue<'_, C>,
    variants: &'r [Variant<&'s str>],
) -> Option<&'r Pattern<&'s str>>
    ensures { found_elements result
        ≡ choice_of C.meaning (E.environment context.now) value.now variants.now }
{
    let matched = match value {
        FluentValue::String(_) | FluentValue::Number(_) => first_match(context, value, variants),
        FluentValue::Custom(_) | FluentValue::None | FluentValue::Error => None,
    };
    match matched {
        Some(pattern) => Some(pattern),
        None => first_default(variants),
    }
}
