//! Which variables a pattern shows, whichever variants are chosen.
#![tactic(auto)]

ghost use Rattle.std.specs.Prelude.{◌≡◌};
ghost use Rattle.fluent_ast.specs.Borrowed.{elements_of, expression_of, inline_of, variants_of};
ghost use Rattle.lint_findings.specs.Shown as s;

use fluent_ast::{Expression, InlineExpression, Pattern, PatternElement, Variant};
use lint_flaws::arguments_show;

/// Whether a pattern shows a variable, whichever variants are chosen in it.
#[cycle(always)]
pub fn pattern_always_shows(pattern: &Pattern<&str>, name: &str) -> bool
    ensures { result ≡ s.elements_always_show name.now (elements_of pattern.now) }
{
    for element in &pattern.elements {
        if let PatternElement::Placeable { expression } = element {
            if expression_always_shows(expression, name) {
                return true;
            }
        }
    }
    false
}

#[cycle(always)]
fn expression_always_shows(expression: &Expression<&str>, name: &str) -> bool
    ensures { result ≡ s.expression_always_shows name.now (expression_of expression.now) }
{
    match expression {
        Expression::Select { variants, .. } => variants_always_show(variants, name),
        Expression::Inline(inline) => inline_always_shows(inline, name),
    }
}

#[cycle(always)]
fn variants_always_show(variants: &[Variant<&str>], name: &str) -> bool
    ensures { result ≡ s.variants_always_show name.now (variants_of variants.now) }
{
    for variant in variants {
        if !pattern_always_shows(&variant.value, name) {
            return false;
        }
    }
    true
}

#[cycle(always)]
fn inline_always_shows(inline: &InlineExpression<&str>, name: &str) -> bool
    ensures { result ≡ s.inline_always_shows name.now (inline_of inline.now) }
{
    match inline {
        InlineExpression::FunctionReference { arguments, .. } => arguments_show(arguments, name),
        InlineExpression::VariableReference { id } => id.name == name,
        InlineExpression::Placeable { expression } => expression_always_shows(expression, name),
        _ => false,
    }
}
