//! Which variables a pattern shows.
#![tactic(auto)]

ghost use Rattle.std.specs.Prelude.{◌≡◌};
ghost use Rattle.fluent_ast.specs.Borrowed.{arguments_of, elements_of, expression_of, inline_of, positional_of, variants_of};
ghost use Rattle.lint_findings.specs.EntryFindings as e;
ghost use Rattle.lint_findings.specs.Shown as s;
ghost use Rattle.lint_nodes.specs.NodeView.{node_view};

use crate::selectors::counted;
use fluent_ast::{CallArguments, Expression, InlineExpression, Pattern, PatternElement, Variant};
use lint_nodes::Node;

/// Whether a variant of a select shows the number by which it chooses, if that is a variable. Of
/// other nodes nothing has to be shown.
pub fn shows_number(node: Node<'_, '_>) -> bool
    ensures { result ≡ e.shows_number (node_view node.entry) }
{
    match node {
        Node::Select { selector, variants } => match counted(selector) {
            Some(name) => variants_show(variants, name),
            None => true,
        },
        Node::Expression(_) => true,
        Node::RepeatedKey(_) => true,
    }
}

/// Whether some variant of a pattern shows a variable.
#[cycle(shown)]
pub fn pattern_shows(pattern: &Pattern<&str>, name: &str) -> bool
    ensures { result ≡ s.elements_show name.now (elements_of pattern.now) }
{
    for element in &pattern.elements {
        if let PatternElement::Placeable { expression } = element {
            if expression_shows(expression, name) {
                return true;
            }
        }
    }
    false
}

#[cycle(shown)]
fn expression_shows(expression: &Expression<&str>, name: &str) -> bool
    ensures { result ≡ s.expression_shows name.now (expression_of expression.now) }
{
    match expression {
        Expression::Select { variants, .. } => variants_show(variants, name),
        Expression::Inline(inline) => inline_shows(inline, name),
    }
}

#[cycle(shown)]
fn variants_show(variants: &[Variant<&str>], name: &str) -> bool
    ensures { result ≡ s.variants_show name.now (variants_of variants.now) }
{
    for variant in variants {
        if pattern_shows(&variant.value, name) {
            return true;
        }
    }
    false
}

#[cycle(shown)]
fn inline_shows(inline: &InlineExpression<&str>, name: &str) -> bool
    ensures { result ≡ s.inline_shows name.now (inline_of inline.now) }
{
    match inline {
        InlineExpression::FunctionReference { arguments, .. } => arguments_show(arguments, name),
        InlineExpression::VariableReference { id } => id.name == name,
        InlineExpression::Placeable { expression } => expression_shows(expression, name),
        _ => false,
    }
}

/// Whether the arguments of a call show a variable.
#[cycle(shown)]
pub fn arguments_show(arguments: &CallArguments<&str>, name: &str) -> bool
    ensures { result ≡ s.arguments_show name.now (arguments_of arguments.now) }
{
    inlines_show(&arguments.positional, name)
}

#[cycle(shown)]
fn inlines_show(arguments: &[InlineExpression<&str>], name: &str) -> bool
    ensures { result ≡ s.inlines_show name.now (positional_of arguments.now) }
{
    for argument in arguments {
        if inline_shows(argument, name) {
            return true;
        }
    }
    false
}
