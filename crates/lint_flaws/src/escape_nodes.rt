//! The escapes of a node.
#![tactic(auto)]

ghost use Rattle.std.specs.Prelude.{◌≡◌, IfOk, OnOk, map};
ghost use Rattle.fluent_ast.specs.Borrowed.{inline_of, named_of};
ghost use Rattle.lint_flaws.specs.Escape.{AddsTexts};
ghost use Rattle.lint_findings.specs.EntryFindings as e;
ghost use Rattle.lint_findings.specs.Escapes.{literal_escapes, named_escapes};
ghost use Rattle.lint_findings.specs.Nodes as n;
ghost use Rattle.lint_nodes.specs.NodeView.{node_view};

use crate::literal::push_invalid_escapes;
use fluent_ast::{InlineExpression, NamedArgument};
use lint_nodes::Node;
use std::alloc::{AllocError, Global};

/// The escapes of a node that stand for no character: of a string literal, or of the named
/// arguments of a call.
///
/// # Errors
/// [`AllocError`] if memory runs out; nothing is kept.
pub fn node_escapes<'s>(alloc: Global, node: Node<'_, 's>) -> Result<Vec<&'s str>, AllocError>
    ensures { IfOk result (λ found. map (λ s. s.now) found.items
        ≡ e.node_escapes (node_view node.entry)) }
{
    let mut found = Vec::new(alloc);
    if let Node::Expression(expression) = node {
        push_expression(expression, &mut found)?;
    }
    Ok(found)
}

fn push_expression<'s>(
    expression: &InlineExpression<&'s str>,
    found: &mut Vec<&'s str>,
) -> Result<(), AllocError>
    ensures { OnOk result (AddsTexts found.old found.new
        (e.node_escapes (n.expression (inline_of expression.now)))) }
{
    match expression {
        InlineExpression::StringLiteral { value } => push_invalid_escapes(*value, found),
        InlineExpression::FunctionReference { arguments, .. } => push_named(
            &arguments.named,
            found,
        ),
        InlineExpression::TermReference {
            arguments: Some(arguments),
            ..
        } => push_named(&arguments.named, found),
        _ => Ok(()),
    }
}

fn push_named<'s>(
    arguments: &[NamedArgument<&'s str>],
    found: &mut Vec<&'s str>,
) -> Result<(), AllocError>
    ensures { OnOk result (AddsTexts found.old found.new (named_escapes (named_of arguments.now))) }
{
    for argument in arguments {
        push_literal(&argument.value, found)?;
    }
    Ok(())
}

fn push_literal<'s>(
    value: &InlineExpression<&'s str>,
    found: &mut Vec<&'s str>,
) -> Result<(), AllocError>
    ensures { OnOk result (AddsTexts found.old found.new (literal_escapes (inline_of value.now))) }
{
    match value {
        InlineExpression::StringLiteral { value } => push_invalid_escapes(*value, found),
        _ => Ok(()),
    }
}
