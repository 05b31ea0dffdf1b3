//! The nodes of a pattern.
#![tactic(auto)]

ghost use Rattle.std.specs.Prelude.{◌≡◌, [], map, IfOk, OnOk};
ghost use Rattle.fluent_ast.specs.Borrowed.{arguments_of, elements_of, expression_of, inline_of, named_of, positional_of, variants_of};
ghost use Rattle.lint_findings.specs.Nodes as n;
ghost use Rattle.lint_nodes.specs.NodeView.{Adds, node_view};

use crate::keys::Keys;
use fluent_ast::{
    CallArguments, Expression, InlineExpression, NamedArgument, Pattern, PatternElement, Variant,
    VariantKey,
};
use std::alloc::{AllocError, Global};

/// A node of a pattern.
#[derive(Clone, Copy)]
pub enum Node<'a, 's> {
    /// A reference or a literal.
    Expression(&'a InlineExpression<&'s str>),
    /// A select. Its place is that of its selector.
    Select {
        selector: &'a InlineExpression<&'s str>,
        variants: &'a [Variant<&'s str>],
    },
    /// A key that an earlier variant of its select has.
    RepeatedKey(&'a VariantKey<&'s str>),
}

/// The nodes of a pattern, in the order in which they are written. The literals that a call has as
/// named arguments are part of the node of the call.
///
/// # Errors
/// [`AllocError`] if memory runs out; nothing is kept.
pub fn pattern_nodes<'a, 's>(
    alloc: Global,
    pattern: &'a Pattern<&'s str>,
) -> Result<Vec<Node<'a, 's>>, AllocError>
    ensures { IfOk result (λ nodes. map node_view nodes.items
        ≡ n.elements_nodes (elements_of pattern.now)) }
{
    let mut nodes = Vec::new(alloc);
    push_pattern(pattern, &mut nodes)?;
    Ok(nodes)
}

#[cycle(nodes)]
fn push_pattern<'a, 's>(
    pattern: &'a Pattern<&'s str>,
    nodes: &mut Vec<Node<'a, 's>>,
) -> Result<(), AllocError>
    ensures { OnOk result (Adds nodes.old nodes.new (n.elements_nodes (elements_of pattern.now))) }
{
    for element in &pattern.elements {
        if let PatternElement::Placeable { expression } = element {
            push_expression(expression, nodes)?;
        }
    }
    Ok(())
}

#[cycle(nodes)]
fn push_expression<'a, 's>(
    expression: &'a Expression<&'s str>,
    nodes: &mut Vec<Node<'a, 's>>,
) -> Result<(), AllocError>
    ensures { OnOk result
        (Adds nodes.old nodes.new (n.expression_nodes (expression_of expression.now))) }
{
    match expression {
        Expression::Select { selector, variants } => {
            nodes.push(Node::Select { selector, variants })?;
            push_inline(selector, nodes)?;
            push_variants(variants, nodes)
        }
        Expression::Inline(inline) => push_inline(inline, nodes),
    }
}

#[cycle(nodes)]
fn push_variants<'a, 's>(
    variants: &'a [Variant<&'s str>],
    nodes: &mut Vec<Node<'a, 's>>,
) -> Result<(), AllocError>
    ensures { OnOk result
        (Adds nodes.old nodes.new (n.variants_nodes [] (variants_of variants.now))) }
{
    let mut keys = Keys::new(*nodes.allocator());
    for variant in variants {
        if !keys.insert(&variant.key)? {
            nodes.push(Node::RepeatedKey(&variant.key))?;
        }
        push_pattern(&variant.value, nodes)?;
    }
    Ok(())
}

#[cycle(nodes)]
fn push_inline<'a, 's>(
    inline: &'a InlineExpression<&'s str>,
    nodes: &mut Vec<Node<'a, 's>>,
) -> Result<(), AllocError>
    ensures { OnOk result (Adds nodes.old nodes.new (n.inline_nodes (inline_of inline.now))) }
{
    if let InlineExpression::Placeable { expression } = inline {
        return push_expression(expression, nodes);
    }
    nodes.push(Node::Expression(inline))?;
    match inline {
        InlineExpression::FunctionReference { arguments, .. } => push_arguments(arguments, nodes),
        InlineExpression::TermReference {
            arguments: Some(arguments),
            ..
        } => push_arguments(arguments, nodes),
        _ => Ok(()),
    }
}

#[cycle(nodes)]
fn push_arguments<'a, 's>(
    arguments: &'a CallArguments<&'s str>,
    nodes: &mut Vec<Node<'a, 's>>,
) -> Result<(), AllocError>
    ensures { OnOk result
        (Adds nodes.old nodes.new (n.arguments_nodes (arguments_of arguments.now))) }
{
    push_positional(&arguments.positional, nodes)?;
    push_named(&arguments.named, nodes)
}

#[cycle(nodes)]
fn push_positional<'a, 's>(
    arguments: &'a [InlineExpression<&'s str>],
    nodes: &mut Vec<Node<'a, 's>>,
) -> Result<(), AllocError>
    ensures { OnOk result
        (Adds nodes.old nodes.new (n.inlines_nodes (positional_of arguments.now))) }
{
    for argument in arguments {
        push_inline(argument, nodes)?;
    }
    Ok(())
}

#[cycle(nodes)]
fn push_named<'a, 's>(
    arguments: &'a [NamedArgument<&'s str>],
    nodes: &mut Vec<Node<'a, 's>>,
) -> Result<(), AllocError>
    ensures { OnOk result (Adds nodes.old nodes.new (n.nameds_nodes (named_of arguments.now))) }
{
    for argument in arguments {
        if !is_literal(&argument.value) {
            push_inline(&argument.value, nodes)?;
        }
    }
    Ok(())
}

fn is_literal(inline: &InlineExpression<&str>) -> bool
    ensures { result ≡ n.is_literal (inline_of inline.now) }
{
    matches!(
        inline,
        InlineExpression::StringLiteral { .. } | InlineExpression::NumberLiteral { .. }
    )
}
