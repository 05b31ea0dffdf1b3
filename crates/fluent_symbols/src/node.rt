//! The nodes of a tree, each at its place in the source.

ghost use Rattle.std.specs.Prelude.{◌≡◌, ◌∷◌, [], IfOk, OnOk, drop, length};
ghost use Rattle.fluent_symbols.specs.NodeView.{Adds, kind_view};
ghost use Rattle.fluent_symbols.specs.Node.{named, node as plain_node};

use lint_nodes::words::after_name;
use std::alloc::AllocError;

/// The kind of a node.
#[derive(Clone, Copy)]
pub enum NodeKind {
    Message,
    Term,
    Comment,
    GroupComment,
    ResourceComment,
    Junk,
    Attribute,
    Pattern,
    TextElement,
    Placeable,
    Select,
    Variant,
    DefaultVariant,
    StringLiteral,
    NumberLiteral,
    VariableReference,
    MessageReference,
    TermReference,
    FunctionReference,
    CallArguments,
    NamedArgument,
    Identifier,
}

/// A node with its place.
#[derive(Clone, Copy)]
pub struct Node<'t> {
    pub kind: NodeKind,
    /// The source from the node's first byte on.
    pub from: &'t [u8],
    /// The source after the node's last byte.
    pub to: &'t [u8],
}

/// Adds a node between two places. Returns the second.
///
/// # Errors
/// [`AllocError`] if memory runs out; `found` is unchanged.
pub fn push_node<'t>(
    kind: NodeKind,
    from: &'t [u8],
    to: &'t [u8],
    found: &mut Vec<Node<'t>>,
) -> Result<&'t [u8], AllocError>
    ensures rest { IfOk result (λ rest. rest.now ≡ to.now) }
    ensures added { OnOk result (Adds found.old found.new (plain_node (kind_view kind) from.now to.now ∷ [])) }
{
    found.push(Node { kind, from, to })?;
    Ok(to)
}

/// Adds the identifier at the front. Returns the text after it.
///
/// # Errors
/// [`AllocError`] if memory runs out; `found` is unchanged.
pub fn push_name<'t>(
    name: &str,
    text: &'t [u8],
    found: &mut Vec<Node<'t>>,
) -> Result<&'t [u8], AllocError>
    ensures rest { IfOk result (λ rest. rest.now ≡ drop (length name.now) text.now) }
    ensures added { OnOk result (Adds found.old found.new (named name.now text.now)) }
{
    push_node(NodeKind::Identifier, text, after_name(text, name), found)
}
