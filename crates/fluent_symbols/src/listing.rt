//! The nodes of a source as lines.

ghost use Rattle.std.specs.Prelude.{◌≡◌, ◌∷◌, ◌++◌, IfOk, OnOk, map, string_bytes};
ghost use Rattle.fluent_grammar.specs.Words.{space};
ghost use Rattle.fluent_symbols.specs.NodeLines as plain;
ghost use Rattle.fluent_symbols.specs.NodeView.{kind_view, node_view};

use crate::node::{Node, NodeKind};
use itoa::Buffer;
use std::alloc::{AllocError, Global};

/// The lines of nodes in a source of this length.
///
/// # Errors
/// [`AllocError`] if memory runs out; nothing is kept.
pub fn lines_of(alloc: Global, len: usize, found: &[Node<'_>]) -> Result<String, AllocError>
    ensures { IfOk result (λ lines. string_bytes lines ≡ plain.lines_of len (map node_view found.now)) }
{
    let mut lines = String::new(alloc);
    for node in found {
        push_line(&mut lines, len, node)?;
    }
    Ok(lines)
}

/// Appends the line of a node: its kind, where it begins and where it ends.
fn push_line(lines: &mut String, len: usize, node: &Node<'_>) -> Result<(), AllocError>
    ensures { OnOk result (string_bytes lines.new
        ≡ string_bytes lines.old ++ plain.node_line len (node_view node.now)) }
{
    lines.push_str(kind_name(node.kind))?;
    push_offset(lines, len, node.from)?;
    push_offset(lines, len, node.to)?;
    lines.push_str("\n")
}

/// Appends a space and the offset at which an end of a source of this length begins.
fn push_offset(lines: &mut String, len: usize, end: &[u8]) -> Result<(), AllocError>
    ensures { OnOk result (string_bytes lines.new
        ≡ string_bytes lines.old ++ space ∷ plain.offset len end.now) }
{
    lines.push_str(" ")?;
    lines.push_str(Buffer::new().format(len.saturating_sub(end.len())))
}

fn kind_name(kind: NodeKind) -> &'static str
    ensures { result.now ≡ plain.kind_text (kind_view kind) }
{
    match kind {
        NodeKind::Message => "Message",
        NodeKind::Term => "Term",
        NodeKind::Comment => "Comment",
        NodeKind::GroupComment => "GroupComment",
        NodeKind::ResourceComment => "ResourceComment",
        NodeKind::Junk => "Junk",
        NodeKind::Attribute => "Attribute",
        NodeKind::Pattern => "Pattern",
        NodeKind::TextElement => "TextElement",
        NodeKind::Placeable => "Placeable",
        NodeKind::Select => "Select",
        NodeKind::Variant => "Variant",
        NodeKind::DefaultVariant => "DefaultVariant",
        NodeKind::StringLiteral => "StringLiteral",
        NodeKind::NumberLiteral => "NumberLiteral",
        NodeKind::VariableReference => "VariableReference",
        NodeKind::MessageReference => "MessageReference",
        NodeKind::TermReference => "TermReference",
        NodeKind::FunctionReference => "FunctionReference",
        NodeKind::CallArguments => "CallArguments",
        NodeKind::NamedArgument => "NamedArgument",
        NodeKind::Identifier => "Identifier",
    }
}
