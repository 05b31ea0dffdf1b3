//! References that never end.
#![tactic(auto)]

ghost use Rattle.std.specs.Prelude.{◌≡◌, option_map};
ghost use Rattle.lint_nodes.specs.EndlessView.{ids_of};
ghost use Rattle.lint_entries.specs.FirstEndless as first;
ghost use Rattle.lint_entries.specs.FoundAt.{nodes_of};
ghost use Rattle.lint_entries.specs.Labels.{label_text};
ghost use Rattle.lint_nodes.specs.NodeView.{node_view};

use crate::label::Label;
use fluent_ast::InlineExpression;
use lint_nodes::{EndlessPatterns, Node, Occurrence, name_of};

/// The first reference that enters a pattern whose references never end.
pub fn first_entered<'s>(
    endless: &EndlessPatterns<'_, '_, '_>,
    occurrences: &[Occurrence<'_, 's, '_>],
) -> Option<Label<'s>>
    ensures { option_map label_text result
        ≡ first.first_entered (ids_of endless.now) (nodes_of occurrences.now) }
{
    for occurrence in occurrences {
        if let Some(reference) = entered(endless, occurrence.node) {
            return Some(reference);
        }
    }
    None
}

/// A node as it is written, if it is such a reference.
fn entered<'s>(endless: &EndlessPatterns<'_, '_, '_>, node: Node<'_, 's>) -> Option<Label<'s>>
    ensures { option_map label_text result
        ≡ first.entered (ids_of endless.now) (node_view node.entry) }
{
    let Node::Expression(reference) = node else {
        return None;
    };
    if !endless.is_entered(reference) {
        return None;
    }
    match reference {
        InlineExpression::MessageReference { id, attribute } => Some(Label {
            sign: "",
            id: id.name,
            attribute: name_of(attribute),
        }),
        InlineExpression::TermReference { id, attribute, .. } => Some(Label {
            sign: "-",
            id: id.name,
            attribute: name_of(attribute),
        }),
        _ => None,
    }
}
