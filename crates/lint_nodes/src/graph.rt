//! The graph of patterns in a list: each leads to those that its references enter.
#![tactic(auto)]

ghost use Rattle.std.specs.Prelude.{◌≡◌, IfOk};
ghost use Rattle.fluent_ast.specs.Borrowed.{elements_of};
ghost use Rattle.lint_nodes.specs.Holding.{patterns_of};
ghost use Rattle.lint_nodes.specs.ReferenceGraph.{entered_indices, graph_by, next_indices};
ghost use Rattle.lint_nodes.specs.Graph.{graph_of};

use crate::entered::EnteredPattern;
use crate::indices::Indices;
use crate::nodes::{Node, pattern_nodes};
use fluent_ast::Pattern;
use std::alloc::{AllocError, Global};

/// For each pattern of a list, the indices of the patterns that its references enter.
///
/// # Errors
/// [`AllocError`] if memory runs out; nothing is kept.
pub fn reference_graph(
    alloc: Global,
    indices: &Indices<'_>,
    patterns: &[EnteredPattern<'_, '_>],
) -> Result<Vec<Vec<usize>>, AllocError>
    ensures { IfOk result (λ graph. graph_of graph.items
        ≡ graph_by indices.now (patterns_of patterns.now)) }
{
    let mut graph = Vec::new(alloc);
    for entered in patterns {
        graph.push(edges(alloc, indices, entered.pattern)?)?;
    }
    Ok(graph)
}

/// The indices of the patterns that the references of a pattern enter.
fn edges(
    alloc: Global,
    indices: &Indices<'_>,
    pattern: &Pattern<&str>,
) -> Result<Vec<usize>, AllocError>
    ensures { IfOk result (λ edges. edges.items
        ≡ next_indices indices.now (elements_of pattern.now)) }
{
    let nodes = pattern_nodes(alloc, pattern)?;
    entered_by(alloc, indices, &nodes)
}

/// The indices of the patterns that nodes enter.
fn entered_by(
    alloc: Global,
    indices: &Indices<'_>,
    nodes: &[Node<'_, '_>],
) -> Result<Vec<usize>, AllocError>
    ensures { IfOk result (λ entered. entered.items ≡ entered_indices indices.now nodes.now) }
{
    nodes
        .iter()
        .filter_map(|node| indices.of_node(*node))
        .collect(alloc)
}
