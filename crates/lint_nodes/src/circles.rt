//! Which nodes lead into a circle.
#![tactic(auto)]

ghost use Rattle.std.specs.Prelude.{◌≡◌, ◌<◌, false, length, map, IfOk, OnOk};
ghost use Rattle.lint_nodes.specs.Graph.{AreEndless, IsGraph, graph_of};
ghost use Rattle.lint_nodes.specs.Path.{IsSettled, KeepsKnown, is_endless, is_new, state_at};

use crate::states::{State, Step, mark_endless, next_of};
use std::alloc::{AllocError, Global};

/// For each node of a graph, whether it leads into a circle or is on one. Each edge is followed at
/// most once.
///
/// # Errors
/// [`AllocError`] if memory runs out; nothing is kept.
pub fn lead_into_circles(alloc: Global, graph: &[Vec<usize>]) -> Result<Vec<bool>, AllocError>
    requires { IsGraph (graph_of graph.now) }
    ensures { IfOk result (λ endless. AreEndless (graph_of graph.now) endless.items) }
{
    let mut states = vec![in alloc; State::New; graph.len()]?;
    for node in 0..graph.len() {
        if states[node].is_new() {
            explore(alloc, graph, &mut states, node)?;
        }
    }
    endless_marks(alloc, &states)
}

/// For each node, whether it is endless.
fn endless_marks(alloc: Global, states: &[State]) -> Result<Vec<bool>, AllocError>
    ensures { IfOk result (λ marks. marks.items ≡ map is_endless states.now) }
{
    states.iter().map(|state| state.is_endless()).collect(alloc)
}

/// Settles a new node, and all that it leads to, if no node is open.
fn explore(
    alloc: Global,
    graph: &[Vec<usize>],
    states: &mut [State],
    start: usize,
) -> Result<(), AllocError>
    requires graph { IsGraph (graph_of graph.now) }
    requires settled { IsSettled (graph_of graph.now) states.old }
    requires start { start < length graph.now }
    requires new { state_at states.old start ≡ State.New }
    ensures settled { OnOk result (IsSettled (graph_of graph.now) states.new) }
    ensures known { OnOk result (KeepsKnown states.old states.new) }
    ensures start { OnOk result (is_new (state_at states.new start) ≡ false) }
{
    let mut parents: Vec<Step> = Vec::new(alloc);
    let mut node = start;
    let mut followed = 0;
    states[start] = State::Open;
    loop {
        let Some(next) = next_of(graph, node, followed) else {
            states[node] = State::Ends;
            let Some(parent) = parents.pop() else {
                return Ok(());
            };
            node = parent.node;
            followed = parent.followed + 1;
            continue;
        };
        match states[next] {
            State::Ends => followed += 1,
            State::New => {
                parents.push(Step { node, followed })?;
                states[next] = State::Open;
                node = next;
                followed = 0;
            }
            State::Open | State::Endless => {
                states[node] = State::Endless;
                mark_endless(states, &parents);
                return Ok(());
            }
        }
    }
}
