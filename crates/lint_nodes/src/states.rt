//! The states of the nodes of a graph.
#![tactic(auto)]

ghost use Rattle.std.specs.Prelude.{◌≡◌, ◌+◌, ◌^◌, ◌<◌, length, IfSome, slice_get};
ghost use Rattle.lint_nodes.specs.Graph.{edges, graph_of};
ghost use Rattle.lint_nodes.specs.Path.{AreNodes, is_endless, is_new, marked};

/// The state of a node: whether its ways end, as far as that is known.
#[derive(Clone, Copy)]
pub enum State {
    /// Nothing is known of it yet.
    New,
    /// It is on the path that is looked at.
    Open,
    /// All ways from it end.
    Ends,
    /// A way from it goes on and on.
    Endless,
}

impl State {
    /// Whether nothing is known of the node.
    pub fn is_new(self) -> bool
        ensures { result ≡ is_new self }
    {
        matches!(self, State::New)
    }

    /// Whether a way from the node goes on and on.
    pub fn is_endless(self) -> bool
        ensures { result ≡ is_endless self }
    {
        matches!(self, State::Endless)
    }
}

/// A node on the path to the current one. So many of its edges were followed, and all ways along
/// them end. The next edge is on the path.
#[derive(Clone, Copy)]
pub struct Step {
    pub node: usize,
    pub followed: usize,
}

/// The node that this edge of a node leads to, if it has so many.
pub fn next_of(graph: &[Vec<usize>], node: usize, edge: usize) -> Option<usize>
    requires { node < length graph.now }
    ensures next { result ≡ slice_get (edges (graph_of graph.now) node) edge }
    ensures small { IfSome result (λ _. edge + 1 < 2 ^ 64) }
{
    graph[node].get(edge).copied()
}

/// Marks the nodes of a path: ways from them go on and on.
pub fn mark_endless(states: &mut [State], path: &[Step])
    requires { AreNodes (length states.old) path.now }
    ensures { states.new ≡ marked states.old path.now }
{
    for step in path {
        states[step.node] = State::Endless;
    }
}
