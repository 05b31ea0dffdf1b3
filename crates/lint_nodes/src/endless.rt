//! The patterns of a catalog whose references never end.
#![tactic(auto)]

ghost use Rattle.std.specs.Prelude.{◌≡◌, IfOk, length};
ghost use Rattle.lint_nodes.specs.Holding.{patterns_of};
ghost use Rattle.lint_nodes.specs.Marks.{AreBelow, SayWhatIsEntered, is_entered};
ghost use Rattle.fluent_ast.specs.Borrowed.{inline_of};
ghost use Rattle.lint_nodes.specs.ReferenceGraph.{graph_by};
ghost use Rattle.lint_nodes.specs.Graph.{AreEndless, IsGraph};
ghost use Rattle.fluent_ids.specs.IdsView.{ids_view};

use crate::entered::{EnteredPattern, EnteredPatterns};
use crate::graph::reference_graph;
use crate::indices::Indices;
use crate::lead_into_circles;
use fluent_ast::{InlineExpression, Resource};
use lint_findings::CatalogIds;
use std::alloc::{AllocError, Global};

/// The patterns of a catalog whose references never end, by the names of the references that enter
/// them.
///
/// ```no_run
/// let endless = EndlessPatterns::new(alloc, &ids, &trees)?;
/// if endless.is_entered(reference) {
///     // the references of the pattern that it enters go round in a circle
/// }
/// ```
#[derive(Drop)]
pub struct EndlessPatterns<'c, 'r, 's> {
    /// The ids of the catalog, with what they stand for.
    pub ids: &'c CatalogIds<'r, 's>,
    /// The trees that the ids refer to.
    _trees: &'r [Resource<&'s str>],
    indices: Indices<'s>,
    /// At the index of each pattern, whether its references never end.
    marks: Vec<bool>,
    ghost below: { AreBelow (length marks.items) indices },
    ghost right: { SayWhatIsEntered (ids_view _ ids.now) indices marks.items },
}

impl<'c, 'r, 's> EndlessPatterns<'c, 'r, 's> {
    ghost use Rattle.lint_nodes.specs.Catalog.{AreDeclaredIn};
    ghost use Rattle.lint_nodes.specs.EndlessView.{ids_of};

    /// The endless patterns of the catalog that has these ids, whose messages and terms are
    /// declared in these trees. It takes time in proportion to the trees.
    ///
    /// # Errors
    /// [`AllocError`] if memory runs out; nothing is kept.
    pub fn new(
        alloc: Global,
        ids: &'c CatalogIds<'r, 's>,
        trees: &'r [Resource<&'s str>],
    ) -> Result<Self, AllocError>
        requires { AreDeclaredIn (ids_view _ ids.now) trees.now }
        ensures { IfOk result (λ endless. ids_of endless ≡ ids_view _ ids.now) }
    {
        let entered = EnteredPatterns::of(alloc, ids, trees)?;
        let marks = endless_marks(alloc, &entered.indices, &entered.patterns)?;
        let EnteredPatterns { indices, .. } = entered;
        Ok(EndlessPatterns {
            ids,
            _trees: trees,
            indices,
            marks,
        })
    }

    /// Whether a reference enters a pattern whose references never end.
    pub fn is_entered(&self, reference: &InlineExpression<&str>) -> bool
        ensures { result ≡ is_entered (ids_of self.now) (inline_of reference.now) }
    {
        match self.indices.of_reference(reference) {
            Some(index) => self.marks[index],
            None => false,
        }
    }
}

/// For each pattern of a list with these indices, whether it leads into a circle of references.
fn endless_marks(
    alloc: Global,
    indices: &Indices<'_>,
    patterns: &[EnteredPattern<'_, '_>],
) -> Result<Vec<bool>, AllocError>
    requires { IsGraph (graph_by indices.now (patterns_of patterns.now)) }
    ensures { IfOk result (λ marks.
        AreEndless (graph_by indices.now (patterns_of patterns.now)) marks.items) }
{
    let graph = reference_graph(alloc, indices, patterns)?;
    lead_into_circles(alloc, &graph)
}
