//! Occurrences of nodes.
#![tactic(auto)]

ghost use Rattle.std.specs.Prelude.{◌≡◌, map, IfOk};
ghost use Rattle.fluent_ast.specs.Borrowed.{elements_of};
ghost use Rattle.lint_findings.specs.Occurrences.{occurrences, pattern_read};
ghost use Rattle.fluent_grammar.specs.Refusal.{got};
ghost use Rattle.fluent_grammar.specs.Tree.{no_elements};
ghost use Rattle.lint_nodes.specs.OccurrenceView.{IsPatternAt, occurrence_view};

use crate::Node;
use crate::texts::first_placeable;
use crate::walk::push_pattern;
use fluent_ast::Pattern;
use std::alloc::{AllocError, Global};

/// A node, with the source from its first byte on. A string begins at its quote, a variable at its
/// dollar sign, a term at its minus. A select stands at its selector.
#[derive(Clone, Copy)]
pub struct Occurrence<'a, 's, 't> {
    pub node: Node<'a, 's>,
    pub at: &'t [u8],
}

/// The occurrences in a pattern, and the source after the pattern.
#[derive(Drop)]
pub struct Found<'a, 's, 't> {
    pub occurrences: Vec<Occurrence<'a, 's, 't>>,
    pub rest: &'t [u8],
}

/// The nodes of a pattern with their places, in the order in which they are written. The text is
/// the source from the pattern on.
///
/// # Errors
/// [`AllocError`] if memory runs out; nothing is kept.
pub fn pattern_occurrences<'a, 's, 't>(
    alloc: Global,
    pattern: &'a Pattern<&'s str>,
    text: &'t [u8],
) -> Result<Found<'a, 's, 't>, AllocError>
    requires { IsPatternAt text.now (elements_of pattern.now) }
    ensures occurrences { IfOk result (λ found. map occurrence_view found.occurrences.items
        ≡ occurrences text.now) }
    ensures rest { IfOk result (λ found. pattern_read text.now
        ≡ got (elements_of pattern.now) found.rest.now) }
{
    let mut occurrences = Vec::new(alloc);
    let rest = push_pattern(pattern, text, &mut occurrences)?;
    Ok(Found { occurrences, rest })
}

/// The rest after a pattern without elements, which is only blank and isn't in a tree.
pub fn empty_pattern_rest(text: &[u8]) -> &[u8]
    requires { IsPatternAt text.now no_elements }
    ensures { pattern_read text.now ≡ got no_elements result.now }
{
    first_placeable(text)
}
