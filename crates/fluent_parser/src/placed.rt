//! Reading a source into its tree, with the places of its entries.
#![tactic(auto)]

ghost use Rattle.std.specs.Prelude.{◌≡◌, IfOk, map};
ghost use Rattle.fluent_grammar.specs.Tiling.{tree, errors};
ghost use Rattle.fluent_parsed.specs.ErrorView.{error_told};
ghost use Rattle.fluent_parsed.specs.Collected.{HasTree, HasErrors};
ghost use Rattle.fluent_parser.specs.Placed.{unplaced};
ghost use Rattle.fluent_parser.specs.Starts.{starts};

use crate::resource::parts_of;
use crate::starts::Starts;
use fluent_ast::Resource;
use fluent_parsed::Error;
use fluent_text::stack::StackBudget;
use fluent_text::{Slice, Slices};
use std::alloc::Global;

/// The tree of a source without junk, and where its entries begin.
///
/// ```no_run
/// let PlacedTree { tree, starts } = parse_placed(alloc, "a = 1\n", StackBudget::PROGRAM)?;
/// println!(rt; "{} entry, at {}", tree.body.len(), starts[0])?; // 1 entry, at 0
/// ```
#[derive(Debug, PartialEq, Eq, Drop)]
pub struct PlacedTree<S> {
    pub tree: Resource<S>,
    /// The offsets in the source, in bytes, at which its entries begin, in their order. The comment
    /// of a message or a term begins at one, and the message or the term at the next.
    pub starts: Vec<usize>,
}

/// Reads a source once, as [`parse_within`](crate::parse_within) does, and keeps the places of its
/// entries.
///
/// ```no_run
/// let placed = parse_placed(alloc, "a = 1\n\n# b\nb = 2\n", StackBudget::PROGRAM)?;
/// for start in &placed.starts {
///     println!(rt; "{start}")?; // 0, 7 and 11
/// }
/// ```
///
/// # Errors
/// Those of [`parse`](crate::parse).
pub fn parse_placed<'s, S: Slice<'s>>(
    alloc: Global,
    input: S,
    budget: StackBudget,
) -> Result<PlacedTree<S>, Error<S>>
    ensures tree { HasTree S S.text (unplaced S result) (tree (S.text input)) }
    ensures errors { HasErrors S (unplaced S result) (map error_told (errors (S.text input))) }
    ensures starts { IfOk result (λ placed. placed.starts.items ≡ starts (S.text input)) }
{
    let mut starts = Starts::kept(alloc);
    let Ok(parts) = parts_of(alloc, &Slices::new(), &input, budget, &mut starts) else {
        return Err(Error::Memory);
    };
    let tree = parts.finish()?;
    let Starts { all: starts, .. } = starts;
    Ok(PlacedTree { tree, starts })
}
