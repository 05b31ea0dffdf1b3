//! Sources, read whole: their trees, comments included, and their errors.

ghost use Rattle.std.specs.Prelude.{◌≡◌, IfOk, OnOk, [], ◌++◌, ◌∷◌, map};
ghost use Rattle.fluent_check.specs.ReportView.{errors_view, errors_told};
ghost use Rattle.fluent_resource.specs.Sources.{texts};
ghost use Rattle.fluent_check.specs.WholeView.{trees_in, errors_in};
ghost use Rattle.fluent_grammar.specs.Tiling.{tree};
ghost use Rattle.fluent_ids.specs.ResourceEntries.{entries_in};

use fluent_ast::Resource;
use fluent_parser::{Error, ParserError, StackBudget, parse_within};
use std::alloc::{AllocError, Global};

/// The trees of sources, and for each source its errors.
#[derive(Drop)]
pub(crate) struct ReadSources<'s> {
    pub(crate) trees: Vec<Resource<&'s str>>,
    pub(crate) errors: Vec<Vec<ParserError>>,
}

impl<'s> ReadSources<'s> {
    /// Of no sources.
    fn new(alloc: Global) -> Self
        ensures trees { trees_in result ≡ [] }
        ensures errors { errors_in result ≡ [] }
    {
        ReadSources {
            trees: Vec::new(alloc),
            errors: Vec::new(alloc),
        }
    }

    /// Reads one more source, within this budget of the machine's stack.
    fn read(
        &mut self,
        alloc: Global,
        source: &'s str,
        budget: StackBudget,
    ) -> Result<(), AllocError>
        ensures trees { OnOk result (trees_in self.new
            ≡ trees_in self.old ++ tree source.now ∷ []) }
        ensures errors { OnOk result (errors_in self.new
            ≡ errors_in self.old ++ errors_told source.now ∷ []) }
    {
        match parse_within(alloc, source, budget) {
            Ok(tree) => self.push(tree, Vec::new(alloc)),
            Err(Error::Broken(tree, errors)) => self.push(tree, errors),
            Err(Error::Memory) => Err(AllocError),
        }
    }

    /// Puts what was read of one more source after the others.
    fn push(&mut self, tree: Resource<&'s str>, errors: Vec<ParserError>) -> Result<(), AllocError>
        ensures trees { OnOk result (trees_in self.new
            ≡ trees_in self.old ++ entries_in tree.entry ∷ []) }
        ensures errors { OnOk result (errors_in self.new
            ≡ errors_in self.old ++ errors_view errors ∷ []) }
    {
        self.trees.push(tree)?;
        self.errors.push(errors)?;
        Ok(())
    }
}

/// What is read of each source, in their order, within this budget of the machine's stack for each
/// message and term.
///
/// # Errors
/// [`AllocError`] if memory runs out, or the budget does; nothing is kept.
pub(crate) fn read_whole<'s>(
    alloc: Global,
    sources: &[&'s str],
    budget: StackBudget,
) -> Result<ReadSources<'s>, AllocError>
    ensures trees { IfOk result (λ whole. trees_in whole ≡ map tree (texts sources.now)) }
    ensures errors { IfOk result (λ whole. errors_in whole ≡ map errors_told (texts sources.now)) }
{
    let mut whole = ReadSources::new(alloc);
    for source in sources {
        whole.read(alloc, source, budget)?;
    }
    Ok(whole)
}
