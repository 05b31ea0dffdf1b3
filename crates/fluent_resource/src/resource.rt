//! Reading a source, and going over what it holds.

ghost use Rattle.std.specs.Prelude.{◌≡◌, length, option_map, option_copied, map, slice_get};
ghost use Rattle.fluent_ast.specs.View.{entry_view, resource_view};
ghost use Rattle.fluent_grammar.specs.Tiling.{list, runtime_tree, runtime_errors};
ghost use Rattle.fluent_parsed.specs.ErrorView.{error_told};
ghost use Rattle.fluent_resource.specs.ResourceView.{entries_view};
ghost use Rattle.fluent_resource.specs.EntriesLeft.{entries_left};
ghost use Rattle.fluent_resource.specs.Reading.{ReadsSource, HoldsEntries, HoldsList, HasErrors, HasAnErrorForEachJunk};

use crate::entries::Entries;
use crate::error::ResourceError;
use fluent_ast::{Entry, Resource};
use fluent_grammar::laws::tiling;
use fluent_parser::{self as parser, StackBudget, parse_runtime_within};
use std::alloc::Global;

/// A source and its entries, as they are needed at run time: its messages and terms, without
/// comments, and its junk.
///
/// ```
/// let resource = FluentResource::try_new(alloc, SOURCE)?;
/// ..
/// bundle.add_resource(&resource)?;
/// ```
#[derive(Debug, Drop)]
pub struct FluentResource<'s> {
    source: &'s str,
    tree: Resource<&'s str>,
}

impl<'s> FluentResource<'s> {
    /// Reads a source, within the budget of a program: [`StackBudget::PROGRAM`].
    ///
    /// ```
    /// let resource = FluentResource::try_new(alloc, SOURCE)?;
    /// ```
    ///
    /// # Errors
    /// - [`ResourceError::Broken`] if some of the source is junk. The resource that it holds has
    ///   all messages and terms of the source, and the junk; there is an error for each junk, in
    ///   the same order.
    /// - [`ResourceError::Memory`] if memory runs out. It also means that placeables, calls and
    ///   selects are nested so deep that reading them would take more than the budget of the
    ///   machine's stack.
    pub fn try_new(alloc: Global, source: &'s str) -> Result<Self, ResourceError<'s>>
        ensures source { ReadsSource result source.now }
        ensures entries { HoldsEntries result (runtime_tree source.now) }
        ensures list { HoldsList result (list source.now) }
        ensures errors { HasErrors result (map error_told (runtime_errors source.now)) }
        ensures junk { HasAnErrorForEachJunk result }
    {
        FluentResource::try_new_within(alloc, source, StackBudget::PROGRAM)
    }

    /// As [`FluentResource::try_new`], within this budget of the machine's stack for each message
    /// and term.
    ///
    /// # Errors
    /// Those of [`FluentResource::try_new`].
    pub fn try_new_within(
        alloc: Global,
        source: &'s str,
        budget: StackBudget,
    ) -> Result<Self, ResourceError<'s>>
        ensures source { ReadsSource result source.now }
        ensures entries { HoldsEntries result (runtime_tree source.now) }
        ensures list { HoldsList result (list source.now) }
        ensures errors { HasErrors result (map error_told (runtime_errors source.now)) }
        ensures junk { HasAnErrorForEachJunk result }
    {
        tiling::runtime_has_the_same_list();
        tiling::junk_is_sliced();
        match parse_runtime_within(alloc, source, budget) {
            Ok(tree) => Ok(FluentResource { source, tree }),
            Err(error) => match error {
                parser::Error::Broken(tree, errors) => Err(ResourceError::Broken(
                    FluentResource { source, tree },
                    errors,
                )),
                parser::Error::Memory => Err(ResourceError::Memory),
            },
        }
    }

    /// The source.
    pub fn source(&self) -> &'s str
        ensures { result.now ≡ self.now.source.now }
    {
        self.source
    }

    /// The entries, in the order of their places.
    pub fn entries(&self) -> Entries<'_, 's>
        ensures { entries_left result ≡ entries_view self.now }
    {
        Entries::new(&self.tree.body)
    }

    /// The tree: the entries, in the order of their places.
    pub fn tree(&self) -> &Resource<&'s str>
        ensures { resource_view _ (λ s. s.now) result.now ≡ entries_view self.now }
    {
        &self.tree
    }

    /// The entry of this index, from 0 on.
    pub fn get_entry(&self, index: usize) -> Option<&Entry<&'s str>>
        ensures { option_map (entry_view _ (λ s. s.now)) (option_copied result)
            ≡ slice_get (entries_view self.now) index }
    {
        self.tree.body.get(index)
    }
}
