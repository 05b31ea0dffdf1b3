//! Adding resources and functions.

ghost use Rattle.std.specs.Prelude.{◌≡◌, OnOk, OnErr, true};
ghost use Rattle.fluent_bundle.specs.Adding.{AddsFirst, AddsFunction, TellsNotices, with_entries};
ghost use Rattle.fluent_bundle.specs.BundleView.{bundle_of};
ghost use Rattle.fluent_meaning.specs.Ids as ids;
ghost use Rattle.fluent_meaning.specs.Ids.{number_pair};
ghost use Rattle.fluent_resource.specs.ResourceView.{entries_view};

use super::FluentBundle;
use fluent_ids::{AddFunctionError, AddResourceError};
use fluent_resource::FluentResource;
use fluent_value::{FluentFunction, FluentType, MemoizerKind, ValueFormatter};
use std::alloc::AllocError;

impl<'r, 's, M, C, F, G, T> FluentBundle<'r, 's, M, C, F, G, T>
where
    M: MemoizerKind,
    C: FluentType,
    F: FluentFunction<C> + Drop,
    G: ValueFormatter<C, M>,
{
    /// Adds the messages and terms of a resource. If two entries have one id, the first stays,
    /// whatever it is and wherever it comes from.
    ///
    /// ```
    /// bundle.add_resource(&resource)?;
    /// ```
    ///
    /// # Errors
    /// - [`AddResourceError::Overriding`] has a notice for each entry whose id stood for another
    ///   one, in the order of the entries. All other entries were added.
    /// - [`AddResourceError::Memory`] if memory runs out. The bundle is unchanged then.
    pub fn add_resource(&mut self, resource: &'r FluentResource<'s>) -> Result<(), AddResourceError>
        ensures added { AddsFirst result (bundle_of self.old) (bundle_of self.new) (entries_view resource.now) }
        ensures told { TellsNotices result (bundle_of self.old) (entries_view resource.now) }
    {
        self.ids.add_resource(resource.tree())
    }

    /// Adds the messages and terms of a resource. If two entries have one id, the last stays: it
    /// replaces a function too.
    ///
    /// # Errors
    /// Memory ran out. The bundle is unchanged then.
    pub fn add_resource_overriding(
        &mut self,
        resource: &'r FluentResource<'s>,
    ) -> Result<(), AllocError>
        ensures added { OnOk result (bundle_of self.new
            ≡ with_entries true (bundle_of self.old) (entries_view resource.now)) }
        ensures refused { OnErr result (bundle_of self.new ≡ bundle_of self.old) }
    {
        let ids = &mut self.ids;
        ids.add_resource_overriding(resource.tree())
    }

    /// Adds a function under an id that stands for nothing yet.
    ///
    /// ```
    /// bundle.add_function("IS_OPEN", IsOpen)?;
    /// ```
    ///
    /// # Errors
    /// After each of them the bundle is unchanged, and the function was dropped.
    /// - [`AddFunctionError::Overriding`] if the id stands for a message, a term or a function.
    /// - [`AddFunctionError::Memory`] if memory runs out.
    pub fn add_function(&mut self, id: &str, function: F) -> Result<(), AddFunctionError>
        ensures { AddsFunction result (bundle_of self.old) (bundle_of self.new) (id.now, ids.function function) }
    {
        self.ids.add_function(id, function)
    }

    /// Adds the function `NUMBER`.
    ///
    /// # Errors
    /// After each of them the bundle is unchanged.
    /// - [`AddFunctionError::Overriding`] if `NUMBER` stands for a message, a term or a function.
    /// - [`AddFunctionError::Memory`] if memory runs out.
    pub fn add_builtins(&mut self) -> Result<(), AddFunctionError>
        ensures { AddsFunction result (bundle_of self.old) (bundle_of self.new) number_pair }
    {
        self.ids.add_builtins()
    }
}
