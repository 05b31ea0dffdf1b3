//! Adding resources.

ghost use Rattle.std.specs.Prelude.{◌≡◌, ◌+◌, ◌<◌, ◌≤◌, OnOk, OnErr, length};
ghost use Rattle.std.specs.HashMap.{spare};
ghost use Rattle.fluent_ids.specs.Adding.{AddsFirst, PutsFirst, PutsLast, KeepsAtMemory, TellsNotices};
ghost use Rattle.fluent_ids.specs.EntryView.{meaning_of};
ghost use Rattle.fluent_ids.specs.IdsView.{ids_view};
ghost use Rattle.fluent_ids.specs.ResourceEntries.{entries_in};
ghost use Rattle.fluent_meaning.specs.Ids.{entries_by_id, with_id, with_ids, notices};

use crate::entry::Entry;
use crate::error::AddResourceError;
use crate::ids::FluentIds;
use fluent_ast::Resource;
use std::alloc::AllocError;
use std::borrow::CowStr;

impl<'r, 's, F: Drop> FluentIds<'r, 's, F> {
    /// Adds the messages and terms of a resource, by its tree. Where two entries have one id, the
    /// first stays, whatever it is and wherever it comes from.
    ///
    /// # Errors
    /// - [`AddResourceError::Overriding`] has a notice for each entry whose id stood for another
    ///   one, in the order of the entries. All other entries were added.
    /// - [`AddResourceError::Memory`] if memory runs out. Nothing is added then.
    pub fn add_resource(&mut self, resource: &'r Resource<&'s str>) -> Result<(), AddResourceError>
        ensures added { AddsFirst F result self.old self.new resource.now }
        ensures refused { KeepsAtMemory F result self.old self.new }
        ensures told { TellsNotices result (notices (ids_view F self.old)
            (entries_by_id (entries_in resource.now))) }
    {
        let notices = self.notices(resource)?;
        self.add_resource_silently(resource)?;
        if notices.is_empty() {
            Ok(())
        } else {
            Err(AddResourceError::Overriding(notices))
        }
    }

    /// Adds the messages and terms of a resource, by its tree, as [`FluentIds::add_resource`] does,
    /// and makes no notices. It looks each id up once.
    ///
    /// # Errors
    /// [`AllocError`] if memory runs out; the ids are unchanged.
    pub fn add_resource_silently(
        &mut self,
        resource: &'r Resource<&'s str>,
    ) -> Result<(), AllocError>
        ensures added { OnOk result (PutsFirst F self.old self.new resource.now) }
        ensures refused { OnErr result (ids_view F self.new ≡ ids_view F self.old) }
    {
        self.make_room(resource)?;
        self.put_all(resource, false);
        Ok(())
    }

    /// Adds the messages and terms of a resource, by its tree. Where two entries have one id, the
    /// last stays.
    ///
    /// # Errors
    /// [`AllocError`] if memory runs out; the ids are unchanged.
    pub fn add_resource_overriding(
        &mut self,
        resource: &'r Resource<&'s str>,
    ) -> Result<(), AllocError>
        ensures added { OnOk result (PutsLast F self.old self.new resource.now) }
        ensures refused { OnErr result (ids_view F self.new ≡ ids_view F self.old) }
    {
        self.make_room(resource)?;
        self.put_all(resource, true);
        Ok(())
    }

    /// Makes room for the entries of a resource.
    fn make_room(&mut self, resource: &'r Resource<&'s str>) -> Result<(), AllocError>
        ensures same { ids_view F self.new ≡ ids_view F self.old }
        ensures room { OnOk result (length (entries_in resource.now) ≤ spare self.new.entries) }
    {
        self.entries.reserve(resource.body.len())
    }

    /// Puts in the messages and terms of a resource, for which there is room.
    fn put_all(&mut self, resource: &'r Resource<&'s str>, overriding: bool)
        requires { length (entries_in resource.now) ≤ spare self.old.entries }
        ensures { ids_view F self.new ≡ with_ids overriding (ids_view F self.old)
            (entries_by_id (entries_in resource.now)) }
    {
        for plain in &resource.body {
            if let Some((id, entry)) = Entry::of(resource, plain) {
                self.put(id, entry, overriding);
            }
        }
    }

    /// Puts in one entry, for which there is room.
    fn put(&mut self, id: &'s str, entry: Entry<'r, 's, F>, overriding: bool)
        requires { 0 < spare self.old.entries }
        ensures ids { ids_view F self.new ≡ with_id overriding (ids_view F self.old)
            (id.now, meaning_of F entry.entry) }
        ensures room { spare self.old.entries ≤ spare self.new.entries + 1 }
    {
        let key = CowStr::Borrowed(id);
        if overriding {
            let put: Result<_, _> = self.entries.insert(key, entry);
            let _replaced = put.unwrap();
        } else {
            let place: Result<_, _> = self.entries.entry(key);
            place.unwrap().or_insert(entry);
        }
    }
}
