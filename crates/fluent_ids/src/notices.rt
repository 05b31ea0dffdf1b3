//! Which entries of a resource would override others.

ghost use Rattle.std.specs.Prelude.{◌≡◌, [], IfOk, OnOk};
ghost use Rattle.fluent_errors.specs.Errors.{overriding};
ghost use Rattle.fluent_errors.specs.View as e;
ghost use Rattle.fluent_errors.specs.View.{bundle_view};
ghost use Rattle.fluent_ids.specs.IdsView.{ids_view};
ghost use Rattle.fluent_ids.specs.Known.{TellsIfKnown, KnowsOneMore, reports, told};
ghost use Rattle.fluent_ids.specs.ResourceEntries.{entries_in};
ghost use Rattle.fluent_meaning.specs.Ids.{entries_by_id, notices};

use crate::entry::Entry;
use crate::ids::FluentIds;
use fluent_ast::Resource;
use fluent_errors::{EntryKind, FluentError};
use std::alloc::{AllocError, Global};
use std::collections::HashSet;

/// That an entry of this kind was to be added under an id that stands for another one.
pub(crate) fn overriding(
    alloc: Global,
    kind: EntryKind,
    id: &str,
) -> Result<FluentError, AllocError>
    ensures { IfOk result (λ error. bundle_view error ≡ overriding (e.entry_view kind) id.now) }
{
    Ok(FluentError::Overriding {
        kind,
        id: String::from_str(alloc, id)?,
    })
}

/// The notices for the first entries of a resource, and those of its ids that the map doesn't have.
#[derive(Drop)]
struct Notices<'s> {
    seen: HashSet<&'s str>,
    told: Vec<FluentError>,
    alloc: Global,
}

impl<'s> Notices<'s> {
    fn new(alloc: Global) -> Self
        ensures told { told result ≡ [] }
        ensures seen { result.seen.keys ≡ [] }
    {
        Notices {
            seen: HashSet::new(alloc),
            told: Vec::new(alloc),
            alloc,
        }
    }

    /// Looks at one more entry of the resource.
    fn look<'r, F>(
        &mut self,
        ids: &FluentIds<'r, 's, F>,
        id: &'s str,
        kind: EntryKind,
    ) -> Result<(), AllocError>
        ensures told { OnOk result (TellsIfKnown (ids_view F ids.now) self.old self.new
            (e.entry_view kind) id.now) }
        ensures known { OnOk result (KnowsOneMore (ids_view F ids.now) self.old self.new id.now) }
    {
        let is_new = !ids.contains(id) && self.seen.insert(id)?;
        if !is_new {
            self.told.push(overriding(self.alloc, kind, id)?)?;
        }
        Ok(())
    }
}

impl<'r, 's, F: Drop> FluentIds<'r, 's, F> {
    /// The notices that adding a resource gives, if the first entry of an id stays.
    pub(crate) fn notices(
        &self,
        resource: &'r Resource<&'s str>,
    ) -> Result<Vec<FluentError>, AllocError>
        ensures { IfOk result (λ all. reports all
            ≡ notices (ids_view F self.now) (entries_by_id (entries_in resource.now))) }
    {
        let mut notices = Notices::new(self.alloc);
        for entry in &resource.body {
            let Some((id, entry)) = Entry::<F>::of(resource, entry) else {
                continue;
            };
            notices.look(self, id, entry.kind())?;
        }
        Ok(notices.told)
    }
}
