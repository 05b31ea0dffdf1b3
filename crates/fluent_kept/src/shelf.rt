//! Sources, with what is read of them.

ghost use Rattle.std.specs.Prelude.{◌≡◌, ℕ};
ghost use base.Fml.{fex};
ghost use Rattle.fluent_kept.specs.Catalogs.{Catalog, IsOfEither, catalog_of};
ghost use Rattle.fluent_kept.specs.Kept.{shelf_owns};

use crate::loose::RawBox;
use crate::resources::{Resources, discard_resources, read_out};
use crate::sources::Sources;
use std::alloc::Global;
use std::marker::Model;

/// Sources, and what is read of them. It isn't `Drop`: [`KeptSources::untie`] takes it apart.
pub(crate) struct KeptSources {
    pub(crate) sources: *mut Sources,
    pub(crate) read: *mut u8,
    pub(crate) ghost catalog: { Catalog },
}

impl Model for KeptSources {
    ghost also_owns = { λ s. fex ℕ (shelf_owns s.sources s.read s.catalog) };
}

impl KeptSources {
    /// Reads sources, and keeps both. If memory runs out, the sources come back.
    pub(crate) fn tie(
        alloc: Global,
        sources: RawBox<Sources, Global>,
    ) -> Result<KeptSources, RawBox<Sources, Global>>
        ensures { IsOfEither (λ shelf. shelf.catalog) (λ back. catalog_of back.value)
            (catalog_of sources.value) result }
    {
        let RawBox { at, alloc: handle } = sources;
        match read_out(alloc, unsafe { &*at }) {
            Some(read) => {
                let RawBox { at: read, alloc: _ } = read;
                Ok(KeptSources {
                    sources: at,
                    read: read as *mut u8,
                })
            }
            None => Err(RawBox { at, alloc: handle }),
        }
    }

    /// The sources again.
    pub(crate) fn untie(self, alloc: Global) -> RawBox<Sources, Global>
        ensures { catalog_of result.value ≡ self.catalog }
    {
        let KeptSources { sources, read } = self;
        discard_resources(RawBox {
            at: read as *mut Resources<'_>,
            alloc,
        });
        RawBox { at: sources, alloc }
    }
}
