//! Sources, with what is read of them and what answers from that.

ghost use Rattle.std.specs.Prelude.{◌≡◌, ℕ, IfOk};
ghost use base.Fml.{fex};
ghost use Rattle.std.specs.Result.{MatchResult};
ghost use Rattle.fluent_kept.specs.Answers.{Answers};
ghost use Rattle.fluent_kept.specs.Catalogs.{Catalog, catalog_of};
ghost use Rattle.fluent_kept.specs.Kept.{bundle_owns};

use crate::desk::{KeptDesk, asked, discard_desk, lay_out};
use crate::loose::RawBox;
use crate::question::{Answer, Question};
use crate::resources::Resources;
use crate::shelf::KeptSources;
use crate::sources::Sources;
use std::alloc::{AllocError, Global};
use std::marker::Model;

/// Sources, and what answers from them. It isn't `Drop`: [`Bundle::into_sources`] takes it apart.
pub struct Bundle {
    pub(crate) sources: *mut Sources,
    pub(crate) read: *mut u8,
    pub(crate) desk: *mut u8,
    pub ghost catalog: { Catalog },
}

impl Model for Bundle {
    ghost also_owns = { λ b. fex ℕ (λ α. fex ℕ (bundle_owns b.sources b.read b.desk b.catalog α)) };
}

unsafe impl Send for Bundle {}

impl Bundle {
    /// Lays out what was read, and keeps all. If memory runs out, the shelf comes back.
    fn tie(alloc: Global, shelf: KeptSources) -> Result<Bundle, KeptSources>
        ensures { MatchResult result (λ bundle. bundle.catalog ≡ shelf.catalog)
            (λ back. back.catalog ≡ shelf.catalog) }
    {
        let KeptSources { sources, read } = shelf;
        match lay_out(alloc, unsafe { &*(read as *const Resources<'_>) }) {
            Some(desk) => {
                let RawBox { at: desk, alloc: _ } = desk;
                Ok(Bundle {
                    sources,
                    read,
                    desk: desk as *mut u8,
                })
            }
            None => Err(KeptSources { sources, read }),
        }
    }

    /// The answer to a question.
    pub fn ask(&mut self, alloc: Global, question: &Question<'_>) -> Answer
        ensures { Answers self.old.catalog question.now result
            × (self.new.catalog ≡ self.old.catalog) }
    {
        let desk = unsafe { &mut *(self.desk as *mut KeptDesk<'_, '_>) };
        asked(desk, alloc, question)
    }

    /// The shelf again.
    fn untie(self, alloc: Global) -> KeptSources
        ensures { result.catalog ≡ self.catalog }
    {
        let Bundle {
            sources,
            read,
            desk,
        } = self;
        discard_desk(RawBox {
            at: desk as *mut KeptDesk<'_, '_>,
            alloc,
        });
        KeptSources { sources, read }
    }

    /// Reads sources, and keeps them.
    ///
    /// # Errors
    /// [`AllocError`] if memory runs out, or a message or a term of theirs nests too deep for their
    /// budget; nothing is kept.
    pub fn new(alloc: Global, sources: Sources) -> Result<Bundle, AllocError>
        ensures { IfOk result (λ bundle. bundle.catalog ≡ catalog_of sources) }
    {
        let sources = RawBox::of(Box::new(alloc, sources)?);
        match KeptSources::tie(alloc, sources) {
            Ok(shelf) => Bundle::of(alloc, shelf),
            Err(sources) => {
                let _freed = sources.into_box();
                Err(AllocError)
            }
        }
    }

    /// Lays out what was read.
    ///
    /// # Errors
    /// [`AllocError`] if memory runs out; nothing is kept.
    fn of(alloc: Global, shelf: KeptSources) -> Result<Bundle, AllocError>
        ensures { IfOk result (λ bundle. bundle.catalog ≡ shelf.catalog) }
    {
        match Bundle::tie(alloc, shelf) {
            Ok(bundle) => Ok(bundle),
            Err(shelf) => {
                let _freed = shelf.untie(alloc).into_box();
                Err(AllocError)
            }
        }
    }

    /// The sources again.
    pub fn into_sources(self, alloc: Global) -> Sources
        ensures { catalog_of result ≡ self.catalog }
    {
        Box::into_inner(self.untie(alloc).untie(alloc).into_box())
    }
}
