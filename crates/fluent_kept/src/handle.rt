//! A bundle for a caller that isn't Rattle.

ghost use Rattle.std.specs.Prelude.{◌≡◌, true, false, IfOk};
ghost use Rattle.std.specs.Option.{MatchOption};
ghost use Rattle.fluent_kept.specs.Answers.{AnswersIf};
ghost use Rattle.fluent_kept.specs.Catalogs.{Catalog, catalog_of};
ghost use Rattle.fluent_kept.specs.Handle.{handle_owns};

use crate::bundle::Bundle;
use crate::question::{Answer, Question};
use crate::sources::Sources;
use std::alloc::{AllocError, Global};
use std::marker::Model;

/// A bundle that is kept, or none.
///
/// A caller in C keeps it, and reads only whether there is one. It isn't `Drop`:
/// [`FluentBundle::clear`] frees what it keeps.
///
/// ```c
/// struct Messages messages = {{0}, {0}, {0}};
/// ..
/// return fluent_bundle_new(sources, 1, bytes_of(locale), strlen(locale), false, false, &messages->bundle);
/// ..
/// fluent_bundle_free(&messages->bundle);
/// ```
#[repr(C)]
pub struct FluentBundle {
    /// Whether there is a bundle. If there is none, the other fields say nothing.
    held: bool,
    sources: *mut u8,
    read: *mut u8,
    desk: *mut u8,
    pub ghost catalog: { Catalog },
}

impl Model for FluentBundle {
    ghost also_owns = { λ h. handle_owns h.held h.sources h.read h.desk h.catalog };
}

unsafe impl Send for FluentBundle {}

impl FluentBundle {
    /// No bundle.
    pub fn none() -> FluentBundle
        ensures { result.held ≡ false }
    {
        FluentBundle {
            held: false,
            sources: std::ptr::null_mut(),
            read: std::ptr::null_mut(),
            desk: std::ptr::null_mut(),
        }
    }

    /// The handle of a bundle.
    fn holding(bundle: Bundle) -> FluentBundle
        ensures { (result.held ≡ true) × (result.catalog ≡ bundle.catalog) }
    {
        let Bundle {
            sources,
            read,
            desk,
        } = bundle;
        FluentBundle {
            held: true,
            sources: sources as *mut u8,
            read,
            desk,
        }
    }

    /// The bundle, if there is one.
    fn take(self) -> Option<Bundle>
        ensures { MatchOption result (self.held ≡ false)
            (λ bundle. (self.held ≡ true) × (bundle.catalog ≡ self.catalog)) }
    {
        let FluentBundle {
            held,
            sources,
            read,
            desk,
        } = self;
        if held {
            Some(Bundle {
                sources: sources as *mut Sources,
                read,
                desk,
            })
        } else {
            None
        }
    }

    /// Reads sources, and keeps them.
    ///
    /// # Errors
    /// [`AllocError`] if memory runs out, or a message or a term of theirs nests too deep for their
    /// budget; nothing is kept.
    pub fn new(alloc: Global, sources: Sources) -> Result<FluentBundle, AllocError>
        ensures { IfOk result (λ made. (made.held ≡ true) × (made.catalog ≡ catalog_of sources)) }
    {
        let bundle = Bundle::new(alloc, sources)?;
        Ok(FluentBundle::holding(bundle))
    }

    /// The answer to a question, or `None` if there is no bundle.
    pub fn ask(&mut self, alloc: Global, question: &Question<'_>) -> Option<Answer>
        ensures answer { AnswersIf self.old.held self.old.catalog question.now result }
        ensures kept { (self.new.held ≡ self.old.held)
            × (self.old.held ≡ true → self.new.catalog ≡ self.old.catalog) }
    {
        let mut bundle = std::mem::replace(self, FluentBundle::none()).take()?;
        let answer = bundle.ask(alloc, question);
        self.put(alloc, FluentBundle::holding(bundle));
        Some(answer)
    }

    /// The sources of the bundle, if there is one.
    pub fn into_sources(self, alloc: Global) -> Option<Sources>
        ensures { MatchOption result (self.held ≡ false)
            (λ sources. (self.held ≡ true) × (catalog_of sources ≡ self.catalog)) }
    {
        let bundle = self.take()?;
        Some(bundle.into_sources(alloc))
    }

    /// Puts another handle in the place of this one, whose bundle is freed.
    pub fn put(&mut self, alloc: Global, handle: FluentBundle)
        ensures { self.new ≡ handle }
    {
        let _freed = std::mem::replace(self, handle).into_sources(alloc);
    }

    /// Frees the bundle, if there is one. There is none then.
    pub fn clear(&mut self, alloc: Global)
        ensures { self.new.held ≡ false }
    {
        self.put(alloc, FluentBundle::none());
    }
}
