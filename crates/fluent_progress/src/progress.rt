//! The state of the resolver.

ghost use Rattle.std.specs.Prelude.{◌≡◌, ◌+◌, ◌-◌, ◌<◌, [], false, true, IfOk, OnErr, OnOk, map, option_map};
ghost use Rattle.fluent_errors.specs.View.{bundle_view, resolver_view};
ghost use Rattle.fluent_meaning.specs.Steps.{done, entering, opens};
ghost use Rattle.fluent_meaning.specs.Told.{Finds, after};
ghost use Rattle.fluent_progress.specs.Depth.{open_in, with_closed, with_opened};
ghost use Rattle.fluent_progress.specs.Telling.{fresh, with_error};
ghost use Rattle.fluent_progress.specs.Views.{path_of, state};

use crate::frames::Frames;
use crate::path::Path;
use fluent_errors::{FluentError, ResolverError};
use fluent_text::stack::StackBudget;
use std::alloc::{AllocError, Global};

/// How many placeables one answer may open.
const MOST_PLACEABLES: u8 = 100;

/// The state of the resolver, passed from step to step.
#[derive(Drop)]
pub struct Progress<'r, 's> {
    /// The errors reported so far, if they are wanted.
    pub errors: Option<Vec<FluentError>>,
    /// How many placeables were counted, at most 255.
    pub placeables: u8,
    /// Whether one placeable more was to be opened than may be.
    pub dirty: bool,
    /// How many patterns were entered.
    pub entered: u128,
    /// The patterns that are being written, the last one entered last.
    pub path: Path<'r, 's>,
    /// What is open of the machine's stack, in all patterns that are being written.
    pub stack: Frames,
}

impl Progress<'_, '_> {
    /// What an answer starts with: these errors, reported earlier, if they are wanted, and nothing
    /// counted, entered or open. It may take this budget of the machine's stack. It doesn't
    /// allocate.
    pub fn within(alloc: Global, errors: Option<Vec<FluentError>>, budget: StackBudget) -> Self
        ensures state { state result ≡ fresh (option_map (λ es. map bundle_view es.items) errors) }
        ensures path { path_of result ≡ [] }
        ensures stack { open_in result.stack
            ≡ record { taken = 0; budget = budget.bytes; is_past = false } }
    {
        Progress {
            errors,
            placeables: 0,
            dirty: false,
            entered: 0,
            path: Path::new(alloc, None),
            stack: Frames::new(budget),
        }
    }

    /// Opens what takes so many bytes of the machine's stack.
    ///
    /// # Errors
    /// [`AllocError`] if more bytes would be open than the budget has, which is noted; nothing is
    /// opened.
    pub fn open_frames(&mut self, bytes: usize) -> Result<(), AllocError>
        ensures opened { OnOk result (open_in self.new.stack ≡ with_opened bytes (open_in self.old.stack)) }
        ensures past { OnErr result ((open_in self.old.stack).budget
            < (open_in self.old.stack).taken + bytes) }
        ensures noted { OnErr result (self.new.stack.is_past ≡ true) }
        ensures state { state self.new ≡ state self.old }
        ensures path { self.new.path ≡ self.old.path }
    {
        self.stack.open(bytes)
    }

    /// Closes what took so many bytes of the machine's stack.
    pub fn close_frames(&mut self, bytes: usize)
        ensures closed { open_in self.new.stack ≡ with_closed bytes (open_in self.old.stack) }
        ensures state { state self.new ≡ state self.old }
        ensures path { self.new.path ≡ self.old.path }
    {
        self.stack.close(bytes);
    }

    /// The errors reported so far, if they are wanted.
    pub fn into_errors(self) -> Option<Vec<FluentError>>
        ensures { result ≡ self.entry.errors }
    {
        self.errors
    }

    /// Reports an error, where errors are wanted.
    ///
    /// # Errors
    /// [`AllocError`] if memory runs out; the progress is unchanged.
    pub fn add_error(&mut self, error: ResolverError) -> Result<(), AllocError>
        ensures told { OnOk result (state self.new
            ≡ with_error (resolver_view error) (state self.old)) }
        ensures refused { OnErr result (state self.new ≡ state self.old) }
        ensures path { self.new.path ≡ self.old.path }
        ensures stack { self.new.stack ≡ self.old.stack }
    {
        if let Some(errors) = &mut self.errors {
            errors.push(FluentError::ResolverError(error))?;
        }
        Ok(())
    }

    /// Counts a pattern that is entered.
    pub fn count_entry(&mut self)
        ensures counted { state self.new ≡ after (state self.old)
            (entering (done true (state self.old).budget)) }
        ensures path { self.new.path ≡ self.old.path }
        ensures stack { self.new.stack ≡ self.old.stack }
    {
        self.entered = self.entered.saturating_add(1);
    }

    /// Counts a placeable, and answers whether it may be opened. One too many is reported.
    ///
    /// # Errors
    /// [`AllocError`] if memory runs out; the progress is unchanged.
    pub fn open_placeable(&mut self) -> Result<bool, AllocError>
        requires { self.now.dirty ≡ false }
        ensures opens { IfOk result (λ is_open. Finds is_open (state self.old) (state self.new)
            opens) }
        ensures refused { OnErr result (state self.new ≡ state self.old) }
        ensures path { self.new.path ≡ self.old.path }
        ensures stack { self.new.stack ≡ self.old.stack }
    {
        if self.placeables < MOST_PLACEABLES {
            self.placeables += 1;
            return Ok(true);
        }
        self.add_error(ResolverError::TooManyPlaceables)?;
        self.placeables = self.placeables.saturating_add(1);
        self.dirty = true;
        Ok(false)
    }
}
