//! How many entries of each kind a tree has.

ghost use Rattle.std.specs.Prelude.{◌≡◌, ◌≢◌, IfOk};
ghost use Rattle.fluent_syntax.specs.Collected.{HasTree, HasErrors};
ghost use Rattle.fluent_syntax.specs.Tiling.{tree, errors, runtime_tree, runtime_errors};
ghost use Rattle.fluent_c.specs.Counts.{Counted, HasEntries, IsCountOf, Text, text_of, plain};
ghost use Rattle.fluent_c.specs.Statuses.{ReadsSource};
ghost use Rattle.fluent_c.specs.declared.TheConstants.{FLUENT_READ};

use crate::{FLUENT_NO_MEMORY, FLUENT_NOT_UTF8, FLUENT_READ};
use fluent_syntax::ast::{Entry, Resource};
use fluent_syntax::parser::{self, Error, parse_runtime_within, parse_within};
use fluent_text::stack::StackBudget;
use simdutf8::basic::from_utf8;
use std::alloc::{AllocError, Global};

/// What a source is made of.
///
/// ```c
/// struct FluentCounts counts = {0};
/// return fluent_parse(bytes_of(source), strlen(source), &counts) == FLUENT_READ ? counts.messages : 0;
/// ```
#[repr(C)]
#[derive(Clone, Copy)]
pub struct FluentCounts {
    pub messages: usize,
    pub terms: usize,
    /// Standalone comments, of all three kinds: not those of messages and terms.
    pub comments: usize,
    pub junk: usize,
    /// One for each junk.
    pub errors: usize,
}

impl FluentCounts {
    /// The counts of a tree with this many errors.
    pub(crate) fn of(resource: &Resource<&str>, errors: usize) -> Self
        ensures entries { HasEntries result (plain resource.now) }
        ensures errors { result.errors ≡ errors }
    {
        let mut counts = FluentCounts {
            messages: 0,
            terms: 0,
            comments: 0,
            junk: 0,
            errors,
        };
        for entry in &resource.body {
            match entry {
                Entry::Message(_) => counts.messages += 1,
                Entry::Term(_) => counts.terms += 1,
                Entry::Comment(_) | Entry::GroupComment(_) | Entry::ResourceComment(_) => {
                    counts.comments += 1;
                }
                Entry::Junk { .. } => counts.junk += 1,
            }
        }
        counts
    }
}

/// Counts the entries and the errors of a source, comments included.
///
/// `text` is the source's bytes. The call returns [`FLUENT_READ`], also if the source has errors;
/// [`FLUENT_NOT_UTF8`] or [`FLUENT_NO_MEMORY`] otherwise, and `counts` is unchanged then. All
/// memory is freed when it returns.
#[unsafe(no_mangle)]
pub extern "C" fn fluent_parse(alloc: Global, text: &[u8], counts: &mut FluentCounts) -> u32
    ensures status { ReadsSource text.now result }
    ensures counted { result ≡ FLUENT_READ
        → Counted counts.new (tree text.now) (errors text.now) }
    ensures unchanged { result ≢ FLUENT_READ → counts.new ≡ counts.old }
{
    let Ok(text) = from_utf8(text) else {
        return FLUENT_NOT_UTF8;
    };
    match counts_of(alloc, text) {
        Ok(found) => {
            *counts = found;
            FLUENT_READ
        }
        Err(_) => FLUENT_NO_MEMORY,
    }
}

/// Counts the messages, the terms, the junk and the errors of a source that is read for use at run
/// time, without its comments. The call returns what [`fluent_parse`] does.
#[unsafe(no_mangle)]
pub extern "C" fn fluent_parse_runtime(alloc: Global, text: &[u8], counts: &mut FluentCounts) -> u32
    ensures status { ReadsSource text.now result }
    ensures counted { result ≡ FLUENT_READ
        → Counted counts.new (runtime_tree text.now) (runtime_errors text.now) }
    ensures unchanged { result ≢ FLUENT_READ → counts.new ≡ counts.old }
{
    let Ok(text) = from_utf8(text) else {
        return FLUENT_NOT_UTF8;
    };
    match runtime_counts_of(alloc, text) {
        Ok(found) => {
            *counts = found;
            FLUENT_READ
        }
        Err(_) => FLUENT_NO_MEMORY,
    }
}

/// The counts of a source that is read whole.
fn counts_of(alloc: Global, text: &str) -> Result<FluentCounts, AllocError>
    ensures { IfOk result (λ counts. Counted counts (tree text.now) (errors text.now)) }
{
    counts_of_read(parse_within(alloc, text, StackBudget::THREAD))
}

/// The counts of a source that is read for use at run time.
fn runtime_counts_of(alloc: Global, text: &str) -> Result<FluentCounts, AllocError>
    ensures { IfOk result (λ counts. Counted counts (runtime_tree text.now)
        (runtime_errors text.now)) }
{
    counts_of_read(parse_runtime_within(alloc, text, StackBudget::THREAD))
}

/// The counts of what was read, with or without errors.
fn counts_of_read(read: parser::Result<&str>) -> Result<FluentCounts, AllocError>
    ensures { IsCountOf (HasTree Text text_of read.entry) (HasErrors Text read.entry) result }
{
    match read {
        Ok(resource) => Ok(FluentCounts::of(&resource, 0)),
        Err(Error::Broken(resource, errors)) => Ok(FluentCounts::of(&resource, errors.len())),
        Err(Error::Memory) => Err(AllocError),
    }
}
