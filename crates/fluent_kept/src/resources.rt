//! What is read of sources, which refers to them.

ghost use Rattle.std.specs.Prelude.{◌≡◌, IfOk, IfSome, map, string_bytes};
ghost use Rattle.fluent_grammar.specs.Tiling.{runtime_tree};
ghost use Rattle.fluent_resource.specs.ResourceView.{entries_view};
ghost use Rattle.fluent_kept.specs.Catalogs.{IsReadOf, catalog_of};

use crate::loose::RawBox;
use crate::sources::{Sources, borrow_texts};
use fluent_resource::{FluentResource, parse_sources};
use std::alloc::{AllocError, Global};

/// What is read of sources.
#[derive(Drop)]
pub(crate) struct Resources<'s> {
    pub(crate) sources: &'s Sources,
    pub(crate) list: Vec<FluentResource<'s>>,
}

/// What is read of each source, within the budget of the stack.
///
/// # Errors
/// [`AllocError`] if memory runs out, or the budget does; nothing is kept.
fn read_texts<'s>(
    alloc: Global,
    sources: &'s Sources,
) -> Result<Vec<FluentResource<'s>>, AllocError>
    ensures { IfOk result (λ list. map entries_view list.items
        ≡ map runtime_tree (catalog_of sources.now).sources) }
{
    let texts = borrow_texts(alloc, &sources.texts)?;
    parse_sources(alloc, &texts, sources.stack)
}

/// What is read of sources, in a box.
///
/// # Errors
/// [`AllocError`] if memory runs out; nothing is kept.
fn try_read<'s>(alloc: Global, sources: &'s Sources) -> Result<Box<Resources<'s>>, AllocError>
    ensures { IfOk result (λ read. IsReadOf read.value (catalog_of sources.now)) }
{
    let list = read_texts(alloc, sources)?;
    Ok(Box::new(alloc, Resources { sources, list })?)
}

/// What is read of sources, or `None` if memory runs out.
pub(crate) fn read_out<'s>(
    alloc: Global,
    sources: &'s Sources,
) -> Option<RawBox<Resources<'s>, Global>>
    ensures { IfSome result (λ read. IsReadOf read.value (catalog_of sources.now)) }
{
    match try_read(alloc, sources) {
        Ok(read) => Some(RawBox::of(read)),
        Err(_) => None,
    }
}

/// Frees what was read.
pub(crate) fn discard_resources<'s>(read: RawBox<Resources<'s>, Global>) {
    let _ = read.into_box();
}
