//! Writing a tree as the text of a source.
//!
//! Writing goes by pieces: signs, names, texts and raw literals. Four spaces a level stand before a
//! piece that follows a line feed. `docs/reference/written-text.md` has the rules, and
//! `specs/Written.antt` of `fluent_grammar` the definition.
#![tactic(auto)]

mod entries;
mod expressions;
mod inline;
pub mod laws;
mod names;
mod pieces;
mod shapes;
mod spaced;

ghost use Rattle.std.specs.Prelude.{◌≡◌, IfOk, string_bytes};
ghost use Rattle.fluent_grammar.specs.Written.{written, written_with};
ghost use Rattle.fluent_ast.specs.View.{resource_view};
ghost use Rattle.fluent_serializer.specs.Spaced.{spaced};

use fluent_ast::Resource;
use fluent_text::Slice;
use std::alloc::{AllocError, Global};

/// What is written of a tree.
///
/// ```no_run
/// let text = serialize_with_options(alloc, &resource, Options { with_junk: true })?;
/// print!(rt; "{text}")?;
/// ```
#[derive(Clone, Copy, Debug, Default, PartialEq, Eq)]
pub struct Options {
    /// Whether junk is written, as it stands in the tree. By default it is left out.
    pub with_junk: bool,
}

/// The text of a tree, without its junk.
///
/// ```
/// let text = serialize(rt.alloc(), &resource)?;
/// print!(rt; "{text}")?;
/// ```
///
/// # Errors
/// [`AllocError`] if memory runs out; nothing is kept.
pub fn serialize<'s, S: Slice<'s>>(
    alloc: Global,
    resource: &Resource<S>,
) -> Result<String, AllocError>
    ensures { IfOk result (λ text. string_bytes text
        ≡ written (resource_view S S.text resource.now)) }
{
    serialize_with_options(alloc, resource, Options::default())
}

/// The text of a tree, by the options.
///
/// # Errors
/// [`AllocError`] if memory runs out; nothing is kept.
pub fn serialize_with_options<'s, S: Slice<'s>>(
    alloc: Global,
    resource: &Resource<S>,
    options: Options,
) -> Result<String, AllocError>
    ensures { IfOk result (λ out. string_bytes out
        ≡ written_with options.with_junk (resource_view S S.text resource.now)) }
{
    let mut text = String::new(alloc);
    entries::write_entries(&mut text, options, resource)?;
    Ok(text)
}

/// The text of a tree with one blank line at most between two entries, and none before the first or
/// after the last: one stands before each entry that `apart` marks, by its index in the body, and
/// around comments that stand by themselves. Junk isn't written. Marks that are missing are taken
/// for `false`.
///
/// ```no_run
/// let text = serialize_spaced(alloc, &resource, &[false, false, true])?; // a blank line before the third entry
/// ```
///
/// # Errors
/// [`AllocError`] if memory runs out; nothing is kept.
pub fn serialize_spaced<'s, S: Slice<'s>>(
    alloc: Global,
    resource: &Resource<S>,
    apart: &[bool],
) -> Result<String, AllocError>
    ensures { IfOk result (λ out. string_bytes out
        ≡ spaced apart.now (resource_view S S.text resource.now)) }
{
    let mut text = String::new(alloc);
    spaced::write_spaced(&mut text, resource, apart)?;
    Ok(text)
}
