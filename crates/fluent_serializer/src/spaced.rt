//! Writing entries with one blank line at most between two of them.

ghost use Rattle.std.specs.Prelude.{◌≡◌, ℕ, List, drop, false};
ghost use Rattle.fluent_ast.specs.View.{entry_view, resource_view};
ghost use Rattle.fluent_serializer.specs.Spaced as spaced;
ghost use Rattle.fluent_serializer.specs.Spaced.{alone_signs, first_mark, spaced_signs};
ghost use Rattle.fluent_serializer.specs.Writing.{Writes};

use crate::entries::{write_comment, write_gap, write_message, write_term};
use fluent_ast::{Entry, Resource};
use fluent_text::Slice;
use std::alloc::AllocError;

/// Whether an entry is a comment that stands by itself.
fn is_free<S>(entry: &Entry<S>) -> bool
    ensures { (text_of : S → List ℕ) → result ≡ spaced.is_free (entry_view S text_of entry.now) }
{
    matches!(
        entry,
        Entry::Comment(_) | Entry::GroupComment(_) | Entry::ResourceComment(_)
    )
}

/// Whether the entry of an index is marked to stand apart.
fn is_marked(apart: &[bool], index: usize) -> bool
    ensures { result ≡ first_mark (drop index apart.now) }
{
    apart.get(index).copied().unwrap_or(false)
}

/// Whether a blank line stands before an entry: `after` says whether another stands right before
/// it, and `free` whether that is a comment by itself.
fn is_parted<S>(after: bool, free: bool, apart: bool, entry: &Entry<S>) -> bool
    ensures { (text_of : S → List ℕ) → result
        ≡ spaced.is_parted after free apart (entry_view S text_of entry.now) }
{
    after && (free || is_free(entry) || apart)
}

/// Writes an entry without blank lines around it; of junk nothing.
fn write_alone<'s, S: Slice<'s>>(out: &mut String, entry: &Entry<S>) -> Result<(), AllocError>
    ensures { Writes result out.old out.new (alone_signs (entry_view S S.text entry.now)) }
{
    match entry {
        Entry::Message(message) => write_message(out, message),
        Entry::Term(term) => write_term(out, term),
        Entry::Comment(comment) => write_comment(out, "#", comment),
        Entry::GroupComment(comment) => write_comment(out, "##", comment),
        Entry::ResourceComment(comment) => write_comment(out, "###", comment),
        Entry::Junk { content: _ } => Ok(()),
    }
}

/// Writes the entries of a tree, with a blank line before those that are marked.
pub(crate) fn write_spaced<'s, S: Slice<'s>>(
    out: &mut String,
    resource: &Resource<S>,
    apart: &[bool],
) -> Result<(), AllocError>
    ensures { Writes result out.old out.new
        (spaced_signs false false apart.now (resource_view S S.text resource.now)) }
{
    let mut after = false;
    let mut free = false;
    for (index, entry) in resource.body.iter().enumerate() {
        let is_marked = is_marked(apart, index);
        write_gap(out, is_parted(after, free, is_marked, entry))?;
        write_alone(out, entry)?;
        after = true;
        free = is_free(entry);
    }
    Ok(())
}
