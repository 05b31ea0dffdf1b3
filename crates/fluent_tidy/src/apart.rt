//! Where blank lines stand in a source.

ghost use Rattle.std.specs.Prelude.{◌≡◌, ◌≤◌, ℕ, List, IfOk, drop, length, map, option_map};
ghost use Rattle.fluent_ast.specs.View.{comment_view, entry_view};
ghost use Rattle.fluent_tidy.specs.TidyText as tidy;

use fluent_ast::{Comment, Entry};
use fluent_text::Slice;
use std::alloc::{AllocError, Global};

/// Whether a blank line stands before each of these entries, whose parts begin at these places of a
/// source.
///
/// # Errors
/// [`AllocError`] if memory runs out; nothing is kept.
pub fn apart_at<'s, S: Slice<'s>>(
    alloc: Global,
    source: &str,
    places: &[usize],
    entries: &[Entry<S>],
) -> Result<Vec<bool>, AllocError>
    ensures { IfOk result (λ all. all.items
        ≡ tidy.apart_at source.now places.now (map (entry_view S S.text) entries.now)) }
{
    let mut marks = Vec::new(alloc);
    let mut left = places;
    for entry in entries {
        marks.push(is_first_apart(source.as_bytes(), left))?;
        left = after(left, part_count(entry));
    }
    Ok(marks)
}

/// The places after the first ones.
fn after(places: &[usize], count: usize) -> &[usize]
    ensures { result.now ≡ drop count places.now }
{
    &places[count.min(places.len())..]
}

/// How many parts of a source an entry is: a comment of its own is one more.
fn part_count<S>(entry: &Entry<S>) -> usize
    ensures { (text_of : S → List ℕ) → result ≡ tidy.part_count (entry_view S text_of entry.now) }
{
    match entry {
        Entry::Message(message) => with_own(&message.comment),
        Entry::Term(term) => with_own(&term.comment),
        _ => 1,
    }
}

/// One part, and one more for a comment.
fn with_own<S>(comment: &Option<Comment<S>>) -> usize
    ensures { (text_of : S → List ℕ) → result
        ≡ tidy.with_own (option_map (comment_view S text_of) comment.now) }
{
    match comment {
        Some(_) => 2,
        None => 1,
    }
}

/// Whether the first of these places stands apart.
fn is_first_apart(source: &[u8], places: &[usize]) -> bool
    ensures { result ≡ tidy.first_apart source.now places.now }
{
    match places.first() {
        Some(at) => stands_apart(source, *at),
        None => false,
    }
}

/// Whether a blank line stands right before the line that begins at an offset.
fn stands_apart(source: &[u8], at: usize) -> bool
    ensures { result ≡ tidy.stands_apart source.now at }
{
    let mut end = at.min(source.len()).saturating_sub(1);
    'spaces: while byte_before(source, end) == b' ' {
        end -= 1;
    }
    byte_before(source, end) == b'\n'
}

/// The byte before a place; 0 at the start.
fn byte_before(source: &[u8], end: usize) -> u8
    requires { end ≤ length source.now }
    ensures { result ≡ tidy.byte_before source.now end }
{
    if end == 0 { 0 } else { source[end - 1] }
}
