//! The lines of a source, and what comments in it are about.
#![tactic(auto)]

ghost use Rattle.std.specs.Prelude.{◌≡◌, IfOk, false, true};
ghost use Rattle.fluent_grammar.specs.Words.{begins_with, number_sign};
ghost use Rattle.fluent_lint.specs.Silence.{after_line, entry_end, is_group, is_start, lines, scope_end, scope_start, section_end, silencing};
ghost use Rattle.fluent_lint.specs.SilenceView.{silencing_view};
ghost use Rattle.fluent_resource.specs.Sources.{texts};

use crate::table::sum;
use lint_nodes::skip;
use std::alloc::{AllocError, Global};

/// Of what a comment leaves findings out.
#[derive(Clone, Copy)]
pub enum Scope {
    /// Of the next message or term.
    Entry,
    /// Of its section, up to the next group comment.
    Section,
    /// Of the file.
    File,
}

impl Scope {
    /// Where it begins, if the comment is on a line that begins at an offset.
    pub fn start(self, at: usize) -> usize
        ensures { result ≡ scope_start self at }
    {
        match self {
            Scope::Entry | Scope::Section => at,
            Scope::File => 0,
        }
    }

    /// Where it ends, by the lines from the next one on, and where the file ends.
    ///
    /// # Errors
    /// [`AllocError`] if the lines are longer than `usize` can count, and fit in no memory.
    pub fn end(self, next: usize, lines: &[&str], end: usize) -> Result<usize, AllocError>
        ensures { IfOk result (λ to. to ≡ scope_end self next (texts lines.now) end) }
    {
        match self {
            Scope::Entry => entry_end(next, lines),
            Scope::Section => section_end(next, lines),
            Scope::File => Ok(end),
        }
    }
}

/// The lines of a source.
///
/// # Errors
/// [`AllocError`] if memory runs out; nothing is kept.
pub fn lines_of<'s>(alloc: Global, source: &'s str) -> Result<Vec<&'s str>, AllocError>
    ensures { IfOk result (λ made. texts made.items ≡ lines source.now) }
{
    source.split('\n').collect(alloc)
}

/// The offset after a line that begins at one.
///
/// # Errors
/// [`AllocError`] if it is more than `usize` can count.
pub fn after_line(at: usize, line: &str) -> Result<usize, AllocError>
    ensures { IfOk result (λ next. next ≡ after_line at line.now) }
{
    let end = sum(at, line.len())?;
    sum(end, 1)
}

/// What a line leaves out, and the list of codes. Most lines are no comments.
pub fn silencing(line: &str) -> Option<(Scope, &str)>
    ensures { silencing_view result ≡ silencing line.now }
{
    if begins_with_sign(line.as_bytes()) {
        comment_silencing(line)
    } else {
        None
    }
}

fn comment_silencing(line: &str) -> Option<(Scope, &str)>
    ensures { silencing_view result ≡ silencing line.now }
{
    if let Some(list) = line.strip_prefix("# lint-ignore:") {
        return Some((Scope::Entry, list));
    }
    if let Some(list) = line.strip_prefix("## lint-ignore:") {
        return Some((Scope::Section, list));
    }
    match line.strip_prefix("### lint-ignore:") {
        Some(list) => Some((Scope::File, list)),
        None => None,
    }
}

/// Where the next message or term of some lines ends.
fn entry_end(start: usize, lines: &[&str]) -> Result<usize, AllocError>
    ensures { IfOk result (λ to. to ≡ entry_end false start (texts lines.now)) }
{
    let mut at = start;
    let mut is_met = false;
    for line in lines {
        let is_start = is_start(line.as_bytes());
        if is_met && is_start {
            return Ok(at);
        }
        is_met = is_met || is_start;
        at = after_line(at, line)?;
    }
    Ok(at)
}

/// Where the section ends whose group comment may go on with the first of some lines.
fn section_end(start: usize, lines: &[&str]) -> Result<usize, AllocError>
    ensures { IfOk result (λ to. to ≡ section_end true start (texts lines.now)) }
{
    let mut at = start;
    let mut is_own = true;
    for line in lines {
        let is_group = is_group(line.as_bytes());
        if !is_own && is_group {
            return Ok(at);
        }
        is_own = is_own && is_group;
        at = after_line(at, line)?;
    }
    Ok(at)
}

/// Whether a line is one of a group comment.
fn is_group(line: &[u8]) -> bool
    ensures { result ≡ is_group line.now }
{
    begins_with_sign(line) && begins_with_sign(skip(line, 1)) && !begins_with_sign(skip(line, 2))
}

/// Whether a message or a term begins at a line.
fn is_start(line: &[u8]) -> bool
    ensures { result ≡ is_start line.now }
{
    matches!(line.first(), Some(b'a'..=b'z' | b'A'..=b'Z' | b'-'))
}

/// Whether a text begins with a number sign.
fn begins_with_sign(text: &[u8]) -> bool
    ensures { result ≡ begins_with number_sign text.now }
{
    matches!(text.first(), Some(b'#'))
}
