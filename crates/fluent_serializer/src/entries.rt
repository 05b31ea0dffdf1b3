//! Writing entries.

ghost use Rattle.std.specs.Prelude.{◌≡◌, ℕ, List, [], ◌∷◌, false, option_map};
ghost use Rattle.fluent_grammar.specs.Written as written;
ghost use Rattle.fluent_grammar.specs.Written.{attributes_signs, comment_signs, comment_text_signs, entries_signs, entry_signs, free_comment_signs, gap_signs, message_signs, own_comment_signs, term_signs, value_signs};
ghost use Rattle.fluent_ast.specs.View.{attribute_view, attributes_view, comment_view, entry_view, message_view, pattern_view, resource_view, term_view};
ghost use Rattle.fluent_serializer.specs.Writing.{Writes};

use crate::Options;
use crate::expressions::write_pattern;
use crate::pieces::{write_new_line, write_piece};
use fluent_ast::{Attribute, Comment, Entry, Message, Pattern, Resource, Term};
use fluent_text::{Slice, Slices};
use std::alloc::AllocError;

/// Writes what is after the sign of a comment's line: nothing if the line is empty or white space
/// alone.
fn write_comment_text(out: &mut String, line: &str) -> Result<(), AllocError>
    ensures { Writes result out.old out.new (comment_text_signs line.now) }
{
    if line.trim_end().is_empty() {
        return Ok(());
    }
    write_piece(out, 0, " ")?;
    write_piece(out, 0, line)
}

fn write_comment_line(out: &mut String, sign: &str, line: &str) -> Result<(), AllocError>
    ensures { Writes result out.old out.new (comment_signs sign.now (line.now ∷ [])) }
{
    write_piece(out, 0, sign)?;
    write_comment_text(out, line)?;
    write_new_line(out)
}

/// Writes the lines of a comment, each after its sign.
pub(crate) fn write_comment<'s, S: Slice<'s>>(
    out: &mut String,
    sign: &str,
    comment: &Comment<S>,
) -> Result<(), AllocError>
    ensures { Writes result out.old out.new
        (comment_signs sign.now (comment_view S S.text comment.now)) }
{
    for line in &comment.content {
        write_comment_line(out, sign, line.as_str())?;
    }
    Ok(())
}

/// Writes the comment of a message or a term.
fn write_own_comment<'s, S: Slice<'s>>(
    out: &mut String,
    comment: &Option<Comment<S>>,
) -> Result<(), AllocError>
    ensures { Writes result out.old out.new
        (own_comment_signs (option_map (comment_view S S.text) comment.now)) }
{
    match comment {
        Some(comment) => write_comment(out, "#", comment),
        None => Ok(()),
    }
}

/// Writes the line feed before a comment that stands by itself after another entry.
pub(crate) fn write_gap(out: &mut String, after: bool) -> Result<(), AllocError>
    ensures { Writes result out.old out.new (gap_signs after) }
{
    if after {
        return write_new_line(out);
    }
    Ok(())
}

/// Writes a comment that stands by itself; `after` says whether an entry that isn't junk stands
/// right before it.
fn write_free_comment<'s, S: Slice<'s>>(
    out: &mut String,
    after: bool,
    sign: &str,
    comment: &Comment<S>,
) -> Result<(), AllocError>
    ensures { Writes result out.old out.new
        (free_comment_signs after sign.now (comment_view S S.text comment.now)) }
{
    write_gap(out, after)?;
    write_comment(out, sign, comment)?;
    write_new_line(out)
}

fn write_attribute<'s, S: Slice<'s>>(
    out: &mut String,
    attribute: &Attribute<S>,
) -> Result<(), AllocError>
    ensures { Writes result out.old out.new
        (attributes_signs (attribute_view S S.text attribute.now ∷ [])) }
{
    write_new_line(out)?;
    write_piece(out, 1, ".")?;
    write_piece(out, 1, attribute.id.name.as_str())?;
    write_piece(out, 1, " =")?;
    write_pattern(out, 2, &Slices::new(), &attribute.value)
}

fn write_attributes<'s, S: Slice<'s>>(
    out: &mut String,
    attributes: &[Attribute<S>],
) -> Result<(), AllocError>
    ensures { Writes result out.old out.new
        (attributes_signs (attributes_view S S.text attributes.now)) }
{
    for attribute in attributes {
        write_attribute(out, attribute)?;
    }
    Ok(())
}

fn write_value<'s, S: Slice<'s>>(
    out: &mut String,
    value: &Option<Pattern<S>>,
) -> Result<(), AllocError>
    ensures { Writes result out.old out.new
        (value_signs (option_map (pattern_view S S.text) value.now)) }
{
    match value {
        Some(value) => write_pattern(out, 1, &Slices::new(), value),
        None => Ok(()),
    }
}

pub(crate) fn write_message<'s, S: Slice<'s>>(
    out: &mut String,
    message: &Message<S>,
) -> Result<(), AllocError>
    ensures { Writes result out.old out.new (message_signs (message_view S S.text message.now)) }
{
    write_own_comment(out, &message.comment)?;
    write_piece(out, 0, message.id.name.as_str())?;
    write_piece(out, 0, " =")?;
    write_value(out, &message.value)?;
    write_attributes(out, &message.attributes)?;
    write_new_line(out)
}

pub(crate) fn write_term<'s, S: Slice<'s>>(
    out: &mut String,
    term: &Term<S>,
) -> Result<(), AllocError>
    ensures { Writes result out.old out.new (term_signs (term_view S S.text term.now)) }
{
    write_own_comment(out, &term.comment)?;
    write_piece(out, 0, "-")?;
    write_piece(out, 0, term.id.name.as_str())?;
    write_piece(out, 0, " =")?;
    write_pattern(out, 1, &Slices::new(), &term.value)?;
    write_attributes(out, &term.attributes)?;
    write_new_line(out)
}

/// Writes an entry; `after` says whether one that isn't junk stands right before it.
fn write_entry<'s, S: Slice<'s>>(
    out: &mut String,
    options: Options,
    after: bool,
    entry: &Entry<S>,
) -> Result<(), AllocError>
    ensures { Writes result out.old out.new
        (entry_signs options.with_junk after (entry_view S S.text entry.now)) }
{
    match entry {
        Entry::Message(message) => write_message(out, message),
        Entry::Term(term) => write_term(out, term),
        Entry::Comment(comment) => write_free_comment(out, after, "#", comment),
        Entry::GroupComment(comment) => write_free_comment(out, after, "##", comment),
        Entry::ResourceComment(comment) => write_free_comment(out, after, "###", comment),
        Entry::Junk { content } if options.with_junk => write_piece(out, 0, content.as_str()),
        Entry::Junk { content: _ } => Ok(()),
    }
}

fn is_no_junk<S>(entry: &Entry<S>) -> bool
    ensures { (text_of : S → List ℕ) → result ≡ written.is_no_junk
        (entry_view S text_of entry.now) }
{
    !matches!(entry, Entry::Junk { content: _ })
}

/// Writes the entries of a tree.
pub(crate) fn write_entries<'s, S: Slice<'s>>(
    out: &mut String,
    options: Options,
    resource: &Resource<S>,
) -> Result<(), AllocError>
    ensures { Writes result out.old out.new
        (entries_signs options.with_junk false (resource_view S S.text resource.now)) }
{
    let mut after = false;
    for entry in &resource.body {
        write_entry(out, options, after, entry)?;
        after = is_no_junk(entry);
    }
    Ok(())
}
