//! The pieces of a written text, and the indents before them.

ghost use Rattle.std.specs.Prelude.{◌≡◌, ◌+◌, ◌++◌, [], ◌∷◌, false, OnOk, IfOk, string_bytes};
ghost use Rattle.fluent_grammar.specs.Written as written;
ghost use Rattle.fluent_grammar.specs.Written.{default_mark, ends_line, indent, new_line, sign};
ghost use Rattle.fluent_serializer.specs.Writing.{Writes, with_indent};

use std::alloc::AllocError;

/// The level this many levels in. One past the largest number counts as memory that ran out, since
/// its indent is longer than any text.
pub(crate) fn deeper(level: usize, by: usize) -> Result<usize, AllocError>
    ensures { IfOk result (λ deep. deep ≡ level + by) }
{
    level.checked_add(by).ok_or(AllocError)
}

/// Whether a text ends in a line feed.
#[inline(always)]
fn is_at_line_start(text: &str) -> bool
    ensures { result ≡ ends_line false text.now }
{
    match text.as_bytes() {
        [.., last] => *last == b'\n',
        [] => false,
    }
}

/// Whether a piece takes an indent if a line feed stands before it.
#[inline(always)]
fn takes_indent(piece: &str) -> bool
    ensures { result ≡ written.takes_indent piece.now }
{
    match piece.as_bytes() {
        [first, ..] => *first != b'\n',
        [] => false,
    }
}

fn write_indent(out: &mut String, level: usize) -> Result<(), AllocError>
    ensures { OnOk result (string_bytes out.new ≡ string_bytes out.old ++ indent level) }
{
    for _ in 0..level {
        out.push_str("    ")?;
    }
    Ok(())
}

/// Writes the indent that a piece takes after what is written.
#[inline(always)]
fn write_indent_before(out: &mut String, level: usize, piece: &str) -> Result<(), AllocError>
    ensures { OnOk result (string_bytes out.new
        ≡ with_indent (string_bytes out.old) level piece.now) }
{
    if is_at_line_start(out.as_str()) && takes_indent(piece) {
        return write_indent(out, level);
    }
    Ok(())
}

/// Writes a sign or a text, after an indent if it begins a line.
///
/// It is inlined, so that most of it falls away if the sign is known.
#[inline(always)]
pub(crate) fn write_piece(out: &mut String, level: usize, piece: &str) -> Result<(), AllocError>
    ensures { Writes result out.old out.new (sign level piece.now ∷ []) }
{
    write_indent_before(out, level, piece)?;
    out.push_str(piece)
}

#[inline(always)]
pub(crate) fn write_new_line(out: &mut String) -> Result<(), AllocError>
    ensures { Writes result out.old out.new (new_line ∷ []) }
{
    write_piece(out, 0, "\n")
}

/// Writes the mark of a default variant below this level, in the place of the last space of the
/// variant's indent.
pub(crate) fn write_default_mark(out: &mut String, level: usize) -> Result<(), AllocError>
    ensures { Writes result out.old out.new (default_mark (level + 1) ∷ []) }
{
    write_indent(out, level)?;
    out.push_str("   *")
}
