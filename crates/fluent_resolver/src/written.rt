//! Patterns that are written to a program's own writer, piece by piece.

ghost use Rattle.std.specs.Prelude.{◌≡◌, ◌++◌, OnErr, OnOk, false};
ghost use Rattle.fluent_resolver.specs.Pieces.{WritesPiece, WritesPieces};

use crate::pattern::write_placeable;
use fluent_ast::{Expression, Pattern, PatternElement};
use fluent_progress::{Context, Progress, Surroundings};
use fluent_text::{TextWrite, WriteError};
use fluent_value::FluentType;

/// Writes a pattern: each text and each placeable of it is a piece.
///
/// # Errors
/// [`Writer`](WriteError::Writer) if the writer refuses a piece, [`Memory`](WriteError::Memory) if
/// memory runs out. The writer took the pieces before.
pub fn write_pieces<'b, 'r, 's, 'a, W, C, F, E>(
    w: &mut W,
    place: &Surroundings<'b, 'r, 's, 'a, C, F, E>,
    progress: &mut Progress<'r, 's>,
    pattern: &'r Pattern<&'s str>,
) -> Result<(), WriteError>
where
    W: TextWrite,
    C: FluentType + Drop,
    E: Context<C, F>,
    ensures { WritesPieces W.text result w.old w.new place.now progress.old progress.new pattern.now }
{
    for element in &pattern.elements {
        if progress.dirty {
            return Ok(());
        }
        match element {
            PatternElement::TextElement { value } => write_text(w, place.context, *value)?,
            PatternElement::Placeable { expression } => {
                write_piece(w, place, progress, pattern, expression)?
            }
        }
    }
    Ok(())
}

/// Writes a text of a pattern, or nothing of it.
fn write_text<W: TextWrite, C: FluentType, F, E: Context<C, F>>(
    w: &mut W,
    context: &E,
    text: &str,
) -> Result<(), WriteError>
    ensures wrote { OnOk result (W.text w.new ≡ W.text w.old ++ (E.environment context.now).transformed text.now) }
    ensures refused { OnErr result (W.text w.new ≡ W.text w.old) }
{
    let text = context.transform(text)?;
    w.write_str(text.as_str())?;
    Ok(())
}

/// Writes a placeable of a pattern, or nothing of it.
fn write_piece<'b, 'r, 's, 'a, W, C, F, E>(
    w: &mut W,
    place: &Surroundings<'b, 'r, 's, 'a, C, F, E>,
    progress: &mut Progress<'r, 's>,
    whole: &'r Pattern<&'s str>,
    expression: &'r Expression<&'s str>,
) -> Result<(), WriteError>
where
    W: TextWrite,
    C: FluentType + Drop,
    E: Context<C, F>,
    requires { progress.now.dirty ≡ false }
    ensures { WritesPiece W.text result w.old w.new place.now progress.old progress.new whole.now expression.now }
{
    let mut piece = String::new(place.context.alloc());
    write_placeable(&mut piece, place, progress, whole, expression)?;
    w.write_str(piece.as_str())?;
    Ok(())
}
