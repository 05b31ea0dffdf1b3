//! Texts of patterns and string literals.

ghost use Rattle.std.specs.Prelude.{◌≡◌, IfOk};
ghost use Rattle.fluent_grammar.specs.Escapes.{unescaped};
ghost use Rattle.fluent_progress.specs.Resolves.{Appends};
ghost use Rattle.fluent_value.specs.Value.{text};
ghost use Rattle.fluent_value.specs.View.{value_view};

use crate::context::Context;
use fluent_tokens::unicode::{unescape_unicode, unescape_unicode_to_string};
use fluent_value::{FluentType, FluentValue};
use std::alloc::{AllocError, Global};

/// Writes a text of a pattern.
///
/// # Errors
/// [`AllocError`] if memory runs out; `out` is unchanged.
pub fn write_text<C: FluentType, F, E: Context<C, F>>(
    out: &mut String,
    context: &E,
    text: &str,
) -> Result<(), AllocError>
    ensures { Appends result out.old out.new ((E.environment context.now).transformed text.now) }
{
    let text = context.transform(text)?;
    out.push_str(text.as_str())
}

/// Writes what the raw text of a string literal stands for.
///
/// # Errors
/// [`AllocError`] if memory runs out; `out` may hold a part of the text.
pub fn write_literal(out: &mut String, raw: &str) -> Result<(), AllocError>
    ensures { Appends result out.old out.new (unescaped raw.now) }
{
    match unescape_unicode(out, raw) {
        Ok(()) => Ok(()),
        Err(_) => Err(AllocError),
    }
}

/// What the raw text of a string literal stands for, as a value. A text without escapes is
/// borrowed.
///
/// # Errors
/// [`AllocError`] if memory runs out; nothing is kept.
pub fn literal_value<'s, C: FluentType>(
    alloc: Global,
    raw: &'s str,
) -> Result<FluentValue<'s, C>, AllocError>
    ensures { IfOk result (λ value. value_view C.meaning value ≡ text (unescaped raw.now)) }
{
    Ok(FluentValue::String(unescape_unicode_to_string(alloc, raw)?))
}
