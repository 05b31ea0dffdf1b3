//! What stands round the text of a placeable.

ghost use Rattle.std.specs.Prelude.{◌≡◌, [], if◌then◌else◌, encode_utf8};
ghost use Rattle.fluent_ast.specs.Borrowed.{elements_of, expression_of};
ghost use Rattle.fluent_meaning.specs.Substitution.{is_isolated, several, stands_bare};
ghost use Rattle.fluent_progress.specs.Resolves.{Appends};
ghost use Rattle.fluent_progress.specs.Results.{closing_text};
ghost use Rattle.fluent_progress.specs.Views.{state};

use crate::context::Context;
use crate::fallback::write_braced;
use crate::progress::Progress;
use fluent_ast::{Expression, InlineExpression, Pattern};
use fluent_value::FluentType;
use std::alloc::AllocError;

/// Whether no isolation marks stand round an expression.
fn is_bare(expression: &Expression<&str>) -> bool
    ensures { result ≡ stands_bare (expression_of expression.now) }
{
    match expression {
        Expression::Inline(
            InlineExpression::MessageReference {
                id: _,
                attribute: _,
            },
        ) => true,
        Expression::Inline(
            InlineExpression::TermReference {
                id: _,
                attribute: _,
                arguments: _,
            },
        ) => true,
        Expression::Inline(InlineExpression::StringLiteral { value: _ }) => true,
        _ => false,
    }
}

/// Whether a pattern has more than one element.
fn has_several(pattern: &Pattern<&str>) -> bool
    ensures { result ≡ several (elements_of pattern.now) }
{
    pattern.elements.len() > 1
}

/// Whether a placeable of a pattern stands between isolation marks.
pub fn is_isolated<C: FluentType, F, E: Context<C, F>>(
    context: &E,
    whole: &Pattern<&str>,
    expression: &Expression<&str>,
) -> bool
    ensures { result ≡ is_isolated (E.environment context.now) (elements_of whole.now)
        (expression_of expression.now) }
{
    context.is_isolating() && has_several(whole) && !is_bare(expression)
}

/// Writes the mark before an isolated placeable.
///
/// # Errors
/// [`AllocError`] if memory runs out; `out` is unchanged.
pub fn write_front(out: &mut String, is_isolated: bool) -> Result<(), AllocError>
    ensures { Appends result out.old out.new (if is_isolated then encode_utf8 0x2068 else []) }
{
    if is_isolated {
        out.push_str("\u{2068}")?;
    }
    Ok(())
}

/// Writes the mark after an isolated placeable.
///
/// # Errors
/// [`AllocError`] if memory runs out; `out` is unchanged.
pub fn write_back(out: &mut String, is_isolated: bool) -> Result<(), AllocError>
    ensures { Appends result out.old out.new (if is_isolated then encode_utf8 0x2069 else []) }
{
    if is_isolated {
        out.push_str("\u{2069}")?;
    }
    Ok(())
}

/// Writes the fallback of an expression in braces if one placeable was too many.
///
/// # Errors
/// [`AllocError`] if memory runs out; `out` may hold a part of the text.
pub fn close(
    out: &mut String,
    progress: &Progress<'_, '_>,
    expression: &Expression<&str>,
) -> Result<(), AllocError>
    ensures { Appends result out.old out.new
        (closing_text (state progress.now).budget (expression_of expression.now)) }
{
    if progress.dirty {
        write_braced(out, expression)?;
    }
    Ok(())
}
