//! Patterns, their placeables, and references to them.

ghost use Rattle.std.specs.Prelude.{◌≡◌, false};
ghost use Rattle.fluent_resolver.specs.Writes.{WritesInside, WritesPattern, WritesPlaceable, WritesReference, WritesTarget};

use crate::expression::write_expression;
use fluent_ast::{Expression, InlineExpression, Pattern, PatternElement};
use fluent_errors::ResolverError;
use fluent_progress::fallback::fall_back;
use fluent_progress::marks::{close, is_isolated, write_back, write_front};
use fluent_progress::text::write_text;
use fluent_progress::{Context, Progress, Surroundings, Target};
use fluent_value::FluentType;
use std::alloc::AllocError;

/// Writes a pattern.
///
/// # Errors
/// [`AllocError`] if memory runs out; `out` may hold a part of the text, and the first of the
/// errors are reported.
#[cycle(resolving)]
pub fn write_pattern<'b, 'r, 's, 'a, C: FluentType + Drop, F, E: Context<C, F>>(
    out: &mut String,
    place: &Surroundings<'b, 'r, 's, 'a, C, F, E>,
    progress: &mut Progress<'r, 's>,
    pattern: &'r Pattern<&'s str>,
) -> Result<(), AllocError>
    ensures { WritesPattern result out.old out.new place.now progress.old progress.new pattern.now }
{
    for element in &pattern.elements {
        if progress.dirty {
            return Ok(());
        }
        match element {
            PatternElement::TextElement { value } => write_text(out, place.context, *value)?,
            PatternElement::Placeable { expression } => {
                write_placeable(out, place, progress, pattern, expression)?
            }
        }
    }
    Ok(())
}

/// Writes a placeable of a pattern: it counts one.
///
/// # Errors
/// [`AllocError`] if memory runs out; `out` may hold a part of the text, and the first of the
/// errors are reported.
#[cycle(resolving)]
pub fn write_placeable<'b, 'r, 's, 'a, C: FluentType + Drop, F, E: Context<C, F>>(
    out: &mut String,
    place: &Surroundings<'b, 'r, 's, 'a, C, F, E>,
    progress: &mut Progress<'r, 's>,
    whole: &'r Pattern<&'s str>,
    expression: &'r Expression<&'s str>,
) -> Result<(), AllocError>
    requires { progress.now.dirty ≡ false }
    ensures { WritesPlaceable result out.old out.new place.now progress.old progress.new whole.now expression.now }
{
    if !progress.open_placeable()? {
        return Ok(());
    }
    let is_isolated = is_isolated(place.context, whole, expression);
    write_front(out, is_isolated)?;
    write_opened(out, place, progress, whole, expression)?;
    write_back(out, is_isolated)
}

/// Writes a placeable of a pattern that was opened before, without its isolation marks. The first
/// pattern in which one opens goes on the path.
///
/// # Errors
/// [`AllocError`] if memory runs out; `out` may hold a part of the text, and the first of the
/// errors are reported.
#[cycle(resolving)]
pub fn write_opened<'b, 'r, 's, 'a, C: FluentType + Drop, F, E: Context<C, F>>(
    out: &mut String,
    place: &Surroundings<'b, 'r, 's, 'a, C, F, E>,
    progress: &mut Progress<'r, 's>,
    whole: &'r Pattern<&'s str>,
    expression: &'r Expression<&'s str>,
) -> Result<(), AllocError>
    ensures { WritesInside result out.old out.new place.now progress.old progress.new whole.now expression.now }
{
    let is_root = progress.enter_root(whole);
    write_expression(out, place, progress, expression)?;
    progress.leave_root(is_root);
    close(out, progress, expression)
}

/// Writes what a reference gives: the pattern that it means, or its fallback.
#[cycle(resolving)]
pub(crate) fn write_target<'b, 'r, 's, 'a, C: FluentType + Drop, F, E: Context<C, F>>(
    out: &mut String,
    place: &Surroundings<'b, 'r, 's, 'a, C, F, E>,
    progress: &mut Progress<'r, 's>,
    inline: &'r InlineExpression<&'s str>,
    target: Target<'r, 's>,
) -> Result<(), AllocError>
    ensures { WritesTarget result out.old out.new place.now progress.old progress.new inline.now target.entry }
{
    match target {
        Target::There(pattern) => write_referred(out, place, progress, inline, pattern),
        Target::Unknown(kind) => {
            fall_back(out, progress, inline, ResolverError::Reference(kind))
        }
        Target::NoValue(id) => fall_back(out, progress, inline, ResolverError::NoValue(id)),
    }
}

/// Writes a pattern that an expression refers to.
///
/// # Errors
/// [`AllocError`] if memory runs out; `out` may hold a part of the text, and the first of the
/// errors are reported.
#[cycle(resolving)]
pub fn write_referred<'b, 'r, 's, 'a, C: FluentType + Drop, F, E: Context<C, F>>(
    out: &mut String,
    place: &Surroundings<'b, 'r, 's, 'a, C, F, E>,
    progress: &mut Progress<'r, 's>,
    inline: &'r InlineExpression<&'s str>,
    pattern: &'r Pattern<&'s str>,
) -> Result<(), AllocError>
    ensures { WritesReference result out.old out.new place.now progress.old progress.new inline.now pattern.now }
{
    if progress.is_entered(pattern) {
        return fall_back(out, progress, inline, ResolverError::Cyclic);
    }
    progress.count_entry();
    progress.enter_path(pattern)?;
    write_pattern(out, place, progress, pattern)?;
    progress.leave_path();
    Ok(())
}
