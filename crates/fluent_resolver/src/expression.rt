//! Expressions that are written.

ghost use Rattle.std.specs.Prelude.{◌≡◌};
ghost use Rattle.fluent_ast.specs.Borrowed.{inline_of};
ghost use Rattle.fluent_resolver.specs.Finds.{Chooses};
ghost use Rattle.fluent_resolver.specs.Steps.{call_of, term_reference_of};
ghost use Rattle.fluent_resolver.specs.Writes.{WritesExpression, WritesInline, WritesSelect};

use crate::arguments::{call_result, own_arguments};
use crate::pattern::{write_pattern, write_target};
use crate::value::value_of;
use fluent_ast::{CallArguments, Expression, Identifier, InlineExpression, Pattern, Variant};
use fluent_errors::{ReferenceKind, ResolverError};
use fluent_progress::braces::innermost;
use fluent_progress::fallback::fall_back;
use fluent_progress::text::write_literal;
use fluent_progress::value::{write_number, write_result};
use fluent_progress::variant::chosen;
use fluent_progress::{Context, Progress, Surroundings};
use fluent_value::FluentType;
use std::alloc::AllocError;

/// Writes an expression.
///
/// # Errors
/// [`AllocError`] if memory runs out; `out` may hold a part of the text, and the first of the
/// errors are reported.
#[cycle(resolving)]
pub fn write_expression<'b, 'r, 's, 'a, C: FluentType + Drop, F, E: Context<C, F>>(
    out: &mut String,
    place: &Surroundings<'b, 'r, 's, 'a, C, F, E>,
    progress: &mut Progress<'r, 's>,
    expression: &'r Expression<&'s str>,
) -> Result<(), AllocError>
    ensures { WritesExpression result out.old out.new place.now progress.old progress.new expression.now }
{
    match expression {
        Expression::Select { selector, variants } => {
            write_select(out, place, progress, selector, variants)
        }
        Expression::Inline(inline) => write_inline(out, place, progress, inline),
    }
}

/// Writes the variant of a select that is chosen.
#[cycle(resolving)]
fn write_select<'b, 'r, 's, 'a, C: FluentType + Drop, F, E: Context<C, F>>(
    out: &mut String,
    place: &Surroundings<'b, 'r, 's, 'a, C, F, E>,
    progress: &mut Progress<'r, 's>,
    selector: &'r InlineExpression<&'s str>,
    variants: &'r Vec<Variant<&'s str>>,
) -> Result<(), AllocError>
    ensures { WritesSelect result out.old out.new place.now progress.old progress.new selector.now variants.now }
{
    match choose(place, progress, selector, variants)? {
        Some(pattern) => {
            progress.count_entry();
            write_pattern(out, place, progress, pattern)
        }
        None => progress.add_error(ResolverError::MissingDefault),
    }
}

/// The variant of a select that is chosen.
#[cycle(resolving)]
fn choose<'b, 'r, 's, 'a, C: FluentType + Drop, F, E: Context<C, F>>(
    place: &Surroundings<'b, 'r, 's, 'a, C, F, E>,
    progress: &mut Progress<'r, 's>,
    selector: &'r InlineExpression<&'s str>,
    variants: &'r Vec<Variant<&'s str>>,
) -> Result<Option<&'r Pattern<&'s str>>, AllocError>
    ensures { Chooses result place.now progress.old progress.new selector.now variants.now }
{
    let value = value_of(place, progress, selector)?;
    Ok(chosen(place.context, &value, variants))
}

/// Writes an inline expression.
///
/// # Errors
/// [`AllocError`] if memory runs out; `out` may hold a part of the text, and the first of the
/// errors are reported.
#[cycle(resolving)]
pub fn write_inline<'b, 'r, 's, 'a, C: FluentType + Drop, F, E: Context<C, F>>(
    out: &mut String,
    place: &Surroundings<'b, 'r, 's, 'a, C, F, E>,
    progress: &mut Progress<'r, 's>,
    inline: &'r InlineExpression<&'s str>,
) -> Result<(), AllocError>
    ensures { WritesInline result out.old out.new place.now progress.old progress.new inline.now }
{
    match inline {
        InlineExpression::StringLiteral { value } => write_literal(out, *value),
        InlineExpression::NumberLiteral { value } => write_number(out, place.context, *value),
        InlineExpression::FunctionReference { id, arguments } => {
            write_call(out, place, progress, inline, id, arguments)
        }
        InlineExpression::MessageReference { id, attribute } => {
            let target = place.message_target(id, attribute)?;
            write_target(out, place, progress, inline, target)
        }
        InlineExpression::TermReference {
            id,
            attribute,
            arguments,
        } => write_term(out, place, progress, inline, id, attribute, arguments),
        InlineExpression::VariableReference { id } => { place.write_variable(out, progress, id) }
        InlineExpression::Placeable { expression } => {
            write_expression(out, place, progress, innermost(expression))
        }
    }
}

/// Writes a call, whose function is known or not.
#[cycle(resolving)]
fn write_call<'b, 'r, 's, 'a, C: FluentType + Drop, F, E: Context<C, F>>(
    out: &mut String,
    place: &Surroundings<'b, 'r, 's, 'a, C, F, E>,
    progress: &mut Progress<'r, 's>,
    inline: &'r InlineExpression<&'s str>,
    id: &'r Identifier<&'s str>,
    arguments: &'r CallArguments<&'s str>,
) -> Result<(), AllocError>
    requires { inline_of inline.now ≡ call_of id.now arguments.now }
    ensures { WritesInline result out.old out.new place.now progress.old progress.new inline.now }
{
    match call_result(place, progress, id, arguments)? {
        Some(result) => write_result(out, place.context, id.name, &result),
        None => {
            let id = String::from_str(place.context.alloc(), id.name)?;
            let error = ResolverError::Reference(ReferenceKind::Function { id });
            fall_back(out, progress, inline, error)
        }
    }
}

/// Writes a term reference: its own arguments are the only ones inside it.
#[cycle(resolving)]
fn write_term<'b, 'r, 's, 'a, C: FluentType + Drop, F, E: Context<C, F>>(
    out: &mut String,
    place: &Surroundings<'b, 'r, 's, 'a, C, F, E>,
    progress: &mut Progress<'r, 's>,
    inline: &'r InlineExpression<&'s str>,
    id: &'r Identifier<&'s str>,
    attribute: &'r Option<Identifier<&'s str>>,
    arguments: &'r Option<CallArguments<&'s str>>,
) -> Result<(), AllocError>
    requires { inline_of inline.now ≡ term_reference_of id.now attribute.now arguments.now }
    ensures { WritesInline result out.old out.new place.now progress.old progress.new inline.now }
{
    let own = own_arguments(place, progress, arguments)?;
    let target = place.term_target(id, attribute)?;
    let term = Surroundings {
        ids: place.ids,
        context: place.context,
        arguments: place.arguments,
        locals: Some(&own),
    };
    write_target(out, &term, progress, inline, target)
}
