//! Writing inline expressions and the arguments of calls.

ghost use Rattle.std.specs.Prelude.{false};
ghost use Rattle.fluent_grammar.specs.Written.{arguments_signs, inline_signs, inlines_signs, nameds_signs};
ghost use Rattle.fluent_ast.specs.View.{arguments_view, inline_view, inlines_view, nameds_view};
ghost use Rattle.fluent_serializer.specs.Writing.{Writes};

use crate::expressions::write_expression;
use crate::names::{write_accessor, write_argument_name, write_name, write_separator};
use crate::pieces::write_piece;
use fluent_ast::{CallArguments, InlineExpression, NamedArgument};
use fluent_text::Texts;
use std::alloc::AllocError;

/// Writes an inline expression anywhere but directly in a placeable of a pattern.
#[cycle(writing)]
pub(crate) fn write_inline<S: Drop, T: Texts<S>>(
    out: &mut String,
    level: usize,
    texts: &T,
    inline: &InlineExpression<S>,
) -> Result<(), AllocError>
    ensures { Writes result out.old out.new (inline_signs level (inline_view S T.text inline.now)) }
{
    match inline {
        InlineExpression::StringLiteral { value } => {
            write_piece(out, level, "\"")?;
            write_piece(out, level, texts.as_str(value))?;
            write_piece(out, level, "\"")
        }
        InlineExpression::NumberLiteral { value } => write_piece(out, level, texts.as_str(value)),
        InlineExpression::FunctionReference { id, arguments } => {
            write_name(out, level, texts, id)?;
            write_arguments(out, level, texts, arguments)
        }
        InlineExpression::MessageReference { id, attribute } => {
            write_name(out, level, texts, id)?;
            write_accessor(out, level, texts, attribute)
        }
        InlineExpression::TermReference {
            id,
            attribute,
            arguments,
        } => {
            write_piece(out, level, "-")?;
            write_name(out, level, texts, id)?;
            write_accessor(out, level, texts, attribute)?;
            match arguments {
                Some(arguments) => write_arguments(out, level, texts, arguments),
                None => Ok(()),
            }
        }
        InlineExpression::VariableReference { id } => {
            write_piece(out, level, "$")?;
            write_name(out, level, texts, id)
        }
        InlineExpression::Placeable { expression } => {
            write_piece(out, level, "{")?;
            write_expression(out, level, texts, expression)?;
            write_piece(out, level, "}")
        }
    }
}

/// Writes the arguments of a call, those without a name first.
#[cycle(writing)]
fn write_arguments<S: Drop, T: Texts<S>>(
    out: &mut String,
    level: usize,
    texts: &T,
    arguments: &CallArguments<S>,
) -> Result<(), AllocError>
    ensures { Writes result out.old out.new
        (arguments_signs level (arguments_view S T.text arguments.now)) }
{
    write_piece(out, level, "(")?;
    write_positional(out, level, texts, &arguments.positional)?;
    let after = !arguments.positional.is_empty();
    write_all_named(out, level, texts, after, &arguments.named)?;
    write_piece(out, level, ")")
}

#[cycle(writing)]
fn write_positional<S: Drop, T: Texts<S>>(
    out: &mut String,
    level: usize,
    texts: &T,
    arguments: &[InlineExpression<S>],
) -> Result<(), AllocError>
    ensures { Writes result out.old out.new
        (inlines_signs level false (inlines_view S T.text arguments.now)) }
{
    let mut after = false;
    for argument in arguments {
        write_separator(out, level, after)?;
        write_inline(out, level, texts, argument)?;
        after = true;
    }
    Ok(())
}

/// Writes the arguments with a name; `after` says whether an argument stands before them.
#[cycle(writing)]
fn write_all_named<S: Drop, T: Texts<S>>(
    out: &mut String,
    level: usize,
    texts: &T,
    mut after: bool,
    arguments: &[NamedArgument<S>],
) -> Result<(), AllocError>
    ensures { Writes result out.old out.new
        (nameds_signs level after (nameds_view S T.text arguments.now)) }
{
    for argument in arguments {
        write_argument_name(out, level, texts, after, &argument.name)?;
        write_inline(out, level, texts, &argument.value)?;
        after = true;
    }
    Ok(())
}
