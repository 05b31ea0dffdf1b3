//! What stands in the place of an expression that has no text.

ghost use Rattle.std.specs.Prelude.{◌≡◌, ◌∷◌, ◌++◌, []};
ghost use Rattle.fluent_ast.specs.Borrowed.{expression_of, inline_of};
ghost use Rattle.fluent_errors.specs.View.{resolver_view};
ghost use Rattle.fluent_grammar.specs.Words.{quote};
ghost use Rattle.fluent_meaning.specs.Fallback.{braced, fallback, inline_fallback, with_attribute};
ghost use Rattle.fluent_meaning.specs.Work.{times_too_many};
ghost use Rattle.fluent_progress.specs.Resolves.{Appends, TellsOnErr, Writes, fallback_step};
ghost use Rattle.fluent_progress.specs.Results.{found_name};

use crate::progress::Progress;
use fluent_ast::{Expression, Identifier, InlineExpression};
use fluent_errors::ResolverError;
use std::alloc::AllocError;

/// Writes the fallback of an expression: of a select that of its selector.
fn write_fallback(out: &mut String, expression: &Expression<&str>) -> Result<(), AllocError>
    ensures { Appends result out.old out.new (fallback (expression_of expression.now)) }
{
    match expression {
        Expression::Select {
            selector,
            variants: _,
        } => write_inline_fallback(out, selector),
        Expression::Inline(inline) => write_inline_fallback(out, inline),
    }
}

/// Writes the fallback of an inline expression. It is a loop, so any number of braces around it
/// takes the same of the machine's stack.
fn write_inline_fallback(
    out: &mut String,
    inline: &InlineExpression<&str>,
) -> Result<(), AllocError>
    ensures { Appends result out.old out.new (inline_fallback (inline_of inline.now)) }
{
    let mut inner = inline;
    loop {
        match inner {
            InlineExpression::StringLiteral { value } => return write_quoted(out, *value),
            InlineExpression::NumberLiteral { value } => return out.push_str(*value),
            InlineExpression::FunctionReference { id, arguments: _ } => {
                out.push_str(id.name)?;
                return out.push_str("()");
            }
            InlineExpression::MessageReference { id, attribute } => {
                return write_name(out, id.name, attribute.as_ref());
            }
            InlineExpression::TermReference {
                id,
                attribute,
                arguments: _,
            } => {
                out.push_str("-")?;
                return write_name(out, id.name, attribute.as_ref());
            }
            InlineExpression::VariableReference { id } => {
                out.push_str("$")?;
                return out.push_str(id.name);
            }
            InlineExpression::Placeable { expression } => {
                inner = match &**expression {
                    Expression::Select {
                        selector,
                        variants: _,
                    } => selector,
                    Expression::Inline(inline) => inline,
                };
            }
        }
    }
}

/// Writes the raw text of a string literal between quotes.
fn write_quoted(out: &mut String, raw: &str) -> Result<(), AllocError>
    ensures { Appends result out.old out.new (quote ∷ raw.now ++ quote ∷ []) }
{
    out.push_str("\"")?;
    out.push_str(raw)?;
    out.push_str("\"")
}

/// Writes a name, and after a dot the attribute that a reference names.
fn write_name(
    out: &mut String,
    name: &str,
    attribute: Option<&Identifier<&str>>,
) -> Result<(), AllocError>
    ensures { Appends result out.old out.new (with_attribute name.now (found_name attribute.entry)) }
{
    out.push_str(name)?;
    match attribute {
        Some(attribute) => {
            out.push_str(".")?;
            out.push_str(attribute.name)
        }
        None => Ok(()),
    }
}

/// Writes the fallback of an expression in braces.
///
/// # Errors
/// [`AllocError`] if memory runs out; `out` may hold a part of the text.
pub fn write_braced(out: &mut String, expression: &Expression<&str>) -> Result<(), AllocError>
    ensures { Appends result out.old out.new (braced (fallback (expression_of expression.now))) }
{
    out.push_str("{")?;
    write_fallback(out, expression)?;
    out.push_str("}")
}

/// Writes the fallback of an inline expression in braces.
///
/// # Errors
/// [`AllocError`] if memory runs out; `out` may hold a part of the text.
pub fn write_inline_braced(
    out: &mut String,
    inline: &InlineExpression<&str>,
) -> Result<(), AllocError>
    ensures { Appends result out.old out.new (braced (inline_fallback (inline_of inline.now))) }
{
    out.push_str("{")?;
    write_inline_fallback(out, inline)?;
    out.push_str("}")
}

/// Reports an error, which isn't that of too many placeables, and writes the fallback of an inline
/// expression in braces.
///
/// # Errors
/// [`AllocError`] if memory runs out; the path is unchanged, and the error may be reported.
pub fn fall_back(
    out: &mut String,
    progress: &mut Progress<'_, '_>,
    inline: &InlineExpression<&str>,
    error: ResolverError,
) -> Result<(), AllocError>
    requires { times_too_many (resolver_view error ∷ []) ≡ 0 }
    ensures wrote { Writes result out.old out.new progress.old progress.new
        (fallback_step inline.now error) }
    ensures refused { TellsOnErr result progress.old progress.new
        (fallback_step inline.now error) }
    ensures path { progress.new.path ≡ progress.old.path }
    ensures stack { progress.new.stack ≡ progress.old.stack }
{
    progress.add_error(error)?;
    write_inline_braced(out, inline)
}
