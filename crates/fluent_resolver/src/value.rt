//! The values of expressions, as selectors and arguments.

ghost use Rattle.fluent_resolver.specs.Finds.{FindsText, FindsValue};

use crate::arguments::nested_call;
use crate::expression::write_inline;
use fluent_ast::InlineExpression;
use fluent_progress::text::literal_value;
use fluent_progress::{Context, Progress, Surroundings};
use fluent_text::stack::resolving;
use fluent_value::{FluentType, FluentValue};
use std::alloc::AllocError;
use std::borrow::CowStr;

/// The value of an expression, as a selector or an argument.
///
/// # Errors
/// [`AllocError`] if memory runs out; the first of the errors are reported.
#[cycle(resolving)]
pub fn value_of<'b, 'r, 's, 'a, C: FluentType + Drop, F, E: Context<C, F>>(
    place: &Surroundings<'b, 'r, 's, 'a, C, F, E>,
    progress: &mut Progress<'r, 's>,
    inline: &'r InlineExpression<&'s str>,
) -> Result<FluentValue<'s, C>, AllocError>
    ensures { FindsValue result place.now progress.old progress.new inline.now }
{
    match inline {
        InlineExpression::StringLiteral { value } => literal_value(place.context.alloc(), *value),
        InlineExpression::NumberLiteral { value } => Ok(FluentValue::try_number(*value)),
        InlineExpression::FunctionReference { id, arguments } => {
            match nested_call(place, progress, id, arguments)? {
                Some(result) => Ok(result),
                None => Ok(FluentValue::Error),
            }
        }
        InlineExpression::VariableReference { id } => place.variable_value(progress, id),
        InlineExpression::MessageReference {
            id: _,
            attribute: _,
        }
        | InlineExpression::TermReference {
            id: _,
            attribute: _,
            arguments: _,
        }
        | InlineExpression::Placeable { expression: _ } => { text_value(place, progress, inline) }
    }
}

/// The text that an expression writes, as a value. What such values in each other take of the
/// machine's stack is counted.
#[cycle(resolving)]
fn text_value<'b, 'r, 's, 'a, C: FluentType + Drop, F, E: Context<C, F>>(
    place: &Surroundings<'b, 'r, 's, 'a, C, F, E>,
    progress: &mut Progress<'r, 's>,
    inline: &'r InlineExpression<&'s str>,
) -> Result<FluentValue<'s, C>, AllocError>
    ensures { FindsText result place.now progress.old progress.new inline.now }
{
    progress.open_frames(resolving::TEXT)?;
    let mut text = String::new(place.context.alloc());
    write_inline(&mut text, place, progress, inline)?;
    progress.close_frames(resolving::TEXT);
    Ok(FluentValue::String(CowStr::Owned(text)))
}
