//! Plain expressions: their values and calls are known without resolving a pattern.

ghost use Rattle.std.specs.Prelude.{◌≡◌};
ghost use Rattle.fluent_ast.specs.Borrowed.{inline_of, named_of, positional_of};
ghost use Rattle.fluent_calls.specs.Gathering as of;
ghost use Rattle.fluent_calls.specs.GatheringView.{IsPlainIn};

use fluent_ast::{Expression, InlineExpression, NamedArgument};

/// The plain inline expression that a placeable holds.
pub(crate) fn plain_in<'r, 's>(
    expression: &'r Expression<&'s str>,
) -> Option<&'r InlineExpression<&'s str>>
    ensures { IsPlainIn expression.now result }
{
    match expression {
        Expression::Inline(inline) if is_plain(inline) => Some(inline),
        _ => None,
    }
}

/// Whether an expression is a literal, a variable, or a call whose positional arguments are plain
/// and whose named ones are literals.
#[cycle(plain)]
fn is_plain(inline: &InlineExpression<&str>) -> bool
    ensures { result ≡ of.is_plain (inline_of inline.now) }
{
    match inline {
        InlineExpression::StringLiteral { value: _ }
        | InlineExpression::NumberLiteral { value: _ }
        | InlineExpression::VariableReference { id: _ } => true,
        InlineExpression::FunctionReference { id: _, arguments } => {
            are_plain(&arguments.positional) && are_literals(&arguments.named)
        }
        _ => false,
    }
}

/// Whether all positional arguments are plain.
#[cycle(plain)]
fn are_plain(arguments: &[InlineExpression<&str>]) -> bool
    ensures { result ≡ of.are_plain (positional_of arguments.now) }
{
    for argument in arguments {
        if !is_plain(argument) {
            return false;
        }
    }
    true
}

/// Whether all named arguments are literals, as those of each source are.
fn are_literals(arguments: &[NamedArgument<&str>]) -> bool
    ensures { result ≡ of.are_literals (named_of arguments.now) }
{
    for argument in arguments {
        if !is_literal(&argument.value) {
            return false;
        }
    }
    true
}

fn is_literal(inline: &InlineExpression<&str>) -> bool
    ensures { result ≡ of.is_literal (inline_of inline.now) }
{
    match inline {
        InlineExpression::StringLiteral { value: _ }
        | InlineExpression::NumberLiteral { value: _ } => true,
        _ => false,
    }
}
