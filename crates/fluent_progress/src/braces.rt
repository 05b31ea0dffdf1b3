//! Placeables that hold nothing but a placeable.

ghost use Rattle.std.specs.Prelude.{◌≡◌};
ghost use Rattle.fluent_ast.specs.Borrowed.{expression_of};
ghost use Rattle.fluent_progress.specs.Braces.{innermost};

use fluent_ast::{Expression, InlineExpression};

/// An expression without the braces around it: `"x"` of `{ { "x" } }`. It is a loop, so any number
/// of braces takes the same of the machine's stack.
pub fn innermost<'r, 's>(expression: &'r Expression<&'s str>) -> &'r Expression<&'s str>
    ensures { expression_of result.now ≡ innermost (expression_of expression.now) }
{
    let mut inner = expression;
    while let Expression::Inline(InlineExpression::Placeable { expression }) = inner {
        inner = expression;
    }
    inner
}
