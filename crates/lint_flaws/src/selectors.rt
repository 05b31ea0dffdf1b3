//! The variables by whose plural category selects choose.
#![tactic(auto)]

ghost use Rattle.std.specs.Prelude.{◌≡◌, option_map};
ghost use Rattle.fluent_ast.specs.Borrowed.{inline_of, positional_of};
ghost use Rattle.lint_findings.specs.Losses as l;

use crate::builtins::returns_number;
use fluent_ast::InlineExpression;

/// The variable whose plural category a selector has.
pub fn counted<'s>(selector: &InlineExpression<&'s str>) -> Option<&'s str>
    ensures { option_map (λ s. s.now) result ≡ l.counted (inline_of selector.now) }
{
    match selector {
        InlineExpression::VariableReference { id } => Some(id.name),
        InlineExpression::FunctionReference { id, arguments } => {
            if returns_number(id.name) {
                first_variable(&arguments.positional)
            } else {
                None
            }
        }
        _ => None,
    }
}

fn first_variable<'s>(arguments: &[InlineExpression<&'s str>]) -> Option<&'s str>
    ensures { option_map (λ s. s.now) result ≡ l.first_variable (positional_of arguments.now) }
{
    match arguments.first() {
        Some(InlineExpression::VariableReference { id }) => Some(id.name),
        _ => None,
    }
}
