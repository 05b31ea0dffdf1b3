//! The hints of differences: the variables of the reference that may be meant.
#![tactic(auto)]

ghost use Rattle.std.specs.Prelude.{IfOk};
ghost use Rattle.lint_comparison.specs.Hinted.{IsHintBy, IsVariableHint};
ghost use Rattle.lint_nodes.specs.HasNames.{is_in_set};
ghost use Rattle.lint_findings.specs.DifferenceView.{difference_view};

use lint_findings::Difference;
use lint_flaws::{KnownNames, near_hint};
use lint_nodes::Names;
use std::alloc::{AllocError, Global};

/// The hint of a difference, if the message of the reference is shown with these variables.
///
/// # Errors
/// [`AllocError`] if memory runs out; nothing is kept.
pub fn difference_hint(
    alloc: Global,
    variables: &Names<'_>,
    difference: &Difference<'_>,
) -> Result<Option<String>, AllocError>
    ensures { IfOk result (IsHintBy variables.now (difference_view difference.now)) }
{
    match *difference {
        Difference::UnknownVariable(name) => variable_hint(alloc, variables, name),
        _ => Ok(None),
    }
}

/// The hint of a variable that is none of these.
fn variable_hint(
    alloc: Global,
    variables: &Names<'_>,
    name: &str,
) -> Result<Option<String>, AllocError>
    ensures { IfOk result (IsVariableHint variables.now name.now) }
{
    near_hint(alloc, "$", &Variables { names: variables }, name)
}

/// The variables that a message is shown with.
#[derive(Clone, Copy)]
struct Variables<'n, 's> {
    names: &'n Names<'s>,
}

impl KnownNames for Variables<'_, '_> {
    ghost knows = { λ variables. is_in_set variables.names.now };

    fn has_name(&self, name: &str) -> bool {
        self.names.has(name)
    }
}
