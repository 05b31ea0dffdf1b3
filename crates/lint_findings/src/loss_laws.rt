//! A law of what messages lose: the function only carries it, as its contract.

ghost use Rattle.lint_findings.specs.LossLaws.{LossesAreTrue};

/// A message loses what it is found to lose of that of the reference. In a select of it, the
/// default variant shows a variable, whichever variants are chosen within it, and another variant
/// never does. Or the reference has a select with two variants, and it has none, and shows a
/// variable. Or the reference refers to a term, and it doesn't, and has a text of that term.
pub fn losses_are_true<F>()
    ensures { LossesAreTrue F }
{}
