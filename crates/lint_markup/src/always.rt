//! What the texts of a pattern have, whichever variants are chosen.
#![tactic(auto)]

ghost use Rattle.std.specs.Prelude.{◌≡◌, IfOk};
ghost use Rattle.fluent_ast.specs.Borrowed.{elements_of, variants_of};
ghost use Rattle.lint_findings.specs.Runs as r;
ghost use Rattle.lint_markup.specs.Wanted.{is_wanted};

use crate::runs::own_text;
use crate::wanted::Wanted;
use fluent_ast::{Expression, Pattern, PatternElement, Variant};
use std::alloc::{AllocError, Global};

/// Whether a text of a pattern has a tag, whichever variants are chosen.
///
/// # Errors
/// [`AllocError`] if memory runs out; nothing is kept.
#[cycle(always)]
pub fn always(
    alloc: Global,
    wanted: Wanted<'_>,
    pattern: &Pattern<&str>,
) -> Result<bool, AllocError>
    ensures { IfOk result (λ is. is ≡ r.always (is_wanted wanted.entry) (elements_of pattern.now)) }
{
    if wanted.is_in(&own_text(alloc, pattern)?) {
        return Ok(true);
    }
    for element in &pattern.elements {
        if let PatternElement::Placeable {
            expression: Expression::Select { variants, .. },
        } = element
        {
            if all_have(alloc, wanted, variants)? {
                return Ok(true);
            }
        }
    }
    Ok(false)
}

#[cycle(always)]
fn all_have(
    alloc: Global,
    wanted: Wanted<'_>,
    variants: &[Variant<&str>],
) -> Result<bool, AllocError>
    ensures { IfOk result (λ is. is ≡ r.all_pass (is_wanted wanted.entry) (variants_of variants.now)) }
{
    for variant in variants {
        if !always(alloc, wanted, &variant.value)? {
            return Ok(false);
        }
    }
    Ok(true)
}
