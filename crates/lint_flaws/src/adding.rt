//! How remarks are added to others.
#![tactic(auto)]

ghost use Rattle.std.specs.Prelude.{◌∷◌, [], OnOk};
ghost use Rattle.lint_findings.specs.View.{remark_view};
ghost use Rattle.lint_flaws.specs.Said.{AddsRemarks};

use lint_findings::Remark;
use std::alloc::AllocError;

/// Adds a remark.
///
/// # Errors
/// [`AllocError`] if memory runs out; `found` is unchanged then.
pub fn push_remark(remark: Remark, found: &mut Vec<Remark>) -> Result<(), AllocError>
    ensures { OnOk result (AddsRemarks found.old found.new (remark_view remark ∷ [])) }
{
    found.push(remark)?;
    Ok(())
}
