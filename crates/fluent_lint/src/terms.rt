//! The terms that a catalog refers to.
#![tactic(auto)]

ghost use Rattle.std.specs.Prelude.{IfOk};
ghost use Rattle.fluent_lint.specs.KnownIds.{AreTermsIn};
ghost use Rattle.fluent_lint.specs.Reading.{IsRead};

use crate::read::ReadFiles;
use lint_comparison::referred_terms;
use lint_entries::ReferredTerms;
use std::alloc::{AllocError, Global};

/// The terms that the files of a catalog refer to.
///
/// # Errors
/// [`AllocError`] if memory runs out; nothing is kept.
pub fn terms_of<'s>(
    alloc: Global,
    files: &ReadFiles<'_, 's>,
) -> Result<ReferredTerms<'s>, AllocError>
    requires { IsRead files.now }
    ensures { IfOk result (AreTermsIn files.now.files.now) }
{
    let ids = referred_terms(alloc, &files.trees)?;
    ReferredTerms::of(alloc, &ids)
}
