//! Remarks on the letters of a text as it is in a source.
#![tactic(auto)]

ghost use Rattle.std.specs.Prelude.{◌≡◌, ◌++◌, IfOk, map};
ghost use Rattle.lint_findings.specs.View.{remark_view};
ghost use Rattle.lint_findings.specs.Encodings.{wrong_encodings};
ghost use Rattle.lint_findings.specs.Scripts.{mixed_words};

use crate::encodings::push_wrong_encoding;
use crate::scripts::push_mixed_words;
use lint_findings::Remark;
use std::alloc::{AllocError, Global};

/// Which words of a text have letters of two scripts, and which characters come of a wrong
/// encoding: each remark has its place in the text.
///
/// # Errors
/// [`AllocError`] if memory runs out; nothing is kept.
pub fn word_remarks(alloc: Global, text: &[u8]) -> Result<Vec<Remark>, AllocError>
    ensures { IfOk result (λ found. map remark_view found.items
        ≡ mixed_words text.now ++ wrong_encodings text.now) }
{
    let mut found = Vec::new(alloc);
    push_mixed_words(alloc, text, &mut found)?;
    push_wrong_encoding(alloc, text, &mut found)?;
    Ok(found)
}
