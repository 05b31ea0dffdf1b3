//! Losses, in words.
#![tactic(auto)]

ghost use Rattle.std.specs.Prelude.{◌≡◌, ◌++◌, IfOk, codes, string_bytes};
ghost use Rattle.lint_comparison.specs.LossView.{loss_view};
ghost use Rattle.lint_findings.specs.View.{finding_view, remark_view};
ghost use Rattle.lint_findings.specs.Finding.{finding_at};
ghost use Rattle.lint_findings.specs.Losses as l;
ghost use Rattle.lint_findings.specs.Losses.{loss_remark};
ghost use Rattle.lint_findings.specs.SyntaxErrors.{in_backticks};

use lint_findings::{Finding, Remark};
use std::alloc::{AllocError, Global};

/// What a message loses of that of the reference.
#[derive(Clone, Copy)]
pub enum Loss<'i> {
    /// The variant with this key doesn't show this variable, and the default one does.
    LackingVariant { key: &'i str, variable: &'i str },
    /// The variants by this variable.
    DroppedPlural(&'i str),
    /// The term of this id, which is written out as this text.
    WrittenTerm { id: &'i str, text: &'i str },
}

impl Loss<'_> {
    /// The finding that the message of this id, at this offset, has the loss.
    ///
    /// # Errors
    /// [`AllocError`] if memory runs out; nothing is kept.
    pub fn finding(&self, alloc: Global, id: &str, offset: usize) -> Result<Finding, AllocError>
        ensures { IfOk result (λ found.
            finding_view found ≡ finding_at offset id.now (loss_remark (loss_view self.now))) }
    {
        let entry = String::from_str(alloc, id)?;
        Ok(self.remark(alloc)?.at(offset, entry))
    }

    fn remark(&self, alloc: Global) -> Result<Remark, AllocError>
        ensures { IfOk result (λ remark. remark_view remark ≡ loss_remark (loss_view self.now)) }
    {
        match self {
            Loss::LackingVariant { key, variable } => Ok(Remark::note(
                "variant-lacks-variable",
                format!(in alloc;
                    "the default variant shows `${variable}`, and `[{key}]` doesn't"
                )?,
            )),
            Loss::DroppedPlural(variable) => Ok(Remark::note(
                "plural-dropped",
                format!(in alloc; "the reference has variants by `${variable}`")?,
            )),
            Loss::WrittenTerm { id, text } => written_term(alloc, id, text),
        }
    }
}

fn written_term(alloc: Global, id: &str, text: &str) -> Result<Remark, AllocError>
    ensures { IfOk result (λ remark. remark_view remark ≡ loss_remark (l.written_term id.now text.now)) }
{
    let hint = format!(in alloc; "the reference has `{{ -{id} }}`")?;
    let text = written_out(alloc, text)?;
    Ok(Remark::warning("term-as-text", text).with_hint(Some(hint)))
}

fn written_out(alloc: Global, text: &str) -> Result<String, AllocError>
    ensures { IfOk result (λ said. string_bytes said ≡ in_backticks text.now ++ codes " is written out") }
{
    format!(in alloc; "`{text}` is written out")
}
