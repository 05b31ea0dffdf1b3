//! Notes at what is found in a text, or at the whole text.
#![tactic(auto)]

ghost use Rattle.std.specs.Prelude.{OnOk};
ghost use Rattle.lint_findings.specs.View.{remark_view};
ghost use Rattle.lint_findings.specs.Finding.{note, remark};
ghost use Rattle.lint_markup.specs.InCode.{AddsSaid, said_at, said_on_text};
ghost use Rattle.lint_texts.specs.Beside.{AddsAt};

use lint_findings::Remark;
use lint_markup::{Spotted, push_spotted};
use std::alloc::{AllocError, Global};

/// Adds a remark: at the front of an end of a text, if there is one, or else at the whole text.
///
/// # Errors
/// [`AllocError`] if memory runs out; nothing is added then.
pub fn push_at_new(
    alloc: Global,
    at: Option<&str>,
    remark: Remark,
    found: &mut Vec<Spotted>,
) -> Result<(), AllocError>
    ensures { OnOk result (AddsAt found.old found.new at.entry (remark_view remark)) }
{
    match at {
        Some(at) => push_spotted(Spotted::at(alloc, at, remark)?, found),
        None => push_spotted(Spotted::on_text(alloc, remark), found),
    }
}

/// Adds a note at the front of an end of a text.
///
/// # Errors
/// [`AllocError`] if memory runs out; nothing is added then.
pub fn push_note_at(
    alloc: Global,
    at: &str,
    code: &'static str,
    words: &str,
    found: &mut Vec<Spotted>,
) -> Result<(), AllocError>
    ensures { OnOk result (AddsSaid found.old found.new (said_at at.now (remark note code.now words.now))) }
{
    let text = String::from_str(alloc, words)?;
    push_spotted(Spotted::at(alloc, at, Remark::note(code, text))?, found)
}

/// Adds a note at the whole text.
///
/// # Errors
/// [`AllocError`] if memory runs out; nothing is added then.
pub fn push_note(
    alloc: Global,
    code: &'static str,
    words: &str,
    found: &mut Vec<Spotted>,
) -> Result<(), AllocError>
    ensures { OnOk result (AddsSaid found.old found.new (said_on_text (remark note code.now words.now))) }
{
    let text = String::from_str(alloc, words)?;
    push_spotted(Spotted::on_text(alloc, Remark::note(code, text)), found)
}
