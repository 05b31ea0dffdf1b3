//! A finding with the line that it is on: the line, a caret below the finding, and the hint.

ghost use Rattle.std.specs.Prelude.{◌≡◌, IfOk, OnOk, decimal, length, replicate};
ghost use Rattle.std.specs.Str.{encode_utf8_all};
ghost use Rattle.fluent_grammar.specs.Words.{space};
ghost use Rattle.lint_findings.specs.ShownLine.{character_padding, dots_if};
ghost use Rattle.lint_report.specs.ByColours.{text_by};
ghost use Rattle.lint_report.specs.Changes.{Appends};
ghost use Rattle.lint_report.specs.Texts.{before_finding, caret_line, finding_lines, from_finding, hint_line, masked_padding, source_line};
ghost use Rattle.lint_report.specs.View.{IsAt, IsOnLine, in_file, optional_text, shown_width};

use crate::excerpts::{Excerpt, Window};
use crate::lines::{caret, push_finding_line};
use crate::masked::{masked, push_masked};
use lint_findings::{File, Finding, SourcePosition};
use std::alloc::AllocError;
use unicode_width::UnicodeWidthChar;

/// Appends a finding that is at this place as text: its first line, the line that it is on with a
/// caret below it, and its hint, in colours if `coloured` is true. It reads no more of that line
/// than it shows.
///
/// # Errors
/// [`AllocError`] if memory runs out; a part of it may have been appended.
pub fn push_finding_text(
    text: &mut String,
    file: &File,
    finding: &Finding,
    place: SourcePosition,
    coloured: bool,
) -> Result<(), AllocError>
    requires at { IsAt file.now finding.now place }
    requires line { IsOnLine file.now finding.now place }
    ensures { OnOk result (Appends text.old text.new (text_by coloured (in_file file.now finding.now))) }
{
    push_finding_line(text, file, finding, place, coloured)?;
    push_shown_line(text, file, finding, place, coloured)
}

/// Appends the line that a finding is on, with a caret below the finding, and its hint.
fn push_shown_line(
    text: &mut String,
    file: &File,
    finding: &Finding,
    place: SourcePosition,
    coloured: bool,
) -> Result<(), AllocError>
    requires at { IsAt file.now finding.now place }
    requires line { IsOnLine file.now finding.now place }
    ensures { OnOk result (Appends text.old text.new (finding_lines coloured file.now finding.now)) }
{
    let (front, rest) = place.split(file.source);
    let shown = Window::around(front, rest);
    let digits = push_number(text, place.line())?;
    push_source_line(text, &shown)?;
    let caret = caret(coloured, finding.severity);
    push_caret_line(text, digits, &shown.before, caret)?;
    push_hint_line(text, digits, &finding.hint)
}

/// Appends a number, and returns how many digits it has.
fn push_number(text: &mut String, number: usize) -> Result<usize, AllocError>
    ensures text { OnOk result (Appends text.old text.new (decimal number)) }
    ensures digits { IfOk result (λ digits. digits ≡ length (decimal number)) }
{
    let start = text.len();
    write!(text, "{number}")?;
    Ok(text.len() - start)
}

/// Appends what is shown of a line, after its number.
fn push_source_line(text: &mut String, shown: &Window) -> Result<(), AllocError>
    ensures { OnOk result (Appends text.old text.new (source_line shown.now)) }
{
    text.push_str(" | ")?;
    push_before(text, &shown.before)?;
    push_after(text, &shown.after)?;
    text.push_str("\n")
}

/// Appends what is shown before a finding.
fn push_before(text: &mut String, before: &Excerpt) -> Result<(), AllocError>
    ensures { OnOk result (Appends text.old text.new (encode_utf8_all (before_finding before.now))) }
{
    text.push_str(dots_if(before.is_cut))?;
    push_masked(text, before.text)
}

/// Appends what is shown from a finding on.
fn push_after(text: &mut String, after: &Excerpt) -> Result<(), AllocError>
    ensures { OnOk result (Appends text.old text.new (encode_utf8_all (from_finding after.now))) }
{
    push_masked(text, after.text)?;
    text.push_str(dots_if(after.is_cut))
}

/// Two dots, if something is left out.
fn dots_if(is_cut: bool) -> &'static str
    ensures { result.now ≡ dots_if is_cut }
{
    if is_cut { ".." } else { "" }
}

/// Appends the caret, below a finding that is after this.
fn push_caret_line(
    text: &mut String,
    digits: usize,
    before: &Excerpt,
    caret: &str,
) -> Result<(), AllocError>
    ensures { OnOk result (Appends text.old text.new (caret_line digits before.now caret.now)) }
{
    push_spaces(text, digits)?;
    text.push_str(" | ")?;
    push_spaces(text, dots_if(before.is_cut).len())?;
    push_padding(text, before.text)?;
    text.push_str(caret)?;
    text.push_str("\n")
}

/// Appends the hint of a finding, if it has one.
fn push_hint_line(text: &mut String, digits: usize, hint: &Option<String>) -> Result<(), AllocError>
    ensures { OnOk result (Appends text.old text.new (hint_line digits (optional_text hint.now))) }
{
    match hint {
        Some(hint) => {
            push_spaces(text, digits)?;
            text.push_str(" = ")?;
            push_masked(text, hint)?;
            text.push_str("\n")
        }
        None => Ok(()),
    }
}

/// Appends what is below a masked text: as many columns as it has.
fn push_padding(text: &mut String, shown: &str) -> Result<(), AllocError>
    ensures { OnOk result (Appends text.old text.new (masked_padding shown.now)) }
{
    for c in shown.chars() {
        push_character_padding(text, masked(c))?;
    }
    Ok(())
}

/// Appends what is below a character: a tab for a tab, and otherwise as many spaces as it is wide.
fn push_character_padding(text: &mut String, c: char) -> Result<(), AllocError>
    ensures { OnOk result (Appends text.old text.new (character_padding shown_width c)) }
{
    if c == '\t' {
        text.push(c)
    } else {
        push_spaces(text, c.width().unwrap_or(0))
    }
}

/// Appends this many spaces.
fn push_spaces(text: &mut String, count: usize) -> Result<(), AllocError>
    ensures { OnOk result (Appends text.old text.new (replicate count space)) }
{
    for _ in 0..count {
        text.push(' ')?;
    }
    Ok(())
}
