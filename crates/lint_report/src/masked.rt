//! Text that can't move a terminal's cursor or turn the direction of what is around it.

ghost use Rattle.lint_report.specs.Changes.{Appends};
ghost use Rattle.std.specs.Prelude.{◌≡◌, OnOk};
ghost use Rattle.lint_findings.specs.ShownLine.{is_masked as is_masked_character, masked_character, masked_text};

use std::alloc::AllocError;

/// Appends a text, masked: U+FFFD for each control character but the tab, and for each mark that
/// changes the direction of text.
///
/// # Errors
/// [`AllocError`] if memory runs out; a part of it may have been appended.
pub fn push_masked(text: &mut String, shown: &str) -> Result<(), AllocError>
    ensures { OnOk result (Appends text.old text.new (masked_text shown.now)) }
{
    for c in shown.chars() {
        text.push(masked(c))?;
    }
    Ok(())
}

/// U+FFFD for a character that is masked, and any other character as it is.
pub(crate) fn masked(c: char) -> char
    ensures { result ≡ masked_character c }
{
    if is_masked(c) { '\u{FFFD}' } else { c }
}

/// Whether a character is a control character other than the tab, or changes the direction of text.
fn is_masked(c: char) -> bool
    ensures { result ≡ is_masked_character c }
{
    match c {
        '\t' => false,
        '\0'..='\u{1F}' | '\u{7F}'..='\u{9F}' => true,
        '\u{202A}'..='\u{202E}' | '\u{2066}'..='\u{2069}' => true,
        _ => false,
    }
}
