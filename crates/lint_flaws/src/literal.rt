//! The escapes of a string literal.
#![tactic(auto, using(fluent_tokens::proofs::Counted::cuts))]

ghost use Rattle.std.specs.Prelude.{◌≡◌, OnOk, true};
ghost use Rattle.lint_flaws.specs.Escape.{AddsTexts, escape_there};
ghost use Rattle.lint_findings.specs.Escapes.{invalid_escapes};
ghost use Rattle.fluent_grammar.specs.Words as w;

use crate::escape::{after_escape, invalid_escape};
use memchr::memchr;
use std::alloc::AllocError;

/// Adds the escapes of a raw text that stand for no character.
///
/// # Errors
/// [`AllocError`] if memory runs out; `found` then holds its old texts and some of these.
pub fn push_invalid_escapes<'s>(raw: &'s str, found: &mut Vec<&'s str>) -> Result<(), AllocError>
    ensures { OnOk result (AddsTexts found.old found.new (invalid_escapes raw.now)) }
{
    let mut rest = raw;
    while let Some(place) = memchr(b'\\', rest.as_bytes()) {
        let text = &rest[place..];
        push_if_invalid(text, found)?;
        rest = after_escape(text);
    }
    Ok(())
}

/// Adds the escape at the front, if it stands for no character.
fn push_if_invalid<'s>(text: &'s str, found: &mut Vec<&'s str>) -> Result<(), AllocError>
    requires { w.begins_with w.backslash text.now ≡ true }
    ensures { OnOk result (AddsTexts found.old found.new (escape_there text.now)) }
{
    if let Some(escape) = invalid_escape(text) {
        found.push(escape)?;
    }
    Ok(())
}
