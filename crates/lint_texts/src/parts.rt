//! The parts of a text that tags part.
#![tactic(auto, using(fluent_tokens::proofs::Counted::cuts))]

ghost use Rattle.std.specs.Prelude.{◌≡◌, IfOk, map, string_bytes};
ghost use Rattle.std.specs.List.{flat_map};
ghost use Rattle.lint_findings.specs.Numbers as n;
ghost use Rattle.lint_texts.specs.Parts.{IsFirstTag};

use lint_markup::after_tag;
use lint_nodes::skip;
use memchr::memchr;
use std::alloc::{AllocError, Global};

/// What stands between the tags of a text.
///
/// # Errors
/// [`AllocError`] if memory runs out; nothing is kept.
pub fn plain_parts(alloc: Global, text: &str) -> Result<Vec<&str>, AllocError>
    ensures { IfOk result (λ parts. map (λ s. s.now) parts.items ≡ n.plain_parts text.now) }
{
    let mut parts = Vec::new(alloc);
    let mut rest = text;
    while let Some((place, after)) = first_tag(rest) {
        parts.push(&rest[..place])?;
        rest = after;
    }
    parts.push(rest)?;
    Ok(parts)
}

/// How many bytes stand before the first tag of a text, and what follows it.
fn first_tag(text: &str) -> Option<(usize, &str)>
    ensures { IsFirstTag text.now result }
{
    let mut place = 0;
    while let Some(next) = memchr(b'<', skip(text.as_bytes(), place)) {
        let at = place + next;
        if let Some(after) = after_tag(&text[at..]) {
            return Some((at, after));
        }
        place = at + 1;
    }
    None
}

/// A text without its tags.
///
/// # Errors
/// [`AllocError`] if memory runs out; nothing is kept.
pub fn untagged(alloc: Global, text: &str) -> Result<String, AllocError>
    ensures { IfOk result (λ plain. string_bytes plain ≡ n.untagged text.now) }
{
    let parts = plain_parts(alloc, text)?;
    joined(alloc, &parts)
}

/// Some texts, one after the other.
fn joined(alloc: Global, parts: &[&str]) -> Result<String, AllocError>
    ensures { IfOk result (λ text. string_bytes text ≡ flat_map (λ s. s.now) parts.now) }
{
    let mut text = String::new(alloc);
    for part in parts {
        text.push_str(part)?;
    }
    Ok(text)
}
