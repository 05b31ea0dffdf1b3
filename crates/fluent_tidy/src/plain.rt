//! Sources without a byte order mark, and with LF line ends.

ghost use Rattle.std.specs.Prelude.{◌≡◌, ◌==◌, ◌++◌, ◌∷◌, [], false, IfOk, string_bytes};
ghost use Rattle.std.specs.List.{list_all, list_any};
ghost use Rattle.fluent_grammar.specs.Words.{line_feed, space};
ghost use Rattle.fluent_tidy.specs.TidyText as plain;

use memchr::memchr;
use std::alloc::{AllocError, Global};

/// Whether a text begins with a byte order mark.
pub fn begins_with_mark(text: &[u8]) -> bool
    ensures { result ≡ plain.begins_with_mark text.now }
{
    text.len() >= 3 && text[0] == 0xEF && text[1] == 0xBB && text[2] == 0xBF
}

/// The text without a byte order mark.
pub fn without_mark(text: &str) -> &str
    ensures { result.now ≡ plain.without_mark text.now }
{
    if begins_with_mark(text.as_bytes()) {
        &text[3..]
    } else {
        text
    }
}

/// The text with LF in place of each CR LF. A line that is blank before its CR LF loses its spaces:
/// they aren't part of a text there, and before LF they may be. A carriage return alone stays.
///
/// # Errors
/// [`AllocError`] if memory runs out; nothing is kept.
pub fn with_line_feeds(alloc: Global, text: &str) -> Result<String, AllocError>
    ensures { IfOk result (λ new. string_bytes new ≡ plain.with_line_feeds text.now) }
{
    let mut new = String::new(alloc);
    let mut rest = text;
    'lines: while let Some(end) = memchr(b'\n', rest.as_bytes()) {
        new.push_str(without_return(&rest[..end]))?;
        new.push('\n')?;
        rest = &rest[end + 1..];
    }
    new.push_str(rest)?;
    Ok(new)
}

/// What stays of a line before its line feed: the line without the carriage return at its end, or
/// nothing if only spaces come before that.
fn without_return(line: &str) -> &str
    requires { list_any (λ c. c == line_feed) line.now ≡ false }
    ensures { plain.with_line_feeds (line.now ++ line_feed ∷ []) ≡ result.now ++ line_feed ∷ [] }
{
    match line.strip_suffix('\r') {
        Some(text) if is_blank(text.as_bytes()) => "",
        Some(text) => text,
        None => line,
    }
}

/// Whether a text has spaces alone.
fn is_blank(text: &[u8]) -> bool
    ensures { result ≡ list_all (λ c. c == space) text.now }
{
    text.iter().all(|byte| *byte == b' ')
}
