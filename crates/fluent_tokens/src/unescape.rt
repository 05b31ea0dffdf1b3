//! The text that the raw text of a string literal stands for.

ghost use Rattle.std.specs.Prelude.{◌≡◌, ◌++◌, ◌↔◌, false, OnOk, OnErr, IfOk, IsOk, string_bytes};
ghost use Rattle.std.specs.Cow.{cow_str_bytes, IsBorrowedStr};
ghost use Rattle.fluent_grammar.specs.Escapes.{unescaped};
ghost use Rattle.fluent_tokens.specs.Unescaped.{TookPrefix, has_backslash};

use crate::escape::escape_at;
use fluent_text::TextWrite;
use memchr::memchr;
use std::alloc::{AllocError, Global};
use std::borrow::CowStr;
use std::fmt;

/// Writes what the raw text of a string literal stands for: each escape's character in its place.
/// U+FFFD stands for an escape that has no meaning. The escapes are those of production
/// `StringLiteral`; `\u` takes four hex digits and `\U` six.
///
/// # Errors
/// [`fmt::Error`] if the writer refuses a piece; it then holds the pieces before that one.
pub fn unescape_unicode<W: TextWrite>(w: &mut W, text: &str) -> fmt::Result
    ensures taken { OnOk result (W.text w.new ≡ W.text w.old ++ unescaped text.now) }
    ensures refused { OnErr result (TookPrefix (W.text w.old) (W.text w.new) (unescaped text.now)) }
{
    let mut rest = text;
    while let Some(place) = memchr(b'\\', rest.as_bytes()) {
        w.write_str(&rest[..place])?;
        let escaped = &rest[place + 1..];
        let escape = escape_at(escaped);
        w.write_str(escape.character.encode_utf8(&mut [0; 4]))?;
        rest = &escaped[escape.len..];
    }
    w.write_str(rest)
}

/// What the raw text of a string literal stands for, as [`unescape_unicode`] writes it. A text
/// without a backslash is borrowed, which doesn't allocate, and succeeds; any other is a text of
/// its own.
///
/// ```no_run
/// let text = unescape_unicode_to_string(rt.alloc(), "caf\\u00e9")?;
/// println!(rt; "{text}")?; // café
/// ```
///
/// # Errors
/// [`AllocError`] if memory runs out; nothing is kept.
pub fn unescape_unicode_to_string(alloc: Global, text: &str) -> Result<CowStr<'_>, AllocError>
    ensures value { IfOk result (λ cow. cow_str_bytes cow ≡ unescaped text.now) }
    ensures borrowed { IfOk result (λ cow. IsBorrowedStr cow ↔ has_backslash text.now ≡ false) }
    ensures succeeds { has_backslash text.now ≡ false → IsOk result }
{
    if memchr(b'\\', text.as_bytes()).is_none() {
        return Ok(CowStr::Borrowed(text));
    }
    let mut unescaped = String::with_capacity(alloc, text.len())?;
    match unescape_unicode(&mut unescaped, text) {
        Ok(()) => Ok(CowStr::Owned(unescaped)),
        Err(_) => Err(AllocError),
    }
}
