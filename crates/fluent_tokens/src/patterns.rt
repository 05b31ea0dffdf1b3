//! The texts of patterns, and where patterns end.
#![tactic(auto, using(crate::proofs::Counted::cuts))]

ghost use Rattle.std.specs.Prelude.{◌≡◌, ◌<◌, length};
ghost use Rattle.fluent_grammar.specs.Words as w;
ghost use Rattle.fluent_grammar.specs.Lines.{pattern_ends};
ghost use Rattle.fluent_tokens.specs.Bytes.{is_stop};
ghost use Rattle.fluent_tokens.specs.Counted.{IsText, line_feed_end};
ghost use Rattle.memchr.specs.Find.{IsFirstByte};

use crate::from;
use crate::lanes::{LANES, stops};
use memchr::memchr3;
use std::simd::prelude::*;

/// How many bytes are read sixteen at a time. What is farther is left to `memchr3`, which is slower
/// on short texts.
const NEAR: usize = 128;

/// How many bytes the text at the front has: up to and with the line feed, or up to an opening
/// brace, a CR LF or the end.
///
/// # Errors
/// The offset of a closing brace, if one comes first: no text may have it.
pub fn text_len(text: &[u8]) -> Result<usize, usize>
    ensures { IsText text.now result }
{
    let Some(end) = stop(text) else {
        return Ok(text.len());
    };
    if text[end] == b'{' {
        Ok(end)
    } else if text[end] == b'}' {
        Err(end)
    } else {
        Ok(line_feed_end(text, end))
    }
}

/// The offset of the first brace or line feed.
#[inline(always)]
pub(crate) fn stop(text: &[u8]) -> Option<usize>
    ensures { IsFirstByte is_stop text.now result }
{
    let mut end = 0;
    while text.len() - end >= LANES && end < NEAR {
        let found = stops(u8x16::from_slice(&text[end..]));
        if found != 0 {
            return Some(end + found.trailing_zeros() as usize);
        }
        end += LANES;
    }
    let behind = memchr3(b'{', b'}', b'\n', &text[end..])?;
    Some(end + behind)
}

/// The end of the text whose line feed is here: before a CR LF, else after the line feed.
fn line_feed_end(text: &[u8], end: usize) -> usize
    requires { end < length text.now }
    ensures { result ≡ line_feed_end text.now end }
{
    if end > 0 && text[end - 1] == b'\r' {
        end - 1
    } else {
        end + 1
    }
}

/// Whether a pattern ends at the line start here, after which this many spaces stand.
pub fn pattern_ends(text: &[u8], indent: usize) -> bool
    requires { indent ≡ w.spaces text.now }
    ensures { result ≡ pattern_ends text.now }
{
    let Some(byte) = from(text, indent).first() else {
        return indent == 0;
    };
    // Which byte it is, is found without a branch: it is another in each line, and no processor
    // foresees it.
    let at_column_zero = indent == 0;
    let goes_on = (*byte == b'{') | (*byte == b'\r') | (*byte == b'\n');
    let ends = (*byte == b'}') | (*byte == b'.') | (*byte == b'[') | (*byte == b'*');
    (at_column_zero & !goes_on) | (!at_column_zero & ends)
}
