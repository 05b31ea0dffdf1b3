//! Lines and their ends.
#![tactic(auto, using(crate::proofs::Counted::cuts))]

ghost use Rattle.std.specs.Prelude.{◌≡◌, ◌<◌, length, take};
ghost use Rattle.fluent_grammar.specs.Lines.{ends_line};
ghost use Rattle.fluent_tokens.specs.Counted.{Cuts, IsLineEnd, IsLine, before_feed, is_plain};

use crate::patterns::stop;
use memchr::memchr;

/// How many bytes the line end at the front has, or 0: LF, or CR LF. Production `line_end`.
pub fn line_end_len(text: &[u8]) -> usize
    ensures value { IsLineEnd text.now result }
    ensures cuts { Cuts text.now result }
{
    match text {
        [b'\n', ..] => 1,
        [b'\r', b'\n', ..] => 2,
        _ => 0,
    }
}

/// How many bytes the line at the front has without its line end.
pub fn line_len(text: &[u8]) -> usize
    ensures value { IsLine text.now result }
    ensures cuts { Cuts text.now result }
{
    let Some(end) = memchr(b'\n', text) else {
        return text.len();
    };
    before_feed(text, end)
}

/// How many bytes the line at the front has without its line end, and whether it is plain: no brace
/// stands in it.
pub(crate) fn measure_long_line(text: &[u8]) -> (usize, bool)
    ensures value { IsLine text.now result.0 }
    ensures cuts { Cuts text.now result.0 }
    ensures plain { result.1 ≡ is_plain (take result.0 text.now) }
{
    let Some(end) = stop(text) else {
        return (text.len(), true);
    };
    if text[end] == b'\n' {
        (before_feed(text, end), true)
    } else {
        (line_len(text), false)
    }
}

/// The end of the line whose line feed is here.
pub(crate) fn before_feed(text: &[u8], end: usize) -> usize
    requires { end < length text.now }
    ensures { result ≡ before_feed text.now end }
{
    // Without a branch: whether a line is empty, no processor foresees.
    let behind_return = (end > 0) & (text[end.saturating_sub(1)] == b'\r');
    end - usize::from(behind_return)
}

/// Whether a text ends in a line feed.
pub fn ends_line(text: &[u8]) -> bool
    ensures { result ≡ ends_line text.now }
{
    !text.is_empty() && text[text.len() - 1] == b'\n'
}
