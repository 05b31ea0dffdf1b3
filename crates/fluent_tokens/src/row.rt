//! One line.
#![tactic(auto)]

ghost use Rattle.std.specs.Prelude.{◌≡◌, ◌≤◌, ◌+◌, ◌-◌, ◌^◌, length, take, IfOk};
ghost use Rattle.fluent_grammar.specs.Words as w;
ghost use Rattle.fluent_grammar.specs.Lines.{pattern_ends};
ghost use Rattle.fluent_tokens.specs.Counted as counted;
ghost use Rattle.fluent_tokens.specs.Table.{row_view, cut_line_at};
ghost use Rattle.fluent_tokens.specs.Lookup.{feeds_into};

use crate::{begins_with, blank_inline_len, pattern_ends};
use std::alloc::AllocError;

/// A line of a text. Offsets and lengths are in bytes.
#[derive(Clone, Copy, Drop)]
pub struct Row {
    /// Where it begins.
    pub start: usize,
    /// Where it ends, before its line end.
    pub end: usize,
    /// How many spaces stand at its front.
    pub spaces: u32,
    /// Whether an entry can begin here: an ASCII letter, `-` or `#` stands at column 0.
    pub begins_entry: bool,
    /// Whether a comment line begins here: `#` stands at column 0.
    pub begins_comment: bool,
    /// Whether a pattern ends before this line, by the byte that is after its spaces.
    pub ends_pattern: bool,
    /// Whether the line is plain: no brace stands in it.
    pub is_plain: bool,
}

impl Row {
    /// The row of the line at the front of a text, which has this many bytes, is plain or not, and
    /// begins at `start` of a source.
    ///
    /// # Errors
    ///
    /// A line with 4,294,967,296 spaces at its front or more has no row.
    pub fn new(line: &[u8], start: usize, len: usize, is_plain: bool) -> Result<Row, AllocError>
        requires fits { start + length line.now ≤ 2 ^ 64 - 1 }
        requires within { len ≤ length line.now }
        requires plain { is_plain ≡ counted.is_plain (take len line.now) }
        ensures { IfOk result (λ row. row_view row ≡ cut_line_at start len line.now) }
    {
        let end = start + len;
        // Most lines begin at column 0, and of those no byte but the first one is looked at.
        if !begins_with(line, b' ') {
            return Ok(Row {
                start,
                end,
                spaces: 0,
                begins_entry: begins_entry(line),
                begins_comment: begins_with(line, b'#'),
                ends_pattern: pattern_ends(line, 0),
                is_plain,
            });
        }
        let indent = blank_inline_len(line);
        let Ok(spaces) = u32::try_from(indent) else {
            return Err(AllocError);
        };
        Ok(Row {
            start,
            end,
            spaces,
            begins_entry: false,
            begins_comment: false,
            ends_pattern: pattern_ends(line, indent),
            is_plain,
        })
    }

    /// How many spaces stand at the front of the line: no end of them, if it is blank.
    pub(crate) fn indent(&self) -> usize {
        let spaces = self.spaces as usize;
        if self.end.saturating_sub(self.start) > spaces {
            spaces
        } else {
            usize::MAX
        }
    }

    /// Whether one byte stands between the line and the next: its line end is a line feed alone.
    pub(crate) fn feeds_into(&self, next: &Row) -> bool
        ensures { result ≡ feeds_into self.now next.now }
    {
        next.start.saturating_sub(self.end) == 1
    }
}

/// Whether a text begins with a byte that may begin an entry: an ASCII letter, `-` or `#`.
pub fn begins_entry(text: &[u8]) -> bool
    ensures { result ≡ w.begins w.begins_entry text.now }
{
    let Some(byte) = text.first() else {
        return false;
    };
    // Without a branch, since no processor foresees the byte.
    byte.is_ascii_alphabetic() | (*byte == b'-') | (*byte == b'#')
}
