//! Patterns that stand in plain lines.
#![tactic(auto)]

ghost use Rattle.std.specs.Prelude.{◌≡◌, ◌≤◌, IfSome, length, drop, true};
ghost use Rattle.fluent_grammar.specs.Tiling.{at_column_zero};
ghost use Rattle.fluent_tokens.specs.IndentedTexts.{IsPlainLine};

use crate::lookup::{feeds_last, plain_text_len};
use crate::{Lines, Row, from};

/// What the rows say of a pattern that stands in plain lines.
#[derive(Clone, Copy, Drop)]
pub struct PlainLines {
    /// How many lines it has, with blank ones at its end.
    pub count: usize,
    /// The least indent of those that aren't blank.
    pub common_indent: usize,
}

/// The text of a pattern in a plain line, from the spaces before it to the end of the line.
#[derive(Clone, Copy, Drop)]
pub struct PlainLine {
    /// How many spaces stand before it at the start of the line.
    pub indent: usize,
    /// How many bytes it has after them, with its line feed.
    pub count: usize,
    /// Whether nothing but spaces and a line feed stand in it.
    pub is_blank: bool,
    /// Whether it ends in a line feed.
    pub ends_line: bool,
}

impl<'a> Lines<'a> {
    /// What the rows say of the pattern at this place, after the spaces before it: `None` unless
    /// all of it stands in plain lines, each with a line feed, of which some share an indent. No
    /// text is looked at. It tells a reader what room to make and what to cut, and no more: that
    /// the pattern is so shows when it is read.
    #[inline(always)]
    pub fn plain_lines(&mut self, place: usize) -> Option<PlainLines>
        requires { place ≤ length self.old.text.now }
        ensures text { self.new.text.now ≡ self.old.text.now }
    {
        let row = self.find(place);
        let later = self.later();
        // Mostly a brace stands in the line, or nothing but attributes follows it.
        if !row.is_plain || later.is_empty() || later[0].ends_pattern {
            return None;
        }
        plain_lines_after(&row, later, row.end > place)
    }

    /// The line that begins at this place, if it is plain and a pattern goes on with a text in it.
    /// One look at its row says so, and no byte is looked at but the one after the line.
    #[inline(always)]
    pub fn plain_line(&mut self, place: usize) -> Option<PlainLine>
        requires within { place ≤ length self.old.text.now }
        requires line_start { at_column_zero self.old.text.now (drop place self.old.text.now)
            ≡ true }
        ensures line { IfSome result (IsPlainLine (drop place self.old.text.now)) }
        ensures text { self.new.text.now ≡ self.old.text.now }
    {
        let row = self.find(place);
        if row.ends_pattern || !row.is_plain || feeds_last(&row, self.later(), place) {
            return None;
        }
        let indent = row.spaces as usize;
        let text = from(self.text, place + indent);
        let len = row.end.saturating_sub(place).saturating_sub(indent);
        let count = plain_text_len(text, len);
        if count == 0 {
            return None;
        }
        Some(PlainLine {
            indent,
            count,
            is_blank: len == 0,
            ends_line: count != len,
        })
    }
}

/// What the rows after that of a line say of the pattern in it, which has a text in this line or
/// begins after it.
fn plain_lines_after(row: &Row, later: &[Row], has_text: bool) -> Option<PlainLines> {
    let mut last = *row;
    let mut count = usize::from(has_text);
    let mut common_indent = usize::MAX;
    for next in later.iter() {
        if next.ends_pattern {
            break;
        }
        if !(next.is_plain & last.feeds_into(next)) {
            return None;
        }
        common_indent = common_indent.min(next.indent());
        count = count.saturating_add(1);
        last = *next;
    }
    if common_indent == usize::MAX {
        return None;
    }
    Some(PlainLines {
        count,
        common_indent,
    })
}
