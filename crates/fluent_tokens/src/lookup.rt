//! Lines, looked up by place.
#![tactic(auto)]

ghost use Rattle.std.specs.Prelude.{◌≡◌, ◌+◌, ◌<◌, ◌≤◌, length, take, drop, map, true, false, Ok};
ghost use Rattle.fluent_grammar.specs.Words.{rest_of_line};
ghost use Rattle.fluent_grammar.specs.Tiling.{resume, at_column_zero};
ghost use Rattle.fluent_tokens.specs.Counted.{Cuts, IsLine, IsText, is_plain};
ghost use Rattle.fluent_tokens.specs.Table.{row_view, lines, line_at};
ghost use Rattle.fluent_tokens.specs.Lookup.{past_comments, feeds_last, is_last_feed, Holds, with_line_feed, is_last_line, IsOneLine};

use crate::{Row, begins_text, begins_with, from, text_len};

/// The lines of a text, looked up by place in their table. A place is an offset in bytes, up to the
/// end of the text.
#[derive(Drop)]
pub struct Lines<'a> {
    pub(crate) text: &'a [u8],
    rows: &'a [Row],
    /// Where the next search begins: a row's number. Reading goes on mostly from the line where it
    /// was.
    near: usize,
    ghost are_lines: { map row_view rows.now ≡ lines text.now },
    ghost is_row: { near < length rows.now },
}

impl<'a> Lines<'a> {
    /// The lines of a text, by its table.
    pub fn new(text: &'a [u8], rows: &'a [Row]) -> Self
        requires { map row_view rows.now ≡ lines text.now }
        ensures { result.text.now ≡ text.now }
    {
        Lines {
            text,
            rows,
            near: 0,
        }
    }

    /// How many bytes stand from this place to the end of its line, without the line end.
    pub fn line_len(&mut self, place: usize) -> usize
        requires { place ≤ length self.old.text.now }
        ensures value { IsLine (drop place self.old.text.now) result }
        ensures cuts { Cuts (drop place self.old.text.now) result }
        ensures text { self.new.text.now ≡ self.old.text.now }
    {
        self.find(place).end.saturating_sub(place)
    }

    /// How many bytes stand before the next line after this place that may begin an entry: all that
    /// are left, if there is none.
    pub fn entry_start(&mut self, place: usize) -> usize
        requires { place ≤ length self.old.text.now }
        ensures value { drop result (drop place self.old.text.now)
            ≡ resume false (drop place self.old.text.now) }
        ensures cuts { Cuts (drop place self.old.text.now) result }
        ensures text { self.new.text.now ≡ self.old.text.now }
    {
        self.find(place);
        while self.near + 1 < self.rows.len() {
            self.near += 1;
            let row = self.rows[self.near];
            if row.begins_entry {
                return row.start - place;
            }
        }
        self.text.len() - place
    }

    /// How many bytes stand at this place up to the end of its line and of the lines after it that
    /// begin with `#`. No text is looked at.
    pub fn comments_len(&mut self, place: usize) -> usize
        requires { place ≤ length self.old.text.now }
        ensures value { drop result (drop place self.old.text.now)
            ≡ past_comments false (drop place self.old.text.now) }
        ensures cuts { Cuts (drop place self.old.text.now) result }
        ensures text { self.new.text.now ≡ self.old.text.now }
    {
        self.find(place);
        while self.near + 1 < self.rows.len() {
            self.near += 1;
            let row = self.rows[self.near];
            if !row.begins_comment {
                return row.start - place;
            }
        }
        self.text.len() - place
    }

    /// How many bytes the text at this place has, as the text of a pattern: up to and with the line
    /// feed, or up to an opening brace, a CR LF or the end. In a plain line no brace is searched
    /// for.
    ///
    /// # Errors
    /// The offset of a closing brace from this place, if one comes first: no text may have it.
    #[inline(always)]
    pub fn text_len(&mut self, place: usize) -> Result<usize, usize>
        requires { place ≤ length self.old.text.now }
        ensures value { IsText (drop place self.old.text.now) result }
        ensures text { self.new.text.now ≡ self.old.text.now }
    {
        let row = self.find(place);
        let text = from(self.text, place);
        if row.is_plain {
            Ok(plain_text_len(text, row.end.saturating_sub(place)))
        } else {
            text_len(text)
        }
    }

    /// The row of the line that begins at this place.
    pub fn line_at(&mut self, place: usize) -> Row
        requires within { place ≤ length self.old.text.now }
        requires line_start { at_column_zero self.old.text.now (drop place self.old.text.now)
            ≡ true }
        ensures row { row_view result ≡ line_at place (drop place self.old.text.now) }
        ensures text { self.new.text.now ≡ self.old.text.now }
    {
        self.find(place)
    }

    /// The length of a text that is all of a pattern: of one line, with its line feed, after which
    /// the pattern ends. It is read from the rows; only the first byte is looked at, and the one
    /// after the line. `None` if the text is none, or if the rows don't say it.
    #[inline(always)]
    pub fn one_line_len(&mut self, place: usize) -> Option<usize>
        requires { place ≤ length self.old.text.now }
        ensures value { IsOneLine (drop place self.old.text.now) result }
        ensures text { self.new.text.now ≡ self.old.text.now }
    {
        let row = self.find(place);
        let text = from(self.text, place);
        // One test for three, none of which a processor foresees.
        let is_told = row.is_plain & begins_text(text) & is_last_line(&row, self.later());
        if is_told {
            Some(plain_text_len(text, row.end.saturating_sub(place)))
        } else {
            None
        }
    }

    /// Whether a line feed stands at this place, after which a pattern ends.
    pub fn is_last_feed(&mut self, place: usize) -> bool
        requires { place ≤ length self.old.text.now }
        ensures value { result ≡ is_last_feed (drop place self.old.text.now) }
        ensures text { self.new.text.now ≡ self.old.text.now }
    {
        // Mostly no line feed stands here, and no row is looked up.
        if !begins_with(from(self.text, place), b'\n') {
            return false;
        }
        let row = self.find(place);
        feeds_last(&row, self.later(), place)
    }

    /// The rows after `near`.
    pub(crate) fn later(&self) -> &'a [Row]
        ensures { result.now ≡ drop (self.now.near + 1) self.now.rows.now }
    {
        &self.rows[self.near + 1..]
    }

    /// The row of the line that holds this place. It is `near` from now on.
    #[inline(always)]
    pub(crate) fn find(&mut self, place: usize) -> Row
        requires { place ≤ length self.old.text.now }
        ensures holds { Holds self.old.text.now result
            (drop (self.new.near + 1) self.new.rows.now) place }
        ensures text { self.new.text.now ≡ self.old.text.now }
    {
        while self.near > 0 && place < self.rows[self.near].start {
            self.near -= 1;
        }
        while self.near + 1 < self.rows.len() && self.rows[self.near + 1].start <= place {
            self.near += 1;
        }
        self.rows[self.near]
    }
}

/// How many bytes the plain line at the front has with its line feed, if its length is this: its
/// text, as that of a pattern.
pub(crate) fn plain_text_len(text: &[u8], len: usize) -> usize
    requires line { len ≡ length (rest_of_line text.now).0 }
    requires plain { is_plain (take len text.now) ≡ true }
    ensures len { result ≡ with_line_feed len text.now }
    ensures value { IsText text.now (Ok result) }
{
    let has_line_feed = begins_with(from(text, len), b'\n');
    len + usize::from(has_line_feed)
}

/// Whether a pattern ends after the line feed of a line, or after one more. The rows after that of
/// the line say so.
fn is_last_line(row: &Row, later: &[Row]) -> bool
    ensures { result ≡ is_last_line row.now later.now }
{
    match later {
        [] => false,
        [next] => row.feeds_into(next) & next.ends_pattern,
        [next, third, ..] => {
            row.feeds_into(next)
                & (next.ends_pattern
                    | (next.end == next.start) & next.feeds_into(third) & third.ends_pattern)
        }
    }
}

/// Whether the last byte of a line stands at this place, and a pattern ends after it. The rows
/// after that of the line say so.
pub(crate) fn feeds_last(row: &Row, later: &[Row], place: usize) -> bool
    ensures { result ≡ feeds_last row.now later.now place }
{
    match later {
        [] => false,
        [next, ..] => {
            row.end.saturating_sub(place) == 0
                && next.start.saturating_sub(place) == 1
                && next.ends_pattern
        }
    }
}
