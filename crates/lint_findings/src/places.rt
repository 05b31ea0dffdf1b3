//! Places of a source, each reached from another one.

ghost use Rattle.std.specs.Prelude.{◌≡◌, ◌+◌, ◌-◌, ◌<◌, ◌≤◌, ◌++◌, ℕ, List, drop, length, min, Some};
ghost use Rattle.std.specs.Str.{IsCharBoundary};
ghost use Rattle.fluent_grammar.specs.Escapes.{is_continuation as is_continuation_byte};
ghost use Rattle.lint_findings.specs.Position.{line_from, position_of, to_line_end};
ghost use Rattle.lint_findings.specs.PlaceView.{IsAfter, IsNextFeed, IsNoFeed, IsPlaceIn, end_of_front, place_position, place_text};

use memchr::memchr;
use std::fmt;

/// An offset of a source, with its line and column. Its text is `LINE:COLUMN`.
#[derive(Clone, Copy, Debug, PartialEq, Eq)]
pub struct SourcePosition {
    offset: usize,
    line_start: usize,
    line: usize,
    column: usize,
}

impl SourcePosition {
    /// The start of any source.
    pub fn start() -> SourcePosition
        ensures { (source : List ℕ) → IsPlaceIn source result }
    {
        SourcePosition {
            offset: 0,
            line_start: 0,
            line: 1,
            column: 1,
        }
    }

    /// How many bytes are before this place.
    pub fn offset(self) -> usize
        ensures { result ≡ self.offset }
    {
        self.offset
    }

    /// The offset of the start of its line.
    pub fn line_start(self) -> usize
        ensures { result ≡ self.line_start }
    {
        self.line_start
    }

    /// The number of its line, from 1.
    pub fn line(self) -> usize
        ensures { result ≡ self.line }
    {
        self.line
    }

    /// The number of its column, from 1. A column counts characters.
    pub fn column(self) -> usize
        ensures { result ≡ self.column }
    {
        self.column
    }

    /// The place of an offset in the same source, or the source's end if the offset is after it.
    /// Each line between this place and that one is looked for, so the places of a source take one
    /// walk in all if they are in order. If that one is on a line above, its line is read from the
    /// start.
    pub fn moved_to(self, source: &str, offset: usize) -> SourcePosition
        requires { IsPlaceIn source.now self }
        ensures place { IsPlaceIn source.now result }
        ensures offset { result.offset ≡ min offset (length source.now) }
        ensures position { position_of source.now offset ≡ place_position result }
        ensures line { line_from source.now offset source.now ≡ drop result.line_start source.now }
    {
        let bytes = source.as_bytes();
        let offset = offset.min(bytes.len());
        let mut place = self;
        while offset < place.line_start {
            place = place.line_above(bytes);
        }
        while offset < place.offset {
            place = place.before_byte(bytes);
        }
        while let Some(length) = memchr(b'\n', &bytes[place.offset..offset]) {
            place = place.after_line(bytes, place.offset + length);
        }
        while place.offset < offset {
            place = place.after_byte(bytes);
        }
        place
    }

    /// The front of the line of this place, and the text from this place on. If this place is
    /// within a character, the front ends after the character; if it is within a line end, the
    /// front ends before that.
    pub fn split<'a>(self, source: &'a str) -> (&'a str, &'a str)
        requires { IsPlaceIn source.now self }
        ensures line { to_line_end (drop self.line_start source.now) ≡ result.0.now ++ to_line_end result.1.now }
        ensures column { IsAfter result.0.now result.1.now (self.column - 1) }
    {
        let place = self.after_character(source);
        let end = end_of_front(source.as_bytes(), place.offset);
        (&source[place.line_start..end], &source[end..])
    }

    /// The place after the character that this one is within, or else this one.
    fn after_character(self, source: &str) -> SourcePosition
        requires { IsPlaceIn source.now self }
        ensures place { IsPlaceIn source.now result }
        ensures boundary { IsCharBoundary source.now result.offset }
        ensures line_start { result.line_start ≡ self.line_start }
        ensures column { result.column ≡ self.column }
    {
        let mut place = self;
        while !source.is_char_boundary(place.offset) {
            place.offset += 1;
        }
        place
    }

    /// The place before the byte in front of this one, on the same line.
    fn before_byte(self, source: &[u8]) -> SourcePosition
        requires place { IsPlaceIn source.now self }
        requires not_first { self.line_start < self.offset }
        ensures place { IsPlaceIn source.now result }
        ensures offset { result.offset + 1 ≡ self.offset }
        ensures line_start { result.line_start ≡ self.line_start }
    {
        let offset = self.offset - 1;
        if is_continuation(source[offset]) {
            SourcePosition { offset, ..self }
        } else {
            SourcePosition {
                offset,
                column: self.column - 1,
                ..self
            }
        }
    }

    /// The start of the next line, if this place's line ends at this line feed.
    fn after_line(self, source: &[u8], feed: usize) -> SourcePosition
        requires place { IsPlaceIn source.now self }
        requires feed { IsNextFeed source.now self.offset feed }
        ensures place { IsPlaceIn source.now result }
        ensures offset { result.offset ≡ feed + 1 }
    {
        let start = feed + 1;
        SourcePosition {
            offset: start,
            line_start: start,
            line: self.line + 1,
            column: 1,
        }
    }

    /// The place after the byte at this one, which isn't a line feed.
    fn after_byte(self, source: &[u8]) -> SourcePosition
        requires place { IsPlaceIn source.now self }
        requires before_end { self.offset < length source.now }
        requires on_line { IsNoFeed source.now self.offset }
        ensures place { IsPlaceIn source.now result }
        ensures offset { result.offset ≡ self.offset + 1 }
    {
        let offset = self.offset + 1;
        if is_continuation(source[self.offset]) {
            SourcePosition { offset, ..self }
        } else {
            SourcePosition {
                offset,
                column: self.column + 1,
                ..self
            }
        }
    }

    /// The start of the line above this place's.
    fn line_above(self, source: &[u8]) -> SourcePosition
        requires place { IsPlaceIn source.now self }
        requires not_first { 0 < self.line_start }
        ensures place { IsPlaceIn source.now result }
        ensures above { result.line_start < self.line_start }
    {
        let mut start = self.line_start - 1;
        while start > 0 && source[start - 1] != b'\n' {
            start -= 1;
        }
        SourcePosition {
            offset: start,
            line_start: start,
            line: self.line - 1,
            column: 1,
        }
    }
}

/// The end of a line's front that is up to here: one byte less, if that is within a line end.
fn end_of_front(source: &[u8], offset: usize) -> usize
    requires { offset ≤ length source.now }
    ensures { result ≡ end_of_front source.now offset }
{
    let is_within = offset > 0
        && offset < source.len()
        && source[offset] == b'\n'
        && source[offset - 1] == b'\r';
    if is_within { offset - 1 } else { offset }
}

/// Whether a byte is in a character, after its first.
fn is_continuation(byte: u8) -> bool
    ensures { result ≡ is_continuation_byte byte }
{
    matches!(byte, 0x80..=0xBF)
}

impl fmt::Display for SourcePosition {
    ghost output = { λ place. Some (place_text place) };

    fn fmt<W: fmt::Write>(&self, f: &mut fmt::Formatter<W>) -> fmt::Result {
        write!(f, "{}:{}", self.line, self.column)
    }
}
