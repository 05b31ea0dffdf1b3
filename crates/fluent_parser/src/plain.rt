//! Patterns of plain lines.
#![tactic(auto, using(fluent_tokens::proofs::Counted::cuts))]

ghost use Rattle.std.specs.Prelude.{◌≡◌, ◌<◌, IfOk, IfSome, length, drop, false};
ghost use Rattle.fluent_parser.specs.Frame.{Advances, StartsLine, Stays};
ghost use Rattle.fluent_parser.specs.Depth.{IsShallow};
ghost use Rattle.fluent_parser.specs.PlainLines.{IsNextText, GivesPlain, EndsPattern, said};

use crate::fault::Fault;
use crate::parser::Parser;
use fluent_ast::{Pattern, PatternElement};
use fluent_parsed::{DedentedElements, is_blank_text};
use fluent_text::Texts;
use fluent_tokens as words;
use fluent_tokens::{PlainLine, PlainLines};
use std::alloc::AllocError;

/// What a text says of the common indent, which begins its line or not: nothing within a line or if
/// it is blank.
fn said(at_line_start: bool, line: &PlainLine) -> Option<usize>
    ensures { result ≡ said at_line_start line.now }
{
    (at_line_start && !line.is_blank).then_some(line.indent)
}

impl<'p, S: Drop, T: Texts<S>> Parser<'p, S, T> {
    ghost use Rattle.fluent_parser.specs.PlainLines.{PutsPlain};

    /// A pattern that stands in plain lines. Their rows say what indent they share, so that each
    /// text is cut once, and how many there are, so that the list of elements never grows. `None`
    /// if the pattern is none of that kind: nothing was read then.
    ///
    /// # Errors
    /// [`Fault::Memory`] if memory runs out.
    #[inline(always)]
    pub fn get_plain_lines(&mut self) -> Result<Option<Pattern<S>>, Fault>
        ensures gives { GivesPlain S T.text self.old.rest.now self.new.rest.now result }
        ensures shallow { IsShallow result }
        ensures advances { Advances self.old self.new }
    {
        match self.plain_lines() {
            Some(lines) => self.get_lines_as_told(lines),
            None => Ok(None),
        }
    }

    /// The same, of what the rows say.
    #[inline(never)]
    fn get_lines_as_told(&mut self, told: PlainLines) -> Result<Option<Pattern<S>>, Fault>
        ensures gives { GivesPlain S T.text self.old.rest.now self.new.rest.now result }
        ensures shallow { IsShallow result }
        ensures advances { Advances self.old self.new }
    {
        let before = self.rest();
        let mut at_line_start = self.skip_to_line();
        let mut dedented = DedentedElements::new(self.alloc, told.count, told.common_indent)?;
        while let Some(ends_line) = self.get_plain_line(at_line_start, &mut dedented)? {
            at_line_start = ends_line;
        }
        if self.skip_pattern_end(at_line_start) {
            if let Some(pattern) = dedented.finish(self.texts) {
                return Ok(Some(pattern));
            }
        }
        self.set_rest(before);
        Ok(None)
    }

    /// Reads the next plain line of a pattern, puts it after those that were read, and says whether
    /// it ends its line. `None` if none stands here: nothing was read then.
    fn get_plain_line(
        &mut self,
        at_line_start: bool,
        dedented: &mut DedentedElements<S>,
    ) -> Result<Option<bool>, AllocError>
        requires { StartsLine at_line_start self.old.text.now self.old.rest.now }
        ensures gives { IfOk result (PutsPlain S T.text at_line_start self.old.rest.now
            self.new.rest.now dedented.old dedented.new) }
        ensures less { IfOk result (λ found. IfSome found
            (λ ends. length self.new.rest.now < length self.old.rest.now)) }
        ensures advances { Advances self.old self.new }
    {
        let Some(line) = self.next_text(at_line_start) else {
            return Ok(None);
        };
        let cut = dedented.cut_len(line.indent);
        self.advance(cut);
        let value = self.take(line.indent - cut + line.count)?;
        dedented.push(
            PatternElement::TextElement { value },
            said(at_line_start, &line),
        )?;
        Ok(Some(line.ends_line))
    }

    /// The text that stands here after the spaces before it, if a pattern goes on with one.
    fn next_text(&mut self, at_line_start: bool) -> Option<PlainLine>
        requires { StartsLine at_line_start self.old.text.now self.old.rest.now }
        ensures text { IfSome result (IsNextText at_line_start self.old.rest.now) }
        ensures stays { Stays self.old self.new }
    {
        if at_line_start {
            self.plain_line()
        } else {
            self.text_in_line()
        }
    }

    /// The text that stands here within a line, if one does.
    fn text_in_line(&mut self) -> Option<PlainLine>
        ensures text { IfSome result (IsNextText false self.old.rest.now) }
        ensures stays { Stays self.old self.new }
    {
        let rest = self.bytes();
        if rest.is_empty() || words::begins_with(rest, b'{') || words::begins_crlf(rest) {
            return None;
        }
        let Ok(count) = self.text_len(0) else {
            return None;
        };
        let text = words::front(rest, count);
        Some(PlainLine {
            indent: 0,
            count,
            is_blank: is_blank_text(text),
            ends_line: words::ends_line(text),
        })
    }

    /// Whether a pattern ends here. A last line feed is passed over.
    fn skip_pattern_end(&mut self, at_line_start: bool) -> bool
        requires { StartsLine at_line_start self.old.text.now self.old.rest.now }
        ensures end { EndsPattern result at_line_start self.old.rest.now self.new.rest.now }
        ensures advances { Advances self.old self.new }
    {
        if !at_line_start {
            return self.bytes().is_empty();
        }
        if self.is_last_feed() {
            self.advance(1);
            return true;
        }
        self.row().ends_pattern
    }
}
