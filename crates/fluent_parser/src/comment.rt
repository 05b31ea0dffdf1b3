//! Comments.
#![tactic(auto, using(crate::proofs::Failing::handed, fluent_tokens::proofs::Counted::cuts))]

ghost use Rattle.std.specs.Prelude.{◌≡◌, ℕ, List, ◌<◌, ◌≤◌, ◌-◌, ◌&&◌, ◌==◌, true, length, drop, map};
ghost use Rattle.fluent_grammar.specs.Words as w;
ghost use Rattle.fluent_tokens.specs.Counted.{is_comment_line};
ghost use Rattle.fluent_grammar.specs.Reading.{comment_of};
ghost use Rattle.fluent_ast.specs.View.{entry_view};
ghost use Rattle.fluent_parser.specs.Frame.{Advances};
ghost use Rattle.fluent_parser.specs.Depth.{IsShallow};

use crate::fault::Fault;
use crate::parser::Parser;
use fluent_ast::{Comment, Entry};
use fluent_parsed::ErrorKind;
use fluent_text::Texts;
use fluent_tokens as words;

/// The comment of so many signs: one, two or three.
fn comment_of<S>(level: usize, content: Vec<S>) -> Entry<S>
    ensures { (text_of : S → List ℕ) → entry_view S text_of result
        ≡ comment_of level (map text_of content.items) }
{
    let comment = Comment { content };
    match level {
        1 => Entry::Comment(comment),
        2 => Entry::GroupComment(comment),
        _ => Entry::ResourceComment(comment),
    }
}

impl<'p, S: Drop, T: Texts<S>> Parser<'p, S, T> {
    ghost use Rattle.fluent_parser.specs.Comments.{ReadsLine};
    ghost use Rattle.fluent_parser.specs.Frame.{Reads};
    ghost use Rattle.fluent_ast.specs.View.{entry_view};
    ghost use Rattle.fluent_grammar.specs.Reading.{comment_line_at, comment_at};
    ghost use Rattle.fluent_parser.specs.Entries.{line_of, comment_content_by};

    /// A comment with all its lines, from its first sign on. Productions `CommentLine`,
    /// `GroupComment` and `ResourceComment`.
    ///
    /// # Errors
    /// [`Fault::Refused`] if its first line is no line of a comment; the parser then stands at the
    /// place of the refusal. [`Fault::Memory`] if memory runs out.
    pub fn get_comment(&mut self) -> Result<Entry<S>, Fault>
        requires sign { w.begins_with w.number_sign self.old.rest.now ≡ true }
        ensures gives { Reads (entry_view S T.text) self.old self.new result comment_at }
        ensures shallow { IsShallow result }
        ensures advances { Advances self.old self.new }
    {
        let level = words::comment_level(self.bytes());
        let content = self.get_comment_content(level)?;
        Ok(comment_of(level, content))
    }

    /// The lines of a comment of this level. The first one has to stand here.
    fn get_comment_content(&mut self, level: usize) -> Result<Vec<S>, Fault>
        requires signs { level ≡ w.comment_level self.old.rest.now }
        requires some { 0 < level }
        ensures gives { Reads (λ lines. map T.text lines.items) self.old self.new result
            (comment_content_by level) }
        ensures shallow { IsShallow result }
        ensures advances { Advances self.old self.new }
    {
        let mut lines = Vec::new(self.alloc);
        self.push_comment_line(level, &mut lines)?;
        while self.is_comment_line(level) {
            self.push_comment_line(level, &mut lines)?;
        }
        Ok(lines)
    }

    /// Whether a line of a comment of this level stands here.
    fn is_comment_line(&self, level: usize) -> bool
        ensures { result ≡ (w.comment_level self.now.rest.now == level && is_comment_line
            (drop level self.now.rest.now)) }
    {
        let line = self.bytes();
        words::comment_level(line) == level && words::is_comment_line(&line[level..])
    }

    /// Puts the line that stands here after others of its comment.
    #[inline(always)]
    fn push_comment_line(&mut self, level: usize, lines: &mut Vec<S>) -> Result<(), Fault>
        requires signs { level ≡ w.comment_level self.old.rest.now }
        ensures gives { ReadsLine T.text level lines.old.items lines.new.items self.old self.new
            result }
        ensures past { length self.new.rest.now ≤ length self.old.rest.now - level }
        ensures shallow { IsShallow result }
        ensures advances { Advances self.old self.new }
    {
        self.advance(level);
        if let Some(line) = self.get_comment_line()? {
            lines.push(line)?;
        }
        Ok(())
    }

    /// What stands after the sign of a comment's line. None at the end of the text, where a sign
    /// adds no line.
    #[inline(always)]
    fn get_comment_line(&mut self) -> Result<Option<S>, Fault>
        ensures gives { Reads (line_of T.text) self.old self.new result comment_line_at }
        ensures shallow { IsShallow result }
        ensures advances { Advances self.old self.new }
    {
        if self.bytes().is_empty() {
            return Ok(None);
        }
        if !words::is_comment_line(self.bytes()) {
            return Err(Fault::Refused(ErrorKind::ExpectedToken(' ')));
        }
        self.take_byte_if(b' ');
        let count = self.line_len();
        let line = self.take(count)?;
        self.skip_eol();
        Ok(Some(line))
    }
}
