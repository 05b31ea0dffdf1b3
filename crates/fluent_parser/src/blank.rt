//! Passing over blanks and line ends.
#![tactic(auto, using(fluent_tokens::proofs::Counted::cuts))]

ghost use Rattle.std.specs.Prelude.{◌≡◌, ◌≤◌, not, ◌==◌, is_some, unwrap_or, length};
ghost use Rattle.fluent_grammar.specs.Words as w;
ghost use Rattle.fluent_parser.specs.Frame.{Advances};

use crate::parser::Parser;
use fluent_text::Texts;
use fluent_tokens as words;

impl<'p, S: Drop, T: Texts<S>> Parser<'p, S, T> {
    /// Passes over spaces.
    pub fn skip_blank_inline(&mut self)
        ensures rest { self.new.rest.now ≡ w.skip_spaces self.old.rest.now }
        ensures advances { Advances self.old self.new }
    {
        self.advance(words::blank_inline_len(self.bytes()));
    }

    /// Passes over spaces and line ends.
    pub fn skip_blank(&mut self)
        ensures rest { self.new.rest.now ≡ w.skip_blank self.old.rest.now }
        ensures advances { Advances self.old self.new }
    {
        self.advance(words::blank_len(self.bytes()));
    }

    /// Passes over blank lines, and says whether there was one.
    pub fn skip_blank_block(&mut self) -> bool
        ensures value { result ≡ not (length self.new.rest.now == length self.old.rest.now) }
        ensures rest { self.new.rest.now ≡ w.skip_blank_block self.old.rest.now }
        ensures advances { Advances self.old self.new }
    {
        let count = words::blank_block_len(self.bytes());
        self.advance(count);
        count > 0
    }

    /// Passes over a line end, if one stands here.
    pub fn skip_eol(&mut self) -> bool
        ensures value { result ≡ is_some (w.after_line_end self.old.rest.now) }
        ensures rest { self.new.rest.now ≡ unwrap_or (w.after_line_end self.old.rest.now)
            self.old.rest.now }
        ensures advances { Advances self.old self.new }
    {
        let count = words::line_end_len(self.bytes());
        self.advance(count);
        count > 0
    }
}
