//! The parser's place in its source.
#![tactic(auto, using(fluent_tokens::proofs::Counted::cuts))]

ghost use Rattle.std.specs.Prelude.{◌≡◌, ◌+◌, ◌-◌, ◌<◌, ◌≤◌, length, drop, map, take, true, false, IfErr, IfOk, IfSome, OnErr, OnOk};
ghost use Rattle.std.specs.Str.{IsUtf8};
ghost use Rattle.fluent_tokens.specs.Counted.{Cuts, IsLine, IsText};
ghost use Rattle.fluent_tokens.specs.Lookup.{IsOneLine, is_last_feed, past_comments};
ghost use Rattle.fluent_grammar.specs.Lines.{pattern_ends};
ghost use Rattle.fluent_tokens.specs.IndentedTexts.{IsPlainLine};
ghost use Rattle.fluent_tokens.specs.Table as table;
ghost use Rattle.fluent_grammar.specs.Words as w;
ghost use Rattle.fluent_grammar.specs.Tiling.{resume};
ghost use Rattle.fluent_parser.specs.Reads.{past_byte};
ghost use Rattle.fluent_parser.specs.declared.fault.Fault.TheVariants.{TooDeep};

use crate::fault::Fault;
use fluent_text::Texts;
use fluent_text::stack::{Stack, StackBudget};
use fluent_tokens as words;
use fluent_tokens::{Lines, PlainLine, PlainLines, Row};
use std::alloc::{AllocError, Global};

/// A parser of a source, which stands before `rest`.
#[derive(Drop)]
pub struct Parser<'p, S, T: Texts<S>> {
    pub texts: &'p T,
    /// What texts are sliced from.
    source: &'p S,
    /// The text of the source.
    text: &'p str,
    /// What is left to read.
    rest: &'p str,
    /// The lines of the text.
    lines: Lines<'p>,
    pub alloc: Global,
    /// What is open of the message or the term that is read.
    stack: Stack,
    ghost tied: { T.text source.now ≡ text.now },
    ghost is_tail: { rest.now ≡ drop (length text.now - length rest.now) text.now },
    ghost lined: { lines.text.now ≡ text.now },
}

/// A text after so many bytes.
pub fn behind<'a>(text: &'a str, count: usize) -> &'a str
    requires { Cuts text.now count }
    ensures { result.now ≡ drop count text.now }
{
    &text[count..]
}

impl<'p, S: Drop, T: Texts<S>> Parser<'p, S, T> {
    ghost use Rattle.fluent_parser.specs.Frame.{Advances, StartsLine, Stays};

    /// A parser before a whole source, whose text has these lines. Within a message or a term it
    /// opens no more than the budget has.
    pub fn new(
        alloc: Global,
        texts: &'p T,
        source: &'p S,
        rows: &'p [Row],
        budget: StackBudget,
    ) -> Self
        requires { map table.row_view rows.now ≡ table.lines (T.text source.now) }
        ensures rest { result.rest.now ≡ T.text source.entry.now }
        ensures text { result.text.now ≡ T.text source.entry.now }
        ensures closed { result.stack.taken ≡ 0 }
        ensures budget { result.stack.budget ≡ budget }
    {
        let text = texts.as_str(source);
        Parser {
            texts,
            source,
            text,
            rest: text,
            lines: Lines::new(text.as_bytes(), rows),
            alloc,
            stack: Stack::new(budget),
        }
    }

    /// Opens what takes so many bytes of the machine's stack to read.
    ///
    /// # Errors
    /// [`Fault::TooDeep`] if that is more than is left of the budget; nothing is opened.
    pub fn open(&mut self, bytes: usize) -> Result<(), Fault>
        ensures opened { OnOk result (self.new.stack.taken ≡ self.old.stack.taken + bytes) }
        ensures past { OnErr result (self.old.stack.budget.bytes < self.old.stack.taken + bytes) }
        ensures told { IfErr result (λ fault. fault ≡ TooDeep) }
        ensures refused { OnErr result (self.new.stack.taken ≡ self.old.stack.taken) }
        ensures rest { self.new.rest.now ≡ self.old.rest.now }
        ensures text { self.new.text.now ≡ self.old.text.now }
        ensures budget { self.new.stack.budget ≡ self.old.stack.budget }
    {
        match self.stack.open(bytes) {
            Ok(()) => Ok(()),
            Err(_) => Err(Fault::TooDeep),
        }
    }

    /// Closes what took so many bytes.
    pub fn close(&mut self, bytes: usize)
        ensures closed { self.new.stack.taken ≡ self.old.stack.taken - bytes }
        ensures rest { self.new.rest.now ≡ self.old.rest.now }
        ensures text { self.new.text.now ≡ self.old.text.now }
        ensures budget { self.new.stack.budget ≡ self.old.stack.budget }
    {
        self.stack.close(bytes);
    }

    /// What is open, to come back to by `close_to`.
    pub fn stack(&self) -> Stack
        ensures taken { result.taken ≡ self.now.stack.taken }
        ensures budget { result.budget ≡ self.now.stack.budget }
    {
        self.stack
    }

    /// Closes what was opened since then, also what a refused construct left open.
    pub fn close_to(&mut self, stack: Stack)
        ensures closed { self.new.stack.taken ≡ stack.taken }
        ensures budget { self.new.stack.budget ≡ stack.budget }
        ensures rest { self.new.rest.now ≡ self.old.rest.now }
        ensures text { self.new.text.now ≡ self.old.text.now }
    {
        self.stack = stack;
    }

    /// What is left to read.
    pub fn bytes(&self) -> &'p [u8]
        ensures value { result.now ≡ self.now.rest.now }
        ensures utf8 { IsUtf8 result.now }
    {
        self.rest.as_bytes()
    }

    /// What is left to read, to come back to by `set_rest`.
    pub fn rest(&self) -> &'p str
        ensures { result.now ≡ self.now.rest.now }
    {
        self.rest
    }

    /// Goes back to what was left to read before.
    pub fn set_rest(&mut self, rest: &'p str)
        requires { rest.now ≡ drop (length self.old.text.now - length rest.now) self.old.text.now }
        ensures rest { self.new.rest.now ≡ rest.now }
        ensures text { self.new.text.now ≡ self.old.text.now }
        ensures stack { self.new.stack.taken ≡ self.old.stack.taken }
        ensures budget { self.new.stack.budget ≡ self.old.stack.budget }
    {
        self.rest = rest;
    }

    /// The offset in the source.
    pub fn place(&self) -> usize
        ensures value { result ≡ length self.now.text.now - length self.now.rest.now }
        ensures within { length self.now.rest.now ≤ length self.now.text.now }
    {
        self.text.len() - self.rest.len()
    }

    /// How many bytes are left of the line, without its line end.
    pub fn line_len(&mut self) -> usize
        ensures value { IsLine self.old.rest.now result }
        ensures cuts { Cuts self.old.rest.now result }
        ensures stays { Stays self.old self.new }
    {
        let place = self.place();
        self.lines.line_len(place)
    }

    /// How many bytes stand before the next line after this one that may begin an entry: all, where
    /// there is none.
    pub fn next_entry(&mut self) -> usize
        ensures value { drop result self.old.rest.now ≡ resume false self.old.rest.now }
        ensures cuts { Cuts self.old.rest.now result }
        ensures stays { Stays self.old self.new }
    {
        let place = self.place();
        self.lines.entry_start(place)
    }

    /// How many bytes stand here up to the end of this line and of the comment lines after it.
    pub fn comments_len(&mut self) -> usize
        ensures value { drop result self.old.rest.now ≡ past_comments false self.old.rest.now }
        ensures cuts { Cuts self.old.rest.now result }
        ensures stays { Stays self.old self.new }
    {
        let place = self.place();
        self.lines.comments_len(place)
    }

    /// The text of a pattern that stands after so many bytes: see `text_len` of `fluent_tokens`.
    ///
    /// # Errors
    /// The offset of a closing brace from here, if one comes first: no text may have it.
    #[inline(always)]
    pub fn text_len(&mut self, indent: usize) -> Result<usize, usize>
        requires { indent ≤ length self.old.rest.now }
        ensures value { IsText (drop indent self.old.rest.now) result }
        ensures stays { Stays self.old self.new }
    {
        let place = self.place() + indent;
        self.lines.text_len(place)
    }

    /// The length of a text that is all of a pattern: of one line, with its line feed.
    pub fn one_line_len(&mut self) -> Option<usize>
        ensures value { IsOneLine self.old.rest.now result }
        ensures stays { Stays self.old self.new }
    {
        let place = self.place();
        self.lines.one_line_len(place)
    }

    /// What the rows say of the pattern here, after the spaces before it: see `plain_lines` of
    /// `fluent_tokens`.
    pub fn plain_lines(&mut self) -> Option<PlainLines>
        ensures stays { Stays self.old self.new }
    {
        let place = self.place();
        self.lines.plain_lines(place)
    }

    /// The line that starts here, if it is plain and a pattern goes on with a text in it: see
    /// `plain_line` of `fluent_tokens`.
    pub fn plain_line(&mut self) -> Option<PlainLine>
        requires { StartsLine true self.old.text.now self.old.rest.now }
        ensures line { IfSome result (IsPlainLine self.old.rest.now) }
        ensures stays { Stays self.old self.new }
    {
        let place = self.place();
        self.lines.plain_line(place)
    }

    /// Whether a line feed stands here, after which a pattern ends.
    pub fn is_last_feed(&mut self) -> bool
        ensures value { result ≡ is_last_feed self.old.rest.now }
        ensures stays { Stays self.old self.new }
    {
        let place = self.place();
        self.lines.is_last_feed(place)
    }

    /// The row of the line that starts here.
    pub fn row(&mut self) -> Row
        requires { StartsLine true self.old.text.now self.old.rest.now }
        ensures spaces { result.spaces ≡ w.spaces self.old.rest.now }
        ensures ends_pattern { result.ends_pattern ≡ pattern_ends self.old.rest.now }
        ensures stays { Stays self.old self.new }
    {
        let place = self.place();
        self.lines.line_at(place)
    }

    /// Passes over so many bytes, after which a character begins.
    pub fn advance(&mut self, count: usize)
        requires { Cuts self.old.rest.now count }
        ensures rest { self.new.rest.now ≡ drop count self.old.rest.now }
        ensures advances { Advances self.old self.new }
    {
        self.rest = behind(self.rest, count);
    }

    /// The text of so many bytes at the place, passed over.
    ///
    /// # Errors
    /// [`AllocError`] if memory runs out; the bytes are passed over all the same.
    pub fn take(&mut self, count: usize) -> Result<S, AllocError>
        requires { Cuts self.old.rest.now count }
        ensures value { IfOk result (λ part. T.text part ≡ take count self.old.rest.now) }
        ensures rest { self.new.rest.now ≡ drop count self.old.rest.now }
        ensures advances { Advances self.old self.new }
    {
        let rest = self.bytes();
        let start = self.text.len() - rest.len();
        let part = self
            .texts
            .slice(self.source, self.alloc, start..start + count);
        self.advance(count);
        part
    }

    /// Whether the next byte is this one.
    pub fn is_current_byte(&self, byte: u8) -> bool
        ensures { result ≡ w.begins_with byte self.now.rest.now }
    {
        words::begins_with(self.bytes(), byte)
    }

    /// Passes over a byte, if it is the next one.
    pub fn take_byte_if(&mut self, byte: u8) -> bool
        requires { byte < 128 }
        ensures value { result ≡ w.begins_with byte self.old.rest.now }
        ensures rest { self.new.rest.now ≡ past_byte byte self.old.rest.now }
        ensures advances { Advances self.old self.new }
    {
        let found = self.is_current_byte(byte);
        if found {
            self.advance(1);
        }
        found
    }
}
