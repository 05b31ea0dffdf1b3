//! Patterns.
#![tactic(auto, using(crate::proofs::Failing::handed, fluent_tokens::proofs::Counted::cuts))]

ghost use Rattle.std.specs.Prelude.{◌≡◌, ◌≤◌, ◌<◌, ◌||◌, ◌&&◌, ◌==◌, IfOk, OnOk, IfSome, Some, true, false, length, drop, map, option_map};
ghost use Rattle.fluent_grammar.specs.Words as w;
ghost use Rattle.fluent_grammar.specs.Lines.{indent_of};
ghost use Rattle.fluent_parser.specs.Steps.{text_piece};
ghost use Rattle.fluent_tokens.specs.Lookup.{IsOneLine};
ghost use Rattle.fluent_tokens.specs.IndentedTexts.{IsTextStart};
ghost use Rattle.fluent_parser.specs.Frame.{Advances, Closes, ClosesPlaceable, StartsLine};
ghost use Rattle.fluent_parser.specs.Depth.{IfTooDeep, IsShallow, Past};
ghost use Rattle.fluent_parser.specs.Nesting.{TakesLines, TakesPattern, TakesPieces, TakesPlaceable};

use crate::expression::discard;
use crate::fault::Fault;
use crate::parser::Parser;
use fluent_ast::{InlineExpression, Pattern, PatternElement, Variant};
use fluent_parsed::{ErrorKind, IndentedElements, is_blank_text};
use fluent_text::Texts;
use fluent_tokens as words;

/// What a text says of the common indent, after so many spaces at a line start or within a line:
/// nothing where it is blank.
pub fn said_by(at_line_start: bool, indent: usize, text: &[u8]) -> Option<usize>
    ensures { result ≡ indent_of (text_piece at_line_start indent text.now) }
{
    if at_line_start && !is_blank_text(text) {
        Some(indent)
    } else {
        None
    }
}

/// Whether a piece after so many spaces, at a line start or within a line, stands at column zero.
fn is_column_zero(at_line_start: bool, indent: usize) -> bool
    ensures { result ≡ (at_line_start && indent == 0) }
{
    at_line_start && indent == 0
}

impl<'p, S: Drop, T: Texts<S>> Parser<'p, S, T> {
    ghost use Rattle.fluent_parser.specs.Frame.{Reads};
    ghost use Rattle.fluent_parser.specs.Steps.{pattern_by, pattern_behind, kept_piece_by, piece_from, placeable_piece_by, indent_at, text_from, first_place};
    ghost use Rattle.fluent_ast.specs.View.{pattern_view};
    ghost use Rattle.fluent_parser.specs.Pieces.{ReadsPiece};
    ghost use Rattle.fluent_parser.specs.Selects.{piece_end_by};

    /// A pattern, or none where nothing but blank stands. Production `Pattern`.
    ///
    /// # Errors
    /// [`Fault::Refused`] if a piece of the pattern is refused; the parser then stands at the place
    /// of the refusal. [`Fault::Memory`] if memory runs out. [`Fault::TooDeep`] if what is there
    /// nests past the budget of the stack.
    #[cycle(parser)]
    pub fn get_pattern(&mut self) -> Result<Option<Pattern<S>>, Fault>
        ensures gives { Reads (option_map (pattern_view S T.text)) self.old self.new result
            pattern_by }
        ensures deep { IfTooDeep result (Past TakesPattern self.old) }
        ensures advances { Closes result self.old self.new }
    {
        self.skip_blank_inline();
        if let Some(count) = self.one_line_len() {
            return self.get_one_line(count);
        }
        self.get_lines()
    }

    /// A pattern of one line, whose text has so many bytes with its line feed. Most patterns are
    /// such.
    fn get_one_line(&mut self, count: usize) -> Result<Option<Pattern<S>>, Fault>
        requires line { IsOneLine self.old.rest.now (Some count) }
        ensures gives { Reads (option_map (pattern_view S T.text)) self.old self.new result
            pattern_behind }
        ensures shallow { IsShallow result }
        ensures advances { Advances self.old self.new }
    {
        let mut value = self.take(count)?;
        self.take_byte_if(b'\n');
        self.texts.trim(&mut value);
        let mut elements = Vec::with_capacity(self.alloc, 1)?;
        elements.push(PatternElement::TextElement { value })?;
        Ok(Some(Pattern { elements }))
    }

    /// Any pattern, after the blank before it.
    #[cycle(parser)]
    fn get_lines(&mut self) -> Result<Option<Pattern<S>>, Fault>
        ensures gives { Reads (option_map (pattern_view S T.text)) self.old self.new result
            pattern_behind }
        ensures deep { IfTooDeep result (Past TakesLines self.old) }
        ensures advances { Closes result self.old self.new }
    {
        if let Some(pattern) = self.get_plain_lines()? {
            return Ok(Some(pattern));
        }
        let mut at_line_start = self.skip_to_line();
        let mut gathered = IndentedElements::new(self.alloc, at_line_start);
        while let Some(ends_line) = self.get_piece(at_line_start, &mut gathered)? {
            at_line_start = ends_line;
        }
        let pattern = gathered.finish(self.alloc, self.texts)?;
        Ok(pattern)
    }

    /// Passes over a line end and the blank lines after it, and says whether one stood here.
    #[inline(always)]
    pub fn skip_to_line(&mut self) -> bool
        ensures place { (result, self.new.rest.now)
            ≡ first_place self.old.rest.now (w.after_line_end self.old.rest.now) }
        ensures advances { Advances self.old self.new }
    {
        let begins_line = self.skip_eol();
        if begins_line {
            self.skip_blank_block();
        }
        begins_line
    }

    /// Reads the next piece of a pattern, puts it after those that were gathered, and says whether
    /// it ends its line. None where the pattern ends. A blank line after most patterns would be a
    /// piece of its own, which is dropped again: its line feed is passed over.
    #[cycle(parser)]
    fn get_piece(
        &mut self,
        at_line_start: bool,
        gathered: &mut IndentedElements<S>,
    ) -> Result<Option<bool>, Fault>
        requires { StartsLine at_line_start self.old.text.now self.old.rest.now }
        ensures gives { ReadsPiece T.text gathered.old gathered.new self.old self.new result
            (kept_piece_by at_line_start) }
        ensures less { IfOk result (λ found. IfSome found
            (λ ends. length self.new.rest.now < length self.old.rest.now)) }
        ensures deep { IfTooDeep result (Past (TakesPieces at_line_start) self.old) }
        ensures advances { Closes result self.old self.new }
    {
        if !at_line_start {
            return self.get_piece_behind(false, 0, gathered);
        }
        if self.is_last_feed() {
            self.advance(1);
            return Ok(None);
        }
        let row = self.row();
        if row.ends_pattern {
            return Ok(None);
        }
        self.get_piece_behind(true, row.spaces as usize, gathered)
    }

    /// The same for a piece after so many spaces. Productions `inline_text`, `block_text`,
    /// `inline_placeable` and `block_placeable`.
    #[cycle(parser)]
    fn get_piece_behind(
        &mut self,
        at_line_start: bool,
        indent: usize,
        gathered: &mut IndentedElements<S>,
    ) -> Result<Option<bool>, Fault>
        requires indent { indent ≡ indent_at at_line_start self.old.rest.now }
        ensures gives { ReadsPiece T.text gathered.old gathered.new self.old self.new result
            (piece_from at_line_start indent) }
        ensures less { IfOk result (λ found. IfSome found
            (λ ends. length self.new.rest.now < length self.old.rest.now)) }
        ensures deep { IfTooDeep result (Past (TakesPieces at_line_start) self.old) }
        ensures advances { Closes result self.old self.new }
    {
        let behind = words::from(self.bytes(), indent);
        if behind.is_empty() {
            self.advance(indent);
            Ok(None)
        } else if words::begins_with(behind, b'{') {
            self.advance(indent);
            self.get_placeable_piece(is_column_zero(at_line_start, indent), gathered)
        } else if words::begins_crlf(behind) {
            self.advance(indent + 1);
            let value = self.take(1)?;
            gathered.push(PatternElement::TextElement { value }, None)?;
            Ok(Some(true))
        } else {
            self.get_text_piece(at_line_start, indent, gathered)
        }
    }

    /// The same for a placeable, from its opening brace on. Little is kept in its frame of the
    /// stack: placeables nest.
    #[cycle(parser)]
    #[tactic(auto, using(crate::proofs::Failing::handed, crate::proofs::Steps::placeable_read, crate::proofs::Steps::placeable_fails, crate::proofs::Steps::select_fails))]
    #[inline(always)]
    fn get_placeable_piece(
        &mut self,
        column_zero: bool,
        gathered: &mut IndentedElements<S>,
    ) -> Result<Option<bool>, Fault>
        requires brace { w.begins_with w.open_brace self.old.rest.now ≡ true }
        ensures gives { ReadsPiece T.text gathered.old gathered.new self.old self.new result
            (placeable_piece_by column_zero) }
        ensures less { length self.new.rest.now < length self.old.rest.now }
        ensures deep { IfTooDeep result (Past TakesPlaceable self.old) }
        ensures advances { Closes result self.old self.new }
    {
        self.open_placeable()?;
        let selector = self.get_inline_expression()?;
        match self.get_variants_of(&selector) {
            Ok(variants) => self.close_placeable_piece(selector, variants, column_zero, gathered),
            Err(fault) => {
                discard(selector);
                Err(fault)
            }
        }
    }

    /// The rest of a placeable in a pattern, after its selector and its variants.
    #[inline(never)]
    fn close_placeable_piece(
        &mut self,
        selector: InlineExpression<S>,
        variants: Option<Vec<Variant<S>>>,
        column_zero: bool,
        gathered: &mut IndentedElements<S>,
    ) -> Result<Option<bool>, Fault>
        ensures gives { ReadsPiece T.text gathered.old gathered.new self.old self.new result
            (piece_end_by S T.text column_zero selector variants) }
        ensures shallow { IsShallow result }
        ensures closed { OnOk result (ClosesPlaceable self.old self.new) }
        ensures text { self.new.text.now ≡ self.old.text.now }
        ensures budget { self.new.stack.budget ≡ self.old.stack.budget }
        ensures onward { length self.new.rest.now ≤ length self.old.rest.now }
    {
        let expression = self.close_placeable(selector, variants)?;
        let element = PatternElement::Placeable { expression };
        gathered.push(element, column_zero.then_some(0))?;
        Ok(Some(false))
    }

    /// The same for a text after so many spaces.
    fn get_text_piece(
        &mut self,
        at_line_start: bool,
        indent: usize,
        gathered: &mut IndentedElements<S>,
    ) -> Result<Option<bool>, Fault>
        requires indent { indent ≡ indent_at at_line_start self.old.rest.now }
        requires some { IsTextStart (drop indent self.old.rest.now) }
        ensures gives { ReadsPiece T.text gathered.old gathered.new self.old self.new result
            (text_from at_line_start indent) }
        ensures less { IfOk result (λ found. IfSome found
            (λ ends. length self.new.rest.now < length self.old.rest.now)) }
        ensures shallow { IsShallow result }
        ensures advances { Advances self.old self.new }
    {
        let behind = words::from(self.bytes(), indent);
        match self.text_len(indent) {
            Ok(count) => {
                let text = words::front(behind, count);
                let said = said_by(at_line_start, indent, text);
                let value = self.take(indent + count)?;
                gathered.push(PatternElement::TextElement { value }, said)?;
                Ok(Some(words::ends_line(text)))
            }
            Err(count) => {
                self.advance(indent + count);
                Err(Fault::Refused(ErrorKind::UnbalancedClosingBrace))
            }
        }
    }
}
