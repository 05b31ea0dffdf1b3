//! Identifiers, numbers and strings.
#![tactic(auto, using(fluent_tokens::proofs::Counted::cuts))]

ghost use Rattle.std.specs.Prelude.{◌≡◌, ◌≤◌, true, length, drop};
ghost use Rattle.std.specs.List.{prefix_len};
ghost use Rattle.fluent_tokens.specs.Counted.{Cuts, character_or_space};
ghost use Rattle.fluent_grammar.specs.Words as w;
ghost use Rattle.fluent_grammar.specs.Refusal as r;
ghost use Rattle.fluent_grammar.specs.Reading.{first_char};
ghost use Rattle.fluent_parser.specs.Frame.{Advances};
ghost use Rattle.fluent_parser.specs.Depth.{IsShallow};
ghost use Rattle.fluent_parser.specs.Reads.{with_next_char};

use crate::fault::Fault;
use crate::parser::{Parser, behind};
use fluent_ast::Identifier;
use fluent_parsed::ErrorKind;
use fluent_text::Texts;
use fluent_tokens as words;
use fluent_tokens::StringEnd;

/// The character at the front of a text.
fn first_char(text: &str) -> &str
    ensures { result.now ≡ first_char text.now }
{
    &text[..words::char_len(text.as_bytes())]
}

/// So many bytes at the front of a text, and the character after them.
fn with_next_char(text: &str, count: usize) -> &str
    requires { Cuts text.now count }
    ensures { result.now ≡ with_next_char text.now count }
{
    let end = count + first_char(behind(text, count)).len();
    &text[..end]
}

impl<'p, S: Drop, T: Texts<S>> Parser<'p, S, T> {
    ghost use Rattle.fluent_parser.specs.Frame.{Reads};
    ghost use Rattle.fluent_parser.specs.Reads.{Tells};
    ghost use Rattle.fluent_ast.specs.View.{name_of};
    ghost use Rattle.fluent_grammar.specs.Reading.{identifier_at, number_at, string_content};

    /// Production `Identifier`.
    ///
    /// # Errors
    /// [`Fault::Refused`] with the range `a-zA-Z` if no letter stands here; the parser stays.
    /// [`Fault::Memory`] if memory runs out.
    #[tactic(auto, using(fluent_tokens::proofs::Counted::cuts), unfolding(fluent_grammar::specs::Reading::identifier_at))]
    #[inline(always)]
    pub fn get_identifier(&mut self) -> Result<Identifier<S>, Fault>
        ensures gives { Reads (name_of S T.text) self.old self.new result identifier_at }
        ensures shallow { IsShallow result }
        ensures advances { Advances self.old self.new }
    {
        let count = words::identifier_len(self.bytes());
        if count == 0 {
            return Err(self.expected_letter());
        }
        let name = self.take(count)?;
        Ok(Identifier { name })
    }

    /// Production `NumberLiteral`.
    ///
    /// # Errors
    /// [`Fault::Refused`] with the range `0-9` if a digit is missing; the parser then stands where
    /// one had to stand. [`Fault::Memory`] if memory runs out.
    pub fn get_number_literal(&mut self) -> Result<S, Fault>
        ensures gives { Reads T.text self.old self.new result number_at }
        ensures shallow { IsShallow result }
        ensures advances { Advances self.old self.new }
    {
        match words::number_len(self.bytes()) {
            Ok(count) => {
                let value = self.take(count)?;
                Ok(value)
            }
            Err(count) => {
                self.advance(count);
                Err(self.expected_digit())
            }
        }
    }

    /// The content of a string, after its opening quote, with the closing one. Production
    /// `StringLiteral`.
    ///
    /// # Errors
    /// [`Fault::Refused`] if the string isn't closed on its line, or an escape is none; the parser
    /// then stands at the place of the refusal. [`Fault::Memory`] if memory runs out.
    pub fn get_string_content(&mut self) -> Result<S, Fault>
        ensures gives { Reads T.text self.old self.new result string_content }
        ensures shallow { IsShallow result }
        ensures advances { Advances self.old self.new }
    {
        match words::string_end(self.bytes()) {
            StringEnd::Quote(count) => {
                let content = self.take(count)?;
                self.advance(1);
                Ok(content)
            }
            StringEnd::TextEnd(count) => {
                self.advance(count);
                Err(Fault::Refused(ErrorKind::ExpectedToken('"')))
            }
            StringEnd::LineFeed(count) => {
                self.advance(count);
                Err(Fault::Refused(ErrorKind::UnterminatedStringLiteral))
            }
            StringEnd::UnknownEscape(count) => {
                self.advance(count);
                Err(self.unknown_escape())
            }
            StringEnd::MissingDigit(start, end) => {
                self.advance(start);
                let fault = self.missing_digit(end - start);
                self.advance(end - start);
                Err(fault)
            }
        }
    }

    /// The refusal of what stands after a backslash: a character, or a space at the end.
    fn unknown_escape(&self) -> Fault
        requires { w.begins_with w.backslash self.now.rest.now ≡ true }
        ensures { Tells result (r.unknown_escape_sequence
            (character_or_space (drop 1 self.now.rest.now))) }
    {
        let escape = behind(self.rest(), 1);
        let text = if escape.is_empty() {
            " "
        } else {
            first_char(escape)
        };
        match String::from_str(self.alloc, text) {
            Ok(text) => Fault::Refused(ErrorKind::UnknownEscapeSequence(text)),
            Err(_) => Fault::Memory,
        }
    }

    /// The refusal of an escape with too few hex digits, which are shown with the character after
    /// them.
    fn missing_digit(&self, digits: usize) -> Fault
        requires { digits ≡ prefix_len w.is_hex_digit self.now.rest.now }
        ensures { Tells result (r.invalid_unicode_escape_sequence
            (with_next_char self.now.rest.now digits)) }
    {
        match String::from_str(self.alloc, with_next_char(self.rest(), digits)) {
            Ok(text) => Fault::Refused(ErrorKind::InvalidUnicodeEscapeSequence(text)),
            Err(_) => Fault::Memory,
        }
    }
}
