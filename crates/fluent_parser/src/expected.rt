//! What has to stand at the place, and the refusals where it is missing.
#![tactic(auto, using(fluent_tokens::proofs::Counted::cuts))]

ghost use Rattle.std.specs.Prelude.{◌≡◌, ◌<◌, ◌≤◌, length};
ghost use Rattle.fluent_grammar.specs.Refusal as r;
ghost use Rattle.fluent_parser.specs.Frame.{Advances};
ghost use Rattle.fluent_parser.specs.Depth.{IsShallow};

use crate::fault::Fault;
use crate::parser::Parser;
use fluent_parsed::ErrorKind;
use fluent_text::Texts;

impl<'p, S: Drop, T: Texts<S>> Parser<'p, S, T> {
    ghost use Rattle.fluent_parser.specs.Frame.{Reads};
    ghost use Rattle.fluent_parser.specs.Reads.{Tells, IsRange, byte_at};

    /// Passes over a byte that has to stand here.
    ///
    /// # Errors
    /// [`Fault::Refused`] with `ExpectedToken` if another byte stands here; the parser stays.
    pub fn expect_byte(&mut self, byte: u8) -> Result<(), Fault>
        requires { byte < 128 }
        ensures gives { Reads (λ u. u) self.old self.new result (byte_at byte) }
        ensures shallow { IsShallow result }
        ensures advances { Advances self.old self.new }
    {
        if self.take_byte_if(byte) {
            Ok(())
        } else {
            Err(Fault::Refused(ErrorKind::ExpectedToken(char::from(byte))))
        }
    }

    /// The refusal where a letter is missing.
    pub fn expected_letter(&self) -> Fault
        ensures { Tells result r.expected_letter }
    {
        self.expected_range("a-zA-Z")
    }

    /// The refusal where a digit is missing.
    pub fn expected_digit(&self) -> Fault
        ensures { Tells result r.expected_digit }
    {
        self.expected_range("0-9")
    }

    /// The refusal where a line end is missing.
    pub fn expected_line_end(&self) -> Fault
        ensures { Tells result r.expected_line_end }
    {
        self.expected_range("\n | \r\n")
    }

    /// The refusal where characters of this range are missing.
    fn expected_range(&self, range: &str) -> Fault
        ensures { IsRange result range.now }
    {
        match String::from_str(self.alloc, range) {
            Ok(range) => Fault::Refused(ErrorKind::ExpectedCharRange { range }),
            Err(_) => Fault::Memory,
        }
    }
}
