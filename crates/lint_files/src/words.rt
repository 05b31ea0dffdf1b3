//! Syntax errors in words.
#![tactic(auto, using(fluent_tokens::proofs::Counted::cuts))]

ghost use Rattle.std.specs.Prelude.{◌≡◌, Some};
ghost use Rattle.fluent_grammar.specs.Refusal as r;
ghost use Rattle.lint_findings.specs.SyntaxErrors as syntax;
ghost use Rattle.fluent_parsed.specs.ErrorView as told;
ghost use Rattle.lint_files.specs.Kinds.{kind_of, refusal_by};
ghost use Rattle.lint_files.specs.Words.{sentence_text};

use crate::front::Front;
use crate::names::{Name, name_at_front};
use fluent_parsed::ErrorKind;
use std::fmt;

/// A sentence on a syntax error.
#[derive(Clone, Copy)]
pub enum Sentence<'a> {
    /// A sentence that is the same for each refusal of its kind.
    Statement(&'static str),
    /// These words say what is expected, and this text is there.
    Expected(&'static str, &'a str),
    /// An equals sign is expected after this name. The text is what is there.
    ExpectedEquals(Name<'a>, &'a str),
    /// This character after a backslash begins no escape.
    UnknownEscape(&'a str),
    /// Two arguments of a call have this name.
    TwoArguments(&'a str),
}

impl fmt::Display for Sentence<'_> {
    ghost output = { λ sentence. Some (sentence_text sentence) };

    fn fmt<W: fmt::Write>(&self, f: &mut fmt::Formatter<W>) -> fmt::Result {
        match *self {
            Sentence::Statement(words) => f.write_str(words),
            Sentence::Expected(words, at) => write!(f, "expected {words}, found {}", Front(at)),
            Sentence::ExpectedEquals(name, at) => {
                write!(f, "expected `=` after `{name}`, found {}", Front(at))
            }
            Sentence::UnknownEscape(character) => write!(f, "unknown escape `\\{character}`"),
            Sentence::TwoArguments(name) => write!(f, "there are two arguments `{name}`"),
        }
    }
}

impl<'a> Sentence<'a> {
    /// The sentence for an error of this kind in junk. `at` is the text from the error on.
    pub fn new(kind: &'a ErrorKind, junk: &'a str, at: &'a str) -> Sentence<'a>
        ensures { sentence_text result ≡ syntax.sentence junk.now (refusal_by kind.now at.now) }
    {
        use Sentence::{Expected, Statement};
        match kind {
            ErrorKind::ExpectedToken(token) => expected_token(*token, junk, at),
            ErrorKind::ExpectedCharRange { range } => expected_range(range, junk, at),
            ErrorKind::ExpectedInlineExpression => Expected("an expression", at),
            ErrorKind::ExpectedLiteral => Expected(LITERAL, at),
            ErrorKind::InvalidUnicodeEscapeSequence(_) => Expected("a hex digit", at),
            ErrorKind::UnknownEscapeSequence(character) => Sentence::UnknownEscape(character),
            ErrorKind::DuplicatedNamedArgument(name) => Sentence::TwoArguments(name),
            ErrorKind::ExpectedMessageField { .. } => Statement(EMPTY_MESSAGE),
            ErrorKind::ExpectedTermField { .. } => Statement("the term has no value"),
            ErrorKind::ForbiddenCallee => Statement(FORBIDDEN_CALLEE),
            ErrorKind::MissingDefaultVariant => Statement("no variant is marked with `*`"),
            ErrorKind::MissingValue => Statement("a variant or an attribute has no value"),
            ErrorKind::MultipleDefaultVariants => Statement("a second variant is marked with `*`"),
            // No source has an attribute of a message refused as a selector.
            ErrorKind::MessageReferenceAsSelector | ErrorKind::MessageAttributeAsSelector => {
                Statement("a message can't be a selector")
            }
            ErrorKind::TermReferenceAsSelector => Statement("a term can't be a selector"),
            ErrorKind::ExpectedSimpleExpressionAsSelector => {
                Statement("a placeable can't be a selector")
            }
            ErrorKind::TermAttributeAsPlaceable => Statement(
                "an attribute of a term can't be shown",
            ),
            ErrorKind::UnterminatedStringLiteral => Statement(
                "the string isn't closed on its line",
            ),
            ErrorKind::PositionalArgumentFollowsNamed => {
                Statement("a positional argument follows a named one")
            }
            ErrorKind::UnbalancedClosingBrace => Statement("`}` has no matching `{`"),
        }
    }
}

const LITERAL: &str = "a string or a number as the value of a named argument";

const EMPTY_MESSAGE: &str = "the message has neither a value nor an attribute";

const FORBIDDEN_CALLEE: &str = "the name of a function can't have lowercase letters";

/// The sentence if a token is missing.
fn expected_token<'a>(token: char, junk: &'a str, at: &'a str) -> Sentence<'a>
    ensures { sentence_text result ≡ syntax.sentence_of junk.now at.now (r.expected_token token) }
{
    let words = match token {
        '=' => match name_at_front(junk) {
            Some(name) => return Sentence::ExpectedEquals(name, at),
            None => "`=`",
        },
        '}' => "`}` at the end of a placeable",
        ']' => "`]` after the key of a variant",
        ')' => "`)` at the end of the arguments",
        '"' => "`\"` at the end of a string",
        _ => "a space after `#`",
    };
    Sentence::Expected(words, at)
}

/// The sentence if a character of a range is missing. Where a letter is missing at the front of
/// junk, an entry is.
fn expected_range<'a>(range: &str, junk: &str, at: &'a str) -> Sentence<'a>
    ensures { sentence_text result ≡ syntax.sentence_of junk.now at.now
        (kind_of (told.expected_char_range range.now)) }
{
    let words = if range == "0-9" {
        "a digit"
    } else if range != "a-zA-Z" {
        "the end of the line after `->`"
    } else if at.len() == junk.len() {
        "a message, a term or a comment"
    } else {
        "an identifier"
    };
    Sentence::Expected(words, at)
}
