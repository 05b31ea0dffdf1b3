//! What a source gets wrong, and where.

ghost use Rattle.std.specs.Prelude.{◌≡◌, Some, IfOk};
ghost use Rattle.fluent_parsed.specs.ErrorView.{error_view, kind_name, kind_view};

use std::alloc::{AllocError, Global};
use std::fmt;
use std::ops::Range;

/// One error of a source. Offsets are bytes of the source.
///
/// ```
/// println!(rt; "{error} at byte {}", error.pos.start)?; // ExpectedToken at byte 20
/// ```
#[derive(Debug, PartialEq, Eq, Drop)]
pub struct ParserError {
    /// Where the error was found.
    pub pos: Range<usize>,
    /// The junk that the error made. Each error of a whole source has one.
    pub slice: Option<Range<usize>>,
    pub kind: ErrorKind,
}

/// What was wrong. Its text is the name of its variant.
///
/// ```no_run
/// if let ErrorKind::ExpectedToken(token) = &error.kind {
///     println!(rt; "{token} is missing at byte {}", error.pos.start)?; // } is missing at byte 9
/// }
/// ```
#[derive(Debug, PartialEq, Eq, Drop)]
pub enum ErrorKind {
    /// This character is expected there.
    ExpectedToken(char),
    /// A character of this range is expected there: `a-zA-Z` for an identifier, `0-9` for a digit,
    /// and the line ends after the arrow of a select.
    ExpectedCharRange { range: String },
    /// The message of this name has neither a value nor an attribute.
    ExpectedMessageField { entry_id: String },
    /// The term of this name has no value.
    ExpectedTermField { entry_id: String },
    /// A function's name holds another character than capitals, digits, `_` and `-`.
    ForbiddenCallee,
    /// No variant of a select is marked with `*`.
    MissingDefaultVariant,
    /// A variant has no value.
    MissingValue,
    /// A second variant of a select is marked with `*`.
    MultipleDefaultVariants,
    /// A message is the selector of a select.
    MessageReferenceAsSelector,
    /// A term without attribute is the selector of a select.
    TermReferenceAsSelector,
    /// An attribute of a message is the selector of a select. It may be one: no source has this
    /// error.
    MessageAttributeAsSelector,
    /// An attribute of a term is a placeable of its own.
    TermAttributeAsPlaceable,
    /// A string literal isn't closed on its line.
    UnterminatedStringLiteral,
    /// An argument without a name follows one with a name.
    PositionalArgumentFollowsNamed,
    /// Two arguments of a call have this name.
    DuplicatedNamedArgument(String),
    /// This character follows a backslash that begins none of the four escapes; a space stands for
    /// the end of the source.
    UnknownEscapeSequence(String),
    /// Too few hex digits: those that were read, and the character where reading stopped.
    InvalidUnicodeEscapeSequence(String),
    /// A text has a closing brace.
    UnbalancedClosingBrace,
    /// No expression begins there.
    ExpectedInlineExpression,
    /// A placeable is the selector of a select.
    ExpectedSimpleExpressionAsSelector,
    /// The value of a named argument is neither a string nor a number literal.
    ExpectedLiteral,
}

impl ErrorKind {
    /// The same kind.
    ///
    /// # Errors
    /// [`AllocError`] if memory runs out; nothing is kept.
    pub fn try_clone(&self, alloc: Global) -> Result<Self, AllocError>
        ensures { IfOk result (λ copy. kind_view copy ≡ kind_view self.now) }
    {
        Ok(match self {
            ErrorKind::ExpectedToken(token) => ErrorKind::ExpectedToken(*token),
            ErrorKind::ExpectedCharRange { range } => ErrorKind::ExpectedCharRange {
                range: String::from_str(alloc, range.as_str())?,
            },
            ErrorKind::ExpectedMessageField { entry_id } => ErrorKind::ExpectedMessageField {
                entry_id: String::from_str(alloc, entry_id.as_str())?,
            },
            ErrorKind::ExpectedTermField { entry_id } => ErrorKind::ExpectedTermField {
                entry_id: String::from_str(alloc, entry_id.as_str())?,
            },
            ErrorKind::ForbiddenCallee => ErrorKind::ForbiddenCallee,
            ErrorKind::MissingDefaultVariant => ErrorKind::MissingDefaultVariant,
            ErrorKind::MissingValue => ErrorKind::MissingValue,
            ErrorKind::MultipleDefaultVariants => ErrorKind::MultipleDefaultVariants,
            ErrorKind::MessageReferenceAsSelector => ErrorKind::MessageReferenceAsSelector,
            ErrorKind::TermReferenceAsSelector => ErrorKind::TermReferenceAsSelector,
            ErrorKind::MessageAttributeAsSelector => ErrorKind::MessageAttributeAsSelector,
            ErrorKind::TermAttributeAsPlaceable => ErrorKind::TermAttributeAsPlaceable,
            ErrorKind::UnterminatedStringLiteral => ErrorKind::UnterminatedStringLiteral,
            ErrorKind::PositionalArgumentFollowsNamed => ErrorKind::PositionalArgumentFollowsNamed,
            ErrorKind::DuplicatedNamedArgument(text) => ErrorKind::DuplicatedNamedArgument(
                String::from_str(alloc, text.as_str())?,
            ),
            ErrorKind::UnknownEscapeSequence(text) => ErrorKind::UnknownEscapeSequence(
                String::from_str(alloc, text.as_str())?,
            ),
            ErrorKind::InvalidUnicodeEscapeSequence(text) =>
                ErrorKind::InvalidUnicodeEscapeSequence(String::from_str(alloc, text.as_str())?),
            ErrorKind::UnbalancedClosingBrace => ErrorKind::UnbalancedClosingBrace,
            ErrorKind::ExpectedInlineExpression => ErrorKind::ExpectedInlineExpression,
            ErrorKind::ExpectedSimpleExpressionAsSelector =>
                ErrorKind::ExpectedSimpleExpressionAsSelector,
            ErrorKind::ExpectedLiteral => ErrorKind::ExpectedLiteral,
        })
    }

    /// The name of the variant.
    fn name(&self) -> &'static str
        ensures { result.now ≡ kind_name (kind_view self.now) }
    {
        match self {
            ErrorKind::ExpectedToken(_) => "ExpectedToken",
            ErrorKind::ExpectedCharRange { range: _ } => "ExpectedCharRange",
            ErrorKind::ExpectedMessageField { entry_id: _ } => "ExpectedMessageField",
            ErrorKind::ExpectedTermField { entry_id: _ } => "ExpectedTermField",
            ErrorKind::ForbiddenCallee => "ForbiddenCallee",
            ErrorKind::MissingDefaultVariant => "MissingDefaultVariant",
            ErrorKind::MissingValue => "MissingValue",
            ErrorKind::MultipleDefaultVariants => "MultipleDefaultVariants",
            ErrorKind::MessageReferenceAsSelector => "MessageReferenceAsSelector",
            ErrorKind::TermReferenceAsSelector => "TermReferenceAsSelector",
            ErrorKind::MessageAttributeAsSelector => "MessageAttributeAsSelector",
            ErrorKind::TermAttributeAsPlaceable => "TermAttributeAsPlaceable",
            ErrorKind::UnterminatedStringLiteral => "UnterminatedStringLiteral",
            ErrorKind::PositionalArgumentFollowsNamed => "PositionalArgumentFollowsNamed",
            ErrorKind::DuplicatedNamedArgument(_) => "DuplicatedNamedArgument",
            ErrorKind::UnknownEscapeSequence(_) => "UnknownEscapeSequence",
            ErrorKind::InvalidUnicodeEscapeSequence(_) => "InvalidUnicodeEscapeSequence",
            ErrorKind::UnbalancedClosingBrace => "UnbalancedClosingBrace",
            ErrorKind::ExpectedInlineExpression => "ExpectedInlineExpression",
            ErrorKind::ExpectedSimpleExpressionAsSelector => "ExpectedSimpleExpressionAsSelector",
            ErrorKind::ExpectedLiteral => "ExpectedLiteral",
        }
    }
}

impl fmt::Display for ErrorKind {
    ghost output = { λ kind. Some (kind_name (kind_view kind)) };

    fn fmt<W: fmt::Write>(&self, f: &mut fmt::Formatter<W>) -> fmt::Result {
        f.write_str(self.name())
    }
}

impl ParserError {
    /// The same error.
    ///
    /// # Errors
    /// [`AllocError`] if memory runs out; nothing is kept.
    pub fn try_clone(&self, alloc: Global) -> Result<Self, AllocError>
        ensures { IfOk result (λ copy. error_view copy ≡ error_view self.now) }
    {
        Ok(ParserError {
            pos: clone_range(&self.pos),
            slice: self.slice.as_ref().map(clone_range),
            kind: self.kind.try_clone(alloc)?,
        })
    }
}

fn clone_range(range: &Range<usize>) -> Range<usize>
    ensures { result ≡ range.now }
{
    range.start..range.end
}

/// The text of the error's kind.
impl fmt::Display for ParserError {
    ghost output = { λ error. Some (kind_name (kind_view error.kind)) };

    fn fmt<W: fmt::Write>(&self, f: &mut fmt::Formatter<W>) -> fmt::Result {
        f.write_str(self.kind.name())
    }
}

impl std::error::Error for ErrorKind {}

impl std::error::Error for ParserError {}
