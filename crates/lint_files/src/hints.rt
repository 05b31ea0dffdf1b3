//! Hints at the causes of syntax errors.
#![tactic(auto, using(fluent_tokens::proofs::Counted::cuts))]

ghost use Rattle.std.specs.Prelude.{◌≡◌, Some};
ghost use Rattle.std.specs.Option.{option_copied};
ghost use Rattle.fluent_grammar.specs.Refusal as r;
ghost use Rattle.lint_findings.specs.Hints as hints;
ghost use Rattle.lint_findings.specs.Hints.{first_hint, hints as hints_by};
ghost use Rattle.fluent_parsed.specs.ErrorView as told;
ghost use Rattle.lint_files.specs.Kinds.{kind_of, refusal_by};

use crate::front::begins_attribute;
use crate::mark::has_mark;
use fluent_parsed::ErrorKind;
use fluent_tokens as words;

const EMPTY_TEXT: &str = "write an empty text as `{ \"\" }`";

const TAB: &str = "a tab isn't an indent; use spaces";

const MESSAGE: &str = "a variable is written `$name`, and an attribute `message.attribute`";

const ESCAPES: &str = "the escapes are `\\\\`, `\\\"`, `\\u` with 4 hex digits and `\\U` with 6";

/// The hint at the cause of an error of this kind in junk, if there is one. `at` is the text from
/// the error on.
pub fn hint(kind: &ErrorKind, junk: &str, at: &str) -> Option<&'static str>
    ensures { option_copied result ≡ hints.hint junk.now (refusal_by kind.now at.now) }
{
    match kind {
        ErrorKind::ExpectedToken(token) => hint_for_token(*token, junk, at),
        ErrorKind::ExpectedCharRange { range } => hint_for_range(range, junk, at),
        ErrorKind::ExpectedMessageField { .. } | ErrorKind::ExpectedTermField { .. } => {
            Some(hint_for_value(at))
        }
        ErrorKind::ExpectedInlineExpression => hint_for_expression(at),
        ErrorKind::ForbiddenCallee => Some("functions are written in capitals, as `NUMBER($n)`"),
        ErrorKind::MissingValue => Some(EMPTY_TEXT),
        ErrorKind::MissingDefaultVariant => Some("mark the one for all other cases, as `*[other]`"),
        ErrorKind::MessageReferenceAsSelector | ErrorKind::MessageAttributeAsSelector => {
            Some(MESSAGE)
        }
        ErrorKind::TermReferenceAsSelector => {
            Some("one of its attributes can, as `-term.attribute`")
        }
        ErrorKind::ExpectedSimpleExpressionAsSelector => Some("remove the inner braces"),
        ErrorKind::TermAttributeAsPlaceable => Some("it can be a selector, before `->`"),
        ErrorKind::UnknownEscapeSequence(_) => Some(ESCAPES),
        ErrorKind::InvalidUnicodeEscapeSequence(_) => {
            Some("`\\u` needs 4 hex digits, and `\\U` needs 6")
        }
        ErrorKind::UnbalancedClosingBrace => Some("write a brace in a text as `{ \"}\" }`"),
        ErrorKind::MultipleDefaultVariants
        | ErrorKind::UnterminatedStringLiteral
        | ErrorKind::PositionalArgumentFollowsNamed
        | ErrorKind::DuplicatedNamedArgument(_)
        | ErrorKind::ExpectedLiteral => None,
    }
}

/// The hint if a token is missing.
fn hint_for_token(token: char, junk: &str, at: &str) -> Option<&'static str>
    ensures { option_copied result
        ≡ hints.first_hint (hints.hints junk.now at.now (r.expected_token token)) }
{
    match token {
        '=' => hint_for_equals(junk, at),
        '}' => hint_for_brace(at),
        _ => None,
    }
}

/// The hint if `=` is missing.
fn hint_for_equals(junk: &str, at: &str) -> Option<&'static str>
    ensures { option_copied result ≡ hints.first_hint (hints.hints_for_equals junk.now at.now) }
{
    match at.as_bytes() {
        [b'.', ..] => Some("an identifier has only letters, digits, `-` and `_`"),
        [b':', ..] => Some("write `=` before the value"),
        _ if begins_attribute(junk) => None,
        _ => Some("a line that continues a text begins with at least one space"),
    }
}

/// The hint if a placeable isn't closed.
fn hint_for_brace(at: &str) -> Option<&'static str>
    ensures { option_copied result ≡ hints.first_hint (hints.hints_for_brace at.now) }
{
    match at.as_bytes() {
        [b'.', ..] => Some("a variable has no attributes"),
        [b'>', ..] => Some("an arrow has a space before it, as in `{ $name ->`"),
        _ => None,
    }
}

/// The hint if a character of a range is missing: there is one if nothing at the front of junk
/// begins an entry.
fn hint_for_range(range: &str, junk: &str, at: &str) -> Option<&'static str>
    ensures { option_copied result ≡ first_hint
        (hints_by junk.now at.now (kind_of (told.expected_char_range range.now))) }
{
    if range == "a-zA-Z" && at.len() == junk.len() {
        hint_for_entry(junk)
    } else {
        None
    }
}

/// The hint if nothing at the front of junk begins an entry.
fn hint_for_entry(junk: &str) -> Option<&'static str>
    ensures { option_copied result ≡ hints.first_hint (hints.hints_for_entry junk.now) }
{
    if has_mark(junk) {
        return Some("this is a byte order mark; save the file without it");
    }
    let text = junk.as_bytes();
    if begins_conflict(text) {
        return Some("this is an unresolved merge conflict");
    }
    match text {
        [b'\t', ..] => Some(TAB),
        [b' ', ..] => Some("an entry begins at the start of a line"),
        [b'/' | b';' | b'<', ..] => Some("a comment begins with `# `"),
        _ => None,
    }
}

/// Whether a text begins with what version control writes into a file at a conflict.
fn begins_conflict(text: &[u8]) -> bool
    ensures { result ≡ hints.begins_conflict text.now }
{
    text.starts_with(b"<<<<<<<") || text.starts_with(b"=======") || text.starts_with(b">>>>>>>")
}

/// The hint if an entry has nothing to hold.
fn hint_for_value(at: &str) -> &'static str
    ensures { Some result.now ≡ hints.first_hint (hints.hints_for_value at.now) }
{
    if words::begins_with(at.as_bytes(), b'\t') {
        TAB
    } else {
        EMPTY_TEXT
    }
}

/// The hint if no expression begins.
fn hint_for_expression(at: &str) -> Option<&'static str>
    ensures { option_copied result ≡ hints.first_hint (hints.hints_for_expression at.now) }
{
    let text = at.as_bytes();
    if begins_other_quote(text) {
        Some("a string is written between straight quotes, `\"`")
    } else if words::begins_with(text, b'}') {
        Some("write a brace in a text as `{ \"{\" }`")
    } else {
        None
    }
}

/// Whether a text begins with a quote that isn't `"`.
fn begins_other_quote(text: &[u8]) -> bool
    ensures { result ≡ hints.begins_other_quote text.now }
{
    match text {
        [b'\'', ..] => true,
        [0xE2, 0x80, 0x98..=0x9A | 0x9C..=0x9E, ..] => true,
        [0xC2, 0xAB | 0xBB, ..] => true,
        _ => false,
    }
}
