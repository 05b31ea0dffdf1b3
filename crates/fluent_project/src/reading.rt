//! Patterns as they are written.
ghost use Rattle.std.specs.Prelude.{◌≡◌, ◌≤◌, ◌<◌, ◌==◌, ◌++◌, ◌∷◌, [], IfErr, IfOk, IfSome, OnOk, Ok, length, option_map};
ghost use Rattle.std.specs.List.{position};
ghost use Rattle.fluent_project.specs.declared.reading.PatternError.TheVariants.{Memory};
ghost use Rattle.fluent_project.specs.ReadingViews.{IsRefusedAs, read, token_view, views};
ghost use Rattle.fluent_project.specs.Written.{behind, parts_for, parts_named, pattern_parts, same_text, token, token_at, trimmed, variable_at, wildcard_at};

use crate::part::{Part, Wildcard};
use std::alloc::{AllocError, Global};

/// A name that stands for parts of patterns, as `{name}`.
#[derive(Clone, Copy)]
pub struct Variable<'v> {
    /// The name, without braces and blanks.
    pub name: &'v [u8],
    /// The parts that it stands for.
    pub parts: &'v [Part],
}

/// Why a text is no pattern.
#[derive(Clone, Copy)]
pub enum PatternError<'text> {
    /// Memory ran out.
    Memory,
    /// A brace is no variable: it isn't closed, or no variable has the name in it. This follows it.
    NoVariable(&'text [u8]),
}

impl From<AllocError> for PatternError<'_> {
    ghost from_gives = { λ _ error. error ≡ Memory };

    fn from(_error: AllocError) -> Self {
        PatternError::Memory
    }
}

/// The parts of a pattern: `**/`, `**` at the end, `*`, `{locale}`, these variables as `{name}`,
/// and bytes that stand for themselves. Blanks beside the name of a variable don't count.
///
/// # Errors
/// [`PatternError::NoVariable`]: a brace that is no variable. [`PatternError::Memory`]: memory ran
/// out.
pub fn parts_of<'text>(
    alloc: Global,
    variables: &[Variable<'_>],
    text: &'text [u8],
) -> Result<Vec<Part>, PatternError<'text>>
    ensures parts { IfOk result (λ parts.
        pattern_parts (views variables.now) text.now ≡ Ok parts.items) }
    ensures refused { IfErr result (IsRefusedAs (pattern_parts (views variables.now) text.now)) }
{
    let mut parts = Vec::new(alloc);
    push_parts(&mut parts, variables, true, text)?;
    Ok(parts)
}

/// What a pattern has at a place.
#[derive(Clone, Copy)]
struct Token<'v> {
    /// Its parts: one, and those of a variable.
    part: Option<Part>,
    parts: &'v [Part],
    /// How many bytes follow the first one there.
    extra: usize,
    /// Whether `**` may stand after it.
    at_start: bool,
}

/// A part that has this many bytes.
fn token_of<'v>(part: Part, extra: usize, at_start: bool) -> Token<'v>
    ensures { token_view result ≡ token (part ∷ []) extra at_start }
{
    Token {
        part: Some(part),
        parts: &[],
        extra,
        at_start,
    }
}

/// Appends the parts of the rest of a pattern. `at_start` says whether `**` may stand here.
#[cycle(reading)]
fn push_parts<'text>(
    parts: &mut Vec<Part>,
    variables: &[Variable<'_>],
    at_start: bool,
    text: &'text [u8],
) -> Result<(), PatternError<'text>>
    ensures ok { OnOk result (Ok parts.new.items
        ≡ behind parts.old.items (read variables.now at_start text.now)) }
    ensures refused { IfErr result (IsRefusedAs (read variables.now at_start text.now)) }
{
    match text {
        [] => Ok(()),
        [byte, rest @ ..] => push_from(parts, variables, at_start, *byte, rest),
    }
}

/// Appends the parts of the rest of a pattern, of which this is the first byte and this the rest.
#[cycle(reading)]
fn push_from<'text>(
    parts: &mut Vec<Part>,
    variables: &[Variable<'_>],
    at_start: bool,
    byte: u8,
    rest: &'text [u8],
) -> Result<(), PatternError<'text>>
    ensures ok { OnOk result (Ok parts.new.items
        ≡ behind parts.old.items (read variables.now at_start (byte ∷ rest.now))) }
    ensures refused { IfErr result (IsRefusedAs (read variables.now at_start (byte ∷ rest.now))) }
{
    match token_at(variables, at_start, byte, rest) {
        None => Err(PatternError::NoVariable(rest)),
        Some(token) => {
            push_token(parts, &token)?;
            push_parts(parts, variables, token.at_start, &rest[token.extra..])
        }
    }
}

/// Appends the parts of a token.
fn push_token(parts: &mut Vec<Part>, token: &Token<'_>) -> Result<(), AllocError>
    ensures { OnOk result (parts.new.items ≡ parts.old.items ++ (token_view token.now).parts) }
{
    if let Some(part) = token.part {
        parts.push(part)?;
    }
    parts.extend_from_slice(token.parts)
}

/// What stands at a place, of which this is the first byte and this the rest. `None` for a brace
/// that is no variable.
fn token_at<'v>(
    variables: &[Variable<'v>],
    at_start: bool,
    byte: u8,
    rest: &[u8],
) -> Option<Token<'v>>
    ensures token { option_map token_view result
        ≡ token_at (views variables.now) at_start byte rest.now }
    ensures within { IfSome result (λ token. token.extra ≤ length rest.now) }
{
    match byte {
        b'*' => Some(wildcard_at(at_start, rest)),
        b'{' => variable_at(variables, rest),
        _ => Some(token_of(Part::Byte(byte), 0, byte == b'/')),
    }
}

/// The wildcard in what follows an asterisk.
fn wildcard_at<'v>(at_start: bool, rest: &[u8]) -> Token<'v>
    ensures token { token_view result ≡ wildcard_at at_start rest.now }
    ensures within { result.extra ≤ length rest.now }
{
    match rest {
        [b'*'] if at_start => token_of(Part::Wildcard(Wildcard::Rest), 1, false),
        [b'*', b'/', ..] if at_start => token_of(Part::Wildcard(Wildcard::Folders), 2, true),
        _ => token_of(Part::Wildcard(Wildcard::Star), 0, false),
    }
}

/// The variable in what follows an opening brace, if there is one.
fn variable_at<'v>(variables: &[Variable<'v>], rest: &[u8]) -> Option<Token<'v>>
    ensures token { option_map token_view result ≡ variable_at (views variables.now) rest.now }
    ensures within { IfSome result (λ token. token.extra ≤ length rest.now) }
{
    let len = brace_at(rest)?;
    let parts = parts_for(variables, trimmed(&rest[..len]))?;
    Some(Token {
        part: None,
        parts,
        extra: len + 1,
        at_start: true,
    })
}

/// Where the first closing brace is.
fn brace_at(text: &[u8]) -> Option<usize>
    ensures place { result ≡ position (λ byte. byte == 125) text.now }
    ensures within { IfSome result (λ place. place < length text.now) }
{
    text.iter().position(|byte| *byte == b'}')
}

/// A text without the blanks at its ends.
pub fn trimmed(text: &[u8]) -> &[u8]
    ensures { result.now ≡ trimmed text.now }
{
    text.trim_ascii()
}

/// The parts that a name stands for.
fn parts_for<'v>(variables: &[Variable<'v>], name: &[u8]) -> Option<&'v [Part]>
    ensures { option_map (λ parts. parts.now) result ≡ parts_for (views variables.now) name.now }
{
    if is_same(b"locale", name) {
        Some(&[Part::Locale])
    } else {
        parts_named(variables, name)
    }
}

/// The parts of the first variable of a name.
fn parts_named<'v>(variables: &[Variable<'v>], name: &[u8]) -> Option<&'v [Part]>
    ensures { option_map (λ parts. parts.now) result ≡ parts_named (views variables.now) name.now }
{
    match variables {
        [] => None,
        [variable, others @ ..] => {
            if is_same(variable.name, name) {
                Some(variable.parts)
            } else {
                parts_named(others, name)
            }
        }
    }
}

/// Whether two texts are the same.
pub fn is_same(text: &[u8], other: &[u8]) -> bool
    ensures { result ≡ same_text text.now other.now }
{
    match text {
        [] => match other {
            [] => true,
            [_, ..] => false,
        },
        [byte, text @ ..] => match other {
            [] => false,
            [first, other @ ..] => *byte == *first && is_same(text, other),
        },
    }
}
