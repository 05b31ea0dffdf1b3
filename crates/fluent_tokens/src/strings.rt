//! Strings and their escapes.
#![tactic(auto, using(crate::proofs::Counted::cuts))]

ghost use Rattle.std.specs.Prelude.{◌≡◌, ◌<◌, length, slice_index};
ghost use Rattle.std.specs.List.{prefix_len};
ghost use Rattle.fluent_grammar.specs.Words as w;
ghost use Rattle.fluent_tokens.specs.Counted.{IsString, IsStringStep, IsHexStep};

/// How a text goes on from inside a string. Offsets are bytes of that text.
#[derive(Clone, Copy, Debug, PartialEq, Eq)]
pub enum StringEnd {
    /// The quote at this offset ends the string.
    Quote(usize),
    /// The text ends, at this offset.
    TextEnd(usize),
    /// A line feed at this offset.
    LineFeed(usize),
    /// A backslash at this offset begins no escape.
    UnknownEscape(usize),
    /// Too few hex digits are after `\u` or `\U`: the digits begin at the first offset, and end at
    /// the second.
    MissingDigit(usize, usize),
}

/// Where the content of a string ends, which begins at the front. Production `StringLiteral`.
pub fn string_end(text: &[u8]) -> StringEnd
    ensures { IsString text.now result }
{
    let mut end = 0;
    while end < text.len() {
        match string_step(&text[end..]) {
            StringStep::Part(count) => end += count,
            StringStep::Quote => return StringEnd::Quote(end),
            StringStep::LineFeed => return StringEnd::LineFeed(end),
            StringStep::UnknownEscape => return StringEnd::UnknownEscape(end),
            StringStep::MissingDigit(count) => return StringEnd::MissingDigit(
                end + 2,
                end + 2 + count,
            ),
        }
    }
    StringEnd::TextEnd(end)
}

/// What stands next in a string.
enum StringStep {
    /// Bytes of its content.
    Part(usize),
    Quote,
    LineFeed,
    UnknownEscape,
    /// An escape with only this many hex digits.
    MissingDigit(usize),
}

/// What stands at the front of what is left of a string.
fn string_step(text: &[u8]) -> StringStep
    requires { 0 < length text.now }
    ensures { IsStringStep text.now result }
{
    if text[0] == b'"' {
        StringStep::Quote
    } else if text[0] == b'\n' {
        StringStep::LineFeed
    } else if text[0] == b'\\' {
        escape_step(text)
    } else {
        StringStep::Part(1)
    }
}

/// What stands at the front, which is a backslash.
fn escape_step(text: &[u8]) -> StringStep
    requires some { 0 < length text.now }
    requires backslash { slice_index text.now 0 ≡ 92 }
    ensures { IsStringStep text.now result }
{
    if text.len() < 2 {
        StringStep::UnknownEscape
    } else if text[1] == b'\\' || text[1] == b'"' {
        StringStep::Part(2)
    } else if text[1] == b'u' {
        hex_step(&text[2..], 4)
    } else if text[1] == b'U' {
        hex_step(&text[2..], 6)
    } else {
        StringStep::UnknownEscape
    }
}

/// An escape of this many hex digits, which these follow. The digits are content like other bytes.
fn hex_step(digits: &[u8], wanted: usize) -> StringStep
    ensures { IsHexStep wanted (prefix_len w.is_hex_digit digits.now) result }
{
    let count = hex_digits_len(digits);
    if count < wanted {
        StringStep::MissingDigit(count)
    } else {
        StringStep::Part(2)
    }
}

/// How many hex digits stand at the front.
fn hex_digits_len(text: &[u8]) -> usize
    ensures { result ≡ prefix_len w.is_hex_digit text.now }
{
    text.iter()
        .take_while(|byte| matches!(**byte, b'0'..=b'9' | b'a'..=b'f' | b'A'..=b'F'))
        .count()
}
