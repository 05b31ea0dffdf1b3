//! The front of a text, in words.
#![tactic(auto, using(fluent_tokens::proofs::Counted::cuts))]

ghost use Rattle.std.specs.Prelude.{◌≡◌, Some};
ghost use Rattle.fluent_grammar.specs.Reading.{first_char};
ghost use Rattle.lint_findings.specs.SyntaxErrors.{begins_attribute, front_in_words};

use fluent_tokens as words;
use std::fmt;

/// The front of a text, in words: a character in backticks, or a name for what is hard to see.
#[derive(Clone, Copy)]
pub struct Front<'a>(pub &'a str);

impl fmt::Display for Front<'_> {
    ghost output = { λ front. Some (front_in_words front.0.now) };

    fn fmt<W: fmt::Write>(&self, f: &mut fmt::Formatter<W>) -> fmt::Result {
        let text = self.0;
        if words::line_end_len(text.as_bytes()) > 0 {
            return f.write_str("the end of the line");
        }
        match text.as_bytes() {
            [] => f.write_str("the end of the file"),
            [b' ', ..] => f.write_str("a space"),
            [b'\t', ..] => f.write_str("a tab"),
            _ => write!(f, "`{}`", first_char(text)),
        }
    }
}

/// The character at the front of a text.
fn first_char(text: &str) -> &str
    ensures { result.now ≡ first_char text.now }
{
    &text[..words::char_len(text.as_bytes())]
}

/// Whether junk begins with an attribute: spaces and a dot.
pub fn begins_attribute(junk: &str) -> bool
    ensures { result ≡ begins_attribute junk.now }
{
    let text = junk.as_bytes();
    words::begins_with(&text[words::blank_inline_len(text)..], b'.')
}
