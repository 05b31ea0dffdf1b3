//! The name at the front of junk.
#![tactic(auto, using(fluent_tokens::proofs::Counted::cuts))]

ghost use Rattle.std.specs.Prelude.{◌≡◌, Some, option_map};
ghost use Rattle.lint_findings.specs.SyntaxErrors.{name_at_front, signed_name};
ghost use Rattle.lint_files.specs.Words.{name_text};

use crate::front::begins_attribute;
use fluent_tokens as words;
use std::fmt;

/// A name: of a message, of a term with its minus, or of an attribute with its dot.
#[derive(Clone, Copy)]
pub struct Name<'a> {
    sign: &'static str,
    id: &'a str,
}

impl fmt::Display for Name<'_> {
    ghost output = { λ name. Some (name_text name) };

    fn fmt<W: fmt::Write>(&self, f: &mut fmt::Formatter<W>) -> fmt::Result {
        write!(f, "{}{}", self.sign, self.id)
    }
}

/// The name at the front of junk, if there is one.
pub fn name_at_front(junk: &str) -> Option<Name<'_>>
    ensures { option_map name_text result ≡ name_at_front junk.now }
{
    if begins_attribute(junk) {
        let spaces = words::blank_inline_len(junk.as_bytes());
        let attribute = &junk[spaces..];
        signed_name(".", &attribute[1..])
    } else if words::begins_with(junk.as_bytes(), b'-') {
        signed_name("-", &junk[1..])
    } else {
        signed_name("", junk)
    }
}

/// The identifier at the front of a text, if there is one, after this sign.
fn signed_name<'a>(sign: &'static str, text: &'a str) -> Option<Name<'a>>
    ensures { option_map name_text result ≡ signed_name sign.now text.now }
{
    let len = words::identifier_len(text.as_bytes());
    if len == 0 {
        return None;
    }
    Some(Name {
        sign,
        id: &text[..len],
    })
}
