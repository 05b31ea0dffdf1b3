//! Tags that nothing ends.
#![tactic(auto, using(fluent_tokens::proofs::Counted::cuts))]

ghost use Rattle.std.specs.Prelude.{◌≡◌, ◌&&◌, is_some, not, option_map};
ghost use Rattle.lint_findings.specs.Tags as t;
ghost use Rattle.lint_markup.specs.InCode.{texts_of};

use crate::tags::tag_at;
use memchr::memchr;

/// The text from the first `<` or `</` on that stands before a letter and begins no tag, in the
/// first of some texts that has one. Only `</` counts if not all do.
pub fn first_broken(all: bool, texts: &[String]) -> Option<&str>
    ensures { option_map (λ s. s.now) result ≡ t.first_broken all (texts_of texts.now) }
{
    for text in texts {
        if let Some(broken) = broken_in(all, text.as_str()) {
            return Some(broken);
        }
    }
    None
}

fn broken_in(all: bool, text: &str) -> Option<&str>
    ensures { option_map (λ s. s.now) result ≡ t.broken_in all text.now }
{
    let mut rest = text;
    while let Some(place) = memchr(b'<', rest.as_bytes()) {
        let at = &rest[place..];
        if is_broken(all, at) {
            return Some(at);
        }
        rest = &at[1..];
    }
    None
}

/// Whether the sign at the front seems to begin a tag and begins none.
fn is_broken(all: bool, text: &str) -> bool
    ensures { result ≡ (t.begins_tag all text.now && not (is_some (t.tag_at text.now))) }
{
    begins_tag(all, text.as_bytes()) && tag_at(text).is_none()
}

fn begins_tag(all: bool, text: &[u8]) -> bool
    ensures { result ≡ t.begins_tag all text.now }
{
    match text {
        [b'<', b'/', letter, ..] => letter.is_ascii_alphabetic(),
        [b'<', letter, ..] => all && letter.is_ascii_alphabetic(),
        _ => false,
    }
}
