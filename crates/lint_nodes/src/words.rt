//! The rest after the tokens at the front of a text.
#![tactic(auto, using(fluent_tokens::proofs::Counted::cuts))]

ghost use Rattle.std.specs.Prelude.{◌≡◌, drop, length, if◌then◌else◌};
ghost use Rattle.fluent_grammar.specs.Words as w;
ghost use Rattle.lint_nodes.specs.Rests as rests;

use fluent_tokens as words;

/// The rest after the first `count` bytes, which is empty if there are fewer.
pub fn skip(text: &[u8], count: usize) -> &[u8]
    ensures { result.now ≡ drop count text.now }
{
    &text[count.min(text.len())..]
}

/// The rest after blank.
pub fn skip_blank(text: &[u8]) -> &[u8]
    ensures { result.now ≡ w.skip_blank text.now }
{
    &text[words::blank_len(text)..]
}

/// The rest after blank, an optional comma and blank.
pub fn skip_separator(text: &[u8]) -> &[u8]
    ensures { result.now ≡ w.skip_separator text.now }
{
    let rest = skip_blank(text);
    if words::begins_with(rest, b',') {
        skip_blank(skip(rest, 1))
    } else {
        skip_blank(rest)
    }
}

/// The inside of a placeable or of call arguments, with the text after it: the rest after their
/// sign and blank.
pub fn within(text: &[u8]) -> &[u8]
    ensures { result.now ≡ rests.within text.now }
{
    skip_blank(skip(text, 1))
}

/// The rest after blank and a sign.
pub fn after_sign(text: &[u8]) -> &[u8]
    ensures { result.now ≡ rests.after_sign text.now }
{
    skip(skip_blank(text), 1)
}

/// The rest after a name.
pub fn after_name<'t>(text: &'t [u8], name: &str) -> &'t [u8]
    ensures { result.now ≡ drop (length name.now) text.now }
{
    skip(text, name.len())
}

/// The variants of a select, after its selector.
pub fn first_variant(text: &[u8]) -> &[u8]
    ensures { result.now ≡ rests.first_variant text.now }
{
    skip_blank(skip(skip_blank(text), 2))
}

/// The key of a variant, which may be marked as the default.
pub fn key_of_variant(text: &[u8]) -> &[u8]
    ensures { result.now ≡ rests.key_of_variant text.now }
{
    within(skip_mark(text))
}

/// The rest after the mark of a default variant, if there is one at the front.
pub fn skip_mark(text: &[u8]) -> &[u8]
    ensures { result.now ≡ (if w.begins_with w.asterisk text.now then drop 1 text.now else text.now) }
{
    if words::begins_with(text, b'*') {
        skip(text, 1)
    } else {
        text
    }
}

/// The value of an argument of this name.
pub fn value_of_argument<'t>(text: &'t [u8], name: &str) -> &'t [u8]
    ensures { result.now ≡ rests.value_of_argument name.now text.now }
{
    within(skip_blank(after_name(text, name)))
}
