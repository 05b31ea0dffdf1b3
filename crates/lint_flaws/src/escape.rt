//! The escape at the front of a text.
#![tactic(auto, using(fluent_tokens::proofs::Counted::cuts))]

ghost use Rattle.std.specs.Prelude.{◌≡◌, ◌++◌, ◌<◌, true, option_map, length};
ghost use Rattle.std.specs.List.{list_all, prefix_len};
ghost use Rattle.std.specs.Option.{option_to_list};
ghost use Rattle.lint_flaws.specs.Escape.{digit_count, escape_there};
ghost use Rattle.lint_findings.specs.Escapes.{invalid_escapes, is_no_character};
ghost use Rattle.fluent_grammar.specs.Escapes.{hex_number, is_scalar};
ghost use Rattle.fluent_grammar.specs.Words as w;

/// The escape at the front, if it stands for no character.
pub fn invalid_escape(text: &str) -> Option<&str>
    requires { w.begins_with w.backslash text.now ≡ true }
    ensures { option_to_list (option_map (λ s. s.now) result) ≡ escape_there text.now }
{
    let count = digit_count(text.as_bytes());
    if count == 0 {
        return None;
    }
    if is_no_character(&text[2..], count) {
        Some(&text[..2 + count])
    } else {
        None
    }
}

/// How many hex digits the escape at the front has, 0 if it is written without any.
fn digit_count(escape: &[u8]) -> usize
    ensures { result ≡ digit_count escape.now }
{
    match escape {
        [_, b'u', ..] => 4,
        [_, b'U', ..] => 6,
        _ => 0,
    }
}

/// The rest after the backslash at the front, and after a second one, if it follows.
pub fn after_escape(text: &str) -> &str
    requires { w.begins_with w.backslash text.now ≡ true }
    ensures rest { invalid_escapes text.now ≡ escape_there text.now ++ invalid_escapes result.now }
    ensures shorter { length result.now < length text.now }
{
    let escaped = &text[1..];
    match escaped.as_bytes() {
        [b'\\', ..] => &escaped[1..],
        _ => escaped,
    }
}

/// Whether this many hex digits stand at the front and write the number of a surrogate, or one
/// above U+10FFFF.
fn is_no_character(text: &str, count: usize) -> bool
    requires { 0 < count }
    ensures { result ≡ is_no_character count text.now }
{
    if hex_len(text) < count {
        return false;
    }
    !is_scalar(&text[..count])
}

/// How many hex digits stand at the front.
fn hex_len(text: &str) -> usize
    ensures { result ≡ prefix_len w.is_hex_digit text.now }
{
    text.as_bytes()
        .iter()
        .take_while(|byte| is_hex_digit(**byte))
        .count()
}

fn is_hex_digit(byte: u8) -> bool
    ensures { result ≡ w.is_hex_digit byte }
{
    matches!(byte, b'0'..=b'9' | b'a'..=b'f' | b'A'..=b'F')
}

/// Whether hex digits write the number of a character.
fn is_scalar(digits: &str) -> bool
    requires some { 0 < length digits.now }
    requires hex { list_all w.is_hex_digit digits.now ≡ true }
    ensures { result ≡ is_scalar (hex_number 0 digits.now) }
{
    match u32::from_str_radix(digits, 16) {
        Ok(code) => char::from_u32(code).is_some(),
        Err(_) => false,
    }
}
