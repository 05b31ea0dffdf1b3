//! What a text begins with, by its first bytes.
#![tactic(auto)]

ghost use Rattle.std.specs.Prelude.{◌≡◌, ◌||◌};
ghost use Rattle.fluent_grammar.specs.Words as w;
ghost use Rattle.fluent_tokens.specs.Counted.{char_len, begins_literal, begins_value, starts_text};

/// Whether a text begins with a byte.
pub fn begins_with(text: &[u8], byte: u8) -> bool
    ensures { result ≡ w.begins_with byte text.now }
{
    match text {
        [] => false,
        [first, ..] => *first == byte,
    }
}

/// Whether a text begins with a letter.
pub fn begins_with_letter(text: &[u8]) -> bool
    ensures { result ≡ w.begins w.is_letter text.now }
{
    matches!(text, [b'a'..=b'z' | b'A'..=b'Z', ..])
}

/// Whether a text begins with a digit or a minus.
pub fn begins_number(text: &[u8]) -> bool
    ensures { result ≡ (w.begins w.is_digit text.now || w.begins_with w.hyphen text.now) }
{
    matches!(text, [b'-' | b'0'..=b'9', ..])
}

/// Whether a text begins with CR LF.
pub fn begins_crlf(text: &[u8]) -> bool
    ensures { result ≡ w.begins_crlf text.now }
{
    matches!(text, [b'\r', b'\n', ..])
}

/// Whether a text begins with the arrow of a select.
pub fn begins_arrow(text: &[u8]) -> bool
    ensures { result ≡ w.begins_arrow text.now }
{
    matches!(text, [b'-', b'>', ..])
}

/// Whether a text begins with a quote, a digit or a minus.
pub fn begins_value(text: &[u8]) -> bool
    ensures { result ≡ begins_value text.now }
{
    matches!(text, [b'"' | b'-' | b'0'..=b'9', ..])
}

/// Whether a text begins with a quote, a digit, or a minus that no letter follows.
pub fn begins_literal(text: &[u8]) -> bool
    ensures { result ≡ begins_literal text.now }
{
    match text {
        [b'"' | b'0'..=b'9', ..] => true,
        [b'-', b'a'..=b'z' | b'A'..=b'Z', ..] => false,
        [b'-', ..] => true,
        _ => false,
    }
}

/// Whether a text begins with a byte that begins a text of a pattern, on any line: no space, line
/// end or opening brace.
pub fn begins_text(text: &[u8]) -> bool
    ensures { result ≡ w.begins starts_text text.now }
{
    let Some(first) = text.first() else {
        return false;
    };
    // Without a branch, since no processor foresees the byte.
    !((*first == b' ') | (*first == b'\n') | (*first == b'\r') | (*first == b'{'))
}

/// How many bytes the character at the front has.
pub fn char_len(text: &[u8]) -> usize
    ensures { result ≡ char_len text.now }
{
    match text {
        [] => 0,
        [0..=0x7F, ..] => 1,
        [0..=0xDF, ..] => 2,
        [0..=0xEF, ..] => 3,
        _ => 4,
    }
}
