//! Characters, by their bytes at the front of a text.
#![tactic(auto)]

ghost use Rattle.std.specs.Prelude.{◌≡◌};
ghost use Rattle.fluent_grammar.specs.Words as w;
ghost use Rattle.lint_findings.specs.Letters as l;

use fluent_tokens::begins_with;

/// Whether no text follows on this line, or in this literal.
pub fn is_end(text: &[u8]) -> bool
    ensures { result ≡ l.is_end text.now }
{
    match text {
        [] => true,
        [byte, ..] => *byte == b'\n' || (*byte == b'\r' || *byte == b'"'),
    }
}

/// Whether a letter of a script that writes no spaces may be at the front.
pub fn begins_spaceless(text: &[u8]) -> bool
    ensures { result ≡ l.begins_spaceless text.now }
{
    begins_with(text, 0xE0) || begins_with(text, 0xE1)
}

/// Whether these three bytes are at the front.
fn begins_three(text: &[u8], a: u8, b: u8, c: u8) -> bool
    ensures { result ≡ l.begins_three a b c text.now }
{
    match text {
        [x, y, z, ..] => *x == a && (*y == b && *z == c),
        _ => false,
    }
}

/// Whether U+FFFD is at the front.
pub fn is_lost(text: &[u8]) -> bool
    ensures { result ≡ l.is_lost text.now }
{
    begins_three(text, 0xEF, 0xBF, 0xBD)
}

/// Whether a control character of one byte is at the front that is no tab and no part of a line
/// end.
pub fn is_control_byte(text: &[u8]) -> bool
    ensures { result ≡ l.is_control_byte text.now }
{
    match text {
        [] => false,
        [byte, rest @ ..] => {
            *byte == 127
                || (*byte < 32
                    && (!(*byte == b'\t' || *byte == b'\n')
                        && !(*byte == b'\r' && begins_with(rest, b'\n'))))
        }
    }
}

/// Whether one of the control characters U+0080 to U+009F is at the front.
pub fn is_later_control(text: &[u8]) -> bool
    ensures { result ≡ l.is_later_control text.now }
{
    match text {
        [first, second, ..] => *first == 0xC2 && is_between(0x80, 0x9F, *second),
        _ => false,
    }
}

fn is_between(low: u8, high: u8, byte: u8) -> bool
    ensures { result ≡ w.is_between low high byte }
{
    low <= byte && byte <= high
}

/// Whether U+200B ZERO WIDTH SPACE is at the front.
pub fn is_zero_width_space(text: &[u8]) -> bool
    ensures { result ≡ l.is_zero_width_space text.now }
{
    begins_three(text, 0xE2, 0x80, 0x8B)
}

/// Whether U+2060 WORD JOINER is at the front.
pub fn is_word_joiner(text: &[u8]) -> bool
    ensures { result ≡ l.is_word_joiner text.now }
{
    begins_three(text, 0xE2, 0x81, 0xA0)
}

/// Whether U+FEFF ZERO WIDTH NO-BREAK SPACE is at the front.
pub fn is_mark(text: &[u8]) -> bool
    ensures { result ≡ l.is_mark text.now }
{
    begins_three(text, 0xEF, 0xBB, 0xBF)
}

/// Whether a mark is at the front that turns round what follows: U+202D or U+202E.
pub fn turns(text: &[u8]) -> bool
    ensures { result ≡ l.turns text.now }
{
    begins_three(text, 0xE2, 0x80, 0xAD) || begins_three(text, 0xE2, 0x80, 0xAE)
}

/// Whether a mark of direction is at the front that something has to end.
pub fn opens(text: &[u8]) -> bool
    ensures { result ≡ l.opens text.now }
{
    turns(text)
        || (begins_three(text, 0xE2, 0x80, 0xAA)
            || (begins_three(text, 0xE2, 0x80, 0xAB)
                || (begins_three(text, 0xE2, 0x81, 0xA6)
                    || (begins_three(text, 0xE2, 0x81, 0xA7)
                        || begins_three(text, 0xE2, 0x81, 0xA8)))))
}

/// Whether a mark of direction is at the front that ends one.
pub fn closes(text: &[u8]) -> bool
    ensures { result ≡ l.closes text.now }
{
    begins_three(text, 0xE2, 0x80, 0xAC) || begins_three(text, 0xE2, 0x81, 0xA9)
}
