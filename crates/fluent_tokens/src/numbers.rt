//! Numbers.
#![tactic(auto, using(crate::proofs::Counted::cuts))]

ghost use Rattle.std.specs.Prelude.{◌≡◌};
ghost use Rattle.std.specs.List.{prefix_len};
ghost use Rattle.fluent_grammar.specs.Words as w;
ghost use Rattle.fluent_tokens.specs.Counted.{IsNumber};

use crate::begins_with;

/// How many bytes the number at the front has. Production `NumberLiteral`.
///
/// # Errors
/// The offset at which a digit is missing, if no number stands there.
pub fn number_len(text: &[u8]) -> Result<usize, usize>
    ensures { IsNumber text.now result }
{
    let sign = usize::from(begins_with(text, b'-'));
    let whole = sign + digits_len(&text[sign..]);
    if whole == sign {
        return Err(whole);
    }
    if !begins_with(&text[whole..], b'.') {
        return Ok(whole);
    }
    let point = whole + 1;
    let end = point + digits_len(&text[point..]);
    if end == point { Err(end) } else { Ok(end) }
}

/// How many digits stand at the front. Production `digits`.
fn digits_len(text: &[u8]) -> usize
    ensures { result ≡ prefix_len w.is_digit text.now }
{
    text.iter()
        .take_while(|byte| matches!(**byte, b'0'..=b'9'))
        .count()
}
