//! Texts that have `|` between their parts.
ghost use Rattle.std.specs.Prelude.{◌≡◌, suc};
ghost use Rattle.fluent_date_tables.specs.Parts.{after_found, before, part, skipped};

/// What is before the first `|` of a text.
fn before(text: &str) -> &str
    ensures { result.now ≡ before text.now }
{
    match text.as_bytes().iter().position(|&b| b == b'|') {
        Some(at) => &text[..at],
        None => text,
    }
}

/// What is after the `|` of this number, from 0, if there is one.
#[tactic(auto, using(crate::proofs::SkippedParts::skipped_at_bar, crate::proofs::SkippedParts::skipped_at_other, crate::proofs::SkippedParts::skipped_past))]
fn after_bar(text: &str, number: usize) -> Option<&str>
    ensures { after_found result ≡ skipped text.now (suc number) }
{
    let mut left = number;
    for (at, &byte) in text.as_bytes().iter().enumerate() {
        if byte == b'|' {
            if left == 0 {
                return Some(&text[at + 1..]);
            }
            left -= 1;
        }
    }
    None
}

/// The part of this number, from 0, of a text that has `|` between its parts; the empty text if
/// there is no such part.
///
/// ```no_run
/// let monday = part("Sun|Mon|Tue", 1); // Mon
/// ```
#[tactic(auto, using(crate::proofs::SkippedParts::part_found, crate::proofs::SkippedParts::part_missing))]
pub fn part(text: &str, number: usize) -> &str
    ensures { result.now ≡ part text.now number }
{
    if number == 0 {
        return before(text);
    }
    match after_bar(text, number - 1) {
        Some(rest) => before(rest),
        None => "",
    }
}
