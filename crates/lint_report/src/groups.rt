//! Groups of codes.
#![tactic(auto)]

ghost use Rattle.std.specs.Prelude.{◌≡◌, map};
ghost use Rattle.lint_findings.specs.Report as r;

/// The codes of the notes on texts beside those of the reference, which are only shown if they are
/// asked for.
const TEXTS: [&str; 12] = [
    "changed-url",
    "changed-placeholder",
    "changed-number",
    "edge-space",
    "double-space",
    "doubled-word",
    "final-punctuation",
    "three-dots",
    "unpaired-quote",
    "straight-quote",
    "empty-text",
    "long-text",
];

/// The codes of the notes on texts beside those of the reference, which are only shown if they are
/// asked for.
pub fn text_codes() -> &'static [&'static str]
    ensures { map (λ s. s.now) result.now ≡ r.text_codes }
{
    &TEXTS
}
