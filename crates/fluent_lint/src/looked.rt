//! What is looked for in a catalog.
#![tactic(auto)]

ghost use Rattle.std.specs.Prelude.{◌≡◌, ◌||◌, not};
ghost use Rattle.fluent_grammar.specs.Words.{is_among};
ghost use Rattle.fluent_lint.specs.FileTiles.{files_view};
ghost use Rattle.fluent_lint.specs.Found.{looked_by};
ghost use Rattle.fluent_lint.specs.Silence.{difference_codes, gap_codes, is_looked_for, looked_in, plural_codes, unsilenced};
ghost use Rattle.fluent_resource.specs.Sources.{texts};

use crate::original::Original;
use crate::reported::is_among;
use fluent_plurals::LanguagePlurals;
use lint_findings::File;

/// What is looked for: plural categories, how messages differ from those of a reference, and which
/// of them are missing, file by file.
#[derive(Clone, Copy)]
pub struct Looked {
    pub plurals: bool,
    pub differences: bool,
    pub gaps: bool,
}

/// The codes of findings about plural categories.
const PLURAL_CODES: [&str; 3] = ["missing-category", "unknown-category", "unused-category"];

/// The codes of findings about how messages differ.
const DIFFERENCE_CODES: [&str; 35] = [
    "missing-value",
    "missing-attribute",
    "obsolete-value",
    "obsolete-attribute",
    "unknown-variable",
    "missing-variable",
    "unused-variable",
    "obsolete-message",
    "untranslated",
    "variant-lacks-variable",
    "plural-dropped",
    "term-as-text",
    "broken-tag",
    "unbalanced-element",
    "unknown-element",
    "missing-element",
    "missing-l10n-name",
    "unknown-l10n-name",
    "broken-entity",
    "long-access-key",
    "long-key",
    "changed-style",
    "access-key-not-in-label",
    "changed-url",
    "changed-placeholder",
    "changed-number",
    "edge-space",
    "double-space",
    "doubled-word",
    "final-punctuation",
    "three-dots",
    "unpaired-quote",
    "straight-quote",
    "empty-text",
    "long-text",
];

/// The codes of findings about what is missing in a file.
const GAP_CODES: [&str; 2] = ["missing-message", "obsolete-file"];

/// The codes of findings that no comment leaves out.
const UNSILENCED: [&str; 2] = ["syntax", "byte-order-mark"];

impl Looked {
    /// In a file of a language that may have plural rules, by what the file is translated from.
    pub fn in_language(plurals: Option<LanguagePlurals>, original: Original) -> Looked
        ensures { result ≡ looked_in plurals original }
    {
        let is_compared = match original {
            Original::File(_) => true,
            Original::Lacking | Original::Unasked => false,
        };
        Looked {
            plurals: plurals.is_some(),
            differences: is_compared,
            gaps: is_compared,
        }
    }

    /// In a catalog of a language that may have plural rules, with the files of its reference.
    pub fn in_catalog(plurals: Option<LanguagePlurals>, references: &[File<'_>]) -> Looked
        ensures { result ≡ looked_by plurals (files_view references.now) }
    {
        Looked {
            plurals: plurals.is_some(),
            differences: matches!(references, [_, ..]),
            gaps: false,
        }
    }

    /// Whether findings of a code are looked for.
    pub fn has(self, code: &str) -> bool
        ensures { result ≡ is_looked_for self code.now }
    {
        (self.plurals || !is_among(code, plural_codes()))
            && (self.differences || !is_among(code, difference_codes()))
            && (self.gaps || !is_among(code, gap_codes()))
    }
}

fn plural_codes() -> &'static [&'static str]
    ensures { texts result.now ≡ plural_codes }
{
    &PLURAL_CODES
}

fn difference_codes() -> &'static [&'static str]
    ensures { texts result.now ≡ difference_codes }
{
    &DIFFERENCE_CODES
}

fn gap_codes() -> &'static [&'static str]
    ensures { texts result.now ≡ gap_codes }
{
    &GAP_CODES
}

/// Whether a comment may leave out findings of a code: those of what can't be read stay.
pub fn is_silenced_code(code: &str) -> bool
    ensures { result ≡ not (is_among code.now unsilenced) }
{
    !is_among(code, unsilenced())
}

fn unsilenced() -> &'static [&'static str]
    ensures { texts result.now ≡ unsilenced }
{
    &UNSILENCED
}
