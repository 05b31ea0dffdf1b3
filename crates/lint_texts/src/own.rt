//! The own texts of a pair, which no select chooses.
#![tactic(auto)]

ghost use Rattle.std.specs.Prelude.{◌≡◌};
ghost use Rattle.lint_findings.specs.Runs.{own_text};
ghost use Rattle.lint_markup.specs.InCode.{AreRunsOf, es_of, os_of, texts_of};
ghost use Rattle.lint_texts.specs.Beside.{first_text};

use lint_markup::Pair;

/// The own text of the pattern.
pub fn text_of<'r>(pair: &Pair<'_, '_, '_, 'r>) -> &'r str
    requires { AreRunsOf pair.now }
    ensures { result.now ≡ own_text (es_of pair.now) }
{
    first_text(pair.runs)
}

/// That of the reference.
pub fn reference_of<'r>(pair: &Pair<'_, '_, '_, 'r>) -> &'r str
    requires { AreRunsOf pair.now }
    ensures { result.now ≡ own_text (os_of pair.now) }
{
    first_text(pair.others)
}

fn first_text(texts: &[String]) -> &str
    ensures { result.now ≡ first_text (texts_of texts.now) }
{
    match texts.first() {
        Some(text) => text.as_str(),
        None => "",
    }
}
