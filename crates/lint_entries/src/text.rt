//! The rest after the tokens of an entry.
#![tactic(auto, using(fluent_tokens::proofs::Counted::cuts))]

ghost use Rattle.std.specs.Prelude.{◌≡◌};
ghost use Rattle.lint_findings.specs.Occurrences as o;
ghost use Rattle.fluent_grammar.specs.Words as w;

use fluent_tokens as words;
use lint_nodes::skip;

/// The rest after the spaces at the front.
pub fn skip_spaces(text: &[u8]) -> &[u8]
    ensures { result.now ≡ w.skip_spaces text.now }
{
    skip(text, words::blank_inline_len(text))
}

/// The rest after the blank lines at the front.
pub fn skip_blank_block(text: &[u8]) -> &[u8]
    ensures { result.now ≡ w.skip_blank_block text.now }
{
    skip(text, words::blank_block_len(text))
}

/// The rest after a name and an equals sign.
pub fn after_equals(text: &[u8]) -> &[u8]
    ensures { result.now ≡ o.after_equals text.now }
{
    skip(skip_spaces(skip(text, words::identifier_len(text))), 1)
}
