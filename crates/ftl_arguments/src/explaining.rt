//! The texts that `lint --explain` shows.
ghost use Rattle.std.specs.Prelude.{◌≡◌, codes, is_some, option_map};
ghost use Rattle.clap.specs.Words.{first_of};
ghost use Rattle.ftl_arguments.specs.CommandView.{explained, explained_with, found_rows};
ghost use Rattle.ftl_arguments.specs.Linting.{asks_explanation, explained_in, is_finding_code};

use crate::explanations::text_of;
use crate::linting::is_finding_code;
use clap::ArgMatches;

/// The explanation that the command-line arguments ask for, if they name a code of findings.
pub(crate) fn explanation(matches: &ArgMatches<'_>) -> Option<&'static str>
    ensures { is_some result ≡ is_some (explained matches.now) }
{
    match matches.subcommand() {
        Some((name, found)) => explanation_by(name, found),
        None => None,
    }
}

/// The explanation that a command of this name asks for, by what was found for it.
fn explanation_by(name: &str, found: &ArgMatches<'_>) -> Option<&'static str>
    ensures { is_some result ≡ is_some (explained_with name.now found.now) }
{
    match name {
        "lint" => explanation_in(found),
        _ => None,
    }
}

/// The explanation of the code that was found for `lint`.
fn explanation_in(found: &ArgMatches<'_>) -> Option<&'static str>
    ensures { is_some result ≡ is_some (explained_in (found_rows found.now)) }
{
    match named_in(found) {
        Some(code) => explanation_of(code),
        None => None,
    }
}

/// The explanation of a code, if findings have it.
fn explanation_of(code: &str) -> Option<&'static str>
    ensures { is_some result ≡ is_finding_code code.now }
{
    if is_finding_code(code) {
        Some(text_of(code))
    } else {
        None
    }
}

/// The word that is to be explained, which may be no code.
fn named_in<'words>(found: &ArgMatches<'words>) -> Option<&'words str>
    ensures { option_map (λ name. name.now) result
        ≡ first_of (codes "explain") (found_rows found.now) }
{
    found.get_str("explain")
}

/// Whether an explanation is asked for, of a code or of anything else.
pub(crate) fn asks_explanation(found: &ArgMatches<'_>) -> bool
    ensures { result ≡ asks_explanation (found_rows found.now) }
{
    named_in(found).is_some()
}
