//! What is wrong with the file of a project, in words.

ghost use Rattle.std.specs.Prelude.{◌≡◌, OnOk, option_map};
ghost use Rattle.fluent_project.specs.FaultTexts.{Appends, fault_text, key_in, of_file, of_key, of_table, of_tables, of_variable, other_text, patterns_text, said_of};
ghost use Rattle.fluent_project.specs.PlaceViews.{place_view};

use crate::faults::{Fault, FaultKind};
use crate::places::Place;
use std::alloc::AllocError;

/// Appends what is wrong, as `[[paths]] has no key 'refrence'`.
///
/// # Errors
/// [`AllocError`] if memory runs out; a part of it may have been appended.
pub fn push_fault(text: &mut String, fault: Fault<'_>) -> Result<(), AllocError>
    ensures { OnOk result (Appends text.old text.new
        (fault_text (place_view fault.entry.place) fault.entry.kind)) }
{
    match said_of(fault.kind) {
        Some(said) => push_said(text, key_of(fault.place), said),
        None => push_other(text, fault),
    }
}

/// What is said of a key alone.
fn said_of(kind: FaultKind) -> Option<&'static str>
    ensures { option_map (λ said. said.now) result ≡ said_of kind }
{
    match kind {
        FaultKind::NoText => Some(" is no text, or an empty one"),
        FaultKind::NoTexts => Some(" is neither a text nor a list of texts"),
        FaultKind::NoLanguages => Some(" is no list of different languages"),
        FaultKind::NoList => Some(" is no list of texts"),
        FaultKind::NoAction => Some(" is none of ignore, warning and error"),
        FaultKind::NoVariable => Some(" holds a variable that isn't in [env]"),
        FaultKind::NoExpression => Some(" is no regular expression"),
        FaultKind::NoPath => Some(" is no path of one file"),
        _ => None,
    }
}

/// Appends a key, and what is said of it.
fn push_said(text: &mut String, key: &str, said: &str) -> Result<(), AllocError>
    ensures { OnOk result (Appends text.old text.new (of_key key.now said.now)) }
{
    write!(text, "`{key}`{said}")
}

/// Appends what is said of more than a key.
fn push_other(text: &mut String, fault: Fault<'_>) -> Result<(), AllocError>
    ensures { OnOk result (Appends text.old text.new
        (other_text (place_view fault.entry.place) fault.entry.kind)) }
{
    let key = key_of(fault.place);
    match fault.kind {
        FaultKind::NoTable => write!(text, "`{key}` is no table: [{key}]"),
        FaultKind::NoTables => write!(text, "`{key}` is written as [[{key}]]"),
        FaultKind::Missing => push_of_table(text, fault.place, "lacks"),
        FaultKind::Unknown => push_of_table(text, fault.place, "takes no"),
        FaultKind::HoldsItself => push_of_variable(text, key, "holds itself"),
        FaultKind::HasWildcard => push_of_variable(text, key, "holds a wildcard"),
        _ => push_of_patterns(text, fault.kind),
    }
}

/// Appends what is wrong with the patterns of a table.
fn push_of_patterns(text: &mut String, kind: FaultKind) -> Result<(), AllocError>
    ensures { OnOk result (Appends text.old text.new (patterns_text kind)) }
{
    match kind {
        FaultKind::OtherWildcards => {
            text.push_str("the wildcards of `reference` and `l10n` differ")
        }
        FaultKind::LocaleInReference => text.push_str("`reference` holds {locale}"),
        FaultKind::NoLocale => {
            text.push_str("`l10n` lacks {locale}, and `locales` isn't of one language")
        }
        _ => Ok(()),
    }
}

/// Appends what a variable does.
fn push_of_variable(text: &mut String, key: &str, what: &str) -> Result<(), AllocError>
    ensures { OnOk result (Appends text.old text.new (of_variable key.now what.now)) }
{
    write!(text, "the variable `{key}` {what}")
}

/// The key that a place is of.
fn key_of(place: Place<'_>) -> &str
    ensures { result.now ≡ key_in (place_view place.entry) }
{
    match place {
        Place::Top(key) => key,
        Place::Inside { key, .. } => key,
    }
}

/// Appends what a table has to do with a key.
fn push_of_table(text: &mut String, place: Place<'_>, what: &str) -> Result<(), AllocError>
    ensures { OnOk result (Appends text.old text.new (of_table what.now (place_view place.entry))) }
{
    match place {
        Place::Top(key) => push_of_file(text, what, key),
        Place::Inside { name, key, .. } => push_of_tables(text, name, what, key),
    }
}

/// Appends what the file has to do with a key.
fn push_of_file(text: &mut String, what: &str, key: &str) -> Result<(), AllocError>
    ensures { OnOk result (Appends text.old text.new (of_file what.now key.now)) }
{
    write!(text, "the file {what} `{key}`")
}

/// Appends what the tables of a name have to do with a key.
fn push_of_tables(text: &mut String, name: &str, what: &str, key: &str) -> Result<(), AllocError>
    ensures { OnOk result (Appends text.old text.new (of_tables name.now what.now key.now)) }
{
    write!(text, "[[{name}]] {what} `{key}`")
}
