//! The codes of findings that `lint` leaves out.
ghost use Rattle.std.specs.Prelude.{◌≡◌, ◌++◌, IfOk, OnOk, codes, false, true};
ghost use Rattle.std.specs.List.{flat_map, list_all};
ghost use Rattle.lint_findings.specs.Report.{text_codes};
ghost use Rattle.ftl_arguments.specs.Linting.{are_known, code_list, codes_in, codes_named, finding_codes, ignored_in, is_among, is_any, is_code, named_in, others_of, unselected};
ghost use Rattle.ftl_arguments.specs.Meaning.{texts};
ghost use Rattle.ftl_arguments.specs.CommandView.{found_rows, IfRefused};

use crate::linting::{CODES, is_code};
use crate::reading::{WordsError, values_in};
use clap::ArgMatches;
use lint_report::text_codes;
use std::alloc::{AllocError, Global};

/// The codes of findings that are to be left out: those of `--ignore`, and with `--select` all but
/// those that it names, or else those of the notes on texts.
pub(crate) fn ignored_in<'words>(
    alloc: Global,
    found: &ArgMatches<'words>,
) -> Result<Vec<&'words str>, WordsError>
    ensures values { IfOk result (λ values. texts values.items ≡ ignored_in (found_rows found.now)) }
    ensures known { IfOk result (λ _. are_known (found_rows found.now) ≡ true) }
    ensures unknown { IfRefused result (are_known (found_rows found.now) ≡ false) }
{
    let mut ignored = named_in(alloc, found, "ignore")?;
    let selected = named_in(alloc, found, "select")?;
    push_unselected(&mut ignored, &selected)?;
    Ok(ignored)
}

/// The codes that an option names, if findings have them: one by one, or by the name of a group.
fn named_in<'words>(
    alloc: Global,
    found: &ArgMatches<'words>,
    name: &str,
) -> Result<Vec<&'words str>, WordsError>
    ensures values { IfOk result (λ values. texts values.items ≡ named_in name.now (found_rows found.now)) }
    ensures known { IfOk result (λ _. list_all is_code (codes_in name.now (found_rows found.now)) ≡ true) }
    ensures unknown { IfRefused result (list_all is_code (codes_in name.now (found_rows found.now)) ≡ false) }
{
    let names = known_codes_in(alloc, found, name)?;
    Ok(codes_of(alloc, &names)?)
}

/// The codes that these names stand for.
fn codes_of<'words>(alloc: Global, names: &[&'words str]) -> Result<Vec<&'words str>, AllocError>
    ensures { IfOk result (λ codes. texts codes.items ≡ flat_map codes_named (texts names.now)) }
{
    let mut codes = Vec::new(alloc);
    for name in names {
        push_named(name, &mut codes)?;
    }
    Ok(codes)
}

/// Appends the codes that a name stands for.
fn push_named<'words>(name: &'words str, codes: &mut Vec<&'words str>) -> Result<(), AllocError>
    ensures { OnOk result (texts codes.new.items ≡ texts codes.old.items ++ codes_named name.now) }
{
    if name == "texts" {
        codes.extend_from_slice(text_codes())
    } else {
        Ok(codes.push(name)?)
    }
}

/// The names of an option, if findings have these codes.
fn known_codes_in<'words>(
    alloc: Global,
    found: &ArgMatches<'words>,
    name: &str,
) -> Result<Vec<&'words str>, WordsError>
    ensures values { IfOk result (λ values. texts values.items ≡ codes_in name.now (found_rows found.now)) }
    ensures known { IfOk result (λ _. list_all is_code (codes_in name.now (found_rows found.now)) ≡ true) }
    ensures unknown { IfRefused result (list_all is_code (codes_in name.now (found_rows found.now)) ≡ false) }
{
    let values = codes_in(alloc, found, name)?;
    if are_codes(&values) {
        Ok(values)
    } else {
        Err(WordsError::Bad)
    }
}

/// All codes in the values of an option, in the order of the words. A value has one or more, with
/// commas between them.
fn codes_in<'words>(
    alloc: Global,
    found: &ArgMatches<'words>,
    name: &str,
) -> Result<Vec<&'words str>, AllocError>
    ensures { IfOk result (λ values.
        texts values.items ≡ codes_in name.now (found_rows found.now)) }
{
    let values = values_in(alloc, found, name)?;
    let mut codes = Vec::new(alloc);
    for value in &values {
        push_codes(alloc, &mut codes, value)?;
    }
    Ok(codes)
}

/// Appends the codes of a value.
fn push_codes<'words>(
    alloc: Global,
    codes: &mut Vec<&'words str>,
    value: &'words str,
) -> Result<(), AllocError>
    ensures { OnOk result (texts codes.new.items ≡ texts codes.old.items ++ code_list value.now) }
{
    codes.extend_from_slice(&code_list(alloc, value)?)
}

/// The codes in a value, between commas.
pub(crate) fn code_list<'words>(
    alloc: Global,
    value: &'words str,
) -> Result<Vec<&'words str>, AllocError>
    ensures { IfOk result (λ list. texts list.items ≡ code_list value.now) }
{
    value.split(',').collect(alloc)
}

/// Appends the codes that aren't selected, if any are, and otherwise those of the notes on texts.
fn push_unselected<'words>(
    ignored: &mut Vec<&'words str>,
    selected: &[&str],
) -> Result<(), AllocError>
    ensures { OnOk result (texts ignored.new.items
        ≡ texts ignored.old.items ++ unselected (texts selected.now)) }
{
    if is_any(selected) {
        push_others(ignored, selected, all_codes())
    } else {
        push_text_codes(ignored)
    }
}

/// Appends the codes of the notes on texts.
fn push_text_codes(codes: &mut Vec<&str>) -> Result<(), AllocError>
    ensures { OnOk result (texts codes.new.items ≡ texts codes.old.items ++ text_codes) }
{
    codes.extend_from_slice(text_codes())
}

/// The codes that findings have.
#[tactic(auto, unfolding(crate::specs::Linting::finding_codes))]
pub(crate) fn all_codes() -> &'static [&'static str]
    ensures { texts result.now ≡ finding_codes }
{
    &CODES
}

/// Whether there is at least one value.
pub(crate) fn is_any(values: &[&str]) -> bool
    ensures { result ≡ is_any (texts values.now) }
{
    matches!(values, [_, ..])
}

/// Appends the codes, of all, that aren't selected.
fn push_others<'words>(
    left: &mut Vec<&'words str>,
    selected: &[&str],
    all: &[&'static str],
) -> Result<(), AllocError>
    ensures { OnOk result (texts left.new.items
        ≡ texts left.old.items ++ others_of (texts selected.now) (texts all.now)) }
{
    for code in all {
        if !is_among(selected, code) {
            left.push(*code)?;
        }
    }
    Ok(())
}

/// Whether a code is among these.
pub(crate) fn is_among(codes: &[&str], code: &str) -> bool
    ensures { result ≡ is_among (texts codes.now) code.now }
{
    match codes {
        [] => false,
        [first, others @ ..] => *first == code || is_among(others, code),
    }
}

/// Whether findings have each of these codes.
fn are_codes(names: &[&str]) -> bool
    ensures { result ≡ list_all (λ name. is_code name.now) names.now }
{
    names.iter().all(|name| is_code(name))
}
