//! The rules of a project's file: which files are translated from which.

ghost use Rattle.std.specs.Prelude.{◌≡◌, IfErr, IfOk, Ok, OnOk};
ghost use Rattle.fluent_project.specs.FileViews.{IsRefusedBy, maybe_texts};
ghost use Rattle.fluent_project.specs.PlaceViews.{texts};
ghost use Rattle.fluent_project.specs.Resolving.{pattern_by};
ghost use Rattle.fluent_project.specs.RuleLanguages.{AppendsThoseIn, in_both, those_in};

use crate::checks::{has_locale, have_same_wildcards};
use crate::faults::{FaultKind, FileError};
use crate::fields::{fault, in_table};
use crate::file::{PathRule, ProjectFile};
use crate::pairs::Rule;
use crate::part::Part;
use crate::places::Place;
use crate::resolved::Variables;
use crate::values::is_among;
use std::alloc::{AllocError, Global};

/// The rules of a project's file of this number, in their order.
///
/// # Errors
/// [`FileError::Fault`]: a pattern is wrong. [`FileError::Memory`]: memory ran out.
pub fn rules_of<'f>(
    alloc: Global,
    variables: Variables<'_, 'f>,
    number: usize,
    file: &ProjectFile<'f>,
) -> Result<Vec<Rule<'f>>, FileError<'f>> {
    let mut rules = Vec::new(alloc);
    for (n, rule) in file.paths.iter().enumerate() {
        let (reference, l10n) = patterns_of(alloc, variables, n, rule)?;
        let locales = in_both(alloc, &rule.locales, &file.head.locales)?;
        rules.push(Rule {
            file: number,
            reference,
            l10n,
            locales,
        })?;
    }
    Ok(rules)
}

/// The patterns of a table: that of the reference, and that of translations.
fn patterns_of<'f>(
    alloc: Global,
    variables: Variables<'_, 'f>,
    n: usize,
    rule: &PathRule<'f>,
) -> Result<(Option<Vec<Part>>, Vec<Part>), FileError<'f>> {
    let place = in_table("paths", n, "l10n");
    let l10n = pattern_at(alloc, variables, rule.l10n, place)?;
    let reference = reference_of(alloc, variables, n, rule)?;
    if let Some(reference) = &reference {
        if !have_same_wildcards(reference, &l10n) {
            return Err(fault(place, FaultKind::OtherWildcards));
        }
    }
    if !has_locale(&l10n) && !is_of_one(&rule.locales) {
        return Err(fault(place, FaultKind::NoLocale));
    }
    Ok((reference, l10n))
}

/// Whether a rule is of one language.
fn is_of_one(locales: &Option<Vec<&str>>) -> bool {
    match locales {
        Some(locales) => locales.len() == 1,
        None => false,
    }
}

/// The pattern of the reference.
fn reference_of<'f>(
    alloc: Global,
    variables: Variables<'_, 'f>,
    n: usize,
    rule: &PathRule<'f>,
) -> Result<Option<Vec<Part>>, FileError<'f>> {
    let Some(text) = rule.reference else {
        return Ok(None);
    };
    let place = in_table("paths", n, "reference");
    let reference = pattern_at(alloc, variables, text, place)?;
    if has_locale(&reference) {
        return Err(fault(place, FaultKind::LocaleInReference));
    }
    Ok(Some(reference))
}

/// A pattern at a place.
pub(crate) fn pattern_at<'f>(
    alloc: Global,
    variables: Variables<'_, 'f>,
    text: &str,
    place: Place<'f>,
) -> Result<Vec<Part>, FileError<'f>>
    ensures pattern { IfOk result (λ parts. pattern_by variables.entry place.entry text.now ≡ Ok parts.items) }
    ensures refused { IfErr result (IsRefusedBy (pattern_by variables.entry place.entry text.now)) }
{
    match variables.pattern(alloc, text)? {
        Some(parts) => Ok(parts),
        None => Err(fault(place, FaultKind::NoVariable)),
    }
}

/// The languages of a rule that are languages of its file.
fn in_both<'f>(
    alloc: Global,
    locales: &Option<Vec<&'f str>>,
    languages: &Option<Vec<&'f str>>,
) -> Result<Option<Vec<&'f str>>, AllocError>
    ensures { IfOk result (λ both.
        maybe_texts both ≡ in_both (maybe_texts locales.now) (maybe_texts languages.now)) }
{
    match locales {
        None => copied(alloc, languages),
        Some(all) => match languages {
            None => copied(alloc, locales),
            Some(languages) => Ok(Some(those_in(alloc, all, languages)?)),
        },
    }
}

/// A copy of a list, if there is one.
fn copied<'f>(
    alloc: Global,
    list: &Option<Vec<&'f str>>,
) -> Result<Option<Vec<&'f str>>, AllocError>
    ensures { IfOk result (λ copy. maybe_texts copy ≡ maybe_texts list.now) }
{
    match list {
        Some(list) => Ok(Some(Vec::from_slice(alloc, list)?)),
        None => Ok(None),
    }
}

/// Those of these languages that are among others, in their order.
fn those_in<'f>(
    alloc: Global,
    locales: &[&'f str],
    languages: &[&str],
) -> Result<Vec<&'f str>, AllocError>
    ensures { IfOk result (λ both. texts both.items ≡ those_in (texts languages.now) (texts locales.now)) }
{
    let mut both = Vec::new(alloc);
    push_those_in(locales, languages, &mut both)?;
    Ok(both)
}

/// Appends those of these languages that are among others.
fn push_those_in<'f>(
    locales: &[&'f str],
    languages: &[&str],
    both: &mut Vec<&'f str>,
) -> Result<(), AllocError>
    ensures { OnOk result (AppendsThoseIn languages.now locales.now both.old.items both.new.items) }
{
    match locales {
        [] => Ok(()),
        [locale, rest @ ..] => {
            if is_among(locale, languages) {
                both.push(*locale)?;
            }
            push_those_in(rest, languages, both)
        }
    }
}
