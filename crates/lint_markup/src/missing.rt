//! Elements and names that a text leaves out.
#![tactic(auto)]

ghost use Rattle.std.specs.Prelude.{◌≡◌, ◌∷◌, [], if◌then◌else◌, IfOk, OnOk};
ghost use Rattle.std.specs.List.{flat_map, list_any};
ghost use Rattle.fluent_ast.specs.Borrowed.{elements_of};
ghost use Rattle.lint_findings.specs.Comparison.{has_new};
ghost use Rattle.lint_markup.specs.Beside.{is_missing, is_name_missing, missing_in, missing_name_of, missing_names_in, said_if};
ghost use Rattle.lint_findings.specs.Doubts as d;
ghost use Rattle.lint_findings.specs.Markup as m;
ghost use Rattle.lint_markup.specs.InCode.{Adds, AreNames, IsOn, es_of, os_of, tag_view, tags_of, texts_in};

use crate::always::always;
use crate::elements::elements_of;
use crate::names::tag_name;
use crate::pair::Pair;
use crate::spotted::{Spotted, push_spotted};
use crate::tags::Tag;
use crate::wanted::Wanted;
use fluent_ast::Pattern;
use lint_findings::Remark;
use lint_nodes::Names;
use std::alloc::{AllocError, Global};

/// Adds the elements without a name that the reference has, whichever variants are chosen, and of
/// which a text with these tags has none.
///
/// # Errors
/// [`AllocError`] if memory runs out; some may be added then.
pub fn push_missing_elements(
    alloc: Global,
    pair: &Pair<'_, '_, '_, '_>,
    tags: &[Tag<'_>],
    others: &[Tag<'_>],
    known: &Names<'_>,
    found: &mut Vec<Spotted>,
) -> Result<(), AllocError>
    requires known { AreNames known.now }
    ensures { OnOk result (Adds found.old found.new
        (missing_in pair.now tags.now others.now known.now)) }
{
    let mine = elements_of(alloc, tags)?;
    for element in &known.list {
        let missing = is_missing(alloc, element, &mine, others, pair.other)?;
        push_missing(alloc, missing, element, found)?;
    }
    Ok(())
}

/// Adds that of an element, if it is missing.
fn push_missing(
    alloc: Global,
    missing: bool,
    element: &str,
    found: &mut Vec<Spotted>,
) -> Result<(), AllocError>
    ensures { OnOk result (Adds found.old found.new
        (said_if missing (d.missing_element element.now))) }
{
    if missing {
        let remark = missing_remark(alloc, element)?;
        push_spotted(Spotted::on_text(alloc, remark), found)
    } else {
        Ok(())
    }
}

/// Whether the reference has an element without a name, whichever variants are chosen, that isn't
/// one of these.
fn is_missing(
    alloc: Global,
    element: &str,
    mine: &Names<'_>,
    others: &[Tag<'_>],
    other: &Pattern<&str>,
) -> Result<bool, AllocError>
    requires mine { AreNames mine.now }
    ensures { IfOk result (λ is. is ≡ is_missing mine.now others.now (elements_of other.now) element.now) }
{
    if mine.has(element) || is_ever_named(element, others) {
        return Ok(false);
    }
    always(alloc, Wanted::Opening(element), other)
}

/// Whether some tag gives an element a name.
fn is_ever_named(element: &str, tags: &[Tag<'_>]) -> bool
    ensures { result ≡ list_any (m.is_named element.now) (tags_of tags.now) }
{
    for tag in tags {
        if is_named(element, tag) {
            return true;
        }
    }
    false
}

fn is_named(element: &str, tag: &Tag<'_>) -> bool
    ensures { result ≡ m.is_named element.now (tag_view tag.now) }
{
    element == tag.element && tag_name(tag).is_some()
}

fn missing_remark(alloc: Global, element: &str) -> Result<Remark, AllocError>
    ensures { IfOk result (IsOn (d.missing_element element.now)) }
{
    let text = format!(in alloc; "the reference has an element `{element}`")?;
    Ok(Remark::note("missing-element", text))
}

/// Adds the names that the reference has, whichever variants are chosen, and the text doesn't, if
/// the text has no other names than these.
///
/// # Errors
/// [`AllocError`] if memory runs out; some may be added then.
pub fn push_missing_names(
    alloc: Global,
    pair: &Pair<'_, '_, '_, '_>,
    names: &Names<'_>,
    known: &Names<'_>,
    found: &mut Vec<Spotted>,
) -> Result<(), AllocError>
    requires names { AreNames names.now }
    requires known { AreNames known.now }
    ensures { OnOk result (Adds found.old found.new
        (missing_names_in pair.now names.now known.now)) }
{
    if has_new(names, known) {
        return Ok(());
    }
    push_each_missing(alloc, pair, known, found)
}

/// Whether one of some names isn't known.
fn has_new(names: &Names<'_>, known: &Names<'_>) -> bool
    requires known { AreNames known.now }
    ensures { result ≡ has_new (texts_in names.now) (texts_in known.now) }
{
    for name in &names.list {
        if !known.has(name) {
            return true;
        }
    }
    false
}

fn push_each_missing(
    alloc: Global,
    pair: &Pair<'_, '_, '_, '_>,
    known: &Names<'_>,
    found: &mut Vec<Spotted>,
) -> Result<(), AllocError>
    ensures { OnOk result (Adds found.old found.new
        (flat_map (missing_name_of pair.now) (texts_in known.now))) }
{
    for name in &known.list {
        push_if_missing(alloc, pair, name, found)?;
    }
    Ok(())
}

fn push_if_missing(
    alloc: Global,
    pair: &Pair<'_, '_, '_, '_>,
    name: &str,
    found: &mut Vec<Spotted>,
) -> Result<(), AllocError>
    ensures { OnOk result (Adds found.old found.new (m.if_name_missing (es_of pair.now) (os_of pair.now) name.now)) }
{
    if is_name_missing(alloc, pair, name)? {
        let remark = name_remark(alloc, name)?;
        push_spotted(Spotted::on_text(alloc, remark), found)
    } else {
        Ok(())
    }
}

fn is_name_missing(
    alloc: Global,
    pair: &Pair<'_, '_, '_, '_>,
    name: &str,
) -> Result<bool, AllocError>
    ensures { IfOk result (λ is. is ≡ is_name_missing pair.now name.now) }
{
    let wanted = Wanted::Named(name);
    Ok(always(alloc, wanted, pair.other)? && !always(alloc, wanted, pair.pattern)?)
}

fn name_remark(alloc: Global, name: &str) -> Result<Remark, AllocError>
    ensures { IfOk result (IsOn (d.missing_name name.now)) }
{
    let text = format!(in alloc; "the reference has `data-l10n-name=\"{name}\"`")?;
    Ok(Remark::warning("missing-l10n-name", text))
}
