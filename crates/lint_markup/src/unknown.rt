//! Elements and names that the reference hasn't.
#![tactic(auto)]

ghost use Rattle.std.specs.Prelude.{◌≡◌, ◌||◌, if◌then◌else◌, ◌∷◌, [], IfOk, OnOk};
ghost use Rattle.lint_nodes.specs.HasNames.{is_in_set};
ghost use Rattle.lint_markup.specs.Beside.{AddsBy, AddsDoubt, if_unknown, unknown_element, new_elements, unknown_name, new_names};
ghost use Rattle.lint_findings.specs.Doubts as d;
ghost use Rattle.lint_findings.specs.Markup as m;
ghost use Rattle.lint_markup.specs.InCode.{Adds, AreNames, IsOn, tag_view, tags_of, texts_in};

use crate::elements::Known;
use crate::names::tag_name;
use crate::spotted::{Spotted, push_spotted};
use crate::tags::Tag;
use lint_findings::Remark;
use lint_flaws::near_hint;
use lint_nodes::Names;
use std::alloc::{AllocError, Global};

/// Whether the element of some tag isn't known.
pub fn has_unknown(known: &Names<'_>, tags: &[Tag<'_>]) -> bool
    requires known { AreNames known.now }
    ensures { result ≡ m.has_unknown (texts_in known.now) (tags_of tags.now) }
{
    for tag in tags {
        if !known.has(tag.element) {
            return true;
        }
    }
    false
}

/// Adds the elements of tags that aren't known, each once.
///
/// # Errors
/// [`AllocError`] if memory runs out; some may be added then.
pub fn push_unknown_elements(
    alloc: Global,
    known: &Names<'_>,
    tags: &[Tag<'_>],
    found: &mut Vec<Spotted>,
) -> Result<(), AllocError>
    requires known { AreNames known.now }
    ensures { OnOk result (Adds found.old found.new
        (m.unknown_elements (texts_in known.now) [] (tags_of tags.now))) }
{
    let mut seen = Names::new(alloc);
    for tag in tags {
        push_element(alloc, known, tag, &mut seen, found)?;
    }
    Ok(())
}

/// Adds the element of a tag, if it isn't known and wasn't seen.
fn push_element<'t>(
    alloc: Global,
    known: &Names<'_>,
    tag: &Tag<'t>,
    seen: &mut Names<'t>,
    found: &mut Vec<Spotted>,
) -> Result<(), AllocError>
    requires known { AreNames known.now }
    ensures { OnOk result (AddsBy (new_elements known.now) (tag_view tag.now)
        seen.old seen.new found.old found.new) }
{
    if is_either(known, seen, tag.element) {
        return Ok(());
    }
    push_new_element(alloc, known, tag, found)?;
    seen.add(tag.element)
}

/// Whether a name is known or was seen.
fn is_either(known: &Names<'_>, seen: &Names<'_>, name: &str) -> bool
    ensures { result ≡ (is_in_set known.now name.now || is_in_set seen.now name.now) }
{
    known.has(name) || seen.has(name)
}

fn push_new_element(
    alloc: Global,
    known: &Names<'_>,
    tag: &Tag<'_>,
    found: &mut Vec<Spotted>,
) -> Result<(), AllocError>
    requires known { AreNames known.now }
    ensures { OnOk result
        (AddsDoubt tag.now.at.now (unknown_element known.now tag.now.element.now) found.old found.new) }
{
    let remark = element_remark(alloc, known, tag.element)?;
    push_spotted(Spotted::at(alloc, tag.at, remark)?, found)
}

fn element_remark(alloc: Global, known: &Names<'_>, element: &str) -> Result<Remark, AllocError>
    requires known { AreNames known.now }
    ensures { IfOk result (IsOn (d.unknown_element (texts_in known.now) element.now)) }
{
    let hint = near_hint(alloc, "", &Known { names: known }, element)?;
    let text = format!(in alloc; "the reference has no element `{element}`")?;
    Ok(Remark::warning("unknown-element", text).with_hint(hint))
}

/// Adds the names in tags that aren't known, each once.
///
/// # Errors
/// [`AllocError`] if memory runs out; some may be added then.
pub fn push_unknown_names(
    alloc: Global,
    known: &Names<'_>,
    tags: &[Tag<'_>],
    found: &mut Vec<Spotted>,
) -> Result<(), AllocError>
    requires known { AreNames known.now }
    ensures { OnOk result (Adds found.old found.new
        (m.unknown_names (texts_in known.now) [] (tags_of tags.now))) }
{
    let mut seen = Names::new(alloc);
    for tag in tags {
        push_name(alloc, known, tag, &mut seen, found)?;
    }
    Ok(())
}

/// Adds the name of a tag, if it has one that isn't known and wasn't seen.
fn push_name<'t>(
    alloc: Global,
    known: &Names<'_>,
    tag: &Tag<'t>,
    seen: &mut Names<'t>,
    found: &mut Vec<Spotted>,
) -> Result<(), AllocError>
    requires known { AreNames known.now }
    ensures { OnOk result (AddsBy (new_names known.now) (tag_view tag.now)
        seen.old seen.new found.old found.new) }
{
    let Some(name) = tag_name(tag) else {
        return Ok(());
    };
    push_if_unknown(alloc, known, seen, tag, name, found)?;
    seen.add(name)
}

fn push_if_unknown(
    alloc: Global,
    known: &Names<'_>,
    seen: &Names<'_>,
    tag: &Tag<'_>,
    name: &str,
    found: &mut Vec<Spotted>,
) -> Result<(), AllocError>
    requires known { AreNames known.now }
    ensures { OnOk result (Adds found.old found.new (if_unknown known.now seen.now tag.now name.now)) }
{
    if is_either(known, seen, name) {
        return Ok(());
    }
    push_new_name(alloc, known, tag, name, found)
}

fn push_new_name(
    alloc: Global,
    known: &Names<'_>,
    tag: &Tag<'_>,
    name: &str,
    found: &mut Vec<Spotted>,
) -> Result<(), AllocError>
    requires known { AreNames known.now }
    ensures { OnOk result (AddsDoubt tag.now.at.now (unknown_name known.now name.now) found.old found.new) }
{
    let remark = name_remark(alloc, known, name)?;
    push_spotted(Spotted::at(alloc, tag.at, remark)?, found)
}

fn name_remark(alloc: Global, known: &Names<'_>, name: &str) -> Result<Remark, AllocError>
    requires known { AreNames known.now }
    ensures { IfOk result (IsOn (d.unknown_name (texts_in known.now) name.now)) }
{
    let hint = near_hint(alloc, "", &Known { names: known }, name)?;
    let text = format!(in alloc; "the reference has no `data-l10n-name=\"{name}\"`")?;
    Ok(Remark::warning("unknown-l10n-name", text).with_hint(hint))
}
