//! Elements that aren't closed.
#![tactic(auto)]

ghost use Rattle.std.specs.Prelude.{◌≡◌, ◌==◌, IfOk, OnOk, option_map};
ghost use Rattle.std.specs.List.{list_all};
ghost use Rattle.lint_markup.specs.Beside.{unbalanced_in, unbalanced_of};
ghost use Rattle.lint_findings.specs.Markup as m;
ghost use Rattle.lint_markup.specs.InCode.{Adds, IsOn, tag_view, tags_of, texts_of};

use crate::elements::{closed, opened};
use crate::pair::Pair;
use crate::spotted::{Spotted, push_spotted};
use crate::tags::{Tag, tags_in};
use lint_findings::Remark;
use lint_nodes::Names;
use std::alloc::{AllocError, Global};

/// Adds which of the elements of the reference a text doesn't close, if each text of the reference
/// does.
///
/// # Errors
/// [`AllocError`] if memory runs out; some may be added then.
pub fn push_unbalanced(
    alloc: Global,
    pair: &Pair<'_, '_, '_, '_>,
    known: &Names<'_>,
    found: &mut Vec<Spotted>,
) -> Result<(), AllocError>
    ensures { OnOk result (Adds found.old found.new (unbalanced_in pair.now known.now)) }
{
    for element in &known.list {
        push_beside(alloc, element, pair, found)?;
    }
    Ok(())
}

/// Adds that of an element that each text of the reference closes.
fn push_beside(
    alloc: Global,
    element: &str,
    pair: &Pair<'_, '_, '_, '_>,
    found: &mut Vec<Spotted>,
) -> Result<(), AllocError>
    ensures { OnOk result (Adds found.old found.new (unbalanced_of pair.now element.now)) }
{
    if are_even(alloc, element, pair.others)? {
        push_first(alloc, element, pair.runs, found)
    } else {
        Ok(())
    }
}

/// Whether each of some texts opens an element as often as it closes it.
fn are_even(alloc: Global, element: &str, texts: &[String]) -> Result<bool, AllocError>
    ensures { IfOk result (λ are. are ≡ list_all (m.is_even element.now) (texts_of texts.now)) }
{
    for text in texts {
        if !is_even(element, &tags_in(alloc, text.as_str())?) {
            return Ok(false);
        }
    }
    Ok(true)
}

fn is_even(element: &str, tags: &[Tag<'_>]) -> bool
    ensures { result ≡ (m.opened element.now (tags_of tags.now) == m.closed element.now (tags_of tags.now)) }
{
    opened(element, tags) == closed(element, tags)
}

/// Adds that of the first text that doesn't close an element.
fn push_first(
    alloc: Global,
    element: &str,
    texts: &[String],
    found: &mut Vec<Spotted>,
) -> Result<(), AllocError>
    ensures { OnOk result (Adds found.old found.new (m.unbalanced element.now (texts_of texts.now))) }
{
    for text in texts {
        let tags = tags_in(alloc, text.as_str())?;
        if !is_even(element, &tags) {
            return push_unclosed(alloc, element, &tags, found);
        }
    }
    Ok(())
}

/// Adds that of a text with these tags, at the first of the element.
fn push_unclosed(
    alloc: Global,
    element: &str,
    tags: &[Tag<'_>],
    found: &mut Vec<Spotted>,
) -> Result<(), AllocError>
    ensures { OnOk result (Adds found.old found.new (m.unbalanced_in element.now (tags_of tags.now))) }
{
    match first_of(element, tags) {
        Some(tag) => {
            let remark = unbalanced_remark(alloc, element, tags)?;
            push_spotted(Spotted::at(alloc, tag.at, remark)?, found)
        }
        None => Ok(()),
    }
}

fn first_of<'t>(element: &str, tags: &[Tag<'t>]) -> Option<Tag<'t>>
    ensures { option_map tag_view result ≡ m.first_of element.now (tags_of tags.now) }
{
    for tag in tags {
        if element == tag.element {
            return Some(*tag);
        }
    }
    None
}

fn unbalanced_remark(alloc: Global, element: &str, tags: &[Tag<'_>]) -> Result<Remark, AllocError>
    ensures { IfOk result (IsOn (m.unbalanced_doubt element.now (tags_of tags.now))) }
{
    let text = if closed(element, tags) < opened(element, tags) {
        format!(in alloc; "`<{element}>` isn't closed")?
    } else {
        format!(in alloc; "`</{element}>` closes nothing")?
    };
    Ok(Remark::warning("unbalanced-element", text))
}
