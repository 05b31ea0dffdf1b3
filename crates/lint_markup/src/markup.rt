//! What the tags of a text say, beside those of the reference's.
#![tactic(auto)]

ghost use Rattle.std.specs.Prelude.{◌≡◌, ◌∷◌, ◌++◌, [], IfOk, OnOk};
ghost use Rattle.lint_markup.specs.Beside.{if_looked_at, of_elements, of_names, of_tags, tags_said};
ghost use Rattle.lint_findings.specs.Doubts as d;
ghost use Rattle.lint_findings.specs.Markup as m;
ghost use Rattle.lint_findings.specs.Tags as t;
ghost use Rattle.lint_markup.specs.InCode.{Adds, AddsOfPair, AreRunsOf, IsOn, es_of, os_of, tags_of, texts_of};
ghost use Rattle.std.specs.List.{list_any};

use crate::broken::first_broken;
use crate::elements::{elements_of, names_of};
use crate::missing::{push_missing_elements, push_missing_names};
use crate::pair::Pair;
use crate::spotted::{Spotted, push_spotted};
use crate::tags::{Tag, tags};
use crate::unbalanced::push_unbalanced;
use crate::unknown::{has_unknown, push_unknown_elements, push_unknown_names};
use lint_findings::Remark;
use std::alloc::{AllocError, Global};

/// Adds what the tags of a text say, beside those of the reference's.
///
/// # Errors
/// [`AllocError`] if memory runs out; some may be added then.
pub fn push_markup(
    alloc: Global,
    pair: &Pair<'_, '_, '_, '_>,
    found: &mut Vec<Spotted>,
) -> Result<(), AllocError>
    requires { AreRunsOf pair.now }
    ensures { OnOk result (AddsOfPair m.markup pair.now found.old found.new) }
{
    if !have_signs(pair) || first_broken(true, pair.others).is_some() {
        return Ok(());
    }
    let others = tags(alloc, pair.others)?;
    push_beside(alloc, pair, &others, found)
}

/// Adds that of a text beside one that has these tags and no broken ones.
fn push_beside(
    alloc: Global,
    pair: &Pair<'_, '_, '_, '_>,
    others: &[Tag<'_>],
    found: &mut Vec<Spotted>,
) -> Result<(), AllocError>
    requires runs { AreRunsOf pair.now }
    requires tags { tags_of others.now ≡ t.tags (texts_of pair.now.others.now) }
    ensures { OnOk result (AddsOfPair if_looked_at pair.now found.old found.new) }
{
    match first_broken(!others.is_empty(), pair.runs) {
        Some(at) => push_broken(alloc, at, found),
        None => push_tags(alloc, pair, others, found),
    }
}

/// Adds that a tag has no end, at its sign.
fn push_broken(alloc: Global, at: &str, found: &mut Vec<Spotted>) -> Result<(), AllocError>
    ensures { OnOk result (Adds found.old found.new (d.spotted_at at.now d.broken_tag ∷ [])) }
{
    let remark = broken_remark(alloc)?;
    push_spotted(Spotted::at(alloc, at, remark)?, found)
}

/// Whether a text of either has a sign that may begin a tag.
fn have_signs(pair: &Pair<'_, '_, '_, '_>) -> bool
    ensures { result ≡ list_any m.has_sign (texts_of pair.now.runs.now ++ texts_of pair.now.others.now) }
{
    have_sign(pair.runs) || have_sign(pair.others)
}

/// Whether one of some texts has a sign that may begin a tag.
fn have_sign(texts: &[String]) -> bool
    ensures { result ≡ list_any m.has_sign (texts_of texts.now) }
{
    for text in texts {
        if text.as_bytes().contains(&b'<') {
            return true;
        }
    }
    false
}

fn broken_remark(alloc: Global) -> Result<Remark, AllocError>
    ensures { IfOk result (IsOn d.broken_tag) }
{
    let text = format!(in alloc; "this tag has no end")?;
    Ok(Remark::warning("broken-tag", text))
}

/// Adds that of a text without broken tags, beside one with these tags.
fn push_tags(
    alloc: Global,
    pair: &Pair<'_, '_, '_, '_>,
    others: &[Tag<'_>],
    found: &mut Vec<Spotted>,
) -> Result<(), AllocError>
    requires { AreRunsOf pair.now }
    ensures { OnOk result (AddsOfPair (of_tags pair.now others.now) pair.now found.old found.new) }
{
    let mine = tags(alloc, pair.runs)?;
    push_of_tags(alloc, pair, &mine, others, found)
}

/// The same of its tags.
fn push_of_tags(
    alloc: Global,
    pair: &Pair<'_, '_, '_, '_>,
    mine: &[Tag<'_>],
    others: &[Tag<'_>],
    found: &mut Vec<Spotted>,
) -> Result<(), AllocError>
    requires { AreRunsOf pair.now }
    ensures { OnOk result (Adds found.old found.new (tags_said pair.now mine.now others.now)) }
{
    push_of_elements(alloc, pair, mine, others, found)?;
    push_of_names(alloc, pair, mine, others, found)
}

/// Adds what is said of elements: those that the reference hasn't, or else those that aren't closed
/// and those that are left out.
fn push_of_elements(
    alloc: Global,
    pair: &Pair<'_, '_, '_, '_>,
    mine: &[Tag<'_>],
    others: &[Tag<'_>],
    found: &mut Vec<Spotted>,
) -> Result<(), AllocError>
    ensures { OnOk result (Adds found.old found.new (of_elements pair.now (tags_of mine.now) (tags_of others.now))) }
{
    let known = elements_of(alloc, others)?;
    if has_unknown(&known, mine) {
        return push_unknown_elements(alloc, &known, mine, found);
    }
    push_unbalanced(alloc, pair, &known, found)?;
    push_missing_elements(alloc, pair, mine, others, &known, found)
}

/// Adds what is said of names: those that the reference hasn't, and those that are left out.
fn push_of_names(
    alloc: Global,
    pair: &Pair<'_, '_, '_, '_>,
    mine: &[Tag<'_>],
    others: &[Tag<'_>],
    found: &mut Vec<Spotted>,
) -> Result<(), AllocError>
    ensures { OnOk result (Adds found.old found.new (of_names pair.now (tags_of mine.now) (tags_of others.now))) }
{
    let known = names_of(alloc, others)?;
    push_unknown_names(alloc, &known, mine, found)?;
    let names = names_of(alloc, mine)?;
    push_missing_names(alloc, pair, &names, &known, found)
}
