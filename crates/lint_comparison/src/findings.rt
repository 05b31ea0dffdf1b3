//! The findings of messages.
#![tactic(auto)]

ghost use Rattle.std.specs.Prelude.{◌≡◌, ◌-◌, IfOk, length, map};
ghost use Rattle.fluent_ast.specs.Borrowed.{message_of};
ghost use Rattle.lint_comparison.specs.Found.{AreFindingsBy, IsFindingBy, IsMissingIn};
ghost use Rattle.lint_comparison.specs.InCode.{AreFoundOf, AreMessageFindings, IsLookedUp};
ghost use Rattle.lint_comparison.specs.HasPlaces.{HasPlacesOf};
ghost use Rattle.lint_findings.specs.DifferenceView.{difference_view};
ghost use Rattle.lint_entries.specs.AttributePlaces.{IsEntryAt};
ghost use Rattle.lint_findings.specs.Occurrences.{entry_places};
ghost use Rattle.fluent_grammar.specs.Tree as t;
ghost use Rattle.fluent_ids.specs.IdsView.{ids_view};

use crate::compared::compare;
use crate::hints::difference_hint;
use crate::places::Places;
use fluent_ast::Message;
use lint_findings::{CatalogIds, Difference, Finding};
use lint_nodes::Names;
use std::alloc::{AllocError, Global};

/// How a message of a catalog differs from that of the reference, as findings. Its id stands for
/// this other message there. The text is the source from the message on.
///
/// # Errors
/// [`AllocError`] if memory runs out; nothing is kept.
pub fn difference_findings<'s>(
    alloc: Global,
    ids: &CatalogIds<'_, 's>,
    reference: &CatalogIds<'_, 's>,
    source: &str,
    message: &Message<&str>,
    other: Option<&Message<&'s str>>,
    text: &[u8],
) -> Result<Vec<Finding>, AllocError>
    requires text { IsEntryAt (t.message (message_of message.now)) text.now }
    requires other { IsLookedUp reference.now message.now.id.name.now other }
    ensures { IfOk result (AreFoundOf ids.now reference.now source.now message.now text.now) }
{
    let compared = compare(alloc, ids, reference, other, message.id.name)?;
    let differences = &compared.differences;
    if differences.is_empty() {
        return Ok(Vec::new(alloc));
    }
    findings_of(
        alloc,
        source,
        message,
        text,
        &compared.variables,
        differences,
    )
}

/// The finding that a catalog has no message of the id of this one, which is of the reference, if
/// it has none. The text is the source from the message on.
///
/// # Errors
/// [`AllocError`] if memory runs out; nothing is kept.
pub fn missing_finding(
    alloc: Global,
    ids: &CatalogIds<'_, '_>,
    source: &str,
    message: &Message<&str>,
    text: &[u8],
) -> Result<Option<Finding>, AllocError>
    ensures { IfOk result (IsMissingIn (ids_view _ ids.now) source.now
        (t.message (message_of message.now)) text.now) }
{
    let id = message.id.name;
    if ids.has_message(id) {
        return Ok(None);
    }
    let offset = offset_of(source, text);
    Ok(Some(Difference::MissingMessage.finding(alloc, id, offset, None)?))
}

/// The findings of these differences of a message, if that of the reference is shown with these
/// variables.
fn findings_of(
    alloc: Global,
    source: &str,
    message: &Message<&str>,
    text: &[u8],
    variables: &Names<'_>,
    differences: &[Difference<'_>],
) -> Result<Vec<Finding>, AllocError>
    requires { IsEntryAt (t.message (message_of message.now)) text.now }
    ensures { IfOk result
        (AreMessageFindings source.now message.now text.now variables.now differences.now) }
{
    let places = Places::of_message(alloc, message, text)?;
    findings_at(
        alloc,
        source,
        message.id.name,
        text,
        &places,
        variables,
        differences,
    )
}

/// The same, by the places of the message.
fn findings_at<'t>(
    alloc: Global,
    source: &str,
    id: &str,
    text: &'t [u8],
    places: &Places<'_, 't>,
    variables: &Names<'_>,
    differences: &[Difference<'_>],
) -> Result<Vec<Finding>, AllocError>
    requires { HasPlacesOf places.now (entry_places text.now) }
    ensures { IfOk result (AreFindingsBy source.now id.now text.now variables.now
        (map difference_view differences.now)) }
{
    let mut findings = Vec::with_capacity(alloc, differences.len())?;
    for difference in differences {
        findings.push(finding_at(alloc, source, id, text, places, variables, difference)?)?;
    }
    Ok(findings)
}

fn finding_at<'t>(
    alloc: Global,
    source: &str,
    id: &str,
    text: &'t [u8],
    places: &Places<'_, 't>,
    variables: &Names<'_>,
    difference: &Difference<'_>,
) -> Result<Finding, AllocError>
    requires { HasPlacesOf places.now (entry_places text.now) }
    ensures { IfOk result (IsFindingBy source.now id.now text.now variables.now
        (difference_view difference.now)) }
{
    let place = places.place_of(difference, text);
    let hint = difference_hint(alloc, variables, difference)?;
    difference.finding(alloc, id, offset_of(source, place), hint)
}

/// How many bytes of a source stand before a text.
fn offset_of(source: &str, text: &[u8]) -> usize
    ensures { result ≡ length source.now - length text.now }
{
    source.len().saturating_sub(text.len())
}
