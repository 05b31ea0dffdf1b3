//! The messages of a file that its translation lacks.
#![tactic(auto)]

ghost use Rattle.std.specs.Prelude.{◌≡◌, IfOk, OnOk, count_by};
ghost use Rattle.lint_entries.specs.Made.{Adds};
ghost use Rattle.fluent_lint.specs.FileTiles.{AreTilesOf};
ghost use Rattle.fluent_lint.specs.Gaps.{AddsGaps, AddsGapsOf, has_place, translated_in};
ghost use Rattle.fluent_lint.specs.Pairs.{gap_at};

use crate::message_places::{MessagePlaces, message_ids};
use crate::tiles::FileTiles;
use lint_findings::{Difference, Finding};
use std::alloc::{AllocError, Global};

/// Adds the findings of the messages that a file lacks of the one that it is translated from. Each
/// is at the last message before it in that file that is translated, or else at the start. The
/// result is how many are translated.
///
/// # Errors
/// [`AllocError`] if memory runs out; some may be added then.
pub fn push_gaps(
    alloc: Global,
    file: &FileTiles<'_, '_>,
    original: &FileTiles<'_, '_>,
    findings: &mut Vec<Finding>,
) -> Result<usize, AllocError>
    requires file { AreTilesOf file.now }
    requires original { AreTilesOf original.now }
    ensures added { OnOk result (AddsGapsOf file.now original.now findings.old findings.new) }
    ensures translated { IfOk result (λ count. count ≡ translated_in file.now original.now) }
{
    let places = MessagePlaces::of_file(alloc, file)?;
    let ids = message_ids(alloc, original)?;
    push_gaps_at(alloc, &places, &ids.list, findings)?;
    Ok(placed_count(&places, &ids.list))
}

/// Adds the finding of each of these ids that has no place.
fn push_gaps_at(
    alloc: Global,
    places: &MessagePlaces<'_>,
    ids: &[&str],
    findings: &mut Vec<Finding>,
) -> Result<(), AllocError>
    ensures { OnOk result (AddsGaps places.now ids.now findings.old findings.new) }
{
    let mut at = 0;
    for id in ids {
        let place = places.first(id);
        push_gap(alloc, id, at, place, findings)?;
        at = place.unwrap_or(at);
    }
    Ok(())
}

/// Adds the finding of an id at an offset, if it has no place of its own.
fn push_gap(
    alloc: Global,
    id: &str,
    at: usize,
    place: Option<usize>,
    findings: &mut Vec<Finding>,
) -> Result<(), AllocError>
    ensures { OnOk result (Adds findings.old findings.new (gap_at at id.now place)) }
{
    match place {
        Some(_) => Ok(()),
        None => {
            let finding = Difference::MissingMessage.finding(alloc, id, at, None)?;
            findings.push(finding)?;
            Ok(())
        }
    }
}

/// How many of these ids have a place.
fn placed_count(places: &MessagePlaces<'_>, ids: &[&str]) -> usize
    ensures { result ≡ count_by (has_place places.now) ids.now }
{
    ids.iter().filter(|id| places.has(id)).count()
}
