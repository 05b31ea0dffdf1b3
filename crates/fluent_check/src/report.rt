//! The errors and the notices of sources.

ghost use Rattle.std.specs.Prelude.{IfOk};
ghost use Rattle.fluent_check.specs.ReportView.{IsReportOn};
ghost use Rattle.fluent_resource.specs.Sources.{texts};

use crate::notices::notices_of_trees;
use crate::whole::read_whole;
use fluent_errors::FluentError;
use fluent_parser::{ParserError, StackBudget};
use std::alloc::{AllocError, Global};

/// What a check of sources found.
///
/// ```no_run
/// let report = check(rt.alloc(), &["a = b\na = c\n!\n"])?;
/// for (number, errors) in report.errors.iter().enumerate() {
///     println!(rt; "errors of source {number}: {}", errors.len())?; // errors of source 0: 1
/// }
/// for notice in report.notices.iter() {
///     println!(rt; "{notice}")?; // Attempt to override an existing message: "a".
/// }
/// ```
#[derive(Debug, PartialEq, Eq, Drop)]
pub struct Report {
    /// For each source its errors, one for each stretch that is no entry, in the order of their
    /// places.
    pub errors: Vec<Vec<ParserError>>,
    /// [`FluentError::Overriding`] for each message and term whose id was there before it, in the
    /// order of the sources and of their places. `NUMBER` is there from the start.
    pub notices: Vec<FluentError>,
}

/// The errors of each source, and the entries whose id was there.
///
/// ```
/// let report = check(alloc, &[SOURCE])?;
/// ```
///
/// # Errors
/// [`AllocError`] if memory runs out; nothing is kept. It also means that placeables, calls and
/// selects of a source are nested so deep that reading them would take more than the budget of a
/// program, [`StackBudget::PROGRAM`].
pub fn check(alloc: Global, sources: &[&str]) -> Result<Report, AllocError>
    ensures { IfOk result (IsReportOn (texts sources.now)) }
{
    report_on(alloc, sources, StackBudget::PROGRAM)
}

/// The same, within this budget of the machine's stack for each message and term.
pub(crate) fn report_on(
    alloc: Global,
    sources: &[&str],
    stack: StackBudget,
) -> Result<Report, AllocError>
    ensures { IfOk result (IsReportOn (texts sources.now)) }
{
    let read = read_whole(alloc, sources, stack)?;
    let notices = notices_of_trees(alloc, &read.trees)?;
    Ok(Report {
        errors: read.errors,
        notices,
    })
}
