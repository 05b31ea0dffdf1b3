//! The text of a report.

ghost use Rattle.std.specs.Prelude.{◌≡◌, IfOk, string_bytes};
ghost use Rattle.fluent_resource.specs.Sources.{texts};
ghost use Rattle.fluent_check.specs.Report.{report_text};

use crate::error_lines::push_errors;
use crate::notice_lines::push_notices;
use crate::report::report_on;
use fluent_text::stack::StackBudget;
use std::alloc::{AllocError, Global};

/// The lines of the errors of each source, and then those of the entries whose id was there. The
/// text is empty if nothing was found. Each message and term that is read may take this budget of
/// the machine's stack.
///
/// # Errors
/// [`AllocError`] if memory runs out; nothing is kept. It also means that placeables, calls and
/// selects of a source are nested so deep that reading them would take more than the budget.
pub fn check_text(alloc: Global, sources: &[&str], stack: StackBudget) -> Result<String, AllocError>
    ensures { IfOk result (λ text. string_bytes text ≡ report_text (texts sources.now)) }
{
    let report = report_on(alloc, sources, stack)?;
    let mut text = String::new(alloc);
    push_errors(&mut text, &report.errors)?;
    push_notices(&mut text, &report.notices)?;
    Ok(text)
}
