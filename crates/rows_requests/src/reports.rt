//! Reports, as lines of text.

use crate::calls::Outcome;
use fluent_check::{Report, check};
use fluent_parsed::ParserError;
use std::alloc::{AllocError, Global};
use std::fmt;

/// A line for each error, with the number of its source from 1 on, and then one for each notice.
pub fn check_sources(alloc: Global, sources: &[&str]) -> Result<Outcome, AllocError> {
    match check(alloc, sources) {
        Ok(report) => told(alloc, &report),
        Err(_) => Err(AllocError),
    }
}

/// The report as text. Writing it fails only where memory runs out.
fn told(alloc: Global, report: &Report) -> Result<Outcome, AllocError> {
    let mut text = String::new(alloc);
    match tell(&mut text, report) {
        Ok(()) => Ok(Outcome::Text(text)),
        Err(_) => Err(AllocError),
    }
}

fn tell(text: &mut String, report: &Report) -> fmt::Result {
    let mut number = 1u64;
    for errors in &report.errors {
        tell_errors(text, number, errors.as_slice())?;
        number = number.saturating_add(1);
    }
    for notice in &report.notices {
        writeln!(text, "{notice}")?;
    }
    Ok(())
}

fn tell_errors(text: &mut String, number: u64, errors: &[ParserError]) -> fmt::Result {
    for error in errors {
        let (start, end) = (error.pos.start, error.pos.end);
        writeln!(
            text,
            "source {number}: bytes {start}..{end}: {}",
            error.kind
        )?;
    }
    Ok(())
}
