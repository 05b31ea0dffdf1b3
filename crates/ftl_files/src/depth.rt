//! Sources that nest too deep.
#![tactic(auto)]

ghost use Rattle.std.specs.Prelude.{◌↔◌, ◌-◌, IfOk, IfSome, IsTrue, OnErr, drop, string_bytes, take};
ghost use Rattle.ftl_files.specs.Depth.{IsDeepAt, IsDeepOn, IsDepthReport, IsShallow, NestsTooDeep};

use fluent_parser::{StackBudget, TooDeep, parse_unless_too_deep};
use lint_findings::SourcePosition;
use memchr::memchr2_iter;
use std::alloc::{AllocError, Global};

/// How many braces and parentheses never nest too deep: each takes 2,900 bytes of the machine's
/// stack at most.
const SHALLOW: usize = 2_000;

/// The line that says that the source of a file nests too deep, if it does.
///
/// # Errors
/// [`AllocError`] if memory runs out; nothing is kept.
pub(crate) fn depth_report(
    alloc: Global,
    name: &str,
    source: &str,
) -> Result<Option<String>, AllocError>
    ensures { IfOk result (λ report. IfSome report (λ line.
        IsDepthReport name.now source.now (string_bytes line))) }
{
    if is_shallow(source) {
        return Ok(None);
    }
    match check_depth(alloc, source) {
        Ok(()) => Ok(None),
        Err(TooDeep) => Ok(Some(deep_report(alloc, name, source)?)),
    }
}

/// Whether a source has too few braces and parentheses to nest too deep. If so, it isn't read for
/// that.
fn is_shallow(source: &str) -> bool
    ensures { IsTrue result ↔ IsShallow source.now }
{
    memchr2_iter(b'{', b'(', source.as_bytes())
        .take(SHALLOW)
        .count()
        < SHALLOW
}

/// The line on a source that nests too deep.
fn deep_report(alloc: Global, name: &str, source: &str) -> Result<String, AllocError>
    requires { NestsTooDeep source.now }
    ensures { IfOk result (λ line. IsDepthReport name.now source.now (string_bytes line)) }
{
    match deep_line(alloc, source) {
        Some(line) => format!(in alloc; "ftl: {name}:{line}: nests too deep\n"),
        None => format!(in alloc; "ftl: {name}: nests too deep\n"),
    }
}

/// The line on which the first message or term begins that nests too deep.
fn deep_line(alloc: Global, source: &str) -> Option<usize>
    ensures { IfSome result (IsDeepOn source.now) }
{
    let start = deep_start(alloc, source)?;
    Some(SourcePosition::start().moved_to(source, start).line())
}

/// Where the first part of a source begins that nests too deep by itself. A part goes from a line
/// that begins as messages and terms do to the next one.
fn deep_start(alloc: Global, source: &str) -> Option<usize>
    ensures { IfSome result (IsDeepAt source.now) }
{
    let mut start = 0;
    let mut before = b'\n';
    for (place, &byte) in source.as_bytes().iter().enumerate() {
        if before == b'\n' && (byte.is_ascii_alphabetic() || byte == b'-') {
            if let Err(TooDeep) = check_part(alloc, source, start, place) {
                return Some(start);
            }
            start = place;
        }
        before = byte;
    }
    match check_part(alloc, source, start, source.len()) {
        Ok(()) => None,
        Err(TooDeep) => Some(start),
    }
}

/// Whether a part of a source nests too deep by itself.
fn check_part(alloc: Global, source: &str, start: usize, end: usize) -> Result<(), TooDeep>
    ensures { OnErr result (IsDeepAt source.now start) }
{
    match source.get(start..end) {
        Some(part) => check_depth(alloc, part),
        None => Ok(()),
    }
}

/// Whether a text nests too deep.
fn check_depth(alloc: Global, text: &str) -> Result<(), TooDeep>
    ensures { OnErr result (NestsTooDeep text.now) }
{
    match parse_unless_too_deep(alloc, text, StackBudget::PROGRAM) {
        Ok(_) => Ok(()),
        Err(TooDeep) => Err(TooDeep),
    }
}
