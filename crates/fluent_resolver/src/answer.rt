//! What a pattern gives a request.

ghost use Rattle.std.specs.Prelude.{◌≡◌, false, IfOk, IsOkAnd, List, Some, option_copied, string_bytes};
ghost use Rattle.std.specs.Cow.{IsBorrowedStr};
ghost use Rattle.fluent_resolver.specs.Asked.{GivesText, IsText, ReportsAll, ReportsFirst, Shows, WritesStart, WritesWhole, lone_text, told};
ghost use Rattle.fluent_ast.specs.Borrowed.{elements_of};
ghost use Rattle.fluent_errors.specs.Errors.{Reported};
ghost use Rattle.fluent_progress.specs.Depth.{NestsPast};
ghost use Rattle.fluent_progress.specs.Views.{resolved_in, state};
ghost use Rattle.fluent_resolver.specs.Deep.{IfTooDeep};
ghost use Rattle.fluent_resolver.specs.Steps.{answer};

use crate::fault::Fault;
use crate::pattern::write_pattern;
use crate::written::write_pieces;
use fluent_ast::{Pattern, PatternElement};
use fluent_errors::FluentError;
use fluent_progress::{Context, Progress, Surroundings};
use fluent_text::stack::StackBudget;
use fluent_text::{TextWrite, WriteError};
use fluent_value::{FluentType, FluentValue, ValueScope};
use std::alloc::AllocError;
use std::borrow::CowStr;
use std::mem;

/// How many bytes a text has room for at first. Most texts take no more, and are never moved.
const ROOM: usize = 64;

/// What a pattern gives: a text without placeables as it is, if nothing changes it, and any other
/// anew.
///
/// # Errors
/// [`AllocError`] if memory runs out, or values nest past the budget of the stack; the first of the
/// pattern's errors are reported.
pub fn answer<'b, 'r, 's, 'a, C: FluentType + Drop, F, E: Context<C, F>>(
    place: &Surroundings<'b, 'r, 's, 'a, C, F, E>,
    pattern: &'r Pattern<&'s str>,
    errors: &mut Vec<FluentError>,
) -> Result<CowStr<'s>, AllocError>
    ensures text { GivesText result (answer place.now pattern.now) }
    ensures told { ReportsAll result errors.old errors.new (answer place.now pattern.now) }
    ensures refused { ReportsFirst result errors.old errors.new (answer place.now pattern.now) }
    ensures borrowed { E.has_transform place.now.context.now ≡ false → IsText pattern.now
        → IsOkAnd result IsBorrowedStr }
{
    match answer_within(place, pattern, errors, place.context.stack_budget()) {
        Ok(text) => Ok(text),
        Err(Fault::Memory | Fault::TooDeep) => Err(AllocError),
    }
}

/// What a pattern gives within this budget of the machine's stack, as [`answer`] does. Values that
/// nest too deep are told from want of memory.
///
/// # Errors
/// [`Memory`](Fault::Memory) if memory runs out, [`TooDeep`](Fault::TooDeep) only if the pattern
/// takes more bytes at some place than the budget has; the first of the pattern's errors are
/// reported.
pub fn answer_within<'b, 'r, 's, 'a, C: FluentType + Drop, F, E: Context<C, F>>(
    place: &Surroundings<'b, 'r, 's, 'a, C, F, E>,
    pattern: &'r Pattern<&'s str>,
    errors: &mut Vec<FluentError>,
    budget: StackBudget,
) -> Result<CowStr<'s>, Fault>
    ensures text { GivesText result (answer place.now pattern.now) }
    ensures told { ReportsAll result errors.old errors.new (answer place.now pattern.now) }
    ensures refused { ReportsFirst result errors.old errors.new (answer place.now pattern.now) }
    ensures borrowed { E.has_transform place.now.context.now ≡ false → IsText pattern.now
        → IsOkAnd result IsBorrowedStr }
    ensures deep { IfTooDeep result (NestsPast budget.bytes (resolved_in place.now).find (elements_of pattern.now)) }
{
    match lone_text(pattern) {
        Some(text) => Ok(place.context.transform(text)?),
        None => Ok(CowStr::Owned(resolved(place, pattern, errors, budget)?)),
    }
}

/// The text of a pattern that is one text. It is what the pattern gives, whatever the arguments
/// are.
pub fn lone_text<'s>(pattern: &Pattern<&'s str>) -> Option<&'s str>
    ensures { option_copied result ≡ lone_text (elements_of pattern.now) }
{
    let (first, rest) = pattern.elements.split_first()?;
    match first {
        PatternElement::TextElement { value } if rest.is_empty() => Some(*value),
        _ => None,
    }
}

/// What a pattern writes. If memory runs out, or values nest past the budget, the first of the
/// pattern's errors are reported.
fn resolved<'b, 'r, 's, 'a, C: FluentType + Drop, F, E: Context<C, F>>(
    place: &Surroundings<'b, 'r, 's, 'a, C, F, E>,
    pattern: &'r Pattern<&'s str>,
    errors: &mut Vec<FluentError>,
    budget: StackBudget,
) -> Result<String, Fault>
    ensures text { IfOk result (λ text. string_bytes text ≡ (answer place.now pattern.now).value) }
    ensures told { ReportsAll result errors.old errors.new (answer place.now pattern.now) }
    ensures refused { ReportsFirst result errors.old errors.new (answer place.now pattern.now) }
    ensures deep { IfTooDeep result (NestsPast budget.bytes (resolved_in place.now).find (elements_of pattern.now)) }
{
    let alloc = place.context.alloc();
    let mut text = String::with_capacity(alloc, ROOM)?;
    let list = mem::replace(errors, Vec::new(alloc));
    let mut progress = Progress::within(alloc, Some(list), budget);
    let written = write_pattern(&mut text, place, &mut progress, pattern);
    let is_past = progress.stack.is_past;
    put_back(errors, progress);
    match written {
        Ok(()) => Ok(text),
        Err(AllocError) if is_past => Err(Fault::TooDeep),
        Err(AllocError) => Err(Fault::Memory),
    }
}

/// Writes what a pattern gives, piece by piece.
///
/// # Errors
/// [`Writer`](WriteError::Writer) if the writer refuses a piece, [`Memory`](WriteError::Memory) if
/// memory runs out, or values nest past the budget of the stack. The writer took the pieces before,
/// and the first of the pattern's errors are reported.
pub fn write_answer<'b, 'r, 's, 'a, W, C, F, E>(
    w: &mut W,
    place: &Surroundings<'b, 'r, 's, 'a, C, F, E>,
    pattern: &'r Pattern<&'s str>,
    errors: &mut Vec<FluentError>,
) -> Result<(), WriteError>
where
    W: TextWrite,
    C: FluentType + Drop,
    E: Context<C, F>,
    ensures wrote { WritesWhole W.text result w.old w.new (answer place.now pattern.now) }
    ensures wrote_first { WritesStart W.text result w.old w.new (answer place.now pattern.now) }
    ensures told { ReportsAll result errors.old errors.new (answer place.now pattern.now) }
    ensures told_first { ReportsFirst result errors.old errors.new (answer place.now pattern.now) }
{
    let alloc = place.context.alloc();
    let list = mem::replace(errors, Vec::new(alloc));
    let mut progress = Progress::within(alloc, Some(list), place.context.stack_budget());
    let written = write_pieces(w, place, &mut progress, pattern);
    put_back(errors, progress);
    written
}

/// Puts the errors that were reported back where they were taken from.
fn put_back(errors: &mut Vec<FluentError>, progress: Progress<'_, '_>)
    ensures { (list : List Reported) → (state progress.entry).errors ≡ Some list → told errors.new ≡ list }
{
    if let Some(list) = progress.into_errors() {
        *errors = list;
    }
}

/// Hands a text out as a value is shown: if no formatter is set, as it is, which allocates nothing.
///
/// # Errors
/// [`AllocError`] if memory runs out; nothing is kept.
pub fn hand_out<'s, C: FluentType + Drop, V: ValueScope<C>>(
    scope: &V,
    text: CowStr<'s>,
) -> Result<CowStr<'s>, AllocError>
    ensures text { IfOk result (Shows (V.formatted scope.now) (V.shown scope.now) text.entry) }
    ensures borrowed { V.has_formatter scope.now ≡ false → IsBorrowedStr text.entry → IsOkAnd result IsBorrowedStr }
{
    let value: FluentValue<'s, C> = FluentValue::String(text);
    value.into_string(scope)
}
