//! The tidy text of a source.

ghost use Rattle.std.specs.Prelude.{◌≡◌, ◌≢◌, ◌∷◌, [], List, IfOk, option_map, string_bytes};
ghost use Rattle.fluent_grammar.specs.Tiling as tiling;
ghost use Rattle.fluent_grammar.specs.Tiling.{ParserError as Fault};
ghost use Rattle.fluent_c.specs.Made.{Holds};
ghost use Rattle.fluent_c.specs.Statuses.{IsOneOf};
ghost use Rattle.fluent_c.specs.Tidying.{AreTold, CanBeDamaged, HoldsTidy, IsDamagedAt, Tidies, damaged_place, first_place, place_told};
ghost use Rattle.fluent_c.specs.declared.TheConstants.{FLUENT_READ, FLUENT_NO_MEMORY, FLUENT_DAMAGED};
ghost use Rattle.fluent_tidy.specs.TidyText.{plain};

use crate::text::FluentText;
use crate::{
    FLUENT_CARRIAGE_RETURN, FLUENT_DAMAGED, FLUENT_NO_MEMORY, FLUENT_NOT_TIDY, FLUENT_NOT_UTF8,
    FLUENT_READ,
};
use fluent_syntax::parser::{Error, ParserError, parse_within};
use fluent_text::stack::StackBudget;
use fluent_tidy::{TidyError, tidy_within, with_line_feeds, without_mark};
use lint_findings::SourcePosition;
use simdutf8::basic::from_utf8;
use std::alloc::{AllocError, Global};

/// A place in a source: its line and its column, from 1. A column counts characters.
///
/// ```c
/// struct FluentPlace place = {0};
/// ```
#[repr(C)]
#[derive(Clone, Copy)]
pub struct FluentPlace {
    pub line: usize,
    pub column: usize,
}

/// The place of the first of some errors of a source, if there is one.
fn first_place(source: &str, errors: &[ParserError]) -> Option<FluentPlace>
    ensures { (es : List Fault) → AreTold errors.now es
        → option_map place_told result ≡ first_place source.now es }
{
    let error = errors.first()?;
    let place = SourcePosition::start().moved_to(source, error.pos.start);
    Some(FluentPlace {
        line: place.line(),
        column: place.column(),
    })
}

/// Where a source can't be read that has these errors, as tidying reads it, if there is such a
/// place: the first.
///
/// # Errors
/// [`AllocError`] if memory runs out; nothing is kept.
fn damaged_place(
    alloc: Global,
    source: &str,
    errors: &[ParserError],
) -> Result<Option<FluentPlace>, AllocError>
    requires { AreTold errors.now (tiling.errors (plain source.now)) }
    ensures { IfOk result (λ place. option_map place_told place ≡ damaged_place source.now) }
{
    let text = with_line_feeds(alloc, without_mark(source))?;
    Ok(first_place(text.as_str(), errors))
}

/// The errors of a source, as tidying reads it.
///
/// # Errors
/// [`AllocError`] if memory runs out, or the source nests too deep; nothing is kept.
fn read_errors(alloc: Global, source: &str) -> Result<Vec<ParserError>, AllocError>
    ensures { IfOk result (λ found. AreTold found.items (tiling.errors (plain source.now))) }
{
    let text = with_line_feeds(alloc, without_mark(source))?;
    match parse_within(alloc, text.as_str(), StackBudget::THREAD) {
        Ok(_) => Ok(Vec::new(alloc)),
        Err(Error::Broken(_, errors)) => Ok(errors),
        Err(Error::Memory) => Err(AllocError),
    }
}

/// Tidies a source: writes it as a formatter writes code, with the messages, the terms and the
/// comments that it has.
///
/// The call returns [`FLUENT_READ`], and `made` holds the text; what it held before is freed. It
/// returns [`FLUENT_DAMAGED`] if the source can't be read somewhere: `place` is the first such
/// place, in the source without a byte order mark and with LF for CR LF. It returns
/// [`FLUENT_CARRIAGE_RETURN`] if the source has a carriage return that isn't part of CR LF,
/// [`FLUENT_NOT_TIDY`] if it has no tidy text, as `docs/reference/normal-text.md` says,
/// [`FLUENT_NOT_UTF8`] or [`FLUENT_NO_MEMORY`] otherwise. `made` is unchanged unless it returns
/// [`FLUENT_READ`], and `place` unless it returns [`FLUENT_DAMAGED`]. All other memory is freed
/// when it returns.
#[unsafe(no_mangle)]
pub extern "C" fn fluent_tidy(
    alloc: Global,
    text: &[u8],
    made: &mut FluentText,
    place: &mut FluentPlace,
) -> u32
    ensures status { Tidies text.now result }
    ensures tidy { result ≡ FLUENT_READ → HoldsTidy text.now made.new }
    ensures damaged { result ≡ FLUENT_DAMAGED → IsDamagedAt text.now place.new }
    ensures unchanged { result ≢ FLUENT_READ → made.new ≡ made.old }
    ensures same_place { result ≢ FLUENT_DAMAGED → place.new ≡ place.old }
{
    let Ok(source) = from_utf8(text) else {
        return FLUENT_NOT_UTF8;
    };
    match tidy_within(alloc, source, StackBudget::THREAD) {
        Ok(text) => put_text(alloc, text, made),
        Err(TidyError::Damaged(errors)) => put_damage(alloc, source, &errors, place),
        Err(TidyError::CarriageReturn) => put_damage_before(alloc, source, place),
        Err(TidyError::NotTidy(_)) => FLUENT_NOT_TIDY,
        Err(TidyError::Memory) => FLUENT_NO_MEMORY,
    }
}

/// Puts the place where a source is damaged, if it is, that has a carriage return alone: a place
/// says more. It returns what [`put_damage`] does.
fn put_damage_before(alloc: Global, source: &str, place: &mut FluentPlace) -> u32
    ensures decided { CanBeDamaged source.now result }
    ensures damaged { result ≡ FLUENT_DAMAGED → IsDamagedAt source.now place.new }
    ensures same_place { result ≢ FLUENT_DAMAGED → place.new ≡ place.old }
{
    match read_errors(alloc, source) {
        Ok(errors) => put_damage(alloc, source, &errors, place),
        Err(_) => FLUENT_NO_MEMORY,
    }
}

/// Puts the place of the first of the errors of a source. It returns [`FLUENT_DAMAGED`],
/// [`FLUENT_CARRIAGE_RETURN`] if there are no errors, or [`FLUENT_NO_MEMORY`] if memory runs out.
/// The place is unchanged unless it returns [`FLUENT_DAMAGED`].
#[tactic(auto, using(crate::proofs::Damage::none_damaged))]
fn put_damage(alloc: Global, source: &str, errors: &[ParserError], place: &mut FluentPlace) -> u32
    requires { AreTold errors.now (tiling.errors (plain source.now)) }
    ensures decided { CanBeDamaged source.now result }
    ensures damaged { result ≡ FLUENT_DAMAGED → IsDamagedAt source.now place.new }
    ensures same_place { result ≢ FLUENT_DAMAGED → place.new ≡ place.old }
{
    match damaged_place(alloc, source, errors) {
        Ok(Some(found)) => {
            *place = found;
            FLUENT_DAMAGED
        }
        Ok(None) => FLUENT_CARRIAGE_RETURN,
        Err(_) => FLUENT_NO_MEMORY,
    }
}

/// Puts a text in the place of another, which is freed.
pub(crate) fn put_text(alloc: Global, text: String, made: &mut FluentText) -> u32
    ensures decided { IsOneOf result (FLUENT_READ ∷ FLUENT_NO_MEMORY ∷ []) }
    ensures put { result ≡ FLUENT_READ → Holds made.new (string_bytes text) }
    ensures unchanged { result ≢ FLUENT_READ → made.new ≡ made.old }
{
    match FluentText::of(alloc, text.into_bytes()) {
        Ok(text) => {
            made.put(alloc, text);
            FLUENT_READ
        }
        Err(_) => FLUENT_NO_MEMORY,
    }
}
