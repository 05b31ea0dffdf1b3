//! Reading that says whether a source nests too deep.
#![tactic(auto)]

ghost use Rattle.std.specs.Prelude.{◌<◌, IfOk, OnErr, Some, codes, map};
ghost use Rattle.fluent_grammar.specs.Tiling.{tree, errors, runtime_tree, runtime_errors};
ghost use Rattle.fluent_parsed.specs.ErrorView.{error_told};
ghost use Rattle.fluent_parsed.specs.Collected.{HasTree, HasErrors};
ghost use Rattle.fluent_parser.specs.Depth.{NestsPast};
ghost use Rattle.fluent_parser.specs.Weights.{weight};

use crate::fault::Halt;
use crate::resource::{parts_of, runtime_parts_of};
use crate::starts::Starts;
use fluent_parsed::{Error, Result};
use fluent_text::stack::StackBudget;
use fluent_text::{Slice, Slices};
use std::alloc::Global;
use std::fmt;

/// A source nests past the budget of the machine's stack: see [`parse_unless_too_deep`].
///
/// ```no_run
/// match parse_unless_too_deep(alloc, source, StackBudget::THREAD) {
///     Ok(read) => show(read?)?,
///     Err(TooDeep) => println!(rt; "nested too deep")?,
/// }
/// ```
#[derive(Clone, Copy, Debug, PartialEq, Eq)]
pub struct TooDeep;

impl fmt::Display for TooDeep {
    ghost output = { λ _. Some (codes "nested too deep") };

    fn fmt<W: fmt::Write>(&self, f: &mut fmt::Formatter<W>) -> fmt::Result {
        f.write_str("nested too deep")
    }
}

impl std::error::Error for TooDeep {}

/// As [`parse_within`](crate::parse_within), and it tells a source that nests too deep from want of
/// memory.
///
/// What stands open inside each other at one place of a pattern takes the bytes that [`reading`]
/// has: placeables, the arguments of calls, and the variants of selects. What is closed takes none,
/// so no number of them side by side is too deep, and neither is what stands in other messages and
/// terms.
///
/// # Errors
/// [`TooDeep`] only if a pattern of the source takes more bytes at some place than the budget has;
/// nothing is kept. The errors of [`parse`](crate::parse) are in what was read.
///
/// [`reading`]: fluent_text::stack::reading
pub fn parse_unless_too_deep<'s, S: Slice<'s>>(
    alloc: Global,
    input: S,
    budget: StackBudget,
) -> std::result::Result<Result<S>, TooDeep>
    ensures tree { IfOk result (λ read. HasTree S S.text read (tree (S.text input))) }
    ensures errors { IfOk result (λ read.
        HasErrors S read (map error_told (errors (S.text input)))) }
    ensures deep { OnErr result (NestsPast budget.bytes (S.text input)) }
    ensures weighs { OnErr result (budget.bytes < weight (S.text input)) }
{
    let mut starts = Starts::passed_over(alloc);
    match parts_of(alloc, &Slices::new(), &input, budget, &mut starts) {
        Ok(parts) => Ok(parts.finish()),
        Err(Halt::Memory) => Ok(Err(Error::Memory)),
        Err(Halt::TooDeep) => Err(TooDeep),
    }
}

/// As [`parse_runtime_within`](crate::parse_runtime_within), and it tells a source that nests too
/// deep from want of memory.
///
/// # Errors
/// Those of [`parse_unless_too_deep`].
pub fn parse_runtime_unless_too_deep<'s, S: Slice<'s>>(
    alloc: Global,
    input: S,
    budget: StackBudget,
) -> std::result::Result<Result<S>, TooDeep>
    ensures tree { IfOk result (λ read. HasTree S S.text read (runtime_tree (S.text input))) }
    ensures errors { IfOk result (λ read.
        HasErrors S read (map error_told (runtime_errors (S.text input)))) }
    ensures deep { OnErr result (NestsPast budget.bytes (S.text input)) }
    ensures weighs { OnErr result (budget.bytes < weight (S.text input)) }
{
    match runtime_parts_of(alloc, &Slices::new(), &input, budget) {
        Ok(parts) => Ok(parts.finish()),
        Err(Halt::Memory) => Ok(Err(Error::Memory)),
        Err(Halt::TooDeep) => Err(TooDeep),
    }
}
