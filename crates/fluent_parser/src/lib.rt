//! Reading a source into its tree.
//!
//! [`parse`] reads everything, [`parse_runtime`] passes comments over. What a source says is
//! defined in `fluent_grammar`; `docs/reference/grammar.md` has it in words. Offsets and lengths
//! are in bytes.
#![tactic(auto)]

mod arguments;
mod blank;
mod comment;
mod depth;
mod entry;
mod expected;
mod expression;
mod fault;
mod named_arguments;
mod parser;
mod part;
mod pattern;
mod placed;
mod plain;
mod refusals;
mod resource;
mod select;
mod starts;
mod token;

ghost use Rattle.std.specs.Prelude.{map};
ghost use Rattle.fluent_grammar.specs.Tiling.{tree, errors, runtime_tree, runtime_errors};
ghost use Rattle.fluent_parsed.specs.ErrorView.{error_told};
ghost use Rattle.fluent_parsed.specs.Collected.{HasTree, HasErrors};

pub use depth::{TooDeep, parse_runtime_unless_too_deep, parse_unless_too_deep};
pub use fluent_parsed::{Error, ErrorKind, ParserError, Result, laws};
pub use fluent_text::Slice;
pub use fluent_text::stack::StackBudget;
pub use placed::{PlacedTree, parse_placed};
pub use refusals::{Refusal, refusals_at};
use std::alloc::Global;

/// The tree of a source, with its comments.
///
/// Each stretch of the source that isn't an entry, a blank line or a comment becomes junk in the
/// tree, up to the next line that may begin an entry, and has one error.
///
/// A comment of one `#` becomes the comment of the message or the term right below it, if no blank
/// line lies between. The grammar is that of Fluent Syntax 1.0, production `Resource`.
///
/// ```
/// match parse(alloc, source) {
///     Ok(resource) => Ok(resource),
///     Err(Error::Broken(resource, _)) => Ok(resource),
///     Err(Error::Memory) => bail!("out of memory"),
/// }
/// ```
///
/// It is [`parse_within`] the budget of a program, [`StackBudget::PROGRAM`].
///
/// # Errors
/// - [`Error::Broken`] if there is junk, with the whole tree and the errors in the order of their
///   places, which are bytes of the source.
/// - [`Error::Memory`] if memory runs out; nothing is kept. It also means that placeables, calls
///   and selects are nested so deep that reading them would take more than the budget of the
///   machine's stack.
pub fn parse<'s, S: Slice<'s>>(alloc: Global, input: S) -> Result<S>
    ensures tree { HasTree S S.text result (tree (S.text input)) }
    ensures errors { HasErrors S result (map error_told (errors (S.text input))) }
{
    parse_within(alloc, input, StackBudget::PROGRAM)
}

/// As [`parse`], within this budget of the machine's stack for each message and term.
///
/// ```no_run
/// let tree = parse_within(alloc, source, StackBudget::THREAD)?;
/// ```
///
/// # Errors
/// Those of [`parse`].
pub fn parse_within<'s, S: Slice<'s>>(alloc: Global, input: S, budget: StackBudget) -> Result<S>
    ensures tree { HasTree S S.text result (tree (S.text input)) }
    ensures errors { HasErrors S result (map error_told (errors (S.text input))) }
{
    match parse_unless_too_deep(alloc, input, budget) {
        Ok(read) => read,
        Err(TooDeep) => Err(Error::Memory),
    }
}

/// The messages and the terms of a source, and its junk, for use at run time.
///
/// It reads as [`parse`] does, but for comments: a line that begins with `#` where an entry may
/// begin is passed over, whatever follows the sign. So no entry has a comment.
///
/// It is [`parse_runtime_within`] the budget of a program, [`StackBudget::PROGRAM`].
///
/// # Errors
/// - [`Error::Broken`] if there is junk, with the whole tree and the errors in the order of their
///   places.
/// - [`Error::Memory`] if memory runs out; nothing is kept. It also means that placeables, calls
///   and selects are nested so deep that reading them would take more than the budget of the
///   machine's stack.
pub fn parse_runtime<'s, S: Slice<'s>>(alloc: Global, input: S) -> Result<S>
    ensures tree { HasTree S S.text result (runtime_tree (S.text input)) }
    ensures errors { HasErrors S result (map error_told (runtime_errors (S.text input))) }
{
    parse_runtime_within(alloc, input, StackBudget::PROGRAM)
}

/// As [`parse_runtime`], within this budget of the machine's stack for each message and term.
///
/// # Errors
/// Those of [`parse_runtime`].
pub fn parse_runtime_within<'s, S: Slice<'s>>(
    alloc: Global,
    input: S,
    budget: StackBudget,
) -> Result<S>
    ensures tree { HasTree S S.text result (runtime_tree (S.text input)) }
    ensures errors { HasErrors S result (map error_told (runtime_errors (S.text input))) }
{
    match parse_runtime_unless_too_deep(alloc, input, budget) {
        Ok(read) => read,
        Err(TooDeep) => Err(Error::Memory),
    }
}
