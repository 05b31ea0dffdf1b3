//! The tidy text of a source.

ghost use Rattle.std.specs.Prelude.{◌≡◌, ◌↔◌, [], IsTrue, IfOk, IfErr, string_bytes};
ghost use Rattle.fluent_grammar.specs.Tiling as tiling;
ghost use Rattle.fluent_grammar.specs.Tiling.{errors};
ghost use Rattle.fluent_ast.specs.Borrowed.{entries_of};
ghost use Rattle.fluent_parser.specs.Starts as parts;
ghost use Rattle.fluent_tidy.specs.Reasons.{IsLaid, IsLaidAs, IsReason, Refuses, StaysAs};
ghost use Rattle.fluent_tidy.specs.TidyText.{IsTidyText, StaysTidy, laid_anew};

use crate::apart::apart_at;
use crate::plain::{begins_with_mark, with_line_feeds, without_mark};
use crate::returns::has_return;
use crate::shapes::shape_offset;
use crate::tidy_error::TidyError;
use fluent_ast::Resource;
use fluent_ast::laws::equal_nodes;
use fluent_parser::{Error, PlacedTree, parse_placed};
use fluent_serializer::serialize_spaced;
use fluent_text::stack::StackBudget;
use std::alloc::{AllocError, Global};

/// What a source without junk is laid out as.
#[derive(Drop)]
pub enum Laid {
    /// As a text that stays tidy: its tidy text.
    Tidy(String),
    /// As a text that doesn't. These are the offsets at which the parts of the source begin.
    Shaped(Vec<usize>),
}

/// The tidy text of a source, as a formatter writes code: each entry as the serializer writes it,
/// in its order, and one blank line where the source has some between two, or a comment that stands
/// by itself needs one. A byte order mark is left out, and lines end in LF.
///
/// It has the messages, the terms and the comments of the source, and is its own tidy text.
///
/// ```no_run
/// let tidy = tidy(alloc, "a  =  1\r\n\r\n\r\nb={ $x }")?; // a = 1, an empty line, b = { $x }
/// ```
///
/// It is [`tidy_within`] the budget of a program, [`StackBudget::PROGRAM`].
///
/// # Errors
/// Nothing is kept. [`TidyError::Damaged`] if the source has junk. [`TidyError::CarriageReturn`] if
/// it holds a carriage return that isn't part of CR LF. [`TidyError::NotTidy`] if the written text
/// isn't read back as the tree; this takes one of the five shapes of
/// `docs/reference/normal-text.md`. [`TidyError::Memory`] if memory runs out, or the source nests
/// too deep.
pub fn tidy(alloc: Global, source: &str) -> Result<String, TidyError>
    ensures text { IfOk result (λ text. IsTidyText source.now (string_bytes text)) }
    ensures reason { IfErr result (IsReason source.now) }
{
    tidy_within(alloc, source, StackBudget::PROGRAM)
}

/// As [`tidy`], within this budget of the machine's stack for each message and term.
///
/// # Errors
/// Those of [`tidy`].
pub fn tidy_within(alloc: Global, source: &str, budget: StackBudget) -> Result<String, TidyError>
    ensures text { IfOk result (λ text. IsTidyText source.now (string_bytes text)) }
    ensures reason { IfErr result (IsReason source.now) }
{
    let body = without_mark(source);
    if !has_return(body) {
        return tidy_plain(alloc, body, budget);
    }
    let text = with_line_feeds(alloc, body)?;
    if has_return(text.as_str()) {
        return Err(TidyError::CarriageReturn);
    }
    tidy_plain(alloc, text.as_str(), budget)
}

/// Tidies a source that has no mark and no carriage return.
fn tidy_plain(alloc: Global, source: &str, budget: StackBudget) -> Result<String, TidyError>
    ensures whole { IfOk result (λ _. errors source.now ≡ []) }
    ensures text { IfOk result (λ text. string_bytes text ≡ laid_anew source.now) }
    ensures stays { IfOk result (λ text. StaysTidy source.now (string_bytes text)) }
    ensures reason { IfErr result (Refuses source.now) }
{
    match lay_tidy(alloc, source, budget)? {
        Laid::Tidy(text) => Ok(text),
        Laid::Shaped(starts) => {
            Err(TidyError::NotTidy(shape_offset(alloc, source, &starts, budget)?))
        }
    }
}

/// Lays out a source that has no mark and no carriage return.
///
/// # Errors
/// [`TidyError::Damaged`] if the source has junk. [`TidyError::Memory`] if memory runs out; nothing
/// is kept.
pub fn lay_tidy(alloc: Global, source: &str, budget: StackBudget) -> Result<Laid, TidyError>
    ensures whole { IfOk result (λ _. errors source.now ≡ []) }
    ensures laid { IfOk result (IsLaid source.now) }
    ensures reason { IfErr result (Refuses source.now) }
{
    let PlacedTree { tree, starts } = read_whole(alloc, source, budget)?;
    let text = lay_out(alloc, source, &tree, &starts)?;
    if stays_tidy(alloc, tree, text.as_str(), budget)? {
        Ok(Laid::Tidy(text))
    } else {
        Ok(Laid::Shaped(starts))
    }
}

/// The tree of a source without junk, and where its entries begin.
fn read_whole(
    alloc: Global,
    source: &str,
    budget: StackBudget,
) -> Result<PlacedTree<&str>, TidyError>
    ensures whole { IfOk result (λ _. errors source.now ≡ []) }
    ensures tree { IfOk result (λ placed. entries_of placed.tree ≡ tiling.tree source.now) }
    ensures starts { IfOk result (λ placed. placed.starts.items ≡ parts.starts source.now) }
    ensures reason { IfErr result (Refuses source.now) }
{
    match parse_placed(alloc, source, budget) {
        Ok(placed) => Ok(placed),
        Err(Error::Broken(_, errors)) => Err(TidyError::Damaged(errors)),
        Err(Error::Memory) => Err(TidyError::Memory),
    }
}

/// The tree of a source laid out anew, with the blank lines of the source.
fn lay_out(
    alloc: Global,
    source: &str,
    tree: &Resource<&str>,
    starts: &[usize],
) -> Result<String, AllocError>
    requires tree { entries_of tree.now ≡ tiling.tree source.now }
    requires starts { starts.now ≡ parts.starts source.now }
    ensures { IfOk result (λ text. string_bytes text ≡ laid_anew source.now) }
{
    let apart = apart_at(alloc, source, starts, &tree.body)?;
    serialize_spaced(alloc, tree, &apart)
}

/// Whether a text is read as the tree of a source, and is laid out as it is. The tree is moved
/// here, so that it is one type with the tree of the text: a tree that is lent keeps its lifetime.
fn stays_tidy<'t>(
    alloc: Global,
    tree: Resource<&'t str>,
    text: &'t str,
    budget: StackBudget,
) -> Result<bool, AllocError>
    ensures { IfOk result (λ is. IsTrue is ↔ StaysAs (entries_of tree.entry) text.now) }
{
    if has_return(text) || begins_with_mark(text.as_bytes()) {
        return Ok(false);
    }
    match parse_placed(alloc, text, budget) {
        Ok(again) => is_laid_as(alloc, tree, text, &again),
        Err(Error::Broken(_, _)) => Ok(false),
        Err(Error::Memory) => Err(AllocError),
    }
}

/// Whether this tree is that of a text, and the text is laid out as it is.
fn is_laid_as<'t>(
    alloc: Global,
    tree: Resource<&'t str>,
    text: &'t str,
    again: &PlacedTree<&'t str>,
) -> Result<bool, AllocError>
    requires tree { entries_of again.now.tree ≡ tiling.tree text.now }
    requires starts { again.now.starts.items ≡ parts.starts text.now }
    ensures { IfOk result (λ is. IsTrue is ↔ IsLaidAs (entries_of tree.entry) text.now) }
{
    let is_same = is_same_tree(&again.tree, &tree);
    drop(tree);
    if !is_same {
        return Ok(false);
    }
    let laid = lay_out(alloc, text, &again.tree, &again.starts)?;
    Ok(laid.as_str() == text)
}

/// Whether two trees are the same.
fn is_same_tree<'s>(tree: &Resource<&'s str>, other: &Resource<&'s str>) -> bool
    ensures { IsTrue result ↔ (entries_of tree.now ≡ entries_of other.now) }
{
    equal_nodes::<&'s str>();
    *tree == *other
}
