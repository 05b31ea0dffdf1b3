//! The lines of a source.

ghost use Rattle.std.specs.Prelude.{◌≡◌, IfOk, string_bytes, vec_items};
ghost use Rattle.fluent_ast.specs.Borrowed.{entries_of};
ghost use Rattle.lint_entries.specs.TileView.{AreErrorsOf, IsTreeOf};
ghost use Rattle.fluent_grammar.specs.Tiling.{tree as tree_of};
ghost use Rattle.fluent_symbols.specs.NodeLines as nodes;
ghost use Rattle.fluent_symbols.specs.Sources.{occurrence_lines};

use crate::entries::tile_occurrences;
use crate::entry_nodes::source_nodes;
use crate::lines::lines_of;
use crate::listing::lines_of as lines_of_nodes;
use fluent_ast::Resource;
use fluent_parser::{Error, ParserError, StackBudget, parse_within};
use lint_entries::source_tiles;
use std::alloc::{AllocError, Global};

/// Where the symbols of a source are defined and referred to: a line of JSON for each occurrence,
/// in the order of their offsets. `docs/reference/occurrences.md` has the keys. Each message and
/// term that is read may take this budget of the machine's stack.
///
/// ```no_run
/// let lines = occurrence_lines(alloc, "hello = Hello, { $name }!\n", StackBudget::PROGRAM)?;
/// ```
///
/// # Errors
/// [`AllocError`] if memory runs out, or the source nests too deep; nothing is kept.
pub fn occurrence_lines(
    alloc: Global,
    source: &str,
    stack: StackBudget,
) -> Result<Vec<u8>, AllocError>
    ensures { IfOk result (λ lines. vec_items lines ≡ occurrence_lines source.now) }
{
    match parse_within(alloc, source, stack) {
        Ok(tree) => lines_of_read(alloc, source, &tree, &[]),
        Err(Error::Broken(tree, errors)) => lines_of_read(alloc, source, &tree, &errors),
        Err(Error::Memory) => Err(AllocError),
    }
}

/// The lines of the occurrences of a source, by the tree and the errors that were read of it.
fn lines_of_read<'s>(
    alloc: Global,
    source: &'s str,
    tree: &Resource<&'s str>,
    errors: &[ParserError],
) -> Result<Vec<u8>, AllocError>
    requires tree { IsTreeOf source.now (entries_of tree.now) }
    requires errors { AreErrorsOf source.now errors.now }
    ensures { IfOk result (λ lines. vec_items lines ≡ occurrence_lines source.now) }
{
    let tiles = source_tiles(alloc, source, tree, errors)?;
    let found = tile_occurrences(alloc, &tiles)?;
    lines_of(alloc, source.len(), &found)
}

/// The nodes of a source's tree, each with its place: a line for each node, after those of the
/// nodes in it. `docs/reference/nodes.md` says what is on a line. Each message and term that is
/// read may take this budget of the machine's stack.
///
/// ```no_run
/// let lines = node_lines(alloc, "hello = Hello, { $name }!\n", StackBudget::PROGRAM)?;
/// ```
///
/// # Errors
/// [`AllocError`] if memory runs out, or the source nests too deep; nothing is kept.
pub fn node_lines(alloc: Global, source: &str, stack: StackBudget) -> Result<String, AllocError>
    ensures { IfOk result (λ lines. string_bytes lines ≡ nodes.node_lines source.now) }
{
    match parse_within(alloc, source, stack) {
        Ok(tree) => lines_of_tree(alloc, source, &tree),
        Err(Error::Broken(tree, _errors)) => lines_of_tree(alloc, source, &tree),
        Err(Error::Memory) => Err(AllocError),
    }
}

/// The lines of the nodes of the tree of a source.
fn lines_of_tree(alloc: Global, source: &str, tree: &Resource<&str>) -> Result<String, AllocError>
    requires tree { entries_of tree.now ≡ tree_of source.now }
    ensures { IfOk result (λ lines. string_bytes lines ≡ nodes.node_lines source.now) }
{
    let found = source_nodes(alloc, source, tree)?;
    lines_of_nodes(alloc, source.len(), &found)
}
