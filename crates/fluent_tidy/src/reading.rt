//! Reading a text as a tree, and a written text back.

ghost use Rattle.std.specs.Prelude.{◌≡◌, ◌↔◌, [], IsTrue, IfOk};
ghost use Rattle.fluent_grammar.specs.Tiling.{errors, tree};
ghost use Rattle.fluent_ast.specs.View.{resource_view};
ghost use Rattle.fluent_tidy.specs.Trees.{IsReadAs};

use fluent_ast::Resource;
use fluent_parser::{Error, parse};
use fluent_text::Slice;
use std::alloc::{AllocError, Global};

/// The tree of a text, its errors passed over.
///
/// # Errors
/// [`AllocError`] if memory runs out; nothing is kept.
pub fn read_tree<'s, S: Slice<'s>>(alloc: Global, text: S) -> Result<Resource<S>, AllocError>
    ensures { IfOk result (λ r. resource_view S S.text r ≡ tree (S.text text)) }
{
    match parse(alloc, text) {
        Ok(tree) => Ok(tree),
        Err(error) => match error {
            Error::Broken(tree, _errors) => Ok(tree),
            Error::Memory => Err(AllocError),
        },
    }
}

/// Whether a text is read as a tree: whole, and as that very tree.
///
/// # Errors
/// [`AllocError`] if memory runs out; nothing is kept.
pub fn is_read_as<'s, S: Slice<'s>>(
    alloc: Global,
    text: S,
    tree: &Resource<S>,
) -> Result<bool, AllocError>
    ensures { IfOk result (λ is. IsTrue is ↔ IsReadAs (S.text text)
        (resource_view S S.text tree.now)) }
{
    match parse(alloc, text) {
        Ok(found) => Ok(found == *tree),
        Err(Error::Broken(_, _)) => Ok(false),
        Err(Error::Memory) => Err(AllocError),
    }
}
