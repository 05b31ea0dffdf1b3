//! The normal text of a source.

ghost use Rattle.std.specs.Prelude.{◌≡◌, ◌≢◌, ◌↔◌, [], IsTrue, IfOk, IfErr, IsErrOf, string_bytes};
ghost use Rattle.fluent_grammar.specs.Tiling.{tree, list};
ghost use Rattle.fluent_ast.specs.Borrowed.{entries_of};
ghost use Rattle.fluent_grammar.specs.Words.{Text};
ghost use Rattle.fluent_grammar.specs.Written.{written};
ghost use Rattle.fluent_tidy_laws.specs.Cut.{cut};
ghost use Rattle.fluent_tidy_laws.specs.Normal.{IsCanonical, IsNormalText, HasNoNormalText};
ghost use Rattle.fluent_tidy_laws.specs.Shapes.{IsShaped};
ghost use Rattle.fluent_tidy.specs.Sources.{holds_return};
ghost use Rattle.fluent_tidy.specs.Trees.{IsReadAs};
ghost use Rattle.fluent_tidy.specs.declared.error.NormalizeError.TheVariants.{CarriageReturn, NotNormal};

use crate::cleaning::clean;
use crate::error::NormalizeError;
use crate::reading::{is_read_as, read_tree};
use fluent_ast::Resource;
use fluent_serializer::serialize;
use std::alloc::{AllocError, Global};

/// The normal text of a source: its cleaned text's tree as the serializer writes it, if that is
/// read back as that very tree.
///
/// It has the messages and terms of the source, in their order, and is its own normal text.
///
/// ```
/// let normal = normalize(alloc, &cleaned)?; // key1 = Value 1, key2 = { $x }
/// ```
///
/// # Errors
/// `CarriageReturn` exactly if the source holds one, before anything is allocated. `NotNormal` if
/// the written text isn't read back as the tree; this takes one of the five shapes of
/// `docs/reference/normal-text.md`. `Memory` if memory ran out.
pub fn normalize(alloc: Global, source: &str) -> Result<String, NormalizeError>
    ensures text { IfOk result (λ text. IsNormalText source.now (string_bytes text)) }
    ensures same_list { IfOk result (λ text. list (string_bytes text) ≡ list source.now) }
    ensures not_normal { IsErrOf result NotNormal → HasNoNormalText source.now }
    ensures shaped { IsErrOf result NotNormal → IsShaped (cut source.now) }
    ensures own_text { (other : Text) → IsNormalText other source.now
        → IfOk result (λ new. string_bytes new ≡ source.now) }
    ensures carriage_return { IsErrOf result CarriageReturn ↔ IsTrue (holds_return source.now) }
{
    let text = clean(alloc, source)?;
    normalize_clean(alloc, text.as_str())
}

/// The written text of the tree of a text, if it is read back as that tree.
fn normalize_clean(alloc: Global, text: &str) -> Result<String, NormalizeError>
    ensures text { IfOk result (λ new. IsCanonical (tree text.now)
        × (string_bytes new ≡ written (tree text.now))) }
    ensures not_normal { IfErr result (λ e. e ≡ NotNormal → IsCanonical (tree text.now) → ⊥) }
    ensures no_return { IfErr result (λ e. e ≢ CarriageReturn) }
{
    let tree = read_tree(alloc, text)?;
    let new = serialize(alloc, &tree)?;
    if is_read_back(alloc, tree, new.as_str())? {
        Ok(new)
    } else {
        Err(NormalizeError::NotNormal)
    }
}

/// Whether a text is read whole, and as this tree. The tree is moved here, so that it is one type
/// with the tree of the text: a tree that is lent keeps its lifetime.
fn is_read_back<'t>(
    alloc: Global,
    tree: Resource<&'t str>,
    text: &'t str,
) -> Result<bool, AllocError>
    ensures { IfOk result (λ is. IsTrue is ↔ IsReadAs text.now (entries_of tree.entry)) }
{
    is_read_as(alloc, text, &tree)
}
