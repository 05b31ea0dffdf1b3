//! The source that is written of a tree which is given as a JSON text.
//!
//! [`write_tree`] reads the text as `docs/reference/json.md` has it, with a version or without, and
//! writes the tree as the serializer does. Names and texts are written as they are, so what is
//! written of a tree that no source has may be read as another. `specs/GivenTrees.antt` says which
//! tree a text is of, and [`laws`] that there is one at most.

mod error;
pub mod laws;

ghost use Rattle.std.specs.Prelude.{IfErr, IfOk, string_bytes};
ghost use Rattle.fluent_json.specs.Parts.{plain};
ghost use Rattle.fluent_kept.specs.GivenTrees.{IsRefusedFor, IsTreeOf, IsWrittenOf};

pub use error::TreeError;
use fluent_ast::Resource;
use fluent_json::{FromValueError, from_value};
use fluent_serializer::{Options, serialize_with_options};
use serde_json::Value;
use std::alloc::Global;

/// The text that the tree of a JSON text is written as, with its junk or without.
///
/// ```no_run
/// let source = write_tree(alloc, json, false)?;
/// ```
///
/// # Errors
/// [`TreeError`] says which; nothing is kept.
pub fn write_tree(alloc: Global, json: &str, with_junk: bool) -> Result<String, TreeError>
    ensures written { IfOk result (λ text. IsWrittenOf json.now with_junk (string_bytes text)) }
    ensures refused { IfErr result (IsRefusedFor json.now) }
{
    let tree = read_tree(alloc, json)?;
    Ok(serialize_with_options(alloc, &tree, Options { with_junk })?)
}

/// The tree that a JSON text is of.
///
/// # Errors
/// [`TreeError`] says which; nothing is kept.
fn read_tree(alloc: Global, json: &str) -> Result<Resource<String>, TreeError>
    ensures tree { IfOk result (λ tree. IsTreeOf json.now (plain tree)) }
    ensures refused { IfErr result (IsRefusedFor json.now) }
{
    let value = match Value::from_str(alloc, json) {
        Ok(value) => value,
        Err(error) if error.is_memory() => return Err(TreeError::Memory),
        Err(_) => return Err(TreeError::NotJson),
    };
    match from_value(alloc, &value) {
        Ok(tree) => Ok(tree),
        Err(FromValueError::Shape) => Err(TreeError::NotTree),
        Err(FromValueError::Memory) => Err(TreeError::Memory),
    }
}
