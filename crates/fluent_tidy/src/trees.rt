//! The way through JSON trees.

ghost use Rattle.std.specs.Prelude.{◌≡◌, ◌≢◌, ◌↔◌, IsTrue, IfOk, IfErr, IsErrOf, string_bytes};
ghost use Rattle.serde_json.specs.View.{view};
ghost use Rattle.fluent_grammar.specs.Tiling.{tree};
ghost use Rattle.fluent_grammar.specs.Written.{written};
ghost use Rattle.fluent_tidy_laws.specs.Cut.{cut};
ghost use Rattle.fluent_json.specs.Json.{json, HasNoTree};
ghost use Rattle.fluent_json.specs.Parts.{plain};
ghost use Rattle.fluent_tidy_laws.specs.Normal.{IsCanonical};
ghost use Rattle.fluent_tidy.specs.Sources.{holds_return};
ghost use Rattle.fluent_tidy.specs.Trees.{IsImported, IsNotImported, IsReadAs};
ghost use Rattle.fluent_tidy.specs.declared.error.CleanError.TheVariants.{CarriageReturn};
ghost use Rattle.fluent_tidy.specs.declared.error.ImportError.TheVariants.{NotNormal, Shape};

use crate::cleaning::clean;
use crate::error::{CleanError, ImportError};
use crate::reading::{is_read_as, read_tree};
use fluent_ast::Resource;
use fluent_json::{from_value, to_value};
use fluent_serializer::serialize;
use serde_json::Value;
use std::alloc::{AllocError, Global};

/// The JSON tree of the cleaned source, as `docs/reference/json.md` has it, with its version.
///
/// ```
/// let tree = export(alloc, SOURCE)?;
/// let imported = import(alloc, &tree)?;
/// ```
///
/// # Errors
/// `CarriageReturn` exactly if the source holds one, before anything is allocated. `Memory` if
/// memory runs out.
pub fn export(alloc: Global, source: &str) -> Result<Value, CleanError>
    ensures value { IfOk result (λ value. view value ≡ json (tree (cut source.now))) }
    ensures carriage_return { IsErrOf result CarriageReturn ↔ IsTrue (holds_return source.now) }
{
    let text = clean(alloc, source)?;
    let tree = read_tree(alloc, text)?;
    Ok(to_value(alloc, &tree)?)
}

/// The text of a JSON tree, with a version or without: what the serializer writes of it, if that is
/// read back as that very tree.
///
/// What [`export`] gives of a source is imported as the source's normal text.
///
/// ```
/// let tree = export(alloc, SOURCE)?;
/// let imported = import(alloc, &tree)?;
/// ```
///
/// # Errors
/// `Shape` exactly if no tree has the value. `NotNormal` if the written text isn't read back as the
/// tree. `Memory` if memory runs out.
pub fn import(alloc: Global, value: &Value) -> Result<String, ImportError>
    ensures text { IfOk result (λ text. IsImported (view value.now) (string_bytes text)) }
    ensures not_normal { IsErrOf result NotNormal → IsNotImported (view value.now) }
    ensures shape { IsErrOf result Shape → HasNoTree (view value.now) }
{
    let tree = from_value(alloc, value)?;
    write_back(alloc, &tree)
}

/// The written text of a tree, if it is read back as that tree.
fn write_back(alloc: Global, tree: &Resource<String>) -> Result<String, ImportError>
    ensures text { IfOk result (λ text. IsCanonical (plain tree.now)
        × (string_bytes text ≡ written (plain tree.now))) }
    ensures not_normal { IfErr result (λ e. e ≡ NotNormal → IsCanonical (plain tree.now) → ⊥) }
    ensures no_shape { IfErr result (λ e. e ≢ Shape) }
{
    let text = serialize(alloc, tree)?;
    if is_read_whole(alloc, text.as_str(), tree)? {
        Ok(text)
    } else {
        Err(ImportError::NotNormal)
    }
}

/// Whether a text is read as a tree of texts of its own.
fn is_read_whole(alloc: Global, text: &str, tree: &Resource<String>) -> Result<bool, AllocError>
    ensures { IfOk result (λ is. IsTrue is ↔ IsReadAs text.now (plain tree.now)) }
{
    let text = String::from_str(alloc, text)?;
    is_read_as(alloc, text, tree)
}
