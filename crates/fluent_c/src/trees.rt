//! The source that is written of a tree, which is given as JSON.

ghost use Rattle.std.specs.Prelude.{◌≡◌, ◌≢◌};
ghost use Rattle.fluent_c.specs.Trees.{HoldsWrittenTree, WritesTree};
ghost use Rattle.fluent_c.specs.declared.TheConstants.{FLUENT_READ};

use crate::text::FluentText;
use crate::tidying::put_text;
use crate::{FLUENT_NO_MEMORY, FLUENT_NOT_JSON, FLUENT_NOT_TREE, FLUENT_NOT_UTF8};
use fluent_kept::tree::{TreeError, write_tree};
use simdutf8::basic::from_utf8;
use std::alloc::Global;

/// Writes a tree as the text of a source. The tree is given as JSON, as `docs/reference/json.md`
/// has it, with its version or without: as [`fluent_write_json`](crate::fluent_write_json) writes
/// it, or as a program made or changed it.
///
/// `json` is the bytes of the JSON text. Junk is written as it is if `with_junk` is true, and
/// otherwise left out. The call returns [`FLUENT_READ`](crate::FLUENT_READ), and `made` holds the
/// written text; what it held before is freed. It returns [`FLUENT_NOT_JSON`] if the text isn't
/// JSON, is nested more than 127 deep, or has a number that no float holds, [`FLUENT_NOT_TREE`] if
/// no tree has its value, [`FLUENT_NOT_UTF8`] or [`FLUENT_NO_MEMORY`] otherwise, and `made` is
/// unchanged then. All other memory is freed when it returns.
///
/// Names and texts are written as they are, so what is written of a tree that no source has may be
/// read as another.
#[unsafe(no_mangle)]
pub extern "C" fn fluent_write_tree(
    alloc: Global,
    json: &[u8],
    with_junk: bool,
    made: &mut FluentText,
) -> u32
    ensures status { WritesTree json.now result }
    ensures written { result ≡ FLUENT_READ → HoldsWrittenTree json.now with_junk made.new }
    ensures unchanged { result ≢ FLUENT_READ → made.new ≡ made.old }
{
    let Ok(json) = from_utf8(json) else {
        return FLUENT_NOT_UTF8;
    };
    match write_tree(alloc, json, with_junk) {
        Ok(text) => put_text(alloc, text, made),
        Err(TreeError::NotJson) => FLUENT_NOT_JSON,
        Err(TreeError::NotTree) => FLUENT_NOT_TREE,
        Err(TreeError::Memory) => FLUENT_NO_MEMORY,
    }
}
