//! The nodes of a source's tree, each with its place.

ghost use Rattle.std.specs.Prelude.{◌≡◌, ◌≢◌, IfOk};
ghost use Rattle.fluent_symbols.specs.NodeLines.{node_lines};
ghost use Rattle.fluent_c.specs.Made.{Holds};
ghost use Rattle.fluent_c.specs.Statuses.{ReadsSource};
ghost use Rattle.fluent_c.specs.declared.TheConstants.{FLUENT_READ};

use crate::text::FluentText;
use crate::{FLUENT_NO_MEMORY, FLUENT_NOT_UTF8, FLUENT_READ};
use fluent_symbols::node_lines;
use fluent_text::stack::StackBudget;
use simdutf8::basic::from_utf8;
use std::alloc::{AllocError, Global};

/// The lines of a source's nodes, in memory that the caller frees.
///
/// # Errors
/// [`AllocError`] if memory runs out, or the source nests too deep; nothing is kept.
fn lines_text(alloc: Global, source: &str) -> Result<FluentText, AllocError>
    ensures { IfOk result (λ made. Holds made (node_lines source.now)) }
{
    let lines = node_lines(alloc, source, StackBudget::THREAD)?;
    FluentText::of(alloc, lines.into_bytes())
}

/// Lists the nodes of a source's tree with their places: a line for each node, its kind and the
/// offsets of its first byte and of the one after its last, in bytes, after the lines of the nodes
/// in it.
///
/// `text` is the source's bytes. The nodes in a node are those before it that begin where it does
/// or later, and are in no other. `docs/reference/nodes.md` has the kinds. The tree has the
/// source's junk. The call returns [`FLUENT_READ`], also if the source has errors: then `made`
/// holds the lines, and what it held before is freed. It returns [`FLUENT_NOT_UTF8`] or
/// [`FLUENT_NO_MEMORY`] otherwise, and `made` is unchanged then. All other memory is freed when it
/// returns.
#[unsafe(no_mangle)]
pub extern "C" fn fluent_nodes(alloc: Global, text: &[u8], made: &mut FluentText) -> u32
    ensures status { ReadsSource text.now result }
    ensures lines { result ≡ FLUENT_READ → Holds made.new (node_lines text.now) }
    ensures unchanged { result ≢ FLUENT_READ → made.new ≡ made.old }
{
    let Ok(source) = from_utf8(text) else {
        return FLUENT_NOT_UTF8;
    };
    match lines_text(alloc, source) {
        Ok(text) => {
            made.put(alloc, text);
            FLUENT_READ
        }
        Err(_) => FLUENT_NO_MEMORY,
    }
}
