//! The labels of entries.
#![tactic(auto)]

ghost use Rattle.std.specs.Prelude.{◌≡◌, IfOk, string_bytes};
ghost use Rattle.fluent_ast.specs.Borrowed.{entry_of};
ghost use Rattle.lint_findings.specs.DuplicateIds.{label_of};

use fluent_ast::Entry;
use std::alloc::{AllocError, Global};

/// The id of an entry, a term's with its minus.
///
/// # Errors
/// [`AllocError`] if memory runs out; nothing is kept.
pub fn label(alloc: Global, entry: &Entry<&str>) -> Result<String, AllocError>
    ensures { IfOk result (λ label. string_bytes label ≡ label_of (entry_of entry.now)) }
{
    match entry {
        Entry::Message(message) => String::from_str(alloc, message.id.name),
        Entry::Term(term) => format!(in alloc; "-{}", term.id.name),
        _ => Ok(String::new(alloc)),
    }
}
