//! Findings as the items of a list of JSON, in a document.

ghost use Rattle.lint_report.specs.Changes.{Appends};
ghost use Rattle.std.specs.Prelude.{◌≡◌, ◌++◌, false, IfOk, OnOk, string_bytes};
ghost use Rattle.lint_findings.specs.Listed.{after_comma, listed_item};
ghost use Rattle.serde_json.specs.Written.{has_float};
ghost use Rattle.serde_json.specs.View.{view};

use serde_json::Value;
use std::alloc::{AllocError, Global};

/// Appends an item on a line of its own, with a comma before it.
pub(crate) fn push_item(text: &mut String, alloc: Global, item: &Value) -> Result<(), AllocError>
    requires { has_float (view item.now) ≡ false }
    ensures { OnOk result (Appends text.old text.new (listed_item (view item.now))) }
{
    let json = item.to_string(alloc)?;
    write!(text, ",\n{json}")
}

/// The document with this head, these items and this tail.
pub(crate) fn document(
    alloc: Global,
    head: &str,
    items: &str,
    tail: &str,
) -> Result<String, AllocError>
    ensures { IfOk result (λ whole. string_bytes whole
        ≡ head.now ++ (after_comma items.now ++ tail.now)) }
{
    let items = without_first_comma(items);
    format!(in alloc; "{head}{items}{tail}")
}

/// Items without the comma before the first.
fn without_first_comma(items: &str) -> &str
    ensures { result.now ≡ after_comma items.now }
{
    match items.strip_prefix(',') {
        Some(rest) => rest,
        None => "",
    }
}
