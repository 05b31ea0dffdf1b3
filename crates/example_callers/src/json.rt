//! Calls of `fluent_json`.

ghost use Rattle.std.specs.Prelude.{◌≡◌, IfOk};
ghost use Rattle.fluent_json.specs.Parts.{plain};

use fluent_json::{FromValueError, from_value, to_value};
use fluent_syntax::ast::Resource;
use std::alloc::{AllocError, Global};

/// Makes a tree's JSON value and reads the value again, which gives the same tree.
///
/// # Errors
/// [`AllocError`] if memory runs out; nothing is kept.
pub fn round_trip(alloc: Global, tree: &Resource<String>) -> Result<Resource<String>, AllocError>
    ensures { IfOk result (λ back. plain back ≡ plain tree.now) }
{
    let value = to_value(alloc, tree)?;
    match from_value(alloc, &value) {
        Ok(back) => Ok(back),
        Err(FromValueError::Shape) => unreachable!(),
        Err(FromValueError::Memory) => Err(AllocError),
    }
}
