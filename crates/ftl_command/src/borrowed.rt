//! Texts that are borrowed from their owners.
ghost use Rattle.std.specs.Prelude.{◌≡◌, map, IfOk, string_bytes};
ghost use Rattle.fluent_serve.specs.Texts.{texts};

use std::alloc::{AllocError, Global};

/// The texts, borrowed, in their order.
///
/// # Errors
/// [`AllocError`] if memory runs out; nothing is kept.
pub fn borrow_texts(alloc: Global, owned: &[String]) -> Result<Vec<&str>, AllocError>
    ensures { IfOk result (λ borrowed. texts borrowed.items ≡ map string_bytes owned.now) }
{
    let mut borrowed = Vec::with_capacity(alloc, owned.len())?;
    for text in owned {
        borrowed.push(text.as_str())?;
    }
    Ok(borrowed)
}
