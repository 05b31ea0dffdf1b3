//! The room that short lists have.
#![tactic(auto)]

ghost use Rattle.std.specs.Prelude.{◌≡◌, ◌++◌, ◌∷◌, [], OnOk};

use std::alloc::AllocError;

/// Puts an item after the others of a list. The first one makes room for as many as most such lists
/// hold.
///
/// # Errors
/// [`AllocError`] if memory runs out; the list is unchanged, and the item is dropped.
#[inline(always)]
pub fn push_tight<T: Drop>(list: &mut Vec<T>, item: T, room: usize) -> Result<(), AllocError>
    ensures { OnOk result (list.new.items ≡ list.old.items ++ item ∷ []) }
{
    if list.is_empty() {
        list.reserve_exact(room)?;
    }
    list.push(item)?;
    Ok(())
}

/// Lets go of the room that a short list doesn't fill. Most lists are short, so that it adds up.
pub fn shrink_short<T>(list: &mut Vec<T>)
    ensures { list.new.items ≡ list.old.items }
{
    if list.len() < 4 {
        list.shrink_to_fit();
    }
}
