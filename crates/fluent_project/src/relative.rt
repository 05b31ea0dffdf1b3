//! Paths as they are seen from a folder.
ghost use Rattle.std.specs.Prelude.{◌≡◌, IfOk, option_map, string_bytes};
ghost use Rattle.fluent_project.specs.Relative.{Pushes, after_slash, below, relative, seen_up};

use crate::folders::folder_len;
use crate::matching::after;
use std::alloc::{AllocError, Global};

/// A path from the root as it is seen from a folder, whose path is from the root, too: `de/a.ftl`,
/// or `../de/a.ftl` if it isn't below the folder. Any other path is as it is.
///
/// # Errors
/// [`AllocError`] if memory runs out; nothing is kept.
pub fn relative_path(alloc: Global, folder: &str, path: &str) -> Result<String, AllocError>
    ensures { IfOk result (λ seen. string_bytes seen ≡ relative folder.now path.now) }
{
    let mut seen = String::new(alloc);
    let folder = folder.as_bytes();
    if push_seen(&mut seen, folder, folder, path)? {
        Ok(seen)
    } else {
        String::from_str(alloc, path)
    }
}

/// Appends a path as it is seen from a folder, if it is below it or one above it, of which as many
/// are looked at as there are bytes in `turns`. The result says whether it is.
fn push_seen(seen: &mut String, turns: &[u8], folder: &[u8], path: &str) -> Result<bool, AllocError>
    ensures { IfOk result (Pushes (seen_up turns.now folder.now path.now)
        (string_bytes seen.old) (string_bytes seen.new)) }
{
    match turns {
        [] => Ok(false),
        [_, turns @ ..] => match path_below(folder, path) {
            Some(rest) => {
                seen.push_str(rest)?;
                Ok(true)
            }
            None => {
                seen.push_str("../")?;
                push_seen(seen, turns, &folder[..folder_len(folder)], path)
            }
        },
    }
}

/// What follows the path of a folder in a path below it.
fn path_below<'p>(folder: &[u8], path: &'p str) -> Option<&'p str>
    ensures { option_map (λ rest. rest.now) result ≡ below folder.now path.now }
{
    let rest = after_slash(after(folder, path.as_bytes())?)?;
    std::str::from_utf8(rest).ok()
}

/// What follows a slash.
fn after_slash(path: &[u8]) -> Option<&[u8]>
    ensures { option_map (λ rest. rest.now) result ≡ after_slash path.now }
{
    match path {
        [b'/', rest @ ..] => Some(rest),
        _ => None,
    }
}
