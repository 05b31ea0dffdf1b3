//! Patterns without the names that stand for the same folder or the one above.
ghost use Rattle.std.specs.Prelude.{◌≡◌, ◌≤◌, ◌<◌, ◌++◌, ◌∷◌, [], IfOk, IfSome, OnOk, length, map, option_map, take};
ghost use Rattle.fluent_project.specs.Normal.{after_name, ends_folders, first_name, goes_up, in_folder, is_above, is_rooted, is_same_folder, joined, name_len, names, normal, root, slash_after, step, up, walk, without_last};
ghost use Rattle.fluent_project.specs.Views.{cuts};
ghost use Rattle.fluent_project.specs.declared.part.Part.TheVariants.{Byte};

use crate::part::{Part, Wildcard};
use std::alloc::{AllocError, Global};

/// A pattern without `.`, `..` and slashes that follow each other, as far as that can be without
/// looking at files: `./x/../en//**` is `en/**`. Nothing is left of one that stands for the folder
/// that it begins at.
///
/// # Errors
/// [`AllocError`] if memory runs out; nothing is kept.
pub fn normalised(alloc: Global, parts: &[Part]) -> Result<Vec<Part>, AllocError>
    ensures { IfOk result (λ whole. whole.items ≡ normal parts.now) }
{
    let mut names = Vec::new(alloc);
    push_names(parts, &mut names)?;
    let mut path = Vec::new(alloc);
    walk(is_rooted(parts), &names, &mut path)?;
    let mut whole = root_of(alloc, parts)?;
    push_joined(&path, &mut whole)?;
    Ok(whole)
}

/// A slash, if a pattern begins with one.
fn root_of(alloc: Global, parts: &[Part]) -> Result<Vec<Part>, AllocError>
    ensures { IfOk result (λ whole. whole.items ≡ root parts.now) }
{
    let mut whole = Vec::new(alloc);
    if is_rooted(parts) {
        whole.push(Part::Byte(b'/'))?;
    }
    Ok(whole)
}

/// Whether a pattern begins with a slash.
fn is_rooted(parts: &[Part]) -> bool
    ensures { result ≡ is_rooted parts.now }
{
    match parts {
        [Part::Byte(byte), ..] => *byte == b'/',
        _ => false,
    }
}

/// Appends the names of a pattern. A name ends before a slash, and after `**/`.
#[tactic(auto, using(crate::proofs::Names::names_alone, crate::proofs::Names::names_more))]
fn push_names<'p>(parts: &'p [Part], list: &mut Vec<&'p [Part]>) -> Result<(), AllocError>
    ensures { OnOk result (cuts list.new.items ≡ cuts list.old.items ++ names parts.now) }
{
    push_first(parts, list)?;
    match after_name(parts) {
        None => Ok(()),
        Some(rest) => push_names(rest, list),
    }
}

/// Appends the first name of a pattern.
fn push_first<'p>(parts: &'p [Part], list: &mut Vec<&'p [Part]>) -> Result<(), AllocError>
    ensures { OnOk result (cuts list.new.items ≡ cuts list.old.items ++ first_name parts.now ∷ []) }
{
    Ok(list.push(&parts[..name_len(parts)])?)
}

/// How many parts the first name has.
fn name_len(parts: &[Part]) -> usize
    ensures len { result ≡ name_len parts.now }
    ensures within { result ≤ length parts.now }
{
    match parts {
        [] => 0,
        [Part::Wildcard(Wildcard::Folders), ..] => 1,
        [Part::Byte(byte), rest @ ..] => { if *byte == b'/' { 0 } else { 1 + name_len(rest) } }
        [_, rest @ ..] => 1 + name_len(rest),
    }
}

/// What follows the first name and its slash, if either is there.
fn after_name(parts: &[Part]) -> Option<&[Part]>
    ensures rest { option_map (λ rest. rest.now) result ≡ after_name parts.now }
    ensures shorter { IfSome result (λ rest. length rest.now < length parts.now) }
{
    match parts {
        [] => None,
        [Part::Wildcard(Wildcard::Folders), rest @ ..] => Some(rest),
        [Part::Byte(byte), rest @ ..] => {
            if *byte == b'/' {
                Some(rest)
            } else {
                after_name(rest)
            }
        }
        [_, rest @ ..] => after_name(rest),
    }
}

/// Goes on a path by these names.
fn walk<'p>(
    rooted: bool,
    names: &[&'p [Part]],
    path: &mut Vec<&'p [Part]>,
) -> Result<(), AllocError>
    ensures { OnOk result (cuts path.new.items ≡ walk rooted (cuts path.old.items) (cuts names.now)) }
{
    match names {
        [] => Ok(()),
        [name, rest @ ..] => {
            step(rooted, name, path)?;
            walk(rooted, rest, path)
        }
    }
}

/// One name further on a path.
fn step<'p>(rooted: bool, name: &'p [Part], path: &mut Vec<&'p [Part]>) -> Result<(), AllocError>
    ensures { OnOk result (cuts path.new.items ≡ step rooted (cuts path.old.items) name.now) }
{
    if is_same_folder(name) {
        Ok(())
    } else if is_above(name) {
        step_up(rooted, name, path)
    } else {
        Ok(path.push(name)?)
    }
}

/// One folder up.
fn step_up<'p>(rooted: bool, name: &'p [Part], path: &mut Vec<&'p [Part]>) -> Result<(), AllocError>
    ensures { OnOk result (cuts path.new.items ≡ up rooted (cuts path.old.items) name.now) }
{
    if goes_up(rooted, path) {
        Ok(path.push(name)?)
    } else {
        drop_last(path);
        Ok(())
    }
}

/// Whether a step up is one more after a path. Above the root there is no folder, and above a path
/// that goes up only another step up.
fn goes_up(rooted: bool, path: &[&[Part]]) -> bool
    ensures { result ≡ goes_up rooted (cuts path.now) }
{
    match path {
        [] => !rooted,
        [last] => is_above(last),
        [_, rest @ ..] => goes_up(rooted, rest),
    }
}

/// Takes the last name of a path away.
#[tactic(auto, using(crate::proofs::Names::cuts_without_last))]
fn drop_last(path: &mut Vec<&[Part]>)
    ensures { cuts path.new.items ≡ without_last (cuts path.old.items) }
{
    let _ = path.pop();
}

/// Whether a name stands for the folder that it is in.
fn is_same_folder(name: &[Part]) -> bool
    ensures { result ≡ is_same_folder name.now }
{
    match name {
        [] => true,
        [Part::Byte(byte)] => *byte == b'.',
        _ => false,
    }
}

/// Whether a name stands for the folder above.
fn is_above(name: &[Part]) -> bool
    ensures { result ≡ is_above name.now }
{
    match name {
        [Part::Byte(one), Part::Byte(other)] => *one == b'.' && *other == b'.',
        _ => false,
    }
}

/// Appends the names of a path, with slashes between them.
fn push_joined(path: &[&[Part]], whole: &mut Vec<Part>) -> Result<(), AllocError>
    ensures { OnOk result (whole.new.items ≡ whole.old.items ++ joined (cuts path.now)) }
{
    match path {
        [] => Ok(()),
        [name] => whole.extend_from_slice(name),
        [name, rest @ ..] => {
            whole.extend_from_slice(name)?;
            push_slash(name, whole)?;
            push_joined(rest, whole)
        }
    }
}

/// Appends a slash after a name, which `**/` has itself.
fn push_slash(name: &[Part], whole: &mut Vec<Part>) -> Result<(), AllocError>
    ensures { OnOk result (whole.new.items ≡ whole.old.items ++ slash_after name.now) }
{
    if ends_folders(name) {
        Ok(())
    } else {
        Ok(whole.push(Part::Byte(b'/'))?)
    }
}

/// Whether a name ends with `**/`.
fn ends_folders(name: &[Part]) -> bool
    ensures { result ≡ ends_folders name.now }
{
    match name {
        [] => false,
        [Part::Wildcard(Wildcard::Folders)] => true,
        [_, rest @ ..] => ends_folders(rest),
    }
}

/// A path as a pattern, which stands for this path alone.
///
/// # Errors
/// [`AllocError`] if memory runs out; nothing is kept.
pub fn plain_pattern(alloc: Global, path: &[u8]) -> Result<Vec<Part>, AllocError>
    ensures { IfOk result (λ pattern. pattern.items ≡ map Byte path.now) }
{
    path.iter().map(|byte| Part::Byte(*byte)).collect(alloc)
}

/// A pattern in a folder, unless it begins with a slash: then it is the pattern itself. It is
/// [`normalised`].
///
/// # Errors
/// [`AllocError`] if memory runs out; nothing is kept.
pub fn joined(alloc: Global, folder: &[u8], parts: &[Part]) -> Result<Vec<Part>, AllocError>
    ensures { IfOk result (λ whole. whole.items ≡ normal (in_folder folder.now parts.now)) }
{
    if folder.is_empty() || is_rooted(parts) {
        return normalised(alloc, parts);
    }
    let mut whole = plain_pattern(alloc, folder)?;
    whole.push(Part::Byte(b'/'))?;
    whole.extend_from_slice(parts)?;
    normalised(alloc, &whole)
}
