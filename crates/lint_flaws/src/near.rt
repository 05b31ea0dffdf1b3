//! Names that are one slip of the keyboard away from a name.
#![tactic(auto)]

ghost use Rattle.std.specs.Prelude.{◌≡◌, ◌<◌, ◌++◌, ◌∷◌, [], Bool, IfOk, OnOk, option_map, string_bytes};
ghost use Rattle.std.specs.Str.{IsAscii};
ghost use Rattle.lint_flaws.specs.Near.{FindsFirst, between};
ghost use Rattle.fluent_grammar.specs.Words.{Text};
ghost use Rattle.lint_findings.specs.NearNames.{additions, may_be_slip, near_names, nearest, omissions, replacements, swaps};

use std::alloc::{AllocError, Global};

/// Names that a name can be looked up in.
pub trait KnownNames {
    /// Whether a name is one of these.
    ghost knows: { Self → Text → Bool };

    /// Whether a name is one of these.
    fn has_name(&self, name: &str) -> bool
        ensures { result ≡ knows self.now name.now };
}

/// The bytes of identifiers, small letters first.
const NAME_BYTES: &str = "abcdefghijklmnopqrstuvwxyzABCDEFGHIJKLMNOPQRSTUVWXYZ0123456789_-";

/// The first known name that is one slip of the keyboard away from this one: two neighbouring bytes
/// swapped, one left out, one replaced by another, or one added. It looks up at most 8,383 names,
/// whatever is known, and none if the name has fewer than 3 or more than 64 bytes, or a byte that
/// isn't ASCII.
///
/// # Errors
/// [`AllocError`] if memory runs out; nothing is kept.
pub fn nearest<N: KnownNames>(
    alloc: Global,
    names: &N,
    name: &str,
) -> Result<Option<String>, AllocError>
    ensures { IfOk result (λ found. option_map string_bytes found
        ≡ nearest (N.knows names.now) name.now) }
{
    if !may_be_slip(name) {
        return Ok(None);
    }
    let mut near = String::with_capacity(alloc, name.len() + 1)?;
    if has_near_name(names, name, &mut near)? {
        Ok(Some(near))
    } else {
        Ok(None)
    }
}

/// Whether near names of a name are looked up.
fn may_be_slip(name: &str) -> bool
    ensures { result ≡ may_be_slip name.now }
{
    name.len() > 2 && (name.len() < 65 && name.is_ascii())
}

/// Whether a near name is known. Then the text holds the first one.
fn has_near_name<N: KnownNames>(
    names: &N,
    name: &str,
    near: &mut String,
) -> Result<bool, AllocError>
    requires { IsAscii name.now }
    ensures { FindsFirst result near.new (N.knows names.now) (near_names name.now) }
{
    if has_swap(names, name, near)? {
        return Ok(true);
    }
    if has_omission(names, name, near)? {
        return Ok(true);
    }
    if has_replacement(names, name, near)? {
        return Ok(true);
    }
    has_addition(names, name, near)
}

/// Whether swapping two neighbouring bytes makes a known name. Then `near` holds the first one.
fn has_swap<N: KnownNames>(names: &N, name: &str, near: &mut String) -> Result<bool, AllocError>
    requires { IsAscii name.now }
    ensures { FindsFirst result near.new (N.knows names.now) (swaps name.now) }
{
    let bytes = name.as_bytes();
    for i in 0..bytes.len().saturating_sub(1) {
        near.clear();
        near.push_str(&name[..i])?;
        push_ascii(near, bytes[i + 1])?;
        push_ascii(near, bytes[i])?;
        near.push_str(&name[i + 2..])?;
        if names.has_name(near) {
            return Ok(true);
        }
    }
    Ok(false)
}

/// Whether leaving out one byte makes a known name. Then `near` holds the first one.
fn has_omission<N: KnownNames>(names: &N, name: &str, near: &mut String) -> Result<bool, AllocError>
    requires { IsAscii name.now }
    ensures { FindsFirst result near.new (N.knows names.now) (omissions name.now) }
{
    for i in 0..name.len() {
        near.clear();
        near.push_str(&name[..i])?;
        near.push_str(&name[i + 1..])?;
        if names.has_name(near) {
            return Ok(true);
        }
    }
    Ok(false)
}

/// Whether replacing one byte makes a known name. Then `near` holds the first one.
fn has_replacement<N: KnownNames>(
    names: &N,
    name: &str,
    near: &mut String,
) -> Result<bool, AllocError>
    requires { IsAscii name.now }
    ensures { FindsFirst result near.new (N.knows names.now) (replacements name.now) }
{
    for i in 0..name.len() {
        if has_between(names, &name[..i], &name[i + 1..], near)? {
            return Ok(true);
        }
    }
    Ok(false)
}

/// Whether adding one byte makes a known name. Then `near` holds the first one.
fn has_addition<N: KnownNames>(names: &N, name: &str, near: &mut String) -> Result<bool, AllocError>
    requires { IsAscii name.now }
    ensures { FindsFirst result near.new (N.knows names.now) (additions name.now) }
{
    for i in 0..name.len() {
        if has_between(names, &name[..i], &name[i..], near)? {
            return Ok(true);
        }
    }
    has_between(names, name, "", near)
}

/// Whether one byte between these texts makes a known name. Then `near` holds the first one.
fn has_between<N: KnownNames>(
    names: &N,
    front: &str,
    back: &str,
    near: &mut String,
) -> Result<bool, AllocError>
    ensures { FindsFirst result near.new (N.knows names.now) (between front.now back.now) }
{
    for byte in NAME_BYTES.as_bytes() {
        near.clear();
        near.push_str(front)?;
        push_ascii(near, *byte)?;
        near.push_str(back)?;
        if names.has_name(near) {
            return Ok(true);
        }
    }
    Ok(false)
}

/// Adds an ASCII byte to a text.
fn push_ascii(text: &mut String, byte: u8) -> Result<(), AllocError>
    requires { byte < 128 }
    ensures { OnOk result (string_bytes text.new ≡ string_bytes text.old ++ byte ∷ []) }
{
    text.push(byte as char)
}
