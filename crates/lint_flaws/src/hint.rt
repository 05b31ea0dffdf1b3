//! Hints: what may be the cause of a flaw.
#![tactic(auto)]

ghost use Rattle.std.specs.Prelude.{◌≡◌, IfOk, string_bytes};
ghost use Rattle.fluent_ast.specs.Borrowed.{attributes_of};
ghost use Rattle.lint_findings.specs.FlawHints as h;
ghost use Rattle.lint_findings.specs.Comparison.{as_message};
ghost use Rattle.lint_findings.specs.NearNames.{near_text, nearest_hint};
ghost use Rattle.lint_flaws.specs.Said.{IsHint, IsMessageHint};
ghost use Rattle.fluent_ids.specs.IdsView.{ids_view};
ghost use Rattle.fluent_meaning.specs.Ids.{find};

use crate::near::{KnownNames, nearest};
use fluent_ast::Attribute;
use fluent_ids::Entry;
use lint_findings::CatalogIds;
use std::alloc::{AllocError, Global};

/// The hint that a known name may be meant by this one, which is written with this sign before it.
///
/// # Errors
/// [`AllocError`] if memory runs out; nothing is kept.
pub fn near_hint<N: KnownNames>(
    alloc: Global,
    sign: &str,
    names: &N,
    name: &str,
) -> Result<Option<String>, AllocError>
    ensures { IfOk result (IsHint (nearest_hint sign.now (N.knows names.now) name.now)) }
{
    match nearest(alloc, names, name)? {
        Some(near) => Ok(Some(near_text(alloc, sign, &near)?)),
        None => Ok(None),
    }
}

fn near_text(alloc: Global, sign: &str, near: &str) -> Result<String, AllocError>
    ensures { IfOk result (λ text. string_bytes text ≡ near_text sign.now near.now) }
{
    format!(in alloc; "did you mean `{sign}{near}`?")
}

/// The hint if a message of this id is missing, in a catalog with these ids, whose reference has
/// those.
///
/// # Errors
/// [`AllocError`] if memory runs out; nothing is kept.
pub fn message_hint<'r, 's: 'r>(
    alloc: Global,
    ids: &CatalogIds<'r, 's>,
    reference: &CatalogIds<'r, 's>,
    id: &str,
) -> Result<Option<String>, AllocError>
    ensures { IfOk result (IsMessageHint ids.now reference.now id.now) }
{
    match ids.get(id) {
        None => no_message_hint(alloc, ids, reference, id),
        Some(Entry::Term(_)) => Ok(Some(format!(in alloc; "`-{id}` is a term")?)),
        Some(_) => Ok(None),
    }
}

/// The hint if this id stands for nothing, and a message is meant.
fn no_message_hint<'r, 's: 'r>(
    alloc: Global,
    ids: &CatalogIds<'r, 's>,
    reference: &CatalogIds<'r, 's>,
    id: &str,
) -> Result<Option<String>, AllocError>
    ensures { IfOk result (IsHint
        (h.no_message_hint (ids_view _ ids.now) (ids_view _ reference.now) id.now)) }
{
    if (Messages { ids: reference }).has_name(id) {
        let hint = format!(in alloc;
            "the reference has the message `{id}`; it isn't translated yet"
        )?;
        return Ok(Some(hint));
    }
    match near_hint(alloc, "", &Messages { ids }, id)? {
        Some(hint) => Ok(Some(hint)),
        None => Ok(Some(format!(in alloc; "a variable is written `${id}`")?)),
    }
}

/// The hint if a term of this id is missing.
///
/// # Errors
/// [`AllocError`] if memory runs out; nothing is kept.
pub fn term_hint<'r, 's: 'r>(
    alloc: Global,
    ids: &CatalogIds<'r, 's>,
    id: &str,
) -> Result<Option<String>, AllocError>
    ensures { IfOk result (IsHint
        (h.term_hint (ids_view _ ids.now) id.now (find (ids_view _ ids.now) id.now))) }
{
    match ids.get(id) {
        None => near_hint(alloc, "-", &Terms { ids }, id),
        Some(Entry::Message(_)) => Ok(Some(format!(in alloc; "`{id}` is a message")?)),
        Some(_) => Ok(None),
    }
}

/// The hint if the message of this id has no value.
///
/// # Errors
/// [`AllocError`] if memory runs out; nothing is kept.
pub fn value_hint(
    alloc: Global,
    ids: &CatalogIds<'_, '_>,
    id: &str,
) -> Result<Option<String>, AllocError>
    ensures { IfOk result (IsHint
        (h.value_hint (as_message (find (ids_view _ ids.now) id.now)))) }
{
    match ids.get(id) {
        Some(Entry::Message((_, message))) => first_attribute_hint(alloc, &message.attributes),
        _ => Ok(None),
    }
}

/// The hint that a message has the first of these attributes.
fn first_attribute_hint(
    alloc: Global,
    attributes: &[Attribute<&str>],
) -> Result<Option<String>, AllocError>
    ensures { IfOk result (IsHint (h.first_attribute_hint (attributes_of attributes.now))) }
{
    match attributes.first() {
        Some(first) => {
            let name = first.id.name;
            Ok(Some(format!(in alloc; "it has the attribute `.{name}`")?))
        }
        None => Ok(None),
    }
}

/// The ids of messages.
#[derive(Clone, Copy)]
struct Messages<'c, 'r, 's: 'r> {
    ids: &'c CatalogIds<'r, 's>,
}

impl<'c, 'r, 's: 'r> KnownNames for Messages<'c, 'r, 's> {
    ghost knows = { λ messages. h.is_message (ids_view _ messages.ids.now) };

    fn has_name(&self, name: &str) -> bool {
        matches!(self.ids.get(name), Some(Entry::Message(_)))
    }
}

/// The ids of terms.
#[derive(Clone, Copy)]
struct Terms<'c, 'r, 's: 'r> {
    ids: &'c CatalogIds<'r, 's>,
}

impl<'c, 'r, 's: 'r> KnownNames for Terms<'c, 'r, 's> {
    ghost knows = { λ terms. h.is_term (ids_view _ terms.ids.now) };

    fn has_name(&self, name: &str) -> bool {
        matches!(self.ids.get(name), Some(Entry::Term(_)))
    }
}
