//! Flaws, and what is said of them.
#![tactic(auto)]

ghost use Rattle.std.specs.Prelude.{◌≡◌, IfOk, string_bytes};
ghost use Rattle.fluent_ast.specs.Borrowed.{key_of};
ghost use Rattle.lint_findings.specs.Flaws.{duplicate_key};
ghost use Rattle.lint_findings.specs.View.{remark_view};
ghost use Rattle.lint_findings.specs.FlawWords.{attribute_text, flaw_words};
ghost use Rattle.lint_flaws.specs.FlawView.{flaw_view};
ghost use Rattle.lint_flaws.specs.Said.{IsHintOf, IsOnAttribute, IsOnFlaw};

use crate::hint::{message_hint, term_hint, value_hint};
use fluent_ast::VariantKey;
use lint_findings::{CatalogIds, Remark};
use lint_nodes::key_text;
use std::alloc::{AllocError, Global};

/// A mistake in a node of a pattern, whatever the arguments of a request are. Its sentence is that
/// of `docs/reference/lint.md`.
#[derive(Clone, Copy)]
pub enum Flaw<'a, 's> {
    /// There is no function of this name.
    UnknownFunction {
        id: &'s str,
    },
    /// There is no message of this id, or it has no attribute of this name.
    UnknownMessage {
        id: &'s str,
        attribute: Option<&'s str>,
    },
    /// There is no term of this id, or it has no attribute of this name.
    UnknownTerm {
        id: &'s str,
        attribute: Option<&'s str>,
    },
    /// The message of this id has no value.
    NoValue {
        id: &'s str,
    },
    /// No variant of a select is the default.
    NoDefault,
    /// An earlier variant of the select has this key.
    RepeatedKey(&'a VariantKey<&'s str>),
}

impl<'s> Flaw<'_, 's> {
    /// The remark on the flaw, in a catalog with these ids, whose reference has those.
    ///
    /// # Errors
    /// [`AllocError`] if memory runs out; nothing is kept.
    pub fn remark(
        &self,
        alloc: Global,
        ids: &CatalogIds<'_, 's>,
        reference: &CatalogIds<'_, 's>,
    ) -> Result<Remark, AllocError>
        ensures { IfOk result (IsOnFlaw ids.now reference.now (flaw_view self.now)) }
    {
        let hint = self.hint(alloc, ids, reference)?;
        let words = self.words(alloc)?;
        Ok(words.with_hint(hint).within(0))
    }

    /// The remark without its hint.
    fn words(&self, alloc: Global) -> Result<Remark, AllocError>
        ensures { IfOk result (λ said. remark_view said ≡ flaw_words (flaw_view self.now)) }
    {
        match self {
            // Only the program knows its functions, so this is a warning.
            Flaw::UnknownFunction { id } => Ok(Remark::warning(
                "unknown-function",
                format!(in alloc; "there is no function `{id}`")?,
            )),
            Flaw::UnknownMessage {
                id,
                attribute: None,
            } => Ok(Remark::error(
                "unknown-message",
                format!(in alloc; "there is no message `{id}`")?,
            )),
            Flaw::UnknownMessage {
                id,
                attribute: Some(name),
            } => unknown_attribute(alloc, "", id, name),
            Flaw::UnknownTerm {
                id,
                attribute: None,
            } => Ok(Remark::error(
                "unknown-term",
                format!(in alloc; "there is no term `-{id}`")?,
            )),
            Flaw::UnknownTerm {
                id,
                attribute: Some(name),
            } => unknown_attribute(alloc, "-", id, name),
            Flaw::NoValue { id } => Ok(Remark::error(
                "no-value",
                format!(in alloc; "the message `{id}` has no value")?,
            )),
            Flaw::NoDefault => Ok(Remark::error(
                "no-default",
                format!(in alloc;
                    "no variant is the default, since a `*` has no variant after it"
                )?,
            )),
            Flaw::RepeatedKey(key) => repeated_key(alloc, key),
        }
    }

    fn hint(
        &self,
        alloc: Global,
        ids: &CatalogIds<'_, 's>,
        reference: &CatalogIds<'_, 's>,
    ) -> Result<Option<String>, AllocError>
        ensures { IfOk result (IsHintOf ids.now reference.now (flaw_view self.now)) }
    {
        match self {
            Flaw::UnknownMessage { id, .. } => message_hint(alloc, ids, reference, id),
            Flaw::UnknownTerm { id, .. } => term_hint(alloc, ids, id),
            Flaw::NoValue { id } => value_hint(alloc, ids, id),
            Flaw::NoDefault => Ok(Some(format!(in alloc;
                "write it before a variant, as `*[other]`"
            )?)),
            Flaw::UnknownFunction { .. } | Flaw::RepeatedKey(_) => Ok(None),
        }
    }
}

/// The remark that an entry, which is a term if there is this minus, has no attribute of this name.
fn unknown_attribute(alloc: Global, sign: &str, id: &str, name: &str) -> Result<Remark, AllocError>
    ensures { IfOk result (IsOnAttribute sign.now id.now name.now) }
{
    let text = attribute_text(alloc, sign, id, name)?;
    Ok(Remark::error("unknown-attribute", text))
}

fn attribute_text(alloc: Global, sign: &str, id: &str, name: &str) -> Result<String, AllocError>
    ensures { IfOk result (λ text. string_bytes text
        ≡ attribute_text sign.now id.now name.now) }
{
    format!(in alloc; "there is no attribute `{sign}{id}.{name}`")
}

fn repeated_key(alloc: Global, key: &VariantKey<&str>) -> Result<Remark, AllocError>
    ensures { IfOk result (λ said. remark_view said
        ≡ flaw_words (duplicate_key (key_of key.now))) }
{
    let key = key_text(key);
    let text = format!(in alloc; "an earlier variant has the key `{key}`")?;
    Ok(Remark::warning("duplicate-variant", text))
}
