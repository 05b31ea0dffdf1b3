//! Keys of selects on attributes of terms.
#![tactic(auto)]

ghost use Rattle.std.specs.Prelude.{◌≡◌, IfOk, OnOk, option_map};
ghost use Rattle.std.specs.Str.{bytes_eq};
ghost use Rattle.fluent_ast.specs.Borrowed.{attributes_of, elements_of};
ghost use Rattle.fluent_meaning.specs.Ids.{find};
ghost use Rattle.fluent_grammar.specs.Tree as t;
ghost use Rattle.lint_findings.specs.Facts as f;
ghost use Rattle.lint_flaws.specs.FactsBy as by;
ghost use Rattle.lint_flaws.specs.FactsBy.{IsOnFact};
ghost use Rattle.lint_flaws.specs.Said.{AddsFacts, known};

use crate::adding::push_remark;
use crate::hint::near_hint;
use crate::near::{KnownNames, nearest};
use crate::plural_keys::category_named;
use crate::term_uses::has_variant;
use fluent_ast::{Attribute, InlineExpression, Pattern, PatternElement, Variant, VariantKey};
use fluent_ids::Entry;
use lint_findings::{CatalogIds, Remark};
use std::alloc::{AllocError, Global};

/// Adds what is said of the keys of a select on an attribute of a term that is a text: which aren't
/// that text, and nearly are, or whose select has no key that is.
///
/// # Errors
/// [`AllocError`] if memory runs out; `found` then holds its old remarks and some of these.
pub fn push_attribute_keys(
    alloc: Global,
    ids: &CatalogIds<'_, '_>,
    selector: &InlineExpression<&str>,
    variants: &[Variant<&str>],
    found: &mut Vec<Remark>,
) -> Result<(), AllocError>
    ensures { OnOk result (AddsFacts (by.attribute_facts ids.now selector.now variants.now)
        found.old found.new) }
{
    match selector {
        InlineExpression::TermReference {
            id,
            attribute: Some(attribute),
            ..
        } => push_term_keys(alloc, ids, id.name, attribute.name, variants, found),
        _ => Ok(()),
    }
}

/// Adds what is said of the keys of a select on the attribute of this name of the term of this id.
fn push_term_keys(
    alloc: Global,
    ids: &CatalogIds<'_, '_>,
    id: &str,
    name: &str,
    variants: &[Variant<&str>],
    found: &mut Vec<Remark>,
) -> Result<(), AllocError>
    ensures { OnOk result (AddsFacts (by.term_keys_facts ids.now id.now name.now variants.now)
        found.old found.new) }
{
    match term_attribute_text(ids, id, name) {
        Some(text) => {
            let attribute = AttributeText {
                id,
                name,
                text,
                variants,
            };
            push_keys(alloc, attribute, variants, found)
        }
        None => Ok(()),
    }
}

/// The text that the attribute of this name of the term of this id is, if it is nothing else.
fn term_attribute_text<'s>(ids: &CatalogIds<'_, 's>, id: &str, name: &str) -> Option<&'s str>
    ensures { option_map (λ s. s.now) result
        ≡ f.term_attribute_text name.now (find (known ids.now) id.now) }
{
    match ids.get(id) {
        Some(Entry::Term((_, term))) => attribute_text(&term.attributes, name),
        _ => None,
    }
}

/// The text that the first attribute of this name is, if it is nothing else.
pub fn attribute_text<'s>(attributes: &[Attribute<&'s str>], name: &str) -> Option<&'s str>
    ensures { option_map (λ s. s.now) result
        ≡ f.attribute_text name.now (attributes_of attributes.now) }
{
    for attribute in attributes {
        if attribute.id.name == name {
            return only_text(&attribute.value);
        }
    }
    None
}

/// The text that a pattern is, if it is nothing else.
pub fn only_text<'s>(pattern: &Pattern<&'s str>) -> Option<&'s str>
    ensures { option_map (λ s. s.now) result ≡ f.only_text (elements_of pattern.now) }
{
    first_if_only(&pattern.elements)
}

fn first_if_only<'s>(elements: &[PatternElement<&'s str>]) -> Option<&'s str>
    ensures { option_map (λ s. s.now) result ≡ f.only_text (by.elements_of elements.now) }
{
    match elements {
        [] => None,
        [first, others @ ..] => match first {
            PatternElement::TextElement { value } => if_last(*value, others),
            PatternElement::Placeable { .. } => None,
        },
    }
}

/// A text, if no element follows it.
fn if_last<'s>(text: &'s str, others: &[PatternElement<&str>]) -> Option<&'s str>
    ensures { option_map (λ s. s.now) result ≡ f.only_text (t.text text.now (by.elements_of others.now)) }
{
    match others {
        [] => Some(text),
        // Of either kind, so that the proof sees what the pattern begins with.
        [next, ..] => match next {
            PatternElement::TextElement { .. } | PatternElement::Placeable { .. } => None,
        },
    }
}

/// An attribute of a term that is a text, and the variants of a select on it.
#[derive(Clone, Copy)]
struct AttributeText<'n, 's> {
    id: &'n str,
    name: &'n str,
    text: &'n str,
    variants: &'n [Variant<&'s str>],
}

/// Adds what is said of the keys of some variants of the select.
fn push_keys(
    alloc: Global,
    attribute: AttributeText<'_, '_>,
    variants: &[Variant<&str>],
    found: &mut Vec<Remark>,
) -> Result<(), AllocError>
    ensures { OnOk result (AddsFacts (by.others_facts attribute.entry variants.now)
        found.old found.new) }
{
    for variant in variants {
        attribute.push_key(alloc, variant, found)?;
    }
    Ok(())
}

impl AttributeText<'_, '_> {
    fn push_key(
        &self,
        alloc: Global,
        variant: &Variant<&str>,
        found: &mut Vec<Remark>,
    ) -> Result<(), AllocError>
        ensures { OnOk result (AddsFacts (by.other_facts self.now variant.now)
            found.old found.new) }
    {
        match &variant.key {
            VariantKey::Identifier { name } => self.push_name(alloc, *name, variant.default, found),
            VariantKey::NumberLiteral { .. } => Ok(()),
        }
    }

    fn push_name(
        &self,
        alloc: Global,
        key: &str,
        is_default: bool,
        found: &mut Vec<Remark>,
    ) -> Result<(), AllocError>
        ensures { OnOk result (AddsFacts (by.name_facts self.now key.now is_default)
            found.old found.new) }
    {
        if !is_default && self.differs_from(alloc, key)? {
            push_remark(self.remark(alloc, key)?, found)
        } else {
            Ok(())
        }
    }

    /// Whether a key isn't the text, and nearly is, or no key of the select is.
    fn differs_from(&self, alloc: Global, key: &str) -> Result<bool, AllocError>
        ensures { IfOk result (λ differs. differs ≡ by.is_other self.now key.now) }
    {
        if self.text == key || category_named(key).is_some() {
            return Ok(false);
        }
        Ok(!has_variant(self.variants, self.text) || self.is_near(alloc, key)?)
    }

    fn is_near(&self, alloc: Global, key: &str) -> Result<bool, AllocError>
        ensures { IfOk result (λ is_near. is_near ≡ f.is_near_text self.now.text.now key.now) }
    {
        let text = OneName { name: self.text };
        Ok(matches!(nearest(alloc, &text, key)?, Some(_)))
    }

    /// The remark on a key that the attribute never is.
    fn remark(&self, alloc: Global, key: &str) -> Result<Remark, AllocError>
        ensures { IfOk result (IsOnFact
            (f.other_text self.now.id.now self.now.name.now self.now.text.now key.now)) }
    {
        let hint = self.hint(alloc, key)?;
        let id = self.id;
        let name = self.name;
        let text = format!(in alloc; "`-{id}.{name}` is never `{key}`")?;
        Ok(Remark::warning("unknown-term-variant", text).with_hint(Some(hint)))
    }

    /// The hint for a key: that the attribute's text may be meant, if the key is nearly it, and
    /// otherwise the text itself.
    fn hint(&self, alloc: Global, key: &str) -> Result<String, AllocError>
        ensures { IfOk result (by.IsTextHint self.now.text.now key.now) }
    {
        let text = self.text;
        match near_hint(alloc, "", &OneName { name: text }, key)? {
            Some(hint) => Ok(hint),
            None => format!(in alloc; "it is `{text}`"),
        }
    }
}

/// A name, as the only one that is known.
#[derive(Clone, Copy)]
struct OneName<'n> {
    name: &'n str,
}

impl KnownNames for OneName<'_> {
    ghost knows = { λ one. bytes_eq one.name.now };

    fn has_name(&self, name: &str) -> bool {
        self.name == name
    }
}
