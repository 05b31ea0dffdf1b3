//! Variables that one variant lacks.
#![tactic(auto)]

ghost use Rattle.std.specs.Prelude.{◌≡◌, IfOk, OnOk};
ghost use Rattle.std.specs.List.{list_any};
ghost use Rattle.fluent_ast.specs.Borrowed.{elements_of, key_of, variants_of};
ghost use Rattle.fluent_meaning.specs.Choice.{first_default};
ghost use Rattle.fluent_meaning.specs.Same.{same_key};
ghost use Rattle.lint_comparison.specs.LackingView.{AddsNames, is_lacking_in, must_show_in, reference_lacks, variant_in, variants_in};
ghost use Rattle.lint_comparison.specs.LossView.{AddsLosses, AreVariablesIn, default_in, found_pattern, lacking_in, nodes_of};
ghost use Rattle.lint_findings.specs.Losses as l;
ghost use Rattle.lint_findings.specs.Nodes.{elements_nodes};
ghost use Rattle.lint_nodes.specs.NodeView.{node_view};

use crate::always::pattern_always_shows;
use crate::counted::are_counting;
use crate::loss::Loss;
use fluent_ast::{InlineExpression, Pattern, Variant, VariantKey};
use lint_flaws::{counted, first_quoted, pattern_shows};
use lint_nodes::{Names, Node, key_text, pattern_nodes};
use std::alloc::{AllocError, Global};

/// Adds the variables that variants lack in the selects among some nodes, if the reference has
/// these others.
///
/// # Errors
/// [`AllocError`] if memory runs out; some may be added then.
pub fn push_lacking<'i, 's: 'i>(
    alloc: Global,
    nodes: &[Node<'_, 's>],
    others: &[Node<'_, '_>],
    losses: &mut Vec<Loss<'i>>,
) -> Result<(), AllocError>
    ensures { OnOk result (AddsLosses losses.old losses.new (lacking_in nodes.now others.now)) }
{
    for node in nodes {
        push_node(alloc, *node, others, losses)?;
    }
    Ok(())
}

fn push_node<'i, 's: 'i>(
    alloc: Global,
    node: Node<'_, 's>,
    others: &[Node<'_, '_>],
    losses: &mut Vec<Loss<'i>>,
) -> Result<(), AllocError>
    ensures { OnOk result (AddsLosses losses.old losses.new
        (l.node_losses (nodes_of others.now) (node_view node.entry))) }
{
    let Node::Select { selector, variants } = node else {
        return Ok(());
    };
    match counted(selector) {
        Some(number) if are_counting(variants) => {
            push_select(alloc, number, variants, others, losses)
        }
        _ => Ok(()),
    }
}

/// Adds those of a select on this variable.
fn push_select<'i, 's: 'i>(
    alloc: Global,
    number: &str,
    variants: &[Variant<&'s str>],
    others: &[Node<'_, '_>],
    losses: &mut Vec<Loss<'i>>,
) -> Result<(), AllocError>
    ensures { OnOk result (AddsLosses losses.old losses.new
        (default_in others.now number.now variants.now)) }
{
    let Some(default) = default_of(variants) else {
        return Ok(());
    };
    let names = variables_in(alloc, default)?;
    push_names(
        alloc,
        number,
        default,
        &names.list,
        variants,
        others,
        losses,
    )
}

/// Adds those of these variables, by the pattern of the default variant.
fn push_names<'i, 's: 'i>(
    alloc: Global,
    number: &str,
    default: &Pattern<&str>,
    names: &[&'s str],
    variants: &[Variant<&'s str>],
    others: &[Node<'_, '_>],
    losses: &mut Vec<Loss<'i>>,
) -> Result<(), AllocError>
    ensures { OnOk result (AddsNames others.now number.now default.now variants.now names.now
        losses.old losses.new) }
{
    for name in names {
        if !pattern_always_shows(default, name) {
            continue;
        }
        let lacking = Lacking {
            number,
            name,
            others,
        };
        lacking.push_variants(alloc, variants, losses)?;
    }
    Ok(())
}

/// The first default variant's pattern.
fn default_of<'v, 's>(variants: &'v [Variant<&'s str>]) -> Option<&'v Pattern<&'s str>>
    ensures { found_pattern result ≡ first_default (variants_of variants.now) }
{
    for variant in variants {
        if variant.default {
            return Some(&variant.value);
        }
    }
    None
}

/// The variables of a pattern, each once.
fn variables_in<'s>(alloc: Global, pattern: &Pattern<&'s str>) -> Result<Names<'s>, AllocError>
    ensures { IfOk result (AreVariablesIn (elements_of pattern.now)) }
{
    let nodes = pattern_nodes(alloc, pattern)?;
    let mut names = Names::new(alloc);
    for node in &nodes {
        if let Node::Expression(InlineExpression::VariableReference { id }) = node {
            names.add(id.name)?;
        }
    }
    Ok(names)
}

/// A variable that the default variant of a select on another one always shows, and the nodes of
/// the reference.
#[derive(Clone, Copy)]
struct Lacking<'n, 'a, 't, 'i> {
    number: &'n str,
    name: &'i str,
    others: &'n [Node<'a, 't>],
}

impl<'i> Lacking<'_, '_, '_, 'i> {
    /// Adds the variants that lack the variable.
    fn push_variants<'s: 'i>(
        &self,
        alloc: Global,
        variants: &[Variant<&'s str>],
        losses: &mut Vec<Loss<'i>>,
    ) -> Result<(), AllocError>
        ensures { OnOk result (AddsLosses losses.old losses.new (variants_in self.now variants.now)) }
    {
        for variant in variants {
            self.push_variant(alloc, variant, losses)?;
        }
        Ok(())
    }

    fn push_variant<'s: 'i>(
        &self,
        alloc: Global,
        variant: &Variant<&'s str>,
        losses: &mut Vec<Loss<'i>>,
    ) -> Result<(), AllocError>
        ensures { OnOk result (AddsLosses losses.old losses.new (variant_in self.now variant.now)) }
    {
        if variant.default || !self.is_lacking(alloc, variant)? {
            return Ok(());
        }
        let key = key_text(&variant.key);
        losses.push(Loss::LackingVariant {
            key,
            variable: self.name,
        })?;
        Ok(())
    }

    fn is_lacking(&self, alloc: Global, variant: &Variant<&str>) -> Result<bool, AllocError>
        ensures { IfOk result (λ is_lacking. is_lacking ≡ is_lacking_in self.now variant.now) }
    {
        if !self.must_show(variant) || pattern_shows(&variant.value, self.name) {
            return Ok(false);
        }
        Ok(!is_quoting(alloc, &variant.value)? && !self.is_lacking_in_reference(&variant.key))
    }

    /// Whether a variant has to show the variable: none for `zero` or a number has to, and one for
    /// `one` or `two` only if it shows the number, and this is another variable.
    fn must_show(&self, variant: &Variant<&str>) -> bool
        ensures { result ≡ must_show_in self.now variant.now }
    {
        match &variant.key {
            VariantKey::Identifier { name } => match *name {
                "zero" => false,
                "one" | "two" => {
                    self.name != self.number && pattern_shows(&variant.value, self.number)
                }
                _ => true,
            },
            VariantKey::NumberLiteral { .. } => false,
        }
    }

    /// Whether a variant with this key lacks the variable in the reference, too.
    fn is_lacking_in_reference(&self, key: &VariantKey<&str>) -> bool
        ensures { result ≡ reference_lacks self.now key.now }
    {
        for node in self.others {
            if node_lacks(*node, self.number, key, self.name) {
                return true;
            }
        }
        false
    }
}

fn node_lacks(node: Node<'_, '_>, number: &str, key: &VariantKey<&str>, name: &str) -> bool
    ensures { result ≡ l.node_lacks number.now (key_of key.now) name.now (node_view node.entry) }
{
    let Node::Select { selector, variants } = node else {
        return false;
    };
    match counted(selector) {
        Some(other) => number == other && variants_lack(variants, key, name),
        None => false,
    }
}

fn variants_lack(variants: &[Variant<&str>], key: &VariantKey<&str>, name: &str) -> bool
    ensures { result ≡ l.variants_lack (key_of key.now) name.now (variants_of variants.now) }
{
    for variant in variants {
        if is_same_key(key, &variant.key) && !pattern_shows(&variant.value, name) {
            return true;
        }
    }
    false
}

fn is_same_key(key: &VariantKey<&str>, other: &VariantKey<&str>) -> bool
    ensures { result ≡ same_key (key_of key.now) (key_of other.now) }
{
    match (key, other) {
        (VariantKey::Identifier { name }, VariantKey::Identifier { name: other }) => name == other,
        (VariantKey::NumberLiteral { value }, VariantKey::NumberLiteral { value: other }) => {
            value == other
        }
        _ => false,
    }
}

/// Whether a string literal of a pattern has a placeable in quotes.
fn is_quoting(alloc: Global, pattern: &Pattern<&str>) -> Result<bool, AllocError>
    ensures { IfOk result (λ found.
        found ≡ list_any l.is_quoting (elements_nodes (elements_of pattern.now))) }
{
    let nodes = pattern_nodes(alloc, pattern)?;
    Ok(are_quoting(&nodes))
}

/// Whether one of some nodes is a string literal with a placeable in quotes.
pub fn are_quoting(nodes: &[Node<'_, '_>]) -> bool
    ensures { result ≡ list_any l.is_quoting (nodes_of nodes.now) }
{
    for node in nodes {
        if let Node::Expression(InlineExpression::StringLiteral { value }) = node {
            if first_quoted(value).is_some() {
                return true;
            }
        }
    }
    false
}
