//! The uses that a term makes of its arguments.
#![tactic(auto)]

ghost use Rattle.std.specs.Prelude.{◌≡◌, IfOk, OnOk, count_by, map};
ghost use Rattle.fluent_ast.specs.Borrowed.{attributes_of, elements_of, key_of, term_of, variants_of};
ghost use Rattle.lint_findings.specs.Nodes as n;
ghost use Rattle.lint_findings.specs.TermUses as u;
ghost use Rattle.lint_findings.specs.MissingCategories.{variant_keys};
ghost use Rattle.lint_nodes.specs.NodeView.{Adds, node_view};
ghost use Rattle.std.specs.List.{list_all, list_any};

use crate::near::KnownNames;
use crate::plural_keys::category_named;
use fluent_ast::{Attribute, InlineExpression, Pattern, Term, Variant, VariantKey};
use lint_nodes::{Node, key_text, pattern_nodes};
use std::alloc::{AllocError, Global};

/// The nodes of a term: of its value, and of its attributes.
///
/// # Errors
/// [`AllocError`] if memory runs out; nothing is kept.
pub fn term_nodes<'a, 's>(
    alloc: Global,
    term: &'a Term<&'s str>,
) -> Result<Vec<Node<'a, 's>>, AllocError>
    ensures { IfOk result (λ nodes. map node_view nodes.items ≡ u.term_nodes (term_of term.now)) }
{
    let mut nodes = Vec::new(alloc);
    push_nodes(alloc, &term.value, &mut nodes)?;
    push_attributes(alloc, &term.attributes, &mut nodes)?;
    Ok(nodes)
}

/// Adds the nodes of attributes.
///
/// # Errors
/// [`AllocError`] if memory runs out; some may be added then.
pub fn push_attributes<'a, 's>(
    alloc: Global,
    attributes: &'a [Attribute<&'s str>],
    nodes: &mut Vec<Node<'a, 's>>,
) -> Result<(), AllocError>
    ensures { OnOk result (Adds nodes.old nodes.new
        (u.attributes_nodes (attributes_of attributes.now))) }
{
    for attribute in attributes {
        push_nodes(alloc, &attribute.value, nodes)?;
    }
    Ok(())
}

/// Adds the nodes of a pattern.
///
/// # Errors
/// [`AllocError`] if memory runs out; none are added then.
pub fn push_nodes<'a, 's>(
    alloc: Global,
    pattern: &'a Pattern<&'s str>,
    nodes: &mut Vec<Node<'a, 's>>,
) -> Result<(), AllocError>
    ensures { OnOk result (Adds nodes.old nodes.new (n.elements_nodes (elements_of pattern.now))) }
{
    let mut more = pattern_nodes(alloc, pattern)?;
    nodes.append(&mut more)
}

/// The variables that a term has.
#[derive(Clone, Copy)]
pub struct Variables<'n, 'a, 's> {
    /// The nodes of the term.
    pub nodes: &'n [Node<'a, 's>],
}

impl KnownNames for Variables<'_, '_, '_> {
    ghost knows = { λ variables. u.has_variable (map node_view variables.nodes.now) };

    fn has_name(&self, name: &str) -> bool {
        has_variable(self.nodes, name)
    }
}

/// Whether a variable is among some nodes.
fn has_variable(nodes: &[Node<'_, '_>], name: &str) -> bool
    ensures { result ≡ u.has_variable (map node_view nodes.now) name.now }
{
    for node in nodes {
        if is_variable(*node, name) {
            return true;
        }
    }
    false
}

fn is_variable(node: Node<'_, '_>, name: &str) -> bool
    ensures { result ≡ u.is_variable name.now (node_view node.entry) }
{
    match node {
        Node::Expression(InlineExpression::VariableReference { id }) => id.name == name,
        _ => false,
    }
}

/// Whether a variable is nothing but the selector of selects whose keys are words.
pub fn chooses_by_words(nodes: &[Node<'_, '_>], name: &str) -> bool
    ensures { result ≡ u.chooses_by_words (map node_view nodes.now) name.now }
{
    only_selects(nodes, name) && all_have_words(nodes, name)
}

fn only_selects(nodes: &[Node<'_, '_>], name: &str) -> bool
    ensures { result ≡ u.only_selects (map node_view nodes.now) name.now }
{
    variables_in(nodes, name) == selects_on(nodes, name)
}

/// How often a variable is among some nodes.
fn variables_in(nodes: &[Node<'_, '_>], name: &str) -> usize
    ensures { result ≡ count_by (u.is_variable name.now) (map node_view nodes.now) }
{
    nodes
        .iter()
        .filter(|node| is_variable(**node, name))
        .count()
}

/// How many selects on a variable are among some nodes.
fn selects_on(nodes: &[Node<'_, '_>], name: &str) -> usize
    ensures { result ≡ count_by (u.is_select_on name.now) (map node_view nodes.now) }
{
    nodes
        .iter()
        .filter(|node| is_select_on(**node, name))
        .count()
}

fn is_select_on(node: Node<'_, '_>, name: &str) -> bool
    ensures { result ≡ u.is_select_on name.now (node_view node.entry) }
{
    match node {
        Node::Select {
            selector: InlineExpression::VariableReference { id },
            ..
        } => id.name == name,
        _ => false,
    }
}

fn all_have_words(nodes: &[Node<'_, '_>], name: &str) -> bool
    ensures { result ≡ list_all (u.has_words name.now) (map node_view nodes.now) }
{
    for node in nodes {
        if !has_words(*node, name) {
            return false;
        }
    }
    true
}

fn has_words(node: Node<'_, '_>, name: &str) -> bool
    ensures { result ≡ u.has_words name.now (node_view node.entry) }
{
    match node {
        Node::Select {
            selector: InlineExpression::VariableReference { id },
            variants,
        } => id.name != name || are_words(variants),
        _ => true,
    }
}

fn are_words(variants: &[Variant<&str>]) -> bool
    ensures { result ≡ list_all u.is_word (variant_keys (variants_of variants.now)) }
{
    for variant in variants {
        if !is_word(&variant.key) {
            return false;
        }
    }
    true
}

fn is_word(key: &VariantKey<&str>) -> bool
    ensures { result ≡ u.is_word (key_of key.now) }
{
    match key {
        VariantKey::Identifier { name } => category_named(name).is_none(),
        VariantKey::NumberLiteral { .. } => false,
    }
}

/// The keys that a term has for a variable.
#[derive(Clone, Copy)]
pub struct Values<'n, 'a, 's> {
    /// The nodes of the term.
    pub nodes: &'n [Node<'a, 's>],
    /// The variable.
    pub variable: &'n str,
}

impl KnownNames for Values<'_, '_, '_> {
    ghost knows = { λ values. u.has_key (map node_view values.nodes.now) values.variable.now };

    fn has_name(&self, name: &str) -> bool {
        has_key(self.nodes, self.variable, name)
    }
}

/// Whether a select on a variable has a variant with this key.
fn has_key(nodes: &[Node<'_, '_>], variable: &str, key: &str) -> bool
    ensures { result ≡ u.has_key (map node_view nodes.now) variable.now key.now }
{
    for node in nodes {
        if node_has_key(*node, variable, key) {
            return true;
        }
    }
    false
}

fn node_has_key(node: Node<'_, '_>, variable: &str, key: &str) -> bool
    ensures { result ≡ u.node_has_key variable.now key.now (node_view node.entry) }
{
    match node {
        Node::Select {
            selector: InlineExpression::VariableReference { id },
            variants,
        } => id.name == variable && has_variant(variants, key),
        _ => false,
    }
}

/// Whether one of these variants has this key.
pub fn has_variant(variants: &[Variant<&str>], key: &str) -> bool
    ensures { result ≡ list_any (u.is_key key.now) (variant_keys (variants_of variants.now)) }
{
    for variant in variants {
        if key_text(&variant.key) == key {
            return true;
        }
    }
    false
}
