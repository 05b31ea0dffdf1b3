//! Selects by a message's attribute: a tree that holds one has no value without a version.

ghost use Rattle.std.specs.Prelude.{◌≡◌};
ghost use Rattle.fluent_json_write.specs.Parts.{plain};
ghost use Rattle.fluent_json_write.specs.Selectors as tree;
ghost use Rattle.fluent_json.specs.Selects.{is_attribute, in_pattern, in_element, in_expression, in_inline, in_variant, in_arguments, in_maybe_arguments, in_named, in_attribute, in_value, in_entry, in_elements, in_variants, in_positional, in_nameds, in_attributes, in_entries};

use fluent_ast::{
    Attribute, CallArguments, Entry, Expression, InlineExpression, NamedArgument, Pattern,
    PatternElement, Resource, Variant,
};

/// Whether a select of a tree is by a message's attribute, at any depth.
pub fn selects_by_attribute(resource: &Resource<String>) -> bool
    ensures { result ≡ tree.selects_by_attribute (plain resource.now) }
{
    any_entry(&resource.body)
}

fn any_entry(entries: &[Entry<String>]) -> bool
    ensures { result ≡ in_entries entries.now }
{
    let mut found = false;
    for entry in entries {
        found |= entry_holds(entry);
    }
    found
}

fn entry_holds(entry: &Entry<String>) -> bool
    ensures { result ≡ in_entry entry.now }
{
    match entry {
        Entry::Message(message) => {
            value_holds(&message.value) || any_attribute(&message.attributes)
        }
        Entry::Term(term) => pattern_holds(&term.value) || any_attribute(&term.attributes),
        _ => false,
    }
}

fn value_holds(value: &Option<Pattern<String>>) -> bool
    ensures { result ≡ in_value value.now }
{
    match value {
        Some(pattern) => pattern_holds(pattern),
        None => false,
    }
}

fn any_attribute(attributes: &[Attribute<String>]) -> bool
    ensures { result ≡ in_attributes attributes.now }
{
    let mut found = false;
    for attribute in attributes {
        found |= pattern_holds(&attribute.value);
    }
    found
}

#[cycle(selects)]
fn pattern_holds(pattern: &Pattern<String>) -> bool
    ensures { result ≡ in_pattern pattern.now }
{
    any_element(&pattern.elements)
}

#[cycle(selects)]
fn any_element(elements: &[PatternElement<String>]) -> bool
    ensures { result ≡ in_elements elements.now }
{
    let mut found = false;
    for element in elements {
        found |= element_holds(element);
    }
    found
}

#[cycle(selects)]
fn element_holds(element: &PatternElement<String>) -> bool
    ensures { result ≡ in_element element.now }
{
    match element {
        PatternElement::TextElement { value: _ } => false,
        PatternElement::Placeable { expression } => expression_holds(expression),
    }
}

#[cycle(selects)]
fn expression_holds(expression: &Expression<String>) -> bool
    ensures { result ≡ in_expression expression.now }
{
    match expression {
        Expression::Select { selector, variants } => {
            is_message_attribute(selector) || inline_holds(selector) || any_variant(variants)
        }
        Expression::Inline(inline) => inline_holds(inline),
    }
}

fn is_message_attribute(inline: &InlineExpression<String>) -> bool
    ensures { result ≡ is_attribute inline.now }
{
    match inline {
        InlineExpression::MessageReference {
            id: _,
            attribute: Some(_),
        } => true,
        _ => false,
    }
}

#[cycle(selects)]
fn any_variant(variants: &[Variant<String>]) -> bool
    ensures { result ≡ in_variants variants.now }
{
    let mut found = false;
    for variant in variants {
        found |= variant_holds(variant);
    }
    found
}

#[cycle(selects)]
fn variant_holds(variant: &Variant<String>) -> bool
    ensures { result ≡ in_variant variant.now }
{
    pattern_holds(&variant.value)
}

#[cycle(selects)]
fn inline_holds(inline: &InlineExpression<String>) -> bool
    ensures { result ≡ in_inline inline.now }
{
    match inline {
        InlineExpression::FunctionReference { id: _, arguments } => arguments_hold(arguments),
        InlineExpression::TermReference {
            id: _,
            attribute: _,
            arguments,
        } => maybe_arguments_hold(arguments),
        InlineExpression::Placeable { expression } => expression_holds(expression),
        _ => false,
    }
}

#[cycle(selects)]
fn maybe_arguments_hold(arguments: &Option<CallArguments<String>>) -> bool
    ensures { result ≡ in_maybe_arguments arguments.now }
{
    match arguments {
        Some(arguments) => arguments_hold(arguments),
        None => false,
    }
}

#[cycle(selects)]
fn arguments_hold(arguments: &CallArguments<String>) -> bool
    ensures { result ≡ in_arguments arguments.now }
{
    any_positional(&arguments.positional) || any_named(&arguments.named)
}

#[cycle(selects)]
fn any_positional(arguments: &[InlineExpression<String>]) -> bool
    ensures { result ≡ in_positional arguments.now }
{
    let mut found = false;
    for argument in arguments {
        found |= inline_holds(argument);
    }
    found
}

#[cycle(selects)]
fn any_named(arguments: &[NamedArgument<String>]) -> bool
    ensures { result ≡ in_nameds arguments.now }
{
    let mut found = false;
    for argument in arguments {
        found |= inline_holds(&argument.value);
    }
    found
}
