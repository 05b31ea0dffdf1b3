//! Whether two messages have the same text.
#![tactic(auto)]

ghost use Rattle.std.specs.Prelude.{◌≡◌, option_map};
ghost use Rattle.fluent_ast.specs.Borrowed.{attributes_of, elements_of, message_of};
ghost use Rattle.lint_comparison.specs.InCode.{same_attribute};
ghost use Rattle.lint_findings.specs.Comparison as c;
ghost use Rattle.fluent_meaning.specs.Same.{same_elements};
ghost use Rattle.fluent_value.specs.Matching.{same_option};

use fluent_ast::laws::equal_nodes;
use fluent_ast::{Attribute, Message, Pattern};

/// Whether two messages have the same value and attributes.
pub fn is_same_message<'s>(message: &Message<&'s str>, other: &Message<&'s str>) -> bool
    ensures { result ≡ c.same_message (message_of message.now) (message_of other.now) }
{
    is_same_value(&message.value, &other.value)
        && are_same_attributes(&message.attributes, &other.attributes)
}

fn is_same_value<'s>(value: &Option<Pattern<&'s str>>, other: &Option<Pattern<&'s str>>) -> bool
    ensures { result ≡ same_option same_elements (option_map elements_of value.now)
        (option_map elements_of other.now) }
{
    match (value, other) {
        (None, None) => true,
        (Some(value), Some(other)) => is_same_pattern(value, other),
        (None, Some(_)) => false,
        (Some(_), None) => false,
    }
}

fn are_same_attributes<'s>(attributes: &[Attribute<&'s str>], others: &[Attribute<&'s str>]) -> bool
    ensures { result ≡ c.same_attributes (attributes_of attributes.now) (attributes_of others.now) }
{
    if attributes.len() != others.len() {
        return false;
    }
    for (index, attribute) in attributes.iter().enumerate() {
        if !is_same_attribute(attribute, &others[index]) {
            return false;
        }
    }
    true
}

fn is_same_attribute<'s>(attribute: &Attribute<&'s str>, other: &Attribute<&'s str>) -> bool
    ensures { result ≡ same_attribute attribute.now other.now }
{
    other.id.name == attribute.id.name && is_same_pattern(&attribute.value, &other.value)
}

/// Whether two patterns are the same.
pub fn is_same_pattern<'s>(pattern: &Pattern<&'s str>, other: &Pattern<&'s str>) -> bool
    ensures { result ≡ same_elements (elements_of pattern.now) (elements_of other.now) }
{
    equal_nodes::<&'s str>();
    *pattern == *other
}
