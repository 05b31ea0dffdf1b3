//! Which variables a message shows.
#![tactic(auto)]

ghost use Rattle.std.specs.Prelude.{◌≡◌, ◌||◌};
ghost use Rattle.fluent_ast.specs.Borrowed.{attributes_of, message_of};
ghost use Rattle.lint_comparison.specs.InCode.{attributes_show, value_shows};
ghost use Rattle.lint_findings.specs.Comparison as c;

use fluent_ast::{Attribute, Message, Pattern};
use lint_flaws::pattern_shows;

/// Whether a text of a message shows a variable: in a placeable, or given to a function there.
pub fn message_shows(message: &Message<&str>, name: &str) -> bool
    ensures { result ≡ c.message_shows (message_of message.now) name.now }
{
    value_shows(&message.value, name) || attributes_show(&message.attributes, name)
}

fn value_shows(value: &Option<Pattern<&str>>, name: &str) -> bool
    ensures { result ≡ value_shows value.now name.now }
{
    match value {
        Some(pattern) => pattern_shows(pattern, name),
        None => false,
    }
}

fn attributes_show(attributes: &[Attribute<&str>], name: &str) -> bool
    ensures { result ≡ attributes_show (attributes_of attributes.now) name.now }
{
    for attribute in attributes {
        if pattern_shows(&attribute.value, name) {
            return true;
        }
    }
    false
}
