//! Messages, as they are returned.

ghost use Rattle.std.specs.Prelude.{◌≡◌, option_map, option_copied, map};
ghost use Rattle.fluent_ast.specs.View.{message_view, pattern_view};
ghost use Rattle.fluent_ids.specs.AttributeView.{attribute_of};
ghost use Rattle.fluent_ids.specs.AttributesLeft.{attributes_left};
ghost use Rattle.fluent_ids.specs.MessageView.{message_of};
ghost use Rattle.fluent_ids.specs.Attributes.{first_named};

use crate::attribute::{Attributes, FluentAttribute};
use fluent_ast::{Message, Pattern};

/// A message. Two are equal if their ids, values, attributes and comments are.
///
/// ```
/// let message = bundle.get_message("intro").context("no such message")?;
/// let pattern = message.value().context("the message has no value")?;
/// ```
#[derive(Debug, PartialEq, Eq, Drop)]
pub struct FluentMessage<'m, 's> {
    node: &'m Message<&'s str>,
}

impl<'m, 's> FluentMessage<'m, 's> {
    /// The value, which a message of attributes alone doesn't have.
    pub fn value(&self) -> Option<&'m Pattern<&'s str>>
        ensures { option_map (pattern_view _ (λ s. s.now)) (option_copied result)
            ≡ (message_of self.now).value }
    {
        self.node.value.as_ref()
    }

    /// The attributes, in their order.
    pub fn attributes(&self) -> Attributes<'m, 's>
        ensures { attributes_left result ≡ (message_of self.now).attributes }
    {
        Attributes::new(&self.node.attributes)
    }

    /// The first attribute of this name.
    ///
    /// ```
    /// let title = message.get_attribute("title").context("no such attribute")?;
    /// let pattern = title.value();
    /// ```
    pub fn get_attribute(&self, name: &str) -> Option<FluentAttribute<'m, 's>>
        ensures { option_map attribute_of result ≡ first_named name.now
            (message_of self.now).attributes }
    {
        for node in &self.node.attributes {
            if node.id.name == name {
                return Some(FluentAttribute::from(node));
            }
        }
        None
    }
}

impl<'m, 's> From<&'m Message<&'s str>> for FluentMessage<'m, 's> {
    ghost from_gives = { λ node made. message_of made ≡ message_view _ (λ s. s.now) node.now };

    fn from(node: &'m Message<&'s str>) -> Self {
        FluentMessage { node }
    }
}
