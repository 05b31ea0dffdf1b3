//! Attributes, as a message hands them out.

ghost use Rattle.std.specs.Prelude.{◌≡◌, length, map};
ghost use Rattle.std.specs.Iterator.{YieldsFirstBy, item_count};
ghost use Rattle.fluent_ast.specs.View.{attribute_view, pattern_view};
ghost use Rattle.fluent_ids.specs.AttributeView.{attribute_of};
ghost use Rattle.fluent_ids.specs.AttributesLeft.{attributes_left};

use fluent_ast::{Attribute, Pattern};
use std::slice;

/// An attribute of a message. Two are equal if their ids and values are.
///
/// ```
/// let message = bundle.get_message("checkout").context("no such message")?;
/// let title = message.get_attribute("title").context("no such attribute")?;
/// let pattern = title.value();
/// ```
#[derive(Debug, PartialEq, Eq, Drop)]
pub struct FluentAttribute<'m, 's> {
    node: &'m Attribute<&'s str>,
}

impl<'m, 's> FluentAttribute<'m, 's> {
    /// The name.
    pub fn id(&self) -> &'s str
        ensures { result.now ≡ (attribute_of self.now).id }
    {
        let node = self.node;
        node.id.name
    }

    /// The pattern.
    pub fn value(&self) -> &'m Pattern<&'s str>
        ensures { pattern_view _ (λ s. s.now) result.now ≡ (attribute_of self.now).value }
    {
        &self.node.value
    }
}

impl<'m, 's> From<&'m Attribute<&'s str>> for FluentAttribute<'m, 's> {
    ghost from_gives = { λ node made. attribute_of made ≡ attribute_view _ (λ s. s.now) node.now };

    fn from(node: &'m Attribute<&'s str>) -> Self {
        FluentAttribute { node }
    }
}

/// The attributes of a message, in their order.
///
/// ```no_run
/// for attribute in message.attributes() {
///     println!(rt; ".{}", attribute.id())?; // .title
/// }
/// ```
#[derive(Drop)]
pub struct Attributes<'m, 's> {
    left: slice::Iter<'m, Attribute<&'s str>>,
}

impl<'m, 's> Attributes<'m, 's> {
    pub(crate) fn new(attributes: &'m [Attribute<&'s str>]) -> Self
        ensures { attributes_left result ≡ map (attribute_view _ (λ s. s.now)) attributes.now }
    {
        Attributes {
            left: attributes.iter(),
        }
    }
}

impl<'m, 's> Iterator for Attributes<'m, 's> {
    type Item = FluentAttribute<'m, 's>;

    ghost next_gives = { YieldsFirstBy attribute_of attributes_left };

    ghost remaining = { item_count attributes_left };

    fn next(&mut self) -> Option<FluentAttribute<'m, 's>> {
        let node = self.left.next()?;
        Some(FluentAttribute { node })
    }
}
