//! Where differences are in a message.
#![tactic(auto)]

ghost use Rattle.std.specs.Prelude.{◌≡◌, [], IfOk, OnOk, map, option_map};
ghost use Rattle.fluent_ast.specs.Borrowed.{attributes_of, elements_of, message_of};
ghost use Rattle.lint_comparison.specs.HasPlaces.{GetsOccurrences, GetsPatternPlaces, GetsPlaces, GetsVariables, HasPlacesOf, IsPlaceOf, variable_at};
ghost use Rattle.lint_comparison.specs.InCode.{LeavesOfValue};
ghost use Rattle.lint_findings.specs.DifferenceView.{difference_view};
ghost use Rattle.lint_entries.specs.AttributePlaces.{AreAttributes, IsEntryAt, places_of_attributes, value_elements};
ghost use Rattle.lint_findings.specs.Occurrences.{entry_places, pattern_read};
ghost use Rattle.fluent_grammar.specs.Refusal.{got};
ghost use Rattle.fluent_grammar.specs.Tree as t;
ghost use Rattle.lint_nodes.specs.NodeView.{node_view};
ghost use Rattle.lint_nodes.specs.OccurrenceView.{IsPatternAt, occurrence_view};

use crate::first_places::FirstPlaces;
use fluent_ast::{Attribute, InlineExpression, Message, Pattern};
use lint_entries::text::{after_equals, skip_blank_block, skip_spaces};
use lint_findings::Difference;
use lint_nodes::{Node, Occurrence, empty_pattern_rest, pattern_occurrences, skip};
use std::alloc::{AllocError, Global};

/// The first places of the attributes and of the variables of a message.
#[derive(Drop)]
pub struct Places<'s, 't> {
    attributes: FirstPlaces<'s, 't>,
    variables: FirstPlaces<'s, 't>,
    alloc: Global,
}

impl<'s, 't> Places<'s, 't> {
    /// Those of a message. The text is the source from the message on.
    ///
    /// # Errors
    /// [`AllocError`] if memory runs out; nothing is kept.
    pub fn of_message(
        alloc: Global,
        message: &Message<&'s str>,
        text: &'t [u8],
    ) -> Result<Self, AllocError>
        requires { IsEntryAt (t.message (message_of message.now)) text.now }
        ensures { IfOk result (λ places. HasPlacesOf places (entry_places text.now)) }
    {
        let mut places = Places {
            attributes: FirstPlaces::new(alloc),
            variables: FirstPlaces::new(alloc),
            alloc,
        };
        places.add_message(message, text)?;
        Ok(places)
    }

    /// Where a difference is in the message, which the text begins with.
    pub fn place_of(&self, difference: &Difference<'_>, text: &'t [u8]) -> &'t [u8]
        ensures { IsPlaceOf self.now (difference_view difference.now) text.now result.now }
    {
        let place = match *difference {
            Difference::ObsoleteAttribute(name) => self.attributes.get(name),
            Difference::UnknownVariable(name) => self.variables.get(name),
            _ => None,
        };
        place.unwrap_or(text)
    }

    fn add_message(&mut self, message: &Message<&'s str>, text: &'t [u8]) -> Result<(), AllocError>
        requires { IsEntryAt (t.message (message_of message.now)) text.now }
        ensures { OnOk result (GetsPatternPlaces self.old (entry_places text.now) self.new) }
    {
        let rest = self.add_value(&message.value, after_equals(text))?;
        self.add_attributes(&message.attributes, skip_blank_block(rest))
    }

    fn add_value(
        &mut self,
        value: &Option<Pattern<&'s str>>,
        text: &'t [u8],
    ) -> Result<&'t [u8], AllocError>
        requires { IsPatternAt text.now (value_elements (option_map elements_of value.now)) }
        ensures rest { IfOk result (λ rest. LeavesOfValue value.now text.now rest.now) }
        ensures added { OnOk result (GetsVariables self.old text.now self.new) }
    {
        match value {
            Some(pattern) => self.add_pattern(pattern, text),
            None => Ok(empty_pattern_rest(text)),
        }
    }

    fn add_attributes(
        &mut self,
        attributes: &[Attribute<&'s str>],
        text: &'t [u8],
    ) -> Result<(), AllocError>
        requires { AreAttributes (attributes_of attributes.now) text.now }
        ensures { OnOk result (GetsPatternPlaces self.old
            (places_of_attributes (attributes_of attributes.now) text.now) self.new) }
    {
        let mut rest = text;
        for attribute in attributes {
            let at = skip_spaces(rest);
            self.attributes.add(attribute.id.name, at)?;
            rest = self.add_pattern(&attribute.value, after_equals(skip(at, 1)))?;
        }
        Ok(())
    }

    fn add_pattern(
        &mut self,
        pattern: &Pattern<&'s str>,
        text: &'t [u8],
    ) -> Result<&'t [u8], AllocError>
        requires { IsPatternAt text.now (elements_of pattern.now) }
        ensures rest { IfOk result (λ rest. pattern_read text.now ≡ got (elements_of pattern.now) rest.now) }
        ensures added { OnOk result (GetsVariables self.old text.now self.new) }
    {
        let found = pattern_occurrences(self.alloc, pattern, text)?;
        self.add_occurrences(&found.occurrences)?;
        Ok(found.rest)
    }

    fn add_occurrences(&mut self, occurrences: &[Occurrence<'_, 's, 't>]) -> Result<(), AllocError>
        ensures { OnOk result (GetsOccurrences self.old (map occurrence_view occurrences.now) self.new) }
    {
        for occurrence in occurrences {
            self.add_node(occurrence.node, occurrence.at)?;
        }
        Ok(())
    }

    fn add_node(&mut self, node: Node<'_, 's>, at: &'t [u8]) -> Result<(), AllocError>
        ensures { OnOk result (GetsPlaces self.old [] (variable_at (node_view node.entry) at.now) self.new) }
    {
        match node {
            Node::Expression(InlineExpression::VariableReference { id }) => {
                self.variables.add(id.name, at)
            }
            _ => Ok(()),
        }
    }
}
