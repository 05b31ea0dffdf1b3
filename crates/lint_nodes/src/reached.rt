//! The messages and variables that references reach.
#![tactic(auto)]

ghost use Rattle.std.specs.Prelude.{[], OnOk, option_map};
ghost use Rattle.fluent_ast.specs.Borrowed.{attributes_of, elements_of, message_of};
ghost use Rattle.lint_nodes.specs.HasReached.{GetsReferences, HasReached, attribute_references, message_references, node_references, value_references};
ghost use Rattle.lint_findings.specs.Comparison.{references_of};
ghost use Rattle.lint_findings.specs.References.{elements_references};
ghost use Rattle.fluent_ids.specs.IdsView.{ids_view};
ghost use Rattle.fluent_meaning.specs.Ids.{find};
ghost use Rattle.lint_nodes.specs.NodeView.{node_view};

use crate::name_set::Names;
use crate::nodes::{Node, pattern_nodes};
use fluent_ast::{Attribute, InlineExpression, Message, Pattern};
use fluent_ids::{FluentIds, GetEntry};
use std::alloc::{AllocError, Global};

/// The messages and variables that references name.
#[derive(Drop)]
pub struct Reached<'s> {
    pub messages: Names<'s>,
    pub variables: Names<'s>,
    alloc: Global,
}

impl<'s> Reached<'s> {
    /// No messages and no variables. It doesn't allocate.
    pub fn new(alloc: Global) -> Self
        ensures { HasReached result [] [] }
    {
        Reached {
            messages: Names::new(alloc),
            variables: Names::new(alloc),
            alloc,
        }
    }

    /// Adds what the message of an id refers to, if the id stands for one.
    ///
    /// # Errors
    /// [`AllocError`] if memory runs out; some may be added then.
    pub fn add_referred<'r: 's, F>(
        &mut self,
        ids: &FluentIds<'_, 'r, F>,
        id: &str,
    ) -> Result<(), AllocError>
        ensures { OnOk result
            (GetsReferences self.old (references_of (find (ids_view F ids.now) id.now)) self.new) }
    {
        match ids.get_entry_message(id) {
            Some(message) => self.add_message(message),
            None => Ok(()),
        }
    }

    /// Adds what a message refers to.
    ///
    /// # Errors
    /// [`AllocError`] if memory runs out; some may be added then.
    pub fn add_message<'r: 's>(&mut self, message: &Message<&'r str>) -> Result<(), AllocError>
        ensures { OnOk result
            (GetsReferences self.old (message_references (message_of message.now)) self.new) }
    {
        self.add_value(&message.value)?;
        self.add_attributes(&message.attributes)
    }

    fn add_value<'r: 's>(&mut self, value: &Option<Pattern<&'r str>>) -> Result<(), AllocError>
        ensures { OnOk result
            (GetsReferences self.old (value_references (option_map elements_of value.now)) self.new) }
    {
        match value {
            Some(pattern) => self.add_pattern(pattern),
            None => Ok(()),
        }
    }

    fn add_attributes<'r: 's>(
        &mut self,
        attributes: &[Attribute<&'r str>],
    ) -> Result<(), AllocError>
        ensures { OnOk result
            (GetsReferences self.old (attribute_references (attributes_of attributes.now)) self.new) }
    {
        for attribute in attributes {
            self.add_pattern(&attribute.value)?;
        }
        Ok(())
    }

    fn add_pattern<'r: 's>(&mut self, pattern: &Pattern<&'r str>) -> Result<(), AllocError>
        ensures { OnOk result
            (GetsReferences self.old (elements_references (elements_of pattern.now)) self.new) }
    {
        let nodes = pattern_nodes(self.alloc, pattern)?;
        for node in &nodes {
            self.add_node(*node)?;
        }
        Ok(())
    }

    fn add_node<'r: 's>(&mut self, node: Node<'_, 'r>) -> Result<(), AllocError>
        ensures { OnOk result
            (GetsReferences self.old (node_references (node_view node.entry)) self.new) }
    {
        match node {
            Node::Expression(InlineExpression::MessageReference { id, .. }) => {
                self.messages.add(id.name)
            }
            Node::Expression(InlineExpression::VariableReference { id }) => {
                self.variables.add(id.name)
            }
            _ => Ok(()),
        }
    }
}
