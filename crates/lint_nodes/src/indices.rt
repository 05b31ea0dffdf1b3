//! Where patterns are in a list, by the names of a reference to them.
#![tactic(auto)]

ghost use Rattle.std.specs.Prelude.{◌≡◌, Bool, IfOk, None, Option};
ghost use Rattle.fluent_grammar.specs.Words.{Text};
ghost use Rattle.fluent_ast.specs.Borrowed.{inline_of};
ghost use Rattle.lint_nodes.specs.IndicesView.{GetsIndex, attribute_text, index_of, index_or};
ghost use Rattle.lint_nodes.specs.ReferenceGraph.{node_index, reference_index};
ghost use Rattle.lint_nodes.specs.NodeView.{node_view};

use crate::names::name_of;
use crate::nodes::Node;
use fluent_ast::InlineExpression;
use std::alloc::{AllocError, Global};
use std::collections::HashMap;

/// Indices in a list: by whether a term is named or a message, by its id, and by the name of its
/// attribute if it is one's.
#[derive(Drop)]
pub struct Indices<'s> {
    by_name: HashMap<(bool, &'s str, Option<&'s str>), usize>,
}

impl<'s> Indices<'s> {
    /// No indices. It doesn't allocate.
    pub fn new(alloc: Global) -> Self
        ensures { (is_term : Bool) → (id : Text) → (attribute : Option Text) →
            index_of result is_term id attribute ≡ None }
    {
        Indices {
            by_name: HashMap::new(alloc),
        }
    }

    /// The index of these names, if there is one.
    pub fn get(&self, is_term: bool, id: &str, attribute: Option<&str>) -> Option<usize>
        ensures { result ≡ index_of self.now is_term id.now (attribute_text attribute.entry) }
    {
        self.by_name.get(&(is_term, id, attribute)).copied()
    }

    /// The index of the pattern that a reference enters, if there is one.
    pub fn of_reference(&self, reference: &InlineExpression<&str>) -> Option<usize>
        ensures { result ≡ reference_index self.now (inline_of reference.now) }
    {
        match reference {
            InlineExpression::MessageReference { id, attribute } => {
                self.get(false, id.name, name_of(attribute))
            }
            InlineExpression::TermReference { id, attribute, .. } => {
                self.get(true, id.name, name_of(attribute))
            }
            _ => None,
        }
    }

    /// The index of the pattern that a node enters, if it is a reference to one.
    pub fn of_node(&self, node: Node<'_, '_>) -> Option<usize>
        ensures { result ≡ node_index self.now (node_view node.entry) }
    {
        match node {
            Node::Expression(reference) => self.of_reference(reference),
            _ => None,
        }
    }

    /// Puts an index under these names, unless one is there. Returns the one that is there then.
    ///
    /// # Errors
    /// [`AllocError`] if memory runs out; nothing is put there.
    pub fn get_or_insert(
        &mut self,
        is_term: bool,
        id: &'s str,
        attribute: Option<&'s str>,
        index: usize,
    ) -> Result<usize, AllocError>
        ensures found { IfOk result (λ found. found
            ≡ index_or self.old is_term id.now (attribute_text attribute.entry) index) }
        ensures put { IfOk result (λ found. GetsIndex self.old self.new is_term id.now
            (attribute_text attribute.entry) found) }
    {
        let names = (is_term, id, attribute);
        let found = self.by_name.entry(names)?.or_insert(index);
        Ok(*found)
    }
}
