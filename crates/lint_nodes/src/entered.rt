//! The patterns of a catalog that references enter.
#![tactic(auto)]

ghost use Rattle.std.specs.Prelude.{◌≡◌, [], ◌∷◌, IfOk, OnOk, false};
ghost use Rattle.fluent_ast.specs.Borrowed.{attributes_of, entries_of};
ghost use Rattle.lint_nodes.specs.Catalog.{ids_of_trees};
ghost use Rattle.lint_nodes.specs.Holding.{GetsEntryOf, GetsIds, GetsPatternOf, HasPatternsOf, IsListed, declared_ids, has_first};
ghost use Rattle.fluent_ids.specs.IdsView.{ids_view};

use crate::indices::Indices;
use crate::names::declared_id;
use fluent_ast::{Attribute, Pattern, Resource};
use fluent_ids::Entry;
use lint_findings::CatalogIds;
use std::alloc::{AllocError, Global};

/// A pattern that references enter.
#[derive(Clone, Copy)]
pub struct EnteredPattern<'r, 's> {
    pub pattern: &'r Pattern<&'s str>,
}

/// The patterns of a catalog that references enter, each once, and the index of each.
///
/// ```no_run
/// let mut entered = EnteredPatterns::new(alloc, &ids);
/// entered.add_resource(&ids, &resource)?;
/// if let Some(index) = entered.indices.get(true, "brand", None) {
///     let pattern = entered.patterns[index].pattern; // the value of the term `-brand`
/// }
/// ```
#[derive(Drop)]
pub struct EnteredPatterns<'r, 's> {
    /// The index of each in the list, by the names of the references that enter it.
    pub indices: Indices<'s>,
    /// The list.
    pub patterns: Vec<EnteredPattern<'r, 's>>,
}

impl<'r, 's> EnteredPatterns<'r, 's> {
    /// No patterns, of a catalog with these ids. It doesn't allocate.
    pub fn new(alloc: Global, ids: &CatalogIds<'r, 's>) -> Self
        ensures { HasPatternsOf (ids_view _ ids.now) result [] }
    {
        EnteredPatterns {
            indices: Indices::new(alloc),
            patterns: Vec::new(alloc),
        }
    }

    /// The patterns of a catalog with these ids that references to the ids of trees enter.
    ///
    /// # Errors
    /// [`AllocError`] if memory runs out; nothing is kept.
    pub fn of(
        alloc: Global,
        ids: &CatalogIds<'r, 's>,
        trees: &[Resource<&'s str>],
    ) -> Result<Self, AllocError>
        ensures { IfOk result (λ entered.
            HasPatternsOf (ids_view _ ids.now) entered (ids_of_trees trees.now)) }
    {
        let mut entered = EnteredPatterns::new(alloc, ids);
        for tree in trees {
            entered.add_resource(ids, tree)?;
        }
        Ok(entered)
    }

    /// Adds those that references to the ids of a resource enter, in a catalog with these ids. So
    /// all are there once each resource of the catalog was added, in any order.
    ///
    /// # Errors
    /// [`AllocError`] if memory runs out; some may be added then.
    pub fn add_resource(
        &mut self,
        ids: &CatalogIds<'r, 's>,
        resource: &Resource<&'s str>,
    ) -> Result<(), AllocError>
        ensures { OnOk result (GetsIds (ids_view _ ids.now) self.old self.new
            (declared_ids (entries_of resource.now))) }
    {
        for entry in &resource.body {
            if let Some(id) = declared_id(entry) {
                self.add(ids, id)?;
            }
        }
        Ok(())
    }

    /// Adds those that references to an id enter.
    fn add(&mut self, ids: &CatalogIds<'r, 's>, id: &'s str) -> Result<(), AllocError>
        ensures { OnOk result (GetsIds (ids_view _ ids.now) self.old self.new (id.now ∷ [])) }
    {
        match ids.get(id) {
            Some(Entry::Message((_, message))) => {
                self.add_entry(false, id, message.value.as_ref(), &message.attributes)
            }
            Some(Entry::Term((_, term))) => {
                self.add_entry(true, id, Some(&term.value), &term.attributes)
            }
            Some(Entry::Function(_)) => Ok(()),
            Some(Entry::Number) => Ok(()),
            None => Ok(()),
        }
    }

    /// Adds the patterns of an entry with this value and these attributes, unless its first one is
    /// there: then the others are, too.
    fn add_entry(
        &mut self,
        is_term: bool,
        id: &'s str,
        value: Option<&'r Pattern<&'s str>>,
        attributes: &'r [Attribute<&'s str>],
    ) -> Result<(), AllocError>
        ensures { OnOk result (GetsEntryOf self.old self.new is_term id.now value.entry attributes.now) }
    {
        let is_listed = match value {
            Some(value) => !self.add_pattern(is_term, id, None, value)?,
            None => self.has_first(is_term, id, attributes),
        };
        if is_listed {
            return Ok(());
        }
        for attribute in attributes {
            self.add_pattern(is_term, id, Some(attribute.id.name), &attribute.value)?;
        }
        Ok(())
    }

    /// Whether the first of the attributes of an entry is there.
    fn has_first(&self, is_term: bool, id: &str, attributes: &[Attribute<&str>]) -> bool
        ensures { result ≡ has_first self.now is_term id.now (attributes_of attributes.now) }
    {
        match attributes {
            [first, ..] => self.indices.get(is_term, id, Some(first.id.name)).is_some(),
            [] => false,
        }
    }

    /// Adds a pattern, if its names are new. Returns whether they are.
    fn add_pattern(
        &mut self,
        is_term: bool,
        id: &'s str,
        attribute: Option<&'s str>,
        pattern: &'r Pattern<&'s str>,
    ) -> Result<bool, AllocError>
        ensures pattern { OnOk result (GetsPatternOf self.old self.new is_term id.now attribute.entry pattern.now) }
        ensures listed { IfOk result (λ is_new. is_new ≡ false → IsListed self.old is_term id.now) }
    {
        let index = self.patterns.len();
        let found = self.indices.get_or_insert(is_term, id, attribute, index)?;
        if found == index {
            self.patterns.push(EnteredPattern { pattern })?;
            Ok(true)
        } else {
            Ok(false)
        }
    }
}
