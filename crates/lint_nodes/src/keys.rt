//! The keys of variants.
#![tactic(auto)]

ghost use Rattle.std.specs.Prelude.{[], IfOk, OnOk};
ghost use Rattle.fluent_ast.specs.Borrowed.{key_of};
ghost use Rattle.lint_nodes.specs.HasKeys.{GetsKey, HasKeys, IsNewKey};

use fluent_ast::VariantKey;
use std::alloc::{AllocError, Global};
use std::collections::BTreeSet;

/// A set of keys of variants. A number and an identifier are never the same key.
#[derive(Drop)]
pub struct Keys<'s> {
    identifiers: BTreeSet<&'s str>,
    numbers: BTreeSet<&'s str>,
}

impl<'s> Keys<'s> {
    /// No keys.
    pub fn new(alloc: Global) -> Self
        ensures { HasKeys result [] }
    {
        Keys {
            identifiers: BTreeSet::new(alloc),
            numbers: BTreeSet::new(alloc),
        }
    }

    /// Adds a key. Returns whether it is new.
    ///
    /// # Errors
    /// [`AllocError`] if memory runs out; the keys are unchanged.
    pub fn insert(&mut self, key: &VariantKey<&'s str>) -> Result<bool, AllocError>
        ensures is_new { IfOk result (IsNewKey self.old (key_of key.now)) }
        ensures added { OnOk result (GetsKey self.old (key_of key.now) self.new) }
    {
        match key {
            VariantKey::Identifier { name } => Ok(self.identifiers.insert(*name)?),
            VariantKey::NumberLiteral { value } => Ok(self.numbers.insert(*value)?),
        }
    }
}
