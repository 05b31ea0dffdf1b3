//! An object of a tree's JSON value, while it is made.

ghost use Rattle.std.specs.Prelude.{◌≡◌, [], ◌∷◌, IfOk, codes};
ghost use Rattle.serde_json.specs.Data.{object, put, string};
ghost use Rattle.serde_json.specs.View.{view};
ghost use Rattle.fluent_json_write.specs.Objects.{members};

use serde_json::{Map, Value};
use std::alloc::{AllocError, Global};

/// The object of a part of a tree, with those of its keys that it was given so far.
///
/// A value that is given lies in the object at once, so that whoever makes one holds nothing else
/// while it makes the next.
#[derive(Drop)]
pub struct Object {
    alloc: Global,
    members: Map<String, Value>,
}

impl Object {
    ghost use Rattle.fluent_json_write.specs.Given.{given};

    /// An object of this `type`, without other keys.
    ///
    /// # Errors
    /// [`AllocError`] if memory runs out; nothing is kept.
    pub fn of_type(alloc: Global, kind: &str) -> Result<Object, AllocError>
        ensures { IfOk result (λ made. given made ≡ members
            ((codes "type", string kind.now) ∷ [])) }
    {
        let object = Object {
            alloc,
            members: Map::new(alloc),
        };
        object.with("type", Value::try_from_str(alloc, kind)?)
    }

    /// The object with this value at a key.
    ///
    /// # Errors
    /// [`AllocError`] if memory runs out; nothing is kept.
    pub fn with(self, key: &str, value: Value) -> Result<Object, AllocError>
        ensures { IfOk result (λ made. given made ≡ put key.now (view value) (given self)) }
    {
        let Object { alloc, mut members } = self;
        serde_json::put(&mut members, alloc, key, value)?;
        Ok(Object { alloc, members })
    }

    /// The value of the object with this value at its last key.
    ///
    /// # Errors
    /// [`AllocError`] if memory runs out; nothing is kept.
    pub fn finish(self, key: &str, value: Value) -> Result<Value, AllocError>
        ensures { IfOk result (λ made. view made ≡ object (put key.now (view value) (given self))) }
    {
        Ok(Value::Object(self.with(key, value)?.members))
    }

    /// The value of the object with this text at its last key.
    ///
    /// # Errors
    /// [`AllocError`] if memory runs out; nothing is kept.
    pub fn finish_text(self, key: &str, text: &str) -> Result<Value, AllocError>
        ensures { IfOk result (λ made. view made
            ≡ object (put key.now (string text.now) (given self))) }
    {
        let value = Value::try_from_str(self.alloc, text)?;
        self.finish(key, value)
    }
}
