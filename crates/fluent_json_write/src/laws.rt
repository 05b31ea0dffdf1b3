//! Laws of JSON values, each the contract of a function that does nothing.

ghost use Rattle.fluent_json_write.specs.Json.{ValueDecides};

/// The JSON value decides the tree: two trees with one value are equal.
pub fn value_decides_tree()
    ensures { ValueDecides }
{}
