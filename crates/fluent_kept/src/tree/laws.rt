//! Laws of trees in JSON texts, each the contract of a function that does nothing.

ghost use Rattle.fluent_kept.specs.GivenTrees.{TextDecides, WritingDecides};

/// A JSON text is of one tree at most.
pub fn text_decides_tree()
    ensures { TextDecides }
{}

/// One text at most is written of a JSON text, with junk or without.
pub fn text_decides_writing()
    ensures { WritingDecides }
{}
