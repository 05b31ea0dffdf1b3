//! Laws of occurrences: each function only carries a law, as its contract.

ghost use Rattle.fluent_symbols.specs.OffsetLaws.{NamesStandThere, OffsetsHoldNames};
ghost use Rattle.fluent_symbols.specs.OrderLaws.{NamesAscend, OccurrencesAreOfTheTree};

/// Each occurrence in a source is at an end of the source that begins with its name. So from its
/// offset on, the source has its name.
pub fn names_stand_at_their_offsets()
    ensures there { NamesStandThere }
    ensures offsets { OffsetsHoldNames }
{}

/// The occurrences in a source, without their places, are the symbols that the messages and terms
/// of its tree define and refer to, in their order.
pub fn occurrences_are_of_the_tree()
    ensures { OccurrencesAreOfTheTree }
{}

/// Each occurrence in a source begins at or after the end of the name before it. So offsets ascend,
/// and no two names overlap.
pub fn names_ascend()
    ensures { NamesAscend }
{}
