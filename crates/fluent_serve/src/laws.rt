//! Laws of request lines and answers: each function only carries a law, as its contract.

ghost use Rattle.fluent_serve.specs.RequestLaws.{StreamsJoin, ValuesAreRead};

/// The answers to two streams joined are the answers joined, if the first stream is empty or ends
/// in a line feed.
pub fn streams_join()
    ensures { StreamsJoin }
{}

/// What a line asks for, with values as arguments, is what it asks for with texts, and then a value
/// in the place of each.
pub fn values_are_read<V>()
    ensures { ValuesAreRead V }
{}
