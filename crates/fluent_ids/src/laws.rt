//! Laws between what is looked up in an environment and what a pattern gives: each function only
//! carries a law, as its contract.

ghost use Rattle.fluent_ids.specs.Laws.{AttributesAgree};

/// The value of the first attribute of a name, as a message gives it, is the one that a reference
/// means.
pub fn attributes_agree()
    ensures { AttributesAgree }
{}
