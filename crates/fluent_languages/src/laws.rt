//! The laws of negotiation.
ghost use Rattle.fluent_languages.specs.Laws.{FindsEachOnce, LookupIsTheFirst, NoTagIsPassedOver};

/// The positions that [`negotiate`](crate::negotiate) finds are those of languages of the program,
/// and none is there twice.
pub fn finds_each_once()
    ensures { FindsEachOnce }
{}

/// What `Lookup` finds is the first that `Filtering` finds.
pub fn lookup_is_the_first()
    ensures { LookupIsTheFirst }
{}

/// A request that is no tag changes nothing.
pub fn no_tag_is_passed_over()
    ensures { NoTagIsPassedOver }
{}
