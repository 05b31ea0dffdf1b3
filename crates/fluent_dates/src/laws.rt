//! Laws of dates in locales: each function only carries a law, as its contract, and does nothing.
ghost use Rattle.fluent_dates.specs.Laws.{FittingHasFields, NoneIsNearer, SetIsWanted, ShowsItsPatterns, SpellingsShareLocale};

/// Two spellings of one tag, in either case and with `-` or `_`, are of one locale: so a date has
/// one text by both.
pub fn spellings_share_locale()
    ensures { SpellingsShareLocale }
{}

/// Of the patterns of a locale none is nearer to the fields that are wanted than the one that is
/// found.
pub fn none_is_nearer()
    ensures { NoneIsNearer }
{}

/// If a pattern of a locale fits the fields that are wanted, its skeleton has these fields and no
/// others: then no field that was asked for is missing.
pub fn fitting_has_fields()
    ensures { FittingHasFields }
{}

/// Each component that options set is among the fields that are wanted, but the part of the day
/// next to hours of 24: a clock of 24 hours needs none.
pub fn set_components_are_wanted()
    ensures { SetIsWanted }
{}

/// A text shows each field that is in one of the patterns of the locale of which it is made. So if
/// a component was asked for and isn't shown, CLDR has it in none of these patterns.
pub fn patterns_are_shown()
    ensures { ShowsItsPatterns }
{}
