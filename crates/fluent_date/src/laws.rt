//! Laws of dates and times: each function only carries a law, as its contract, and does nothing.
ghost use Rattle.fluent_date.specs.Laws.{EqualIfSame, IsEarlierDate, IsEarlierTime, OrdersBy, ReadsItsText};

use crate::{CivilDate, FluentDateTime, FluentDateTimeOptions, Offset, TimeOfDay};

/// A value whose parts constructors made is read as itself from its text, if its year isn't
/// negative: a year that is read has four digits and no sign. Options aren't written, and neither
/// is the offset of a day as such.
pub fn reads_its_text()
    ensures { ReadsItsText }
{}

/// Of two dates, and of two times of day, the earlier is less, and those that are equal are the
/// same.
pub fn earlier_is_less()
    ensures dates { OrdersBy ⟦<CivilDate as Ord>⟧.cmp IsEarlierDate }
    ensures times { OrdersBy ⟦<TimeOfDay as Ord>⟧.cmp IsEarlierTime }
{}

/// Dates, times of day, offsets, options and values are equal exactly if they are the same.
pub fn equal_values_are_the_same()
    ensures dates { EqualIfSame ⟦<CivilDate as PartialEq>⟧.eq }
    ensures times { EqualIfSame ⟦<TimeOfDay as PartialEq>⟧.eq }
    ensures offsets { EqualIfSame ⟦<Offset as PartialEq>⟧.eq }
    ensures options { EqualIfSame ⟦<FluentDateTimeOptions as PartialEq>⟧.eq }
    ensures values { EqualIfSame ⟦<FluentDateTime as PartialEq>⟧.eq }
{}
