//! Sets of places, a bit for each.
ghost use Rattle.std.specs.Prelude.{◌≡◌, ◌<◌};
ghost use Rattle.fluent_dates.specs.Patterns.{has_any, kept, last_place, later, of_places};

use crate::fields::{Field, Fields, NONE};

/// A field, if its place is the first of these places.
fn kept(places: u16, field: Field) -> Field
    ensures { result ≡ kept places field }
{
    if places % 2 == 1 { field } else { NONE }
}

/// The fields of these places: a bit for each.
pub(crate) fn of_places(fields: &Fields, places: u16) -> Fields
    ensures { result ≡ of_places fields.now places }
{
    let mut out = [NONE; 11];
    let mut rest = places;
    for place in 0..11 {
        out[place] = kept(rest, fields[place]);
        rest /= 2;
    }
    out
}

/// This place, if it is the first of some places and not of others, and otherwise the last until
/// now.
fn later(places: u16, others: u16, place: usize, last: usize) -> usize
    requires { (place < 11) × (last < 11) }
    ensures value { result ≡ later places others place last }
    ensures below { result < 11 }
{
    if places % 2 == 1 && others % 2 == 0 {
        place
    } else {
        last
    }
}

/// The last of some places that others lack; the first if there is none.
#[tactic(auto, using(crate::proofs::PlaceSteps::last_next))]
pub(crate) fn last_place(places: u16, others: u16) -> usize
    ensures value { result ≡ last_place places others }
    ensures below { result < 11 }
{
    let mut places = places;
    let mut others = others;
    let mut last = 0;
    for place in 0..11 {
        last = later(places, others, place, last);
        places /= 2;
        others /= 2;
    }
    last
}

/// Whether there are any fields.
pub(crate) fn has_any(fields: &Fields) -> bool
    ensures { result ≡ has_any fields.now }
{
    for field in fields {
        if field.count > 0 {
            return true;
        }
    }
    false
}
