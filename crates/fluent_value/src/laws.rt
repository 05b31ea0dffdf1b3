//! Laws of values: each function only carries a law, as its contract.

ghost use Rattle.std.specs.Prelude.{pos};
ghost use Rattle.std.specs.Bool.{Decides};
ghost use Rattle.fluent_value.specs.Integers.{GivesInteger};
ghost use Rattle.fluent_value.specs.Laws.{TellsAlike, TellsCopies, LastValueStands, OtherValuesStay, NamesStayAscending};
ghost use Rattle.fluent_value.specs.Matching.{Plurals, matches, Matches};
ghost use Rattle.fluent_value.specs.Value.{Value};

use crate::{FluentType, FluentValue};
use fluent_number::laws as number_laws;

/// Texts are equal if they are the same, numbers if value and options are, values of a program's
/// own type by its own test. Nothing else is equal.
pub fn equal_values<'a, C: FluentType>()
    ensures { TellsAlike C.meaning C.same ⟦<FluentValue<'a, C> as PartialEq>⟧.eq }
{
    number_laws::equal_values_look_the_same();
}

/// Values that stand for the same are equal, but `None` and `Error`: so a copy equals what it
/// copies.
pub fn copies_are_equal<'a, C: FluentType>()
    ensures { TellsCopies C.meaning ⟦<FluentValue<'a, C> as PartialEq>⟧.eq }
{
    equal_values::<C>();
}

/// Arguments are a map: the last value of a name stands, those of other names stay, and names stay
/// in the order of their bytes, each once.
pub fn arguments_are_a_map<C: FluentType>()
    ensures last { LastValueStands C.Meaning }
    ensures others { OtherValuesStay C.Meaning }
    ensures ascending { NamesStayAscending C.Meaning }
{}

/// A key matches a value exactly if both are the same text or the same number, value and options,
/// or if the key is the text of the number's category.
pub fn matching_decides<C: FluentType>()
    ensures { (plurals : Plurals) (k v : Value C.Meaning)
        → Decides (matches plurals k v) (Matches plurals k v) }
{}

/// A value from an integer, or from a reference to one, is the number that it is, with default
/// options.
pub fn integers_are_numbers<'a, C: FluentType>()
    ensures i8 { GivesInteger C.meaning ⟦<FluentValue<'a, C> as From<i8>>⟧.from_gives (λ n. n) }
    ensures ref_i8 { GivesInteger C.meaning ⟦<FluentValue<'a, C> as From<&'a i8>>⟧.from_gives
        (λ n. n.now) }
    ensures i16 { GivesInteger C.meaning ⟦<FluentValue<'a, C> as From<i16>>⟧.from_gives (λ n. n) }
    ensures ref_i16 { GivesInteger C.meaning ⟦<FluentValue<'a, C> as From<&'a i16>>⟧.from_gives
        (λ n. n.now) }
    ensures i32 { GivesInteger C.meaning ⟦<FluentValue<'a, C> as From<i32>>⟧.from_gives (λ n. n) }
    ensures ref_i32 { GivesInteger C.meaning ⟦<FluentValue<'a, C> as From<&'a i32>>⟧.from_gives
        (λ n. n.now) }
    ensures i64 { GivesInteger C.meaning ⟦<FluentValue<'a, C> as From<i64>>⟧.from_gives (λ n. n) }
    ensures ref_i64 { GivesInteger C.meaning ⟦<FluentValue<'a, C> as From<&'a i64>>⟧.from_gives
        (λ n. n.now) }
    ensures isize { GivesInteger C.meaning ⟦<FluentValue<'a, C> as From<isize>>⟧.from_gives
        (λ n. n) }
    ensures ref_isize { GivesInteger C.meaning ⟦<FluentValue<'a, C> as From<&'a isize>>⟧.from_gives
        (λ n. n.now) }
    ensures u8 { GivesInteger C.meaning ⟦<FluentValue<'a, C> as From<u8>>⟧.from_gives (λ n. pos n) }
    ensures ref_u8 { GivesInteger C.meaning ⟦<FluentValue<'a, C> as From<&'a u8>>⟧.from_gives
        (λ n. pos n.now) }
    ensures u16 { GivesInteger C.meaning ⟦<FluentValue<'a, C> as From<u16>>⟧.from_gives
        (λ n. pos n) }
    ensures ref_u16 { GivesInteger C.meaning ⟦<FluentValue<'a, C> as From<&'a u16>>⟧.from_gives
        (λ n. pos n.now) }
    ensures u32 { GivesInteger C.meaning ⟦<FluentValue<'a, C> as From<u32>>⟧.from_gives
        (λ n. pos n) }
    ensures ref_u32 { GivesInteger C.meaning ⟦<FluentValue<'a, C> as From<&'a u32>>⟧.from_gives
        (λ n. pos n.now) }
    ensures u64 { GivesInteger C.meaning ⟦<FluentValue<'a, C> as From<u64>>⟧.from_gives
        (λ n. pos n) }
    ensures ref_u64 { GivesInteger C.meaning ⟦<FluentValue<'a, C> as From<&'a u64>>⟧.from_gives
        (λ n. pos n.now) }
    ensures usize { GivesInteger C.meaning ⟦<FluentValue<'a, C> as From<usize>>⟧.from_gives
        (λ n. pos n) }
    ensures ref_usize { GivesInteger C.meaning ⟦<FluentValue<'a, C> as From<&'a usize>>⟧.from_gives
        (λ n. pos n.now) }
{}
