//! Laws of numbers: each function only carries a law, as its contract, and does nothing.
ghost use Rattle.std.specs.Prelude.{pos};
ghost use Rattle.fluent_number.specs.Laws.{ReadsWhatIsSpelled, ReadsItsText, ReadsAgain, WritesWhatWasRead, OperandsAgreeWithText, EqualWhereSeenSame, HashesEqualAlike, BecomesNumber, BecomesSigned, BecomesUnsigned};
ghost use Rattle.fluent_number.specs.Number.{number_of};
ghost use Rattle.fluent_number.specs.Options.{options_of};
ghost use Rattle.std.specs.Cmp.{IsEquivalence};

use crate::{
    Decimal, FluentNumber, FluentNumberCurrencyDisplayStyle, FluentNumberOptions,
    FluentNumberStyle, FluentNumberType, PluralCategory, PluralOperands, PluralRuleType,
};
use std::hash::Hash;

/// A text is read as a number exactly if it spells that number.
pub fn reads_what_is_spelled()
    ensures { ReadsWhatIsSpelled }
{}

/// The text of a number is read as that number: of its options the count of digits shown after the
/// point stays, and nothing is read if more than 18 are shown.
pub fn reads_its_text()
    ensures { ReadsItsText }
{}

/// A number that was read from a text is read again from its own text, the same in all its options.
pub fn reads_again()
    ensures { ReadsAgain }
{}

/// The text of a number that was read is the text that was read, but for leading zeros, a plus, a
/// point without digits before it, and the sign of zero.
pub fn writes_what_was_read()
    ensures { WritesWhatWasRead }
{}

/// The plural operands of a number are what the digits of its text say, of which at most 18 after
/// the point count.
pub fn operands_agree_with_text()
    ensures { OperandsAgreeWithText }
{}

/// Each signed integer becomes the number that it is, with default options, by value and by
/// reference.
pub fn signed_integers_become_their_numbers<'a>()
    ensures i8 { BecomesNumber ⟦<FluentNumber as From<i8>>⟧.from_gives (λ n. n) }
    ensures ref_i8 { BecomesNumber ⟦<FluentNumber as From<&'a i8>>⟧.from_gives (λ n. n.now) }
    ensures i16 { BecomesNumber ⟦<FluentNumber as From<i16>>⟧.from_gives (λ n. n) }
    ensures ref_i16 { BecomesNumber ⟦<FluentNumber as From<&'a i16>>⟧.from_gives (λ n. n.now) }
    ensures i32 { BecomesNumber ⟦<FluentNumber as From<i32>>⟧.from_gives (λ n. n) }
    ensures ref_i32 { BecomesNumber ⟦<FluentNumber as From<&'a i32>>⟧.from_gives (λ n. n.now) }
    ensures i64 { BecomesNumber ⟦<FluentNumber as From<i64>>⟧.from_gives (λ n. n) }
    ensures ref_i64 { BecomesNumber ⟦<FluentNumber as From<&'a i64>>⟧.from_gives (λ n. n.now) }
    ensures isize { BecomesNumber ⟦<FluentNumber as From<isize>>⟧.from_gives (λ n. n) }
    ensures ref_isize { BecomesNumber ⟦<FluentNumber as From<&'a isize>>⟧.from_gives (λ n. n.now) }
{}

/// Each unsigned integer becomes the number that it is, with default options, by value and by
/// reference.
pub fn unsigned_integers_become_their_numbers<'a>()
    ensures u8 { BecomesNumber ⟦<FluentNumber as From<u8>>⟧.from_gives (λ n. pos n) }
    ensures ref_u8 { BecomesNumber ⟦<FluentNumber as From<&'a u8>>⟧.from_gives (λ n. pos n.now) }
    ensures u16 { BecomesNumber ⟦<FluentNumber as From<u16>>⟧.from_gives (λ n. pos n) }
    ensures ref_u16 { BecomesNumber ⟦<FluentNumber as From<&'a u16>>⟧.from_gives (λ n. pos n.now) }
    ensures u32 { BecomesNumber ⟦<FluentNumber as From<u32>>⟧.from_gives (λ n. pos n) }
    ensures ref_u32 { BecomesNumber ⟦<FluentNumber as From<&'a u32>>⟧.from_gives (λ n. pos n.now) }
    ensures u64 { BecomesNumber ⟦<FluentNumber as From<u64>>⟧.from_gives (λ n. pos n) }
    ensures ref_u64 { BecomesNumber ⟦<FluentNumber as From<&'a u64>>⟧.from_gives (λ n. pos n.now) }
    ensures usize { BecomesNumber ⟦<FluentNumber as From<usize>>⟧.from_gives (λ n. pos n) }
    ensures ref_usize { BecomesNumber ⟦<FluentNumber as From<&'a usize>>⟧.from_gives
        (λ n. pos n.now) }
{}

/// Each number becomes the integer of a signed type that is nearest to it once what is after its
/// point is dropped, by value and by reference.
pub fn numbers_become_signed_integers<'a>()
    ensures i8 { BecomesSigned 8 ⟦<i8 as From<FluentNumber>>⟧.from_gives (λ n. n.value) }
    ensures ref_i8 { BecomesSigned 8 ⟦<i8 as From<&'a FluentNumber>>⟧.from_gives
        (λ n. n.now.value) }
    ensures i16 { BecomesSigned 16 ⟦<i16 as From<FluentNumber>>⟧.from_gives (λ n. n.value) }
    ensures ref_i16 { BecomesSigned 16 ⟦<i16 as From<&'a FluentNumber>>⟧.from_gives
        (λ n. n.now.value) }
    ensures i32 { BecomesSigned 32 ⟦<i32 as From<FluentNumber>>⟧.from_gives (λ n. n.value) }
    ensures ref_i32 { BecomesSigned 32 ⟦<i32 as From<&'a FluentNumber>>⟧.from_gives
        (λ n. n.now.value) }
    ensures i64 { BecomesSigned 64 ⟦<i64 as From<FluentNumber>>⟧.from_gives (λ n. n.value) }
    ensures ref_i64 { BecomesSigned 64 ⟦<i64 as From<&'a FluentNumber>>⟧.from_gives
        (λ n. n.now.value) }
    ensures i128 { BecomesSigned 128 ⟦<i128 as From<FluentNumber>>⟧.from_gives (λ n. n.value) }
    ensures ref_i128 { BecomesSigned 128 ⟦<i128 as From<&'a FluentNumber>>⟧.from_gives
        (λ n. n.now.value) }
    ensures isize { BecomesSigned 64 ⟦<isize as From<FluentNumber>>⟧.from_gives (λ n. n.value) }
    ensures ref_isize { BecomesSigned 64 ⟦<isize as From<&'a FluentNumber>>⟧.from_gives
        (λ n. n.now.value) }
{}

/// Each number becomes the integer of an unsigned type that is nearest to it once what is after its
/// point is dropped, by value and by reference.
pub fn numbers_become_unsigned_integers<'a>()
    ensures u8 { BecomesUnsigned 8 ⟦<u8 as From<FluentNumber>>⟧.from_gives (λ n. n.value) }
    ensures ref_u8 { BecomesUnsigned 8 ⟦<u8 as From<&'a FluentNumber>>⟧.from_gives
        (λ n. n.now.value) }
    ensures u16 { BecomesUnsigned 16 ⟦<u16 as From<FluentNumber>>⟧.from_gives (λ n. n.value) }
    ensures ref_u16 { BecomesUnsigned 16 ⟦<u16 as From<&'a FluentNumber>>⟧.from_gives
        (λ n. n.now.value) }
    ensures u32 { BecomesUnsigned 32 ⟦<u32 as From<FluentNumber>>⟧.from_gives (λ n. n.value) }
    ensures ref_u32 { BecomesUnsigned 32 ⟦<u32 as From<&'a FluentNumber>>⟧.from_gives
        (λ n. n.now.value) }
    ensures u64 { BecomesUnsigned 64 ⟦<u64 as From<FluentNumber>>⟧.from_gives (λ n. n.value) }
    ensures ref_u64 { BecomesUnsigned 64 ⟦<u64 as From<&'a FluentNumber>>⟧.from_gives
        (λ n. n.now.value) }
    ensures u128 { BecomesUnsigned 128 ⟦<u128 as From<FluentNumber>>⟧.from_gives (λ n. n.value) }
    ensures ref_u128 { BecomesUnsigned 128 ⟦<u128 as From<&'a FluentNumber>>⟧.from_gives
        (λ n. n.now.value) }
    ensures usize { BecomesUnsigned 64 ⟦<usize as From<FluentNumber>>⟧.from_gives (λ n. n.value) }
    ensures ref_usize { BecomesUnsigned 64 ⟦<usize as From<&'a FluentNumber>>⟧.from_gives
        (λ n. n.now.value) }
{}

/// Equality of decimals, of options and of numbers is an equivalence.
pub fn equality_is_an_equivalence()
    ensures decimals { IsEquivalence ⟦<Decimal as PartialEq>⟧.eq }
    ensures options { IsEquivalence ⟦<FluentNumberOptions as PartialEq>⟧.eq }
    ensures numbers { IsEquivalence ⟦<FluentNumber as PartialEq>⟧.eq }
{
    equality_of::<Decimal>();
    equality_of::<FluentNumberOptions>();
    equality_of::<FluentNumber>();
}

/// So is equality of the choices that options hold.
pub fn equality_of_choices_is_an_equivalence()
    ensures types { IsEquivalence ⟦<FluentNumberType as PartialEq>⟧.eq }
    ensures styles { IsEquivalence ⟦<FluentNumberStyle as PartialEq>⟧.eq }
    ensures currency_displays { IsEquivalence ⟦<FluentNumberCurrencyDisplayStyle as PartialEq>⟧.eq }
{}

/// So is equality of plural operands, of categories and of kinds of rules.
pub fn equality_of_plurals_is_an_equivalence()
    ensures operands { IsEquivalence ⟦<PluralOperands as PartialEq>⟧.eq }
    ensures categories { IsEquivalence ⟦<PluralCategory as PartialEq>⟧.eq }
    ensures rules { IsEquivalence ⟦<PluralRuleType as PartialEq>⟧.eq }
{
    equality_of::<PluralOperands>();
}

/// The law of `Eq` at any type.
fn equality_of<T: Eq>()
    ensures { IsEquivalence T.eq }
{}

/// Decimals are equal if they are the same number, options if each of them is the same, with
/// `currency` compared as a text, and numbers if value and options are.
pub fn equal_values_look_the_same()
    ensures decimals { EqualWhereSeenSame ⟦<Decimal as PartialEq>⟧.eq (λ value. value) }
    ensures options { EqualWhereSeenSame ⟦<FluentNumberOptions as PartialEq>⟧.eq options_of }
    ensures numbers { EqualWhereSeenSame ⟦<FluentNumber as PartialEq>⟧.eq number_of }
{}

/// Choices that options hold are equal if they are the same.
pub fn equal_choices_are_the_same()
    ensures types { EqualWhereSeenSame ⟦<FluentNumberType as PartialEq>⟧.eq (λ value. value) }
    ensures styles { EqualWhereSeenSame ⟦<FluentNumberStyle as PartialEq>⟧.eq (λ value. value) }
    ensures currency_displays { EqualWhereSeenSame
        ⟦<FluentNumberCurrencyDisplayStyle as PartialEq>⟧.eq (λ value. value) }
{}

/// Plural operands are equal if each of them is the same, categories and kinds of rules if they are
/// the same.
pub fn equal_plurals_are_the_same()
    ensures operands { EqualWhereSeenSame ⟦<PluralOperands as PartialEq>⟧.eq (λ value. value) }
    ensures categories { EqualWhereSeenSame ⟦<PluralCategory as PartialEq>⟧.eq (λ value. value) }
    ensures rules { EqualWhereSeenSame ⟦<PluralRuleType as PartialEq>⟧.eq (λ value. value) }
{}

/// Equal decimals, equal options and equal numbers hash equally.
pub fn equal_values_hash_equally()
    ensures decimals { HashesEqualAlike ⟦<Decimal as PartialEq>⟧.eq ⟦<Decimal as Hash>⟧.hash_input }
    ensures options { HashesEqualAlike ⟦<FluentNumberOptions as PartialEq>⟧.eq
        ⟦<FluentNumberOptions as Hash>⟧.hash_input }
    ensures numbers { HashesEqualAlike ⟦<FluentNumber as PartialEq>⟧.eq
        ⟦<FluentNumber as Hash>⟧.hash_input }
{
    hashing_of::<Decimal>();
    hashing_of::<FluentNumberOptions>();
    hashing_of::<FluentNumber>();
}

/// Equal choices that options hold hash equally.
pub fn equal_choices_hash_equally()
    ensures types { HashesEqualAlike ⟦<FluentNumberType as PartialEq>⟧.eq
        ⟦<FluentNumberType as Hash>⟧.hash_input }
    ensures styles { HashesEqualAlike ⟦<FluentNumberStyle as PartialEq>⟧.eq
        ⟦<FluentNumberStyle as Hash>⟧.hash_input }
    ensures currency_displays { HashesEqualAlike
        ⟦<FluentNumberCurrencyDisplayStyle as PartialEq>⟧.eq
        ⟦<FluentNumberCurrencyDisplayStyle as Hash>⟧.hash_input }
{}

/// Equal plural operands, equal categories and equal kinds of rules hash equally.
pub fn equal_plurals_hash_equally()
    ensures operands { HashesEqualAlike ⟦<PluralOperands as PartialEq>⟧.eq
        ⟦<PluralOperands as Hash>⟧.hash_input }
    ensures categories { HashesEqualAlike ⟦<PluralCategory as PartialEq>⟧.eq
        ⟦<PluralCategory as Hash>⟧.hash_input }
    ensures rules { HashesEqualAlike ⟦<PluralRuleType as PartialEq>⟧.eq
        ⟦<PluralRuleType as Hash>⟧.hash_input }
{}

/// The law of `Hash` at any type.
fn hashing_of<T: Hash>()
    ensures { HashesEqualAlike T.eq T.hash_input }
{}
