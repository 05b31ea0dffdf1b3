//! The numbers of Fluent: decimals with options, their texts and their plural operands.
//!
//! A [`Decimal`] is exact: a sign, a whole part and a fraction of 18 digits. A [`FluentNumber`] is
//! a decimal with [`FluentNumberOptions`], which say how it is to be shown.
//! `docs/reference/numbers.md` has the rules in plain words, and `specs/` the same rules as
//! definitions, by which each contract is stated.
#![tactic(auto)]

mod decimal;
mod from_integers;
pub mod laws;
mod number;
mod options;
mod plural;
mod reading;
mod source;
mod to_integers;
mod writing;

pub use decimal::Decimal;
pub use number::{FluentNumber, NotANumber};
pub use options::{
    FluentNumberCurrencyDisplayStyle, FluentNumberOptions, FluentNumberStyle, FluentNumberType,
};
pub use plural::{PluralCategory, PluralOperands, PluralRuleType, english_category};
pub use source::OptionSource;
