//! Values, numbers, their options and their plural operands.

pub use fluent_number::{
    Decimal, FluentNumber, FluentNumberCurrencyDisplayStyle, FluentNumberOptions,
    FluentNumberStyle, FluentNumberType, NotANumber, OptionSource, PluralCategory, PluralOperands,
    PluralRuleType,
};
pub use fluent_value::{FluentType, FluentValue};
