//! The patterns.
// Written by tools/numbers from Unicode CLDR 48. Do not edit.
ghost use Rattle.std.specs.Prelude.{◌≡◌};
ghost use Rattle.fluent_numerals.specs.PatternNames.{pattern_named};
ghost use Rattle.fluent_numerals.specs.Views.{pattern_view};

use crate::pattern::{Pattern, Piece};

/// The names of the patterns.
#[derive(Clone, Copy)]
pub(crate) enum PatternName {
    /// `#,##,##0%`
    IndianWholePercent,
    /// `#,##,##0.###`
    IndianNumber,
    /// `#,##,##0.00¤`
    IndianAmountCurrency,
    /// `#,##,##0\u{a0}%`
    IndianWholeSpacePercent,
    /// `#,##0%`
    WholePercent,
    /// `#,##0.###`
    Number,
    /// `#,##0.00\u{a0}¤`
    AmountSpaceCurrency,
    /// `#,##0.00\u{a0}¤;-#,##0.00\u{a0}¤`
    AmountSpaceCurrencyOrMinusAmountSpaceCurrency,
    /// `#,##0.00¤`
    AmountCurrency,
    /// `#,##0.00\u{202f}¤`
    AmountThinCurrency,
    /// `#,##0\u{a0}%`
    WholeSpacePercent,
    /// `#,##0\u{202f}%`
    WholeThinPercent,
    /// `#,#0.###`
    PairedNumber,
    /// `%#,##0`
    PercentWhole,
    /// `%\u{a0}#,##0`
    PercentSpaceWhole,
    /// `%\u{a0}#,#0;%\u{a0}-#,#0`
    PercentSpacePairedWholeOrPercentSpaceMinusPairedWhole,
    /// `0%`
    BareWholePercent,
    /// `0.######`
    BareNumber,
    /// `¤#,##,##0.00`
    CurrencyIndianAmount,
    /// `¤#,##0.00`
    CurrencyAmount,
    /// `¤#,##0.00;¤-#,##0.00`
    CurrencyAmountOrCurrencyMinusAmount,
    /// `¤#,##0.00;¤-\u{a0}#,##0.00`
    CurrencyAmountOrCurrencyMinusSpaceAmount,
    /// `¤#,#0.00`
    CurrencyPairedAmount,
    /// `¤\u{a0}#,##,##0.00`
    CurrencySpaceIndianAmount,
    /// `¤\u{a0}#,##0.00`
    CurrencySpaceAmount,
    /// `¤\u{a0}#,##0.00;¤-#,##0.00`
    CurrencySpaceAmountOrCurrencyMinusAmount,
    /// `¤\u{a0}#,##0.00;¤\u{a0}#,##0.00-`
    CurrencySpaceAmountOrCurrencySpaceAmountMinus,
    /// `¤\u{a0}#,##0.00;¤\u{a0}-#,##0.00`
    CurrencySpaceAmountOrCurrencySpaceMinusAmount,
    /// `¤\u{a0}0.00`
    CurrencySpaceBareAmount,
    /// `\u{200e}¤#,##0.00`
    LtrCurrencyAmount,
    /// `\u{200f}#,##0.00\u{a0}¤`
    RtlAmountSpaceCurrency,
    /// `\u{200f}#,##0.00\u{a0}¤;\u{200f}-#,##0.00\u{a0}¤`
    RtlAmountSpaceCurrencyOrRtlMinusAmountSpaceCurrency,
    /// `\u{200f}#,##0.00\u{a0}\u{200f}¤;\u{200f}-#,##0.00\u{a0}\u{200f}¤`
    RtlAmountSpaceRtlCurrencyOrRtlMinusAmountSpaceRtlCurrency,
}

impl PatternName {
    /// The pattern of this name.
    pub(crate) fn pattern(self) -> Pattern
        ensures { pattern_view result ≡ pattern_named self }
    {
        match self {
            PatternName::IndianWholePercent => INDIAN_WHOLE_PERCENT,
            PatternName::IndianNumber => INDIAN_NUMBER,
            PatternName::IndianAmountCurrency => INDIAN_AMOUNT_CURRENCY,
            PatternName::IndianWholeSpacePercent => INDIAN_WHOLE_SPACE_PERCENT,
            PatternName::WholePercent => WHOLE_PERCENT,
            PatternName::Number => NUMBER,
            PatternName::AmountSpaceCurrency => AMOUNT_SPACE_CURRENCY,
            PatternName::AmountSpaceCurrencyOrMinusAmountSpaceCurrency =>
                AMOUNT_SPACE_CURRENCY_OR_MINUS_AMOUNT_SPACE_CURRENCY,
            PatternName::AmountCurrency => AMOUNT_CURRENCY,
            PatternName::AmountThinCurrency => AMOUNT_THIN_CURRENCY,
            PatternName::WholeSpacePercent => WHOLE_SPACE_PERCENT,
            PatternName::WholeThinPercent => WHOLE_THIN_PERCENT,
            PatternName::PairedNumber => PAIRED_NUMBER,
            PatternName::PercentWhole => PERCENT_WHOLE,
            PatternName::PercentSpaceWhole => PERCENT_SPACE_WHOLE,
            PatternName::PercentSpacePairedWholeOrPercentSpaceMinusPairedWhole =>
                PERCENT_SPACE_PAIRED_WHOLE_OR_PERCENT_SPACE_MINUS_PAIRED_WHOLE,
            PatternName::BareWholePercent => BARE_WHOLE_PERCENT,
            PatternName::BareNumber => BARE_NUMBER,
            PatternName::CurrencyIndianAmount => CURRENCY_INDIAN_AMOUNT,
            PatternName::CurrencyAmount => CURRENCY_AMOUNT,
            PatternName::CurrencyAmountOrCurrencyMinusAmount =>
                CURRENCY_AMOUNT_OR_CURRENCY_MINUS_AMOUNT,
            PatternName::CurrencyAmountOrCurrencyMinusSpaceAmount =>
                CURRENCY_AMOUNT_OR_CURRENCY_MINUS_SPACE_AMOUNT,
            PatternName::CurrencyPairedAmount => CURRENCY_PAIRED_AMOUNT,
            PatternName::CurrencySpaceIndianAmount => CURRENCY_SPACE_INDIAN_AMOUNT,
            PatternName::CurrencySpaceAmount => CURRENCY_SPACE_AMOUNT,
            PatternName::CurrencySpaceAmountOrCurrencyMinusAmount =>
                CURRENCY_SPACE_AMOUNT_OR_CURRENCY_MINUS_AMOUNT,
            PatternName::CurrencySpaceAmountOrCurrencySpaceAmountMinus =>
                CURRENCY_SPACE_AMOUNT_OR_CURRENCY_SPACE_AMOUNT_MINUS,
            PatternName::CurrencySpaceAmountOrCurrencySpaceMinusAmount =>
                CURRENCY_SPACE_AMOUNT_OR_CURRENCY_SPACE_MINUS_AMOUNT,
            PatternName::CurrencySpaceBareAmount => CURRENCY_SPACE_BARE_AMOUNT,
            PatternName::LtrCurrencyAmount => LTR_CURRENCY_AMOUNT,
            PatternName::RtlAmountSpaceCurrency => RTL_AMOUNT_SPACE_CURRENCY,
            PatternName::RtlAmountSpaceCurrencyOrRtlMinusAmountSpaceCurrency =>
                RTL_AMOUNT_SPACE_CURRENCY_OR_RTL_MINUS_AMOUNT_SPACE_CURRENCY,
            PatternName::RtlAmountSpaceRtlCurrencyOrRtlMinusAmountSpaceRtlCurrency =>
                RTL_AMOUNT_SPACE_RTL_CURRENCY_OR_RTL_MINUS_AMOUNT_SPACE_RTL_CURRENCY,
        }
    }
}

/// `#,##,##0%`
pub(crate) const INDIAN_WHOLE_PERCENT: Pattern = Pattern {
    prefix: [Piece::Nothing, Piece::Nothing, Piece::Nothing],
    suffix: [Piece::PercentSign, Piece::Nothing, Piece::Nothing],
    negative_prefix: [Piece::Minus, Piece::Nothing, Piece::Nothing],
    negative_suffix: [Piece::PercentSign, Piece::Nothing, Piece::Nothing],
    primary: 3,
    secondary: 2,
};

/// `#,##,##0.###`
pub(crate) const INDIAN_NUMBER: Pattern = Pattern {
    prefix: [Piece::Nothing, Piece::Nothing, Piece::Nothing],
    suffix: [Piece::Nothing, Piece::Nothing, Piece::Nothing],
    negative_prefix: [Piece::Minus, Piece::Nothing, Piece::Nothing],
    negative_suffix: [Piece::Nothing, Piece::Nothing, Piece::Nothing],
    primary: 3,
    secondary: 2,
};

/// `#,##,##0.00¤`
pub(crate) const INDIAN_AMOUNT_CURRENCY: Pattern = Pattern {
    prefix: [Piece::Nothing, Piece::Nothing, Piece::Nothing],
    suffix: [Piece::CurrencyAfterDigits, Piece::Nothing, Piece::Nothing],
    negative_prefix: [Piece::Minus, Piece::Nothing, Piece::Nothing],
    negative_suffix: [Piece::CurrencyAfterDigits, Piece::Nothing, Piece::Nothing],
    primary: 3,
    secondary: 2,
};

/// `#,##,##0\u{a0}%`
pub(crate) const INDIAN_WHOLE_SPACE_PERCENT: Pattern = Pattern {
    prefix: [Piece::Nothing, Piece::Nothing, Piece::Nothing],
    suffix: [Piece::Literal('\u{a0}'), Piece::PercentSign, Piece::Nothing],
    negative_prefix: [Piece::Minus, Piece::Nothing, Piece::Nothing],
    negative_suffix: [Piece::Literal('\u{a0}'), Piece::PercentSign, Piece::Nothing],
    primary: 3,
    secondary: 2,
};

/// `#,##0%`
pub(crate) const WHOLE_PERCENT: Pattern = Pattern {
    prefix: [Piece::Nothing, Piece::Nothing, Piece::Nothing],
    suffix: [Piece::PercentSign, Piece::Nothing, Piece::Nothing],
    negative_prefix: [Piece::Minus, Piece::Nothing, Piece::Nothing],
    negative_suffix: [Piece::PercentSign, Piece::Nothing, Piece::Nothing],
    primary: 3,
    secondary: 3,
};

/// `#,##0.###`
pub(crate) const NUMBER: Pattern = Pattern {
    prefix: [Piece::Nothing, Piece::Nothing, Piece::Nothing],
    suffix: [Piece::Nothing, Piece::Nothing, Piece::Nothing],
    negative_prefix: [Piece::Minus, Piece::Nothing, Piece::Nothing],
    negative_suffix: [Piece::Nothing, Piece::Nothing, Piece::Nothing],
    primary: 3,
    secondary: 3,
};

/// `#,##0.00\u{a0}¤`
pub(crate) const AMOUNT_SPACE_CURRENCY: Pattern = Pattern {
    prefix: [Piece::Nothing, Piece::Nothing, Piece::Nothing],
    suffix: [Piece::Literal('\u{a0}'), Piece::Currency, Piece::Nothing],
    negative_prefix: [Piece::Minus, Piece::Nothing, Piece::Nothing],
    negative_suffix: [Piece::Literal('\u{a0}'), Piece::Currency, Piece::Nothing],
    primary: 3,
    secondary: 3,
};

/// `#,##0.00\u{a0}¤;-#,##0.00\u{a0}¤`
pub(crate) const AMOUNT_SPACE_CURRENCY_OR_MINUS_AMOUNT_SPACE_CURRENCY: Pattern = Pattern {
    prefix: [Piece::Nothing, Piece::Nothing, Piece::Nothing],
    suffix: [Piece::Literal('\u{a0}'), Piece::Currency, Piece::Nothing],
    negative_prefix: [Piece::Minus, Piece::Nothing, Piece::Nothing],
    negative_suffix: [Piece::Literal('\u{a0}'), Piece::Currency, Piece::Nothing],
    primary: 3,
    secondary: 3,
};

/// `#,##0.00¤`
pub(crate) const AMOUNT_CURRENCY: Pattern = Pattern {
    prefix: [Piece::Nothing, Piece::Nothing, Piece::Nothing],
    suffix: [Piece::CurrencyAfterDigits, Piece::Nothing, Piece::Nothing],
    negative_prefix: [Piece::Minus, Piece::Nothing, Piece::Nothing],
    negative_suffix: [Piece::CurrencyAfterDigits, Piece::Nothing, Piece::Nothing],
    primary: 3,
    secondary: 3,
};

/// `#,##0.00\u{202f}¤`
pub(crate) const AMOUNT_THIN_CURRENCY: Pattern = Pattern {
    prefix: [Piece::Nothing, Piece::Nothing, Piece::Nothing],
    suffix: [Piece::Literal('\u{202f}'), Piece::Currency, Piece::Nothing],
    negative_prefix: [Piece::Minus, Piece::Nothing, Piece::Nothing],
    negative_suffix: [Piece::Literal('\u{202f}'), Piece::Currency, Piece::Nothing],
    primary: 3,
    secondary: 3,
};

/// `#,##0\u{a0}%`
pub(crate) const WHOLE_SPACE_PERCENT: Pattern = Pattern {
    prefix: [Piece::Nothing, Piece::Nothing, Piece::Nothing],
    suffix: [Piece::Literal('\u{a0}'), Piece::PercentSign, Piece::Nothing],
    negative_prefix: [Piece::Minus, Piece::Nothing, Piece::Nothing],
    negative_suffix: [Piece::Literal('\u{a0}'), Piece::PercentSign, Piece::Nothing],
    primary: 3,
    secondary: 3,
};

/// `#,##0\u{202f}%`
pub(crate) const WHOLE_THIN_PERCENT: Pattern = Pattern {
    prefix: [Piece::Nothing, Piece::Nothing, Piece::Nothing],
    suffix: [
        Piece::Literal('\u{202f}'),
        Piece::PercentSign,
        Piece::Nothing,
    ],
    negative_prefix: [Piece::Minus, Piece::Nothing, Piece::Nothing],
    negative_suffix: [
        Piece::Literal('\u{202f}'),
        Piece::PercentSign,
        Piece::Nothing,
    ],
    primary: 3,
    secondary: 3,
};

/// `#,#0.###`
pub(crate) const PAIRED_NUMBER: Pattern = Pattern {
    prefix: [Piece::Nothing, Piece::Nothing, Piece::Nothing],
    suffix: [Piece::Nothing, Piece::Nothing, Piece::Nothing],
    negative_prefix: [Piece::Minus, Piece::Nothing, Piece::Nothing],
    negative_suffix: [Piece::Nothing, Piece::Nothing, Piece::Nothing],
    primary: 2,
    secondary: 2,
};

/// `%#,##0`
pub(crate) const PERCENT_WHOLE: Pattern = Pattern {
    prefix: [Piece::PercentSign, Piece::Nothing, Piece::Nothing],
    suffix: [Piece::Nothing, Piece::Nothing, Piece::Nothing],
    negative_prefix: [Piece::Minus, Piece::PercentSign, Piece::Nothing],
    negative_suffix: [Piece::Nothing, Piece::Nothing, Piece::Nothing],
    primary: 3,
    secondary: 3,
};

/// `%\u{a0}#,##0`
pub(crate) const PERCENT_SPACE_WHOLE: Pattern = Pattern {
    prefix: [Piece::PercentSign, Piece::Literal('\u{a0}'), Piece::Nothing],
    suffix: [Piece::Nothing, Piece::Nothing, Piece::Nothing],
    negative_prefix: [Piece::Minus, Piece::PercentSign, Piece::Literal('\u{a0}')],
    negative_suffix: [Piece::Nothing, Piece::Nothing, Piece::Nothing],
    primary: 3,
    secondary: 3,
};

/// `%\u{a0}#,#0;%\u{a0}-#,#0`
pub(crate) const PERCENT_SPACE_PAIRED_WHOLE_OR_PERCENT_SPACE_MINUS_PAIRED_WHOLE: Pattern = Pattern {
    prefix: [Piece::PercentSign, Piece::Literal('\u{a0}'), Piece::Nothing],
    suffix: [Piece::Nothing, Piece::Nothing, Piece::Nothing],
    negative_prefix: [Piece::PercentSign, Piece::Literal('\u{a0}'), Piece::Minus],
    negative_suffix: [Piece::Nothing, Piece::Nothing, Piece::Nothing],
    primary: 2,
    secondary: 2,
};

/// `0%`
pub(crate) const BARE_WHOLE_PERCENT: Pattern = Pattern {
    prefix: [Piece::Nothing, Piece::Nothing, Piece::Nothing],
    suffix: [Piece::PercentSign, Piece::Nothing, Piece::Nothing],
    negative_prefix: [Piece::Minus, Piece::Nothing, Piece::Nothing],
    negative_suffix: [Piece::PercentSign, Piece::Nothing, Piece::Nothing],
    primary: 0,
    secondary: 0,
};

/// `0.######`
pub(crate) const BARE_NUMBER: Pattern = Pattern {
    prefix: [Piece::Nothing, Piece::Nothing, Piece::Nothing],
    suffix: [Piece::Nothing, Piece::Nothing, Piece::Nothing],
    negative_prefix: [Piece::Minus, Piece::Nothing, Piece::Nothing],
    negative_suffix: [Piece::Nothing, Piece::Nothing, Piece::Nothing],
    primary: 0,
    secondary: 0,
};

/// `¤#,##,##0.00`
pub(crate) const CURRENCY_INDIAN_AMOUNT: Pattern = Pattern {
    prefix: [Piece::CurrencyBeforeDigits, Piece::Nothing, Piece::Nothing],
    suffix: [Piece::Nothing, Piece::Nothing, Piece::Nothing],
    negative_prefix: [Piece::Minus, Piece::CurrencyBeforeDigits, Piece::Nothing],
    negative_suffix: [Piece::Nothing, Piece::Nothing, Piece::Nothing],
    primary: 3,
    secondary: 2,
};

/// `¤#,##0.00`
pub(crate) const CURRENCY_AMOUNT: Pattern = Pattern {
    prefix: [Piece::CurrencyBeforeDigits, Piece::Nothing, Piece::Nothing],
    suffix: [Piece::Nothing, Piece::Nothing, Piece::Nothing],
    negative_prefix: [Piece::Minus, Piece::CurrencyBeforeDigits, Piece::Nothing],
    negative_suffix: [Piece::Nothing, Piece::Nothing, Piece::Nothing],
    primary: 3,
    secondary: 3,
};

/// `¤#,##0.00;¤-#,##0.00`
pub(crate) const CURRENCY_AMOUNT_OR_CURRENCY_MINUS_AMOUNT: Pattern = Pattern {
    prefix: [Piece::CurrencyBeforeDigits, Piece::Nothing, Piece::Nothing],
    suffix: [Piece::Nothing, Piece::Nothing, Piece::Nothing],
    negative_prefix: [Piece::Currency, Piece::Minus, Piece::Nothing],
    negative_suffix: [Piece::Nothing, Piece::Nothing, Piece::Nothing],
    primary: 3,
    secondary: 3,
};

/// `¤#,##0.00;¤-\u{a0}#,##0.00`
pub(crate) const CURRENCY_AMOUNT_OR_CURRENCY_MINUS_SPACE_AMOUNT: Pattern = Pattern {
    prefix: [Piece::CurrencyBeforeDigits, Piece::Nothing, Piece::Nothing],
    suffix: [Piece::Nothing, Piece::Nothing, Piece::Nothing],
    negative_prefix: [Piece::Currency, Piece::Minus, Piece::Literal('\u{a0}')],
    negative_suffix: [Piece::Nothing, Piece::Nothing, Piece::Nothing],
    primary: 3,
    secondary: 3,
};

/// `¤#,#0.00`
pub(crate) const CURRENCY_PAIRED_AMOUNT: Pattern = Pattern {
    prefix: [Piece::CurrencyBeforeDigits, Piece::Nothing, Piece::Nothing],
    suffix: [Piece::Nothing, Piece::Nothing, Piece::Nothing],
    negative_prefix: [Piece::Minus, Piece::CurrencyBeforeDigits, Piece::Nothing],
    negative_suffix: [Piece::Nothing, Piece::Nothing, Piece::Nothing],
    primary: 2,
    secondary: 2,
};

/// `¤\u{a0}#,##,##0.00`
pub(crate) const CURRENCY_SPACE_INDIAN_AMOUNT: Pattern = Pattern {
    prefix: [Piece::Currency, Piece::Literal('\u{a0}'), Piece::Nothing],
    suffix: [Piece::Nothing, Piece::Nothing, Piece::Nothing],
    negative_prefix: [Piece::Minus, Piece::Currency, Piece::Literal('\u{a0}')],
    negative_suffix: [Piece::Nothing, Piece::Nothing, Piece::Nothing],
    primary: 3,
    secondary: 2,
};

/// `¤\u{a0}#,##0.00`
pub(crate) const CURRENCY_SPACE_AMOUNT: Pattern = Pattern {
    prefix: [Piece::Currency, Piece::Literal('\u{a0}'), Piece::Nothing],
    suffix: [Piece::Nothing, Piece::Nothing, Piece::Nothing],
    negative_prefix: [Piece::Minus, Piece::Currency, Piece::Literal('\u{a0}')],
    negative_suffix: [Piece::Nothing, Piece::Nothing, Piece::Nothing],
    primary: 3,
    secondary: 3,
};

/// `¤\u{a0}#,##0.00;¤-#,##0.00`
pub(crate) const CURRENCY_SPACE_AMOUNT_OR_CURRENCY_MINUS_AMOUNT: Pattern = Pattern {
    prefix: [Piece::Currency, Piece::Literal('\u{a0}'), Piece::Nothing],
    suffix: [Piece::Nothing, Piece::Nothing, Piece::Nothing],
    negative_prefix: [Piece::Currency, Piece::Minus, Piece::Nothing],
    negative_suffix: [Piece::Nothing, Piece::Nothing, Piece::Nothing],
    primary: 3,
    secondary: 3,
};

/// `¤\u{a0}#,##0.00;¤\u{a0}#,##0.00-`
pub(crate) const CURRENCY_SPACE_AMOUNT_OR_CURRENCY_SPACE_AMOUNT_MINUS: Pattern = Pattern {
    prefix: [Piece::Currency, Piece::Literal('\u{a0}'), Piece::Nothing],
    suffix: [Piece::Nothing, Piece::Nothing, Piece::Nothing],
    negative_prefix: [Piece::Currency, Piece::Literal('\u{a0}'), Piece::Nothing],
    negative_suffix: [Piece::Minus, Piece::Nothing, Piece::Nothing],
    primary: 3,
    secondary: 3,
};

/// `¤\u{a0}#,##0.00;¤\u{a0}-#,##0.00`
pub(crate) const CURRENCY_SPACE_AMOUNT_OR_CURRENCY_SPACE_MINUS_AMOUNT: Pattern = Pattern {
    prefix: [Piece::Currency, Piece::Literal('\u{a0}'), Piece::Nothing],
    suffix: [Piece::Nothing, Piece::Nothing, Piece::Nothing],
    negative_prefix: [Piece::Currency, Piece::Literal('\u{a0}'), Piece::Minus],
    negative_suffix: [Piece::Nothing, Piece::Nothing, Piece::Nothing],
    primary: 3,
    secondary: 3,
};

/// `¤\u{a0}0.00`
pub(crate) const CURRENCY_SPACE_BARE_AMOUNT: Pattern = Pattern {
    prefix: [Piece::Currency, Piece::Literal('\u{a0}'), Piece::Nothing],
    suffix: [Piece::Nothing, Piece::Nothing, Piece::Nothing],
    negative_prefix: [Piece::Minus, Piece::Currency, Piece::Literal('\u{a0}')],
    negative_suffix: [Piece::Nothing, Piece::Nothing, Piece::Nothing],
    primary: 0,
    secondary: 0,
};

/// `\u{200e}¤#,##0.00`
pub(crate) const LTR_CURRENCY_AMOUNT: Pattern = Pattern {
    prefix: [
        Piece::Literal('\u{200e}'),
        Piece::CurrencyBeforeDigits,
        Piece::Nothing,
    ],
    suffix: [Piece::Nothing, Piece::Nothing, Piece::Nothing],
    negative_prefix: [
        Piece::Minus,
        Piece::Literal('\u{200e}'),
        Piece::CurrencyBeforeDigits,
    ],
    negative_suffix: [Piece::Nothing, Piece::Nothing, Piece::Nothing],
    primary: 3,
    secondary: 3,
};

/// `\u{200f}#,##0.00\u{a0}¤`
pub(crate) const RTL_AMOUNT_SPACE_CURRENCY: Pattern = Pattern {
    prefix: [Piece::Literal('\u{200f}'), Piece::Nothing, Piece::Nothing],
    suffix: [Piece::Literal('\u{a0}'), Piece::Currency, Piece::Nothing],
    negative_prefix: [Piece::Minus, Piece::Literal('\u{200f}'), Piece::Nothing],
    negative_suffix: [Piece::Literal('\u{a0}'), Piece::Currency, Piece::Nothing],
    primary: 3,
    secondary: 3,
};

/// `\u{200f}#,##0.00\u{a0}¤;\u{200f}-#,##0.00\u{a0}¤`
pub(crate) const RTL_AMOUNT_SPACE_CURRENCY_OR_RTL_MINUS_AMOUNT_SPACE_CURRENCY: Pattern = Pattern {
    prefix: [Piece::Literal('\u{200f}'), Piece::Nothing, Piece::Nothing],
    suffix: [Piece::Literal('\u{a0}'), Piece::Currency, Piece::Nothing],
    negative_prefix: [Piece::Literal('\u{200f}'), Piece::Minus, Piece::Nothing],
    negative_suffix: [Piece::Literal('\u{a0}'), Piece::Currency, Piece::Nothing],
    primary: 3,
    secondary: 3,
};

/// `\u{200f}#,##0.00\u{a0}\u{200f}¤;\u{200f}-#,##0.00\u{a0}\u{200f}¤`
pub(crate) const RTL_AMOUNT_SPACE_RTL_CURRENCY_OR_RTL_MINUS_AMOUNT_SPACE_RTL_CURRENCY: Pattern =
    Pattern {
        prefix: [Piece::Literal('\u{200f}'), Piece::Nothing, Piece::Nothing],
        suffix: [
            Piece::Literal('\u{a0}'),
            Piece::Literal('\u{200f}'),
            Piece::Currency,
        ],
        negative_prefix: [Piece::Literal('\u{200f}'), Piece::Minus, Piece::Nothing],
        negative_suffix: [
            Piece::Literal('\u{a0}'),
            Piece::Literal('\u{200f}'),
            Piece::Currency,
        ],
        primary: 3,
        secondary: 3,
    };
