//! What locales write numbers by, once for all that write alike.
// Written by tools/numbers from Unicode CLDR 48. Do not edit.

use crate::digits::{ADLM, ARAB, ARABEXT, BENG, CAKM, DEVA, LATN, MYMR, NKOO, OLCK, TIBT};
use crate::forms::{Form, Forms};
use crate::patterns::PatternName;

/// A row: a name, the digits, the decimal and group signs of numbers and of amounts, minus and percent signs, how many digits
/// there have to be before the last group, and the patterns of numbers, percentages and amounts.
macro_rules! forms {
    ($($name:literal $digits:ident $decimal:literal $group:literal $money_decimal:literal $money_group:literal
        $minus:literal $percent_sign:literal $least:literal $number:ident $percent:ident $currency:ident;)*) => {
        [$(Forms {
            name: $name,
            digits: $digits,
            minus: $minus,
            percent_sign: $percent_sign,
            least_grouped: $least,
            number: Form {
                decimal: $decimal,
                group: $group,
                pattern: PatternName::$number,
            },
            percent: Form {
                decimal: $decimal,
                group: $group,
                pattern: PatternName::$percent,
            },
            currency: Form {
                decimal: $money_decimal,
                group: $money_group,
                pattern: PatternName::$currency,
            },
        }),*]
    };
}

pub(crate) static FORMS: [Forms; 99] = forms! {
    "und" LATN '.' ',' '.' ',' "-" "%" 1 Number WholePercent CurrencySpaceAmount;
    "en" LATN '.' ',' '.' ',' "-" "%" 1 Number WholePercent CurrencyAmount;
    "de" LATN ',' '.' ',' '.' "-" "%" 1 Number WholeSpacePercent AmountSpaceCurrency;
    "fr" LATN ',' '\u{202f}' ',' '\u{202f}' "-" "%" 1 Number WholeSpacePercent AmountSpaceCurrency;
    "es" LATN ',' '.' ',' '.' "-" "%" 2 Number WholeSpacePercent AmountSpaceCurrency;
    "it" LATN ',' '.' ',' '.' "-" "%" 2 Number WholePercent AmountSpaceCurrency;
    "pt" LATN ',' '.' ',' '.' "-" "%" 1 Number WholePercent CurrencySpaceAmount;
    "ru" LATN ',' '\u{a0}' ',' '\u{a0}' "-" "%" 1 Number WholeSpacePercent AmountSpaceCurrency;
    "ar" LATN '.' ',' '.' ',' "\u{200e}-" "\u{200e}%\u{200e}" 1 Number WholePercent RtlAmountSpaceCurrencyOrRtlMinusAmountSpaceCurrency;
    "hi" LATN '.' ',' '.' ',' "-" "%" 1 IndianNumber IndianWholePercent CurrencyIndianAmount;
    "bn" BENG '.' ',' '.' ',' "-" "%" 1 IndianNumber WholePercent IndianAmountCurrency;
    "pl" LATN ',' '\u{a0}' ',' '\u{a0}' "-" "%" 2 Number WholePercent AmountSpaceCurrency;
    "nl" LATN ',' '.' ',' '.' "-" "%" 1 Number WholePercent CurrencySpaceAmountOrCurrencySpaceMinusAmount;
    "sv" LATN ',' '\u{a0}' ',' '\u{a0}' "−" "%" 1 Number WholeSpacePercent AmountSpaceCurrency;
    "tr" LATN ',' '.' ',' '.' "-" "%" 1 Number PercentWhole CurrencyAmount;
    "uk" LATN ',' '\u{a0}' ',' '\u{a0}' "-" "%" 1 Number WholePercent AmountSpaceCurrency;
    "el" LATN ',' '.' ',' '.' "-" "%" 1 Number WholePercent AmountSpaceCurrency;
    "he" LATN '.' ',' '.' ',' "\u{200e}-" "%" 1 Number WholePercent RtlAmountSpaceRtlCurrencyOrRtlMinusAmountSpaceRtlCurrency;
    "fa" ARABEXT '\u{66b}' '\u{66c}' '\u{66b}' '\u{66c}' "\u{200e}−" "٪" 1 Number WholePercent LtrCurrencyAmount;
    "id" LATN ',' '.' ',' '.' "-" "%" 1 Number WholePercent CurrencyAmount;
    "nb" LATN ',' '\u{a0}' ',' '\u{a0}' "−" "%" 1 Number WholeSpacePercent AmountSpaceCurrencyOrMinusAmountSpaceCurrency;
    "hr" LATN ',' '.' ',' '.' "−" "%" 1 Number WholeSpacePercent AmountSpaceCurrency;
    "sl" LATN ',' '.' ',' '.' "−" "%" 2 Number WholeSpacePercent AmountSpaceCurrency;
    "et" LATN ',' '\u{a0}' ',' '\u{a0}' "−" "%" 2 Number WholePercent AmountSpaceCurrency;
    "en-za" LATN ',' '\u{a0}' ',' '\u{a0}' "-" "%" 1 Number WholePercent CurrencyAmount;
    "de-at" LATN ',' '\u{a0}' ',' '.' "-" "%" 1 Number WholeSpacePercent CurrencySpaceAmount;
    "de-ch" LATN '.' '\'' '.' '\'' "-" "%" 1 Number WholePercent CurrencySpaceAmountOrCurrencyMinusAmount;
    "fr-ch" LATN ',' '\u{202f}' '.' '\u{202f}' "-" "%" 1 Number WholePercent AmountSpaceCurrency;
    "it-ch" LATN '.' '\'' '.' '\'' "-" "%" 2 Number WholePercent CurrencySpaceAmountOrCurrencyMinusAmount;
    "ar-eg" ARAB '\u{66b}' '\u{66c}' '\u{66b}' '\u{66c}' "\u{61c}-" "٪\u{61c}" 1 Number WholePercent RtlAmountSpaceCurrency;
    "mr" DEVA '.' ',' '.' ',' "-" "%" 1 IndianNumber WholePercent CurrencyAmount;
    "ne" DEVA '.' ',' '.' ',' "-" "%" 1 IndianNumber IndianWholePercent CurrencySpaceIndianAmount;
    "my" MYMR '.' ',' '.' ',' "-" "%" 1 Number WholePercent AmountSpaceCurrency;
    "ur" LATN '.' ',' '.' ',' "\u{200e}-" "%" 1 Number WholePercent CurrencyAmount;
    "te" LATN '.' ',' '.' ',' "-" "%" 1 IndianNumber WholePercent CurrencyIndianAmount;
    "ml" LATN '.' ',' '.' ',' "-" "%" 1 IndianNumber WholePercent CurrencyAmount;
    "eu" LATN ',' '.' ',' '.' "−" "%" 1 Number PercentSpaceWhole AmountSpaceCurrency;
    "km" LATN '.' ',' '.' ',' "-" "%" 1 Number WholePercent AmountCurrency;
    "lo" LATN ',' '.' ',' '.' "-" "%" 1 Number WholePercent CurrencyAmountOrCurrencyMinusAmount;
    "ps" ARABEXT '\u{66b}' '\u{66c}' '\u{66b}' '\u{66c}' "\u{200e}-\u{200e}" "٪" 1 Number WholePercent CurrencySpaceAmount;
    "ku" LATN ',' '.' ',' '.' "-" "%" 1 Number PercentWhole AmountSpaceCurrency;
    "ckb" ARAB '\u{66b}' '\u{66c}' '\u{66b}' '\u{66c}' "\u{200f}-" "٪" 1 Number WholeSpacePercent AmountSpaceCurrency;
    "agq" LATN ',' '\u{a0}' ',' '\u{a0}' "-" "%" 1 Number WholePercent AmountCurrency;
    "as" BENG '.' ',' '.' ',' "-" "%" 1 IndianNumber IndianWholePercent CurrencySpaceIndianAmount;
    "asa" LATN '.' ',' '.' ',' "-" "%" 1 Number WholePercent AmountSpaceCurrency;
    "ba" LATN '.' '\u{a0}' '.' '\u{a0}' "-" "%" 1 Number WholePercent AmountSpaceCurrency;
    "be" LATN ',' '\u{a0}' ',' '\u{a0}' "-" "%" 2 Number WholeSpacePercent AmountSpaceCurrency;
    "bgc" DEVA '.' ',' '.' ',' "-" "%" 1 Number WholePercent CurrencySpaceAmount;
    "bho" DEVA '.' ',' '.' ',' "-" "%" 1 Number WholePercent CurrencyAmount;
    "blo" LATN ',' '\u{a0}' ',' '\u{a0}' "-" "%" 1 Number PercentSpacePairedWholeOrPercentSpaceMinusPairedWhole CurrencySpaceAmountOrCurrencySpaceMinusAmount;
    "brx" LATN '.' ',' '.' ',' "-" "%" 1 IndianNumber IndianWholePercent CurrencySpaceIndianAmount;
    "ccp" CAKM '.' ',' '.' ',' "-" "%" 1 IndianNumber WholePercent IndianAmountCurrency;
    "ce" LATN '.' ',' '.' ',' "-" "%" 1 Number WholeSpacePercent AmountSpaceCurrency;
    "dje" LATN '.' '\u{a0}' '.' '\u{a0}' "-" "%" 1 Number WholePercent AmountCurrency;
    "dz" TIBT '.' ',' '.' ',' "-" "%" 1 IndianNumber IndianWholeSpacePercent CurrencyIndianAmount;
    "ee" LATN '.' ',' '.' ',' "-" "%" 3 Number WholePercent CurrencyAmount;
    "eo" LATN ',' '\u{202f}' ',' '\u{202f}' "-" "%" 1 Number WholePercent AmountThinCurrency;
    "fy" LATN ',' '.' ',' '.' "-" "%" 1 Number WholePercent CurrencySpaceAmountOrCurrencySpaceAmountMinus;
    "gsw" LATN '.' '\'' '.' '\'' "−" "%" 1 Number WholeSpacePercent AmountSpaceCurrency;
    "ia" LATN ',' '.' ',' '.' "-" "%" 2 Number WholePercent CurrencySpaceAmount;
    "ie" LATN ',' '\u{a0}' ',' '\u{a0}' "-" "%" 2 Number WholePercent CurrencySpaceAmountOrCurrencySpaceMinusAmount;
    "kl" LATN ',' '.' ',' '.' "-" "%" 1 Number WholeSpacePercent CurrencyAmountOrCurrencyMinusAmount;
    "ks" ARABEXT '\u{66b}' '\u{66c}' '\u{66b}' '\u{66c}' "\u{200e}-\u{200e}" "٪" 1 Number WholePercent CurrencyAmount;
    "lmo" LATN ',' '\'' ',' '\'' "-" "%" 1 Number WholePercent CurrencySpaceAmount;
    "lu" LATN ',' '.' ',' '.' "-" "%" 1 Number WholePercent AmountCurrency;
    "luy" LATN '.' ',' '.' ',' "-" "%" 1 Number WholePercent CurrencyAmountOrCurrencyMinusSpaceAmount;
    "mfe" LATN '.' '\u{a0}' '.' '\u{a0}' "-" "%" 1 Number WholePercent CurrencySpaceAmount;
    "mni" BENG '.' ',' '.' ',' "-" "%" 1 Number WholePercent CurrencySpaceAmount;
    "nqo" NKOO '.' '،' '.' '،' "-" "%" 1 Number WholePercent CurrencySpaceAmount;
    "oc" LATN ',' '\u{a0}' ',' '\u{a0}' "-" "%" 1 Number WholeThinPercent AmountCurrency;
    "os" LATN ',' '\u{a0}' ',' '\u{a0}' "-" "%" 1 Number WholePercent CurrencySpaceAmount;
    "qu" LATN '.' ',' '.' ',' "-" "%" 1 Number WholeSpacePercent CurrencySpaceAmount;
    "rm" LATN ',' '\u{202f}' ',' '\u{202f}' "-" "%" 1 Number WholePercent CurrencyAmount;
    "rn" LATN ',' '.' ',' '.' "-" "%" 1 Number WholeSpacePercent AmountCurrency;
    "sa" DEVA '.' ',' '.' ',' "-" "%" 1 IndianNumber IndianWholePercent CurrencyIndianAmount;
    "sat" OLCK '.' ',' '.' ',' "-" "%" 1 Number WholePercent CurrencySpaceAmount;
    "sd" ARAB '.' '\u{66c}' '.' '\u{66c}' "\u{61c}-" "٪\u{61c}" 1 Number WholePercent AmountSpaceCurrency;
    "tn" LATN '.' '\'' '.' '\'' "-" "%" 1 Number WholePercent CurrencyAmount;
    "tok" LATN ',' '\u{a0}' ',' '\u{a0}' "-" "%" 1 PairedNumber WholePercent CurrencyPairedAmount;
    "xh" LATN '.' '\u{a0}' '.' '\u{a0}' "-" "%" 1 Number WholePercent CurrencyAmount;
    "zgh" LATN ',' '\u{a0}' ',' '\u{a0}' "-" "%" 1 Number WholeSpacePercent AmountCurrency;
    "ar-dz" LATN ',' '.' ',' '.' "\u{200e}-" "\u{200e}%\u{200e}" 1 Number WholePercent RtlAmountSpaceCurrencyOrRtlMinusAmountSpaceCurrency;
    "bn-in" BENG '.' ',' '.' ',' "-" "%" 1 IndianNumber WholePercent CurrencyIndianAmount;
    "de-li" LATN '.' '\'' '.' '\'' "-" "%" 1 Number WholePercent CurrencySpaceAmount;
    "en-at" LATN ',' '.' ',' '.' "-" "%" 1 Number WholeSpacePercent CurrencySpaceAmount;
    "en-be" LATN ',' '.' '.' ',' "-" "%" 1 Number WholePercent CurrencyAmount;
    "en-de" LATN ',' '.' '.' ',' "-" "%" 1 Number WholeSpacePercent CurrencyAmount;
    "en-ee" LATN ',' '\u{a0}' '.' ',' "-" "%" 1 Number WholePercent CurrencyAmount;
    "en-fi" LATN ',' '\u{a0}' '.' ',' "-" "%" 1 Number WholeSpacePercent CurrencyAmount;
    "en-fr" LATN ',' '\u{202f}' '.' ',' "-" "%" 1 Number WholePercent CurrencyAmount;
    "en-ge" LATN ',' '\u{202f}' ',' '\u{202f}' "-" "%" 1 Number WholePercent AmountSpaceCurrency;
    "es-gq" LATN ',' '.' ',' '.' "-" "%" 2 Number WholeSpacePercent CurrencyAmount;
    "fa-af" ARABEXT '\u{66b}' '\u{66c}' '\u{66b}' '\u{66c}' "\u{200e}−" "٪" 1 Number WholePercent CurrencySpaceAmount;
    "ff-adlm" ADLM '.' '⹁' '.' '⹁' "-" "%" 1 Number WholePercent CurrencySpaceAmount;
    "kea-cv" LATN ',' '\u{a0}' '$' '\u{a0}' "-" "%" 1 Number WholePercent AmountSpaceCurrency;
    "pt-cv" LATN ',' '\u{a0}' '$' '\u{a0}' "-" "%" 2 Number WholePercent AmountSpaceCurrency;
    "ur-in" ARABEXT '\u{66b}' '\u{66c}' '\u{66b}' '\u{66c}' "\u{200e}-\u{200e}" "%" 1 Number WholePercent CurrencyAmount;
    "en-us-posix" LATN '.' ',' '.' ',' "-" "%" 1 BareNumber BareWholePercent CurrencySpaceBareAmount;
    "pt-ao-pte" LATN ',' '\u{a0}' '$' ',' "-" "%" 1 Number WholePercent AmountSpaceCurrency;
};
