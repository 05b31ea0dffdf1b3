//! The currencies.
// Written by tools/numbers from Unicode CLDR 48. Do not edit.
ghost use Rattle.std.specs.Prelude.{◌≡◌};
ghost use Rattle.fluent_numerals.specs.Currencies.{currencies_1, currencies_2, currencies_3, currencies_4, currencies_5, currencies_6, currencies_7, currencies_8, currencies_9, currencies_10, currencies_11, currencies_12, currencies_13, currencies_14, currencies_15, currencies_16, currencies_17, currencies_18, currencies_19, currencies_20, currencies_21, currencies_22, currency_of};
ghost use Rattle.fluent_numerals.specs.Forms.{coded};
ghost use Rattle.fluent_numerals.specs.Views.{found_currency};

use crate::currency::{Currency, first_coded, first_found};
use crate::tagged::{Tagged, texts};

/// The currency signs that symbols begin or end with: characters of the categories S.
pub(crate) static SIGNS: [&str; 32] = [
    "$", "£", "¤", "¥", "֏", "\u{60b}", "\u{7fe}", "\u{7ff}", "৳", "฿", "៛", "₡", "₤", "₦", "₧",
    "₩", "₪", "₫", "€", "₭", "₮", "₱", "₴", "₵", "₸", "₹", "₺", "₼", "₽", "₾", "￥", "￦",
];

/// A row: a code, how many digits are after the point, a symbol, the symbols of tags, and the forms of tags.
macro_rules! currencies {
    ($($code:literal $digits:literal $symbol:literal { $($symbols:tt)* } { $($own:tt)* };)*) => {
        [$(Currency {
            code: $code,
            digits: $digits,
            symbol: $symbol,
            symbols: &texts![$($symbols)*],
            own: &texts![$($own)*],
        }),*]
    };
}

/// The currency of this code, if it has a row.
pub(crate) fn currency_named(code: &str) -> Option<&'static Currency>
    ensures { found_currency result ≡ currency_of code.now }
{
    first_found(
        currency_in_1(code),
        first_found(
            currency_in_2(code),
            first_found(
                currency_in_3(code),
                first_found(
                    currency_in_4(code),
                    first_found(
                        currency_in_5(code),
                        first_found(
                            currency_in_6(code),
                            first_found(
                                currency_in_7(code),
                                first_found(
                                    currency_in_8(code),
                                    first_found(
                                        currency_in_9(code),
                                        first_found(
                                            currency_in_10(code),
                                            first_found(
                                                currency_in_11(code),
                                                first_found(
                                                    currency_in_12(code),
                                                    first_found(
                                                        currency_in_13(code),
                                                        first_found(
                                                            currency_in_14(code),
                                                            first_found(
                                                                currency_in_15(code),
                                                                first_found(
                                                                    currency_in_16(code),
                                                                    first_found(
                                                                        currency_in_17(code),
                                                                        first_found(
                                                                            currency_in_18(code),
                                                                            first_found(
                                                                                currency_in_19(
                                                                                    code,
                                                                                ),
                                                                                first_found(
                                                                                    currency_in_20(
                                                                                        code,
                                                                                    ),
                                                                                    first_found(
                                                                                        currency_in_21(
                                                                                            code,
                                                                                        ),
                                                                                        currency_in_22(
                                                                                            code,
                                                                                        ),
                                                                                    ),
                                                                                ),
                                                                            ),
                                                                        ),
                                                                    ),
                                                                ),
                                                            ),
                                                        ),
                                                    ),
                                                ),
                                            ),
                                        ),
                                    ),
                                ),
                            ),
                        ),
                    ),
                ),
            ),
        ),
    )
}

static CURRENCIES_1: [Currency; 12] = currencies! {
    "ADP" 0 "ADP" {} {};
    "AED" 2 "AED" {"ar" "\u{62f}.\u{625}.\u{200f}", "ars" "\u{62f}.\u{625}.\u{200f}", "brx" "ए.इ.दि",
        "nqo" "\u{7ca}\u{7d0}\u{7d8}"} {};
    "AFA" 2 "AFA" {"ff-adlm" "\u{1e900}\u{1e90a}\u{1e900}"} {};
    "AFN" 0 "AFN" {"fa" "\u{60b}", "nqo" "\u{7ca}\u{7dd}\u{7ca}", "ps" "\u{60b}", "uz-af" "\u{60b}",
        "uz-arab" "\u{60b}"} {};
    "ALL" 0 "ALL" {"brx" "अल", "nqo" "\u{7ca}\u{7df}\u{7df}", "sq" "Lekë"} {};
    "AMD" 2 "AMD" {"brx" "ए.एम.दि", "hy" "֏", "nqo" "\u{7ca}\u{7e1}\u{7d8}"} {};
    "ANG" 2 "ANG" {"brx" "ए.एन.जि", "en-sx" "NAf.", "my" "NAf", "nl-cw" "NAf.", "nl-sx" "NAf.",
        "nqo" "\u{7ca}߲\u{7d5}\u{7dd}"} {};
    "AOA" 2 "AOA" {"brx" "ए.अ.ए", "ln-ao" "Kz", "nqo" "\u{7ca}߲\u{7dc}߭\u{7ce}", "pt-ao" "Kz"} {};
    "AON" 2 "AON" {"nqo" "\u{7ca}\u{7dc}߭\u{7de}"} {};
    "AOR" 2 "AOR" {"nqo" "\u{7ca}\u{7dc}߭\u{7dd}"} {};
    "ARS" 2 "ARS" {"brx" "ए.आर.एस", "es-ar" "$", "fr-ca" "ARS", "fr" "$AR", "nqo" "\u{7ca}\u{7d6}߭\u{7d4}"} {};
    "ATS" 2 "ATS" {"de" "öS", "gsw" "öS", "lb" "öS"} {};
};

/// The currency of this code, if the table above has it.
fn currency_in_1(code: &str) -> Option<&'static Currency>
    ensures { found_currency result ≡ coded currencies_1 code.now }
{
    first_coded(&CURRENCIES_1, code)
}

static CURRENCIES_2: [Currency; 11] = currencies! {
    "AUD" 2 "A$" {"am" "AU$", "ar" "AU$", "ars" "AU$", "bg" "AUD", "br" "$A", "bs-cyrl" "A$", "bs" "AUD",
        "ca" "AU$", "cs" "AU$", "da" "AU$", "de" "AU$", "dsb" "AUD", "dz" "AU$", "ee" "AU$", "en-au" "$",
        "en-cc" "$", "en-cx" "$", "en-ki" "$", "en-nf" "$", "en-nr" "$", "en-tv" "$", "eo" "AUD", "es" "AUD",
        "et" "AU$", "fi" "AUD", "fr-ca" "$\u{a0}AU", "fr" "$AU", "fy" "AU$", "hr" "AUD", "hsb" "AUD", "hu" "AUD",
        "id" "AU$", "in" "AU$", "is" "AUD", "ka" "AUD", "kea" "AU$", "kgp" "AU$", "ko" "AU$", "ky" "AUD", "lb" "AU$",
        "lt" "AUD", "lv" "AU$", "mk" "AUD", "mo" "AUD", "nb" "AUD", "nl" "AU$", "nn" "AUD", "no" "AUD",
        "nqo" "$\u{7d0}", "pl" "AUD", "pt" "AU$", "ro" "AUD", "sh" "AUD", "sk" "AUD", "sl" "AUD", "sr" "AUD",
        "sv" "AUD", "th" "AU$", "to" "AUD$", "tr" "AU$", "uk" "AUD", "vec" "AUD", "vi" "AU$", "yrl" "AU$",
        "yue" "AU$", "zh" "AU$"} {};
    "AWG" 2 "AWG" {"brx" "ए.दब्ल्यु.जि", "my" "Afl", "nl-aw" "Afl.", "nqo" "\u{7ca}\u{7e5}\u{7d6}߭"} {};
    "AZN" 2 "AZN" {"az" "₼", "brx" "ए.जेत.एन", "nqo" "\u{7ca}\u{7d6}\u{7e3}"} {};
    "BAM" 2 "BAM" {"brx" "बि.ए.एम", "bs-cyrl" "КМ", "bs" "KM", "hr-ba" "KM", "nqo" "\u{7d3}\u{7cd}\u{7e1}",
        "sh" "KM", "sr-latn" "KM", "sr-me" "KM", "sr" "КМ"} {};
    "BBD" 2 "BBD" {"brx" "बि.बि.दि", "en-bb" "$", "nqo" "\u{7d3}\u{7d3}\u{7d8}", "qu" "BBG", "so" "DBB",
        "sv" "Bds$"} {};
    "BDT" 2 "BDT" {"bn" "৳", "ccp" "৳", "nqo" "\u{7d3}\u{7d8}\u{7d5}"} {};
    "BEF" 2 "BEF" {"fr" "FB"} {};
    "BGM" 2 "BGM" {"de" "BGK"} {};
    "BGN" 2 "BGN" {"bg" "лв.", "brx" "बि.जि.एन", "nqo" "\u{7d3}\u{7dc}߭\u{7df}"} {};
    "BGO" 2 "BGO" {"de" "BGJ"} {};
    "BHD" 3 "BHD" {"ar" "\u{62f}.\u{628}.\u{200f}", "ars" "\u{62f}.\u{628}.\u{200f}", "brx" "बि.ऐत्स.दि",
        "nqo" "\u{7d3}\u{7e4}\u{7d8}"} {};
};

/// The currency of this code, if the table above has it.
fn currency_in_2(code: &str) -> Option<&'static Currency>
    ensures { found_currency result ≡ coded currencies_2 code.now }
{
    first_coded(&CURRENCIES_2, code)
}

static CURRENCIES_3: [Currency; 11] = currencies! {
    "BIF" 0 "BIF" {"brx" "बि.आइ.एफ", "en-bi" "FBu", "fr-bi" "FBu", "nqo" "\u{7d3}\u{7d9}\u{7dd}", "rn" "FBu"} {};
    "BMD" 2 "BMD" {"brx" "बि.एम.डि", "en-bm" "$", "fr-ca" "BMD", "fr" "$BM", "nqo" "\u{7d3}\u{7e1}\u{7d8}",
        "qu" "DBM", "sv" "BM$"} {};
    "BND" 2 "BND" {"fr-ca" "BND", "fr" "$BN", "ms-bn" "$", "nqo" "\u{7d3}\u{7e3}\u{7d8}"} {};
    "BOB" 2 "BOB" {"brx" "बि.अ.बि", "es-bo" "Bs", "nqo" "\u{7d3}\u{7cf}\u{7d3}", "qu-bo" "Bs", "yrl" "BUB"} {};
    "BRL" 2 "R$" {"be" "BRL", "bg" "BRL", "br" "BRL", "bs-cyrl" "R$", "bs" "BRL", "ca" "BRL", "en-au" "BRL",
        "eo" "BRL", "es-br" "R$", "es" "BRL", "fi" "BRL", "hr" "BRL", "hu" "BRL", "is" "BRL", "it" "BRL", "ky" "BRL",
        "lt" "BRL", "mo" "BRL", "nb" "BRL", "nn" "BRL", "no" "BRL", "ro" "BRL", "sk" "BRL", "sl" "BRL", "sq" "BRL",
        "sv" "BR$", "uk" "BRL", "vec" "BRL"} {};
    "BSD" 2 "BSD" {"brx" "बि.एस.दि", "en-bs" "$", "nqo" "\u{7d3}\u{7db}\u{7d8}", "sv" "BS$"} {};
    "BTN" 2 "BTN" {"dz" "Nu.", "nqo" "\u{7d3}\u{7d5}\u{7d2}"} {};
    "BWP" 2 "BWP" {"brx" "बि.दब्ल्यु.पि", "en-bw" "P", "nqo" "\u{7d3}\u{7e5}\u{7d4}", "tn-bw" "P"} {};
    "BYN" 2 "BYN" {"be" "Br", "brx" "बि.वाई.एन", "nqo" "\u{7d3}\u{7cc}\u{7d9}", "ru-by" "Br"} {};
    "BYR" 0 "BYR" {} {};
    "BZD" 2 "BZD" {"brx" "बि.जेद.डि", "en-bz" "$", "es-bz" "$", "fr-ca" "BZD", "fr" "$BZ", "qu" "DBZ",
        "sv" "BZ$"} {};
};

/// The currency of this code, if the table above has it.
fn currency_in_3(code: &str) -> Option<&'static Currency>
    ensures { found_currency result ≡ coded currencies_3 code.now }
{
    first_coded(&CURRENCIES_3, code)
}

static CURRENCIES_4: [Currency; 9] = currencies! {
    "CAD" 2 "CA$" {"af" "CAD", "be" "CAD", "bg" "CAD", "br" "$CA", "brx" "सि.ए $", "bs-cyrl" "CA$", "bs" "CAD",
        "ca" "CAD", "en-au" "CAD", "en-ca" "$", "eo" "CAD", "es" "CAD", "fa" "$CA", "fi" "CAD", "fr-ca" "$",
        "fr" "$CA", "fy" "C$", "hr" "CAD", "hu" "CAD", "is" "CAD", "ky" "CAD", "lt" "CAD", "mo" "CAD", "ms" "CAD",
        "nb" "CAD", "nl" "C$", "nn" "CAD", "no" "CAD", "pcm" "KA$", "pl" "CAD", "qu" "$CA", "ro" "CAD", "sk" "CAD",
        "sl" "CAD", "uk" "CAD", "vec" "CAD"} {};
    "CDF" 2 "CDF" {"brx" "सि.दि.एफ", "fr-cd" "FC", "ln" "FC", "lu" "FC", "nqo" "\u{7de}\u{7dd}", "sw-cd" "FC"} {};
    "CHF" 2 "CHF" {"brx" "सि.ऐत्स.एफ", "nqo" "\u{7db}\u{7e5}\u{7dd}"} {};
    "CLF" 4 "CLF" {} {};
    "CLP" 0 "CLP" {"brx" "सि.एल.पि", "es-cl" "$", "fr-ca" "CLP", "fr" "$CL", "nqo" "\u{7db}\u{7df}\u{7d4}"} {};
    "CNH" 2 "CNH" {"brx" "सि.एन.ऐत्स", "nqo" "\u{7db}\u{7e6}\u{7e4}", "xh" "I-CNH"} {};
    "CNY" 2 "CN¥" {"bg" "CNY", "bo-in" "CN¥", "bo" "¥", "br" "CNY", "brx" "सिएन¥", "bs-cyrl" "CN¥", "bs" "CNY",
        "ca" "CNY", "en-au" "CNY", "eo" "CNY", "es" "CNY", "fa" "¥CN", "fi" "CNY", "fr-ca" "CN¥", "fr" "CNY",
        "he" "\u{200e}CN¥\u{200e}", "hr" "CNY", "hu" "CNY", "ii" "¥", "iw" "\u{200e}CN¥\u{200e}", "ja" "元",
        "ka" "CNY", "lt" "CNY", "mk" "CNY", "mo" "CNY", "nb" "CNY", "nn" "CNY", "no" "CNY",
        "nqo" "\u{7db}\u{7e3}\u{7e6}", "pl" "CNY", "ro" "CNY", "sk" "CNY", "sv" "CNY", "ti" "CNY", "ug" "￥",
        "uk" "CNY", "vec" "CNY", "zh-hans-hk" "CN¥", "zh-hans-mo" "CN¥", "zh-hans-sg" "CN¥", "zh-hant" "CN¥",
        "zh-hk" "CN¥", "zh-mo" "CN¥", "zh-sg" "CN¥", "zh-tw" "CN¥", "zh" "¥"} {};
    "COP" 0 "COP" {"brx" "सि.अ.पि", "es-co" "$", "fr-ca" "COP", "fr" "$CO", "nqo" "\u{7de}\u{7d0}\u{7d4}",
        "yrl" "$"} {};
    "CRC" 2 "CRC" {"brx" "सि.आर.सि", "es-cr" "₡", "nqo" "\u{7de}\u{7d9}\u{7de}"} {};
};

/// The currency of this code, if the table above has it.
fn currency_in_4(code: &str) -> Option<&'static Currency>
    ensures { found_currency result ≡ coded currencies_4 code.now }
{
    first_coded(&CURRENCIES_4, code)
}

static CURRENCIES_5: [Currency; 16] = currencies! {
    "CSK" 2 "CSK" {"cs" "Kčs"} {};
    "CUC" 2 "CUC" {"brx" "सि.इउ.सि", "nqo" "\u{7de}\u{7ce}߳\u{7de}"} {};
    "CUP" 2 "CUP" {"brx" "सि.इउ.पि", "es-cu" "$", "nqo" "\u{7de}\u{7ce}߳\u{7d4}"} {};
    "CVE" 2 "CVE" {"brx" "सि.भि.इ", "kea" "\u{200b}", "nqo" "\u{7cd}\u{7db}\u{7de}", "pt-cv" "\u{200b}"}
        {"kea" "kea-cv"};
    "CYP" 2 "CYP" {"fr" "£CY"} {};
    "CZK" 2 "CZK" {"brx" "सि.जेद.के", "bs-cyrl" "Кч", "cs" "Kč", "nqo" "\u{7d7}\u{7de}\u{7de}"} {};
    "DEM" 2 "DEM" {"de" "DM"} {};
    "DJF" 0 "DJF" {"ar-dj" "Fdj", "brx" "दि.जे.एफ", "fr-dj" "Fdj", "nqo" "\u{7d6}\u{7d3}\u{7dd}", "so-dj" "Fdj"}
        {};
    "DKK" 2 "DKK" {"brx" "दि.के.के", "da" "kr.", "en-dk" "kr.", "fo-dk" "kr.", "fo" "kr", "kl" "kr.",
        "nqo" "\u{7d8}\u{7de}\u{7de}", "se" "Dkr", "sv" "Dkr"} {};
    "DOP" 2 "DOP" {"brx" "डि.अ.पि", "es-do" "RD$", "nqo" "\u{7d8}\u{7cf}\u{7d4}", "sv" "RD$"} {};
    "DZD" 2 "DZD" {"ar" "\u{62f}.\u{62c}.\u{200f}", "ars" "\u{62f}.\u{62c}.\u{200f}", "brx" "दि.जेत.दि",
        "fr-dz" "DA", "kab" "DA", "nqo" "\u{7ca}\u{7df}\u{7d8}"} {};
    "EEK" 2 "EEK" {"et" "kr", "sv" "Ekr"} {"et" "ba"};
    "EGP" 2 "EGP" {"ar" "\u{62c}.\u{645}.\u{200f}", "ars" "\u{62c}.\u{645}.\u{200f}", "brx" "ई.जि.पि",
        "nqo" "\u{7e1}\u{7db}\u{7d4}", "sv" "EG£", "wo" "EGPP"} {};
    "ERN" 2 "ERN" {"ar-er" "Nfk", "brx" "इ.आर.एन", "en-er" "Nfk", "nqo" "\u{7cb}\u{7d9}\u{7dd}", "ti-er" "Nfk"}
        {};
    "ESP" 0 "ESP" {"ca" "₧", "es" "₧", "eu" "₧", "gl" "₧"} {"ca" "pt", "eu" "pt", "gl" "fr"};
    "ETB" 2 "ETB" {"am" "ብር", "brx" "इ.ति.बि", "nqo" "\u{7cb}\u{7d7}\u{7d3}", "om" "Br", "so-et" "Br", "ti" "Br"}
        {};
};

/// The currency of this code, if the table above has it.
fn currency_in_5(code: &str) -> Option<&'static Currency>
    ensures { found_currency result ≡ coded currencies_5 code.now }
{
    first_coded(&CURRENCIES_5, code)
}

static CURRENCIES_6: [Currency; 8] = currencies! {
    "EUR" 2 "€" {"de-ch" "EUR", "de-li" "EUR", "en-au" "EUR", "es-419" "EUR", "es-ar" "EUR", "es-bo" "EUR",
        "es-br" "EUR", "es-bz" "EUR", "es-cl" "EUR", "es-co" "EUR", "es-cr" "EUR", "es-cu" "EUR", "es-do" "EUR",
        "es-ec" "EUR", "es-gt" "EUR", "es-hn" "EUR", "es-mx" "EUR", "es-ni" "EUR", "es-pa" "EUR", "es-pe" "EUR",
        "es-pr" "EUR", "es-py" "EUR", "es-sv" "EUR", "es-us" "EUR", "es-uy" "EUR", "es-ve" "EUR", "hu" "EUR",
        "is" "EUR", "mo" "EUR", "ro" "EUR", "tk" "EUR", "uk" "EUR", "vec" "EUR"} {"en-150" "en", "en-ch" "en",
        "en-cz" "en", "en-dk" "en", "en-ge" "en", "en-hu" "en", "en-no" "en", "en-pl" "en", "en-ro" "en",
        "en-se" "en", "en-ua" "en"};
    "FIM" 2 "FIM" {"fi" "mk"} {};
    "FJD" 2 "FJD" {"en-fj" "$", "fr-ca" "FJD", "fr" "$FJ", "fy" "FJ$", "kgp" "FJC", "nl" "FJ$",
        "nqo" "$ \u{7dd}\u{7d6}"} {};
    "FKP" 2 "FKP" {"brx" "एफ.के.पि", "en-fk" "£", "fr-ca" "FKP", "fr" "£FK", "nqo" "\u{7dd}\u{7de}\u{7d4}"} {};
    "FRF" 2 "FRF" {"ca-fr" "F", "fr-lu" "FRF", "fr" "F"} {};
    "GBP" 2 "£" {"ar-ss" "GB£", "ar" "UK£", "ars" "UK£", "bg" "GBP", "br" "£ RU", "bs-cyrl" "£", "bs" "GBP",
        "en-au" "GBP", "en-fk" "GB£", "en-gi" "GB£", "en-mt" "GB£", "en-sh" "GB£", "en-ss" "GB£", "eo" "GBP",
        "es" "GBP", "fr-ca" "£", "fr" "£GB", "hr" "GBP", "hu" "GBP", "is" "GBP", "ky" "GBP", "lt" "GBP", "mk" "GBP",
        "mo" "GBP", "nn" "GBP", "nus" "GB£", "pl" "GBP", "ro" "GBP", "sk" "GBP", "sl" "GBP", "sv" "GBP", "tk" "GBP",
        "uk" "GBP", "vec" "GBP"} {};
    "GEL" 2 "GEL" {"brx" "जि.इ.एल", "en-ge" "₾", "ka" "₾", "nqo" "\u{7d6}߭\u{7d0}\u{7df}", "os-ru" "GEL",
        "os" "₾"} {};
    "GHS" 2 "GHS" {"ak" "GH₵", "brx" "जि.ऐत्स.एस", "ee" "GH₵", "en-gh" "GH₵", "ff-adlm-gh" "GH₵",
        "ff-latn-gh" "GH₵", "ha-gh" "GH₵", "nqo" "\u{7dc}߭\u{7db}\u{7d8}", "wo" "GHS."} {};
};

/// The currency of this code, if the table above has it.
fn currency_in_6(code: &str) -> Option<&'static Currency>
    ensures { found_currency result ≡ coded currencies_6 code.now }
{
    first_coded(&CURRENCIES_6, code)
}

static CURRENCIES_7: [Currency; 16] = currencies! {
    "GIP" 2 "GIP" {"brx" "जि.आइ.पि", "en-gi" "£", "fr-ca" "GIP", "fr" "£GI", "nqo" "\u{7d6}߭\u{7d3}\u{7d4}£",
        "wo" "GIIP"} {};
    "GMD" 2 "GMD" {"brx" "जि.एम.दि", "en-gm" "D", "ff-adlm-gm" "D", "ff-latn-gm" "D",
        "nqo" "\u{7dc}߭\u{7d3}\u{7d8}"} {};
    "GNF" 0 "GNF" {"brx" "जि.एन.एफ", "ff-adlm-bf" "GNF", "ff-adlm-cm" "GNF", "ff-adlm-gh" "GNF",
        "ff-adlm-gm" "GNF", "ff-adlm-gw" "GNF", "ff-adlm-lr" "GNF", "ff-adlm-mr" "GNF", "ff-adlm-ne" "GNF",
        "ff-adlm-ng" "GNF", "ff-adlm-sl" "GNF", "ff-adlm-sn" "GNF", "ff-adlm" "FG", "ff-gn" "FG", "ff-latn-gn" "FG",
        "fr-gn" "FG", "nqo" "\u{7ff}"} {};
    "GNS" 2 "GNS" {"nqo" "\u{7d6}\u{7db}\u{7fe}"} {};
    "GQE" 2 "GQE" {"nqo" "\u{7d5}\u{7d6}\u{7cb}"} {};
    "GRD" 2 "GRD" {"el" "Δρχ"} {};
    "GTQ" 2 "GTQ" {"brx" "जि.ति.किउ", "es-gt" "Q", "nqo" "\u{7dc}߭\u{7d5}\u{7de}", "wo" "GT Q"} {};
    "GWE" 2 "GWE" {"nqo" "\u{7d6}\u{7d3}\u{7cd}"} {};
    "GWP" 2 "GWP" {"nqo" "\u{7d6}\u{7d3}\u{7d4}"} {};
    "GYD" 2 "GYD" {"brx" "जि.वाई.दि", "en-gy" "$", "nqo" "\u{7dc}߭\u{7ce}߳\u{7d8}"} {};
    "HKD" 2 "HK$" {"bg" "HKD", "br" "$ HK", "brx" "ऐत्स.के$", "bs-cyrl" "HK$", "bs" "HKD", "en-au" "HKD",
        "eo" "HKD", "es" "HKD", "fa" "$HK", "fi" "HKD", "fr-ca" "$\u{a0}HK", "fr" "HKD", "hr" "HKD", "hu" "HKD",
        "it" "HKD", "ka" "HKD", "ky" "HKD", "lt" "HKD", "mk" "HKD", "mo" "HKD", "nb" "HKD", "nn" "HKD", "no" "HKD",
        "nqo" "\u{7e4}\u{7de}\u{7d8}", "pl" "HKD", "ro" "HKD", "sk" "HKD", "sv" "HKD", "uk" "HKD", "vec" "HKD"} {};
    "HNL" 2 "HNL" {"brx" "ऐत्स.एन.एल", "es-hn" "L", "nqo" "\u{7e4}\u{7d8}\u{7df}"} {};
    "HRK" 2 "HRK" {"brx" "ऐत्स.आर.के", "bs-cyrl" "HRK", "bs" "kn", "hr" "kn", "nqo" "\u{7de}\u{7db}\u{7de}",
        "wo" "HRKS"} {};
    "HTG" 2 "HTG" {"brx" "ऐत्स.ति.जि", "fr-ht" "G", "my" "G", "nqo" "\u{7e4}\u{7d5}\u{7dc}߭"} {};
    "HUF" 0 "HUF" {"brx" "ऐत्स.इउ.एफ", "hu" "Ft", "nqo" "\u{7e4}\u{7dc}߭\u{7dd}"} {};
    "IDR" 0 "IDR" {"en-id" "Rp", "id" "Rp", "in" "Rp", "jv" "Rp", "ms-id" "Rp", "nqo" "\u{7cd}߲\u{7d8}\u{7d9}",
        "su" "Rp"} {};
};

/// The currency of this code, if the table above has it.
fn currency_in_7(code: &str) -> Option<&'static Currency>
    ensures { found_currency result ≡ coded currencies_7 code.now }
{
    first_coded(&CURRENCIES_7, code)
}

static CURRENCIES_8: [Currency; 11] = currencies! {
    "IEP" 2 "IEP" {"fr" "£IE", "sv" "IE£"} {};
    "ILP" 2 "ILP" {"fr" "£IL", "he" "\u{5dc}\u{5f4}\u{5d9}", "iw" "\u{5dc}\u{5f4}\u{5d9}"} {};
    "ILR" 2 "ILR" {"zh-hant" "ILR", "zh-hk" "ILR", "zh-mo" "ILR", "zh-tw" "ILR", "zh" "ILS"} {};
    "ILS" 2 "₪" {"bg" "ILS", "br" "ILS", "bs-cyrl" "₪", "bs" "ILS", "cs" "ILS", "dz" "ILS", "en-au" "ILS",
        "eo" "ILS", "es" "ILS", "fi" "ILS", "fr-ca" "ILS", "hr" "ILS", "hu" "ILS", "ka" "ILS", "ky" "ILS",
        "lt" "ILS", "mk" "ILS", "mo" "ILS", "nb" "ILS", "nn" "ILS", "no" "ILS", "pl" "ILS", "ro" "ILS", "sk" "NIS",
        "uk" "ILS", "vec" "ILS"} {};
    "INR" 2 "₹" {"bg" "INR", "cs" "INR", "en-au" "INR", "eo" "INR", "es" "INR", "fi" "INR", "fr-ca" "INR",
        "hr" "INR", "hu" "INR", "id" "Rs", "in" "Rs", "is" "INR", "it" "INR", "ka" "INR", "ky" "INR", "lt" "INR",
        "mk" "INR", "mo" "INR", "nb" "INR", "nn" "INR", "no" "INR", "pl" "INR", "ro" "INR", "sk" "INR", "sv" "INR",
        "uk" "INR", "vec" "INR"} {};
    "IQD" 0 "IQD" {"ak" "Irak dinaa", "ar" "\u{62f}.\u{639}.\u{200f}", "ars" "\u{62f}.\u{639}.\u{200f}",
        "brx" "आइ.किउ.दि", "ckb" "\u{62f}.\u{639}.\u{200f}", "lrc" "\u{62f}.\u{639}.\u{200f}",
        "nqo" "\u{7cc}\u{7de}\u{7d8}"} {};
    "IRR" 0 "IRR" {"ar" "\u{631}.\u{625}.", "ars" "\u{631}.\u{625}.", "fa" "\u{631}\u{6cc}\u{627}\u{644}",
        "nqo" "\u{7cc}\u{7d9}\u{7d9}"} {};
    "ISK" 0 "ISK" {"brx" "आई.एस.के", "is" "kr.", "nqo" "\u{7cc}\u{7db}\u{7de}", "sv" "Ikr"} {};
    "ITL" 0 "ITL" {"fr" "₤IT"} {"it" "pt"};
    "JMD" 2 "JMD" {"brx" "जे.एम.दि", "en-jm" "$", "nqo" "\u{7d6}\u{7e1}\u{7d8}", "sv" "JM$"} {};
    "JOD" 3 "JOD" {"ar" "\u{62f}.\u{623}.\u{200f}", "ars" "\u{62f}.\u{623}.\u{200f}", "brx" "जे.अ.दि",
        "nqo" "\u{7d6}\u{7d0}\u{7d8}"} {};
};

/// The currency of this code, if the table above has it.
fn currency_in_8(code: &str) -> Option<&'static Currency>
    ensures { found_currency result ≡ coded currencies_8 code.now }
{
    first_coded(&CURRENCIES_8, code)
}

static CURRENCIES_9: [Currency; 1] = currencies! {
    "JPY" 0 "JP¥" {"ast" "¥", "be" "¥", "bg" "JPY", "br" "JPY", "bs" "¥", "ca" "¥", "de" "¥", "doi" "¥",
        "dsb" "¥", "en-001" "JP¥", "en-150" "JP¥", "en-ag" "JP¥", "en-ai" "JP¥", "en-at" "JP¥", "en-au" "JPY",
        "en-bb" "JP¥", "en-be" "JP¥", "en-bm" "JP¥", "en-bs" "JP¥", "en-bw" "JP¥", "en-bz" "JP¥", "en-ca" "JP¥",
        "en-cc" "JP¥", "en-ch" "JP¥", "en-ck" "JP¥", "en-cm" "JP¥", "en-cx" "JP¥", "en-cy" "JP¥", "en-cz" "JP¥",
        "en-de" "JP¥", "en-dg" "JP¥", "en-dk" "JP¥", "en-dm" "JP¥", "en-ee" "JP¥", "en-er" "JP¥", "en-es" "JP¥",
        "en-fi" "JP¥", "en-fj" "JP¥", "en-fk" "JP¥", "en-fm" "JP¥", "en-fr" "JP¥", "en-gb" "JP¥", "en-gd" "JP¥",
        "en-ge" "JP¥", "en-gg" "JP¥", "en-gh" "JP¥", "en-gi" "JP¥", "en-gm" "JP¥", "en-gs" "JP¥", "en-gy" "JP¥",
        "en-hk" "JP¥", "en-hu" "JP¥", "en-id" "JP¥", "en-ie" "JP¥", "en-il" "JP¥", "en-im" "JP¥", "en-in" "JP¥",
        "en-io" "JP¥", "en-it" "JP¥", "en-je" "JP¥", "en-jm" "JP¥", "en-ke" "JP¥", "en-ki" "JP¥", "en-kn" "JP¥",
        "en-ky" "JP¥", "en-lc" "JP¥", "en-lr" "JP¥", "en-ls" "JP¥", "en-lt" "JP¥", "en-lv" "JP¥", "en-mg" "JP¥",
        "en-mo" "JP¥", "en-ms" "JP¥", "en-mt" "JP¥", "en-mu" "JP¥", "en-mv" "JP¥", "en-mw" "JP¥", "en-my" "JP¥",
        "en-na" "JP¥", "en-nf" "JP¥", "en-ng" "JP¥", "en-nh" "JP¥", "en-nl" "JP¥", "en-no" "JP¥", "en-nr" "JP¥",
        "en-nu" "JP¥", "en-nz" "JP¥", "en-pg" "JP¥", "en-pk" "JP¥", "en-pl" "JP¥", "en-pn" "JP¥", "en-pt" "JP¥",
        "en-pw" "JP¥", "en-rh" "JP¥", "en-ro" "JP¥", "en-rw" "JP¥", "en-sb" "JP¥", "en-sc" "JP¥", "en-sd" "JP¥",
        "en-se" "JP¥", "en-sg" "JP¥", "en-sh" "JP¥", "en-si" "JP¥", "en-sk" "JP¥", "en-sl" "JP¥", "en-ss" "JP¥",
        "en-sx" "JP¥", "en-sz" "JP¥", "en-tc" "JP¥", "en-tk" "JP¥", "en-to" "JP¥", "en-tt" "JP¥", "en-tv" "JP¥",
        "en-tz" "JP¥", "en-ua" "JP¥", "en-ug" "JP¥", "en-vc" "JP¥", "en-vg" "JP¥", "en-vu" "JP¥", "en-ws" "JP¥",
        "en-za" "JP¥", "en-zm" "JP¥", "en-zw" "JP¥", "en" "¥", "eo" "JPY", "es-us" "¥", "es" "JPY", "et" "¥",
        "fa" "¥", "fi" "¥", "fil" "¥", "fr-ca" "¥", "fr" "JPY", "ga" "¥", "gsw" "¥", "ha" "¥", "he" "¥", "hr" "JPY",
        "hsb" "¥", "hu" "¥", "ig" "¥", "it" "JPY", "iw" "¥", "ja" "￥", "ka" "JPY", "ks-deva" "JP¥", "ks" "¥",
        "lb" "¥", "lt" "JPY", "lv" "¥", "mi" "¥", "mk" "JPY", "ml" "¥", "mo" "JPY", "nb" "JPY", "nn" "JPY",
        "no" "JPY", "nqo" "\u{7d7}߭\u{7d4}\u{7e6}", "or" "¥", "pl" "JPY", "ro" "JPY", "ru" "¥", "sd-deva" "¥",
        "sd-in" "¥", "sh" "¥", "sk" "JPY", "sl" "¥", "sr" "¥", "su" "¥", "sv" "JPY", "ta" "¥", "th" "¥", "ti" "JPY",
        "tl" "¥", "tr" "¥", "uk" "¥", "vec" "JPY", "vi" "¥", "wae" "¥", "xh" "¥", "yue" "¥", "zh-hant" "¥",
        "zh-hk" "¥", "zh-mo" "¥", "zh-tw" "¥"} {};
};

/// The currency of this code, if the table above has it.
fn currency_in_9(code: &str) -> Option<&'static Currency>
    ensures { found_currency result ≡ coded currencies_9 code.now }
{
    first_coded(&CURRENCIES_9, code)
}

static CURRENCIES_10: [Currency; 13] = currencies! {
    "KES" 2 "KES" {"brx" "के.इ.एस", "dav" "Ksh", "ebu" "Ksh", "en-ke" "Ksh", "guz" "Ksh", "kam" "Ksh",
        "ki" "Ksh", "kln" "Ksh", "luo" "Ksh", "luy" "Ksh", "mas" "Ksh", "mer" "Ksh", "nqo" "\u{7de}\u{7cb}\u{7db}",
        "om-ke" "Ksh", "saq" "Ksh", "so-ke" "Ksh", "sw" "Ksh", "teo-ke" "Ksh"} {};
    "KGS" 2 "KGS" {"brx" "के.जि.एस", "ky" "сом", "nqo" "\u{7de}\u{7dc}߭\u{7db}", "ru-kg" "сом"} {};
    "KHR" 2 "KHR" {"km" "៛", "nqo" "\u{7de}\u{7d3}\u{7d9}"} {};
    "KMF" 0 "KMF" {"ar-km" "CF", "brx" "के.एम.एफ", "fr-km" "CF", "nqo" "\u{7de}\u{7e1}\u{7dd}"} {};
    "KPW" 0 "KPW" {"brx" "के.पि.दब्ल्यु", "nqo" "\u{7de}\u{7de}\u{7e5}"} {};
    "KRW" 0 "₩" {"bg" "KRW", "br" "KRW", "cy" "KRW", "dz" "KR₩", "en-au" "KRW", "eo" "KRW", "es" "KRW",
        "fi" "KRW", "fr-ca" "KRW", "hr" "KRW", "hu" "KRW", "is" "KRW", "it" "KRW", "ka" "KRW", "ky" "KRW",
        "lt" "KRW", "mk" "KRW", "mo" "KRW", "nb" "KRW", "nn" "KRW", "no" "KRW", "pl" "KRW", "ro" "KRW", "sh" "KRW",
        "sk" "KRW", "sr" "KRW", "sv" "KRW", "uk" "KRW", "vec" "KRW", "yue" "￦", "zh-hant-hk" "₩", "zh-hant-mo" "₩",
        "zh-hant" "￦", "zh-tw" "￦"} {};
    "KWD" 3 "KWD" {"ar" "\u{62f}.\u{643}.\u{200f}", "ars" "\u{62f}.\u{643}.\u{200f}", "brx" "के.दब्ल्यु.दि",
        "nqo" "\u{7de}\u{7e5}\u{7d8}"} {};
    "KYD" 2 "KYD" {"brx" "के.वाई.दि", "en-ky" "$", "nqo" "\u{7de}\u{7cc}\u{7d8}"} {};
    "KZT" 2 "KZT" {"brx" "के.जेत.ति", "kk" "₸", "nqo" "\u{7de}\u{7d7}߭\u{7d5}", "ru-kz" "₸"} {};
    "LAK" 0 "LAK" {"lo" "₭", "nqo" "\u{7df}\u{7ca}\u{7de}"} {};
    "LBP" 0 "LBP" {"ar" "\u{644}.\u{644}.\u{200f}", "ars" "\u{644}.\u{644}.\u{200f}", "brx" "एल.बि.पि",
        "fr-ca" "LBP", "fr" "£LB", "nqo" "\u{7df}\u{7d3}£"} {};
    "LKR" 2 "LKR" {"nqo" "\u{7df}\u{7de}\u{7d9}", "si" "රු.", "ta-lk" "Rs."} {};
    "LRD" 2 "LRD" {"brx" "एल.आर.दि", "en-lr" "$", "ff-adlm-lr" "$", "ff-latn-lr" "$", "nqo" "\u{7df}\u{7fe}",
        "vai" "$"} {};
};

/// The currency of this code, if the table above has it.
fn currency_in_10(code: &str) -> Option<&'static Currency>
    ensures { found_currency result ≡ coded currencies_10 code.now }
{
    first_coded(&CURRENCIES_10, code)
}

static CURRENCIES_11: [Currency; 20] = currencies! {
    "LSL" 2 "LSL" {"brx" "एल.एस.एल", "kk-arab" "LSL", "kk" "ЛСЛ", "km" "ឡូទី", "nqo" "\u{7df}\u{7db}\u{7df}",
        "st-ls" "M"} {};
    "LUF" 0 "LUF" {"de-lu" "F", "fr-lu" "F", "pt-lu" "F"} {"de-lu" "my"};
    "LVL" 2 "LVL" {"lv" "Ls"} {};
    "LYD" 3 "LYD" {"ar" "\u{62f}.\u{644}.\u{200f}", "ars" "\u{62f}.\u{644}.\u{200f}", "brx" "एल.वाई.दि",
        "nqo" "\u{7df}\u{7d3}\u{7d8}"} {};
    "MAD" 2 "MAD" {"ar" "\u{62f}.\u{645}.\u{200f}", "ars" "\u{62f}.\u{645}.\u{200f}", "brx" "एम.ए.दि",
        "nqo" "\u{7e1}\u{7d8}\u{7e4}"} {};
    "MAF" 2 "MAF" {"nqo" "\u{7e1}\u{7d9}\u{7dd}"} {};
    "MDL" 2 "MDL" {"brx" "एम.डि.एल", "nqo" "\u{7e1}\u{7d8}\u{7df}", "ro-md" "L", "ru-md" "L", "wo" "Vote MDL"} {};
    "MGA" 0 "MGA" {"brx" "एम.जि.ए", "en-mg" "Ar", "fr-mg" "Ar", "mg" "Ar", "nqo" "\u{7e1}\u{7d8}\u{7d9}"} {};
    "MGF" 0 "MGF" {"nqo" "\u{7e1}\u{7d8}\u{7dd}"} {};
    "MKD" 2 "MKD" {"brx" "एम.के.दि", "mk" "ден.", "nqo" "\u{7e1}\u{7de}\u{7d8}", "sq-mk" "den"} {};
    "MLF" 2 "MLF" {"nqo" "\u{7e1}\u{7dd}"} {};
    "MMK" 0 "MMK" {"my" "K", "nqo" "\u{7e1}\u{7e1}\u{7de}"} {};
    "MNT" 2 "MNT" {"brx" "एम.एन.ति", "mn" "₮", "nqo" "\u{7e1}\u{7e3}\u{7d5}"} {};
    "MOP" 2 "MOP" {"brx" "एम.अ.पि", "en-mo" "MOP$", "nqo" "\u{7e1}\u{7cf}\u{7d4}", "pt-mo" "MOP$",
        "zh-hans-mo" "MOP$", "zh-hant-mo" "MOP$", "zh-mo" "MOP$"} {};
    "MRO" 0 "MRO" {"es-mx" "MRU", "nqo" "\u{7e1}\u{7d9}\u{7cf}"} {};
    "MRU" 2 "MRU" {"ar" "\u{623}.\u{645}.", "ars" "\u{623}.\u{645}.", "brx" "एम.आर.इउ", "es-mx" "UM",
        "ff-adlm-mr" "UM", "ff-latn-mr" "UM", "ff-mr" "UM", "fr-mr" "UM", "nqo" "\u{7e1}\u{7ce}\u{7dc}߭"} {};
    "MTP" 2 "MTP" {"fr" "£MT"} {};
    "MUR" 2 "MUR" {"brx" "एम.इउ.आर", "en-mu" "Rs", "fr-mu" "Rs", "mfe" "Rs", "nqo" "\u{7e1}\u{7d9}\u{7d4}"} {};
    "MVR" 2 "MVR" {"en-mv" "Rf", "nqo" "\u{7e1}\u{7dd}߭\u{7d9}"} {};
    "MWK" 2 "MWK" {"brx" "एम.दब्ल्यु.के", "en-mw" "MK", "nqo" "\u{7e1}\u{7df}\u{7de}"} {};
};

/// The currency of this code, if the table above has it.
fn currency_in_11(code: &str) -> Option<&'static Currency>
    ensures { found_currency result ≡ coded currencies_11 code.now }
{
    first_coded(&CURRENCIES_11, code)
}

static CURRENCIES_12: [Currency; 11] = currencies! {
    "MXN" 2 "MX$" {"af" "MXN", "bg" "MXN", "brx" "एम.एक्स $", "bs-cyrl" "MX$", "bs" "MXN", "ca" "MXN",
        "en-au" "MXN", "eo" "MXN", "es-mx" "$", "es" "MXN", "fa" "$MX", "fi" "MXN", "fr-ca" "MXN", "fr" "$MX",
        "gl" "$MX", "hr" "MXN", "hu" "MXN", "is" "MXN", "it" "MXN", "ky" "MXN", "lt" "MXN", "mo" "MXN", "ms" "MXN",
        "nb" "MXN", "nn" "MXN", "no" "MXN", "nqo" "\u{7e1}\u{7de}$", "pl" "MXN", "ro" "MXN", "sl" "MXN", "uk" "MXN",
        "vec" "MXN"} {};
    "MYR" 2 "MYR" {"en-my" "RM", "ms" "RM", "nqo" "\u{7e1}\u{7e6}\u{7d9}", "ta-my" "RM", "ta-sg" "RM"} {};
    "MZE" 2 "MZE" {"nqo" "\u{7e1}\u{7d6}߭\u{7cb}"} {};
    "MZM" 2 "MZM" {"nqo" "\u{7e1}\u{7d6}\u{7e1}"} {};
    "MZN" 2 "MZN" {"brx" "एम.जेत.एन", "mgh" "MTn", "nqo" "\u{7e1}\u{7d6}߭\u{7e1}", "pt-mz" "MTn", "seh" "MTn"} {};
    "NAD" 2 "NAD" {"af-na" "$", "brx" "एन.ए.दि", "en-na" "$", "fr-ca" "NAD", "fr" "$NA", "naq" "$",
        "nqo" "\u{7e3}\u{7e1}\u{7d8}"} {};
    "NGN" 2 "NGN" {"brx" "एन.जि.एन", "en-ng" "₦", "ff-adlm-ng" "₦", "ff-adlm" "\u{1e910}\u{1e910}\u{1e918}",
        "ff-latn-ng" "₦", "ha" "₦", "ig" "₦", "nqo" "\u{7d6}\u{7e3}", "pcm" "₦", "wo" "NGN.", "yo" "₦"} {};
    "NIO" 2 "NIO" {"brx" "एन.आई.अ", "es-ni" "C$", "nqo" "\u{7e3}\u{7cc}\u{7cf}"} {};
    "NLG" 2 "NLG" {"ia" "ƒ"} {};
    "NOK" 2 "NOK" {"brx" "एन.अ.के", "en-no" "kr", "nb" "kr", "nn" "kr", "no" "kr", "nqo" "\u{7e3}\u{7d0}\u{7de}",
        "se-se" "Nkr", "se" "kr", "sv" "Nkr"} {};
    "NPR" 2 "NPR" {"ne" "नेरू", "nqo" "\u{7e3}\u{7d4}\u{7d9}"} {};
};

/// The currency of this code, if the table above has it.
fn currency_in_12(code: &str) -> Option<&'static Currency>
    ensures { found_currency result ≡ coded currencies_12 code.now }
{
    first_coded(&CURRENCIES_12, code)
}

static CURRENCIES_13: [Currency; 5] = currencies! {
    "NZD" 2 "NZ$" {"be" "NZD", "bg" "NZD", "br" "$ ZN", "bs-cyrl" "NZ$", "bs" "NZD", "en-au" "NZD", "en-ck" "$",
        "en-nu" "$", "en-nz" "$", "en-pn" "$", "en-tk" "$", "eo" "NZD", "es" "NZD", "fa" "$NZ", "fi" "NZD",
        "fr-ca" "$\u{a0}NZ", "fr" "$NZ", "hr" "NZD", "hu" "NZD", "is" "NZD", "ka" "NZD", "ky" "NZD", "lt" "NZD",
        "mi" "$", "mk" "NZD", "mo" "NZD", "nb" "NZD", "nn" "NZD", "no" "NZD", "nqo" "$\u{7e3}\u{7d6}߭", "pl" "NZD",
        "ro" "NZD", "sh" "NZD", "sk" "NZD", "sl" "NZD", "sr" "NZD", "sv" "NZD", "to" "NZD$", "uk" "NZD", "vec" "NZD"}
        {};
    "OMR" 3 "OMR" {"ar" "\u{631}.\u{639}.\u{200f}", "ars" "\u{631}.\u{639}.\u{200f}", "brx" "अ.एम.आर",
        "nqo" "\u{7cf}\u{7e1}\u{7d9}"} {};
    "PAB" 2 "PAB" {"brx" "पि.ए.बि", "es-pa" "B/.", "my" "B/.", "nqo" "\u{7d4}\u{7ca}\u{7d3}"} {};
    "PEN" 2 "PEN" {"brx" "पि.इ.एन", "es-pe" "S/", "nqo" "\u{7d4}\u{7cb}\u{7db}", "qu-bo" "PEN", "qu-ec" "PEN",
        "qu" "S/"} {};
    "PGK" 2 "PGK" {"en-pg" "K", "ff-adlm" "\u{1e911}\u{1e906}\u{1e918}", "nqo" "\u{7d4}\u{7d6}\u{7de}"} {};
};

/// The currency of this code, if the table above has it.
fn currency_in_13(code: &str) -> Option<&'static Currency>
    ensures { found_currency result ≡ coded currencies_13 code.now }
{
    first_coded(&CURRENCIES_13, code)
}

static CURRENCIES_14: [Currency; 1] = currencies! {
    "PHP" 2 "₱" {"af" "PHP", "am" "PHP", "ar" "PHP", "ars" "PHP", "as" "PHP", "ast" "PHP", "az-cyrl" "₱",
        "az" "PHP", "be" "PHP", "bg" "PHP", "bn" "PHP", "br" "PHP", "bs-cyrl" "₱", "bs" "PHP", "ca" "PHP",
        "ccp" "PHP", "ce" "PHP", "chr" "PHP", "cs" "PHP", "cy" "PHP", "da" "PHP", "de" "PHP", "el" "PHP",
        "en-au" "PHP", "eo" "PHP", "es-ph" "₱", "es" "PHP", "et" "PHP", "eu" "PHP", "fa" "PHP",
        "ff-adlm" "\u{1e906}\u{1e906}\u{1e916}", "fi" "PHP", "fo" "PHP", "fr" "PHP", "gd" "PHP", "gl" "PHP",
        "gu" "PHP", "he" "PHP", "hi-latn" "₱", "hi" "PHP", "hr" "PHP", "hu" "PHP", "hy" "PHP", "id" "PHP",
        "in" "PHP", "is" "PHP", "iw" "PHP", "ja" "PHP", "ka" "PHP", "kgp" "PHP", "kk-arab" "₱", "kk" "PHP",
        "km" "PHP", "kn" "PHP", "ko" "PHP", "kok-latn" "₱", "kok" "PHP", "ky" "PHP", "lb" "PHP", "lo" "PHP",
        "lt" "PHP", "lv" "PHP", "mk" "PHP", "ml" "PHP", "mn" "PHP", "mo" "PHP", "mr" "PHP", "ms" "PHP", "mt" "PHP",
        "mzn" "PHP", "nb" "PHP", "ne" "PHP", "nl" "PHP", "nn" "PHP", "no" "PHP", "or" "PHP", "pa-arab" "₱",
        "pa-pk" "₱", "pa" "PHP", "pcm" "PHP", "pl" "PHP", "pt" "PHP", "qu" "PHP", "ro" "PHP", "ru" "PHP",
        "sd-deva" "₱", "sd-in" "₱", "sd" "PHP", "sh" "PHP", "si" "PHP", "sk" "PHP", "sl" "PHP", "sq" "PHP",
        "sr" "PHP", "sv" "PHP", "sw" "PHP", "ta" "PHP", "te" "PHP", "th" "PHP", "tk" "PHP", "tr" "PHP", "uk" "PHP",
        "ur" "PHP", "uz-af" "₱", "uz-arab" "₱", "uz-cyrl" "₱", "uz" "PHP", "vec" "PHP", "vi" "PHP", "yrl" "PHP",
        "yue" "PHP", "zh" "PHP", "zu" "PHP"} {};
};

/// The currency of this code, if the table above has it.
fn currency_in_14(code: &str) -> Option<&'static Currency>
    ensures { found_currency result ≡ coded currencies_14 code.now }
{
    first_coded(&CURRENCIES_14, code)
}

static CURRENCIES_15: [Currency; 14] = currencies! {
    "PKR" 0 "PKR" {"en-pk" "Rs", "nqo" "\u{7d4}\u{7de}\u{7d9}", "pa-arab" "\u{631}", "pa-pk" "\u{631}",
        "ps-pk" "Rs", "sd-deva" "PKR", "sd-in" "PKR", "sd" "Rs", "ur-in" "PKR", "ur" "Rs"} {};
    "PLN" 2 "PLN" {"brx" "पि.एल.एन", "bs-cyrl" "зл", "dsb" "zł", "hsb" "zł", "nqo" "\u{7d4}\u{7df}\u{7d7}߭",
        "pl" "zł", "szl" "zł"} {};
    "PTE" 2 "PTE" {"kgp" "Vẽj.", "pt-ao" "\u{200b}", "pt-ch" "\u{200b}", "pt-cv" "PTE", "pt-gq" "\u{200b}",
        "pt-gw" "\u{200b}", "pt-lu" "\u{200b}", "pt-mo" "\u{200b}", "pt-mz" "\u{200b}", "pt-pt" "\u{200b}",
        "pt-st" "\u{200b}", "pt-tl" "\u{200b}", "pt" "Esc.", "yrl" "Esc."} {"pt-ao" "pt-ao-pte", "pt-ch" "pt-ao-pte",
        "pt-gq" "pt-ao-pte", "pt-gw" "pt-ao-pte", "pt-lu" "pt-ao-pte", "pt-mo" "pt-ao-pte", "pt-mz" "pt-ao-pte",
        "pt-pt" "pt-ao-pte", "pt-st" "pt-ao-pte", "pt-tl" "pt-ao-pte"};
    "PYG" 0 "PYG" {"brx" "पि.आई.जि", "es-py" "Gs.", "nqo" "\u{7d4}\u{7d9}\u{7dc}߭"} {};
    "QAR" 2 "QAR" {"ar" "\u{631}.\u{642}.\u{200f}", "ars" "\u{631}.\u{642}.\u{200f}", "brx" "किउ.ए.आर",
        "nqo" "\u{7de}\u{7ca}\u{7d9}"} {};
    "RHD" 2 "RHD" {"fr" "$RH", "nqo" "\u{7d6}߭\u{7d3}\u{7d8}"} {};
    "RON" 2 "RON" {"brx" "आर.अ.एन", "kok-latn" "RON", "kok" "रॉन", "nqo" "\u{7d9}\u{7ce}\u{7df}"} {};
    "RSD" 2 "RSD" {"brx" "आर.एस.दि", "bs-cyrl" "дин.", "bs" "din.", "nqo" "\u{7d9}\u{7db}\u{7d8}"} {};
    "RUB" 2 "RUB" {"be" "₽", "brx" "रूब", "ce" "₽", "cv" "₽", "ia" "₽", "kk-arab" "RUB", "kk" "₽",
        "nqo" "\u{7cc}\u{7ce}\u{7d9}", "os-ru" "₽", "ru" "₽", "sah" "₽", "tt" "₽", "yo" "₽"} {};
    "RUR" 2 "RUR" {"ba" "р.", "ru-by" "RUR", "ru" "р."} {};
    "RWF" 0 "RWF" {"en-rw" "RF", "fr-rw" "RF", "nqo" "\u{7d9}\u{7e5}\u{7dd}", "rw" "RF"} {};
    "SAR" 2 "SAR" {"ar" "\u{631}.\u{633}.\u{200f}", "ars" "\u{631}.\u{633}.\u{200f}", "brx" "एस.ए.आर",
        "nqo" "\u{7db}\u{7ca}\u{7d9}"} {};
    "SBD" 2 "SBD" {"en-sb" "$", "fr-ca" "SBD", "fr" "$SB", "fy" "SI$", "nl" "SI$", "nqo" "\u{7db}\u{7d3}\u{7d8}"}
        {};
    "SCR" 2 "SCR" {"brx" "एस.सि.आर", "en-au" "Rs", "en-sc" "SR", "fr-sc" "SR", "nqo" "\u{7db}\u{7db}\u{7e5}",
        "yrl" "SCRu"} {};
};

/// The currency of this code, if the table above has it.
fn currency_in_15(code: &str) -> Option<&'static Currency>
    ensures { found_currency result ≡ coded currencies_15 code.now }
{
    first_coded(&CURRENCIES_15, code)
}

static CURRENCIES_16: [Currency; 15] = currencies! {
    "SDD" 2 "SDD" {"ar" "\u{62f}.\u{633}.\u{200f}", "ars" "\u{62f}.\u{633}.\u{200f}",
        "nqo" "\u{7db}\u{7d8}\u{7d8}"} {};
    "SDG" 2 "SDG" {"ar-lb" "SDG", "ar" "\u{62c}.\u{633}.", "ars" "\u{62c}.\u{633}.", "brx" "एस.दि.जि",
        "nqo" "\u{7db}\u{7d8}\u{7dc}߭"} {};
    "SDP" 2 "SDP" {"nqo" "\u{7db}\u{7d8}\u{7d4}"} {};
    "SEK" 2 "SEK" {"brx" "एस.इ.के", "en-se" "kr", "nqo" "\u{7db}\u{7e5}\u{7de}", "se-se" "kr", "se" "Skr",
        "sv" "kr"} {};
    "SGD" 2 "SGD" {"en-sg" "$", "fr-ca" "$\u{a0}SG", "fr" "$SG", "ms-sg" "$", "nqo" "\u{7db}\u{7dc}߭\u{7d8}",
        "ta-my" "S$", "ta-sg" "$", "zh-hans-sg" "$", "zh-sg" "$"} {};
    "SHP" 2 "SHP" {"brx" "एस.ऐत्स.पि", "en-sh" "£", "nqo" "\u{7db}\u{7e4}\u{7d4}"} {};
    "SLE" 2 "SLE" {"brx" "एस.एल.इ", "en-sl" "Le", "ff-adlm-sl" "Le", "ff-latn-sl" "Le",
        "nqo" "\u{7db}\u{7d9}\u{7d4}"} {};
    "SLL" 0 "SLL" {"brx" "एस.एल.एल", "nqo" "\u{7db}\u{7df}\u{7df}"} {};
    "SOS" 0 "SOS" {"ar-so" "S", "brx" "एस.अ.एस", "nqo" "\u{7db}\u{7e1}\u{7db}", "so" "S"} {};
    "SRD" 2 "SRD" {"brx" "एस.आर.डि", "fr-ca" "SRD", "fr" "$SR", "nl-sr" "$", "nqo" "\u{7db}\u{7ce}\u{7d8}"} {};
    "SSP" 2 "SSP" {"ar-ss" "£", "brx" "एस.एस.पि", "en-ss" "£", "nqo" "\u{7db}\u{7db}\u{7d4}", "nus" "£"} {};
    "STD" 0 "STD" {"nqo" "\u{7db}\u{7d5}\u{7d8}"} {};
    "STN" 2 "STN" {"brx" "एस.ति.एन", "nqo" "\u{7db}\u{7d4}\u{7d8}", "pt-st" "Db"} {};
    "SYP" 0 "SYP" {"ar" "\u{644}.\u{633}.\u{200f}", "ars" "\u{644}.\u{633}.\u{200f}", "brx" "एस.वाई.पि",
        "fr-sy" "LS", "nqo" "\u{7db}\u{7cc}\u{7d4}", "syr" "\u{644}.\u{633}.\u{200f}"} {};
    "SZL" 2 "SZL" {"brx" "एस.जेत.एल", "en-sz" "E", "nqo" "\u{7db}\u{7d6}߭\u{7df}"} {};
};

/// The currency of this code, if the table above has it.
fn currency_in_16(code: &str) -> Option<&'static Currency>
    ensures { found_currency result ≡ coded currencies_16 code.now }
{
    first_coded(&CURRENCIES_16, code)
}

static CURRENCIES_17: [Currency; 7] = currencies! {
    "THB" 2 "THB" {"af" "฿", "am" "฿", "ar" "฿", "ars" "฿", "ast" "฿", "az-cyrl" "THB", "az" "฿", "bn" "฿",
        "bs-cyrl" "THB", "bs" "฿", "ca" "฿", "ccp" "฿", "cy" "฿", "da" "฿", "de" "฿", "dsb" "฿", "dz" "TH฿",
        "ee" "฿", "el" "฿", "es-419" "THB", "es-ar" "THB", "es-bo" "THB", "es-br" "THB", "es-bz" "THB",
        "es-cl" "THB", "es-co" "THB", "es-cr" "THB", "es-cu" "THB", "es-do" "THB", "es-ec" "THB", "es-gt" "THB",
        "es-hn" "THB", "es-mx" "THB", "es-ni" "THB", "es-pa" "THB", "es-pe" "THB", "es-pr" "THB", "es-py" "THB",
        "es-sv" "THB", "es-us" "THB", "es-uy" "THB", "es-ve" "THB", "es" "฿", "et" "฿", "eu" "฿", "fa" "฿",
        "fil" "฿", "fy" "฿", "ga" "฿", "gd" "฿", "gl" "฿", "gu" "฿", "he" "฿", "hi-latn" "THB", "hi" "฿", "hsb" "฿",
        "hy" "฿", "id" "฿", "in" "฿", "it" "฿", "iw" "฿", "kea" "฿", "kgp" "฿", "kk-arab" "THB", "kk" "฿", "km" "฿",
        "kn" "฿", "ky" "฿", "lb" "฿", "lo" "฿", "lv" "฿", "ml" "฿", "mn" "฿", "mr" "฿", "my" "฿", "ne" "฿", "nl" "฿",
        "nqo" "\u{7d5}\u{7d8}\u{7d3}", "pa-arab" "THB", "pa-pk" "THB", "pa" "฿", "pt" "฿", "ru" "฿", "se" "฿",
        "si" "฿", "sq" "฿", "sw" "฿", "ta" "฿", "te" "฿", "th" "฿", "tl" "฿", "tr" "฿", "ur" "฿", "uz-cyrl" "฿",
        "vi" "฿", "yrl" "฿", "zu" "฿"} {};
    "TJS" 2 "TJS" {"brx" "ति.जे.एस", "nqo" "\u{7d5}\u{7d6}\u{7db}", "tg" "сом."} {};
    "TMM" 0 "TMM" {} {};
    "TMT" 2 "TMT" {"brx" "ति.एम.ति", "nqo" "\u{7d5}\u{7e1}\u{7d5}", "ru" "ТМТ"} {};
    "TND" 3 "TND" {"ar" "\u{62f}.\u{62a}.\u{200f}", "ars" "\u{62f}.\u{62a}.\u{200f}", "brx" "ति.एन.दि",
        "fr-tn" "DT", "nqo" "\u{7d5}\u{7e3}\u{7d8}"} {};
    "TOP" 2 "TOP" {"en-to" "T$", "nqo" "\u{7d5}\u{7cf}\u{7d4}", "to" "T$"} {};
    "TRL" 0 "TRL" {} {};
};

/// The currency of this code, if the table above has it.
fn currency_in_17(code: &str) -> Option<&'static Currency>
    ensures { found_currency result ≡ coded currencies_17 code.now }
{
    first_coded(&CURRENCIES_17, code)
}

static CURRENCIES_18: [Currency; 8] = currencies! {
    "TRY" 2 "TRY" {"brx" "ति.आर.वाई", "bs-cyrl" "Тл", "ku" "₺", "nqo" "\u{7d5}\u{7ce}\u{7df}", "tr" "₺"} {};
    "TTD" 2 "TTD" {"brx" "ति.ति.डि", "en-tt" "$", "fr-ca" "TTD", "fr" "$TT", "my" "TT$",
        "nqo" "\u{7d5}\u{7d5}\u{7d8}"} {};
    "TWD" 2 "NT$" {"bg" "TWD", "br" "TWD", "brx" "एन.ति$", "en-au" "TWD", "eo" "TWD", "es" "TWD", "fi" "TWD",
        "fr" "TWD", "hr" "TWD", "hu" "TWD", "is" "TWD", "it" "TWD", "ky" "TWD", "lt" "TWD", "mk" "TWD", "mo" "TWD",
        "nb" "TWD", "nn" "TWD", "no" "TWD", "nqo" "\u{7d5}\u{7e5}\u{7d8}", "pl" "TWD", "ro" "TWD", "sk" "TWD",
        "sl" "TWD", "sv" "TWD", "uk" "TWD", "vec" "TWD", "zh-hant-hk" "NT$", "zh-hant-mo" "NT$", "zh-hant" "$",
        "zh-tw" "$"} {};
    "TZS" 2 "TZS" {"asa" "TSh", "bez" "TSh", "brx" "ति.जेत.एस", "en-tz" "TSh", "jmc" "TSh", "kde" "TSh",
        "ksb" "TSh", "lag" "TSh", "mas-tz" "TSh", "nqo" "\u{7d5}\u{7d6}߭\u{7db}", "rof" "TSh", "rwk" "TSh",
        "sbp" "TSh", "sw" "TSh", "vun" "TSh"} {};
    "UAH" 2 "UAH" {"brx" "इउ.ए.ऐत्स", "nqo" "\u{7cc}\u{7de}\u{7e4}", "ru" "₴", "uk" "₴"} {};
    "UAK" 2 "UAK" {"uk" "крб."} {};
    "UGS" 2 "UGS" {"nqo" "\u{7ce}\u{7dc}߭\u{7e5}"} {};
    "UGX" 0 "UGX" {"brx" "इउ.जि.एक्स", "cgg" "USh", "en-ug" "USh", "lg" "USh", "nqo" "\u{7ce}\u{7dc}߭\u{7db}",
        "nyn" "USh", "sw-ug" "USh", "teo" "USh", "xog" "USh"} {};
};

/// The currency of this code, if the table above has it.
fn currency_in_18(code: &str) -> Option<&'static Currency>
    ensures { found_currency result ≡ coded currencies_18 code.now }
{
    first_coded(&CURRENCIES_18, code)
}

static CURRENCIES_19: [Currency; 1] = currencies! {
    "USD" 2 "US$" {"af" "USD", "ast" "$", "ba" "$", "be" "$", "bg" "щ.д.", "bn-in" "$", "br" "$ SU", "brx" "$",
        "bs-cyrl" "US$", "bs" "USD", "ca" "USD", "ceb" "US $", "chr" "$", "cv" "$", "de" "$", "doi" "$", "dsb" "$",
        "el" "$", "en-001" "US$", "en-150" "US$", "en-ag" "US$", "en-ai" "US$", "en-at" "US$", "en-au" "USD",
        "en-bb" "US$", "en-be" "US$", "en-bm" "US$", "en-bs" "US$", "en-bw" "US$", "en-bz" "US$", "en-ca" "US$",
        "en-cc" "US$", "en-ch" "US$", "en-ck" "US$", "en-cm" "US$", "en-cx" "US$", "en-cy" "US$", "en-cz" "US$",
        "en-de" "US$", "en-dg" "US$", "en-dk" "US$", "en-dm" "US$", "en-ee" "US$", "en-er" "US$", "en-es" "US$",
        "en-fi" "US$", "en-fj" "US$", "en-fk" "US$", "en-fm" "US$", "en-fr" "US$", "en-gb" "US$", "en-gd" "US$",
        "en-ge" "US$", "en-gg" "US$", "en-gh" "US$", "en-gi" "US$", "en-gm" "US$", "en-gs" "US$", "en-gy" "US$",
        "en-hk" "US$", "en-hu" "US$", "en-id" "US$", "en-ie" "US$", "en-il" "US$", "en-im" "US$", "en-io" "US$",
        "en-it" "US$", "en-je" "US$", "en-jm" "US$", "en-ke" "US$", "en-ki" "US$", "en-kn" "US$", "en-ky" "US$",
        "en-lc" "US$", "en-lr" "US$", "en-ls" "US$", "en-lt" "US$", "en-lv" "US$", "en-mg" "US$", "en-mo" "US$",
        "en-ms" "US$", "en-mt" "US$", "en-mu" "US$", "en-mv" "US$", "en-mw" "US$", "en-my" "US$", "en-na" "US$",
        "en-nf" "US$", "en-ng" "US$", "en-nh" "US$", "en-nl" "US$", "en-no" "US$", "en-nr" "US$", "en-nu" "US$",
        "en-nz" "US$", "en-pg" "US$", "en-pk" "US$", "en-pl" "US$", "en-pn" "US$", "en-pt" "US$", "en-pw" "US$",
        "en-rh" "US$", "en-ro" "US$", "en-rw" "US$", "en-sb" "US$", "en-sc" "US$", "en-sd" "US$", "en-se" "US$",
        "en-sg" "US$", "en-sh" "US$", "en-si" "US$", "en-sk" "US$", "en-sl" "US$", "en-ss" "US$", "en-sx" "US$",
        "en-sz" "US$", "en-tc" "US$", "en-tk" "US$", "en-to" "US$", "en-tt" "US$", "en-tv" "US$", "en-tz" "US$",
        "en-ua" "US$", "en-ug" "US$", "en-vc" "US$", "en-vg" "US$", "en-vu" "US$", "en-ws" "US$", "en-za" "US$",
        "en-zm" "US$", "en-zw" "US$", "en" "$", "eo" "USD", "es-419" "USD", "es-bo" "USD", "es-br" "USD",
        "es-bz" "USD", "es-cr" "USD", "es-ec" "$", "es-gt" "USD", "es-hn" "USD", "es-mx" "USD", "es-ni" "USD",
        "es-pa" "USD", "es-pe" "USD", "es-pr" "$", "es-py" "USD", "es-sv" "$", "es-us" "$", "es-ve" "USD", "et" "$",
        "fa" "$", "fi" "$", "fil" "$", "fr-ca" "$\u{a0}US", "fr" "$US", "ga" "$", "gd" "$", "gl" "$", "gsw" "$",
        "ha" "$", "haw" "$", "he" "$", "hi" "$", "hr" "USD", "hsb" "$", "hu" "USD", "hy" "$", "ig" "$", "is" "USD",
        "it" "USD", "iw" "$", "ja" "$", "kk-arab" "US$", "kk" "$", "km" "$", "kn" "$", "ks" "$", "ku" "$",
        "ky" "USD", "lb" "$", "lkt" "$", "lt" "USD", "lv" "$", "mai" "$", "ml" "$", "mn" "$", "mni" "$", "mo" "USD",
        "mr" "$", "ms" "USD", "mzn" "$", "nb" "USD", "nl-bq" "$", "nn" "USD", "no" "USD",
        "nqo" "\u{7ca}\u{7de}\u{7d8}$", "or" "$", "os" "$", "pl" "USD", "ps" "$", "qu-ec" "$", "qu" "$US", "rm" "$",
        "ro" "USD", "ru" "$", "sd-deva" "$", "sd-in" "$", "sk" "USD", "sl" "$", "su" "$", "sw-ke" "$", "ta-sg" "US$",
        "ta" "$", "te" "$", "tg" "$", "tl" "$", "tr" "$", "tt" "$", "ug" "$", "uk" "USD", "ur" "$", "vec" "USD",
        "wae" "$", "wo" "$", "xh" "$", "yo" "$", "zu" "$"} {};
};

/// The currency of this code, if the table above has it.
fn currency_in_19(code: &str) -> Option<&'static Currency>
    ensures { found_currency result ≡ coded currencies_19 code.now }
{
    first_coded(&CURRENCIES_19, code)
}

static CURRENCIES_20: [Currency; 10] = currencies! {
    "UYI" 0 "UYI" {} {};
    "UYU" 2 "UYU" {"brx" "इउ.वाई.इउ", "es-uy" "$", "fr-ca" "UYU", "fr" "$UY", "nqo" "\u{7ce}߳\u{7d4}"} {};
    "UYW" 4 "UYW" {"es-uy" "UP"} {};
    "UZS" 2 "UZS" {"brx" "इउ.जेत.एस", "nqo" "\u{7ce}\u{7d7}߭\u{7db}", "uz-af" "UZS", "uz-arab" "UZS",
        "uz-cyrl" "сўм", "uz" "soʻm"} {};
    "VEF" 2 "VEF" {"es-ve" "Bs."} {};
    "VES" 2 "VES" {"brx" "भि.इ.एस", "es-ve" "Bs.S", "nqo" "\u{7dd}߭\u{7cb}\u{7d3}", "yrl" "Bs.S"} {};
    "VND" 0 "₫" {"bg" "VND", "br" "VND", "cs" "VND", "en-au" "VND", "eo" "VND", "es-419" "VND", "es-ar" "VND",
        "es-bo" "VND", "es-br" "VND", "es-bz" "VND", "es-cl" "VND", "es-co" "VND", "es-cr" "VND", "es-cu" "VND",
        "es-do" "VND", "es-ec" "VND", "es-gt" "VND", "es-hn" "VND", "es-mx" "VND", "es-ni" "VND", "es-pa" "VND",
        "es-pe" "VND", "es-pr" "VND", "es-py" "VND", "es-sv" "VND", "es-us" "VND", "es-uy" "VND", "es-ve" "VND",
        "fi" "VND", "fr-ca" "VND", "hr" "VND", "hu" "VND", "is" "VND", "it" "VND", "ka" "VND", "lt" "VND",
        "mk" "VND", "mo" "VND", "nb" "VND", "nn" "VND", "no" "VND", "pl" "VND", "ro" "VND", "sh" "VND", "sk" "VND",
        "sr" "VND", "sv" "VND", "uk" "VND", "vec" "VND"} {};
    "VUV" 0 "VUV" {"en-nh" "VT", "en-vu" "VT", "fr-vu" "VT", "nqo" "\u{7dd}߭\u{7d5}\u{7dd}߭"} {};
    "WST" 2 "WST" {"en-ws" "WS$", "fr-ca" "WST", "fr" "$WS", "nqo" "$\u{7e5}\u{7db}"} {};
    "XAF" 0 "FCFA" {"dz" "XAF", "en-au" "XAF", "eo" "XAF", "es-gq" "FCFA", "es" "XAF",
        "ff-adlm" "\u{1e90a}\u{1e905}\u{1e90a}\u{1e900}", "fr-ca" "XAF", "lt" "XAF", "nb" "XAF", "nn" "XAF",
        "no" "XAF", "nqo" "\u{7dd}\u{7db}\u{7dd}", "vec" "XAF", "yrl" "FCF"} {};
};

/// The currency of this code, if the table above has it.
fn currency_in_20(code: &str) -> Option<&'static Currency>
    ensures { found_currency result ≡ coded currencies_20 code.now }
{
    first_coded(&CURRENCIES_20, code)
}

static CURRENCIES_21: [Currency; 7] = currencies! {
    "XCD" 2 "EC$" {"bg" "XCD", "br" "XCD", "brx" "इ.सि $", "bs-cyrl" "EC$", "bs" "XCD", "ca" "XCD", "en-ag" "$",
        "en-ai" "$", "en-au" "XCD", "en-dm" "$", "en-gd" "$", "en-kn" "$", "en-lc" "$", "en-ms" "$", "en-vc" "$",
        "eo" "XCD", "es" "XCD", "fa" "$EC", "fi" "XCD", "fr" "XCD", "gl" "XCD", "hr" "XCD", "hu" "XCD", "ky" "XCD",
        "lt" "XCD", "mo" "XCD", "nb" "XCD", "nn" "XCD", "no" "XCD", "nqo" "\u{7db}\u{7df}\u{7d8}", "ro" "XCD",
        "sl" "XCD", "uk" "XCD", "vec" "XCD"} {};
    "XCG" 2 "Cg." {"ca" "XCG", "en-ca" "Cg", "eo" "XCG", "gl" "ƒ", "is" "XCG", "it" "Cf", "ja" "Cg", "pl" "XCG",
        "ru" "Cg", "sk" "Cg", "sq" "ANG", "sv" "XCG", "tk" "Kg.", "vec" "Cf", "xh" "ICg."} {};
    "XDR" 2 "XDR" {"sc" "DIP"} {};
    "XEU" 2 "XEU" {"cs" "ECU"} {};
    "XOF" 0 "F\u{202f}CFA" {"ak" "AAS", "ba" "F CFA", "en-au" "XOF", "eo" "XOF", "es" "XOF",
        "fa" "\u{641}\u{631}\u{627}\u{646}\u{6a9}\u{202f}CFA", "ff-adlm" "\u{1e905}\u{1e90a}\u{1e900}",
        "fr-ca" "XOF", "kgp" "CFA", "lt" "XOF", "nqo" "\u{7fe}", "si" "සිෆ්එ", "vec" "XOF", "yrl" "CFA"} {};
    "XPF" 0 "CFPF" {"bs-cyrl" "CFPF", "bs" "XPF", "en-au" "CFP", "eo" "XPF", "fi" "XPF", "fr-ca" "XPF",
        "fr" "FCFP", "fy" "XPF", "hr" "XPF", "lt" "XPF", "nb" "XPF", "nl" "XPF", "nn" "XPF", "no" "XPF",
        "nqo" "\u{7fe} \u{7dd}\u{7db}\u{7dd}", "vec" "XPF", "yrl" "CFP"} {};
    "XXX" 2 "¤" {"ast" "XXX", "br" "XXX", "ca" "XXX", "cs" "XXX", "cy" "XXX", "de" "XXX", "fi" "XXX", "ga" "XXX",
        "gd" "XXX", "hr" "XXX", "id" "XXX", "in" "XXX", "ja" "XXX", "nb" "XXX", "nl" "XXX", "nn" "XXX", "no" "XXX",
        "pa-arab" "¤", "pa-pk" "¤", "pa" "XXX", "ru" "XXXX", "sk" "XXX", "th" "XXX", "vi" "XXX", "yue" "XXX",
        "zh" "XXX"} {};
};

/// The currency of this code, if the table above has it.
fn currency_in_21(code: &str) -> Option<&'static Currency>
    ensures { found_currency result ≡ coded currencies_21 code.now }
{
    first_coded(&CURRENCIES_21, code)
}

static CURRENCIES_22: [Currency; 10] = currencies! {
    "YER" 0 "YER" {"ar" "\u{631}.\u{64a}.\u{200f}", "ars" "\u{631}.\u{64a}.\u{200f}", "brx" "वाई.इ.आर",
        "nqo" "\u{7e6}\u{7e1}\u{7d9}"} {};
    "ZAR" 2 "ZAR" {"af" "R", "brx" "जेत.ए.आर", "en-ls" "R", "en-za" "R", "nqo" "\u{7e5}\u{7dd}\u{7d9}",
        "nso" "R", "st" "R", "tn" "R", "xh" "R", "zu" "R"} {};
    "ZMK" 0 "ZMK" {"kgp" "SMK", "nqo" "\u{7d6}߭\u{7d3}\u{7de}"} {};
    "ZMW" 2 "ZMW" {"bem" "K", "en-zm" "K", "nqo" "\u{7d6}߭\u{7d3}\u{7e5}"} {};
    "ZRN" 2 "ZRN" {"nqo" "\u{7d6}߭\u{7d9}"} {};
    "ZRZ" 2 "ZRZ" {"nqo" "\u{7d6}߭\u{7d9}\u{7d6}߭"} {};
    "ZWD" 0 "ZWD" {"nqo" "\u{7d6}߭\u{7e5}\u{7d8}"} {};
    "ZWG" 2 "ZWG" {"nl" "ZiG", "xh" "IZWG"} {};
    "ZWL" 2 "ZWL" {"nqo" "\u{7d6}߭\u{7e5}\u{7df}"} {};
    "ZWR" 2 "ZWR" {"nqo" "\u{7d6}߭\u{7e5}\u{7d9}"} {};
};

/// The currency of this code, if the table above has it.
fn currency_in_22(code: &str) -> Option<&'static Currency>
    ensures { found_currency result ≡ coded currencies_22 code.now }
{
    first_coded(&CURRENCIES_22, code)
}
