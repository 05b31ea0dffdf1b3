//! The locales: a tag, and the name of its forms. A longer tag stands before one that it begins with.
// Written by tools/numbers from Unicode CLDR 48. Do not edit.
ghost use Rattle.std.specs.Prelude.{◌≡◌};
ghost use Rattle.fluent_numerals.specs.Locales.{locales_1, locales_2, locales_3, locales_4, locales_5, locale_entry};
ghost use Rattle.fluent_numerals.specs.Tagged.{entry_found, first_of};

use crate::tagged::{Tagged, first_entry, first_fitting, texts};

/// The entry of the longest tag that a text begins with.
pub(crate) fn locale_entry(tag: &[u8]) -> Option<Tagged>
    ensures { entry_found result ≡ locale_entry tag.now }
{
    first_entry(
        entry_in_1(tag),
        first_entry(
            entry_in_2(tag),
            first_entry(
                entry_in_3(tag),
                first_entry(entry_in_4(tag), entry_in_5(tag)),
            ),
        ),
    )
}

static LOCALES_1: [Tagged; 125] = texts![
    "af-na" "en-za", "af" "en-za", "agq" "agq", "ak" "en", "am" "en", "ar-bh" "ar-eg", "ar-dj" "ar-eg",
    "ar-dz" "ar-dz", "ar-eg" "ar-eg", "ar-er" "ar-eg", "ar-il" "ar-eg", "ar-iq" "ar-eg", "ar-jo" "ar-eg",
    "ar-km" "ar-eg", "ar-kw" "ar-eg", "ar-lb" "ar-eg", "ar-ly" "ar-dz", "ar-ma" "ar-dz", "ar-mr" "ar-eg",
    "ar-om" "ar-eg", "ar-ps" "ar-eg", "ar-qa" "ar-eg", "ar-sa" "ar-eg", "ar-sd" "ar-eg", "ar-so" "ar-eg",
    "ar-ss" "ar-eg", "ar-sy" "ar-eg", "ar-td" "ar-eg", "ar-tn" "ar-dz", "ar-ye" "ar-eg", "ar" "ar", "ars" "ar-eg",
    "as" "as", "asa" "asa", "ast" "el", "az-cyrl" "el", "az" "el", "ba" "ba", "bas" "ru", "be" "be", "bem" "en",
    "bez" "km", "bg" "pl", "bgc" "bgc", "bho" "bho", "blo" "blo", "bm" "en", "bn-in" "bn-in", "bn" "bn",
    "bo-in" "und", "bo" "und", "br" "ru", "brx" "brx", "bs-cyrl" "el", "bs" "el", "bua" "ru", "ca-fr" "de",
    "ca" "de", "ccp" "ccp", "ce" "ce", "ceb" "en", "cgg" "en", "chr" "en", "ckb" "ckb", "cs" "ru", "csw" "und",
    "cv" "ru", "cy" "en", "da" "de", "dav" "en", "de-at" "de-at", "de-ch" "de-ch", "de-li" "de-li", "de-lu" "de",
    "de" "de", "dje" "dje", "doi" "en", "dsb" "de", "dua" "ru", "dyo" "uk", "dz" "dz", "ebu" "en", "ee" "ee",
    "el" "el", "en-001" "en", "en-150" "asa", "en-ag" "en", "en-ai" "en", "en-at" "en-at", "en-au" "en",
    "en-bb" "en", "en-be" "en-be", "en-bi" "en", "en-bm" "en", "en-bs" "en", "en-bw" "en", "en-bz" "en",
    "en-ca" "en", "en-cc" "en", "en-ch" "de-ch", "en-ck" "en", "en-cm" "en", "en-cx" "en", "en-cy" "en",
    "en-cz" "uk", "en-de" "en-de", "en-dg" "en", "en-dk" "de", "en-dm" "en", "en-ee" "en-ee", "en-er" "en",
    "en-es" "en-be", "en-fi" "en-fi", "en-fj" "en", "en-fk" "en", "en-fm" "en", "en-fr" "en-fr", "en-gb" "en",
    "en-gd" "en", "en-ge" "en-ge", "en-gg" "en", "en-gh" "en", "en-gi" "en", "en-gm" "en", "en-gs" "en",
];

/// The entry of the longest tag of the table above that a text begins with.
fn entry_in_1(tag: &[u8]) -> Option<Tagged>
    ensures { entry_found result ≡ first_of locales_1 tag.now }
{
    first_fitting(&LOCALES_1, tag)
}

static LOCALES_2: [Tagged; 125] = texts![
    "en-gy" "en", "en-hk" "en", "en-hu" "uk", "en-id" "id", "en-ie" "en", "en-il" "en", "en-im" "en", "en-in" "hi",
    "en-io" "en", "en-it" "en-be", "en-je" "en", "en-jm" "en", "en-ke" "en", "en-ki" "en", "en-kn" "en",
    "en-ky" "en", "en-lc" "en", "en-lr" "en", "en-ls" "en", "en-lt" "en-ee", "en-lv" "en-ee", "en-mg" "en",
    "en-mo" "en", "en-ms" "en", "en-mt" "en", "en-mu" "en", "en-mv" "und", "en-mw" "en", "en-my" "en", "en-na" "en",
    "en-nf" "en", "en-ng" "en", "en-nh" "en", "en-nl" "en-be", "en-no" "ru", "en-nr" "en", "en-nu" "en",
    "en-nz" "en", "en-pg" "en", "en-pk" "en", "en-pl" "el", "en-pn" "en", "en-pt" "en-ee", "en-pw" "en",
    "en-rh" "en", "en-ro" "el", "en-rw" "en", "en-sb" "en", "en-sc" "en", "en-sd" "en", "en-se" "ru", "en-sg" "en",
    "en-sh" "en", "en-si" "en-be", "en-sk" "en-ee", "en-sl" "en", "en-ss" "en", "en-sx" "en", "en-sz" "en",
    "en-tc" "en", "en-tk" "en", "en-to" "en", "en-tt" "en", "en-tv" "en", "en-tz" "en", "en-ua" "uk", "en-ug" "en",
    "en-us-posix" "en-us-posix", "en-vc" "en", "en-vg" "en", "en-vu" "en", "en-ws" "en", "en-za" "en-za",
    "en-zm" "en", "en-zw" "en", "en" "en", "eo" "eo", "es-419" "en", "es-ar" "pt", "es-bo" "id", "es-br" "en",
    "es-bz" "en", "es-cl" "lo", "es-co" "pt", "es-cr" "en-za", "es-cu" "en", "es-do" "en", "es-ec" "lo",
    "es-gq" "es-gq", "es-gt" "en", "es-hn" "en", "es-mx" "en", "es-ni" "en", "es-pa" "en", "es-pe" "und",
    "es-ph" "es", "es-pr" "en", "es-py" "nl", "es-sv" "en", "es-us" "en", "es-uy" "pt", "es-ve" "lo", "es" "es",
    "et" "et", "eu" "eu", "ewo" "uk", "fa-af" "fa-af", "fa" "fa", "ff-adlm-bf" "ff-adlm", "ff-adlm-cm" "ff-adlm",
    "ff-adlm-gh" "ff-adlm", "ff-adlm-gm" "ff-adlm", "ff-adlm-gw" "ff-adlm", "ff-adlm-lr" "ff-adlm",
    "ff-adlm-mr" "ff-adlm", "ff-adlm-ne" "ff-adlm", "ff-adlm-ng" "ff-adlm", "ff-adlm-sl" "ff-adlm",
    "ff-adlm-sn" "ff-adlm", "ff-adlm" "ff-adlm", "ff-gn" "uk", "ff-latn-gh" "uk", "ff-latn-gm" "uk",
    "ff-latn-gn" "uk", "ff-latn-lr" "uk",
];

/// The entry of the longest tag of the table above that a text begins with.
fn entry_in_2(tag: &[u8]) -> Option<Tagged>
    ensures { entry_found result ≡ first_of locales_2 tag.now }
{
    first_fitting(&LOCALES_2, tag)
}

static LOCALES_3: [Tagged; 125] = texts![
    "ff-latn-mr" "uk", "ff-latn-ng" "uk", "ff-latn-sl" "uk", "ff-mr" "uk", "ff" "uk", "fi" "sv", "fil" "en",
    "fo-dk" "hr", "fo" "hr", "fr-bi" "fr", "fr-ca" "ru", "fr-cd" "fr", "fr-ch" "fr-ch", "fr-dj" "fr", "fr-dz" "fr",
    "fr-gn" "fr", "fr-ht" "fr", "fr-km" "fr", "fr-lu" "de", "fr-ma" "de", "fr-mg" "fr", "fr-mr" "fr", "fr-mu" "fr",
    "fr-rw" "fr", "fr-sc" "fr", "fr-sy" "fr", "fr-tn" "fr", "fr-vu" "fr", "fr" "fr", "fur" "pt", "fy" "fy",
    "ga" "en", "gaa" "und", "gd" "en", "gl" "de", "gsw" "gsw", "gu" "hi", "guz" "en", "gv" "en", "ha-gh" "und",
    "ha" "und", "haw" "en", "he" "he", "hi-latn" "hi", "hi" "hi", "hr-ba" "hr", "hr" "hr", "hsb" "de", "hu" "pl",
    "hy" "pl", "ia" "ia", "id" "id", "ie" "ie", "ig" "en", "ii" "und", "in" "id", "is" "el", "it-ch" "it-ch",
    "it" "it", "iw" "he", "ja" "en", "jgo" "pt", "jmc" "en", "jv" "pt", "ka" "pl", "kab" "agq", "kam" "en",
    "kde" "en", "kea-cv" "kea-cv", "kea" "uk", "kgp" "pt", "khq" "dje", "ki" "en", "kk-arab" "und", "kk" "uk",
    "kkj" "pt", "kl" "kl", "kln" "en", "km" "km", "kn" "en", "ko" "en", "kok-latn" "te", "kok" "te", "ks-deva" "und",
    "ks" "ks", "ksb" "km", "ksf" "uk", "ksh" "sv", "ku" "ku", "kw" "en", "kxv" "te", "ky" "uk", "lag" "und",
    "lb" "de", "lg" "km", "lij" "el", "lkt" "und", "lmo" "lmo", "ln-ao" "el", "ln" "el", "lo" "lo", "lrc" "ps",
    "lt" "sv", "lu" "lu", "luo" "km", "luy" "luy", "lv" "pl", "mai" "und", "mas-tz" "en", "mas" "en", "mer" "en",
    "mfe" "mfe", "mg" "und", "mgh" "pt", "mgo" "und", "mi" "und", "mk" "de", "ml" "ml", "mn" "und", "mni" "mni",
    "mo" "de", "mr" "mr", "ms-bn" "pt", "ms-id" "id", "ms-sg" "en",
];

/// The entry of the longest tag of the table above that a text begins with.
fn entry_in_3(tag: &[u8]) -> Option<Tagged>
    ensures { entry_found result ≡ first_of locales_3 tag.now }
{
    first_fitting(&LOCALES_3, tag)
}

static LOCALES_4: [Tagged; 125] = texts![
    "ms" "en", "mt" "en", "mua" "id", "my" "my", "mzn" "ps", "naq" "en", "nb" "nb", "nd" "en", "nds" "de", "ne" "ne",
    "nl-aw" "nl", "nl-bq" "nl", "nl-cw" "nl", "nl-sr" "nl", "nl-sx" "nl", "nl" "nl", "nmg" "uk", "nn" "nb",
    "nnh" "pt", "no" "nb", "nqo" "nqo", "nso" "und", "nus" "en", "nyn" "en", "oc" "oc", "om-ke" "en", "om" "en",
    "or" "ml", "os-ru" "os", "os" "os", "pa-arab" "ps", "pa-pk" "ps", "pa" "hi", "pcm" "en", "pl" "pl", "pms" "el",
    "prg" "uk", "ps-pk" "ps", "ps" "ps", "pt-ao" "uk", "pt-ch" "pl", "pt-cv" "pt-cv", "pt-gq" "pl", "pt-gw" "pl",
    "pt-lu" "pl", "pt-mo" "pl", "pt-mz" "pl", "pt-pt" "pl", "pt-st" "pl", "pt-tl" "pl", "pt" "pt", "qu-bo" "en-at",
    "qu-ec" "qu", "qu" "qu", "raj" "bgc", "rm" "rm", "rn" "rn", "ro-md" "de", "ro" "de", "rof" "en", "ru-by" "ru",
    "ru-kg" "ru", "ru-kz" "ru", "ru-md" "ru", "ru-ua" "be", "ru" "ru", "rw" "pt", "rwk" "km", "sa" "sa", "sah" "uk",
    "saq" "en", "sat" "sat", "sbp" "km", "sc" "el", "scn" "pt", "sd-deva" "und", "sd-in" "und", "sd" "sd",
    "se-se" "sv", "se" "sv", "seh" "lu", "ses" "dje", "sg" "lo", "sh" "el", "shi" "agq", "shn" "und", "si" "en",
    "sk" "ru", "sl" "sl", "smn" "ru", "sn" "en", "so-dj" "en", "so-et" "en", "so-ke" "en", "so" "en", "sq-mk" "pl",
    "sq" "pl", "sr-latn" "el", "sr-me" "el", "sr" "el", "st-ls" "en", "st" "en", "su" "id", "sv" "sv", "sw-cd" "pt",
    "sw-ke" "und", "sw-ug" "und", "sw" "und", "syr" "und", "szl" "uk", "ta-lk" "hi", "ta-my" "und", "ta-sg" "und",
    "ta" "hi", "te" "te", "teo-ke" "en", "teo" "en", "tg" "uk", "th" "en", "ti-er" "en", "ti" "en", "tk" "ru",
    "tl" "en", "tn-bw" "tn", "tn" "tn",
];

/// The entry of the longest tag of the table above that a text begins with.
fn entry_in_4(tag: &[u8]) -> Option<Tagged>
    ensures { entry_found result ≡ first_of locales_4 tag.now }
{
    first_fitting(&LOCALES_4, tag)
}

static LOCALES_5: [Tagged; 46] = texts![
    "to" "und", "tok" "tok", "tr" "tr", "tt" "ru", "twq" "dje", "tyv" "mfe", "tzm" "uk", "ug" "en", "uk" "uk",
    "und" "und", "ur-in" "ur-in", "ur" "ur", "uz-af" "ps", "uz-arab" "ps", "uz-cyrl" "uk", "uz" "uk", "vai" "en",
    "vec" "eo", "vi" "el", "vmw" "el", "vun" "en", "wae" "lmo", "wo" "pt", "xh" "xh", "xnr" "hi", "xog" "asa",
    "yav" "uk", "yi" "und", "yo" "en", "yrl" "pt", "yue" "en", "za" "und", "zgh" "zgh", "zh-hans-hk" "en",
    "zh-hans-mo" "en", "zh-hans-sg" "en", "zh-hant-hk" "en", "zh-hant-mo" "en", "zh-hant" "en", "zh-hk" "en",
    "zh-mo" "en", "zh-sg" "en", "zh-tw" "en", "zh" "en", "zu" "en", "root" "und",
];

/// The entry of the longest tag of the table above that a text begins with.
fn entry_in_5(tag: &[u8]) -> Option<Tagged>
    ensures { entry_found result ≡ first_of locales_5 tag.now }
{
    first_fitting(&LOCALES_5, tag)
}
