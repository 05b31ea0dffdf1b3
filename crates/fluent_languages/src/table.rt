//! What is likely of languages, and the groups of their regions.
// Written by tools/languages from Unicode CLDR 48. Do not edit.
use crate::likely::{Alias, Grouped, Likely};
/// Languages from a to e, with the script and the region that each likely has.
pub(crate) const A_TO_E: [Likely; 68] = [
    Likely {
        language: "aa",
        script: "Latn",
        region: "ET",
    },
    Likely {
        language: "ab",
        script: "Cyrl",
        region: "GE",
    },
    Likely {
        language: "ae",
        script: "Avst",
        region: "IR",
    },
    Likely {
        language: "af",
        script: "Latn",
        region: "ZA",
    },
    Likely {
        language: "agq",
        script: "Latn",
        region: "CM",
    },
    Likely {
        language: "ak",
        script: "Latn",
        region: "GH",
    },
    Likely {
        language: "am",
        script: "Ethi",
        region: "ET",
    },
    Likely {
        language: "an",
        script: "Latn",
        region: "ES",
    },
    Likely {
        language: "ar",
        script: "Arab",
        region: "EG",
    },
    Likely {
        language: "ars",
        script: "Arab",
        region: "SA",
    },
    Likely {
        language: "as",
        script: "Beng",
        region: "IN",
    },
    Likely {
        language: "asa",
        script: "Latn",
        region: "TZ",
    },
    Likely {
        language: "ast",
        script: "Latn",
        region: "ES",
    },
    Likely {
        language: "av",
        script: "Cyrl",
        region: "RU",
    },
    Likely {
        language: "ay",
        script: "Latn",
        region: "BO",
    },
    Likely {
        language: "az",
        script: "Latn",
        region: "AZ",
    },
    Likely {
        language: "ba",
        script: "Cyrl",
        region: "RU",
    },
    Likely {
        language: "bal",
        script: "Arab",
        region: "PK",
    },
    Likely {
        language: "bas",
        script: "Latn",
        region: "CM",
    },
    Likely {
        language: "be",
        script: "Cyrl",
        region: "BY",
    },
    Likely {
        language: "bem",
        script: "Latn",
        region: "ZM",
    },
    Likely {
        language: "bez",
        script: "Latn",
        region: "TZ",
    },
    Likely {
        language: "bg",
        script: "Cyrl",
        region: "BG",
    },
    Likely {
        language: "bgc",
        script: "Deva",
        region: "IN",
    },
    Likely {
        language: "bho",
        script: "Deva",
        region: "IN",
    },
    Likely {
        language: "bi",
        script: "Latn",
        region: "VU",
    },
    Likely {
        language: "blo",
        script: "Latn",
        region: "BJ",
    },
    Likely {
        language: "bm",
        script: "Latn",
        region: "ML",
    },
    Likely {
        language: "bn",
        script: "Beng",
        region: "BD",
    },
    Likely {
        language: "bo",
        script: "Tibt",
        region: "CN",
    },
    Likely {
        language: "br",
        script: "Latn",
        region: "FR",
    },
    Likely {
        language: "brx",
        script: "Deva",
        region: "IN",
    },
    Likely {
        language: "bs",
        script: "Latn",
        region: "BA",
    },
    Likely {
        language: "bua",
        script: "Cyrl",
        region: "RU",
    },
    Likely {
        language: "ca",
        script: "Latn",
        region: "ES",
    },
    Likely {
        language: "ccp",
        script: "Cakm",
        region: "BD",
    },
    Likely {
        language: "ce",
        script: "Cyrl",
        region: "RU",
    },
    Likely {
        language: "ceb",
        script: "Latn",
        region: "PH",
    },
    Likely {
        language: "cgg",
        script: "Latn",
        region: "UG",
    },
    Likely {
        language: "ch",
        script: "Latn",
        region: "GU",
    },
    Likely {
        language: "chr",
        script: "Cher",
        region: "US",
    },
    Likely {
        language: "ckb",
        script: "Arab",
        region: "IQ",
    },
    Likely {
        language: "co",
        script: "Latn",
        region: "FR",
    },
    Likely {
        language: "cr",
        script: "Cans",
        region: "CA",
    },
    Likely {
        language: "cs",
        script: "Latn",
        region: "CZ",
    },
    Likely {
        language: "csw",
        script: "Cans",
        region: "CA",
    },
    Likely {
        language: "cu",
        script: "Cyrl",
        region: "RU",
    },
    Likely {
        language: "cv",
        script: "Cyrl",
        region: "RU",
    },
    Likely {
        language: "cy",
        script: "Latn",
        region: "GB",
    },
    Likely {
        language: "da",
        script: "Latn",
        region: "DK",
    },
    Likely {
        language: "dav",
        script: "Latn",
        region: "KE",
    },
    Likely {
        language: "de",
        script: "Latn",
        region: "DE",
    },
    Likely {
        language: "dje",
        script: "Latn",
        region: "NE",
    },
    Likely {
        language: "doi",
        script: "Deva",
        region: "IN",
    },
    Likely {
        language: "dsb",
        script: "Latn",
        region: "DE",
    },
    Likely {
        language: "dua",
        script: "Latn",
        region: "CM",
    },
    Likely {
        language: "dv",
        script: "Thaa",
        region: "MV",
    },
    Likely {
        language: "dyo",
        script: "Latn",
        region: "SN",
    },
    Likely {
        language: "dz",
        script: "Tibt",
        region: "BT",
    },
    Likely {
        language: "ebu",
        script: "Latn",
        region: "KE",
    },
    Likely {
        language: "ee",
        script: "Latn",
        region: "GH",
    },
    Likely {
        language: "el",
        script: "Grek",
        region: "GR",
    },
    Likely {
        language: "en",
        script: "Latn",
        region: "US",
    },
    Likely {
        language: "eo",
        script: "Latn",
        region: "001",
    },
    Likely {
        language: "es",
        script: "Latn",
        region: "ES",
    },
    Likely {
        language: "et",
        script: "Latn",
        region: "EE",
    },
    Likely {
        language: "eu",
        script: "Latn",
        region: "ES",
    },
    Likely {
        language: "ewo",
        script: "Latn",
        region: "CM",
    },
];

/// Languages from f to k, with the script and the region that each likely has.
pub(crate) const F_TO_K: [Likely; 76] = [
    Likely {
        language: "fa",
        script: "Arab",
        region: "IR",
    },
    Likely {
        language: "ff",
        script: "Latn",
        region: "SN",
    },
    Likely {
        language: "fi",
        script: "Latn",
        region: "FI",
    },
    Likely {
        language: "fil",
        script: "Latn",
        region: "PH",
    },
    Likely {
        language: "fj",
        script: "Latn",
        region: "FJ",
    },
    Likely {
        language: "fo",
        script: "Latn",
        region: "FO",
    },
    Likely {
        language: "fr",
        script: "Latn",
        region: "FR",
    },
    Likely {
        language: "fur",
        script: "Latn",
        region: "IT",
    },
    Likely {
        language: "fy",
        script: "Latn",
        region: "NL",
    },
    Likely {
        language: "ga",
        script: "Latn",
        region: "IE",
    },
    Likely {
        language: "gaa",
        script: "Latn",
        region: "GH",
    },
    Likely {
        language: "gd",
        script: "Latn",
        region: "GB",
    },
    Likely {
        language: "gl",
        script: "Latn",
        region: "ES",
    },
    Likely {
        language: "gn",
        script: "Latn",
        region: "PY",
    },
    Likely {
        language: "gsw",
        script: "Latn",
        region: "CH",
    },
    Likely {
        language: "gu",
        script: "Gujr",
        region: "IN",
    },
    Likely {
        language: "guw",
        script: "Latn",
        region: "BJ",
    },
    Likely {
        language: "guz",
        script: "Latn",
        region: "KE",
    },
    Likely {
        language: "gv",
        script: "Latn",
        region: "IM",
    },
    Likely {
        language: "ha",
        script: "Latn",
        region: "NG",
    },
    Likely {
        language: "haw",
        script: "Latn",
        region: "US",
    },
    Likely {
        language: "he",
        script: "Hebr",
        region: "IL",
    },
    Likely {
        language: "hi",
        script: "Deva",
        region: "IN",
    },
    Likely {
        language: "hnj",
        script: "Hmnp",
        region: "US",
    },
    Likely {
        language: "ho",
        script: "Latn",
        region: "PG",
    },
    Likely {
        language: "hr",
        script: "Latn",
        region: "HR",
    },
    Likely {
        language: "hsb",
        script: "Latn",
        region: "DE",
    },
    Likely {
        language: "ht",
        script: "Latn",
        region: "HT",
    },
    Likely {
        language: "hu",
        script: "Latn",
        region: "HU",
    },
    Likely {
        language: "hy",
        script: "Armn",
        region: "AM",
    },
    Likely {
        language: "hz",
        script: "Latn",
        region: "NA",
    },
    Likely {
        language: "ia",
        script: "Latn",
        region: "001",
    },
    Likely {
        language: "id",
        script: "Latn",
        region: "ID",
    },
    Likely {
        language: "ie",
        script: "Latn",
        region: "EE",
    },
    Likely {
        language: "ig",
        script: "Latn",
        region: "NG",
    },
    Likely {
        language: "ii",
        script: "Yiii",
        region: "CN",
    },
    Likely {
        language: "ik",
        script: "Latn",
        region: "US",
    },
    Likely {
        language: "io",
        script: "Latn",
        region: "001",
    },
    Likely {
        language: "is",
        script: "Latn",
        region: "IS",
    },
    Likely {
        language: "it",
        script: "Latn",
        region: "IT",
    },
    Likely {
        language: "iu",
        script: "Cans",
        region: "CA",
    },
    Likely {
        language: "ja",
        script: "Jpan",
        region: "JP",
    },
    Likely {
        language: "jbo",
        script: "Latn",
        region: "001",
    },
    Likely {
        language: "jgo",
        script: "Latn",
        region: "CM",
    },
    Likely {
        language: "jmc",
        script: "Latn",
        region: "TZ",
    },
    Likely {
        language: "jv",
        script: "Latn",
        region: "ID",
    },
    Likely {
        language: "ka",
        script: "Geor",
        region: "GE",
    },
    Likely {
        language: "kab",
        script: "Latn",
        region: "DZ",
    },
    Likely {
        language: "kaj",
        script: "Latn",
        region: "NG",
    },
    Likely {
        language: "kam",
        script: "Latn",
        region: "KE",
    },
    Likely {
        language: "kcg",
        script: "Latn",
        region: "NG",
    },
    Likely {
        language: "kde",
        script: "Latn",
        region: "TZ",
    },
    Likely {
        language: "kea",
        script: "Latn",
        region: "CV",
    },
    Likely {
        language: "kg",
        script: "Latn",
        region: "CD",
    },
    Likely {
        language: "kgp",
        script: "Latn",
        region: "BR",
    },
    Likely {
        language: "khq",
        script: "Latn",
        region: "ML",
    },
    Likely {
        language: "ki",
        script: "Latn",
        region: "KE",
    },
    Likely {
        language: "kj",
        script: "Latn",
        region: "NA",
    },
    Likely {
        language: "kk",
        script: "Cyrl",
        region: "KZ",
    },
    Likely {
        language: "kkj",
        script: "Latn",
        region: "CM",
    },
    Likely {
        language: "kl",
        script: "Latn",
        region: "GL",
    },
    Likely {
        language: "kln",
        script: "Latn",
        region: "KE",
    },
    Likely {
        language: "km",
        script: "Khmr",
        region: "KH",
    },
    Likely {
        language: "kn",
        script: "Knda",
        region: "IN",
    },
    Likely {
        language: "ko",
        script: "Kore",
        region: "KR",
    },
    Likely {
        language: "kok",
        script: "Deva",
        region: "IN",
    },
    Likely {
        language: "kr",
        script: "Latn",
        region: "NG",
    },
    Likely {
        language: "ks",
        script: "Arab",
        region: "IN",
    },
    Likely {
        language: "ksb",
        script: "Latn",
        region: "TZ",
    },
    Likely {
        language: "ksf",
        script: "Latn",
        region: "CM",
    },
    Likely {
        language: "ksh",
        script: "Latn",
        region: "DE",
    },
    Likely {
        language: "ku",
        script: "Latn",
        region: "TR",
    },
    Likely {
        language: "kv",
        script: "Cyrl",
        region: "RU",
    },
    Likely {
        language: "kw",
        script: "Latn",
        region: "GB",
    },
    Likely {
        language: "kxv",
        script: "Latn",
        region: "IN",
    },
    Likely {
        language: "ky",
        script: "Cyrl",
        region: "KG",
    },
];

/// Languages from l to r, with the script and the region that each likely has.
pub(crate) const L_TO_R: [Likely; 79] = [
    Likely {
        language: "la",
        script: "Latn",
        region: "VA",
    },
    Likely {
        language: "lag",
        script: "Latn",
        region: "TZ",
    },
    Likely {
        language: "lb",
        script: "Latn",
        region: "LU",
    },
    Likely {
        language: "lg",
        script: "Latn",
        region: "UG",
    },
    Likely {
        language: "li",
        script: "Latn",
        region: "NL",
    },
    Likely {
        language: "lij",
        script: "Latn",
        region: "IT",
    },
    Likely {
        language: "lkt",
        script: "Latn",
        region: "US",
    },
    Likely {
        language: "lld",
        script: "Latn",
        region: "IT",
    },
    Likely {
        language: "lmo",
        script: "Latn",
        region: "IT",
    },
    Likely {
        language: "ln",
        script: "Latn",
        region: "CD",
    },
    Likely {
        language: "lo",
        script: "Laoo",
        region: "LA",
    },
    Likely {
        language: "lrc",
        script: "Arab",
        region: "IR",
    },
    Likely {
        language: "lt",
        script: "Latn",
        region: "LT",
    },
    Likely {
        language: "lu",
        script: "Latn",
        region: "CD",
    },
    Likely {
        language: "luo",
        script: "Latn",
        region: "KE",
    },
    Likely {
        language: "luy",
        script: "Latn",
        region: "KE",
    },
    Likely {
        language: "lv",
        script: "Latn",
        region: "LV",
    },
    Likely {
        language: "mai",
        script: "Deva",
        region: "IN",
    },
    Likely {
        language: "mas",
        script: "Latn",
        region: "KE",
    },
    Likely {
        language: "mer",
        script: "Latn",
        region: "KE",
    },
    Likely {
        language: "mfe",
        script: "Latn",
        region: "MU",
    },
    Likely {
        language: "mg",
        script: "Latn",
        region: "MG",
    },
    Likely {
        language: "mgh",
        script: "Latn",
        region: "MZ",
    },
    Likely {
        language: "mgo",
        script: "Latn",
        region: "CM",
    },
    Likely {
        language: "mh",
        script: "Latn",
        region: "MH",
    },
    Likely {
        language: "mi",
        script: "Latn",
        region: "NZ",
    },
    Likely {
        language: "mk",
        script: "Cyrl",
        region: "MK",
    },
    Likely {
        language: "ml",
        script: "Mlym",
        region: "IN",
    },
    Likely {
        language: "mn",
        script: "Cyrl",
        region: "MN",
    },
    Likely {
        language: "mni",
        script: "Beng",
        region: "IN",
    },
    Likely {
        language: "mr",
        script: "Deva",
        region: "IN",
    },
    Likely {
        language: "ms",
        script: "Latn",
        region: "MY",
    },
    Likely {
        language: "mt",
        script: "Latn",
        region: "MT",
    },
    Likely {
        language: "mua",
        script: "Latn",
        region: "CM",
    },
    Likely {
        language: "my",
        script: "Mymr",
        region: "MM",
    },
    Likely {
        language: "mzn",
        script: "Arab",
        region: "IR",
    },
    Likely {
        language: "na",
        script: "Latn",
        region: "NR",
    },
    Likely {
        language: "naq",
        script: "Latn",
        region: "NA",
    },
    Likely {
        language: "nb",
        script: "Latn",
        region: "NO",
    },
    Likely {
        language: "nd",
        script: "Latn",
        region: "ZW",
    },
    Likely {
        language: "nds",
        script: "Latn",
        region: "DE",
    },
    Likely {
        language: "ne",
        script: "Deva",
        region: "NP",
    },
    Likely {
        language: "ng",
        script: "Latn",
        region: "NA",
    },
    Likely {
        language: "nl",
        script: "Latn",
        region: "NL",
    },
    Likely {
        language: "nmg",
        script: "Latn",
        region: "CM",
    },
    Likely {
        language: "nn",
        script: "Latn",
        region: "NO",
    },
    Likely {
        language: "nnh",
        script: "Latn",
        region: "CM",
    },
    Likely {
        language: "no",
        script: "Latn",
        region: "NO",
    },
    Likely {
        language: "nqo",
        script: "Nkoo",
        region: "GN",
    },
    Likely {
        language: "nr",
        script: "Latn",
        region: "ZA",
    },
    Likely {
        language: "nso",
        script: "Latn",
        region: "ZA",
    },
    Likely {
        language: "nus",
        script: "Latn",
        region: "SS",
    },
    Likely {
        language: "nv",
        script: "Latn",
        region: "US",
    },
    Likely {
        language: "ny",
        script: "Latn",
        region: "MW",
    },
    Likely {
        language: "nyn",
        script: "Latn",
        region: "UG",
    },
    Likely {
        language: "oc",
        script: "Latn",
        region: "FR",
    },
    Likely {
        language: "oj",
        script: "Cans",
        region: "CA",
    },
    Likely {
        language: "om",
        script: "Latn",
        region: "ET",
    },
    Likely {
        language: "or",
        script: "Orya",
        region: "IN",
    },
    Likely {
        language: "os",
        script: "Cyrl",
        region: "GE",
    },
    Likely {
        language: "osa",
        script: "Osge",
        region: "US",
    },
    Likely {
        language: "pa",
        script: "Guru",
        region: "IN",
    },
    Likely {
        language: "pap",
        script: "Latn",
        region: "CW",
    },
    Likely {
        language: "pcm",
        script: "Latn",
        region: "NG",
    },
    Likely {
        language: "pi",
        script: "Latn",
        region: "GB",
    },
    Likely {
        language: "pl",
        script: "Latn",
        region: "PL",
    },
    Likely {
        language: "pms",
        script: "Latn",
        region: "IT",
    },
    Likely {
        language: "prg",
        script: "Latn",
        region: "PL",
    },
    Likely {
        language: "ps",
        script: "Arab",
        region: "AF",
    },
    Likely {
        language: "pt",
        script: "Latn",
        region: "BR",
    },
    Likely {
        language: "qu",
        script: "Latn",
        region: "PE",
    },
    Likely {
        language: "raj",
        script: "Deva",
        region: "IN",
    },
    Likely {
        language: "rm",
        script: "Latn",
        region: "CH",
    },
    Likely {
        language: "rn",
        script: "Latn",
        region: "BI",
    },
    Likely {
        language: "ro",
        script: "Latn",
        region: "RO",
    },
    Likely {
        language: "rof",
        script: "Latn",
        region: "TZ",
    },
    Likely {
        language: "ru",
        script: "Cyrl",
        region: "RU",
    },
    Likely {
        language: "rw",
        script: "Latn",
        region: "RW",
    },
    Likely {
        language: "rwk",
        script: "Latn",
        region: "TZ",
    },
];

/// Languages from s to z, with the script and the region that each likely has.
pub(crate) const S_TO_Z: [Likely; 81] = [
    Likely {
        language: "sa",
        script: "Deva",
        region: "IN",
    },
    Likely {
        language: "sah",
        script: "Cyrl",
        region: "RU",
    },
    Likely {
        language: "saq",
        script: "Latn",
        region: "KE",
    },
    Likely {
        language: "sat",
        script: "Olck",
        region: "IN",
    },
    Likely {
        language: "sbp",
        script: "Latn",
        region: "TZ",
    },
    Likely {
        language: "sc",
        script: "Latn",
        region: "IT",
    },
    Likely {
        language: "scn",
        script: "Latn",
        region: "IT",
    },
    Likely {
        language: "sd",
        script: "Arab",
        region: "PK",
    },
    Likely {
        language: "sdh",
        script: "Arab",
        region: "IR",
    },
    Likely {
        language: "se",
        script: "Latn",
        region: "NO",
    },
    Likely {
        language: "seh",
        script: "Latn",
        region: "MZ",
    },
    Likely {
        language: "ses",
        script: "Latn",
        region: "ML",
    },
    Likely {
        language: "sg",
        script: "Latn",
        region: "CF",
    },
    Likely {
        language: "sgs",
        script: "Latn",
        region: "LT",
    },
    Likely {
        language: "shi",
        script: "Tfng",
        region: "MA",
    },
    Likely {
        language: "shn",
        script: "Mymr",
        region: "MM",
    },
    Likely {
        language: "si",
        script: "Sinh",
        region: "LK",
    },
    Likely {
        language: "sk",
        script: "Latn",
        region: "SK",
    },
    Likely {
        language: "sl",
        script: "Latn",
        region: "SI",
    },
    Likely {
        language: "sm",
        script: "Latn",
        region: "WS",
    },
    Likely {
        language: "sma",
        script: "Latn",
        region: "SE",
    },
    Likely {
        language: "smj",
        script: "Latn",
        region: "SE",
    },
    Likely {
        language: "smn",
        script: "Latn",
        region: "FI",
    },
    Likely {
        language: "sms",
        script: "Latn",
        region: "FI",
    },
    Likely {
        language: "sn",
        script: "Latn",
        region: "ZW",
    },
    Likely {
        language: "so",
        script: "Latn",
        region: "SO",
    },
    Likely {
        language: "sq",
        script: "Latn",
        region: "AL",
    },
    Likely {
        language: "sr",
        script: "Cyrl",
        region: "RS",
    },
    Likely {
        language: "ss",
        script: "Latn",
        region: "ZA",
    },
    Likely {
        language: "ssy",
        script: "Latn",
        region: "ER",
    },
    Likely {
        language: "st",
        script: "Latn",
        region: "ZA",
    },
    Likely {
        language: "su",
        script: "Latn",
        region: "ID",
    },
    Likely {
        language: "sv",
        script: "Latn",
        region: "SE",
    },
    Likely {
        language: "sw",
        script: "Latn",
        region: "TZ",
    },
    Likely {
        language: "syr",
        script: "Syrc",
        region: "IQ",
    },
    Likely {
        language: "szl",
        script: "Latn",
        region: "PL",
    },
    Likely {
        language: "ta",
        script: "Taml",
        region: "IN",
    },
    Likely {
        language: "te",
        script: "Telu",
        region: "IN",
    },
    Likely {
        language: "teo",
        script: "Latn",
        region: "UG",
    },
    Likely {
        language: "tg",
        script: "Cyrl",
        region: "TJ",
    },
    Likely {
        language: "th",
        script: "Thai",
        region: "TH",
    },
    Likely {
        language: "ti",
        script: "Ethi",
        region: "ET",
    },
    Likely {
        language: "tig",
        script: "Ethi",
        region: "ER",
    },
    Likely {
        language: "tk",
        script: "Latn",
        region: "TM",
    },
    Likely {
        language: "tn",
        script: "Latn",
        region: "ZA",
    },
    Likely {
        language: "to",
        script: "Latn",
        region: "TO",
    },
    Likely {
        language: "tok",
        script: "Latn",
        region: "001",
    },
    Likely {
        language: "tpi",
        script: "Latn",
        region: "PG",
    },
    Likely {
        language: "tr",
        script: "Latn",
        region: "TR",
    },
    Likely {
        language: "ts",
        script: "Latn",
        region: "ZA",
    },
    Likely {
        language: "tt",
        script: "Cyrl",
        region: "RU",
    },
    Likely {
        language: "twq",
        script: "Latn",
        region: "NE",
    },
    Likely {
        language: "ty",
        script: "Latn",
        region: "PF",
    },
    Likely {
        language: "tyv",
        script: "Cyrl",
        region: "RU",
    },
    Likely {
        language: "tzm",
        script: "Latn",
        region: "MA",
    },
    Likely {
        language: "ug",
        script: "Arab",
        region: "CN",
    },
    Likely {
        language: "uk",
        script: "Cyrl",
        region: "UA",
    },
    Likely {
        language: "ur",
        script: "Arab",
        region: "PK",
    },
    Likely {
        language: "uz",
        script: "Latn",
        region: "UZ",
    },
    Likely {
        language: "vai",
        script: "Vaii",
        region: "LR",
    },
    Likely {
        language: "ve",
        script: "Latn",
        region: "ZA",
    },
    Likely {
        language: "vec",
        script: "Latn",
        region: "IT",
    },
    Likely {
        language: "vi",
        script: "Latn",
        region: "VN",
    },
    Likely {
        language: "vmw",
        script: "Latn",
        region: "MZ",
    },
    Likely {
        language: "vo",
        script: "Latn",
        region: "001",
    },
    Likely {
        language: "vun",
        script: "Latn",
        region: "TZ",
    },
    Likely {
        language: "wa",
        script: "Latn",
        region: "BE",
    },
    Likely {
        language: "wae",
        script: "Latn",
        region: "CH",
    },
    Likely {
        language: "wo",
        script: "Latn",
        region: "SN",
    },
    Likely {
        language: "xh",
        script: "Latn",
        region: "ZA",
    },
    Likely {
        language: "xnr",
        script: "Deva",
        region: "IN",
    },
    Likely {
        language: "xog",
        script: "Latn",
        region: "UG",
    },
    Likely {
        language: "yav",
        script: "Latn",
        region: "CM",
    },
    Likely {
        language: "yi",
        script: "Hebr",
        region: "UA",
    },
    Likely {
        language: "yo",
        script: "Latn",
        region: "NG",
    },
    Likely {
        language: "yrl",
        script: "Latn",
        region: "BR",
    },
    Likely {
        language: "yue",
        script: "Hant",
        region: "HK",
    },
    Likely {
        language: "za",
        script: "Latn",
        region: "CN",
    },
    Likely {
        language: "zgh",
        script: "Tfng",
        region: "MA",
    },
    Likely {
        language: "zh",
        script: "Hans",
        region: "CN",
    },
    Likely {
        language: "zu",
        script: "Latn",
        region: "ZA",
    },
];

/// The script of a language in a region, if it is another than the language's.
pub(crate) const BY_REGION: [Likely; 50] = [
    Likely {
        language: "az",
        script: "Arab",
        region: "IQ",
    },
    Likely {
        language: "az",
        script: "Arab",
        region: "IR",
    },
    Likely {
        language: "az",
        script: "Cyrl",
        region: "RU",
    },
    Likely {
        language: "ha",
        script: "Arab",
        region: "CM",
    },
    Likely {
        language: "ha",
        script: "Arab",
        region: "SD",
    },
    Likely {
        language: "kk",
        script: "Arab",
        region: "AF",
    },
    Likely {
        language: "kk",
        script: "Arab",
        region: "CN",
    },
    Likely {
        language: "kk",
        script: "Arab",
        region: "IR",
    },
    Likely {
        language: "kk",
        script: "Arab",
        region: "MN",
    },
    Likely {
        language: "ku",
        script: "Cyrl",
        region: "AM",
    },
    Likely {
        language: "ku",
        script: "Cyrl",
        region: "AZ",
    },
    Likely {
        language: "ku",
        script: "Cyrl",
        region: "GE",
    },
    Likely {
        language: "ku",
        script: "Arab",
        region: "IQ",
    },
    Likely {
        language: "ku",
        script: "Arab",
        region: "IR",
    },
    Likely {
        language: "ku",
        script: "Arab",
        region: "LB",
    },
    Likely {
        language: "ku",
        script: "Cyrl",
        region: "TM",
    },
    Likely {
        language: "ky",
        script: "Arab",
        region: "CN",
    },
    Likely {
        language: "ky",
        script: "Latn",
        region: "TR",
    },
    Likely {
        language: "mn",
        script: "Mong",
        region: "CN",
    },
    Likely {
        language: "ms",
        script: "Arab",
        region: "CC",
    },
    Likely {
        language: "pa",
        script: "Arab",
        region: "PK",
    },
    Likely {
        language: "pi",
        script: "Deva",
        region: "IN",
    },
    Likely {
        language: "pi",
        script: "Sinh",
        region: "LK",
    },
    Likely {
        language: "pi",
        script: "Mymr",
        region: "MM",
    },
    Likely {
        language: "pi",
        script: "Thai",
        region: "TH",
    },
    Likely {
        language: "sd",
        script: "Deva",
        region: "IN",
    },
    Likely {
        language: "sr",
        script: "Latn",
        region: "ME",
    },
    Likely {
        language: "sr",
        script: "Latn",
        region: "RO",
    },
    Likely {
        language: "sr",
        script: "Latn",
        region: "TR",
    },
    Likely {
        language: "tg",
        script: "Arab",
        region: "PK",
    },
    Likely {
        language: "ug",
        script: "Cyrl",
        region: "KZ",
    },
    Likely {
        language: "ug",
        script: "Cyrl",
        region: "MN",
    },
    Likely {
        language: "uz",
        script: "Arab",
        region: "AF",
    },
    Likely {
        language: "uz",
        script: "Cyrl",
        region: "CN",
    },
    Likely {
        language: "yue",
        script: "Hans",
        region: "CN",
    },
    Likely {
        language: "zh",
        script: "Hant",
        region: "AU",
    },
    Likely {
        language: "zh",
        script: "Hant",
        region: "BN",
    },
    Likely {
        language: "zh",
        script: "Hant",
        region: "GB",
    },
    Likely {
        language: "zh",
        script: "Hant",
        region: "GF",
    },
    Likely {
        language: "zh",
        script: "Hant",
        region: "HK",
    },
    Likely {
        language: "zh",
        script: "Hant",
        region: "ID",
    },
    Likely {
        language: "zh",
        script: "Hant",
        region: "MO",
    },
    Likely {
        language: "zh",
        script: "Hant",
        region: "PA",
    },
    Likely {
        language: "zh",
        script: "Hant",
        region: "PF",
    },
    Likely {
        language: "zh",
        script: "Hant",
        region: "PH",
    },
    Likely {
        language: "zh",
        script: "Hant",
        region: "SR",
    },
    Likely {
        language: "zh",
        script: "Hant",
        region: "TH",
    },
    Likely {
        language: "zh",
        script: "Hant",
        region: "TW",
    },
    Likely {
        language: "zh",
        script: "Hant",
        region: "US",
    },
    Likely {
        language: "zh",
        script: "Hant",
        region: "VN",
    },
];

/// The region of a language in a script, if it is another than the language's.
pub(crate) const BY_SCRIPT: [Likely; 27] = [
    Likely {
        language: "az",
        script: "Arab",
        region: "IR",
    },
    Likely {
        language: "cu",
        script: "Glag",
        region: "BG",
    },
    Likely {
        language: "en",
        script: "Shaw",
        region: "GB",
    },
    Likely {
        language: "ff",
        script: "Adlm",
        region: "GN",
    },
    Likely {
        language: "hnj",
        script: "Hmng",
        region: "LA",
    },
    Likely {
        language: "kk",
        script: "Arab",
        region: "CN",
    },
    Likely {
        language: "ku",
        script: "Arab",
        region: "IQ",
    },
    Likely {
        language: "ku",
        script: "Cyrl",
        region: "AM",
    },
    Likely {
        language: "ku",
        script: "Yezi",
        region: "GE",
    },
    Likely {
        language: "ky",
        script: "Arab",
        region: "CN",
    },
    Likely {
        language: "ky",
        script: "Latn",
        region: "TR",
    },
    Likely {
        language: "mn",
        script: "Mong",
        region: "CN",
    },
    Likely {
        language: "pa",
        script: "Arab",
        region: "PK",
    },
    Likely {
        language: "pi",
        script: "Deva",
        region: "IN",
    },
    Likely {
        language: "pi",
        script: "Mymr",
        region: "MM",
    },
    Likely {
        language: "pi",
        script: "Sinh",
        region: "LK",
    },
    Likely {
        language: "pi",
        script: "Thai",
        region: "TH",
    },
    Likely {
        language: "sd",
        script: "Deva",
        region: "IN",
    },
    Likely {
        language: "sd",
        script: "Khoj",
        region: "IN",
    },
    Likely {
        language: "sd",
        script: "Sind",
        region: "IN",
    },
    Likely {
        language: "tg",
        script: "Arab",
        region: "PK",
    },
    Likely {
        language: "ug",
        script: "Cyrl",
        region: "KZ",
    },
    Likely {
        language: "uz",
        script: "Arab",
        region: "AF",
    },
    Likely {
        language: "yue",
        script: "Hans",
        region: "CN",
    },
    Likely {
        language: "zh",
        script: "Bopo",
        region: "TW",
    },
    Likely {
        language: "zh",
        script: "Hanb",
        region: "TW",
    },
    Likely {
        language: "zh",
        script: "Hant",
        region: "TW",
    },
];

/// Older and narrower codes of languages.
pub(crate) const ALIASES: [Alias; 10] = [
    Alias {
        older: "bh",
        language: "bho",
        script: "",
    },
    Alias {
        older: "in",
        language: "id",
        script: "",
    },
    Alias {
        older: "iw",
        language: "he",
        script: "",
    },
    Alias {
        older: "ji",
        language: "yi",
        script: "",
    },
    Alias {
        older: "jw",
        language: "jv",
        script: "",
    },
    Alias {
        older: "mo",
        language: "ro",
        script: "",
    },
    Alias {
        older: "sh",
        language: "sr",
        script: "Latn",
    },
    Alias {
        older: "tl",
        language: "fil",
        script: "",
    },
    Alias {
        older: "tw",
        language: "ak",
        script: "",
    },
    Alias {
        older: "nb",
        language: "no",
        script: "",
    },
];

/// The regions of languages whose regions fall into two groups: those of one group.
pub(crate) const GROUPS: [Grouped; 144] = [
    Grouped {
        language: "ar",
        region: "DZ",
    },
    Grouped {
        language: "ar",
        region: "EH",
    },
    Grouped {
        language: "ar",
        region: "LY",
    },
    Grouped {
        language: "ar",
        region: "MA",
    },
    Grouped {
        language: "ar",
        region: "MR",
    },
    Grouped {
        language: "ar",
        region: "TN",
    },
    Grouped {
        language: "en",
        region: "AS",
    },
    Grouped {
        language: "en",
        region: "CA",
    },
    Grouped {
        language: "en",
        region: "GU",
    },
    Grouped {
        language: "en",
        region: "MH",
    },
    Grouped {
        language: "en",
        region: "MP",
    },
    Grouped {
        language: "en",
        region: "PH",
    },
    Grouped {
        language: "en",
        region: "PR",
    },
    Grouped {
        language: "en",
        region: "UM",
    },
    Grouped {
        language: "en",
        region: "US",
    },
    Grouped {
        language: "en",
        region: "VI",
    },
    Grouped {
        language: "es",
        region: "005",
    },
    Grouped {
        language: "es",
        region: "013",
    },
    Grouped {
        language: "es",
        region: "019",
    },
    Grouped {
        language: "es",
        region: "021",
    },
    Grouped {
        language: "es",
        region: "029",
    },
    Grouped {
        language: "es",
        region: "419",
    },
    Grouped {
        language: "es",
        region: "AG",
    },
    Grouped {
        language: "es",
        region: "AI",
    },
    Grouped {
        language: "es",
        region: "AR",
    },
    Grouped {
        language: "es",
        region: "AW",
    },
    Grouped {
        language: "es",
        region: "BB",
    },
    Grouped {
        language: "es",
        region: "BL",
    },
    Grouped {
        language: "es",
        region: "BM",
    },
    Grouped {
        language: "es",
        region: "BO",
    },
    Grouped {
        language: "es",
        region: "BQ",
    },
    Grouped {
        language: "es",
        region: "BR",
    },
    Grouped {
        language: "es",
        region: "BS",
    },
    Grouped {
        language: "es",
        region: "BV",
    },
    Grouped {
        language: "es",
        region: "BZ",
    },
    Grouped {
        language: "es",
        region: "CA",
    },
    Grouped {
        language: "es",
        region: "CL",
    },
    Grouped {
        language: "es",
        region: "CO",
    },
    Grouped {
        language: "es",
        region: "CR",
    },
    Grouped {
        language: "es",
        region: "CU",
    },
    Grouped {
        language: "es",
        region: "CW",
    },
    Grouped {
        language: "es",
        region: "DM",
    },
    Grouped {
        language: "es",
        region: "DO",
    },
    Grouped {
        language: "es",
        region: "EC",
    },
    Grouped {
        language: "es",
        region: "FK",
    },
    Grouped {
        language: "es",
        region: "GD",
    },
    Grouped {
        language: "es",
        region: "GF",
    },
    Grouped {
        language: "es",
        region: "GL",
    },
    Grouped {
        language: "es",
        region: "GP",
    },
    Grouped {
        language: "es",
        region: "GS",
    },
    Grouped {
        language: "es",
        region: "GT",
    },
    Grouped {
        language: "es",
        region: "GY",
    },
    Grouped {
        language: "es",
        region: "HN",
    },
    Grouped {
        language: "es",
        region: "HT",
    },
    Grouped {
        language: "es",
        region: "JM",
    },
    Grouped {
        language: "es",
        region: "KN",
    },
    Grouped {
        language: "es",
        region: "KY",
    },
    Grouped {
        language: "es",
        region: "LC",
    },
    Grouped {
        language: "es",
        region: "MF",
    },
    Grouped {
        language: "es",
        region: "MQ",
    },
    Grouped {
        language: "es",
        region: "MS",
    },
    Grouped {
        language: "es",
        region: "MX",
    },
    Grouped {
        language: "es",
        region: "NI",
    },
    Grouped {
        language: "es",
        region: "PA",
    },
    Grouped {
        language: "es",
        region: "PE",
    },
    Grouped {
        language: "es",
        region: "PM",
    },
    Grouped {
        language: "es",
        region: "PR",
    },
    Grouped {
        language: "es",
        region: "PY",
    },
    Grouped {
        language: "es",
        region: "SR",
    },
    Grouped {
        language: "es",
        region: "SV",
    },
    Grouped {
        language: "es",
        region: "SX",
    },
    Grouped {
        language: "es",
        region: "TC",
    },
    Grouped {
        language: "es",
        region: "TT",
    },
    Grouped {
        language: "es",
        region: "US",
    },
    Grouped {
        language: "es",
        region: "UY",
    },
    Grouped {
        language: "es",
        region: "VC",
    },
    Grouped {
        language: "es",
        region: "VE",
    },
    Grouped {
        language: "es",
        region: "VG",
    },
    Grouped {
        language: "es",
        region: "VI",
    },
    Grouped {
        language: "pt",
        region: "005",
    },
    Grouped {
        language: "pt",
        region: "013",
    },
    Grouped {
        language: "pt",
        region: "019",
    },
    Grouped {
        language: "pt",
        region: "021",
    },
    Grouped {
        language: "pt",
        region: "029",
    },
    Grouped {
        language: "pt",
        region: "419",
    },
    Grouped {
        language: "pt",
        region: "AG",
    },
    Grouped {
        language: "pt",
        region: "AI",
    },
    Grouped {
        language: "pt",
        region: "AR",
    },
    Grouped {
        language: "pt",
        region: "AW",
    },
    Grouped {
        language: "pt",
        region: "BB",
    },
    Grouped {
        language: "pt",
        region: "BL",
    },
    Grouped {
        language: "pt",
        region: "BM",
    },
    Grouped {
        language: "pt",
        region: "BO",
    },
    Grouped {
        language: "pt",
        region: "BQ",
    },
    Grouped {
        language: "pt",
        region: "BR",
    },
    Grouped {
        language: "pt",
        region: "BS",
    },
    Grouped {
        language: "pt",
        region: "BV",
    },
    Grouped {
        language: "pt",
        region: "BZ",
    },
    Grouped {
        language: "pt",
        region: "CA",
    },
    Grouped {
        language: "pt",
        region: "CL",
    },
    Grouped {
        language: "pt",
        region: "CO",
    },
    Grouped {
        language: "pt",
        region: "CR",
    },
    Grouped {
        language: "pt",
        region: "CU",
    },
    Grouped {
        language: "pt",
        region: "CW",
    },
    Grouped {
        language: "pt",
        region: "DM",
    },
    Grouped {
        language: "pt",
        region: "DO",
    },
    Grouped {
        language: "pt",
        region: "EC",
    },
    Grouped {
        language: "pt",
        region: "FK",
    },
    Grouped {
        language: "pt",
        region: "GD",
    },
    Grouped {
        language: "pt",
        region: "GF",
    },
    Grouped {
        language: "pt",
        region: "GL",
    },
    Grouped {
        language: "pt",
        region: "GP",
    },
    Grouped {
        language: "pt",
        region: "GS",
    },
    Grouped {
        language: "pt",
        region: "GT",
    },
    Grouped {
        language: "pt",
        region: "GY",
    },
    Grouped {
        language: "pt",
        region: "HN",
    },
    Grouped {
        language: "pt",
        region: "HT",
    },
    Grouped {
        language: "pt",
        region: "JM",
    },
    Grouped {
        language: "pt",
        region: "KN",
    },
    Grouped {
        language: "pt",
        region: "KY",
    },
    Grouped {
        language: "pt",
        region: "LC",
    },
    Grouped {
        language: "pt",
        region: "MF",
    },
    Grouped {
        language: "pt",
        region: "MQ",
    },
    Grouped {
        language: "pt",
        region: "MS",
    },
    Grouped {
        language: "pt",
        region: "MX",
    },
    Grouped {
        language: "pt",
        region: "NI",
    },
    Grouped {
        language: "pt",
        region: "PA",
    },
    Grouped {
        language: "pt",
        region: "PE",
    },
    Grouped {
        language: "pt",
        region: "PM",
    },
    Grouped {
        language: "pt",
        region: "PR",
    },
    Grouped {
        language: "pt",
        region: "PY",
    },
    Grouped {
        language: "pt",
        region: "SR",
    },
    Grouped {
        language: "pt",
        region: "SV",
    },
    Grouped {
        language: "pt",
        region: "SX",
    },
    Grouped {
        language: "pt",
        region: "TC",
    },
    Grouped {
        language: "pt",
        region: "TT",
    },
    Grouped {
        language: "pt",
        region: "US",
    },
    Grouped {
        language: "pt",
        region: "UY",
    },
    Grouped {
        language: "pt",
        region: "VC",
    },
    Grouped {
        language: "pt",
        region: "VE",
    },
    Grouped {
        language: "pt",
        region: "VG",
    },
    Grouped {
        language: "pt",
        region: "VI",
    },
    Grouped {
        language: "zh",
        region: "HK",
    },
    Grouped {
        language: "zh",
        region: "MO",
    },
];

/// The region of such a group that stands for the others.
pub(crate) const STANDING: [Grouped; 4] = [
    Grouped {
        language: "en",
        region: "GB",
    },
    Grouped {
        language: "es",
        region: "419",
    },
    Grouped {
        language: "pt",
        region: "PT",
    },
    Grouped {
        language: "zh",
        region: "HK",
    },
];

/// A language whose readers read each of its scripts.
pub(crate) const DIGRAPHIC: &str = "sr";
