//! The tags, and the numbers of their rows.
// Written by tools/dates from Unicode CLDR 48. Do not edit.
ghost use Rattle.std.specs.Prelude.{◌≡◌};
ghost use Rattle.fluent_date_tables.specs.Tags.{tags_a, tags_b, tags_c, tags_d, tags_e, tags_f, tags_g, tags_h, tags_i, tags_j, tags_k, tags_l, tags_m, tags_n, tags_o, tags_p, tags_q, tags_r, tags_s, tags_t, tags_u, tags_v, tags_w, tags_x, tags_y, tags_z, row_for};
ghost use Rattle.fluent_date_tables.specs.Tables.{at_letter, first_of};
ghost use Rattle.fluent_date_tables.specs.Letters.{lettered};

use crate::tables::{Family, Tagged, first_folded, row_among};

/// A language with its row, and what may follow it with the row of both.
macro_rules! family {
    ($language:literal $row:literal, $($more:literal $both:literal,)*) => {
        Family {
            language: $language,
            row: $row,
            more: &[$(Tagged { tag: $more, row: $both }),*],
        }
    };
}

/// The row of the longest tag that a text begins with.
#[tactic(auto, using(crate::proofs::Letters::row_by_letter))]
pub fn row_for(tag: &[u8]) -> Option<u16>
    ensures { result ≡ row_for tag.now }
{
    row_by_letter(first_folded(tag), tag)
}

/// The row of the longest tag of this first letter that a text begins with.
fn row_by_letter(letter: u8, tag: &[u8]) -> Option<u16>
    ensures { result ≡ at_letter lettered letter tag.now }
{
    match letter {
        b'a' => row_in_a(tag),
        b'b' => row_in_b(tag),
        b'c' => row_in_c(tag),
        b'd' => row_in_d(tag),
        b'e' => row_in_e(tag),
        b'f' => row_in_f(tag),
        b'g' => row_in_g(tag),
        b'h' => row_in_h(tag),
        b'i' => row_in_i(tag),
        b'j' => row_in_j(tag),
        b'k' => row_in_k(tag),
        b'l' => row_in_l(tag),
        b'm' => row_in_m(tag),
        b'n' => row_in_n(tag),
        b'o' => row_in_o(tag),
        b'p' => row_in_p(tag),
        b'q' => row_in_q(tag),
        b'r' => row_in_r(tag),
        b's' => row_in_s(tag),
        b't' => row_in_t(tag),
        b'u' => row_in_u(tag),
        b'v' => row_in_v(tag),
        b'w' => row_in_w(tag),
        b'x' => row_in_x(tag),
        b'y' => row_in_y(tag),
        b'z' => row_in_z(tag),
        _ => None,
    }
}

static TAGS_A: [Family; 10] = [
    family!["af" 1, "na" 249,],
    family!["agq" 2,],
    family!["ak" 3,],
    family!["am" 4,],
    family![
        "ar" 5, "bh" 250, "dj" 250, "dz" 251, "eg" 250, "er" 250, "il" 252, "iq" 253, "jo" 254, "km" 255, "kw" 250,
        "lb" 254, "ly" 256, "ma" 257, "mr" 258, "om" 250, "ps" 254, "qa" 250, "sa" 259, "sd" 250, "so" 250, "ss" 250,
        "sy" 254, "td" 250, "tn" 251, "ye" 250,
    ],
    family!["ars" 6,],
    family!["as" 7,],
    family!["asa" 8,],
    family!["ast" 9,],
    family!["az" 10, "cyrl" 260,],
];

/// The row of the longest tag of the table above that a text begins with.
fn row_in_a(tag: &[u8]) -> Option<u16>
    ensures { result ≡ first_of tags_a tag.now }
{
    row_among(&TAGS_A, tag)
}

static TAGS_B: [Family; 16] = [
    family!["ba" 11,],
    family!["bas" 12,],
    family!["be" 13,],
    family!["bem" 14,],
    family!["bez" 15,],
    family!["bg" 16,],
    family!["bgc" 17,],
    family!["bho" 18,],
    family!["blo" 19,],
    family!["bm" 20,],
    family!["bn" 21, "in" 261,],
    family!["bo" 22, "in" 262,],
    family!["br" 23,],
    family!["brx" 24,],
    family!["bs" 25, "cyrl" 263,],
    family!["bua" 26,],
];

/// The row of the longest tag of the table above that a text begins with.
fn row_in_b(tag: &[u8]) -> Option<u16>
    ensures { result ≡ first_of tags_b tag.now }
{
    row_among(&TAGS_B, tag)
}

static TAGS_C: [Family; 11] = [
    family!["ca" 27,],
    family!["ccp" 28,],
    family!["ce" 29,],
    family!["ceb" 30,],
    family!["cgg" 31,],
    family!["chr" 32,],
    family!["ckb" 33, "ir" 264,],
    family!["cs" 34,],
    family!["csw" 35,],
    family!["cv" 36,],
    family!["cy" 37,],
];

/// The row of the longest tag of the table above that a text begins with.
fn row_in_c(tag: &[u8]) -> Option<u16>
    ensures { result ≡ first_of tags_c tag.now }
{
    row_among(&TAGS_C, tag)
}

static TAGS_D: [Family; 9] = [
    family!["da" 38,],
    family!["dav" 39,],
    family!["de" 40, "at" 265, "ch" 266, "it" 265, "li" 267, "lu" 268,],
    family!["dje" 41,],
    family!["doi" 42,],
    family!["dsb" 43,],
    family!["dua" 44,],
    family!["dyo" 45,],
    family!["dz" 46,],
];

/// The row of the longest tag of the table above that a text begins with.
fn row_in_d(tag: &[u8]) -> Option<u16>
    ensures { result ≡ first_of tags_d tag.now }
{
    row_among(&TAGS_D, tag)
}

static TAGS_E: [Family; 9] = [
    family!["ebu" 47,],
    family!["ee" 48, "tg" 269,],
    family!["el" 49,],
    family![
        "en" 50, "001" 270, "150" 271, "ae" 272, "ag" 270, "ai" 271, "at" 273, "au" 274, "bb" 270, "be" 275,
        "bi" 276, "bm" 270, "bs" 270, "bw" 277, "bz" 278, "ca" 279, "cc" 271, "ch" 280, "ck" 271, "cm" 271, "cx" 271,
        "cy" 270, "cz" 273, "de" 273, "dg" 271, "dk" 281, "dm" 270, "ee" 273, "er" 270, "es" 273, "fi" 282, "fj" 270,
        "fk" 271, "fm" 270, "fr" 273, "gb" 283, "gd" 270, "ge" 273, "gg" 271, "gh" 270, "gi" 271, "gm" 270, "gs" 271,
        "gy" 270, "hk" 284, "hu" 273, "id" 285, "ie" 286, "il" 287, "im" 271, "in" 288, "io" 271, "it" 273, "je" 271,
        "jm" 270, "jp" 289, "ke" 271, "ki" 270, "kn" 270, "ky" 270, "lc" 270, "lr" 270, "ls" 270, "lt" 273, "lv" 273,
        "mg" 271, "mo" 270, "ms" 271, "mt" 290, "mu" 271, "mv" 291, "mw" 270, "my" 270, "na" 270, "nf" 271, "ng" 271,
        "nh" 270, "nl" 273, "no" 273, "nr" 271, "nu" 271, "nz" 292, "pg" 270, "pk" 293, "pl" 273, "pn" 271, "pt" 273,
        "pw" 270, "rh" 294, "ro" 273, "rw" 271, "sb" 270, "sc" 271, "sd" 270, "se" 295, "sg" 296, "sh" 271, "si" 273,
        "sk" 273, "sl" 270, "ss" 270, "sx" 271, "sz" 270, "tc" 270, "tk" 271, "to" 270, "tt" 270, "tv" 271, "tz" 271,
        "ua" 273, "ug" 271, "vc" 270, "vg" 270, "vu" 270, "ws" 270, "za" 297, "zm" 270, "zw" 294,
    ],
    family!["eo" 51,],
    family![
        "es" 52, "419" 298, "ar" 299, "bo" 300, "br" 301, "bz" 301, "cl" 302, "co" 303, "cr" 304, "cu" 298, "do" 305,
        "ec" 304, "gt" 306, "hn" 307, "mx" 308, "ni" 309, "pa" 310, "pe" 311, "ph" 312, "pr" 313, "py" 314, "sv" 315,
        "us" 316, "uy" 317, "ve" 314,
    ],
    family!["et" 53,],
    family!["eu" 54,],
    family!["ewo" 55,],
];

/// The row of the longest tag of the table above that a text begins with.
fn row_in_e(tag: &[u8]) -> Option<u16>
    ensures { result ≡ first_of tags_e tag.now }
{
    row_among(&TAGS_E, tag)
}

static TAGS_F: [Family; 8] = [
    family!["fa" 56, "af" 318,],
    family![
        "ff" 57, "adlm-gh" 384, "adlm-gm" 384, "adlm-lr" 384, "adlm-mr" 384, "adlm-sl" 384, "adlm" 319, "gh" 320,
        "gm" 320, "latn-gh" 320, "latn-gm" 320, "latn-lr" 320, "latn-mr" 320, "latn-sl" 320, "lr" 320, "mr" 320,
        "sl" 320,
    ],
    family!["fi" 58,],
    family!["fil" 59,],
    family!["fo" 60,],
    family![
        "fr" 61, "be" 321, "ca" 322, "ch" 323, "cm" 324, "dj" 325, "dz" 325, "ht" 326, "ma" 327, "mr" 325, "re" 328,
        "sn" 328, "sy" 325, "td" 325, "tn" 325, "vu" 325,
    ],
    family!["fur" 62,],
    family!["fy" 63,],
];

/// The row of the longest tag of the table above that a text begins with.
fn row_in_f(tag: &[u8]) -> Option<u16>
    ensures { result ≡ first_of tags_f tag.now }
{
    row_among(&TAGS_F, tag)
}

static TAGS_G: [Family; 8] = [
    family!["ga" 64,],
    family!["gaa" 65,],
    family!["gd" 66,],
    family!["gl" 67,],
    family!["gsw" 68,],
    family!["gu" 69,],
    family!["guz" 70,],
    family!["gv" 71,],
];

/// The row of the longest tag of the table above that a text begins with.
fn row_in_g(tag: &[u8]) -> Option<u16>
    ensures { result ≡ first_of tags_g tag.now }
{
    row_among(&TAGS_G, tag)
}

static TAGS_H: [Family; 8] = [
    family!["ha" 72, "gh" 329,],
    family!["haw" 73,],
    family!["he" 74,],
    family!["hi" 75, "latn" 330,],
    family!["hr" 76, "ba" 331,],
    family!["hsb" 77,],
    family!["hu" 78,],
    family!["hy" 79,],
];

/// The row of the longest tag of the table above that a text begins with.
fn row_in_h(tag: &[u8]) -> Option<u16>
    ensures { result ≡ first_of tags_h tag.now }
{
    row_among(&TAGS_H, tag)
}

static TAGS_I: [Family; 9] = [
    family!["ia" 80,],
    family!["id" 81,],
    family!["ie" 82,],
    family!["ig" 83,],
    family!["ii" 84,],
    family!["in" 85,],
    family!["is" 86,],
    family!["it" 87, "ch" 332,],
    family!["iw" 88,],
];

/// The row of the longest tag of the table above that a text begins with.
fn row_in_i(tag: &[u8]) -> Option<u16>
    ensures { result ≡ first_of tags_i tag.now }
{
    row_among(&TAGS_I, tag)
}

static TAGS_J: [Family; 4] = [
    family!["ja" 89,],
    family!["jgo" 90,],
    family!["jmc" 91,],
    family!["jv" 92,],
];

/// The row of the longest tag of the table above that a text begins with.
fn row_in_j(tag: &[u8]) -> Option<u16>
    ensures { result ≡ first_of tags_j tag.now }
{
    row_among(&TAGS_J, tag)
}

static TAGS_K: [Family; 24] = [
    family!["ka" 93,],
    family!["kab" 94,],
    family!["kam" 95,],
    family!["kde" 96,],
    family!["kea" 97,],
    family!["kgp" 98,],
    family!["khq" 99,],
    family!["ki" 100,],
    family!["kk" 101, "arab" 333, "cn" 333,],
    family!["kkj" 102,],
    family!["kl" 103,],
    family!["kln" 104,],
    family!["km" 105,],
    family!["kn" 106,],
    family!["ko" 107, "cn" 334,],
    family!["kok" 108, "latn" 335,],
    family!["ks" 109, "deva" 336,],
    family!["ksb" 110,],
    family!["ksf" 111,],
    family!["ksh" 112,],
    family!["ku" 113, "iq" 337, "latn-iq" 337,],
    family!["kw" 114,],
    family!["kxv" 115, "deva" 338, "orya" 339, "telu" 340,],
    family!["ky" 116,],
];

/// The row of the longest tag of the table above that a text begins with.
fn row_in_k(tag: &[u8]) -> Option<u16>
    ensures { result ≡ first_of tags_k tag.now }
{
    row_among(&TAGS_K, tag)
}

static TAGS_L: [Family; 14] = [
    family!["lag" 117,],
    family!["lb" 118,],
    family!["lg" 119,],
    family!["lij" 120,],
    family!["lkt" 121,],
    family!["lmo" 122,],
    family!["ln" 123,],
    family!["lo" 124,],
    family!["lrc" 125, "iq" 341,],
    family!["lt" 126,],
    family!["lu" 127,],
    family!["luo" 128,],
    family!["luy" 129,],
    family!["lv" 130,],
];

/// The row of the longest tag of the table above that a text begins with.
fn row_in_l(tag: &[u8]) -> Option<u16>
    ensures { result ≡ first_of tags_l tag.now }
{
    row_among(&TAGS_L, tag)
}

static TAGS_M: [Family; 19] = [
    family!["mai" 131,],
    family!["mas" 132,],
    family!["mer" 133,],
    family!["mfe" 134,],
    family!["mg" 135,],
    family!["mgh" 136,],
    family!["mgo" 137,],
    family!["mi" 138,],
    family!["mk" 139,],
    family!["ml" 140,],
    family!["mn" 141,],
    family!["mni" 142,],
    family!["mo" 143,],
    family!["mr" 144,],
    family!["ms" 145, "bn" 342, "id" 343,],
    family!["mt" 146,],
    family!["mua" 147,],
    family!["my" 148,],
    family!["mzn" 149,],
];

/// The row of the longest tag of the table above that a text begins with.
fn row_in_m(tag: &[u8]) -> Option<u16>
    ensures { result ≡ first_of tags_m tag.now }
{
    row_among(&TAGS_M, tag)
}

static TAGS_N: [Family; 14] = [
    family!["naq" 150,],
    family!["nb" 151,],
    family!["nd" 152,],
    family!["nds" 153,],
    family!["ne" 154, "in" 344,],
    family!["nl" 155, "be" 345,],
    family!["nmg" 156,],
    family!["nn" 157,],
    family!["nnh" 158,],
    family!["no" 151,],
    family!["nqo" 159,],
    family!["nso" 160,],
    family!["nus" 161,],
    family!["nyn" 162,],
];

/// The row of the longest tag of the table above that a text begins with.
fn row_in_n(tag: &[u8]) -> Option<u16>
    ensures { result ≡ first_of tags_n tag.now }
{
    row_among(&TAGS_N, tag)
}

static TAGS_O: [Family; 4] = [
    family!["oc" 163, "es" 346,],
    family!["om" 164, "ke" 347,],
    family!["or" 165,],
    family!["os" 166,],
];

/// The row of the longest tag of the table above that a text begins with.
fn row_in_o(tag: &[u8]) -> Option<u16>
    ensures { result ≡ first_of tags_o tag.now }
{
    row_among(&TAGS_O, tag)
}

static TAGS_P: [Family; 7] = [
    family!["pa" 167, "arab" 348, "pk" 348,],
    family!["pcm" 168,],
    family!["pl" 169,],
    family!["pms" 170,],
    family!["prg" 171,],
    family!["ps" 172, "pk" 349,],
    family![
        "pt" 173, "ao" 350, "ch" 350, "cv" 350, "gq" 350, "gw" 350, "lu" 350, "mo" 351, "mz" 350, "pt" 350, "st" 350,
        "tl" 350,
    ],
];

/// The row of the longest tag of the table above that a text begins with.
fn row_in_p(tag: &[u8]) -> Option<u16>
    ensures { result ≡ first_of tags_p tag.now }
{
    row_among(&TAGS_P, tag)
}

static TAGS_Q: [Family; 1] = [family!["qu" 174, "bo" 352,]];

/// The row of the longest tag of the table above that a text begins with.
fn row_in_q(tag: &[u8]) -> Option<u16>
    ensures { result ≡ first_of tags_q tag.now }
{
    row_among(&TAGS_Q, tag)
}

static TAGS_R: [Family; 8] = [
    family!["raj" 175,],
    family!["rm" 176,],
    family!["rn" 177,],
    family!["ro" 178, "md" 353,],
    family!["rof" 179,],
    family!["ru" 180, "ua" 354,],
    family!["rw" 181,],
    family!["rwk" 91,],
];

/// The row of the longest tag of the table above that a text begins with.
fn row_in_r(tag: &[u8]) -> Option<u16>
    ensures { result ≡ first_of tags_r tag.now }
{
    row_among(&TAGS_R, tag)
}

static TAGS_S: [Family; 29] = [
    family!["sa" 182,],
    family!["sah" 183,],
    family!["saq" 184,],
    family!["sat" 185,],
    family!["sbp" 186,],
    family!["sc" 187,],
    family!["scn" 188,],
    family!["sd" 189, "deva" 355, "in" 355,],
    family!["se" 190, "fi" 356,],
    family!["seh" 191,],
    family!["ses" 192,],
    family!["sg" 193,],
    family!["sh" 194, "ba" 357,],
    family!["shi" 195, "latn" 358,],
    family!["shn" 196,],
    family!["si" 197,],
    family!["sk" 198,],
    family!["sl" 199,],
    family!["smn" 200,],
    family!["sn" 201,],
    family!["so" 202, "ke" 359,],
    family!["sq" 203, "mk" 360, "xk" 360,],
    family![
        "sr" 204, "ba" 361, "cyrl-ba" 361, "cyrl-me" 385, "cyrl-xk" 364, "latn-ba" 386, "latn-me" 363, "latn-xk" 387,
        "latn" 362, "me" 363, "xk" 364,
    ],
    family!["st" 205, "ls" 365,],
    family!["su" 206,],
    family!["sv" 207, "ax" 366, "fi" 367,],
    family!["sw" 208, "cd" 368, "ke" 369,],
    family!["syr" 209,],
    family!["szl" 210,],
];

/// The row of the longest tag of the table above that a text begins with.
fn row_in_s(tag: &[u8]) -> Option<u16>
    ensures { result ≡ first_of tags_s tag.now }
{
    row_among(&TAGS_S, tag)
}

static TAGS_T: [Family; 16] = [
    family!["ta" 211, "lk" 370,],
    family!["te" 212,],
    family!["teo" 213,],
    family!["tg" 214,],
    family!["th" 215,],
    family!["ti" 216, "er" 371,],
    family!["tk" 217,],
    family!["tl" 218,],
    family!["tn" 219,],
    family!["to" 220,],
    family!["tok" 221,],
    family!["tr" 222, "cy" 372,],
    family!["tt" 223,],
    family!["twq" 224,],
    family!["tyv" 225,],
    family!["tzm" 226,],
];

/// The row of the longest tag of the table above that a text begins with.
fn row_in_t(tag: &[u8]) -> Option<u16>
    ensures { result ≡ first_of tags_t tag.now }
{
    row_among(&TAGS_T, tag)
}

static TAGS_U: [Family; 5] = [
    family!["ug" 227,],
    family!["uk" 228,],
    family!["und" 0,],
    family!["ur" 229, "in" 373,],
    family!["uz" 230, "af" 374, "arab" 374, "cyrl" 375,],
];

/// The row of the longest tag of the table above that a text begins with.
fn row_in_u(tag: &[u8]) -> Option<u16>
    ensures { result ≡ first_of tags_u tag.now }
{
    row_among(&TAGS_U, tag)
}

static TAGS_V: [Family; 5] = [
    family!["vai" 231, "latn" 376,],
    family!["vec" 232,],
    family!["vi" 233,],
    family!["vmw" 234,],
    family!["vun" 91,],
];

/// The row of the longest tag of the table above that a text begins with.
fn row_in_v(tag: &[u8]) -> Option<u16>
    ensures { result ≡ first_of tags_v tag.now }
{
    row_among(&TAGS_V, tag)
}

static TAGS_W: [Family; 2] = [family!["wae" 235,], family!["wo" 236,]];

/// The row of the longest tag of the table above that a text begins with.
fn row_in_w(tag: &[u8]) -> Option<u16>
    ensures { result ≡ first_of tags_w tag.now }
{
    row_among(&TAGS_W, tag)
}

static TAGS_X: [Family; 3] = [family!["xh" 237,], family!["xnr" 238,], family!["xog" 239,]];

/// The row of the longest tag of the table above that a text begins with.
fn row_in_x(tag: &[u8]) -> Option<u16>
    ensures { result ≡ first_of tags_x tag.now }
{
    row_among(&TAGS_X, tag)
}

static TAGS_Y: [Family; 5] = [
    family!["yav" 240,],
    family!["yi" 241,],
    family!["yo" 242, "bj" 377,],
    family!["yrl" 243, "co" 378, "ve" 378,],
    family!["yue" 244, "cn" 379, "hans" 379, "hant-cn" 388,],
];

/// The row of the longest tag of the table above that a text begins with.
fn row_in_y(tag: &[u8]) -> Option<u16>
    ensures { result ≡ first_of tags_y tag.now }
{
    row_among(&TAGS_Y, tag)
}

static TAGS_Z: [Family; 4] = [
    family!["za" 245,],
    family!["zgh" 246,],
    family![
        "zh" 247, "hans-hk" 389, "hans-mo" 390, "hans-my" 382, "hans-sg" 383, "hant-hk" 380, "hant-mo" 380,
        "hant-my" 391, "hant" 381, "hk" 380, "mo" 380, "my" 382, "sg" 383, "tw" 381,
    ],
    family!["zu" 248,],
];

/// The row of the longest tag of the table above that a text begins with.
fn row_in_z(tag: &[u8]) -> Option<u16>
    ensures { result ≡ first_of tags_z tag.now }
{
    row_among(&TAGS_Z, tag)
}
