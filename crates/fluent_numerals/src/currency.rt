//! Currencies, and how one is found.
ghost use Rattle.std.specs.Prelude.{◌≡◌, map, nat_eq};
ghost use Rattle.std.specs.List.{ends_with, list_any, starts_with};
ghost use Rattle.std.specs.Str.{str_eq_ignore_ascii_case};
ghost use Rattle.fluent_numerals.specs.Forms.{coded};
ghost use Rattle.fluent_numerals.specs.Signs.{begins_with_sign, ends_with_sign};
ghost use Rattle.fluent_numerals.specs.Tagged.{or_else};
ghost use Rattle.fluent_numerals.specs.Views.{found_currency, currency_views};

use crate::currencies::SIGNS;
use crate::tagged::Tagged;

/// A currency.
#[derive(Clone, Copy)]
pub(crate) struct Currency {
    pub(crate) code: &'static str,
    /// How many digits its amounts have after the point.
    pub(crate) digits: u8,
    /// Its symbol in locales that have no other one for it.
    pub(crate) symbol: &'static str,
    /// Its symbols in locales, by tag.
    pub(crate) symbols: &'static [Tagged],
    /// The forms that locales write its amounts by if not by their own: names by tag.
    pub(crate) own: &'static [Tagged],
}

/// The first of the rows that has this code, in letters of either case.
pub(crate) fn first_coded<'a>(rows: &'a [Currency], code: &str) -> Option<&'a Currency>
    ensures { found_currency result ≡ coded (currency_views rows.now) code.now }
{
    for row in rows {
        if is_code(row.code, code) {
            return Some(row);
        }
    }
    None
}

/// Whether a text is a code, in letters of either case.
fn is_code(code: &str, text: &str) -> bool
    ensures { result ≡ str_eq_ignore_ascii_case code.now text.now }
{
    code.eq_ignore_ascii_case(text)
}

/// The first of two that is there.
pub(crate) fn first_found(
    first: Option<&'static Currency>,
    second: Option<&'static Currency>,
) -> Option<&'static Currency>
    ensures { found_currency result ≡ or_else (found_currency first.entry) (found_currency second.entry) }
{
    match first {
        Some(currency) => Some(currency),
        None => second,
    }
}

/// Whether a text begins with a currency sign.
pub(crate) fn begins_with_sign(text: &str) -> bool
    ensures { result ≡ begins_with_sign text.now }
{
    begins_with_one(text.as_bytes(), &SIGNS)
}

/// Whether a text ends with a currency sign.
pub(crate) fn ends_with_sign(text: &str) -> bool
    ensures { result ≡ ends_with_sign text.now }
{
    ends_with_one(text.as_bytes(), &SIGNS)
}

/// Whether a text begins with one of these.
fn begins_with_one(text: &[u8], signs: &[&str]) -> bool
    ensures { result ≡ list_any (λ sign. starts_with nat_eq text.now sign) (map (λ sign. sign.now) signs.now) }
{
    for sign in signs {
        if text.starts_with(sign.as_bytes()) {
            return true;
        }
    }
    false
}

/// Whether a text ends with one of these.
fn ends_with_one(text: &[u8], signs: &[&str]) -> bool
    ensures { result ≡ list_any (λ sign. ends_with nat_eq text.now sign) (map (λ sign. sign.now) signs.now) }
{
    for sign in signs {
        if text.ends_with(sign.as_bytes()) {
            return true;
        }
    }
    false
}
