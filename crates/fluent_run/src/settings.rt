//! How answers are made.

use fluent_numerals::LocaleNumerals;

/// How answers are made.
///
/// ```
/// let settings = Settings {
///     isolating: false,
///     overriding: false,
///     numerals: None,
/// };
/// ```
#[derive(Clone, Copy)]
pub struct Settings {
    /// Whether the values of placeables stand between the marks U+2068 and U+2069, which keep their
    /// direction from that of the text around them.
    pub isolating: bool,
    /// Whether the last entry of an id counts, and not the first.
    pub overriding: bool,
    /// How numbers are written; `None` if they are written plainly.
    pub numerals: Option<LocaleNumerals>,
}
