ghost use Rattle.std.specs.Prelude.{◌≡◌, IfOk, OnOk, OnErr, IsNone, IsOk, option_map, option_copied, string_bytes, codes};
ghost use Rattle.fluent_number.specs.Merge.{Merges, with_texts, with_counts, updated, asks_for_grouping, count_of, number_type_named, style_named, currency_display_named};
ghost use Rattle.fluent_number.specs.Options.{options_of, default_options};

use crate::source::OptionSource;
use std::alloc::{AllocError, Global};

/// Whether a number counts things or is a place in an order.
///
/// ```no_run
/// let mut place = FluentNumber::from(2_u8);
/// place.options.number_type = FluentNumberType::Ordinal;
/// ```
#[derive(Clone, Copy, Debug, Default, PartialEq, Eq, Hash)]
pub enum FluentNumberType {
    /// It counts things, as in "2 days".
    #[default]
    Cardinal,
    /// It is a place in an order, as in "the 2nd day".
    Ordinal,
}

/// `cardinal` or `ordinal`; any other text gives the default, cardinal.
impl From<&str> for FluentNumberType {
    ghost from_gives = { λ text named. named ≡ number_type_named text.now };

    fn from(text: &str) -> Self {
        if text == "ordinal" {
            FluentNumberType::Ordinal
        } else {
            FluentNumberType::Cardinal
        }
    }
}

/// What a number is shown as.
///
/// ```no_run
/// options.style = FluentNumberStyle::Currency;
/// options.currency = Some(String::from_str(alloc, "EUR")?);
/// ```
#[derive(Clone, Copy, Debug, Default, PartialEq, Eq, Hash)]
pub enum FluentNumberStyle {
    /// A plain number.
    #[default]
    Decimal,
    /// An amount of the option `currency`.
    Currency,
    /// A part of a hundred.
    Percent,
}

/// `decimal`, `currency` or `percent`; any other text gives the default, decimal.
impl From<&str> for FluentNumberStyle {
    ghost from_gives = { λ text named. named ≡ style_named text.now };

    fn from(text: &str) -> Self {
        match text {
            "currency" => FluentNumberStyle::Currency,
            "percent" => FluentNumberStyle::Percent,
            _ => FluentNumberStyle::default(),
        }
    }
}

/// How a currency is named.
///
/// ```no_run
/// options.currency_display = FluentNumberCurrencyDisplayStyle::Code;
/// ```
#[derive(Clone, Copy, Debug, Default, PartialEq, Eq, Hash)]
pub enum FluentNumberCurrencyDisplayStyle {
    /// By its sign, as "€".
    #[default]
    Symbol,
    /// By its code, as "EUR".
    Code,
    /// By its name, as "euro".
    Name,
}

/// `symbol`, `code` or `name`; any other text gives the default, symbol.
impl From<&str> for FluentNumberCurrencyDisplayStyle {
    ghost from_gives = { λ text named. named ≡ currency_display_named text.now };

    fn from(text: &str) -> Self {
        match text {
            "code" => FluentNumberCurrencyDisplayStyle::Code,
            "name" => FluentNumberCurrencyDisplayStyle::Name,
            _ => FluentNumberCurrencyDisplayStyle::default(),
        }
    }
}

/// How a number is to be shown.
///
/// Only `number_type` and `minimum_fraction_digits` have an effect in this crate; the other options
/// are kept and compared, for formatters to look at.
///
/// ```no_run
/// let mut options = FluentNumberOptions::default();
/// options.minimum_fraction_digits = Some(2);
/// ..
/// let price = FluentNumber::new(three, options);
/// println!(rt; "{}", price.as_string(alloc)?)?; // 3.00
/// ```
#[derive(Debug, Drop, PartialEq, Eq, Hash)]
pub struct FluentNumberOptions {
    /// Whether it counts or is a place in an order, which decides between the plural rules.
    pub number_type: FluentNumberType,
    /// What it is shown as.
    pub style: FluentNumberStyle,
    /// The currency that it is an amount of.
    pub currency: Option<String>,
    /// How that currency is named.
    pub currency_display: FluentNumberCurrencyDisplayStyle,
    /// Whether the digits of the whole part are grouped.
    pub use_grouping: bool,
    /// The least count of digits before the point.
    pub minimum_integer_digits: Option<usize>,
    /// The least count of digits after the point; if it is set, the text of the number has a point.
    pub minimum_fraction_digits: Option<usize>,
    /// The greatest count of digits after the point.
    pub maximum_fraction_digits: Option<usize>,
    /// The least count of significant digits.
    pub minimum_significant_digits: Option<usize>,
    /// The greatest count of significant digits.
    pub maximum_significant_digits: Option<usize>,
}

/// A cardinal number in the decimal style with grouping; no other option is set.
impl Default for FluentNumberOptions {
    ghost is_default = { λ options. options_of options ≡ default_options };

    fn default() -> Self {
        FluentNumberOptions {
            number_type: FluentNumberType::default(),
            style: FluentNumberStyle::default(),
            currency: None,
            currency_display: FluentNumberCurrencyDisplayStyle::default(),
            use_grouping: true,
            minimum_integer_digits: None,
            minimum_fraction_digits: None,
            maximum_fraction_digits: None,
            minimum_significant_digits: None,
            maximum_significant_digits: None,
        }
    }
}

impl FluentNumberOptions {
    /// A copy. Only the text of `currency` is allocated.
    ///
    /// # Errors
    /// [`AllocError`] if memory runs out; nothing is kept.
    pub fn try_clone(&self, alloc: Global) -> Result<Self, AllocError>
        ensures same { IfOk result (λ copy. options_of copy ≡ options_of self.now) }
        ensures succeeds { IsNone self.now.currency → IsOk result }
    {
        Ok(FluentNumberOptions {
            number_type: self.number_type,
            style: self.style,
            currency: copied(alloc, self.currency.as_deref())?,
            currency_display: self.currency_display,
            use_grouping: self.use_grouping,
            minimum_integer_digits: self.minimum_integer_digits,
            minimum_fraction_digits: self.minimum_fraction_digits,
            maximum_fraction_digits: self.maximum_fraction_digits,
            minimum_significant_digits: self.minimum_significant_digits,
            maximum_significant_digits: self.maximum_significant_digits,
        })
    }

    /// Sets each option that the source has under its key: `type`, `style`, `currency`,
    /// `currencyDisplay` and `useGrouping` by a text, `minimumIntegerDigits`,
    /// `minimumFractionDigits`, `maximumFractionDigits`, `minimumSignificantDigits` and
    /// `maximumSignificantDigits` by a number, of which the whole part counts.
    ///
    /// A key with no value or one of another kind changes nothing. Only the text of `currency` is
    /// allocated.
    ///
    /// # Errors
    /// [`AllocError`] if memory runs out; the options are unchanged.
    pub fn merge<S: OptionSource>(&mut self, alloc: Global, source: &S) -> Result<(), AllocError>
        ensures ok { OnOk result (Merges (S.text_under source.now) (S.number_under source.now)
            self.old self.new) }
        ensures err { OnErr result (options_of self.new ≡ options_of self.old) }
        ensures succeeds { IsNone (S.text_under source.now (codes "currency")) → IsOk result }
    {
        // The one growth comes first, so that a refusal leaves the options as they were.
        if let Some(currency) = copied(alloc, source.text("currency"))? {
            self.currency = Some(currency);
        }
        self.merge_texts(source);
        self.merge_counts(source);
        Ok(())
    }

    /// Sets the options that a text sets without an allocation.
    fn merge_texts<S: OptionSource>(&mut self, source: &S)
        ensures { options_of self.new ≡ with_texts (S.text_under source.now) (options_of self.old) }
    {
        self.number_type = number_type_or(source, self.number_type);
        self.style = style_or(source, self.style);
        self.currency_display = currency_display_or(source, self.currency_display);
        self.use_grouping = use_grouping_or(source, self.use_grouping);
    }

    /// Sets the counts of digits.
    fn merge_counts<S: OptionSource>(&mut self, source: &S)
        ensures { options_of self.new ≡ with_counts (S.number_under source.now)
            (options_of self.old) }
    {
        merge_count(
            source,
            "minimumIntegerDigits",
            &mut self.minimum_integer_digits,
        );
        merge_count(
            source,
            "minimumFractionDigits",
            &mut self.minimum_fraction_digits,
        );
        merge_count(
            source,
            "maximumFractionDigits",
            &mut self.maximum_fraction_digits,
        );
        merge_count(
            source,
            "minimumSignificantDigits",
            &mut self.minimum_significant_digits,
        );
        merge_count(
            source,
            "maximumSignificantDigits",
            &mut self.maximum_significant_digits,
        );
    }
}

/// The type that the source names, or the one before.
fn number_type_or<S: OptionSource>(source: &S, before: FluentNumberType) -> FluentNumberType
    ensures { result ≡ updated number_type_named (S.text_under source.now (codes "type")) before }
{
    source.text("type").map_or(before, FluentNumberType::from)
}

/// The style that the source names, or the one before.
fn style_or<S: OptionSource>(source: &S, before: FluentNumberStyle) -> FluentNumberStyle
    ensures { result ≡ updated style_named (S.text_under source.now (codes "style")) before }
{
    source.text("style").map_or(before, FluentNumberStyle::from)
}

/// The currency display that the source names, or the one before.
fn currency_display_or<S: OptionSource>(
    source: &S,
    before: FluentNumberCurrencyDisplayStyle,
) -> FluentNumberCurrencyDisplayStyle
    ensures { result ≡ updated currency_display_named
        (S.text_under source.now (codes "currencyDisplay")) before }
{
    source
        .text("currencyDisplay")
        .map_or(before, FluentNumberCurrencyDisplayStyle::from)
}

/// Whether the source asks for grouping, or what was asked before.
fn use_grouping_or<S: OptionSource>(source: &S, before: bool) -> bool
    ensures { result ≡ updated asks_for_grouping (S.text_under source.now (codes "useGrouping"))
        before }
{
    source
        .text("useGrouping")
        .map_or(before, |text| text != "false")
}

/// Sets a count of digits to the whole part of the number under a key, if there is one.
fn merge_count<S: OptionSource>(source: &S, key: &str, count: &mut Option<usize>)
    ensures { count.new ≡ updated count_of (S.number_under source.now key.now) count.old }
{
    if let Some(number) = source.number(key) {
        *count = Some(usize::from(number));
    }
}

/// A copy of a text, if there is one.
fn copied(alloc: Global, text: Option<&str>) -> Result<Option<String>, AllocError>
    ensures same { IfOk result (λ copy. option_map string_bytes copy ≡ option_copied text.entry) }
    ensures succeeds { IsNone text.entry → IsOk result }
{
    match text {
        Some(text) => Ok(Some(String::from_str(alloc, text)?)),
        None => Ok(None),
    }
}
