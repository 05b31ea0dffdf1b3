//! The formatter.
ghost use Rattle.std.specs.Prelude.{◌≡◌, ◌<◌, ◌≤◌, ◌^◌, option_map, unsigned_abs, IfSome, IsTrue};
ghost use Rattle.fluent_number.specs.Number.{number_of};
ghost use Rattle.fluent_number.specs.Options.{options_of};
ghost use Rattle.fluent_numerals.specs.Views.{form_view, forms_view, found_currency, layout_view, locale_view};
ghost use Rattle.fluent_numerals.specs.Text.{digits_of, form_in, layout, money_layout, number_layout, numeral_text, symbol_in, value_text};
ghost use Rattle.fluent_numerals.specs.Lookup.{locale_for};
ghost use Rattle.fluent_numerals.specs.Written.{Adds, IsText, text_as};
ghost use Rattle.fluent_numerals.specs.Plain.{EndsInThreeDigits, IsBare, WritesPlainlyBelow};
ghost use Rattle.fluent_numerals.specs.PatternNames.{pattern_named};
ghost use Rattle.fluent_value.specs.Shown.{IsPlain};
ghost use Rattle.fluent_value.specs.View.{value_view};

use crate::currencies::currency_named;
use crate::currency::Currency;
use crate::digits::LATN;
use crate::forms::{Form, Forms, forms_named};
use crate::locales::locale_entry;
use crate::patterns::PatternName;
use crate::rounding::{Parts, least_integer_digits, shown_parts};
use crate::tagged::first_fitting;
use crate::writing::{push_affix, push_fraction, push_whole};
use fluent_number::{
    FluentNumber, FluentNumberCurrencyDisplayStyle, FluentNumberOptions, FluentNumberStyle,
};
use fluent_value::{FluentType, FluentValue, ValueFormatter};
use std::alloc::{AllocError, Global};

/// How a locale writes numbers.
///
/// As a formatter it shows numbers, and leaves all other values to the rules of Fluent.
#[derive(Clone, Copy)]
pub struct LocaleNumerals {
    tag: &'static str,
    forms: &'static Forms,
}

/// How a number of one style is written.
#[derive(Clone, Copy)]
struct Layout<'a> {
    form: &'a Form,
    /// The currency as it is shown.
    symbol: &'a str,
    /// Ten to this power of units are shown as one.
    places: usize,
    /// The digits after the point that are usual.
    least: usize,
    most: usize,
}

impl LocaleNumerals {
    /// How the locale of a tag writes numbers, or `None` if CLDR doesn't know its language.
    ///
    /// Of the tags of the table, the longest one that the text begins with counts, part by part and
    /// in letters of either case.
    pub fn for_tag(tag: &str) -> Option<Self>
        ensures { option_map locale_view result ≡ locale_for tag.now }
    {
        Self::for_tag_bytes(tag.as_bytes())
    }

    /// The same for the bytes of a tag, which may be no UTF-8 after the part that counts.
    pub fn for_tag_bytes(tag: &[u8]) -> Option<Self>
        ensures { option_map locale_view result ≡ locale_for tag.now }
    {
        match locale_entry(tag) {
            Some(entry) => match forms_named(entry.1) {
                Some(forms) => Some(LocaleNumerals {
                    tag: entry.0,
                    forms,
                }),
                None => None,
            },
            None => None,
        }
    }

    /// The text of a number.
    ///
    /// # Errors
    /// [`AllocError`] if memory runs out; nothing is left behind.
    pub fn text_of(&self, alloc: Global, number: &FluentNumber) -> Result<String, AllocError>
        ensures { IsText result (numeral_text (locale_view self.now) (number_of number.now)) }
    {
        let mut text = String::new(alloc);
        self.push_text(&mut text, alloc, number)?;
        Ok(text)
    }

    /// Appends the text of a number.
    ///
    /// # Errors
    /// [`AllocError`] if memory runs out; `text` may hold a part of it.
    pub fn push_text(
        &self,
        text: &mut String,
        alloc: Global,
        number: &FluentNumber,
    ) -> Result<(), AllocError>
        ensures { Adds result text.old text.new (numeral_text (locale_view self.now) (number_of number.now)) }
    {
        let layout = self.layout(&number.options);
        let parts = shown_parts(
            number.value,
            layout.places,
            layout.least,
            layout.most,
            &number.options,
        );
        self.push_parts(text, alloc, &layout, parts, number)
    }

    /// Appends what is shown of a number.
    fn push_parts(
        &self,
        text: &mut String,
        alloc: Global,
        layout: &Layout<'_>,
        parts: Parts,
        number: &FluentNumber,
    ) -> Result<(), AllocError>
        requires few { layout.now.places ≤ 18 }
        requires below { parts.fraction < 10 ^ layout.now.places }
        ensures { Adds result text.old text.new
            (text_as (locale_view self.now) (layout_view layout.now) (number_of number.now) parts) }
    {
        let form = layout.form;
        let pattern = form.pattern.pattern();
        let below_zero = number.value.is_negative();
        push_affix(text, pattern.prefix(below_zero), self.forms, layout.symbol)?;
        push_whole(
            text,
            alloc,
            parts.whole,
            least_integer_digits(&number.options),
            number.options.use_grouping,
            self.forms,
            form,
        )?;
        push_fraction(
            text,
            parts.fraction,
            layout.places,
            parts.least,
            self.forms,
            form,
        )?;
        push_affix(text, pattern.suffix(below_zero), self.forms, layout.symbol)
    }

    /// Whether the text of a value is that of the rules of Fluent: it is no number, or one that is
    /// written by its ASCII digits alone.
    #[inline]
    pub fn shows_plainly<C: FluentType>(&self, value: &FluentValue<'_, C>) -> bool
        ensures { IsTrue result → IsPlain (value_text (locale_view self.now)) (value_view C.meaning value.now) }
    {
        match value {
            FluentValue::Number(number) => match bare_whole(number) {
                Some(whole) => whole < self.plain_below(),
                None => false,
            },
            _ => true,
        }
    }

    /// A bound below which a whole number is written by its ASCII digits alone, if no option asks
    /// for anything else. It is 0 where the digits aren't ASCII's or something stands around them,
    /// and else at most the least number that has groups.
    #[inline]
    pub fn plain_below(&self) -> u64
        ensures { WritesPlainlyBelow (locale_view self.now) result }
    {
        if self.forms.digits != LATN || !ends_in_three_digits(self.forms.number.pattern) {
            return 0;
        }
        match self.forms.least_grouped {
            1 => 1_000,
            2 => 10_000,
            _ => 0,
        }
    }

    /// How a number with these options is written.
    fn layout<'a>(&'a self, options: &'a FluentNumberOptions) -> Layout<'a>
        ensures value { layout_view result ≡ layout (locale_view self.now) (options_of options.now) }
        ensures few { result.places ≤ 18 }
    {
        match options.style {
            FluentNumberStyle::Decimal => self.number_layout(),
            FluentNumberStyle::Percent => Layout {
                form: &self.forms.percent,
                symbol: "",
                places: 16,
                least: 0,
                most: 0,
            },
            FluentNumberStyle::Currency => match &options.currency {
                Some(code) => self.money_layout(code.as_str(), options.currency_display),
                None => self.number_layout(),
            },
        }
    }

    /// How a number is written that is no percentage and no amount.
    fn number_layout(&self) -> Layout<'_>
        ensures value { layout_view result ≡ number_layout (forms_view self.now.forms.now) }
        ensures few { result.places ≤ 18 }
    {
        Layout {
            form: &self.forms.number,
            symbol: "",
            places: 18,
            least: 0,
            most: 3,
        }
    }

    /// How an amount of a currency is written.
    fn money_layout<'a>(
        &'a self,
        code: &'a str,
        display: FluentNumberCurrencyDisplayStyle,
    ) -> Layout<'a>
        ensures value { layout_view result ≡ money_layout (locale_view self.now) code.now display }
        ensures few { result.places ≤ 18 }
    {
        let currency = currency_named(code);
        let digits = digits_of(currency);
        Layout {
            form: self.money_form(currency),
            symbol: self.symbol(code, display, currency),
            places: 18,
            least: digits,
            most: digits,
        }
    }

    /// The form that amounts of a currency are written by.
    fn money_form(&self, currency: Option<&'static Currency>) -> &Form
        ensures { form_view result.now ≡ form_in (locale_view self.now) (found_currency currency.entry) }
    {
        if let Some(currency) = currency {
            if let Some(own) = first_fitting(currency.own, self.tag.as_bytes()) {
                if let Some(forms) = forms_named(own.1) {
                    return &forms.currency;
                }
            }
        }
        &self.forms.currency
    }

    /// A currency as it is shown.
    fn symbol<'a>(
        &self,
        code: &'a str,
        display: FluentNumberCurrencyDisplayStyle,
        currency: Option<&'static Currency>,
    ) -> &'a str
        ensures { result.now ≡ symbol_in self.now.tag.now code.now display (found_currency currency.entry) }
    {
        match (display, currency) {
            (_, None) => code,
            (FluentNumberCurrencyDisplayStyle::Symbol, Some(currency)) => {
                match first_fitting(currency.symbols, self.tag.as_bytes()) {
                    Some(entry) => entry.1,
                    None => currency.symbol,
                }
            }
            (_, Some(currency)) => currency.code,
        }
    }
}

/// Whether a pattern has three digits in its last group, and nothing around the digits of numbers
/// that aren't below zero.
#[inline]
fn ends_in_three_digits(pattern: PatternName) -> bool
    ensures { IsTrue result → EndsInThreeDigits (pattern_named pattern) }
{
    matches!(pattern, PatternName::Number | PatternName::IndianNumber)
}

/// The whole number that a number is, if it isn't below zero and no option asks for anything but
/// its digits.
#[inline]
fn bare_whole(number: &FluentNumber) -> Option<u64>
    ensures { IfSome result (λ whole. IsBare (number_of number.now) whole) }
{
    let options = &number.options;
    let FluentNumberStyle::Decimal = options.style else {
        return None;
    };
    let is_bare = number.value.fraction() == 0
        && !number.value.is_negative()
        && options.minimum_integer_digits.is_none()
        && options.minimum_fraction_digits.is_none()
        && options.minimum_significant_digits.is_none()
        && options.maximum_significant_digits.is_none();
    if is_bare {
        Some(number.value.whole())
    } else {
        None
    }
}

/// How many digits after the point amounts of a currency have.
fn digits_of(currency: Option<&'static Currency>) -> usize
    ensures { result ≡ digits_of (found_currency currency.entry) }
{
    match currency {
        Some(currency) => usize::from(currency.digits),
        None => 2,
    }
}

impl<C: FluentType, M> ValueFormatter<C, M> for LocaleNumerals {
    ghost formats = { λ numerals _ value. value_text (locale_view numerals) value };

    fn format(
        &self,
        alloc: Global,
        value: &FluentValue<'_, C>,
        _plurals: &M,
    ) -> Result<Option<String>, AllocError> {
        match value {
            FluentValue::Number(number) => Ok(Some(self.text_of(alloc, number)?)),
            _ => Ok(None),
        }
    }

    fn format_into(
        &self,
        out: &mut String,
        alloc: Global,
        value: &FluentValue<'_, C>,
        _plurals: &M,
    ) -> Result<bool, AllocError> {
        match value {
            FluentValue::Number(number) => {
                self.push_text(out, alloc, number)?;
                Ok(true)
            }
            _ => Ok(false),
        }
    }

    fn is_plain(&self, value: &FluentValue<'_, C>) -> bool {
        self.shows_plainly(value)
    }

    fn keeps_texts(&self) -> bool {
        true
    }

    fn plain_below(&self) -> u64 {
        LocaleNumerals::plain_below(self)
    }
}
