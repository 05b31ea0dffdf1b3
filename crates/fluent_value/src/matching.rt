//! Which values match.

ghost use Rattle.std.specs.Prelude.{◌≡◌};
ghost use Rattle.fluent_number.specs.Number.{number_of};
ghost use Rattle.fluent_value.specs.Matching.{matches, category_of as of_number, category_text as key_of};
ghost use Rattle.fluent_value.specs.View.{value_view};

use crate::custom::FluentType;
use crate::scope::ValueScope;
use crate::value::FluentValue;
use fluent_number::{
    FluentNumber, FluentNumberType, PluralCategory, PluralOperands, PluralRuleType,
};

impl<'a, C: FluentType> FluentValue<'a, C> {
    /// Whether a variant with this key is chosen by a selector of that value.
    ///
    /// So it is for two texts that are the same, and for two numbers of the same value and options.
    /// A key that is a text also matches a number: if it is `zero`, `one`, `two`, `few`, `many` or
    /// `other`, the category that the scope gives for the number. No other two values match. It
    /// doesn't allocate.
    pub fn matches<S: ValueScope<C>>(&self, other: &FluentValue<'_, C>, scope: &S) -> bool
        ensures { result ≡ matches (S.plurals scope.now) (value_view C.meaning self.now)
            (value_view C.meaning other.now) }
    {
        match (self, other) {
            (FluentValue::String(key), FluentValue::String(text)) => key.as_str() == text.as_str(),
            (FluentValue::String(key), FluentValue::Number(number)) => {
                key.as_str() == category_text(category_of(number, scope))
            }
            (FluentValue::Number(key), FluentValue::Number(number)) => key == number,
            _ => false,
        }
    }
}

/// The category that a scope gives for a number, by the rules that the number's type asks for.
fn category_of<C: FluentType, S: ValueScope<C>>(number: &FluentNumber, scope: &S) -> PluralCategory
    ensures { result ≡ of_number (S.plurals scope.now) (number_of number.now) }
{
    let rule = match number.options.number_type {
        FluentNumberType::Cardinal => PluralRuleType::CARDINAL,
        FluentNumberType::Ordinal => PluralRuleType::ORDINAL,
    };
    scope.category(rule, &PluralOperands::from(number))
}

/// The key that names a category.
fn category_text(category: PluralCategory) -> &'static str
    ensures { result.now ≡ key_of category }
{
    match category {
        PluralCategory::ZERO => "zero",
        PluralCategory::ONE => "one",
        PluralCategory::TWO => "two",
        PluralCategory::FEW => "few",
        PluralCategory::MANY => "many",
        PluralCategory::OTHER => "other",
    }
}
