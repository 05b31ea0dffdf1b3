//! Calls of `fluent_plurals`.

ghost use Rattle.std.specs.Prelude.{◌≡◌};
ghost use Rattle.fluent_number.specs.Number.{number_of};
ghost use Rattle.fluent_number.specs.Operands.{operands_of};
ghost use Rattle.fluent_number.specs.declared.plural.PluralCategory.TheVariants.{MANY};
ghost use Rattle.fluent_plurals.specs.Cardinal.{pl};
ghost use Rattle.fluent_plurals.specs.Conditions.{category_by};

use fluent_number::{FluentNumber, PluralCategory, PluralOperands, PluralRuleType};
use fluent_plurals::LanguagePlurals;
use fluent_value::MemoizerKind;

/// The category of a count by the rules of Polish.
pub fn polish_category(count: &FluentNumber) -> PluralCategory
    ensures { result ≡ category_by pl (operands_of (number_of count.now)) }
{
    let Some(polish) = LanguagePlurals::for_tag("pl") else {
        unreachable!()
    };
    polish.category(PluralRuleType::CARDINAL, &PluralOperands::from(count))
}

/// The category of five in Polish, as in "5 plików".
pub fn five_files() -> PluralCategory
    ensures { result ≡ MANY }
{
    polish_category(&FluentNumber::from(5_u8))
}
