//! Calls of `fluent_number`.

ghost use Rattle.std.specs.Prelude.{◌≡◌, ◌==◌, if◌then◌else◌, codes, IfOk, IfSome, string_bytes};
ghost use Rattle.fluent_number.specs.Laws.{tidied};
ghost use Rattle.fluent_number.specs.declared.plural.PluralCategory.TheVariants.{ONE, OTHER};

use fluent_number::laws::writes_what_was_read;
use fluent_number::{
    FluentNumber, NotANumber, PluralCategory, PluralOperands, PluralRuleType, english_category,
};
use std::alloc::{AllocError, Global};
use std::str::FromStr;

/// What is shown for a number that a user wrote, if it is one: the same digits, without a plus and
/// without zeros at the front.
///
/// # Errors
/// [`AllocError`] if memory runs out; nothing is kept.
pub fn shown_again(alloc: Global, input: &str) -> Result<Option<String>, AllocError>
    ensures { IfOk result (λ shown. IfSome shown (λ text. string_bytes text ≡ tidied input.now)) }
{
    writes_what_was_read();
    match FluentNumber::from_str(input) {
        Ok(number) => Ok(Some(number.as_string(alloc)?)),
        Err(NotANumber) => Ok(None),
    }
}

/// The text of a price, which keeps its cents.
///
/// # Errors
/// [`AllocError`] if memory runs out; nothing is kept.
pub fn price(alloc: Global) -> Result<String, AllocError>
    ensures { IfOk result (λ text. string_bytes text ≡ codes "7.50") }
{
    match FluentNumber::from_str("7.50") {
        Ok(number) => number.as_string(alloc),
        Err(NotANumber) => unreachable!(),
    }
}

/// The category of a count in English, as in "1 day" and "2 days".
pub fn count_category(count: u64) -> PluralCategory
    ensures { result ≡ (if count == 1 then ONE else OTHER) }
{
    let number = FluentNumber::from(count);
    english_category(PluralRuleType::CARDINAL, &PluralOperands::from(&number))
}
