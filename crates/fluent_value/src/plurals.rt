//! Plural sources.

ghost use Rattle.std.specs.Prelude.{◌≡◌, ℕ, List, IfOk};
ghost use Rattle.std.specs.Cow.{cow_str_bytes};
ghost use Rattle.fluent_number.specs.Plurals.{english};
ghost use Rattle.fluent_value.specs.Matching.{Plurals};

use crate::custom::FluentType;
use fluent_number::{PluralCategory, PluralOperands, PluralRuleType, english_category};
use std::alloc::{AllocError, Global};
use std::borrow::CowStr;

/// A plural source: the plural rules of a language, and how values of a program's own type are
/// shown in it.
///
/// The name is that of the Rust crate, whose memoizers keep the formatters that they made. Nothing
/// is cached here.
///
/// ```
/// polish.category(PluralRuleType::CARDINAL, &PluralOperands::from(count))
/// ```
pub trait MemoizerKind {
    /// The category of a number by these rules, from its operands.
    ghost category_of: { Self → Plurals };

    /// The text of a value of a program's own type, from the text that its type gives for a
    /// meaning.
    ghost stringified: { Self → (S : Type 0) → (S → List ℕ) → S → List ℕ };

    /// The category of a number with these operands by these rules.
    fn category(&self, rule: PluralRuleType, operands: &PluralOperands) -> PluralCategory
        ensures { result ≡ category_of self.now rule operands.now };

    /// The text of a value of a program's own type.
    ///
    /// # Errors
    /// [`AllocError`] if memory runs out; nothing is kept.
    fn stringify_value<C: FluentType>(
        &self,
        alloc: Global,
        custom: &C,
    ) -> Result<CowStr<'static>, AllocError>
        ensures { IfOk result (λ text. cow_str_bytes text
            ≡ stringified self.now C.Meaning C.text (C.meaning custom.now)) };
}

/// The plural rules of English. Values of a program's own type are shown by their own text.
///
/// Of counts, 1 shown without digits after the point is `one` and all else `other`. Of places, a
/// whole number is `one`, `two` or `few` if its last digit is 1, 2 or 3 and its last two aren't 11,
/// 12 or 13, and all else is `other`.
///
/// ```
/// let mut bundle = Bundle::new(alloc, Vec::new(alloc), EnglishPlurals);
/// ```
#[derive(Clone, Copy, Debug, PartialEq, Eq)]
pub struct EnglishPlurals;

impl MemoizerKind for EnglishPlurals {
    ghost category_of = { λ _. english };

    ghost stringified = { λ _ S text. text };

    fn category(&self, rule: PluralRuleType, operands: &PluralOperands) -> PluralCategory {
        english_category(rule, operands)
    }

    fn stringify_value<C: FluentType>(
        &self,
        alloc: Global,
        custom: &C,
    ) -> Result<CowStr<'static>, AllocError> {
        custom.as_string(alloc)
    }
}
