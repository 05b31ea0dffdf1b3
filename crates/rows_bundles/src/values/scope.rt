//! What values are compared and shown by in these rows.

ghost use Rattle.std.specs.Prelude.{false, None};
ghost use Rattle.fluent_number.specs.Plurals.{english};

use fluent_number::{PluralCategory, PluralOperands, PluralRuleType};
use fluent_value::{EnglishPlurals, FluentType, FluentValue, MemoizerKind, ValueScope};
use std::alloc::{AllocError, Global};
use std::borrow::CowStr;

/// English without a formatter.
#[derive(Drop)]
pub struct Plain(pub Global);

impl<C: FluentType> ValueScope<C> for Plain {
    ghost has_formatter = { λ _. false };

    ghost formatted = { λ _ _. None };

    ghost plurals = { λ _. english };

    ghost shown = { λ _. C.text };

    fn format(&self, value: &FluentValue<'_, C>) -> Result<Option<String>, AllocError> {
        let _value = value;
        Ok(None)
    }

    fn category(&self, rule: PluralRuleType, operands: &PluralOperands) -> PluralCategory {
        EnglishPlurals.category(rule, operands)
    }

    fn stringify(&self, custom: &C) -> Result<CowStr<'static>, AllocError> {
        EnglishPlurals.stringify_value(self.0, custom)
    }

    fn alloc(&self) -> Global {
        self.0
    }
}
