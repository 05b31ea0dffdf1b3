//! A scope as what values are compared and shown by: as its bundle.

ghost use Rattle.std.specs.Prelude.{is_some};
ghost use Rattle.fluent_bundle.specs.BundleView.{bundle_of};
ghost use Rattle.fluent_ids.specs.Settings.{formatted_by};

use super::Scope;
use fluent_number::{PluralCategory, PluralOperands, PluralRuleType};
use fluent_value::{
    FluentFunction, FluentType, FluentValue, MemoizerKind, ValueFormatter, ValueScope,
};
use std::alloc::{AllocError, Global};
use std::borrow::CowStr;

impl<'b, 'r, 's, 'a, M, C, F, G, T> ValueScope<C> for Scope<'b, 'r, 's, 'a, M, C, F, G, T>
where
    M: MemoizerKind,
    C: FluentType,
    F: FluentFunction<C>,
    G: ValueFormatter<C, M>,
{
    ghost has_formatter = { λ scope. is_some (bundle_of scope.bundle.now).formatter };

    ghost formatted = { λ scope. formatted_by G.formats (bundle_of scope.bundle.now).plurals
        (bundle_of scope.bundle.now).formatter };

    ghost plurals = { λ scope. M.category_of (bundle_of scope.bundle.now).plurals };

    ghost shown = { λ scope. M.stringified (bundle_of scope.bundle.now).plurals C.Meaning C.text };

    fn format(&self, value: &FluentValue<'_, C>) -> Result<Option<String>, AllocError> {
        self.bundle.format(value)
    }

    fn format_into(
        &self,
        out: &mut String,
        value: &FluentValue<'_, C>,
    ) -> Result<bool, AllocError> {
        self.bundle.format_into(out, value)
    }

    fn is_plain(&self, value: &FluentValue<'_, C>) -> bool {
        self.bundle.is_plain(value)
    }

    fn keeps_texts(&self) -> bool {
        self.bundle.keeps_texts()
    }

    fn plain_below(&self) -> u64 {
        self.bundle.plain_below()
    }

    fn category(&self, rule: PluralRuleType, operands: &PluralOperands) -> PluralCategory {
        self.bundle.plurals.category(rule, operands)
    }

    fn stringify(&self, custom: &C) -> Result<CowStr<'static>, AllocError> {
        self.bundle.stringify(custom)
    }

    fn alloc(&self) -> Global {
        self.bundle.alloc
    }
}
