//! A bundle as what values are compared and shown by.

ghost use Rattle.std.specs.Prelude.{is_some};
ghost use Rattle.fluent_bundle.specs.BundleView.{bundle_of};
ghost use Rattle.fluent_ids.specs.Settings.{formatted_by};

use super::FluentBundle;
use fluent_number::{PluralCategory, PluralOperands, PluralRuleType};
use fluent_value::{
    FluentFunction, FluentType, FluentValue, MemoizerKind, ValueFormatter, ValueScope,
};
use std::alloc::{AllocError, Global};
use std::borrow::CowStr;

impl<'r, 's: 'r, M, C, F, G, T> ValueScope<C> for FluentBundle<'r, 's, M, C, F, G, T>
where
    M: MemoizerKind,
    C: FluentType,
    F: FluentFunction<C>,
    G: ValueFormatter<C, M>,
{
    ghost has_formatter = { λ bundle. is_some (bundle_of bundle).formatter };

    ghost formatted = { λ bundle. formatted_by G.formats (bundle_of bundle).plurals
        (bundle_of bundle).formatter };

    ghost plurals = { λ bundle. M.category_of (bundle_of bundle).plurals };

    ghost shown = { λ bundle. M.stringified (bundle_of bundle).plurals C.Meaning C.text };

    fn format(&self, value: &FluentValue<'_, C>) -> Result<Option<String>, AllocError> {
        match &self.formatter {
            Some(formatter) => formatter.format(self.alloc, value, &self.plurals),
            None => Ok(None),
        }
    }

    fn format_into(
        &self,
        out: &mut String,
        value: &FluentValue<'_, C>,
    ) -> Result<bool, AllocError> {
        match &self.formatter {
            Some(formatter) => formatter.format_into(out, self.alloc, value, &self.plurals),
            None => Ok(false),
        }
    }

    fn is_plain(&self, value: &FluentValue<'_, C>) -> bool {
        match &self.formatter {
            Some(formatter) => formatter.is_plain(value),
            None => true,
        }
    }

    fn keeps_texts(&self) -> bool {
        match &self.formatter {
            Some(formatter) => formatter.keeps_texts(),
            None => true,
        }
    }

    fn plain_below(&self) -> u64 {
        match &self.formatter {
            Some(formatter) => formatter.plain_below(),
            None => u64::MAX,
        }
    }

    fn category(&self, rule: PluralRuleType, operands: &PluralOperands) -> PluralCategory {
        self.plurals.category(rule, operands)
    }

    fn stringify(&self, custom: &C) -> Result<CowStr<'static>, AllocError> {
        self.plurals.stringify_value(self.alloc, custom)
    }

    fn alloc(&self) -> Global {
        self.alloc
    }
}
