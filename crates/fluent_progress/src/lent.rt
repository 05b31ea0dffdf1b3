//! What is lent while a pattern is resolved, as what it is resolved in.

ghost use Rattle.std.proofs.Common.{refl};
ghost use Rattle.std.specs.Prelude.{[], is_some};
ghost use Rattle.fluent_ids.specs.Settings.{formatted_by};
ghost use Rattle.fluent_progress.specs.LentView.{lent_view};

use crate::context::Context;
use fluent_ids::FunctionRef;
use fluent_number::{PluralCategory, PluralOperands, PluralRuleType};
use fluent_text::stack::StackBudget;
use fluent_value::{
    FluentArgs, FluentFunction, FluentType, FluentValue, MemoizerKind, TextTransform,
    ValueFormatter, ValueScope, builtins,
};
use std::alloc::{AllocError, Global};
use std::borrow::CowStr;

/// What patterns are resolved in but for their messages and terms, lent by whoever has it: a
/// bundle, say. `M` is the plural source, `G` the type of the formatter and `T` that of the
/// transform.
#[derive(Drop)]
pub struct BorrowedSettings<'b, M, G, T> {
    /// The plural source.
    pub plurals: &'b M,
    /// Whether placeables stand between isolation marks.
    pub isolating: bool,
    /// What the texts of patterns go through, where there is anything.
    pub transform: Option<&'b T>,
    /// What values are shown by, before the rules of Fluent.
    pub formatter: Option<&'b G>,
    /// What texts are made with.
    pub alloc: Global,
}

impl<'b, M, C, G, T> ValueScope<C> for BorrowedSettings<'b, M, G, T>
where
    M: MemoizerKind,
    C: FluentType,
    G: ValueFormatter<C, M>,
{
    ghost has_formatter = { λ lent. is_some lent.formatter };

    ghost formatted = { λ lent. formatted_by (λ g. G.formats g.now) lent.plurals.now
        lent.formatter };

    ghost plurals = { λ lent. M.category_of lent.plurals.now };

    ghost shown = { λ lent. M.stringified lent.plurals.now C.Meaning C.text };

    fn format(&self, value: &FluentValue<'_, C>) -> Result<Option<String>, AllocError> {
        match self.formatter {
            Some(formatter) => formatter.format(self.alloc, value, self.plurals),
            None => Ok(None),
        }
    }

    fn format_into(
        &self,
        out: &mut String,
        value: &FluentValue<'_, C>,
    ) -> Result<bool, AllocError> {
        match self.formatter {
            Some(formatter) => formatter.format_into(out, self.alloc, value, self.plurals),
            None => Ok(false),
        }
    }

    fn is_plain(&self, value: &FluentValue<'_, C>) -> bool {
        match self.formatter {
            Some(formatter) => formatter.is_plain(value),
            None => true,
        }
    }

    fn keeps_texts(&self) -> bool {
        match self.formatter {
            Some(formatter) => formatter.keeps_texts(),
            None => true,
        }
    }

    fn plain_below(&self) -> u64 {
        match self.formatter {
            Some(formatter) => formatter.plain_below(),
            None => u64::MAX,
        }
    }

    fn category(&self, rule: PluralRuleType, operands: &PluralOperands) -> PluralCategory {
        self.plurals.category(rule, operands)
    }

    fn stringify(&self, custom: &C) -> Result<CowStr<'static>, AllocError> {
        self.plurals.stringify_value(self.alloc, custom)
    }

    fn alloc(&self) -> Global {
        self.alloc
    }
}

impl<'b, M, C, F, G, T> Context<C, F> for BorrowedSettings<'b, M, G, T>
where
    M: MemoizerKind,
    C: FluentType + Drop,
    F: FluentFunction<C>,
    G: ValueFormatter<C, M>,
    T: TextTransform,
{
    ghost environment = { lent_view C.text F.gives G.formats M.category_of M.stringified
        T.transformed };

    ghost has_transform = { λ lent. is_some lent.transform };

    ghost given = { λ _. [] };

    fn call<'a, 'n>(
        &self,
        function: &FunctionRef<'_, F>,
        positional: &[FluentValue<'a, C>],
        named: &FluentArgs<'n, C>,
    ) -> Result<FluentValue<'a, C>, AllocError> {
        match function {
            FunctionRef::Own(function) => function.call(self.alloc, positional, named),
            FunctionRef::Number => builtins::NUMBER(self.alloc, positional, named),
        }
    }

    fn transform<'t>(&self, text: &'t str) -> Result<CowStr<'t>, AllocError> {
        match self.transform {
            Some(transform) => transform.transform(self.alloc, text),
            None => Ok(CowStr::Borrowed(text)),
        }
    }

    fn is_isolating(&self) -> bool {
        self.isolating
    }

    fn stack_budget(&self) -> StackBudget {
        StackBudget::PROGRAM
    }

    fn write_given(&self, _out: &mut String, _name: &str) -> Result<bool, AllocError> {
        Ok(false)
    }

    fn given_copy<'v>(&self, _name: &str) -> Result<Option<FluentValue<'v, C>>, AllocError> {
        Ok(None)
    }

    ghost shows = { λ _ _. refl };

    ghost chooses = { λ _. refl };
}
