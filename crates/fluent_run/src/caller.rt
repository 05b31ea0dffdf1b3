//! Callers of the functions of messages, and the context in which patterns are resolved with them.

ghost use Rattle.std.specs.Prelude.{[], false, IfOk, is_some, List};
ghost use Rattle.std.proofs.Common.{refl};
ghost use Rattle.fluent_grammar.specs.Words.{Text};
ghost use Rattle.fluent_value.specs.CallResult.{IsCallResult};
ghost use Rattle.fluent_value.specs.Value.{Value, error};
ghost use Rattle.fluent_run.specs.DeskView.{asking_view, numerals_text};
ghost use Rattle.fluent_run.specs.RunView.{no_text};

use crate::desk::Desk;
use fluent_ids::FunctionRef;
use fluent_number::{PluralCategory, PluralOperands, PluralRuleType};
use fluent_numerals::LocaleNumerals;
use fluent_progress::Context;
use fluent_text::stack::StackBudget;
use fluent_value::{
    FluentArgs, FluentType, FluentValue, MemoizerKind, NoCustom, NoFunction, ValueFormatter,
    ValueScope, builtins,
};
use std::alloc::{AllocError, Global};
use std::borrow::CowStr;

/// A caller of the functions of messages, each of which is an `F` among the ids of a desk. Custom
/// values are of the type `C`.
pub trait Caller<C: FluentType, F> {
    /// The value that a function returns for positional values and named arguments.
    ghost gives: { Self → F → List (Value C.Meaning) → List (Text × Value C.Meaning)
        → Value C.Meaning };

    /// The value that a function returns for these arguments.
    ///
    /// # Errors
    /// [`AllocError`] if memory runs out, or to end resolving; nothing is kept.
    fn call<'a, 'n>(
        &self,
        alloc: Global,
        function: &F,
        positional: &[FluentValue<'a, C>],
        named: &FluentArgs<'n, C>,
    ) -> Result<FluentValue<'a, C>, AllocError>
        ensures { IfOk result (IsCallResult C.meaning (gives self.now function.now) positional.now named.now) };
}

/// A caller for messages without functions but `NUMBER`.
pub(crate) struct NoCaller;

impl Caller<NoCustom, NoFunction> for NoCaller {
    ghost gives = { λ _ _ _ _. error };

    fn call<'a, 'n>(
        &self,
        _alloc: Global,
        _function: &NoFunction,
        _positional: &[FluentValue<'a, NoCustom>],
        _named: &FluentArgs<'n, NoCustom>,
    ) -> Result<FluentValue<'a, NoCustom>, AllocError> {
        Ok(FluentValue::Error)
    }
}

/// The context in which patterns of a desk are resolved, but for their messages and terms.
#[derive(Drop)]
pub struct Asking<'x, 'b, 'r, 's, M, F, L> {
    /// The desk.
    pub desk: &'x Desk<'b, 'r, 's, M, F>,
    /// The caller of functions.
    pub caller: &'x L,
    /// The allocator of texts.
    pub alloc: Global,
}

impl<'x, 'b, 'r, 's, M: MemoizerKind, F, L: Caller<NoCustom, F>> ValueScope<NoCustom>
    for Asking<'x, 'b, 'r, 's, M, F, L> {
    ghost has_formatter = { λ asking. is_some asking.desk.now.settings.numerals };

    ghost formatted = { λ asking. numerals_text asking.desk.now.settings };

    ghost plurals = { λ asking. M.category_of asking.desk.now.plurals.now };

    ghost shown = { λ asking. M.stringified asking.desk.now.plurals.now (Unit {0}) no_text };

    fn format(&self, value: &FluentValue<'_, NoCustom>) -> Result<Option<String>, AllocError> {
        match &self.desk.settings.numerals {
            Some(numerals) => numerals.format(self.alloc, value, self.desk.plurals),
            None => Ok(None),
        }
    }

    fn format_into(
        &self,
        out: &mut String,
        value: &FluentValue<'_, NoCustom>,
    ) -> Result<bool, AllocError> {
        match &self.desk.settings.numerals {
            Some(numerals) => numerals.format_into(out, self.alloc, value, self.desk.plurals),
            None => Ok(false),
        }
    }

    fn is_plain(&self, value: &FluentValue<'_, NoCustom>) -> bool {
        match &self.desk.settings.numerals {
            Some(numerals) => numerals.shows_plainly(value),
            None => true,
        }
    }

    fn keeps_texts(&self) -> bool {
        true
    }

    fn plain_below(&self) -> u64 {
        match &self.desk.settings.numerals {
            Some(numerals) => LocaleNumerals::plain_below(numerals),
            None => u64::MAX,
        }
    }

    fn category(&self, rule: PluralRuleType, operands: &PluralOperands) -> PluralCategory {
        self.desk.plurals.category(rule, operands)
    }

    fn stringify(&self, custom: &NoCustom) -> Result<CowStr<'static>, AllocError> {
        self.desk.plurals.stringify_value(self.alloc, custom)
    }

    fn alloc(&self) -> Global {
        self.alloc
    }
}

impl<'x, 'b, 'r, 's, M: MemoizerKind, F, L: Caller<NoCustom, F>> Context<NoCustom, F>
    for Asking<'x, 'b, 'r, 's, M, F, L> {
    ghost environment = { asking_view M.category_of M.stringified L.gives };

    ghost has_transform = { λ _. false };

    ghost given = { λ _. [] };

    fn call<'a, 'n>(
        &self,
        function: &FunctionRef<'_, F>,
        positional: &[FluentValue<'a, NoCustom>],
        named: &FluentArgs<'n, NoCustom>,
    ) -> Result<FluentValue<'a, NoCustom>, AllocError> {
        match function {
            FunctionRef::Own(function) => self
                .caller
                .call(self.alloc, *function, positional, named),
            FunctionRef::Number => builtins::NUMBER(self.alloc, positional, named),
        }
    }

    fn transform<'t>(&self, text: &'t str) -> Result<CowStr<'t>, AllocError> {
        Ok(CowStr::Borrowed(text))
    }

    fn is_isolating(&self) -> bool {
        self.desk.settings.isolating
    }

    fn stack_budget(&self) -> StackBudget {
        self.desk.stack
    }

    fn write_given(&self, _out: &mut String, _name: &str) -> Result<bool, AllocError> {
        Ok(false)
    }

    fn given_copy<'v>(&self, _name: &str) -> Result<Option<FluentValue<'v, NoCustom>>, AllocError> {
        Ok(None)
    }

    ghost shows = { λ _ _. refl };

    ghost chooses = { λ _. refl };
}
