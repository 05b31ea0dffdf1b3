//! A context with the arguments of a request.

use crate::context::Context;
use crate::lookup::{Lookup, write_named};
use fluent_ids::FunctionRef;
use fluent_number::{PluralCategory, PluralOperands, PluralRuleType};
use fluent_text::stack::StackBudget;
use fluent_value::{FluentArgs, FluentType, FluentValue, ValueScope};
use std::alloc::{AllocError, Global};
use std::borrow::CowStr;

/// Another context, and the arguments of a request, which stay where they are.
#[derive(Drop)]
pub struct WithArguments<'x, E, A> {
    /// What patterns are resolved in but for the arguments.
    pub context: &'x E,
    /// The arguments.
    pub arguments: &'x A,
}

impl<'x, C: FluentType, E: ValueScope<C>, A> ValueScope<C> for WithArguments<'x, E, A> {
    ghost has_formatter = { λ with. E.has_formatter with.context.now };

    ghost formatted = { λ with. E.formatted with.context.now };

    ghost plurals = { λ with. E.plurals with.context.now };

    ghost shown = { λ with. E.shown with.context.now };

    fn format(&self, value: &FluentValue<'_, C>) -> Result<Option<String>, AllocError> {
        self.context.format(value)
    }

    fn format_into(
        &self,
        out: &mut String,
        value: &FluentValue<'_, C>,
    ) -> Result<bool, AllocError> {
        self.context.format_into(out, value)
    }

    fn is_plain(&self, value: &FluentValue<'_, C>) -> bool {
        self.context.is_plain(value)
    }

    fn keeps_texts(&self) -> bool {
        self.context.keeps_texts()
    }

    fn plain_below(&self) -> u64 {
        self.context.plain_below()
    }

    fn category(&self, rule: PluralRuleType, operands: &PluralOperands) -> PluralCategory {
        self.context.category(rule, operands)
    }

    fn stringify(&self, custom: &C) -> Result<CowStr<'static>, AllocError> {
        self.context.stringify(custom)
    }

    fn alloc(&self) -> Global {
        self.context.alloc()
    }
}

impl<'x, C: FluentType, F, E: Context<C, F>, A: Lookup<C>> Context<C, F>
    for WithArguments<'x, E, A> {
    ghost environment = { λ with. E.environment with.context.now };

    ghost has_transform = { λ with. E.has_transform with.context.now };

    ghost given = { λ with. A.arguments with.arguments.now };

    fn call<'a, 'n>(
        &self,
        function: &FunctionRef<'_, F>,
        positional: &[FluentValue<'a, C>],
        named: &FluentArgs<'n, C>,
    ) -> Result<FluentValue<'a, C>, AllocError> {
        self.context.call(function, positional, named)
    }

    fn transform<'t>(&self, text: &'t str) -> Result<CowStr<'t>, AllocError> {
        self.context.transform(text)
    }

    fn is_isolating(&self) -> bool {
        self.context.is_isolating()
    }

    fn stack_budget(&self) -> StackBudget {
        self.context.stack_budget()
    }

    fn write_given(&self, out: &mut String, name: &str) -> Result<bool, AllocError> {
        write_named(out, self.context, self.arguments, name)
    }

    fn given_copy<'v>(&self, name: &str) -> Result<Option<FluentValue<'v, C>>, AllocError> {
        self.arguments.argument_copy(self.context.alloc(), name)
    }

    ghost shows = { λ with v. E.shows with.context.now v };

    ghost chooses = { λ with. E.chooses with.context.now };
}
