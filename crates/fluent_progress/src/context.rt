//! What patterns are resolved in.

ghost use Rattle.std.specs.Prelude.{◌≡◌, ◌++◌, Bool, false, List, IfOk, IsOkAnd, OnOk, is_some, option_map, string_bytes};
ghost use Rattle.std.specs.Cow.{cow_str_bytes, IsBorrowedStr};
ghost use Rattle.fluent_grammar.specs.Words.{Text};
ghost use Rattle.fluent_meaning.specs.Environment.{Environment, value_text};
ghost use Rattle.fluent_progress.specs.Functions.{GivesResult};
ghost use Rattle.fluent_progress.specs.Given.{given_text};
ghost use Rattle.fluent_value.specs.Args.{argument};
ghost use Rattle.fluent_value.specs.Shown.{shown_text};
ghost use Rattle.fluent_value.specs.Value.{Value};
ghost use Rattle.fluent_value.specs.View.{value_view};

use fluent_ids::FunctionRef;
use fluent_text::stack::StackBudget;
use fluent_value::{FluentArgs, FluentType, FluentValue, ValueScope};
use std::alloc::AllocError;
use std::borrow::CowStr;

/// What patterns are resolved in but for their messages and terms: what functions give, and what
/// texts and values are shown by. It stays the same while a pattern is resolved.
pub trait Context<C: FluentType, F>: ValueScope<C> {
    /// All of it as plain data.
    ghost environment: { Self → Environment C.Meaning F };

    /// Whether a transform is set.
    ghost has_transform: { Self → Bool };

    /// The arguments of a request that it has, in the order of their names. They count for a
    /// request that brings none.
    ghost given: { Self → List (Text × Value C.Meaning) };

    /// What a function gives for these values.
    ///
    /// # Errors
    /// [`AllocError`] if memory runs out; nothing is kept.
    fn call<'a, 'n>(
        &self,
        function: &FunctionRef<'_, F>,
        positional: &[FluentValue<'a, C>],
        named: &FluentArgs<'n, C>,
    ) -> Result<FluentValue<'a, C>, AllocError>
        ensures { GivesResult C.meaning (environment self.now) result function.now positional.now
            named.now };

    /// What becomes of a text of a pattern. If no transform is set it is the text itself, borrowed,
    /// which allocates nothing and succeeds.
    ///
    /// # Errors
    /// [`AllocError`] if memory runs out; nothing is kept.
    fn transform<'t>(&self, text: &'t str) -> Result<CowStr<'t>, AllocError>
        ensures text { IfOk result (λ new. cow_str_bytes new
            ≡ (environment self.now).transformed text.now) }
        ensures borrowed { has_transform self.now ≡ false → IsOkAnd result IsBorrowedStr };

    /// Whether placeables stand between isolation marks.
    fn is_isolating(&self) -> bool
        ensures { result ≡ (environment self.now).isolating };

    /// How much of the machine's stack resolving may take.
    fn stack_budget(&self) -> StackBudget;

    /// Appends the text of the argument of a name that it has, if there is one, and says whether
    /// there is.
    ///
    /// # Errors
    /// [`AllocError`] if memory runs out; `out` may hold a part of the text.
    fn write_given(&self, out: &mut String, name: &str) -> Result<bool, AllocError>
        ensures found { IfOk result (λ is_there. is_there
            ≡ is_some (argument name.now (given self.now))) }
        ensures text { OnOk result (string_bytes out.new ≡ string_bytes out.old ++
            given_text (value_text (environment self.now)) (argument name.now (given self.now))) };

    /// A copy of the argument of a name that it has, which borrows nothing.
    ///
    /// # Errors
    /// [`AllocError`] if memory runs out; nothing is kept.
    fn given_copy<'v>(&self, name: &str) -> Result<Option<FluentValue<'v, C>>, AllocError>
        ensures { IfOk result (λ copy. option_map (value_view C.meaning) copy
            ≡ argument name.now (given self.now)) };

    /// A value is shown as its text.
    ghost shows: { (x : Self) (v : Value C.Meaning)
        → value_text (environment x) v ≡ shown_text (Self.formatted x) (Self.shown x) v };

    /// Variants are chosen by the plural source.
    ghost chooses: { (x : Self) → (environment x).plurals ≡ Self.plurals x };
}
