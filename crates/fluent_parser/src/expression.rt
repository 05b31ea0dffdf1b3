//! Expressions.
#![tactic(auto, using(crate::proofs::Failing::handed, fluent_tokens::proofs::Counted::cuts, crate::proofs::Steps::placeable_is))]

ghost use Rattle.std.specs.Prelude.{◌≡◌, ℕ, List, ◌≤◌, ◌<◌, IfErr, OnOk, true, length, drop, option_map};
ghost use Rattle.fluent_ast.specs.View.{expression_view};
ghost use Rattle.fluent_parser.specs.Selects.{expression_with};
ghost use Rattle.std.specs.List.{list_all};
ghost use Rattle.fluent_grammar.specs.Words as w;
ghost use Rattle.fluent_parser.specs.Frame.{Advances, Closes, ClosesPlaceable, OpensPlaceable};
ghost use Rattle.fluent_parser.specs.Depth.{IfTooDeep, IsShallow, Past, TakesSelectAfter};
ghost use Rattle.fluent_parser.specs.Nesting.{TakesInline, TakesPlaceable, TakesSelect};
ghost use Rattle.fluent_parser.specs.declared.fault.Fault.TheVariants.{TooDeep};

use crate::fault::Fault;
use crate::parser::Parser;
use fluent_ast::{Expression, Identifier, InlineExpression, Variant};
use fluent_parsed::ErrorKind;
use fluent_text::Texts;
use fluent_text::stack::reading;
use fluent_tokens as words;

/// An expression with these variants, or the selector alone.
fn expression_of<S>(
    selector: InlineExpression<S>,
    variants: Option<Vec<Variant<S>>>,
) -> Expression<S>
    ensures { (text_of : S → List ℕ) → expression_view S text_of result
        ≡ expression_with S text_of selector variants }
{
    match variants {
        Some(variants) => Expression::Select { selector, variants },
        None => Expression::Inline(selector),
    }
}

/// Drops an expression, in a frame of its own: where expressions nest, frames are to stay small.
#[inline(never)]
pub fn discard<S: Drop>(_expression: InlineExpression<S>) {}

impl<'p, S: Drop, T: Texts<S>> Parser<'p, S, T> {
    ghost use Rattle.fluent_parser.specs.Frame.{Reads};
    ghost use Rattle.fluent_parser.specs.Selects.{select_by, select_view, expression_with, select_or_inline_by, nested_end_by};
    ghost use Rattle.fluent_parser.specs.Reads.{whole, string_or_number_at, inline_by, variable_at};
    ghost use Rattle.fluent_parser.specs.Steps.{closed_by, nested_by};
    ghost use Rattle.fluent_ast.specs.View.{name_of, inline_view, expression_view};
    ghost use Rattle.fluent_grammar.specs.Reading.{accessor_at, term_at, named_at};

    /// Passes over the opening brace of a placeable and the blank after it.
    ///
    /// # Errors
    /// [`Fault::TooDeep`] if a placeable is more than is left of the budget of the stack; nothing
    /// is opened.
    pub fn open_placeable(&mut self) -> Result<(), Fault>
        requires brace { w.begins_with w.open_brace self.old.rest.now ≡ true }
        ensures rest { self.new.rest.now ≡ w.skip_blank (drop 1 self.old.rest.now) }
        ensures less { length self.new.rest.now < length self.old.rest.now }
        ensures opened { OnOk result (OpensPlaceable self.old self.new) }
        ensures deep { IfTooDeep result (Past TakesPlaceable self.old) }
        ensures told { IfErr result (λ fault. fault ≡ TooDeep) }
        ensures text { self.new.text.now ≡ self.old.text.now }
        ensures budget { self.new.stack.budget ≡ self.old.stack.budget }
    {
        self.advance(1);
        self.skip_blank();
        self.open(reading::PLACEABLE)
    }

    /// A placeable in an expression, from its opening brace on. Production `inline_placeable`.
    /// Little is kept in its frame of the stack: placeables nest.
    #[cycle(parser)]
    #[tactic(auto, using(crate::proofs::Failing::handed, crate::proofs::Steps::placeable_read, crate::proofs::Steps::placeable_fails, crate::proofs::Steps::select_fails))]
    #[inline(always)]
    fn get_nested_placeable(&mut self) -> Result<InlineExpression<S>, Fault>
        requires brace { w.begins_with w.open_brace self.old.rest.now ≡ true }
        ensures gives { Reads (inline_view S T.text) self.old self.new result nested_by }
        ensures deep { IfTooDeep result (Past TakesPlaceable self.old) }
        ensures advances { Closes result self.old self.new }
    {
        self.open_placeable()?;
        let selector = self.get_inline_expression()?;
        match self.get_variants_of(&selector) {
            Ok(variants) => self.close_nested_placeable(selector, variants),
            Err(fault) => {
                discard(selector);
                Err(fault)
            }
        }
    }

    /// The rest of a placeable in an expression, after its selector and its variants.
    #[inline(never)]
    fn close_nested_placeable(
        &mut self,
        selector: InlineExpression<S>,
        variants: Option<Vec<Variant<S>>>,
    ) -> Result<InlineExpression<S>, Fault>
        ensures gives { Reads (inline_view S T.text) self.old self.new result
            (nested_end_by S T.text selector variants) }
        ensures shallow { IsShallow result }
        ensures closed { OnOk result (ClosesPlaceable self.old self.new) }
        ensures text { self.new.text.now ≡ self.old.text.now }
        ensures budget { self.new.stack.budget ≡ self.old.stack.budget }
        ensures onward { length self.new.rest.now ≤ length self.old.rest.now }
    {
        let expression = self.close_placeable(selector, variants)?;
        let expression = Box::new(self.alloc, expression)?;
        Ok(InlineExpression::Placeable { expression })
    }

    /// The expression of a placeable, whose closing brace has to stand here.
    ///
    /// # Errors
    /// [`Fault::Refused`] if another byte stands here, after blank; the parser then stands before
    /// it. [`Fault::Memory`] if memory runs out.
    #[inline(always)]
    pub fn close_placeable(
        &mut self,
        selector: InlineExpression<S>,
        variants: Option<Vec<Variant<S>>>,
    ) -> Result<Expression<S>, Fault>
        ensures gives { Reads (expression_view S T.text) self.old self.new result
            (closed_by (expression_with S T.text selector variants)) }
        ensures shallow { IsShallow result }
        ensures closed { OnOk result (ClosesPlaceable self.old self.new) }
        ensures text { self.new.text.now ≡ self.old.text.now }
        ensures budget { self.new.stack.budget ≡ self.old.stack.budget }
        ensures onward { length self.new.rest.now ≤ length self.old.rest.now }
    {
        let expression = expression_of(selector, variants);
        self.skip_blank();
        self.expect_byte(b'}')?;
        self.close(reading::PLACEABLE);
        Ok(expression)
    }

    /// The variants of a select over this selector, or none if no arrow follows.
    ///
    /// # Errors
    /// [`Fault::Refused`] if what follows is no select, or the selector can't stand alone; the
    /// parser then stands at the place of the refusal. [`Fault::Memory`] if memory runs out.
    /// [`Fault::TooDeep`] if what is there nests past the budget of the stack.
    #[cycle(parser)]
    #[tactic(auto, using(crate::proofs::Failing::handed, fluent_tokens::proofs::Counted::cuts), unfolding(fluent_grammar::specs::Reading::select_or_inline_at))]
    #[inline(never)]
    pub fn get_variants_of(
        &mut self,
        selector: &InlineExpression<S>,
    ) -> Result<Option<Vec<Variant<S>>>, Fault>
        ensures gives { Reads (expression_with S T.text selector.now) self.old self.new result
            (select_or_inline_by S T.text selector.now) }
        ensures deep { IfTooDeep result (Past TakesSelectAfter self.old) }
        ensures advances { Closes result self.old self.new }
    {
        self.skip_blank();
        if !words::begins_arrow(self.bytes()) {
            return self.no_variants(selector);
        }
        let variants = self.get_select_variants(selector)?;
        Ok(Some(variants))
    }

    /// The variants of a select over this selector, from its arrow on.
    #[cycle(parser)]
    #[tactic(auto, using(crate::proofs::Failing::handed, fluent_tokens::proofs::Counted::cuts), unfolding(fluent_grammar::specs::Reading::select_at, fluent_grammar::specs::Reading::variants_after))]
    fn get_select_variants(
        &mut self,
        selector: &InlineExpression<S>,
    ) -> Result<Vec<Variant<S>>, Fault>
        requires arrow { w.begins_arrow self.old.rest.now ≡ true }
        ensures gives { Reads (select_view S T.text selector.now) self.old self.new result
            (select_by S T.text selector.now) }
        ensures deep { IfTooDeep result (Past TakesSelect self.old) }
        ensures advances { Closes result self.old self.new }
    {
        if let Some(kind) = self.selector_fault(selector) {
            return Err(Fault::Refused(kind));
        }
        self.advance(2);
        self.skip_blank_inline();
        if !self.skip_eol() {
            return Err(self.expected_line_end());
        }
        self.skip_blank();
        self.open(reading::SELECT)?;
        let variants = self.get_variants()?;
        self.close(reading::SELECT);
        Ok(variants)
    }

    /// None for an expression that no arrow follows.
    #[inline(always)]
    fn no_variants(&self, inline: &InlineExpression<S>) -> Result<Option<Vec<Variant<S>>>, Fault>
        ensures gives { Reads (expression_with S T.text inline.now) self.now self.now result
            (inline_by (inline_view S T.text inline.now)) }
        ensures shallow { IsShallow result }
    {
        if let InlineExpression::TermReference {
            attribute: Some(_),
            ..
        } = inline
        {
            return Err(Fault::Refused(ErrorKind::TermAttributeAsPlaceable));
        }
        Ok(None)
    }

    /// An inline expression. Production `InlineExpression`.
    ///
    /// # Errors
    /// [`Fault::Refused`] if no inline expression stands here; the parser then stands at the place
    /// of the refusal. [`Fault::Memory`] if memory runs out. [`Fault::TooDeep`] if what is there
    /// nests past the budget of the stack.
    #[cycle(parser)]
    pub fn get_inline_expression(&mut self) -> Result<InlineExpression<S>, Fault>
        ensures gives { Reads (inline_view S T.text) self.old self.new result whole.inline }
        ensures deep { IfTooDeep result (Past TakesInline self.old) }
        ensures advances { Closes result self.old self.new }
    {
        let bytes = self.bytes();
        if words::begins_literal(bytes) {
            return self.get_literal();
        }
        if words::begins_with(bytes, b'-') {
            return self.get_term_reference();
        }
        if words::begins_with(bytes, b'$') {
            return self.get_variable_reference();
        }
        if words::begins_with_letter(bytes) {
            return self.get_named_reference();
        }
        if words::begins_with(bytes, b'{') {
            return self.get_nested_placeable();
        }
        Err(Fault::Refused(ErrorKind::ExpectedInlineExpression))
    }

    /// A term's reference, from its minus on. Production `TermReference`.
    #[cycle(parser)]
    #[tactic(auto, using(crate::proofs::Failing::handed, fluent_tokens::proofs::Counted::cuts), unfolding(fluent_grammar::specs::Reading::term_at, fluent_grammar::specs::Reading::term_arguments_at))]
    #[inline(never)]
    fn get_term_reference(&mut self) -> Result<InlineExpression<S>, Fault>
        requires minus { w.begins_with w.hyphen self.old.rest.now ≡ true }
        ensures gives { Reads (inline_view S T.text) self.old self.new result
            (λ s. term_at whole (drop 1 s)) }
        ensures deep { IfTooDeep result (Past TakesInline self.old) }
        ensures advances { Closes result self.old self.new }
    {
        self.advance(1);
        let id = self.get_identifier()?;
        let attribute = self.get_attribute_accessor()?;
        self.skip_blank();
        if !self.is_current_byte(b'(') {
            return Ok(InlineExpression::TermReference {
                id,
                attribute,
                arguments: None,
            });
        }
        self.open(reading::CALL)?;
        let arguments = self.get_call_arguments()?;
        self.close(reading::CALL);
        Ok(InlineExpression::TermReference {
            id,
            attribute,
            arguments: Some(arguments),
        })
    }

    /// A call, or a message's reference. Productions `FunctionReference` and `MessageReference`.
    #[cycle(parser)]
    #[tactic(auto, using(crate::proofs::Failing::handed, fluent_tokens::proofs::Counted::cuts), unfolding(fluent_grammar::specs::Reading::named_at, fluent_grammar::specs::Reading::called_at, fluent_grammar::specs::Reading::function_of))]
    fn get_named_reference(&mut self) -> Result<InlineExpression<S>, Fault>
        ensures gives { Reads (inline_view S T.text) self.old self.new result (named_at whole) }
        ensures deep { IfTooDeep result (Past TakesInline self.old) }
        ensures advances { Closes result self.old self.new }
    {
        let id = self.get_identifier()?;
        self.skip_blank();
        if !self.is_current_byte(b'(') {
            let attribute = self.get_attribute_accessor()?;
            return Ok(InlineExpression::MessageReference { id, attribute });
        }
        self.open(reading::CALL)?;
        let arguments = self.get_call_arguments()?;
        self.close(reading::CALL);
        if is_callee(self.texts.as_str(&id.name)) {
            Ok(InlineExpression::FunctionReference { id, arguments })
        } else {
            Err(Fault::Refused(ErrorKind::ForbiddenCallee))
        }
    }

    /// A string or a number. Productions `StringLiteral` and `NumberLiteral`.
    ///
    /// # Errors
    /// [`Fault::Refused`] if no literal stands here; the parser then stands at the place of the
    /// refusal. [`Fault::Memory`] if memory runs out.
    pub fn get_literal(&mut self) -> Result<InlineExpression<S>, Fault>
        ensures gives { Reads (inline_view S T.text) self.old self.new result string_or_number_at }
        ensures shallow { IsShallow result }
        ensures advances { Advances self.old self.new }
    {
        if self.take_byte_if(b'"') {
            let value = self.get_string_content()?;
            Ok(InlineExpression::StringLiteral { value })
        } else {
            let value = self.get_number_literal()?;
            Ok(InlineExpression::NumberLiteral { value })
        }
    }

    /// Production `VariableReference`, from its dollar sign on.
    fn get_variable_reference(&mut self) -> Result<InlineExpression<S>, Fault>
        requires dollar { w.begins_with w.dollar self.old.rest.now ≡ true }
        ensures gives { Reads (inline_view S T.text) self.old self.new result variable_at }
        ensures shallow { IsShallow result }
        ensures advances { Advances self.old self.new }
    {
        self.advance(1);
        let id = self.get_identifier()?;
        Ok(InlineExpression::VariableReference { id })
    }

    /// The attribute that a reference names, if it names one. Production `AttributeAccessor`.
    #[tactic(auto, using(crate::proofs::Failing::handed), unfolding(fluent_grammar::specs::Reading::accessor_at))]
    fn get_attribute_accessor(&mut self) -> Result<Option<Identifier<S>>, Fault>
        ensures gives { Reads (option_map (name_of S T.text)) self.old self.new result accessor_at }
        ensures shallow { IsShallow result }
        ensures advances { Advances self.old self.new }
    {
        if !self.take_byte_if(b'.') {
            return Ok(None);
        }
        let id = self.get_identifier()?;
        Ok(Some(id))
    }
}

/// Whether a function may have this name.
fn is_callee(name: &str) -> bool
    ensures { result ≡ list_all w.is_callee_byte name.now }
{
    name.as_bytes().iter().all(|byte| matches!(*byte, b'A'..=b'Z' | b'0'..=b'9' | b'-' | b'_'))
}
