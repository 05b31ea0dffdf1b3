//! Selects.
#![tactic(auto, using(crate::proofs::Failing::handed, fluent_tokens::proofs::Counted::cuts, crate::proofs::Steps::placeable_is))]

ghost use Rattle.std.specs.Prelude.{◌≡◌, ◌≤◌, ◌<◌, true, false, length};
ghost use Rattle.fluent_grammar.specs.Words as w;
ghost use Rattle.fluent_grammar.specs.Reading.{selector_fault};
ghost use Rattle.fluent_parser.specs.Frame.{Advances, Closes};
ghost use Rattle.fluent_parser.specs.Depth.{IfTooDeep, IsShallow, Past};
ghost use Rattle.fluent_parser.specs.Nesting.{TakesVariant, TakesVariants};

use crate::fault::Fault;
use crate::parser::Parser;
use fluent_ast::{Identifier, InlineExpression, Variant, VariantKey};
use fluent_parsed::ErrorKind;
use fluent_text::Texts;
use fluent_tokens as words;

impl<'p, S: Drop, T: Texts<S>> Parser<'p, S, T> {
    ghost use Rattle.fluent_parser.specs.Frame.{Reads};
    ghost use Rattle.fluent_parser.specs.Reads.{whole, key_in_brackets_at, IsToldAs};
    ghost use Rattle.fluent_parser.specs.Steps.{variant_by, default_mark_at};
    ghost use Rattle.fluent_ast.specs.View.{inline_view, key_of, variants_view, variant_view};
    ghost use Rattle.fluent_grammar.specs.Reading.{key_at};

    /// Why an expression can't be a selector.
    pub fn selector_fault(&self, selector: &InlineExpression<S>) -> Option<ErrorKind>
        ensures { IsToldAs result (selector_fault (inline_view S T.text selector.now)) }
    {
        match selector {
            InlineExpression::MessageReference {
                attribute: None,
                ..
            } => Some(ErrorKind::MessageReferenceAsSelector),
            InlineExpression::TermReference {
                attribute: None,
                ..
            } => Some(ErrorKind::TermReferenceAsSelector),
            InlineExpression::Placeable { .. } => Some(
                ErrorKind::ExpectedSimpleExpressionAsSelector,
            ),
            _ => None,
        }
    }

    /// The variants of a select. Production `variant_list`.
    ///
    /// # Errors
    /// [`Fault::Refused`] if these are no variants, or not exactly one is the default; the parser
    /// then stands at the place of the refusal. [`Fault::Memory`] if memory runs out.
    /// [`Fault::TooDeep`] if what is there nests past the budget of the stack.
    #[cycle(parser)]
    pub fn get_variants(&mut self) -> Result<Vec<Variant<S>>, Fault>
        ensures gives { Reads (λ vs. variants_view S T.text vs.items) self.old self.new result
            (whole.variants false) }
        ensures deep { IfTooDeep result (Past (TakesVariants false) self.old) }
        ensures advances { Closes result self.old self.new }
    {
        let mut variants = Vec::new(self.alloc);
        let mut has_default = false;
        loop {
            let default = self.take_default_mark(has_default)?;
            has_default |= default;
            if !self.is_current_byte(b'[') {
                break;
            }
            variants.push(self.get_variant(default)?)?;
            self.skip_blank();
        }
        if has_default {
            Ok(variants)
        } else {
            Err(Fault::Refused(ErrorKind::MissingDefaultVariant))
        }
    }

    /// Passes over the mark of the default variant, and says whether it stood here. A second one is
    /// refused.
    fn take_default_mark(&mut self, has_default: bool) -> Result<bool, Fault>
        ensures gives { Reads (λ found. found) self.old self.new result
            (default_mark_at has_default) }
        ensures shallow { IsShallow result }
        ensures advances { Advances self.old self.new }
    {
        let found = self.take_byte_if(b'*');
        if found && has_default {
            return Err(Fault::Refused(ErrorKind::MultipleDefaultVariants));
        }
        Ok(found)
    }

    /// A variant, from its opening bracket on. Production `Variant`.
    #[cycle(parser)]
    #[tactic(auto, using(crate::proofs::Failing::handed, fluent_tokens::proofs::Counted::cuts), unfolding(crate::specs::Steps::variant_by))]
    fn get_variant(&mut self, default: bool) -> Result<Variant<S>, Fault>
        requires bracket { w.begins_with w.open_bracket self.old.rest.now ≡ true }
        ensures gives { Reads (variant_view S T.text) self.old self.new result
            (variant_by default) }
        ensures less { length self.new.rest.now < length self.old.rest.now }
        ensures deep { IfTooDeep result (Past TakesVariant self.old) }
        ensures advances { Closes result self.old self.new }
    {
        self.advance(1);
        let key = self.get_variant_key()?;
        let Some(value) = self.get_pattern()? else {
            return Err(Fault::Refused(ErrorKind::MissingValue));
        };
        Ok(Variant {
            key,
            value,
            default,
        })
    }

    /// A variant's key with its closing bracket. Production `VariantKey`.
    fn get_variant_key(&mut self) -> Result<VariantKey<S>, Fault>
        ensures gives { Reads (key_of S T.text) self.old self.new result key_in_brackets_at }
        ensures shallow { IsShallow result }
        ensures advances { Advances self.old self.new }
    {
        self.skip_blank();
        let key = self.get_key()?;
        self.skip_blank();
        self.expect_byte(b']')?;
        Ok(key)
    }

    /// A number or an identifier.
    #[tactic(auto, using(crate::proofs::Failing::handed), unfolding(fluent_grammar::specs::Reading::key_at))]
    fn get_key(&mut self) -> Result<VariantKey<S>, Fault>
        ensures gives { Reads (key_of S T.text) self.old self.new result key_at }
        ensures shallow { IsShallow result }
        ensures advances { Advances self.old self.new }
    {
        if words::begins_number(self.bytes()) {
            let value = self.get_number_literal()?;
            Ok(VariantKey::NumberLiteral { value })
        } else {
            let Identifier { name } = self.get_identifier()?;
            Ok(VariantKey::Identifier { name })
        }
    }
}
