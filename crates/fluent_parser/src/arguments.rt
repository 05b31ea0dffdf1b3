//! The arguments of calls.
#![tactic(auto, using(crate::proofs::Failing::handed, fluent_tokens::proofs::Counted::cuts, crate::proofs::Steps::placeable_is))]

ghost use Rattle.std.specs.Prelude.{◌≡◌, ◌≤◌, ◌<◌, [], true, IfOk, OnOk, length, drop, take};
ghost use Rattle.fluent_grammar.specs.Words as w;
ghost use Rattle.fluent_parser.specs.Frame.{Advances, Closes};
ghost use Rattle.fluent_parser.specs.Depth.{IfTooDeep, IsShallow, Past, TakesAfterParenthesis};
ghost use Rattle.fluent_parser.specs.Nesting.{TakesInline};

use crate::fault::Fault;
use crate::named_arguments::NamedArguments;
use crate::parser::Parser;
use fluent_ast::{CallArguments, Identifier, InlineExpression, NamedArgument};
use fluent_parsed::ErrorKind;
use fluent_text::Texts;
use fluent_tokens as words;

/// An argument of a call.
#[derive(Drop)]
pub enum Argument<'p, S> {
    Positional(InlineExpression<S>),
    /// One with a name, and its name in the source.
    Named(NamedArgument<S>, &'p str),
}

/// The identifier at the front of a text.
fn identifier(text: &str) -> &str
    ensures { result.now ≡ take (w.name_len text.now) text.now }
{
    &text[..words::identifier_len(text.as_bytes())]
}

impl<'p, S: Drop, T: Texts<S>> Parser<'p, S, T> {
    ghost use Rattle.fluent_parser.specs.Frame.{Reads};
    ghost use Rattle.fluent_parser.specs.Reads.{call_arguments_at};
    ghost use Rattle.fluent_parser.specs.Arguments.{argument_view, argument_with, positional_with, value_with, IsName, IsNamed};
    ghost use Rattle.fluent_parser.specs.Indexed.{IsIndexed};
    ghost use Rattle.fluent_ast.specs.View.{inline_view, arguments_view};

    /// The arguments of a call, from the opening parenthesis on. Production `CallArguments`.
    ///
    /// # Errors
    /// [`Fault::Refused`] if these are no arguments of a call; the parser then stands at the place
    /// of the refusal. [`Fault::Memory`] if memory runs out. [`Fault::TooDeep`] if what is there
    /// nests past the budget of the stack.
    #[cycle(parser)]
    pub fn get_call_arguments(&mut self) -> Result<CallArguments<S>, Fault>
        requires parenthesis { w.begins_with w.open_paren self.old.rest.now ≡ true }
        ensures gives { Reads (arguments_view S T.text) self.old self.new result call_arguments_at }
        ensures deep { IfTooDeep result (Past TakesAfterParenthesis self.old) }
        ensures advances { Closes result self.old self.new }
    {
        let mut positional = Vec::new(self.alloc);
        let mut named = NamedArguments::new(self.alloc);
        self.advance(1);
        self.skip_blank();
        while !self.is_current_byte(b')') {
            if self.bytes().is_empty() {
                return Err(Fault::Refused(ErrorKind::ExpectedToken(')')));
            }
            match self.get_argument(&named)? {
                Argument::Positional(argument) => positional.push(argument)?,
                Argument::Named(argument, name) => named.push(argument, name)?,
            }
            self.skip_separator();
        }
        self.advance(1);
        Ok(CallArguments {
            positional,
            named: named.into_all(),
        })
    }

    /// An argument of a call, after these named ones. Productions `Argument` and `NamedArgument`.
    #[cycle(parser)]
    fn get_argument(&mut self, others: &NamedArguments<'p, S>) -> Result<Argument<'p, S>, Fault>
        requires indexed { IsIndexed S T.text others.now }
        ensures less { OnOk result (length self.new.rest.now < length self.old.rest.now) }
        ensures gives { Reads (argument_view S T.text) self.old self.new result
            (argument_with S T.text others.now) }
        ensures named { IfOk result (IsNamed S T.text) }
        ensures deep { IfTooDeep result (Past TakesInline self.old) }
        ensures advances { Closes result self.old self.new }
    {
        let start = self.rest();
        let argument = self.get_inline_expression()?;
        if !self.is_current_byte(b':') {
            return self.positional_argument(argument, others);
        }
        match self.name_of_argument(argument) {
            Ok(name) => {
                let given = identifier(start);
                let value = self.get_argument_value(given, others)?;
                Ok(Argument::Named(NamedArgument { name, value }, given))
            }
            Err(argument) => self.positional_argument(argument, others),
        }
    }

    /// A positional argument, which may stand after no named one.
    fn positional_argument(
        &self,
        argument: InlineExpression<S>,
        others: &NamedArguments<'p, S>,
    ) -> Result<Argument<'p, S>, Fault>
        ensures gives { Reads (argument_view S T.text) self.now self.now result
            (positional_with S T.text others.now argument) }
        ensures shallow { IsShallow result }
        ensures named { IfOk result (IsNamed S T.text) }
    {
        if others.all.is_empty() {
            Ok(Argument::Positional(argument))
        } else {
            Err(Fault::Refused(ErrorKind::PositionalArgumentFollowsNamed))
        }
    }

    /// The name of an argument, or the expression back that can't be one.
    fn name_of_argument(
        &self,
        argument: InlineExpression<S>,
    ) -> Result<Identifier<S>, InlineExpression<S>>
        ensures { IsName S T.text (inline_view S T.text argument) result }
    {
        match argument {
            InlineExpression::MessageReference {
                id,
                attribute: None,
            } => Ok(id),
            argument => Err(argument),
        }
    }

    /// The value of an argument of this name after others, from the colon on.
    fn get_argument_value(
        &mut self,
        name: &str,
        others: &NamedArguments<'p, S>,
    ) -> Result<InlineExpression<S>, Fault>
        requires indexed { IsIndexed S T.text others.now }
        requires colon { w.begins_with w.colon self.old.rest.now ≡ true }
        ensures gives { Reads (inline_view S T.text) self.old self.new result
            (value_with S T.text others.now name.now) }
        ensures shallow { IsShallow result }
        ensures advances { Advances self.old self.new }
    {
        if others.has_name(self.texts, name) {
            let name = String::from_str(self.alloc, name)?;
            return Err(Fault::Refused(ErrorKind::DuplicatedNamedArgument(name)));
        }
        self.advance(1);
        self.skip_blank();
        if words::begins_value(self.bytes()) {
            self.get_literal()
        } else {
            Err(Fault::Refused(ErrorKind::ExpectedLiteral))
        }
    }

    /// Passes over what stands between arguments.
    fn skip_separator(&mut self)
        ensures rest { self.new.rest.now ≡ w.skip_separator self.old.rest.now }
        ensures advances { Advances self.old self.new }
    {
        self.skip_blank();
        self.take_byte_if(b',');
        self.skip_blank();
    }
}
