//! What a program brings: values of its own type, functions, a formatter and a transform.

ghost use Rattle.std.specs.Prelude.{codes, map, true};
ghost use Rattle.std.proofs.Common.{rules};
ghost use Rattle.std.specs.Char.{to_ascii_uppercase};
ghost use Rattle.rows_patterns.specs.Own.{bracketed, called};

use fluent_value::{
    FluentArgs, FluentFunction, FluentType, FluentValue, TextTransform, ValueFormatter,
};
use std::alloc::{AllocError, Global};
use std::borrow::CowStr;

/// A value that is shown as `c`.
#[derive(Clone, Copy)]
pub struct Token;

impl FluentType for Token {
    type Meaning = ();

    ghost meaning = { λ _. tt };

    ghost text = { λ _. codes "c" };

    ghost same = { λ _ _. true };

    ghost laws = { Prim.search rules };

    fn duplicate(&self, _alloc: Global) -> Result<Self, AllocError> {
        Ok(*self)
    }

    fn equals(&self, _other: &Self) -> bool {
        true
    }

    fn as_string(&self, _alloc: Global) -> Result<CowStr<'static>, AllocError> {
        Ok(CowStr::Borrowed("c"))
    }
}

/// A value of a program with values of its own.
pub type Value<'a> = FluentValue<'a, Token>;

/// The arguments of such a program.
pub type Args<'a> = FluentArgs<'a, Token>;

/// A function.
#[derive(Clone, Copy)]
pub enum Function {
    /// How many bytes the first value has, if it is a text.
    Length,
    /// The first value, or none.
    First,
    /// The argument `v`.
    Named,
}

impl FluentFunction<Token> for Function {
    ghost gives = { called };

    fn call<'a, 'n>(
        &self,
        alloc: Global,
        positional: &[FluentValue<'a, Token>],
        named: &FluentArgs<'n, Token>,
    ) -> Result<FluentValue<'a, Token>, AllocError> {
        match self {
            Function::Length => match positional.first() {
                Some(FluentValue::String(text)) => Ok(FluentValue::from(text.as_str().len())),
                _ => Ok(FluentValue::Error),
            },
            Function::First => match positional.first() {
                Some(value) => value.try_clone(alloc),
                None => Ok(FluentValue::None),
            },
            Function::Named => match named.get("v") {
                Some(value) => value.into_owned(alloc),
                None => Ok(FluentValue::Error),
            },
        }
    }
}

/// A formatter that puts texts in brackets, and has no text for any other value.
#[derive(Clone, Copy)]
pub struct Brackets;

impl<M> ValueFormatter<Token, M> for Brackets {
    ghost formats = { λ _ _ value. bracketed value };

    fn format(
        &self,
        alloc: Global,
        value: &FluentValue<'_, Token>,
        _plurals: &M,
    ) -> Result<Option<String>, AllocError> {
        let FluentValue::String(text) = value else {
            return Ok(None);
        };
        let mut bracketed = String::from_str(alloc, "[")?;
        bracketed.push_str(text.as_str())?;
        bracketed.push_str("]")?;
        Ok(Some(bracketed))
    }
}

/// A transform to the capitals of ASCII.
#[derive(Drop)]
pub struct Capitals;

impl TextTransform for Capitals {
    ghost transformed = { λ _ text. map to_ascii_uppercase text };

    fn transform<'t>(&self, alloc: Global, text: &'t str) -> Result<CowStr<'t>, AllocError> {
        Ok(CowStr::Owned(text.to_ascii_uppercase(alloc)?))
    }
}
