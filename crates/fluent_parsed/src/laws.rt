//! Laws of errors: each function only carries a law, as its contract.

ghost use Rattle.std.specs.Prelude.{◌≡◌, ◌↔◌, IsTrue};
ghost use Rattle.std.specs.Cmp.{IsEquivalence};
ghost use Rattle.fluent_parsed.specs.ErrorView.{error_view, kind_view};
ghost use Rattle.fluent_parsed.specs.ErrorLaws.{MessageAttributesMaySelect};
ghost use Rattle.fluent_parsed.specs.declared.errors.ErrorKind.{ErrorKind as Kind};
ghost use Rattle.fluent_parsed.specs.declared.errors.ParserError.{ParserError as Error};

use crate::{ErrorKind, ParserError};

/// `==` of kinds of errors and of errors is an equivalence.
pub fn equality_is_an_equivalence()
    ensures kinds { IsEquivalence ⟦<ErrorKind as PartialEq>⟧.eq }
    ensures errors { IsEquivalence ⟦<ParserError as PartialEq>⟧.eq }
{
    equality_of::<ErrorKind>();
    equality_of::<ParserError>();
}

/// The law of `Eq` at any type.
fn equality_of<T: Eq>()
    ensures { IsEquivalence T.eq }
{}

/// Two kinds of errors are equal exactly if they are one variant with the same text.
pub fn equal_error_kinds()
    ensures { (a b : Kind) → IsTrue (⟦<ErrorKind as PartialEq>⟧.eq a b) ↔
        (kind_view a ≡ kind_view b) }
{}

/// Two errors are equal exactly if they are of equal kinds, at one place and with one slice.
pub fn equal_errors()
    ensures { (a b : Error) → IsTrue (⟦<ParserError as PartialEq>⟧.eq a b) ↔
        (error_view a ≡ error_view b) }
{
    equal_error_kinds();
}

/// A message's attribute may be a selector: no source has the error that is named after it.
pub fn message_attributes_may_select()
    ensures { MessageAttributesMaySelect }
{}
