//! Laws of errors: each function only carries a law, as its contract.

ghost use Rattle.std.specs.Cmp.{IsEquivalence};
ghost use Rattle.fluent_errors.specs.Laws.{EqualIfSeenSame};
ghost use Rattle.fluent_errors.specs.View.{bundle_view, entry_view, reference_view, resolver_view};

use crate::{EntryKind, FluentError, ReferenceKind, ResolverError};
use fluent_parsed::laws as parser_laws;

/// `==` of kinds of entries is an equivalence, and two are equal exactly if they are the same.
pub fn equal_entry_kinds()
    ensures equivalence { IsEquivalence ⟦<EntryKind as PartialEq>⟧.eq }
    ensures plain { EqualIfSeenSame ⟦<EntryKind as PartialEq>⟧.eq entry_view }
{}

/// `==` of references is an equivalence, and two are equal exactly if they are of one kind with the
/// same names.
pub fn equal_references()
    ensures equivalence { IsEquivalence ⟦<ReferenceKind as PartialEq>⟧.eq }
    ensures plain { EqualIfSeenSame ⟦<ReferenceKind as PartialEq>⟧.eq reference_view }
{}

/// `==` of errors of resolving is an equivalence, and two are equal exactly if they say the same.
pub fn equal_resolver_errors()
    ensures equivalence { IsEquivalence ⟦<ResolverError as PartialEq>⟧.eq }
    ensures plain { EqualIfSeenSame ⟦<ResolverError as PartialEq>⟧.eq resolver_view }
{}

/// `==` of errors of bundles is an equivalence.
pub fn equality_of_errors_is_an_equivalence()
    ensures { IsEquivalence ⟦<FluentError as PartialEq>⟧.eq }
{
    equality_of::<FluentError>();
}

/// The law of `Eq` at any type.
fn equality_of<T: Eq>()
    ensures { IsEquivalence T.eq }
{}

/// Two errors of bundles are equal exactly if they say the same.
pub fn equal_errors()
    ensures { EqualIfSeenSame ⟦<FluentError as PartialEq>⟧.eq bundle_view }
{
    parser_laws::equal_errors();
    equal_resolver_errors();
}
