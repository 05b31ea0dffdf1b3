//! Laws of trees: each function only carries a law, as its contract.

ghost use Rattle.fluent_ast.specs.Equality.{Compares};
ghost use Rattle.fluent_ast.specs.View.{resource_view, entry_view, message_view, term_view, comment_view, attribute_view, pattern_view, element_view, name_of, key_of, variant_view, expression_view, inline_view, arguments_view, named_view};

use crate::{
    Attribute, CallArguments, Comment, Entry, Expression, Identifier, InlineExpression, Message,
    NamedArgument, Pattern, PatternElement, Resource, Term, Variant, VariantKey,
};
use fluent_text::Slice;

/// `==` of nodes of each type is an equivalence, and two nodes are equal exactly if they are the
/// same plain data. So a copy equals what it copies.
pub fn equal_nodes<'s, S: Slice<'s>>()
    ensures resources { Compares ⟦<Resource<S> as PartialEq>⟧.eq (resource_view S S.text) }
    ensures entries { Compares ⟦<Entry<S> as PartialEq>⟧.eq (entry_view S S.text) }
    ensures messages { Compares ⟦<Message<S> as PartialEq>⟧.eq (message_view S S.text) }
    ensures terms { Compares ⟦<Term<S> as PartialEq>⟧.eq (term_view S S.text) }
    ensures comments { Compares ⟦<Comment<S> as PartialEq>⟧.eq (comment_view S S.text) }
    ensures attributes { Compares ⟦<Attribute<S> as PartialEq>⟧.eq (attribute_view S S.text) }
    ensures patterns { Compares ⟦<Pattern<S> as PartialEq>⟧.eq (pattern_view S S.text) }
    ensures elements { Compares ⟦<PatternElement<S> as PartialEq>⟧.eq (element_view S S.text) }
    ensures identifiers { Compares ⟦<Identifier<S> as PartialEq>⟧.eq (name_of S S.text) }
    ensures keys { Compares ⟦<VariantKey<S> as PartialEq>⟧.eq (key_of S S.text) }
    ensures variants { Compares ⟦<Variant<S> as PartialEq>⟧.eq (variant_view S S.text) }
    ensures expressions { Compares ⟦<Expression<S> as PartialEq>⟧.eq (expression_view S S.text) }
    ensures inlines { Compares ⟦<InlineExpression<S> as PartialEq>⟧.eq (inline_view S S.text) }
    ensures arguments { Compares ⟦<CallArguments<S> as PartialEq>⟧.eq (arguments_view S S.text) }
    ensures named { Compares ⟦<NamedArgument<S> as PartialEq>⟧.eq (named_view S S.text) }
{}
