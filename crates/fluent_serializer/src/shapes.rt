//! Which patterns begin on a line of their own.

ghost use Rattle.std.specs.Prelude.{◌≡◌, ℕ, List, [], ◌∷◌};
ghost use Rattle.std.specs.List.{list_any};
ghost use Rattle.fluent_grammar.specs.Words.{begins_with, dot};
ghost use Rattle.fluent_grammar.specs.Written as tree;
ghost use Rattle.fluent_grammar.specs.Written.{holds_line_feed};
ghost use Rattle.fluent_ast.specs.View.{element_view, elements_of, expression_view, inline_view, pattern_view};
ghost use Rattle.fluent_serializer.specs.Writing.{begins_on_new_line};

use fluent_ast::{Expression, InlineExpression, Pattern, PatternElement};
use fluent_text::Texts;

/// Whether an expression is a select, also in placeables nested directly in each other.
#[cycle(selects)]
pub(crate) fn is_select<S>(expression: &Expression<S>) -> bool
    ensures { (text_of : S → List ℕ) → result ≡ tree.is_select
        (expression_view S text_of expression.now) }
{
    match expression {
        Expression::Select {
            selector: _,
            variants: _,
        } => true,
        Expression::Inline(inline) => is_select_inline(inline),
    }
}

#[cycle(selects)]
fn is_select_inline<S>(inline: &InlineExpression<S>) -> bool
    ensures { (text_of : S → List ℕ) → result ≡ tree.is_select_inline
        (inline_view S text_of inline.now) }
{
    match inline {
        InlineExpression::Placeable { expression } => is_select(expression),
        _ => false,
    }
}

fn has_line_feed(text: &str) -> bool
    ensures { result ≡ holds_line_feed text.now }
{
    text.as_bytes().contains(&b'\n')
}

/// Whether an element takes more than one line.
fn is_long<S: Drop, T: Texts<S>>(texts: &T, element: &PatternElement<S>) -> bool
    ensures { result ≡ tree.is_many_lined (elements_of (element_view S T.text element.now ∷ [])) }
{
    match element {
        PatternElement::TextElement { value } => has_line_feed(texts.as_str(value)),
        PatternElement::Placeable { expression } => is_select(expression),
    }
}

/// Whether some element takes more than one line.
fn is_some_long<S: Drop, T: Texts<S>>(texts: &T, elements: &[PatternElement<S>]) -> bool
    ensures { result ≡ list_any (λ e. tree.is_many_lined
        (elements_of (element_view S T.text e ∷ []))) elements.now }
{
    elements.iter().any(|element| is_long(texts, element))
}

fn is_many_lined<S: Drop, T: Texts<S>>(texts: &T, pattern: &Pattern<S>) -> bool
    ensures { result ≡ tree.is_many_lined (pattern_view S T.text pattern.now) }
{
    is_some_long(texts, &pattern.elements)
}

fn is_dotted(text: &str) -> bool
    ensures { result ≡ begins_with dot text.now }
{
    match text.as_bytes() {
        [first, ..] => *first == b'.',
        [] => false,
    }
}

/// Whether an element is a text that begins with a dot.
fn is_dotted_text<S: Drop, T: Texts<S>>(texts: &T, element: &PatternElement<S>) -> bool
    ensures { result ≡ tree.begins_with_dot (elements_of (element_view S T.text element.now ∷ [])) }
{
    match element {
        PatternElement::TextElement { value } => is_dotted(texts.as_str(value)),
        PatternElement::Placeable { expression: _ } => false,
    }
}

fn begins_with_dot<S: Drop, T: Texts<S>>(texts: &T, pattern: &Pattern<S>) -> bool
    ensures { result ≡ tree.begins_with_dot (pattern_view S T.text pattern.now) }
{
    match pattern.elements.first() {
        Some(first) => is_dotted_text(texts, first),
        None => false,
    }
}

/// Whether a pattern begins on a line of its own, and not after a space.
pub(crate) fn begins_on_new_line<S: Drop, T: Texts<S>>(texts: &T, pattern: &Pattern<S>) -> bool
    ensures { result ≡ begins_on_new_line (pattern_view S T.text pattern.now) }
{
    is_many_lined(texts, pattern) && !begins_with_dot(texts, pattern)
}
