//! Writing patterns and expressions.
//!
//! The functions call each other, so they take the text type as a value under [`Texts`].

ghost use Rattle.std.specs.Prelude.{◌≡◌, ℕ, List, [], ◌∷◌};
ghost use Rattle.fluent_grammar.specs.Tree as tree;
ghost use Rattle.fluent_grammar.specs.Written as written;
ghost use Rattle.fluent_grammar.specs.Written.{elements_signs, expression_signs, pattern_signs, pattern_start, placeable_signs, variants_signs};
ghost use Rattle.fluent_ast.specs.View.{elements_view, expression_view, inline_view, pattern_view, variants_view};
ghost use Rattle.fluent_serializer.specs.Writing.{Writes};

use crate::inline::write_inline;
use crate::names::write_variant_head;
use crate::pieces::{deeper, write_new_line, write_piece};
use crate::shapes::begins_on_new_line;
use fluent_ast::{Expression, InlineExpression, Pattern, PatternElement, Variant};
use fluent_text::Texts;
use std::alloc::AllocError;

/// Writes a pattern at its level.
#[cycle(writing)]
pub(crate) fn write_pattern<S: Drop, T: Texts<S>>(
    out: &mut String,
    level: usize,
    texts: &T,
    pattern: &Pattern<S>,
) -> Result<(), AllocError>
    ensures { Writes result out.old out.new
        (pattern_signs level (pattern_view S T.text pattern.now)) }
{
    write_pattern_start(out, level, texts, pattern)?;
    write_elements(out, level, texts, &pattern.elements)
}

/// Writes what begins a pattern: a line of its own, or a space.
fn write_pattern_start<S: Drop, T: Texts<S>>(
    out: &mut String,
    level: usize,
    texts: &T,
    pattern: &Pattern<S>,
) -> Result<(), AllocError>
    ensures { Writes result out.old out.new
        (pattern_start level (pattern_view S T.text pattern.now) ∷ []) }
{
    if begins_on_new_line(texts, pattern) {
        write_new_line(out)
    } else {
        write_piece(out, level, " ")
    }
}

#[cycle(writing)]
fn write_elements<S: Drop, T: Texts<S>>(
    out: &mut String,
    level: usize,
    texts: &T,
    elements: &[PatternElement<S>],
) -> Result<(), AllocError>
    ensures { Writes result out.old out.new
        (elements_signs level (elements_view S T.text elements.now)) }
{
    for element in elements {
        match element {
            PatternElement::TextElement { value } => write_piece(out, level, texts.as_str(value))?,
            PatternElement::Placeable { expression } => {
                write_placeable(out, level, texts, expression)?
            }
        }
    }
    Ok(())
}

/// Writes a placeable of a pattern.
#[cycle(writing)]
fn write_placeable<S: Drop, T: Texts<S>>(
    out: &mut String,
    level: usize,
    texts: &T,
    expression: &Expression<S>,
) -> Result<(), AllocError>
    ensures { Writes result out.old out.new
        (placeable_signs level (expression_view S T.text expression.now)) }
{
    match expression {
        Expression::Select {
            selector: _,
            variants: _,
        } => {
            write_piece(out, level, "{ ")?;
            write_expression(out, level, texts, expression)?;
            write_piece(out, level, "}")
        }
        Expression::Inline(inline) => write_inline_placeable(out, level, texts, inline),
    }
}

/// Writes an inline expression in the braces of a pattern. A placeable directly in it shares them.
#[cycle(writing)]
fn write_inline_placeable<S: Drop, T: Texts<S>>(
    out: &mut String,
    level: usize,
    texts: &T,
    inline: &InlineExpression<S>,
) -> Result<(), AllocError>
    ensures { Writes result out.old out.new
        (placeable_signs level (tree.inline (inline_view S T.text inline.now))) }
{
    match inline {
        InlineExpression::Placeable { expression } => {
            write_piece(out, level, "{{ ")?;
            write_expression(out, level, texts, expression)?;
            write_piece(out, level, closing_nested(expression))
        }
        _ => {
            write_piece(out, level, "{ ")?;
            write_inline(out, level, texts, inline)?;
            write_piece(out, level, " }")
        }
    }
}

/// What closes two placeables that share their braces: a select has ended its line.
fn closing_nested<S>(expression: &Expression<S>) -> &'static str
    ensures { (text_of : S → List ℕ) → result.now
        ≡ written.closing_nested (expression_view S text_of expression.now) }
{
    match expression {
        Expression::Select {
            selector: _,
            variants: _,
        } => "}}",
        Expression::Inline(_) => " }}",
    }
}

/// Writes an expression between its braces. A select goes up to the line feed before the closing
/// brace.
#[cycle(writing)]
pub(crate) fn write_expression<S: Drop, T: Texts<S>>(
    out: &mut String,
    level: usize,
    texts: &T,
    expression: &Expression<S>,
) -> Result<(), AllocError>
    ensures { Writes result out.old out.new
        (expression_signs level (expression_view S T.text expression.now)) }
{
    match expression {
        Expression::Select { selector, variants } => {
            write_inline(out, level, texts, selector)?;
            write_piece(out, level, " ->")?;
            write_variants(out, level, texts, variants)?;
            write_new_line(out)
        }
        Expression::Inline(inline) => write_inline(out, level, texts, inline),
    }
}

/// Writes the variants of a select at this level.
#[cycle(writing)]
fn write_variants<S: Drop, T: Texts<S>>(
    out: &mut String,
    level: usize,
    texts: &T,
    variants: &[Variant<S>],
) -> Result<(), AllocError>
    ensures { Writes result out.old out.new
        (variants_signs level (variants_view S T.text variants.now)) }
{
    for variant in variants {
        write_variant_head(out, level, texts, &variant.key, variant.default)?;
        write_pattern(out, deeper(level, 2)?, texts, &variant.value)?;
    }
    Ok(())
}
