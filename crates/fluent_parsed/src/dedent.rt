//! Elements without the common indent.
#![tactic(auto, using(fluent_tokens::proofs::Counted::cuts))]

ghost use Rattle.std.specs.Prelude.{◌≡◌, IfOk, OnOk};
ghost use Rattle.fluent_ast.specs.View.{element_view};
ghost use Rattle.fluent_parsed.specs.Elements.{AreDedented, IsDedented, cut_len, line_behind};

use fluent_ast::PatternElement;
use fluent_text::Texts;
use fluent_tokens as words;
use std::alloc::{AllocError, Global};

/// Takes the common indent off all texts that begin lines. `begins_line` says whether the first
/// element does.
///
/// # Errors
/// [`AllocError`] if memory runs out; some of the texts may have lost their indent.
pub fn dedent_all<S: Drop, T: Texts<S>>(
    alloc: Global,
    texts: &T,
    elements: &mut [PatternElement<S>],
    begins_line: bool,
    common_indent: Option<usize>,
) -> Result<(), AllocError>
    ensures { OnOk result (AreDedented S T.text begins_line common_indent
        elements.old elements.new) }
{
    let mut line = begins_line;
    for element in elements.iter_mut() {
        line = dedent(alloc, texts, element, line, common_indent)?;
    }
    Ok(())
}

/// Takes its part of the common indent off a text that begins a line, and says whether a line
/// begins after the element.
fn dedent<S: Drop, T: Texts<S>>(
    alloc: Global,
    texts: &T,
    element: &mut PatternElement<S>,
    begins_line: bool,
    common_indent: Option<usize>,
) -> Result<bool, AllocError>
    ensures line { IfOk result (λ line. line ≡ line_behind (element_view S T.text element.old)) }
    ensures element { OnOk result (IsDedented S T.text begins_line common_indent
        element.old element.new) }
{
    let PatternElement::TextElement { value } = element else {
        return Ok(false);
    };
    let text = texts.as_str(value);
    let ends_line = words::ends_line(text.as_bytes());
    if begins_line {
        let indent = words::blank_inline_len(text.as_bytes());
        let end = text.len();
        let cut = cut_len(common_indent, indent);
        if cut > 0 {
            let kept = texts.slice(value, alloc, cut..end)?;
            *value = kept;
        }
    }
    Ok(ends_line)
}

/// How much of an indent is cut off.
fn cut_len(common_indent: Option<usize>, indent: usize) -> usize
    ensures { result ≡ cut_len common_indent indent }
{
    match common_indent {
        None => indent,
        Some(common) => indent.min(common),
    }
}
