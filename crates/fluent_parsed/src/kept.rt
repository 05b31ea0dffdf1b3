//! Where the elements of a pattern end: blank ones at its end are dropped, and its last text is
//! trimmed.
#![tactic(auto)]

ghost use Rattle.std.specs.Prelude.{◌≡◌, ◌≤◌, length, take};
ghost use Rattle.fluent_grammar.specs.Lines as l;
ghost use Rattle.fluent_ast.specs.View.{element_view};
ghost use Rattle.fluent_parsed.specs.Elements.{is_blank, kept_of, plain_elements, trimmed, last_trimmed};

use fluent_ast::PatternElement;
use fluent_text::Texts;

/// How many elements there are up to the last one that isn't blank.
pub fn kept_len<S: Drop, T: Texts<S>>(texts: &T, elements: &[PatternElement<S>]) -> usize
    ensures within { result ≤ length elements.now }
    ensures kept { take result (plain_elements S T.text elements.now)
        ≡ kept_of (plain_elements S T.text elements.now) }
{
    let mut kept = elements.len();
    while kept > 0 && is_blank(texts, &elements[kept - 1]) {
        kept -= 1;
    }
    kept
}

/// Whether an element is a text of only spaces and line feeds.
fn is_blank<S: Drop, T: Texts<S>>(texts: &T, element: &PatternElement<S>) -> bool
    ensures { result ≡ is_blank (element_view S T.text element.now) }
{
    match element {
        PatternElement::TextElement { value } => is_blank_text(texts.as_str(value).as_bytes()),
        PatternElement::Placeable { .. } => false,
    }
}

/// Whether a text holds only spaces and line feeds.
pub fn is_blank_text(text: &[u8]) -> bool
    ensures { result ≡ l.is_blank_text text.now }
{
    text.iter().all(|byte| matches!(*byte, b' ' | b'\n'))
}

/// Cuts white space at the end of the last element, if it is a text.
pub fn trim_last<S: Drop, T: Texts<S>>(texts: &T, elements: &mut [PatternElement<S>])
    ensures { plain_elements S T.text elements.new
        ≡ last_trimmed (plain_elements S T.text elements.old) }
{
    if let Some(last) = elements.last_mut() {
        trim(texts, last);
    }
}

/// Cuts white space at the end of an element, if it is a text.
fn trim<S: Drop, T: Texts<S>>(texts: &T, element: &mut PatternElement<S>)
    ensures { element_view S T.text element.new ≡ trimmed (element_view S T.text element.old) }
{
    if let PatternElement::TextElement { value } = element {
        texts.trim(value);
    }
}
