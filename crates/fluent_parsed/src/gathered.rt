//! The elements that were read so far.
#![tactic(auto)]

ghost use Rattle.std.specs.Prelude.{◌≡◌, ◌++◌, ◌∷◌, [], None, IfOk, OnOk, option_map};
ghost use Rattle.fluent_grammar.specs.Lines.{lesser};
ghost use Rattle.fluent_ast.specs.View.{pattern_view};
ghost use Rattle.fluent_parsed.specs.Elements.{gathered_value};

use crate::dedent::dedent_all;
use crate::kept::{kept_len, trim_last};
use crate::room::{push_tight, shrink_short};
use fluent_ast::{Pattern, PatternElement};
use fluent_text::Texts;
use std::alloc::{AllocError, Global};

/// How many elements most patterns of more than one have: a text, a placeable and a text.
const TYPICAL: usize = 3;

/// The elements of a pattern that were read so far. A text that begins a line still has its indent.
#[derive(Drop)]
pub struct IndentedElements<S> {
    pub elements: Vec<PatternElement<S>>,
    /// Whether the first element begins a line.
    pub begins_line: bool,
    /// The least indent of the lines so far that aren't blank, in bytes.
    pub common_indent: Option<usize>,
}

impl<S: Drop> IndentedElements<S> {
    /// None yet. `begins_line` says whether the first one will begin a line.
    pub fn new(alloc: Global, begins_line: bool) -> Self
        ensures elements { result.elements.items ≡ [] }
        ensures begins_line { result.begins_line ≡ begins_line }
        ensures common_indent { result.common_indent ≡ None }
    {
        IndentedElements {
            elements: Vec::new(alloc),
            begins_line,
            common_indent: None,
        }
    }

    /// Puts an element after the others. `indent` is what it says of the common indent.
    ///
    /// # Errors
    /// [`AllocError`] if memory runs out; the element is dropped.
    #[inline(always)]
    pub fn push(
        &mut self,
        element: PatternElement<S>,
        indent: Option<usize>,
    ) -> Result<(), AllocError>
        ensures elements { OnOk result (self.new.elements.items
            ≡ self.old.elements.items ++ element ∷ []) }
        ensures begins_line { self.new.begins_line ≡ self.old.begins_line }
        ensures common_indent { self.new.common_indent ≡ lesser self.old.common_indent indent }
    {
        self.common_indent = lesser(self.common_indent, indent);
        push_tight(&mut self.elements, element, TYPICAL)
    }

    /// The pattern that the elements give, or none if nothing but blank was read.
    ///
    /// # Errors
    /// [`AllocError`] if memory runs out; the elements are dropped.
    pub fn finish<T: Texts<S>>(
        self,
        alloc: Global,
        texts: &T,
    ) -> Result<Option<Pattern<S>>, AllocError>
        ensures { IfOk result (λ p. option_map (pattern_view S T.text) p
            ≡ gathered_value S T.text self) }
    {
        let IndentedElements {
            mut elements,
            begins_line,
            common_indent,
        } = self;
        let kept = kept_len(texts, elements.as_slice());
        if kept == 0 {
            return Ok(None);
        }
        elements.truncate(kept);
        dedent_all(alloc, texts, &mut elements, begins_line, common_indent)?;
        trim_last(texts, &mut elements);
        shrink_short(&mut elements);
        Ok(Some(Pattern { elements }))
    }
}

/// The smaller of two indents, if they are there.
pub(crate) fn lesser(a: Option<usize>, b: Option<usize>) -> Option<usize>
    ensures { result ≡ lesser a b }
{
    match (a, b) {
        (None, b) => b,
        (Some(a), None) => Some(a),
        (Some(a), Some(b)) => Some(a.min(b)),
    }
}
