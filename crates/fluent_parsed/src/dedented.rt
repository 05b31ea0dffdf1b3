//! The elements that were read so far, without the common indent.
#![tactic(auto)]

ghost use Rattle.std.specs.Prelude.{◌≡◌, ◌++◌, ◌∷◌, [], None, Some, IfOk, IfSome, OnOk, min};
ghost use Rattle.fluent_grammar.specs.Lines.{lesser};
ghost use Rattle.fluent_ast.specs.View.{pattern_view};
ghost use Rattle.fluent_parsed.specs.Elements.{plain_elements, dedented_value};

use crate::gathered::lesser;
use crate::kept::{kept_len, trim_last};
use crate::room::shrink_short;
use fluent_ast::{Pattern, PatternElement};
use fluent_text::Texts;
use std::alloc::{AllocError, Global};

/// The elements of a pattern that were read so far, whose common indent was told beforehand. A text
/// that begins a line has lost it already, so that no text is cut twice.
#[derive(Drop)]
pub struct DedentedElements<S> {
    pub elements: Vec<PatternElement<S>>,
    /// The common indent that was told, in bytes.
    pub told: usize,
    /// The least indent of the lines so far that aren't blank.
    pub common_indent: Option<usize>,
}

impl<S: Drop> DedentedElements<S> {
    /// None yet, with room for so many.
    ///
    /// # Errors
    /// [`AllocError`] if memory runs out.
    pub fn new(alloc: Global, room: usize, told: usize) -> Result<Self, AllocError>
        ensures elements { IfOk result (λ none. none.elements.items ≡ []) }
        ensures told { IfOk result (λ none. none.told ≡ told) }
        ensures common_indent { IfOk result (λ none. none.common_indent ≡ None) }
    {
        let elements = Vec::with_capacity(alloc, room)?;
        Ok(DedentedElements {
            elements,
            told,
            common_indent: None,
        })
    }

    /// How much of an indent is cut off.
    pub fn cut_len(&self, indent: usize) -> usize
        ensures { result ≡ min indent self.now.told }
    {
        indent.min(self.told)
    }

    /// Puts an element after the others. `indent` is what it says of the common indent.
    ///
    /// # Errors
    /// [`AllocError`] if memory runs out; the element is dropped.
    pub fn push(
        &mut self,
        element: PatternElement<S>,
        indent: Option<usize>,
    ) -> Result<(), AllocError>
        ensures elements { OnOk result (self.new.elements.items
            ≡ self.old.elements.items ++ element ∷ []) }
        ensures told { self.new.told ≡ self.old.told }
        ensures common_indent { self.new.common_indent ≡ lesser self.old.common_indent indent }
    {
        self.common_indent = lesser(self.common_indent, indent);
        self.elements.push(element)?;
        Ok(())
    }

    /// The pattern that the elements give, or none if nothing but blank was read, or if they share
    /// another indent than was told.
    pub fn finish<T: Texts<S>>(self, texts: &T) -> Option<Pattern<S>>
        ensures common_indent { IfSome result (λ p. self.common_indent ≡ Some self.told) }
        ensures value { IfSome result (λ p. Some (pattern_view S T.text p)
            ≡ dedented_value (plain_elements S T.text self.elements.items)) }
    {
        let DedentedElements {
            mut elements,
            told,
            common_indent,
        } = self;
        let found = common_indent?;
        let kept = kept_len(texts, elements.as_slice());
        if found != told || kept == 0 {
            return None;
        }
        elements.truncate(kept);
        trim_last(texts, &mut elements);
        shrink_short(&mut elements);
        Some(Pattern { elements })
    }
}
