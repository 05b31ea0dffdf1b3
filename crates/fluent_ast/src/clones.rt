//! `try_clone` of each type of the tree: the same node, each text copied by [`Slice::try_clone`].

ghost use Rattle.std.specs.Prelude.{◌≡◌, IfOk, option_map};
ghost use Rattle.fluent_ast.specs.Copy.{GivesCopy};
ghost use Rattle.fluent_ast.specs.View.{pattern_view, element_view, expression_view, inline_view, variant_view, arguments_view, named_view, key_of, name_of, comment_view, attribute_view, attributes_view, message_view, term_view, entry_view, resource_view};

use crate::copies::{
    clone_arguments, clone_element, clone_expression, clone_identifier, clone_inline, clone_key,
    clone_named, clone_pattern, clone_variant,
};
use crate::{
    Attribute, CallArguments, Comment, Entry, Expression, Identifier, InlineExpression, Message,
    NamedArgument, Pattern, PatternElement, Resource, Term, Variant, VariantKey,
};
use fluent_text::{Slice, Slices};
use std::alloc::{AllocError, Global};

impl<'s, S: Slice<'s>> Identifier<S> {
    /// The same name.
    ///
    /// # Errors
    /// [`AllocError`] if memory runs out; nothing is kept.
    pub fn try_clone(&self, alloc: Global) -> Result<Self, AllocError>
        ensures { GivesCopy (name_of S S.text) self.now result }
    {
        clone_identifier(&Slices::new(), alloc, self)
    }
}

impl<'s, S: Slice<'s>> VariantKey<S> {
    /// The same key.
    ///
    /// # Errors
    /// [`AllocError`] if memory runs out; nothing is kept.
    pub fn try_clone(&self, alloc: Global) -> Result<Self, AllocError>
        ensures { GivesCopy (key_of S S.text) self.now result }
    {
        clone_key(&Slices::new(), alloc, self)
    }
}

impl<'s, S: Slice<'s>> Pattern<S> {
    /// The same pattern.
    ///
    /// # Errors
    /// [`AllocError`] if memory runs out; nothing is kept.
    pub fn try_clone(&self, alloc: Global) -> Result<Self, AllocError>
        ensures { GivesCopy (pattern_view S S.text) self.now result }
    {
        clone_pattern(&Slices::new(), alloc, self)
    }
}

impl<'s, S: Slice<'s>> PatternElement<S> {
    /// The same element.
    ///
    /// # Errors
    /// [`AllocError`] if memory runs out; nothing is kept.
    pub fn try_clone(&self, alloc: Global) -> Result<Self, AllocError>
        ensures { GivesCopy (element_view S S.text) self.now result }
    {
        clone_element(&Slices::new(), alloc, self)
    }
}

impl<'s, S: Slice<'s>> Expression<S> {
    /// The same expression.
    ///
    /// # Errors
    /// [`AllocError`] if memory runs out; nothing is kept.
    pub fn try_clone(&self, alloc: Global) -> Result<Self, AllocError>
        ensures { GivesCopy (expression_view S S.text) self.now result }
    {
        clone_expression(&Slices::new(), alloc, self)
    }
}

impl<'s, S: Slice<'s>> InlineExpression<S> {
    /// The same expression.
    ///
    /// # Errors
    /// [`AllocError`] if memory runs out; nothing is kept.
    pub fn try_clone(&self, alloc: Global) -> Result<Self, AllocError>
        ensures { GivesCopy (inline_view S S.text) self.now result }
    {
        clone_inline(&Slices::new(), alloc, self)
    }
}

impl<'s, S: Slice<'s>> Variant<S> {
    /// The same variant.
    ///
    /// # Errors
    /// [`AllocError`] if memory runs out; nothing is kept.
    pub fn try_clone(&self, alloc: Global) -> Result<Self, AllocError>
        ensures { GivesCopy (variant_view S S.text) self.now result }
    {
        clone_variant(&Slices::new(), alloc, self)
    }
}

impl<'s, S: Slice<'s>> CallArguments<S> {
    /// The same arguments.
    ///
    /// # Errors
    /// [`AllocError`] if memory runs out; nothing is kept.
    pub fn try_clone(&self, alloc: Global) -> Result<Self, AllocError>
        ensures { GivesCopy (arguments_view S S.text) self.now result }
    {
        clone_arguments(&Slices::new(), alloc, self)
    }
}

impl<'s, S: Slice<'s>> NamedArgument<S> {
    /// The same argument.
    ///
    /// # Errors
    /// [`AllocError`] if memory runs out; nothing is kept.
    pub fn try_clone(&self, alloc: Global) -> Result<Self, AllocError>
        ensures { GivesCopy (named_view S S.text) self.now result }
    {
        clone_named(&Slices::new(), alloc, self)
    }
}

impl<'s, S: Slice<'s>> Comment<S> {
    /// The same comment.
    ///
    /// # Errors
    /// [`AllocError`] if memory runs out; nothing is kept.
    pub fn try_clone(&self, alloc: Global) -> Result<Self, AllocError>
        ensures { GivesCopy (comment_view S S.text) self.now result }
    {
        let mut content = Vec::new(alloc);
        for line in &self.content {
            let copy = line.try_clone(alloc)?;
            content.push(copy)?;
        }
        Ok(Comment { content })
    }
}

impl<'s, S: Slice<'s>> Attribute<S> {
    /// The same attribute.
    ///
    /// # Errors
    /// [`AllocError`] if memory runs out; nothing is kept.
    pub fn try_clone(&self, alloc: Global) -> Result<Self, AllocError>
        ensures { GivesCopy (attribute_view S S.text) self.now result }
    {
        let id = self.id.try_clone(alloc)?;
        let value = self.value.try_clone(alloc)?;
        Ok(Attribute { id, value })
    }
}

fn clone_attributes<'s, S: Slice<'s>>(
    alloc: Global,
    attributes: &[Attribute<S>],
) -> Result<Vec<Attribute<S>>, AllocError>
    ensures { IfOk result (λ copies. attributes_view S S.text copies.items
        ≡ attributes_view S S.text attributes.now) }
{
    let mut copies = Vec::new(alloc);
    for attribute in attributes {
        copies.push(attribute.try_clone(alloc)?)?;
    }
    Ok(copies)
}

fn clone_comment<'s, S: Slice<'s>>(
    alloc: Global,
    comment: &Option<Comment<S>>,
) -> Result<Option<Comment<S>>, AllocError>
    ensures { GivesCopy (option_map (comment_view S S.text)) comment.now result }
{
    match comment {
        Some(comment) => Ok(Some(comment.try_clone(alloc)?)),
        None => Ok(None),
    }
}

fn clone_value<'s, S: Slice<'s>>(
    alloc: Global,
    value: &Option<Pattern<S>>,
) -> Result<Option<Pattern<S>>, AllocError>
    ensures { GivesCopy (option_map (pattern_view S S.text)) value.now result }
{
    match value {
        Some(value) => Ok(Some(value.try_clone(alloc)?)),
        None => Ok(None),
    }
}

impl<'s, S: Slice<'s>> Message<S> {
    /// The same message.
    ///
    /// # Errors
    /// [`AllocError`] if memory runs out; nothing is kept.
    pub fn try_clone(&self, alloc: Global) -> Result<Self, AllocError>
        ensures { GivesCopy (message_view S S.text) self.now result }
    {
        Ok(Message {
            id: self.id.try_clone(alloc)?,
            value: clone_value(alloc, &self.value)?,
            attributes: clone_attributes(alloc, &self.attributes)?,
            comment: clone_comment(alloc, &self.comment)?,
        })
    }
}

impl<'s, S: Slice<'s>> Term<S> {
    /// The same term.
    ///
    /// # Errors
    /// [`AllocError`] if memory runs out; nothing is kept.
    pub fn try_clone(&self, alloc: Global) -> Result<Self, AllocError>
        ensures { GivesCopy (term_view S S.text) self.now result }
    {
        Ok(Term {
            id: self.id.try_clone(alloc)?,
            value: self.value.try_clone(alloc)?,
            attributes: clone_attributes(alloc, &self.attributes)?,
            comment: clone_comment(alloc, &self.comment)?,
        })
    }
}

impl<'s, S: Slice<'s>> Entry<S> {
    /// The same entry.
    ///
    /// # Errors
    /// [`AllocError`] if memory runs out; nothing is kept.
    pub fn try_clone(&self, alloc: Global) -> Result<Self, AllocError>
        ensures { GivesCopy (entry_view S S.text) self.now result }
    {
        match self {
            Entry::Message(message) => Ok(Entry::Message(message.try_clone(alloc)?)),
            Entry::Term(term) => Ok(Entry::Term(term.try_clone(alloc)?)),
            Entry::Comment(comment) => Ok(Entry::Comment(comment.try_clone(alloc)?)),
            Entry::GroupComment(comment) => Ok(Entry::GroupComment(comment.try_clone(alloc)?)),
            Entry::ResourceComment(comment) => {
                Ok(Entry::ResourceComment(comment.try_clone(alloc)?))
            }
            Entry::Junk { content } => Ok(Entry::Junk {
                content: content.try_clone(alloc)?,
            }),
        }
    }
}

impl<'s, S: Slice<'s>> Resource<S> {
    /// The same tree.
    ///
    /// # Errors
    /// [`AllocError`] if memory runs out; nothing is kept.
    pub fn try_clone(&self, alloc: Global) -> Result<Self, AllocError>
        ensures { GivesCopy (resource_view S S.text) self.now result }
    {
        let mut body = Vec::new(alloc);
        for entry in &self.body {
            body.push(entry.try_clone(alloc)?)?;
        }
        Ok(Resource { body })
    }
}
