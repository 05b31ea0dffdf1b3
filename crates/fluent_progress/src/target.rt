//! The patterns that references mean.

ghost use Rattle.std.specs.Prelude.{◌≡◌, IfOk, option_map, string_bytes};
ghost use Rattle.fluent_ast.specs.Borrowed.{attributes_of, name_of};
ghost use Rattle.fluent_errors.specs.Errors as e;
ghost use Rattle.fluent_errors.specs.View.{reference_view};
ghost use Rattle.fluent_meaning.specs.Ids as ids;
ghost use Rattle.fluent_progress.specs.Results.{found_elements, message_meant, term_meant};
ghost use Rattle.fluent_progress.specs.Views.{target_view};

use crate::context::Context;
use crate::place::Surroundings;
use fluent_ast::{Attribute, Identifier, Pattern};
use fluent_errors::ReferenceKind;
use fluent_ids::Entry;
use fluent_value::FluentType;
use std::alloc::{AllocError, Global};

/// The pattern that a reference means, or why there is none.
#[derive(Drop)]
pub enum Target<'r, 's> {
    There(&'r Pattern<&'s str>),
    /// The message, the term or the attribute is unknown.
    Unknown(ReferenceKind),
    /// The message of this id has no value.
    NoValue(String),
}

/// The value of the first attribute of a name.
fn attribute_named<'r, 's>(
    attributes: &'r [Attribute<&'s str>],
    name: &str,
) -> Option<&'r Pattern<&'s str>>
    ensures { found_elements result
        ≡ ids.attribute_named name.now (attributes_of attributes.now) }
{
    for attribute in attributes {
        if attribute.id.name == name {
            return Some(&attribute.value);
        }
    }
    None
}

/// A copy of a name, if there is one.
fn copied(alloc: Global, name: &Option<Identifier<&str>>) -> Result<Option<String>, AllocError>
    ensures { IfOk result (λ copy. option_map string_bytes copy ≡ option_map name_of name.now) }
{
    match name {
        Some(name) => Ok(Some(String::from_str(alloc, name.name)?)),
        None => Ok(None),
    }
}

/// That a message or its attribute is unknown.
fn unknown_message(
    alloc: Global,
    id: &Identifier<&str>,
    attribute: &Option<Identifier<&str>>,
) -> Result<ReferenceKind, AllocError>
    ensures { IfOk result (λ kind. reference_view kind
        ≡ e.to_message (name_of id.now) (option_map name_of attribute.now)) }
{
    let attribute = copied(alloc, attribute)?;
    Ok(ReferenceKind::Message {
        id: String::from_str(alloc, id.name)?,
        attribute,
    })
}

/// That a term or its attribute is unknown.
fn unknown_term(
    alloc: Global,
    id: &Identifier<&str>,
    attribute: &Option<Identifier<&str>>,
) -> Result<ReferenceKind, AllocError>
    ensures { IfOk result (λ kind. reference_view kind
        ≡ e.to_term (name_of id.now) (option_map name_of attribute.now)) }
{
    let attribute = copied(alloc, attribute)?;
    Ok(ReferenceKind::Term {
        id: String::from_str(alloc, id.name)?,
        attribute,
    })
}

impl<'b, 'r, 's, 'a, C: FluentType, F, E: Context<C, F>> Surroundings<'b, 'r, 's, 'a, C, F, E> {
    /// What a message reference means.
    ///
    /// # Errors
    /// [`AllocError`] if memory runs out; nothing is kept.
    pub fn message_target(
        &self,
        id: &Identifier<&str>,
        attribute: &Option<Identifier<&str>>,
    ) -> Result<Target<'r, 's>, AllocError>
        ensures { IfOk result (λ target. target_view target
            ≡ message_meant self.now id.now attribute.now) }
    {
        let alloc = self.context.alloc();
        let found = match (self.ids.get(id.name), attribute) {
            (Some(Entry::Message((_, message))), None) => match &message.value {
                Some(value) => Some(value),
                None => return Ok(Target::NoValue(String::from_str(alloc, id.name)?)),
            },
            (Some(Entry::Message((_, message))), Some(name)) => {
                attribute_named(&message.attributes, name.name)
            }
            _ => None,
        };
        match found {
            Some(pattern) => Ok(Target::There(pattern)),
            None => Ok(Target::Unknown(unknown_message(alloc, id, attribute)?)),
        }
    }

    /// What a term reference means.
    ///
    /// # Errors
    /// [`AllocError`] if memory runs out; nothing is kept.
    pub fn term_target(
        &self,
        id: &Identifier<&str>,
        attribute: &Option<Identifier<&str>>,
    ) -> Result<Target<'r, 's>, AllocError>
        ensures { IfOk result (λ target. target_view target
            ≡ term_meant self.now id.now attribute.now) }
    {
        let alloc = self.context.alloc();
        let found = match (self.ids.get(id.name), attribute) {
            (Some(Entry::Term((_, term))), None) => Some(&term.value),
            (Some(Entry::Term((_, term))), Some(name)) => {
                attribute_named(&term.attributes, name.name)
            }
            _ => None,
        };
        match found {
            Some(pattern) => Ok(Target::There(pattern)),
            None => Ok(Target::Unknown(unknown_term(alloc, id, attribute)?)),
        }
    }
}
