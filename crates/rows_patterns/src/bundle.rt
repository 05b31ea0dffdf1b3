//! The bundles that rows are tried in.

use crate::own::{Brackets, Function, Token};
use fluent_ast::Pattern;
use fluent_bundle::{
    AddResourceError, EnglishPlurals, FluentBundle, FluentResource, NoCustom, NoFormatter,
    NoFunction, NoTransform, ResourceError,
};
use std::alloc::{AllocError, Global};

/// A bundle of English plurals, and of what the program brings.
pub type Bundle<'r, 's> = FluentBundle<'r, 's, EnglishPlurals, Token, Function, Brackets>;

/// A bundle of English plurals, of a program that brings nothing.
pub type Plain<'r, 's> = FluentBundle<
    'r,
    's,
    EnglishPlurals,
    NoCustom,
    NoFunction,
    NoFormatter,
    NoTransform,
>;

/// A resource, also where parts of its source are no entries. The only error is that memory runs
/// out.
pub fn read(alloc: Global, source: &str) -> Result<FluentResource<'_>, AllocError> {
    match FluentResource::try_new(alloc, source) {
        Ok(resource) => Ok(resource),
        Err(ResourceError::Broken(resource, _)) => Ok(resource),
        Err(ResourceError::Memory) => Err(AllocError),
    }
}

/// Whether the entries of a resource were added, if not all of them.
pub fn is_added(added: Result<(), AddResourceError>) -> bool {
    !matches!(added, Err(AddResourceError::Memory))
}

/// The value of a message, or of the attribute whose name stands after a point.
pub fn pattern_in<'r, 's>(bundle: &Bundle<'r, 's>, id: &str) -> Option<&'r Pattern<&'s str>> {
    match id.split_once('.') {
        Some((id, name)) => {
            let attribute = bundle.get_message(id)?.get_attribute(name)?;
            Some(attribute.value())
        }
        None => bundle.get_message(id)?.value(),
    }
}
