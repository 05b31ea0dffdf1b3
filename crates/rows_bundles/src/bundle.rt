//! The bundles that are tried.

ghost use Rattle.fluent_value.specs.Value.{none};

use fluent_bundle::{
    EnglishPlurals, FluentArgs, FluentBundle, FluentFunction, FluentResource, FluentValue,
    NoCustom, NoFormatter, NoTransform, ResourceError,
};
use std::alloc::{AllocError, Global};

/// A function of the program, which only has to be told from others. It gives nothing.
#[derive(Clone, Copy, Debug, PartialEq, Eq)]
pub enum Function {
    Older,
    Newer,
}

impl FluentFunction<NoCustom> for Function {
    ghost gives = { λ _ _ _. none };

    fn call<'a, 'n>(
        &self,
        _alloc: Global,
        _positional: &[FluentValue<'a, NoCustom>],
        _named: &FluentArgs<'n, NoCustom>,
    ) -> Result<FluentValue<'a, NoCustom>, AllocError> {
        Ok(FluentValue::None)
    }
}

pub type Bundle<'r, 's> = FluentBundle<
    'r,
    's,
    EnglishPlurals,
    NoCustom,
    Function,
    NoFormatter,
    NoTransform,
>;

/// A resource, also where parts of its source are no entries. Where memory is refused, it is read
/// once more.
pub fn read(alloc: Global, source: &'static str) -> Option<FluentResource<'static>> {
    match FluentResource::try_new(alloc, source) {
        Err(ResourceError::Memory) => whole_or_broken(FluentResource::try_new(alloc, source)),
        read => whole_or_broken(read),
    }
}

fn whole_or_broken(
    read: Result<FluentResource<'static>, ResourceError<'static>>,
) -> Option<FluentResource<'static>> {
    match read {
        Ok(resource) => Some(resource),
        Err(ResourceError::Broken(resource, _)) => Some(resource),
        Err(ResourceError::Memory) => None,
    }
}
