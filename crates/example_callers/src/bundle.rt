//! Calls of `fluent_bundle`.

ghost use Rattle.std.specs.Cow.{cow_str_bytes};
ghost use Rattle.std.specs.Prelude.{◌≡◌, IfOk};
ghost use Rattle.fluent_resource.specs.ResourceView.{entries_view};
ghost use Rattle.example_callers.specs.Welcome.{greeting_text, welcome};

use fluent_bundle::{AddResourceError, EnglishBundle, FluentArgs, FluentResource, ResourceError};
use std::alloc::{AllocError, Global};
use std::borrow::CowStr;

/// The greeting of a user, with the name between the marks U+2068 and U+2069.
///
/// # Errors
/// [`AllocError`] if memory runs out; nothing is kept.
pub fn greeting(alloc: Global, name: &str) -> Result<CowStr<'static>, AllocError>
    ensures { IfOk result (λ text. cow_str_bytes text ≡ greeting_text name.now) }
{
    let resource = welcome_resource(alloc)?;
    let mut bundle = EnglishBundle::english(alloc);
    match bundle.add_resource(&resource) {
        Ok(()) => {}
        Err(AddResourceError::Overriding(_)) => unreachable!(),
        Err(AddResourceError::Memory) => return Err(AllocError),
    }
    let Some(message) = bundle.get_message("welcome") else {
        unreachable!()
    };
    let Some(pattern) = message.value() else {
        unreachable!()
    };
    let mut args = FluentArgs::new(alloc);
    args.set("name", name)?;
    bundle.format_pattern(pattern, Some(&args), &mut Vec::new(alloc))
}

/// The source of the greeting, read.
fn welcome_resource(alloc: Global) -> Result<FluentResource<'static>, AllocError>
    ensures { IfOk result (λ read. entries_view read ≡ welcome) }
{
    match FluentResource::try_new(alloc, "welcome = Welcome, { $name }.\n") {
        Ok(resource) => Ok(resource),
        Err(ResourceError::Broken(_, _)) => unreachable!(),
        Err(ResourceError::Memory) => Err(AllocError),
    }
}
