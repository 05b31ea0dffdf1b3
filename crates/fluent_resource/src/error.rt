//! Why a source isn't read whole.

ghost use Rattle.std.specs.Prelude.{Some, codes};
ghost use Rattle.fluent_resource.specs.Reading.{error_text};

use crate::resource::FluentResource;
use fluent_parser::ParserError;
use std::fmt;

/// Why a source isn't read whole.
///
/// ```
/// let resource = match FluentResource::try_new(alloc, source) {
///     Ok(resource) => resource,
///     Err(ResourceError::Broken(resource, errors)) => {
///         for error in errors.iter() {
///             println!(rt; "{error} at byte {}", error.pos.start)?; // ExpectedToken at byte 20
///         }
///         resource
///     }
///     Err(ResourceError::Memory) => bail!("out of memory"),
/// };
/// ```
#[derive(Debug, Drop)]
pub enum ResourceError<'s> {
    /// Some of the source is junk. The resource has its messages and terms, and the junk; the
    /// errors are those of the junk, in the same order.
    Broken(FluentResource<'s>, Vec<ParserError>),
    /// Memory ran out, or placeables, calls and selects are nested so deep that reading them would
    /// take more than the budget of the machine's stack.
    Memory,
}

impl<'s> fmt::Display for ResourceError<'s> {
    ghost output = { λ error. Some (error_text error) };

    fn fmt<W: fmt::Write>(&self, f: &mut fmt::Formatter<W>) -> fmt::Result {
        f.write_str(match self {
            ResourceError::Broken(_, _) => "some of the source is junk",
            ResourceError::Memory => "out of memory",
        })
    }
}

impl std::error::Error for ResourceError<'_> {}
