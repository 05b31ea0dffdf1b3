//! Why a resource or a function isn't added whole.

ghost use Rattle.std.specs.Prelude.{◌≡◌, Some};
ghost use Rattle.fluent_ids.specs.ErrorTexts.{add_resource_text, add_function_text};
ghost use Rattle.fluent_ids.specs.declared.error.AddFunctionError.TheVariants as function;
ghost use Rattle.fluent_ids.specs.declared.error.AddResourceError.TheVariants as resource;

use fluent_errors::FluentError;
use std::alloc::AllocError;
use std::fmt;

/// Why not all entries of a resource were added.
///
/// ```
/// match bundle.add_resource(&resource) {
///     Ok(()) => {}
///     Err(AddResourceError::Overriding(notices)) => {
///         for notice in notices.iter() {
///             println!(rt; "{notice}")?; // Attempt to override an existing message: "pay".
///         }
///     }
///     Err(AddResourceError::Memory) => bail!("out of memory"),
/// }
/// ```
#[derive(Debug, PartialEq, Eq, Drop)]
pub enum AddResourceError {
    /// These entries were left out, since their ids stand for another entry already. All others
    /// were added.
    Overriding(Vec<FluentError>),
    /// Memory ran out. Nothing was added.
    Memory,
}

/// Why a function wasn't added. Nothing was changed then.
///
/// ```no_run
/// match bundle.add_builtins() {
///     Ok(()) => {}
///     Err(AddFunctionError::Overriding(notice)) => bail!("{notice}"),
///     Err(AddFunctionError::Memory) => bail!("out of memory"),
/// }
/// ```
#[derive(Debug, PartialEq, Eq, Drop)]
pub enum AddFunctionError {
    /// The id stands for another entry already.
    Overriding(FluentError),
    /// Memory ran out.
    Memory,
}

impl From<AllocError> for AddResourceError {
    ghost from_gives = { λ _ made. made ≡ resource.Memory };

    fn from(_: AllocError) -> Self {
        AddResourceError::Memory
    }
}

impl From<AllocError> for AddFunctionError {
    ghost from_gives = { λ _ made. made ≡ function.Memory };

    fn from(_: AllocError) -> Self {
        AddFunctionError::Memory
    }
}

impl fmt::Display for AddResourceError {
    ghost output = { λ error. Some (add_resource_text error) };

    fn fmt<W: fmt::Write>(&self, f: &mut fmt::Formatter<W>) -> fmt::Result {
        f.write_str(match self {
            AddResourceError::Overriding(_) => "entries would override others",
            AddResourceError::Memory => "out of memory",
        })
    }
}

impl fmt::Display for AddFunctionError {
    ghost output = { λ error. Some (add_function_text error) };

    fn fmt<W: fmt::Write>(&self, f: &mut fmt::Formatter<W>) -> fmt::Result {
        f.write_str(match self {
            AddFunctionError::Overriding(_) => "the function would override another entry",
            AddFunctionError::Memory => "out of memory",
        })
    }
}

impl std::error::Error for AddResourceError {}

impl std::error::Error for AddFunctionError {}
