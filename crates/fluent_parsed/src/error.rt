//! What reading a source answers.

ghost use Rattle.std.specs.Prelude.{Some};
ghost use Rattle.fluent_parsed.specs.ErrorText.{error_text};

use crate::ParserError;
use fluent_ast::Resource;
use std::fmt;

/// Why a source isn't read whole.
///
/// ```
/// match parse(alloc, source) {
///     Ok(resource) => Ok(resource),
///     Err(Error::Broken(resource, _)) => Ok(resource),
///     Err(Error::Memory) => bail!("out of memory"),
/// }
/// ```
#[derive(Debug, PartialEq, Eq, Drop)]
pub enum Error<S> {
    /// Parts of the source are no entries. The tree has them as junk, and each junk has one error,
    /// in the same order.
    Broken(Resource<S>, Vec<ParserError>),
    /// Memory ran out. Nothing of the tree is left.
    ///
    /// This also means that placeables, calls and selects are nested so deep that reading them
    /// would take more than the budget of the machine's stack.
    Memory,
}

/// The text of `docs/reference/errors.md`.
impl<S> fmt::Display for Error<S> {
    ghost output = { λ error. Some (error_text S error) };

    fn fmt<W: fmt::Write>(&self, f: &mut fmt::Formatter<W>) -> fmt::Result {
        f.write_str(match self {
            Error::Broken(_, _) => "the source has errors",
            Error::Memory => "out of memory",
        })
    }
}

impl<S: fmt::Debug + Drop> std::error::Error for Error<S> {}

/// What reading a source gives: its tree, or why it isn't read whole.
///
/// ```no_run
/// fn tree_of<'s>(read: parser::Result<&'s str>) -> Result<Resource<&'s str>, AllocError> {
///     match read {
///         Ok(resource) => Ok(resource),
///         Err(Error::Broken(resource, _)) => Ok(resource),
///         Err(Error::Memory) => Err(AllocError),
///     }
/// }
/// ```
pub type Result<S> = std::result::Result<Resource<S>, Error<S>>;
