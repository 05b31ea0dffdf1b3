//! Calls of `fluent_syntax`.

ghost use Rattle.std.specs.Prelude.{◌≡◌, IfOk, string_bytes};
ghost use Rattle.fluent_syntax.specs.ForCallers.{entries_of, tree, written};
ghost use Rattle.example_callers.specs.Welcome.{welcome};

use fluent_syntax::ast::Resource;
use fluent_syntax::parser::{Error, parse};
use fluent_syntax::serializer::serialize;
use std::alloc::{AllocError, Global};

/// The tree of a source that is written out, which has no errors.
///
/// # Errors
/// [`AllocError`] if memory runs out; nothing is kept.
pub fn welcome_tree(alloc: Global) -> Result<Resource<&'static str>, AllocError>
    ensures { IfOk result (λ read. entries_of read ≡ welcome) }
{
    match parse(alloc, "welcome = Welcome, { $name }.\n") {
        Ok(read) => Ok(read),
        Err(Error::Broken(_, _)) => unreachable!(),
        Err(Error::Memory) => Err(AllocError),
    }
}

/// A source as the serializer writes it, without what can't be read.
///
/// # Errors
/// [`AllocError`] if memory runs out; nothing is kept.
pub fn rewritten(alloc: Global, source: &str) -> Result<String, AllocError>
    ensures { IfOk result (λ text. string_bytes text ≡ written (tree source.now)) }
{
    match parse(alloc, source) {
        Ok(read) => serialize(alloc, &read),
        Err(Error::Broken(read, _)) => serialize(alloc, &read),
        Err(Error::Memory) => Err(AllocError),
    }
}
