//! The walk through a source and its tree.
#![tactic(auto)]

ghost use Rattle.std.specs.Prelude.{IfOk};
ghost use Rattle.fluent_ast.specs.Borrowed.{entry_of};
ghost use Rattle.lint_entries.specs.Walks.{IsNext, Passes, SkipsJunk, StartsAt};

use crate::rest::{message_rest, term_rest};
use crate::start::next_start;
use crate::tile::Tile;
use fluent_ast::Entry;
use fluent_parsed::ParserError;
use lint_nodes::skip;
use std::alloc::{AllocError, Global};
use std::slice;

/// How far a walk through a source has come.
#[derive(Drop)]
pub struct Walk<'s, 'e> {
    source: &'s str,
    /// The rest of the source.
    rest: &'s [u8],
    /// The errors of the junk that is left.
    errors: slice::Iter<'e, ParserError>,
}

impl<'s, 'e> Walk<'s, 'e> {
    /// A walk at the start of a source with these errors.
    pub fn new(source: &'s str, errors: &'e [ParserError]) -> Self
        ensures { StartsAt result source.now errors.now }
    {
        Walk {
            source,
            rest: source.as_bytes(),
            errors: errors.iter(),
        }
    }

    /// Passes over the next entry of the tree. Returns its tile, unless it is a comment.
    ///
    /// # Errors
    /// [`AllocError`] if memory runs out; the walk is of no use then.
    pub fn next<'r>(
        &mut self,
        alloc: Global,
        entry: &'r Entry<&'s str>,
    ) -> Result<Option<Tile<'r, 's>>, AllocError>
        requires { IsNext self.old (entry_of entry.now) }
        ensures { IfOk result (Passes self.old self.new (entry_of entry.now)) }
    {
        match entry {
            Entry::Message(message) => {
                let text = next_start(self.rest);
                self.rest = message_rest(alloc, message, text)?;
                Ok(Some(Tile::Entry(entry, text)))
            }
            Entry::Term(term) => {
                let text = next_start(self.rest);
                self.rest = term_rest(alloc, term, text)?;
                Ok(Some(Tile::Entry(entry, text)))
            }
            Entry::Junk { .. } => {
                self.skip_junk();
                Ok(Some(Tile::Junk))
            }
            _ => Ok(None),
        }
    }

    /// Passes over the next junk.
    fn skip_junk(&mut self)
        ensures { SkipsJunk self.old self.new }
    {
        if let Some(error) = self.errors.next() {
            if let Some(junk) = &error.slice {
                self.rest = skip(self.source.as_bytes(), junk.end);
            }
        }
    }
}
