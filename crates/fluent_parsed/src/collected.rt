//! What the parts of a source make: its tree and its errors.
#![tactic(auto)]

ghost use Rattle.std.specs.Prelude.{◌≡◌, ◌<◌, ◌++◌, ◌∷◌, [], ℕ, List, None, IfOk, OnOk, vec_len, vec_capacity};
ghost use Rattle.fluent_grammar.specs.Tree.{junk};
ghost use Rattle.fluent_grammar.specs.Tiling.{waiting, left_alone};
ghost use Rattle.fluent_ast.specs.declared.Entry.TheVariants as entry;
ghost use Rattle.fluent_parsed.specs.Collected.{Appends, HasErrors, HasNoEntries, HasNoErrors, HasTree, KeepsAttached, TakesEntry, entries_with, errors_with};

use crate::{Error, ParserError};
use fluent_ast::{Comment, Entry, Message, Resource, Term};
use std::alloc::{AllocError, Global};

/// The entries and the errors of the parts that were read so far.
#[derive(Drop)]
pub struct Collected<S> {
    body: Vec<Entry<S>>,
    errors: Vec<ParserError>,
    /// The last part, if it is a comment of one sign: the message or the term right after it takes
    /// it.
    comment: Option<Comment<S>>,
}

impl<S: Drop> Collected<S> {
    /// Of no parts, with room for this many entries.
    ///
    /// # Errors
    /// [`AllocError`] if memory runs out; nothing is kept.
    pub fn with_capacity(alloc: Global, entries: usize) -> Result<Self, AllocError>
        ensures entries { IfOk result (HasNoEntries S) }
        ensures errors { IfOk result (HasNoErrors S) }
    {
        Ok(Collected {
            body: Vec::with_capacity(alloc, entries)?,
            errors: Vec::new(alloc),
            comment: None,
        })
    }

    /// Puts junk after the other entries, and its error after the other errors.
    ///
    /// # Errors
    /// [`AllocError`] if memory runs out; the errors are unchanged, and the junk may be there
    /// without one.
    pub fn push_junk(&mut self, content: S, error: ParserError) -> Result<(), AllocError>
        ensures body { OnOk result (Appends S self.old self.new
            (λ text_of held. waiting held ++ junk (text_of content) ∷ [])) }
        ensures comment { OnOk result (self.new.comment ≡ None) }
        ensures errors { OnOk result (self.new.errors.items
            ≡ self.old.errors.items ++ error ∷ []) }
    {
        self.push_comment()?;
        self.body.push(Entry::Junk { content })?;
        self.errors.push(error)?;
        Ok(())
    }

    /// Puts an entry after the others. `apart` says whether a blank line stands before it.
    ///
    /// # Errors
    /// [`AllocError`] if memory runs out; the errors are unchanged, and the entry is dropped.
    pub fn push_entry(&mut self, added: Entry<S>, apart: bool) -> Result<(), AllocError>
        ensures entries { OnOk result (TakesEntry S self.old self.new apart added) }
        ensures errors { OnOk result (self.new.errors.items ≡ self.old.errors.items) }
    {
        match added {
            Entry::Comment(comment) => {
                self.push_comment()?;
                self.comment = Some(comment);
                Ok(())
            }
            Entry::Message(message) => self.push_message(message, apart),
            Entry::Term(term) => self.push_term(term, apart),
            other => {
                self.push_comment()?;
                self.body.push(other)?;
                Ok(())
            }
        }
    }

    /// Puts a message after the other entries, with the comment right above it.
    fn push_message(&mut self, message: Message<S>, apart: bool) -> Result<(), AllocError>
        ensures entries { OnOk result (TakesEntry S self.old self.new apart (entry.Message message)) }
        ensures errors { OnOk result (self.new.errors.items ≡ self.old.errors.items) }
    {
        self.make_room(apart)?;
        let comment = self.comment.take();
        self.body
            .push_reserved(Entry::Message(Message { comment, ..message }));
        Ok(())
    }

    /// Puts a term after the other entries, with the comment right above it.
    fn push_term(&mut self, term: Term<S>, apart: bool) -> Result<(), AllocError>
        ensures entries { OnOk result (TakesEntry S self.old self.new apart (entry.Term term)) }
        ensures errors { OnOk result (self.new.errors.items ≡ self.old.errors.items) }
    {
        self.make_room(apart)?;
        let comment = self.comment.take();
        self.body
            .push_reserved(Entry::Term(Term { comment, ..term }));
        Ok(())
    }

    /// Makes room for a message or a term. A comment from above a blank line doesn't wait for it,
    /// and becomes an entry.
    fn make_room(&mut self, apart: bool) -> Result<(), AllocError>
        ensures body { OnOk result (Appends S self.old self.new
            (λ text_of held. left_alone held apart)) }
        ensures held { OnOk result (KeepsAttached S self.old self.new apart) }
        ensures room { OnOk result (vec_len self.new.body < vec_capacity self.new.body) }
        ensures errors { self.new.errors.items ≡ self.old.errors.items }
    {
        if apart {
            self.push_comment()?;
        }
        // Mostly there is room, and then this test is all that runs.
        if self.body.len() < self.body.capacity() {
            return Ok(());
        }
        self.body.reserve(1)
    }

    /// Puts the comment that waits after the other entries.
    fn push_comment(&mut self) -> Result<(), AllocError>
        ensures body { OnOk result (Appends S self.old self.new (λ text_of. waiting)) }
        ensures comment { OnOk result (self.new.comment ≡ None) }
        ensures errors { self.new.errors.items ≡ self.old.errors.items }
    {
        if let Some(comment) = self.comment.take() {
            self.body.push(Entry::Comment(comment))?;
        }
        Ok(())
    }

    /// The tree.
    ///
    /// # Errors
    /// [`Error::Memory`] if memory runs out; nothing is kept. [`Error::Broken`] with the tree if
    /// there are errors.
    pub fn finish(mut self) -> Result<Resource<S>, Error<S>>
        ensures tree { (text_of : S → List ℕ) → HasTree S text_of result
            (entries_with S text_of self []) }
        ensures errors { HasErrors S result (errors_with S self []) }
    {
        let Ok(()) = self.push_comment() else {
            return Err(Error::Memory);
        };
        let Collected {
            body,
            errors,
            comment: _,
        } = self;
        let resource = Resource { body };
        if errors.is_empty() {
            Ok(resource)
        } else {
            Err(Error::Broken(resource, errors))
        }
    }
}
