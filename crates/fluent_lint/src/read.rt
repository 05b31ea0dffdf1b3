//! Reading the files of a catalog.
#![tactic(auto)]

ghost use Rattle.std.specs.Prelude.{◌≡◌, ◌++◌, [], ◌∷◌, IfOk, OnOk, map};
ghost use Rattle.fluent_ast.specs.Borrowed.{entries_of, entry_of};
ghost use Rattle.lint_entries.specs.AttributePlaces.{uncommented};
ghost use Rattle.fluent_lint.specs.Reading.{bare_tree, IsRead, errors_in, errors_told, errors_view, trees_in};
ghost use Rattle.fluent_parsed.specs.ErrorView.{error_view};

use fluent_ast::{Entry, Resource};
use fluent_parser::{Error, ParserError, StackBudget, parse_within};
use lint_findings::File;
use std::alloc::{AllocError, Global};

/// Files with their trees, without the comments above messages and terms, and with the errors of
/// each file.
#[derive(Drop)]
pub struct ReadFiles<'f, 's> {
    pub files: &'f [File<'s>],
    pub trees: Vec<Resource<&'s str>>,
    pub errors: Vec<Vec<ParserError>>,
}

impl<'f, 's> ReadFiles<'f, 's> {
    /// Nothing of these files. It doesn't allocate.
    fn new(alloc: Global, files: &'f [File<'s>]) -> Self
        ensures files { result.files.now ≡ files.now }
        ensures trees { trees_in result ≡ [] }
        ensures errors { errors_in result ≡ [] }
    {
        ReadFiles {
            files,
            trees: Vec::new(alloc),
            errors: Vec::new(alloc),
        }
    }

    /// Reads one more source, within this budget of the machine's stack for each message and term.
    fn read(&mut self, alloc: Global, source: &'s str, stack: StackBudget) -> Result<(), AllocError>
        ensures files { self.new.files.now ≡ self.old.files.now }
        ensures trees { OnOk result (trees_in self.new ≡ trees_in self.old ++ bare_tree source.now ∷ []) }
        ensures errors { OnOk result (errors_in self.new ≡ errors_in self.old ++ errors_told source.now ∷ []) }
    {
        match parse_within(alloc, source, stack) {
            Ok(tree) => self.push(tree, Vec::new(alloc)),
            Err(Error::Broken(tree, errors)) => self.push(tree, errors),
            Err(Error::Memory) => Err(AllocError),
        }
    }

    /// Puts what was read of one more source after the others.
    fn push(
        &mut self,
        mut tree: Resource<&'s str>,
        errors: Vec<ParserError>,
    ) -> Result<(), AllocError>
        ensures files { self.new.files.now ≡ self.old.files.now }
        ensures trees { OnOk result (trees_in self.new
            ≡ trees_in self.old ++ map uncommented (entries_of tree.entry) ∷ []) }
        ensures errors { OnOk result (errors_in self.new ≡ errors_in self.old ++ errors_view errors ∷ []) }
    {
        drop_comments(&mut tree.body);
        self.trees.push(tree)?;
        self.errors.push(errors)?;
        Ok(())
    }
}

/// Drops the comments above the messages and terms of a tree. They make no difference to findings,
/// and so the entries are those that an id stands for.
fn drop_comments(entries: &mut [Entry<&str>])
    ensures { map entry_of entries.new ≡ map uncommented (map entry_of entries.old) }
{
    for entry in entries.iter_mut() {
        drop_comment(entry);
    }
}

/// Drops the comment above a message or a term.
fn drop_comment(entry: &mut Entry<&str>)
    ensures { entry_of entry.new ≡ uncommented (entry_of entry.old) }
{
    match entry {
        Entry::Message(message) => message.comment = None,
        Entry::Term(term) => term.comment = None,
        _ => {}
    }
}

/// Reads files, each once.
///
/// # Errors
/// [`AllocError`] if memory runs out, or a file nests so deep that reading it would take more of
/// the machine's stack than this budget; nothing is kept.
pub fn read_files<'f, 's>(
    alloc: Global,
    files: &'f [File<'s>],
    stack: StackBudget,
) -> Result<ReadFiles<'f, 's>, AllocError>
    ensures files { IfOk result (λ read. read.files.now ≡ files.now) }
    ensures read { IfOk result IsRead }
{
    let mut read = ReadFiles::new(alloc, files);
    for file in files {
        read.read(alloc, file.source, stack)?;
    }
    Ok(read)
}
