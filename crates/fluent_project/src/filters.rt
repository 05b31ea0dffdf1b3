//! The filters of a project's file: what becomes of files and messages that a language lacks, or
//! has alone.

ghost use Rattle.std.specs.Prelude.{◌≡◌, IfOk, true, false};
ghost use Rattle.fluent_project.specs.Patterns.{Matches};
ghost use Rattle.fluent_project.specs.FilterViews.{is_of_files, is_of_id};

use crate::faults::{FaultKind, FileError};
use crate::fields::{fault, in_table};
use crate::file::{Action, Filter, ProjectFile};
use crate::matching::is_match;
use crate::part::Part;
use crate::path_rules::pattern_at;
use crate::resolved::Variables;
use regex::{Error, Regex};
use std::alloc::{AllocError, Global};

/// What messages a filter is about.
#[derive(Drop)]
pub enum Key<'f> {
    /// None: it is about files.
    File,
    /// Those of this id.
    Id(&'f str),
    /// Those whose id begins with a match of this expression.
    Expression(Regex),
}

/// A pattern of files, the messages, and what becomes of them.
#[derive(Drop)]
pub struct FilterRule<'f> {
    /// The pattern.
    pub path: Vec<Part>,
    /// The messages.
    pub key: Key<'f>,
    /// What becomes of them.
    pub action: Action,
}

/// The filters of a file, in their order: one for each path and each key of a table.
///
/// # Errors
/// [`FileError::Fault`]: a pattern or an expression is wrong. [`FileError::Memory`]: memory ran
/// out.
pub fn filters_of<'f>(
    alloc: Global,
    variables: Variables<'_, 'f>,
    file: &ProjectFile<'f>,
) -> Result<Vec<FilterRule<'f>>, FileError<'f>> {
    let mut rules = Vec::new(alloc);
    for (n, filter) in file.filters.iter().enumerate() {
        for path in &filter.paths {
            push_filters(alloc, variables, n, path, filter, &mut rules)?;
        }
    }
    Ok(rules)
}

/// Appends the filters of a path.
fn push_filters<'f>(
    alloc: Global,
    variables: Variables<'_, 'f>,
    n: usize,
    path: &'f str,
    filter: &Filter<'f>,
    rules: &mut Vec<FilterRule<'f>>,
) -> Result<(), FileError<'f>> {
    let place = in_table("filters", n, "path");
    let action = filter.action;
    let Some(keys) = &filter.keys else {
        let path = pattern_at(alloc, variables, path, place)?;
        let key = Key::File;
        rules.push(FilterRule { path, key, action })?;
        return Ok(());
    };
    for key in keys {
        let path = pattern_at(alloc, variables, path, place)?;
        let key = key_of(alloc, n, key)?;
        rules.push(FilterRule { path, key, action })?;
    }
    Ok(())
}

/// The key that a text is: an id, or an expression after `re:`.
fn key_of<'f>(alloc: Global, n: usize, text: &'f str) -> Result<Key<'f>, FileError<'f>> {
    let Some(expression) = text.strip_prefix("re:") else {
        return Ok(Key::Id(text));
    };
    let anchored = format!(in alloc; "^(?:{expression})")?;
    match Regex::new(alloc, anchored.as_str()) {
        Ok(expression) => Ok(Key::Expression(expression)),
        Err(Error::OutOfMemory) => Err(FileError::Memory),
        Err(_) => Err(fault(in_table("filters", n, "key"), FaultKind::NoExpression)),
    }
}

impl FilterRule<'_> {
    /// Whether it is about a file of a language, by its path.
    pub fn is_about(&self, locale: &str, path: &str) -> bool
        ensures found { result ≡ true → Matches locale.now self.now.path.items path.now }
        ensures none { result ≡ false → ¬ (Matches locale.now self.now.path.items path.now) }
    {
        is_match(&self.path, locale.as_bytes(), path.as_bytes())
    }

    /// Whether it is about files, and not about messages.
    pub fn is_of_files(&self) -> bool
        ensures { result ≡ is_of_files self.now.key }
    {
        match self.key {
            Key::File => true,
            Key::Id(_) | Key::Expression(_) => false,
        }
    }

    /// Whether it is about messages of an id.
    ///
    /// # Errors
    /// [`AllocError`] if memory runs out.
    pub fn has_key(&self, alloc: Global, id: &str) -> Result<bool, AllocError>
        ensures { IfOk result (λ found. found ≡ is_of_id self.now.key id.now) }
    {
        match &self.key {
            Key::File => Ok(false),
            Key::Id(key) => Ok(*key == id),
            Key::Expression(expression) => {
                let mut matcher = expression.matcher(alloc)?;
                Ok(matcher.is_match(id))
            }
        }
    }
}
