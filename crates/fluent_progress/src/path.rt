//! The patterns that are being written.

ghost use Rattle.std.specs.Prelude.{◌≡◌, ◌==◌, ◌++◌, ◌∷◌, [], ◌-◌, OnOk, length, map, take};
ghost use Rattle.fluent_ast.specs.Borrowed.{elements_of};
ghost use Rattle.fluent_meaning.specs.Substitution.{is_on_path, rooted_path};
ghost use Rattle.fluent_progress.specs.Views.{entered_in, path_left, path_of, patterns_on, state, with_first};

use crate::progress::Progress;
use fluent_ast::Pattern;
use fluent_ast::laws::equal_nodes;
use std::alloc::{AllocError, Global};

/// The patterns that are being written, the last one entered last. The first of them is kept in the
/// path itself, so that memory is allocated only where a pattern is written inside another.
#[derive(Drop)]
pub struct Path<'r, 's> {
    first: Option<&'r Pattern<&'s str>>,
    rest: Vec<&'r Pattern<&'s str>>,
}

impl<'r, 's> Path<'r, 's> {
    /// The path of this pattern alone, if there is one. It doesn't allocate.
    pub fn new(alloc: Global, first: Option<&'r Pattern<&'s str>>) -> Self
        ensures { patterns_on result ≡ with_first first.entry [] }
    {
        Path {
            first,
            rest: Vec::new(alloc),
        }
    }

    /// Whether the first pattern has this content.
    fn begins_with(&self, pattern: &Pattern<&'s str>) -> bool
        ensures { result ≡ is_on_path (elements_of pattern.now)
            (map (λ x. elements_of x.now) (with_first self.now.first [])) }
    {
        equal_nodes::<&'s str>();
        match self.first {
            Some(first) => {
                let first: &'r Pattern<&'s str> = first;
                *first == *pattern
            }
            None => false,
        }
    }
}

impl<'r, 's> Progress<'r, 's> {
    /// Whether a pattern of this content is being written.
    pub fn is_entered(&self, pattern: &Pattern<&'s str>) -> bool
        ensures { result ≡ is_on_path (elements_of pattern.now) (path_of self.now) }
    {
        equal_nodes::<&'s str>();
        if self.path.begins_with(pattern) {
            return true;
        }
        for index in 0..self.path.rest.len() {
            let entered: &'r Pattern<&'s str> = self.path.rest[index];
            if *entered == *pattern {
                return true;
            }
        }
        false
    }

    /// Whether no pattern is being written.
    fn is_outside(&self) -> bool
        ensures { result ≡ (length (entered_in self.now) == 0) }
    {
        self.path.first.is_none() && self.path.rest.is_empty()
    }

    /// Puts a pattern on the path.
    ///
    /// # Errors
    /// [`AllocError`] if memory runs out; the progress is unchanged.
    pub fn enter_path(&mut self, pattern: &'r Pattern<&'s str>) -> Result<(), AllocError>
        ensures path { OnOk result (entered_in self.new ≡ entered_in self.old ++ pattern.entry ∷ []) }
        ensures state { state self.new ≡ state self.old }
        ensures stack { self.new.stack ≡ self.old.stack }
    {
        if self.is_outside() {
            self.path.first = Some(pattern);
        } else {
            self.path.rest.push(pattern)?;
        }
        Ok(())
    }

    /// Puts a pattern on the path if it is empty, and answers whether it was.
    pub fn enter_root(&mut self, whole: &'r Pattern<&'s str>) -> bool
        ensures path { path_of self.new ≡ rooted_path (elements_of whole.now) (path_of self.old) }
        ensures before { path_left result self.new ≡ entered_in self.old }
        ensures state { state self.new ≡ state self.old }
        ensures stack { self.new.stack ≡ self.old.stack }
    {
        let is_root = self.is_outside();
        if is_root {
            self.path.first = Some(whole);
        }
        is_root
    }

    /// Takes the last pattern off the path where [`enter_root`](Progress::enter_root) put it there.
    pub fn leave_root(&mut self, is_root: bool)
        ensures path { entered_in self.new ≡ path_left is_root self.old }
        ensures state { state self.new ≡ state self.old }
        ensures stack { self.new.stack ≡ self.old.stack }
    {
        if is_root {
            self.leave_path();
        }
    }

    /// Takes the last pattern off the path.
    pub fn leave_path(&mut self)
        ensures path { entered_in self.new ≡ take (length (entered_in self.old) - 1) (entered_in self.old) }
        ensures state { state self.new ≡ state self.old }
        ensures stack { self.new.stack ≡ self.old.stack }
    {
        if self.path.rest.pop().is_none() {
            self.path.first = None;
        }
    }
}
