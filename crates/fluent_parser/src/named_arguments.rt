//! The named arguments of a call that were read so far.
#![tactic(auto)]

ghost use Rattle.std.specs.Prelude.{◌≡◌, ℕ, List, [], ◌++◌, ◌∷◌, OnOk};
ghost use Rattle.std.specs.List.{list_any};
ghost use Rattle.std.specs.Str.{bytes_eq};
ghost use Rattle.fluent_grammar.specs.Words as w;
ghost use Rattle.fluent_parser.specs.Indexed.{IsIndexed, StaysIndexed, names_in};
ghost use Rattle.fluent_ast.specs.View.{named_view};

use fluent_ast::NamedArgument;
use fluent_text::Texts;
use std::alloc::{AllocError, Global};
use std::collections::BTreeSet;

/// How many names are looked through one by one.
const FEW: usize = 8;

/// The named arguments of a call that were read so far.
#[derive(Drop)]
pub struct NamedArguments<'p, S> {
    pub all: Vec<NamedArgument<S>>,
    /// The names of all but the first few: looking through very many would take quadratic time.
    later: BTreeSet<&'p str>,
}

impl<'p, S: Drop> NamedArguments<'p, S> {
    /// None yet.
    pub fn new(alloc: Global) -> Self
        ensures all { result.all.items ≡ [] }
        ensures indexed { (text_of : S → List ℕ) → IsIndexed S text_of result }
    {
        NamedArguments {
            all: Vec::new(alloc),
            later: BTreeSet::new(alloc),
        }
    }

    /// Puts an argument after the others, whose name is this text.
    ///
    /// # Errors
    /// [`AllocError`] if memory runs out; the arguments are unchanged, and this one is dropped.
    pub fn push(&mut self, argument: NamedArgument<S>, name: &'p str) -> Result<(), AllocError>
        ensures all { OnOk result (self.new.all.items ≡ self.old.all.items ++ argument ∷ []) }
        ensures indexed { OnOk result (StaysIndexed S self.old self.new argument name.now) }
    {
        if self.all.len() >= FEW {
            self.later.insert(name)?;
        }
        self.all.push(argument)?;
        Ok(())
    }

    /// The arguments alone.
    pub fn into_all(self) -> Vec<NamedArgument<S>>
        ensures { result ≡ self.entry.all }
    {
        let NamedArguments { all, later: _ } = self;
        all
    }

    /// Whether one of them has this name.
    pub fn has_name<T: Texts<S>>(&self, texts: &T, name: &str) -> bool
        requires { IsIndexed S T.text self.now }
        ensures { result ≡ w.is_among name.now (names_in S T.text self.now) }
    {
        let few = FEW.min(self.all.len());
        is_among(texts, &self.all[..few], name) || self.later.contains(name)
    }
}

/// Whether one of these arguments has this name.
fn is_among<S: Drop, T: Texts<S>>(texts: &T, arguments: &[NamedArgument<S>], name: &str) -> bool
    ensures { result ≡ list_any (λ a. bytes_eq (named_view S T.text a).name name.now)
        arguments.now }
{
    for argument in arguments {
        if has_name(texts, argument, name) {
            return true;
        }
    }
    false
}

/// Whether an argument has this name.
fn has_name<S: Drop, T: Texts<S>>(texts: &T, argument: &NamedArgument<S>, name: &str) -> bool
    ensures { result ≡ bytes_eq (named_view S T.text argument.now).name name.now }
{
    texts.as_str(&argument.name.name) == name
}
