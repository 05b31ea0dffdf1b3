//! What each call of a scope is made of: the scope's own part is handed on, and put back at the
//! end.

ghost use Rattle.std.specs.Prelude.{◌≡◌, None, Some, is_some, option_map};
ghost use Rattle.fluent_ast.specs.Borrowed.{elements_of};
ghost use Rattle.fluent_resolver.specs.Asked.{told};
ghost use Rattle.fluent_bundle.specs.ScopeSteps.{FindsArguments, TellsSome, WritesText};
ghost use Rattle.fluent_bundle.specs.ScopeSteps.{argument_values, fallback, inside, reference, unknown_reference};
ghost use Rattle.fluent_bundle.specs.ScopeView.{Keeps, path_of, state_of};
ghost use Rattle.fluent_meaning.specs.Substitution as s;
ghost use Rattle.fluent_progress.specs.Views as v;
ghost use Rattle.fluent_progress.specs.Views.{state};

use super::Scope;
use fluent_ast::{CallArguments, Expression, InlineExpression, Pattern};
use fluent_errors::{FluentError, ReferenceKind, ResolverError};
use fluent_progress::fallback::write_inline_braced;
use fluent_progress::{Frames, Path, Progress, Surroundings};
use fluent_resolver::pattern::{write_opened, write_referred};
use fluent_resolver::steps::values;
use fluent_text::stack::StackBudget;
use fluent_value::{
    FluentArgs, FluentFunction, FluentType, FluentValue, MemoizerKind, TextTransform,
    ValueFormatter,
};
use std::alloc::{AllocError, Global};
use std::mem;

/// Takes the errors out of a list.
fn taken(alloc: Global, list: &mut Option<&mut Vec<FluentError>>) -> Option<Vec<FluentError>>
    ensures errors { option_map told result ≡ option_map (λ es. told es.now) list.old }
    ensures same { option_map (λ es. es.ghost_name) list.new ≡ option_map (λ es. es.ghost_name) list.old }
{
    match list {
        Some(list) => Some(mem::replace(*list, Vec::new(alloc))),
        None => None,
    }
}

impl<'b, 'r, 's, 'a, M, C, F, G, T> Scope<'b, 'r, 's, 'a, M, C, F, G, T>
where
    M: MemoizerKind,
    C: FluentType,
    F: FluentFunction<C>,
    G: ValueFormatter<C, M>,
{
    /// What resolving has come to, taken out of the scope.
    fn progress(&mut self) -> Progress<'r, 's>
        ensures state { state result ≡ state_of self.old }
        ensures path { v.path_of result ≡ path_of self.old }
        ensures path_left { path_of self.new ≡ path_of self.old }
        ensures kept { Keeps self.old self.new }
    {
        let alloc = self.bundle.alloc;
        let errors = taken(alloc, &mut self.errors);
        Progress {
            errors,
            placeables: self.placeables,
            dirty: self.dirty,
            entered: self.entered,
            path: Path::new(alloc, self.root),
            stack: Frames::new(StackBudget::PROGRAM),
        }
    }

    /// Puts back what resolving has come to.
    fn put_back(&mut self, progress: Progress<'r, 's>)
        ensures state { is_some self.old.errors ≡ is_some progress.entry.errors → state_of self.new
            ≡ state progress.entry }
        ensures path { path_of self.new ≡ path_of self.old }
        ensures kept { Keeps self.old self.new }
    {
        self.dirty = progress.dirty;
        self.placeables = progress.placeables;
        self.entered = progress.entered;
        let told = progress.into_errors();
        if let Some(list) = &mut self.errors {
            if let Some(told) = told {
                **list = told;
            }
        }
    }

    /// The first pattern that is tracked stays on the path.
    pub(super) fn stay_in(&mut self, pattern: &'r Pattern<&'s str>)
        ensures path { path_of self.new ≡ s.rooted_path (elements_of pattern.now) (path_of self.old) }
        ensures state { state_of self.new ≡ state_of self.old }
        ensures kept { Keeps self.old self.new }
    {
        if self.root.is_none() {
            self.root = Some(pattern);
        }
    }

    /// Tells that what an expression refers to is unknown, and writes its fallback. The only error
    /// is that memory runs out.
    fn write_unknown(
        &mut self,
        out: &mut String,
        inline: &InlineExpression<&'s str>,
        kind: ReferenceKind,
    ) -> Result<(), AllocError>
        ensures wrote { WritesText result out.old out.new self.old self.new (fallback kind inline.now) }
        ensures refused { TellsSome result self.old self.new (fallback kind inline.now) }
        ensures path { path_of self.new ≡ path_of self.old }
        ensures kept { Keeps self.old self.new }
    {
        self.add_error(ResolverError::Reference(kind))?;
        write_inline_braced(out, inline)
    }
}

impl<'b, 'r, 's, 'a, M, C, F, G, T> Scope<'b, 'r, 's, 'a, M, C, F, G, T>
where
    M: MemoizerKind,
    C: FluentType + Drop,
    F: FluentFunction<C>,
    G: ValueFormatter<C, M>,
    T: TextTransform,
{
    /// Writes a placeable that was opened before. The only error is that memory runs out.
    pub(super) fn write_opened(
        &mut self,
        out: &mut String,
        pattern: &'r Pattern<&'s str>,
        expression: &'r Expression<&'s str>,
    ) -> Result<(), AllocError>
        ensures wrote { WritesText result out.old out.new self.old self.new
            (inside T.transformed pattern.now expression.now) }
        ensures refused { TellsSome result self.old self.new (inside T.transformed pattern.now expression.now) }
        ensures path { path_of self.new ≡ path_of self.old }
        ensures kept { Keeps self.old self.new }
    {
        let mut progress = self.progress();
        let bundle = self.bundle;
        let lent = bundle.lent();
        let locals: Option<&'b FluentArgs<'s, C>> = None;
        let place = Surroundings {
            ids: &bundle.ids,
            context: &lent,
            arguments: self.arguments,
            locals,
        };
        let written = write_opened(out, &place, &mut progress, pattern, expression);
        self.put_back(progress);
        written
    }

    /// Writes a pattern that an expression refers to. The only error is that memory runs out.
    pub(super) fn write_referred(
        &mut self,
        out: &mut String,
        pattern: &'r Pattern<&'s str>,
        inline: &'r InlineExpression<&'s str>,
    ) -> Result<(), AllocError>
        ensures wrote { WritesText result out.old out.new self.old self.new
            (reference T.transformed inline.now pattern.now) }
        ensures refused { TellsSome result self.old self.new (reference T.transformed inline.now pattern.now) }
        ensures path { path_of self.new ≡ path_of self.old }
        ensures kept { Keeps self.old self.new }
    {
        let mut progress = self.progress();
        let bundle = self.bundle;
        let lent = bundle.lent();
        let locals: Option<&'b FluentArgs<'s, C>> = None;
        let place = Surroundings {
            ids: &bundle.ids,
            context: &lent,
            arguments: self.arguments,
            locals,
        };
        let written = write_referred(out, &place, &mut progress, inline, pattern);
        self.put_back(progress);
        written
    }

    /// Tells what an expression refers to as unknown, and writes its fallback. The only error is
    /// that memory runs out.
    pub(super) fn write_missed(
        &mut self,
        out: &mut String,
        inline: &InlineExpression<&'s str>,
    ) -> Result<(), AllocError>
        ensures wrote { WritesText result out.old out.new self.old self.new
            (unknown_reference T.transformed inline.now) }
        ensures refused { TellsSome result self.old self.new (unknown_reference T.transformed inline.now) }
        ensures path { path_of self.new ≡ path_of self.old }
        ensures kept { Keeps self.old self.new }
    {
        match ReferenceKind::of(self.bundle.alloc, inline)? {
            Some(kind) => self.write_unknown(out, inline, kind),
            None => write_inline_braced(out, inline),
        }
    }

    /// The values of a call's arguments. The only error is that memory runs out.
    pub(super) fn find_arguments(
        &mut self,
        arguments: &'r CallArguments<&'s str>,
    ) -> Result<(Vec<FluentValue<'s, C>>, FluentArgs<'s, C>), AllocError>
        ensures found { FindsArguments result self.old self.new (argument_values T.transformed (Some arguments.entry)) }
        ensures refused { TellsSome result self.old self.new (argument_values T.transformed (Some arguments.entry)) }
        ensures path { path_of self.new ≡ path_of self.old }
        ensures kept { Keeps self.old self.new }
    {
        let mut progress = self.progress();
        let bundle = self.bundle;
        let lent = bundle.lent();
        let locals: Option<&'b FluentArgs<'s, C>> = None;
        let place = Surroundings {
            ids: &bundle.ids,
            context: &lent,
            arguments: self.arguments,
            locals,
        };
        let found = values(&place, &mut progress, arguments);
        self.put_back(progress);
        found
    }
}
