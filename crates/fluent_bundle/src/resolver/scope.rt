//! Patterns that a program resolves by itself, placeable by placeable.

ghost use Rattle.std.specs.Prelude.{◌≡◌, [], None, OnErr, OnOk, map, option_map};
ghost use Rattle.fluent_ast.specs.Borrowed.{elements_of};
ghost use Rattle.fluent_bundle.specs.Bounds.{IsWithinWork, enters_by_arguments, enters_by_expression, enters_by_pattern};
ghost use Rattle.fluent_bundle.specs.ScopeSteps.{FindsArguments, Starts, TellsSome, Writes};
ghost use Rattle.fluent_bundle.specs.ScopeSteps.{argument_values, given_arguments, inside, reference, unknown_reference};
ghost use Rattle.fluent_bundle.specs.ScopeView.{Keeps, path_of, state_of};
ghost use Rattle.fluent_errors.specs.View.{bundle_view, resolver_view};
ghost use Rattle.fluent_meaning.specs.Substitution as s;
ghost use Rattle.fluent_progress.specs.Telling.{fresh, with_error};

mod parts;
mod showing;

use crate::bundle::FluentBundle;
use fluent_ast::{CallArguments, Expression, InlineExpression, Pattern};
use fluent_errors::{FluentError, ResolverError};
use fluent_meaning::laws::work_is_bounded;
use fluent_resolver::steps::none_given;
use fluent_text::{TextWrite, WriteError};
use fluent_value::{
    FluentArgs, FluentFunction, FluentType, FluentValue, MemoizerKind, TextTransform,
    ValueFormatter,
};
use std::alloc::AllocError;

/// What the placeables of a pattern are resolved in, by a program that writes the pattern by
/// itself: a bundle, the arguments of a request, and the state of the resolver.
///
/// A call that was refused leaves a scope that can be called again.
///
/// ```
/// let mut scope = Scope::new(bundle, Some(args), Some(&mut errors));
/// for element in &pattern.elements {
///     match element {
///         PatternElement::TextElement { value } => text.push_str(value)?,
///         PatternElement::Placeable { expression } => {
///             text.push('[')?;
///             scope.maybe_track(&mut text, pattern, expression)?;
///             text.push(']')?;
///         }
///     }
/// }
/// ```
#[derive(Drop)]
pub struct Scope<'b, 'r, 's, 'a, M, C, F, G, T = Box<dyn TextTransform>>
where
    M: MemoizerKind,
    C: FluentType,
    F: FluentFunction<C>,
    G: ValueFormatter<C, M>,
{
    /// Where messages, terms and functions come from.
    pub bundle: &'b FluentBundle<'r, 's, M, C, F, G, T>,
    /// The list that errors are appended to. Without one they are dropped.
    pub errors: Option<&'b mut Vec<FluentError>>,
    /// Whether one placeable more was to be opened than may be. Every pattern then stops before its
    /// next element.
    pub dirty: bool,
    arguments: Option<&'b FluentArgs<'a, C>>,
    placeables: u8,
    entered: u128,
    // The pattern whose placeables the program writes, once one was tracked: all that is on the
    // path between two calls.
    root: Option<&'r Pattern<&'s str>>,
}

impl<'b, 'r, 's, 'a, M, C, F, G, T> Scope<'b, 'r, 's, 'a, M, C, F, G, T>
where
    M: MemoizerKind,
    C: FluentType,
    F: FluentFunction<C>,
    G: ValueFormatter<C, M>,
{
    /// A scope in which nothing was resolved yet: no placeable is counted, no pattern entered, and
    /// the path is empty. Errors are appended to those that the list holds. It doesn't allocate.
    pub fn new(
        bundle: &'b FluentBundle<'r, 's, M, C, F, G, T>,
        args: Option<&'b FluentArgs<'a, C>>,
        errors: Option<&'b mut Vec<FluentError>>,
    ) -> Self
        ensures state { state_of result ≡ fresh (option_map (λ list. map bundle_view list.now.items) errors.entry) }
        ensures path { path_of result ≡ [] }
        ensures bundle { result.bundle ≡ bundle.entry }
        ensures arguments { result.arguments ≡ args.entry }
        ensures list { result.errors ≡ errors.entry }
    {
        Scope {
            bundle,
            errors,
            dirty: false,
            arguments: args,
            placeables: 0,
            entered: 0,
            root: None,
        }
    }

    /// How many placeables were counted, the one too many among them: at most 255.
    pub fn placeables(&self) -> u8
        ensures { result ≡ (state_of self.now).placeables }
    {
        self.placeables
    }

    /// How many patterns were entered, at most the greatest number of 128 bits.
    pub fn entered(&self) -> u128
        ensures { result ≡ (state_of self.now).entered }
    {
        self.entered
    }

    /// Reports an error, if the scope has a list.
    ///
    /// # Errors
    /// [`AllocError`] if memory runs out; nothing is changed then.
    pub fn add_error(&mut self, error: ResolverError) -> Result<(), AllocError>
        ensures told { OnOk result (state_of self.new ≡ with_error (resolver_view error) (state_of self.old)) }
        ensures refused { OnErr result (state_of self.new ≡ state_of self.old) }
        ensures path { path_of self.new ≡ path_of self.old }
        ensures kept { Keeps self.old self.new }
    {
        if let Some(list) = &mut self.errors {
            list.push(FluentError::ResolverError(error))?;
        }
        Ok(())
    }
}

impl<'b, 'r, 's, 'a, M, C, F, G, T> Scope<'b, 'r, 's, 'a, M, C, F, G, T>
where
    M: MemoizerKind,
    C: FluentType + Drop,
    F: FluentFunction<C>,
    G: ValueFormatter<C, M>,
    T: TextTransform,
{
    /// Writes a placeable of a pattern that the caller opened: it isn't counted, and gets no
    /// isolation marks. The first pattern that is tracked stays on the path from then on, so that a
    /// reference to it is one to itself.
    ///
    /// # Errors
    /// [`Writer`](WriteError::Writer) if the writer refuses the text,
    /// [`Memory`](WriteError::Memory) if memory runs out. The writer then took nothing of it, the
    /// path is as it was, and the old errors are followed by the first of the placeable's.
    pub fn maybe_track<W: TextWrite>(
        &mut self,
        w: &mut W,
        pattern: &'r Pattern<&'s str>,
        expression: &'r Expression<&'s str>,
    ) -> Result<(), WriteError>
        ensures wrote { Writes W.text result w.old w.new self.old self.new
            (inside T.transformed pattern.now expression.now) }
        ensures refused { Starts W.text result w.old w.new self.old self.new
            (inside T.transformed pattern.now expression.now) }
        ensures bounded { IsWithinWork self.old self.new (enters_by_expression self.old expression.now) }
        ensures path { OnOk result (path_of self.new ≡ s.rooted_path (elements_of pattern.now) (path_of self.old)) }
        ensures path_left { OnErr result (path_of self.new ≡ path_of self.old) }
        ensures kept { Keeps self.old self.new }
    {
        work_is_bounded::<C, F>();
        let mut piece = String::new(self.bundle.alloc);
        self.write_opened(&mut piece, pattern, expression)?;
        w.write_str(piece.as_str())?;
        self.stay_in(pattern);
        Ok(())
    }

    /// Writes a pattern that an expression refers to. If a pattern of the same content is on the
    /// path, that is reported as [`Cyclic`](ResolverError::Cyclic), and the expression's fallback
    /// is written in braces.
    ///
    /// # Errors
    /// [`Writer`](WriteError::Writer) if the writer refuses the text,
    /// [`Memory`](WriteError::Memory) if memory runs out. The writer then took nothing of it, and
    /// the old errors are followed by the first of the pattern's.
    pub fn track<W: TextWrite>(
        &mut self,
        w: &mut W,
        pattern: &'r Pattern<&'s str>,
        inline: &'r InlineExpression<&'s str>,
    ) -> Result<(), WriteError>
        ensures wrote { Writes W.text result w.old w.new self.old self.new
            (reference T.transformed inline.now pattern.now) }
        ensures refused { Starts W.text result w.old w.new self.old self.new
            (reference T.transformed inline.now pattern.now) }
        ensures bounded { IsWithinWork self.old self.new (enters_by_pattern self.old pattern.now) }
        ensures path { path_of self.new ≡ path_of self.old }
        ensures kept { Keeps self.old self.new }
    {
        work_is_bounded::<C, F>();
        let mut piece = String::new(self.bundle.alloc);
        self.write_referred(&mut piece, pattern, inline)?;
        w.write_str(piece.as_str())?;
        Ok(())
    }

    /// Reports what an expression refers to as unknown, if it refers to anything, and writes its
    /// fallback in braces.
    ///
    /// # Errors
    /// [`Writer`](WriteError::Writer) if the writer refuses the text,
    /// [`Memory`](WriteError::Memory) if memory runs out. The writer then took nothing of it; the
    /// error was reported or not.
    pub fn write_ref_error<W: TextWrite>(
        &mut self,
        w: &mut W,
        inline: &InlineExpression<&'s str>,
    ) -> Result<(), WriteError>
        ensures wrote { Writes W.text result w.old w.new self.old self.new
            (unknown_reference T.transformed inline.now) }
        ensures refused { Starts W.text result w.old w.new self.old self.new
            (unknown_reference T.transformed inline.now) }
        ensures path { path_of self.new ≡ path_of self.old }
        ensures kept { Keeps self.old self.new }
    {
        let mut piece = String::new(self.bundle.alloc);
        self.write_missed(&mut piece, inline)?;
        w.write_str(piece.as_str())?;
        Ok(())
    }

    /// The values of a call's arguments: positional ones in order, and those with a name. Without
    /// arguments both are empty.
    ///
    /// # Errors
    /// [`AllocError`] if memory runs out. The old errors are then followed by the first of the
    /// arguments'.
    pub fn get_arguments(
        &mut self,
        arguments: Option<&'r CallArguments<&'s str>>,
    ) -> Result<(Vec<FluentValue<'s, C>>, FluentArgs<'s, C>), AllocError>
        ensures found { FindsArguments result self.old self.new (argument_values T.transformed arguments.entry) }
        ensures refused { TellsSome result self.old self.new (argument_values T.transformed arguments.entry) }
        ensures bounded { IsWithinWork self.old self.new
            (enters_by_arguments self.old (given_arguments arguments.entry)) }
        ensures path { path_of self.new ≡ path_of self.old }
        ensures kept { Keeps self.old self.new }
    {
        work_is_bounded::<C, F>();
        let alloc = self.bundle.alloc;
        match arguments {
            Some(arguments) => self.find_arguments(arguments),
            None => Ok(none_given(alloc)),
        }
    }
}
