//! What the patterns of a bundle give.

ghost use Rattle.std.specs.Prelude.{◌≡◌, IfSome, IsOkAnd, Some};
ghost use Rattle.std.specs.Cow.{IsBorrowedStr};
ghost use Rattle.fluent_resolver.specs.Asked.{GivesText, IsText, ReportsAll, ReportsFirst, WritesStart, WritesWhole, lone_text};
ghost use Rattle.fluent_ast.specs.Borrowed.{elements_of};
ghost use Rattle.fluent_bundle.specs.Bounds.{TellsTooManyOnce};
ghost use Rattle.fluent_bundle.specs.BundleView.{IsLent, answer, bundle_of, handout};
ghost use Rattle.fluent_bundle.specs.Contents.{ShowsAsIs};
ghost use Rattle.fluent_meaning.specs.Ids.{find};
ghost use Rattle.fluent_progress.specs.Depth.{NestsPast};
ghost use Rattle.fluent_resolver.specs.Deep.{IfTooDeep};

use super::FluentBundle;
use fluent_ast::Pattern;
use fluent_errors::FluentError;
use fluent_meaning::laws::work_is_bounded;
use fluent_progress::{BorrowedSettings, Surroundings};
use fluent_resolver::Fault;
use fluent_resolver::answer::{answer, answer_within, hand_out, lone_text, write_answer};
use fluent_text::stack::StackBudget;
use fluent_text::{TextWrite, WriteError};
use fluent_value::{
    FluentArgs, FluentFunction, FluentType, MemoizerKind, TextTransform, ValueFormatter,
};
use std::alloc::AllocError;
use std::borrow::CowStr;

impl<'r, 's, M, C, F, G, T> FluentBundle<'r, 's, M, C, F, G, T>
where
    M: MemoizerKind,
    C: FluentType + Drop,
    F: FluentFunction<C>,
    G: ValueFormatter<C, M>,
    T: TextTransform,
{
    /// Writes what a pattern gives for these arguments, piece by piece. Appends its errors to the
    /// list.
    ///
    /// ```no_run
    /// let mut text = String::new(alloc);
    /// let mut errors = Vec::new(alloc);
    /// match bundle.write_pattern(&mut text, pattern, Some(&args), &mut errors) {
    ///     Ok(()) => println!(rt; "{text}")?,
    ///     Err(WriteError::Writer) => bail!("the writer takes no more"),
    ///     Err(WriteError::Memory) => bail!("out of memory"),
    /// }
    /// ```
    ///
    /// # Errors
    /// [`Writer`](WriteError::Writer) if the writer refuses a piece, [`Memory`](WriteError::Memory)
    /// if memory runs out, also if calls and placeables nest so deep, over all messages that the
    /// pattern enters, that they would take more than 6 MB of the machine's stack. The writer then
    /// took a beginning of the text, and the list holds the old errors, and after them the first of
    /// the pattern's.
    pub fn write_pattern<'x, W: TextWrite>(
        &'x self,
        w: &mut W,
        pattern: &'r Pattern<&'s str>,
        args: Option<&FluentArgs<'_, C>>,
        errors: &mut Vec<FluentError>,
    ) -> Result<(), WriteError>
        ensures wrote { WritesWhole W.text result w.old w.new (answer T.transformed self.now args.entry pattern.now) }
        ensures wrote_first { WritesStart W.text result w.old w.new
            (answer T.transformed self.now args.entry pattern.now) }
        ensures told { ReportsAll result errors.old errors.new (answer T.transformed self.now args.entry pattern.now) }
        ensures told_first { ReportsFirst result errors.old errors.new
            (answer T.transformed self.now args.entry pattern.now) }
        ensures told_once { TellsTooManyOnce errors.old errors.new }
    {
        work_is_bounded::<C, F>();
        let lent = self.lent();
        let locals: Option<&'x FluentArgs<'s, C>> = None;
        let place = Surroundings {
            ids: &self.ids,
            context: &lent,
            arguments: args,
            locals,
        };
        write_answer(w, &place, pattern, errors)
    }

    /// The text of a pattern for these arguments. Appends its errors to the list. If a formatter is
    /// set, it is asked once more, for the complete text.
    ///
    /// A pattern of one text is borrowed from its source if neither a transform nor a formatter is
    /// set. That doesn't allocate, and succeeds.
    ///
    /// ```
    /// let message = bundle.get_message("intro").context("no such message")?;
    /// let pattern = message.value().context("the message has no value")?;
    /// ..
    /// let text = bundle.format_pattern(pattern, Some(&args), &mut errors)?;
    /// println!(rt; "{text}")?; // Welcome, John.
    /// ```
    ///
    /// # Errors
    /// [`AllocError`] if memory runs out, also if calls and placeables nest so deep, over all
    /// messages that the pattern enters, that they would take more than 6 MB of the machine's
    /// stack. The list then holds the old errors, and after them the first of the pattern's.
    pub fn format_pattern<'x>(
        &'x self,
        pattern: &'r Pattern<&'s str>,
        args: Option<&FluentArgs<'_, C>>,
        errors: &mut Vec<FluentError>,
    ) -> Result<CowStr<'s>, AllocError>
        ensures text { GivesText result (handout T.transformed self.now args.entry pattern.now) }
        ensures told { ReportsAll result errors.old errors.new (handout T.transformed self.now args.entry pattern.now) }
        ensures refused { ReportsFirst result errors.old errors.new
            (handout T.transformed self.now args.entry pattern.now) }
        ensures borrowed { ShowsAsIs (bundle_of self.now) → IsText pattern.now → IsOkAnd result IsBorrowedStr }
        ensures told_once { TellsTooManyOnce errors.old errors.new }
    {
        match self.lone_text_as_is(pattern) {
            Some(text) => Ok(CowStr::Borrowed(text)),
            None => self.resolve_pattern(pattern, args, errors),
        }
    }

    /// As [`format_pattern`](FluentBundle::format_pattern), within this budget of the machine's
    /// stack. A pattern that nests too deep is told from want of memory.
    ///
    /// What stands open inside each other takes the bytes that [`resolving`] has: calls and texts
    /// that are arguments or selectors, in the pattern and in those that it enters. What is closed
    /// takes none, so no number of them side by side is too deep.
    ///
    /// ```no_run
    /// match bundle.format_pattern_within(pattern, None, &mut errors, StackBudget::THREAD) {
    ///     Ok(text) => println!(rt; "{text}")?,
    ///     Err(Fault::TooDeep) => bail!("nested too deep"),
    ///     Err(Fault::Memory) => bail!("out of memory"),
    /// }
    /// ```
    ///
    /// # Errors
    /// [`Memory`](Fault::Memory) if memory runs out, [`TooDeep`](Fault::TooDeep) only if the
    /// pattern takes more bytes at some place than the budget has. The list then holds the old
    /// errors, and after them the first of the pattern's.
    ///
    /// [`resolving`]: fluent_text::stack::resolving
    pub fn format_pattern_within<'x>(
        &'x self,
        pattern: &'r Pattern<&'s str>,
        args: Option<&FluentArgs<'_, C>>,
        errors: &mut Vec<FluentError>,
        budget: StackBudget,
    ) -> Result<CowStr<'s>, Fault>
        ensures text { GivesText result (handout T.transformed self.now args.entry pattern.now) }
        ensures told { ReportsAll result errors.old errors.new (handout T.transformed self.now args.entry pattern.now) }
        ensures refused { ReportsFirst result errors.old errors.new
            (handout T.transformed self.now args.entry pattern.now) }
        ensures deep { IfTooDeep result (NestsPast budget.bytes (find (bundle_of self.now).ids)
            (elements_of pattern.now)) }
    {
        let lent = self.lent();
        let locals: Option<&'x FluentArgs<'s, C>> = None;
        let place = Surroundings {
            ids: &self.ids,
            context: &lent,
            arguments: args,
            locals,
        };
        let text = answer_within(&place, pattern, errors, budget)?;
        Ok(hand_out(&lent, text)?)
    }

    /// The same by resolving the pattern, whatever it is. It is no part of its callers, so that one
    /// that asks for a text alone needs no room for it.
    #[inline(never)]
    fn resolve_pattern<'x>(
        &'x self,
        pattern: &'r Pattern<&'s str>,
        args: Option<&FluentArgs<'_, C>>,
        errors: &mut Vec<FluentError>,
    ) -> Result<CowStr<'s>, AllocError>
        ensures text { GivesText result (handout T.transformed self.now args.entry pattern.now) }
        ensures told { ReportsAll result errors.old errors.new (handout T.transformed self.now args.entry pattern.now) }
        ensures refused { ReportsFirst result errors.old errors.new
            (handout T.transformed self.now args.entry pattern.now) }
        ensures borrowed { ShowsAsIs (bundle_of self.now) → IsText pattern.now → IsOkAnd result IsBorrowedStr }
        ensures told_once { TellsTooManyOnce errors.old errors.new }
    {
        work_is_bounded::<C, F>();
        let lent = self.lent();
        let locals: Option<&'x FluentArgs<'s, C>> = None;
        let place = Surroundings {
            ids: &self.ids,
            context: &lent,
            arguments: args,
            locals,
        };
        let text = answer(&place, pattern, errors)?;
        hand_out(&lent, text)
    }
}

impl<'r, 's, M, C, F, G, T> FluentBundle<'r, 's, M, C, F, G, T>
where
    M: MemoizerKind,
    C: FluentType,
    F: FluentFunction<C>,
    G: ValueFormatter<C, M>,
{
    /// The text of a pattern that is one text, if neither a transform nor a formatter is set: it is
    /// all that the pattern gives.
    fn lone_text_as_is(&self, pattern: &Pattern<&'s str>) -> Option<&'s str>
        ensures as_is { IfSome result (λ text. ShowsAsIs (bundle_of self.now)) }
        ensures text { IfSome result (λ text. lone_text (elements_of pattern.now) ≡ Some text.now) }
    {
        if self.transform.is_some() || self.formatter.is_some() {
            return None;
        }
        lone_text(pattern)
    }

    /// What patterns are resolved in, lent.
    pub(crate) fn lent(&self) -> BorrowedSettings<'_, M, G, T>
        ensures { IsLent (bundle_of self.now) result }
    {
        BorrowedSettings {
            plurals: &self.plurals,
            isolating: self.isolating,
            transform: self.transform.as_ref(),
            formatter: self.formatter.as_ref(),
            alloc: self.alloc,
        }
    }
}
