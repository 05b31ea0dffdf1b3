//! The text of a pattern, and the errors that came up while it was made.

ghost use Rattle.std.specs.Prelude.{◌≡◌, [], ◌++◌, IfOk, List, OnOk, Some, map, string_bytes};
ghost use Rattle.std.specs.List.{flat_map};
ghost use Rattle.fluent_errors.specs.Errors.{Reported};
ghost use Rattle.fluent_errors.specs.View.{bundle_view};
ghost use Rattle.fluent_progress.specs.Views.{state};
ghost use Rattle.fluent_resolver.specs.Steps.{answer};
ghost use Rattle.fluent_serve.specs.Frames.{ended, frame_of, ok};
ghost use Rattle.fluent_run.specs.ReplyView.{IsDone, error_text, error_texts, line_of, reply_of, reply_view};
ghost use Rattle.fluent_serve.specs.AnswerView.{Adds};
ghost use Rattle.fluent_serve.specs.Exchange.{IsFrontOf};

use fluent_ast::Pattern;
use fluent_errors::FluentError;
use fluent_progress::{Context, Progress, Surroundings};
use fluent_resolver::pattern::write_pattern;
use fluent_serve::answer::{Answer, push_framed};
use fluent_text::stack::StackBudget;
use fluent_value::{FluentType, ValueScope};
use std::alloc::{AllocError, Global};
use std::fmt;

/// How many bytes a text has room for at least. Most texts and the lines of their errors take no
/// more, and are never moved.
const ROOM: usize = 128;

/// A text, and the errors that came up while it was made, in their order.
///
/// ```no_run
/// let reply = desk
///     .format(alloc, "a", None, &FluentArgs::new(alloc))?
///     .context("no such message")?;
/// println!(rt; "{}, errors: {}", reply.text, reply.errors.len())?; // b {$c}, errors: 1
/// ```
#[derive(Debug, Drop)]
pub struct Reply {
    /// The text, which is there in spite of the errors.
    pub text: String,
    /// The errors that came up.
    pub errors: Vec<FluentError>,
}

/// An error as an answer reports it: what went wrong, without the words `Resolver error: `.
#[derive(Clone, Copy, Debug)]
pub(crate) struct ErrorLine<'e>(&'e FluentError);

impl fmt::Display for ErrorLine<'_> {
    ghost output = { λ line. Some (line_of line) };

    fn fmt<W: fmt::Write>(&self, f: &mut fmt::Formatter<W>) -> fmt::Result {
        match self.0 {
            FluentError::ResolverError(error) => write!(f, "{error}"),
            error => write!(f, "{error}"),
        }
    }
}

/// Formats a pattern within a budget of the machine's stack. The text is written into the memory of
/// `text`, whose old bytes are lost.
///
/// # Errors
/// [`AllocError`] if memory runs out, the budget does, or the context ends resolving; nothing is
/// kept.
pub fn resolve<'b, 'r, 's, 'a, C: FluentType + Drop, F, E: Context<C, F>>(
    place: &Surroundings<'b, 'r, 's, 'a, C, F, E>,
    pattern: &'r Pattern<&'s str>,
    mut text: String,
    stack: StackBudget,
) -> Result<Reply, AllocError>
    ensures { IfOk result (IsDone (answer place.now pattern.now)) }
{
    let alloc = place.context.alloc();
    text.clear();
    text.reserve(ROOM)?;
    let mut progress = Progress::within(alloc, Some(Vec::new(alloc)), stack);
    write_pattern(&mut text, place, &mut progress, pattern)?;
    let errors = reported_by(alloc, progress);
    Ok(Reply { text, errors })
}

/// The errors that were reported.
fn reported_by(alloc: Global, progress: Progress<'_, '_>) -> Vec<FluentError>
    ensures { (list : List Reported) → (state progress.entry).errors ≡ Some list
        → map bundle_view result.items ≡ list }
{
    match progress.into_errors() {
        Some(errors) => errors,
        None => Vec::new(alloc),
    }
}

impl Reply {
    /// Appends the frame of the reply.
    ///
    /// # Errors
    /// [`AllocError`] if memory runs out; `out` then holds its old bytes and a front of the
    /// answer's.
    pub(crate) fn push_to(self, out: &mut Vec<u8>) -> Result<(), AllocError>
        ensures ok { OnOk result (out.new.items ≡ out.old.items
            ++ frame_of (ok (reply_view self))) }
        ensures front { IsFrontOf out.old.items out.new.items }
    {
        let Reply { text, errors } = self;
        push_reply(text, &errors, out)
    }

    /// A line for each error, as an answer has them. It is empty if nothing came up, and isn't
    /// allocated then.
    ///
    /// # Errors
    /// [`AllocError`] if memory runs out; nothing is kept.
    pub fn errors_text(&self, alloc: Global) -> Result<String, AllocError>
        ensures { IfOk result (λ text. string_bytes text
            ≡ flat_map ended (reply_view self.now).errors) }
    {
        let mut text = String::new(alloc);
        push_lines(&mut text, &self.errors)?;
        Ok(text)
    }
}

/// Appends the frame of a text without errors.
///
/// # Errors
/// [`AllocError`] if memory runs out; `out` then holds its old bytes and a front of the answer's.
pub(crate) fn push_text(alloc: Global, text: &str, out: &mut Vec<u8>) -> Result<(), AllocError>
    ensures ok { OnOk result (Adds out.old out.new (frame_of (ok (reply_of text.now [])))) }
    ensures front { IsFrontOf out.old.items out.new.items }
{
    let none: [ErrorLine<'_>; 0] = [];
    let errors: &[ErrorLine<'_>] = &none;
    Answer::Text { text, errors }.push_to(alloc, out)
}

/// Appends the frame of a text and its errors, whose lines are written right after the text.
fn push_reply(mut text: String, errors: &[FluentError], out: &mut Vec<u8>) -> Result<(), AllocError>
    ensures ok { OnOk result (out.new.items ≡ out.old.items
        ++ frame_of (ok (reply_of (string_bytes text) errors.now))) }
    ensures front { IsFrontOf out.old.items out.new.items }
{
    let len = text.as_str().len();
    text.push_str("\n")?;
    push_lines(&mut text, errors)?;
    push_framed(out, len, errors.len(), text.as_bytes())
}

/// Appends a line for each error to `text`.
fn push_lines(text: &mut String, errors: &[FluentError]) -> Result<(), AllocError>
    ensures { OnOk result (string_bytes text.new
        ≡ string_bytes text.old ++ flat_map ended (error_texts errors.now)) }
{
    for error in errors {
        push_line(text, error)?;
    }
    Ok(())
}

/// Appends the line of an error to `text`.
fn push_line(text: &mut String, error: &FluentError) -> Result<(), AllocError>
    ensures { OnOk result (string_bytes text.new
        ≡ string_bytes text.old ++ ended (error_text (bundle_view error.now))) }
{
    writeln!(text, "{}", ErrorLine(error))
}
