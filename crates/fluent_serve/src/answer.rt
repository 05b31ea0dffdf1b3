//! Answers, and the bytes that they are written as.
ghost use Rattle.std.specs.Prelude.{◌++◌, OnOk, IfSome, decimal};
ghost use Rattle.fluent_serve.specs.Exchange.{IsFrontOf};
ghost use Rattle.fluent_serve.specs.Frames.{frame_of, ended};
ghost use Rattle.fluent_serve.specs.AnswerView.{Adds, AddsLines, answer_view, error_texts, head_of};

use itoa::Buffer;
use std::alloc::{AllocError, Global};
use std::fmt::Display;

/// The answer to a request line.
///
/// ```no_run
/// match Asked::of(line) {
///     Some(asked) => Answer::Text {
///         text: asked.id,
///         errors: &none,
///     }
///     .push_to(alloc, out),
///     None => Answer::<&str>::Bad.push_to(alloc, out),
/// }
/// ```
#[derive(Clone, Copy, Debug)]
pub enum Answer<'a, E> {
    /// The line is no request.
    Bad,
    /// There is nothing by that name.
    Nothing,
    /// A text, and the errors that came up while it was made.
    Text { text: &'a str, errors: &'a [E] },
}

impl<E: Display> Answer<'_, E> {
    /// Appends the answer's bytes to `out`: `bad`, `none`, or `ok` with the text's length in bytes
    /// and the count of errors, the text, and a line for each error.
    ///
    /// # Errors
    /// [`AllocError`] if memory runs out; `out` then holds its old bytes and a front of the
    /// answer's.
    pub fn push_to(&self, alloc: Global, out: &mut Vec<u8>) -> Result<(), AllocError>
        ensures ok { OnOk result (IfSome (answer_view E.output self.now)
            (λ answer. Adds out.old out.new (frame_of answer))) }
        ensures front { IsFrontOf out.old.items out.new.items }
    {
        match self {
            Answer::Bad => out.extend_from_slice(b"bad\n"),
            Answer::Nothing => out.extend_from_slice(b"none\n"),
            Answer::Text { text, errors } => {
                push_head(out, text.len(), errors.len())?;
                out.extend_from_slice(text.as_bytes())?;
                out.extend_from_slice(b"\n")?;
                push_errors(alloc, out, errors)
            }
        }
    }
}

/// Appends the line that stands before a text.
fn push_head(out: &mut Vec<u8>, text_len: usize, error_count: usize) -> Result<(), AllocError>
    ensures ok { OnOk result (Adds out.old out.new (head_of text_len error_count)) }
    ensures front { IsFrontOf out.old.items out.new.items }
{
    out.extend_from_slice(b"ok ")?;
    push_number(out, text_len)?;
    out.extend_from_slice(b" ")?;
    push_number(out, error_count)?;
    out.extend_from_slice(b"\n")
}

/// Appends a number's digits. Most texts have less than a hundred bytes.
fn push_number(out: &mut Vec<u8>, number: usize) -> Result<(), AllocError>
    ensures ok { OnOk result (Adds out.old out.new (decimal number)) }
    ensures front { IsFrontOf out.old.items out.new.items }
{
    if number < 10 {
        return out.extend_from_slice(&[b'0' + number as u8]);
    }
    if number < 100 {
        return out.extend_from_slice(&[b'0' + (number / 10) as u8, b'0' + (number % 10) as u8]);
    }
    let mut digits = Buffer::new();
    out.extend_from_slice(digits.format(number).as_bytes())
}

/// Appends an answer whose text and error lines are one piece already: the text and a line feed,
/// and then a line for each error.
///
/// # Errors
/// [`AllocError`] if memory runs out; `out` then holds its old bytes and a front of the answer's.
pub fn push_framed(
    out: &mut Vec<u8>,
    text_len: usize,
    error_count: usize,
    lines: &[u8],
) -> Result<(), AllocError>
    ensures ok { OnOk result (Adds out.old out.new (head_of text_len error_count ++ lines.now)) }
    ensures front { IsFrontOf out.old.items out.new.items }
{
    push_head(out, text_len, error_count)?;
    out.extend_from_slice(lines)
}

/// Appends a line for each error.
fn push_errors<E: Display>(alloc: Global, out: &mut Vec<u8>, errors: &[E]) -> Result<(), AllocError>
    ensures ok { OnOk result (IfSome (error_texts E.output errors.now)
        (AddsLines out.old out.new)) }
    ensures front { IsFrontOf out.old.items out.new.items }
{
    for error in errors {
        push_error(alloc, out, error)?;
    }
    Ok(())
}

/// Appends an error's line.
fn push_error<E: Display>(alloc: Global, out: &mut Vec<u8>, error: &E) -> Result<(), AllocError>
    ensures ok { OnOk result (IfSome (E.output error.now)
        (λ text. Adds out.old out.new (ended text))) }
    ensures front { IsFrontOf out.old.items out.new.items }
{
    let text = error.to_string(alloc)?;
    out.extend_from_slice(text.as_bytes())?;
    out.extend_from_slice(b"\n")
}
