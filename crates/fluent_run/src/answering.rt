//! Answers a stream of request lines from sources.

ghost use Rattle.std.specs.Prelude.{◌≡◌};
ghost use Rattle.fluent_run.specs.RunView.{RunsWell, program_stack};

use crate::desk::Desk;
use crate::settings::Settings;
use fluent_answers::laws::tidied_sources_keep_answers;
use fluent_resource::parse_sources;
use fluent_serve::serve::{RunError, serve};
use fluent_serve::stream::{Sink, Source};
use fluent_text::stack::StackBudget;
use fluent_value::{MemoizerKind, NoCustom, NoFunction};
use std::alloc::Global;
use std::mem;

/// The calls of `read` within which the input has to end.
const READS: u64 = 4_294_967_296;

/// Answers each line of the input from the messages and terms of `sources`, in their order, and
/// writes nothing else: see `docs/reference/protocol.md`. The function `NUMBER` comes before them,
/// and junk is passed over. Variants are chosen by `plurals`.
///
/// The input is read in blocks of at most 8,192 bytes, and each line is answered as soon as it is
/// complete. An answer is complete before its first byte is written.
///
/// Each message and term that is read, and each answer, may take [`StackBudget::PROGRAM`] of the
/// machine's stack.
///
/// # Errors
/// After each of them but [`RunError::Write`] complete answers were written.
/// - [`RunError::Memory`] if memory runs out, or if placeables, calls and selects of a source, or
///   those that a request enters, nest too deep for the budget. The answers to the first lines were
///   written.
/// - [`RunError::Read`] if the reader fails, or doesn't end within 4,294,967,296 calls of `read`.
///   The answers to all complete lines that came were written.
/// - [`RunError::Write`] if the writer fails, or takes none of a piece that isn't empty. A
///   beginning of the answers was written.
pub fn run<M: MemoizerKind, R: Source, W: Sink>(
    alloc: Global,
    sources: &[&str],
    settings: Settings,
    plurals: &M,
    reader: &mut R,
    writer: &mut W,
) -> Result<(), RunError>
    ensures { RunsWell M.MemoizerKind plurals.now settings sources.now
        R.Source reader.old reader.new W.Sink writer.old writer.new result }
{
    let means = Means::of_program(false);
    run_within(alloc, sources, settings, plurals, reader, writer, means)
}

/// As [`run`], for a program that exits next: what was read of the sources is never freed, and the
/// exit doesn't wait for that.
///
/// # Errors
/// Those of [`run`].
pub fn run_before_exit<M: MemoizerKind, R: Source, W: Sink>(
    alloc: Global,
    sources: &[&str],
    settings: Settings,
    plurals: &M,
    reader: &mut R,
    writer: &mut W,
) -> Result<(), RunError>
    ensures { RunsWell M.MemoizerKind plurals.now settings sources.now
        R.Source reader.old reader.new W.Sink writer.old writer.new result }
{
    let means = Means::of_program(true);
    run_within(alloc, sources, settings, plurals, reader, writer, means)
}

/// The means of the machine that a run takes, and whether it gives them back.
#[derive(Clone, Copy)]
pub(crate) struct Means {
    /// The budget of the machine's stack, for each message and term that is read, and for each
    /// answer.
    pub(crate) stack: StackBudget,
    /// Whether the program exits next: then what was read is never freed.
    pub(crate) exits: bool,
}

impl Means {
    /// The means of a program.
    fn of_program(exits: bool) -> Means
        ensures stack { result.stack.bytes ≡ program_stack }
        ensures exits { result.exits ≡ exits }
    {
        Means {
            stack: StackBudget::PROGRAM,
            exits,
        }
    }
}

/// As [`run`], by these means.
pub(crate) fn run_within<M: MemoizerKind, R: Source, W: Sink>(
    alloc: Global,
    sources: &[&str],
    settings: Settings,
    plurals: &M,
    reader: &mut R,
    writer: &mut W,
    means: Means,
) -> Result<(), RunError>
    ensures { RunsWell M.MemoizerKind plurals.now settings sources.now
        R.Source reader.old reader.new W.Sink writer.old writer.new result }
{
    tidied_sources_keep_answers::<NoCustom, NoFunction>();
    let resources = parse_sources(alloc, sources, means.stack)?;
    let desk = Desk::new(alloc, &resources, settings, plurals, means.stack)?;
    let outcome = serve(alloc, &desk, reader, writer, READS);
    let_go(desk, means.exits);
    let_go(resources, means.exits);
    outcome
}

/// Frees a value, unless the program exits next.
fn let_go<T: Drop>(value: T, exits: bool) {
    if exits {
        mem::forget(value);
    }
}
