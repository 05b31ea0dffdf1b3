//! Serves a stream of request lines.
ghost use Rattle.std.specs.Prelude.{◌≡◌, ◌<◌, ◌++◌, [], length, ℕ, List, MatchOption, Err, IsTrue, ◌↔◌, OnOk, OnErr, IfErr, IsErrOf, ◌^◌};
ghost use Rattle.std.specs.Io.KnownBytes.{Appends, IsAtEnd};
ghost use Rattle.fluent_serve.specs.Lines.{IsUnfinished, unfinished};
ghost use Rattle.fluent_serve.specs.Devices.{HasFailed};
ghost use Rattle.fluent_serve.specs.Exchange.{GivesUp, Runs};
ghost use Rattle.fluent_serve.specs.Waiting.{CountsFailures, IsSplitAtLine, PutsBlock, PutsFront, PutsLine, PutsRest, Serves};
ghost use Rattle.fluent_serve.specs.declared.serve.RunError.TheVariants.{Memory, Read, Write};

use crate::stream::{ReadFailed, Sink, Source, WriteFailed};
use memchr::memchr;
use std::alloc::{AllocError, Global};

/// The bytes that one call of `read` is asked for.
const BLOCK: usize = 8_192;

/// Answers are written once this many bytes wait, and before each call of `read`.
const PIECE: usize = 65_536;

/// Why a run stopped before the end of its input.
///
/// ```no_run
/// match run(alloc, &["a = b\n"], settings, &plurals, &mut requests, &mut answers) {
///     Ok(()) => {}
///     Err(RunError::Read) => bail!("the requests can't be read"),
///     Err(RunError::Write) => bail!("the answers can't be written"),
///     Err(RunError::Memory) => bail!("out of memory"),
/// }
/// ```
#[derive(Clone, Copy, Debug, PartialEq, Eq)]
pub enum RunError {
    /// Memory ran out, or the engine refused a line for what it would take.
    Memory = 1,
    /// The reader failed, or did not end within the calls of `read` that a run may make.
    Read = 2,
    /// The writer failed, or took none of a piece that was not empty.
    Write = 3,
}

impl From<AllocError> for RunError {
    ghost from_gives = { λ _ e. e ≡ Memory };

    fn from(_error: AllocError) -> RunError {
        RunError::Memory
    }
}

impl From<ReadFailed> for RunError {
    ghost from_gives = { λ _ e. e ≡ Read };

    fn from(_error: ReadFailed) -> RunError {
        RunError::Read
    }
}

impl From<WriteFailed> for RunError {
    ghost from_gives = { λ _ e. e ≡ Write };

    fn from(_error: WriteFailed) -> RunError {
        RunError::Write
    }
}

/// What answers request lines.
///
/// ```
/// impl Engine for Echo {
///     ghost reply = { λ _ line. line };
///
///     fn reply(&self, _alloc: Global, line: &[u8], out: &mut Vec<u8>) -> Result<(), AllocError> {
///         out.extend_from_slice(line)
///     }
/// }
/// ```
pub trait Engine {
    /// What is written for a line, given without its line feed.
    ghost reply: { Self → List ℕ → List ℕ };

    /// Appends what is written for `line` to `out`.
    ///
    /// # Errors
    /// [`AllocError`] if memory runs out; the bytes of `out` are unchanged.
    fn reply(&self, alloc: Global, line: &[u8], out: &mut Vec<u8>) -> Result<(), AllocError>
        ensures ok { OnOk result (out.new.items ≡ out.old.items ++ reply self.now line.now) }
        ensures err { OnErr result (out.new.items ≡ out.old.items) };
}

/// What stands between the devices: a line whose end has not come yet, and answers that wait to be
/// written.
#[derive(Drop)]
struct Waiting {
    line: Vec<u8>,
    output: Vec<u8>,
}

/// Writes all of `bytes`.
///
/// # Errors
/// [`WriteFailed`] if the writer fails, or takes none of a piece that isn't empty; a front of
/// `bytes` was written.
pub fn write_all<W: Sink>(writer: &mut W, bytes: &[u8]) -> Result<(), WriteFailed>
    ensures ok { OnOk result (Appends (W.contents writer.old) (W.contents writer.new) bytes.now) }
    ensures failures { OnOk result (W.failures writer.new ≡ W.failures writer.old) }
    ensures err { OnErr result (PutsFront (W.contents writer.old) bytes.now (W.contents writer.new)
        []) }
    ensures failed { OnErr result (HasFailed (W.failures writer.old) (W.failures writer.new)) }
{
    let mut rest = bytes;
    while !rest.is_empty() {
        match writer.write(rest) {
            Ok(count) if count > 0 => (_, rest) = rest.split_at(count),
            _ => return Err(WriteFailed),
        }
    }
    Ok(())
}

/// Writes all that waits. After an error a front of it was written.
fn flush<W: Sink>(writer: &mut W, output: &mut Vec<u8>) -> Result<(), WriteFailed>
    ensures ok { OnOk result (Appends (W.contents writer.old) (W.contents writer.new)
        output.old.items) }
    ensures emptied { OnOk result (output.new.items ≡ []) }
    ensures failures { OnOk result (W.failures writer.new ≡ W.failures writer.old) }
    ensures err { OnErr result (PutsFront (W.contents writer.old) output.old.items
        (W.contents writer.new) []) }
    ensures failed { OnErr result (HasFailed (W.failures writer.old) (W.failures writer.new)) }
{
    write_all(writer, output.as_slice())?;
    output.clear();
    Ok(())
}

/// Answers the line that ends with `end`. The answers are written if many bytes wait.
fn answer_line<E: Engine, W: Sink>(
    alloc: Global,
    engine: &E,
    writer: &mut W,
    waiting: &mut Waiting,
    end: &[u8],
) -> Result<(), RunError>
    ensures put { PutsLine W.Sink writer.old writer.new waiting.old waiting.new
        (E.reply engine.now) end.now result }
    ensures line { OnOk result (waiting.new.line.items ≡ []) }
    ensures counted { CountsFailures W.Sink writer.old writer.new result }
    ensures never_read { IsErrOf result RunError.Read → ⊥ }
{
    if waiting.line.is_empty() {
        engine.reply(alloc, end, &mut waiting.output)?;
    } else {
        waiting.line.extend_from_slice(end)?;
        engine.reply(alloc, waiting.line.as_slice(), &mut waiting.output)?;
        waiting.line.clear();
    }
    if waiting.output.len() >= PIECE {
        flush(writer, &mut waiting.output)?;
    }
    Ok(())
}

/// What is before the first line feed, and what is after it.
fn first_line(bytes: &[u8]) -> Option<(&[u8], &[u8])>
    ensures { MatchOption result (IsUnfinished bytes.now) (IsSplitAtLine bytes.now) }
{
    match memchr(b'\n', bytes) {
        None => None,
        Some(end) => {
            let (line, rest) = bytes.split_at(end);
            let (_, behind) = rest.split_at(1);
            Some((line, behind))
        }
    }
}

/// Answers each line that ends in `block`, and keeps what follows the last of them.
fn answer_block<E: Engine, W: Sink>(
    alloc: Global,
    engine: &E,
    writer: &mut W,
    waiting: &mut Waiting,
    block: &[u8],
) -> Result<(), RunError>
    requires { IsUnfinished waiting.old.line.items }
    ensures put { PutsBlock W.Sink writer.old writer.new waiting.old waiting.new
        (E.reply engine.now) block.now result }
    ensures line { OnOk result (waiting.new.line.items
        ≡ unfinished (waiting.old.line.items ++ block.now)) }
    ensures unfinished { OnOk result (IsUnfinished waiting.new.line.items) }
    ensures counted { CountsFailures W.Sink writer.old writer.new result }
    ensures never_read { IsErrOf result RunError.Read → ⊥ }
{
    let mut rest = block;
    while let Some((end, behind)) = first_line(rest) {
        answer_line(alloc, engine, writer, waiting, end)?;
        rest = behind;
    }
    waiting.line.extend_from_slice(rest)?;
    Ok(())
}

/// Answers the line that the input ends in, if it holds a byte.
fn answer_end<E: Engine>(alloc: Global, engine: &E, waiting: &mut Waiting) -> Result<(), RunError>
    ensures ok { OnOk result (PutsRest waiting.old waiting.new (E.reply engine.now)) }
    ensures err { OnErr result (waiting.new.output.items ≡ waiting.old.output.items) }
    ensures memory_only { IfErr result (λ error. error ≡ RunError.Memory) }
{
    if !waiting.line.is_empty() {
        engine.reply(alloc, waiting.line.as_slice(), &mut waiting.output)?;
    }
    Ok(())
}

/// Reads to the end of the input, by blocks of this length and in at most `reads` calls of `read`,
/// and answers each line as soon as it is whole. The last answers may wait still.
fn answer_all<E: Engine, R: Source, W: Sink>(
    alloc: Global,
    engine: &E,
    reader: &mut R,
    writer: &mut W,
    waiting: &mut Waiting,
    block: &mut [u8],
    reads: u64,
) -> Result<(), RunError>
    requires room { 0 < length block.old }
    requires no_line { waiting.old.line.items ≡ [] }
    requires no_output { waiting.old.output.items ≡ [] }
    ensures served { Serves R.Source reader.old reader.new W.Sink writer.old writer.new
        waiting.new (E.reply engine.now) reads result }
    ensures end { OnOk result (IsAtEnd (R.remaining reader.new)) }
    ensures reads { OnOk result (R.failures reader.new ≡ R.failures reader.old) }
    ensures given_up { IsErrOf result RunError.Read
        → GivesUp R.Source reader.old reader.new reads }
    ensures counted { CountsFailures W.Sink writer.old writer.new result }
{
    for _ in 0..reads {
        let count = reader.read(block)?;
        if count == 0 {
            return answer_end(alloc, engine, waiting);
        }
        answer_block(alloc, engine, writer, waiting, &block[..count])?;
        flush(writer, &mut waiting.output)?;
    }
    Err(RunError::Read)
}

/// Whether nothing more can be written.
fn is_write_failure(outcome: &Result<(), RunError>) -> bool
    ensures { IsTrue result ↔ (outcome.now ≡ Err Write) }
{
    matches!(outcome, Err(RunError::Write))
}

/// Answers each line of the input, in order, and writes nothing else. An answer is computed whole
/// before its first byte is written. What was answered before an error is written, unless the
/// writer fails. At most `reads` calls of `read` are made.
///
/// # Errors
/// - [`RunError::Memory`] if memory runs out.
/// - [`RunError::Read`] if the reader fails, or doesn't end within `reads` calls.
/// - [`RunError::Write`] if the writer fails, or takes none of a piece that isn't empty.
pub fn serve<E: Engine, R: Source, W: Sink>(
    alloc: Global,
    engine: &E,
    reader: &mut R,
    writer: &mut W,
    reads: u64,
) -> Result<(), RunError>
    ensures served { Runs R.Source reader.old reader.new W.Sink writer.old writer.new
        (E.reply engine.now) reads result }
    ensures end { OnOk result (IsAtEnd (R.remaining reader.new)) }
    ensures reads { OnOk result (R.failures reader.new ≡ R.failures reader.old) }
    ensures writes { OnOk result (W.failures writer.new ≡ W.failures writer.old) }
    ensures given_up { IsErrOf result RunError.Read
        → GivesUp R.Source reader.old reader.new reads }
    ensures failed { IsErrOf result RunError.Write
        → HasFailed (W.failures writer.old) (W.failures writer.new) }
{
    let mut block = vec![in alloc; 0; BLOCK]?;
    let mut waiting = Waiting {
        line: Vec::new(alloc),
        output: Vec::new(alloc),
    };
    let outcome = answer_all(
        alloc,
        engine,
        reader,
        writer,
        &mut waiting,
        block.as_mut_slice(),
        reads,
    );
    if is_write_failure(&outcome) {
        return outcome;
    }
    flush(writer, &mut waiting.output)?;
    outcome
}
