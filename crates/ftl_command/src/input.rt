//! Standard input, which is tidied to standard output.
ghost use Rattle.std.specs.Prelude.{◌≡◌, ◌⊎◌, ◌<◌, IfErr, IfOk, IsErrOf, IsUtf8, OnOk, length};
ghost use Rattle.fluent_serve.specs.Exchange.{GivesUp};
ghost use Rattle.ftl_command.specs.Input.{IsReadWhole, said_of, written_of};
ghost use Rattle.ftl_command.specs.Program.{BytesEndOn, InputEndsOn, WritesEndOn};
ghost use Rattle.ftl_command.specs.Refusals.{IsDeviceFault, IsOfStreams, IsTextFault};
ghost use Rattle.ftl_files.specs.TidyView.{end_view};

use crate::ended::Ended;
use crate::fault::Fault;
use crate::in_place::end_of;
use crate::output::write_to_stream;
use fluent_serve::stream::{Sink, Source};
use ftl_files::{Failure, FileEnd, TidiedFiles, tidy_source};
use simdutf8::basic::from_utf8;
use std::alloc::Global;

/// The name that findings in standard input have.
pub(crate) const NAME: &str = "-";

/// The bytes that one call of `read` is asked for.
const BLOCK: usize = 65_536;

/// How many calls of `read` are made at most.
const READS: u64 = 4_294_967_296;

/// Reads standard input to its end, and writes its tidy text. If it is only checked, its name is
/// written if it isn't tidy. A source that has no tidy text is reported in the end, and nothing is
/// written.
///
/// # Errors
/// [`Fault::Memory`] if memory runs out, and [`Fault::Input`] if the reader fails or comes to no
/// end: nothing is written. [`Fault::Output`] if the writer fails; a front of the text was written.
pub fn tidy_input<'words, I: Source, O: Sink>(
    alloc: Global,
    check: bool,
    reader: &mut I,
    writer: &mut O,
) -> Result<Ended, Fault<'words>>
    ensures ended { InputEndsOn I.Source reader.old reader.new
        O.Sink writer.old writer.new check result }
    ensures reads { OnOk result (I.failures reader.new ≡ I.failures reader.old) }
    ensures writes { OnOk result (O.failures writer.new ≡ O.failures writer.old) }
    ensures fault { IfErr result IsOfStreams }
    ensures stops { IfErr result (IsDeviceFault I.Source reader.old reader.new
        O.Sink writer.old writer.new) }
{
    let bytes = read_input(alloc, reader)?;
    tidy_bytes(alloc, check, &bytes, writer)
}

/// All that is left of the input.
pub(crate) fn read_input<'words, I: Source>(
    alloc: Global,
    reader: &mut I,
) -> Result<Vec<u8>, Fault<'words>>
    ensures read { IfOk result (λ bytes.
        IsReadWhole (I.remaining reader.old) (I.remaining reader.new) bytes.items) }
    ensures reads { OnOk result (I.failures reader.new ≡ I.failures reader.old) }
    ensures given_up { IsErrOf result Fault.Input
        → GivesUp I.Source reader.old reader.new 4294967296 }
    ensures fault { IfErr result (λ fault. (fault ≡ Fault.Memory) ⊎ (fault ≡ Fault.Input)) }
{
    let mut block = vec![in alloc; 0; BLOCK]?;
    read_blocks(alloc, reader, block.as_mut_slice(), READS)
}

/// All that is left of the input, by blocks of this length. It fails after `reads` calls of `read`
/// without an end.
fn read_blocks<'words, I: Source>(
    alloc: Global,
    reader: &mut I,
    block: &mut [u8],
    reads: u64,
) -> Result<Vec<u8>, Fault<'words>>
    requires room { 0 < length block.old }
    ensures read { IfOk result (λ bytes.
        IsReadWhole (I.remaining reader.old) (I.remaining reader.new) bytes.items) }
    ensures reads { OnOk result (I.failures reader.new ≡ I.failures reader.old) }
    ensures given_up { IsErrOf result Fault.Input → GivesUp I.Source reader.old reader.new reads }
    ensures fault { IfErr result (λ fault. (fault ≡ Fault.Memory) ⊎ (fault ≡ Fault.Input)) }
{
    let mut bytes = Vec::new(alloc);
    for _ in 0..reads {
        let Ok(count) = reader.read(block) else {
            return Err(Fault::Input);
        };
        if count == 0 {
            return Ok(bytes);
        }
        bytes.extend_from_slice(&block[..count])?;
    }
    Err(Fault::Input)
}

/// Writes what these bytes are tidied into.
fn tidy_bytes<'words, O: Sink>(
    alloc: Global,
    check: bool,
    bytes: &[u8],
    writer: &mut O,
) -> Result<Ended, Fault<'words>>
    ensures ended { BytesEndOn O.Sink writer.old writer.new check bytes.now result }
    ensures writes { OnOk result (O.failures writer.new ≡ O.failures writer.old) }
    ensures fault { IfErr result (λ fault. (fault ≡ Fault.Memory) ⊎ (fault ≡ Fault.Output)) }
    ensures stops { IfErr result (IsTextFault O.Sink writer.old writer.new) }
{
    match from_utf8(bytes) {
        Ok(source) => tidy_text(alloc, check, source, writer),
        Err(_) => {
            let end = FileEnd::Failed(Failure::NotUtf8, None);
            write_end(alloc, check, "", &end, writer)
        }
    }
}

/// Writes what a source is tidied into.
fn tidy_text<'words, O: Sink>(
    alloc: Global,
    check: bool,
    source: &str,
    writer: &mut O,
) -> Result<Ended, Fault<'words>>
    requires text { IsUtf8 source.now }
    ensures ended { BytesEndOn O.Sink writer.old writer.new check source.now result }
    ensures writes { OnOk result (O.failures writer.new ≡ O.failures writer.old) }
    ensures fault { IfErr result (λ fault. (fault ≡ Fault.Memory) ⊎ (fault ≡ Fault.Output)) }
    ensures stops { IfErr result (IsTextFault O.Sink writer.old writer.new) }
{
    let end = tidy_source(alloc, NAME, source)?;
    write_end(alloc, check, source, &end, writer)
}

/// Writes the output for a source by the outcome of tidying it. A report on the source is in the
/// end.
fn write_end<'words, O: Sink>(
    alloc: Global,
    check: bool,
    source: &str,
    end: &FileEnd,
    writer: &mut O,
) -> Result<Ended, Fault<'words>>
    ensures written { WritesEndOn O.Sink writer.old writer.new
        check source.now (end_view end.now) result }
    ensures writes { OnOk result (O.failures writer.new ≡ O.failures writer.old) }
    ensures fault { IfErr result (λ fault. (fault ≡ Fault.Memory) ⊎ (fault ≡ Fault.Output)) }
    ensures stops { IfErr result (IsTextFault O.Sink writer.old writer.new) }
{
    let mut said = TidiedFiles::new(alloc);
    said.add(check, NAME, end)?;
    write_to_stream(writer, text_of(check, source, end, said.names.as_str()))?;
    Ok(end_of(said))
}

/// The text that is written for a source by the outcome of tidying it: the names with `check`, and
/// otherwise the tidy text, or nothing if it has none.
fn text_of<'a>(check: bool, source: &'a str, end: &'a FileEnd, names: &'a str) -> &'a str
    requires names { names.now ≡ (said_of check (end_view end.now)).names }
    ensures { result.now ≡ written_of check source.now (end_view end.now) }
{
    match end {
        _ if check => names,
        FileEnd::Kept => source,
        FileEnd::Changed(text) => text.as_str(),
        FileEnd::Failed(..) | FileEnd::Refused(_) | FileEnd::OutOfMemory(_) => "",
    }
}
