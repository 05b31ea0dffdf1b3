//! Standard output.
ghost use Rattle.std.specs.Prelude.{◌≡◌, IfOk, OnOk, OnErr, IfErr};
ghost use Rattle.std.specs.Io.KnownBytes.{Appends};
ghost use Rattle.fluent_serve.specs.Devices.{HasFailed};
ghost use Rattle.ftl_command.specs.Program.{WritesFront};

use crate::ended::Ended;
use crate::fault::Fault;
use fluent_serve::serve::write_all;
use fluent_serve::stream::Sink;

/// Writes a text to a stream.
///
/// # Errors
/// [`Fault::Output`] if the writer fails, or takes none of a piece that isn't empty; a front of the
/// text was written.
pub fn write_to_stream<'words, O: Sink>(writer: &mut O, text: &str) -> Result<(), Fault<'words>>
    ensures written { OnOk result
        (Appends (O.contents writer.old) (O.contents writer.new) text.now) }
    ensures writes { OnOk result (O.failures writer.new ≡ O.failures writer.old) }
    ensures front { OnErr result
        (WritesFront (O.contents writer.old) (O.contents writer.new) text.now) }
    ensures failed { OnErr result (HasFailed (O.failures writer.old) (O.failures writer.new)) }
    ensures fault { IfErr result (λ fault. fault ≡ Fault.Output) }
{
    match write_all(writer, text.as_bytes()) {
        Ok(()) => Ok(()),
        Err(_) => Err(Fault::Output),
    }
}

/// Writes a text that the words ask for, of help, of the version or of what a code means, and ends
/// with that.
///
/// # Errors
/// [`Fault::Output`] if the writer fails, or takes none of a piece that isn't empty; a front of the
/// text was written.
pub fn write_asked<'words, O: Sink>(writer: &mut O, text: &str) -> Result<Ended, Fault<'words>>
    ensures ended { IfOk result (λ end. end ≡ Ended.Done) }
    ensures written { OnOk result
        (Appends (O.contents writer.old) (O.contents writer.new) text.now) }
    ensures writes { OnOk result (O.failures writer.new ≡ O.failures writer.old) }
    ensures front { OnErr result
        (WritesFront (O.contents writer.old) (O.contents writer.new) text.now) }
    ensures failed { OnErr result (HasFailed (O.failures writer.old) (O.failures writer.new)) }
    ensures fault { IfErr result (λ fault. fault ≡ Fault.Output) }
{
    write_to_stream(writer, text)?;
    Ok(Ended::Done)
}
