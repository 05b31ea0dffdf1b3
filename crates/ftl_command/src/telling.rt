//! The lines on which a failure is reported.
ghost use Rattle.std.specs.Prelude.{◌≡◌, OnOk, OnErr, string_bytes};
ghost use Rattle.std.specs.Io.KnownBytes.{Appends};
ghost use Rattle.fluent_serve.specs.Devices.{HasFailed};
ghost use Rattle.ftl_command.specs.Ends.{seen, ReportsErrors, ReportsOver, WritesOrFails};
ghost use Rattle.ftl_command.specs.Faults.{IsShownReason, end_status, fault_line, said, status_of};
ghost use Rattle.ftl_command.specs.Program.{WritesFront};

use crate::ended::Ended;
use crate::fault::Fault;
use crate::output::write_to_stream;
use fluent_serve::serve::write_all;
use fluent_serve::stream::{FromWrite, Sink, WriteFailed};
use std::alloc::Global;
use std::io;

/// Reports a failure on one line, and returns the program's status. It doesn't allocate. If
/// `faults` fails, only the status reports it.
pub fn tell<F: io::Write + Drop>(faults: F, fault: &Fault<'_>) -> u8
    ensures status { result ≡ status_of fault.now }
    ensures told { ReportsOver (F.contents faults) fault.now }
{
    tell_line_on(&mut FromWrite::new(faults), fault)
}

/// Reports a failure on one line of a sink, and returns the program's status.
fn tell_line_on<S: Sink>(faults: &mut S, fault: &Fault<'_>) -> u8
    ensures status { result ≡ status_of fault.now }
    ensures told { WritesOrFails (seen S.contents S.failures faults.old faults.new)
        (fault_line fault.now) }
{
    let _ = write_line(faults, fault);
    fault.status()
}

/// Reports a failure on a sink, and why it came, and returns the program's status. Contracts see
/// what the sink took: the lines, or their beginning if it failed.
pub fn tell_on<S: Sink>(faults: &mut S, fault: &Fault<'_>, why: &str) -> u8
    ensures status { result ≡ status_of fault.now }
    ensures told { WritesOrFails (seen S.contents S.failures faults.old faults.new)
        (said fault.now why.now) }
{
    let _ = write_lines(faults, fault, why);
    fault.status()
}

/// The lines on why a fault came, if they are to be shown and memory doesn't run out for them.
pub(crate) fn shown_reason(alloc: Global, fault: &Fault<'_>, is_shown: bool) -> String
    ensures { IsShownReason is_shown fault.now (string_bytes result) }
{
    if !is_shown {
        return String::new(alloc);
    }
    match fault.reason(alloc) {
        Ok(lines) => lines,
        Err(_) => String::new(alloc),
    }
}

/// Reports what went wrong in a text, if anything did, and returns the program's status. If
/// `faults` fails, only the status reports it.
pub fn tell_errors_on<S: Sink>(faults: &mut S, end: &Ended) -> u8
    ensures status { result ≡ end_status end.now }
    ensures told { ReportsErrors (seen S.contents S.failures faults.old faults.new) end.now }
{
    if let Ended::Incomplete { errors }
    | Ended::NoFile { errors }
    | Ended::Partial { errors }
    | Ended::OutOfMemory { errors } = end
    {
        let _ = write_to_stream(faults, errors.as_str());
    }
    end.status()
}

/// Writes the line of a fault, and why it came.
fn write_lines<S: Sink>(faults: &mut S, fault: &Fault<'_>, why: &str) -> Result<(), WriteFailed>
    ensures written { OnOk result (Appends (S.contents faults.old) (S.contents faults.new)
        (said fault.now why.now)) }
    ensures writes { OnOk result (S.failures faults.new ≡ S.failures faults.old) }
    ensures front { OnErr result (WritesFront (S.contents faults.old) (S.contents faults.new)
        (said fault.now why.now)) }
    ensures failed { OnErr result (HasFailed (S.failures faults.old) (S.failures faults.new)) }
{
    write_line(faults, fault)?;
    write_all(faults, why.as_bytes())
}

/// Writes the line of a fault.
fn write_line<S: Sink>(faults: &mut S, fault: &Fault<'_>) -> Result<(), WriteFailed>
    ensures written { OnOk result (Appends (S.contents faults.old) (S.contents faults.new)
        (fault_line fault.now)) }
    ensures writes { OnOk result (S.failures faults.new ≡ S.failures faults.old) }
    ensures front { OnErr result (WritesFront (S.contents faults.old) (S.contents faults.new)
        (fault_line fault.now)) }
    ensures failed { OnErr result (HasFailed (S.failures faults.old) (S.failures faults.new)) }
{
    let (name, text) = fault.parts();
    write_all(faults, b"ftl: ")?;
    write_all(faults, name.as_bytes())?;
    write_all(faults, text.as_bytes())?;
    write_all(faults, b"\n")
}
