//! Findings as commands of a workflow of GitHub.

ghost use Rattle.lint_report.specs.Changes.{Appends};
ghost use Rattle.std.specs.Prelude.{◌≡◌, OnOk, IfSome, IfNone, ◌<◌, ◌∷◌, [], encode_utf8};
ghost use Rattle.lint_findings.specs.View.{finding_view, severity_view};
ghost use Rattle.lint_findings.specs.GithubReport.{command_name as name_of_command, finding_command};
ghost use Rattle.lint_findings.specs.Report.{labelled_text};
ghost use Rattle.lint_report.specs.Parts.{escaped, part_byte};
ghost use Rattle.lint_report.specs.declared.commands.Part.TheVariants.{Message};
ghost use Rattle.lint_report.specs.View.{IsAt, entry_label, in_file, optional_text};

use lint_findings::{File, Finding, Severity, SourcePosition};
use std::alloc::AllocError;

/// Appends the command of a finding that is at this place:
/// `::error file=FILE,line=LINE,col=COLUMN,title=CODE::TEXT`.
pub(crate) fn push_command(
    text: &mut String,
    file: &File,
    finding: &Finding,
    place: SourcePosition,
) -> Result<(), AllocError>
    requires { IsAt file.now finding.now place }
    ensures { OnOk result (Appends text.old text.new (finding_command (in_file file.now finding.now))) }
{
    let name = command_name(finding.severity);
    write!(text, "::{name} file=")?;
    push_escaped(text, Part::Property, file.name)?;
    let line = place.line();
    let column = place.column();
    let code = finding.code;
    write!(text, ",line={line},col={column},title={code}::")?;
    push_escaped_label(text, finding)?;
    text.push_str("\n")
}

/// Appends what is wrong, after the entry that it is wrong with.
fn push_escaped_label(text: &mut String, finding: &Finding) -> Result<(), AllocError>
    ensures { OnOk result (Appends text.old text.new (escaped Message (labelled_text (finding_view finding.now)))) }
{
    push_escaped_entry(text, &finding.entry)?;
    push_escaped(text, Part::Message, &finding.text)
}

/// Appends an entry and a colon, if there is an entry.
fn push_escaped_entry(text: &mut String, entry: &Option<String>) -> Result<(), AllocError>
    ensures { OnOk result (Appends text.old text.new (escaped Message (entry_label (optional_text entry.now)))) }
{
    match entry {
        Some(entry) => {
            push_escaped(text, Part::Message, entry)?;
            text.push_str(": ")
        }
        None => Ok(()),
    }
}

/// The name of the command for a severity.
fn command_name(severity: Severity) -> &'static str
    ensures { result.now ≡ name_of_command (severity_view severity) }
{
    match severity {
        Severity::Error => "error",
        Severity::Warning => "warning",
        Severity::Note => "notice",
    }
}

/// A part of a command that a text stands in.
#[derive(Clone, Copy)]
enum Part {
    /// The value of a property, as that of `file`.
    Property,
    /// The message, which is shown.
    Message,
}

impl Part {
    /// The escape of a character that this part can't have as it is.
    fn escape(self, c: char) -> Option<&'static str>
        ensures escaped { IfSome result (λ escape. (c < 128) × (escape.now ≡ part_byte self c)) }
        ensures plain { IfNone result (part_byte self c ≡ c ∷ []) }
    {
        match (self, c) {
            (_, '%') => Some("%25"),
            (_, '\r') => Some("%0D"),
            (_, '\n') => Some("%0A"),
            (Part::Property, ':') => Some("%3A"),
            (Part::Property, ',') => Some("%2C"),
            _ => None,
        }
    }
}

/// Appends a text as it is written in this part of a command.
fn push_escaped(text: &mut String, part: Part, shown: &str) -> Result<(), AllocError>
    ensures { OnOk result (Appends text.old text.new (escaped part shown.now)) }
{
    for c in shown.chars() {
        push_escaped_character(text, part, c)?;
    }
    Ok(())
}

/// Appends a character as it is written in this part of a command.
fn push_escaped_character(text: &mut String, part: Part, c: char) -> Result<(), AllocError>
    ensures { OnOk result (Appends text.old text.new (escaped part (encode_utf8 c))) }
{
    match part.escape(c) {
        Some(escape) => text.push_str(escape),
        None => text.push(c),
    }
}
