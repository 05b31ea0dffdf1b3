//! The counts at the end of a report with a reference, as text and as lines of JSON.

ghost use Rattle.lint_report.specs.Changes.{Appends};
ghost use Rattle.lint_report.specs.ReportChanges.{Puts};
ghost use Rattle.std.specs.Prelude.{◌≡◌, ◌++◌, [], IfOk, OnOk, decimal, map, string_bytes};
ghost use Rattle.std.specs.Option.{option_map_or};
ghost use Rattle.lint_findings.specs.JsonReport.{json_line};
ghost use Rattle.lint_findings.specs.Summary.{count_text, messages_text, number_or_null, summary_data, summary_json, summary_line, summary_text};
ghost use Rattle.lint_report.specs.ReportView.{summary_view};
ghost use Rattle.serde_json.specs.View.{view};
ghost use Rattle.serde_json.specs.Written.{compact_text};

use crate::json::{put_number, put_text};
use crate::push_masked;
use serde_json::{Map, Value};
use std::alloc::{AllocError, Global};

/// The counts of a file. A file of the catalog has obsolete and untranslated messages, and one of
/// the reference missing ones.
#[derive(Clone, Copy, Debug, PartialEq, Eq)]
pub struct Summary<'a> {
    /// The name of the file.
    pub file: &'a str,
    pub messages: usize,
    pub missing: Option<usize>,
    pub obsolete: Option<usize>,
    pub untranslated: Option<usize>,
}

/// Appends a line for each summary: `FILE: 120 messages, 2 obsolete, 5 untranslated`.
pub(crate) fn push_summary_lines(text: &mut String, summaries: &[Summary]) -> Result<(), AllocError>
    ensures { OnOk result (Appends text.old text.new (summary_text (map summary_view summaries.now))) }
{
    for summary in summaries {
        push_summary_line(text, summary)?;
    }
    Ok(())
}

/// Appends the line of a summary.
fn push_summary_line(text: &mut String, summary: &Summary) -> Result<(), AllocError>
    ensures { OnOk result (Appends text.old text.new (summary_line (summary_view summary.now))) }
{
    push_masked(text, summary.file)?;
    let messages = summary.messages;
    let word = message_word(messages);
    write!(text, ": {messages}{word}")?;
    push_count(text, "missing", summary.missing)?;
    push_count(text, "obsolete", summary.obsolete)?;
    push_count(text, "untranslated", summary.untranslated)?;
    text.push_str("\n")
}

/// The word after a number of messages, with a space before it.
fn message_word(count: usize) -> &'static str
    ensures { messages_text count ≡ decimal count ++ result.now }
{
    if count == 1 { " message" } else { " messages" }
}

/// Appends how many messages are something, if they are counted.
fn push_count(text: &mut String, what: &str, count: Option<usize>) -> Result<(), AllocError>
    ensures { OnOk result (Appends text.old text.new (option_map_or (count_text what.now) count [])) }
{
    match count {
        Some(count) => write!(text, ", {count} {what}"),
        None => Ok(()),
    }
}

/// Appends a line for each summary.
pub(crate) fn push_json_summaries(
    text: &mut String,
    alloc: Global,
    summaries: &[Summary],
) -> Result<(), AllocError>
    ensures { OnOk result (Appends text.old text.new (summary_json (map summary_view summaries.now))) }
{
    for summary in summaries {
        push_json_summary(text, alloc, summary)?;
    }
    Ok(())
}

/// Appends the line of a summary: an object with all keys.
fn push_json_summary(text: &mut String, alloc: Global, summary: &Summary) -> Result<(), AllocError>
    ensures { OnOk result (Appends text.old text.new (json_line (summary_data (summary_view summary.now)))) }
{
    let json = summary_text(alloc, summary)?;
    writeln!(text, "{json}")
}

/// The object of a summary, as text.
fn summary_text(alloc: Global, summary: &Summary) -> Result<String, AllocError>
    ensures { IfOk result (λ json. string_bytes json
        ≡ compact_text (summary_data (summary_view summary.now))) }
{
    summary_value(alloc, summary)?.to_string(alloc)
}

/// The object of a summary. The keys are in the order of their bytes.
fn summary_value(alloc: Global, summary: &Summary) -> Result<Value, AllocError>
    ensures { IfOk result (λ value. view value ≡ summary_data (summary_view summary.now)) }
{
    let mut members = Map::new(alloc);
    put_text(&mut members, alloc, "file", summary.file)?;
    put_number(&mut members, alloc, "messages", summary.messages)?;
    put_optional_number(&mut members, alloc, "missing", summary.missing)?;
    put_optional_number(&mut members, alloc, "obsolete", summary.obsolete)?;
    put_optional_number(&mut members, alloc, "untranslated", summary.untranslated)?;
    Ok(Value::Object(members))
}

/// Puts a number at a key, or null if there is none.
fn put_optional_number(
    members: &mut Map<String, Value>,
    alloc: Global,
    key: &str,
    count: Option<usize>,
) -> Result<(), AllocError>
    ensures { OnOk result (Puts members.old.entries members.new.entries key.now (number_or_null count)) }
{
    match count {
        Some(count) => put_number(members, alloc, key, count),
        None => serde_json::put(members, alloc, key, Value::Null),
    }
}
