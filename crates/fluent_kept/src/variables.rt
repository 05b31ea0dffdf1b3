//! The variables that a message is shown with, in lines.
#![tactic(auto)]

ghost use Rattle.std.specs.Prelude.{◌≡◌, ◌++◌, IfOk, OnOk, option_map, string_bytes};
ghost use Rattle.fluent_run.specs.DeskView.{plain_ids};
ghost use Rattle.fluent_run.specs.Listing.{lines};
ghost use Rattle.fluent_serve.specs.Frames.{ended};
ghost use Rattle.lint_nodes.specs.HasNames.{texts};
ghost use Rattle.fluent_kept.specs.Answers.{AreVariables};
ghost use Rattle.fluent_kept.specs.Variables.{variable_lines};

use crate::question::Answer;
use fluent_calls::Callee;
use fluent_ids::FluentIds;
use lint_nodes::variables_of;
use std::alloc::{AllocError, Global};

/// The variables that the message of an id is shown with, as an answer.
pub(crate) fn variable_names<'i, 's: 'i>(
    alloc: Global,
    ids: &FluentIds<'_, 's, Callee>,
    id: &'i str,
) -> Answer
    ensures { AreVariables (plain_ids ids.now) id.now result }
{
    match variable_lines(alloc, ids, id) {
        Ok(Some(text)) => Answer::Names(text),
        Ok(None) => Answer::NoMessage,
        Err(_) => Answer::Memory,
    }
}

/// The same, each in a line that ends in LF, or `None` if there is no such message.
///
/// # Errors
/// [`AllocError`] if memory runs out; nothing is kept.
fn variable_lines<'i, 's: 'i>(
    alloc: Global,
    ids: &FluentIds<'_, 's, Callee>,
    id: &'i str,
) -> Result<Option<String>, AllocError>
    ensures { IfOk result (λ text. option_map string_bytes text
        ≡ variable_lines (plain_ids ids.now) id.now) }
{
    if !ids.has_message(id) {
        return Ok(None);
    }
    let names = variables_of(alloc, ids, id)?;
    Ok(Some(name_lines(alloc, &names.list)?))
}

/// Names, each in a line.
fn name_lines(alloc: Global, names: &[&str]) -> Result<String, AllocError>
    ensures { IfOk result (λ text. string_bytes text ≡ lines (texts names.now)) }
{
    let mut text = String::new(alloc);
    for name in names {
        push_line(&mut text, name)?;
    }
    Ok(text)
}

/// Appends a line.
fn push_line(text: &mut String, line: &str) -> Result<(), AllocError>
    ensures { OnOk result (string_bytes text.new ≡ string_bytes text.old ++ ended line.now) }
{
    text.push_str(line)?;
    text.push_str("\n")
}
