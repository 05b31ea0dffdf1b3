//! The line that says what is wrong with command-line arguments.

use crate::elsewhere::meant_by;
use crate::refusals::Refused;
use clap::error::ErrorKind;
use clap::{ArgMatches, Error};
use std::alloc::{AllocError, Global};

/// The commands that have help of their own.
static COMMANDS: [&str; 11] = [
    "run",
    "format",
    "check",
    "lint",
    "status",
    "tidy",
    "clean",
    "normalize",
    "join",
    "export",
    "import",
];

/// A line that says what the program refuses of what `clap` found, and where help is. `None` if
/// memory runs out.
pub(crate) fn advice_on(alloc: Global, words: &[&str], matches: &ArgMatches<'_>) -> Option<String> {
    let reason = match Refused::of(matches) {
        Some(refused) => refused.reason(alloc).ok()?,
        None => String::from_str(alloc, "that isn't understood;").ok()?,
    };
    advice(alloc, words, reason.as_str()).ok()
}

/// A line that says what `clap` refuses of command-line arguments, and where help is. `None` if
/// memory runs out.
pub(crate) fn advice_by(alloc: Global, words: &[&str], error: &Error) -> Option<String> {
    let (_, command) = command_named(words);
    let reason = reason_of(alloc, error, command).ok()?;
    advice(alloc, words, reason.as_str()).ok()
}

/// The line of a reason.
fn advice(alloc: Global, words: &[&str], reason: &str) -> Result<String, AllocError> {
    let (space, command) = command_named(words);
    format!(in alloc; "ftl: {reason} see ftl{space}{command} --help\n")
}

/// The reason that an error of `clap` gives.
fn reason_of(alloc: Global, error: &Error, command: &str) -> Result<String, AllocError> {
    match error.kind() {
        ErrorKind::MissingSubcommand => String::from_str(alloc, "no command is named;"),
        _ => reason_in(alloc, error.to_string(alloc)?.as_str(), command),
    }
}

/// The reason in the text of an error of `clap`: its first paragraph, and what may be meant.
fn reason_in(alloc: Global, text: &str, command: &str) -> Result<String, AllocError> {
    let text = text.strip_prefix("error: ").unwrap_or(text);
    let (first, rest) = text.split_once("\n\n").unwrap_or((text, ""));
    let mut reason = String::new(alloc);
    push_words(&mut reason, first)?;
    if let Some(meant) = meant_by(command, unknown_word(first)) {
        write!(reason, "; {meant}")?;
    } else if let Some(names) = near(rest) {
        write!(reason, "; did you mean {names}?")?;
    } else {
        reason.push(';')?;
    }
    Ok(reason)
}

/// The word that an error is on: the first one in quotes.
fn unknown_word(paragraph: &str) -> &str {
    paragraph.split('\'').nth(1).unwrap_or("")
}

/// Appends a paragraph as one line, in the words of the pages.
fn push_words(reason: &mut String, paragraph: &str) -> Result<(), AllocError> {
    let mut left = paragraph;
    if let Some(name) = paragraph.strip_prefix("unrecognized subcommand ") {
        reason.push_str("no command ")?;
        left = name;
    }
    for (number, line) in left.lines().enumerate() {
        if number > 0 {
            reason.push(' ')?;
        }
        reason.push_str(line.trim())?;
    }
    Ok(())
}

/// The similar names in the tip of an error, in quotes.
fn near(tip: &str) -> Option<&str> {
    let (_, names) = tip
        .split_once("exists: ")
        .or_else(|| tip.split_once("exist: "))?;
    names.lines().next()
}

/// The command that the first argument names, with a space before it. Both are empty if it names
/// none.
fn command_named<'words>(words: &[&'words str]) -> (&'static str, &'words str) {
    let Some(&name) = words.first() else {
        return ("", "");
    };
    if COMMANDS.contains(&name) {
        (" ", name)
    } else {
        ("", "")
    }
}
