//! Commands that `clap` lets pass, and the program refuses.

use crate::codes::all_codes;
use crate::linting::{colours_named, format_named, is_code, is_finding_code, is_function_name};
use crate::projects::{names_project, table_format_named};
use clap::ArgMatches;
use std::alloc::{AllocError, Global};
use strsim::jaro;

/// Why the program refuses a command.
#[derive(Clone, Copy)]
pub(crate) enum Refused<'words> {
    /// The value of an option, which takes something else.
    Value {
        option: &'static str,
        choices: &'static str,
        value: &'words str,
    },
    /// A code that no finding has, of this option.
    Code {
        option: &'static str,
        code: &'words str,
    },
    /// Counts without a reference.
    Counts,
    /// An option that is of projects alone.
    NoProject {
        option: &'static str,
    },
    /// A reference without patterns of translations.
    NoPatterns,
    /// Counts of a project.
    ProjectCounts,
    /// Paths that name no project.
    NoProjectNamed,
}

impl<'words> Refused<'words> {
    /// The first refusal of a command, if there is one.
    pub(crate) fn of(matches: &ArgMatches<'words>) -> Option<Self> {
        match matches.subcommand()? {
            ("lint", found) => refused_by_lint(found),
            ("format", found) => refused_by_format(found),
            ("status", found) => refused_by_status(found),
            _ => None,
        }
    }

    /// Why it is refused, in words that a pointer to the help may follow.
    ///
    /// # Errors
    /// [`AllocError`] if memory runs out; nothing is kept.
    pub(crate) fn reason(&self, alloc: Global) -> Result<String, AllocError> {
        match self {
            Refused::Value {
                option,
                choices,
                value,
            } => format!(in alloc; "{option} takes {choices}, and not '{value}';"),
            Refused::Code { option, code } => reason_of_code(alloc, option, code),
            Refused::Counts => String::from_str(alloc, "--counts needs --reference;"),
            Refused::NoProject { option } => {
                format!(in alloc; "{option} is of projects, and these paths are none;")
            }
            Refused::NoPatterns => String::from_str(
                alloc,
                "--reference needs files or folders, or patterns as 'l10n/{locale}/**';",
            ),
            Refused::ProjectCounts => String::from_str(
                alloc,
                "--counts is of files and folders; ftl status counts a project;",
            ),
            Refused::NoProjectNamed => String::from_str(
                alloc,
                "a project is an l10n.toml, or patterns as 'l10n/{locale}/**';",
            ),
        }
    }
}

/// The first refusal of `lint`, if there is one.
fn refused_by_lint<'words>(found: &ArgMatches<'words>) -> Option<Refused<'words>> {
    refused_explanation(found)
        .or_else(|| refused_way(found))
        .or_else(|| refused_name(found))
        .or_else(|| refused_project(found))
}

/// The first refusal of `lint` that depends on whether its paths name a project.
fn refused_project<'words>(found: &ArgMatches<'words>) -> Option<Refused<'words>> {
    let paths = found.get_raw("PATH").unwrap_or(&[]);
    if names_project(paths) {
        if found.get_str("counts") == Some("true") {
            return Some(Refused::ProjectCounts);
        }
        return refused_of_project(found);
    }
    if found.get_raw("only").is_some() {
        return Some(Refused::NoProject { option: "--only" });
    }
    if found.get_raw("define").is_some() {
        return Some(Refused::NoProject { option: "--define" });
    }
    if found.get_str("baseline").is_some() {
        return Some(Refused::NoProject {
            option: "--baseline",
        });
    }
    if found.get_str("write-baseline").is_some() {
        return Some(Refused::NoProject {
            option: "--write-baseline",
        });
    }
    None
}

/// The first refusal of the variables and references of a project.
fn refused_of_project<'words>(found: &ArgMatches<'words>) -> Option<Refused<'words>> {
    let variables = found.get_raw("define").unwrap_or(&[]);
    if let Some(variable) = variables.iter().find(|variable| !variable.contains('=')) {
        return Some(Refused::Value {
            option: "--define",
            choices: "NAME=VALUE",
            value: *variable,
        });
    }
    if found.get_raw("reference").is_some() {
        return Some(Refused::NoPatterns);
    }
    None
}

/// The first refusal of `status`, if there is one.
fn refused_by_status<'words>(found: &ArgMatches<'words>) -> Option<Refused<'words>> {
    let format = found.get_str("format")?;
    if table_format_named(format).is_none() {
        return Some(Refused::Value {
            option: "--format",
            choices: "text, json or markdown",
            value: format,
        });
    }
    if !names_project(found.get_raw("PATH").unwrap_or(&[])) {
        return Some(Refused::NoProjectNamed);
    }
    refused_of_project(found)
}

/// The refusal of an unknown format or choice of colours, if there is one.
fn refused_way<'words>(found: &ArgMatches<'words>) -> Option<Refused<'words>> {
    let format = found.get_str("format")?;
    if format_named(format).is_none() {
        return Some(Refused::Value {
            option: "--format",
            choices: "text, line, json, github, sarif or gitlab",
            value: format,
        });
    }
    let colours = found.get_str("color")?;
    if colours_named(colours).is_none() {
        return Some(Refused::Value {
            option: "--color",
            choices: "auto, always or never",
            value: colours,
        });
    }
    None
}

/// The refusal of an unknown code, of a function's name that messages can't call, or of counts
/// without a reference.
fn refused_name<'words>(found: &ArgMatches<'words>) -> Option<Refused<'words>> {
    if let Some(refused) = refused_code(found) {
        return Some(refused);
    }
    let functions = found.get_raw("function").unwrap_or(&[]);
    if let Some(name) = functions.iter().find(|name| !is_function_name(name)) {
        return Some(Refused::Value {
            option: "--function",
            choices: "a name in capital letters, as PLATFORM",
            value: *name,
        });
    }
    if found.get_str("counts") == Some("true") && found.get_raw("reference").is_none() {
        return Some(Refused::Counts);
    }
    None
}

/// The refusal of a code that is to be explained, if no finding has it.
fn refused_explanation<'words>(found: &ArgMatches<'words>) -> Option<Refused<'words>> {
    let code = found.get_str("explain")?;
    if is_finding_code(code) {
        None
    } else {
        Some(Refused::Code {
            option: "--explain",
            code,
        })
    }
}

/// The refusal of the first code that is left out or selected and that no finding has.
fn refused_code<'words>(found: &ArgMatches<'words>) -> Option<Refused<'words>> {
    if let Some(code) = unknown_code(found, "ignore") {
        return Some(Refused::Code {
            option: "--ignore",
            code,
        });
    }
    let code = unknown_code(found, "select")?;
    Some(Refused::Code {
        option: "--select",
        code,
    })
}

/// The first code of an option that no finding has.
fn unknown_code<'words>(found: &ArgMatches<'words>, option: &str) -> Option<&'words str> {
    for value in found.get_raw(option).unwrap_or(&[]) {
        if let Some(code) = value.split(',').find(|code| !is_code(code)) {
            return Some(code);
        }
    }
    None
}

/// The first refusal of `format`, if there is one.
fn refused_by_format<'words>(found: &ArgMatches<'words>) -> Option<Refused<'words>> {
    let argument = found
        .get_raw("argument")?
        .iter()
        .find(|argument| !argument.contains('='))?;
    Some(Refused::Value {
        option: "--argument",
        choices: "NAME=VALUE",
        value: *argument,
    })
}

/// Why there is no such code, and which one may be meant.
fn reason_of_code(alloc: Global, option: &str, code: &str) -> Result<String, AllocError> {
    match near_code(alloc, code)? {
        Some(near) => format!(in alloc;
            "{option} takes the code of a finding, and not '{code}'; did you mean '{near}'?"
        ),
        None => format!(in alloc; "{option} takes the code of a finding, and not '{code}';"),
    }
}

/// The code that is most like this one, if any is: as `clap` finds the names of options.
fn near_code(alloc: Global, code: &str) -> Result<Option<&'static str>, AllocError> {
    let mut near = None;
    let mut likeness = 0.7;
    for &known in all_codes() {
        let score = jaro(alloc, code, known)?;
        if score > likeness {
            likeness = score;
            near = Some(known);
        }
    }
    Ok(near)
}
