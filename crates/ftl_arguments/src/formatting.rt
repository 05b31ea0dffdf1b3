//! The command `format`, from what `clap` found for it.
ghost use Rattle.std.specs.Prelude.{◌≡◌, IfOk, Some, None, option_map};
ghost use Rattle.fluent_serve.specs.Requests.{argument_of, arguments_of};
ghost use Rattle.fluent_serve.specs.Text.{cut_at, dot, equals};
ghost use Rattle.fluent_serve.specs.RequestView.{argument_view};
ghost use Rattle.ftl_arguments.specs.Meaning.{arguments_in, format_in, id_in, texts};
ghost use Rattle.ftl_arguments.specs.CommandView.{format_view, found_rows, name_view, read_view, IfRefused};

use crate::commands::Format;
use crate::reading::{WordsError, files_in, is_given, locale_in};
use clap::ArgMatches;
use fluent_serve::cut::cut;
use std::alloc::{AllocError, Global};

/// Reads what was found for `format`.
///
/// # Errors
/// [`WordsError::Bad`]: an argument has no equals sign. [`WordsError::Memory`]: memory ran out.
pub(crate) fn format_in<'words>(
    alloc: Global,
    found: &ArgMatches<'words>,
) -> Result<Format<'words>, WordsError>
    ensures format { IfOk result (λ format.
        format_in (found_rows found.now) ≡ Some (format_view format)) }
    ensures nothing { IfRefused result (format_in (found_rows found.now) ≡ None) }
{
    let Some((id, attribute)) = name_in(found) else {
        return Err(WordsError::Bad);
    };
    let Some(arguments) = arguments_in(alloc, found)? else {
        return Err(WordsError::Bad);
    };
    Ok(Format {
        isolating: !is_given(found, "no-isolating"),
        overriding: is_given(found, "overriding"),
        locale: locale_in(found),
        plain_numbers: is_given(found, "plain-numbers"),
        id,
        attribute,
        arguments,
        files: files_in(alloc, found)?,
    })
}

/// The id of a message, and after a dot the name of its attribute.
fn name_in<'words>(found: &ArgMatches<'words>) -> Option<(&'words str, Option<&'words str>)>
    ensures { option_map name_view result ≡ option_map (cut_at dot) (id_in (found_rows found.now)) }
{
    let name = found.get_str("ID")?;
    Some(cut(name, '.'))
}

/// The arguments that were given. `None` if one has no equals sign.
fn arguments_in<'words>(
    alloc: Global,
    found: &ArgMatches<'words>,
) -> Result<Option<Vec<(&'words str, &'words str)>>, AllocError>
    ensures { IfOk result (λ arguments. read_view arguments
        ≡ arguments_of (λ s. s) (arguments_in (found_rows found.now))) }
{
    read_arguments(alloc, found.get_raw("argument").unwrap_or(&[]))
}

/// The arguments in words. `None` if a word is no argument.
pub(crate) fn read_arguments<'words>(
    alloc: Global,
    words: &[&'words str],
) -> Result<Option<Vec<(&'words str, &'words str)>>, AllocError>
    ensures { IfOk result (λ arguments. read_view arguments
        ≡ arguments_of (λ s. s) (texts words.now)) }
{
    let mut arguments = Vec::new(alloc);
    for &word in words {
        let Some(argument) = read_argument(word) else {
            return Ok(None);
        };
        arguments.push(argument)?;
    }
    Ok(Some(arguments))
}

/// The argument in a word: its name ends at the first equals sign.
fn read_argument(word: &str) -> Option<(&str, &str)>
    ensures { option_map argument_view result ≡ argument_of (λ s. s) (cut_at equals word.now) }
{
    word.split_once('=')
}
