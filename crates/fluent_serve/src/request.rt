//! Request lines: an id, an optional attribute, and arguments, separated by tabs.
ghost use Rattle.std.specs.Iterator.{YieldsFirstBy, item_count};
ghost use Rattle.std.specs.Prelude.{◌≡◌, option_map};
ghost use Rattle.fluent_serve.specs.Requests.{request_of};
ghost use Rattle.fluent_serve.specs.RequestView.{all_arguments, argument_in, argument_view, arguments_behind, arguments_left, asked_request, each_argument};

use crate::cut::cut;
use std::str;

/// What a line asks for, before its arguments are read.
///
/// ```no_run
/// let asked = Asked::of(b"total.title\tcount=3").context("not UTF-8")?;
/// println!(rt; "{}", asked.id)?; // total
/// ```
#[derive(Clone, Copy, Debug)]
pub struct Asked<'line> {
    pub id: &'line str,
    pub attribute: Option<&'line str>,
    /// What is after the line's first tab, if it has one.
    pub arguments: Option<&'line str>,
}

impl<'line> Asked<'line> {
    /// What a line asks for, without its line feed. `None` if it is not UTF-8.
    pub fn of(line: &'line [u8]) -> Option<Asked<'line>>
        ensures { asked_request result ≡ request_of (λ s. s) line.now }
    {
        let Ok(text) = str::from_utf8(line) else {
            return None;
        };
        let (name, arguments) = cut(text, '\t');
        let (id, attribute) = cut(name, '.');
        Some(Asked {
            id,
            attribute,
            arguments,
        })
    }
}

/// The arguments of a request line, one after the other: a name and a text, or `None` if there is
/// no equals sign.
///
/// ```no_run
/// for argument in Arguments::of(asked.arguments) {
///     let (name, text) = argument.context("no equals sign")?;
///     println!(rt; "{name} is {text}")?; // count is 3
/// }
/// ```
#[derive(Drop)]
pub struct Arguments<'line> {
    /// What the next argument begins, if there is one.
    rest: Option<&'line str>,
}

impl<'line> Arguments<'line> {
    /// Those of what is after a line's first tab, if it has one.
    pub fn of(rest: Option<&'line str>) -> Self
        ensures each { arguments_left result ≡ each_argument rest.entry }
        ensures all { all_arguments (arguments_left result) ≡ arguments_behind rest.entry }
    {
        Arguments { rest }
    }
}

impl<'line> Iterator for Arguments<'line> {
    type Item = Option<(&'line str, &'line str)>;

    ghost next_gives = { YieldsFirstBy (option_map argument_view) arguments_left };

    ghost remaining = { item_count arguments_left };

    #[inline(always)]
    fn next(&mut self) -> Option<Option<(&'line str, &'line str)>> {
        let (part, behind) = cut(self.rest?, '\t');
        self.rest = behind;
        Some(read_argument(part))
    }
}

/// An argument: its name ends at its first equals sign.
fn read_argument(part: &str) -> Option<(&str, &str)>
    ensures { option_map argument_view result ≡ argument_in part.now }
{
    let (name, value) = cut(part, '=');
    Some((name, value?))
}
