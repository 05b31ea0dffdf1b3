//! The arguments of a request, as values.

ghost use Rattle.std.specs.Prelude.{◌≡◌, [], IfOk, OnOk, is_some, option_map};
ghost use Rattle.fluent_run.specs.DeskView.{IsSetTo, arguments_view, values_behind, values_by_name};
ghost use Rattle.fluent_serve.specs.RequestView.{arguments_behind, arguments_view as texts_view};

use fluent_serve::request::Arguments;
use fluent_value::{FluentArgs, FluentValue, NoCustom};
use std::alloc::{AllocError, Global};
use std::borrow::CowStr;

/// Sets an argument to the value of a text.
fn set_valued<'line>(
    values: &mut FluentArgs<'line, NoCustom>,
    name: &'line str,
    text: &'line str,
) -> Result<(), AllocError>
    ensures { OnOk result (IsSetTo name.now text.now values.old values.new) }
{
    values.set_value(CowStr::Borrowed(name), FluentValue::try_number(text))?;
    Ok(())
}

/// The arguments that pairs of a name and a text give.
///
/// # Errors
/// [`AllocError`] if memory runs out; nothing is kept.
pub fn valued_arguments<'line>(
    alloc: Global,
    pairs: &[(&'line str, &'line str)],
) -> Result<FluentArgs<'line, NoCustom>, AllocError>
    ensures { IfOk result (λ args. arguments_view args ≡ values_by_name (texts_view pairs.now)) }
{
    let mut arguments = FluentArgs::new(alloc);
    for &(name, text) in pairs {
        set_valued(&mut arguments, name, text)?;
    }
    Ok(arguments)
}

/// The values of what is after a line's first tab, if there is one: of each argument the number
/// that its text is, or else the text. The last of a name counts. `None` if an argument has no
/// equals sign.
///
/// # Errors
/// [`AllocError`] if memory runs out before an argument without an equals sign is read; nothing is
/// kept.
pub(crate) fn read_valued<'line>(
    alloc: Global,
    rest: Option<&'line str>,
) -> Result<Option<FluentArgs<'line, NoCustom>>, AllocError>
    ensures { IfOk result (λ args. option_map arguments_view args ≡ values_behind rest.entry) }
{
    let mut values = FluentArgs::new(alloc);
    for argument in Arguments::of(rest) {
        let Some((name, text)) = argument else {
            return Ok(None);
        };
        set_valued(&mut values, name, text)?;
    }
    Ok(Some(values))
}

/// Whether each argument of what is after a line's first tab, if there is one, has an equals sign.
pub(crate) fn are_arguments(rest: Option<&str>) -> bool
    ensures { result ≡ is_some (arguments_behind rest.entry) }
{
    Arguments::of(rest).all(|argument| argument.is_some())
}
