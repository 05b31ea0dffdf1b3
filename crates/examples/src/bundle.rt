//! Builds a bundle from a source, with a function and a type of values of the program's own, and
//! prints some of its texts.

mod catalog;
mod day;
mod opening;

use anyhow::{Context, Result};
use catalog::Catalog;
use day::Day;
use fluent_bundle::{
    EnglishPlurals, FluentArgs, FluentBundle, FluentResource, FluentValue, LanguageBundle,
    NoFormatter, NoTransform,
};
use opening::IsOpen;
use std::alloc::Global;

const SOURCE: &str = "\
-shop = The shop
hours = { IS_OPEN($day) ->
        [yes] { -shop } is open on { $day }.
       *[no] { -shop } is closed on { $day }.
    }
mail = { $count ->
        [0] No mail, { $name }.
        [one] One letter, { $name }.
       *[other] { $count } letters, { $name }.
    }
";

/// What the program asks for its texts.
type Bundle<'r, 's> = FluentBundle<'r, 's, EnglishPlurals, Day, IsOpen, NoFormatter, NoTransform>;

pub fn main(rt: HostRuntime) -> Result<()> {
    let resource = FluentResource::try_new(rt.alloc(), SOURCE)?;
    show(&rt, &resource)?;
    show_catalog(&rt)?;
    show_polish(&rt)
}

/// Builds a bundle, and prints some of its texts.
fn show(rt: &HostRuntime, resource: &FluentResource<'static>) -> Result<()> {
    let mut bundle = Bundle::english(rt.alloc());
    bundle.set_use_isolating(false);
    bundle.add_function("IS_OPEN", IsOpen)?;
    bundle.add_resource(resource)?;
    say_all(rt, &bundle)
}

fn say_all<'r, 's: 'r>(rt: &HostRuntime, bundle: &Bundle<'r, 's>) -> Result<()> {
    for day in [Day(5), Day(7)] {
        say(rt, bundle, "hours", &day_args(rt.alloc(), day)?)?;
    }
    for count in [0_u32, 1, 5] {
        say(rt, bundle, "mail", &mail_args(rt.alloc(), count)?)?;
    }
    Ok(())
}

fn day_args(alloc: Global, day: Day) -> Result<FluentArgs<'static, Day>> {
    let mut args = FluentArgs::new(alloc);
    args.set("day", FluentValue::Custom(day))?;
    Ok(args)
}

fn mail_args(alloc: Global, count: u32) -> Result<FluentArgs<'static, Day>> {
    let mut args = FluentArgs::new(alloc);
    args.set("count", count)?;
    args.set("name", "Jane")?;
    Ok(args)
}

/// Prints the text of a message. Whatever is missing is written in braces, and the errors say why:
/// see `docs/reference/errors.md`.
fn say<'r, 's: 'r>(
    rt: &HostRuntime,
    bundle: &Bundle<'r, 's>,
    id: &str,
    args: &FluentArgs<'_, Day>,
) -> Result<()> {
    let message = bundle.get_message(id).context("no such message")?;
    let pattern = message.value().context("no value")?;
    let mut errors = Vec::new(rt.alloc());
    let text = bundle.format_pattern(pattern, Some(args), &mut errors)?;
    println!(rt; "{text} ({} errors)", errors.len())?;
    Ok(())
}

/// Keeps two sources in a catalog, and prints texts of it.
fn show_catalog(rt: &HostRuntime) -> Result<()> {
    let alloc = rt.alloc();
    let resources = [
        FluentResource::try_new(alloc, "inbox = { $name } has { $count } letters.\n")?,
        FluentResource::try_new(alloc, "bye = Goodbye, { $name }.\n")?,
    ];
    let mut catalog = Catalog::new(alloc, &resources)?;
    for id in ["inbox", "bye"] {
        say_from(rt, &mut catalog, id)?;
    }
    println!(rt; "{} with errors", catalog.faulty)?;
    Ok(())
}

/// Prints a text of a catalog, for Jane.
fn say_from<'r, 's: 'r>(rt: &HostRuntime, catalog: &mut Catalog<'r, 's>, id: &str) -> Result<()> {
    let mut args = FluentArgs::new(rt.alloc());
    args.set("name", "Jane")?;
    let text = catalog.text(rt.alloc(), id, &args)?;
    println!(rt; "{text}")?;
    Ok(())
}

const POLISH: &str = "\
files = { $count } { $count ->
    [one] plik
    [few] pliki
   *[many] plików
}
";

/// Prints a text by the plural rules of Polish.
fn show_polish(rt: &HostRuntime) -> Result<()> {
    let resource = FluentResource::try_new(rt.alloc(), POLISH)?;
    count_files(rt, resource)
}

fn count_files(rt: &HostRuntime, resource: FluentResource<'static>) -> Result<()> {
    let alloc = rt.alloc();
    let mut bundle = LanguageBundle::for_tag(alloc, "pl").context("no rules")?;
    bundle.set_use_isolating(false);
    bundle.add_resource(&resource)?;
    for count in [1_u32, 3, 5] {
        say_count(rt, &bundle, count)?;
    }
    Ok(())
}

/// Prints how many files there are.
fn say_count<'r, 's: 'r>(
    rt: &HostRuntime,
    bundle: &LanguageBundle<'r, 's>,
    count: u32,
) -> Result<()> {
    let message = bundle.get_message("files").context("no such message")?;
    let pattern = message.value().context("the message has no value")?;
    let mut args = FluentArgs::new(rt.alloc());
    args.set("count", count)?;
    let text = bundle.format_pattern(pattern, Some(&args), &mut Vec::new(rt.alloc()))?;
    println!(rt; "{text}")?;
    Ok(())
}
