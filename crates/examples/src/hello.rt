//! A first bundle: a source, two of its messages, and a value.

use anyhow::{Context, Result};
use fluent_bundle::{FluentArgs, FluentResource, LanguageBundle};

const SOURCE: &str = "\
hello-world = Hello, world!
intro = Welcome, { $name }.
";

pub fn main(rt: HostRuntime) -> Result<()> {
    let alloc = rt.alloc();

    // 1. Read a source. The resource borrows it.
    let resource = FluentResource::try_new(alloc, SOURCE)?;
    greet(&rt, &resource)
}

/// Formats two messages of a resource.
fn greet(rt: &HostRuntime, resource: &FluentResource<'static>) -> Result<()> {
    let alloc = rt.alloc();

    // 2. Make a bundle for a locale.
    let mut bundle = LanguageBundle::for_tag(alloc, "en-US").context("unknown locale")?;

    // 3. Add the resource to it. The bundle borrows the resource.
    bundle.add_resource(resource)?;
    say_hello(rt, &bundle)?;
    say_welcome(rt, &bundle)
}

fn say_hello<'r, 's: 'r>(rt: &HostRuntime, bundle: &LanguageBundle<'r, 's>) -> Result<()> {
    let alloc = rt.alloc();

    // 4. Look up a message.
    let message = bundle
        .get_message("hello-world")
        .context("no such message")?;

    // 5. Format its value. What goes wrong is put into `errors`; there is a text all the same.
    let mut errors = Vec::new(alloc);
    let pattern = message.value().context("the message has no value")?;
    let text = bundle.format_pattern(pattern, None, &mut errors)?;
    println!(rt; "{text}")?; // Hello, world!
    Ok(())
}

fn say_welcome<'r, 's: 'r>(rt: &HostRuntime, bundle: &LanguageBundle<'r, 's>) -> Result<()> {
    let alloc = rt.alloc();

    // 6. Format a message with an argument.
    let mut args = FluentArgs::new(alloc);
    args.set("name", "John")?;
    let message = bundle.get_message("intro").context("no such message")?;
    let pattern = message.value().context("the message has no value")?;
    // The marks U+2068 and U+2069 around the name keep its direction from changing that of the
    // text.
    let mut errors = Vec::new(alloc);
    let text = bundle.format_pattern(pattern, Some(&args), &mut errors)?;
    println!(rt; "{text}")?; // Welcome, John.

    println!(rt; "{} errors", errors.len())?;
    Ok(())
}
