//! The first page of the Rust crate `fluent-bundle`.

use anyhow::{Context, Result};
use fluent_bundle::{FluentArgs, FluentResource, LanguageBundle};

pub fn show(rt: &HostRuntime) -> Result<()> {
    let alloc = rt.alloc();
    let ftl_string = "intro = Welcome, { $name }.";
    let res = FluentResource::try_new(alloc, ftl_string)?;
    welcome(rt, res)
}

fn welcome(rt: &HostRuntime, res: FluentResource<'static>) -> Result<()> {
    let alloc = rt.alloc();
    let mut bundle = LanguageBundle::for_tag(alloc, "en-US").context("unknown locale")?;
    bundle.add_resource(&res)?;
    greet(rt, &bundle)
}

fn greet<'r, 's: 'r>(rt: &HostRuntime, bundle: &LanguageBundle<'r, 's>) -> Result<()> {
    let alloc = rt.alloc();
    let mut args = FluentArgs::new(alloc);
    args.set("name", "John")?;
    let msg = bundle
        .get_message("intro")
        .context("Message doesn't exist.")?;
    let mut errors = Vec::new(alloc);
    let pattern = msg.value().context("Message has no value.")?;
    let value = bundle.format_pattern(pattern, Some(&args), &mut errors)?;
    println!(rt; "{value}")?; // Welcome, John.
    Ok(())
}
