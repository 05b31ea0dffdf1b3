//! Values that a program passes.

use anyhow::{Context, Result};
use fluent_bundle::{EnglishBundle, FluentArgs, FluentValue, NoCustom};

pub fn show<'r, 's: 'r>(rt: &HostRuntime, bundle: &EnglishBundle<'r, 's>) -> Result<()> {
    let alloc = rt.alloc();
    let mut args = FluentArgs::new(alloc);
    args.set("name", "Jane")?;
    args.set("count", 3_u32)?;
    args.set("amount", FluentValue::try_number("3.5"))?;
    for id in ["welcome", "items", "total"] {
        say(rt, bundle, id, &args)?;
    }
    Ok(())
}

/// Prints the text of a message.
fn say<'r, 's: 'r>(
    rt: &HostRuntime,
    bundle: &EnglishBundle<'r, 's>,
    id: &str,
    args: &FluentArgs<'_, NoCustom>,
) -> Result<()> {
    let message = bundle.get_message(id).context("no such message")?;
    let pattern = message.value().context("it has no value")?;
    let text = bundle.format_pattern(pattern, Some(args), &mut Vec::new(rt.alloc()))?;
    println!(rt; "{text}")?;
    Ok(())
}
