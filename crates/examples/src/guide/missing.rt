//! A value that a program forgot to pass.

use anyhow::{Context, Result};
use fluent_bundle::resolver::ResolverError;
use fluent_bundle::resolver::errors::ReferenceKind;
use fluent_bundle::{EnglishBundle, FluentError};

pub fn show<'r, 's: 'r>(rt: &HostRuntime, bundle: &EnglishBundle<'r, 's>) -> Result<()> {
    let alloc = rt.alloc();
    let message = bundle.get_message("checkout").context("no such message")?;
    let title = message.get_attribute("title").context("no such attribute")?;
    let pattern = title.value();
    let mut errors = Vec::new(alloc);
    let text = bundle.format_pattern(pattern, None, &mut errors)?;
    println!(rt; "{text}")?; // Pay for {$count} items
    for error in errors.iter() {
        println!(rt; "{error}")?; // Resolver error: Unknown variable: $count
    }
    name_variables(rt, &errors)
}

fn name_variables(rt: &HostRuntime, errors: &[FluentError]) -> Result<()> {
    for error in errors {
        if let FluentError::ResolverError(
            ResolverError::Reference(ReferenceKind::Variable { id }),
        ) = error
        {
            println!(rt; "missing: {id}")?; // missing: count
        }
    }
    Ok(())
}
