//! Reads a Fluent source, gives one of its messages another text, and prints the source again:
//! comments, terms and all that was not touched stand as before.

use anyhow::{Result, bail};
use fluent_syntax::ast::{Entry, Pattern, PatternElement, Resource};
use fluent_syntax::parser::{Error, parse};
use fluent_syntax::serializer::serialize;
use std::alloc::{AllocError, Global};

const SOURCE: &str = "\
## Greetings

-brand = Kozhvadi
# $name is the user's name.
welcome = Welcome to { -brand }, { $name }.
    .title = Hello
farewell = Goodbye.
";

pub fn main(rt: HostRuntime) -> Result<()> {
    let mut resource = read(rt.alloc(), SOURCE)?;
    let changed = set_value(rt.alloc(), &mut resource, "farewell", "See you soon.")?;
    println!(rt; "{changed} changed")?;
    let text = serialize(rt.alloc(), &resource)?;
    print!(rt; "{text}")?;
    Ok(())
}

/// The tree of a source. Parts that can't be read stand in it as junk.
fn read(alloc: Global, source: &str) -> Result<Resource<&str>> {
    match parse(alloc, source) {
        Ok(resource) => Ok(resource),
        Err(Error::Broken(resource, _)) => Ok(resource),
        Err(Error::Memory) => bail!("out of memory"),
    }
}

/// Gives each message of this id a text for its value, and says how many there were.
fn set_value<'s>(
    alloc: Global,
    resource: &mut Resource<&'s str>,
    id: &str,
    text: &'s str,
) -> Result<usize, AllocError> {
    let mut changed = 0_usize;
    for entry in &mut resource.body {
        if let Entry::Message(message) = entry {
            if message.id.name == id {
                message.value = Some(plain_pattern(alloc, text)?);
                changed = changed.saturating_add(1);
            }
        }
    }
    Ok(changed)
}

/// A pattern of one text.
fn plain_pattern<'s>(alloc: Global, text: &'s str) -> Result<Pattern<&'s str>, AllocError> {
    let mut elements = Vec::new(alloc);
    elements.push(PatternElement::TextElement { value: text })?;
    Ok(Pattern { elements })
}
