//! A source with a syntax error and an id that is taken.

use anyhow::{Result, bail};
use fluent_bundle::{AddResourceError, EnglishBundle, FluentResource, ResourceError};
use std::alloc::Global;

pub fn show(rt: &HostRuntime, source: &str) -> Result<()> {
    let resource = read(rt, source)?;
    let mut bundle = EnglishBundle::english(rt.alloc());
    match bundle.add_resource(&resource) {
        Ok(()) => {}
        Err(AddResourceError::Overriding(notices)) => {
            for notice in notices.iter() {
                println!(rt; "{notice}")?; // Attempt to override an existing message: "pay".
            }
        }
        Err(AddResourceError::Memory) => bail!("out of memory"),
    }
    Ok(())
}

fn read<'s>(rt: &HostRuntime, source: &'s str) -> Result<FluentResource<'s>> {
    let alloc: Global = rt.alloc();
    let resource = match FluentResource::try_new(alloc, source) {
        Ok(resource) => resource,
        Err(ResourceError::Broken(resource, errors)) => {
            for error in errors.iter() {
                println!(rt; "{error} at byte {}", error.pos.start)?; // ExpectedToken at byte 20
            }
            resource
        }
        Err(ResourceError::Memory) => bail!("out of memory"),
    };
    Ok(resource)
}
