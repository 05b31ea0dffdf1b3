//! A catalog: a bundle that one function builds, a struct keeps, and others are lent.

use anyhow::{Context, Result};
use fluent_bundle::resolver::Scope;
use fluent_bundle::{EnglishBundle, FluentArgs, FluentError, FluentResource, NoCustom};
use fluent_syntax::ast::{Pattern, PatternElement};
use std::alloc::Global;

/// The texts of a program, and how often one of them had errors.
#[derive(Drop)]
pub struct Catalog<'r, 's> {
    bundle: EnglishBundle<'r, 's>,
    /// How many texts had errors.
    pub faulty: usize,
}

impl<'r, 's: 'r> Catalog<'r, 's> {
    /// A catalog of these resources, which outlive it.
    ///
    /// # Errors
    /// An id is taken, or memory runs out.
    pub fn new(alloc: Global, resources: &'r [FluentResource<'s>]) -> Result<Self> {
        let bundle = build(alloc, resources)?;
        Ok(Catalog { bundle, faulty: 0 })
    }

    /// The text of a message's value, and its errors.
    ///
    /// # Errors
    /// There is no such message, it has no value, or memory runs out. The catalog is unchanged
    /// then.
    pub fn text(
        &mut self,
        alloc: Global,
        id: &str,
        args: &FluentArgs<'_, NoCustom>,
    ) -> Result<String> {
        let message = self.bundle.get_message(id).context("no such message")?;
        let pattern = message.value().context("the message has no value")?;
        let (text, errors) = write_parts(alloc, &self.bundle, pattern, args)?;
        if !errors.is_empty() {
            self.faulty = self.faulty.saturating_add(1);
        }
        Ok(text)
    }
}

/// A bundle of these resources, with `NUMBER`.
fn build<'r, 's>(
    alloc: Global,
    resources: &'r [FluentResource<'s>],
) -> Result<EnglishBundle<'r, 's>> {
    let mut bundle = EnglishBundle::english(alloc);
    bundle.add_builtins()?;
    for resource in resources {
        add(&mut bundle, resource)?;
    }
    Ok(bundle)
}

/// Adds to a bundle that was lent.
fn add<'r, 's>(bundle: &mut EnglishBundle<'r, 's>, resource: &'r FluentResource<'s>) -> Result<()> {
    bundle.add_resource(resource)?;
    Ok(())
}

/// Writes a pattern element by element, for a program that shows text and placeables in two ways:
/// here the placeables are in brackets.
fn write_parts<'r, 's: 'r>(
    alloc: Global,
    bundle: &EnglishBundle<'r, 's>,
    pattern: &'r Pattern<&'s str>,
    args: &FluentArgs<'_, NoCustom>,
) -> Result<(String, Vec<FluentError>)> {
    let mut text = String::new(alloc);
    let mut errors = Vec::new(alloc);
    let mut scope = Scope::new(bundle, Some(args), Some(&mut errors));
    for element in &pattern.elements {
        match element {
            PatternElement::TextElement { value } => text.push_str(value)?,
            PatternElement::Placeable { expression } => {
                text.push('[')?;
                scope.maybe_track(&mut text, pattern, expression)?;
                text.push(']')?;
            }
        }
    }
    Ok((text, errors))
}
