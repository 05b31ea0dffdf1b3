//! The elements of tags.
#![tactic(auto)]

ghost use Rattle.std.specs.Prelude.{◌≡◌, IfOk, OnOk};
ghost use Rattle.std.specs.Option.{option_to_list};
ghost use Rattle.lint_nodes.specs.HasNames.{HasNames, is_in_set};
ghost use Rattle.lint_findings.specs.Markup as m;
ghost use Rattle.lint_findings.specs.Tags as t;
ghost use Rattle.lint_markup.specs.InCode.{tag_view, tags_of};
ghost use Rattle.lint_markup.specs.Pieces.{AddsNames};

use crate::names::tag_name;
use crate::tags::Tag;
use lint_flaws::KnownNames;
use lint_nodes::Names;
use std::alloc::{AllocError, Global};

/// The elements of some tags, each once.
///
/// # Errors
/// [`AllocError`] if memory runs out; nothing is kept.
pub fn elements_of<'t>(alloc: Global, tags: &[Tag<'t>]) -> Result<Names<'t>, AllocError>
    ensures { IfOk result (λ names. HasNames names (m.elements_of_tags (tags_of tags.now))) }
{
    let mut names = Names::new(alloc);
    for tag in tags {
        names.add(tag.element)?;
    }
    Ok(names)
}

/// The names of some tags, each once.
///
/// # Errors
/// [`AllocError`] if memory runs out; nothing is kept.
pub fn names_of<'t>(alloc: Global, tags: &[Tag<'t>]) -> Result<Names<'t>, AllocError>
    ensures { IfOk result (λ names. HasNames names (m.names_of_tags (tags_of tags.now))) }
{
    let mut names = Names::new(alloc);
    for tag in tags {
        add_name(tag, &mut names)?;
    }
    Ok(names)
}

/// Adds the name of a tag, if it has one.
fn add_name<'t>(tag: &Tag<'t>, names: &mut Names<'t>) -> Result<(), AllocError>
    ensures { OnOk result (AddsNames names.old names.new (option_to_list (t.tag_name (tag_view tag.now)))) }
{
    if let Some(name) = tag_name(tag) {
        names.add(name)?;
    }
    Ok(())
}

/// How many tags open an element.
pub fn opened(element: &str, tags: &[Tag<'_>]) -> usize
    ensures { result ≡ m.opened element.now (tags_of tags.now) }
{
    tags.iter().filter(|tag| opens(element, tag)).count()
}

/// How many tags close an element.
pub fn closed(element: &str, tags: &[Tag<'_>]) -> usize
    ensures { result ≡ m.closed element.now (tags_of tags.now) }
{
    tags.iter().filter(|tag| ends_element(element, tag)).count()
}

fn opens(element: &str, tag: &Tag<'_>) -> bool
    ensures { result ≡ m.opens element.now (tag_view tag.now) }
{
    !tag.closes && !tag.is_lone() && tag.element == element
}

fn ends_element(element: &str, tag: &Tag<'_>) -> bool
    ensures { result ≡ m.ends_element element.now (tag_view tag.now) }
{
    tag.closes && tag.element == element
}

/// Known names, to look for a near one.
#[derive(Clone, Copy)]
pub struct Known<'n, 's> {
    pub names: &'n Names<'s>,
}

impl KnownNames for Known<'_, '_> {
    ghost knows = { λ known. is_in_set known.names.now };

    fn has_name(&self, name: &str) -> bool {
        self.names.has(name)
    }
}
