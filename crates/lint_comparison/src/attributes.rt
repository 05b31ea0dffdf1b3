//! The attributes that one of two messages lacks.
#![tactic(auto)]

ghost use Rattle.std.specs.Prelude.{◌≡◌, IfOk, OnOk};
ghost use Rattle.fluent_ast.specs.Borrowed.{attributes_of};
ghost use Rattle.lint_nodes.specs.HasNames.{HasNames};
ghost use Rattle.lint_comparison.specs.LackingAttributes.{AddsLackingOf, AddsLackingNames, have_same_names, known_names};

use crate::lack::Lack;
use fluent_ast::Attribute;
use lint_findings::Difference;
use lint_nodes::Names;
use std::alloc::{AllocError, Global};

/// Adds the differences that those attributes make whose names are none of the others.
///
/// # Errors
/// [`AllocError`] if memory runs out; some may be added then.
pub fn push_lacking_attributes<'i, 's: 'i>(
    alloc: Global,
    lack: Lack<'_, '_>,
    attributes: &[Attribute<&'s str>],
    others: &[Attribute<&'s str>],
    found: &mut Vec<Difference<'i>>,
) -> Result<(), AllocError>
    ensures { OnOk result (AddsLackingOf lack.entry attributes.now others.now found.old found.new) }
{
    if have_same_names(attributes, others) {
        return Ok(());
    }
    let names = names_of(alloc, others)?;
    push_lacking(lack, attributes, &names, found)
}

/// Whether two lists of attributes have the same names, in the same order.
fn have_same_names(attributes: &[Attribute<&str>], others: &[Attribute<&str>]) -> bool
    ensures { result ≡ have_same_names (attributes_of attributes.now) (attributes_of others.now) }
{
    if attributes.len() != others.len() {
        return false;
    }
    for (index, attribute) in attributes.iter().enumerate() {
        if attribute.id.name != others[index].id.name {
            return false;
        }
    }
    true
}

/// Adds those whose names aren't among these.
fn push_lacking<'i, 's: 'i>(
    lack: Lack<'_, '_>,
    attributes: &[Attribute<&'s str>],
    names: &Names<'s>,
    found: &mut Vec<Difference<'i>>,
) -> Result<(), AllocError>
    ensures { OnOk result (AddsLackingNames lack.entry (attributes_of attributes.now) names.now found.old found.new) }
{
    for attribute in attributes {
        lack.push_if_new(attribute.id.name, names, found)?;
    }
    Ok(())
}

fn names_of<'s>(alloc: Global, attributes: &[Attribute<&'s str>]) -> Result<Names<'s>, AllocError>
    ensures { IfOk result (λ names. HasNames names (known_names (attributes_of attributes.now))) }
{
    let mut names = Names::new(alloc);
    for attribute in attributes {
        names.add(attribute.id.name)?;
    }
    Ok(names)
}
