//! How a message differs from that of the reference.
#![tactic(auto)]

ghost use Rattle.std.specs.Prelude.{IfOk, OnOk};
ghost use Rattle.fluent_ast.specs.Borrowed.{message_of};
ghost use Rattle.lint_comparison.specs.Compared.{IsNewAmong, own_differences};
ghost use Rattle.lint_nodes.specs.HasNames.{texts};
ghost use Rattle.lint_comparison.specs.InCode.{AddsVariablesBy, AreDifferencesOf, AreVariablesOf, IsLookedUp, StandsFor, differences_by, message_differences_by, untranslated_by, values_difference, variables_between};
ghost use Rattle.lint_comparison.specs.Lacks.{Adds};

use crate::attributes::push_lacking_attributes;
use crate::lack::Lack;
use crate::same::is_same_message;
use fluent_ast::{Message, Pattern};
use fluent_ids::GetEntry;
use lint_findings::{CatalogIds, Difference};
use lint_nodes::{Names, variables_of, variables_of_message};
use std::alloc::{AllocError, Global};

/// How an id of a catalog differs from that of the reference.
#[derive(Drop)]
pub struct Comparison<'i> {
    /// The differences.
    pub differences: Vec<Difference<'i>>,
    /// The variables that the message of the reference is shown with.
    pub variables: Names<'i>,
}

/// Compares an id of a catalog with that of the reference, which stands for this message there.
///
/// # Errors
/// [`AllocError`] if memory runs out; nothing is kept.
pub fn compare<'i, 's: 'i>(
    alloc: Global,
    ids: &CatalogIds<'_, 's>,
    reference: &CatalogIds<'_, 's>,
    other: Option<&Message<&'s str>>,
    id: &'i str,
) -> Result<Comparison<'i>, AllocError>
    requires { IsLookedUp reference.now id.now other }
    ensures found { IfOk result
        (λ compared. AreDifferencesOf ids.now reference.now id.now compared.differences.items) }
    ensures known { IfOk result
        (λ compared. AreVariablesOf reference.now id.now compared.variables) }
{
    let mut differences = Vec::new(alloc);
    let variables = push_differences(alloc, ids, reference, other, id, &mut differences)?;
    Ok(Comparison {
        differences,
        variables,
    })
}

/// Adds the differences. The result is the variables of the reference.
fn push_differences<'i, 's: 'i>(
    alloc: Global,
    ids: &CatalogIds<'_, 's>,
    reference: &CatalogIds<'_, 's>,
    other: Option<&Message<&'s str>>,
    id: &'i str,
    found: &mut Vec<Difference<'i>>,
) -> Result<Names<'i>, AllocError>
    requires { IsLookedUp reference.now id.now other }
    ensures added { OnOk result
        (Adds found.old found.new (differences_by ids.now reference.now id.now)) }
    ensures known { IfOk result (AreVariablesOf reference.now id.now) }
{
    let message = ids.get_entry_message(id);
    match (message, other) {
        (None, None) => Ok(Names::new(alloc)),
        (None, Some(_)) => {
            found.push(Difference::MissingMessage)?;
            variables_of(alloc, reference, id)
        }
        (Some(_), None) => {
            found.push(Difference::ObsoleteMessage)?;
            Ok(Names::new(alloc))
        }
        (Some(message), Some(other)) => {
            push_of_both(alloc, ids, reference, id, message, other, found)
        }
    }
}

/// Adds those of a message that both have. The result is the variables of the reference.
fn push_of_both<'i, 's: 'i>(
    alloc: Global,
    ids: &CatalogIds<'_, 's>,
    reference: &CatalogIds<'_, 's>,
    id: &'i str,
    message: &Message<&'s str>,
    other: &Message<&'s str>,
    found: &mut Vec<Difference<'i>>,
) -> Result<Names<'i>, AllocError>
    requires message { StandsFor ids.now id.now message.now }
    requires other { StandsFor reference.now id.now other.now }
    ensures added { OnOk result (Adds found.old found.new
        (message_differences_by ids.now reference.now id.now message.now other.now)) }
    ensures known { IfOk result (AreVariablesOf reference.now id.now) }
{
    push_of_message(alloc, message, other, found)?;
    let variables = push_variables(alloc, ids, reference, id, message, other, found)?;
    push_untranslated(message, other, found)?;
    Ok(variables)
}

/// Adds those of the value and of the attributes.
fn push_of_message<'i, 's: 'i>(
    alloc: Global,
    message: &Message<&'s str>,
    other: &Message<&'s str>,
    found: &mut Vec<Difference<'i>>,
) -> Result<(), AllocError>
    ensures { OnOk result (Adds found.old found.new
        (own_differences (message_of message.now) (message_of other.now))) }
{
    push_value(&message.value, &other.value, found)?;
    let attributes = &message.attributes;
    let others = &other.attributes;
    push_lacking_attributes(alloc, Lack::MissingAttribute, others, attributes, found)?;
    push_lacking_attributes(alloc, Lack::ObsoleteAttribute, attributes, others, found)
}

fn push_value(
    value: &Option<Pattern<&str>>,
    other: &Option<Pattern<&str>>,
    found: &mut Vec<Difference<'_>>,
) -> Result<(), AllocError>
    ensures { OnOk result (Adds found.old found.new (values_difference value.now other.now)) }
{
    match (value, other) {
        (None, Some(_)) => Ok(found.push(Difference::MissingValue)?),
        (Some(_), None) => Ok(found.push(Difference::ObsoleteValue)?),
        (None, None) => Ok(()),
        (Some(_), Some(_)) => Ok(()),
    }
}

/// Adds those of the variables. The result is the variables of the reference.
fn push_variables<'i, 's: 'i>(
    alloc: Global,
    ids: &CatalogIds<'_, 's>,
    reference: &CatalogIds<'_, 's>,
    id: &'i str,
    message: &Message<&'s str>,
    other: &Message<&'s str>,
    found: &mut Vec<Difference<'i>>,
) -> Result<Names<'i>, AllocError>
    requires message { StandsFor ids.now id.now message.now }
    requires other { StandsFor reference.now id.now other.now }
    ensures added { OnOk result (Adds found.old found.new
        (variables_between ids.now reference.now id.now other.now)) }
    ensures known { IfOk result (AreVariablesOf reference.now id.now) }
{
    let variables = variables_of_message(alloc, ids, id, message)?;
    push_variables_by(alloc, &variables, reference, id, other, found)
}

/// Adds those of these variables of the message of the catalog. The result is the variables of the
/// reference.
fn push_variables_by<'i, 's: 'i>(
    alloc: Global,
    variables: &Names<'i>,
    reference: &CatalogIds<'_, 's>,
    id: &'i str,
    other: &Message<&'s str>,
    found: &mut Vec<Difference<'i>>,
) -> Result<Names<'i>, AllocError>
    requires { StandsFor reference.now id.now other.now }
    ensures added { OnOk result (AddsVariablesBy other.now variables.now reference.now id.now
        found.old found.new) }
    ensures known { IfOk result (AreVariablesOf reference.now id.now) }
{
    let others = variables_of_message(alloc, reference, id, other)?;
    Lack::UnknownVariable.push_new(&variables.list, &others, found)?;
    let has_unknown = has_new(&variables.list, &others);
    let lost = Lack::LostVariable { has_unknown, other };
    lost.push_new(&others.list, variables, found)?;
    Ok(others)
}

/// Whether one of some names is none of the others.
fn has_new(names: &[&str], others: &Names<'_>) -> bool
    ensures { IsNewAmong result (texts names.now) others.now }
{
    for name in names {
        if !others.has(name) {
            return true;
        }
    }
    false
}

/// Adds that a message has the text of the other, if it has.
fn push_untranslated<'s>(
    message: &Message<&'s str>,
    other: &Message<&'s str>,
    found: &mut Vec<Difference<'_>>,
) -> Result<(), AllocError>
    ensures { OnOk result (Adds found.old found.new
        (untranslated_by message.now other.now)) }
{
    if is_same_message(message, other) {
        found.push(Difference::Untranslated)?;
    }
    Ok(())
}
