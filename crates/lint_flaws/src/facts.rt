//! Facts of a node that are so whatever the request, and of which no answer has an error.
#![tactic(auto)]

ghost use Rattle.std.specs.Prelude.{IfOk, OnOk};
ghost use Rattle.lint_findings.specs.Facts as f;
ghost use Rattle.lint_flaws.specs.QuotedView.{quoted_view};
ghost use Rattle.lint_flaws.specs.FactsBy as by;
ghost use Rattle.lint_flaws.specs.FactsBy.{IsOnFact};
ghost use Rattle.lint_flaws.specs.Said.{AddsFacts};

use crate::adding::push_remark;
use crate::attribute_texts::push_attribute_keys;
use crate::hint::near_hint;
use crate::near::KnownNames;
use crate::plural_keys::push_select;
use crate::quoted::{Quoted, first_quoted};
use crate::term_uses::{Values, Variables, chooses_by_words, term_nodes};
use fluent_ast::{InlineExpression, NamedArgument, Variant};
use fluent_ids::Entry;
use fluent_plurals::LanguagePlurals;
use fluent_tokens::unicode::unescape_unicode_to_string;
use lint_findings::{CatalogIds, Remark};
use lint_nodes::Node;
use std::alloc::{AllocError, Global};

/// Adds what is true of a node in a catalog with these ids, by the rules of a language: a placeable
/// in a string literal, arguments that a term doesn't use or has no variant for, and keys of plural
/// categories that are none.
///
/// # Errors
/// [`AllocError`] if memory runs out; `found` then holds its old remarks and some of these.
pub fn push_facts(
    alloc: Global,
    ids: &CatalogIds<'_, '_>,
    plurals: Option<LanguagePlurals>,
    node: Node<'_, '_>,
    found: &mut Vec<Remark>,
) -> Result<(), AllocError>
    ensures { OnOk result (AddsFacts (by.node_facts ids.now plurals node.entry)
        found.old found.new) }
{
    match node {
        Node::Expression(expression) => push_expression(alloc, ids, expression, found),
        Node::Select { selector, variants } => {
            push_plural_keys(alloc, plurals, selector, variants, found)?;
            push_attribute_keys(alloc, ids, selector, variants, found)
        }
        Node::RepeatedKey(_) => Ok(()),
    }
}

/// Adds what is said of the keys of a select by the rules of a language, if they are known.
fn push_plural_keys(
    alloc: Global,
    plurals: Option<LanguagePlurals>,
    selector: &InlineExpression<&str>,
    variants: &[Variant<&str>],
    found: &mut Vec<Remark>,
) -> Result<(), AllocError>
    ensures { OnOk result (AddsFacts (by.plural_facts plurals selector.now variants.now)
        found.old found.new) }
{
    match plurals {
        Some(plurals) => push_select(alloc, &plurals, selector, variants, found),
        None => Ok(()),
    }
}

fn push_expression(
    alloc: Global,
    ids: &CatalogIds<'_, '_>,
    expression: &InlineExpression<&str>,
    found: &mut Vec<Remark>,
) -> Result<(), AllocError>
    ensures { OnOk result (AddsFacts (by.expression_facts ids.now expression.now)
        found.old found.new) }
{
    match expression {
        InlineExpression::StringLiteral { value } => push_literal(alloc, *value, found),
        InlineExpression::TermReference {
            id,
            arguments: Some(arguments),
            ..
        } => push_call(alloc, ids, id.name, &arguments.named, found),
        _ => Ok(()),
    }
}

/// Adds that a placeable in a raw text is shown as it is, if there is one.
fn push_literal(alloc: Global, raw: &str, found: &mut Vec<Remark>) -> Result<(), AllocError>
    ensures { OnOk result (AddsFacts (f.literal_facts raw.now) found.old found.new) }
{
    match first_quoted(raw) {
        Some(quoted) => push_remark(quoted_remark(alloc, quoted)?, found),
        None => Ok(()),
    }
}

fn quoted_remark(alloc: Global, quoted: Quoted<'_>) -> Result<Remark, AllocError>
    ensures { IfOk result (IsOnFact (f.quoted_placeable (quoted_view quoted.entry))) }
{
    let reference = quoted.reference;
    let text = format!(in alloc; "`{{ {reference} }}` is shown as it is")?;
    let hint = format!(in alloc; "inside of quotes nothing is filled in")?;
    let remark = Remark::warning("placeable-in-literal", text).with_hint(Some(hint));
    Ok(remark.within(quoted.inside))
}

/// Adds what is said of the arguments of a term of this id.
fn push_call(
    alloc: Global,
    ids: &CatalogIds<'_, '_>,
    id: &str,
    named: &[NamedArgument<&str>],
    found: &mut Vec<Remark>,
) -> Result<(), AllocError>
    ensures { OnOk result (AddsFacts (by.call_facts ids.now id.now named.now)
        found.old found.new) }
{
    match ids.get(id) {
        Some(Entry::Term((_, term))) => {
            let nodes = term_nodes(alloc, term)?;
            push_named(alloc, id, &nodes, named, found)
        }
        _ => Ok(()),
    }
}

fn push_named(
    alloc: Global,
    id: &str,
    nodes: &[Node<'_, '_>],
    named: &[NamedArgument<&str>],
    found: &mut Vec<Remark>,
) -> Result<(), AllocError>
    ensures { OnOk result (AddsFacts (by.named_facts id.now nodes.now named.now)
        found.old found.new) }
{
    for argument in named {
        push_argument(alloc, id, nodes, argument.name.name, &argument.value, found)?;
    }
    Ok(())
}

fn push_argument(
    alloc: Global,
    id: &str,
    nodes: &[Node<'_, '_>],
    name: &str,
    value: &InlineExpression<&str>,
    found: &mut Vec<Remark>,
) -> Result<(), AllocError>
    ensures { OnOk result (AddsFacts (by.argument_facts id.now nodes.now name.now value.now)
        found.old found.new) }
{
    let variables = Variables { nodes };
    if !variables.has_name(name) {
        return push_remark(unused_remark(alloc, id, variables, name)?, found);
    }
    match value {
        InlineExpression::StringLiteral { value } => {
            push_value(alloc, id, nodes, name, *value, found)
        }
        _ => Ok(()),
    }
}

fn unused_remark(
    alloc: Global,
    id: &str,
    variables: Variables<'_, '_, '_>,
    name: &str,
) -> Result<Remark, AllocError>
    ensures { IfOk result (IsOnFact (by.unused_argument id.now variables.entry.nodes.now name.now)) }
{
    let hint = near_hint(alloc, "", &variables, name)?;
    let text = format!(in alloc; "no variant of `-{id}` is chosen by `{name}`")?;
    Ok(Remark::warning("unknown-term-argument", text).with_hint(hint))
}

/// Adds that a term has no variant for a value of an argument, if it has none.
fn push_value(
    alloc: Global,
    id: &str,
    nodes: &[Node<'_, '_>],
    name: &str,
    raw: &str,
    found: &mut Vec<Remark>,
) -> Result<(), AllocError>
    ensures { OnOk result (AddsFacts (by.value_facts id.now nodes.now name.now raw.now)
        found.old found.new) }
{
    let text = unescape_unicode_to_string(alloc, raw)?;
    let values = Values {
        nodes,
        variable: name,
    };
    if !chooses_by_words(nodes, name) || values.has_name(text.as_str()) {
        return Ok(());
    }
    push_remark(
        unknown_remark(alloc, id, values, raw, text.as_str())?,
        found,
    )
}

fn unknown_remark(
    alloc: Global,
    id: &str,
    values: Values<'_, '_, '_>,
    raw: &str,
    text: &str,
) -> Result<Remark, AllocError>
    ensures { IfOk result (IsOnFact
        (by.unknown_value id.now values.entry.nodes.now values.entry.variable.now raw.now text.now)) }
{
    let hint = near_hint(alloc, "", &values, text)?;
    let text = format!(in alloc; "`-{id}` has no variant `{raw}`")?;
    Ok(Remark::warning("unknown-term-variant", text).with_hint(hint))
}
