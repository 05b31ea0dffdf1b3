//! Named arguments that a function of the library makes nothing of, or not what was meant.
#![tactic(auto)]

ghost use Rattle.std.specs.Prelude.{◌≡◌, IfOk, OnOk, codes, option_copied, string_bytes};
ghost use Rattle.fluent_ast.specs.Borrowed.{inline_of, named_of};
ghost use Rattle.fluent_grammar.specs.Escapes.{unescaped};
ghost use Rattle.fluent_grammar.specs.Words.{is_among};
ghost use Rattle.lint_findings.specs.View.{remark_view};
ghost use Rattle.lint_findings.specs.EntryFindings as e;
ghost use Rattle.lint_findings.specs.Finding as f;
ghost use Rattle.lint_findings.specs.Misuses as m;
ghost use Rattle.lint_flaws.specs.BuiltinView.{builtin_view, takes_view, texts};
ghost use Rattle.lint_flaws.specs.Said.{AddsBeside, AddsComponent, AddsMisuses, AddsOnArgument, AddsOverruled, IsOnArgument, IsOnComponent, IsOnMisuse};
ghost use Rattle.lint_nodes.specs.NodeView.{node_view};

use crate::builtins::{Builtin, Takes, builtin_named};
use crate::hint::near_hint;
use crate::near::KnownNames;
use fluent_ast::{InlineExpression, NamedArgument};
use fluent_tokens::unicode::unescape_unicode_to_string;
use lint_findings::Remark;
use lint_nodes::Node;
use std::alloc::{AllocError, Global};

/// Adds what is said of the named arguments of a node, if the node is a call of a function that
/// comes with the library.
///
/// # Errors
/// [`AllocError`] if memory runs out; `found` then holds its old remarks and some of these.
pub fn push_misuses(
    alloc: Global,
    node: Node<'_, '_>,
    found: &mut Vec<Remark>,
) -> Result<(), AllocError>
    ensures { OnOk result (AddsMisuses (e.node_misuses (node_view node.entry)) found.old found.new) }
{
    match node {
        Node::Expression(InlineExpression::FunctionReference { id, arguments }) => {
            push_call(alloc, id.name, &arguments.named, found)
        }
        _ => Ok(()),
    }
}

/// Adds what is said of the named arguments of a call of the function of this name.
fn push_call(
    alloc: Global,
    id: &str,
    named: &[NamedArgument<&str>],
    found: &mut Vec<Remark>,
) -> Result<(), AllocError>
    ensures { OnOk result (AddsMisuses (m.call_misuses id.now (named_of named.now)) found.old found.new) }
{
    match builtin_named(id) {
        Some(row) => {
            push_named(alloc, row, named, found)?;
            push_beside(alloc, row, named, found)
        }
        None => Ok(()),
    }
}

/// Adds what is said of the arguments that don't count next to others of the call.
fn push_beside(
    alloc: Global,
    row: &Builtin,
    named: &[NamedArgument<&str>],
    found: &mut Vec<Remark>,
) -> Result<(), AllocError>
    ensures { OnOk result (AddsBeside row.now (named_of named.now) found.old found.new) }
{
    match first_named(named, row.styles) {
        Some(style) => push_overruled(alloc, row, style, named, found),
        None => Ok(()),
    }
}

/// The name of the first argument that has one of these names.
fn first_named<'s>(named: &[NamedArgument<&'s str>], names: &[&str]) -> Option<&'s str>
    ensures { option_copied result ≡ m.first_named (named_of named.now) (texts names.now) }
{
    for argument in named {
        if is_value(argument.name.name, names) {
            return Some(argument.name.name);
        }
    }
    None
}

/// Adds what is said of the arguments that don't count next to this style.
fn push_overruled(
    alloc: Global,
    row: &Builtin,
    style: &str,
    named: &[NamedArgument<&str>],
    found: &mut Vec<Remark>,
) -> Result<(), AllocError>
    ensures { OnOk result (AddsOverruled row.now style.now (named_of named.now) found.old found.new) }
{
    for argument in named {
        push_component(alloc, row, style, argument.name.name, found)?;
    }
    Ok(())
}

/// Adds what is said of an argument of this name next to this style.
fn push_component(
    alloc: Global,
    row: &Builtin,
    style: &str,
    name: &str,
    found: &mut Vec<Remark>,
) -> Result<(), AllocError>
    ensures { OnOk result (AddsComponent row.now style.now name.now found.old found.new) }
{
    match component_misuse(alloc, row, style, name)? {
        Some(misuse) => {
            found.push(misuse)?;
            Ok(())
        }
        None => Ok(()),
    }
}

/// The remark on an argument of this name next to this style, if it doesn't count there.
fn component_misuse(
    alloc: Global,
    row: &Builtin,
    style: &str,
    name: &str,
) -> Result<Option<Remark>, AllocError>
    ensures { IfOk result (IsOnComponent row.now style.now name.now) }
{
    if is_value(name, row.components) {
        let text = format!(in alloc; "the option `{name}` doesn't count next to `{style}`")?;
        Ok(Some(misuse(text)))
    } else {
        Ok(None)
    }
}

fn push_named(
    alloc: Global,
    row: &Builtin,
    named: &[NamedArgument<&str>],
    found: &mut Vec<Remark>,
) -> Result<(), AllocError>
    ensures { OnOk result (AddsMisuses
        (m.named_misuses (builtin_view row.now) (named_of named.now)) found.old found.new) }
{
    for argument in named {
        push_argument(alloc, row, argument.name.name, &argument.value, found)?;
    }
    Ok(())
}

fn push_argument(
    alloc: Global,
    row: &Builtin,
    name: &str,
    value: &InlineExpression<&str>,
    found: &mut Vec<Remark>,
) -> Result<(), AllocError>
    ensures { OnOk result (AddsOnArgument row.now name.now (inline_of value.now) found.old found.new) }
{
    match argument_misuse(alloc, row, name, value)? {
        Some(misuse) => {
            found.push(misuse)?;
            Ok(())
        }
        None => Ok(()),
    }
}

/// The remark on an argument of this name, if the function makes nothing of it.
fn argument_misuse(
    alloc: Global,
    row: &Builtin,
    name: &str,
    value: &InlineExpression<&str>,
) -> Result<Option<Remark>, AllocError>
    ensures { IfOk result (IsOnArgument row.now name.now (inline_of value.now)) }
{
    match row.takes(name) {
        Some(takes) => literal_misuse(alloc, name, takes, value),
        None => Ok(Some(unknown_option(alloc, row, name)?)),
    }
}

/// The remark on an argument with the name of an option that takes this.
fn literal_misuse(
    alloc: Global,
    name: &str,
    takes: Takes,
    value: &InlineExpression<&str>,
) -> Result<Option<Remark>, AllocError>
    ensures { IfOk result (IsOnMisuse (m.literal_misuse name.now (takes_view takes) (inline_of value.now))) }
{
    match value {
        InlineExpression::StringLiteral { value } => raw_misuse(alloc, name, takes, *value),
        InlineExpression::NumberLiteral { .. } => number_misuse(alloc, name, takes),
        _ => Ok(None),
    }
}

/// The remark on an argument that is a text with these escapes.
fn raw_misuse(
    alloc: Global,
    name: &str,
    takes: Takes,
    raw: &str,
) -> Result<Option<Remark>, AllocError>
    ensures { IfOk result (IsOnMisuse (m.text_misuse name.now (takes_view takes) raw.now (unescaped raw.now))) }
{
    let text = unescape_unicode_to_string(alloc, raw)?;
    text_misuse(alloc, name, takes, raw, text.as_str())
}

/// The remark on an argument that is this text once its escapes are read.
fn text_misuse(
    alloc: Global,
    name: &str,
    takes: Takes,
    raw: &str,
    text: &str,
) -> Result<Option<Remark>, AllocError>
    ensures { IfOk result (IsOnMisuse (m.text_misuse name.now (takes_view takes) raw.now text.now)) }
{
    match takes {
        Takes::Number => {
            let text = format!(in alloc; "the option `{name}` takes a number, without quotes")?;
            Ok(Some(misuse(text)))
        }
        Takes::AnyText => Ok(None),
        Takes::OneOf(values) => value_misuse(alloc, name, Values { values }, raw, text),
    }
}

/// The remark on an argument that is this text, of an option that takes one of these.
fn value_misuse(
    alloc: Global,
    name: &str,
    values: Values,
    raw: &str,
    text: &str,
) -> Result<Option<Remark>, AllocError>
    ensures { IfOk result (IsOnMisuse (m.value_misuse name.now (texts values.values.now) raw.now text.now)) }
{
    if values.has_name(text) {
        return Ok(None);
    }
    let hint = near_hint(alloc, "", &values, text)?;
    let text = format!(in alloc; "the option `{name}` has no value `{raw}`")?;
    Ok(Some(misuse(text).with_hint(hint)))
}

/// The remark on an argument that is a number.
fn number_misuse(alloc: Global, name: &str, takes: Takes) -> Result<Option<Remark>, AllocError>
    ensures { IfOk result (IsOnMisuse (m.number_misuse name.now (takes_view takes))) }
{
    match takes {
        Takes::Number => Ok(None),
        Takes::AnyText | Takes::OneOf(_) => {
            let text = format!(in alloc; "the option `{name}` takes a text, in quotes")?;
            Ok(Some(misuse(text)))
        }
    }
}

/// The remark on an argument of a name that no option has.
fn unknown_option(alloc: Global, row: &Builtin, name: &str) -> Result<Remark, AllocError>
    ensures { IfOk result (λ said. remark_view said
        ≡ m.misuse_remark (m.unknown_option (builtin_view row.now) name.now)) }
{
    let hint = near_hint(alloc, "", row, name)?;
    let function = row.name;
    let text = format!(in alloc; "`{function}` has no option `{name}`")?;
    Ok(misuse(text).with_hint(hint))
}

fn misuse(text: String) -> Remark
    ensures { remark_view result ≡ f.remark f.warning (codes "unknown-option") (string_bytes text) }
{
    Remark::warning("unknown-option", text)
}

/// The texts that an option takes.
#[derive(Clone, Copy)]
struct Values {
    values: &'static [&'static str],
}

impl KnownNames for Values {
    ghost knows = { λ values value. is_among value (texts values.values.now) };

    fn has_name(&self, name: &str) -> bool {
        is_value(name, self.values)
    }
}

fn is_value(text: &str, values: &[&str]) -> bool
    ensures { result ≡ is_among text.now (texts values.now) }
{
    for value in values {
        if *value == text {
            return true;
        }
    }
    false
}
