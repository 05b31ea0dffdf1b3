//! A scope in which a program resolves the placeables of a pattern by itself: what each of its
//! calls gives, tells and counts.

use crate::bundle::{Plain, read};
use fluent_ast::{CallArguments, Expression, InlineExpression, Pattern, PatternElement};
use fluent_bundle::resolver::errors::ReferenceKind;
use fluent_bundle::resolver::{ResolverError, Scope};
use fluent_bundle::{EnglishPlurals, FluentError, FluentResource, FluentValue, NoCustom};
use rows_common::Tally;
use std::alloc::{AllocError, Global};

const SOURCE: &str =
    "b = { -b.c ->\n   *[d] e\n }\nx = { \"x\" }\nf = { F(1, v: 2) }\ny = { \"y\" }\n";

/// Tries the calls of a scope. Where memory is refused, they are all tried once more.
pub fn try_scopes(alloc: Global) -> Tally {
    match try_calls(alloc) {
        Ok(tally) => tally,
        Err(AllocError) => try_calls(alloc).unwrap_or(Tally { tried: 1, wrong: 1 }),
    }
}

fn try_calls(alloc: Global) -> Result<Tally, AllocError> {
    let chain = chained(alloc)?;
    try_calls_of(alloc, chain.as_str())
}

/// The same, where the source is made whose messages refer to each other.
fn try_calls_of(alloc: Global, chain: &str) -> Result<Tally, AllocError> {
    let resource = read(alloc, SOURCE)?;
    let chain = read(alloc, chain)?;
    try_calls_in(alloc, &resource, &chain)
}

/// The same, where the sources are read.
fn try_calls_in<'r, 's>(
    alloc: Global,
    resource: &'r FluentResource<'s>,
    chain: &'r FluentResource<'s>,
) -> Result<Tally, AllocError> {
    let mut bundle = Plain::new(alloc, Vec::new(alloc), EnglishPlurals);
    if bundle.add_resource(resource).is_err() || bundle.add_resource(chain).is_err() {
        return Err(AllocError);
    }
    try_calls_on(alloc, &bundle)
}

/// The same, where the bundle is made.
fn try_calls_on(alloc: Global, bundle: &Plain<'_, '_>) -> Result<Tally, AllocError> {
    let mut tally = Tally::new();
    tally.add(are_kinds(alloc, bundle)?);
    tally.add(is_missed(alloc, bundle)?);
    tally.add(are_arguments(bundle)?);
    tally.add(is_shown(alloc, bundle)?);
    tally.add(is_tracked(alloc, bundle)?);
    tally.add(is_bounded(alloc, bundle)?);
    tally.add(is_told(alloc, bundle)?);
    Ok(tally)
}

/// The value of a message.
fn value_of<'r, 's>(bundle: &Plain<'r, 's>, id: &str) -> Option<&'r Pattern<&'s str>> {
    bundle.get_message(id)?.value()
}

/// The expression that the value of a message begins with.
fn expression_of<'r, 's>(bundle: &Plain<'r, 's>, id: &str) -> Option<&'r Expression<&'s str>> {
    match value_of(bundle, id)?.elements.first()? {
        PatternElement::Placeable { expression } => Some(expression),
        PatternElement::TextElement { value: _ } => None,
    }
}

/// The same, or the selector of a select.
fn inline_of<'r, 's>(bundle: &Plain<'r, 's>, id: &str) -> Option<&'r InlineExpression<&'s str>> {
    match expression_of(bundle, id)? {
        Expression::Inline(inline) => Some(inline),
        Expression::Select {
            selector,
            variants: _,
        } => Some(selector),
    }
}

/// The arguments of the function in the value of a message.
fn arguments_of<'r, 's>(bundle: &Plain<'r, 's>, id: &str) -> Option<&'r CallArguments<&'s str>> {
    match inline_of(bundle, id)? {
        InlineExpression::FunctionReference { id: _, arguments } => Some(arguments),
        _ => None,
    }
}

/// Whether the attribute of a term refers to that, and a text to nothing.
fn are_kinds(alloc: Global, bundle: &Plain<'_, '_>) -> Result<bool, AllocError> {
    let (Some(term), Some(text)) = (inline_of(bundle, "b"), inline_of(bundle, "x")) else {
        return Ok(false);
    };
    let is_text = ReferenceKind::of(alloc, text)?.is_none();
    let kind = ReferenceKind::of(alloc, term)?;
    Ok(is_text && is_attribute(&kind))
}

/// Whether this is the attribute `c` of the term `b`.
fn is_attribute(kind: &Option<ReferenceKind>) -> bool {
    match kind {
        Some(ReferenceKind::Term { id, attribute }) => {
            id.as_str() == "b" && attribute.as_deref() == Some("c")
        }
        _ => false,
    }
}

/// Whether what stands for an attribute that isn't there is written, and told.
fn is_missed(alloc: Global, bundle: &Plain<'_, '_>) -> Result<bool, AllocError> {
    let mut errors = Vec::new(alloc);
    let is_written = is_missed_with(alloc, bundle, &mut errors)?;
    Ok(is_written && is_one(alloc, &errors, "Unknown attribute: -b.c")?)
}

/// The same, with a list of errors.
fn is_missed_with(
    alloc: Global,
    bundle: &Plain<'_, '_>,
    errors: &mut Vec<FluentError>,
) -> Result<bool, AllocError> {
    let Some(term) = inline_of(bundle, "b") else {
        return Ok(false);
    };
    let mut text = String::new(alloc);
    let mut scope = Scope::new(bundle, None, Some(errors));
    match scope.write_ref_error(&mut text, term) {
        Ok(()) => Ok(text.as_str() == "{-b.c}"),
        Err(_) => Err(AllocError),
    }
}

/// Whether a list holds one error of resolving, of this text.
fn is_one(alloc: Global, errors: &[FluentError], text: &str) -> Result<bool, AllocError> {
    match errors {
        [FluentError::ResolverError(error)] => {
            let told = error.to_string(alloc)?;
            Ok(told.as_str() == text)
        }
        _ => Ok(false),
    }
}

/// Whether the arguments of a function are found.
fn are_arguments(bundle: &Plain<'_, '_>) -> Result<bool, AllocError> {
    let mut scope = Scope::new(bundle, None, None);
    let (positional, named) = scope.get_arguments(arguments_of(bundle, "f"))?;
    let (one, two) = (FluentValue::from(1), FluentValue::from(2));
    let is_one = match positional.as_slice() {
        [value] => *value == one,
        _ => false,
    };
    Ok(is_one && named.get("v") == Some(&two) && named.iter().count() == 1)
}

/// Whether a number is shown as its text, by each call.
fn is_shown(alloc: Global, bundle: &Plain<'_, '_>) -> Result<bool, AllocError> {
    let value = FluentValue::<NoCustom>::from(5);
    let scope = Scope::new(bundle, None, None);
    let mut text = String::new(alloc);
    if value.write(&mut text, &scope).is_err() {
        return Err(AllocError);
    }
    Ok(
        text.as_str() == "5"
            && value.as_string(&scope)?.as_str() == "5"
            && value.into_string(&scope)?.as_str() == "5",
    )
}

/// Whether a placeable that the program opens is written, and isn't counted.
fn is_tracked(alloc: Global, bundle: &Plain<'_, '_>) -> Result<bool, AllocError> {
    let (Some(pattern), Some(expression)) = (value_of(bundle, "y"), expression_of(bundle, "y"))
    else {
        return Ok(false);
    };
    let mut text = String::new(alloc);
    let mut scope = Scope::new(bundle, None, None);
    match scope.maybe_track(&mut text, pattern, expression) {
        Ok(()) => Ok(text.as_str() == "y" && scope.placeables() == 0),
        Err(_) => Err(AllocError),
    }
}

/// Whether of messages that refer to each other a hundred are opened, and one more is counted.
fn is_bounded(alloc: Global, bundle: &Plain<'_, '_>) -> Result<bool, AllocError> {
    let (Some(pattern), Some(inline)) = (value_of(bundle, "m0"), inline_of(bundle, "n")) else {
        return Ok(false);
    };
    let mut text = String::new(alloc);
    let mut scope = Scope::new(bundle, None, None);
    match scope.track(&mut text, pattern, inline) {
        Ok(()) => Ok(
            text.as_str().starts_with("{m100}{m99}")
                && text.as_str().ends_with("{m2}{m1}")
                && scope.placeables() == 101
                && scope.entered() == 101,
        ),
        Err(_) => Err(AllocError),
    }
}

/// Whether an error is put in the list of a scope, if it has one.
fn is_told(alloc: Global, bundle: &Plain<'_, '_>) -> Result<bool, AllocError> {
    let mut errors = Vec::new(alloc);
    add_error(bundle, &mut errors)?;
    add_error_unheard(bundle)?;
    is_one(alloc, &errors, "Cyclical dependency detected")
}

/// Adds an error to a scope with this list.
fn add_error(bundle: &Plain<'_, '_>, errors: &mut Vec<FluentError>) -> Result<(), AllocError> {
    let mut scope = Scope::new(bundle, None, Some(errors));
    scope.add_error(ResolverError::Cyclic)
}

/// Adds an error to a scope without a list.
fn add_error_unheard(bundle: &Plain<'_, '_>) -> Result<(), AllocError> {
    let mut scope = Scope::new(bundle, None, None);
    scope.add_error(ResolverError::Cyclic)
}

/// The messages `m0` to `m119`, each of which refers to the next one, `m120`, and `n` that refers
/// to `m0`.
fn chained(alloc: Global) -> Result<String, AllocError> {
    let mut source = String::from_str(alloc, "m120 = x\nn = { m0 }\n")?;
    for number in 0..120u32 {
        if writeln!(source, "m{number} = {{ m{} }}", number + 1).is_err() {
            return Err(AllocError);
        }
    }
    Ok(source)
}
