//! The calls of a pattern that have no answer, as far as they are known before one is given.
//!
//! Calls in plain placeables are gathered from the tree. The text between them is resolved as
//! always, which ends at a call that has no answer.

ghost use Rattle.fluent_ast.specs.Borrowed.{inline_of, name_of, named_of};
ghost use Rattle.fluent_calls.specs.CallValues.{plain};
ghost use Rattle.fluent_calls.specs.Gathering.{literal as literal_of, literals};
ghost use Rattle.fluent_calls.specs.GatheringView.{AreGatheredOf, Gathered, GivesValue, GivesValues, Puts, all_known, all_lacking, arguments_in, known, lacking, left_by, result as result_of, unanswered};
ghost use Rattle.fluent_meaning.specs.Steps.{opens};
ghost use Rattle.fluent_progress.specs.Views.{path_of, state};
ghost use Rattle.fluent_resolver.specs.Steps.{call_of};
ghost use Rattle.fluent_run.specs.Dated.{dated_view};
ghost use Rattle.fluent_serve.specs.Frames.{ended};
ghost use Rattle.fluent_value.specs.Args.{all_set, argument as argument_of};
ghost use Rattle.fluent_value.specs.Value.{error};
ghost use Rattle.std.specs.Prelude.{◌≡◌, ◌++◌, [], IfOk, None, OnOk, string_bytes, unwrap_or};

use crate::call::call_text;
use crate::callee::Callee;
use crate::calls::Calls;
use crate::otherwise::Otherwise;
use crate::plain::plain_in;
use fluent_ast::{
    CallArguments, Expression, Identifier, InlineExpression, NamedArgument, Pattern, PatternElement,
};
use fluent_dates::{DATETIME, DateTimeValue};
use fluent_ids::Entry;
use fluent_progress::text::literal_value;
use fluent_progress::{Context, Lookup, Progress, Surroundings};
use fluent_resolver::pattern::write_opened;
use fluent_text::stack::{Stack, StackBudget, resolving};
use fluent_value::{FluentArgs, FluentValue, builtins};
use std::alloc::{AllocError, Global};
use std::borrow::CowStr;

/// A line for each call that is gathered of a pattern.
///
/// # Errors
/// [`AllocError`] if memory runs out, or if calls and placeables nest so deep that they would take
/// more of the machine's stack than the budget.
pub(crate) fn gather_pattern<'b, 'r, 's, 'a, E: Context<DateTimeValue, Callee>, K: Otherwise>(
    place: &Surroundings<'b, 'r, 's, 'a, DateTimeValue, Callee, E>,
    calls: &Calls<'_, '_, K>,
    pattern: &'r Pattern<&'s str>,
    stack: StackBudget,
) -> Result<String, AllocError>
    requires { place.now.locals ≡ None }
    ensures { IfOk result (AreGatheredOf place.now calls.now.answers.now pattern.now) }
{
    let alloc = place.context.alloc();
    let mut progress = Progress::within(alloc, None, stack);
    let mut found = String::new(alloc);
    for element in &pattern.elements {
        if let PatternElement::Placeable { expression } = element {
            if !gather_placeable(place, &mut progress, calls, pattern, expression, &mut found)? {
                return Ok(found);
            }
        }
    }
    Ok(found)
}

/// Puts the calls of a placeable into lines of `found`, and returns whether those after it are
/// known, too.
fn gather_placeable<'b, 'r, 's, 'a, E: Context<DateTimeValue, Callee>, K: Otherwise>(
    place: &Surroundings<'b, 'r, 's, 'a, DateTimeValue, Callee, E>,
    progress: &mut Progress<'r, 's>,
    calls: &Calls<'_, '_, K>,
    whole: &'r Pattern<&'s str>,
    expression: &'r Expression<&'s str>,
    found: &mut String,
) -> Result<bool, AllocError>
    requires locals { place.now.locals ≡ None }
    requires path { path_of progress.now ≡ [] }
    ensures { Puts place.now calls.now whole.now expression.now
        progress.old progress.new found.old found.new result }
{
    if !open_placeable(progress)? {
        return Ok(false);
    }
    if let Some(inline) = plain_in(expression) {
        let mut frames = progress.stack.counted;
        gather_value(place, &mut frames, calls.answers, inline, found)?;
        return Ok(true);
    }
    match pass(place, progress, whole, expression) {
        Ok(()) => Ok(true),
        Err(AllocError) => {
            push_line(calls.left(place.ids)?, found)?;
            Ok(false)
        }
    }
}

/// Resolves an opened placeable. Its text is dropped.
fn pass<'b, 'r, 's, 'a, E: Context<DateTimeValue, Callee>>(
    place: &Surroundings<'b, 'r, 's, 'a, DateTimeValue, Callee, E>,
    progress: &mut Progress<'r, 's>,
    pattern: &'r Pattern<&'s str>,
    expression: &'r Expression<&'s str>,
) -> Result<(), AllocError>
    ensures budget { OnOk result ((state progress.new).budget
        ≡ left_by place.now pattern.now expression.now progress.old) }
    ensures path { OnOk result (path_of progress.new ≡ path_of progress.old) }
{
    let mut text = String::new(place.context.alloc());
    write_opened(&mut text, place, progress, pattern, expression)
}

/// Counts a placeable, and returns whether it may be opened.
fn open_placeable(progress: &mut Progress<'_, '_>) -> Result<bool, AllocError>
    ensures value { IfOk result (λ is_open. is_open ≡ (opens (state progress.old).budget).value) }
    ensures budget { OnOk result ((state progress.new).budget
        ≡ (opens (state progress.old).budget).budget) }
    ensures path { progress.new.path ≡ progress.old.path }
{
    if progress.dirty {
        return Ok(false);
    }
    progress.open_placeable()
}

/// The value of a plain expression, if each call in it has an answer. Those that have none are put
/// into lines of `found`.
#[cycle(gathering)]
fn gather_value<'b, 'r, 's, 'a, E: Context<DateTimeValue, Callee>>(
    place: &Surroundings<'b, 'r, 's, 'a, DateTimeValue, Callee, E>,
    frames: &mut Stack,
    answers: &FluentArgs<'_, DateTimeValue>,
    inline: &'r InlineExpression<&'s str>,
    found: &mut String,
) -> Result<Option<FluentValue<'s, DateTimeValue>>, AllocError>
    ensures value { GivesValue result (known place.now answers.now (inline_of inline.now)) }
    ensures lines { Gathered result found.old found.new
        (lacking place.now answers.now (inline_of inline.now)) }
{
    let alloc = place.context.alloc();
    match inline {
        InlineExpression::StringLiteral { value } => Ok(Some(literal_value(alloc, *value)?)),
        InlineExpression::NumberLiteral { value } => Ok(Some(FluentValue::try_number(*value))),
        InlineExpression::VariableReference { id } => Ok(Some(argument(place, id)?)),
        InlineExpression::FunctionReference { id, arguments } => {
            gather_call(place, frames, answers, id, arguments, found)
        }
        _ => Ok(None),
    }
}

/// The value of a call.
#[cycle(gathering)]
fn gather_call<'b, 'r, 's, 'a, E: Context<DateTimeValue, Callee>>(
    place: &Surroundings<'b, 'r, 's, 'a, DateTimeValue, Callee, E>,
    frames: &mut Stack,
    answers: &FluentArgs<'_, DateTimeValue>,
    id: &'r Identifier<&'s str>,
    arguments: &'r CallArguments<&'s str>,
    found: &mut String,
) -> Result<Option<FluentValue<'s, DateTimeValue>>, AllocError>
    ensures value { GivesValue result (known place.now answers.now (call_of id.now arguments.now)) }
    ensures lines { Gathered result found.old found.new
        (lacking place.now answers.now (call_of id.now arguments.now)) }
{
    frames.open(resolving::CALL)?;
    let result = match gather_values(place, frames, answers, &arguments.positional, found)? {
        Some(positional) => {
            let named = literal_values(place, &arguments.named)?;
            call_value(place, answers, id.name, &positional, &named, found)?
        }
        None => None,
    };
    frames.close(resolving::CALL);
    Ok(result)
}

/// The values of positional arguments, if all are known.
#[cycle(gathering)]
fn gather_values<'b, 'r, 's, 'a, E: Context<DateTimeValue, Callee>>(
    place: &Surroundings<'b, 'r, 's, 'a, DateTimeValue, Callee, E>,
    frames: &mut Stack,
    answers: &FluentArgs<'_, DateTimeValue>,
    arguments: &'r Vec<InlineExpression<&'s str>>,
    found: &mut String,
) -> Result<Option<Vec<FluentValue<'s, DateTimeValue>>>, AllocError>
    ensures value { GivesValues result (all_known place.now answers.now arguments.now.items) }
    ensures lines { Gathered result found.old found.new
        (all_lacking place.now answers.now arguments.now.items) }
{
    let mut values = Vec::with_capacity(place.context.alloc(), arguments.len())?;
    let mut are_known = true;
    for argument in arguments {
        match gather_value(place, frames, answers, argument, found)? {
            Some(value) => values.push(value)?,
            None => are_known = false,
        }
    }
    if are_known {
        Ok(Some(values))
    } else {
        Ok(None)
    }
}

/// The value of a variable, or an error if it has none.
fn argument<'b, 'r, 's, 'a, E: Context<DateTimeValue, Callee>>(
    place: &Surroundings<'b, 'r, 's, 'a, DateTimeValue, Callee, E>,
    id: &Identifier<&'s str>,
) -> Result<FluentValue<'s, DateTimeValue>, AllocError>
    ensures { IfOk result (λ value. plain value
        ≡ unwrap_or (argument_of (name_of id.now) (arguments_in place.now)) error) }
{
    let given = match place.arguments {
        Some(arguments) => arguments.argument_copy(place.context.alloc(), id.name)?,
        None => place.context.given_copy(id.name)?,
    };
    match given {
        Some(value) => Ok(value),
        None => Ok(FluentValue::Error),
    }
}

/// The values of named arguments that are literals: of a name that comes twice the last one.
fn literal_values<'b, 'r, 's, 'a, E: Context<DateTimeValue, Callee>>(
    place: &Surroundings<'b, 'r, 's, 'a, DateTimeValue, Callee, E>,
    arguments: &'r Vec<NamedArgument<&'s str>>,
) -> Result<FluentArgs<'s, DateTimeValue>, AllocError>
    ensures { IfOk result (λ values. dated_view values
        ≡ all_set [] (literals (named_of arguments.now.items))) }
{
    let alloc = place.context.alloc();
    let mut values = FluentArgs::new(alloc);
    for argument in arguments {
        let value = literal(alloc, &argument.value)?;
        values.set_value(CowStr::Borrowed(argument.name.name), value)?;
    }
    Ok(values)
}

/// The value of a literal, or an error.
fn literal<'s>(
    alloc: Global,
    inline: &InlineExpression<&'s str>,
) -> Result<FluentValue<'s, DateTimeValue>, AllocError>
    ensures { IfOk result (λ value. plain value ≡ unwrap_or (literal_of (inline_of inline.now)) error) }
{
    match inline {
        InlineExpression::StringLiteral { value } => literal_value(alloc, *value),
        InlineExpression::NumberLiteral { value } => Ok(FluentValue::try_number(*value)),
        _ => Ok(FluentValue::Error),
    }
}

/// The value of a call with these values. `None` if the call is of a function of the program and
/// has no answer: then it is put into a line of `found`.
fn call_value<'b, 'r, 's, 'a, E: Context<DateTimeValue, Callee>>(
    place: &Surroundings<'b, 'r, 's, 'a, DateTimeValue, Callee, E>,
    answers: &FluentArgs<'_, DateTimeValue>,
    id: &str,
    positional: &[FluentValue<'s, DateTimeValue>],
    named: &FluentArgs<'s, DateTimeValue>,
    found: &mut String,
) -> Result<Option<FluentValue<'s, DateTimeValue>>, AllocError>
    ensures value { GivesValue result
        (result_of place.now answers.now id.now positional.now named.now) }
    ensures lines { Gathered result found.old found.new
        (unanswered place.now answers.now id.now positional.now named.now) }
{
    let alloc = place.context.alloc();
    match place.ids.get(id) {
        Some(Entry::Function(Callee::Program(_))) => {
            let call = call_text(alloc, id, positional, named)?;
            match answers.get(&call) {
                Some(answer) => Ok(Some(answer.into_owned(alloc)?)),
                None => {
                    push_line(call, found)?;
                    Ok(None)
                }
            }
        }
        Some(Entry::Function(Callee::DateTime)) => Ok(Some(DATETIME(alloc, positional, named)?)),
        Some(Entry::Number) => Ok(Some(builtins::NUMBER(alloc, positional, named)?)),
        _ => Ok(Some(FluentValue::Error)),
    }
}

/// Puts a call into a line of `found`.
///
/// # Errors
/// [`AllocError`] if memory runs out; `found` may hold a part of it then.
fn push_line(mut call: String, found: &mut String) -> Result<(), AllocError>
    ensures { OnOk result (string_bytes found.new ≡ string_bytes found.old ++ ended (string_bytes call)) }
{
    call.push_str("\n")?;
    found.push_str(&call)
}
