//! Calls of `fluent_desk`.

ghost use Rattle.std.specs.Prelude.{◌≡◌, IfOk};
ghost use Rattle.fluent_desk.specs.ForCallers.{list};
ghost use Rattle.fluent_syntax.specs.ForCallers.{listed, owned_entries_of};
ghost use Rattle.example_callers.specs.Answers.{answers_from};

use fluent_desk::laws::tidied_sources_keep_answers;
use fluent_desk::{CleanError, Settings, StackBudget, answers, clean};
use fluent_syntax::ast::Resource;
use fluent_syntax::parser::{Error, parse};
use fluent_value::{MemoizerKind, NoCustom, NoFunction};
use std::alloc::Global;

/// The tree of a source that may be damaged: what `clean` gives is read without errors, and has all
/// of its messages and terms.
///
/// # Errors
/// [`CarriageReturn`](CleanError::CarriageReturn) if the source holds one,
/// [`Memory`](CleanError::Memory) if memory runs out.
pub fn cleaned_tree(alloc: Global, source: &str) -> Result<Resource<String>, CleanError>
    ensures { IfOk result (λ read. listed (owned_entries_of read) ≡ list source.now) }
{
    let text = clean(alloc, source)?;
    match parse(alloc, text) {
        Ok(read) => Ok(read),
        Err(Error::Broken(_, _)) => unreachable!(),
        Err(Error::Memory) => Err(CleanError::Memory),
    }
}

/// The answers from a cleaned source, which are those from the source itself.
///
/// # Errors
/// [`CarriageReturn`](CleanError::CarriageReturn) if the source holds one,
/// [`Memory`](CleanError::Memory) if memory runs out.
pub fn cleaned_answers<M: MemoizerKind>(
    alloc: Global,
    source: &str,
    settings: Settings,
    plurals: &M,
    requests: &[u8],
) -> Result<Vec<u8>, CleanError>
    ensures { IfOk result (λ out. out.items
        ≡ answers_from M.MemoizerKind plurals.now settings source.now requests.now) }
{
    tidied_sources_keep_answers::<NoCustom, NoFunction>();
    let text = clean(alloc, source)?;
    let stack = StackBudget::PROGRAM;
    Ok(answers(alloc, &[text.as_str()], settings, plurals, requests, stack)?)
}
