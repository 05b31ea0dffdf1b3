//! Answers request lines that lie in memory.

ghost use Rattle.std.specs.Prelude.{◌≡◌, IfOk};
ghost use Rattle.fluent_run.specs.RunView.{answers_in};

use crate::answering::{Means, run_within};
use crate::settings::Settings;
use fluent_serve::stream::{FromRead, FromWrite};
use fluent_text::stack::StackBudget;
use fluent_value::MemoizerKind;
use std::alloc::{AllocError, Global};

/// The answers to request lines: the bytes that [`run`](crate::run) would write for them. Each
/// message and term that is read, and each answer, may take this budget of the machine's stack.
///
/// ```
/// let settings = Settings { isolating: false, overriding: false, numerals: None };
/// let plurals = LanguagePlurals::root();
/// let requests = "key2\tx=3\n".as_bytes();
/// let stack = StackBudget::PROGRAM;
/// let before = answers(alloc, &[SOURCE], settings, &plurals, requests, stack)?;
/// ```
///
/// # Errors
/// [`AllocError`] if memory runs out, if placeables, calls and selects of a source, or those that a
/// request enters, nest too deep for the budget, or if the requests are longer than 4,294,967,296
/// blocks of 8,192 bytes; nothing is left after.
pub fn answers<M: MemoizerKind>(
    alloc: Global,
    sources: &[&str],
    settings: Settings,
    plurals: &M,
    requests: &[u8],
    stack: StackBudget,
) -> Result<Vec<u8>, AllocError>
    ensures { IfOk result (λ made. made.items
        ≡ answers_in M.MemoizerKind plurals.now settings sources.now requests.now) }
{
    let mut reader = FromRead::new(requests);
    let mut writer = FromWrite::new(Vec::new(alloc));
    let means = Means {
        stack,
        exits: false,
    };
    match run_within(
        alloc,
        sources,
        settings,
        plurals,
        &mut reader,
        &mut writer,
        means,
    ) {
        Ok(()) => Ok(writer.into_inner()),
        Err(_) => Err(AllocError),
    }
}
