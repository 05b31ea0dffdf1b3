//! Which of a program's languages are used for a user's.

ghost use Rattle.std.specs.Prelude.{◌≡◌, ◌≢◌, IfOk, length};
ghost use Rattle.fluent_c.specs.Answering.{texts_of};
ghost use Rattle.fluent_c.specs.Languages.{filled, used};
ghost use Rattle.fluent_c.specs.Statuses.{Negotiates};
ghost use Rattle.fluent_c.specs.declared.TheConstants.{FLUENT_READ};
ghost use Rattle.fluent_languages.specs.Negotiation.{positions};
ghost use Rattle.fluent_languages.specs.Tags.{texts};

use crate::answering::FluentSource;
use crate::{
    FLUENT_BAD_ARGUMENT, FLUENT_FILTERING, FLUENT_LOOKUP, FLUENT_MATCHING, FLUENT_NO_MEMORY,
    FLUENT_READ,
};
use fluent_languages::{NegotiationStrategy, negotiate_bytes};
use std::alloc::{AllocError, Global};

/// Finds the languages of a program that are used for those that a user asks for, by the strategy
/// of this number.
///
/// What is no tag is passed over. The call returns [`FLUENT_READ`], and puts the positions of these
/// languages in `available` into `positions`, the best first, as many as it has room for, and into
/// `count` how many there are. It returns [`FLUENT_BAD_ARGUMENT`] if there is no such strategy, or
/// [`FLUENT_NO_MEMORY`], and both are unchanged then. All memory is freed when it returns.
/// `docs/reference/languages.md` has the rules.
#[unsafe(no_mangle)]
pub extern "C" fn fluent_negotiate(
    alloc: Global,
    requested: &[FluentSource<'_>],
    available: &[FluentSource<'_>],
    strategy: u32,
    positions: &mut [usize],
    count: &mut usize,
) -> u32
    ensures status { Negotiates strategy result }
    ensures count { result ≡ FLUENT_READ
        → count.new ≡ length (used strategy requested.now available.now) }
    ensures put { result ≡ FLUENT_READ → positions.new
        ≡ filled positions.old (used strategy requested.now available.now) }
    ensures unchanged { result ≢ FLUENT_READ → positions.new ≡ positions.old }
    ensures same_count { result ≢ FLUENT_READ → count.new ≡ count.old }
{
    let strategy = match strategy {
        FLUENT_FILTERING => NegotiationStrategy::Filtering,
        FLUENT_MATCHING => NegotiationStrategy::Matching,
        FLUENT_LOOKUP => NegotiationStrategy::Lookup,
        _ => return FLUENT_BAD_ARGUMENT,
    };
    match found(alloc, requested, available, strategy) {
        Ok(found) => {
            put_first(&found, positions);
            *count = found.len();
            FLUENT_READ
        }
        Err(_) => FLUENT_NO_MEMORY,
    }
}

/// Puts the first of some numbers into places, as many as there is room for.
fn put_first(numbers: &[usize], places: &mut [usize])
    ensures { places.new ≡ filled places.old numbers.now }
{
    let mut at = 0;
    while at < places.len() && at < numbers.len() {
        places[at] = numbers[at];
        at += 1;
    }
}

/// The positions of the languages that are used.
fn found(
    alloc: Global,
    requested: &[FluentSource<'_>],
    available: &[FluentSource<'_>],
    strategy: NegotiationStrategy,
) -> Result<Vec<usize>, AllocError>
    ensures { IfOk result (λ found. found.items
        ≡ positions strategy (texts_of requested.now) (texts_of available.now)) }
{
    let requested = tags_of(alloc, requested)?;
    let available = tags_of(alloc, available)?;
    negotiate_bytes(alloc, &requested, &available, strategy)
}

/// The bytes of each tag.
fn tags_of<'s>(alloc: Global, sources: &[FluentSource<'s>]) -> Result<Vec<&'s [u8]>, AllocError>
    ensures { IfOk result (λ tags. texts tags.items ≡ texts_of sources.now) }
{
    let mut tags = Vec::with_capacity(alloc, sources.len())?;
    for source in sources {
        tags.push(source.text)?;
    }
    Ok(tags)
}
