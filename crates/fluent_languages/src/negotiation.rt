//! Which of a program's languages are used for a user's.
ghost use Rattle.std.specs.Prelude.{◌≡◌, ◌++◌, IfOk, OnOk, []};
ghost use Rattle.std.specs.Option.{option_to_list};
ghost use Rattle.fluent_languages.specs.Negotiation.{all_for, all_in, by_ways, are_one_tag, best, best_for, filtered, first_in, has, is_among, is_needed, is_new, looked_up, matched, negotiated, place_if_tag, places, positions, text_at, texts_at, used_of};
ghost use Rattle.fluent_languages.specs.Locales.{place_in, places_of, wanted};
ghost use Rattle.fluent_languages.specs.Steps.{steps};
ghost use Rattle.fluent_languages.specs.Tags.{read_tag, texts};

use crate::locale::{Locale, Request};
use crate::steps::{Step, fulfils};
use crate::tag::LanguageTag;
use std::alloc::{AllocError, Global};

/// How many of a program's languages are used.
#[derive(Clone, Copy, Debug, PartialEq, Eq)]
pub enum NegotiationStrategy {
    /// All that suit any of the user's languages: a chain to fall back along.
    Filtering,
    /// The best one for each of the user's languages.
    Matching,
    /// One: the best for the first of the user's languages that any suits.
    Lookup,
}

/// The ways in which an offer can suit a request, the best first.
const STEPS: [Step; 9] = [
    Step::Same,
    Step::Covers,
    Step::CoversLikely,
    Step::OtherVariant,
    Step::StandsFor,
    Step::SameGroup,
    Step::MainRegion,
    Step::OtherRegion,
    Step::OtherScript,
];

/// The languages of a program that are used for those that a user asks for, the best first. The
/// last resort comes after them: for `Lookup` if there is no other, and else unless it is among
/// them.
///
/// # Errors
/// [`AllocError`] if memory runs out.
pub fn negotiate_languages<'a>(
    alloc: Global,
    requested: &[&str],
    available: &[&'a str],
    last: Option<&'a str>,
    strategy: NegotiationStrategy,
) -> Result<Vec<&'a str>, AllocError>
    ensures { IfOk result (λ used. texts used.items ≡ used_of strategy last.entry requested.now available.now) }
{
    let found = negotiate(alloc, requested, available, strategy)?;
    let mut used = used_texts(alloc, available, &found)?;
    if let Some(last) = last {
        if needs(strategy, &used, last) {
            used.push(last)?;
        }
    }
    Ok(used)
}

/// The texts at positions.
fn used_texts<'a>(
    alloc: Global,
    available: &[&'a str],
    found: &[usize],
) -> Result<Vec<&'a str>, AllocError>
    ensures { IfOk result (λ used. texts used.items ≡ texts_at (texts available.now) found.now) }
{
    let mut used = Vec::new(alloc);
    for position in found {
        push_text(&mut used, available, *position)?;
    }
    Ok(used)
}

/// Puts in the text at a position, if there is one.
fn push_text<'a>(
    used: &mut Vec<&'a str>,
    available: &[&'a str],
    at: usize,
) -> Result<(), AllocError>
    ensures { OnOk result (texts used.new.items ≡ texts used.old.items ++ text_at (texts available.now) at) }
{
    if at < available.len() {
        used.push(available[at])?;
    }
    Ok(())
}

/// Whether the last resort is used beside these.
fn needs(strategy: NegotiationStrategy, used: &[&str], last: &str) -> bool
    ensures { result ≡ is_needed strategy (texts used.now) last.now }
{
    match strategy {
        NegotiationStrategy::Filtering => !has_tag(used, last),
        NegotiationStrategy::Matching => !has_tag(used, last),
        NegotiationStrategy::Lookup => used.is_empty(),
    }
}

/// The positions of these languages among those that are available.
///
/// # Errors
/// [`AllocError`] if memory runs out.
pub fn negotiate(
    alloc: Global,
    requested: &[&str],
    available: &[&str],
    strategy: NegotiationStrategy,
) -> Result<Vec<usize>, AllocError>
    ensures { IfOk result (λ found. found.items ≡ positions strategy (texts requested.now) (texts available.now)) }
{
    let requested = bytes_of(alloc, requested)?;
    let available = bytes_of(alloc, available)?;
    negotiate_bytes(alloc, &requested, &available, strategy)
}

/// The same for tags as bytes.
///
/// # Errors
/// [`AllocError`] if memory runs out.
pub fn negotiate_bytes(
    alloc: Global,
    requested: &[&[u8]],
    available: &[&[u8]],
    strategy: NegotiationStrategy,
) -> Result<Vec<usize>, AllocError>
    ensures { IfOk result (λ found. found.items ≡ positions strategy (texts requested.now) (texts available.now)) }
{
    let offers = locales(alloc, available)?;
    let requests = locales(alloc, requested)?;
    match strategy {
        NegotiationStrategy::Filtering => filter(alloc, &offers, &requests),
        NegotiationStrategy::Matching => match_each(alloc, &offers, &requests),
        NegotiationStrategy::Lookup => listed(alloc, look_up(&offers, &requests)),
    }
}

/// A position in a list, or the empty list.
fn listed(alloc: Global, position: Option<usize>) -> Result<Vec<usize>, AllocError>
    ensures { IfOk result (λ found. found.items ≡ option_to_list position) }
{
    let mut found = Vec::new(alloc);
    if let Some(at) = position {
        found.push(at)?;
    }
    Ok(found)
}

/// The bytes of texts.
fn bytes_of<'t>(alloc: Global, tags: &[&'t str]) -> Result<Vec<&'t [u8]>, AllocError>
    ensures { IfOk result (λ bytes. texts bytes.items ≡ texts tags.now) }
{
    let mut bytes = Vec::with_capacity(alloc, tags.len())?;
    for tag in tags {
        bytes.push(tag.as_bytes())?;
    }
    Ok(bytes)
}

/// The locales that texts name.
fn locales<'t>(alloc: Global, tags: &[&'t [u8]]) -> Result<Vec<Option<Locale<'t>>>, AllocError>
    ensures { IfOk result (λ named. places_of named.items ≡ places (texts tags.now)) }
{
    let mut named = Vec::with_capacity(alloc, tags.len())?;
    for tag in tags {
        named.push(Locale::parse(tag))?;
    }
    Ok(named)
}

/// The positions of all offers that suit a request, request by request.
fn filter(
    alloc: Global,
    offers: &[Option<Locale<'_>>],
    requests: &[Option<Locale<'_>>],
) -> Result<Vec<usize>, AllocError>
    ensures { IfOk result (λ found. found.items ≡ filtered (places_of offers.now)
        (places_of requests.now) []) }
{
    let mut found = Vec::new(alloc);
    for request in requests {
        find_for(&mut found, request, offers)?;
    }
    Ok(found)
}

/// Puts in the positions of all offers that suit a request, if it is a tag.
fn find_for(
    found: &mut Vec<usize>,
    request: &Option<Locale<'_>>,
    offers: &[Option<Locale<'_>>],
) -> Result<(), AllocError>
    ensures { OnOk result (found.new.items
        ≡ all_for (place_in request.now) (places_of offers.now) found.old.items) }
{
    match request {
        None => Ok(()),
        Some(request) => find_all(found, &Request::of(*request), offers, &STEPS),
    }
}

/// The position of the best offer for each request.
fn match_each(
    alloc: Global,
    offers: &[Option<Locale<'_>>],
    requests: &[Option<Locale<'_>>],
) -> Result<Vec<usize>, AllocError>
    ensures { IfOk result (λ found. found.items ≡ matched (places_of offers.now)
        (places_of requests.now) []) }
{
    let mut found = Vec::new(alloc);
    for request in requests {
        if let Some(at) = best_of(request, offers, &found) {
            found.push(at)?;
        }
    }
    Ok(found)
}

/// The position of the best offer for the first request that any suits.
fn look_up(offers: &[Option<Locale<'_>>], requests: &[Option<Locale<'_>>]) -> Option<usize>
    ensures { result ≡ looked_up (places_of offers.now) (places_of requests.now) }
{
    for request in requests {
        if let Some(at) = best_of(request, offers, &[]) {
            return Some(at);
        }
    }
    None
}

/// Puts in the positions of all offers that suit a request in some way.
fn find_all(
    found: &mut Vec<usize>,
    asked: &Request<'_>,
    offers: &[Option<Locale<'_>>],
    ways: &[Step],
) -> Result<(), AllocError>
    ensures { OnOk result (found.new.items
        ≡ by_ways (wanted asked.now) (places_of offers.now) ways.now found.old.items) }
{
    for way in ways {
        find_in(found, *way, asked, offers)?;
    }
    Ok(())
}

/// Puts in the positions of the offers that suit a request in this way, and weren't found before.
fn find_in(
    found: &mut Vec<usize>,
    step: Step,
    request: &Request<'_>,
    offers: &[Option<Locale<'_>>],
) -> Result<(), AllocError>
    ensures { OnOk result (found.new.items ≡ all_in step (wanted request.now)
        (places_of offers.now) 0 found.old.items) }
{
    for (at, offer) in offers.iter().enumerate() {
        if fits_anew(step, request, offer, at, found) {
            found.push(at)?;
        }
    }
    Ok(())
}

/// The position of the offer that suits a request best, of those that weren't found before.
fn best_of(
    request: &Option<Locale<'_>>,
    offers: &[Option<Locale<'_>>],
    found: &[usize],
) -> Option<usize>
    ensures { result ≡ best_for (place_in request.now) (places_of offers.now) found.now }
{
    match request {
        None => None,
        Some(request) => best_in(&Request::of(*request), offers, &STEPS, found),
    }
}

fn best_in(
    request: &Request<'_>,
    offers: &[Option<Locale<'_>>],
    steps: &[Step],
    found: &[usize],
) -> Option<usize>
    ensures { result ≡ best (wanted request.now) (places_of offers.now) steps.now found.now }
{
    for step in steps {
        if let Some(at) = find_first(*step, request, offers, found) {
            return Some(at);
        }
    }
    None
}

/// The position of the first offer that suits a request in this way, of those that weren't found
/// before.
fn find_first(
    step: Step,
    request: &Request<'_>,
    offers: &[Option<Locale<'_>>],
    found: &[usize],
) -> Option<usize>
    ensures { result ≡ first_in step (wanted request.now) (places_of offers.now) 0 found.now }
{
    for (at, offer) in offers.iter().enumerate() {
        if fits_anew(step, request, offer, at, found) {
            return Some(at);
        }
    }
    None
}

/// Whether an offer suits a request in this way, and wasn't found before.
fn fits_anew(
    step: Step,
    request: &Request<'_>,
    offer: &Option<Locale<'_>>,
    at: usize,
    found: &[usize],
) -> bool
    ensures { result ≡ is_new step (wanted request.now) (place_in offer.now) at found.now }
{
    match offer {
        None => false,
        Some(offer) => fulfils(step, request, offer) && !holds(found, at),
    }
}

fn holds(found: &[usize], at: usize) -> bool
    ensures { result ≡ has found.now at }
{
    for position in found {
        if *position == at {
            return true;
        }
    }
    false
}

/// Whether a tag is among texts.
fn has_tag(tags: &[&str], tag: &str) -> bool
    ensures { result ≡ is_among (texts tags.now) tag.now }
{
    for text in tags {
        if is_tag(text, tag) {
            return true;
        }
    }
    false
}

fn is_tag(text: &str, tag: &str) -> bool
    ensures { result ≡ are_one_tag (read_tag text.now) (read_tag tag.now) }
{
    match LanguageTag::parse(text) {
        None => false,
        Some(first) => match LanguageTag::parse(tag) {
            None => false,
            Some(second) => first.is_same(&second),
        },
    }
}
