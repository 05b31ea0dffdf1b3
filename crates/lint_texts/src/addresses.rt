//! Addresses in texts beside those of the reference.
#![tactic(auto)]

ghost use Rattle.std.specs.Prelude.{◌≡◌, ◌==◌, drop, IfOk, OnOk, map, option_map, string_bytes, take};
ghost use Rattle.std.specs.List.{list_any, prefix_len};
ghost use Rattle.fluent_grammar.specs.Words.{dot};
ghost use Rattle.fluent_tokens.specs.Counted.{Cuts};
ghost use Rattle.lint_nodes.specs.HasNames.{HasNames, texts};
ghost use Rattle.lint_findings.specs.Addresses as a;
ghost use Rattle.lint_findings.specs.Comparison.{without};
ghost use Rattle.lint_findings.specs.Doubts as d;
ghost use Rattle.lint_findings.specs.Typing.{first_of};
ghost use Rattle.lint_markup.specs.InCode.{Adds, AddsBeside, AreNames, IsOn, texts_in, texts_of};
ghost use Rattle.lint_texts.specs.AddressParts.{beginning_len, urls_beside, urls_changed};
ghost use Rattle.lint_texts.specs.InCode.{AddsAddresses, address_view};

use crate::spotting::push_at_new;
use fluent_tokens::{begins_with, front};
use lint_findings::Remark;
use lint_markup::Spotted;
use lint_nodes::{Names, skip};
use memchr::memchr2;
use std::alloc::{AllocError, Global};

/// An address of a page or of mail: what its host ends with, and the text from it on.
#[derive(Drop)]
pub struct Address<'t> {
    host: String,
    at: &'t str,
}

/// Adds that some texts have no address of a host of the others, at the first address of another.
///
/// # Errors
/// [`AllocError`] if memory runs out; nothing is added then.
pub fn push_changed_url(
    alloc: Global,
    texts: &[String],
    others: &[String],
    found: &mut Vec<Spotted>,
) -> Result<(), AllocError>
    ensures { OnOk result (AddsBeside a.urls_beside texts.now others.now found.old found.new) }
{
    let theirs = addresses(alloc, others)?;
    if theirs.is_empty() {
        return Ok(());
    }
    let mine = addresses(alloc, texts)?;
    push_changed(alloc, &mine, &theirs, found)
}

fn push_changed(
    alloc: Global,
    mine: &[Address<'_>],
    theirs: &[Address<'_>],
    found: &mut Vec<Spotted>,
) -> Result<(), AllocError>
    ensures { OnOk result (Adds found.old found.new (urls_changed mine.now theirs.now)) }
{
    let hosts = hosts_of(alloc, mine)?;
    let known = hosts_of(alloc, theirs)?;
    push_beside(alloc, mine, &hosts, &known, found)
}

/// Adds that the first host that is known isn't among others.
fn push_beside(
    alloc: Global,
    mine: &[Address<'_>],
    hosts: &Names<'_>,
    known: &Names<'_>,
    found: &mut Vec<Spotted>,
) -> Result<(), AllocError>
    requires hosts { AreNames hosts.now }
    requires known { AreNames known.now }
    ensures { OnOk result (Adds found.old found.new (urls_beside mine.now hosts.now known.now)) }
{
    match first_gone(&known.list, hosts) {
        Some(host) => {
            let remark = url_remark(alloc, host)?;
            push_at_new(alloc, first_new(known, mine), remark, found)
        }
        None => Ok(()),
    }
}

/// The first of some hosts that isn't among others.
fn first_gone<'t>(known: &[&'t str], hosts: &Names<'_>) -> Option<&'t str>
    requires { AreNames hosts.now }
    ensures { option_map (λ s. s.now) result ≡ first_of (without (texts known.now) (texts_in hosts.now)) }
{
    for host in known {
        if !hosts.has(host) {
            return Some(*host);
        }
    }
    None
}

fn url_remark(alloc: Global, host: &str) -> Result<Remark, AllocError>
    ensures { IfOk result (IsOn (d.changed_url host.now)) }
{
    let text = format!(in alloc; "the reference has an address of `{host}`")?;
    Ok(Remark::note("changed-url", text))
}

fn first_new<'t>(known: &Names<'_>, mine: &[Address<'t>]) -> Option<&'t str>
    requires { AreNames known.now }
    ensures { option_map (λ s. s.now) result ≡ a.first_new (texts_in known.now) (map address_view mine.now) }
{
    for address in mine {
        if !known.has(address.host.as_str()) {
            return Some(address.at);
        }
    }
    None
}

fn hosts_of<'t>(alloc: Global, addresses: &'t [Address<'_>]) -> Result<Names<'t>, AllocError>
    ensures { IfOk result (λ names. HasNames names (a.hosts (map address_view addresses.now))) }
{
    let mut hosts = Names::new(alloc);
    for address in addresses {
        hosts.add(address.host.as_str())?;
    }
    Ok(hosts)
}

fn addresses(alloc: Global, texts: &[String]) -> Result<Vec<Address<'_>>, AllocError>
    ensures { IfOk result (λ found. map address_view found.items ≡ a.addresses (texts_of texts.now)) }
{
    let mut addresses = Vec::new(alloc);
    for text in texts {
        push_addresses(alloc, text.as_str(), &mut addresses)?;
    }
    Ok(addresses)
}

fn push_addresses<'t>(
    alloc: Global,
    text: &'t str,
    addresses: &mut Vec<Address<'t>>,
) -> Result<(), AllocError>
    ensures { OnOk result (AddsAddresses addresses.old addresses.new (a.addresses_in text.now)) }
{
    match memchr2(b'@', b':', text.as_bytes()) {
        Some(_) => push_each(alloc, text, addresses),
        None => Ok(()),
    }
}

fn push_each<'t>(
    alloc: Global,
    text: &'t str,
    addresses: &mut Vec<Address<'t>>,
) -> Result<(), AllocError>
    ensures { OnOk result (AddsAddresses addresses.old addresses.new (a.addresses_in text.now)) }
{
    for place in 0..text.len() {
        push_if_there(alloc, text, place, addresses)?;
    }
    Ok(())
}

/// Adds the address after so many bytes, if one is there.
#[tactic(auto, using(fluent_tokens::proofs::Counted::cuts))]
fn push_if_there<'t>(
    alloc: Global,
    text: &'t str,
    place: usize,
    addresses: &mut Vec<Address<'t>>,
) -> Result<(), AllocError>
    ensures { OnOk result (AddsAddresses addresses.old addresses.new (a.address_at (drop place text.now))) }
{
    let len = beginning_len(skip(text.as_bytes(), place));
    if len > 0 {
        let at = &text[place..];
        let host = host_end(alloc, &at[len..])?;
        addresses.push(Address { host, at })?;
    }
    Ok(())
}

/// How many bytes stand before the host of the address at the front, 0 if there is none.
fn beginning_len(text: &[u8]) -> usize
    ensures { result ≡ beginning_len text.now }
{
    if begins_with(text, b'@') && has_dot(skip(text, 1)) {
        1
    } else {
        scheme_len(text)
    }
}

/// How many bytes the beginning of the address of a page has, 0 if none is at the front.
pub fn scheme_len(text: &[u8]) -> usize
    ensures { result ≡ a.scheme_len text.now }
{
    if text.starts_with(b"http://") {
        7
    } else if text.starts_with(b"https://") {
        8
    } else if text.starts_with(b"ftp://") {
        6
    } else {
        0
    }
}

/// Whether the host at the front has a dot.
fn has_dot(text: &[u8]) -> bool
    ensures { result ≡ a.has_dot text.now }
{
    any_dot(front(text, host_len(text)))
}

fn any_dot(host: &[u8]) -> bool
    ensures { result ≡ list_any (λ c. c == dot) host.now }
{
    host.iter().any(|&byte| byte == b'.')
}

/// The length of the host at the front, without the dots at its end.
#[tactic(auto, using(fluent_tokens::proofs::Counted::cuts))]
fn host_len(text: &[u8]) -> usize
    ensures value { take result text.now ≡ a.host_text text.now }
    ensures cuts { Cuts text.now result }
{
    let mut len = host_bytes_len(text);
    while len > 0 && text[len - 1] == b'.' {
        len -= 1;
    }
    len
}

fn host_bytes_len(text: &[u8]) -> usize
    ensures { result ≡ prefix_len a.is_host_byte text.now }
{
    text.iter().take_while(|byte| is_host_byte(**byte)).count()
}

fn is_host_byte(byte: u8) -> bool
    ensures { result ≡ a.is_host_byte byte }
{
    byte.is_ascii_alphanumeric() || byte == b'.' || byte == b'-'
}

/// What the host at the front ends with, in small letters: what stands after the last dot but one.
#[tactic(auto, using(fluent_tokens::proofs::Counted::cuts))]
fn host_end(alloc: Global, text: &str) -> Result<String, AllocError>
    ensures { IfOk result (λ host. string_bytes host ≡ a.host_end text.now) }
{
    let host = &text[..host_len(text.as_bytes())];
    last_labels(host).to_ascii_lowercase(alloc)
}

#[tactic(auto, using(fluent_tokens::proofs::Counted::cuts))]
fn last_labels(host: &str) -> &str
    ensures { result.now ≡ a.last_labels host.now }
{
    &host[labels_place(host.as_bytes())..]
}

/// How many bytes stand before the last dot but one and it.
#[tactic(auto, using(fluent_tokens::proofs::Counted::cuts))]
fn labels_place(host: &[u8]) -> usize
    ensures value { drop result host.now ≡ a.last_labels host.now }
    ensures cuts { Cuts host.now result }
{
    let mut is_dotted = false;
    let mut place = host.len();
    while place > 0 && !(is_dotted && host[place - 1] == b'.') {
        is_dotted = is_dotted || host[place - 1] == b'.';
        place -= 1;
    }
    place
}
