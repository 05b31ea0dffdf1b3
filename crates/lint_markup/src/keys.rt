//! Texts of one character beside those of the reference: access keys and keys.
#![tactic(auto)]

ghost use Rattle.std.specs.Prelude.{◌≡◌, ◌==◌, ◌<◌, ◌||◌, nat_lt, not, IfOk, IfSome, None, OnOk, Some, option_map};
ghost use Rattle.std.specs.List.{list_all, list_any};
ghost use Rattle.std.specs.Option.{option_map_or};
ghost use Rattle.fluent_ast.specs.Borrowed.{attributes_of, message_of};
ghost use Rattle.fluent_grammar.specs.Words.{is_between, is_letter};
ghost use Rattle.lint_findings.specs.Doubts as d;
ghost use Rattle.lint_findings.specs.Keys as k;
ghost use Rattle.lint_markup.specs.InCode.{Adds, AddsOfPatterns, IsOn, code_of, long_doubt};

use crate::spotted::{Spotted, push_spotted};
use fluent_ast::{Attribute, Message, Pattern};
use lint_findings::Remark;
use lint_flaws::{attribute_text, only_text};
use std::alloc::{AllocError, Global};

/// An attribute of one character.
#[derive(Clone, Copy)]
pub enum Key {
    /// `.accesskey`
    Access,
    /// `.key`
    Command,
}

impl Key {
    fn code(self) -> &'static str
        ensures { result.now ≡ code_of self }
    {
        match self {
            Key::Access => "long-access-key",
            Key::Command => "long-key",
        }
    }
}

/// Adds that a text has more than one character, and that of the reference has one.
///
/// # Errors
/// [`AllocError`] if memory runs out; nothing is added then.
pub fn push_long_key(
    alloc: Global,
    key: Key,
    pattern: &Pattern<&str>,
    other: &Pattern<&str>,
    found: &mut Vec<Spotted>,
) -> Result<(), AllocError>
    ensures { OnOk result (AddsOfPatterns (k.long_for (long_doubt key)) pattern.now other.now found.old found.new) }
{
    match (only_text(pattern), only_text(other)) {
        (Some(text), Some(other)) => push_if_long(alloc, key, text, other, found),
        _ => Ok(()),
    }
}

/// The same of the texts.
fn push_if_long(
    alloc: Global,
    key: Key,
    text: &str,
    other: &str,
    found: &mut Vec<Spotted>,
) -> Result<(), AllocError>
    ensures { OnOk result (Adds found.old found.new (k.long_beside (long_doubt key) text.now other.now)) }
{
    if characters(other) == 1 && characters(text) > 1 {
        let remark = long_remark(alloc, key, text)?;
        push_spotted(Spotted::on_text(alloc, remark), found)
    } else {
        Ok(())
    }
}

fn long_remark(alloc: Global, key: Key, text: &str) -> Result<Remark, AllocError>
    ensures { IfOk result (IsOn (long_doubt key text.now)) }
{
    let words = format!(in alloc; "`{text}` has more than one character")?;
    Ok(Remark::warning(key.code(), words))
}

/// How many characters a text has.
pub fn characters(text: &str) -> usize
    ensures { result ≡ k.characters text.now }
{
    first_bytes(text.as_bytes())
}

/// How many bytes begin a character.
fn first_bytes(text: &[u8]) -> usize
    ensures { result ≡ k.characters text.now }
{
    text.iter().filter(|byte| is_first_byte(**byte)).count()
}

fn is_first_byte(byte: u8) -> bool
    ensures { result ≡ not (is_between 0x80 0xBF byte) }
{
    byte < 0x80 || byte > 0xBF
}

/// Adds that the access key of a message isn't in its label, if that of the reference is.
///
/// # Errors
/// [`AllocError`] if memory runs out; nothing is added then.
pub fn push_outside_label(
    alloc: Global,
    message: &Message<&str>,
    other: &Message<&str>,
    found: &mut Vec<Spotted>,
) -> Result<(), AllocError>
    ensures { OnOk result (Adds found.old found.new
        (k.outside_label (message_of message.now) (message_of other.now))) }
{
    if !keeps_key(other) {
        return Ok(());
    }
    match lost_key(message) {
        Some(letter) => push_lost(alloc, letter, found),
        None => Ok(()),
    }
}

fn push_lost(alloc: Global, letter: u8, found: &mut Vec<Spotted>) -> Result<(), AllocError>
    requires { letter < 128 }
    ensures { OnOk result (Adds found.old found.new (k.lost_spotted (Some letter))) }
{
    let remark = lost_remark(alloc, letter)?;
    push_spotted(Spotted::on_text(alloc, remark), found)
}

fn lost_remark(alloc: Global, letter: u8) -> Result<Remark, AllocError>
    requires { letter < 128 }
    ensures { IfOk result (IsOn (d.lost_key letter)) }
{
    let letter = letter as char;
    let words = format!(in alloc; "`{letter}` isn't in the label")?;
    Ok(Remark::note("access-key-not-in-label", words))
}

/// The access key of a message, if it is a letter that its Latin label doesn't have.
fn lost_key(message: &Message<&str>) -> Option<u8>
    ensures value { result ≡ k.lost_letter_of (message_of message.now) }
    ensures ascii { IfSome result (λ letter. letter < 128) }
{
    match (label_of(message), key_of(message)) {
        (Some(label), Some(letter)) if is_latin(label) && !has_letter(letter, label) => {
            Some(letter)
        }
        _ => None,
    }
}

/// Whether the label of a message has its access key, a letter.
fn keeps_key(message: &Message<&str>) -> bool
    ensures { result ≡ k.keeps_key (message_of message.now) }
{
    match (label_of(message), key_of(message)) {
        (Some(label), Some(letter)) => has_letter(letter, label),
        _ => false,
    }
}

/// The access key of a message, if it is an ASCII letter.
fn key_of(message: &Message<&str>) -> Option<u8>
    ensures { result ≡ option_map_or k.as_letter (k.access_key (message_of message.now)) None }
{
    match attribute_text(&message.attributes, "accesskey") {
        Some(text) => as_letter(text.as_bytes()),
        None => None,
    }
}

fn as_letter(text: &[u8]) -> Option<u8>
    ensures { result ≡ k.as_letter text.now }
{
    match text {
        [letter] if letter.is_ascii_alphabetic() => Some(*letter),
        _ => None,
    }
}

/// The label of a message, if it is a text: the attribute, or else the value.
fn label_of<'s>(message: &Message<&'s str>) -> Option<&'s str>
    ensures { option_map (λ s. s.now) result ≡ k.label_of (message_of message.now) }
{
    if has_attribute("label", &message.attributes) {
        return attribute_text(&message.attributes, "label");
    }
    match &message.value {
        Some(pattern) => only_text(pattern),
        None => None,
    }
}

fn has_attribute(name: &str, attributes: &[Attribute<&str>]) -> bool
    ensures { result ≡ k.has_attribute name.now (attributes_of attributes.now) }
{
    for attribute in attributes {
        if attribute.id.name == name {
            return true;
        }
    }
    false
}

/// Whether a text has an ASCII letter, and no letter that isn't Latin.
fn is_latin(text: &str) -> bool
    ensures { result ≡ k.is_latin text.now }
{
    has_latin_bytes(text.as_bytes()) && has_ascii_letter(text.as_bytes())
}

/// Whether no byte begins a letter that isn't Latin.
fn has_latin_bytes(text: &[u8]) -> bool
    ensures { result ≡ list_all (λ c. nat_lt c 0xCA || c == 0xE2) text.now }
{
    text.iter().all(|&byte| byte < 0xCA || byte == 0xE2)
}

fn has_ascii_letter(text: &[u8]) -> bool
    ensures { result ≡ list_any is_letter text.now }
{
    text.iter().any(|byte| byte.is_ascii_alphabetic())
}

/// Whether a text has a letter, small or capital.
fn has_letter(letter: u8, text: &str) -> bool
    ensures { result ≡ k.has_letter letter text.now }
{
    has_byte(letter, text.as_bytes())
}

fn has_byte(letter: u8, text: &[u8]) -> bool
    ensures { result ≡ k.has_letter letter text.now }
{
    text.iter().any(|byte| byte.eq_ignore_ascii_case(&letter))
}
