//! The findings of the texts of a message beside those of the message of the reference.
#![tactic(auto)]

ghost use Rattle.std.specs.Prelude.{◌≡◌, IfOk, OnOk, option_map, string_bytes};
ghost use Rattle.fluent_ast.specs.Borrowed.{attributes_of, elements_of, message_of};
ghost use Rattle.fluent_grammar.specs.Tree as t;
ghost use Rattle.lint_comparison.specs.InCode.{LeavesOfValue};
ghost use Rattle.lint_comparison.specs.TextsView.{AddsDoubts, AreOfValue, IsFindingOf, are_any_said, attribute_found, attributes_said, beside_found, found_beside, found_in_attributes, owner_of, value_found};
ghost use Rattle.lint_entries.specs.Added.{LeavesAfter};
ghost use Rattle.lint_entries.specs.AttributePlaces.{AreAttributes, IsEntryAt, value_elements};
ghost use Rattle.lint_entries.specs.Made.{Adds};
ghost use Rattle.lint_findings.specs.View.{finding_view};
ghost use Rattle.lint_findings.specs.Runs as r;
ghost use Rattle.lint_markup.specs.InCode.{spotted_view};
ghost use Rattle.lint_nodes.specs.OccurrenceView.{IsPatternAt};

use fluent_ast::{Attribute, Message, Pattern};
use fluent_tokens::front;
use lint_entries::text::{after_equals, skip_blank_block, skip_spaces};
use lint_findings::Finding;
use lint_markup::Spotted;
use lint_nodes::words::skip_blank;
use lint_nodes::{empty_pattern_rest, pattern_occurrences, skip};
use lint_texts::{attribute_doubts, value_doubts};
use memchr::memmem;
use std::alloc::{AllocError, Global};

/// Adds the findings of the texts of a message beside those of the message of the reference. The
/// text is the source from the message on. The patterns are read again only if something is said
/// of one.
///
/// # Errors
/// [`AllocError`] if memory runs out; some may be added then.
pub fn push_text_findings<'s>(
    alloc: Global,
    source: &str,
    message: &Message<&'s str>,
    other: &Message<&'s str>,
    text: &[u8],
    findings: &mut Vec<Finding>,
) -> Result<(), AllocError>
    requires { IsEntryAt (t.message (message_of message.now)) text.now }
    ensures { OnOk result (Adds findings.old findings.new
        (beside_found source.now message.now other.now text.now)) }
{
    let doubts = value_doubts(alloc, message, other)?;
    if are_any_said(alloc, message, other, &doubts)? {
        let texts = Texts {
            source,
            message,
            other,
        };
        texts.push_findings(alloc, text, doubts, findings)
    } else {
        Ok(())
    }
}

/// Whether something is said of the texts of a message beside those of another, if this is said of
/// its value.
fn are_any_said<'s>(
    alloc: Global,
    message: &Message<&'s str>,
    other: &Message<&'s str>,
    doubts: &[Spotted],
) -> Result<bool, AllocError>
    requires { AreOfValue message.now other.now doubts.now }
    ensures { IfOk result (λ any. any ≡ are_any_said message.now other.now) }
{
    if doubts.is_empty() {
        are_attributes_said(alloc, message, other, &message.attributes)
    } else {
        Ok(true)
    }
}

/// Whether something is said of one of these attributes of a message.
fn are_attributes_said<'s>(
    alloc: Global,
    message: &Message<&'s str>,
    other: &Message<&'s str>,
    attributes: &[Attribute<&'s str>],
) -> Result<bool, AllocError>
    ensures { IfOk result (λ any. any ≡ attributes_said message.now other.now attributes.now) }
{
    for attribute in attributes {
        let doubts = attribute_doubts(alloc, message, other, attribute)?;
        if !doubts.is_empty() {
            return Ok(true);
        }
    }
    Ok(false)
}

/// A message of a source, and that of the reference.
#[derive(Clone, Copy)]
pub(crate) struct Texts<'p, 's> {
    source: &'p str,
    message: &'p Message<&'s str>,
    other: &'p Message<&'s str>,
}

impl<'s> Texts<'_, 's> {
    /// Adds the findings of all texts, if this is said of the value. The text is the source from
    /// the message on.
    fn push_findings(
        &self,
        alloc: Global,
        text: &[u8],
        doubts: Vec<Spotted>,
        findings: &mut Vec<Finding>,
    ) -> Result<(), AllocError>
        requires text { IsEntryAt (t.message (message_of self.now.message.now)) text.now }
        requires doubts { AreOfValue self.now.message.now self.now.other.now doubts.items }
        ensures { OnOk result (Adds findings.old findings.new (found_beside self.now text.now)) }
    {
        let rest = self.push_value(alloc, after_equals(text), doubts, findings)?;
        let attributes = skip_blank_block(rest);
        self.push_attributes(alloc, &self.message.attributes, attributes, findings)
    }

    /// Adds the findings of the value, if this is said of it. The text is the source from the value
    /// on. Returns what follows it.
    fn push_value<'t>(
        &self,
        alloc: Global,
        text: &'t [u8],
        doubts: Vec<Spotted>,
        findings: &mut Vec<Finding>,
    ) -> Result<&'t [u8], AllocError>
        requires text { IsPatternAt text.now (value_elements (option_map elements_of self.now.message.now.value)) }
        requires doubts { AreOfValue self.now.message.now self.now.other.now doubts.items }
        ensures rest { IfOk result (λ rest. LeavesOfValue self.now.message.now.value text.now rest.now) }
        ensures added { OnOk result (Adds findings.old findings.new (value_found self.now text.now)) }
    {
        let rest = value_rest(alloc, &self.message.value, text)?;
        self.push_doubts(alloc, None, text, rest, doubts, findings)?;
        Ok(rest)
    }

    /// Adds the findings of attributes. The text is the source from the line of the first one on.
    fn push_attributes(
        &self,
        alloc: Global,
        attributes: &[Attribute<&'s str>],
        text: &[u8],
        findings: &mut Vec<Finding>,
    ) -> Result<(), AllocError>
        requires { AreAttributes (attributes_of attributes.now) text.now }
        ensures { OnOk result (Adds findings.old findings.new
            (found_in_attributes self.now attributes.now text.now)) }
    {
        let mut rest = text;
        for attribute in attributes {
            let at = after_equals(skip(skip_spaces(rest), 1));
            rest = self.push_attribute(alloc, attribute, at, findings)?;
        }
        Ok(())
    }

    /// Adds the findings of an attribute. The text is the source from its pattern on. Returns what
    /// follows that.
    fn push_attribute<'t>(
        &self,
        alloc: Global,
        attribute: &Attribute<&'s str>,
        text: &'t [u8],
        findings: &mut Vec<Finding>,
    ) -> Result<&'t [u8], AllocError>
        requires { IsPatternAt text.now (elements_of attribute.now.value) }
        ensures rest { IfOk result (λ rest. LeavesAfter (elements_of attribute.now.value) text.now rest.now) }
        ensures added { OnOk result (Adds findings.old findings.new
            (attribute_found self.now attribute.now text.now)) }
    {
        let doubts = attribute_doubts(alloc, self.message, self.other, attribute)?;
        let rest = pattern_rest(alloc, &attribute.value, text)?;
        let name = Some(attribute.id.name);
        self.push_doubts(alloc, name, text, rest, doubts, findings)?;
        Ok(rest)
    }

    /// Adds the findings of what is said of a pattern, that of an attribute if it has a name. The
    /// text is the source from the pattern on, and this is what follows the pattern.
    fn push_doubts(
        &self,
        alloc: Global,
        name: Option<&str>,
        text: &[u8],
        rest: &[u8],
        doubts: Vec<Spotted>,
        findings: &mut Vec<Finding>,
    ) -> Result<(), AllocError>
        ensures { OnOk result
            (AddsDoubts self.now name.entry text.now rest.now doubts.items findings.old findings.new) }
    {
        let written = front(text, text.len().saturating_sub(rest.len()));
        for doubt in doubts {
            findings.push(self.finding(alloc, name, text, written, doubt)?)?;
        }
        Ok(())
    }

    /// The finding of what is said of a pattern, which the source has written so.
    fn finding(
        &self,
        alloc: Global,
        name: Option<&str>,
        text: &[u8],
        written: &[u8],
        doubt: Spotted,
    ) -> Result<Finding, AllocError>
        ensures { IfOk result (IsFindingOf self.now name.entry text.now written.now doubt) }
    {
        let inside = place_of(doubt.piece.as_str(), written);
        let offset = self.source.len().saturating_sub(skip(text, inside).len());
        let owner = self.owner(alloc, name)?;
        Ok(doubt.remark.at(offset, owner))
    }

    /// The message, or its attribute of a name.
    fn owner(&self, alloc: Global, name: Option<&str>) -> Result<String, AllocError>
        ensures { IfOk result (λ owner. string_bytes owner ≡ owner_of self.now name.entry) }
    {
        let message = self.message;
        let id = message.id.name;
        match name {
            Some(name) => format!(in alloc; "{id}.{name}"),
            None => String::from_str(alloc, id),
        }
    }
}

/// What follows a value. The text is the source from the value on.
fn value_rest<'t>(
    alloc: Global,
    value: &Option<Pattern<&str>>,
    text: &'t [u8],
) -> Result<&'t [u8], AllocError>
    requires { IsPatternAt text.now (value_elements (option_map elements_of value.now)) }
    ensures { IfOk result (λ rest. LeavesOfValue value.now text.now rest.now) }
{
    match value {
        Some(pattern) => pattern_rest(alloc, pattern, text),
        None => Ok(empty_pattern_rest(text)),
    }
}

/// What follows a pattern. The text is the source from the pattern on.
fn pattern_rest<'t>(
    alloc: Global,
    pattern: &Pattern<&str>,
    text: &'t [u8],
) -> Result<&'t [u8], AllocError>
    requires { IsPatternAt text.now (elements_of pattern.now) }
    ensures { IfOk result (λ rest. LeavesAfter (elements_of pattern.now) text.now rest.now) }
{
    let found = pattern_occurrences(alloc, pattern, text)?;
    Ok(found.rest)
}

/// How many bytes stand before a piece in a pattern, as the source has it. If it isn't there, or is
/// empty, it is where the text of the pattern begins.
fn place_of(piece: &str, written: &[u8]) -> usize
    ensures { result ≡ r.place_of piece.now written.now }
{
    let begins = written.len().saturating_sub(skip_blank(written).len());
    if piece.is_empty() {
        begins
    } else {
        memmem::find(written, piece.as_bytes()).unwrap_or(begins)
    }
}
