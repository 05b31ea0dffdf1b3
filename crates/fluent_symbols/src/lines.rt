//! Occurrences as lines of JSON.

ghost use Rattle.std.specs.Prelude.{◌≡◌, IfOk, OnOk, codes, decimal, map, vec_items};
ghost use Rattle.json.specs.Token.{null, number, string};
ghost use Rattle.fluent_symbols.specs.Lines.{at_key, kind_text, text_or_null, lines_of as text_of_lines, occurrence_line, occurrence_tokens, symbol_tokens};
ghost use Rattle.fluent_symbols.specs.Tokens.{AddsText, WritesAll};
ghost use Rattle.fluent_symbols.specs.OccurrenceView.{kind_view, label_if, occurrence_view, symbol_view};

use crate::occurrence::{Occurrence, Owner, Symbol, SymbolKind};
use json::Writer;
use std::alloc::{AllocError, Global};

/// The lines of occurrences in a source of this length, each ended by a line feed.
///
/// # Errors
/// [`AllocError`] if memory runs out; nothing is kept.
pub fn lines_of(
    alloc: Global,
    len: usize,
    found: &[Occurrence<'_, '_>],
) -> Result<Vec<u8>, AllocError>
    ensures { IfOk result (λ lines. vec_items lines ≡ text_of_lines len (map occurrence_view found.now)) }
{
    let mut lines = Vec::new(alloc);
    for occurrence in found {
        push_line(alloc, len, occurrence, &mut lines)?;
    }
    Ok(lines)
}

/// Most lines are shorter. A writer fills what it may need, so each line has a small one.
const USUAL_LINE: usize = 128;

/// Adds the line of an occurrence.
fn push_line(
    alloc: Global,
    len: usize,
    occurrence: &Occurrence<'_, '_>,
    lines: &mut Vec<u8>,
) -> Result<(), AllocError>
    ensures { OnOk result (AddsText lines.old lines.new
        (occurrence_line len (occurrence_view occurrence.now))) }
{
    let mut writer = Writer::new(Vec::with_capacity(alloc, USUAL_LINE)?);
    write_occurrence(alloc, &mut writer, len, occurrence)?;
    let line = writer.into_inner();
    lines.extend_from_slice(&line)?;
    lines.push(b'\n')?;
    Ok(())
}

/// Writes the object of an occurrence. The keys are in the order of their bytes.
fn write_occurrence(
    alloc: Global,
    writer: &mut Writer,
    len: usize,
    occurrence: &Occurrence<'_, '_>,
) -> Result<(), AllocError>
    ensures { OnOk result (WritesAll writer.old writer.new
        (occurrence_tokens len (occurrence_view occurrence.now))) }
{
    let left = occurrence.at.len();
    let after = left.saturating_sub(occurrence.symbol.name.len());
    writer.begin_object()?;
    writer.key("definition")?;
    writer.boolean(occurrence.is_definition)?;
    write_offset(writer, "end", len.saturating_sub(after))?;
    write_symbol(alloc, writer, &occurrence.symbol)?;
    write_offset(writer, "start", len.saturating_sub(left))?;
    writer.end_object()?;
    Ok(())
}

/// Writes the members of a symbol: its kind, its name, and its owner or null.
fn write_symbol(alloc: Global, writer: &mut Writer, symbol: &Symbol<'_>) -> Result<(), AllocError>
    ensures { OnOk result (WritesAll writer.old writer.new (symbol_tokens (symbol_view symbol.now))) }
{
    write_text(writer, "kind", kind_name(symbol.kind))?;
    write_text(writer, "name", symbol.name)?;
    write_owner(alloc, writer, &symbol.owner)?;
    Ok(())
}

/// Writes an owner or null at the key of owners.
fn write_owner(
    alloc: Global,
    writer: &mut Writer,
    owner: &Option<Owner<'_>>,
) -> Result<(), AllocError>
    ensures { OnOk result (WritesAll writer.old writer.new
        (at_key (codes "owner") (text_or_null (label_if owner.now)))) }
{
    match owner {
        Some(owner) => write_text(writer, "owner", &owner.to_string(alloc)?),
        None => write_null(writer, "owner"),
    }
}

/// Writes an offset at a key.
fn write_offset(writer: &mut Writer, key: &str, offset: usize) -> Result<(), AllocError>
    ensures { OnOk result (WritesAll writer.old writer.new (at_key key.now (number (decimal offset)))) }
{
    writer.key(key)?;
    writer.u64(offset as u64)
}

/// Writes a text at a key.
fn write_text(writer: &mut Writer, key: &str, text: &str) -> Result<(), AllocError>
    ensures { OnOk result (WritesAll writer.old writer.new (at_key key.now (string text.now))) }
{
    writer.key(key)?;
    writer.string(text)
}

/// Writes null at a key.
fn write_null(writer: &mut Writer, key: &str) -> Result<(), AllocError>
    ensures { OnOk result (WritesAll writer.old writer.new (at_key key.now null)) }
{
    writer.key(key)?;
    writer.null()
}

fn kind_name(kind: SymbolKind) -> &'static str
    ensures { result.now ≡ kind_text (kind_view kind) }
{
    match kind {
        SymbolKind::Message => "message",
        SymbolKind::Term => "term",
        SymbolKind::Attribute => "attribute",
        SymbolKind::Variable => "variable",
        SymbolKind::Function => "function",
    }
}
