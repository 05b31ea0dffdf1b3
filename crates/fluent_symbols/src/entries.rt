//! The occurrences in the messages and the terms of a source.

ghost use Rattle.std.specs.Prelude.{◌≡◌, IfOk, OnOk, map};
ghost use Rattle.fluent_ast.specs.Borrowed.{entry_of, message_of, term_of};
ghost use Rattle.lint_entries.specs.TileView.{tile_view};
ghost use Rattle.lint_nodes.specs.Rests as rests;
ghost use Rattle.fluent_symbols.specs.OccurrenceView.{Adds, kind_view, occurrence_view, symbol_view};
ghost use Rattle.fluent_symbols.specs.Entries.{in_entry, in_message, in_term};
ghost use Rattle.fluent_symbols.specs.Occurrences.{named};
ghost use Rattle.fluent_symbols.specs.Sources.{in_parts};
ghost use Rattle.fluent_symbols.specs.EntryView.{elements_if, found_in_attributes, found_in_value};

use crate::occurrence::{Occurrence, Owner, Symbol, SymbolKind, push_definition};
use crate::walk::push_pattern;
use fluent_ast::{Attribute, Entry, Message, Pattern, Term};
use lint_entries::Tile;
use lint_entries::text::{after_equals, skip_blank_block, skip_spaces};
use lint_nodes::skip;
use lint_nodes::texts::first_placeable;
use std::alloc::{AllocError, Global};

/// The occurrences in the tiles of a source, in their order. Junk has none.
///
/// # Errors
/// [`AllocError`] if memory runs out; nothing is kept.
pub fn tile_occurrences<'s>(
    alloc: Global,
    tiles: &[Tile<'_, 's>],
) -> Result<Vec<Occurrence<'s, 's>>, AllocError>
    ensures { IfOk result (λ found. map occurrence_view found.items
        ≡ in_parts (map tile_view tiles.now)) }
{
    let mut found = Vec::new(alloc);
    for tile in tiles {
        if let Tile::Entry(entry, text) = tile {
            push_entry(entry, text, &mut found)?;
        }
    }
    Ok(found)
}

/// Adds the occurrences in the entry at the front of a text.
fn push_entry<'s, 't>(
    entry: &Entry<&'s str>,
    text: &'t [u8],
    found: &mut Vec<Occurrence<'s, 't>>,
) -> Result<(), AllocError>
    ensures { OnOk result (Adds found.old found.new (in_entry (entry_of entry.now) text.now)) }
{
    match entry {
        Entry::Message(message) => push_message(message, text, found),
        Entry::Term(term) => push_term(term, text, found),
        _ => Ok(()),
    }
}

fn push_message<'s, 't>(
    message: &Message<&'s str>,
    text: &'t [u8],
    found: &mut Vec<Occurrence<'s, 't>>,
) -> Result<(), AllocError>
    ensures { OnOk result (Adds found.old found.new (in_message (message_of message.now) text.now)) }
{
    let id = message.id.name;
    push_definition(entry_symbol(SymbolKind::Message, id), text, found)?;
    let owner = Owner { sign: "", id };
    let rest = push_value(owner, &message.value, after_equals(text), found)?;
    push_attributes(owner, &message.attributes, skip_blank_block(rest), found)
}

/// Adds the occurrences in a term. The text is the source from its minus on.
fn push_term<'s, 't>(
    term: &Term<&'s str>,
    text: &'t [u8],
    found: &mut Vec<Occurrence<'s, 't>>,
) -> Result<(), AllocError>
    ensures { OnOk result (Adds found.old found.new (in_term (term_of term.now) text.now)) }
{
    let id = term.id.name;
    let name = skip(text, 1);
    push_definition(entry_symbol(SymbolKind::Term, id), name, found)?;
    let owner = Owner { sign: "-", id };
    let rest = push_pattern(owner, &term.value, after_equals(name), found)?;
    push_attributes(owner, &term.attributes, skip_blank_block(rest), found)
}

/// A message or a term, as a symbol.
fn entry_symbol(kind: SymbolKind, id: &str) -> Symbol<'_>
    ensures { symbol_view result ≡ named (kind_view kind) id.now }
{
    Symbol {
        kind,
        name: id,
        owner: None,
    }
}

/// Adds the occurrences in a value, which a message may lack. Returns the text after it.
fn push_value<'s, 't>(
    owner: Owner<'s>,
    value: &Option<Pattern<&'s str>>,
    text: &'t [u8],
    found: &mut Vec<Occurrence<'s, 't>>,
) -> Result<&'t [u8], AllocError>
    ensures rest { IfOk result (λ rest. rest.now
        ≡ rests.pattern_rest (elements_if value.now) text.now) }
    ensures added { OnOk result (Adds found.old found.new
        (found_in_value owner.entry value.now text.now)) }
{
    match value {
        Some(pattern) => push_pattern(owner, pattern, text, found),
        None => Ok(first_placeable(text)),
    }
}

/// Adds the occurrences in attributes. The text is the source from the line of the first one on.
fn push_attributes<'s, 't>(
    owner: Owner<'s>,
    attributes: &[Attribute<&'s str>],
    text: &'t [u8],
    found: &mut Vec<Occurrence<'s, 't>>,
) -> Result<(), AllocError>
    ensures { OnOk result (Adds found.old found.new
        (found_in_attributes owner.entry attributes.now text.now)) }
{
    let mut rest = text;
    for attribute in attributes {
        let name = skip(skip_spaces(rest), 1);
        let symbol = Symbol {
            kind: SymbolKind::Attribute,
            name: attribute.id.name,
            owner: Some(owner),
        };
        push_definition(symbol, name, found)?;
        rest = push_pattern(owner, &attribute.value, after_equals(name), found)?;
    }
    Ok(())
}
