//! The names in a reference. Each function adds the occurrences of what it names.

ghost use Rattle.std.specs.Prelude.{◌≡◌, ◌∷◌, [], IfOk, OnOk, drop, length};
ghost use Rattle.lint_nodes.specs.Rests as rests;
ghost use Rattle.fluent_symbols.specs.OccurrenceView.{Adds, kind_view, label, label_if};
ghost use Rattle.fluent_symbols.specs.PartView.{found_in_attribute, name_if};
ghost use Rattle.fluent_symbols.specs.Occurrences.{argument_named, named, reference, variable_named};

use crate::occurrence::{Occurrence, Owner, Symbol, SymbolKind, push_reference};
use fluent_ast::Identifier;
use lint_nodes::words::{after_name, skip};
use std::alloc::AllocError;

/// Adds the variable at the front, in this message or term. Returns the text after it.
///
/// # Errors
/// [`AllocError`] if memory runs out; `found` is unchanged.
pub fn push_variable<'s, 't>(
    owner: Owner<'s>,
    name: &'s str,
    text: &'t [u8],
    found: &mut Vec<Occurrence<'s, 't>>,
) -> Result<&'t [u8], AllocError>
    ensures rest { IfOk result (λ rest. rest.now ≡ drop (length name.now) (drop 1 text.now)) }
    ensures added { OnOk result (Adds found.old found.new
        (variable_named (label owner.entry) name.now text.now)) }
{
    let at = skip(text, 1);
    let symbol = Symbol {
        kind: SymbolKind::Variable,
        name,
        owner: Some(owner),
    };
    push_reference(symbol, at, found)?;
    Ok(after_name(at, name))
}

/// Adds the message, the term or the function that is named at the front. Returns the text after
/// it.
///
/// # Errors
/// [`AllocError`] if memory runs out; `found` is unchanged.
pub fn push_name<'s, 't>(
    kind: SymbolKind,
    name: &'s str,
    text: &'t [u8],
    found: &mut Vec<Occurrence<'s, 't>>,
) -> Result<&'t [u8], AllocError>
    ensures rest { IfOk result (λ rest. rest.now ≡ drop (length name.now) text.now) }
    ensures added { OnOk result (Adds found.old found.new
        (reference (named (kind_view kind) name.now) text.now ∷ [])) }
{
    let symbol = Symbol {
        kind,
        name,
        owner: None,
    };
    push_reference(symbol, text, found)?;
    Ok(after_name(text, name))
}

/// Adds the attribute of a message or a term, if one is named: at the dot at the front. Returns the
/// text after it.
///
/// # Errors
/// [`AllocError`] if memory runs out; `found` is unchanged.
pub fn push_attribute<'s, 't>(
    owner: Owner<'s>,
    name: &Option<Identifier<&'s str>>,
    text: &'t [u8],
    found: &mut Vec<Occurrence<'s, 't>>,
) -> Result<&'t [u8], AllocError>
    ensures rest { IfOk result (λ rest. rest.now
        ≡ rests.after_attribute (name_if name.now) text.now) }
    ensures added { OnOk result (Adds found.old found.new
        (found_in_attribute owner.entry name.now text.now)) }
{
    let Some(name) = name else {
        return Ok(text);
    };
    let at = skip(text, 1);
    let symbol = Symbol {
        kind: SymbolKind::Attribute,
        name: name.name,
        owner: Some(owner),
    };
    push_reference(symbol, at, found)?;
    Ok(after_name(at, name.name))
}

/// Adds the name of an argument at the front, if it is one of a term.
///
/// # Errors
/// [`AllocError`] if memory runs out; `found` is unchanged.
pub fn push_argument<'s, 't>(
    callee: Option<Owner<'s>>,
    name: &'s str,
    text: &'t [u8],
    found: &mut Vec<Occurrence<'s, 't>>,
) -> Result<(), AllocError>
    ensures { OnOk result (Adds found.old found.new
        (argument_named (label_if callee.entry) name.now text.now)) }
{
    let Some(callee) = callee else {
        return Ok(());
    };
    let symbol = Symbol {
        kind: SymbolKind::Variable,
        name,
        owner: Some(callee),
    };
    push_reference(symbol, text, found)
}
