//! Occurrences of symbols.

ghost use Rattle.std.specs.Prelude.{OnOk, Some, false, true};
ghost use Rattle.fluent_symbols.specs.OccurrenceView.{AddsOne, label};

use std::alloc::AllocError;
use std::fmt;

/// The kind of a symbol, which is what a name stands for.
#[derive(Clone, Copy)]
pub enum SymbolKind {
    Message,
    Term,
    Attribute,
    Variable,
    Function,
}

/// A message or a term. Its text is its id, a term's with its minus.
#[derive(Clone, Copy)]
pub struct Owner<'s> {
    /// A minus for a term.
    pub sign: &'static str,
    pub id: &'s str,
}

impl fmt::Display for Owner<'_> {
    ghost output = { λ owner. Some (label owner) };

    fn fmt<W: fmt::Write>(&self, f: &mut fmt::Formatter<W>) -> fmt::Result {
        write!(f, "{}{}", self.sign, self.id)
    }
}

/// A symbol: what a name stands for in a source.
#[derive(Clone, Copy)]
pub struct Symbol<'s> {
    pub kind: SymbolKind,
    pub name: &'s str,
    /// The message or the term that an attribute or a variable belongs to.
    pub owner: Option<Owner<'s>>,
}

/// A place in a source that names a symbol.
#[derive(Clone, Copy)]
pub struct Occurrence<'s, 't> {
    pub symbol: Symbol<'s>,
    /// The source from the first byte of the name on: after the minus of a term and the dollar sign
    /// of a variable.
    pub at: &'t [u8],
    /// Whether the symbol is defined here, and not referred to.
    pub is_definition: bool,
}

/// Adds the definition of a symbol.
///
/// # Errors
/// [`AllocError`] if memory runs out; `found` is unchanged.
pub fn push_definition<'s, 't>(
    symbol: Symbol<'s>,
    at: &'t [u8],
    found: &mut Vec<Occurrence<'s, 't>>,
) -> Result<(), AllocError>
    ensures { OnOk result (AddsOne found.old found.new symbol.entry at.now true) }
{
    found.push(Occurrence {
        symbol,
        at,
        is_definition: true,
    })?;
    Ok(())
}

/// Adds a reference to a symbol.
///
/// # Errors
/// [`AllocError`] if memory runs out; `found` is unchanged.
pub fn push_reference<'s, 't>(
    symbol: Symbol<'s>,
    at: &'t [u8],
    found: &mut Vec<Occurrence<'s, 't>>,
) -> Result<(), AllocError>
    ensures { OnOk result (AddsOne found.old found.new symbol.entry at.now false) }
{
    found.push(Occurrence {
        symbol,
        at,
        is_definition: false,
    })?;
    Ok(())
}
