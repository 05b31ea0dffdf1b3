//! Patterns of UTS 35, taken apart.
ghost use Rattle.std.specs.Prelude.{◌≡◌, ◌++◌, IfOk, OnOk};
ghost use Rattle.fluent_dates.specs.Items.{completed, emitted, fields_in, flushed, items_of, letter_of, next_reading, quote_if, shows, with_letter};

use crate::fields::{Field, Fields, NONE, place_of};
use std::alloc::{AllocError, Global};

/// A piece of a pattern.
#[derive(Clone, Copy)]
pub(crate) enum Item {
    /// A character as it is.
    Char(char),
    Field(Field),
}

/// The letter of the field that a character asks for outside of quotes. `r`, a month in small Roman
/// numbers, is for Hawaiian alone.
pub(crate) fn letter_of(c: char) -> Option<u8>
    ensures { result ≡ letter_of c }
{
    match u8::try_from(u32::from(c)) {
        Ok(letter) if letter == b'r' || place_of(letter).is_some() => Some(letter),
        _ => None,
    }
}

/// How far a pattern is read.
#[derive(Clone, Copy)]
pub(crate) struct Reading {
    /// Whether a quote is open.
    pub(crate) quoted: bool,
    /// Whether the last character was a quote, and a quote after it is text.
    pub(crate) after_quote: bool,
    /// The field whose letters were read last.
    pub(crate) field: Field,
}

/// Adds a field to items, if it is one.
fn flush(items: &mut Vec<Item>, field: Field) -> Result<(), AllocError>
    ensures { OnOk result (items.new.items ≡ items.old.items ++ flushed field) }
{
    if field.count == 0 {
        return Ok(());
    }
    items.push(Item::Field(field))?;
    Ok(())
}

/// Adds a quote to items, if it is text.
fn push_quote(items: &mut Vec<Item>, is_text: bool) -> Result<(), AllocError>
    ensures { OnOk result (items.new.items ≡ items.old.items ++ quote_if is_text) }
{
    if !is_text {
        return Ok(());
    }
    items.push(Item::Char('\''))?;
    Ok(())
}

impl Reading {
    /// Before the first character.
    pub(crate) const START: Reading = Reading {
        quoted: false,
        after_quote: false,
        field: NONE,
    };

    /// Reads a quote. One right after a quote is text.
    fn quote(self, items: &mut Vec<Item>) -> Result<Reading, AllocError>
        ensures next { IfOk result (λ next. next ≡ next_reading self 39) }
        ensures items { OnOk result (items.new.items ≡ items.old.items ++ emitted self 39) }
    {
        flush(items, self.field)?;
        push_quote(items, self.after_quote)?;
        Ok(Reading {
            quoted: !self.quoted,
            after_quote: !self.after_quote,
            field: NONE,
        })
    }

    /// Reads a field's letter: one more of the last field's, or the first of a field.
    fn letter(self, items: &mut Vec<Item>, letter: u8) -> Result<Field, AllocError>
        ensures field { IfOk result (λ field. field ≡ with_letter self.field letter) }
        ensures items { OnOk result (items.new.items ≡ items.old.items ++ completed self.field letter) }
    {
        if self.field.letter == letter {
            return Ok(Field {
                letter,
                count: self.field.count.saturating_add(1),
            });
        }
        flush(items, self.field)?;
        Ok(Field { letter, count: 1 })
    }

    /// Reads a character.
    fn step(self, items: &mut Vec<Item>, c: char) -> Result<Reading, AllocError>
        ensures next { IfOk result (λ next. next ≡ next_reading self c) }
        ensures items { OnOk result (items.new.items ≡ items.old.items ++ emitted self c) }
    {
        if c == '\'' {
            return self.quote(items);
        }
        match letter_of(c) {
            Some(letter) if !self.quoted => {
                let field = self.letter(items, letter)?;
                Ok(Reading {
                    quoted: self.quoted,
                    after_quote: false,
                    field,
                })
            }
            _ => {
                flush(items, self.field)?;
                items.push(Item::Char(c))?;
                Ok(Reading {
                    quoted: self.quoted,
                    after_quote: false,
                    field: NONE,
                })
            }
        }
    }
}

/// The items of a pattern.
pub(crate) fn items_of(alloc: Global, pattern: &str) -> Result<Vec<Item>, AllocError>
    ensures { IfOk result (λ items. items.items ≡ items_of pattern.now) }
{
    let mut items = Vec::with_capacity(alloc, 24)?;
    let mut reading = Reading::START;
    for c in pattern.chars() {
        reading = reading.step(&mut items, c)?;
    }
    flush(&mut items, reading.field)?;
    Ok(items)
}

/// The fields of items. Of two for one place the last counts.
pub(crate) fn fields_in(items: &[Item]) -> Fields
    ensures { result ≡ fields_in items.now }
{
    let mut fields = [NONE; 11];
    for item in items {
        if let Item::Field(field) = item {
            if let Some(place) = place_of(field.letter) {
                fields[place] = *field;
            }
        }
    }
    fields
}

/// Whether there is a field of this letter.
pub(crate) fn shows(items: &[Item], letter: u8) -> bool
    ensures { result ≡ shows items.now letter }
{
    for item in items {
        if let Item::Field(field) = item {
            if field.letter == letter {
                return true;
            }
        }
    }
    false
}
