//! Patterns that are written as they are read, without a list of their items.
ghost use Rattle.std.specs.Prelude.{◌≡◌, ◌++◌, [], ◌∷◌, IfOk};
ghost use Rattle.fluent_dates.specs.Items.{completed, emitted, flushed, items_of, next_reading, quote_if, with_letter};
ghost use Rattle.fluent_dates.specs.Streaming.{Writes, WritesField};
ghost use Rattle.fluent_dates.specs.Writing.{written};
ghost use Rattle.fluent_dates.specs.declared.items.Item.TheVariants.{Char};
ghost use Rattle.fluent_dates.specs.Written.{Adds};

use crate::fields::{Field, NONE};
use crate::items::{Reading, items_of, letter_of};
use crate::writing::push_field;
use fluent_date::FluentDateTime;
use fluent_date_tables::Row;
use std::alloc::{AllocError, Global};

/// What a pattern is written for.
#[derive(Clone, Copy)]
struct Writing<'w> {
    alloc: Global,
    row: &'w Row,
    pattern: &'w str,
    value: &'w FluentDateTime,
}

impl<'w> Writing<'w> {
    /// Writes a field. Only the part of the day depends on the pattern's other fields.
    #[tactic(auto, using(crate::proofs::Streamed::field_alone))]
    fn push(&self, text: &mut String, field: Field) -> Result<(), AllocError>
        ensures { WritesField result text.old text.new self.now field }
    {
        if field.letter != b'B' {
            return push_field(text, self.row, &[], self.value, field);
        }
        let items = items_of(self.alloc, self.pattern)?;
        push_field(text, self.row, &items, self.value, field)
    }

    /// Writes a field, if it is one.
    #[tactic(auto, using(crate::proofs::Streamed::field_flushed))]
    fn flush(&self, text: &mut String, field: Field) -> Result<(), AllocError>
        ensures { Writes result text.old text.new self.now (flushed field) }
    {
        if field.count == 0 {
            return Ok(());
        }
        self.push(text, field)
    }

    /// Reads a quote, and writes what is complete then.
    #[tactic(auto, using(crate::proofs::Streamed::written_two))]
    fn quote(&self, text: &mut String, before: Reading) -> Result<Reading, AllocError>
        ensures next { IfOk result (λ next. next ≡ next_reading before 39) }
        ensures text { Writes result text.old text.new self.now (emitted before 39) }
    {
        self.flush(text, before.field)?;
        self.push_quote(text, before.after_quote)?;
        Ok(Reading {
            quoted: !before.quoted,
            after_quote: !before.after_quote,
            field: NONE,
        })
    }

    /// Writes a quote, if it is text.
    fn push_quote(&self, text: &mut String, is_text: bool) -> Result<(), AllocError>
        ensures { Writes result text.old text.new self.now (quote_if is_text) }
    {
        if is_text { text.push('\'') } else { Ok(()) }
    }

    /// Writes a field, if it is one, and a character after it.
    #[tactic(auto, using(crate::proofs::Streamed::written_sign))]
    fn push_sign(&self, text: &mut String, field: Field, c: char) -> Result<(), AllocError>
        ensures { Writes result text.old text.new self.now (flushed field ++ (Char c ∷ [])) }
    {
        self.flush(text, field)?;
        text.push(c)
    }

    /// Reads a field's letter: one more of the last field's, or the first of a field.
    fn letter(&self, text: &mut String, last: Field, letter: u8) -> Result<Field, AllocError>
        ensures field { IfOk result (λ field. field ≡ with_letter last letter) }
        ensures text { Writes result text.old text.new self.now (completed last letter) }
    {
        if last.letter == letter {
            return Ok(Field {
                letter,
                count: last.count.saturating_add(1),
            });
        }
        self.flush(text, last)?;
        Ok(Field { letter, count: 1 })
    }

    /// Reads a character, and writes what is complete then.
    fn step(&self, text: &mut String, before: Reading, c: char) -> Result<Reading, AllocError>
        ensures next { IfOk result (λ next. next ≡ next_reading before c) }
        ensures text { Writes result text.old text.new self.now (emitted before c) }
    {
        if c == '\'' {
            return self.quote(text, before);
        }
        match letter_of(c) {
            Some(letter) if !before.quoted => {
                let field = self.letter(text, before.field, letter)?;
                Ok(Reading {
                    quoted: before.quoted,
                    after_quote: false,
                    field,
                })
            }
            _ => {
                self.push_sign(text, before.field, c)?;
                Ok(Reading {
                    quoted: before.quoted,
                    after_quote: false,
                    field: NONE,
                })
            }
        }
    }
}

/// Writes the items of a pattern, as [`push_written`](crate::writing::push_written) does.
#[tactic(auto, using(crate::proofs::Streamed::streamed_next))]
pub(crate) fn push_pattern(
    alloc: Global,
    text: &mut String,
    row: &Row,
    pattern: &str,
    value: &FluentDateTime,
) -> Result<(), AllocError>
    ensures { Adds result text.old text.new
        (written row.now value.now (items_of pattern.now) (items_of pattern.now)) }
{
    let writing = Writing {
        alloc,
        row,
        pattern,
        value,
    };
    let mut reading = Reading::START;
    for c in pattern.chars() {
        reading = writing.step(text, reading, c)?;
    }
    writing.flush(text, reading.field)
}
