//! The pattern of a locale for options.
ghost use Rattle.std.specs.Prelude.{◌≡◌, false, IfOk, IfSome};
ghost use Rattle.fluent_dates.specs.Items.{items_of};
ghost use Rattle.fluent_dates.specs.Patterns.{component_pattern, is_hour, pattern_of, recounted, restyled, style_pattern, styled_both, with_hours, with_month};

use crate::best::best_pattern;
use crate::fields::{Field, Fields, HOUR, MONTH, NONE, PERIOD, complete};
use crate::items::{Item, fields_in, items_of, shows};
use crate::joining::joined;
use crate::names::{date_style, glue, hour_letter, time_style};
use crate::wanted::{cycle_of, of_value, wanted_fields};
use fluent_date::{DateStyle, FluentDateTime, FluentDateTimeOptions};
use fluent_date_tables::Row;
use std::alloc::{AllocError, Global};

/// Whether a field is the hour.
fn is_hour(field: Field) -> bool
    ensures { result ≡ is_hour field }
{
    match field.letter {
        b'h' | b'K' | b'H' | b'k' => true,
        _ => false,
    }
}

/// Items with hours counted so. A day right before them is set off by a space.
fn with_hours(alloc: Global, items: &[Item], letter: u8) -> Result<Vec<Item>, AllocError>
    ensures { IfOk result (λ out. out.items ≡ with_hours letter false items.now) }
{
    let mut out = Vec::with_capacity(alloc, items.len())?;
    let mut after_day = false;
    for item in items {
        match item {
            Item::Field(field) if is_hour(*field) => {
                if after_day {
                    out.push(Item::Char(' '))?;
                }
                out.push(Item::Field(Field {
                    letter,
                    count: field.count,
                }))?;
                after_day = false;
            }
            Item::Field(field) => {
                after_day = field.letter == b'd';
                out.push(*item)?;
            }
            Item::Char(_) => {
                after_day = false;
                out.push(*item)?;
            }
        }
    }
    Ok(out)
}

/// The pattern of a style of times, joined to that of a style of dates if there is one.
fn styled_both(
    alloc: Global,
    row: &Row,
    date: Option<DateStyle>,
    time: DateStyle,
) -> Result<Vec<Item>, AllocError>
    ensures { IfOk result (λ out. out.items ≡ styled_both row.now date time) }
{
    let times = items_of(alloc, time_style(row, time))?;
    match date {
        Some(style) => {
            let dates = items_of(alloc, date_style(row, style))?;
            joined(alloc, glue(row, style), &times, &dates, "")
        }
        None => Ok(times),
    }
}

/// Fields with a month, if the pattern has one in small Roman numbers, which has no place.
fn with_month(fields: Fields, is_roman: bool) -> Fields
    ensures { result ≡ with_month fields is_roman }
{
    let mut fields = fields;
    if is_roman {
        fields[MONTH] = Field {
            letter: b'M',
            count: 1,
        };
    }
    fields
}

/// The fields of a style's pattern with hours of this letter.
fn restyled(items: &[Item], letter: u8) -> Fields
    ensures { result ≡ restyled items.now letter }
{
    let mut fields = fields_in(items);
    fields[HOUR] = Field {
        letter,
        count: fields[HOUR].count,
    };
    fields[PERIOD] = NONE;
    complete(with_month(fields, shows(items, b'r')))
}

/// A style's pattern; if its hours have another letter than this, the best pattern for its fields
/// with hours of this letter.
fn recounted(
    alloc: Global,
    row: &Row,
    letter: u8,
    items: Vec<Item>,
) -> Result<Vec<Item>, AllocError>
    ensures { IfOk result (λ out. out.items ≡ recounted row.now letter items.items) }
{
    if fields_in(&items)[HOUR].letter == letter {
        return Ok(items);
    }
    let best = best_pattern(alloc, row, &restyled(&items, letter))?;
    with_hours(alloc, &best, letter)
}

/// The pattern of styles.
fn style_pattern(
    alloc: Global,
    row: &Row,
    options: &FluentDateTimeOptions,
) -> Result<Vec<Item>, AllocError>
    ensures { IfOk result (λ out. out.items ≡ style_pattern row.now options.now) }
{
    let Some(time) = options.time_style else {
        return match options.date_style {
            Some(date) => items_of(alloc, date_style(row, date)),
            None => Ok(Vec::new(alloc)),
        };
    };
    let items = styled_both(alloc, row, options.date_style, time)?;
    recounted(alloc, row, hour_letter(cycle_of(row, options)), items)
}

/// The pattern of components.
fn component_pattern(
    alloc: Global,
    row: &Row,
    options: &FluentDateTimeOptions,
) -> Result<Vec<Item>, AllocError>
    ensures { IfOk result (λ out. out.items ≡ component_pattern row.now options.now) }
{
    let items = best_pattern(alloc, row, &wanted_fields(row, options))?;
    if options.hour.is_some() {
        with_hours(alloc, &items, hour_letter(cycle_of(row, options)))
    } else {
        Ok(items)
    }
}

/// The text that is the pattern of a locale for a value, if the value is shown by a style of dates
/// alone.
#[tactic(auto, using(crate::proofs::Streamed::date_alone))]
pub(crate) fn date_pattern(row: &Row, value: &FluentDateTime) -> Option<&'static str>
    ensures { IfSome result (λ pattern. items_of pattern.now ≡ pattern_of row.now value.now) }
{
    let options = of_value(value);
    match (options.date_style, options.time_style) {
        (Some(style), None) => Some(date_style(row, style)),
        _ => None,
    }
}

/// The pattern of a locale for a value.
pub(crate) fn pattern_of(
    alloc: Global,
    row: &Row,
    value: &FluentDateTime,
) -> Result<Vec<Item>, AllocError>
    ensures { IfOk result (λ out. out.items ≡ pattern_of row.now value.now) }
{
    let options = of_value(value);
    if options.has_style() {
        style_pattern(alloc, row, &options)
    } else {
        component_pattern(alloc, row, &options)
    }
}
