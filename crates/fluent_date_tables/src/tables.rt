//! Rows of the tables, and how one is found.
ghost use Rattle.std.specs.Prelude.{◌≡◌};
ghost use Rattle.std.specs.Prelude.{slice_get};
ghost use Rattle.fluent_plurals.specs.Lookup.{begins_with_tag, folded};
ghost use Rattle.fluent_date_tables.specs.Tables.{after_tag, all_tags, first_after, first_folded, first_of, first_row, found, list_at, nows, row_after, row_in, tags_of};
ghost use Rattle.fluent_date_tables.specs.Skeletons.{skeletons};
ghost use Rattle.fluent_date_tables.specs.Rows.{rows};

use crate::rows::ROWS;
use crate::skeletons::SKELETONS;
use fluent_date::HourCycle;
use fluent_plurals::begins_with_tag;

/// What fields are compared by, one number for each of the eleven places of fields; 0 if there is
/// no such field.
pub type Measures = [u16; 11];

/// Fields that patterns are for.
///
/// ```no_run
/// let day = skeleton.counts[4]; // 2 for `dd`
/// ```
#[derive(Clone, Copy)]
pub struct Skeleton {
    /// Whether CLDR gives patterns for these very fields.
    pub given: bool,
    /// How often the letter of each field is repeated.
    pub counts: [u8; 11],
    /// What each field is compared by.
    pub measures: Measures,
}

/// The number of a skeleton, and that of a locale's pattern for it.
///
/// ```no_run
/// let pattern = text_numbered(pair.pattern);
/// ```
#[derive(Clone, Copy)]
pub struct Pair {
    /// The number of the skeleton.
    pub skeleton: u8,
    /// The number of the text that is the pattern.
    pub pattern: u16,
}

/// What follows a language and a `-` in a tag, in small letters with `-` between its parts, and the
/// number of that tag's row.
#[derive(Clone, Copy)]
pub(crate) struct Tagged {
    pub(crate) tag: &'static str,
    pub(crate) row: u16,
}

/// A language, in small letters, the number of its row, and its longer tags.
#[derive(Clone, Copy)]
pub(crate) struct Family {
    pub(crate) language: &'static str,
    pub(crate) row: u16,
    pub(crate) more: &'static [Tagged],
}

/// What a locale writes dates by: mostly numbers of texts, and of lists of patterns.
///
/// ```no_run
/// let long = text_numbered(row.dates[1]); // d. MMMM y
/// ```
#[derive(Clone, Copy)]
pub struct Row {
    /// The digits from 0 to 9.
    pub digits: [char; 10],
    /// How the locale counts hours.
    pub cycle: HourCycle,
    /// How it counts twelve hours.
    pub twelve: HourCycle,
    /// The sign before the digits of a second's fraction.
    pub decimal: u16,
    /// The names of month, day, hour, minute, second and part of the day.
    pub fields: u16,
    /// The patterns of dates, a list.
    pub date_patterns: u16,
    /// The patterns of times, a list.
    pub time_patterns: u16,
    /// For each hour its part of the day, a digit, or `-`; then a `1` if there is a name for noon.
    /// It is empty if the locale has no parts of the day.
    pub hours: u16,
    /// How an offset is written: what is before and after it, the same for one ahead of UTC and for
    /// a negative one, and what is between its numbers.
    pub gmt: u16,
    /// The names of UTC, short and long.
    pub utc: u16,
    /// The patterns of times: full, long, medium, short.
    pub times: [u16; 4],
    /// The patterns of dates: full, long, medium, short.
    pub dates: [u16; 4],
    /// How date and time are joined: full, long, medium, short.
    pub glue: [u16; 4],
    /// How era, year, month, weekday, day, hour, minute, second and zone are put to a pattern that
    /// lacks them.
    pub append: [u16; 9],
    /// The names of months in a date: abbreviated, wide, narrow.
    pub month: [u16; 3],
    /// The names of months by themselves: abbreviated, wide, narrow.
    pub own_month: [u16; 3],
    /// The names of weekdays in a date, from Sunday: abbreviated, wide, narrow.
    pub day: [u16; 3],
    /// The names of weekdays by themselves, from Sunday: abbreviated, wide, narrow.
    pub own_day: [u16; 3],
    /// The names of the eras before and since the year 1: abbreviated, wide, narrow.
    pub eras: [u16; 3],
    /// The names of the halves of the day: abbreviated, wide, narrow.
    pub halves: [u16; 3],
    /// The names of the parts of the day: abbreviated, wide, narrow.
    pub parts: [u16; 3],
}

/// The text of this number; the empty one if there is none.
pub(crate) fn text_at(texts: &[&'static str], at: usize) -> &'static str
    ensures { result.now ≡ list_at (nows texts.now) at }
{
    match texts.get(at) {
        Some(text) => *text,
        None => "",
    }
}

/// The list of this number; the empty one if there is none.
pub(crate) fn pairs_at(lists: &[&'static [Pair]], at: usize) -> &'static [Pair]
    ensures { result.now ≡ list_at (nows lists.now) at }
{
    match lists.get(at) {
        Some(list) => *list,
        None => &[],
    }
}

/// The skeleton of this number, if there is one.
fn skeleton_at(skeletons: &[Skeleton], at: usize) -> Option<&Skeleton>
    ensures { found result ≡ slice_get skeletons.now at }
{
    skeletons.get(at)
}

/// The row of this number, if there is one.
fn row_at(rows: &[Row], at: usize) -> Option<&Row>
    ensures { found result ≡ slice_get rows.now at }
{
    rows.get(at)
}

/// The skeleton of this number, if there is one.
pub fn skeleton_numbered(number: usize) -> Option<&'static Skeleton>
    ensures { found result ≡ slice_get skeletons number }
{
    skeleton_at(&SKELETONS, number)
}

/// The row of this number, if there is one.
pub fn row_numbered(number: usize) -> Option<&'static Row>
    ensures { found result ≡ slice_get rows number }
{
    row_at(&ROWS, number)
}

/// The row of the longest tag of these languages that a text begins with.
#[tactic(auto, using(crate::proofs::Families::all_rows))]
pub(crate) fn row_among(families: &[Family], text: &[u8]) -> Option<u16>
    ensures { result ≡ first_of (all_tags families.now) text.now }
{
    first_row(families, text)
}

/// The row of the first of these languages that has a tag which a text begins with.
fn first_row(families: &[Family], text: &[u8]) -> Option<u16>
    ensures { result ≡ first_row families.now text.now }
{
    for family in families {
        if let Some(row) = row_in(family, text) {
            return Some(row);
        }
    }
    None
}

/// The row of the longest tag of a language that a text begins with.
#[tactic(auto, using(crate::proofs::Families::family_row))]
fn row_in(family: &Family, text: &[u8]) -> Option<u16>
    ensures { result ≡ row_in family.now text.now }
{
    match after(family.language.as_bytes(), text) {
        Some(rest) => row_after(family, rest),
        None => None,
    }
}

/// What is after a tag in a text that begins with its bytes.
fn after<'t>(tag: &[u8], text: &'t [u8]) -> Option<&'t [u8]>
    ensures { found result ≡ after_tag tag.now text.now }
{
    let mut rest = text;
    for &byte in tag {
        match rest {
            [other, more @ ..] if byte == folded(*other) => rest = more,
            _ => return None,
        }
    }
    Some(rest)
}

/// The row of the longest tag of a language that a text has, of which this is after the language.
fn row_after(family: &Family, rest: &[u8]) -> Option<u16>
    ensures { result ≡ row_after family.now.row (tags_of family.now.more.now) rest.now }
{
    if let Some(row) = first_after(family.more, rest) {
        return Some(row);
    }
    if begins_with_tag(b"", rest) {
        Some(family.row)
    } else {
        None
    }
}

/// The row of the first of the tags that a text goes on with after a `-`.
fn first_after(tags: &[Tagged], rest: &[u8]) -> Option<u16>
    ensures { result ≡ first_after (tags_of tags.now) rest.now }
{
    match rest {
        [sign, text @ ..] if b'-' == folded(*sign) => first_fitting(tags, text),
        _ => None,
    }
}

/// The row of the first of the tags that a text begins with.
fn first_fitting(tags: &[Tagged], text: &[u8]) -> Option<u16>
    ensures { result ≡ first_of (tags_of tags.now) text.now }
{
    let first = first_folded(text);
    for tagged in tags {
        if begins_with(tagged.tag.as_bytes(), text, first) {
            return Some(tagged.row);
        }
    }
    None
}

/// The first byte of a text as tags have it, or 0.
pub(crate) fn first_folded(text: &[u8]) -> u8
    ensures { result ≡ first_folded text.now }
{
    match text {
        [] => 0,
        [byte, ..] => folded(*byte),
    }
}

/// Whether a text begins with a tag. Most tags of a table differ in their first byte, which is
/// compared before the others.
fn begins_with(tag: &[u8], text: &[u8], first: u8) -> bool
    requires { first ≡ first_folded text.now }
    ensures { result ≡ begins_with_tag tag.now text.now }
{
    match tag {
        [] => begins_with_tag(tag, text),
        [byte, tag @ ..] => match text {
            [] => false,
            [_, text @ ..] => *byte == first && begins_with_tag(tag, text),
        },
    }
}

/// A byte of a text as tags have it: letters are small, and `_` is `-`.
fn folded(byte: u8) -> u8
    ensures { result ≡ folded byte }
{
    if byte == b'_' {
        b'-'
    } else {
        byte.to_ascii_lowercase()
    }
}
