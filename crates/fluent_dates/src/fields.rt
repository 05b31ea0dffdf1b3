//! The fields of dates and times, by the letters of UTS 35.
ghost use Rattle.std.specs.Prelude.{◌≡◌, ◌<◌, ◌≤◌, IfSome, map};
ghost use Rattle.fluent_dates.specs.Fields.{apart, complete, is_number, measure, place_of};

use fluent_date_tables::Measures;

/// A field: its letter, and how often it is repeated. There is no field if the count is 0.
#[derive(Clone, Copy)]
pub(crate) struct Field {
    pub(crate) letter: u8,
    pub(crate) count: u8,
}

/// No field.
pub(crate) const NONE: Field = Field {
    letter: 0,
    count: 0,
};

/// The places of fields, of which there are eleven.
pub(crate) const ERA: usize = 0;

pub(crate) const YEAR: usize = 1;

pub(crate) const MONTH: usize = 2;

pub(crate) const WEEKDAY: usize = 3;

pub(crate) const DAY: usize = 4;

pub(crate) const PERIOD: usize = 5;

pub(crate) const HOUR: usize = 6;

pub(crate) const MINUTE: usize = 7;

pub(crate) const SECOND: usize = 8;

pub(crate) const FRACTION: usize = 9;

pub(crate) const ZONE: usize = 10;

/// A field at each place, or [`NONE`].
pub(crate) type Fields = [Field; 11];

/// The place of a letter's field, if it has one.
pub(crate) fn place_of(letter: u8) -> Option<usize>
    ensures value { result ≡ place_of letter }
    ensures below { IfSome result (λ place. place < 11) }
{
    match letter {
        b'G' => Some(ERA),
        b'y' => Some(YEAR),
        b'M' | b'L' => Some(MONTH),
        b'E' | b'c' => Some(WEEKDAY),
        b'd' => Some(DAY),
        b'a' | b'B' => Some(PERIOD),
        b'h' | b'K' | b'H' | b'k' => Some(HOUR),
        b'm' => Some(MINUTE),
        b's' => Some(SECOND),
        b'S' => Some(FRACTION),
        b'z' | b'O' | b'v' | b'Z' => Some(ZONE),
        _ => None,
    }
}

/// Whether a field is written as a number.
pub(crate) fn is_number(field: Field) -> bool
    ensures { result ≡ is_number field }
{
    match field.letter {
        b'y' | b'd' | b'h' | b'K' | b'H' | b'k' | b'm' | b's' | b'S' => true,
        b'M' | b'L' | b'c' => field.count <= 2,
        _ => false,
    }
}

/// How far a letter is from the first of its field.
fn apart(letter: u8) -> u16
    ensures value { result ≡ apart letter }
    ensures few { result ≤ 176 }
{
    match letter {
        b'L' | b'K' | b'O' | b'Z' => 16,
        b'c' | b'v' => 32,
        b'B' => 48,
        b'H' => 160,
        b'k' => 176,
        _ => 0,
    }
}

/// What fields are compared by: numbers are far from texts, and each width and each letter is a
/// little apart.
pub(crate) fn measure(field: Field) -> u16
    ensures { result ≡ measure field }
{
    if field.count == 0 {
        0
    } else if is_number(field) {
        0x300 + apart(field.letter) + u16::from(field.count)
    } else {
        let width = match field.count {
            5 => 0xff,
            4 => 0xfc,
            _ => 0xfd,
        };
        width - apart(field.letter)
    }
}

/// The measure of each field.
pub(crate) fn measures(fields: &Fields) -> Measures
    ensures { result ≡ map measure fields.now }
{
    let mut found = [0; 11];
    for place in 0..11 {
        found[place] = measure(fields[place]);
    }
    found
}

/// Fields with what belongs to them: seconds, if there are minutes and a fraction; half of the day
/// with twelve hours, and none with 24.
pub(crate) fn complete(fields: Fields) -> Fields
    ensures { result ≡ complete fields }
{
    let mut fields = fields;
    if fields[MINUTE].count > 0 && fields[FRACTION].count > 0 && fields[SECOND].count == 0 {
        fields[SECOND] = Field {
            letter: b's',
            count: 1,
        };
    }
    if fields[HOUR].count > 0 {
        if fields[HOUR].letter == b'h' || fields[HOUR].letter == b'K' {
            if fields[PERIOD].count == 0 {
                fields[PERIOD] = Field {
                    letter: b'a',
                    count: 1,
                };
            }
        } else {
            fields[PERIOD] = NONE;
        }
    }
    fields
}
