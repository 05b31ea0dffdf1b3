ghost use Rattle.std.specs.Prelude.{◌≡◌, unsigned_abs, int_lt, pos};
ghost use Rattle.fluent_date.specs.Civil.{offset_of};

use crate::error::DateError;

/// How far a clock is from UTC: less than a day. It is negative if the clock shows less than UTC.
///
/// ```no_run
/// let berlin = Offset::new(3600)?; // +01:00
/// ```
#[derive(Clone, Copy, Debug, PartialEq, Eq, Hash)]
pub struct Offset {
    is_negative: bool,
    seconds: u32,
}

impl Offset {
    /// No offset: the clock shows UTC.
    pub const UTC: Offset = Offset {
        is_negative: false,
        seconds: 0,
    };

    /// The offset of a clock that is this number of seconds ahead of UTC; a
    /// negative number means that it shows less than UTC.
    ///
    /// # Errors
    /// [`DateError::Offset`] if it is a day, which is 86,400 seconds, or more.
    pub fn new(seconds: i32) -> Result<Self, DateError>
        ensures { result ≡ offset_of (int_lt seconds (pos 0)) (unsigned_abs seconds) }
    {
        Self::from_size(seconds < 0, seconds.unsigned_abs())
    }

    /// The offset of a clock that is this number of seconds from UTC, and shows less if it is
    /// negative.
    ///
    /// # Errors
    /// [`DateError::Offset`] if it is a day, which is 86,400 seconds, or more.
    pub fn from_size(is_negative: bool, seconds: u32) -> Result<Self, DateError>
        ensures { result ≡ offset_of is_negative seconds }
    {
        if seconds >= 86_400 {
            return Err(DateError::Offset);
        }
        Ok(Offset {
            is_negative: is_negative && seconds > 0,
            seconds,
        })
    }

    /// Whether the clock shows less than UTC.
    pub fn is_negative(&self) -> bool
        ensures { result ≡ self.now.is_negative }
    {
        self.is_negative
    }

    /// How far the clock is from UTC in either direction, in seconds below 86,400.
    pub fn seconds(&self) -> u32
        ensures { result ≡ self.now.seconds }
    {
        self.seconds
    }
}
