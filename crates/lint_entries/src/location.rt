//! Where an entry begins.
#![tactic(auto)]

ghost use Rattle.std.specs.Prelude.{◌≡◌, Some};
ghost use Rattle.lint_entries.specs.LocationText.{location_text};
ghost use Rattle.lint_findings.specs.View.{file_view};
ghost use Rattle.lint_findings.specs.Files.{location};
ghost use Rattle.lint_findings.specs.PlaceView.{IsPlaceIn};

use lint_findings::{File, SourcePosition};
use std::fmt;

/// A place in a file. Its text is `FILE:LINE:COLUMN`.
#[derive(Clone, Copy, Debug)]
pub struct Location<'a> {
    file: &'a str,
    place: SourcePosition,
}

impl<'a> Location<'a> {
    /// The location of a place in the source of a file.
    pub fn new(file: File<'a>, place: SourcePosition) -> Location<'a>
        requires { IsPlaceIn file.source.now place }
        ensures { location_text result ≡ location (file_view file.entry) place.offset }
    {
        Location {
            file: file.name,
            place,
        }
    }
}

impl fmt::Display for Location<'_> {
    ghost output = { λ location. Some (location_text location) };

    fn fmt<W: fmt::Write>(&self, f: &mut fmt::Formatter<W>) -> fmt::Result {
        write!(f, "{}:{}", self.file, self.place)
    }
}
