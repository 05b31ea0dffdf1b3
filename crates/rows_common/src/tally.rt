//! Counts of what was right and what was wrong.

ghost use Rattle.std.specs.Prelude.{◌≡◌, ◌<◌, ◌+◌, ◌^◌};
ghost use Rattle.rows_common.specs.Counts.{wrong_after};

/// How many trials there were, and how many of them were wrong.
#[derive(Clone, Copy)]
pub struct Tally {
    pub tried: u32,
    pub wrong: u32,
}

impl Tally {
    /// No trial yet.
    pub fn new() -> Tally
        ensures tried { result.tried ≡ 0 }
        ensures wrong { result.wrong ≡ 0 }
    {
        Tally { tried: 0, wrong: 0 }
    }

    /// Counts one more. A count that is at its greatest value stays there.
    pub fn add(&mut self, is_right: bool)
        ensures tried { self.old.tried + 1 < 2 ^ 32 → self.new.tried ≡ self.old.tried + 1 }
        ensures wrong { self.old.wrong + 1 < 2 ^ 32
            → self.new.wrong ≡ wrong_after is_right self.old.wrong }
    {
        self.tried = self.tried.saturating_add(1);
        if !is_right {
            self.wrong = self.wrong.saturating_add(1);
        }
    }

    /// Counts those of another tally too. A count that is at its greatest value stays there.
    pub fn add_all(&mut self, other: Tally)
        ensures tried { self.old.tried + other.tried < 2 ^ 32
            → self.new.tried ≡ self.old.tried + other.tried }
        ensures wrong { self.old.wrong + other.wrong < 2 ^ 32
            → self.new.wrong ≡ self.old.wrong + other.wrong }
    {
        self.tried = self.tried.saturating_add(other.tried);
        self.wrong = self.wrong.saturating_add(other.wrong);
    }
}
