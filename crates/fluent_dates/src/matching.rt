//! The pattern that is nearest to the fields that are wanted (UTS 35, "Matching Skeletons").
ghost use Rattle.std.specs.Prelude.{◌≡◌, ◌&&◌, ◌==◌, not, option_map};
ghost use Rattle.fluent_date_tables.specs.Texts.{text_numbered};
ghost use Rattle.fluent_dates.specs.Exact.{are_same, exact_in, exact_of, exact_one};
ghost use Rattle.fluent_dates.specs.Matching.{found_view, gap_between, is_nearer, nearer, nearest, nearest_of, paired, wider};

use crate::fields::{Fields, measures};
use fluent_date_tables::{
    Measures, Pair, Row, Skeleton, list_numbered, skeleton_numbered, text_numbered,
};

/// How far a pattern is from what is wanted.
#[derive(Clone, Copy)]
pub(crate) struct Gap {
    pub(crate) far: u32,
    /// The wanted fields that it lacks: a bit for each place.
    pub(crate) lacks: u16,
    /// Whether it has fields that aren't wanted.
    pub(crate) extra: bool,
}

/// The nearest pattern.
#[derive(Clone, Copy)]
pub(crate) struct Found {
    pub(crate) gap: Gap,
    pub(crate) skeleton: &'static Skeleton,
    pub(crate) pattern: u16,
}

impl Found {
    /// Its text.
    pub(crate) fn text(&self) -> &'static str
        ensures { result.now ≡ text_numbered self.now.pattern }
    {
        text_numbered(self.pattern)
    }

    /// Whether it has all fields that are wanted, and no others.
    pub(crate) fn fits(&self) -> bool
        ensures { result ≡ (self.now.gap.lacks == 0 && not self.now.gap.extra) }
    {
        self.gap.lacks == 0 && !self.gap.extra
    }
}

/// A gap with that of two measures for the place of this bit.
fn wider(bit: u16, gap: Gap, asked: u16, have: u16) -> Gap
    ensures { result ≡ wider bit gap asked have }
{
    if asked == have {
        gap
    } else if asked == 0 {
        Gap {
            far: gap.far.saturating_add(0x1_0000),
            lacks: gap.lacks,
            extra: true,
        }
    } else if have == 0 {
        Gap {
            far: gap.far.saturating_add(0x1000),
            lacks: gap.lacks.saturating_add(bit),
            extra: gap.extra,
        }
    } else {
        Gap {
            far: gap.far.saturating_add(u32::from(asked.abs_diff(have))),
            lacks: gap.lacks,
            extra: gap.extra,
        }
    }
}

/// How far a skeleton is from what is wanted.
#[tactic(auto, using(crate::proofs::Gaps::gap_next))]
fn gap_between(wanted: &Measures, known: &Measures) -> Gap
    ensures { result ≡ gap_between wanted.now known.now }
{
    let mut gap = Gap {
        far: 0,
        lacks: 0,
        extra: false,
    };
    let mut bit = 1_u16;
    for place in 0..11 {
        gap = wider(bit, gap, wanted[place], known[place]);
        bit = bit.saturating_mul(2);
    }
    gap
}

/// Whether a pattern is nearer than the nearest until now: of equally near ones it is the one that
/// lacks later fields.
fn is_nearer(new: &Gap, old: &Gap) -> bool
    ensures { result ≡ is_nearer new.now old.now }
{
    new.far < old.far || (new.far == old.far && old.lacks < new.lacks)
}

/// The nearer of the nearest until now and another.
fn nearer(best: Option<Found>, new: Found) -> Option<Found>
    ensures { option_map found_view result
        ≡ nearer (option_map found_view best) (found_view new) }
{
    match best {
        Some(old) if !is_nearer(&new.gap, &old.gap) => Some(old),
        _ => Some(new),
    }
}

/// The nearer of the nearest until now and the pattern of a pair.
fn paired(wanted: &Measures, best: Option<Found>, pair: Pair) -> Option<Found>
    ensures { option_map found_view result
        ≡ paired wanted.now (option_map found_view best) pair }
{
    match skeleton_numbered(usize::from(pair.skeleton)) {
        Some(skeleton) => nearer(
            best,
            Found {
                gap: gap_between(wanted, &skeleton.measures),
                skeleton,
                pattern: pair.pattern,
            },
        ),
        None => best,
    }
}

/// The nearest of a list, and of one before it.
fn nearest_of(before: Option<Found>, pairs: &'static [Pair], wanted: &Measures) -> Option<Found>
    ensures { option_map found_view result
        ≡ nearest_of (option_map found_view before) pairs.now wanted.now }
{
    let mut best = before;
    for pair in pairs {
        best = paired(wanted, best, *pair);
    }
    best
}

/// Whether two measures are the same, so that there is no gap between them.
fn are_same(wanted: &Measures, known: &Measures) -> bool
    ensures { result ≡ are_same wanted.now known.now }
{
    for place in 0..11 {
        if wanted[place] != known[place] {
            return false;
        }
    }
    true
}

/// The pattern of a pair, if it is for the very fields that are wanted.
fn exact_one(wanted: &Measures, pair: Pair) -> Option<Found>
    ensures { option_map found_view result ≡ exact_one wanted.now pair }
{
    match skeleton_numbered(usize::from(pair.skeleton)) {
        Some(skeleton) if are_same(wanted, &skeleton.measures) => Some(Found {
            gap: Gap {
                far: 0,
                lacks: 0,
                extra: false,
            },
            skeleton,
            pattern: pair.pattern,
        }),
        _ => None,
    }
}

/// The first pattern of a list that is for the very fields that are wanted.
fn exact_of(pairs: &'static [Pair], wanted: &Measures) -> Option<Found>
    ensures { option_map found_view result ≡ exact_of pairs.now wanted.now }
{
    for pair in pairs {
        if let Some(found) = exact_one(wanted, *pair) {
            return Some(found);
        }
    }
    None
}

/// The first pattern of a locale that is for the very fields that are wanted: no other is nearer.
fn exact_in(row: &Row, wanted: &Measures) -> Option<Found>
    ensures { option_map found_view result ≡ exact_in row.now wanted.now }
{
    match exact_of(list_numbered(row.date_patterns), wanted) {
        Some(found) => Some(found),
        None => exact_of(list_numbered(row.time_patterns), wanted),
    }
}

/// The nearest pattern of a locale: of those of dates, and then of those of times.
pub(crate) fn nearest(row: &Row, wanted: &Fields) -> Option<Found>
    ensures { option_map found_view result ≡ nearest row.now wanted.now }
{
    let wanted = measures(wanted);
    match exact_in(row, &wanted) {
        Some(found) => Some(found),
        None => {
            let dates = nearest_of(None, list_numbered(row.date_patterns), &wanted);
            nearest_of(dates, list_numbered(row.time_patterns), &wanted)
        }
    }
}
