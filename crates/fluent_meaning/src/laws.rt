//! Laws of what the ids of a bundle stand for and of what a pattern gives: each function only
//! carries a law, as its contract.

ghost use Rattle.fluent_meaning.specs.ArgumentsLaws.{NeedsNoArguments};
ghost use Rattle.fluent_meaning.specs.EnvironmentLaws.{EqualEnvironments};
ghost use Rattle.fluent_meaning.specs.IdsLaws.{FirstStays, IdsAscend, IdsInTurn, LastStays, NoticesInTurn};
ghost use Rattle.fluent_meaning.specs.ReachLaws.{PatternReachSame, ReachSame};
ghost use Rattle.fluent_meaning.specs.SameLaws.{SameDecides};
ghost use Rattle.fluent_meaning.specs.UnlimitedLaws.{LimitStays, OpenIsUnlimited, UnlimitedIsOne};
ghost use Rattle.fluent_meaning.specs.WeightLaws.{MessagesWeigh, TermsWeigh, VariantsWeigh};
ghost use Rattle.fluent_meaning.specs.WorkLaws.{EntersWithinBound, OpensWithinBudget};

use fluent_value::FluentType;

/// Entries go into a map of ids one after the other: those of two resources in turn are those of
/// both joined. So it is with the notices of entries whose id was there.
pub fn ids_in_turn<F>()
    ensures ids { IdsInTurn F }
    ensures notices { NoticesInTurn F }
{}

/// An id stands for the first entry that was put in under it, or for the last if later ones
/// override. The ids stay in the order of their bytes, each once.
pub fn one_entry_stays<F>()
    ensures first { FirstStays F }
    ensures last { LastStays F }
    ensures ascending { IdsAscend F }
{}

/// Patterns are compared by content: the test holds exactly if they are equal.
pub fn same_decides()
    ensures { SameDecides }
{}

/// Equal maps of ids, functions, plural sources and settings give equal texts and errors for one
/// pattern and equal arguments.
pub fn equal_environments<C: FluentType, F>()
    ensures { EqualEnvironments C.Meaning F }
{}

/// A pattern that has no errors without arguments gives the same for all arguments: it asks for
/// none of them, since a missing one is an error.
pub fn needs_no_arguments<C: FluentType, F>()
    ensures { NeedsNoArguments C.Meaning F }
{}

/// Two maps of ids that agree on the reach of a message, by kind and content, give it the same
/// answer under equal settings.
pub fn reach_same<C: FluentType, F>()
    ensures messages { ReachSame C.Meaning F }
    ensures patterns { PatternReachSame C.Meaning F }
{}

/// What has a result without a limit, for which it opens n placeables, has the same with k to open,
/// if n is at most k: then k - n are left. What ends with j left of k has its result without a
/// limit too. There is at most one such result.
pub fn limit_stays<C: FluentType, F>()
    ensures stays { LimitStays C.Meaning F }
    ensures open { OpenIsUnlimited C.Meaning F }
    ensures one { UnlimitedIsOne C.Meaning F }
{}

/// With k placeables to open, at most k are opened, and the rest is left; one too many is reported
/// at most once, exactly if the answer ends shut. An asked pattern and a reference enter at most
/// 1 + k * R patterns, an expression, a placeable that was opened before, and arguments (k + 1) *
/// R, where R is the most references and selects in one placeable.
pub fn work_is_bounded<C: FluentType, F>()
    ensures entered { EntersWithinBound C.Meaning F }
    ensures opened { OpensWithinBudget C.Meaning F }
{}

/// The pattern that a message or term reference means weighs no more than the map of ids, and the
/// pattern of the variant that is chosen less than its select: so resolving ends.
pub fn entered_patterns_weigh_less<C: FluentType, F>()
    ensures messages { MessagesWeigh F }
    ensures terms { TermsWeigh F }
    ensures variants { VariantsWeigh C.Meaning }
{}
