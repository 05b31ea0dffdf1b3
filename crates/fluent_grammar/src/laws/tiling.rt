//! Laws about reading and tiling.

ghost use Rattle.fluent_grammar.specs.TilingLaws.{AttributesNeedNoMoreSteps, AttributesStayWithin, AttributesTakeSome, BlankBlocksAreSkipped, BottomIsNeverAsked, CommentsNeedNoMoreSteps, EachTextHasATiling, EntriesStayWithin, EntriesTakeSome, ErrorsAreTrue, JunkIsSliced, LevelsAreEnough, LinesAreLeft, NamesTakeSome, NoTextHasTwoTilings, NumbersTakeSome, PartsAreTheText, PartsBeginAtColumnZero, PatternsNeedNoMoreLevels, PatternsNeverAskTheBottom, PiecesNeedNoMoreSteps, PlacesStartInSlices, ReadersStayWithin, ReadersTakeSome, RecoveryFindsTheEnd, RuntimeHasNoComments, RuntimeAddsNoJunk, RuntimeHasTheSameList, SlicesAscend, TilingGivesTreeAndErrors};

/// What a reader leaves, and the place of its refusal, is an end of the text that it was given.
pub fn readers_stay_within()
    ensures { ReadersStayWithin }
{}

/// What an entry leaves, and the place of its refusal, is an end of the text that begins with it.
pub fn entries_stay_within()
    ensures { EntriesStayWithin }
{}

/// What attributes leave is an end of the text that begins with them.
pub fn attributes_stay_within()
    ensures { AttributesStayWithin }
{}

/// An expression, what is left of call arguments, and a placeable have at least one byte.
pub fn readers_take_some()
    ensures { ReadersTakeSome }
{}

/// An identifier, a number literal, an attribute and an entry have at least one byte.
pub fn constructs_take_some()
    ensures names { NamesTakeSome }
    ensures numbers { NumbersTakeSome }
    ensures attributes { AttributesTakeSome }
    ensures entries { EntriesTakeSome }
{}

/// A text is read in full by readers of more levels than it has bytes: further levels change
/// nothing.
pub fn levels_are_enough()
    ensures { LevelsAreEnough }
{}

/// What stands below those levels is never asked, so reading answers for every text, with a node or
/// a refusal of the grammar's.
pub fn bottom_is_never_asked()
    ensures { BottomIsNeverAsked }
{}

/// As many levels as a text has bytes are enough for a pattern, which asks for shorter texts alone.
pub fn patterns_need_no_more_levels()
    ensures levels { PatternsNeedNoMoreLevels }
    ensures bottom { PatternsNeverAskTheBottom }
{}

/// As many steps as a text has bytes are enough for its attributes.
pub fn attributes_need_no_more_steps()
    ensures { AttributesNeedNoMoreSteps }
{}

/// As many steps as a text has bytes are enough for the lines of a comment.
pub fn comments_need_no_more_steps()
    ensures { CommentsNeedNoMoreSteps }
{}

/// What is skipped for a blank block at column 0 is as many blank lines as there are.
pub fn blank_blocks_are_skipped()
    ensures { BlankBlocksAreSkipped }
{}

/// What is left after a line is what follows its line feed, or nothing if it has none.
pub fn lines_are_left()
    ensures { LinesAreLeft }
{}

/// Each text has a tiling, in full and for runtime use.
pub fn each_text_has_a_tiling()
    ensures { EachTextHasATiling }
{}

/// No text has two tilings.
pub fn no_text_has_two_tilings()
    ensures { NoTextHasTwoTilings }
{}

/// The parts of a tiling, put together, are the text: no byte is lost.
pub fn parts_are_the_text()
    ensures { PartsAreTheText }
{}

/// Each part of a tiling that isn't empty begins at column 0: a blank block, an entry, junk or a
/// line that is passed over.
pub fn parts_begin_at_column_zero()
    ensures { PartsBeginAtColumnZero }
{}

/// What is looked for after a refusal is the end of the junk: the first place, at the refusal's or
/// after it, that an entry may begin at, or the end of the text.
pub fn recovery_finds_the_end()
    ensures { RecoveryFindsTheEnd }
{}

/// The tree of a source and its errors are those of its tiling.
pub fn tiling_gives_tree_and_errors()
    ensures { TilingGivesTreeAndErrors }
{}

/// One step more than a text has bytes is enough for its pieces, in full and for runtime use.
pub fn pieces_need_no_more_steps()
    ensures { PiecesNeedNoMoreSteps }
{}

/// There are as many errors as junk entries, in the same order, and the content of each junk is the
/// source at its error's slice.
pub fn junk_is_sliced()
    ensures { JunkIsSliced }
{}

/// The slices of the errors lie in the source; none is empty, and each begins where the one before
/// it ends, or later.
pub fn slices_ascend()
    ensures { SlicesAscend }
{}

/// The place of each error begins in its slice, or at the slice's end.
pub fn places_start_in_slices()
    ensures { PlacesStartInSlices }
{}

/// Where a token is said to be expected, it doesn't stand there; an unbalanced closing brace stands
/// at its place, and so does the line feed of a string that isn't terminated.
pub fn errors_are_true()
    ensures { ErrorsAreTrue }
{}

/// The messages and terms that are read for runtime use are those of the full reading, comments set
/// aside.
pub fn runtime_has_the_same_list()
    ensures { RuntimeHasTheSameList }
{}

/// If the full reading of a source has no errors, and so no junk, the reading for runtime use has
/// none.
pub fn runtime_adds_no_junk()
    ensures { RuntimeAddsNoJunk }
{}

/// The tree for runtime use has no comments, neither as entries nor on messages and terms.
pub fn runtime_has_no_comments()
    ensures { RuntimeHasNoComments }
{}
