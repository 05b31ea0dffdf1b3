//! Laws about spelling and reading: reading gives a node and a rest exactly if the node is spelled
//! up to that rest. What both build on, blanks and the pieces of patterns, has laws of its own.

ghost use Rattle.fluent_grammar.specs.SpellingLaws.{AccessorsAgree, ArgumentsAgree, ArgumentsAreUnique, AttributesAgree, AttributesAreUnique, BlankAgrees, BlankInlineAgrees, CommentsAgree, EntriesAgree, EntriesAreUnique, ExpressionsAgree, ExpressionsAreUnique, KeysAgree, LineEndsAgree, LinesAgree, LinesAreUnique, LiteralsAgree, MessagesAgree, NamesAgree, NumbersAgree, PatternsAgree, PatternsAreUnique, PiecesAgree, PiecesAreUnique, PlaceablesAgree, PlaceablesAreUnique, RestsOfLinesAgree, RunsOfAttributesAgree, RunsOfAttributesAreUnique, StringsAgree, TermsAgree, TextPiecesAgree, VariantsAgree, VariantsAreUnique};
ghost use Rattle.fluent_grammar.specs.LineLaws.{BlankEndIsCut, CommonIndentIsLeast};

/// What is skipped is the longest blank, known by its bytes; and so is the rest of a line.
pub fn blanks_agree()
    ensures blank_inline { BlankInlineAgrees }
    ensures line_ends { LineEndsAgree }
    ensures blank { BlankAgrees }
    ensures rests_of_lines { RestsOfLinesAgree }
{}

/// The words are read exactly if they are spelled.
pub fn words_agree()
    ensures names { NamesAgree }
    ensures numbers { NumbersAgree }
    ensures strings { StringsAgree }
    ensures accessors { AccessorsAgree }
    ensures keys { KeysAgree }
    ensures literals { LiteralsAgree }
    ensures text_pieces { TextPiecesAgree }
{}

/// Expressions are read exactly if they are spelled, by more levels than the text has bytes.
pub fn expressions_agree()
    ensures inline_expressions { ExpressionsAgree }
    ensures placeables { PlaceablesAgree }
    ensures call_arguments { ArgumentsAgree }
    ensures variants { VariantsAgree }
{}

/// Patterns are read exactly if they are spelled, by as many levels as the text has bytes, and so
/// are their pieces.
pub fn patterns_agree()
    ensures patterns { PatternsAgree }
    ensures lines { LinesAgree }
    ensures pieces { PiecesAgree }
{}

/// What the pieces of a pattern become: the common indent is the least that they have, and the
/// pieces that are dropped at the end are blank, up to one that isn't.
pub fn pieces_are_cut()
    ensures common_indent { CommonIndentIsLeast }
    ensures end { BlankEndIsCut }
{}

/// Attributes are read exactly if they are spelled.
pub fn attributes_agree()
    ensures one { AttributesAgree }
    ensures all { RunsOfAttributesAgree }
{}

/// Entries are read exactly if they are spelled: the messages, the terms and the comments.
pub fn entries_agree()
    ensures entries { EntriesAgree }
    ensures messages { MessagesAgree }
    ensures terms { TermsAgree }
    ensures comments { CommentsAgree }
{}

/// A text begins with at most one node of a kind, and one rest follows it.
pub fn nodes_are_unique()
    ensures inline_expressions { ExpressionsAreUnique }
    ensures placeables { PlaceablesAreUnique }
    ensures call_arguments { ArgumentsAreUnique }
    ensures variants { VariantsAreUnique }
    ensures patterns { PatternsAreUnique }
    ensures lines { LinesAreUnique }
    ensures pieces { PiecesAreUnique }
    ensures attributes { AttributesAreUnique }
    ensures runs_of_attributes { RunsOfAttributesAreUnique }
    ensures entries { EntriesAreUnique }
{}
