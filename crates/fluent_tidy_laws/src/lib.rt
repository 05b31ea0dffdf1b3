//! What holds when a Fluent file is damaged, cut clean, put together with others, or tidied into
//! its normal text: definitions and laws over plain data. No code runs here.
//!
//! Translation files break: a brace stays open, a line gets lost, a merge drops half a
//! message. Then three questions come up, and for every file there is one answer.
//!
//! - May the broken stretches simply be taken out? Yes. The cut text is the source without the
//!   ranges of its junk. It has no errors, and each message and term of the source, in their order
//!   (`laws::damage_is_local`).
//! - May several files be put into one? Yes, if they have no carriage returns. The joined text,
//!   which is their cut texts, each on lines of its own, has no errors, and the messages and terms
//!   of one file after those of the other (`laws::joined_texts_keep_lists`).
//! - How far does damage reach? Whatever lines stand before it, a text without errors loses its
//!   first message or term, at most. It loses none if it begins with a comment, or if those lines
//!   have no errors either (`laws::damage_stays`).
//!
//! Nothing is promised for comments: what stood between a comment and a message may be cut away,
//! and the message then takes it.
//!
//! A tool that reads translation files and writes them again must not change what users see. The
//! normal text of a source is its cut text's tree, written by the rules of the serializer, if that
//! text is read back as the very same tree. So nothing is guessed: either each text and each
//! placeable comes back as it was, or there is no normal text.
//!
//! - A normal text has each message and term of the source, in their order, and tidying it again
//!   changes nothing (`laws::normal_texts_stay`).
//! - A file without carriage returns has a normal text, however deep its placeables are nested,
//!   unless its cut text holds one of five shapes (`laws::reading_is_unique`). `specs/Shapes.antt`
//!   says what they are: a pattern of many lines, or with a select, that begins with `.`, `[` or
//!   `*`; a placeable at column 0 that starts a line of a pattern; a lone `*` in a select; a
//!   comment without lines, or with a nonempty line of white space alone; a pattern whose last text
//!   is white space alone. With a shape there may be a normal text or not.
//! - So the files of a program can be cut, tidied and joined, one after the other and as often as
//!   one likes, and the list of all their messages and terms stays
//!   (`laws::tidied_sources_keep_lists`).
//! - Trees that come from elsewhere, as from JSON, can be told apart by their written text, if it
//!   is read back as the tree (`laws::canonical_trees_are_told_apart`); and it is, wherever the
//!   tree is well formed (`laws::well_formed_trees_are_canonical`).
#![tactic(auto)]

pub mod laws;
