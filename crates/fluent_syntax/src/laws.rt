//! Laws of trees, of errors, of damage and of written texts: each function only carries a law, as
//! its contract.

pub use fluent_ast::laws::equal_nodes;
// Damage: a text without errors after any lines.
pub use fluent_tidy_laws::laws::damage_stays;
// The tiling of a source by blank blocks, entries and junk, of which trees and errors are made.
pub use fluent_grammar::laws::tiling::{
    each_text_has_a_tiling, errors_are_true, junk_is_sliced, no_text_has_two_tilings,
    parts_are_the_text, places_start_in_slices, runtime_adds_no_junk, runtime_has_no_comments,
    runtime_has_the_same_list, slices_ascend, tiling_gives_tree_and_errors,
};
// Junk and its errors.
// Reading for use at run time, compared with full reading.
pub use fluent_parser::laws::{
    equal_error_kinds, equal_errors, equality_is_an_equivalence, message_attributes_may_select,
};
pub use fluent_serializer::laws::options_are_about_junk;
