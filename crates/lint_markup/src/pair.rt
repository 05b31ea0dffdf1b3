//! A text beside that of the reference.

use fluent_ast::Pattern;

/// A pattern with its texts, and that of the reference with those.
#[derive(Clone, Copy)]
pub struct Pair<'p, 'o, 's, 'r> {
    pub pattern: &'p Pattern<&'s str>,
    pub other: &'o Pattern<&'s str>,
    pub runs: &'r [String],
    pub others: &'r [String],
}
