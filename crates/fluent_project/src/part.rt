//! The parts of a pattern of paths.

/// A part of a pattern of paths. A path is its bytes, with `/` between the names of folders.
#[derive(Clone, Copy)]
pub enum Part {
    /// A byte that stands for itself.
    Byte(u8),
    /// `{locale}`: the tag of the language, as the project writes it.
    Locale,
    /// What stands for one of several texts.
    Wildcard(Wildcard),
}

/// What stands for one of several texts in a pattern of paths.
#[derive(Clone, Copy, PartialEq, Eq)]
pub enum Wildcard {
    /// `*`: any text without a slash, also an empty one.
    Star,
    /// `**/`: nothing, or any text that ends in a slash.
    Folders,
    /// `**` at the end: any text, also an empty one.
    Rest,
}
