//! What files of a language are translated from, and what is found of them.

use lint_findings::FileFindings;

/// What a file of a language is translated from.
#[derive(Clone, Copy)]
pub enum Original {
    /// The file at this index among those of the reference. Beyond the last there is none, as for
    /// [`Original::Unasked`].
    File(usize),
    /// None, though files like it have one: the file is obsolete.
    Lacking,
    /// None, and none is asked for: the file is looked at by itself.
    Unasked,
}

/// Numbers of messages that no finding tells one by one.
#[derive(Clone, Copy)]
pub struct Messages {
    /// Those of the reference's files that the language has.
    pub translated: usize,
    /// Those of the reference's files of which the language has none.
    pub lacking: usize,
    /// Those of the language's obsolete files.
    pub alone: usize,
}

/// What is found in the files of a language: at each index the findings of a file, in the order of
/// their offsets, and its numbers of messages.
#[derive(Drop)]
pub struct LanguageFindings<'s> {
    pub files: Vec<FileFindings<'s>>,
    pub messages: Vec<Messages>,
}
