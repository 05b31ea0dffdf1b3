//! The types of findings and of files.

/// How bad a finding is.
#[derive(Clone, Copy, Debug, PartialEq, Eq)]
pub enum Severity {
    /// Something is missing, or shown as its fallback.
    Error,
    /// Most likely not what was meant.
    Warning,
    /// Worth a look.
    Note,
}

/// Something that is wrong at a place in a source.
#[derive(Debug, Drop)]
pub struct Finding {
    /// Where it is, in bytes from the start of the source.
    pub offset: usize,
    /// The name of its kind, as `unknown-term`.
    pub code: &'static str,
    pub severity: Severity,
    /// The id of the entry that it is in, a term's with its minus, and after a dot the name of its
    /// attribute if it is in an attribute: `-brand`, `login.title`.
    pub entry: Option<String>,
    /// The mistake, as a sentence without a full stop.
    pub text: String,
    /// A likely cause, or the text to write instead.
    pub hint: Option<String>,
}

/// A file of a catalog.
#[derive(Clone, Copy, Debug)]
pub struct File<'a> {
    /// Its name, as it is reported.
    pub name: &'a str,
    /// Its text.
    pub source: &'a str,
}

/// A file with its findings, in the order in which they are reported.
#[derive(Debug, Drop)]
pub struct FileFindings<'a> {
    pub file: File<'a>,
    pub findings: Vec<Finding>,
}
