//! Rows of data: a line each, with bars between what it holds.

/// What is tried, by what, and what must come of it.
#[derive(Clone, Copy)]
pub struct Row<'r> {
    pub subject: &'r str,
    pub by: &'r str,
    pub wanted: &'r str,
}

impl<'r> Row<'r> {
    /// The row of a line.
    pub fn of(line: &'r str) -> Option<Row<'r>> {
        let (subject, rest) = line.split_once('|')?;
        let (by, wanted) = rest.split_once('|')?;
        Some(Row {
            subject,
            by,
            wanted,
        })
    }
}
