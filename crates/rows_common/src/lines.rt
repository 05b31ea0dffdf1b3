//! Files of rows, a row a line.

use crate::tally::Tally;
use crate::trial::{Trial, is_right_again};
use std::alloc::{AllocError, Global};
use std::{fs, io};

/// What the lines of a file say.
pub trait Lines: Copy {
    /// Whether what a line says is so.
    ///
    /// # Errors
    /// [`AllocError`] if memory runs out; nothing is kept.
    fn is_right(self, alloc: Global, line: &str) -> Result<bool, AllocError>;
}

/// A line of a file.
#[derive(Clone, Copy)]
struct Line<'a, L> {
    lines: L,
    text: &'a str,
}

impl<L: Lines> Trial for Line<'_, L> {
    fn is_right(self, alloc: Global) -> Result<bool, AllocError> {
        self.lines.is_right(alloc, self.text)
    }
}

/// Tries each line of a file, prints those that are wrong, and counts them all. A file that can't
/// be read is tried once more.
///
/// # Errors
/// [`io::Error`] if the file can't be read, or a line can't be printed; what was printed before
/// stays printed.
pub fn try_lines<L: Lines>(rt: &HostRuntime, file: &str, lines: L) -> io::Result<Tally> {
    let text = fs::read_to_string(rt, file).or_else(|_| fs::read_to_string(rt, file))?;
    let mut tally = Tally::new();
    for line in text.as_str().lines() {
        let is_right = is_right_again(rt.alloc(), Line { lines, text: line });
        if !is_right {
            println!(rt; "wrong: {line}")?;
        }
        tally.add(is_right);
    }
    Ok(tally)
}

/// Prints how many trials of a name there were, by this word for them, and how many of them were
/// wrong.
///
/// # Errors
/// [`io::Error`] if the line can't be printed.
pub fn tell(rt: &HostRuntime, name: &str, trials: &str, tally: Tally) -> io::Result<()> {
    println!(rt; "{name}: {} {trials}, {} wrong", tally.tried, tally.wrong)
}
