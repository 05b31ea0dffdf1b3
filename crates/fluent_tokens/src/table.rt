//! All lines.
#![tactic(auto, using(crate::proofs::Counted::cuts))]

ghost use Rattle.std.specs.Prelude.{◌≡◌, IfOk, map};
ghost use Rattle.fluent_tokens.specs.Table.{row_view, lines};

use crate::{LineMasks, Row, from, measure_line};
use std::alloc::{AllocError, Global};

/// How many bytes a short line has, about. Room to spare, which a table for longer lines has, is
/// never touched; one for still shorter lines grows, and is moved then.
const SHORT: usize = 24;

/// The lines of a text, in their order. After a line feed at the end of the text there is one more,
/// which is empty.
///
/// A line ends at LF or CR LF; a carriage return alone belongs to its line.
///
/// # Errors
///
/// If memory runs out, or a line has 4,294,967,296 spaces at its front, nothing of the table is
/// left.
pub fn line_table(alloc: Global, text: &[u8]) -> Result<Vec<Row>, AllocError>
    ensures { IfOk result (λ rows. map row_view rows.items ≡ lines text.now) }
{
    let mut rows = Vec::with_capacity(alloc, text.len() / SHORT + 1)?;
    let mut start = 0;
    let mut told = LineMasks::nothing();
    'lines: loop {
        let line = from(text, start);
        let front = measure_line(line, told);
        let row = Row::new(line, start, front.len, front.is_plain)?;
        rows.push(row)?;
        let Some(next) = front.next else {
            return Ok(rows);
        };
        start += next;
        told = front.told;
    }
}
