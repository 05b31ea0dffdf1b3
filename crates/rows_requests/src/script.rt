//! Request lines, and the answer to each.
//!
//! A line of a row is a list: the request and its answer, each with its line feed where it has one,
//! and then how often both come, if more than once. Each of them is a text or a list of pieces:
//! texts, numbers, which are single bytes, and lists of a text and how often it comes.

use crate::json::{count_of, is_set, list_in};
use anyhow::{Context, Result};
use serde_json::Value;
use std::alloc::Global;

/// The most lines whose ends are all looked at.
const FEW_LINES: usize = 12;

/// The requests of a row, what they are to be answered, and where each of them ends.
#[derive(Drop)]
pub struct Script {
    pub requests: Vec<u8>,
    pub answers: Vec<u8>,
    /// After each whole line, and after its answer.
    ends: Vec<(usize, usize)>,
    /// Whether memory runs out while the last line is answered.
    pub is_too_large: bool,
}

impl Script {
    /// The script of a row.
    pub fn of(alloc: Global, row: &Value) -> Result<Script> {
        let lines = list_in(row, "lines")?;
        let mut script = Script {
            requests: Vec::new(alloc),
            answers: Vec::new(alloc),
            ends: Vec::new(alloc),
            is_too_large: is_set(row, "too_large", false),
        };
        for line in lines {
            script.add_lines(line)?;
        }
        Ok(script)
    }

    /// Adds a line as often as it comes.
    fn add_lines(&mut self, line: &Value) -> Result<()> {
        let line = line.as_array().context("a line")?;
        let request = line.first().context("a request")?;
        let answer = line.get(1).context("an answer")?;
        let count = match line.get(2) {
            Some(count) => count_of(count)?,
            None => 1,
        };
        for _ in 0..count {
            self.add_line(request, answer)?;
        }
        Ok(())
    }

    fn add_line(&mut self, request: &Value, answer: &Value) -> Result<()> {
        push_pieces(&mut self.requests, request)?;
        push_pieces(&mut self.answers, answer)?;
        if self.requests.ends_with(b"\n") {
            let end = (self.requests.len(), self.answers.len());
            self.ends.push(end)?;
        }
        Ok(())
    }

    /// How many bytes the answers have to the lines that are whole in so many bytes of the
    /// requests.
    pub fn answered(&self, count: usize) -> usize {
        let whole = self.ends.partition_point(|&(asked, _)| asked <= count);
        match whole.checked_sub(1) {
            Some(last) => self.ends[last].1,
            None => 0,
        }
    }

    /// Whether so many bytes are the answers to the first whole lines.
    pub fn is_whole(&self, count: usize) -> bool {
        count == 0 || self.ends.iter().any(|&(_, told)| told == count)
    }

    /// Whether a line of the requests ends at this place, right before it or right after it, where
    /// they are few.
    pub fn is_near_end(&self, place: usize) -> bool {
        self.ends.len() <= FEW_LINES
            && self
                .ends
                .iter()
                .any(|&(asked, _)| asked.abs_diff(place) <= 1)
    }
}

/// Puts a text, or what a list of pieces is, after `bytes`.
fn push_pieces(bytes: &mut Vec<u8>, pieces: &Value) -> Result<()> {
    match pieces {
        Value::Array(pieces) => {
            for piece in pieces {
                push_piece(bytes, piece)?;
            }
            Ok(())
        }
        text => push_text(bytes, text),
    }
}

fn push_piece(bytes: &mut Vec<u8>, piece: &Value) -> Result<()> {
    match piece {
        Value::Number(_) => push_byte(bytes, piece),
        Value::Array(parts) => push_repeated(bytes, parts),
        text => push_text(bytes, text),
    }
}

fn push_text(bytes: &mut Vec<u8>, text: &Value) -> Result<()> {
    let text = text.as_str().context("a text")?;
    bytes.extend_from_slice(text.as_bytes())?;
    Ok(())
}

fn push_byte(bytes: &mut Vec<u8>, byte: &Value) -> Result<()> {
    let byte = u8::try_from(count_of(byte)?).unwrap_or(0);
    bytes.push(byte)?;
    Ok(())
}

/// Puts a text after `bytes`, as often as its list says.
fn push_repeated(bytes: &mut Vec<u8>, parts: &[Value]) -> Result<()> {
    let text = parts.first().context("a text")?;
    let count = count_of(parts.get(1).context("a count")?)?;
    for _ in 0..count {
        push_text(bytes, text)?;
    }
    Ok(())
}
