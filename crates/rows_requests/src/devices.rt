//! Devices over memory that give and take little at a time, and fail. They tell contracts no bytes:
//! what they gave and took is compared here.
ghost use Rattle.std.specs.Prelude.{◌≤◌, IfSome, None, length};

use crate::script::Script;
use fluent_run::{Sink, Source};
use fluent_serve::stream::{ReadFailed, WriteFailed};
use std::cell::Cell;

/// The most bytes that a run may ask for in a call.
pub const BLOCK: usize = 8_192;

/// How a reader gives its bytes.
#[derive(Clone, Copy)]
pub struct Reading {
    /// The most bytes that a call gives.
    pub piece: usize,
    /// The count of bytes after which a call fails.
    pub fails_behind: Option<usize>,
    /// Whether the calls after the failed one work.
    pub heals: bool,
}

impl Reading {
    /// All that is asked for.
    pub const WHOLE: Reading = Reading {
        piece: usize::MAX,
        fails_behind: None,
        heals: false,
    };
}

/// How a writer takes its bytes.
#[derive(Clone, Copy)]
pub struct Writing {
    /// The most bytes that a call takes.
    pub piece: usize,
    /// The calls that work before one fails.
    pub calls: usize,
    /// Whether the calls after the failed one work.
    pub heals: bool,
}

impl Writing {
    /// All that there is.
    pub const WHOLE: Writing = Writing {
        piece: usize::MAX,
        calls: usize::MAX,
        heals: false,
    };
}

/// A reader of the requests of a script.
#[derive(Clone, Copy)]
pub struct Reader<'a> {
    pub requests: Requests<'a>,
    pub failures: u64,
    pub given: u64,
}

impl<'a> Reader<'a> {
    /// A reader that gave nothing yet, beside a writer that counts its bytes in `written`.
    pub fn new(script: &'a Script, written: &'a Cell<usize>, reading: Reading) -> Reader<'a> {
        Reader {
            requests: Requests {
                script,
                written,
                reading,
                left: script.requests.as_slice(),
                given: 0,
                ends: 0,
                most: 0,
                is_wrong: false,
            },
            failures: 0,
            given: 0,
        }
    }
}

impl Source for Reader<'_> {
    ghost remaining = { λ _. None };

    ghost failures = { λ reader. reader.failures };

    ghost given = { λ reader. reader.given };

    fn read(&mut self, buffer: &mut [u8]) -> Result<usize, ReadFailed> {
        match self.requests.read(buffer) {
            Some(count) => {
                self.given = self.given.saturating_add(count as u64);
                Ok(count)
            }
            None => {
                self.failures = self.failures.saturating_add(1);
                Err(ReadFailed)
            }
        }
    }
}

/// The requests of a script, which are given little by little.
#[derive(Clone, Copy)]
pub struct Requests<'a> {
    script: &'a Script,
    written: &'a Cell<usize>,
    reading: Reading,
    left: &'a [u8],
    /// How many bytes were given.
    pub given: usize,
    /// How many calls came after the end.
    pub ends: u32,
    /// The most bytes that a call asked for.
    pub most: usize,
    /// Whether a call asked for no bytes, or came before the whole lines that were given were
    /// answered.
    pub is_wrong: bool,
}

impl Requests<'_> {
    /// Gives bytes to the front of `buffer`. `None` where the call fails.
    fn read(&mut self, buffer: &mut [u8]) -> Option<usize>
        ensures { IfSome result (λ count. count ≤ length buffer.new) }
    {
        self.note(buffer.len());
        let room = self.room()?;
        Some(self.give(buffer, room))
    }

    /// Notes what a call for so many bytes tells.
    fn note(&mut self, asked: usize) {
        let is_late = self.written.get() != self.script.answered(self.given);
        self.is_wrong = self.is_wrong || is_late || asked == 0;
        self.most = self.most.max(asked);
        if self.left.is_empty() {
            self.ends = self.ends.saturating_add(1);
        }
    }

    /// How many bytes a call gives at most. `None` where it fails.
    fn room(&mut self) -> Option<usize> {
        let Some(count) = self.reading.fails_behind else {
            return Some(self.reading.piece);
        };
        if self.given < count {
            return Some(self.reading.piece.min(count - self.given));
        }
        if self.reading.heals {
            self.reading.fails_behind = None;
        }
        None
    }

    fn give(&mut self, buffer: &mut [u8], room: usize) -> usize
        ensures { result ≤ length buffer.new }
    {
        let count = room.min(buffer.len()).min(self.left.len());
        let (piece, rest) = self.left.split_at(count);
        buffer[..count].copy_from_slice(piece);
        self.left = rest;
        self.given = self.given.saturating_add(count);
        count
    }
}

/// A writer that compares what it takes with the answers of a script.
#[derive(Clone, Copy)]
pub struct Writer<'a> {
    pub answers: Answers<'a>,
    pub failures: u64,
}

impl<'a> Writer<'a> {
    /// A writer that took nothing yet, and counts its bytes in `written`.
    pub fn new(script: &'a Script, written: &'a Cell<usize>, writing: Writing) -> Writer<'a> {
        Writer {
            answers: Answers {
                written,
                writing,
                left: script.answers.as_slice(),
                is_wrong: false,
            },
            failures: 0,
        }
    }
}

impl Sink for Writer<'_> {
    ghost contents = { λ _. None };

    ghost failures = { λ writer. writer.failures };

    fn write(&mut self, bytes: &[u8]) -> Result<usize, WriteFailed> {
        match self.answers.write(bytes) {
            Some(count) if count > 0 || bytes.is_empty() => Ok(count),
            taken => {
                self.failures = self.failures.saturating_add(1);
                taken.ok_or(WriteFailed)
            }
        }
    }
}

/// The answers of a script, which are taken little by little.
#[derive(Clone, Copy)]
pub struct Answers<'a> {
    written: &'a Cell<usize>,
    writing: Writing,
    /// Those that weren't taken yet.
    left: &'a [u8],
    /// Whether other bytes were taken.
    pub is_wrong: bool,
}

impl Answers<'_> {
    /// Takes bytes from the front of `bytes`. `None` where the call fails.
    fn write(&mut self, bytes: &[u8]) -> Option<usize>
        ensures { IfSome result (λ count. count ≤ length bytes.now) }
    {
        if self.writing.calls == 0 {
            self.fail();
            return None;
        }
        self.writing.calls -= 1;
        let count = self.writing.piece.min(bytes.len());
        self.take(&bytes[..count]);
        Some(count)
    }

    /// Notes that a call failed.
    fn fail(&mut self) {
        if self.writing.heals {
            self.writing.calls = usize::MAX;
        }
    }

    /// Takes all of `bytes`.
    fn take(&mut self, bytes: &[u8]) {
        match self.left.strip_prefix(bytes) {
            Some(rest) => self.left = rest,
            None => self.is_wrong = true,
        }
        self.written
            .set(self.written.get().saturating_add(bytes.len()));
    }
}
