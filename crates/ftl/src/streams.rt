//! The standard streams, of which one may go away.

ghost use Rattle.std.specs.Prelude.{None};

use std::cell::Cell;
use std::io;
use std::io::{ErrorKind, Write};

/// Standard output, which notes that its reader went away.
#[derive(Drop)]
pub struct Watched<'a, W> {
    writer: W,
    is_left: &'a Cell<bool>,
}

impl<'a, W> Watched<'a, W> {
    /// The writer, with where to note that nobody reads any more.
    pub fn new(writer: W, is_left: &'a Cell<bool>) -> Self {
        Watched { writer, is_left }
    }
}

impl<W: Write> Write for Watched<'_, W> {
    ghost contents = { λ w. W.contents w.writer };

    fn write(&mut self, bytes: &[u8]) -> io::Result<usize> {
        let written = self.writer.write(bytes);
        if let Err(error) = &written {
            if error.kind() == ErrorKind::BrokenPipe {
                self.is_left.set(true);
            }
        }
        written
    }

    fn flush(&mut self) -> io::Result<()> {
        self.writer.flush()
    }
}

/// Standard error, to which nothing more is written if nobody reads standard output any more.
#[derive(Drop)]
pub struct Hushed<'a, W> {
    writer: W,
    is_left: &'a Cell<bool>,
}

impl<'a, W> Hushed<'a, W> {
    /// The writer, with where it is noted that nobody reads any more.
    pub fn new(writer: W, is_left: &'a Cell<bool>) -> Self {
        Hushed { writer, is_left }
    }
}

impl<W: Write> Write for Hushed<'_, W> {
    ghost contents = { λ _. None };

    fn write(&mut self, bytes: &[u8]) -> io::Result<usize> {
        if self.is_left.get() {
            return Ok(bytes.len());
        }
        self.writer.write(bytes)
    }

    fn flush(&mut self) -> io::Result<()> {
        self.writer.flush()
    }
}
