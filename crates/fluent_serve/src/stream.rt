//! Where bytes come from and go to.
//!
//! Contracts see the bytes of a `Source` and a `Sink`, if they are known, and how many of their
//! calls have failed. They also see how many bytes a `Source` returned, whether these are known or
//! not. `FromRead` and `FromWrite` make them of std's readers and writers.
ghost use Rattle.std.specs.Prelude.{◌≡◌, ◌≤◌, ℕ, List, Option, IfOk, length};
ghost use Rattle.std.specs.Io.KnownBytes.{ReadConsumes, WriteAppends};
ghost use Rattle.fluent_serve.specs.Devices.{failures_after_read, failures_after_write, given_after_read};

use std::io;

/// A call of `Source::read` failed: no byte was taken.
///
/// ```
/// match self.requests.read(buffer) {
///     Some(count) => {
///         self.given = self.given.saturating_add(count as u64);
///         Ok(count)
///     }
///     None => {
///         self.failures = self.failures.saturating_add(1);
///         Err(ReadFailed)
///     }
/// }
/// ```
#[derive(Clone, Copy, Debug, PartialEq, Eq)]
pub struct ReadFailed;

/// A call of `Sink::write` failed: no byte was taken.
///
/// ```
/// match self.answers.write(bytes) {
///     Some(count) if count > 0 || bytes.is_empty() => Ok(count),
///     taken => {
///         self.failures = self.failures.saturating_add(1);
///         taken.ok_or(WriteFailed)
///     }
/// }
/// ```
#[derive(Clone, Copy, Debug, PartialEq, Eq)]
pub struct WriteFailed;

/// A reader of bytes.
///
/// ```
/// impl Source for Letters {
///     ghost remaining = { λ _. None };
///
///     ghost failures = { λ _. 0 };
///
///     ghost given = { λ letters. letters.given };
///
///     fn read(&mut self, buffer: &mut [u8]) -> Result<usize, ReadFailed> {
///         self.calls = self.calls.saturating_add(1);
///         let count = self.fill(buffer);
///         self.given = self.given.saturating_add(count as u64);
///         Ok(count)
///     }
/// }
/// ```
pub trait Source {
    /// The bytes that reads will give from here on, if they are known.
    ghost remaining: { Self → Option (List ℕ) };

    /// How many calls have failed. At the greatest `u64` the count stays there.
    ghost failures: { Self → ℕ };

    /// How many bytes reads have given. At the greatest `u64` the count stays there.
    ghost given: { Self → ℕ };

    /// Fills the front of `buffer`, and gives the count of its bytes: 0 at the end of the input, or
    /// if `buffer` is empty.
    ///
    /// # Errors
    /// [`ReadFailed`] if the bytes can't be read; none was taken.
    fn read(&mut self, buffer: &mut [u8]) -> Result<usize, ReadFailed>
        ensures bound { IfOk result (λ count. count ≤ length buffer.new) }
        ensures bytes { ReadConsumes (remaining self.old) (remaining self.new) result buffer.new }
        ensures failed { failures self.new ≡ failures_after_read (failures self.old) result }
        ensures counted { given self.new ≡ given_after_read (given self.old) result };
}

/// A writer of bytes.
///
/// ```
/// impl Sink for Writer<'_> {
///     ghost contents = { λ _. None };
///
///     ghost failures = { λ writer. writer.failures };
///
///     fn write(&mut self, bytes: &[u8]) -> Result<usize, WriteFailed> {
///         match self.answers.write(bytes) {
///             Some(count) if count > 0 || bytes.is_empty() => Ok(count),
///             taken => {
///                 self.failures = self.failures.saturating_add(1);
///                 taken.ok_or(WriteFailed)
///             }
///         }
///     }
/// }
/// ```
pub trait Sink {
    /// The bytes that were written, if they are known.
    ghost contents: { Self → Option (List ℕ) };

    /// How many calls have failed, or taken none of a piece that was not empty. At the greatest
    /// `u64` the count stays there.
    ghost failures: { Self → ℕ };

    /// Takes bytes from the front of `bytes`, and gives their count.
    ///
    /// # Errors
    /// [`WriteFailed`] if the bytes can't be written; none was taken.
    fn write(&mut self, bytes: &[u8]) -> Result<usize, WriteFailed>
        ensures bound { IfOk result (λ count. count ≤ length bytes.now) }
        ensures bytes { WriteAppends (contents self.old) (contents self.new) result bytes.now }
        ensures failed { failures self.new ≡ failures_after_write (failures self.old) bytes.now
            result };
}

/// A `Source` of a reader of std. Its bytes are known if those of the reader are.
///
/// ```no_run
/// let mut requests = FromRead::new("a\n".as_bytes());
/// ```
#[derive(Drop)]
pub struct FromRead<R> {
    reader: R,
    failures: u64,
    given: u64,
}

impl<R: io::Read> FromRead<R> {
    /// A source that has neither failed nor given a byte yet.
    pub fn new(reader: R) -> FromRead<R>
        ensures bytes { ⟦<FromRead<R> as Source>⟧.remaining result ≡ R.remaining reader }
        ensures failures { ⟦<FromRead<R> as Source>⟧.failures result ≡ 0 }
        ensures given { ⟦<FromRead<R> as Source>⟧.given result ≡ 0 }
    {
        FromRead {
            reader,
            failures: 0,
            given: 0,
        }
    }
}

impl<R: io::Read> Source for FromRead<R> {
    ghost remaining = { λ s. R.remaining s.reader };

    ghost failures = { λ s. s.failures };

    ghost given = { λ s. s.given };

    fn read(&mut self, buffer: &mut [u8]) -> Result<usize, ReadFailed> {
        match self.reader.read(buffer) {
            Ok(count) => {
                self.given = self.given.saturating_add(count as u64);
                Ok(count)
            }
            Err(_) => {
                self.failures = self.failures.saturating_add(1);
                Err(ReadFailed)
            }
        }
    }
}

/// A `Sink` of a writer of std. Its bytes are known if those of the writer are.
///
/// ```no_run
/// let mut answers = FromWrite::new(Vec::new(alloc));
/// ..
/// let written = answers.into_inner(); // ok 1 0, then b
/// ```
#[derive(Drop)]
pub struct FromWrite<W> {
    writer: W,
    failures: u64,
}

impl<W: io::Write> FromWrite<W> {
    /// A sink with no failure yet.
    pub fn new(writer: W) -> FromWrite<W>
        ensures bytes { ⟦<FromWrite<W> as Sink>⟧.contents result ≡ W.contents writer }
        ensures failures { ⟦<FromWrite<W> as Sink>⟧.failures result ≡ 0 }
    {
        FromWrite {
            writer,
            failures: 0,
        }
    }

    /// The writer, with the bytes that it holds.
    pub fn into_inner(self) -> W
        ensures { W.contents result ≡ ⟦<FromWrite<W> as Sink>⟧.contents self }
    {
        let FromWrite {
            writer,
            failures: _,
        } = self;
        writer
    }
}

impl<W: io::Write> Sink for FromWrite<W> {
    ghost contents = { λ s. W.contents s.writer };

    ghost failures = { λ s. s.failures };

    fn write(&mut self, bytes: &[u8]) -> Result<usize, WriteFailed> {
        match self.writer.write(bytes) {
            Ok(count) if count > 0 || bytes.is_empty() => Ok(count),
            outcome => {
                self.failures = self.failures.saturating_add(1);
                outcome.map_err(|_| WriteFailed)
            }
        }
    }
}
