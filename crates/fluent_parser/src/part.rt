//! One part of a source: an entry, or junk with its error.
#![tactic(auto, using(crate::proofs::Failing::handed, fluent_tokens::proofs::Counted::cuts))]

ghost use Rattle.std.specs.Prelude.{◌≡◌, ◌<◌, ◌≤◌, ◌-◌, ◌^◌, OnOk, drop, length};
ghost use Rattle.fluent_tokens.specs.Counted.{Cuts};
ghost use Rattle.fluent_grammar.specs.Tiling.{behind_junk, resume};
ghost use Rattle.fluent_parsed.specs.ErrorView.{error_view, kind_view};
ghost use Rattle.fluent_parser.specs.Places.{error_by};
ghost use Rattle.fluent_parser.specs.Frame.{Advances, Stays};
ghost use Rattle.fluent_parser.specs.Depth.{IfHalted, PastSomewhere};

use crate::fault::{Fault, Halt};
use crate::parser::Parser;
use fluent_parsed::{Collected, ErrorKind, ParserError};
use fluent_text::Texts;
use fluent_tokens::begins_entry;

impl<'p, S: Drop, T: Texts<S>> Parser<'p, S, T> {
    ghost use Rattle.fluent_grammar.specs.Reading.{entry_at};
    ghost use Rattle.fluent_parser.specs.Parts.{next_piece, behind_piece};
    ghost use Rattle.fluent_parsed.specs.Collected.{TakesEntries, TakesErrors};

    /// Reads the part that begins here, and puts it after those that were collected. `apart` says
    /// whether a blank line stands before it. After a refused entry, reading goes on at the first
    /// place that may begin another: at or after the place of the refusal, at column 0, before a
    /// letter, `-` or `#`.
    ///
    /// # Errors
    /// [`Halt::Memory`] if memory runs out; the part may be there without its error.
    /// [`Halt::TooDeep`] if the part nests past the budget of the stack; nothing is put there.
    pub fn get_part(&mut self, collected: &mut Collected<S>, apart: bool) -> Result<(), Halt>
        requires some { 0 < length self.old.rest.now }
        requires closed { self.old.stack.taken ≡ 0 }
        ensures entries { OnOk result (TakesEntries S T.text collected.old collected.new
            (next_piece self.old apart)) }
        ensures errors { OnOk result (TakesErrors S collected.old collected.new
            (next_piece self.old apart)) }
        ensures rest { OnOk result (self.new.rest.now
            ≡ behind_piece self.old.rest.now (entry_at self.old.rest.now)) }
        ensures less { OnOk result (length self.new.rest.now < length self.old.rest.now) }
        ensures deep { IfHalted result (PastSomewhere self.old) }
        ensures text { self.new.text.now ≡ self.old.text.now }
        ensures closed { self.new.stack.taken ≡ 0 }
        ensures budget { self.new.stack.budget ≡ self.old.stack.budget }
    {
        let start = self.rest();
        let slice_start = self.place();
        match self.get_entry() {
            Ok(entry) => {
                collected.push_entry(entry, apart)?;
                Ok(())
            }
            Err(Fault::Memory) => Err(Halt::Memory),
            Err(Fault::TooDeep) => Err(Halt::TooDeep),
            Err(Fault::Refused(kind)) => {
                let place = self.place();
                self.skip_to_next_entry_start(start);
                let junk_len = start.len() - self.rest().len();
                self.set_rest(start);
                let content = self.take(junk_len)?;
                let error = error_at(kind, slice_start, place, slice_start + junk_len);
                collected.push_junk(content, error)?;
                Ok(())
            }
        }
    }

    /// Passes over the rest of junk that begins with this start, from within it on.
    pub fn skip_to_next_entry_start(&mut self, start: &str)
        requires { length self.old.rest.now ≤ length start.now }
        ensures rest { self.new.rest.now ≡ behind_junk start.now self.old.rest.now }
        ensures advances { Advances self.old self.new }
    {
        let rest = self.bytes();
        let read = start.len() - rest.len();
        let at_column_zero = read == 0 || start.as_bytes()[read - 1] == b'\n';
        let count = self.entry_start(at_column_zero);
        self.advance(count);
    }

    /// How many bytes stand before the next place at column 0 that may begin an entry: all, where
    /// there is none. The parser stands at column 0 or not.
    #[tactic(auto, using(crate::proofs::EntryStarts::resume_here, crate::proofs::EntryStarts::resume_later, fluent_tokens::proofs::Counted::cuts))]
    fn entry_start(&mut self, at_column_zero: bool) -> usize
        ensures value { drop result self.old.rest.now ≡ resume at_column_zero self.old.rest.now }
        ensures cuts { Cuts self.old.rest.now result }
        ensures stays { Stays self.old self.new }
    {
        if at_column_zero && begins_entry(self.bytes()) {
            0
        } else {
            self.next_entry()
        }
    }
}

/// The error of an entry from `start` on that was refused at `place`, with junk up to `end`. A
/// message or a term with nothing to hold is shown whole.
fn error_at(kind: ErrorKind, start: usize, place: usize, end: usize) -> ParserError
    requires { place < 2 ^ 64 - 1 }
    ensures { error_view result ≡ error_by (kind_view kind) start place end }
{
    let is_whole_entry = matches!(
        &kind,
        ErrorKind::ExpectedMessageField { .. } | ErrorKind::ExpectedTermField { .. }
    );
    let pos = if is_whole_entry {
        start..place
    } else {
        place..place + 1
    };
    ParserError {
        pos,
        slice: Some(start..end),
        kind,
    }
}
