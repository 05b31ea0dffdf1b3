//! The parts of a whole source.
#![tactic(auto)]

ghost use Rattle.std.specs.Prelude.{◌≡◌, ◌-◌, ◌≤◌, [], None, false, IfOk, OnOk, length, map};
ghost use Rattle.fluent_grammar.specs.Tiling.{tree, errors, runtime_tree, runtime_errors};
ghost use Rattle.fluent_parsed.specs.Collected.{entries_with, errors_with};
ghost use Rattle.fluent_parsed.specs.ErrorView.{error_told};
ghost use Rattle.fluent_tokens.specs.Lookup.{past_comments};
ghost use Rattle.fluent_parser.specs.Frame.{Advances};
ghost use Rattle.fluent_parser.specs.Depth.{IfHalted, NestsPast, PastSomewhere};
ghost use Rattle.fluent_parser.specs.Placed.{Adds};
ghost use Rattle.fluent_parser.specs.Starts as parts;

use crate::fault::Halt;
use crate::parser::Parser;
use crate::starts::Starts;
use fluent_parsed::Collected;
use fluent_text::Texts;
use fluent_text::stack::StackBudget;
use fluent_tokens::line_table;
use std::alloc::Global;

/// How many bytes a short entry has, about. Room to spare, which there is for longer ones, is never
/// touched.
const SHORT: usize = 64;

/// The parts of a source, with their comments. Where they begin is put after the other starts.
///
/// # Errors
/// [`Halt`] if memory runs out, or a message or a term nests past the budget; some starts may be
/// there.
pub fn parts_of<S: Drop, T: Texts<S>>(
    alloc: Global,
    texts: &T,
    source: &S,
    budget: StackBudget,
    starts: &mut Starts,
) -> Result<Collected<S>, Halt>
    ensures entries { IfOk result (λ all. entries_with S T.text all []
        ≡ tree (T.text source.now)) }
    ensures errors { IfOk result (λ all. errors_with S all []
        ≡ map error_told (errors (T.text source.now))) }
    ensures starts { OnOk result (Adds starts.old starts.new (parts.starts (T.text source.now))) }
    ensures deep { IfHalted result (NestsPast budget.bytes (T.text source.now)) }
{
    let rows = line_table(alloc, texts.as_str(source).as_bytes())?;
    let mut parser = Parser::new(alloc, texts, source, &rows, budget);
    parser.get_parts(starts)
}

/// The parts of a source, without comments.
///
/// # Errors
/// [`Halt`] if memory runs out, or a message or a term nests past the budget; nothing is kept.
pub fn runtime_parts_of<S: Drop, T: Texts<S>>(
    alloc: Global,
    texts: &T,
    source: &S,
    budget: StackBudget,
) -> Result<Collected<S>, Halt>
    ensures entries { IfOk result (λ all. entries_with S T.text all []
        ≡ runtime_tree (T.text source.now)) }
    ensures errors { IfOk result (λ all. errors_with S all []
        ≡ map error_told (runtime_errors (T.text source.now))) }
    ensures deep { IfHalted result (NestsPast budget.bytes (T.text source.now)) }
{
    let rows = line_table(alloc, texts.as_str(source).as_bytes())?;
    let mut parser = Parser::new(alloc, texts, source, &rows, budget);
    parser.get_runtime_parts()
}

impl<'p, S: Drop, T: Texts<S>> Parser<'p, S, T> {
    ghost use Rattle.fluent_parsed.specs.Collected.{entries_with, errors_with};
    ghost use Rattle.fluent_parser.specs.Left.{pieces_ahead, runtime_ahead, starts_ahead};
    ghost use Rattle.fluent_grammar.specs.Tiling.{entries_of, errors_of};
    ghost use Rattle.fluent_parsed.specs.ErrorView.{error_told};

    /// All parts that are left, with their comments. Where they begin is put after the other
    /// starts.
    ///
    /// # Errors
    /// [`Halt`] if memory runs out, or a part nests past the budget; the parts that were read are
    /// dropped, and some starts may be there.
    pub fn get_parts(&mut self, starts: &mut Starts) -> Result<Collected<S>, Halt>
        requires closed { self.old.stack.taken ≡ 0 }
        ensures entries { IfOk result (λ all. entries_with S T.text all []
            ≡ entries_of None (pieces_ahead self.old)) }
        ensures errors { IfOk result (λ all. errors_with S all []
            ≡ map error_told (errors_of (pieces_ahead self.old))) }
        ensures starts { OnOk result (Adds starts.old starts.new (starts_ahead self.old)) }
        ensures deep { IfHalted result (PastSomewhere self.old) }
    {
        let mut collected = Collected::with_capacity(self.alloc, self.bytes().len() / SHORT + 1)?;
        'parts: loop {
            let apart = self.skip_blank_block();
            if self.bytes().is_empty() {
                return Ok(collected);
            }
            starts.push(self.place())?;
            self.get_part(&mut collected, apart)?;
        }
    }

    /// All parts that are left, without comments: a line that begins with `#` where a part may
    /// begin is passed over, whatever follows.
    ///
    /// # Errors
    /// [`Halt`] if memory runs out, or a part nests past the budget; the parts that were read are
    /// dropped.
    pub fn get_runtime_parts(&mut self) -> Result<Collected<S>, Halt>
        requires closed { self.old.stack.taken ≡ 0 }
        ensures entries { IfOk result (λ all. entries_with S T.text all []
            ≡ entries_of None (runtime_ahead self.old)) }
        ensures errors { IfOk result (λ all. errors_with S all []
            ≡ map error_told (errors_of (runtime_ahead self.old))) }
        ensures deep { IfHalted result (PastSomewhere self.old) }
    {
        let mut collected = Collected::with_capacity(self.alloc, self.bytes().len() / SHORT + 1)?;
        'parts: loop {
            self.skip_blank_block();
            if self.bytes().is_empty() {
                return Ok(collected);
            }
            if self.is_current_byte(b'#') {
                self.skip_comments();
                continue;
            }
            self.get_part(&mut collected, false)?;
        }
    }

    /// Passes over this line and the comment lines after it, whatever follows their signs.
    fn skip_comments(&mut self)
        ensures rest { self.new.rest.now ≡ past_comments false self.old.rest.now }
        ensures advances { Advances self.old self.new }
    {
        let count = self.comments_len();
        self.advance(count);
    }
}
