//! Why nothing is read at places of a source.
#![tactic(auto, using(crate::proofs::Failing::handed, fluent_tokens::proofs::Counted::cuts))]

ghost use Rattle.std.specs.Prelude.{◌≡◌, All, IfOk, None, option_map};
ghost use Rattle.std.specs.Str.{IsCharBoundary};
ghost use Rattle.fluent_parser.specs.Refusals.{AreBetweenCharacters, AreRefusalsFrom, IfAnyBetweenCharacters, refusal_from, refusal_view};
ghost use Rattle.fluent_parser.specs.Frame.{Advances};

use crate::fault::Fault;
use crate::parser::Parser;
use fluent_parsed::ErrorKind;
use fluent_text::stack::StackBudget;
use fluent_text::{Slice, Slices, Texts};
use fluent_tokens::line_table;
use std::alloc::{AllocError, Global};

/// Why nothing is read at an offset of a source. Offsets are bytes of the source.
///
/// ```no_run
/// for refusal in &refusals_at(alloc, source, &[0])? {
///     println!(rt; "byte {}", refusal.place)?; // byte 1
/// }
/// ```
#[derive(Debug, Drop)]
pub struct Refusal {
    /// The offset.
    pub start: usize,
    /// The offset where reading stopped.
    pub place: usize,
    /// What was wrong there.
    pub kind: ErrorKind,
}

/// Why no entry is read at each of these offsets of a source. If spaces and a dot are there, it is
/// why no attribute is read. An offset where an entry is read has no refusal.
///
/// The starts of the slices of the errors of [`parse`](crate::parse) are such offsets. It takes as
/// long as reading from the offsets, and a pass over the lines of the source.
///
/// # Errors
/// [`AllocError`] if memory runs out, or what is there nests so deep that reading it would take
/// more of the machine's stack than [`StackBudget::PROGRAM`]; nothing is kept.
pub fn refusals_at<'s, S: Slice<'s>>(
    alloc: Global,
    source: S,
    starts: &[usize],
) -> Result<Vec<Refusal>, AllocError>
    requires { All (IsCharBoundary (S.text source)) starts.now }
    ensures refusals { IfOk result (λ found.
        AreRefusalsFrom (S.text source) starts.now found.items) }
    ensures places { IfOk result (λ found. AreBetweenCharacters (S.text source) found.items) }
{
    refusals_of(alloc, &Slices::new(), &source, starts)
}

/// The same, of texts.
fn refusals_of<S: Drop, T: Texts<S>>(
    alloc: Global,
    texts: &T,
    source: &S,
    starts: &[usize],
) -> Result<Vec<Refusal>, AllocError>
    requires { All (IsCharBoundary (T.text source.now)) starts.now }
    ensures refusals { IfOk result (λ found.
        AreRefusalsFrom (T.text source.now) starts.now found.items) }
    ensures places { IfOk result (λ found. AreBetweenCharacters (T.text source.now) found.items) }
{
    let text = texts.as_str(source);
    let rows = line_table(alloc, text.as_bytes())?;
    let mut parser = Parser::new(alloc, texts, source, &rows, StackBudget::PROGRAM);
    let mut refusals = Vec::new(alloc);
    for start in starts {
        if let Some(refusal) = parser.refusal_at(text, *start)? {
            refusals.push(refusal)?;
        }
    }
    Ok(refusals)
}

impl<'p, S: Drop, T: Texts<S>> Parser<'p, S, T> {
    ghost use Rattle.fluent_parser.specs.Refusals.{attribute_refusal, first_refusal};
    ghost use Rattle.fluent_parser.specs.Refused.{FindsRefusal};

    /// Why nothing is read at this offset of the source, which has this text. `None` if an entry
    /// is.
    ///
    /// # Errors
    /// [`AllocError`] if memory runs out, or what is there nests past the budget.
    fn refusal_at(&mut self, text: &'p str, start: usize) -> Result<Option<Refusal>, AllocError>
        requires boundary { IsCharBoundary text.now start }
        requires text { self.old.text.now ≡ text.now }
        ensures value { IfOk result (λ found. option_map (refusal_view text.now) found
            ≡ refusal_from text.now start) }
        ensures places { IfOk result (λ found. IfAnyBetweenCharacters text.now found) }
        ensures text { self.new.text.now ≡ self.old.text.now }
        ensures stack { self.new.stack.taken ≡ self.old.stack.taken }
    {
        self.set_rest(&text[start..]);
        let Some(kind) = self.find_refusal()? else {
            return Ok(None);
        };
        let at = self.rest();
        Ok(Some(Refusal {
            start,
            place: text.len() - at.len(),
            kind,
        }))
    }

    /// Why nothing is read here: the parser then stands at the place of the refusal.
    ///
    /// # Errors
    /// [`AllocError`] if memory runs out, or what is there nests past the budget.
    fn find_refusal(&mut self) -> Result<Option<ErrorKind>, AllocError>
        ensures found { IfOk result (λ found. FindsRefusal found self.new.rest.now
            (first_refusal self.old.rest.now)) }
        ensures advances { Advances self.old self.new }
    {
        if let Some(kind) = self.find_attribute_refusal()? {
            return Ok(Some(kind));
        }
        match self.get_entry() {
            Ok(_) => Ok(None),
            Err(Fault::Memory | Fault::TooDeep) => Err(AllocError),
            Err(Fault::Refused(kind)) => Ok(Some(kind)),
        }
    }

    /// Why the attribute of this line isn't read. `None` if one is read, or the line has none: the
    /// parser then stands where it stood.
    fn find_attribute_refusal(&mut self) -> Result<Option<ErrorKind>, AllocError>
        ensures found { IfOk result (λ found. FindsRefusal found self.new.rest.now
            (attribute_refusal self.old.rest.now)) }
        ensures none { IfOk result (λ found. found ≡ None → self.new.rest.now ≡ self.old.rest.now) }
        ensures advances { Advances self.old self.new }
    {
        if !self.is_attribute_line() {
            return Ok(None);
        }
        let line = self.rest();
        match self.get_attribute() {
            Ok(_) => {
                self.set_rest(line);
                Ok(None)
            }
            Err(Fault::Memory | Fault::TooDeep) => Err(AllocError),
            Err(Fault::Refused(kind)) => Ok(Some(kind)),
        }
    }
}
