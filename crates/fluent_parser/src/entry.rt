//! Messages, terms and their attributes.
#![tactic(auto, using(crate::proofs::Failing::handed, fluent_tokens::proofs::Counted::cuts))]

ghost use Rattle.std.specs.Prelude.{◌≡◌, ◌≤◌, true, length, option_map};
ghost use Rattle.fluent_grammar.specs.Words as w;
ghost use Rattle.fluent_grammar.specs.Refusal as r;
ghost use Rattle.fluent_parser.specs.Frame.{Advances};
ghost use Rattle.fluent_parser.specs.Depth.{IfTooDeep, Past, PastSomewhere};
ghost use Rattle.fluent_parser.specs.Nesting.{TakesPattern};

use crate::fault::Fault;
use crate::parser::Parser;
use fluent_ast::{Attribute, Entry, Identifier, Message, Pattern, Term};
use fluent_parsed::{ErrorKind, push_tight};
use fluent_text::Texts;
use fluent_tokens as words;

/// How many attributes messages mostly have that have any: one or two.
const FEW: usize = 2;

impl<'p, S: Drop, T: Texts<S>> Parser<'p, S, T> {
    ghost use Rattle.fluent_parser.specs.Frame.{Reads};
    ghost use Rattle.fluent_parser.specs.Reads.{Tells};
    ghost use Rattle.fluent_ast.specs.View.{name_of, entry_view, message_view, term_view, attribute_view, attributes_view, pattern_view};
    ghost use Rattle.fluent_grammar.specs.Reading.{entry_at};
    ghost use Rattle.fluent_parser.specs.Entries.{attribute_by, attributes_by, head_by, message_by, next_attribute_by, term_by};
    ghost use Rattle.fluent_parser.specs.Heads.{head_view};
    ghost use Rattle.fluent_parser.specs.Steps.{pattern_by};
    ghost use Rattle.fluent_grammar.specs.Tree as t;

    /// What begins here, told by its first byte. Production `Entry`.
    ///
    /// # Errors
    /// [`Fault::Refused`] if no entry stands here; the parser then stands at the place of the
    /// refusal. [`Fault::Memory`] if memory runs out. [`Fault::TooDeep`] if what is there nests
    /// past the budget of the stack.
    #[tactic(auto, using(crate::proofs::Failing::handed), unfolding(fluent_grammar::specs::Reading::entry_at))]
    pub fn get_entry(&mut self) -> Result<Entry<S>, Fault>
        ensures gives { Reads (entry_view S T.text) self.old self.new result entry_at }
        ensures deep { IfTooDeep result (PastSomewhere self.old) }
        ensures advances { Advances self.old self.new }
    {
        if self.is_current_byte(b'#') {
            self.get_comment()
        } else if self.is_current_byte(b'-') {
            let term = self.get_term()?;
            Ok(Entry::Term(term))
        } else {
            let message = self.get_message()?;
            Ok(Entry::Message(message))
        }
    }

    /// Production `Message`.
    #[tactic(auto, using(crate::proofs::Failing::handed, fluent_tokens::proofs::Counted::cuts), unfolding(crate::specs::Entries::message_by))]
    fn get_message(&mut self) -> Result<Message<S>, Fault>
        ensures gives { Reads (λ m. t.message (message_view S T.text m)) self.old self.new result
            message_by }
        ensures deep { IfTooDeep result (PastSomewhere self.old) }
        ensures advances { Advances self.old self.new }
    {
        let Head { id, value } = self.get_head()?;
        self.skip_blank_block();
        let attributes = self.get_attributes()?;
        if value.is_none() && attributes.is_empty() {
            return Err(self.expected_message_field(&id));
        }
        Ok(Message {
            id,
            value,
            attributes,
            comment: None,
        })
    }

    /// Production `Term`, from its minus sign on.
    #[tactic(auto, using(crate::proofs::Failing::handed, fluent_tokens::proofs::Counted::cuts), unfolding(crate::specs::Entries::term_by))]
    fn get_term(&mut self) -> Result<Term<S>, Fault>
        requires minus { w.begins_with w.hyphen self.old.rest.now ≡ true }
        ensures gives { Reads (λ m. t.term (term_view S T.text m)) self.old self.new result
            term_by }
        ensures deep { IfTooDeep result (PastSomewhere self.old) }
        ensures advances { Advances self.old self.new }
    {
        self.advance(1);
        let Head { id, value } = self.get_head()?;
        self.skip_blank_block();
        let attributes = self.get_attributes()?;
        let Some(value) = value else {
            return Err(self.expected_term_field(&id));
        };
        Ok(Term {
            id,
            value,
            attributes,
            comment: None,
        })
    }

    /// The refusal of a message with nothing to hold.
    fn expected_message_field(&self, id: &Identifier<S>) -> Fault
        ensures { Tells result (r.expected_message_field (name_of S T.text id.now)) }
    {
        match String::from_str(self.alloc, self.texts.as_str(&id.name)) {
            Ok(entry_id) => Fault::Refused(ErrorKind::ExpectedMessageField { entry_id }),
            Err(_) => Fault::Memory,
        }
    }

    /// The refusal of a term without a value.
    fn expected_term_field(&self, id: &Identifier<S>) -> Fault
        ensures { Tells result (r.expected_term_field (name_of S T.text id.now)) }
    {
        match String::from_str(self.alloc, self.texts.as_str(&id.name)) {
            Ok(entry_id) => Fault::Refused(ErrorKind::ExpectedTermField { entry_id }),
            Err(_) => Fault::Memory,
        }
    }

    /// What a message or a term begins with: its name, an equals sign and its value, if it has one.
    #[tactic(auto, using(crate::proofs::Failing::handed, fluent_tokens::proofs::Counted::cuts), unfolding(crate::specs::Entries::head_by))]
    #[inline(always)]
    fn get_head(&mut self) -> Result<Head<S>, Fault>
        ensures gives { Reads (head_view S T.text) self.old self.new result head_by }
        ensures deep { IfTooDeep result (PastSomewhere self.old) }
        ensures advances { Advances self.old self.new }
    {
        let id = self.get_identifier()?;
        self.skip_blank_inline();
        self.expect_byte(b'=')?;
        let value = self.get_value()?;
        Ok(Head { id, value })
    }

    /// The value of a message, a term or an attribute, if it has one. What a refused one left open
    /// is closed.
    #[inline(always)]
    fn get_value(&mut self) -> Result<Option<Pattern<S>>, Fault>
        ensures gives { Reads (option_map (pattern_view S T.text)) self.old self.new result
            pattern_by }
        ensures deep { IfTooDeep result (Past TakesPattern self.old) }
        ensures advances { Advances self.old self.new }
    {
        let stack = self.stack();
        let value = self.get_pattern();
        self.close_to(stack);
        value
    }

    /// The attributes up to the first line that isn't one, where the parser then stands.
    fn get_attributes(&mut self) -> Result<Vec<Attribute<S>>, Fault>
        ensures gives { Reads (λ all. attributes_view S T.text all.items) self.old self.new result
            attributes_by }
        ensures deep { IfTooDeep result (PastSomewhere self.old) }
        ensures advances { Advances self.old self.new }
    {
        let mut attributes = Vec::new(self.alloc);
        while let Some(attribute) = self.next_attribute()? {
            push_tight(&mut attributes, attribute, FEW)?;
        }
        Ok(attributes)
    }

    /// The attribute of this line. None where none can be read: the parser then stands where it
    /// stood.
    #[tactic(auto, using(crate::proofs::Failing::handed, fluent_tokens::proofs::Counted::cuts), unfolding(crate::specs::Entries::next_attribute_by))]
    fn next_attribute(&mut self) -> Result<Option<Attribute<S>>, Fault>
        ensures gives { Reads (option_map (attribute_view S T.text)) self.old self.new result
            next_attribute_by }
        ensures deep { IfTooDeep result (PastSomewhere self.old) }
        ensures advances { Advances self.old self.new }
    {
        if !self.is_attribute_line() {
            return Ok(None);
        }
        let line = self.rest();
        match self.get_attribute() {
            Ok(attribute) => Ok(Some(attribute)),
            Err(Fault::Memory) => Err(Fault::Memory),
            Err(Fault::TooDeep) => Err(Fault::TooDeep),
            Err(Fault::Refused(_)) => {
                self.set_rest(line);
                Ok(None)
            }
        }
    }

    /// Whether this line may be an attribute: a dot stands after its spaces.
    pub fn is_attribute_line(&self) -> bool
        ensures { result ≡ w.begins_with w.dot (w.skip_spaces self.now.rest.now) }
    {
        let line = self.bytes();
        let spaces = words::blank_inline_len(line);
        words::begins_with(&line[spaces..], b'.')
    }

    /// Production `Attribute`, from the start of its line on.
    ///
    /// # Errors
    /// [`Fault`] if no attribute is there, memory runs out, or the value nests past the budget of
    /// the stack; the parser then stands where reading stopped.
    #[tactic(auto, using(crate::proofs::Failing::handed, fluent_tokens::proofs::Counted::cuts), unfolding(crate::specs::Entries::attribute_by))]
    pub fn get_attribute(&mut self) -> Result<Attribute<S>, Fault>
        requires dot { w.begins_with w.dot (w.skip_spaces self.old.rest.now) ≡ true }
        ensures gives { Reads (attribute_view S T.text) self.old self.new result attribute_by }
        ensures deep { IfTooDeep result (PastSomewhere self.old) }
        ensures advances { Advances self.old self.new }
    {
        self.skip_blank_inline();
        self.advance(1);
        let Head { id, value } = self.get_head()?;
        match value {
            Some(value) => Ok(Attribute { id, value }),
            None => Err(Fault::Refused(ErrorKind::MissingValue)),
        }
    }
}

/// What a message, a term or an attribute begins with.
#[derive(Drop)]
struct Head<S> {
    id: Identifier<S>,
    value: Option<Pattern<S>>,
}
