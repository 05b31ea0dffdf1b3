//! Labels of entries and attributes.
#![tactic(auto)]

ghost use Rattle.std.specs.Prelude.{Some};
ghost use Rattle.lint_entries.specs.Labels.{label_text};

use std::fmt;

/// An entry or one of its attributes, as `-brand.case`.
#[derive(Clone, Copy)]
pub struct Label<'s> {
    /// A minus for a term.
    pub sign: &'static str,
    pub id: &'s str,
    pub attribute: Option<&'s str>,
}

impl fmt::Display for Label<'_> {
    ghost output = { λ label. Some (label_text label) };

    fn fmt<W: fmt::Write>(&self, f: &mut fmt::Formatter<W>) -> fmt::Result {
        match self.attribute {
            Some(name) => write!(f, "{}{}.{name}", self.sign, self.id),
            None => write!(f, "{}{}", self.sign, self.id),
        }
    }
}
