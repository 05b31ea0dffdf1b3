//! What an expression refers to.

ghost use Rattle.std.specs.Prelude.{◌≡◌, IfOk, option_map, option_copied, string_bytes};
ghost use Rattle.fluent_ast.specs.View.{inline_view, name_of};
ghost use Rattle.fluent_errors.specs.Errors.{reference_of};
ghost use Rattle.fluent_errors.specs.View.{reference_view};

use fluent_ast::{Identifier, InlineExpression};
use fluent_text::Slice;
use std::alloc::{AllocError, Global};

/// What an expression refers to, by names without `-` and `$`.
///
/// ```
/// if let FluentError::ResolverError(
///     ResolverError::Reference(ReferenceKind::Variable { id }),
/// ) = error
/// {
///     println!(rt; "missing: {id}")?; // missing: count
/// }
/// ```
#[derive(Debug, PartialEq, Eq, Drop)]
pub enum ReferenceKind {
    Function {
        id: String,
    },
    /// A message, or the attribute of this name that it has.
    Message {
        id: String,
        attribute: Option<String>,
    },
    /// A term, or the attribute of this name that it has.
    Term {
        id: String,
        attribute: Option<String>,
    },
    Variable {
        id: String,
    },
}

impl ReferenceKind {
    /// What an expression refers to, with names copied; `None` for a literal and for a placeable.
    ///
    /// # Errors
    /// [`AllocError`] if memory runs out; nothing is kept.
    pub fn of<'s, S: Slice<'s>>(
        alloc: Global,
        expression: &InlineExpression<S>,
    ) -> Result<Option<Self>, AllocError>
        ensures { IfOk result (λ kind. option_map reference_view kind
            ≡ reference_of (inline_view S S.text expression.now)) }
    {
        Ok(Some(match expression {
            InlineExpression::FunctionReference { id, arguments: _ } => ReferenceKind::Function {
                id: String::from_str(alloc, id.name.as_str())?,
            },
            InlineExpression::MessageReference { id, attribute } => ReferenceKind::Message {
                id: String::from_str(alloc, id.name.as_str())?,
                attribute: copied(alloc, attribute_name(attribute.as_ref()))?,
            },
            InlineExpression::TermReference {
                id,
                attribute,
                arguments: _,
            } => ReferenceKind::Term {
                id: String::from_str(alloc, id.name.as_str())?,
                attribute: copied(alloc, attribute_name(attribute.as_ref()))?,
            },
            InlineExpression::VariableReference { id } => ReferenceKind::Variable {
                id: String::from_str(alloc, id.name.as_str())?,
            },
            InlineExpression::StringLiteral { value: _ }
            | InlineExpression::NumberLiteral { value: _ }
            | InlineExpression::Placeable { expression: _ } => return Ok(None),
        }))
    }

    /// The same reference.
    ///
    /// # Errors
    /// [`AllocError`] if memory runs out; nothing is kept.
    pub fn try_clone(&self, alloc: Global) -> Result<Self, AllocError>
        ensures { IfOk result (λ copy. reference_view copy ≡ reference_view self.now) }
    {
        Ok(match self {
            ReferenceKind::Function { id } => ReferenceKind::Function {
                id: String::from_str(alloc, id.as_str())?,
            },
            ReferenceKind::Message { id, attribute } => ReferenceKind::Message {
                id: String::from_str(alloc, id.as_str())?,
                attribute: copied(alloc, attribute.as_deref())?,
            },
            ReferenceKind::Term { id, attribute } => ReferenceKind::Term {
                id: String::from_str(alloc, id.as_str())?,
                attribute: copied(alloc, attribute.as_deref())?,
            },
            ReferenceKind::Variable { id } => ReferenceKind::Variable {
                id: String::from_str(alloc, id.as_str())?,
            },
        })
    }
}

/// The name of an attribute, if there is one.
fn attribute_name<'n, 's, S: Slice<'s>>(attribute: Option<&'n Identifier<S>>) -> Option<&'n str>
    ensures { option_copied result ≡ option_map (name_of S S.text) (option_copied attribute.entry) }
{
    match attribute {
        Some(id) => Some(id.name.as_str()),
        None => None,
    }
}

/// A copy of a text, if there is one.
fn copied(alloc: Global, text: Option<&str>) -> Result<Option<String>, AllocError>
    ensures { IfOk result (λ copy. option_map string_bytes copy ≡ option_copied text.entry) }
{
    match text {
        Some(text) => Ok(Some(String::from_str(alloc, text)?)),
        None => Ok(None),
    }
}
