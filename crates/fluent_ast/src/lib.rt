//! The tree of a Fluent source over a text type `S`.
//!
//! A reader makes it of slices of a source (`S` is `&str`) or of texts of its own (`S` is
//! `String`). The names in backquotes after "production" are those of Fluent Syntax 1.0. Contracts
//! speak of a tree through its plain tree, the data of the crate `fluent_grammar`:
//! `specs/View.antt` says which plain tree a tree stands for.
#![tactic(auto)]

ghost use Rattle.std.specs.Prelude.{◌≡◌, ℕ, List};
ghost use Rattle.fluent_grammar.specs.Tree.{arguments, no_inlines, no_nameds};
ghost use Rattle.fluent_ast.specs.View.{arguments_view};

mod clones;
mod copies;
pub mod laws;

use std::alloc::Global;

/// A source: its entries, in the order in which they are written. Production `Resource`.
///
/// ```no_run
/// let resource = parse(alloc, SOURCE)?;
/// println!(rt; "{} entries", resource.body.len())?; // 3 entries
/// ```
#[derive(Debug, PartialEq, Eq, Drop)]
pub struct Resource<S> {
    pub body: Vec<Entry<S>>,
}

/// One entry of a source. Productions `Entry` and `Junk`.
///
/// ```
/// for entry in &mut resource.body {
///     if let Entry::Message(message) = entry {
///         if message.id.name == id {
///             message.value = Some(plain_pattern(alloc, text)?);
/// ..
///         }
///     }
/// }
/// ```
#[derive(Debug, PartialEq, Eq, Drop)]
pub enum Entry<S> {
    Message(Message<S>),
    Term(Term<S>),
    /// A standalone comment, of lines with `#`.
    Comment(Comment<S>),
    /// A comment on the entries after it, of lines with `##`.
    GroupComment(Comment<S>),
    /// A comment on the whole source, of lines with `###`.
    ResourceComment(Comment<S>),
    /// A stretch of the source in which no entry could be read, as it is written.
    Junk { content: S },
}

/// A message: a value, attributes, or both. Production `Message`.
///
/// ```no_run
/// if let Entry::Message(message) = entry {
///     let count = message.attributes.len();
///     println!(rt; "{} has {count} attributes", message.id.name)?; // welcome has 2 attributes
/// }
/// ```
#[derive(Debug, PartialEq, Eq, Drop)]
pub struct Message<S> {
    pub id: Identifier<S>,
    /// None for a message of attributes alone.
    pub value: Option<Pattern<S>>,
    pub attributes: Vec<Attribute<S>>,
    /// The comment right above the message.
    pub comment: Option<Comment<S>>,
}

/// A term, a text for use in other texts. Production `Term`.
///
/// ```no_run
/// if let Entry::Term(term) = entry {
///     println!(rt; "-{}", term.id.name)?; // -brand
/// }
/// ```
#[derive(Debug, PartialEq, Eq, Drop)]
pub struct Term<S> {
    /// The name without the minus sign.
    pub id: Identifier<S>,
    pub value: Pattern<S>,
    pub attributes: Vec<Attribute<S>>,
    /// The comment right above the term.
    pub comment: Option<Comment<S>>,
}

/// A value: text elements and placeables, in their order. Production `Pattern`.
///
/// ```
/// let mut elements = Vec::new(alloc);
/// elements.push(PatternElement::TextElement { value: text })?;
/// Ok(Pattern { elements })
/// ```
#[cycle(tree)]
#[derive(Debug, PartialEq, Eq, Drop)]
pub struct Pattern<S> {
    pub elements: Vec<PatternElement<S>>,
}

/// A part of a pattern. Production `PatternElement`.
///
/// ```
/// for element in &pattern.elements {
///     match element {
///         PatternElement::TextElement { value } => text.push_str(value)?,
///         PatternElement::Placeable { expression } => {
///             text.push('[')?;
///             scope.maybe_track(&mut text, pattern, expression)?;
///             text.push(']')?;
///         }
///     }
/// }
/// ```
#[cycle(tree)]
#[derive(Debug, PartialEq, Eq, Drop)]
pub enum PatternElement<S> {
    /// A text without its common indent. It ends with its line's line feed if another element
    /// follows.
    TextElement { value: S },
    /// An expression in braces.
    Placeable { expression: Expression<S> },
}

/// A named pattern of a message or a term. Production `Attribute`.
///
/// ```no_run
/// for attribute in &message.attributes {
///     println!(rt; ".{}", attribute.id.name)?; // .title, then .tooltip
/// }
/// ```
#[derive(Debug, PartialEq, Eq, Drop)]
pub struct Attribute<S> {
    pub id: Identifier<S>,
    pub value: Pattern<S>,
}

/// A name. Production `Identifier`.
///
/// ```
/// if message.id.name == id {
///     message.value = Some(plain_pattern(alloc, text)?);
/// ..
/// }
/// ```
#[derive(Debug, PartialEq, Eq, Drop)]
pub struct Identifier<S> {
    pub name: S,
}

/// One choice of a select expression. Productions `Variant` and `DefaultVariant`.
///
/// ```no_run
/// for variant in variants {
///     if variant.default {
///         let count = variant.value.elements.len();
///         println!(rt; "by default {count} elements")?; // by default 2 elements
///     }
/// }
/// ```
#[cycle(tree)]
#[derive(Debug, PartialEq, Eq, Drop)]
pub struct Variant<S> {
    pub key: VariantKey<S>,
    pub value: Pattern<S>,
    /// Whether the variant is marked with `*`.
    pub default: bool,
}

/// The key of a variant. Production `VariantKey`.
///
/// ```no_run
/// match &variant.key {
///     VariantKey::Identifier { name } => println!(rt; "name {name}")?, // name other
///     VariantKey::NumberLiteral { value } => println!(rt; "number {value}")?, // number 0
/// }
/// ```
#[derive(Debug, PartialEq, Eq, Drop)]
pub enum VariantKey<S> {
    Identifier { name: S },
    NumberLiteral { value: S },
}

/// A comment: its lines, each without its sign and the space after it. Production `CommentLine`.
///
/// ```no_run
/// if let Some(comment) = &message.comment {
///     for line in &comment.content {
///         println!(rt; "{line}")?; // Shown first.
///     }
/// }
/// ```
#[derive(Debug, PartialEq, Eq, Drop)]
pub struct Comment<S> {
    pub content: Vec<S>,
}

/// The arguments of a call. Production `CallArguments`.
///
/// ```no_run
/// if let InlineExpression::FunctionReference { id, arguments } = inline {
///     let count = arguments.positional.len();
///     println!(rt; "{} with {count} positional", id.name)?; // NUMBER with 1 positional
/// }
/// ```
#[cycle(tree)]
#[derive(Debug, PartialEq, Eq, Drop)]
pub struct CallArguments<S> {
    pub positional: Vec<InlineExpression<S>>,
    pub named: Vec<NamedArgument<S>>,
}

impl<S> CallArguments<S> {
    /// No arguments. It doesn't allocate, and succeeds.
    pub fn new(alloc: Global) -> Self
        ensures { (text_of : S → List ℕ) → arguments_view S text_of result
            ≡ arguments no_inlines no_nameds }
    {
        CallArguments {
            positional: Vec::new(alloc),
            named: Vec::new(alloc),
        }
    }
}

/// An argument with a name. Production `NamedArgument`.
///
/// ```no_run
/// for argument in &arguments.named {
///     println!(rt; "{}:", argument.name.name)?; // minimumFractionDigits:
/// }
/// ```
#[cycle(tree)]
#[derive(Debug, PartialEq, Eq, Drop)]
pub struct NamedArgument<S> {
    pub name: Identifier<S>,
    pub value: InlineExpression<S>,
}

/// An expression that isn't a select. Production `InlineExpression`.
///
/// ```no_run
/// if let InlineExpression::VariableReference { id } = inline {
///     println!(rt; "${}", id.name)?; // $name
/// }
/// ```
#[cycle(tree)]
#[derive(Debug, PartialEq, Eq, Drop)]
pub enum InlineExpression<S> {
    /// The raw text between the quotes, escapes as they are written.
    StringLiteral {
        value: S,
    },
    /// The digits, with the minus and the point if there are any.
    NumberLiteral {
        value: S,
    },
    FunctionReference {
        id: Identifier<S>,
        arguments: CallArguments<S>,
    },
    MessageReference {
        id: Identifier<S>,
        attribute: Option<Identifier<S>>,
    },
    /// The name without the minus sign. Arguments that are present may be empty.
    TermReference {
        id: Identifier<S>,
        attribute: Option<Identifier<S>>,
        arguments: Option<CallArguments<S>>,
    },
    /// The name without the dollar sign.
    VariableReference {
        id: Identifier<S>,
    },
    /// A placeable inside a placeable.
    Placeable {
        expression: Box<Expression<S>>,
    },
}

/// The expression of a placeable. Productions `SelectExpression` and `InlineExpression`.
///
/// ```no_run
/// match expression {
///     Expression::Inline(inline) => show_inline(rt, inline)?,
///     Expression::Select { selector, variants } => {
///         show_inline(rt, selector)?;
///         println!(rt; "{} variants", variants.len())?; // 2 variants
///     }
/// }
/// ```
#[cycle(tree)]
#[derive(Debug, PartialEq, Eq, Drop)]
pub enum Expression<S> {
    /// A choice among variants by the value of the selector.
    Select {
        selector: InlineExpression<S>,
        variants: Vec<Variant<S>>,
    },
    Inline(InlineExpression<S>),
}
