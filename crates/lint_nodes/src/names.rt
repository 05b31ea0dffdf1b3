//! The names that a tree has.
#![tactic(auto)]

ghost use Rattle.std.specs.Prelude.{◌≡◌, option_map};
ghost use Rattle.fluent_ast.specs.Borrowed.{entry_of, key_of, name_of as bytes_of_name};
ghost use Rattle.lint_findings.specs.DuplicateIds.{id_of};
ghost use Rattle.lint_findings.specs.FlawWords.{key_text as text_of_key};

use fluent_ast::{Entry, Identifier, VariantKey};

/// The id of an entry, a term's without its minus. Only messages and terms have one.
pub fn declared_id<'s>(entry: &Entry<&'s str>) -> Option<&'s str>
    ensures { option_map (λ s. s.now) result ≡ id_of (entry_of entry.now) }
{
    match entry {
        Entry::Message(message) => Some(message.id.name),
        Entry::Term(term) => Some(term.id.name),
        _ => None,
    }
}

/// The name of an attribute, if it is there.
pub fn name_of<'s>(attribute: &Option<Identifier<&'s str>>) -> Option<&'s str>
    ensures { option_map (λ s. s.now) result ≡ option_map bytes_of_name attribute.now }
{
    match attribute {
        Some(name) => Some(name.name),
        None => None,
    }
}

/// The key of a variant, as it is written.
pub fn key_text<'s>(key: &VariantKey<&'s str>) -> &'s str
    ensures { result.now ≡ text_of_key (key_of key.now) }
{
    match key {
        VariantKey::Identifier { name } => name,
        VariantKey::NumberLiteral { value } => value,
    }
}
