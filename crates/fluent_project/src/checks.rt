//! What the patterns of a reference and of its translations have to share.

ghost use Rattle.std.specs.Prelude.{◌≡◌, ◌↔◌, ◌∷◌, [], IfSome, IsTrue, None};
ghost use Rattle.fluent_project.specs.Checks.{has_locale, has_no_wildcard, has_wildcard};
ghost use Rattle.fluent_project.specs.Laws.{wildcards};

use crate::part::{Part, Wildcard};

/// Whether the wildcards of a pattern are those of another, in the same order.
pub fn have_same_wildcards(parts: &[Part], others: &[Part]) -> bool
    ensures { IsTrue result ↔ (wildcards parts.now ≡ wildcards others.now) }
{
    match parts {
        [] => first_wildcard(others).is_none(),
        [Part::Wildcard(wildcard), parts @ ..] => match first_wildcard(others) {
            Some((other, others)) => *wildcard == other && have_same_wildcards(parts, others),
            None => false,
        },
        [_, parts @ ..] => have_same_wildcards(parts, others),
    }
}

/// The first wildcard of a pattern, and what follows it.
fn first_wildcard(parts: &[Part]) -> Option<(Wildcard, &[Part])>
    ensures found { IfSome result (λ found. wildcards parts.now ≡ found.0 ∷ wildcards found.1.now) }
    ensures none { result ≡ None → wildcards parts.now ≡ [] }
{
    match parts {
        [] => None,
        [Part::Wildcard(wildcard), rest @ ..] => Some((*wildcard, rest)),
        [_, rest @ ..] => first_wildcard(rest),
    }
}

/// Whether a pattern has no wildcard.
pub fn has_no_wildcard(parts: &[Part]) -> bool
    ensures { result ≡ has_no_wildcard parts.now }
{
    !has_wildcard(parts)
}

/// Whether a pattern has a wildcard.
fn has_wildcard(parts: &[Part]) -> bool
    ensures { result ≡ has_wildcard parts.now }
{
    parts.iter().any(|part| matches!(part, Part::Wildcard(_)))
}

/// Whether a pattern holds `{locale}`.
pub fn has_locale(parts: &[Part]) -> bool
    ensures { result ≡ has_locale parts.now }
{
    parts.iter().any(|part| matches!(part, Part::Locale))
}
