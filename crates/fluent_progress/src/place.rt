//! Where resolving is.

ghost use Rattle.std.specs.Prelude.{◌≡◌};

use crate::context::Context;
use fluent_ids::FluentIds;
use fluent_value::{FluentArgs, FluentType};

/// What is handed down while a pattern is resolved: the messages and terms, what else it is
/// resolved in, and the arguments of the request and of the term. Each is lent for as long as the
/// pattern is resolved, and no longer.
#[derive(Drop)]
pub struct Surroundings<'b, 'r, 's, 'a, C, F, E>
where
    C: FluentType,
    E: Context<C, F>,
{
    pub ids: &'b FluentIds<'r, 's, F>,
    pub context: &'b E,
    /// The arguments of the request; `None` if they are those that the context has.
    pub arguments: Option<&'b FluentArgs<'a, C>>,
    /// Inside a term its own arguments, which are then the only ones.
    pub locals: Option<&'b FluentArgs<'s, C>>,
    // With it what the types mean is part of the place's own type, and contracts need not name it.
    ghost transforms: { E.has_transform ≡ E.has_transform },
}
