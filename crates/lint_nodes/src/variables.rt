//! The variables that a message is shown with.
#![tactic(auto)]

ghost use Rattle.std.specs.Prelude.{◌≡◌, IfOk, Some};
ghost use Rattle.fluent_ast.specs.Borrowed.{message_of};
ghost use Rattle.fluent_ids.specs.Found.{message_in};
ghost use Rattle.fluent_ids.specs.IdsView.{ids_view};
ghost use Rattle.fluent_meaning.specs.Ids.{find};
ghost use Rattle.lint_nodes.specs.HasNames.{HasNames};
ghost use Rattle.lint_nodes.specs.HasReached.{AreOwn};
ghost use Rattle.lint_findings.specs.Comparison as c;

use crate::name_set::Names;
use crate::reached::Reached;
use fluent_ast::Message;
use fluent_ids::FluentIds;
use std::alloc::{AllocError, Global};

/// The variables of a message and of all that it refers to, at any remove: first its own, then
/// those of the messages that it names, then those of the messages that these name, and so on. An
/// id that isn't that of a message has none.
///
/// Each message is looked up once, so it takes time in proportion to what the message refers to.
///
/// # Errors
/// [`AllocError`] if memory runs out; nothing is kept.
pub fn variables_of<'i, 's: 'i, F>(
    alloc: Global,
    ids: &FluentIds<'_, 's, F>,
    id: &'i str,
) -> Result<Names<'i>, AllocError>
    ensures { IfOk result (λ names. HasNames names (c.variables_of (ids_view F ids.now) id.now)) }
{
    let mut reached = Reached::new(alloc);
    reached.messages.add(id)?;
    let mut next = 0;
    while next < reached.messages.list.len() {
        let message = reached.messages.list[next];
        reached.add_referred(ids, message)?;
        next += 1;
    }
    Ok(reached.variables)
}

/// The variables that a message is shown with whose id stands for this one. It isn't looked up
/// again, if it refers to no other.
///
/// # Errors
/// [`AllocError`] if memory runs out; nothing is kept.
pub fn variables_of_message<'i, 's: 'i, F>(
    alloc: Global,
    ids: &FluentIds<'_, 's, F>,
    id: &'i str,
    message: &Message<&'s str>,
) -> Result<Names<'i>, AllocError>
    requires { message_in (find (ids_view F ids.now) id.now) ≡ Some (message_of message.now) }
    ensures { IfOk result (λ names. HasNames names (c.variables_of (ids_view F ids.now) id.now)) }
{
    match own_variables(alloc, message)? {
        Some(variables) => Ok(variables),
        None => variables_of(alloc, ids, id),
    }
}

/// The variables of a message, if it refers to no message.
fn own_variables<'i, 's: 'i>(
    alloc: Global,
    message: &Message<&'s str>,
) -> Result<Option<Names<'i>>, AllocError>
    ensures { IfOk result (AreOwn (message_of message.now)) }
{
    let mut reached = Reached::new(alloc);
    reached.add_message(message)?;
    if reached.messages.list.is_empty() {
        Ok(Some(reached.variables))
    } else {
        Ok(None)
    }
}
