//! The ids of the messages of resources, and the names of a message's attributes, in lines.

ghost use Rattle.std.specs.Prelude.{◌≡◌, ◌++◌, [], IfOk, OnOk, string_bytes};
ghost use Rattle.fluent_ids.specs.MessageView.{message_of};
ghost use Rattle.fluent_ids.specs.ResourceEntries.{entries_in};
ghost use Rattle.fluent_meaning.specs.Ids.{entries_by_id, find};
ghost use Rattle.fluent_serve.specs.Frames.{ended};
ghost use Rattle.fluent_run.specs.DeskView.{plain_ids};
ghost use Rattle.fluent_run.specs.Listed.{AddsLine, IsIdOf, ListsMore, SeesOneMore};
ghost use Rattle.fluent_run.specs.Listing.{attribute_names, lines, message_lines};
ghost use Rattle.fluent_run.specs.ResourceIds.{all_by_id};

use fluent_ast::{Entry, Resource};
use fluent_ids::{FluentIds, FluentMessage};
use fluent_resource::FluentResource;
use std::alloc::{AllocError, Global};
use std::collections::HashSet;

/// The ids of messages so far, each in a line, and all ids so far.
#[derive(Drop)]
struct Listing<'s> {
    text: String,
    seen: HashSet<&'s str>,
}

impl<'s> Listing<'s> {
    /// A listing without ids. It doesn't allocate.
    fn new(alloc: Global) -> Self
        ensures text { string_bytes result.text ≡ [] }
        ensures seen { result.seen.keys ≡ [] }
    {
        Listing {
            text: String::new(alloc),
            seen: HashSet::new(alloc),
        }
    }

    /// Lists an id, if it is new and stands for a message.
    fn add<F>(&mut self, ids: &FluentIds<'_, 's, F>, id: &'s str) -> Result<(), AllocError>
        ensures text { OnOk result (AddsLine ids.now id.now self.old self.new) }
        ensures seen { OnOk result (SeesOneMore id.now self.old self.new) }
    {
        if self.seen.insert(id)? && ids.has_message(id) {
            push_line(&mut self.text, id)?;
        }
        Ok(())
    }

    /// Lists the messages and terms of a tree.
    fn add_all<F>(
        &mut self,
        ids: &FluentIds<'_, 's, F>,
        tree: &Resource<&'s str>,
    ) -> Result<(), AllocError>
        ensures { OnOk result (ListsMore ids.now (entries_by_id (entries_in tree.now)) self.old self.new) }
    {
        for entry in &tree.body {
            if let Some(id) = id_of(entry) {
                self.add(ids, id)?;
            }
        }
        Ok(())
    }
}

/// The id of a message or a term. Other entries have none.
fn id_of<'s>(entry: &Entry<&'s str>) -> Option<&'s str>
    ensures { IsIdOf entry.now result }
{
    match entry {
        Entry::Message(message) => Some(message.id.name),
        Entry::Term(term) => Some(term.id.name),
        _ => None,
    }
}

/// The ids of the messages of resources, each in a line, in the order of their first entries.
///
/// # Errors
/// [`AllocError`] if memory runs out; nothing is kept.
pub(crate) fn message_lines<'s, F>(
    alloc: Global,
    ids: &FluentIds<'_, 's, F>,
    resources: &[FluentResource<'s>],
) -> Result<String, AllocError>
    ensures { IfOk result (λ text. string_bytes text
        ≡ message_lines (find (plain_ids ids.now)) (all_by_id resources.now)) }
{
    let mut listing = Listing::new(alloc);
    for resource in resources {
        listing.add_all(ids, resource.tree())?;
    }
    Ok(listing.text)
}

/// The names of a message's attributes, each in a line, in their order.
///
/// # Errors
/// [`AllocError`] if memory runs out; nothing is kept.
pub(crate) fn name_lines(
    alloc: Global,
    message: &FluentMessage<'_, '_>,
) -> Result<String, AllocError>
    ensures { IfOk result (λ text. string_bytes text
        ≡ lines (attribute_names (message_of message.now))) }
{
    let mut text = String::new(alloc);
    for attribute in message.attributes() {
        push_line(&mut text, attribute.id())?;
    }
    Ok(text)
}

/// Appends a line.
fn push_line(text: &mut String, line: &str) -> Result<(), AllocError>
    ensures { OnOk result (string_bytes text.new ≡ string_bytes text.old ++ ended line.now) }
{
    text.push_str(line)?;
    text.push_str("\n")
}
