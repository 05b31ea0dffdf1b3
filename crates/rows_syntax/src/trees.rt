//! Trees as JSON, and their written texts.

use crate::is_wanted;
use anyhow::{Context, Result};
use fluent_json::{from_value, to_value};
use fluent_syntax::ast::Resource;
use fluent_syntax::parser::Slice;
use fluent_syntax::serializer::{Options, serialize, serialize_with_options};
use serde_json::Value;
use std::alloc::Global;

/// Whether a row's tree is written as the row says, differs from its other one, and has its value.
pub fn agrees(alloc: Global, vector: &Value) -> Result<bool> {
    let value = vector.get("tree").context("a tree")?;
    let tree = tree_of(alloc, value)?;
    Ok(
        is_written(alloc, vector, &tree)?
            && differs(alloc, vector.get("other_tree"), &tree)?
            && has_value(alloc, tree, Some(value))?,
    )
}

fn tree_of(alloc: Global, value: &Value) -> Result<Resource<String>> {
    let tree = from_value(alloc, value)
        .ok()
        .context("the value of a tree")?;
    Ok(tree)
}

/// Whether a tree is written as the row says, with junk and without it.
pub fn is_written<'s, S: Slice<'s>>(
    alloc: Global,
    vector: &Value,
    tree: &Resource<S>,
) -> Result<bool> {
    Ok(is_written_without_junk(alloc, vector, tree)? && is_written_with_junk(alloc, vector, tree)?)
}

fn is_written_without_junk<'s, S: Slice<'s>>(
    alloc: Global,
    vector: &Value,
    tree: &Resource<S>,
) -> Result<bool> {
    let written = serialize(alloc, tree)?;
    Ok(is_text(vector.get("written"), &written))
}

fn is_written_with_junk<'s, S: Slice<'s>>(
    alloc: Global,
    vector: &Value,
    tree: &Resource<S>,
) -> Result<bool> {
    let written = serialize_with_options(alloc, tree, Options { with_junk: true })?;
    Ok(is_text(vector.get("written_with_junk"), &written))
}

/// Whether a tree is another one than the row's other tree, if it has one.
fn differs(alloc: Global, other: Option<&Value>, tree: &Resource<String>) -> Result<bool> {
    match other {
        Some(other) => Ok(tree_of(alloc, other)? != *tree),
        None => Ok(true),
    }
}

/// Whether a copy of a tree equals it, and has the wanted value once the tree is gone.
pub fn has_value(alloc: Global, tree: Resource<String>, wanted: Option<&Value>) -> Result<bool> {
    let copy = tree.try_clone(alloc)?;
    let is_equal = copy == tree;
    drop(tree);
    Ok(is_equal && is_wanted(wanted, &to_value(alloc, &copy)?))
}

/// Whether a text is the wanted one, if one is.
fn is_text(wanted: Option<&Value>, found: &str) -> bool {
    wanted.is_none_or(|wanted| wanted.as_str() == Some(found))
}
