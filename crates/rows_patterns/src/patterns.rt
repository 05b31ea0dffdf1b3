//! Rows of messages that are asked for, and what they must give.
//!
//! `source` and `id`, usually `m`, say what is asked for, unless the pattern is made by hand.
//! `args` are the arguments by name. `text` is what `format_pattern` gives, or `null` where there
//! is no such pattern, `written` what is written where it differs, and `errors` has the texts of
//! the errors. The settings stand by their names; placeables are isolated where `isolating` isn't
//! `false`.

use crate::asking::Asked;
use crate::bundle::{Bundle, is_added, pattern_in, read};
use crate::json::text_in;
use crate::own::{Args, Brackets, Capitals};
use crate::settings::Settings;
use crate::values::arguments_of;
use crate::wanted::Wanted;
use fluent_ast::Pattern;
use fluent_bundle::{EnglishPlurals, FluentResource, TextTransform};
use serde_json::Value as Json;
use std::alloc::{AllocError, Global};

/// A pattern that is asked for, and what it must give, if it is there.
#[derive(Clone, Copy)]
struct Row<'row> {
    source: &'row str,
    id: &'row str,
    settings: Settings,
    wanted: Option<Wanted<'row>>,
    json: &'row Json,
}

/// Whether what a row says is so. The only error is that memory runs out.
pub fn is_right(alloc: Global, json: &Json) -> Result<bool, AllocError> {
    match Row::of(json) {
        Some(row) => row.is_right_with(alloc, None),
        None => Ok(false),
    }
}

/// The same, of a row whose pattern is made by hand.
pub fn is_right_of<'row>(
    alloc: Global,
    json: &'row Json,
    pattern: &Pattern<&'row str>,
) -> Result<bool, AllocError> {
    match Row::of(json) {
        Some(row) => row.is_right_with(alloc, Some(pattern)),
        None => Ok(false),
    }
}

impl<'row> Row<'row> {
    /// The row that an object is.
    fn of(json: &'row Json) -> Option<Row<'row>> {
        Some(Row {
            source: text_in(json, "source")?,
            id: text_in(json, "id").unwrap_or("m"),
            settings: Settings::of(json),
            wanted: Wanted::of(json),
            json,
        })
    }

    /// Whether the pattern, which may be made by hand, gives what it must. The only error is that
    /// memory runs out.
    fn is_right_with(
        self,
        alloc: Global,
        tree: Option<&Pattern<&'row str>>,
    ) -> Result<bool, AllocError> {
        let resource = read(alloc, self.source)?;
        self.is_right_in(alloc, tree, &resource)
    }

    /// The same, where the source is read.
    fn is_right_in<'r>(
        self,
        alloc: Global,
        tree: Option<&'r Pattern<&'row str>>,
        resource: &'r FluentResource<'row>,
    ) -> Result<bool, AllocError> {
        let settings = self.settings;
        let mut transform: Option<Box<dyn TextTransform>> = None;
        if settings.transform {
            transform = Some(Box::new(alloc, Capitals)?);
        }
        let mut bundle = Bundle::new(alloc, Vec::new(alloc), EnglishPlurals);
        bundle.set_transform(transform);
        bundle.set_use_isolating(settings.isolating);
        bundle.set_formatter(settings.formatter.then_some(Brackets));
        let mut has_functions = bundle.add_builtins().is_ok();
        for &(name, function) in settings.functions() {
            has_functions &= bundle.add_function(name, function).is_ok();
        }
        let has_entries = if settings.overriding {
            bundle.add_resource_overriding(resource).is_ok()
        } else {
            is_added(bundle.add_resource(resource))
        };
        if has_functions && has_entries {
            self.is_right_of(alloc, &bundle, tree)
        } else {
            Err(AllocError)
        }
    }

    /// The same, where the bundle is made.
    fn is_right_of<'r>(
        self,
        alloc: Global,
        bundle: &Bundle<'r, 'row>,
        tree: Option<&'r Pattern<&'row str>>,
    ) -> Result<bool, AllocError> {
        let arguments = arguments_of(alloc, self.json.get("args"))?;
        self.is_right_with_arguments(alloc, bundle, arguments.as_ref(), tree)
    }

    /// The same, where the arguments are made.
    fn is_right_with_arguments<'r>(
        self,
        alloc: Global,
        bundle: &Bundle<'r, 'row>,
        arguments: Option<&Args<'row>>,
        tree: Option<&'r Pattern<&'row str>>,
    ) -> Result<bool, AllocError> {
        let Some(wanted) = self.wanted else {
            return Ok(pattern_in(bundle, self.id).is_none());
        };
        match tree.or(pattern_in(bundle, self.id)) {
            Some(pattern) => Asked {
                bundle,
                pattern,
                arguments,
            }
            .gives(alloc, wanted),
            None => Ok(false),
        }
    }
}
