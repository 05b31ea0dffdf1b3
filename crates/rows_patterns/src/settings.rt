//! How the bundles of rows are set.

use crate::json::is_set;
use crate::own::Function;
use serde_json::Value as Json;

const FUNCTIONS: [(&str, Function); 3] = [
    ("STRLEN", Function::Length),
    ("FIRST", Function::First),
    ("NAMED", Function::Named),
];

/// What a bundle holds beside its resource and `NUMBER`, and how it is set.
#[derive(Clone, Copy)]
pub struct Settings {
    /// Whether placeables stand between marks.
    pub isolating: bool,
    /// Whether the last entry of an id stays, and not the first.
    pub overriding: bool,
    /// Whether it has the program's functions.
    pub functions: bool,
    /// Whether texts become capitals.
    pub transform: bool,
    /// Whether values are put in brackets.
    pub formatter: bool,
}

impl Settings {
    /// The settings of a row.
    pub fn of(json: &Json) -> Settings {
        Settings {
            isolating: is_set(json, "isolating", true),
            overriding: is_set(json, "overriding", false),
            functions: is_set(json, "functions", false),
            transform: is_set(json, "transform", false),
            formatter: is_set(json, "formatter", false),
        }
    }

    /// The program's functions, by their names, if a bundle is to have them.
    pub fn functions(self) -> &'static [(&'static str, Function)] {
        if self.functions { &FUNCTIONS } else { &[] }
    }
}
