//! Rows of numbers: which texts are numbers, what numbers are written as, their integers, operands,
//! categories and options.

mod conversions;
mod copies;
pub mod operands;
mod written;

use rows_common::Row;
use std::alloc::Global;

/// What the rows of a file say of numbers.
#[derive(Clone, Copy)]
pub enum Rows {
    /// Which parts make decimals.
    Parts,
    /// Which integers numbers are cut to.
    Cut,
    /// Which integers come back from their numbers, if they have any.
    Back,
    /// Which texts are numbers.
    Read,
    /// Which texts are none.
    Refused,
    /// What numbers are written as with so many digits at least.
    Filled,
    /// How many digits are too many.
    TooMany,
    /// The operands of numbers.
    Operands,
    /// The plural categories of numbers in English.
    Categories,
    /// Which numbers differ.
    Differing,
    /// Which numbers, with their options, equal their copies.
    Copied,
}

pub const FILES: [(&str, Rows); 11] = [
    ("values/parts.txt", Rows::Parts),
    ("values/cut.txt", Rows::Cut),
    ("values/back.txt", Rows::Back),
    ("values/read.txt", Rows::Read),
    ("values/no_numbers.txt", Rows::Refused),
    ("values/filled.txt", Rows::Filled),
    ("values/too_many.txt", Rows::TooMany),
    ("values/operands.txt", Rows::Operands),
    ("values/categories.txt", Rows::Categories),
    ("values/differing.txt", Rows::Differing),
    ("values/copied.txt", Rows::Copied),
];

impl Rows {
    /// Whether what a row says is so; none where it is no such row, or memory ran out.
    pub fn is_right(self, alloc: Global, row: Row<'_>) -> Option<bool> {
        match self {
            Rows::Parts => conversions::are_parts(row),
            Rows::Cut => conversions::is_cut(row),
            Rows::Back => conversions::is_back(row),
            Rows::Read => written::is_read(alloc, row),
            Rows::Refused => written::is_refused(alloc, row),
            Rows::Filled => written::is_filled(alloc, row),
            Rows::TooMany => written::is_too_long(alloc, row),
            Rows::Operands => operands::are_operands(row),
            Rows::Categories => operands::are_categories(row),
            Rows::Differing => written::are_differing(row),
            Rows::Copied => copies::is_copied(alloc, row),
        }
    }
}
