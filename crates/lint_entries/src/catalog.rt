//! A catalog, as its entries are linted in it.

ghost use Rattle.lint_entries.specs.CommonIn.{AreCommonIn};

use fluent_plurals::LanguagePlurals;
use lint_findings::CatalogIds;
use lint_flaws::CommonCategories;
use lint_nodes::EndlessPatterns;

/// A catalog: its ids with what they stand for and which of their references never end, the ids of
/// its reference, and the plural rules of its language, if missing plural categories are to be
/// found.
#[derive(Clone, Copy)]
pub struct Catalog<'c, 'r, 's> {
    pub endless: &'c EndlessPatterns<'c, 'r, 's>,
    /// The ids of the reference, with what they stand for. Without a reference there is no message.
    pub reference: &'c CatalogIds<'r, 's>,
    pub plurals: Option<LanguagePlurals>,
    /// The categories that are common by these rules.
    pub common: CommonCategories,
    ghost in_language: { AreCommonIn plurals common },
}
