//! How findings are made.

use lint_comparison::Reference;
use lint_entries::{Catalog, ReferredTerms};
use lint_findings::CatalogIds;

/// How the findings of a catalog are made.
#[derive(Clone, Copy)]
pub struct Rules<'c, 'r, 's> {
    /// The functions, which no entry may have the id of.
    pub functions: &'c CatalogIds<'r, 's>,
    pub catalog: Catalog<'c, 'r, 's>,
    /// The terms that the catalog refers to.
    pub terms: &'c ReferredTerms<'s>,
    /// The reference that entries that count are compared with, if there is one.
    pub reference: Option<Reference<'c, 'r, 's>>,
}
