//! The ids of a catalog.

use fluent_ids::FluentIds;

/// The ids of a catalog, with the entries or functions that they stand for. A function is known by
/// its id alone: what it does makes no difference to findings.
pub type CatalogIds<'r, 's> = FluentIds<'r, 's, ()>;
