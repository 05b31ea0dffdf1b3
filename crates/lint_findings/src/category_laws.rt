//! A law of plural categories that selects lack: the function only carries it, as its contract.

ghost use Rattle.lint_findings.specs.CategoryLaws.{MissingCategoriesAreTaken};

/// A select has no variant for a category that it is said to lack, and by the rule of its selector
/// some whole number below 1,000 has the category.
pub fn missing_categories_are_taken()
    ensures { MissingCategoriesAreTaken }
{}
