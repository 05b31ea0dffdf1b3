//! Laws of the files that paths stand for: the function only carries a law, as its contract.

ghost use Rattle.ftl_files.specs.ListedLaws.{ListedAreOfPaths};

/// However paths are listed, the name of each file that is gone through is one of them, or begins
/// with one.
pub fn listed_names_begin_with_paths()
    ensures { ListedAreOfPaths }
{}
