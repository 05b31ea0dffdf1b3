//! The missing messages of a catalog.
#![tactic(auto)]

ghost use Rattle.std.specs.Prelude.{All, OnOk};
ghost use Rattle.fluent_ids.specs.IdsView.{ids_view};
ghost use Rattle.fluent_lint.specs.FileTiles.{AreTilesOf};
ghost use Rattle.fluent_lint.specs.Missing.{AddsMissing};

use crate::tiles::FileTiles;
use lint_comparison::missing_findings;
use lint_findings::{CatalogIds, FileFindings};
use std::alloc::{AllocError, Global};

/// Adds the messages of the files of a reference that a catalog with these ids hasn't, file by
/// file.
///
/// # Errors
/// [`AllocError`] if memory runs out; some may be added then.
pub fn push_missing_messages<'s>(
    alloc: Global,
    ids: &CatalogIds<'_, '_>,
    references: &[FileTiles<'_, 's>],
    found: &mut Vec<FileFindings<'s>>,
) -> Result<(), AllocError>
    requires { All AreTilesOf references.now }
    ensures { OnOk result (AddsMissing (ids_view _ ids.now) references.now found.old found.new) }
{
    for file in references {
        let findings = missing_findings(alloc, ids, file.file.source, &file.tiles)?;
        found.push(FileFindings {
            file: file.file,
            findings,
        })?;
    }
    Ok(())
}
