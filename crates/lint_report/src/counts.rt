//! How many findings of a code the files of each name have.

ghost use Rattle.std.specs.Prelude.{◌≡◌, IfOk, OnOk, count_by, string_bytes, unwrap_or};
ghost use Rattle.std.specs.HashMap.{get_by_text};
ghost use Rattle.lint_report.specs.Counted.{AreCounts, IsAdded, has_code};

use lint_findings::{FileFindings, Finding};
use std::alloc::{AllocError, Global};
use std::collections::HashMap;

/// How many findings of this code there are, by the name of their file.
pub(crate) fn counts_by_name(
    alloc: Global,
    findings: &[FileFindings],
    code: &str,
) -> Result<HashMap<String, usize>, AllocError>
    ensures { IfOk result (λ counts. AreCounts code.now findings.now counts) }
{
    let mut counts = HashMap::new(alloc);
    for file in findings {
        let name = String::from_str(alloc, file.file.name)?;
        add(&mut counts, name, count_of(&file.findings, code))?;
    }
    Ok(counts)
}

/// Adds to the count of a name. More than `usize` can count don't fit in memory.
fn add(counts: &mut HashMap<String, usize>, name: String, count: usize) -> Result<(), AllocError>
    ensures { OnOk result (IsAdded counts.old counts.new (string_bytes name) count) }
{
    let total = counts.entry(name)?.or_insert(0);
    match total.checked_add(count) {
        Some(sum) => {
            *total = sum;
            Ok(())
        }
        None => Err(AllocError),
    }
}

/// How many of some findings have this code.
fn count_of(findings: &[Finding], code: &str) -> usize
    ensures { result ≡ count_by (has_code code.now) findings.now }
{
    findings
        .iter()
        .filter(|finding| finding.code == code)
        .count()
}

/// The count of a name.
pub(crate) fn count_for(counts: &HashMap<String, usize>, name: &str) -> usize
    ensures { result ≡ unwrap_or (get_by_text counts.now name.now) 0 }
{
    counts.get(name).copied().unwrap_or(0)
}
