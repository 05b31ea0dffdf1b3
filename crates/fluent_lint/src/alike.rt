//! Findings that the reference has as well.
#![tactic(auto)]

ghost use Rattle.std.specs.Prelude.{◌≡◌, map};
ghost use Rattle.lint_findings.specs.View.{finding_view};
ghost use Rattle.lint_report.specs.View.{optional_text};
ghost use Rattle.fluent_lint.specs.Pairs.{are_alike, is_known, same_entry};
ghost use Rattle.fluent_lint.specs.Translated.{KeepsNew};

use lint_findings::Finding;

/// Leaves out the findings that are like one of those that are known.
pub fn keep_new(findings: &mut Vec<Finding>, known: &[Finding])
    ensures { KeepsNew known.now findings.old findings.new }
{
    findings.retain(|finding| !is_known(finding, known));
}

/// Whether a finding is like one of those that are known.
fn is_known(finding: &Finding, known: &[Finding]) -> bool
    ensures { result ≡ is_known (map finding_view known.now) (finding_view finding.now) }
{
    known.iter().any(|other| are_alike(finding, other))
}

/// Whether two findings say the same of an entry of the same name. That an id is taken is said with
/// a place, which makes no difference.
fn are_alike(one: &Finding, other: &Finding) -> bool
    ensures { result ≡ are_alike (finding_view one.now) (finding_view other.now) }
{
    one.code == other.code
        && is_same_entry(&one.entry, &other.entry)
        && (one.code == "duplicate-id" || one.text == other.text)
}

/// Whether both are of an entry, and of the same.
fn is_same_entry(one: &Option<String>, other: &Option<String>) -> bool
    ensures { result ≡ same_entry (optional_text one.now) (optional_text other.now) }
{
    match (one, other) {
        (Some(one), Some(other)) => one.as_str() == other.as_str(),
        _ => false,
    }
}
