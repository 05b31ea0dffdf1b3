//! The lines of notices.

ghost use Rattle.std.specs.Prelude.{◌≡◌, ◌++◌, OnOk, map, string_bytes};
ghost use Rattle.fluent_errors.specs.View.{bundle_view};
ghost use Rattle.fluent_check.specs.Report.{notice_line, notices_text};

use fluent_errors::FluentError;
use std::alloc::AllocError;

/// Puts the lines of notices after `text`.
pub(crate) fn push_notices(text: &mut String, notices: &[FluentError]) -> Result<(), AllocError>
    ensures { OnOk result (string_bytes text.new
        ≡ string_bytes text.old ++ notices_text (map bundle_view notices.now)) }
{
    for notice in notices {
        push_notice(text, notice)?;
    }
    Ok(())
}

/// Puts the line of a notice after `text`.
fn push_notice(text: &mut String, notice: &FluentError) -> Result<(), AllocError>
    ensures { OnOk result (string_bytes text.new
        ≡ string_bytes text.old ++ notice_line (bundle_view notice.now)) }
{
    writeln!(text, "{notice}")
}
