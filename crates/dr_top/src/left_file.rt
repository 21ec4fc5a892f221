//! The line that tells why a file is left.

ghost use Rattle.std.specs.Prelude.{◌≡◌};
ghost use Rattle.dr_formats.specs.Reports.{left_file_text};
ghost use Rattle.dr_reading.specs.LeftText.{told_cause};

use crate::report::Report;
use dr_outside::Cause;

/// `left file: CAUSE`.
pub fn left_file_report(cause: Cause) -> Report
    ensures { result ≡ left_file_text (told_cause cause) }
{
    let mut report = Report::new();
    report.push("left file: ");
    report.push(cause.name());
    report.push("\n");
    report
}
