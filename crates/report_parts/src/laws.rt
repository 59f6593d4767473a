//! The law of reports under the core profile.

ghost use Rattle.report_parts.specs.CoreReportLaws.{CoreReportLaws};

/// Under the core profile a report has no member for the profile, and none for what the rules allow.
pub fn core_report_law()
    ensures { CoreReportLaws }
{}
