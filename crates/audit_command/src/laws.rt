// That an audit has one outcome.
ghost use Rattle.std.specs.Prelude.{◌≡◌, ℕ, List};
ghost use Rattle.script_text.specs.declared.script.Group.{Group};
ghost use Rattle.report_text.specs.declared.report.Report.{Report};
ghost use Rattle.command_ends.specs.AuditText.{IsFirstAtFault, IsReportText};

/// The text of a report of its own log has no line at fault, so an audit of the same bytes cannot come out in both
/// ways; and bytes have at most one first line at fault.
pub fn law_of_audits()
    ensures held { (groups : List Group) (files : List (ℕ × List ℕ)) (bytes : List ℕ) (report : Report) (line : ℕ)
        → IsReportText groups files bytes report → IsFirstAtFault groups files bytes line → ⊥ }
    ensures one { (groups : List Group) (files : List (ℕ × List ℕ)) (bytes : List ℕ) (first second : ℕ)
        → IsFirstAtFault groups files bytes first → IsFirstAtFault groups files bytes second → first ≡ second }
{}
