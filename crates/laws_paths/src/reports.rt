//! Laws of the reports of what prevents a path (`certpath_run`): of given inputs one text is right,
//! and one outcome. Each is a function that does nothing: its contract is the law, with examples
//! that meet its premises.

ghost use Rattle.std.specs.Prelude.{◌≡◌, ℕ, List, Some, []};
ghost use Rattle.std.specs.Global.{Global};
ghost use Rattle.cert_framing.specs.Held.{Framed};
ghost use Rattle.cert_vouchers.specs.declared.vouchers.Vouchers.{Vouchers};
ghost use Rattle.certpath_inputs.specs.Demands.{demand_lines, of_purpose};
ghost use Rattle.certpath_inputs.specs.declared.demand.AskedPurpose.{AskedPurpose};
ghost use Rattle.certpath_inputs.specs.declared.demand.Demand.{Demand};
ghost use Rattle.certpath_run.specs.EmptyReports.{no_items};
ghost use Rattle.certpath_run.specs.Runs.{IsWhyOn, IsWhyReportFor};
ghost use Rattle.certpath_run.specs.declared.settings.Outcome.{Outcome};
ghost use Rattle.certpath_run.specs.declared.settings.Outcome.TheVariants.{NoPath, NoTarget};
ghost use Rattle.certpath_run.specs.declared.settings.Settings.{Settings};
ghost use Rattle.laws_paths.specs.Reports.{alone, alone_settings, empty_why, one_anchor, why_of_an_anchor, why_of_one_alone};

/// Bundle, anchors, vouchers and settings have one report of what prevents a path: two texts that
/// are right are equal, and so are their outcomes.
///
/// The first example has neither items nor anchors. In the second one the anchor is an empty
/// SEQUENCE, `30 00`, and the report has the line of its fault. In the third one the bundle is a
/// certificate whose issuer isn't there.
pub fn one_report_of_why()
    ensures one { (settings : Settings) (items anchors : Framed) (pairs : Vouchers) (text another : List ℕ) (outcome other : Outcome)
        → IsWhyOn settings outcome items anchors pairs text → IsWhyOn settings other items anchors pairs another → (text ≡ another) × (outcome ≡ other) }
    ensures example { (settings : Settings) (pairs : Vouchers) → IsWhyOn settings NoTarget no_items no_items pairs (empty_why []) }
    ensures example_of_a_fault { (settings : Settings) (pairs : Vouchers) → IsWhyOn settings NoTarget no_items one_anchor pairs why_of_an_anchor }
    ensures example_of_a_certificate { (alloc : Global) (pairs : Vouchers) → IsWhyOn alone_settings NoPath alone no_items pairs why_of_one_alone }
{}

/// They have one report of what prevents a path if a purpose and a host may be demanded, whichever
/// permits the demand is judged by. The example demands any purpose.
pub fn one_report_of_why_for()
    ensures one { (settings : Settings) (demand : Demand) (items anchors : Framed) (pairs : Vouchers) (text another : List ℕ) (outcome other : Outcome)
        → IsWhyReportFor settings demand outcome items anchors pairs text → IsWhyReportFor settings demand other items anchors pairs another → (text ≡ another) × (outcome ≡ other) }
    ensures example { (settings : Settings) (purpose : AskedPurpose) (pairs : Vouchers)
        → IsWhyReportFor settings (of_purpose (Some purpose)) NoTarget no_items no_items pairs (empty_why (demand_lines (of_purpose (Some purpose)))) }
{}
