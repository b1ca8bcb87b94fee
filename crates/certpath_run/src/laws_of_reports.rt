//! Laws of reports: of given inputs one text is right, and one outcome. Each is a function that
//! does nothing: its contract is the law, with an example that meets its premises.

ghost use Rattle.std.specs.Prelude.{◌≡◌, ℕ, Bool, List, Some, []};
ghost use Rattle.std.specs.Global.{Global};
ghost use Rattle.cert_framing.specs.Held.{Framed};
ghost use Rattle.cert_judge.specs.Items.{rules_at};
ghost use Rattle.cert_model.specs.Fields.{CivilTime};
ghost use Rattle.cert_vouchers.specs.declared.vouchers.Vouchers.{Vouchers};
ghost use Rattle.certpath_inputs.specs.Demands.{demand_lines, of_purpose};
ghost use Rattle.certpath_inputs.specs.declared.demand.AskedPurpose.{AskedPurpose};
ghost use Rattle.certpath_inputs.specs.declared.demand.Demand.{Demand};
ghost use Rattle.certpath_inputs.specs.declared.settings.AllSettings.{AllSettings};
ghost use Rattle.certpath_run.specs.AllReport.{IsAllReportWith, IsAllReportOn, IsAllReportFor};
ghost use Rattle.certpath_run.specs.EmptyReports.{no_items, empty_report, empty_report_on_all};
ghost use Rattle.certpath_run.specs.Runs.{IsReportWith, IsReportOn, IsReportFor};
ghost use Rattle.certpath_run.specs.declared.settings.AllOutcome.{AllOutcome};
ghost use Rattle.certpath_run.specs.declared.settings.AllOutcome.TheVariants.{Each};
ghost use Rattle.certpath_run.specs.declared.settings.Outcome.{Outcome};
ghost use Rattle.certpath_run.specs.declared.settings.Outcome.TheVariants.{NoTarget};
ghost use Rattle.certpath_run.specs.declared.settings.Settings.{Settings};

use cert_judge::Vouch;

/// Bundle, anchors, vouchers and settings have one report on the target: two texts that are right
/// are equal, and so are their outcomes. The example has neither items nor anchors.
pub fn one_report()
    ensures one { (settings : Settings) (items anchors : Framed) (pairs : Vouchers) (text another : List ℕ) (outcome other : Outcome)
        → IsReportOn settings outcome items anchors pairs text → IsReportOn settings other items anchors pairs another → (text ≡ another) × (outcome ≡ other) }
    ensures example { (settings : Settings) (pairs : Vouchers) → IsReportOn settings NoTarget no_items no_items pairs (empty_report []) }
{}

/// They have one report on the target if a purpose and a host may be demanded, whichever permits
/// the demand is judged by. The example demands any purpose.
pub fn one_report_for()
    ensures one { (settings : Settings) (demand : Demand) (items anchors : Framed) (pairs : Vouchers) (text another : List ℕ) (outcome other : Outcome)
        → IsReportFor settings demand outcome items anchors pairs text → IsReportFor settings demand other items anchors pairs another → (text ≡ another) × (outcome ≡ other) }
    ensures example { (settings : Settings) (purpose : AskedPurpose) (pairs : Vouchers)
        → IsReportFor settings (of_purpose (Some purpose)) NoTarget no_items no_items pairs (empty_report (demand_lines (of_purpose (Some purpose)))) }
{}

/// They have one report on all items: its text and its outcome, whatever rows show its verdicts.
pub fn one_report_on_all()
    ensures one { (settings : AllSettings) (items anchors : Framed) (pairs : Vouchers) (text another : List ℕ) (outcome other : AllOutcome)
        → IsAllReportOn settings outcome items anchors pairs text → IsAllReportOn settings other items anchors pairs another → (text ≡ another) × (outcome ≡ other) }
    ensures example { (settings : AllSettings) (pairs : Vouchers) → IsAllReportOn settings Each no_items no_items pairs (empty_report_on_all []) }
{}

/// They have one report on all items if a purpose may be demanded.
pub fn one_report_on_all_for()
    ensures one { (settings : AllSettings) (demand : Demand) (items anchors : Framed) (pairs : Vouchers) (text another : List ℕ) (outcome other : AllOutcome)
        → IsAllReportFor settings demand outcome items anchors pairs text → IsAllReportFor settings demand other items anchors pairs another → (text ≡ another) × (outcome ≡ other) }
    ensures example { (settings : AllSettings) (purpose : AskedPurpose) (pairs : Vouchers)
        → IsAllReportFor settings (of_purpose (Some purpose)) Each no_items no_items pairs (empty_report_on_all (demand_lines (of_purpose (Some purpose)))) }
{}

/// Items and anchors have one report by what any value vouches for, on a target and on all items,
/// with any lines of a demand.
pub fn one_report_by<V: Vouch>(_vouch: &V)
    ensures one { (lines : List ℕ) (moment : CivilTime) (demand : Bool) (items anchors : Framed) (target : ℕ) (text another : List ℕ) (outcome other : Outcome)
        → let r = rules_at moment demand (V.vouches_for _vouch.now) in
        IsReportWith lines r items anchors target text outcome → IsReportWith lines r items anchors target another other → (text ≡ another) × (outcome ≡ other) }
    ensures example { (lines : List ℕ) (moment : CivilTime) (demand : Bool) (target : ℕ)
        → IsReportWith lines (rules_at moment demand (V.vouches_for _vouch.now)) no_items no_items target (empty_report lines) NoTarget }
    ensures one_on_all { (lines : List ℕ) (moment : CivilTime) (demand : Bool) (items anchors : Framed) (text another : List ℕ) (outcome other : AllOutcome)
        → let r = rules_at moment demand (V.vouches_for _vouch.now) in
        IsAllReportWith lines r items anchors text outcome → IsAllReportWith lines r items anchors another other → (text ≡ another) × (outcome ≡ other) }
    ensures example_on_all { (alloc : Global) (lines : List ℕ) (moment : CivilTime) (demand : Bool)
        → IsAllReportWith lines (rules_at moment demand (V.vouches_for _vouch.now)) no_items no_items (empty_report_on_all lines) Each }
{}
