//! Laws of the calls. Each is a function that does nothing: its contract is the law.

ghost use Rattle.std.specs.Prelude.{◌≡◌, ◌⊎◌, ◌↔◌, ℕ, ℤ, List, [], ◌∷◌, None, take};
ghost use Rattle.cert_framing.specs.Held.{Framed};
ghost use Rattle.cert_model.specs.Fields.{Certificate};
ghost use Rattle.cert_model.specs.Range.{AreCertificateFields};
ghost use Rattle.cert_vouchers.specs.declared.vouchers.Vouchers.{Vouchers};
ghost use Rattle.certpath_files.specs.Rows.{item, at, octet};
ghost use Rattle.certpath_files.specs.Sequences.{stream_rows};
ghost use Rattle.certpath_files.specs.Shapes.{Kind, list};
ghost use Rattle.certpath_run.specs.AllReport.{IsAllReportOn};
ghost use Rattle.certpath_run.specs.Runs.{IsReportOn, IsWhyOn};
ghost use Rattle.certpath_run.specs.declared.settings.AllOutcome.{AllOutcome};
ghost use Rattle.certpath_run.specs.declared.settings.Outcome.{Outcome};
ghost use Rattle.certpath_run.specs.declared.settings.Settings as run;
ghost use Rattle.certpath_inputs.specs.Demands.{demanded as asked_for, of_purpose};
ghost use Rattle.certpath_inputs.specs.declared.demand.Demand.{Demand};
ghost use Rattle.certpath_inputs.specs.declared.settings.AllSettings.{AllSettings};
ghost use Rattle.certpath_c.specs.declared.answers.AnswerRow.{AnswerRow};
ghost use Rattle.certpath_c.specs.declared.asked.Settings.{Settings};
ghost use Rattle.certpath_c.specs.declared.asked.Voucher.{Voucher};
ghost use Rattle.certpath_c.specs.declared.wanted.Wanted.{Wanted};
ghost use Rattle.certpath_c.specs.Checking.{CheckAnswer};
ghost use Rattle.certpath_c.specs.Demands.{IsDemandOf, IsDemandOfAll};
ghost use Rattle.certpath_c.specs.Examples.{nothing_wanted, plain_settings};
ghost use Rattle.certpath_c.specs.Finding.{FindAnswer};
ghost use Rattle.certpath_c.specs.Loading.{kind_number};
ghost use Rattle.certpath_c.specs.Reports.{IsPathReport, IsWhyReport, IsPathsReport};
ghost use Rattle.certpath_c.specs.Shaping.{shape_number};
ghost use Rattle.certpath_c.specs.Status.{done, out_of_memory};
ghost use Rattle.certpath_c.specs.Tbs.{certificate_without};
ghost use Rattle.certpath_c.specs.Wanted.{IsWantedBy, demanded};

use cert_framing::one_framing;

/// `certpath_check` says yes to what `certpath_find` wrote, unless it is refused memory.
pub fn found_is_right()
    ensures { (bundle anchors : List ℕ) (vouchers : List Voucher) (settings : Settings) (path path' table table' : List ℕ) (row row' : AnswerRow) (says says' : ℕ) (status : ℤ)
        → FindAnswer bundle anchors vouchers settings path path' table table' row row' done
        → CheckAnswer bundle anchors vouchers settings row' (take row'.length path') (take row'.entries table') says says' status
        → ((status ≡ done) × (says' ≡ 1)) ⊎ ((status ≡ out_of_memory) × (says' ≡ says)) }
{
    // a law: a stream has one framing
    one_framing();
}

/// Octets to which `certpath_shape` gives a kind are one item of it for `certpath_load`, if a file
/// in DER holds nothing else. The example is SEQUENCE { SEQUENCE { two SEQUENCEs, UTCTime },
/// SEQUENCE, BIT STRING }.
pub fn shapes_are_taken()
    ensures taken { (octets : List ℕ) (kind : Kind) → shape_number octets ≡ kind_number kind → stream_rows octets ≡ item (at (octet 0)) kind octets ∷ [] }
    ensures example { shape_number (48 ∷ 13 ∷ 48 ∷ 6 ∷ 48 ∷ 0 ∷ 48 ∷ 0 ∷ 23 ∷ 0 ∷ 48 ∷ 0 ∷ 3 ∷ 1 ∷ 0 ∷ []) ≡ 2 }
    ensures kind { shape_number (48 ∷ 13 ∷ 48 ∷ 6 ∷ 48 ∷ 0 ∷ 48 ∷ 0 ∷ 23 ∷ 0 ∷ 48 ∷ 0 ∷ 3 ∷ 1 ∷ 0 ∷ []) ≡ kind_number list }
    ensures longer { shape_number (48 ∷ 13 ∷ 48 ∷ 6 ∷ 48 ∷ 0 ∷ 48 ∷ 0 ∷ 23 ∷ 0 ∷ 48 ∷ 0 ∷ 3 ∷ 1 ∷ 0 ∷ 0 ∷ []) ≡ 0 }
{}

/// Without an identifier `certpath_tbs` leaves nothing out, since no identifier is empty.
pub fn nothing_left_out()
    ensures { (c : Certificate) → AreCertificateFields c → certificate_without [] c ≡ c }
{}

/// `certpath_path` and `certpath_why` demand of a path what `certpath_find` demands by the same
/// settings.
pub fn same_demand()
    ensures { (settings : Settings) (demand : Demand) (wanted : Wanted) (target : List ℕ) → IsDemandOf settings demand → IsWantedBy settings wanted → asked_for demand target ≡ demanded wanted target }
{}

/// Settings with neither a purpose nor a host, and what they demand of a path and of all paths.
pub fn example_of_no_demand()
    ensures wanted { IsDemandOf plain_settings (of_purpose None) × IsWantedBy plain_settings nothing_wanted }
    ensures target { (plain_settings.purpose.now ≡ []) × (plain_settings.host.now ≡ []) × IsDemandOf plain_settings (of_purpose None) }
    ensures all { (plain_settings.purpose.now ≡ []) × IsDemandOfAll plain_settings (of_purpose None) }
{}

/// Settings without a purpose and a host demand nothing, and the reports are then those of `run`,
/// and of `WhyReport` and `PathsReport` without a demand.
pub fn no_demand()
    ensures target { (settings : Settings) (demand : Demand) → settings.purpose.now ≡ [] → settings.host.now ≡ [] → IsDemandOf settings demand → demand ≡ of_purpose None }
    ensures all { (settings : Settings) (demand : Demand) → settings.purpose.now ≡ [] → IsDemandOfAll settings demand → demand ≡ of_purpose None }
    ensures path { (s : run.Settings) (items anchors : Framed) (pairs : Vouchers) (text : List ℕ) → IsPathReport s (of_purpose None) items anchors pairs text ↔ ((outcome : Outcome) × IsReportOn s outcome items anchors pairs text) }
    ensures why { (s : run.Settings) (items anchors : Framed) (pairs : Vouchers) (text : List ℕ) → IsWhyReport s (of_purpose None) items anchors pairs text ↔ ((outcome : Outcome) × IsWhyOn s outcome items anchors pairs text) }
    ensures paths { (s : AllSettings) (items anchors : Framed) (pairs : Vouchers) (text : List ℕ) → IsPathsReport s (of_purpose None) items anchors pairs text ↔ ((outcome : AllOutcome) × IsAllReportOn s outcome items anchors pairs text) }
{}
