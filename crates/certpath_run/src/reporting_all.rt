//! The report on all items: their paths by what was read, and what the check says of them.

ghost use Rattle.std.specs.Prelude.{length, IfOk, string_bytes};
ghost use Rattle.cert_model.specs.View.{time_view};
ghost use Rattle.certpath_inputs.specs.cert_serving.specs.declared.permits.Permits.{Permits};
ghost use Rattle.certpath_inputs.specs.Demands.{ArePermitsOf, VouchesWhere, demanded, demand_lines, target_octets};
ghost use Rattle.certpath_run.specs.Judging.{AreJudgedOf};
ghost use Rattle.certpath_run.specs.AllReport.{IsAllReportBy, IsAllReportFor, IsAllReportOf};

use crate::judging::judged_by;
use crate::remembering::remembered_for;
use crate::report_all::{outcome_of_all, report_of_all};
use crate::settings::AllOutcome;
use asn1_core::OutOfMemory;
use cert_graph::Inventory;
use cert_judge::{JudgedItem, Vouch};
use cert_purpose::Restricted;
use cert_vouchers::RememberedVouchers;
use certcheck::check_all;
use certpath_find::find_all_judged;
use certpath_inputs::{AllSettings, Demand, Inputs, permits_of};
use std::alloc::Global;

/// A report on all items, whether each certificate has a path, and the inventory that it reports.
#[derive(Drop)]
pub(crate) struct ReportedAll {
    pub(crate) text: String,
    pub(crate) outcome: AllOutcome,
    pub(crate) inventory: Inventory,
}

/// Finds the paths of all items by what vouches, checks them, and builds the report.
fn report_all_by<'a, V: Vouch>(
    alloc: Global,
    inputs: &'a Inputs,
    items: &[JudgedItem<'a>],
    anchors: &[JudgedItem<'a>],
    vouch: &V,
    settings: &AllSettings,
    demand: &Demand<'_>,
) -> Result<ReportedAll, OutOfMemory>
    requires items { AreJudgedOf (time_view settings.now.policy.moment) inputs.now.items.items items.now }
    requires anchors { AreJudgedOf (time_view settings.now.policy.moment) inputs.now.anchors.items anchors.now }
    ensures { IfOk result (λ r. IsAllReportBy (demand_lines demand.now) settings.now r.outcome r.inventory inputs.now.items inputs.now.anchors (string_bytes r.text) (V.vouches_for vouch.now)) }
{
    let policy = settings.policy;
    let inventory = find_all_judged(alloc, items, anchors, vouch, policy.demands_lists())?;
    let said = check_all(
        alloc,
        &inputs.items,
        &inputs.anchors,
        vouch,
        &policy,
        &inventory,
    )?;
    let text = report_of_all(
        alloc,
        items,
        inputs.items.end(),
        anchors,
        inputs.anchors.end(),
        demand,
        &inventory.verdicts,
        said,
    )?;
    let outcome = outcome_of_all(&inventory.verdicts);
    Ok(ReportedAll {
        text,
        outcome,
        inventory,
    })
}

/// The report of an inventory in which each path meets a demand. No item is the target.
fn report_all_within<'a>(
    alloc: Global,
    inputs: &'a Inputs,
    items: &[JudgedItem<'a>],
    anchors: &[JudgedItem<'a>],
    vouch: &RememberedVouchers<'a>,
    settings: &AllSettings,
    demand: &Demand<'_>,
) -> Result<ReportedAll, OutOfMemory>
    requires items { AreJudgedOf (time_view settings.now.policy.moment) inputs.now.items.items items.now }
    requires anchors { AreJudgedOf (time_view settings.now.policy.moment) inputs.now.anchors.items anchors.now }
    ensures { IfOk result (λ r. (permits : Permits) × ArePermitsOf (demanded demand.now (target_octets inputs.now.items.items (length inputs.now.items.items))) inputs.now.items.items permits
        × IsAllReportBy (demand_lines demand.now) settings.now r.outcome r.inventory inputs.now.items inputs.now.anchors (string_bytes r.text) (VouchesWhere permits vouch.now.vouchers.now)) }
{
    let permits = permits_of(alloc, &inputs.items, inputs.items.len(), demand)?;
    let restricted = Restricted::new(vouch, &permits);
    report_all_by(alloc, inputs, items, anchors, &restricted, settings, demand)
}

/// Finds the paths of all items if a purpose may be demanded, checks them, and builds the
/// report.
pub(crate) fn report_on_all(
    alloc: Global,
    inputs: &Inputs,
    settings: &AllSettings,
    demand: &Demand<'_>,
) -> Result<ReportedAll, OutOfMemory>
    ensures report { IfOk result (λ r. IsAllReportFor settings.now demand.now r.outcome inputs.now.items inputs.now.anchors inputs.now.vouchers (string_bytes r.text)) }
    ensures inventory { IfOk result (λ r. IsAllReportOf settings.now demand.now r.outcome r.inventory inputs.now.items inputs.now.anchors inputs.now.vouchers (string_bytes r.text)) }
{
    let items = judged_by(alloc, &inputs.items, &settings.policy)?;
    let anchors = judged_by(alloc, &inputs.anchors, &settings.policy)?;
    let remembered = remembered_for(alloc, &inputs.vouchers, &items, &anchors);
    if demand.is_none() {
        return report_all_by(
            alloc,
            inputs,
            &items,
            &anchors,
            &remembered,
            settings,
            demand,
        );
    }
    report_all_within(
        alloc,
        inputs,
        &items,
        &anchors,
        &remembered,
        settings,
        demand,
    )
}
