//! The reports on a target: the answer by what was read, what the check says of it, and what
//! prevents a path.

ghost use Rattle.std.specs.Prelude.{◌≡◌, ◌++◌, IfOk, map, string_bytes};
ghost use Rattle.cert_judge.specs.Classed.{AreClassed};
ghost use Rattle.cert_judge.specs.Items.{item_of, rules_by};
ghost use Rattle.cert_judge.specs.Vouching.{processing_too};
ghost use Rattle.cert_model.specs.View.{time_view};
ghost use Rattle.cert_purpose.specs.Restricting.{restricted_by};
ghost use Rattle.certpath_inputs.specs.cert_serving.specs.declared.permits.Permits.{Permits};
ghost use Rattle.certpath_run.specs.Judging.{AreJudgedOf};
ghost use Rattle.certpath_run.specs.Report.{answer_line};
ghost use Rattle.certpath_inputs.specs.Check.{check_line};
ghost use Rattle.certpath_inputs.specs.Demands.{ArePermitsOf, VouchesWhere, demanded, demand_lines, target_octets};
ghost use Rattle.certpath_inputs.specs.Inputs.{VouchesBy};
ghost use Rattle.fault_texts.specs.FaultLines.{AppendsFaults};
ghost use Rattle.certpath_run.specs.Runs.{IsReportWith, IsReportFor, IsWhyOn, IsWhyReportFor, IsWhyReportWith, VouchesAnyWhere};

use crate::answering::{Answered, answer_on, answer_read};
use crate::judging::judged_by;
use crate::remembering::remembered_for;
use crate::report::{push_answer, report_of};
use crate::reports::Reported;
use crate::settings::{Outcome, Settings};
use asn1_core::OutOfMemory;
use cert_judge::{JudgedItem, ReadItem, Vouch, read_items};
use cert_purpose::{Permit, Restricted};
use cert_vouchers::RememberedVouchers;
use certcheck::TreeReader;
use certpath_inputs::{Demand, Inputs, permits_of, push_check, push_demand};
use certpath_why::{push_why, push_why_for};
use fault_texts::push_faults;
use std::alloc::{AllocError, Global};

/// Finds the answer by what vouches, checks it, and builds the report.
fn report_by<'a, V: Vouch>(
    alloc: Global,
    inputs: &'a Inputs,
    items: &[JudgedItem<'a>],
    anchors: &[JudgedItem<'a>],
    vouch: &V,
    settings: &Settings,
    demand: &Demand<'_>,
) -> Result<Reported<Outcome>, OutOfMemory>
    requires items { AreJudgedOf (time_view settings.now.policy.moment) inputs.now.items.items items.now }
    requires anchors { AreJudgedOf (time_view settings.now.policy.moment) inputs.now.anchors.items anchors.now }
    ensures { IfOk result (λ r. IsReportWith (demand_lines demand.now) (rules_by settings.now.policy.moment settings.now.policy.demand_lists (V.vouches_for vouch.now)) inputs.now.items inputs.now.anchors settings.now.target (string_bytes r.text) r.outcome) }
{
    let answered = answer_on(alloc, inputs, items, anchors, vouch, settings)?;
    let text = report_of(
        alloc,
        items,
        inputs.items.end(),
        anchors,
        inputs.anchors.end(),
        demand,
        &answered.answer,
        answered.said,
    )?;
    let outcome = answered.outcome();
    Ok(Reported { text, outcome })
}

/// The report of an answer whose path meets a demand.
fn report_within<'a>(
    alloc: Global,
    inputs: &'a Inputs,
    items: &[JudgedItem<'a>],
    anchors: &[JudgedItem<'a>],
    vouch: &RememberedVouchers<'a>,
    settings: &Settings,
    demand: &Demand<'_>,
) -> Result<Reported<Outcome>, OutOfMemory>
    requires items { AreJudgedOf (time_view settings.now.policy.moment) inputs.now.items.items items.now }
    requires anchors { AreJudgedOf (time_view settings.now.policy.moment) inputs.now.anchors.items anchors.now }
    ensures { IfOk result (λ r. (permits : Permits) × ArePermitsOf (demanded demand.now (target_octets inputs.now.items.items settings.now.target)) inputs.now.items.items permits
        × IsReportWith (demand_lines demand.now) (rules_by settings.now.policy.moment settings.now.policy.demand_lists (VouchesWhere permits vouch.now.vouchers.now)) inputs.now.items inputs.now.anchors settings.now.target (string_bytes r.text) r.outcome) }
{
    let permits = permits_of(alloc, &inputs.items, settings.target, demand)?;
    let restricted = Restricted::new(vouch, &permits);
    report_by(alloc, inputs, items, anchors, &restricted, settings, demand)
}

/// Finds the answer if something may be demanded, checks it, and builds the report.
pub(crate) fn report_on(
    alloc: Global,
    inputs: &Inputs,
    settings: &Settings,
    demand: &Demand<'_>,
) -> Result<Reported<Outcome>, OutOfMemory>
    ensures { IfOk result (λ r. IsReportFor settings.now demand.now r.outcome inputs.now.items inputs.now.anchors inputs.now.vouchers (string_bytes r.text)) }
{
    let items = judged_by(alloc, &inputs.items, &settings.policy)?;
    let anchors = judged_by(alloc, &inputs.anchors, &settings.policy)?;
    let remembered = remembered_for(alloc, &inputs.vouchers, &items, &anchors);
    if demand.is_none() {
        return report_by(
            alloc,
            inputs,
            &items,
            &anchors,
            &remembered,
            settings,
            demand,
        );
    }
    report_within(
        alloc,
        inputs,
        &items,
        &anchors,
        &remembered,
        settings,
        demand,
    )
}

/// The lines of what is demanded, of the answer and of what the check says.
fn answer_text(
    alloc: Global,
    demand: &Demand<'_>,
    answered: &Answered,
) -> Result<String, AllocError>
    ensures { IfOk result (λ text. string_bytes text ≡ demand_lines demand.now ++ (answer_line answered.now.answer ++ check_line answered.now.said)) }
{
    let mut text = String::new(alloc);
    push_demand(&mut text, demand)?;
    push_answer(&mut text, &answered.answer)?;
    push_check(&mut text, answered.said)?;
    Ok(text)
}

/// Items and anchors as they are read.
#[derive(Drop)]
struct Both<'a> {
    items: Vec<ReadItem<'a>>,
    anchors: Vec<ReadItem<'a>>,
}

/// Reads items and anchors by the reader of the check.
fn both_read<'a>(alloc: Global, inputs: &'a Inputs) -> Result<Both<'a>, OutOfMemory>
    ensures items { IfOk result (λ both. AreClassed inputs.now.items.items (map item_of both.items.items)) }
    ensures anchors { IfOk result (λ both. AreClassed inputs.now.anchors.items (map item_of both.anchors.items)) }
{
    let items = read_items::<TreeReader>(alloc, &inputs.items)?;
    let anchors = read_items::<TreeReader>(alloc, &inputs.anchors)?;
    Ok(Both { items, anchors })
}

/// The lines of what is demanded, of the answer and of what the check says, and then why the target
/// and the anchors that are other are so.
fn faulted_text(
    alloc: Global,
    demand: &Demand<'_>,
    answered: &Answered,
    read: &Both<'_>,
    target: usize,
) -> Result<String, OutOfMemory>
    ensures { IfOk result (λ text. AppendsFaults (map item_of read.now.items.items) target (map item_of read.now.anchors.items)
        (demand_lines demand.now ++ (answer_line answered.now.answer ++ check_line answered.now.said)) (string_bytes text)) }
{
    let mut text = answer_text(alloc, demand, answered)?;
    push_faults(&mut text, alloc, &read.items, target, &read.anchors)?;
    Ok(text)
}

/// Finds the answer, checks it, and reports why items are other and what prevents a path.
fn why_alone<'a>(
    alloc: Global,
    inputs: &'a Inputs,
    items: &[JudgedItem<'a>],
    anchors: &[JudgedItem<'a>],
    vouch: &RememberedVouchers<'a>,
    settings: &Settings,
) -> Result<Reported<Outcome>, OutOfMemory>
    requires items { AreJudgedOf (time_view settings.now.policy.moment) inputs.now.items.items items.now }
    requires anchors { AreJudgedOf (time_view settings.now.policy.moment) inputs.now.anchors.items anchors.now }
    ensures { IfOk result (λ r. IsWhyOn settings.now r.outcome inputs.now.items inputs.now.anchors vouch.now.vouchers.now (string_bytes r.text)) }
{
    let demand = Demand::none();
    let read = both_read(alloc, inputs)?;
    let answered = answer_read(
        alloc,
        items,
        anchors,
        &read.items,
        &read.anchors,
        vouch,
        settings,
    )?;
    let mut text = faulted_text(alloc, &demand, &answered, &read, settings.target)?;
    push_why(
        &mut text,
        alloc,
        &read.items,
        &read.anchors,
        settings.target,
        &answered.answer,
        vouch,
        &settings.policy,
    )?;
    let outcome = answered.outcome();
    Ok(Reported { text, outcome })
}

/// The report of `why`, of an answer whose path meets a demand.
fn why_by<'a, P: Permit>(
    alloc: Global,
    inputs: &'a Inputs,
    items: &[JudgedItem<'a>],
    anchors: &[JudgedItem<'a>],
    vouch: &RememberedVouchers<'a>,
    permit: &P,
    settings: &Settings,
    demand: &Demand<'_>,
) -> Result<Reported<Outcome>, OutOfMemory>
    requires items { AreJudgedOf (time_view settings.now.policy.moment) inputs.now.items.items items.now }
    requires anchors { AreJudgedOf (time_view settings.now.policy.moment) inputs.now.anchors.items anchors.now }
    ensures { IfOk result (λ r. IsWhyReportWith demand.now
        (rules_by settings.now.policy.moment settings.now.policy.demand_lists (processing_too (P.processes permit.now) (VouchesBy vouch.now.vouchers.now)))
        (rules_by settings.now.policy.moment settings.now.policy.demand_lists (restricted_by (P.permits permit.now) (P.processes permit.now) (VouchesBy vouch.now.vouchers.now)))
        inputs.now.items inputs.now.anchors settings.now.target (string_bytes r.text) r.outcome) }
{
    let restricted = Restricted::new(vouch, permit);
    let read = both_read(alloc, inputs)?;
    let answered = answer_read(
        alloc,
        items,
        anchors,
        &read.items,
        &read.anchors,
        &restricted,
        settings,
    )?;
    let mut text = faulted_text(alloc, demand, &answered, &read, settings.target)?;
    push_why_for(
        &mut text,
        alloc,
        &read.items,
        &read.anchors,
        settings.target,
        &answered.answer,
        vouch,
        permit,
        demand,
        &settings.policy,
    )?;
    let outcome = answered.outcome();
    Ok(Reported { text, outcome })
}

/// The report of `why`, by the items that meet the demand.
fn why_within<'a>(
    alloc: Global,
    inputs: &'a Inputs,
    items: &[JudgedItem<'a>],
    anchors: &[JudgedItem<'a>],
    vouch: &RememberedVouchers<'a>,
    settings: &Settings,
    demand: &Demand<'_>,
) -> Result<Reported<Outcome>, OutOfMemory>
    requires items { AreJudgedOf (time_view settings.now.policy.moment) inputs.now.items.items items.now }
    requires anchors { AreJudgedOf (time_view settings.now.policy.moment) inputs.now.anchors.items anchors.now }
    ensures { IfOk result (λ r. (permits : Permits) × ArePermitsOf (demanded demand.now (target_octets inputs.now.items.items settings.now.target)) inputs.now.items.items permits
        × IsWhyReportWith demand.now (rules_by settings.now.policy.moment settings.now.policy.demand_lists (VouchesAnyWhere permits vouch.now.vouchers.now)) (rules_by settings.now.policy.moment settings.now.policy.demand_lists (VouchesWhere permits vouch.now.vouchers.now))
        inputs.now.items inputs.now.anchors settings.now.target (string_bytes r.text) r.outcome) }
{
    let permits = permits_of(alloc, &inputs.items, settings.target, demand)?;
    why_by(
        alloc, inputs, items, anchors, vouch, &permits, settings, demand,
    )
}

/// Finds the answer of what may be demanded, checks it, and reports why items are other and what
/// prevents a path.
pub(crate) fn why_on(
    alloc: Global,
    inputs: &Inputs,
    settings: &Settings,
    demand: &Demand<'_>,
) -> Result<Reported<Outcome>, OutOfMemory>
    ensures { IfOk result (λ r. IsWhyReportFor settings.now demand.now r.outcome inputs.now.items inputs.now.anchors inputs.now.vouchers (string_bytes r.text)) }
{
    let items = judged_by(alloc, &inputs.items, &settings.policy)?;
    let anchors = judged_by(alloc, &inputs.anchors, &settings.policy)?;
    let remembered = remembered_for(alloc, &inputs.vouchers, &items, &anchors);
    if demand.is_none() {
        return why_alone(alloc, inputs, &items, &anchors, &remembered, settings);
    }
    why_within(
        alloc,
        inputs,
        &items,
        &anchors,
        &remembered,
        settings,
        demand,
    )
}
