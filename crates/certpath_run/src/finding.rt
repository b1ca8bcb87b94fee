//! The report on all items with its evidence: the text of the inventory that shows it.

ghost use Rattle.std.specs.Prelude.{◌≡◌, ◌++◌, IfOk, string_bytes};
ghost use Rattle.certpath_evidence.specs.Evidence.{evidence, told_by};
ghost use Rattle.certpath_run.specs.AllReport.{AreFindingsFor};
ghost use Rattle.certpath_inputs.specs.Demands.{purpose_line};

use crate::reporting_all::{ReportedAll, report_on_all};
use crate::reports::{Findings, Reported};
use asn1_core::OutOfMemory;
use cert_graph::Inventory;
use certpath_evidence::write_evidence;
use certpath_inputs::{AllSettings, AskedPurpose, Demand, Inputs, push_purpose};
use std::alloc::{AllocError, Global};

/// The text of an inventory, for a purpose.
fn evidence_of(
    alloc: Global,
    purpose: &Option<AskedPurpose<'_>>,
    inventory: &Inventory,
) -> Result<String, AllocError>
    ensures { IfOk result (λ text. string_bytes text ≡ purpose_line purpose.now ++ evidence (told_by inventory.now)) }
{
    let mut text = String::new(alloc);
    push_purpose(&mut text, purpose)?;
    write_evidence(&mut text, inventory)?;
    Ok(text)
}

/// Finds the paths of all items, checks them, and builds both texts.
pub(crate) fn findings_on(
    alloc: Global,
    inputs: &Inputs,
    settings: &AllSettings,
    demand: &Demand<'_>,
) -> Result<Reported<Findings>, OutOfMemory>
    ensures { IfOk result (λ r. AreFindingsFor settings.now demand.now r.outcome.outcome (string_bytes r.outcome.evidence) inputs.now.items inputs.now.anchors inputs.now.vouchers (string_bytes r.text)) }
{
    let ReportedAll {
        text,
        outcome,
        inventory,
    } = report_on_all(alloc, inputs, settings, demand)?;
    let evidence = evidence_of(alloc, &demand.purpose, &inventory)?;
    Ok(Reported {
        text,
        outcome: Findings { evidence, outcome },
    })
}
