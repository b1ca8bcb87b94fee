//! The text of the report on all items.

ghost use Rattle.std.specs.Prelude.{◌≡◌, ◌++◌, length, string_bytes, OnOk, IfOk};
ghost use Rattle.certpath_run.specs.AllReport.{is_pathless, outcome_of_all};
ghost use Rattle.certpath_inputs.specs.Demands.{demand_lines};
ghost use Rattle.certpath_run.specs.JudgedReport.{judged_verdict_line, judged_verdict_lines, judged_all_report};

use crate::report::{count_certificates, push_anchors, push_end, push_item, push_path};
use crate::settings::AllOutcome;
use cert_framing::End;
use cert_graph::Verdict;
use cert_judge::JudgedItem;
use certpath_inputs::{Demand, push_check, push_demand};
use std::alloc::{AllocError, Global};

/// The line of item `k`.
#[tactic(auto, using(crate::proofs::InventoryFacts::path_line_pushed))]
fn push_verdict(
    text: &mut String,
    k: usize,
    item: &JudgedItem<'_>,
    verdict: &Verdict,
) -> Result<(), AllocError>
    ensures { OnOk result (string_bytes text.new ≡ string_bytes text.old ++ judged_verdict_line k item.now verdict.now) }
{
    match verdict {
        Verdict::FirstPath { positions, anchor } => {
            write!(text, "{k} ")?;
            push_path(text, positions, *anchor)?;
            Ok(())
        }
        Verdict::Pathless => writeln!(text, "{k} none"),
        Verdict::NoCertificate => push_item(text, k, item),
    }
}

/// The lines of all items, each with its verdict.
fn push_verdicts(
    text: &mut String,
    items: &[JudgedItem<'_>],
    verdicts: &[Verdict],
) -> Result<(), AllocError>
    requires { length verdicts.now ≡ length items.now }
    ensures { OnOk result (string_bytes text.new ≡ string_bytes text.old ++ judged_verdict_lines 0 items.now verdicts.now) }
{
    for (k, item) in items.iter().enumerate() {
        push_verdict(text, k, item, &verdicts[k])?;
    }
    Ok(())
}

/// The whole report on all items.
pub(crate) fn report_of_all(
    alloc: Global,
    items: &[JudgedItem<'_>],
    end: End,
    anchors: &[JudgedItem<'_>],
    anchors_end: End,
    demand: &Demand<'_>,
    verdicts: &[Verdict],
    said: bool,
) -> Result<String, AllocError>
    requires { length verdicts.now ≡ length items.now }
    ensures { IfOk result (λ text. string_bytes text ≡ judged_all_report (demand_lines demand.now) items.now end anchors.now anchors_end verdicts.now said) }
{
    let mut text = String::new(alloc);
    push_verdicts(&mut text, items, verdicts)?;
    push_end(&mut text, end)?;
    let certificates = count_certificates(anchors);
    push_anchors(&mut text, certificates, anchors.len(), anchors_end)?;
    push_demand(&mut text, demand)?;
    push_check(&mut text, said)?;
    Ok(text)
}

/// Whether it says of a certificate that it has no path.
fn is_pathless(verdict: &Verdict) -> bool
    ensures { result ≡ is_pathless verdict.now }
{
    matches!(verdict, Verdict::Pathless)
}

/// Whether each certificate has a path.
pub(crate) fn outcome_of_all(verdicts: &[Verdict]) -> AllOutcome
    ensures { result ≡ outcome_of_all verdicts.now }
{
    for verdict in verdicts {
        if is_pathless(verdict) {
            return AllOutcome::NotEach;
        }
    }
    AllOutcome::Each
}
