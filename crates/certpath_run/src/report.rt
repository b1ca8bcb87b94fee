//! The text of the report on a target, and the lines that it shares with the other reports.

ghost use Rattle.std.specs.Prelude.{◌≡◌, ◌≤◌, ℕ, [], ◌∷◌, ◌++◌, codes, length, string_bytes, OnOk, IfOk};
ghost use Rattle.std.specs.Fmt.{decimal};
ghost use Rattle.certpath_run.specs.Report.{end_line, position_words, answer_line};
ghost use Rattle.certpath_inputs.specs.Demands.{demand_lines};
ghost use Rattle.certpath_run.specs.JudgedReport.{judged_line, judged_lines, one_certificate, certificates_of, counts_line, judged_report};

use cert_framing::End;
use cert_graph::Answer;
use cert_judge::JudgedItem;
use certpath_inputs::{Demand, push_check, push_demand};
use std::alloc::{AllocError, Global};

/// The line of item `k`.
pub(crate) fn push_item(
    text: &mut String,
    k: usize,
    item: &JudgedItem<'_>,
) -> Result<(), AllocError>
    ensures { OnOk result (string_bytes text.new ≡ string_bytes text.old ++ judged_line k item.now) }
{
    match item {
        JudgedItem::Certificate(_) => writeln!(text, "{k} cert"),
        JudgedItem::List(_) => writeln!(text, "{k} list"),
        JudgedItem::Other => writeln!(text, "{k} other"),
    }
}

/// The lines of all items.
fn push_items(text: &mut String, items: &[JudgedItem<'_>]) -> Result<(), AllocError>
    ensures { OnOk result (string_bytes text.new ≡ string_bytes text.old ++ judged_lines 0 items.now) }
{
    for (k, item) in items.iter().enumerate() {
        push_item(text, k, item)?;
    }
    Ok(())
}

/// How the stream of items ends.
pub(crate) fn push_end(text: &mut String, end: End) -> Result<(), AllocError>
    ensures { OnOk result (string_bytes text.new ≡ string_bytes text.old ++ end_line end) }
{
    match end {
        End::Clean => writeln!(text, "end clean"),
        End::Cut(at) => writeln!(text, "end cut {at}"),
        End::Fault(at) => writeln!(text, "end fault {at}"),
    }
}

/// 1 for a certificate, else 0.
fn certificates_in(item: &JudgedItem<'_>) -> usize
    ensures one { result ≡ one_certificate item.now }
    ensures small { result ≤ 1 }
{
    match item {
        JudgedItem::Certificate(_) => 1,
        _ => 0,
    }
}

/// How many items are certificates.
pub(crate) fn count_certificates(items: &[JudgedItem<'_>]) -> usize
    ensures { result ≡ certificates_of items.now }
{
    let mut count = 0;
    for item in items {
        count += certificates_in(item);
    }
    count
}

/// How many of the anchor items are certificates, and how their stream ends.
pub(crate) fn push_anchors(
    text: &mut String,
    certificates: usize,
    all: usize,
    end: End,
) -> Result<(), AllocError>
    ensures { OnOk result (string_bytes text.new ≡ string_bytes text.old ++ counts_line certificates all end) }
{
    match end {
        End::Clean => writeln!(text, "anchors {certificates} of {all}, clean"),
        End::Cut(at) => writeln!(text, "anchors {certificates} of {all}, cut {at}"),
        End::Fault(at) => writeln!(text, "anchors {certificates} of {all}, fault {at}"),
    }
}

/// Appends the positions of a path, each after a space.
fn push_positions(text: &mut String, positions: &[usize]) -> Result<(), AllocError>
    ensures { OnOk result (string_bytes text.new ≡ string_bytes text.old ++ position_words positions.now) }
{
    for position in positions {
        write!(text, " {position}")?;
    }
    Ok(())
}

/// Appends a path and its anchor.
pub(crate) fn push_path(
    text: &mut String,
    positions: &[usize],
    anchor: usize,
) -> Result<(), AllocError>
    ensures { OnOk result (string_bytes text.new ≡ string_bytes text.old ++ (codes "path" ++ (position_words positions.now ++ (codes " anchor " ++ (decimal anchor ++ 10 ∷ []))))) }
{
    write!(text, "path")?;
    push_positions(text, positions)?;
    writeln!(text, " anchor {anchor}")?;
    Ok(())
}

/// The line of the answer.
pub(crate) fn push_answer(text: &mut String, answer: &Answer) -> Result<(), AllocError>
    ensures { OnOk result (string_bytes text.new ≡ string_bytes text.old ++ answer_line answer.now) }
{
    match answer {
        Answer::Path {
            positions,
            anchor,
            ..
        } => push_path(text, positions, *anchor),
        Answer::NoPath { .. } => writeln!(text, "none"),
        Answer::NoTarget => writeln!(text, "no target"),
    }
}

/// The whole report.
pub(crate) fn report_of(
    alloc: Global,
    items: &[JudgedItem<'_>],
    end: End,
    anchors: &[JudgedItem<'_>],
    anchors_end: End,
    demand: &Demand<'_>,
    answer: &Answer,
    said: bool,
) -> Result<String, AllocError>
    ensures { IfOk result (λ text. string_bytes text ≡ judged_report (demand_lines demand.now) items.now end anchors.now anchors_end answer.now said) }
{
    let mut text = String::new(alloc);
    push_items(&mut text, items)?;
    push_end(&mut text, end)?;
    let certificates = count_certificates(anchors);
    push_anchors(&mut text, certificates, anchors.len(), anchors_end)?;
    push_demand(&mut text, demand)?;
    push_answer(&mut text, answer)?;
    push_check(&mut text, said)?;
    Ok(text)
}
