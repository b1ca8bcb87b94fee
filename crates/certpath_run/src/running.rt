//! A run: from readers to a writer.
//!
//! [`read_report`] reads the three inputs and builds a report on them; [`run_report`] writes it
//! too. Which report, is a type that implements [`crate::Reports`]. The other three are runs
//! without a demand.

ghost use Rattle.std.specs.Prelude.{◌≡◌, ◌≢◌, ◌+◌, ◌≤◌, IfOk, IfErr, OnOk, IsErrOf, string_bytes};
ghost use Rattle.certpath_run.specs.Runs.{IsReportOn, Writes, WritesInPart};
ghost use Rattle.certpath_inputs.specs.Inputs.{HasText, MeetsRefusal};
ghost use Rattle.certpath_inputs.specs.Uses.{UseReaders, counts, failed_writes};

use crate::reports::{PathReport, Reported, Reports};
use crate::settings::{Outcome, Settings};
use asn1_device::{Sink, Source};
use certpath_inputs::{Demand, RunError, read_inputs, write_text};
use std::alloc::Global;

/// Reads bundle, anchors and vouchers, in this order and each to its end, and builds the report
/// that `asked` stands for. It writes nothing.
///
/// # Errors
///
/// `Read` and `TooLong` name the input; those after it are not read. `BadLine` has the number of
/// the first bad line of the vouchers, from 1. `OutOfMemory`; never `Write`.
pub fn read_report<T: Reports, B: Source, A: Source, V: Source>(
    alloc: Global,
    bundle: &mut B,
    anchors: &mut A,
    vouchers: &mut V,
    asked: &T,
) -> Result<Reported<T::Outcome>, RunError>
    ensures ok { IfOk result (λ r. HasText (T.is_right asked.now r.outcome) (B.remaining bundle.old) (B.remaining bundle.new) (A.remaining anchors.old) (A.remaining anchors.new)
        (V.remaining vouchers.old) (V.remaining vouchers.new) (T.limit_of asked.now) (string_bytes r.text)) }
    ensures refused { IfErr result (MeetsRefusal (B.remaining bundle.old) (B.remaining bundle.new) (A.remaining anchors.old) (A.remaining anchors.new)
        (V.remaining vouchers.old) (V.remaining vouchers.new) (T.limit_of asked.now)) }
    ensures not_write { IfErr result (λ e. e ≢ RunError.Write) }
    ensures uses { UseReaders result (counts B.Source bundle.old) (counts B.Source bundle.new)
        (counts A.Source anchors.old) (counts A.Source anchors.new) (counts V.Source vouchers.old) (counts V.Source vouchers.new) }
{
    let inputs = read_inputs(alloc, bundle, anchors, vouchers, asked.limit())?;
    let Ok(reported) = asked.report(alloc, &inputs) else {
        return Err(RunError::OutOfMemory);
    };
    Ok(reported)
}

/// Reads bundle, anchors and vouchers, in this order and each to its end, and writes to `writer`
/// the report that `asked` stands for. It returns what the report says in one value.
///
/// Nothing is written before all is read and the report is built. The writer is flushed once, after
/// the whole report was written.
///
/// # Errors
///
/// Those of [`read_report`], with nothing written; or `Write` if a write or the flush failed, or a
/// write took no octet: what was written is then a front of the report.
pub fn run_report<T: Reports, B: Source, A: Source, V: Source, W: Sink>(
    alloc: Global,
    bundle: &mut B,
    anchors: &mut A,
    vouchers: &mut V,
    asked: &T,
    writer: &mut W,
) -> Result<T::Outcome, RunError>
    // What was read and written.
    ensures ok { IfOk result (λ outcome. Writes (T.is_right asked.now outcome) (B.remaining bundle.old) (B.remaining bundle.new) (A.remaining anchors.old) (A.remaining anchors.new)
        (V.remaining vouchers.old) (V.remaining vouchers.new) (W.contents writer.old) (W.contents writer.new) (T.limit_of asked.now)) }
    ensures part { IsErrOf result RunError.Write → (outcome : T.Outcome) × WritesInPart (T.is_right asked.now outcome) (B.remaining bundle.old) (B.remaining bundle.new)
        (A.remaining anchors.old) (A.remaining anchors.new) (V.remaining vouchers.old) (V.remaining vouchers.new) (W.contents writer.old) (W.contents writer.new) (T.limit_of asked.now) }
    ensures nothing { IfErr result (λ e. e ≢ RunError.Write → writer.new ≡ writer.old) }
    ensures flushed { OnOk result (W.flushes writer.new ≡ W.flushes writer.old + 1) }
    ensures once { W.flushes writer.new ≤ W.flushes writer.old + 1 }
    ensures last { W.flushes writer.new ≡ W.flushes writer.old + 1 → (outcome : T.Outcome) × Writes (T.is_right asked.now outcome) (B.remaining bundle.old) (B.remaining bundle.new)
        (A.remaining anchors.old) (A.remaining anchors.new) (V.remaining vouchers.old) (V.remaining vouchers.new) (W.contents writer.old) (W.contents writer.new) (T.limit_of asked.now) }

    // When each error comes.
    ensures refused { IfErr result (MeetsRefusal (B.remaining bundle.old) (B.remaining bundle.new) (A.remaining anchors.old) (A.remaining anchors.new)
        (V.remaining vouchers.old) (V.remaining vouchers.new) (T.limit_of asked.now)) }
    ensures write { W.failures writer.new ≡ W.failures writer.old + failed_writes result }
    ensures uses { UseReaders result (counts B.Source bundle.old) (counts B.Source bundle.new)
        (counts A.Source anchors.old) (counts A.Source anchors.new) (counts V.Source vouchers.old) (counts V.Source vouchers.new) }
{
    let reported = read_report(alloc, bundle, anchors, vouchers, asked)?;
    write_text(writer, reported.text.as_bytes())?;
    Ok(reported.outcome)
}

/// Finds the answer on the target and checks it, as [`PathReport`] without a demand: a line for
/// each item with its class, how the bundle ends, how many of the anchor items are certificates and
/// how they end, the answer, and what the check says.
///
/// When something is written, and its errors, are as of [`run_report`].
pub fn run<B: Source, A: Source, V: Source, W: Sink>(
    alloc: Global,
    bundle: &mut B,
    anchors: &mut A,
    vouchers: &mut V,
    settings: &Settings,
    writer: &mut W,
) -> Result<Outcome, RunError>
    // What was read and written.
    ensures ok { IfOk result (λ outcome. Writes (IsReportOn settings.now outcome) (B.remaining bundle.old) (B.remaining bundle.new) (A.remaining anchors.old) (A.remaining anchors.new)
        (V.remaining vouchers.old) (V.remaining vouchers.new) (W.contents writer.old) (W.contents writer.new) settings.now.limit) }
    ensures part { IsErrOf result RunError.Write → (outcome : Outcome) × WritesInPart (IsReportOn settings.now outcome) (B.remaining bundle.old) (B.remaining bundle.new)
        (A.remaining anchors.old) (A.remaining anchors.new) (V.remaining vouchers.old) (V.remaining vouchers.new) (W.contents writer.old) (W.contents writer.new) settings.now.limit }
    ensures nothing { IfErr result (λ e. e ≢ RunError.Write → writer.new ≡ writer.old) }
    ensures flushed { OnOk result (W.flushes writer.new ≡ W.flushes writer.old + 1) }
    ensures once { W.flushes writer.new ≤ W.flushes writer.old + 1 }
    ensures last { W.flushes writer.new ≡ W.flushes writer.old + 1 → (outcome : Outcome) × Writes (IsReportOn settings.now outcome) (B.remaining bundle.old) (B.remaining bundle.new)
        (A.remaining anchors.old) (A.remaining anchors.new) (V.remaining vouchers.old) (V.remaining vouchers.new) (W.contents writer.old) (W.contents writer.new) settings.now.limit }

    // When each error comes.
    ensures refused { IfErr result (MeetsRefusal (B.remaining bundle.old) (B.remaining bundle.new) (A.remaining anchors.old) (A.remaining anchors.new)
        (V.remaining vouchers.old) (V.remaining vouchers.new) settings.now.limit) }
    ensures write { W.failures writer.new ≡ W.failures writer.old + failed_writes result }
    ensures uses { UseReaders result (counts B.Source bundle.old) (counts B.Source bundle.new)
        (counts A.Source anchors.old) (counts A.Source anchors.new) (counts V.Source vouchers.old) (counts V.Source vouchers.new) }
{
    let asked = PathReport {
        settings,
        demand: Demand::none(),
    };
    run_report(alloc, bundle, anchors, vouchers, &asked, writer)
}
