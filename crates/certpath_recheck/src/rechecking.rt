//! A run that checks evidence.

ghost use Rattle.std.specs.Prelude.{◌≡◌, ◌≢◌, ◌+◌, ◌≤◌, Bool, IfOk, IfErr, OnOk, IsErrOf};
ghost use Rattle.certpath_recheck.specs.Recheck.{HasSaidFor, WritesRecheck, WritesRecheckFor, WritesRecheckInPart, WritesRecheckInPartFor, MeetsRecheckRefusal, MeetsRecheckRefusalFor};
ghost use Rattle.certpath_inputs.specs.Uses.{counts};
ghost use Rattle.certpath_recheck.specs.Uses.{UseRecheckReaders, failed_recheck_writes};

use crate::evidence::{inventory_for, text_of};
use crate::saying::{line_of, said_of};
use asn1_device::{Sink, Source};
use certpath_inputs::{AllSettings, AskedPurpose, RunError, read_inputs, write_text};
use std::alloc::Global;
use thiserror::Error;

/// Why nothing is said of evidence, or the line of it isn't written whole.
#[derive(Clone, Copy, Debug, PartialEq, Eq, Hash, Error)]
pub enum RecheckError {
    /// An error that isn't of the evidence: of bundle, anchors, vouchers, memory or the writer.
    #[error("Run")]
    Run(RunError),
    /// A read of the evidence failed.
    #[error("Read")]
    Read,
    /// The evidence gave octets at each of 16,777,216 reads.
    #[error("TooLong")]
    TooLong,
    /// This line of the evidence, counted from 1, is the first bad one.
    #[error("BadLine")]
    BadLine(usize),
    /// The evidence is for another purpose than is asked for, or for one and none is asked for.
    #[error("OtherPurpose")]
    OtherPurpose,
}

/// Reads all four inputs, and returns what the check says of the evidence.
#[tactic(auto, using(crate::proofs::RecheckFacts::evidence_uses, crate::proofs::RecheckFacts::said_uses, crate::proofs::RecheckFacts::unsaid_uses, crate::proofs::RecheckFacts::text_refused, crate::proofs::RecheckFacts::evidence_refused, crate::proofs::RecheckFacts::text_not_write, crate::proofs::RecheckFacts::evidence_not_write))]
fn said_of_all<B: Source, A: Source, V: Source, E: Source>(
    alloc: Global,
    bundle: &mut B,
    anchors: &mut A,
    vouchers: &mut V,
    evidence: &mut E,
    settings: &AllSettings,
    purpose: Option<AskedPurpose<'_>>,
) -> Result<bool, RecheckError>
    ensures ok { IfOk result (HasSaidFor settings.now purpose.entry (B.remaining bundle.old) (B.remaining bundle.new) (A.remaining anchors.old) (A.remaining anchors.new)
        (V.remaining vouchers.old) (V.remaining vouchers.new) (E.remaining evidence.old) (E.remaining evidence.new)) }
    ensures refused { IfErr result (MeetsRecheckRefusalFor purpose.entry (B.remaining bundle.old) (B.remaining bundle.new) (A.remaining anchors.old) (A.remaining anchors.new)
        (V.remaining vouchers.old) (V.remaining vouchers.new) (E.remaining evidence.old) (E.remaining evidence.new) settings.now.limit) }
    ensures not_write { IfErr result (λ e. e ≢ RecheckError.Run RunError.Write) }
    ensures uses { UseRecheckReaders result
        (counts B.Source bundle.old) (counts B.Source bundle.new)
        (counts A.Source anchors.old) (counts A.Source anchors.new)
        (counts V.Source vouchers.old) (counts V.Source vouchers.new)
        (counts E.Source evidence.old) (counts E.Source evidence.new) }
{
    let inputs = match read_inputs(alloc, bundle, anchors, vouchers, settings.limit) {
        Ok(inputs) => inputs,
        Err(error) => return Err(RecheckError::Run(error)),
    };
    let text = match text_of(alloc, evidence) {
        Ok(text) => text,
        Err(error) => return Err(error),
    };
    let inventory = match inventory_for(alloc, purpose, &text) {
        Ok(inventory) => inventory,
        Err(error) => return Err(error),
    };
    match said_of(alloc, &inputs, settings, purpose, &inventory) {
        Ok(said) => Ok(said),
        Err(_) => Err(RecheckError::Run(RunError::OutOfMemory)),
    }
}

/// Reads bundle, anchors, vouchers and evidence, in this order and each to its end, and writes to `writer` what `certcheck::check_all`
/// says of the inventory that the evidence was written of: `check yes` or `check no`. It returns which.
///
/// Nothing is searched. Nothing is written before all is read and checked. The writer is flushed
/// once, after the whole line was written. After `Run(Write)` what was written is a front of the
/// line, after any other error nothing was written. If a reader is refused, those after it are not
/// read. It costs the reading of the four inputs and what `check_all` says.
pub fn run_recheck<B: Source, A: Source, V: Source, E: Source, W: Sink>(
    alloc: Global,
    bundle: &mut B,
    anchors: &mut A,
    vouchers: &mut V,
    evidence: &mut E,
    settings: &AllSettings,
    writer: &mut W,
) -> Result<bool, RecheckError>
    // What was read and written.
    ensures ok { IfOk result (WritesRecheck settings.now (B.remaining bundle.old) (B.remaining bundle.new) (A.remaining anchors.old) (A.remaining anchors.new)
        (V.remaining vouchers.old) (V.remaining vouchers.new) (E.remaining evidence.old) (E.remaining evidence.new) (W.contents writer.old) (W.contents writer.new)) }
    ensures part { IsErrOf result (RecheckError.Run RunError.Write) → (said : Bool) × WritesRecheckInPart settings.now (B.remaining bundle.old) (B.remaining bundle.new)
        (A.remaining anchors.old) (A.remaining anchors.new) (V.remaining vouchers.old) (V.remaining vouchers.new) (E.remaining evidence.old) (E.remaining evidence.new)
        (W.contents writer.old) (W.contents writer.new) said }
    ensures nothing { IfErr result (λ e. e ≢ RecheckError.Run RunError.Write → writer.new ≡ writer.old) }
    ensures flushed { OnOk result (W.flushes writer.new ≡ W.flushes writer.old + 1) }
    ensures once { W.flushes writer.new ≤ W.flushes writer.old + 1 }
    ensures last { W.flushes writer.new ≡ W.flushes writer.old + 1 → (said : Bool) × WritesRecheck settings.now (B.remaining bundle.old) (B.remaining bundle.new)
        (A.remaining anchors.old) (A.remaining anchors.new) (V.remaining vouchers.old) (V.remaining vouchers.new) (E.remaining evidence.old) (E.remaining evidence.new)
        (W.contents writer.old) (W.contents writer.new) said }

    // When each error comes.
    ensures refused { IfErr result (MeetsRecheckRefusal (B.remaining bundle.old) (B.remaining bundle.new) (A.remaining anchors.old) (A.remaining anchors.new)
        (V.remaining vouchers.old) (V.remaining vouchers.new) (E.remaining evidence.old) (E.remaining evidence.new) settings.now.limit) }
    ensures write { W.failures writer.new ≡ W.failures writer.old + failed_recheck_writes result }
    ensures uses { UseRecheckReaders result
        (counts B.Source bundle.old) (counts B.Source bundle.new)
        (counts A.Source anchors.old) (counts A.Source anchors.new)
        (counts V.Source vouchers.old) (counts V.Source vouchers.new)
        (counts E.Source evidence.old) (counts E.Source evidence.new) }
{
    run_recheck_for(
        alloc, bundle, anchors, vouchers, evidence, settings, None, writer,
    )
}

/// `run_recheck`, with a purpose that may be demanded of each certificate of the paths.
/// `OtherPurpose` if the evidence doesn't begin with the line of that purpose; the number of a bad
/// line counts it. With `None` no purpose is demanded.
#[tactic(auto, using(crate::proofs::RecheckFacts::no_failed_write, crate::proofs::RecheckFacts::unwritten_uses, crate::proofs::RecheckFacts::refused_uses))]
pub fn run_recheck_for<B: Source, A: Source, V: Source, E: Source, W: Sink>(
    alloc: Global,
    bundle: &mut B,
    anchors: &mut A,
    vouchers: &mut V,
    evidence: &mut E,
    settings: &AllSettings,
    purpose: Option<AskedPurpose<'_>>,
    writer: &mut W,
) -> Result<bool, RecheckError>
    // What was read and written.
    ensures ok { IfOk result (WritesRecheckFor settings.now purpose.entry (B.remaining bundle.old) (B.remaining bundle.new) (A.remaining anchors.old) (A.remaining anchors.new)
        (V.remaining vouchers.old) (V.remaining vouchers.new) (E.remaining evidence.old) (E.remaining evidence.new) (W.contents writer.old) (W.contents writer.new)) }
    ensures part { IsErrOf result (RecheckError.Run RunError.Write) → (said : Bool) × WritesRecheckInPartFor settings.now purpose.entry (B.remaining bundle.old) (B.remaining bundle.new)
        (A.remaining anchors.old) (A.remaining anchors.new) (V.remaining vouchers.old) (V.remaining vouchers.new) (E.remaining evidence.old) (E.remaining evidence.new)
        (W.contents writer.old) (W.contents writer.new) said }
    ensures nothing { IfErr result (λ e. e ≢ RecheckError.Run RunError.Write → writer.new ≡ writer.old) }
    ensures flushed { OnOk result (W.flushes writer.new ≡ W.flushes writer.old + 1) }
    ensures once { W.flushes writer.new ≤ W.flushes writer.old + 1 }
    ensures last { W.flushes writer.new ≡ W.flushes writer.old + 1 → (said : Bool) × WritesRecheckFor settings.now purpose.entry (B.remaining bundle.old) (B.remaining bundle.new)
        (A.remaining anchors.old) (A.remaining anchors.new) (V.remaining vouchers.old) (V.remaining vouchers.new) (E.remaining evidence.old) (E.remaining evidence.new)
        (W.contents writer.old) (W.contents writer.new) said }

    // When each error comes.
    ensures refused { IfErr result (MeetsRecheckRefusalFor purpose.entry (B.remaining bundle.old) (B.remaining bundle.new) (A.remaining anchors.old) (A.remaining anchors.new)
        (V.remaining vouchers.old) (V.remaining vouchers.new) (E.remaining evidence.old) (E.remaining evidence.new) settings.now.limit) }
    ensures write { W.failures writer.new ≡ W.failures writer.old + failed_recheck_writes result }
    ensures uses { UseRecheckReaders result
        (counts B.Source bundle.old) (counts B.Source bundle.new)
        (counts A.Source anchors.old) (counts A.Source anchors.new)
        (counts V.Source vouchers.old) (counts V.Source vouchers.new)
        (counts E.Source evidence.old) (counts E.Source evidence.new) }
{
    let said = match said_of_all(
        alloc, bundle, anchors, vouchers, evidence, settings, purpose,
    ) {
        Ok(said) => said,
        Err(error) => return Err(error),
    };
    let Ok(line) = line_of(alloc, said) else {
        return Err(RecheckError::Run(RunError::OutOfMemory));
    };
    if write_text(writer, line.as_bytes()).is_err() {
        return Err(RecheckError::Run(RunError::Write));
    }
    Ok(said)
}
