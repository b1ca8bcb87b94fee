//! The inventory that a reader's evidence was written of.

ghost use Rattle.std.specs.Prelude.{◌≡◌, ◌≢◌, ◌++◌, ℕ, List, None, Some, IfOk, IfErr, IfSome, IfNone, string_bytes};
ghost use Rattle.certpath_inputs.specs.Demands.{purpose_line};
ghost use Rattle.certpath_recheck.specs.Recheck.{IsEvidenceFor};
ghost use Rattle.certpath_inputs.specs.Reads.{ReadsAll};
ghost use Rattle.certpath_inputs.specs.Uses.{counts, Used};
ghost use Rattle.certpath_recheck.specs.Uses.{IsOfEvidence, MatchesAfter, RefusesEvidence, evidence_use_of};

use crate::rechecking::RecheckError;
use asn1_device::Source;
use cert_graph::Inventory;
use certpath_evidence::{EvidenceError, read_evidence};
use certpath_inputs::{AskedPurpose, InputError, RunError, push_purpose, read_text};
use std::alloc::{AllocError, Global};

/// The text of the evidence.
pub(crate) fn text_of<E: Source>(alloc: Global, evidence: &mut E) -> Result<Vec<u8>, RecheckError>
    ensures ok { IfOk result (λ text. ReadsAll (E.remaining evidence.old) (E.remaining evidence.new) text.items) }
    ensures used { Used (evidence_use_of result) (counts E.Source evidence.old) (counts E.Source evidence.new) }
    ensures only { IfErr result IsOfEvidence }
{
    match read_text(alloc, evidence) {
        Ok(text) => Ok(text),
        Err(InputError::Read) => Err(RecheckError::Read),
        Err(InputError::TooLong) => Err(RecheckError::TooLong),
        Err(InputError::OutOfMemory) => Err(RecheckError::Run(RunError::OutOfMemory)),
    }
}

/// The line of a purpose.
fn line_of(alloc: Global, purpose: AskedPurpose<'_>) -> Result<String, AllocError>
    ensures { IfOk result (λ line. string_bytes line ≡ purpose_line (Some purpose.entry)) }
{
    let mut line = String::new(alloc);
    push_purpose(&mut line, &Some(purpose))?;
    Ok(line)
}

/// What follows a front.
fn after<'a>(text: &'a [u8], front: &[u8]) -> Option<&'a [u8]>
    ensures found { IfSome result (λ r. text.now ≡ front.now ++ r.now) }
    ensures none { IfNone result ((rest : List ℕ) → text.now ≢ front.now ++ rest) }
{
    text.strip_prefix(front)
}

/// The inventory of evidence for no purpose.
fn plain_inventory(alloc: Global, text: &[u8]) -> Result<Inventory, RecheckError>
    ensures ok { IfOk result (IsEvidenceFor None text.now) }
    ensures refused { IfErr result (RefusesEvidence None text.now) }
{
    if after(text, b"purpose ").is_some() {
        return Err(RecheckError::OtherPurpose);
    }
    match read_evidence(alloc, text) {
        Ok(inventory) => Ok(inventory),
        Err(EvidenceError::BadLine(number)) => Err(RecheckError::BadLine(number)),
        Err(EvidenceError::OutOfMemory) => Err(RecheckError::Run(RunError::OutOfMemory)),
    }
}

/// The error of a bad line after that of the purpose.
fn bad_after(number: usize) -> RecheckError
    ensures { MatchesAfter number result }
{
    match number.checked_add(1) {
        Some(number) => RecheckError::BadLine(number),
        None => RecheckError::Run(RunError::OutOfMemory),
    }
}

/// The inventory of evidence for a purpose.
#[tactic(auto, using(crate::proofs::EvidenceFacts::bad_line_after))]
fn purposed_inventory(
    alloc: Global,
    purpose: AskedPurpose<'_>,
    text: &[u8],
) -> Result<Inventory, RecheckError>
    ensures ok { IfOk result (IsEvidenceFor (Some purpose.entry) text.now) }
    ensures refused { IfErr result (RefusesEvidence (Some purpose.entry) text.now) }
{
    let Ok(line) = line_of(alloc, purpose) else {
        return Err(RecheckError::Run(RunError::OutOfMemory));
    };
    let Some(rest) = after(text, line.as_bytes()) else {
        return Err(RecheckError::OtherPurpose);
    };
    match read_evidence(alloc, rest) {
        Ok(inventory) => Ok(inventory),
        Err(EvidenceError::BadLine(number)) => Err(bad_after(number)),
        Err(EvidenceError::OutOfMemory) => Err(RecheckError::Run(RunError::OutOfMemory)),
    }
}

/// The inventory that the text was written of, if it is for the purpose that is asked for.
pub(crate) fn inventory_for(
    alloc: Global,
    purpose: Option<AskedPurpose<'_>>,
    text: &[u8],
) -> Result<Inventory, RecheckError>
    ensures ok { IfOk result (IsEvidenceFor purpose.entry text.now) }
    ensures refused { IfErr result (RefusesEvidence purpose.entry text.now) }
{
    match purpose {
        Some(purpose) => purposed_inventory(alloc, purpose, text),
        None => plain_inventory(alloc, text),
    }
}
