//! An inventory from the text of its evidence.

ghost use Rattle.std.specs.Prelude.{◌≡◌, ◌∷◌, [], ◌++◌, ℕ, List, map, OnOk, IfErr, IfOk, IfSome, IfNone};
ghost use Rattle.cert_graph.specs.declared.changes.Change.{Change};
ghost use Rattle.certpath_evidence.specs.Evidence.{Said, Fits, FitsSaid, FitsChange, said_by, told_by, header, row_line, verdict_line, change_line, lines_of, line_feed};
ghost use Rattle.certpath_evidence.specs.Answers.{AnswersEvidence, NoneGoesOn, RefusesLine};

use crate::lines::{after_word, split_once};
use crate::words::{change_of, verdict_of};
use cert_graph::{Change, Inventory, Verdict};
use std::alloc::Global;
use thiserror::Error;

/// The first line.
const HEADER: &[u8] = b"certpath evidence 1\n";

/// The line that begins a row.
const ROW: &[u8] = b"row";

/// Why a text gives no inventory.
#[derive(Clone, Copy, Debug, PartialEq, Eq, Hash, Error)]
pub enum EvidenceError {
    /// No evidence has such a line after the lines before it, which are one, or the line doesn't end at LF, or it is missing. Lines
    /// count from 1.
    #[error("BadLine")]
    BadLine(usize),
    /// Memory ran out.
    #[error("OutOfMemory")]
    OutOfMemory,
}

/// The inventory that a text was written of, by `write_evidence`: no other text is accepted, so there is one for each inventory.
/// Whether the inventory is true is no part of this: `certcheck::check_all` says it.
///
/// `BadLine` with the number of the first bad line; `OutOfMemory` if a line found no room, whatever
/// comes after it. It costs one pass over the text, and keeps no more than the inventory.
pub fn read_evidence(alloc: Global, text: &[u8]) -> Result<Inventory, EvidenceError>
    ensures { AnswersEvidence text.now result }
{
    let mut inventory = Inventory {
        steps: Vec::new(alloc),
        verdicts: Vec::new(alloc),
    };
    let Some(first) = after_header(text) else {
        return Err(EvidenceError::BadLine(1));
    };
    let mut rest = first;
    let mut number = 2;
    while !rest.is_empty() {
        let Some((line, after)) = split_once(rest, b'\n') else {
            return Err(EvidenceError::BadLine(number));
        };
        add_line(alloc, &mut inventory, line, number)?;
        rest = after;
        number += 1;
    }
    Ok(inventory)
}

/// What comes after the first line, if that is the one that names the format.
fn after_header(text: &[u8]) -> Option<&[u8]>
    ensures found { IfSome result (λ r. text.now ≡ header ++ line_feed ∷ r.now) }
    ensures none { IfNone result ((after : List ℕ) → text.now ≡ header ++ line_feed ∷ after → ⊥) }
{
    after_word(text, HEADER)
}

/// Adds what a line says.
fn add_line(
    alloc: Global,
    inventory: &mut Inventory,
    line: &[u8],
    number: usize,
) -> Result<(), EvidenceError>
    requires { Fits (told_by inventory.old) }
    ensures fits { OnOk result (Fits (told_by inventory.new)) }
    ensures added { OnOk result (lines_of (told_by inventory.new) ≡ lines_of (told_by inventory.old) ++ line.now ∷ []) }
    ensures refused { IfErr result (RefusesLine (NoneGoesOn (lines_of (told_by inventory.old)) line.now) number) }
{
    if line == ROW {
        return add_row(alloc, &mut inventory.steps);
    }
    match inventory.steps.pop() {
        None => add_verdict(alloc, &mut inventory.verdicts, line, number),
        Some(step) => add_change(&mut inventory.steps, step, line, number),
    }
}

/// Begins a row.
fn add_row(alloc: Global, steps: &mut Vec<Vec<Change>>) -> Result<(), EvidenceError>
    ensures added { OnOk result (map (λ s. s.items) steps.new.items ≡ map (λ s. s.items) steps.old.items ++ [] ∷ []) }
    ensures refused { IfErr result (λ e. e ≡ EvidenceError.OutOfMemory) }
{
    if steps.push(Vec::new(alloc)).is_err() {
        return Err(EvidenceError::OutOfMemory);
    }
    Ok(())
}

/// Adds the verdict of a line.
fn add_verdict(
    alloc: Global,
    verdicts: &mut Vec<Verdict>,
    line: &[u8],
    number: usize,
) -> Result<(), EvidenceError>
    ensures added { OnOk result ((said : Said) × FitsSaid said × (line.now ≡ verdict_line said) × (map said_by verdicts.new.items ≡ map said_by verdicts.old.items ++ said ∷ [])) }
    ensures refused { IfErr result (RefusesLine ((said : Said) → FitsSaid said → line.now ≡ verdict_line said → ⊥) number) }
{
    let Ok(read) = verdict_of(alloc, line) else {
        return Err(EvidenceError::OutOfMemory);
    };
    let Some(verdict) = read else {
        return Err(EvidenceError::BadLine(number));
    };
    if verdicts.push(verdict).is_err() {
        return Err(EvidenceError::OutOfMemory);
    }
    Ok(())
}

/// Adds a row with the change of a line at its end.
fn add_change(
    steps: &mut Vec<Vec<Change>>,
    mut step: Vec<Change>,
    line: &[u8],
    number: usize,
) -> Result<(), EvidenceError>
    ensures added { OnOk result ((change : Change) × FitsChange change × (line.now ≡ change_line change) × (map (λ s. s.items) steps.new.items ≡ map (λ s. s.items) steps.old.items ++ (step.items ++ change ∷ []) ∷ [])) }
    ensures refused { IfErr result (RefusesLine ((change : Change) → FitsChange change → line.now ≡ change_line change → ⊥) number) }
{
    let Some(change) = change_of(line) else {
        return Err(EvidenceError::BadLine(number));
    };
    if step.push(change).is_err() {
        return Err(EvidenceError::OutOfMemory);
    }
    if steps.push(step).is_err() {
        return Err(EvidenceError::OutOfMemory);
    }
    Ok(())
}
