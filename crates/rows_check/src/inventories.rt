//! The verdicts of an inventory, beside the answers of a search for each item alone.

use crate::vouching::VouchedPairs;
use certcheck::{Answer, Inventory, Items, OutOfMemory, Policy, Verdict, check_all};
use certpath_run::{find, find_all};
use rows_hex::Added;
use std::alloc::{AllocError, Global};

/// What all items are judged by.
#[derive(Clone, Copy)]
pub(crate) struct Judging<'a> {
    pub(crate) items: &'a Items,
    pub(crate) anchors: &'a Items,
    pub(crate) vouched: &'a VouchedPairs,
    pub(crate) policy: &'a Policy,
}

/// What is said of an inventory.
struct Compared {
    /// There is a verdict for each item, and each says what a search for the item alone answers.
    is_alike: bool,
    /// What the check says.
    said: bool,
}

/// Whether a verdict says what an answer says.
fn says(verdict: &Verdict, answer: &Answer) -> bool {
    match (verdict, answer) {
        (
            Verdict::FirstPath { positions, anchor },
            Answer::Path {
                positions: others,
                anchor: other,
                ..
            },
        ) => positions == others && anchor == other,
        (Verdict::Pathless, Answer::NoPath { .. }) => true,
        (Verdict::NoCertificate, Answer::NoTarget) => true,
        _ => false,
    }
}

/// Whether there is a verdict for each item that says what a search for the item alone answers.
fn are_alike(
    alloc: Global,
    judging: Judging<'_>,
    inventory: &Inventory,
) -> Result<bool, OutOfMemory> {
    for (target, verdict) in inventory.verdicts.iter().enumerate() {
        let answer = find(
            alloc,
            judging.items,
            target,
            judging.anchors,
            judging.vouched,
            judging.policy,
        )?;
        if !says(verdict, &answer) {
            return Ok(false);
        }
    }
    Ok(inventory.verdicts.len() == judging.items.len())
}

fn compare(alloc: Global, judging: Judging<'_>) -> Result<Compared, OutOfMemory> {
    let inventory = find_all(
        alloc,
        judging.items,
        judging.anchors,
        judging.vouched,
        judging.policy,
    )?;
    let is_alike = are_alike(alloc, judging, &inventory)?;
    let said = check_all(
        alloc,
        judging.items,
        judging.anchors,
        judging.vouched,
        judging.policy,
        &inventory,
    )?;
    Ok(Compared { is_alike, said })
}

/// Adds whether the verdicts on all items are those of a search for each alone, and what the check says of them.
pub(crate) fn add_comparison(text: &mut String, judging: Judging<'_>) -> Added {
    let alloc = *text.allocator();
    match compare(alloc, judging) {
        Ok(Compared { is_alike, said }) => write!(text, " = alike {is_alike}, check {said}"),
        Err(OutOfMemory) => Err(AllocError),
    }
}
