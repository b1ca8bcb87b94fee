//! Why items are other: a line for each, with its first fault.

ghost use Rattle.std.specs.Prelude.{◌≡◌, ◌≤◌, ◌++◌, IfOk, OnOk, List, map, string_bytes};
ghost use Rattle.cert_judge.specs.Items.{item_of};
ghost use Rattle.fault_texts.specs.FaultLines.{AppendsFault, AppendsFaults, fault_line, more_line, one_other, other_words, others_among};
ghost use Rattle.fault_texts.specs.FaultSteps.{AppendsAnchor, AppendsAnchors, AppendsOwn, AppendsTarget};

use crate::text::push_fault;
use asn1_core::OutOfMemory;
use cert_faults::{Fault, first_fault};
use cert_judge::ReadItem;
use std::alloc::{AllocError, Global};

/// So many anchors have a line at most.
const MOST_LINES: usize = 20;

/// The items among which a position is counted.
#[derive(Clone, Copy, Debug, PartialEq, Eq)]
pub enum Whose {
    /// The items of a bundle: `other 3 at ..`.
    Items,
    /// The anchors: `other anchor 3 at ..`.
    Anchors,
}

/// How the line of the item at position `k` begins.
fn push_words(text: &mut String, whose: Whose, k: usize) -> Result<(), AllocError>
    ensures { OnOk result (string_bytes text.new ≡ string_bytes text.old ++ other_words whose k) }
{
    match whose {
        Whose::Items => write!(text, "other {k} "),
        Whose::Anchors => write!(text, "other anchor {k} "),
    }
}

fn push_line(text: &mut String, whose: Whose, k: usize, fault: &Fault) -> Result<(), AllocError>
    ensures { OnOk result (string_bytes text.new ≡ string_bytes text.old ++ fault_line whose k fault.now) }
{
    push_words(text, whose, k)?;
    push_fault(text, fault)?;
    writeln!(text)
}

/// Appends the line of the item at position `k`, if it is other.
pub fn push_fault_of(
    text: &mut String,
    alloc: Global,
    whose: Whose,
    k: usize,
    item: &[u8],
) -> Result<(), OutOfMemory>
    ensures { OnOk result (AppendsFault whose k item.now (string_bytes text.old) (string_bytes text.new)) }
{
    if let Some(fault) = first_fault(alloc, item)? {
        push_line(text, whose, k, &fault)?;
    }
    Ok(())
}

/// The line of the target, if there is one and it is other.
fn push_target(
    text: &mut String,
    alloc: Global,
    items: &[ReadItem<'_>],
    target: usize,
) -> Result<(), OutOfMemory>
    ensures { OnOk result (AppendsTarget items.now target (string_bytes text.old) (string_bytes text.new)) }
{
    match items.get(target) {
        Some(item) => push_own(text, alloc, target, item),
        None => Ok(()),
    }
}

/// The line of the item that is the target, if it is other.
fn push_own(
    text: &mut String,
    alloc: Global,
    target: usize,
    item: &ReadItem<'_>,
) -> Result<(), OutOfMemory>
    ensures { OnOk result (AppendsOwn (item_of item.now) target (string_bytes text.old) (string_bytes text.new)) }
{
    match item {
        ReadItem::Other(octets) => push_fault_of(text, alloc, Whose::Items, target, octets),
        _ => Ok(()),
    }
}

/// The line of anchor `k`, if it is other and `left` isn't 0. Returns how many more may have one.
fn push_anchor(
    text: &mut String,
    alloc: Global,
    k: usize,
    item: &ReadItem<'_>,
    left: usize,
) -> Result<usize, OutOfMemory>
    ensures { IfOk result (λ less. AppendsAnchor k left less (item_of item.now) (string_bytes text.old) (string_bytes text.new)) }
{
    if left == 0 {
        return Ok(0);
    }
    match item {
        ReadItem::Other(octets) => {
            push_fault_of(text, alloc, Whose::Anchors, k, octets)?;
            Ok(left - 1)
        }
        _ => Ok(left),
    }
}

/// The lines of the first anchors that are other.
fn push_anchors(
    text: &mut String,
    alloc: Global,
    anchors: &[ReadItem<'_>],
) -> Result<(), OutOfMemory>
    ensures { OnOk result (AppendsAnchors anchors.now (string_bytes text.old) (string_bytes text.new)) }
{
    let mut left = MOST_LINES;
    for (k, item) in anchors.iter().enumerate() {
        left = push_anchor(text, alloc, k, item, left)?;
    }
    Ok(())
}

/// 1 for an item that is other, else 0.
fn others_in(item: &ReadItem<'_>) -> usize
    ensures one { result ≡ one_other (item_of item.now).class }
    ensures small { result ≤ 1 }
{
    match item {
        ReadItem::Other(_) => 1,
        _ => 0,
    }
}

/// How many items are other.
fn count_others(items: &[ReadItem<'_>]) -> usize
    ensures { result ≡ others_among (map item_of items.now) }
{
    let mut count = 0;
    for item in items {
        count += others_in(item);
    }
    count
}

/// How many further anchors are other, if some are.
fn push_more(text: &mut String, count: usize) -> Result<(), AllocError>
    ensures { OnOk result (string_bytes text.new ≡ string_bytes text.old ++ more_line count) }
{
    if count == 0 {
        return Ok(());
    }
    writeln!(text, "other anchors and {count} more")
}

/// Appends why the target is other, if it is, and then why anchors are: a line for each of the first
/// 20, and how many more there are.
pub fn push_faults(
    text: &mut String,
    alloc: Global,
    items: &[ReadItem<'_>],
    target: usize,
    anchors: &[ReadItem<'_>],
) -> Result<(), OutOfMemory>
    ensures { OnOk result (AppendsFaults (map item_of items.now) target (map item_of anchors.now) (string_bytes text.old) (string_bytes text.new)) }
{
    push_target(text, alloc, items, target)?;
    push_anchors(text, alloc, anchors)?;
    push_more(text, count_others(anchors).saturating_sub(MOST_LINES))?;
    Ok(())
}
