//! The blocks and boundaries of a PEM text.

ghost use Rattle.std.specs.Prelude.{◌≡◌, OnOk, option_copied};
ghost use Rattle.std.specs.List.{flat_map};
ghost use Rattle.certpath_pem.specs.Views.{entry_view};
ghost use Rattle.certpath_pem.specs.Contents.{start_view};
ghost use Rattle.certpath_pem.specs.Blocks.{entries_of};
ghost use Rattle.certpath_files.specs.Rows.{added};
ghost use Rattle.certpath_files.specs.RowViews.{spot_view};
ghost use Rattle.certpath_files.specs.ReportViews.{held_in};
ghost use Rattle.certpath_files.specs.Blocks.{shown_label, after_rows, entry_rows};
ghost use Rattle.certpath_files.specs.Firsts.{first_rows, start_rows};
ghost use Rattle.certpath_files.specs.SequenceViews.{wanted_view};

use crate::front::{Front, front_of};
use crate::report::Report;
use crate::rows::{Reason, Spot, at};
use crate::sequences::{Wanted, take_sequence};
use crate::starts::start_of_block;
use certpath_pem::{Block, Content, Cursor, Entry, LabelKind, Start, label_kind};
use std::alloc::{AllocError, Global};

/// A label that may be shown: a known one.
fn shown_label(label: &[u8]) -> Option<&[u8]>
    ensures { option_copied result ≡ shown_label label.now }
{
    match label_kind(label) {
        LabelKind::Unknown => None,
        LabelKind::OneItem => Some(label),
        LabelKind::Trusted => Some(label),
        LabelKind::SignedData => Some(label),
        LabelKind::Known => Some(label),
    }
}

/// Adds that so many octets are after an item, if there are any and they count.
fn leave_after<'a>(
    report: &mut Report<'a>,
    spot: Spot<'a>,
    may_go_on: bool,
    count: usize,
) -> Result<(), AllocError>
    ensures { OnOk result (held_in report.new ≡ added (held_in report.old) (after_rows may_go_on (spot_view spot.entry) count)) }
{
    if may_go_on || count == 0 {
        return Ok(());
    }
    report.leave(at(spot), Reason::Behind(count))
}

/// Adds the rows of so many octets that a block holds, by the first ones.
fn take_octets<'a>(
    report: &mut Report<'a>,
    spot: Spot<'a>,
    octets: &[u8],
    count: usize,
    wanted: Wanted,
    may_go_on: bool,
) -> Result<(), AllocError>
    ensures { OnOk result (held_in report.new ≡ added (held_in report.old) (first_rows (wanted_view wanted) may_go_on (spot_view spot.entry) octets.now count)) }
{
    match front_of(octets) {
        Front::Whole(size) => {
            take_sequence(report, spot, &octets[..size], wanted)?;
            leave_after(report, spot, may_go_on, count.saturating_sub(size))
        }
        Front::Passed(fault, _) => report.leave(at(spot), Reason::Faulty(fault)),
        Front::Stops(fault) => report.leave(at(spot), Reason::Faulty(fault)),
    }
}

/// Adds the rows of what a block holds.
fn take_start<'a>(
    report: &mut Report<'a>,
    spot: Spot<'a>,
    start: &Start,
    wanted: Wanted,
    may_go_on: bool,
) -> Result<(), AllocError>
    ensures { OnOk result (held_in report.new ≡ added (held_in report.old) (start_rows (wanted_view wanted) may_go_on (spot_view spot.entry) (start_view start.now))) }
{
    match &start.content {
        Content::Octets(octets) => {
            take_octets(report, spot, octets, start.count, wanted, may_go_on)
        }
        Content::Unended => report.leave(at(spot), Reason::NoEnd),
        Content::Headers => report.leave(at(spot), Reason::WithHeaders),
        Content::Empty => report.leave(at(spot), Reason::NoOctets),
        Content::NoBase64 => report.leave(at(spot), Reason::NotBase64),
    }
}

/// Adds the rows of a block. What isn't taken by its label isn't decoded.
fn take_block<'a>(
    alloc: Global,
    report: &mut Report<'a>,
    block: Block<'a>,
) -> Result<(), AllocError>
    ensures { OnOk result (held_in report.new ≡ added (held_in report.old) (entry_rows (entry_view (Entry.Block block.entry)))) }
{
    let spot = Spot::Block(block.line, shown_label(block.label));
    let (wanted, may_go_on) = match label_kind(block.label) {
        LabelKind::OneItem => (Wanted::OneItem, false),
        LabelKind::Trusted => (Wanted::OneItem, true),
        LabelKind::SignedData => (Wanted::SignedData, false),
        LabelKind::Known => return report.leave(at(spot), Reason::OtherLabel),
        LabelKind::Unknown => return report.leave(at(spot), Reason::UnknownLabel),
    };
    let start = start_of_block(alloc, block)?;
    take_start(report, spot, &start, wanted, may_go_on)
}

/// Adds the rows of an entry of the report of a text.
fn take_entry<'a>(
    alloc: Global,
    report: &mut Report<'a>,
    entry: Entry<'a>,
) -> Result<(), AllocError>
    ensures { OnOk result (held_in report.new ≡ added (held_in report.old) (entry_rows (entry_view entry.entry))) }
{
    match entry {
        Entry::Block(block) => take_block(alloc, report, block),
        Entry::StrayEnd(number) => report.leave(at(Spot::Line(number)), Reason::StrayEnd),
        Entry::BadBoundary(number) => report.leave(at(Spot::Line(number)), Reason::BadBoundary),
    }
}

/// Adds the rows of the blocks and boundaries of a text.
pub(crate) fn take_entries<'a>(
    alloc: Global,
    report: &mut Report<'a>,
    text: &'a [u8],
) -> Result<(), AllocError>
    ensures { OnOk result (held_in report.new ≡ added (held_in report.old) (flat_map entry_rows (entries_of text.now))) }
{
    let mut cursor = Cursor::new(text);
    while let Some(entry) = cursor.next_entry() {
        take_entry(alloc, report, entry)?;
    }
    Ok(())
}
