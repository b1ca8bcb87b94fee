//! The items of a file, whatever its form, and what is left out of it.

ghost use Rattle.std.specs.Prelude.{◌≡◌, [], ◌∷◌, ◌++◌, map, option_map, count_by, IfOk, OnOk};
ghost use Rattle.std.specs.List.{list_any};
ghost use Rattle.certpath_files.specs.RowViews.{spot_view, member_view, place_view, reason_view, row_view};
ghost use Rattle.certpath_files.specs.FrontViews.{fault_view};
ghost use Rattle.certpath_pem.specs.SourceViews.{source_view};
ghost use Rattle.certpath_c.specs.Loading.{spot_line, spot_position, spot_label, member_set, member_number, fault_number, reason_number, missing_in, count_in, to_end_in, left_row, left_rows, is_item, is_signed, form_number, LoadAnswer};

use crate::labels::label_number;
use crate::status::{DONE, OUT_OF_MEMORY, TOO_SMALL};
use crate::writing::put_both;
use certpath_files::{Fault, Kind, Member, Place, Reason, Row, Spot, items_of};
use certpath_pem::{Source, source_of};
use std::alloc::{AllocError, Global};

/// Something that is left out of a file.
#[repr(C)]
#[derive(Clone, Copy, Debug)]
pub struct LeftOut {
    pub line: usize,
    pub position: usize,
    pub before: usize,
    pub label: u32,
    pub set: u32,
    pub number: usize,
    pub reason: u32,
    pub count: usize,
    pub to_end: usize,
}

/// What a file is, and how much it holds.
#[repr(C)]
#[derive(Clone, Copy, Debug)]
pub struct Loaded {
    pub form: u32,
    pub length: usize,
    pub count: usize,
    pub left: usize,
}

fn spot_line(spot: Spot<'_>) -> usize
    ensures { result ≡ spot_line (spot_view spot.entry) }
{
    match spot {
        Spot::File => 0,
        Spot::Octet(_) => 0,
        Spot::Line(number) => number,
        Spot::Block(number, _) => number,
    }
}

fn spot_position(spot: Spot<'_>) -> usize
    ensures { result ≡ spot_position (spot_view spot.entry) }
{
    match spot {
        Spot::Octet(position) => position,
        Spot::File => 0,
        Spot::Line(_) => 0,
        Spot::Block(_, _) => 0,
    }
}

fn spot_label(spot: Spot<'_>) -> u32
    ensures { result ≡ spot_label (spot_view spot.entry) }
{
    match spot {
        Spot::Block(_, Some(label)) => label_number(label),
        Spot::Block(_, None) => 0,
        Spot::File => 0,
        Spot::Octet(_) => 0,
        Spot::Line(_) => 0,
    }
}

fn member_set(member: Option<Member>) -> u32
    ensures { result ≡ member_set (option_map member_view member) }
{
    match member {
        None => 0,
        Some(found) => match found.set {
            Kind::Certificate => 1,
            Kind::List => 2,
        },
    }
}

fn member_number(member: Option<Member>) -> usize
    ensures { result ≡ member_number (option_map member_view member) }
{
    match member {
        None => 0,
        Some(found) => found.number,
    }
}

fn fault_number(fault: Fault) -> u32
    ensures { result ≡ fault_number (fault_view fault) }
{
    match fault {
        Fault::NoSequence => 16,
        Fault::NoLength => 17,
        Fault::TooLong => 18,
        Fault::Missing(_) => 19,
        Fault::LongForm => 20,
    }
}

fn reason_number(reason: Reason) -> u32
    ensures { result ≡ reason_number (reason_view reason) }
{
    match reason {
        Reason::EmptyFile => 0,
        Reason::NoForm => 1,
        Reason::WideText => 2,
        Reason::NoItem => 3,
        Reason::Behind(_) => 4,
        Reason::NoEnd => 5,
        Reason::WithHeaders => 6,
        Reason::NoOctets => 7,
        Reason::NotBase64 => 8,
        Reason::OtherLabel => 9,
        Reason::UnknownLabel => 10,
        Reason::StrayEnd => 11,
        Reason::BadBoundary => 12,
        Reason::NoText => 13,
        Reason::NoSignedData => 14,
        Reason::NoMembers => 15,
        Reason::Faulty(fault) => fault_number(fault),
        Reason::ToEnd(fault, _) => fault_number(fault),
    }
}

/// How many octets of an element are missing.
fn missing_in(fault: Fault) -> usize
    ensures { result ≡ missing_in (fault_view fault) }
{
    match fault {
        Fault::Missing(count) => count,
        _ => 0,
    }
}

/// How many octets a reason counts.
fn count_in(reason: Reason) -> usize
    ensures { result ≡ count_in (reason_view reason) }
{
    match reason {
        Reason::Behind(count) => count,
        Reason::Faulty(fault) => missing_in(fault),
        Reason::ToEnd(fault, _) => missing_in(fault),
        _ => 0,
    }
}

/// How many octets from here to the end are left out with it.
fn to_end_in(reason: Reason) -> usize
    ensures { result ≡ to_end_in (reason_view reason) }
{
    match reason {
        Reason::ToEnd(_, count) => count,
        _ => 0,
    }
}

/// What is left out, as the header has it, after so many items.
fn left_row(before: usize, place: Place<'_>, reason: Reason) -> LeftOut
    ensures { result ≡ left_row before (place_view place.entry) (reason_view reason) }
{
    LeftOut {
        line: spot_line(place.spot),
        position: spot_position(place.spot),
        before,
        label: spot_label(place.spot),
        set: member_set(place.member),
        number: member_number(place.member),
        reason: reason_number(reason),
        count: count_in(reason),
        to_end: to_end_in(reason),
    }
}

/// Adds what a row leaves out, if so many items are before it.
fn push_left(left: &mut Vec<LeftOut>, before: usize, row: &Row<'_>) -> Result<(), AllocError>
    ensures { OnOk result (left.new.items ≡ left.old.items ++ left_rows before (row_view row.now ∷ [])) }
{
    match row {
        Row::Item(_, _, _) => Ok(()),
        Row::LeftOut(place, reason) => {
            left.push(left_row(before, *place, *reason))?;
            Ok(())
        }
    }
}

/// What is left out, in the order of the file.
fn left_rows(alloc: Global, rows: &[Row<'_>]) -> Result<Vec<LeftOut>, AllocError>
    ensures { IfOk result (λ left. left.items ≡ left_rows 0 (map row_view rows.now)) }
{
    let mut left = Vec::new(alloc);
    let mut before = 0;
    for row in rows {
        push_left(&mut left, before, row)?;
        if is_item(row) {
            before += 1;
        }
    }
    Ok(left)
}

fn is_item(row: &Row<'_>) -> bool
    ensures { result ≡ is_item (row_view row.now) }
{
    match row {
        Row::Item(_, _, _) => true,
        Row::LeftOut(_, _) => false,
    }
}

/// How many items a file has.
fn item_count(rows: &[Row<'_>]) -> usize
    ensures { result ≡ count_by (λ r. is_item (row_view r)) rows.now }
{
    rows.iter().filter(|row| is_item(row)).count()
}

/// Whether a row is on SignedData.
fn is_signed(row: &Row<'_>) -> bool
    ensures { result ≡ is_signed (row_view row.now) }
{
    match row {
        Row::Item(place, _, _) => place.member.is_some(),
        Row::LeftOut(_, Reason::NoMembers) => true,
        Row::LeftOut(place, _) => place.member.is_some(),
    }
}

/// Whether a file has SignedData.
fn has_signed(rows: &[Row<'_>]) -> bool
    ensures { result ≡ list_any (λ r. is_signed (row_view r)) rows.now }
{
    rows.iter().any(|row| is_signed(row))
}

/// The number of a file's form.
fn form_number(source: Source, rows: &[Row<'_>]) -> u32
    ensures { result ≡ form_number (source_view source) (list_any (λ r. is_signed (row_view r)) rows.now) }
{
    match source {
        Source::Nothing => 0,
        Source::Pem => 1,
        Source::Der => { if has_signed(rows) { 3 } else { 2 } }
        Source::Utf16 => 4,
        Source::Other => 4,
    }
}

/// `certpath_load` of the header.
#[unsafe(no_mangle)]
pub extern "C" fn certpath_load(
    alloc: Global,
    octets: &[u8],
    items: &mut [u8],
    left: &mut [LeftOut],
    loaded: &mut Loaded,
) -> i32
    ensures { LoadAnswer octets.now items.old items.new left.old left.new loaded.old loaded.new result }
{
    let Ok(report) = items_of(alloc, octets) else {
        return OUT_OF_MEMORY;
    };
    let Ok(rows) = left_rows(alloc, &report.rows) else {
        return OUT_OF_MEMORY;
    };
    *loaded = Loaded {
        form: form_number(source_of(octets), &report.rows),
        length: report.octets.len(),
        count: item_count(&report.rows),
        left: rows.len(),
    };
    if put_both(items, &report.octets, left, &rows) {
        DONE
    } else {
        TOO_SMALL
    }
}
