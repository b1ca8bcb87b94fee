//! The lines of a file: one for each thing that is left out of it.

ghost use Rattle.std.specs.Prelude.{◌≡◌, ◌++◌, OnOk, map, string_bytes, option_map};
ghost use Rattle.std.specs.List.{flat_map};
ghost use Rattle.certpath_files.specs.RowViews.{spot_view, member_view, place_view, reason_view, row_view};
ghost use Rattle.certpath_files.specs.ShapeViews.{kind_view};
ghost use Rattle.certpath_bundle.specs.Lines.{block_words, spot_words, set_words, member_words, place_words, left_line, row_line, file_lines};

use crate::names::{push_label, push_name};
use crate::words::push_reason;
use certpath_files::{Kind, Member, Place, Reason, Row, Spot};
use std::alloc::AllocError;

/// Appends the line at which a block begins, and its label.
fn push_block(text: &mut String, number: usize, label: &[u8]) -> Result<(), AllocError>
    ensures { OnOk result (string_bytes text.new ≡ string_bytes text.old ++ block_words number label.now) }
{
    write!(text, " line {number} (")?;
    push_label(text, label)?;
    text.push_str(")")
}

/// Appends where in a file something is.
fn push_spot(text: &mut String, spot: Spot<'_>) -> Result<(), AllocError>
    ensures { OnOk result (string_bytes text.new ≡ string_bytes text.old ++ spot_words (spot_view spot.entry)) }
{
    match spot {
        Spot::File => Ok(()),
        Spot::Octet(position) => write!(text, " octet {position}"),
        Spot::Line(number) => write!(text, " line {number}"),
        Spot::Block(number, None) => write!(text, " line {number}"),
        Spot::Block(number, Some(label)) => push_block(text, number, label),
    }
}

/// The word for an element of a set of SignedData.
fn push_set(text: &mut String, set: Kind) -> Result<(), AllocError>
    ensures { OnOk result (string_bytes text.new ≡ string_bytes text.old ++ set_words (kind_view set)) }
{
    match set {
        Kind::Certificate => text.push_str(" certificate "),
        Kind::List => text.push_str(" list "),
    }
}

/// Appends which element of SignedData something is, if it is one.
fn push_member(text: &mut String, member: Option<Member>) -> Result<(), AllocError>
    ensures { OnOk result (string_bytes text.new ≡ string_bytes text.old ++ member_words (option_map member_view member)) }
{
    match member {
        None => Ok(()),
        Some(member) => {
            push_set(text, member.set)?;
            let number = member.number;
            write!(text, "{number}")
        }
    }
}

fn push_place(text: &mut String, place: Place<'_>) -> Result<(), AllocError>
    ensures { OnOk result (string_bytes text.new ≡ string_bytes text.old ++ place_words (place_view place.entry)) }
{
    push_spot(text, place.spot)?;
    push_member(text, place.member)
}

/// Appends the line of what is left out of a file.
fn push_left_out(
    text: &mut String,
    name: &str,
    place: Place<'_>,
    reason: Reason,
) -> Result<(), AllocError>
    ensures { OnOk result (string_bytes text.new ≡ string_bytes text.old ++ left_line name.now (place_view place.entry) (reason_view reason)) }
{
    push_name(text, name)?;
    push_place(text, place)?;
    text.push_str(": ")?;
    push_reason(text, reason)?;
    text.push_str("; left out\n")
}

/// Appends the line of a row, if it has one.
fn push_row(text: &mut String, name: &str, row: Row<'_>) -> Result<(), AllocError>
    ensures { OnOk result (string_bytes text.new ≡ string_bytes text.old ++ row_line name.now (row_view row.entry)) }
{
    match row {
        Row::Item(_, _, _) => Ok(()),
        Row::LeftOut(place, reason) => push_left_out(text, name, place, reason),
    }
}

/// Appends the lines of a file.
pub(crate) fn push_lines(text: &mut String, name: &str, rows: &[Row<'_>]) -> Result<(), AllocError>
    ensures { OnOk result (string_bytes text.new ≡ string_bytes text.old ++ file_lines name.now (map row_view rows.now)) }
{
    for row in rows {
        push_row(text, name, *row)?;
    }
    Ok(())
}
