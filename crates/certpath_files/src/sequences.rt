//! SEQUENCEs that are items or SignedData, and DER files of them.

ghost use Rattle.std.specs.Prelude.{◌≡◌, ◌<◌, ◌≤◌, length, OnOk, IfSome};
ghost use Rattle.certpath_files.specs.Fronts.{size_in};
ghost use Rattle.certpath_files.specs.FrontViews.{front_view};
ghost use Rattle.certpath_files.specs.Rows.{added};
ghost use Rattle.certpath_files.specs.RowViews.{spot_view, reason_view};
ghost use Rattle.certpath_files.specs.ReportViews.{held_in};
ghost use Rattle.cert_framing.specs.Framing.{IsItem};
ghost use Rattle.certpath_files.specs.Fronts.{most};
ghost use Rattle.certpath_files.specs.Framed.{IsItemIfWhole};
ghost use Rattle.certpath_files.specs.Walks.{front_rows};
ghost use Rattle.certpath_files.specs.Signed.{signed_sets};
ghost use Rattle.certpath_files.specs.Sequences.{signed_by, item_or_signed_data, sequence_rows, stream_rows};
ghost use Rattle.certpath_files.specs.Rows.{at};
ghost use Rattle.certpath_files.specs.SequenceViews.{wanted_view};

use crate::front::{Front, front_of};
use crate::members::{take_item, take_sets};
use crate::report::Report;
use crate::rows::{Reason, Spot, at};
use crate::shape::kind_of;
use crate::signed::signed_sets;
use std::alloc::AllocError;

/// What is looked for in a SEQUENCE.
#[derive(Clone, Copy)]
pub(crate) enum Wanted {
    OneItem,
    SignedData,
    ItemOrSignedData,
}

/// Adds the rows of SignedData, or that there is none, for this reason.
fn take_signed<'a>(
    report: &mut Report<'a>,
    spot: Spot<'a>,
    octets: &[u8],
    reason: Reason,
) -> Result<(), AllocError>
    ensures { OnOk result (held_in report.new ≡ added (held_in report.old) (signed_by (spot_view spot.entry) (reason_view reason) (signed_sets octets.now))) }
{
    match signed_sets(octets) {
        Some(sets) => take_sets(report, spot, sets),
        None => report.leave(at(spot), reason),
    }
}

/// Adds the rows of a SEQUENCE.
pub(crate) fn take_sequence<'a>(
    report: &mut Report<'a>,
    spot: Spot<'a>,
    octets: &[u8],
    wanted: Wanted,
) -> Result<(), AllocError>
    requires { IsItem most octets.now }
    ensures { OnOk result (held_in report.new ≡ added (held_in report.old) (sequence_rows (wanted_view wanted) (spot_view spot.entry) octets.now)) }
{
    match wanted {
        Wanted::OneItem => take_item(report, at(spot), octets),
        Wanted::SignedData => take_signed(report, spot, octets, Reason::NoSignedData),
        Wanted::ItemOrSignedData => match kind_of(octets) {
            Some(kind) => report.take(at(spot), kind, octets),
            None => take_signed(report, spot, octets, Reason::NoItem),
        },
    }
}

/// Adds the rows of what begins the octets of a DER file.
fn take_front<'a>(
    report: &mut Report<'a>,
    spot: Spot<'a>,
    octets: &[u8],
    front: Front,
) -> Result<(), AllocError>
    requires within { IfSome (size_in (front_view front)) (λ size. (0 < size) × (size ≤ length octets.now)) }
    requires framed { IsItemIfWhole (front_view front) octets.now }
    ensures { OnOk result (held_in report.new ≡ added (held_in report.old)
        (front_rows (at (spot_view spot.entry)) (sequence_rows item_or_signed_data (spot_view spot.entry)) octets.now (front_view front))) }
{
    match front {
        Front::Whole(size) => {
            take_sequence(report, spot, &octets[..size], Wanted::ItemOrSignedData)
        }
        Front::Passed(fault, _) => report.leave(at(spot), Reason::Faulty(fault)),
        Front::Stops(fault) => report.leave(at(spot), Reason::ToEnd(fault, octets.len())),
    }
}

/// Adds the rows of a DER file.
pub(crate) fn take_stream(report: &mut Report<'_>, octets: &[u8]) -> Result<(), AllocError>
    ensures { OnOk result (held_in report.new ≡ added (held_in report.old) (stream_rows octets.now)) }
{
    let mut rest = octets;
    while !rest.is_empty() {
        let spot = Spot::Octet(octets.len() - rest.len());
        let front = front_of(rest);
        take_front(report, spot, rest, front)?;
        let Some(size) = front.size() else {
            return Ok(());
        };
        rest = &rest[size..];
    }
    Ok(())
}
