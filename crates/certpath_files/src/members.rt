//! The members of the sets of SignedData.

ghost use Rattle.std.specs.Prelude.{◌≡◌, ◌<◌, ◌≤◌, length, OnOk, IfSome};
ghost use Rattle.certpath_files.specs.Fronts.{size_in};
ghost use Rattle.certpath_files.specs.FrontViews.{front_view};
ghost use Rattle.certpath_files.specs.ShapeViews.{kind_view};
ghost use Rattle.certpath_files.specs.Rows.{added};
ghost use Rattle.certpath_files.specs.RowViews.{place_view, spot_view};
ghost use Rattle.certpath_files.specs.ReportViews.{held_in};
ghost use Rattle.certpath_files.specs.SignedViews.{sets_view};
ghost use Rattle.cert_framing.specs.Framing.{IsItem};
ghost use Rattle.certpath_files.specs.Fronts.{most};
ghost use Rattle.certpath_files.specs.Framed.{IsItemIfWhole};
ghost use Rattle.certpath_files.specs.Walks.{front_rows};
ghost use Rattle.certpath_files.specs.Sequences.{item_rows, member_front, member_rows, signed_rows};

use crate::front::{Fault, Front, front_of};
use crate::parts::strict_part_at;
use crate::report::Report;
use crate::rows::{Member, Place, Reason, Spot, at};
use crate::shape::{Kind, kind_of};
use crate::signed::Sets;
use std::alloc::AllocError;

/// Adds the item that an element is, or that it is none.
pub(crate) fn take_item<'a>(
    report: &mut Report<'a>,
    place: Place<'a>,
    octets: &[u8],
) -> Result<(), AllocError>
    requires { IsItem most octets.now }
    ensures { OnOk result (held_in report.new ≡ added (held_in report.old) (item_rows (place_view place.entry) octets.now)) }
{
    match kind_of(octets) {
        Some(kind) => report.take(place, kind, octets),
        None => report.leave(place, Reason::NoItem),
    }
}

/// What the octets of a set begin with.
fn member_front(octets: &[u8]) -> Front
    ensures value { front_view result ≡ member_front octets.now }
    ensures framed { IsItemIfWhole (front_view result) octets.now }
    ensures within { IfSome (size_in (front_view result)) (λ size. (0 < size) × (size ≤ length octets.now)) }
{
    match front_of(octets) {
        Front::Whole(size) => Front::Whole(size),
        Front::Passed(fault, size) => Front::Passed(fault, size),
        Front::Stops(fault) => match strict_part_at(octets) {
            Some(part) => Front::Passed(Fault::NoSequence, octets.len() - part.rest.len()),
            None => Front::Stops(fault),
        },
    }
}

/// Adds the rows of the member that begins the octets.
fn take_member<'a>(
    report: &mut Report<'a>,
    place: Place<'a>,
    octets: &[u8],
    front: Front,
) -> Result<(), AllocError>
    requires within { IfSome (size_in (front_view front)) (λ size. (0 < size) × (size ≤ length octets.now)) }
    requires framed { IsItemIfWhole (front_view front) octets.now }
    ensures { OnOk result (held_in report.new ≡ added (held_in report.old)
        (front_rows (place_view place.entry) (item_rows (place_view place.entry)) octets.now (front_view front))) }
{
    match front {
        Front::Whole(size) => take_item(report, place, &octets[..size]),
        Front::Passed(fault, _) => report.leave(place, Reason::Faulty(fault)),
        Front::Stops(fault) => report.leave(place, Reason::ToEnd(fault, octets.len())),
    }
}

/// Adds the rows of a set's content.
fn take_members<'a>(
    report: &mut Report<'a>,
    spot: Spot<'a>,
    set: Kind,
    content: &[u8],
) -> Result<(), AllocError>
    ensures { OnOk result (held_in report.new ≡ added (held_in report.old) (member_rows (spot_view spot.entry) (kind_view set) content.now)) }
{
    let mut rest = content;
    let mut number = 0;
    while !rest.is_empty() {
        let member = Some(Member { set, number });
        let place = Place { spot, member };
        let front = member_front(rest);
        take_member(report, place, rest, front)?;
        let Some(size) = front.size() else {
            return Ok(());
        };
        rest = &rest[size..];
        number += 1;
    }
    Ok(())
}

/// Adds the rows of SignedData.
pub(crate) fn take_sets<'a>(
    report: &mut Report<'a>,
    spot: Spot<'a>,
    sets: Sets<'_>,
) -> Result<(), AllocError>
    ensures { OnOk result (held_in report.new ≡ added (held_in report.old) (signed_rows (spot_view spot.entry) (sets_view sets.entry))) }
{
    if sets.certificates.is_empty() && sets.lists.is_empty() {
        return report.leave(at(spot), Reason::NoMembers);
    }
    take_members(report, spot, Kind::Certificate, sets.certificates)?;
    take_members(report, spot, Kind::List, sets.lists)
}
