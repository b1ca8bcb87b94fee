//! Revocation lists (RFC 5280, 5.1).

ghost use Rattle.std.specs.Prelude.{◌≡◌, ◌==◌, ℕ, List, Ok, Err, option_map};
ghost use Rattle.cert_model.specs.Assembly.{is_version_two};
ghost use Rattle.der_tree.specs.Tree.{octets};
ghost use Rattle.der_tree.specs.Shape.{IsObject};
ghost use Rattle.der_tree.specs.View.{view, views};
ghost use Rattle.cert_model.specs.Fields.{RevocationList};
ghost use Rattle.cert_model.specs.Class.{IsListItem, NoList};
ghost use Rattle.cert_faults.specs.Steps.{Gives, at_view, whole, each_in};
ghost use Rattle.cert_faults.specs.Walks.{entry_fault};
ghost use Rattle.cert_faults.specs.Items.{one_or, list_version_in, next_update_in, is_time, entries_in, list_front, signed_front, IsListFault, has_time, has_time_in, first_has_time, means_list};
ghost use Rattle.cert_faults.specs.Fault.{Walks};

use crate::extensions::{entry_fault, is_version_two};
use crate::fields::{next_algorithm, next_time};
use crate::names::next_name;
use crate::parts::integer_of;
use crate::places::{Expected, Field};
use crate::signed::signed_end;
use crate::steps::{At, Blame, Stop, first, inside, left_after, sequence, unlike, whole};
use crate::tagged::next_tagged;
use crate::times::{generalized_content, time_of, utc_content};
use der_tree::{BerObject, first_of};
use std::alloc::Global;

/// The context-specific tag of crlExtensions (RFC 5280, 5.1).
const EXTENSIONS: u32 = 0;

/// Version 2 as it is written (RFC 5280, 5.1.2.1).
const VERSION_2: u8 = 1;

/// The version that a number is, which is 1.
fn version_of<'b, 'a>(
    number: &[u8],
    left: usize,
    rest: At<'b, 'a>,
) -> Result<(Option<u8>, At<'b, 'a>), Blame>
    ensures { Gives (λ p. (p.0, at_view p.1)) result (one_or number.now left (at_view rest.entry)) }
{
    match number {
        [version] => {
            if *version == VERSION_2 {
                Ok((Some(*version), rest))
            } else {
                Err(unlike(whole(Field::ListVersion), Expected::VersionTwo, left))
            }
        }
        _ => Err(unlike(whole(Field::ListVersion), Expected::VersionTwo, left)),
    }
}

/// The version, if there is one, and what follows.
fn next_version<'b, 'a>(at: At<'b, 'a>) -> Result<(Option<u8>, At<'b, 'a>), Blame>
    ensures { Gives (λ p. (p.0, at_view p.1)) result (list_version_in at.entry.left (views at.entry.parts.now)) }
{
    let Some((object, rest)) = first_of(at.parts) else {
        return Ok((None, at));
    };
    match integer_of(object) {
        None => Ok((None, at)),
        Some(number) => {
            let rest = At {
                parts: rest,
                left: left_after(object, at.left),
            };
            version_of(number, at.left, rest)
        }
    }
}

/// Past nextUpdate, if there is one. A time in another form than that of RFC 5280, 4.1.2.5, is one
/// too, since no other field of TBSCertList there is a time.
fn next_update<'b, 'a>(at: At<'b, 'a>) -> Result<At<'b, 'a>, Blame>
    ensures { Gives at_view result (next_update_in at.entry.left (views at.entry.parts.now)) }
{
    let Some((object, rest)) = first_of(at.parts) else {
        return Ok(at);
    };
    match time_of(object) {
        Some(_) => Ok(At {
            parts: rest,
            left: left_after(object, at.left),
        }),
        None => {
            if is_time(object) {
                Err(unlike(whole(Field::NextUpdate), Expected::Time, at.left))
            } else {
                Ok(at)
            }
        }
    }
}

/// Each of some entries.
fn each_entry_fault(version: Option<u8>, at: At<'_, '_>) -> Result<(), Blame>
    ensures { result ≡ each_in (entry_fault version) at.entry.left (views at.entry.parts.now) }
{
    let mut left = at.left;
    for object in at.parts {
        entry_fault(version, left, object)?;
        left = left_after(object, left);
    }
    Ok(())
}

/// Past revokedCertificates, if there is a SEQUENCE.
fn next_entries<'b, 'a>(version: Option<u8>, at: At<'b, 'a>) -> Result<At<'b, 'a>, Blame>
    ensures { Gives at_view result (entries_in version at.entry.left (views at.entry.parts.now)) }
{
    let Some((object, rest)) = first_of(at.parts) else {
        return Ok(at);
    };
    match object.as_sequence() {
        Err(_) => Ok(at),
        Ok(parts) => {
            let entries = At {
                parts: parts.as_slice(),
                left: inside(object, at.left),
            };
            first(
                whole(Field::RevokedCertificates),
                Expected::OneEntry,
                entries,
            )?;
            match each_entry_fault(version, entries) {
                Ok(()) => Ok(At {
                    parts: rest,
                    left: left_after(object, at.left),
                }),
                Err(blame) => Err(blame),
            }
        }
    }
}

/// TBSCertList up to its extensions: whether its version has any, and what is left.
#[tactic(auto, unfolding(crate::specs::Items::list_front))]
fn list_front<'b, 'a>(left: usize, object: &'b BerObject<'a>) -> Result<(bool, At<'b, 'a>), Blame>
    ensures { Gives (λ p. (p.0, at_view p.1)) result (list_front left (view object.now)) }
{
    let all = sequence(whole(Field::TbsCertList), left, object)?;
    let (version, rest) = next_version(all)?;
    let signature = next_algorithm(Field::ListSignature, rest)?;
    let issuer = next_name(Field::ListIssuer, signature)?;
    let this_update = next_time(whole(Field::ThisUpdate), issuer)?;
    let next_update = next_update(this_update)?;
    let entries = next_entries(version, next_update)?;
    Ok((is_version_two(version), entries))
}

/// CertificateList up to the extensions, and the parts after TBSCertList.
fn list_fronts<'b, 'a>(
    left: usize,
    object: &'b BerObject<'a>,
) -> Result<(bool, At<'b, 'a>, At<'b, 'a>), Blame>
    ensures { Gives (λ p. ((p.0, at_view p.1), at_view p.2)) result (signed_front Field.TbsCertList list_front left (view object.now)) }
{
    let all = sequence(whole(Field::Item), left, object)?;
    let (first, rest) = first(whole(Field::TbsCertList), Expected::Sequence, all)?;
    let (is_later, inner) = list_front(all.left, first)?;
    Ok((is_later, inner, rest))
}

/// The first fault of an object as a revocation list.
pub(crate) fn list_fault(alloc: Global, left: usize, object: &BerObject<'_>) -> Result<(), Stop>
    requires { IsObject 50 (view object.now) }
    ensures { Walks result (λ u. (l : RevocationList) × IsListItem (octets (view object.now)) l)
        (λ b. IsListFault left (view object.now) b × NoList (octets (view object.now))) }
{
    match list_fronts(left, object) {
        Err(blame) => Err(Stop::Fault(blame)),
        Ok((is_later, inner, outer)) => {
            let rest = next_tagged(alloc, Field::ListExtensions, EXTENSIONS, is_later, inner)?;
            match signed_end(Field::TbsCertList, rest, outer) {
                Ok(()) => Ok(()),
                Err(blame) => Err(Stop::Fault(blame)),
            }
        }
    }
}

fn is_time(object: &BerObject<'_>) -> bool
    ensures { result ≡ is_time (view object.now) }
{
    utc_content(object).is_some() || generalized_content(object).is_some()
}

/// Whether a time is among some parts.
fn has_time(parts: &[BerObject<'_>]) -> bool
    ensures { result ≡ has_time (views parts.now) }
{
    for object in parts {
        if is_time(object) {
            return true;
        }
    }
    false
}

/// Whether an object is meant as a list: a time is among the parts of its first part.
pub(crate) fn means_list(object: &BerObject<'_>) -> bool
    ensures { result ≡ means_list (view object.now) }
{
    let Ok(parts) = object.as_sequence() else {
        return false;
    };
    let Some((first, _)) = first_of(parts.as_slice()) else {
        return false;
    };
    let Ok(parts) = first.as_sequence() else {
        return false;
    };
    has_time(parts.as_slice())
}
