//! Certificates (RFC 5280, 4.1).

ghost use Rattle.std.specs.Prelude.{◌≡◌, ◌==◌, ℕ, Ok, Err, option_map, Some};
ghost use Rattle.der_tree.specs.Tree.{octets};
ghost use Rattle.der_tree.specs.Shape.{IsObject};
ghost use Rattle.der_tree.specs.View.{view, views};
ghost use Rattle.cert_model.specs.Fields.{Certificate};
ghost use Rattle.cert_model.specs.Assembly.{version_number, version_in, bits_in, id_in};
ghost use Rattle.cert_model.specs.Class.{IsCertificateItem, NoCertificate};
ghost use Rattle.cert_model.specs.View.{any_view, bit_view};
ghost use Rattle.cert_faults.specs.Steps.{Gives, at_view, whole};
ghost use Rattle.cert_faults.specs.Items.{certificate_version, id_of, id_or, certificate_front, signed_front, IsCertificateFault};
ghost use Rattle.cert_faults.specs.Fault.{Walks};

use crate::fields::{next_algorithm, next_key, next_number, next_validity};
use crate::names::next_name;
use crate::places::{Expected, Field};
use crate::signed::signed_end;
use crate::steps::{At, Blame, Stop, first, sequence, unlike, whole};
use crate::tagged::{next_tagged, tagged};
use cert_model::fields::{AnyField, BitField};
use der_tree::BerObject;
use std::alloc::Global;

/// The context-specific tags of TBSCertificate (RFC 5280, 4.1).
const VERSION: u32 = 0;

const ISSUER_ID: u32 = 1;

const SUBJECT_ID: u32 = 2;

const EXTENSIONS: u32 = 3;

/// The versions as they are written (RFC 5280, 4.1.2.1); the first one never is.
const VERSION_1: u8 = 0;

const VERSION_2: u8 = 1;

const VERSION_3: u8 = 2;

/// The identifier octet of an INTEGER (X.690, 8.1.2).
const INTEGER: u8 = 0x02;

/// The INTEGER in [0], which is 1 or 2.
fn version_number(content: &[u8]) -> Option<u8>
    ensures { result ≡ version_number content.now }
{
    match content {
        [tag, length, version] => {
            if *tag == INTEGER && *length == 1 && (*version == VERSION_2 || *version == VERSION_3) {
                Some(*version)
            } else {
                None
            }
        }
        _ => None,
    }
}

/// The version, 0 if it isn't written.
fn version_of(element: Option<AnyField<'_>>) -> Option<u8>
    ensures { result ≡ version_in (option_map any_view element.entry) }
{
    match element {
        None => Some(VERSION_1),
        Some(element) => {
            if element.constructed {
                version_number(element.content)
            } else {
                None
            }
        }
    }
}

/// The version, and what follows.
fn next_version<'b, 'a>(at: At<'b, 'a>) -> Result<(u8, At<'b, 'a>), Blame>
    ensures { Gives (λ p. (p.0, at_view p.1)) result (certificate_version (at_view at.entry)) }
{
    let (element, _, rest) = tagged(VERSION, at);
    match version_of(element) {
        Some(version) => Ok((version, rest)),
        None => Err(unlike(whole(Field::Version), Expected::VersionTwoOrThree, at.left)),
    }
}

fn id_content<'a>(content: &'a [u8]) -> Option<Option<BitField<'a>>>
    ensures { option_map (option_map bit_view) result ≡ bits_in content.now }
{
    match der_tree::bits_of(content) {
        Some((unused, octets)) => Some(Some(BitField { unused, octets })),
        None => None,
    }
}

/// A unique identifier.
fn id_in<'a>(element: AnyField<'a>) -> Option<Option<BitField<'a>>>
    ensures { option_map (option_map bit_view) result ≡ id_in (Some (any_view element.entry)) }
{
    if element.constructed {
        None
    } else {
        id_content(element.content)
    }
}

/// Past a unique identifier, with version 2 or 3 only (RFC 5280, 4.1.2.8).
fn next_id<'b, 'a>(field: Field, tag: u32, version: u8, at: At<'b, 'a>) -> Result<At<'b, 'a>, Blame>
    ensures { Gives at_view result (id_or field tag version (at_view at.entry)) }
{
    let (element, _, rest) = tagged(tag, at);
    let Some(element) = element else {
        return Ok(rest);
    };
    if version == VERSION_1 {
        return Err(unlike(whole(field), Expected::LaterVersion, at.left));
    }
    match id_in(element) {
        Some(_) => Ok(rest),
        None => Err(unlike(whole(field), Expected::ImplicitBits, at.left)),
    }
}

/// TBSCertificate up to its extensions: whether its version has any, and what is left.
#[tactic(auto, unfolding(crate::specs::Items::certificate_front))]
fn certificate_front<'b, 'a>(
    left: usize,
    object: &'b BerObject<'a>,
) -> Result<(bool, At<'b, 'a>), Blame>
    ensures { Gives (λ p. (p.0, at_view p.1)) result (certificate_front left (view object.now)) }
{
    let all = sequence(whole(Field::TbsCertificate), left, object)?;
    let (version, rest) = next_version(all)?;
    let serial = next_number(whole(Field::SerialNumber), rest)?;
    let signature = next_algorithm(Field::Signature, serial)?;
    let issuer = next_name(Field::Issuer, signature)?;
    let validity = next_validity(issuer)?;
    let subject = next_name(Field::Subject, validity)?;
    let key = next_key(subject)?;
    let issuer_id = next_id(Field::IssuerUniqueId, ISSUER_ID, version, key)?;
    let subject_id = next_id(Field::SubjectUniqueId, SUBJECT_ID, version, issuer_id)?;
    Ok((version == VERSION_3, subject_id))
}

/// Certificate up to the extensions, and the parts after TBSCertificate.
fn certificate_fronts<'b, 'a>(
    left: usize,
    object: &'b BerObject<'a>,
) -> Result<(bool, At<'b, 'a>, At<'b, 'a>), Blame>
    ensures { Gives (λ p. ((p.0, at_view p.1), at_view p.2)) result (signed_front Field.TbsCertificate certificate_front left (view object.now)) }
{
    let all = sequence(whole(Field::Item), left, object)?;
    let (first, rest) = first(whole(Field::TbsCertificate), Expected::Sequence, all)?;
    let (is_later, inner) = certificate_front(all.left, first)?;
    Ok((is_later, inner, rest))
}

/// The first fault of an object as a certificate.
pub(crate) fn certificate_fault(
    alloc: Global,
    left: usize,
    object: &BerObject<'_>,
) -> Result<(), Stop>
    requires { IsObject 50 (view object.now) }
    ensures { Walks result (λ u. (c : Certificate) × IsCertificateItem (octets (view object.now)) c)
        (λ b. IsCertificateFault left (view object.now) b × NoCertificate (octets (view object.now))) }
{
    match certificate_fronts(left, object) {
        Err(blame) => Err(Stop::Fault(blame)),
        Ok((is_later, inner, outer)) => {
            let rest = next_tagged(alloc, Field::Extensions, EXTENSIONS, is_later, inner)?;
            match signed_end(Field::TbsCertificate, rest, outer) {
                Ok(()) => Ok(()),
                Err(blame) => Err(Stop::Fault(blame)),
            }
        }
    }
}
