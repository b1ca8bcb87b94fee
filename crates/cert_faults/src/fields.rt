//! Fields that hold no list: algorithms, keys, times, numbers (RFC 5280, 4.1.1.2, 4.1.2.5 and 4.1.2.7).

ghost use Rattle.std.specs.Prelude.{◌≡◌, true};
ghost use Rattle.der_tree.specs.View.{view, views};
ghost use Rattle.cert_faults.specs.Steps.{Gives, at_view, whole, within, next_or};
ghost use Rattle.cert_faults.specs.Walks.{identifier_fault, number_fault, bits_fault, octets_fault, time_fault, any_fault, last_in, algorithm_fault, validity_fault, key_fault};

use crate::parts::{bits_of, identifier_of, number_of, octet_string_of};
use crate::places::{Expected, Field, Part};
use crate::steps::{At, Blame, Place, end, first, sequence, unlike, whole, within};
use crate::times::time_of;
use der_tree::BerObject;

fn identifier_fault(place: Place, left: usize, object: &BerObject<'_>) -> Result<(), Blame>
    ensures { result ≡ identifier_fault place left (view object.now) }
{
    match identifier_of(object) {
        Some(_) => Ok(()),
        None => Err(unlike(place, Expected::Identifier, left)),
    }
}

fn number_fault(place: Place, left: usize, object: &BerObject<'_>) -> Result<(), Blame>
    ensures { result ≡ number_fault place left (view object.now) }
{
    match number_of(object) {
        Some(_) => Ok(()),
        None => Err(unlike(place, Expected::NumberFromZero, left)),
    }
}

fn bits_fault(place: Place, left: usize, object: &BerObject<'_>) -> Result<(), Blame>
    ensures { result ≡ bits_fault place left (view object.now) }
{
    match bits_of(object) {
        Some(_) => Ok(()),
        None => Err(unlike(place, Expected::BitString, left)),
    }
}

fn octets_fault(place: Place, left: usize, object: &BerObject<'_>) -> Result<(), Blame>
    ensures { result ≡ octets_fault place left (view object.now) }
{
    match octet_string_of(object) {
        Some(_) => Ok(()),
        None => Err(unlike(place, Expected::OctetString, left)),
    }
}

fn time_fault(place: Place, left: usize, object: &BerObject<'_>) -> Result<(), Blame>
    ensures { result ≡ time_fault place left (view object.now) }
{
    match time_of(object) {
        Some(_) => Ok(()),
        None => Err(unlike(place, Expected::Time, left)),
    }
}

/// Past an object identifier.
pub(crate) fn next_identifier<'b, 'a>(place: Place, at: At<'b, 'a>) -> Result<At<'b, 'a>, Blame>
    ensures { Gives at_view result (next_or (identifier_fault place) place Expected.Identifier (at_view at.entry)) }
{
    let (object, rest) = first(place, Expected::Identifier, at)?;
    identifier_fault(place, at.left, object)?;
    Ok(rest)
}

/// Past a number that is not negative.
pub(crate) fn next_number<'b, 'a>(place: Place, at: At<'b, 'a>) -> Result<At<'b, 'a>, Blame>
    ensures { Gives at_view result (next_or (number_fault place) place Expected.NumberFromZero (at_view at.entry)) }
{
    let (object, rest) = first(place, Expected::NumberFromZero, at)?;
    number_fault(place, at.left, object)?;
    Ok(rest)
}

/// Past a BIT STRING.
pub(crate) fn next_bits<'b, 'a>(place: Place, at: At<'b, 'a>) -> Result<At<'b, 'a>, Blame>
    ensures { Gives at_view result (next_or (bits_fault place) place Expected.BitString (at_view at.entry)) }
{
    let (object, rest) = first(place, Expected::BitString, at)?;
    bits_fault(place, at.left, object)?;
    Ok(rest)
}

/// Past an OCTET STRING.
pub(crate) fn next_octets<'b, 'a>(place: Place, at: At<'b, 'a>) -> Result<At<'b, 'a>, Blame>
    ensures { Gives at_view result (next_or (octets_fault place) place Expected.OctetString (at_view at.entry)) }
{
    let (object, rest) = first(place, Expected::OctetString, at)?;
    octets_fault(place, at.left, object)?;
    Ok(rest)
}

/// Past a time.
pub(crate) fn next_time<'b, 'a>(place: Place, at: At<'b, 'a>) -> Result<At<'b, 'a>, Blame>
    ensures { Gives at_view result (next_or (time_fault place) place Expected.Time (at_view at.entry)) }
{
    let (object, rest) = first(place, Expected::Time, at)?;
    time_fault(place, at.left, object)?;
    Ok(rest)
}

/// Past any element.
pub(crate) fn next_any<'b, 'a>(place: Place, at: At<'b, 'a>) -> Result<At<'b, 'a>, Blame>
    ensures { Gives at_view result (next_or any_fault place Expected.AnyElement (at_view at.entry)) }
{
    let (_, rest) = first(place, Expected::AnyElement, at)?;
    Ok(rest)
}

/// An element or nothing, to the end.
fn last(place: Place, at: At<'_, '_>) -> Result<(), Blame>
    ensures { result ≡ last_in place at.entry.left (views at.entry.parts.now) }
{
    match first(place, Expected::AnyElement, at) {
        Ok((_, rest)) => end(place, rest),
        Err(_) => Ok(()),
    }
}

/// AlgorithmIdentifier.
#[tactic(auto, unfolding(crate::specs::Walks::algorithm_fault))]
fn algorithm_fault(field: Field, left: usize, object: &BerObject<'_>) -> Result<(), Blame>
    ensures { result ≡ algorithm_fault field left (view object.now) }
{
    let all = sequence(whole(field), left, object)?;
    let rest = next_identifier(within(field, Part::Algorithm), all)?;
    last(within(field, Part::Parameters), rest)
}

/// Past an AlgorithmIdentifier.
pub(crate) fn next_algorithm<'b, 'a>(field: Field, at: At<'b, 'a>) -> Result<At<'b, 'a>, Blame>
    ensures { Gives at_view result (next_or (algorithm_fault field) (whole field) Expected.Sequence (at_view at.entry)) }
{
    let (object, rest) = first(whole(field), Expected::Sequence, at)?;
    algorithm_fault(field, at.left, object)?;
    Ok(rest)
}

/// Validity.
#[tactic(auto, unfolding(crate::specs::Walks::validity_fault))]
fn validity_fault(left: usize, object: &BerObject<'_>) -> Result<(), Blame>
    ensures { result ≡ validity_fault left (view object.now) }
{
    let all = sequence(whole(Field::Validity), left, object)?;
    let rest = next_time(whole(Field::NotBefore), all)?;
    let over = next_time(whole(Field::NotAfter), rest)?;
    end(whole(Field::Validity), over)
}

/// Past a Validity.
pub(crate) fn next_validity<'b, 'a>(at: At<'b, 'a>) -> Result<At<'b, 'a>, Blame>
    ensures { Gives at_view result (next_or validity_fault (whole Field.Validity) Expected.Sequence (at_view at.entry)) }
{
    let (object, rest) = first(whole(Field::Validity), Expected::Sequence, at)?;
    validity_fault(at.left, object)?;
    Ok(rest)
}

/// SubjectPublicKeyInfo.
#[tactic(auto, unfolding(crate::specs::Walks::key_fault))]
fn key_fault(left: usize, object: &BerObject<'_>) -> Result<(), Blame>
    ensures { result ≡ key_fault left (view object.now) }
{
    let all = sequence(whole(Field::SubjectPublicKeyInfo), left, object)?;
    let rest = next_algorithm(Field::KeyAlgorithm, all)?;
    let over = next_bits(whole(Field::SubjectPublicKey), rest)?;
    end(whole(Field::SubjectPublicKeyInfo), over)
}

/// Past a SubjectPublicKeyInfo.
pub(crate) fn next_key<'b, 'a>(at: At<'b, 'a>) -> Result<At<'b, 'a>, Blame>
    ensures { Gives at_view result (next_or key_fault (whole Field.SubjectPublicKeyInfo) Expected.Sequence (at_view at.entry)) }
{
    let (object, rest) = first(whole(Field::SubjectPublicKeyInfo), Expected::Sequence, at)?;
    key_fault(at.left, object)?;
    Ok(rest)
}
