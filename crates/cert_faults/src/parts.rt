//! Single elements of a tree, by what they hold.

ghost use Rattle.std.specs.Prelude.{◌≡◌, ℕ, option_map};
ghost use Rattle.asn1_core.specs.Views.{head_of, size_of};
ghost use Rattle.der_tree.specs.Table.{integer, octet_string, is_negative};
ghost use Rattle.der_tree.specs.Access.{plain_at, element_at};
ghost use Rattle.der_tree.specs.View.{view, views};
ghost use Rattle.cert_model.specs.View.{any_view, bit_view};
ghost use Rattle.cert_model.specs.Reads.{identifier_at, number_at, bits_at, is_tagged};

use asn1_core::{Class, Length};
use cert_model::fields::{AnyField, BitField};
use der_tree::{BerObject, BerObjectContent};

/// The bit of a first content octet by which an INTEGER is negative (X.690, 8.3.3).
const SIGN: u8 = 0x80;

/// The element that the object is, whatever it holds.
pub(crate) fn element_of<'a>(object: &BerObject<'a>) -> AnyField<'a>
    ensures { any_view result ≡ element_at (view object.now) }
{
    let raw = object.as_raw();
    let size = size_of(object.header.length());
    AnyField {
        class: object.header.class(),
        constructed: object.header.constructed(),
        tag: object.header.tag(),
        content: &raw[raw.len().saturating_sub(size)..],
    }
}

fn size_of(length: Length) -> usize
    ensures { result ≡ size_of length }
{
    match length {
        Length::Definite(size) => size,
        Length::Indefinite => 0,
    }
}

#[tactic(auto, unfolding(cert_model::specs::Reads::identifier_at))]
pub(crate) fn identifier_of<'a>(object: &BerObject<'a>) -> Option<&'a [u8]>
    ensures { option_map (λ octets. octets.now) result ≡ identifier_at (view object.now) }
{
    match object.as_oid() {
        Ok(_) => Some(element_of(object).content),
        Err(_) => None,
    }
}

pub(crate) fn integer_of<'a>(object: &BerObject<'a>) -> Option<&'a [u8]>
    ensures { option_map (λ octets. octets.now) result ≡ plain_at integer (view object.now) }
{
    match &object.content {
        BerObjectContent::Integer(octets) => Some(octets),
        _ => None,
    }
}

pub(crate) fn octet_string_of<'a>(object: &BerObject<'a>) -> Option<&'a [u8]>
    ensures { option_map (λ octets. octets.now) result ≡ plain_at octet_string (view object.now) }
{
    match &object.content {
        BerObjectContent::OctetString(octets) => Some(octets),
        _ => None,
    }
}

/// Whether a two's complement number is negative: its first bit is set (X.690, 8.3.3).
fn is_negative(number: &[u8]) -> bool
    ensures { result ≡ is_negative number.now }
{
    match number {
        [] => false,
        [first, ..] => *first >= SIGN,
    }
}

/// A number that is not negative.
#[tactic(auto, unfolding(cert_model::specs::Reads::number_at))]
pub(crate) fn number_of<'a>(object: &BerObject<'a>) -> Option<&'a [u8]>
    ensures { option_map (λ number. number.now) result ≡ number_at (view object.now) }
{
    let number = integer_of(object)?;
    if is_negative(number) {
        None
    } else {
        Some(number)
    }
}

#[tactic(auto, unfolding(cert_model::specs::Reads::bits_at))]
pub(crate) fn bits_of<'a>(object: &BerObject<'a>) -> Option<BitField<'a>>
    ensures { option_map bit_view result ≡ bits_at (view object.now) }
{
    match object.as_bitstring() {
        Ok((unused, octets)) => Some(BitField { unused, octets }),
        Err(_) => None,
    }
}

/// Whether an element has this context-specific tag.
pub(crate) fn is_tagged(tag: u32, element: AnyField<'_>) -> bool
    ensures { result ≡ is_tagged tag (any_view element.entry) }
{
    element.class == Class::ContextSpecific && element.tag.0 == tag
}
