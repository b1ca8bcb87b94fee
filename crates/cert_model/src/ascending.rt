//! The order in which the attributes of a relative distinguished name are written (X.690, 11.6),
//! without memory.

ghost use Rattle.std.specs.Prelude.{◌≡◌, ◌&&◌, ◌+◌, ◌<◌, ◌≤◌, ℕ, List, [], ◌∷◌, ◌++◌, length, drop, map};
ghost use Rattle.std.specs.Int.Digits.{digits_of};
ghost use Rattle.asn1_core.specs.Strict.{strict_header, strict_length};
ghost use Rattle.asn1_core.specs.Views.{class_number};
ghost use Rattle.cert_model.specs.Octets.{attribute_octets};
ghost use Rattle.cert_model.specs.Range.{is_at_most, are_ascending};
ghost use Rattle.std.specs.Cmp.Lexicographic.{slice_cmp};
ghost use Rattle.std.specs.Ordering.{nat_cmp};
ghost use Rattle.cert_model.specs.View.{attr_view};
ghost use Rattle.cert_model.specs.AttributePieces.{octets_of};

use crate::fields::AttrField;
use asn1_core::{Class, Header, HeaderOctets, Length, Tag};
use std::cmp::Ordering;
use std::marker::Model;

/// How many octets a sequence's header has at most: a length of 128 bits has at most 16 digits of
/// base 256, and follows its number of digits and the identifier octet (X.690, 8.1).
const MOST_OCTETS: usize = 18;

/// The identifier octet of a SEQUENCE (X.690, 8.9).
const SEQUENCE: u8 = 0x30;

/// Lengths below this are written in one octet (X.690, 8.1.3.4).
const SHORT_LENGTHS: u128 = 128;

/// The bit by which the first of several length octets counts the others (X.690, 8.1.3.5).
const LONG_FORM: u8 = 0x80;

/// The octets of a sequence's header, at the end of the array.
#[derive(Drop)]
struct SequenceOctets {
    octets: [u8; 18],
    start: usize,
}

impl Model for SequenceOctets {
    ghost Value = { List ℕ };

    ghost view = { λ o. drop o.start o.octets };

    ghost invariant = { λ o. o.start ≤ 18 };
}

impl SequenceOctets {
    fn as_slice(&self) -> &[u8]
        ensures octets { result.now ≡ self.now }
        ensures few { length result.now ≤ 18 }
    {
        &self.octets[self.start..]
    }

    fn new() -> SequenceOctets
        ensures { result ≡ [] }
    {
        SequenceOctets {
            octets: [0; 18],
            start: MOST_OCTETS,
        }
    }

    // One octet more in front.
    fn put(&mut self, octet: u8)
        requires { length self.old < 18 }
        ensures { self.new ≡ octet ∷ self.old }
    {
        self.start -= 1;
        self.octets[self.start] = octet;
    }

    // The digits of a number in base 256, in front.
    fn put_number(&mut self, number: u128)
        requires { length (digits_of 256 number) + length self.old ≤ 18 }
        ensures { self.new ≡ digits_of 256 number ++ self.old }
    {
        let mut left = number;
        while left > 0 {
            self.put((left % 256) as u8);
            left /= 256;
        }
    }

    // Puts the strict length of `size` content octets, at the end of the array.
    fn put_length(&mut self, size: u128)
        requires { self.old ≡ [] }
        ensures length { self.new ≡ strict_length size }
        ensures few { length self.new ≤ 17 }
    {
        if size < SHORT_LENGTHS {
            self.put(size as u8);
        } else {
            self.put_number(size);
            let count = self.as_slice().len();
            self.put(LONG_FORM + count as u8);
        }
    }
}

// The header of a sequence of so many content octets.
fn sequence_octets(size: u128) -> SequenceOctets
    ensures { result ≡ 48 ∷ strict_length size }
{
    let mut octets = SequenceOctets::new();
    octets.put_length(size);
    octets.put(SEQUENCE);
    octets
}

// The header of an element of so many content octets.
fn header_octets(class: Class, constructed: bool, tag: Tag, size: usize) -> HeaderOctets
    ensures { result ≡ strict_header (record { class = class_number class; constructed = constructed; tag = tag.0; size = size }) }
{
    Header::new(class, constructed, tag, Length::Definite(size))
        .strict_octets()
        .unwrap()
}

// The headers of an attribute's octets.
#[derive(Drop)]
struct Headers {
    sequence: SequenceOctets,
    name: HeaderOctets,
    value: HeaderOctets,
}

// How many octets an identifier and a value have, with their headers.
fn size_of(name: &HeaderOctets, identifier: &[u8], value: &HeaderOctets, content: &[u8]) -> u128
    ensures { result ≡ length ((name.now ++ identifier.now) ++ (value.now ++ content.now)) }
{
    let first = name.as_slice().len() as u128 + identifier.len() as u128;
    let second = value.as_slice().len() as u128 + content.len() as u128;
    first + second
}

fn headers_of(attribute: &AttrField<'_>) -> Headers
    ensures { attribute_octets (attr_view attribute.now)
        ≡ result.sequence ++ ((result.name ++ attribute.now.identifier.now) ++ (result.value ++ attribute.now.value.content.now)) }
{
    let any = attribute.value;
    let name = header_octets(
        Class::Universal,
        false,
        Tag::Oid,
        attribute.identifier.len(),
    );
    let value = header_octets(any.class, any.constructed, any.tag, any.content.len());
    let sequence = sequence_octets(size_of(&name, attribute.identifier, &value, any.content));
    Headers {
        sequence,
        name,
        value,
    }
}

// The octets of an attribute, in the pieces that lie in one place each.
#[derive(Clone, Copy)]
struct Pieces<'a> {
    sequence: &'a [u8],
    name: &'a [u8],
    identifier: &'a [u8],
    value: &'a [u8],
    content: &'a [u8],
}

// The first difference decides, and else the length.
fn compare(a: &Pieces<'_>, b: &Pieces<'_>) -> Ordering
    ensures { result ≡ slice_cmp nat_cmp (octets_of a.now) (octets_of b.now) }
{
    let a_name = a.name.iter().chain(a.identifier.iter());
    let a_value = a.value.iter().chain(a.content.iter());
    let a_content = a_name.chain(a_value);
    let a_octets = a.sequence.iter().chain(a_content);
    let b_name = b.name.iter().chain(b.identifier.iter());
    let b_value = b.value.iter().chain(b.content.iter());
    let b_content = b_name.chain(b_value);
    let b_octets = b.sequence.iter().chain(b_content);
    a_octets.cmp(b_octets)
}

fn pieces_of<'a>(headers: &'a Headers, identifier: &'a [u8], content: &'a [u8]) -> Pieces<'a>
    ensures { octets_of result
        ≡ headers.now.sequence ++ ((headers.now.name ++ identifier.now) ++ (headers.now.value ++ content.now)) }
{
    Pieces {
        sequence: headers.sequence.as_slice(),
        name: headers.name.as_slice(),
        identifier,
        value: headers.value.as_slice(),
        content,
    }
}

// Whether the octets of the first attribute are at most those of the second, compared as texts.
fn is_attribute_at_most(a: &AttrField<'_>, b: &AttrField<'_>) -> bool
    ensures { result ≡ is_at_most (attribute_octets (attr_view a.now)) (attribute_octets (attr_view b.now)) }
{
    let a_headers = headers_of(a);
    let b_headers = headers_of(b);
    let a_pieces = pieces_of(&a_headers, a.identifier, a.value.content);
    let b_pieces = pieces_of(&b_headers, b.identifier, b.value.content);
    compare(&a_pieces, &b_pieces).is_le()
}

// Whether the octets of the first attribute are at most those of the second, if there are two.
fn is_first_at_most_second(attributes: &[AttrField<'_>]) -> bool
    ensures { are_ascending (map attribute_octets (map attr_view attributes.now))
        ≡ (result && are_ascending (map attribute_octets (map attr_view (drop 1 attributes.now)))) }
{
    match attributes {
        [first, second, ..] => is_attribute_at_most(first, second),
        _ => true,
    }
}

/// Whether the octets of each attribute are at most those of the next (X.690, 11.6).
pub(crate) fn are_attributes_ascending(attributes: &[AttrField<'_>]) -> bool
    ensures { result ≡ are_ascending (map attribute_octets (map attr_view attributes.now)) }
{
    for i in 0..attributes.len() {
        if !is_first_at_most_second(&attributes[i..]) {
            return false;
        }
    }
    true
}
