//! The parts of certificates and lists that hold no list themselves, each from its element
//! (RFC 5280, 4.1.1.2, 4.1.2.4 and 4.1.2.7).

ghost use Rattle.std.specs.Prelude.{◌≡◌, ℕ, option_map};
ghost use Rattle.der_tree.specs.Table.{integer, octet_string, is_negative};
ghost use Rattle.der_tree.specs.Access.{sequence_at, set_at, boolean_at, oid_at, bit_string_at, plain_at, element_at};
ghost use Rattle.der_tree.proofs.OneTree.{is_true};
ghost use Rattle.cert_model.specs.View.{any_view, alg_view, attr_view, bit_view, key_view};
ghost use Rattle.cert_model.specs.Reads.{identifier_at, number_at, bits_at, last_element_at, algorithm_at, attribute_at, key_at, is_tagged, tagged_at, next_at};
ghost use Rattle.certcheck.specs.Windows.{is_universal, is_constructed, trees_in, tree_of};

use crate::windows::{end_of, first_of};
use asn1_core::{Class, Tag};
use cert_model::fields::{AlgField, AnyField, AttrField, BitField, KeyField};

/// The bit of a first content octet by which an INTEGER is negative (X.690, 8.3.3).
const SIGN: u8 = 0x80;

/// The content octet of a BOOLEAN that is true (X.690, 11.1).
const TRUE: u8 = 0xff;

/// Whether the element is a universal one of this tag number. Whether it is primitive isn't asked: an
/// element that is DER has one form for each number (X.690, 8 and 10.2).
pub(crate) fn is_universal(object: &AnyField<'_>, tag: Tag) -> bool
    ensures { result ≡ is_universal tag.0 (any_view object.now) }
{
    object.class == Class::Universal && object.tag.0 == tag.0
}

fn is_constructed(object: &AnyField<'_>, tag: Tag) -> bool
    ensures { result ≡ is_constructed tag.0 (any_view object.now) }
{
    object.constructed && is_universal(object, tag)
}

#[tactic(auto, using(crate::proofs::ElementTrees::sequence_of_tree))]
pub(crate) fn sequence_of<'a>(object: &AnyField<'a>) -> Option<&'a [u8]>
    ensures { option_map (λ parts. trees_in parts.now) result ≡ sequence_at (tree_of (any_view object.now)) }
{
    if is_constructed(object, Tag::Sequence) {
        Some(object.content)
    } else {
        None
    }
}

#[tactic(auto, using(crate::proofs::ElementTrees::set_of_tree))]
pub(crate) fn set_of<'a>(object: &AnyField<'a>) -> Option<&'a [u8]>
    ensures { option_map (λ parts. trees_in parts.now) result ≡ set_at (tree_of (any_view object.now)) }
{
    if is_constructed(object, Tag::Set) {
        Some(object.content)
    } else {
        None
    }
}

/// The element that the object is, whatever it holds.
#[tactic(auto, using(crate::proofs::ElementTrees::element_of_tree))]
pub(crate) fn element_of<'a>(object: &AnyField<'a>) -> AnyField<'a>
    ensures { any_view result ≡ element_at (tree_of (any_view object.now)) }
{
    *object
}

#[tactic(auto, using(crate::proofs::ElementTrees::oid_of_tree))]
fn oid_of<'a>(object: &AnyField<'a>) -> Option<&'a [u8]>
    ensures { option_map (λ octets. octets.now) result ≡ oid_at (tree_of (any_view object.now)) }
{
    if is_universal(object, Tag::Oid) {
        Some(object.content)
    } else {
        None
    }
}

#[tactic(auto, unfolding(cert_model::specs::Reads::identifier_at))]
pub(crate) fn identifier_of<'a>(object: &AnyField<'a>) -> Option<&'a [u8]>
    ensures { option_map (λ octets. octets.now) result ≡ identifier_at (tree_of (any_view object.now)) }
{
    match oid_of(object) {
        Some(_) => Some(element_of(object).content),
        None => None,
    }
}

#[tactic(auto, using(crate::proofs::ElementTrees::boolean_of_tree))]
pub(crate) fn boolean_of(object: &AnyField<'_>) -> Option<bool>
    ensures { result ≡ boolean_at (tree_of (any_view object.now)) }
{
    if is_universal(object, Tag::Boolean) {
        Some(is_true(object.content))
    } else {
        None
    }
}

/// Whether a BOOLEAN's content is true (X.690, 8.2 and 11.1).
#[tactic(auto, unfolding(der_tree::proofs::OneTree::is_true))]
fn is_true(content: &[u8]) -> bool
    ensures { result ≡ is_true content.now }
{
    match content {
        [] => false,
        [octet, ..] => *octet == TRUE,
    }
}

#[tactic(auto, using(crate::proofs::ElementTrees::plain_of_tree))]
pub(crate) fn integer_of<'a>(object: &AnyField<'a>) -> Option<&'a [u8]>
    ensures { option_map (λ octets. octets.now) result ≡ plain_at integer (tree_of (any_view object.now)) }
{
    if is_universal(object, Tag::Integer) {
        Some(object.content)
    } else {
        None
    }
}

#[tactic(auto, using(crate::proofs::ElementTrees::plain_of_tree))]
pub(crate) fn octet_string_of<'a>(object: &AnyField<'a>) -> Option<&'a [u8]>
    ensures { option_map (λ octets. octets.now) result ≡ plain_at octet_string (tree_of (any_view object.now)) }
{
    if is_universal(object, Tag::OctetString) {
        Some(object.content)
    } else {
        None
    }
}

/// Whether a two's complement number is negative: its first bit is set (X.690, 8.3.3).
fn is_negative(number: &[u8]) -> bool
    ensures { result ≡ is_negative number.now }
{
    match number {
        [] => false,
        [first, ..] => *first >= SIGN,
    }
}

/// A number that is not negative.
#[tactic(auto, unfolding(cert_model::specs::Reads::number_at))]
pub(crate) fn number_of<'a>(object: &AnyField<'a>) -> Option<&'a [u8]>
    ensures { option_map (λ number. number.now) result ≡ number_at (tree_of (any_view object.now)) }
{
    let number = integer_of(object)?;
    if is_negative(number) {
        None
    } else {
        Some(number)
    }
}

/// How many bits are unused, and the octets of the bits (X.690, 8.6.2).
#[tactic(auto, using(crate::proofs::ElementTrees::bits_of_tree), unfolding(der_tree::proofs::OneTree::bits_in))]
fn bit_string_of<'a>(object: &AnyField<'a>) -> Option<(u8, &'a [u8])>
    ensures { option_map (λ p. (p.0, p.1.now)) result ≡ bit_string_at (tree_of (any_view object.now)) }
{
    if !is_universal(object, Tag::BitString) {
        return None;
    }
    match object.content {
        [] => None,
        [unused, octets @ ..] => Some((*unused, octets)),
    }
}

#[tactic(auto, unfolding(cert_model::specs::Reads::bits_at))]
pub(crate) fn bits_of<'a>(object: &AnyField<'a>) -> Option<BitField<'a>>
    ensures { option_map bit_view result ≡ bits_at (tree_of (any_view object.now)) }
{
    let (unused, octets) = bit_string_of(object)?;
    Some(BitField { unused, octets })
}

/// An element or nothing, to the end.
fn last_element<'a>(parts: &'a [u8]) -> Option<Option<AnyField<'a>>>
    ensures { option_map (option_map any_view) result ≡ last_element_at (trees_in parts.now) }
{
    match first_of(parts) {
        None => Some(None),
        Some((first, rest)) => {
            end_of(rest)?;
            Some(Some(element_of(&first)))
        }
    }
}

/// AlgorithmIdentifier (RFC 5280, 4.1.1.2).
#[tactic(auto, unfolding(cert_model::specs::Reads::algorithm_at))]
pub(crate) fn algorithm_of<'a>(object: &AnyField<'a>) -> Option<AlgField<'a>>
    ensures { option_map alg_view result ≡ algorithm_at (tree_of (any_view object.now)) }
{
    let (first, rest) = first_of(sequence_of(object)?)?;
    let identifier = identifier_of(&first)?;
    let parameters = last_element(rest)?;
    Some(AlgField {
        identifier,
        parameters,
    })
}

/// AttributeTypeAndValue (RFC 5280, 4.1.2.4).
#[tactic(auto, unfolding(cert_model::specs::Reads::attribute_at))]
pub(crate) fn attribute_of<'a>(object: &AnyField<'a>) -> Option<AttrField<'a>>
    ensures { option_map attr_view result ≡ attribute_at (tree_of (any_view object.now)) }
{
    let (first, rest) = first_of(sequence_of(object)?)?;
    let identifier = identifier_of(&first)?;
    let (second, rest) = first_of(rest)?;
    end_of(rest)?;
    Some(AttrField {
        identifier,
        value: element_of(&second),
    })
}

/// SubjectPublicKeyInfo (RFC 5280, 4.1.2.7).
#[tactic(auto, unfolding(cert_model::specs::Reads::key_at))]
pub(crate) fn key_of<'a>(object: &AnyField<'a>) -> Option<KeyField<'a>>
    ensures { option_map key_view result ≡ key_at (tree_of (any_view object.now)) }
{
    let (first, rest) = first_of(sequence_of(object)?)?;
    let algorithm = algorithm_of(&first)?;
    let (second, rest) = first_of(rest)?;
    let key = bits_of(&second)?;
    end_of(rest)?;
    Some(KeyField { algorithm, key })
}

fn is_tagged(tag: u32, element: AnyField<'_>) -> bool
    ensures { result ≡ is_tagged tag (any_view element.entry) }
{
    element.class == Class::ContextSpecific && element.tag.0 == tag
}

/// The element of a context-specific tag at the front, where there is one, and the rest.
#[tactic(auto, unfolding(cert_model::specs::Reads::tagged_at))]
pub(crate) fn tagged_of<'a>(tag: u32, parts: &'a [u8]) -> (Option<AnyField<'a>>, &'a [u8])
    ensures { tagged_at tag (trees_in parts.now) ≡ (option_map any_view result.0, trees_in result.1.now) }
{
    match first_of(parts) {
        Some((first, rest)) => {
            let element = element_of(&first);
            if is_tagged(tag, element) {
                (Some(element), rest)
            } else {
                (None, parts)
            }
        }
        None => (None, parts),
    }
}

pub(crate) fn next_number<'a>(parts: &'a [u8]) -> Option<(&'a [u8], &'a [u8])>
    ensures { option_map (λ p. (p.0.now, trees_in p.1.now)) result ≡ next_at number_at (trees_in parts.now) }
{
    let (first, rest) = first_of(parts)?;
    Some((number_of(&first)?, rest))
}

pub(crate) fn next_algorithm<'a>(parts: &'a [u8]) -> Option<(AlgField<'a>, &'a [u8])>
    ensures { option_map (λ p. (alg_view p.0, trees_in p.1.now)) result ≡ next_at algorithm_at (trees_in parts.now) }
{
    let (first, rest) = first_of(parts)?;
    Some((algorithm_of(&first)?, rest))
}

pub(crate) fn next_bits<'a>(parts: &'a [u8]) -> Option<(BitField<'a>, &'a [u8])>
    ensures { option_map (λ p. (bit_view p.0, trees_in p.1.now)) result ≡ next_at bits_at (trees_in parts.now) }
{
    let (first, rest) = first_of(parts)?;
    Some((bits_of(&first)?, rest))
}

pub(crate) fn next_key<'a>(parts: &'a [u8]) -> Option<(KeyField<'a>, &'a [u8])>
    ensures { option_map (λ p. (key_view p.0, trees_in p.1.now)) result ≡ next_at key_at (trees_in parts.now) }
{
    let (first, rest) = first_of(parts)?;
    Some((key_of(&first)?, rest))
}
