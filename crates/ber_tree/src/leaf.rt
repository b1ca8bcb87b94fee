//! The values of elements without parts.

ghost use Rattle.std.specs.Prelude.{◌≡◌, ◌≢◌, ◌↔◌, ◌∷◌, false, IsTrue, IfOk, IfErr, IfSome, MatchOption};
ghost use Rattle.std.specs.Int.Digits.{number_from_digits};
ghost use Rattle.asn1_core.specs.Views.{class_number, length_of};
ghost use Rattle.der_tree.specs.Lengths.{HoldsOne};
ghost use Rattle.der_tree.specs.Tree.{Content};
ghost use Rattle.der_tree.specs.View.{element_under, content_view};
ghost use Rattle.ber_tree.specs.Table.{HoldsWiderLeaf, HoldsBerLeaf, is_wide_bit_string, IsWideEnumerated};

use crate::times::{is_ber_generalized_time, is_ber_utc_time};
use asn1_any::Any;
use asn1_core::{Class, Error, Header};
use der_tree::{BerObjectContent, leaf_under};

/// Returns the content under a header that has no parts: by the wider forms of BER, or else by the
/// table.
pub(crate) fn leaf_of<'a>(header: Header, content: &'a [u8]) -> Result<BerObjectContent<'a>, Error>
    ensures found { IfOk result (λ c. HoldsBerLeaf (element_under header content.now) (content_view c)) }
    ensures none { IfErr result (λ e. (e ≢ Error.OutOfMemory)
        × ((c : Content) → HoldsBerLeaf (element_under header content.now) c → ⊥)) }
    ensures lengths { IfOk result (λ c. HoldsOne (length_of header) c (content_view c)) }
{
    if !is_universal(header) {
        return Ok(BerObjectContent::Unknown(Any { header, content }));
    }
    match wider_of(header, content) {
        Some(wider) => Ok(wider),
        None => leaf_under(header, content),
    }
}

fn is_universal(header: Header) -> bool
    ensures { IsTrue result ↔ (class_number header.class ≡ 0) }
{
    match header.class() {
        Class::Universal => true,
        Class::Application => false,
        Class::ContextSpecific => false,
        Class::Private => false,
    }
}

/// Returns the content in a form that BER allows beside those of DER, or `None`.
fn wider_of<'a>(header: Header, content: &'a [u8]) -> Option<BerObjectContent<'a>>
    requires { class_number header.class ≡ 0 }
    ensures wider { MatchOption result ((c : Content) → HoldsWiderLeaf (element_under header content.now) c → ⊥)
        (λ c. HoldsWiderLeaf (element_under header content.now) (content_view c)) }
    ensures lengths { IfSome result (λ c. HoldsOne (length_of header) c (content_view c)) }
{
    if header.is_constructed() {
        return None;
    }
    match header.tag().0 {
        1 => match content {
            [octet] => Some(BerObjectContent::Boolean(*octet != 0)),
            _ => None,
        },
        2 => match content {
            [] => None,
            _ => Some(BerObjectContent::Integer(content)),
        },
        3 => match wide_bits_of(content) {
            Some((unused, octets)) => Some(BerObjectContent::BitString(unused, octets)),
            None => None,
        },
        10 => match wide_enumerated_of(content) {
            Some(number) => Some(BerObjectContent::Enum(number)),
            None => None,
        },
        23 => {
            if is_ber_utc_time(content) {
                Some(BerObjectContent::UTCTime(content))
            } else {
                None
            }
        }
        24 => {
            if is_ber_generalized_time(content) {
                Some(BerObjectContent::GeneralizedTime(content))
            } else {
                None
            }
        }
        _ => None,
    }
}

/// Returns the number of unused bits and the octets of the bits, whatever the unused bits are
/// (X.690, 8.6.2).
fn wide_bits_of<'a>(content: &'a [u8]) -> Option<(u8, &'a [u8])>
    ensures { MatchOption result (is_wide_bit_string content.now ≡ false)
        (λ p. (content.now ≡ p.0 ∷ p.1.now) × IsTrue (is_wide_bit_string content.now)) }
{
    let [unused, octets @ ..] = content else {
        return None;
    };
    let most = if octets.is_empty() { 0 } else { 7 };
    if *unused <= most {
        Some((*unused, octets))
    } else {
        None
    }
}

/// Returns the number of an enumerated value in any number of octets, if it is not negative and
/// below 2^64.
fn wide_enumerated_of(content: &[u8]) -> Option<u64>
    ensures { MatchOption result (IsWideEnumerated content.now → ⊥)
        (λ n. (n ≡ number_from_digits 256 content.now) × IsWideEnumerated content.now) }
{
    if content.is_empty() {
        return None;
    }
    BerObjectContent::Integer(content).as_u64().ok()
}
