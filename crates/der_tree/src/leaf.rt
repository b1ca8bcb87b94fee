//! What an element without parts holds, one line of the table after the other.

ghost use Rattle.std.specs.Prelude.{◌≡◌, ◌≢◌, ◌↔◌, IsTrue, IfOk, IfErr, true, false};
ghost use Rattle.asn1_core.specs.Views.{class_number, length_of};
ghost use Rattle.der_tree.specs.Lengths.{HoldsOne};
ghost use Rattle.der_tree.specs.Table.{is_listed, is_boolean};
ghost use Rattle.der_tree.specs.Tree.{Content};
ghost use Rattle.der_tree.specs.Outcome.{leaf_error};
ghost use Rattle.der_tree.specs.Shape.{HoldsLeaf};
ghost use Rattle.der_tree.specs.View.{element_under, content_view};

use crate::numbers::{enumerated_of, is_enumerated, is_shortest_integer};
use crate::object::BerObjectContent;
use crate::strings::{Charset, bits_of, is_bits, is_text, text_of};
use crate::times::{is_generalized_time, is_utc_time};
use asn1_any::Any;
use asn1_core::{Class, Error, Header};
use asn1_oid::{Oid, is_oid_content};

/// The content under a header that has no parts.
pub(crate) fn leaf_of<'a>(header: Header, content: &'a [u8]) -> Result<BerObjectContent<'a>, Error>
    ensures found { IfOk result (λ c. HoldsLeaf (element_under header content.now) (content_view c)) }
    ensures none { IfErr result (λ e. (e ≢ Error.OutOfMemory)
        × ((c : Content) → HoldsLeaf (element_under header content.now) c → ⊥)) }
    ensures refused { IfErr result (λ e. e ≡ leaf_error (element_under header content.now)) }
    ensures lengths { IfOk result (λ c. HoldsOne (length_of header) c (content_view c)) }
{
    if !is_universal(header) || !has_line(header.tag().0) {
        return Ok(BerObjectContent::Unknown(Any { header, content }));
    }
    if header.is_constructed() {
        return Err(Error::ConstructUnexpected);
    }
    listed_of(header, content)
}

/// Whether an element without parts of this header may have this content.
#[inline(always)]
pub(crate) fn is_leaf(header: Header, content: &[u8]) -> bool
    ensures found { IsTrue result → (c : Content) × HoldsLeaf (element_under header content.now) c }
    ensures only { (c : Content) → HoldsLeaf (element_under header content.now) c → IsTrue result }
{
    if !is_universal(header) {
        return true;
    }
    if !has_line(header.tag().0) {
        return true;
    }
    !header.is_constructed() && is_listed_content(header, content)
}

/// Whether a universal primitive header whose tag number has a line may have this content.
#[inline(always)]
fn is_listed_content(header: Header, content: &[u8]) -> bool
    requires class { class_number header.class ≡ 0 }
    requires primitive { header.constructed ≡ false }
    requires listed { is_listed header.tag.0 ≡ true }
    ensures found { IsTrue result → (c : Content) × HoldsLeaf (element_under header content.now) c }
    ensures only { (c : Content) → HoldsLeaf (element_under header content.now) c → IsTrue result }
{
    match header.tag().0 {
        1 => is_boolean(content),
        2 => is_shortest_integer(content),
        3 => is_bits(content),
        4 => true,
        5 => content.is_empty(),
        6 => is_oid_content(content),
        7 => true,
        10 => is_enumerated(content),
        12 => is_text(content),
        13 => is_oid_content(content),
        18 => Charset::Numeric.has_all(content),
        19 => Charset::Printable.has_all(content),
        20 => true,
        21 => true,
        22 => Charset::Ia5.has_all(content),
        23 => is_utc_time(content),
        24 => is_generalized_time(content),
        25 => true,
        26 => Charset::Visible.has_all(content),
        27 => true,
        28 => true,
        30 => true,
        _ => false,
    }
}

/// Whether the octets are the content of a BOOLEAN (X.690, 8.2 and 11.1).
fn is_boolean(content: &[u8]) -> bool
    ensures { result ≡ is_boolean content.now }
{
    match content {
        [octet] => *octet == 0 || *octet == 255,
        _ => false,
    }
}

fn is_universal(header: Header) -> bool
    ensures { IsTrue result ↔ (class_number header.class ≡ 0) }
{
    match header.class() {
        Class::Universal => true,
        Class::Application => false,
        Class::ContextSpecific => false,
        Class::Private => false,
    }
}

fn has_line(tag: u32) -> bool
    ensures { result ≡ is_listed tag }
{
    tag <= 7 || tag == 10 || tag == 12 || tag == 13 || (tag >= 16 && tag <= 28) || tag == 30
}

/// The content under a universal primitive header whose tag number has a line.
fn listed_of<'a>(header: Header, content: &'a [u8]) -> Result<BerObjectContent<'a>, Error>
    requires class { class_number header.class ≡ 0 }
    requires primitive { header.constructed ≡ false }
    requires listed { is_listed header.tag.0 ≡ true }
    ensures found { IfOk result (λ c. HoldsLeaf (element_under header content.now) (content_view c)) }
    ensures none { IfErr result (λ e. (e ≢ Error.OutOfMemory)
        × ((c : Content) → HoldsLeaf (element_under header content.now) c → ⊥)) }
    ensures refused { IfErr result (λ e. e ≡ leaf_error (element_under header content.now)) }
    ensures lengths { IfOk result (λ c. HoldsOne (length_of header) c (content_view c)) }
{
    match header.tag().0 {
        1 => match content {
            [0] => Ok(BerObjectContent::Boolean(false)),
            [255] => Ok(BerObjectContent::Boolean(true)),
            _ => Err(Error::InvalidLength),
        },
        2 => {
            if is_shortest_integer(content) {
                Ok(BerObjectContent::Integer(content))
            } else {
                Err(Error::BerValueError)
            }
        }
        3 => match bits_of(content) {
            Some((unused, octets)) => Ok(BerObjectContent::BitString(unused, octets)),
            None => Err(Error::BerValueError),
        },
        4 => Ok(BerObjectContent::OctetString(content)),
        5 => {
            if content.is_empty() {
                Ok(BerObjectContent::Null)
            } else {
                Err(Error::InvalidLength)
            }
        }
        6 => {
            if is_oid_content(content) {
                Ok(BerObjectContent::OID(Oid::new(content)))
            } else {
                Err(Error::BerValueError)
            }
        }
        7 => Ok(BerObjectContent::ObjectDescriptor(content)),
        10 => match enumerated_of(content) {
            Some(number) => Ok(BerObjectContent::Enum(number)),
            None => Err(Error::BerValueError),
        },
        12 => match text_of(content) {
            Some(text) => Ok(BerObjectContent::UTF8String(text)),
            None => Err(Error::StringInvalidCharset),
        },
        13 => {
            if is_oid_content(content) {
                Ok(BerObjectContent::RelativeOID(content))
            } else {
                Err(Error::BerValueError)
            }
        }
        18 => match Charset::Numeric.text(content) {
            Some(text) => Ok(BerObjectContent::NumericString(text)),
            None => Err(Error::StringInvalidCharset),
        },
        19 => match Charset::Printable.text(content) {
            Some(text) => Ok(BerObjectContent::PrintableString(text)),
            None => Err(Error::StringInvalidCharset),
        },
        20 => Ok(BerObjectContent::T61String(content)),
        21 => Ok(BerObjectContent::VideotexString(content)),
        22 => match Charset::Ia5.text(content) {
            Some(text) => Ok(BerObjectContent::IA5String(text)),
            None => Err(Error::StringInvalidCharset),
        },
        23 => {
            if is_utc_time(content) {
                Ok(BerObjectContent::UTCTime(content))
            } else {
                Err(Error::InvalidDateTime)
            }
        }
        24 => {
            if is_generalized_time(content) {
                Ok(BerObjectContent::GeneralizedTime(content))
            } else {
                Err(Error::InvalidDateTime)
            }
        }
        25 => Ok(BerObjectContent::GraphicString(content)),
        26 => match Charset::Visible.text(content) {
            Some(text) => Ok(BerObjectContent::VisibleString(text)),
            None => Err(Error::StringInvalidCharset),
        },
        27 => Ok(BerObjectContent::GeneralString(content)),
        28 => Ok(BerObjectContent::UniversalString(content)),
        30 => Ok(BerObjectContent::BmpString(content)),
        _ => Err(Error::InvalidTag),
    }
}
