//! Key identifiers (RFC 5280, 4.2.1.1 and 4.2.1.2): the elements of values that are DER objects,
//! recognized by their first octets.

ghost use Rattle.std.specs.Prelude.{◌≡◌, ◌≤◌, ℕ, List, All, length, map, IfSome, IsSomeAnd};
ghost use Rattle.cert_model.specs.Extended.{under_ce};
ghost use Rattle.cert_model.specs.Fields.{Extension};
ghost use Rattle.cert_model.specs.KeyIds.{IsFirstUnder, IsAuthorityKeyId, IsSubjectKeyId};
ghost use Rattle.cert_model.specs.Octets.{primitive_octets};
ghost use Rattle.cert_model.specs.View.{ext_view, certificate_view};
ghost use Rattle.certpath_find.specs.Contents.{HasContent};

use asn1_any::Any;
use asn1_traits::FromDer;
use cert_model::fields::{CertFields, ExtField};
use cert_model::identifiers::{AUTHORITY_KEY_IDENTIFIER, SUBJECT_KEY_IDENTIFIER, is_ce};
use der_tree::{MAX_RECURSION, is_der_object};
use std::alloc::Global;
use x509_ext_flags::KeyIdentifier;

/// The identifier octet of a SEQUENCE (X.690, 8.1.2).
const SEQUENCE: u8 = 0x30;

/// The identifier octet of a primitive OCTET STRING.
const OCTET_STRING: u8 = 0x04;

/// The identifier octet of keyIdentifier, a primitive \[0\] (RFC 5280, 4.2.1.1).
const KEY_IDENTIFIER: u8 = 0x80;

/// Returns the value of the first extension whose identifier is 2.5.29.n.
fn first_value<'a>(extensions: &[ExtField<'a>], n: u8) -> Option<&'a [u8]>
    ensures found { IfSome result (λ value. IsFirstUnder (under_ce n) (map ext_view extensions.now) value.now) }
    ensures only { (value : List ℕ) → IsFirstUnder (under_ce n) (map ext_view extensions.now) value → IsSomeAnd result (λ r. r.now ≡ value) }
{
    for extension in extensions {
        if is_ce(extension.identifier, n) {
            return Some(extension.value);
        }
    }
    None
}

/// Returns the content of the element at the front of the octets, if its first octet is `first`.
fn content_under<'a>(first: u8, octets: &'a [u8]) -> Option<&'a [u8]>
    ensures found { IfSome result (λ content. HasContent first octets.now content.now) }
    ensures only { (content : List ℕ) → HasContent first octets.now content → IsSomeAnd result (λ r. r.now ≡ content) }
{
    if !octets.starts_with(&[first]) {
        return None;
    }
    let Ok((_, element)) = Any::from_der(octets) else {
        return None;
    };
    Some(element.content)
}

/// Returns the content of the OCTET STRING at the front of the octets, if its first octet is that
/// of a primitive universal one.
fn octets_at<'a>(alloc: Global, octets: &'a [u8]) -> Option<&'a [u8]>
    ensures found { IfSome result (λ content. HasContent 4 octets.now content.now) }
    ensures only { (content : List ℕ) → length octets.now ≤ 4_294_967_295 → octets.now ≡ primitive_octets 4 content → IsSomeAnd result (λ r. r.now ≡ content) }
{
    if !octets.starts_with(&[OCTET_STRING]) {
        return None;
    }
    let Ok((_, id)) = KeyIdentifier::from_der(alloc, octets) else {
        return None;
    };
    Some(id.0)
}

/// Returns the key identifier that a certificate names for its issuer (RFC 5280, 4.2.1.1): the
/// content of the first element of the first authorityKeyIdentifier value, if that value is a DER
/// object and the element is a primitive `[0]`.
pub(crate) fn named_key_id<'a>(fields: &CertFields<'a>) -> Option<&'a [u8]>
    ensures found { IfSome result (λ id. IsAuthorityKeyId (certificate_view fields.now) id.now) }
    ensures only { (id : List ℕ) → IsAuthorityKeyId (certificate_view fields.now) id → IsSomeAnd result (λ s. s.now ≡ id) }
{
    let Some(value) = first_value(&fields.extensions, AUTHORITY_KEY_IDENTIFIER) else {
        return None;
    };
    if !is_der_object(value, MAX_RECURSION) {
        return None;
    }
    let Some(parts) = content_under(SEQUENCE, value) else {
        return None;
    };
    content_under(KEY_IDENTIFIER, parts)
}

/// Returns the key identifier of a certificate's own key (RFC 5280, 4.2.1.2): the content of the
/// OCTET STRING that the first subjectKeyIdentifier value is.
pub(crate) fn own_key_id<'a>(alloc: Global, fields: &CertFields<'a>) -> Option<&'a [u8]>
    requires small { All (λ (e : Extension). length e.value ≤ 4_294_967_295) (certificate_view fields.now).extensions }
    ensures found { IfSome result (λ id. IsSubjectKeyId (certificate_view fields.now) id.now) }
    ensures only { (id : List ℕ) → IsSubjectKeyId (certificate_view fields.now) id → IsSomeAnd result (λ s. s.now ≡ id) }
{
    let Some(value) = first_value(&fields.extensions, SUBJECT_KEY_IDENTIFIER) else {
        return None;
    };
    if !is_der_object(value, MAX_RECURSION) {
        return None;
    }
    octets_at(alloc, value)
}
