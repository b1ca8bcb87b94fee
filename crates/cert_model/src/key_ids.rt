//! Key identifiers (RFC 5280, 4.2.1.1 and 4.2.1.2), read out of extension values without memory.

ghost use Rattle.std.specs.Prelude.{◌≡◌, ℕ, List, map, IfSome, IsSomeAnd};
ghost use Rattle.cert_model.specs.Octets.{primitive_octets};
ghost use Rattle.cert_model.specs.Extended.{under_ce};
ghost use Rattle.cert_model.specs.KeyIds.{IsFirstUnder, BeginsWithKeyId, IsAuthorityKeyId, IsSubjectKeyId};
ghost use Rattle.cert_model.specs.View.{ext_view, certificate_view};

use crate::fields::{CertFields, ExtField};
use crate::identifiers::{AUTHORITY_KEY_IDENTIFIER, SUBJECT_KEY_IDENTIFIER, is_ce};
use crate::parts::{part, whole};
use asn1_core::{Class, Tag};
use der_tree::{MAX_RECURSION, is_der_object};

/// The tag number of keyIdentifier in AuthorityKeyIdentifier, context-specific (RFC 5280, 4.2.1.1).
const KEY_IDENTIFIER: u32 = 0;

/// The value of the first extension whose identifier is 2.5.29.n.
fn first_under<'a>(extensions: &[ExtField<'a>], n: u8) -> Option<&'a [u8]>
    ensures found { IfSome result (λ value. IsFirstUnder (under_ce n) (map ext_view extensions.now) value.now) }
    ensures only { (value : List ℕ) → IsFirstUnder (under_ce n) (map ext_view extensions.now) value → IsSomeAnd result (λ r. r.now ≡ value) }
{
    for extension in extensions {
        if is_ce(extension.identifier, n) {
            return Some(extension.value);
        }
    }
    None
}

/// The content of the first element of the one sequence that the octets are, if it is [0] and
/// has no parts.
fn key_id_of(value: &[u8]) -> Option<&[u8]>
    ensures found { IfSome result (λ id. BeginsWithKeyId value.now id.now) }
    ensures only { (id : List ℕ) → BeginsWithKeyId value.now id → IsSomeAnd result (λ r. r.now ≡ id) }
{
    let content = whole(Class::Universal, true, Tag::Sequence.0, value)?;
    let (id, _) = part(Class::ContextSpecific, false, KEY_IDENTIFIER, content)?;
    Some(id)
}

impl<'a> CertFields<'a> {
    /// The key identifier that the certificate names for its issuer's key (RFC 5280, 4.2.1.1): the
    /// content of the first element of the first authorityKeyIdentifier value.
    ///
    /// `None` if there is no such extension, if its value isn't one DER object of at most
    /// `MAX_RECURSION` levels, or if the first element there isn't a primitive \[0\]. It takes no
    /// memory, a step for each extension, and one for each octet of the value.
    pub fn authority_key_id(&self) -> Option<&'a [u8]>
        ensures found { IfSome result (λ id. IsAuthorityKeyId (certificate_view self.now) id.now) }
        ensures only { (id : List ℕ) → IsAuthorityKeyId (certificate_view self.now) id → IsSomeAnd result (λ s. s.now ≡ id) }
    {
        let value = first_under(&self.extensions, AUTHORITY_KEY_IDENTIFIER)?;
        if !is_der_object(value, MAX_RECURSION) {
            return None;
        }
        key_id_of(value)
    }

    /// The key identifier of the certificate's own key (RFC 5280, 4.2.1.2): the content of the
    /// OCTET STRING that the first subjectKeyIdentifier value is.
    ///
    /// `None` if there is no such extension, or its value isn't one primitive OCTET STRING in its
    /// strict spelling. It takes no memory, and a step for each extension.
    pub fn subject_key_id(&self) -> Option<&'a [u8]>
        ensures found { IfSome result (λ id. IsSubjectKeyId (certificate_view self.now) id.now) }
        ensures only { (id : List ℕ) → IsSubjectKeyId (certificate_view self.now) id → IsSomeAnd result (λ r. r.now ≡ id) }
    {
        let value = first_under(&self.extensions, SUBJECT_KEY_IDENTIFIER)?;
        whole(Class::Universal, false, Tag::OctetString.0, value)
    }
}
