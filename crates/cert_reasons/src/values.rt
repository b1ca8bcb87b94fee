//! What the values of two extensions hold: extKeyUsage (RFC 5280, 4.2.1.12) and subjectAltName (4.2.1.6).

ghost use Rattle.std.specs.Prelude.{◌≡◌, ◌++◌, ℕ, List, [], map, IfOk, IfSome, IsSomeAnd, MatchOption};
ghost use Rattle.asn1_oid.specs.Identifier.{IsOidContent};
ghost use Rattle.cert_model.specs.Fields.{Identifier};
ghost use Rattle.cert_model.specs.Octets.{identifier_octets};
ghost use Rattle.cert_serving.specs.cert_purpose.specs.Purposes.{ArePurposes};
ghost use Rattle.cert_reasons.specs.Values.{ArePurposesIn, AreNamesIn};
ghost use Rattle.cert_serving.specs.GeneralNames.{AreGeneralNames};
ghost use Rattle.cert_serving.specs.GeneralNames as spelled;
ghost use Rattle.cert_serving.specs.View.{general_name_view};

use asn1_core::{Class, Tag};
use asn1_oid::is_oid_content;
use cert_model::parts::{part, whole};
use cert_serving::{GeneralName, next_name};
use std::alloc::{AllocError, Global};

/// A purpose in an extKeyUsage: the content octets of its identifier.
#[derive(Clone, Copy, Debug)]
pub struct Purpose<'a> {
    pub identifier: &'a [u8],
}

/// The purpose that begins the octets, and the octets after it.
fn next_purpose(octets: &[u8]) -> Option<(&[u8], &[u8])>
    ensures found { IfSome result (λ r. IsOidContent r.0.now × (octets.now ≡ identifier_octets r.0.now ++ r.1.now)) }
    ensures only { (one rest : List ℕ) → IsOidContent one → octets.now ≡ identifier_octets one ++ rest → IsSomeAnd result (λ r. (r.0.now ≡ one) × (r.1.now ≡ rest)) }
{
    let (one, rest) = part(Class::Universal, false, 6, octets)?;
    if is_oid_content(one) {
        Some((one, rest))
    } else {
        None
    }
}

/// The purposes that the octets are, and nothing else.
fn purposes_in<'a>(alloc: Global, content: &'a [u8]) -> Result<Option<Vec<Purpose<'a>>>, AllocError>
    ensures { IfOk result (λ o. MatchOption o ((ps : List Identifier) → ArePurposesIn content.now ps → ⊥) (λ found. ArePurposesIn content.now (map (λ p. p.identifier.now) found.items))) }
{
    let mut purposes = Vec::new(alloc);
    let mut rest = content;
    while !rest.is_empty() {
        let Some((identifier, after)) = next_purpose(rest) else {
            return Ok(None);
        };
        purposes.push(Purpose { identifier })?;
        rest = after;
    }
    Ok(Some(purposes))
}

/// The purposes of a value of extKeyUsage, in their order. `None` if it isn't the DER of a sequence
/// of at least one. Linear in the octets.
pub fn purposes_of<'a>(
    alloc: Global,
    value: &'a [u8],
) -> Result<Option<Vec<Purpose<'a>>>, AllocError>
    ensures { IfOk result (λ o. MatchOption o ((ps : List Identifier) → ArePurposes value.now ps → ⊥) (λ found. ArePurposes value.now (map (λ p. p.identifier.now) found.items))) }
{
    let Some(content) = whole(Class::Universal, true, Tag::Sequence.0, value) else {
        return Ok(None);
    };
    if content.is_empty() {
        return Ok(None);
    }
    purposes_in(alloc, content)
}

/// The names that the octets are, and nothing else.
fn names_in<'a>(
    alloc: Global,
    content: &'a [u8],
) -> Result<Option<Vec<GeneralName<'a>>>, AllocError>
    ensures { IfOk result (λ o. MatchOption o ((gs : List spelled.GeneralName) → AreNamesIn content.now gs → ⊥) (λ found. AreNamesIn content.now (map general_name_view found.items))) }
{
    let mut names = Vec::new(alloc);
    let mut rest = content;
    while !rest.is_empty() {
        let Some((name, after)) = next_name(rest) else {
            return Ok(None);
        };
        names.push(name)?;
        rest = after;
    }
    Ok(Some(names))
}

/// The names of a value of subjectAltName, in their order. `None` if it isn't the DER of a sequence
/// of at least one. Linear in the octets.
pub fn names_of<'a>(
    alloc: Global,
    value: &'a [u8],
) -> Result<Option<Vec<GeneralName<'a>>>, AllocError>
    ensures { IfOk result (λ o. MatchOption o ((gs : List spelled.GeneralName) → AreGeneralNames value.now gs → ⊥) (λ found. AreGeneralNames value.now (map general_name_view found.items))) }
{
    let Some(content) = whole(Class::Universal, true, Tag::Sequence.0, value) else {
        return Ok(None);
    };
    if content.is_empty() {
        return Ok(None);
    }
    names_in(alloc, content)
}
