//! Values of extKeyUsage (RFC 5280, 4.2.1.12).

ghost use Rattle.std.specs.Prelude.{◌≡◌, ◌⊎◌, ◌↔◌, ◌<◌, ℕ, List, ◌++◌, length, IsTrue, IfSome, IsSomeAnd};
ghost use Rattle.asn1_oid.specs.Identifier.{IsOidContent};
ghost use Rattle.cert_model.specs.Octets.{identifier_octets};
ghost use Rattle.cert_purpose.specs.Purposes.{any_purpose, AreWritten, IsFor};

use asn1_core::{Class, Tag};
use asn1_oid::is_oid_content;
use cert_model::parts::{part, whole};

fn is_any(identifier: &[u8]) -> bool
    ensures { IsTrue result ↔ (identifier.now ≡ any_purpose) }
{
    match identifier {
        [0x55, 0x1d, arc, last] => *arc == 37 && *last == 0,
        _ => false,
    }
}

/// Whether a purpose in a value is the one that is asked for, or that of any.
fn is_wanted(one: &[u8], purpose: &[u8]) -> bool
    ensures { IsTrue result ↔ ((one.now ≡ purpose.now) ⊎ (one.now ≡ any_purpose)) }
{
    one == purpose || is_any(one)
}

/// The purpose that begins the octets, and the octets after it.
fn next_purpose(octets: &[u8]) -> Option<(&[u8], &[u8])>
    ensures found { IfSome result (λ r. IsOidContent r.0.now × (octets.now ≡ identifier_octets r.0.now ++ r.1.now)) }
    ensures only { (one rest : List ℕ) → IsOidContent one → octets.now ≡ identifier_octets one ++ rest → IsSomeAnd result (λ r. (r.0.now ≡ one) × (r.1.now ≡ rest)) }
{
    let (one, rest) = part(Class::Universal, false, 6, octets)?;
    if is_oid_content(one) {
        Some((one, rest))
    } else {
        None
    }
}

/// Whether the octets are purposes and nothing else, with the one that is asked for among them.
fn are_written(content: &[u8], purpose: &[u8]) -> bool
    ensures { IsTrue result ↔ AreWritten purpose.now content.now }
{
    let mut rest = content;
    let mut found = false;
    while !rest.is_empty() {
        let Some((one, behind)) = next_purpose(rest) else {
            return false;
        };
        if is_wanted(one, purpose) {
            found = true;
        }
        rest = behind;
    }
    found
}

/// Returns whether a value of extKeyUsage (RFC 5280, 4.2.1.12) is for a purpose, given by the
/// content octets of its identifier: a sequence of purposes, one of which is this or
/// anyExtendedKeyUsage. It takes no memory, and time linear in the value.
pub fn is_for(value: &[u8], purpose: &[u8]) -> bool
    ensures { IsTrue result ↔ IsFor purpose.now value.now }
{
    match whole(Class::Universal, true, Tag::Sequence.0, value) {
        Some(content) => are_written(content, purpose),
        None => false,
    }
}
