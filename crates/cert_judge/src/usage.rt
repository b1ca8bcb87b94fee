//! keyUsage (RFC 5280, 4.2.1.3): a named bit list without trailing zero bits (X.690, 11.2.2), of
//! which keyCertSign is asked.

ghost use Rattle.std.specs.Prelude.{◌≡◌, ◌↔◌, ◌<◌, ◌≤◌, ◌+◌, ◌*◌, ℕ, List, [], ◌∷◌, ◌++◌, length, IsTrue, IfSome, IsSomeAnd};
ghost use Rattle.cert_model.specs.Fields.{Bits};
ghost use Rattle.cert_model.specs.Range.{AreBits};
ghost use Rattle.cert_judge.specs.Usage.{EndsInOne, IsUsage, IsKeyUsage, MaySignCertificates};

use asn1_core::{Class, Tag};
use cert_model::bits_of;
use cert_model::parts::whole;

/// How many bits KeyUsage names, and in how many octets they lie.
const NAMED_BITS: usize = 9;

const NAMED_OCTETS: usize = 2;

/// keyCertSign (5) in the first octet, whose bits count from the most significant one.
const KEY_CERT_SIGN: u8 = 0x04;

fn ends_in_one(unused: u8, octets: &[u8]) -> bool
    requires { unused < 8 }
    ensures { IsTrue result ↔ EndsInOne (record { unused = unused; octets = octets.now }) }
{
    match octets.split_last() {
        None => false,
        Some((last, _)) => *last / (1u8 << unused) % 2 == 1,
    }
}

fn is_usage(unused: u8, octets: &[u8]) -> bool
    requires { AreBits (record { unused = unused; octets = octets.now }) }
    ensures { IsTrue result ↔ IsUsage (record { unused = unused; octets = octets.now }) }
{
    if unused >= 8 || octets.len() > NAMED_OCTETS {
        return false;
    }
    if 8 * octets.len() > NAMED_BITS + unused as usize {
        return false;
    }
    ends_in_one(unused, octets)
}

fn may_sign(unused: u8, octets: &[u8]) -> bool
    ensures { IsTrue result ↔ MaySignCertificates (record { unused = unused; octets = octets.now }) }
{
    match octets {
        [] => false,
        [first, ..] => *first / KEY_CERT_SIGN % 2 == 1,
    }
}

/// Whether the octets of the value have keyCertSign, if they are well written.
pub(crate) fn signs_by(value: &[u8]) -> Option<bool>
    ensures found { IfSome result (λ sign. (b : Bits) × IsKeyUsage value.now b × (IsTrue sign ↔ MaySignCertificates b)) }
    ensures only { (b : Bits) → IsKeyUsage value.now b → IsSomeAnd result (λ sign. IsTrue sign ↔ MaySignCertificates b) }
{
    let content = whole(Class::Universal, false, Tag::BitString.0, value)?;
    let (unused, octets) = bits_of(content)?;
    if is_usage(unused, octets) {
        Some(may_sign(unused, octets))
    } else {
        None
    }
}
