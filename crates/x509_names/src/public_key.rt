//! Public keys by their kinds (RFC 3279, 2.3; RFC 4491, 2.3; RFC 9215, 4; RFC 5480, 2).

ghost use Rattle.std.specs.Prelude.{◌≡◌, ℕ, List, Ok, Some, IfOk, IfErr, IfSome, IsSomeAnd, option_map};
ghost use Rattle.asn1_any.specs.Views.{any_of};
ghost use Rattle.x509_core.specs.asn1_traits.specs.Reads.{Reads};
ghost use Rattle.asn1_core.specs.declared.outcome.Err.TheVariants as refusals;
ghost use Rattle.x509_core.specs.Answers.{Gives, ElseMemory};
ghost use Rattle.x509_core.specs.Errors.{told};
ghost use Rattle.x509_core.specs.Grammar.{Holds};
ghost use Rattle.x509_core.specs.Reading.{content_in, next};
ghost use Rattle.x509_names.specs.Fields.{RsaKey, KeyValue};
ghost use Rattle.x509_core.specs.Fronts.{TakesNoMemory, one_rest};
ghost use Rattle.x509_names.specs.PublicKeys as grammar;
ghost use Rattle.x509_names.specs.PublicKeys.{IsExponent, rsa_bits, ec_bits, key_bits};
ghost use Rattle.x509_names.specs.Reading.{integer_at, octets_at, rsa_key_in, rsa_key_at, key_value_of};
ghost use Rattle.x509_names.specs.View.{rsa_view, public_key_view};

use crate::leaves::{integer_of, octets_of};
use asn1_any::Element;
use asn1_core::{Err as Refusal, Error, HeaderCount};
use asn1_values::Integer;
use std::alloc::Global;
use x509_core::{DerMeaning, FromDer, X509Error, X509Result, front_element};

/// rsaEncryption, 1.2.840.113549.1.1.1.
const RSA_ENCRYPTION: &[u8] = b"\x2a\x86\x48\x86\xf7\x0d\x01\x01\x01";

/// id-ecPublicKey, 1.2.840.10045.2.1.
const EC_PUBLIC_KEY: &[u8] = b"\x2a\x86\x48\xce\x3d\x02\x01";

/// id-dsa, 1.2.840.10040.4.1.
const DSA: &[u8] = b"\x2a\x86\x48\xce\x38\x04\x01";

/// id-GostR3410-2001, 1.2.643.2.2.19.
const GOST_R3410_2001: &[u8] = b"\x2a\x85\x03\x02\x02\x13";

/// id-tc26-gost3410-12-256, 1.2.643.7.1.1.1.1.
const GOST_R3410_2012_256: &[u8] = b"\x2a\x85\x03\x07\x01\x01\x01\x01";

/// id-tc26-gost3410-12-512, 1.2.643.7.1.1.1.2.
const GOST_R3410_2012_512: &[u8] = b"\x2a\x85\x03\x07\x01\x01\x01\x02";

/// A public key by the kind of its algorithm.
#[derive(Debug, Drop, PartialEq, Eq)]
pub enum PublicKey<'a> {
    /// An RSA key (RFC 3279, 2.3.1).
    RSA(RSAPublicKey<'a>),
    /// A point of an elliptic curve (RFC 5480, 2.2).
    EC(ECPoint<'a>),
    /// A DSA key: the content octets of an INTEGER (RFC 3279, 2.3.2).
    DSA(&'a [u8]),
    /// A GOST R 34.10-2001 key: the content octets of an OCTET STRING (RFC 4491, 2.3.2).
    GostR3410(&'a [u8]),
    /// A GOST R 34.10-2012 key: the content octets of an OCTET STRING (RFC 9215, 4).
    GostR3410_2012(&'a [u8]),
    /// The octets of a key of another algorithm, unparsed.
    Unknown(&'a [u8]),
}

impl<'a> PublicKey<'a> {
    /// The key's size in bits, or 0 for kinds without one. It saturates at the greatest `usize`.
    pub fn key_size(&self) -> usize
        ensures { result ≡ key_bits (public_key_view self.now) }
    {
        match self {
            PublicKey::RSA(key) => key.key_size(),
            PublicKey::EC(point) => point.key_size(),
            PublicKey::DSA(y) => y.len().saturating_mul(8),
            PublicKey::GostR3410(y) => y.len().saturating_mul(8),
            PublicKey::GostR3410_2012(_) => 0,
            PublicKey::Unknown(_) => 0,
        }
    }
}

/// An RSA key (RFC 3279, 2.3.1).
#[derive(Debug, Drop, PartialEq, Eq)]
pub struct RSAPublicKey<'a> {
    /// The content octets of the modulus; the first is 00 if the highest bit of the number is set.
    pub modulus: &'a [u8],
    /// The content octets of the public exponent; the first is 00 if the highest bit of the number
    /// is set.
    pub exponent: &'a [u8],
}

impl<'a> RSAPublicKey<'a> {
    /// The public exponent as a number.
    ///
    /// # Errors
    ///
    /// `InvalidNumber` if it is empty, negative, or longer than 8 octets.
    pub fn try_exponent(&self) -> Result<u64, X509Error>
        ensures found { IfOk result (λ n. IsExponent self.now.exponent.now n) }
        ensures only { (n : ℕ) → IsExponent self.now.exponent.now n → result ≡ Ok n }
        ensures refused { IfErr result (λ e. e ≡ X509Error.InvalidNumber) }
    {
        match exponent_of(self.exponent) {
            Some(number) => Ok(number),
            None => Err(X509Error::InvalidNumber),
        }
    }

    /// The size in bits: 8 for each octet of the modulus but the first; 0 if the modulus is empty
    /// or negative.
    pub fn key_size(&self) -> usize
        ensures { result ≡ rsa_bits self.now.modulus.now }
    {
        match self.modulus {
            [] => 0,
            [first, octets @ ..] => {
                if *first < 0x80 {
                    octets.len().saturating_mul(8)
                } else {
                    0
                }
            }
        }
    }
}

/// The number of at most 8 content octets, or `None` if it is empty or negative.
fn exponent_of(content: &[u8]) -> Option<u64>
    ensures found { IfSome result (IsExponent content.now) }
    ensures only { (n : ℕ) → IsExponent content.now n → result ≡ Some n }
{
    if content.len() > 8 {
        return None;
    }
    match Integer::new(content).as_u64() {
        Ok(number) => Some(number),
        Err(_) => None,
    }
}

/// A point of an elliptic curve, as octets (SEC 1, 2.3.3).
#[derive(Debug, Drop, PartialEq, Eq)]
pub struct ECPoint<'a> {
    content: &'a [u8],
}

impl<'a> ECPoint<'a> {
    /// The octets of the point.
    pub fn data(&self) -> &'a [u8]
        ensures { result ≡ self.now.content }
    {
        self.content
    }

    /// The size of a coordinate in bits: of half of the octets after 04, or of all octets after 02
    /// or 03; else 0.
    pub fn key_size(&self) -> usize
        ensures { result ≡ ec_bits self.now.content.now }
    {
        match self.content {
            [] => 0,
            [form, octets @ ..] => {
                if *form == 4 {
                    octets.len().saturating_mul(4)
                } else if *form == 2 || *form == 3 {
                    octets.len().saturating_mul(8)
                } else {
                    0
                }
            }
        }
    }
}

impl<'a> From<&'a [u8]> for ECPoint<'a> {
    ghost use Rattle.std.specs.Prelude.{◌≡◌};

    ghost from_gives = { λ octets point. point.content ≡ octets };

    fn from(octets: &'a [u8]) -> ECPoint<'a> {
        ECPoint { content: octets }
    }
}

/// Reads an INTEGER from the front. Returns `(rest, content)`.
fn front_integer<'a>(i: &'a [u8]) -> Result<(&'a [u8], &'a [u8]), Refusal<X509Error>>
    ensures read { Gives (λ r. (r.1.now, r.0.now)) result (integer_at i.now) }
    ensures memory { IfErr result TakesNoMemory }
{
    let mut count = HeaderCount::new();
    let (rest, element) = front_element(i, &mut count)?;
    let content = integer_of(element.any)?;
    Ok((rest, content))
}

/// Reads an OCTET STRING from the front. Returns `(rest, content)`.
fn front_octets<'a>(i: &'a [u8]) -> Result<(&'a [u8], &'a [u8]), Refusal<X509Error>>
    ensures read { Gives (λ r. (r.1.now, r.0.now)) result (octets_at i.now) }
    ensures memory { IfErr result TakesNoMemory }
{
    let mut count = HeaderCount::new();
    let (rest, element) = front_element(i, &mut count)?;
    let content = octets_of(element.any)?;
    Ok((rest, content))
}

/// Reads the RSA key in an element.
#[tactic(auto, unfolding(crate::specs::Reading::rsa_key_in))]
fn rsa_key_of<'a>(element: Element<'a>) -> Result<RSAPublicKey<'a>, Refusal<X509Error>>
    ensures read { Gives rsa_view result (rsa_key_in (any_of element.entry.any)) }
    ensures memory { IfErr result TakesNoMemory }
{
    if element.any.tag().0 != 16 {
        return Err(Refusal::Error(X509Error::Der(Error::InvalidTag)));
    }
    let (rest, modulus) = front_integer(element.any.content)?;
    let (_, exponent) = front_integer(rest)?;
    Ok(RSAPublicKey { modulus, exponent })
}

/// Reads an RSA key from the front. Returns `(rest, key)`.
fn front_rsa_key<'a>(i: &'a [u8]) -> Result<(&'a [u8], RSAPublicKey<'a>), Refusal<X509Error>>
    ensures read { Gives (λ r. (rsa_view r.1, r.0.now)) result (next (λ p. rsa_key_in p.element) i.now) }
    ensures memory { IfErr result TakesNoMemory }
{
    let mut count = HeaderCount::new();
    let (rest, element) = front_element(i, &mut count)?;
    let key = rsa_key_of(element)?;
    Ok((rest, key))
}

fn rsa_key_at_front<'a>(i: &'a [u8]) -> X509Result<'a, RSAPublicKey<'a>>
    ensures exact { Gives (λ r. (rsa_view r.1, r.0.now)) result (rsa_key_at i.now) }
    ensures refused { IfErr result (λ e. e ≡ refusals.Error X509Error.InvalidSPKI) }
{
    match front_rsa_key(i) {
        Ok(read) => Ok(read),
        Err(_) => Err(Refusal::Error(X509Error::InvalidSPKI)),
    }
}

impl<'b> DerMeaning for RSAPublicKey<'b> {
    ghost der_reads = { λ i v r. grammar.RSAPublicKey i (rsa_view v) r };

    ghost der_cut = { λ _ _. ⊥ };

    ghost one_rest = { λ i v w r s left right. one_rest (Holds 16 grammar.RsaParts) i (rsa_view v) (rsa_view w) r s left right };
}

impl<'a> FromDer<'a, X509Error> for RSAPublicKey<'a> {
    /// Reads one RSAPublicKey from the front of `bytes` (RFC 3279, 2.3.1). Returns `(rest, key)`.
    /// Takes no memory.
    ///
    /// # Errors
    ///
    /// `InvalidSPKI` for everything else, also if `bytes` ends inside the key.
    fn from_der(_alloc: Global, bytes: &'a [u8]) -> X509Result<'a, RSAPublicKey<'a>>
        ensures reads { Reads (λ given e. e ≡ told given) ⊥ (λ _ _. ⊥) (λ i. i.now)
            (λ i v r. grammar.RSAPublicKey i (rsa_view v) r) bytes.now result }
        ensures exact { Gives (λ r. (rsa_view r.1, r.0.now)) result (rsa_key_at bytes.now) }
        ensures found { IfOk result (λ r. grammar.RSAPublicKey bytes.now (rsa_view r.1) r.0.now) }
        ensures only { (v : RsaKey) (rest : List ℕ) → grammar.RSAPublicKey bytes.now v rest
            → ElseMemory result (λ r. (rsa_view r.1 ≡ v) × (r.0.now ≡ rest)) }
        ensures refused { IfErr result (λ e. e ≡ refusals.Error X509Error.InvalidSPKI) }
    {
        rsa_key_at_front(bytes)
    }
}

/// Parses the octets of a key by the content octets of its algorithm's identifier; `None` if they
/// are no such key.
pub(crate) fn key_value<'a>(identifier: &[u8], octets: &'a [u8]) -> Option<PublicKey<'a>>
    ensures found { IfSome result (λ k. grammar.IsKeyValue identifier.now octets.now (public_key_view k)) }
    ensures only { (v : KeyValue) → grammar.IsKeyValue identifier.now octets.now v → IsSomeAnd result (λ k. public_key_view k ≡ v) }
{
    kind_of(identifier, octets)
}

#[tactic(auto, unfolding(crate::specs::Reading::key_value_of))]
fn kind_of<'a>(identifier: &[u8], octets: &'a [u8]) -> Option<PublicKey<'a>>
    ensures { option_map public_key_view result ≡ key_value_of identifier.now octets.now }
{
    if identifier == RSA_ENCRYPTION {
        return match rsa_key_at_front(octets) {
            Ok((_, key)) => Some(PublicKey::RSA(key)),
            Err(_) => None,
        };
    }
    if identifier == EC_PUBLIC_KEY {
        return Some(PublicKey::EC(ECPoint::from(octets)));
    }
    if identifier == DSA {
        return match front_integer(octets) {
            Ok((_, y)) => Some(PublicKey::DSA(y)),
            Err(_) => None,
        };
    }
    if identifier == GOST_R3410_2001 {
        return match front_octets(octets) {
            Ok((_, y)) => Some(PublicKey::GostR3410(y)),
            Err(_) => None,
        };
    }
    if identifier == GOST_R3410_2012_256 || identifier == GOST_R3410_2012_512 {
        return match front_octets(octets) {
            Ok((_, y)) => Some(PublicKey::GostR3410_2012(y)),
            Err(_) => None,
        };
    }
    Some(PublicKey::Unknown(octets))
}
